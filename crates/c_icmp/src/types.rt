//! The structs of `include/ip_wire.h` for neighbour discovery, ICMP errors and host answers.

use c_structs::Addr;

/// `struct lk_ndisc`: a neighbour solicitation or advertisement.
#[repr(C)]
#[derive(Clone, Copy)]
pub struct Ndisc {
    /// Of version 6.
    pub target: Addr,
    /// The link-layer address option, if `has_hardware` is not 0.
    pub hardware: [u8; 6],
    pub has_hardware: u8,
    /// Not 0 for an advertisement. Only an advertisement has the next three fields.
    pub is_advert: u8,
    pub is_router: u8,
    pub is_solicited: u8,
    pub overrides: u8,
}

/// `struct lk_interface`: an interface of a host or router.
#[repr(C)]
#[derive(Clone, Copy)]
pub struct InterfaceFields {
    /// Of version 4.
    pub ipv4: Addr,
    /// Of version 6.
    pub ipv6: Addr,
    pub hardware: [u8; 6],
}

/// `struct lk_host`: a host with one interface and no connections.
#[repr(C)]
#[derive(Clone, Copy)]
pub struct HostFields<'a> {
    /// The open TCP ports.
    pub open_ports: &'a [u16],
    /// The UDP ports that the caller serves: what comes to them gets no answer.
    pub open_udp_ports: &'a [u16],
    /// Of version 4.
    pub ipv4: Addr,
    /// Of version 6.
    pub ipv6: Addr,
    pub hardware: [u8; 6],
    /// The UDP port of the echo service; 0 for no service.
    pub echo_port: u16,
    /// Of the SYN that an open port sends.
    pub seq_number: u32,
    /// Of its timestamp.
    pub tsval: u32,
    pub window_len: u16,
    pub max_seg_size: u16,
    /// At most 14 is sent.
    pub window_scale: u8,
    /// Not 0 for a router: neighbour advertisements have the flag R.
    pub is_router: u8,
}
