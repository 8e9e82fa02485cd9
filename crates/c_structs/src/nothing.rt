//! The fields of a frame of which nothing is parsed.

ghost use Rattle.std.specs.Prelude.{◌≡◌};
ghost use Rattle.c_structs.specs.Addresses.{no_endpoint};
ghost use Rattle.c_structs.specs.Nothing.{no_icmp, nothing_of};

use crate::codes::{NetworkKind, Reason, TransportKind, Verdict};
use crate::types::{Addr, Arp, Endpoint, Ethernet, FrameFields, Icmp, Ip, Tcp};

impl Endpoint {
    // No address.
    fn none() -> Endpoint
        ensures { result ≡ no_endpoint }
    {
        Endpoint {
            addr: Addr {
                octets: [0; 16],
                version: 0,
            },
            port: 0,
        }
    }
}

impl Icmp {
    // No header.
    #[inline(always)]
    fn none() -> Icmp
        ensures { result ≡ no_icmp }
    {
        Icmp {
            word: 0,
            msg_type: 0,
            code: 0,
        }
    }
}

impl FrameFields {
    /// The fields of `len` bytes, which are too few for the first header.
    #[inline(always)]
    pub fn nothing(len: usize) -> FrameFields
        ensures { result ≡ nothing_of len }
    {
        FrameFields {
            network_offset: 0,
            transport_offset: 0,
            payload_offset: 0,
            payload_len: len,
            payload_captured: 0,
            src: Endpoint::none(),
            dst: Endpoint::none(),
            ip: Ip {
                ident: 0,
                flow_label: 0,
                fragment_offset: 0,
                protocol: 0,
                hop_limit: 0,
                dscp: 0,
                ecn: 0,
                more_fragments: 0,
                dont_fragment: 0,
            },
            tcp: Tcp {
                seq_number: 0,
                ack_number: 0,
                window_len: 0,
                urgent_at: 0,
                flags: 0,
                header_len: 0,
            },
            ethernet: Ethernet {
                src: [0; 6],
                dst: [0; 6],
                ethertype: 0,
            },
            arp: Arp {
                operation: 0,
                src_hardware: [0; 6],
                dst_hardware: [0; 6],
            },
            reason: Reason::TooShort.code(),
            network: NetworkKind::None.code(),
            transport: TransportKind::None.code(),
            rejected: TransportKind::None.code(),
            is_fragment: 0,
            ipv4_checksum: Verdict::None.code(),
            transport_checksum: Verdict::None.code(),
            protocol: 0,
            unused: [0; 4],
            icmp: Icmp::none(),
        }
    }
}
