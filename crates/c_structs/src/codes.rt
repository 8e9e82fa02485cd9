//! The enums of `include/ip_wire.h`, whose numbers are stored in bytes.

ghost use Rattle.std.specs.Prelude.{◌≡◌};
ghost use Rattle.c_structs.specs.Codes.{network_code, reason_code, transport_code, verdict_code};

/// `enum lk_reason`: why a header was rejected. If several reasons apply to a header, it is the first of
/// them in this order.
#[derive(Clone, Copy)]
pub enum Reason {
    /// No header was rejected.
    Read,
    TooShort,
    BadVersion,
    BadLength,
    OtherArp,
    PortZero,
    BadFlags,
    BadOptions,
    /// Not all bytes of the header were captured.
    HeaderCut,
    /// The link type is not known.
    UnknownLink,
    /// An IPv6 routing header has segments left.
    HopsLeft,
    /// IPv6 hop-by-hop options do not follow the IPv6 header directly.
    BadOrder,
}

impl Reason {
    /// Its number for C.
    pub fn code(self) -> u8
        ensures { result ≡ reason_code self }
    {
        self as u8
    }
}

/// `enum lk_network`: which network header a frame has.
#[derive(Clone, Copy)]
pub enum NetworkKind {
    None,
    Arp,
    Ipv4,
    Ipv6,
}

impl NetworkKind {
    /// Its number for C.
    pub fn code(self) -> u8
        ensures { result ≡ network_code self }
    {
        self as u8
    }
}

/// `enum lk_transport`: which transport header a frame has.
#[derive(Clone, Copy)]
pub enum TransportKind {
    None,
    Udp,
    Tcp,
    Icmp,
}

impl TransportKind {
    /// Its number for C.
    pub fn code(self) -> u8
        ensures { result ≡ transport_code self }
    {
        self as u8
    }
}

/// `enum lk_verdict`: what a checksum says.
#[derive(Clone, Copy)]
pub enum Verdict {
    /// There is no checksum to verify.
    None,
    Right,
    Wrong,
    /// UDP over IPv4: the sender computed none.
    LeftOut,
    /// The field contains only the sum of the pseudo-header (checksum offload).
    LeftToDevice,
    /// It covers bytes that were not captured.
    ChecksumCut,
}

impl Verdict {
    /// Its number for C.
    pub fn code(self) -> u8
        ensures { result ≡ verdict_code self }
    {
        self as u8
    }
}
