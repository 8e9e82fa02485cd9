//! Why a frame is rejected, as the numbers of `include/ip_wire.h`.

ghost use Rattle.std.specs.Prelude.{◌≡◌, pos};
ghost use Rattle.c_routing.specs.Rejections.{of_header, of_nat, of_source, rejection_code};

use app_router::source::SourceFault;
use ip_wire::HeaderFault;

/// `enum lk_rejection`: why a frame is not forwarded, translated or accepted. If several reasons apply, it is the
/// first of them in this order.
#[derive(Clone, Copy)]
pub enum Rejection {
    NotRejected,
    /// The endpoint to be written has no IPv4 address.
    NoIpv4,
    /// No Ethernet header, or an EtherType that the call does not take.
    NotIp,
    /// The version of the IP header does not match the EtherType, or its lengths are invalid.
    BadHeader,
    /// The checksum of the IPv4 header is wrong.
    WrongChecksum,
    /// The hop limit is 0 or 1.
    Expired,
    /// The packet is a fragment.
    Fragment,
    /// The packet carries neither UDP nor TCP, nor an ICMP message that is translated.
    OtherProtocol,
    /// The UDP or TCP header or the ICMP message does not parse, or its checksum is wrong.
    BadTransport,
    /// The port to be written is 0, and a receiver would reject it.
    ZeroPort,
    /// No live mapping belongs to the packet, or to the one that an ICMP error quotes.
    NoMapping,
    /// No outside port is free.
    NoFreePort,
    /// No host may send from this address.
    Martian,
    /// There is no route back.
    NoRoute,
    /// The route back leads to another interface.
    OtherInterface,
}

impl Rejection {
    /// Its number for C.
    pub fn code(self) -> i32
        ensures { result ≡ pos (rejection_code self) }
    {
        i32::from(self as u8)
    }

    /// The rejection for an IP header.
    pub fn of_header(fault: HeaderFault) -> Rejection
        ensures { result ≡ of_header fault }
    {
        match fault {
            HeaderFault::NotIp => Rejection::NotIp,
            HeaderFault::BadHeader => Rejection::BadHeader,
            HeaderFault::WrongChecksum => Rejection::WrongChecksum,
            HeaderFault::Expired => Rejection::Expired,
        }
    }

    /// The rejection of NAT.
    pub fn of_nat(reason: app_nat::Rejection) -> Rejection
        ensures { result ≡ of_nat reason }
    {
        match reason {
            app_nat::Rejection::NotIpv4 => Rejection::NotIp,
            app_nat::Rejection::BadHeader => Rejection::BadHeader,
            app_nat::Rejection::WrongChecksum => Rejection::WrongChecksum,
            app_nat::Rejection::Fragment => Rejection::Fragment,
            app_nat::Rejection::OtherProtocol => Rejection::OtherProtocol,
            app_nat::Rejection::BadTransport => Rejection::BadTransport,
            app_nat::Rejection::ZeroPort => Rejection::ZeroPort,
            app_nat::Rejection::NoMapping => Rejection::NoMapping,
            app_nat::Rejection::NoFreePort => Rejection::NoFreePort,
        }
    }

    /// The rejection for a source.
    pub fn of_source(fault: SourceFault) -> Rejection
        ensures { result ≡ of_source fault }
    {
        match fault {
            SourceFault::Martian => Rejection::Martian,
            SourceFault::NoRoute => Rejection::NoRoute,
            SourceFault::OtherInterface => Rejection::OtherInterface,
        }
    }
}
