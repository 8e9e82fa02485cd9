//! Setters of IPv4 packets that update the checksum of the header too (RFC 1624).

ghost use Rattle.std.specs.Prelude.{◌≡◌, ◌*◌, ◌%◌, ◌≤◌, Bool, length};
ghost use Rattle.wire_checksum.specs.WordSum.{sum_of_bytes};
ghost use Rattle.net_base.specs.Field.{with_field, with_range};
ghost use Rattle.wire_ipv4.specs.Ipv4.{Becomes, HasChecksum, Reads, dscp_of, dst_addr_of, ecn_of, header_len, hop_limit_of, packet_bytes_mut, src_addr_of, with_updated_checksum};
ghost use Rattle.wire_ipv4.specs.declared.ipv4.repr.Ipv4Repr.{Ipv4Repr};

use super::Ipv4PacketMut;
use net_base::laws::bytes_fit;
use wire_addr::Ipv4Address;
use wire_checksum::checksum;

impl<'a> Ipv4PacketMut<'a> {
    /// Updates the checksum after words of the header changed. `old` and `new` are the sums of these
    /// words before and after, as of `checksum::data`.
    pub fn update_checksum(&mut self, old: u16, new: u16)
        requires { 12 ≤ length (packet_bytes_mut self.old) }
        ensures { Becomes self.old self.new (with_updated_checksum (packet_bytes_mut self.old) old new) }
    {
        self.set_checksum(checksum::update(self.checksum(), old, new));
    }

    /// Writes the differentiated services code point, cut to 6 bits, and updates the checksum.
    pub fn update_dscp(&mut self, value: u8)
        requires { 12 ≤ length (packet_bytes_mut self.old) }
        ensures value { let bytes = packet_bytes_mut self.old in
            Becomes self.old self.new (with_updated_checksum (with_field bytes 8 6 value) (4 * dscp_of bytes) (4 * (value % 64))) }
        ensures valid { 20 ≤ header_len (packet_bytes_mut self.old) → header_len (packet_bytes_mut self.old) ≤ length (packet_bytes_mut self.old)
            → HasChecksum (packet_bytes_mut self.old) → HasChecksum (packet_bytes_mut self.new) }
        ensures reads { (v : Ipv4Repr) (verified : Bool) → Reads (packet_bytes_mut self.old) verified v
            → Reads (packet_bytes_mut self.new) verified v }
    {
        bytes_fit(self.as_bytes());
        let old = u16::from(self.dscp()) << 2;
        self.set_dscp(value);
        self.update_checksum(old, u16::from(value % 64) << 2);
    }

    /// Writes the explicit congestion notification, cut to 2 bits, and updates the checksum.
    pub fn update_ecn(&mut self, value: u8)
        requires { 12 ≤ length (packet_bytes_mut self.old) }
        ensures value { let bytes = packet_bytes_mut self.old in
            Becomes self.old self.new (with_updated_checksum (with_field bytes 14 2 value) (ecn_of bytes) (value % 4)) }
        ensures valid { 20 ≤ header_len (packet_bytes_mut self.old) → header_len (packet_bytes_mut self.old) ≤ length (packet_bytes_mut self.old)
            → HasChecksum (packet_bytes_mut self.old) → HasChecksum (packet_bytes_mut self.new) }
        ensures reads { (v : Ipv4Repr) (verified : Bool) → Reads (packet_bytes_mut self.old) verified v
            → Reads (packet_bytes_mut self.new) verified v }
    {
        bytes_fit(self.as_bytes());
        let old = self.ecn();
        self.set_ecn(value);
        self.update_checksum(old.into(), (value % 4).into());
    }

    /// Writes the hop limit, and updates the checksum. A router calls it with one hop less.
    pub fn update_hop_limit(&mut self, value: u8)
        requires { 12 ≤ length (packet_bytes_mut self.old) }
        ensures value { let bytes = packet_bytes_mut self.old in
            Becomes self.old self.new (with_updated_checksum (with_field bytes 64 8 value) (256 * hop_limit_of bytes) (256 * value)) }
        ensures valid { 20 ≤ header_len (packet_bytes_mut self.old) → header_len (packet_bytes_mut self.old) ≤ length (packet_bytes_mut self.old)
            → HasChecksum (packet_bytes_mut self.old) → HasChecksum (packet_bytes_mut self.new) }
        ensures reads { (v : Ipv4Repr) (verified : Bool) → Reads (packet_bytes_mut self.old) verified v
            → Reads (packet_bytes_mut self.new) verified (record v { hop_limit = value }) }
    {
        bytes_fit(self.as_bytes());
        let old = u16::from(self.hop_limit()) << 8;
        self.set_hop_limit(value);
        self.update_checksum(old, u16::from(value) << 8);
    }

    /// Writes the source address, and updates the checksum. The checksum of a UDP packet or TCP segment
    /// covers this address too (`update_address`).
    pub fn update_src_addr(&mut self, value: Ipv4Address)
        requires { 16 ≤ length (packet_bytes_mut self.old) }
        ensures value { let bytes = packet_bytes_mut self.old in
            Becomes self.old self.new (with_updated_checksum (with_range bytes 12 16 value) (sum_of_bytes (src_addr_of bytes)) (sum_of_bytes value)) }
        ensures valid { 20 ≤ header_len (packet_bytes_mut self.old) → header_len (packet_bytes_mut self.old) ≤ length (packet_bytes_mut self.old)
            → HasChecksum (packet_bytes_mut self.old) → HasChecksum (packet_bytes_mut self.new) }
        ensures reads { (v : Ipv4Repr) (verified : Bool) → Reads (packet_bytes_mut self.old) verified v
            → Reads (packet_bytes_mut self.new) verified (record v { src_addr = value }) }
    {
        bytes_fit(self.as_bytes());
        let old = checksum::data(&self.src_addr().octets());
        self.set_src_addr(value);
        self.update_checksum(old, checksum::data(&value.octets()));
    }

    /// Writes the destination address, and updates the checksum. The checksum of a UDP packet or TCP
    /// segment covers this address too (`update_address`).
    pub fn update_dst_addr(&mut self, value: Ipv4Address)
        requires { 20 ≤ length (packet_bytes_mut self.old) }
        ensures value { let bytes = packet_bytes_mut self.old in
            Becomes self.old self.new (with_updated_checksum (with_range bytes 16 20 value) (sum_of_bytes (dst_addr_of bytes)) (sum_of_bytes value)) }
        ensures valid { 20 ≤ header_len (packet_bytes_mut self.old) → header_len (packet_bytes_mut self.old) ≤ length (packet_bytes_mut self.old)
            → HasChecksum (packet_bytes_mut self.old) → HasChecksum (packet_bytes_mut self.new) }
        ensures reads { (v : Ipv4Repr) (verified : Bool) → Reads (packet_bytes_mut self.old) verified v
            → Reads (packet_bytes_mut self.new) verified (record v { dst_addr = value }) }
    {
        bytes_fit(self.as_bytes());
        let old = checksum::data(&self.dst_addr().octets());
        self.set_dst_addr(value);
        self.update_checksum(old, checksum::data(&value.octets()));
    }
}
