//! Setters of UDP packets that update the checksum too (RFC 1624). A checksum of 0, which means that
//! there is none, stays 0.

ghost use Rattle.std.specs.Prelude.{◌≡◌, ◌≢◌, ◌%◌, ◌≤◌, Bool, List, ℕ, length};
ghost use Rattle.wire_checksum.specs.WordSum.{sum_of_bytes};
ghost use Rattle.wire_addr.specs.IpAddress.{address_bytes, version_of};
ghost use Rattle.wire_addr.specs.declared.ip_address.IpAddress.{IpAddress};
ghost use Rattle.wire_udp.specs.Udp.{Becomes, HasChecksum, HasLengths, Reads, dst_port_of, packet_bytes_mut, src_port_of, with_dst_port, with_src_port, with_updated_checksum};
ghost use Rattle.wire_udp.specs.declared.udp.repr.UdpRepr.{UdpRepr};

use super::{UdpPacketMut, checksum_for};
use net_base::laws::bytes_fit;
use wire_addr::IpAddress;
use wire_checksum::checksum;

impl<'a> UdpPacketMut<'a> {
    /// Updates the checksum after words that it covers changed. `old` and `new` are the sums of these
    /// words before and after, as of `checksum::data`.
    pub fn update_checksum(&mut self, old: u16, new: u16)
        requires { 8 ≤ length (packet_bytes_mut self.old) }
        ensures { Becomes self.old self.new (with_updated_checksum (packet_bytes_mut self.old) old new) }
    {
        let checksum = self.checksum();
        if checksum != 0 {
            self.set_checksum(checksum_for(!checksum::update(checksum, old, new)));
        }
    }

    /// Writes the source port, and updates the checksum.
    pub fn update_src_port(&mut self, value: u16)
        requires { 8 ≤ length (packet_bytes_mut self.old) }
        ensures value { let bytes = packet_bytes_mut self.old in
            Becomes self.old self.new (with_updated_checksum (with_src_port bytes value) (src_port_of bytes) value) }
        ensures valid { (src dst : IpAddress) → length (address_bytes src) % 2 ≡ 0 → length (address_bytes dst) % 2 ≡ 0
            → HasLengths (packet_bytes_mut self.old) → HasChecksum src dst (packet_bytes_mut self.old) → HasChecksum src dst (packet_bytes_mut self.new) }
        ensures reads { (src dst : IpAddress) (verified : Bool) (v : UdpRepr) (payload : List ℕ) → length (address_bytes src) % 2 ≡ 0 → length (address_bytes dst) % 2 ≡ 0
            → Reads (packet_bytes_mut self.old) src dst verified v payload
            → Reads (packet_bytes_mut self.new) src dst verified (record v { src_port = value }) payload }
    {
        bytes_fit(self.as_bytes());
        let old = self.src_port();
        self.set_src_port(value);
        self.update_checksum(old, value);
    }

    /// Writes the destination port, and updates the checksum.
    pub fn update_dst_port(&mut self, value: u16)
        requires { 8 ≤ length (packet_bytes_mut self.old) }
        ensures value { let bytes = packet_bytes_mut self.old in
            Becomes self.old self.new (with_updated_checksum (with_dst_port bytes value) (dst_port_of bytes) value) }
        ensures valid { (src dst : IpAddress) → length (address_bytes src) % 2 ≡ 0 → length (address_bytes dst) % 2 ≡ 0
            → HasLengths (packet_bytes_mut self.old) → HasChecksum src dst (packet_bytes_mut self.old) → HasChecksum src dst (packet_bytes_mut self.new) }
        ensures reads { (src dst : IpAddress) (verified : Bool) (v : UdpRepr) (payload : List ℕ) → length (address_bytes src) % 2 ≡ 0 → length (address_bytes dst) % 2 ≡ 0
            → value ≢ 0 → Reads (packet_bytes_mut self.old) src dst verified v payload
            → Reads (packet_bytes_mut self.new) src dst verified (record v { dst_port = value }) payload }
    {
        bytes_fit(self.as_bytes());
        let old = self.dst_port();
        self.set_dst_port(value);
        self.update_checksum(old, value);
    }

    /// Updates the checksum after one address of the IP header changed, source or destination. The
    /// checksum covers both addresses by the pseudo-header.
    pub fn update_address(&mut self, old: &IpAddress, new: &IpAddress)
        requires header { 8 ≤ length (packet_bytes_mut self.old) }
        requires family { version_of old.now ≡ version_of new.now }
        ensures value { Becomes self.old self.new (with_updated_checksum (packet_bytes_mut self.old) (sum_of_bytes (address_bytes old.now)) (sum_of_bytes (address_bytes new.now))) }
        ensures valid_src { (dst : IpAddress) → length (address_bytes dst) % 2 ≡ 0 → HasLengths (packet_bytes_mut self.old)
            → HasChecksum old.now dst (packet_bytes_mut self.old) → HasChecksum new.now dst (packet_bytes_mut self.new) }
        ensures valid_dst { (src : IpAddress) → length (address_bytes src) % 2 ≡ 0 → HasLengths (packet_bytes_mut self.old)
            → HasChecksum src old.now (packet_bytes_mut self.old) → HasChecksum src new.now (packet_bytes_mut self.new) }
        ensures reads_src { (dst : IpAddress) (verified : Bool) (v : UdpRepr) (payload : List ℕ) → length (address_bytes dst) % 2 ≡ 0
            → Reads (packet_bytes_mut self.old) old.now dst verified v payload → Reads (packet_bytes_mut self.new) new.now dst verified v payload }
        ensures reads_dst { (src : IpAddress) (verified : Bool) (v : UdpRepr) (payload : List ℕ) → length (address_bytes src) % 2 ≡ 0
            → Reads (packet_bytes_mut self.old) src old.now verified v payload → Reads (packet_bytes_mut self.new) src new.now verified v payload }
    {
        bytes_fit(self.as_bytes());
        self.update_checksum(checksum::address(old), checksum::address(new));
    }
}
