//! Setters of TCP segments that update the checksum too (RFC 1624).

ghost use Rattle.std.specs.Prelude.{◌≡◌, ◌≢◌, ◌+◌, ◌%◌, ◌≤◌, Bool, IfSome, List, ℕ, drop, length};
ghost use Rattle.std.specs.Option.{option_map};
ghost use Rattle.byteorder.specs.Endian.{big_bytes, big_number};
ghost use Rattle.wire_checksum.specs.WordSum.{sum_of_bytes};
ghost use Rattle.wire_addr.specs.IpAddress.{address_bytes};
ghost use Rattle.wire_addr.specs.declared.ip_address.IpAddress.{IpAddress};
ghost use Rattle.net_base.specs.Field.{with_range};
ghost use Rattle.wire_tcp.specs.Tcp.{Becomes, Verifies, dst_port_of, header_len, packet_bytes_mut, src_port_of, window_len_of, with_dst_port, with_src_port, with_updated_checksum, with_window_len};
ghost use Rattle.wire_tcp.specs.TcpRepr.{Reads, TcpHeader};
ghost use Rattle.wire_tcp.specs.TcpSegmentSize.{max_seg_size_at, max_seg_size_of, with_max_seg_size, with_size_at};

use super::{TCP_HEADER_LEN, TcpPacketMut};
use byteorder::{ByteOrder, NetworkEndian};
use net_base::laws::bytes_fit;
use wire_addr::IpAddress;
use wire_checksum::checksum;
use wire_tcp_options::max_segment_size_at;

impl<'a> TcpPacketMut<'a> {
    /// Updates the checksum after words that it covers changed. `old` and `new` are the sums of these
    /// words before and after, as of `checksum::data`.
    pub fn update_checksum(&mut self, old: u16, new: u16)
        requires { 18 ≤ length (packet_bytes_mut self.old) }
        ensures { Becomes self.old self.new (with_updated_checksum (packet_bytes_mut self.old) old new) }
    {
        self.set_checksum(checksum::update(self.checksum(), old, new));
    }

    /// Writes the source port, and updates the checksum.
    pub fn update_src_port(&mut self, value: u16)
        requires { 18 ≤ length (packet_bytes_mut self.old) }
        ensures value { let bytes = packet_bytes_mut self.old in
            Becomes self.old self.new (with_updated_checksum (with_src_port bytes value) (src_port_of bytes) value) }
        ensures valid { (src dst : IpAddress) → length (address_bytes src) % 2 ≡ 0 → length (address_bytes dst) % 2 ≡ 0
            → Verifies src dst (packet_bytes_mut self.old) → Verifies src dst (packet_bytes_mut self.new) }
        ensures reads { (src dst : IpAddress) (verified : Bool) (v : TcpHeader) (payload : List ℕ) → length (address_bytes src) % 2 ≡ 0 → length (address_bytes dst) % 2 ≡ 0
            → value ≢ 0 → Reads (packet_bytes_mut self.old) src dst verified v payload
            → Reads (packet_bytes_mut self.new) src dst verified (record v { src_port = value }) payload }
    {
        bytes_fit(self.as_bytes());
        let old = self.src_port();
        self.set_src_port(value);
        self.update_checksum(old, value);
    }

    /// Writes the destination port, and updates the checksum.
    pub fn update_dst_port(&mut self, value: u16)
        requires { 18 ≤ length (packet_bytes_mut self.old) }
        ensures value { let bytes = packet_bytes_mut self.old in
            Becomes self.old self.new (with_updated_checksum (with_dst_port bytes value) (dst_port_of bytes) value) }
        ensures valid { (src dst : IpAddress) → length (address_bytes src) % 2 ≡ 0 → length (address_bytes dst) % 2 ≡ 0
            → Verifies src dst (packet_bytes_mut self.old) → Verifies src dst (packet_bytes_mut self.new) }
        ensures reads { (src dst : IpAddress) (verified : Bool) (v : TcpHeader) (payload : List ℕ) → length (address_bytes src) % 2 ≡ 0 → length (address_bytes dst) % 2 ≡ 0
            → value ≢ 0 → Reads (packet_bytes_mut self.old) src dst verified v payload
            → Reads (packet_bytes_mut self.new) src dst verified (record v { dst_port = value }) payload }
    {
        bytes_fit(self.as_bytes());
        let old = self.dst_port();
        self.set_dst_port(value);
        self.update_checksum(old, value);
    }

    /// Writes the window, and updates the checksum. The window scale option is not applied.
    pub fn update_window_len(&mut self, value: u16)
        requires { 18 ≤ length (packet_bytes_mut self.old) }
        ensures value { let bytes = packet_bytes_mut self.old in
            Becomes self.old self.new (with_updated_checksum (with_window_len bytes value) (window_len_of bytes) value) }
        ensures valid { (src dst : IpAddress) → length (address_bytes src) % 2 ≡ 0 → length (address_bytes dst) % 2 ≡ 0
            → Verifies src dst (packet_bytes_mut self.old) → Verifies src dst (packet_bytes_mut self.new) }
        ensures reads { (src dst : IpAddress) (verified : Bool) (v : TcpHeader) (payload : List ℕ) → length (address_bytes src) % 2 ≡ 0 → length (address_bytes dst) % 2 ≡ 0
            → Reads (packet_bytes_mut self.old) src dst verified v payload
            → Reads (packet_bytes_mut self.new) src dst verified (record v { window_len = value }) payload }
    {
        bytes_fit(self.as_bytes());
        let old = self.window_len();
        self.set_window_len(value);
        self.update_checksum(old, value);
    }

    /// Writes the maximum segment size into its option, and updates the checksum. Returns the size
    /// before. Of several such options the last one counts. If there is none, or an option is malformed,
    /// it returns `None` and changes nothing.
    pub fn update_max_seg_size(&mut self, value: u16) -> Option<u16>
        requires begins { 20 ≤ header_len (packet_bytes_mut self.old) }
        requires ends { header_len (packet_bytes_mut self.old) ≤ length (packet_bytes_mut self.old) }
        ensures before { result ≡ max_seg_size_of (packet_bytes_mut self.old) }
        ensures value { Becomes self.old self.new (with_max_seg_size (packet_bytes_mut self.old) value) }
        ensures valid { (src dst : IpAddress) → length (address_bytes src) % 2 ≡ 0 → length (address_bytes dst) % 2 ≡ 0
            → Verifies src dst (packet_bytes_mut self.old) → Verifies src dst (packet_bytes_mut self.new) }
        ensures reads { (src dst : IpAddress) (verified : Bool) (v : TcpHeader) (payload : List ℕ) → length (address_bytes src) % 2 ≡ 0 → length (address_bytes dst) % 2 ≡ 0
            → Reads (packet_bytes_mut self.old) src dst verified v payload
            → (result ≡ v.max_seg_size) × Reads (packet_bytes_mut self.new) src dst verified (record v { max_seg_size = option_map (λ size. value) v.max_seg_size }) payload }
    {
        bytes_fit(self.as_bytes());
        match self.max_seg_size_at() {
            Some(at) => Some(self.replace_size(at, value)),
            None => None,
        }
    }

    // The index of the maximum segment size.
    fn max_seg_size_at(&self) -> Option<usize>
        requires begins { 20 ≤ header_len (packet_bytes_mut self.now) }
        requires ends { header_len (packet_bytes_mut self.now) ≤ length (packet_bytes_mut self.now) }
        ensures value { result ≡ max_seg_size_at (packet_bytes_mut self.now) }
        ensures begins { IfSome result (λ at. 20 ≤ at) }
        ensures ends { IfSome result (λ at. at + 2 ≤ header_len (packet_bytes_mut self.now)) }
    {
        match max_segment_size_at(self.option_bytes()) {
            Some(at) => Some(TCP_HEADER_LEN + at),
            None => None,
        }
    }

    // Writes a size at this index of the options, and updates the checksum. Returns the size before.
    fn replace_size(&mut self, at: usize, value: u16) -> u16
        requires begins { 20 ≤ at }
        requires inside { at + 2 ≤ header_len (packet_bytes_mut self.old) }
        requires ends { header_len (packet_bytes_mut self.old) ≤ length (packet_bytes_mut self.old) }
        ensures before { result ≡ big_number 2 (drop at (packet_bytes_mut self.old)) }
        ensures value { Becomes self.old self.new (with_size_at (packet_bytes_mut self.old) value at) }
    {
        let before = NetworkEndian::read_u16(&self.as_bytes()[at..]);
        let old = checksum::data(self.option_bytes());
        self.write_size(at, value);
        let new = checksum::data(self.option_bytes());
        self.update_checksum(old, new);
        before
    }

    // Writes a size at this index.
    fn write_size(&mut self, at: usize, value: u16)
        requires { at + 2 ≤ length (packet_bytes_mut self.old) }
        ensures { Becomes self.old self.new (with_range (packet_bytes_mut self.old) at (at + 2) (big_bytes 2 value)) }
    {
        NetworkEndian::write_u16(&mut self.buffer[at..at + 2], value);
    }

    /// Updates the checksum after one address of the IP header changed, source or destination. The
    /// checksum covers both addresses by the pseudo-header.
    pub fn update_address(&mut self, old: &IpAddress, new: &IpAddress)
        requires { 18 ≤ length (packet_bytes_mut self.old) }
        ensures value { Becomes self.old self.new (with_updated_checksum (packet_bytes_mut self.old) (sum_of_bytes (address_bytes old.now)) (sum_of_bytes (address_bytes new.now))) }
        ensures valid_src { (dst : IpAddress) → length (address_bytes dst) % 2 ≡ 0
            → Verifies old.now dst (packet_bytes_mut self.old) → Verifies new.now dst (packet_bytes_mut self.new) }
        ensures valid_dst { (src : IpAddress) → length (address_bytes src) % 2 ≡ 0
            → Verifies src old.now (packet_bytes_mut self.old) → Verifies src new.now (packet_bytes_mut self.new) }
        ensures reads_src { (dst : IpAddress) (verified : Bool) (v : TcpHeader) (payload : List ℕ) → length (address_bytes dst) % 2 ≡ 0
            → Reads (packet_bytes_mut self.old) old.now dst verified v payload → Reads (packet_bytes_mut self.new) new.now dst verified v payload }
        ensures reads_dst { (src : IpAddress) (verified : Bool) (v : TcpHeader) (payload : List ℕ) → length (address_bytes src) % 2 ≡ 0
            → Reads (packet_bytes_mut self.old) src old.now verified v payload → Reads (packet_bytes_mut self.new) src new.now verified v payload }
    {
        bytes_fit(self.as_bytes());
        self.update_checksum(checksum::address(old), checksum::address(new));
    }
}
