//! Laws of ICMP messages in the stored values.

ghost use Rattle.std.specs.Prelude.{List, ℕ, ◌++◌, length};
ghost use Rattle.ip_wire.specs.Types.{IpRepr};
ghost use Rattle.c_read.specs.Captured.{captured_of, captured_packet_of};
ghost use Rattle.c_read.specs.FrameFields.{bare_of, fields_of, packet_fields_of};
ghost use Rattle.c_read.specs.Links.{linked_of};
ghost use Rattle.c_read.specs.Messages.{CarriesIcmp, IsIcmp, IsNamed, LacksIcmp, StoresMessage};
ghost use Rattle.c_read.specs.Stored.{headed, headed_by};

/// A frame or packet that carries no ICMP message has no ICMP header. The same holds for its first bytes, if only those
/// were captured.
pub fn other_frames_have_no_icmp(bytes: &[u8])
    ensures frame { ((ip : IpRepr) (m : List ℕ) → ¬ CarriesIcmp bytes.now ip m) → LacksIcmp (fields_of bytes.now) }
    ensures packet { ((ip : IpRepr) (m : List ℕ) → ¬ IsIcmp bytes.now ip m) → LacksIcmp (packet_fields_of bytes.now) }
    ensures captured { (rest : List ℕ) → ((ip : IpRepr) (m : List ℕ) → ¬ CarriesIcmp (bytes.now ++ rest) ip m)
        → LacksIcmp (captured_of bytes.now (length rest)) }
    ensures captured_packet { (rest : List ℕ) → ((ip : IpRepr) (m : List ℕ) → ¬ IsIcmp (bytes.now ++ rest) ip m)
        → LacksIcmp (captured_packet_of bytes.now (length rest)) }
{}

/// A struct whose `transport` is not that of ICMP has no ICMP header, however much of the frame was captured.
pub fn only_messages_have_icmp(bytes: &[u8])
    ensures captured { (missing : ℕ) → IsNamed (captured_of bytes.now missing) }
    ensures captured_packet { (missing : ℕ) → IsNamed (captured_packet_of bytes.now missing) }
    ensures linked { (number len : ℕ) → IsNamed (linked_of number bytes.now len) }
{}

/// An ICMP message changes the fields of the transport and the place of the payload. All other fields are those of the
/// headers before it.
pub fn messages_are_stored(bytes: &[u8])
    ensures frame { (ip : IpRepr) (m : List ℕ) → (carries : CarriesIcmp bytes.now ip m)
        → StoresMessage (headed bytes.now carries.0 ip) ip m (fields_of bytes.now) }
    ensures packet { (ip : IpRepr) (m : List ℕ) → IsIcmp bytes.now ip m
        → StoresMessage (headed_by (bare_of (length bytes.now)) bytes.now ip) ip m (packet_fields_of bytes.now) }
{}
