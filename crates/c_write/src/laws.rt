//! A law of failures.

ghost use Rattle.std.specs.Prelude.{◌≡◌, Bool, List, is_none, is_some, length, ℕ};
ghost use Rattle.c_structs.specs.Addresses.{block_of, ip_of};
ghost use Rattle.c_structs.specs.Failures.{addr_failure, block_failure};
ghost use Rattle.c_write.specs.Failures.{arp_failure, ip_failure, options_failure, rebuild_failure, tcp_failure, tcp_frame_failure, udp_failure, udp_frame_failure};
ghost use Rattle.c_write.specs.Frames.{arp_frame, rebuilt_of, tcp_frame, tcp_packet, udp_frame, udp_packet};
ghost use Rattle.c_write.specs.Headers.{arp_bytes, ip_bytes, tcp_bytes, tcp_header_len, udp_bytes};
ghost use Rattle.c_structs.specs.declared.types.Addr.{Addr};
ghost use Rattle.c_structs.specs.declared.types.Arp.{Arp};
ghost use Rattle.c_structs.specs.declared.types.Block.{Block};
ghost use Rattle.c_structs.specs.declared.types.Endpoint.{Endpoint};
ghost use Rattle.c_structs.specs.declared.types.FrameFields.{FrameFields};
ghost use Rattle.c_structs.specs.declared.types.Ip.{Ip};
ghost use Rattle.c_structs.specs.declared.types.Tcp.{Tcp};
ghost use Rattle.c_structs.specs.declared.types.TcpOptions.{TcpOptions};

/// There is a failure exactly if there are no bytes to be written.
pub fn failures_are_exact()
    ensures addr { (a : Addr) → is_some (ip_of a) ≡ is_none (addr_failure a) }
    ensures block { (b : Block) → is_some (block_of b) ≡ is_none (block_failure b) }
    ensures arp { (h : Arp) (src dst : Addr) → is_some (arp_bytes h src dst) ≡ is_none (arp_failure src dst) }
    ensures ip { (h : Ip) (src dst : Addr) (len : ℕ) (computed : Bool) → is_some (ip_bytes h src dst len computed) ≡ is_none (ip_failure h src dst len) }
    ensures udp { (src dst : Endpoint) (payload : List ℕ) (computed : Bool) → is_some (udp_bytes src dst payload computed) ≡ is_none (udp_failure src dst (length payload)) }
    ensures tcp { (h : Tcp) (o : TcpOptions) (src dst : Endpoint) (payload : List ℕ) (computed : Bool) → is_some (tcp_bytes h o src dst payload computed) ≡ is_none (tcp_failure h o src dst (length payload)) }
    ensures options { (o : TcpOptions) → is_some (tcp_header_len o) ≡ is_none (options_failure o) }
    ensures udp_packet { (f : FrameFields) (payload : List ℕ) → is_some (udp_packet f payload) ≡ is_none (udp_frame_failure f (length payload)) }
    ensures tcp_packet { (f : FrameFields) (o : TcpOptions) (payload : List ℕ) → is_some (tcp_packet f o payload) ≡ is_none (tcp_frame_failure f o (length payload)) }
    ensures udp_frame { (f : FrameFields) (payload : List ℕ) → is_some (udp_frame f payload) ≡ is_none (udp_frame_failure f (length payload)) }
    ensures tcp_frame { (f : FrameFields) (o : TcpOptions) (payload : List ℕ) → is_some (tcp_frame f o payload) ≡ is_none (tcp_frame_failure f o (length payload)) }
    ensures arp_frame { (f : FrameFields) → is_some (arp_frame f) ≡ is_none (arp_failure f.src.addr f.dst.addr) }
    ensures rebuilt { (frame : List ℕ) → is_some (rebuilt_of frame) ≡ is_none (rebuild_failure frame) }
{}
