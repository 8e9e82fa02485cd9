//! UDP packets and TCP segments between endpoints.

ghost use Rattle.std.specs.Prelude.{◌≡◌, ◌≢◌, length, nat_le};
ghost use Rattle.ip_wire.specs.IpAddress.{version_of};
ghost use Rattle.ip_wire.specs.Udp.{bytes_of, max_payload_len};
ghost use Rattle.c_write.specs.Headers.{only_if, tcp_bytes, udp_bytes};
ghost use Rattle.c_structs.specs.Written.{Fills};

use crate::tcp::wrap_segment;
use crate::tcp_len::segment_header_len;
use c_structs::{Endpoint, Tcp, TcpOptions};
use ip_wire::{ChecksumCapabilities, IpAddress, UDP_MAX_PAYLOAD_LEN, UdpRepr};
use net_base::write_at;

/// Writes a UDP packet to the front of `out` and returns its length. `None` if it does not fit, or if there is an
/// `udp_failure`.
#[inline(always)]
pub fn emit_udp(
    src: &Endpoint,
    dst: &Endpoint,
    payload: &[u8],
    computed: bool,
    out: &mut [u8],
) -> Option<usize>
    ensures { Fills (udp_bytes src.now dst.now payload.now computed) out.old out.new result }
{
    if dst.port == 0 {
        return None;
    }
    let ports = UdpRepr {
        src_port: src.port,
        dst_port: dst.port,
    };
    match (src.addr.version, dst.addr.version) {
        (4, 4) => {
            let (src_addr, dst_addr) = (src.addr.ipv4(), dst.addr.ipv4());
            let (src_addr, dst_addr) = (IpAddress::Ipv4(src_addr), IpAddress::Ipv4(dst_addr));
            emit_udp_between(ports, src_addr, dst_addr, payload, computed, out)
        }
        (6, 6) => {
            let (src_addr, dst_addr) = (src.addr.ipv6(), dst.addr.ipv6());
            let (src_addr, dst_addr) = (IpAddress::Ipv6(src_addr), IpAddress::Ipv6(dst_addr));
            emit_udp_between(ports, src_addr, dst_addr, payload, computed, out)
        }
        _ => None,
    }
}

// Writes a UDP packet between two addresses. It is compiled for each version apart.
#[inline(always)]
fn emit_udp_between(
    ports: UdpRepr,
    src_addr: IpAddress,
    dst_addr: IpAddress,
    payload: &[u8],
    computed: bool,
    out: &mut [u8],
) -> Option<usize>
    requires { version_of src_addr ≡ version_of dst_addr }
    ensures { Fills (only_if (nat_le (length payload.now) max_payload_len) (bytes_of ports payload.now src_addr dst_addr computed)) out.old out.new result }
{
    if payload.len() > UDP_MAX_PAYLOAD_LEN {
        return None;
    }
    let caps = if computed {
        ChecksumCapabilities::default()
    } else {
        ChecksumCapabilities::ignored()
    };
    ports.try_emit(out, &src_addr, &dst_addr, payload, &caps)
}

/// Writes a TCP segment to the front of `out` and returns its length. `None` if it does not fit, or if there is
/// a `tcp_failure`.
#[inline(always)]
pub fn emit_tcp(
    header: &Tcp,
    options: &TcpOptions,
    src: &Endpoint,
    dst: &Endpoint,
    payload: &[u8],
    computed: bool,
    out: &mut [u8],
) -> Option<usize>
    ensures { Fills (tcp_bytes header.now options.now src.now dst.now payload.now computed) out.old out.new result }
{
    if src.port == 0 || dst.port == 0 {
        return None;
    }
    emit_segment(header, options, src, dst, payload, computed, out)
}

// Writes a segment between two ports.
#[inline(always)]
fn emit_segment(
    header: &Tcp,
    options: &TcpOptions,
    src: &Endpoint,
    dst: &Endpoint,
    payload: &[u8],
    computed: bool,
    out: &mut [u8],
) -> Option<usize>
    requires src_port { src.now.port ≢ 0 }
    requires dst_port { dst.now.port ≢ 0 }
    ensures { Fills (tcp_bytes header.now options.now src.now dst.now payload.now computed) out.old out.new result }
{
    let (src_addr, dst_addr) = src.addr.pair(src.addr.version, &dst.addr)?;
    let header_len = segment_header_len(header, options, payload.len())?;
    let len = header_len + payload.len();
    if out.len() < len {
        return None;
    }
    write_at(out, header_len, payload);
    let ports = (src.port, dst.port);
    wrap_segment(
        header,
        options,
        ports,
        src_addr,
        dst_addr,
        header_len,
        payload.len(),
        computed,
        out,
    );
    Some(len)
}
