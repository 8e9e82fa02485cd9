//! The replies of a host to frames.

use crate::operands::{NOTHING, Operands};
use app_host::tcp_reply::Offer;
use app_host::{Host, Interface};
use std::alloc::{AllocError, Global};

/// The largest buffer for a reply, in bytes.
const MAX_ROOM: usize = 1 << 17;

/// The name of the line, and the bytes of the reply.
pub fn answer(alloc: Global, operands: &mut Operands<'_>) -> Result<String, AllocError> {
    let name = operands.word();
    let interface = interface(operands);
    let echo_port = operands.number();
    let open_udp_ports = operands.numbers(alloc)?;
    let open_ports = operands.numbers(alloc)?;
    let host = Host {
        interface,
        echo_port,
        open_udp_ports: open_udp_ports.as_slice(),
        open_ports: open_ports.as_slice(),
        offer: offer(operands),
    };
    let room: usize = operands.number();
    let frame = operands.octets(alloc)?;
    if room > MAX_ROOM {
        operands.reject();
        return Ok(String::new(alloc));
    }
    let mut out = vec![in alloc; 0; room]?;
    let reply = match app_host::answer(&host, frame.as_slice(), out.as_mut_slice()) {
        Some(len) => hex::encode(alloc, &out.as_slice()[..len])?,
        None => String::from_str(alloc, NOTHING)?,
    };
    format!(in alloc; "{name} {reply}")
}

// The addresses of a host that is no router.
fn interface(operands: &mut Operands<'_>) -> Interface {
    Interface {
        hardware_addr: operands.ethernet(),
        ipv4_addr: operands.ipv4(),
        ipv6_addr: operands.ipv6(),
        is_router: false,
    }
}

// What the open ports offer.
fn offer(operands: &mut Operands<'_>) -> Offer {
    Offer {
        initial: operands.seq_number(),
        window_len: operands.number(),
        max_seg_size: operands.number(),
        window_scale: operands.number(),
        clock: operands.number(),
    }
}
