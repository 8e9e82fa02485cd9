//! A law of failures.

ghost use Rattle.std.specs.Prelude.{◌≡◌, Bool, List, is_none, is_some, length, ℕ};
ghost use Rattle.c_structs.specs.declared.types.Addr.{Addr};
ghost use Rattle.c_structs.specs.declared.types.Icmp.{Icmp};
ghost use Rattle.c_icmp.specs.Frames.{icmp_failure, icmp_frame, icmp_frame_failure, icmp_packet};
ghost use Rattle.c_icmp.specs.Messages.{icmp_bytes};
ghost use Rattle.c_icmp.specs.Mld.{mld_failure, mld_report};
ghost use Rattle.c_icmp.specs.Neighbours.{ndisc_failure, ndisc_frame};

use crate::types::Ndisc;
use c_structs::FrameFields;

/// There is a failure exactly if there is no message, packet or frame to be written.
pub fn failures_are_exact_icmp(frame: FrameFields, ndisc: Ndisc)
    ensures message { (h : Icmp) (src dst : Addr) (payload : List ℕ) (computed : Bool) → is_some (icmp_bytes h src dst payload computed) ≡ is_none (icmp_failure src dst (length payload)) }
    ensures packet { (payload : List ℕ) → is_some (icmp_packet frame payload) ≡ is_none (icmp_frame_failure frame (length payload)) }
    ensures frame { (payload : List ℕ) → is_some (icmp_frame frame payload) ≡ is_none (icmp_frame_failure frame (length payload)) }
    ensures mld_report { is_some (mld_report frame) ≡ is_none (mld_failure frame) }
    ensures ndisc_frame { is_some (ndisc_frame frame ndisc) ≡ is_none (ndisc_failure frame ndisc) }
{}
