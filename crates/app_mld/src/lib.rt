//! Multicast listener discovery of a host, version 1 (RFC 2710): reports of a group, and the queries that ask for it.
//! Version 2 is compatible: its queriers take these reports (RFC 3810, section 8.3).
#![tactic(auto)]

mod query;
mod report;

pub use query::query_delay;
pub use report::{REPORT_LEN, emit_report};
