//! The figures of RFC 9293.

mod figures;
