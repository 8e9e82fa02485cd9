//! A call has one answer: with equal arguments it returns and writes the same, and two calls for one question
//! agree. The contracts of these calls are relations, which do not say so themselves.

pub mod nat;
pub mod router;
pub mod routes;
pub mod short;
pub mod tables;
