//! Hosts around members' processes: what the writes that a process tells leave in a file, and that
//! what hosts and processes do together is a run of the rules.
//!
//! No member stands on this crate. The definitions stand in specs/; the laws are functions with an
//! empty body, so that they can't go unproved.
#![tactic(auto)]

mod laws;

pub use laws::{answer_laws, file_laws, host_laws};
