//! An archive of coded chunks: it keeps what checks under its commitment, within a number of shard
//! bytes, the oldest leaving first, and gives back each block of which it keeps enough chunks.
//!
//! What is kept is a list, by the rule of [`Archive::put`]; it lies in a map and a queue, so that a
//! put costs what it lets go and a look-up doesn't scan.
#![tactic(auto)]

mod archive;
mod checks;
mod key;
mod laws;
mod put;
mod queue;
mod showing;

pub use archive::Archive;
pub use laws::archives_show;
pub use put::Put;
