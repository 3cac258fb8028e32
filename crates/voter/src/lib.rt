//! What a member knows of votes and certificates, and what it owes by it: the tally.
//!
//! Each call is a function of what the tally was told. `tally_stands` and `parent_stands` say how
//! its answers are those of the cluster rules. Who signed a vote, which certificates and chunks
//! came and what notes say of votes, proposals, views, epochs and heights are looked up by key, and
//! runs of nullified views by their ends. What is owed is searched for among what can be owed: the
//! votes of which a certificate can be noted, the proposals that wait for their certification or
//! for the member's vote to finalize, and those of the member's view. So a call costs the same
//! however much came, was noted, is done and failed.
#![tactic(auto)]

mod ballot;
mod cert_places;
mod certs;
mod ended;
mod facts;
mod heights;
mod index;
mod laws;
mod lines;
mod lineup;
mod maps;
mod own;
mod own_keys;
mod parents;
mod proposals;
mod runs;
mod said;
mod settled;
mod signer_lists;
mod signer_sets;
mod tally;
mod views;
mod votes;
mod waiting;

pub use cw_rules::chain_laws;
pub use laws::{parent_stands, standing_is_kept, tally_stands};
pub use own::OwnChunk;
pub use tally::Tally;
