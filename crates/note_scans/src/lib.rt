//! What a member's notes tell, in the words of the cluster rules: each call is a definition of the
//! rules, or one made of them, of a note or of a slice of notes.
//!
//! Nothing here takes memory or keeps anything. A call of a slice goes over the notes from the
//! first to the last, so it costs as much as there are notes. `VoteKey` names a vote in the maps
//! that stand in place of a scan.
#![tactic(auto)]

mod blocks;
mod heights;
mod key;
mod votes;

pub use blocks::{finalization_of, kept_block, last_verified, noted_block_of};
pub use heights::{floor_of, last_ack, prune_of};
pub use key::VoteKey;
pub use votes::{proposal_of, vote_of, voted_proposal};
