//! Chunks that come, and the blocks that they show; and blocks that are cut into chunks.
//!
//! A verdict is the cluster rules' own function of the chunks that were kept. The bodies look them
//! up by commitment and index.
#![tactic(auto)]

mod block;
mod checks;
mod configs;
mod cut;
mod index;
mod kept;
mod laws;
mod pieces;
mod showing;
mod verdict;

pub use cut::cut_block;
pub use kept::Shards;
pub use laws::{shards_stand, shown_by_kept, shown_stays};
pub use pieces::KeptChunk;
pub use verdict::Verdict;
