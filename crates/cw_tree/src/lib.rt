//! Binary trees of digests, and the chunks that carry a shard with its way up such a tree.
#![tactic(auto)]

pub mod bmt;
mod chunk;
mod codec;
mod laws;
mod sizes;
mod width;

pub use chunk::Chunk;
pub use laws::{
    chunks_are_bounded, chunks_read_back, chunks_with_digests_read_back, paths_lead_to_the_root,
};
pub use width::canonical_shard_len;
