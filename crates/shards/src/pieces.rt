//! A chunk with what it is of.

use cw_base::Digest32;
use cw_coding::Chunk;
use cw_types::Commitment;

/// A chunk that was kept, and what it is of. Contracts see what `Shards` holds as a list of these.
#[derive(Debug, Drop, PartialEq, Eq)]
pub struct KeptChunk {
    /// What names its block.
    pub commitment: Commitment,
    /// The chunk.
    pub chunk: Chunk<Digest32>,
}
