//! Which chunks of a member's own came.

use cw_types::Commitment;

/// A chunk that came, at the member's place in the list of some epoch: what it is of, and its
/// place.
#[derive(Clone, Copy, Debug, PartialEq, Eq)]
pub struct OwnChunk {
    /// What names its block.
    pub commitment: Commitment,
    /// Its place among the chunks of the block.
    pub index: u16,
}
