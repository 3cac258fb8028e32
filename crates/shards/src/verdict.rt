//! What is answered to a chunk.

use cw_types::ChainBlock;

/// What is answered to a chunk: the first that holds.
#[derive(Debug, Drop, PartialEq, Eq)]
pub enum Verdict {
    /// A chunk of that commitment and index was kept before.
    Known,
    /// It isn't of a config of the committees, or doesn't stand under the commitment's root.
    Foreign,
    /// It is kept.
    Kept,
    /// It is kept, and the chunks of its commitment now show this block.
    Held(ChainBlock),
    /// It is kept, and the chunks of its commitment, of which there are now enough, show no block.
    Garbage,
}
