//! What names a chunk in the archive.

ghost use Rattle.std.specs.Prelude.{◌≡◌};
ghost use Rattle.cw_archive.specs.Keys.{chunk_key};

use cw_base::Digest32;
use cw_types::Commitment;

/// The commitment and the index of a chunk. Its order brings the chunks of a commitment together,
/// by index.
#[derive(Clone, Copy, Debug, PartialEq, Eq, PartialOrd, Ord)]
pub(crate) struct ChunkKey {
    pub block: Digest32,
    pub root: Digest32,
    pub context: Digest32,
    pub minimum: u16,
    pub extra: u16,
    pub index: u32,
}

impl ChunkKey {
    /// The key of the chunk of that commitment and index.
    pub(crate) fn new(commitment: &Commitment, index: u32) -> ChunkKey
        ensures { result ≡ chunk_key commitment.now index }
    {
        ChunkKey {
            block: commitment.block,
            root: commitment.root,
            context: commitment.context,
            minimum: commitment.config.minimum(),
            extra: commitment.config.extra(),
            index,
        }
    }
}
