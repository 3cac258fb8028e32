//! The chunks of all commitments, by commitment and index.

ghost use Rattle.std.specs.BTreeMap.{btree_map_len};
ghost use Rattle.std.specs.Map.{lookup};
ghost use Rattle.std.specs.Prelude.{◌≡◌, ◌<◌, ◌==◌, ◌++◌, ◌∷◌, [], IfNone, IfOk, IfSome, IsFalse};
ghost use Rattle.std.specs.Prelude.{OnErr, OnOk, ℕ, find, length, map, nat_eq};
ghost use Rattle.shards.specs.Index.{HasAdded, HasStayed, IsNewChunk};
ghost use Rattle.shards.specs.Kept.{chunks_of, is_kept_chunk, with_chunk};

use crate::block::BlockChunks;
use cw_base::{Digest32, NoMemory};
use cw_coding::Chunk;
use cw_types::Commitment;
use std::alloc::Global;
use std::collections::BTreeMap;
use std::marker::Model;

/// The commitment and the index of a chunk.
#[derive(Clone, Copy, Debug, PartialEq, Eq)]
pub(crate) struct ChunkKey {
    pub commitment: Commitment,
    pub index: u16,
}

/// Chunks, no two of one commitment and index. Contracts see them as the list of the chunks, each
/// with its commitment, in the order in which they came.
#[derive(Drop)]
pub(crate) struct KeptChunks {
    // the keys in the order in which they came, which make the list that contracts see
    order: Vec<ChunkKey>,
    chunks: BTreeMap<Commitment, BlockChunks>,
}

impl Model for KeptChunks {
    ghost use Rattle.std.specs.Prelude.{List};
    ghost use Rattle.shards.specs.Index.{AreGathered, all_gathered};
    ghost use Rattle.shards.specs.declared.pieces.KeptChunk.{KeptChunk};

    ghost Value = { List KeptChunk };

    ghost view = { λ k. all_gathered k.chunks.entries k.order.items };

    ghost invariant = { λ k. AreGathered k.chunks.entries k.order.items };
}

impl KeptChunks {
    /// No chunks. Takes no memory.
    pub(crate) fn new(alloc: Global) -> KeptChunks
        ensures { result ≡ [] }
    {
        KeptChunks {
            order: Vec::new(alloc),
            chunks: BTreeMap::new(alloc),
        }
    }

    /// The chunks of a commitment by index, if there are some.
    pub(crate) fn by_index(
        &self,
        commitment: &Commitment,
    ) -> Option<&BTreeMap<u16, Chunk<Digest32>>>
        ensures some { IfSome result (λ m. (i : ℕ) → lookup (nat_eq i) m.now.entries
            ≡ find (λ x. x.index == i) (chunks_of commitment.now self.now)) }
        ensures more { IfSome result (λ m. 0 < btree_map_len m.now) }
        ensures none { IfNone result (chunks_of commitment.now self.now ≡ []) }
    {
        match self.chunks.get(commitment) {
            Some(block) => Some(block.by_index()),
            None => None,
        }
    }

    /// Whether there is a chunk of that commitment and index.
    pub(crate) fn has(&self, commitment: &Commitment, chunk: &Chunk<Digest32>) -> bool
        ensures { result ≡ is_kept_chunk self.now commitment.now chunk.now }
    {
        match self.chunks.get(commitment) {
            Some(block) => block.has(chunk.index()),
            None => false,
        }
    }

    /// How many chunks of a commitment there are.
    pub(crate) fn count(&self, commitment: &Commitment) -> usize
        ensures { result ≡ length (chunks_of commitment.now self.now) }
    {
        match self.chunks.get(commitment) {
            Some(block) => block.len(),
            None => 0,
        }
    }

    /// The chunks of a commitment in the order in which they came, and one more.
    pub(crate) fn chunks_with<'a>(
        &'a self,
        alloc: Global,
        commitment: &Commitment,
        last: &'a Chunk<Digest32>,
    ) -> Result<Vec<&'a Chunk<Digest32>>, NoMemory>
        ensures { IfOk result (λ chunks. map (λ chunk. chunk.now) chunks.items
            ≡ chunks_of commitment.now self.now ++ last.now ∷ []) }
    {
        let mut chunks = self.chunks(alloc, commitment)?;
        chunks.push(last)?;
        Ok(chunks)
    }

    // The chunks of a commitment in the order in which they came.
    fn chunks(
        &self,
        alloc: Global,
        commitment: &Commitment,
    ) -> Result<Vec<&Chunk<Digest32>>, NoMemory>
        ensures { IfOk result (λ chunks. map (λ chunk. chunk.now) chunks.items
            ≡ chunks_of commitment.now self.now) }
    {
        match self.chunks.get(commitment) {
            Some(block) => block.in_order(alloc),
            None => Ok(Vec::new(alloc)),
        }
    }

    /// Adds a chunk as the last. Where memory is short nothing changes.
    pub(crate) fn push(
        &mut self,
        alloc: Global,
        commitment: &Commitment,
        chunk: Chunk<Digest32>,
    ) -> Result<(), NoMemory>
        requires { IsFalse (is_kept_chunk self.old commitment.now chunk) }
        ensures ok { OnOk result (self.new ≡ with_chunk self.old commitment.now chunk) }
        ensures err { OnErr result (self.new ≡ self.old) }
    {
        let index = chunk.index();
        self.order.reserve(1)?;
        add(&mut self.chunks, alloc, commitment, chunk)?;
        self.order.push_reserved(ChunkKey {
            commitment: *commitment,
            index,
        });
        Ok(())
    }
}

// Adds a chunk to those of its commitment. Where memory is short nothing changes.
fn add(
    chunks: &mut BTreeMap<Commitment, BlockChunks>,
    alloc: Global,
    commitment: &Commitment,
    chunk: Chunk<Digest32>,
) -> Result<(), NoMemory>
    requires { IsNewChunk chunks.old.entries commitment.now chunk }
    ensures ok { OnOk result (HasAdded commitment.now chunk chunks.old.entries
        chunks.new.entries) }
    ensures err { OnErr result (HasStayed chunks.old.entries chunks.new.entries) }
{
    if let Some(block) = chunks.get_mut(commitment) {
        return block.push(chunk);
    }
    let mut block = BlockChunks::new(alloc);
    block.push(chunk)?;
    chunks.insert(*commitment, block)?;
    Ok(())
}
