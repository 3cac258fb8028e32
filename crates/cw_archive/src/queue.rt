//! Chunks in the order in which they came, found by commitment and index.

ghost use Rattle.std.specs.Prelude.{◌<◌, ◌≡◌, [], IsFalse, None, OnErr, OnOk, Some, drop, length};
ghost use Rattle.std.specs.Prelude.{slice_get};
ghost use Rattle.std.specs.List.{AllByRecursion};
ghost use Rattle.std.specs.Option.{option_copied, option_map};
ghost use Rattle.cw_archive.specs.Archived.{kept_chunk_at};
ghost use Rattle.cw_coding.specs.Totals.{total_of};
ghost use Rattle.shards.specs.Kept.{chunks_of, is_kept_chunk, with_chunk};

use crate::key::ChunkKey;
use cw_base::{Digest32, NoMemory};
use cw_coding::Chunk;
use cw_types::Commitment;
use std::alloc::Global;
use std::collections::{BTreeMap, VecDeque};
use std::marker::Model;

/// Chunks, no two of one commitment and index. Contracts see them as a list, each with its
/// commitment, the oldest first.
#[derive(Drop)]
pub(crate) struct ChunkQueue {
    order: VecDeque<ChunkKey>,
    chunks: BTreeMap<ChunkKey, Chunk<Digest32>>,
}

impl Model for ChunkQueue {
    ghost use Rattle.std.specs.Prelude.{List};
    ghost use Rattle.shards.specs.declared.pieces.KeptChunk.{KeptChunk};
    ghost use Rattle.cw_archive.specs.Keys.{IsInOrder, kept_at_keys};

    ghost Value = { List KeptChunk };

    ghost view = { λ q. kept_at_keys q.chunks.entries q.order.items };

    ghost invariant = { λ q. IsInOrder q.chunks.entries q.order.items };
}

impl ChunkQueue {
    /// No chunks.
    pub(crate) fn new(alloc: Global) -> ChunkQueue
        ensures { result ≡ [] }
    {
        ChunkQueue {
            order: VecDeque::new(alloc),
            chunks: BTreeMap::new(alloc),
        }
    }

    /// The chunk of that commitment and index.
    pub(crate) fn find(&self, commitment: &Commitment, index: u32) -> Option<&Chunk<Digest32>>
        ensures { option_copied result ≡ kept_chunk_at commitment.now self.now index }
    {
        self.chunks.get(&ChunkKey::new(commitment, index))
    }

    /// How many chunks there are of a commitment, all of which are of indices that its config has.
    pub(crate) fn count(&self, commitment: &Commitment) -> usize
        requires { AllByRecursion (λ x. x.index < total_of commitment.now.config)
            (chunks_of commitment.now self.now) }
        ensures { result ≡ length (chunks_of commitment.now self.now) }
    {
        let chunks = &self.chunks;
        let mut count = 0;
        for index in 0..commitment.config.total_shards() {
            if chunks.contains_key(&ChunkKey::new(commitment, index)) {
                count += 1;
            }
        }
        count
    }

    /// Adds a chunk as the newest. Where memory is short nothing changes.
    pub(crate) fn push(
        &mut self,
        commitment: &Commitment,
        chunk: Chunk<Digest32>,
    ) -> Result<(), NoMemory>
        requires { IsFalse (is_kept_chunk self.old commitment.now chunk) }
        ensures ok { OnOk result (self.new ≡ with_chunk self.old commitment.now chunk) }
        ensures err { OnErr result (self.new ≡ self.old) }
    {
        let key = ChunkKey::new(commitment, u32::from(chunk.index()));
        self.order.reserve(1)?;
        self.chunks.insert(key, chunk)?;
        self.order.push_back_reserved(key);
        Ok(())
    }

    /// Lets the oldest chunk go, if there is one.
    pub(crate) fn pop_oldest(&mut self) -> Option<Chunk<Digest32>>
        ensures value { result ≡ option_map (λ k. k.chunk) (slice_get self.old 0) }
        ensures rest { self.new ≡ drop 1 self.old }
    {
        let key = self.order.pop_front()?;
        self.chunks.remove(&key)
    }
}
