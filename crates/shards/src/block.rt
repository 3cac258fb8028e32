//! The chunks of one commitment.

ghost use Rattle.std.specs.BTreeMap.{btree_map_len};
ghost use Rattle.std.specs.Map.{lookup};
ghost use Rattle.std.specs.Prelude.{◌≡◌, ◌<◌, ◌==◌, ◌++◌, ◌∷◌, [], IfOk, None, OnErr, OnOk, ℕ};
ghost use Rattle.std.specs.Prelude.{find, is_some, length, map, nat_eq};

use cw_base::{Digest32, NoMemory};
use cw_coding::Chunk;
use std::alloc::Global;
use std::collections::BTreeMap;
use std::marker::Model;

/// Chunks of one commitment, no two of one index, and the indices in the order in which they came.
/// Contracts see them as the list of the chunks, in that order.
#[derive(Drop)]
pub(crate) struct BlockChunks {
    came: Vec<u16>,
    chunks: BTreeMap<u16, Chunk<Digest32>>,
}

impl Model for BlockChunks {
    ghost use Rattle.std.specs.Prelude.{List};
    ghost use Rattle.cw_rules.specs.Rules.{Chunk};
    ghost use Rattle.shards.specs.Index.{AreChunksIndexed, chunks_at};

    ghost Value = { List Chunk };

    ghost view = { λ b. chunks_at b.chunks.entries b.came.items };

    ghost invariant = { λ b. AreChunksIndexed b.chunks.entries b.came.items };
}

impl BlockChunks {
    /// No chunks. Takes no memory.
    pub(crate) fn new(alloc: Global) -> BlockChunks
        ensures { result ≡ [] }
    {
        BlockChunks {
            came: Vec::new(alloc),
            chunks: BTreeMap::new(alloc),
        }
    }

    /// The chunks by index.
    pub(crate) fn by_index(&self) -> &BTreeMap<u16, Chunk<Digest32>>
        ensures each { (i : ℕ) → lookup (nat_eq i) result.now.entries
            ≡ find (λ x. x.index == i) self.now }
        ensures some { 0 < length self.now → 0 < btree_map_len result.now }
    {
        &self.chunks
    }

    /// Whether there is a chunk of that index.
    pub(crate) fn has(&self, index: u16) -> bool
        ensures { result ≡ is_some (find (λ x. x.index == index) self.now) }
    {
        self.chunks.contains_key(&index)
    }

    /// How many chunks there are.
    pub(crate) fn len(&self) -> usize
        ensures { result ≡ length self.now }
    {
        self.came.len()
    }

    /// The chunks in the order in which they came.
    pub(crate) fn in_order(&self, alloc: Global) -> Result<Vec<&Chunk<Digest32>>, NoMemory>
        ensures { IfOk result (λ chunks. map (λ chunk. chunk.now) chunks.items ≡ self.now) }
    {
        let mut chunks = Vec::new(alloc);
        for index in &self.came {
            if let Some(chunk) = self.chunks.get(index) {
                chunks.push(chunk)?;
            }
        }
        Ok(chunks)
    }

    /// Adds a chunk as the last. Where memory is short nothing changes.
    pub(crate) fn push(&mut self, chunk: Chunk<Digest32>) -> Result<(), NoMemory>
        requires { find (λ x. x.index == chunk.index) self.old ≡ None }
        ensures ok { OnOk result (self.new ≡ self.old ++ chunk ∷ []) }
        ensures err { OnErr result (self.new ≡ self.old) }
    {
        let index = chunk.index();
        self.came.reserve(1)?;
        self.chunks.insert(index, chunk)?;
        self.came.push_reserved(index);
        Ok(())
    }
}
