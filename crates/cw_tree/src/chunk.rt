//! Chunks: a shard with its way up the tree.

ghost use Rattle.std.specs.Prelude.{◌≡◌, IfOk, ◌^◌, ◌<◌};

use crate::bmt::Proof;
use bytes::Bytes;
use cw_base::NoMemory;
use std::alloc::{AllocError, Global};
use std::marker::Model;

/// A shard of coded data, with its index and its way up the tree of all shards' digests.
#[derive(Debug, Drop, PartialEq, Eq)]
pub struct Chunk<D> {
    shard: Bytes,
    index: u16,
    proof: Proof<D>,
}

impl<D> Model for Chunk<D> {
    ghost use Rattle.cw_tree.specs.Chunks.{Piece};

    ghost Value = { Piece D };

    ghost view = { λ c. record {
      shard = c.shard;
      index = c.index;
      leaf_count = c.proof.leaf_count;
      siblings = c.proof.siblings;
    } };

    ghost inverse = { λ p. record {
      shard = p.shard;
      index = p.index;
      proof = record { leaf_count = p.leaf_count; siblings = p.siblings };
    } };
}

impl<D> Chunk<D> {
    /// The chunk of these parts, as they came from somewhere. It may not stand in any tree: that is
    /// what a check under a root finds.
    pub fn new(shard: Bytes, index: u16, proof: Proof<D>) -> Chunk<D>
        ensures { result
            ≡ record {
              shard = shard;
              index = index;
              leaf_count = proof.leaf_count;
              siblings = proof.siblings;
            } }
    {
        Chunk {
            shard,
            index,
            proof,
        }
    }

    /// The bytes of the shard.
    pub fn shard(&self) -> &[u8]
        ensures { result.now ≡ self.now.shard }
    {
        self.shard.as_slice()
    }

    /// The place of the shard among all shards of its text.
    pub fn index(&self) -> u16
        ensures { result ≡ self.now.index }
    {
        self.index
    }

    /// The way up from the shard.
    pub fn proof(&self) -> &Proof<D>
        ensures leaf_count { result.now.leaf_count ≡ self.now.leaf_count }
        ensures siblings { result.now.siblings ≡ self.now.siblings }
    {
        &self.proof
    }

    /// The shard, with no byte copied.
    pub fn shared(&self) -> Result<Bytes, NoMemory>
        ensures { IfOk result (λ bytes. bytes ≡ self.now.shard) }
    {
        Ok(self.shard.slice(..)?)
    }
}

impl<D: Copy> Chunk<D> {
    /// An equal chunk, which shares the bytes of the shard.
    pub fn copy(&self, alloc: Global) -> Result<Chunk<D>, NoMemory>
        ensures { IfOk result (λ copy. copy ≡ self.now) }
    {
        Ok(Chunk {
            shard: self.shared()?,
            index: self.index,
            proof: self.proof.copy(alloc)?,
        })
    }
}
