//! The archive.

ghost use Rattle.std.specs.Prelude.{◌≡◌, ◌≤◌, ◌+◌, ◌↔◌, [], IfOk, OnErr, OnOk, Some, length};
ghost use Rattle.cw_types.specs.Block.{Block};
ghost use Rattle.cw_archive.specs.Archived.{after_put, chunks_of_least_index, given_back};
ghost use Rattle.cw_archive.specs.Archived.{put_answer};
ghost use Rattle.cw_archive.specs.Archived.{used_of, within_limit};
ghost use Rattle.cw_archive.specs.Showing.{HasNewest, Shows};
ghost use Rattle.shards.specs.Kept.{chunks_of};

use crate::checks::{are_bytes, checked};
use crate::laws::archives_show;
use crate::put::Put;
use crate::queue::ChunkQueue;
use crate::showing::{chunks_of_least_index as least_of, shown};
use cw_base::{Digest32, Hasher, NoMemory, Strategy};
use cw_coding::Chunk;
use cw_types::{ChainBlock, Commitment};
use std::alloc::Global;
use std::marker::{Model, PhantomData};
use std::thread::Threads;

/// Chunks that check under their commitments, the oldest of which leave where their shards would
/// have more bytes than the limit. Contracts see the limit and the list of the chunks, each with
/// its commitment, the oldest first.
///
/// In a cluster of four a block is cut into four chunks, of which any two give it back:
///
/// ```text
/// let (commitment, chunks) =
///     cw_types::commit_with_chunks::<Sha256, _, _>(&rt, alloc, 4, &block, &Sequential)?;
/// let mut archive = Archive::<Sha256>::new(alloc, 200)?;
/// for chunk in chunks {
///     archive.put(&rt, &commitment, chunk, &Sequential)?;
/// }
/// let found = archive.get(&rt, alloc, &commitment, &Sequential)?;
/// assert!(rt; found == Some(block));
/// ```
///
/// `crates/use_products` puts four chunks into one with room for two, and has the block shown.
#[derive(Drop)]
pub struct Archive<H: Hasher<Digest = Digest32>> {
    limit: u64,
    used: u64,
    kept: ChunkQueue,
    alloc: Global,
    hasher: PhantomData<H>,
}

impl<H: Hasher<Digest = Digest32>> Model for Archive<H> {
    ghost use Rattle.cw_archive.specs.Archived.{Archived};
    ghost use Rattle.cw_archive.specs.Showing.{IsWithin};

    ghost Value = { Archived };

    ghost view = { λ a. record { limit = a.limit; kept = a.kept } };

    ghost invariant = { λ a. IsWithin H.digest_of a.limit a.used a.kept };
}

impl<H: Hasher<Digest = Digest32>> Archive<H> {
    /// An archive without chunks, which keeps at most so many bytes of shards.
    pub fn new(alloc: Global, limit: u64) -> Result<Archive<H>, NoMemory>
        ensures { IfOk result (λ archive. archive ≡ record { limit = limit; kept = [] }) }
    {
        Ok(Archive {
            limit,
            used: 0,
            kept: ChunkQueue::new(alloc),
            alloc,
            hasher: PhantomData,
        })
    }

    /// Takes a chunk of that commitment. The answer is the first that holds: it is known, where a
    /// chunk of that commitment and index is kept; foreign, where it doesn't check under the
    /// commitment's root and config at its index; too large, where its shard is longer than the
    /// limit. Else it is kept: it goes last, and chunks leave from the front as long as all shards
    /// have more bytes than the limit. No other answer changes anything. Where memory is short
    /// nothing changes.
    pub fn put<R: Threads + Sync, S: Strategy>(
        &mut self,
        _rt: &R,
        commitment: &Commitment,
        chunk: Chunk<Digest32>,
        strategy: &S,
    ) -> Result<Put, NoMemory>
        ensures answer { IfOk result
            (λ answer. answer ≡ put_answer H.digest_of self.old commitment.now chunk) }
        ensures ok { OnOk result (self.new ≡ after_put H.digest_of self.old commitment.now chunk) }
        ensures err { OnErr result (self.new ≡ self.old) }
    {
        if self
            .kept
            .find(commitment, u32::from(chunk.index()))
            .is_some()
        {
            return Ok(Put::Known);
        }
        if checked::<H, S>(self.alloc, commitment, &chunk, strategy)?.is_none() {
            return Ok(Put::Foreign);
        }
        let shard = chunk.shard();
        are_bytes(shard);
        let width = shard.len() as u64;
        if width > self.limit {
            return Ok(Put::TooLarge);
        }
        self.kept.push(commitment, chunk)?;
        self.used = make_room(&mut self.kept, self.used, width, self.limit) + width;
        Ok(Put::Kept)
    }

    /// The block that the chunks of a commitment give back: where at least as many are kept as its
    /// config asks for, those of least index are rows of the codeword of the block's bytes, and the
    /// commitment names the block: by the hash of its bytes, the root of that codeword, the hash of
    /// its context's bytes, and the config.
    pub fn get<R: Threads + Sync, S: Strategy>(
        &self,
        rt: &R,
        alloc: Global,
        commitment: &Commitment,
        strategy: &S,
    ) -> Result<Option<ChainBlock>, NoMemory>
        ensures { IfOk result
            (λ block. block ≡ given_back H.digest_of commitment.now self.now.kept) }
    {
        let minimum = usize::from(commitment.config.minimum());
        let chunks = least_of(alloc, &self.kept, commitment)?;
        if chunks.len() < minimum {
            return Ok(None);
        }
        shown::<H, R, S>(rt, alloc, commitment, &chunks, strategy)
    }

    /// A law: what is given back of a commitment is exactly the block that its chunks of least
    /// index show.
    pub fn gives_what_it_shows(&self, commitment: &Commitment)
        ensures { (b : Block)
            → (given_back H.digest_of commitment.now self.now.kept ≡ Some b)
            ↔ Shows H.digest_of commitment.now (chunks_of_least_index commitment.now self.now.kept)
            b }
    {
        archives_show();
        let _kept = &self.kept;
        let _some = commitment.config.minimum();
    }

    /// How many bytes all shards have, which are never more than the limit. Takes no memory.
    pub fn used(&self) -> u64
        ensures value { result ≡ used_of self.now.kept }
        ensures within { result ≤ self.now.limit }
    {
        self.used
    }

    /// How many chunks of a commitment are kept. Takes no memory.
    pub fn count(&self, commitment: &Commitment) -> usize
        ensures { result ≡ length (chunks_of commitment.now self.now.kept) }
    {
        self.kept.count(commitment)
    }
}

// Lets the oldest chunks go until the shards of all have no more bytes than the limit: `width` for
// the newest, which stays, and what is answered for the others. Those had `used` bytes before.
fn make_room(kept: &mut ChunkQueue, used: u64, width: u64, limit: u64) -> u64
    requires newest { HasNewest width used kept.old }
    requires fits { width ≤ limit }
    ensures kept { kept.new ≡ within_limit limit kept.old }
    ensures newest { HasNewest width result kept.new }
    ensures within { result + width ≤ limit }
{
    let mut used = used;
    while used > limit - width {
        let Some(oldest) = kept.pop_oldest() else {
            unreachable!();
        };
        used -= oldest.shard().len() as u64;
    }
    used
}
