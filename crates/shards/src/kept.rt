//! The chunks that are kept.

ghost use Rattle.std.specs.BTreeMap.{btree_map_len};
ghost use Rattle.std.specs.Map.{lookup};
ghost use Rattle.std.specs.Prelude.{◌≡◌, ◌<◌, ◌==◌, [], IfErr, IfNone, IfOk, IfSome, IsFalse};
ghost use Rattle.std.specs.Prelude.{IsTrue, OnErr, OnOk, ℕ, find, nat_eq};
ghost use Rattle.cw_rules.specs.Accepted.{is_chunk_of};
ghost use Rattle.shards.specs.Kept.{chunk_rules, chunks_of, is_kept_chunk, with_chunk};
ghost use Rattle.shards.specs.Verdicts.{gathered_after, verdict};

use crate::checks::is_chunk_of;
use crate::index::KeptChunks;
use crate::showing::kept_verdict;
use crate::verdict::Verdict;
use cw_base::{Digest32, Hasher, NoMemory, Strategy};
use cw_coding::Chunk;
use cw_types::{Commitment, Committees};
use std::alloc::Global;
use std::collections::BTreeMap;
use std::marker::{Model, PhantomData};
use std::thread::Threads;

/// The chunks that a member kept. Contracts see them as the committees and the list of the chunks,
/// each with what it is of, in the order in which they came.
///
/// In a cluster of four a block is cut into four chunks, of which any two show it:
///
/// ```text
/// let committees = Committees::single(alloc, 4)?;
/// let (commitment, chunks) =
///     shards::cut_block::<Sha256, _, _>(&rt, alloc, &committees, &block, &Sequential)?;
/// let mut shards = Shards::<Sha256>::new(alloc, committees);
/// for (at, want) in [(3, Verdict::Kept), (3, Verdict::Known), (0, Verdict::Held(block))] {
///     let chunk = chunks[at].copy(alloc)?;
///     assert!(rt; shards.take(&rt, &commitment, chunk, &Sequential)? == want);
/// }
/// ```
#[derive(Drop)]
pub struct Shards<H: Hasher<Digest = Digest32>> {
    committees: Committees,
    kept: KeptChunks,
    alloc: Global,
    hasher: PhantomData<H>,
}

impl<H: Hasher<Digest = Digest32>> Model for Shards<H> {
    ghost use Rattle.shards.specs.Kept.{AreTakenOnce, Gathered, chunk_rules};

    ghost Value = { Gathered };

    ghost view = { λ s. record { epochs = s.committees; kept = s.kept } };

    ghost invariant = { λ s. AreTakenOnce (chunk_rules H.digest_of s.committees) s.kept };
}

impl<H: Hasher<Digest = Digest32>> Shards<H> {
    /// Nothing is kept yet. Takes no memory.
    pub fn new(alloc: Global, committees: Committees) -> Shards<H>
        ensures { result ≡ record { epochs = committees; kept = [] } }
    {
        Shards {
            committees,
            kept: KeptChunks::new(alloc),
            alloc,
            hasher: PhantomData,
        }
    }

    /// The chunks that were kept of a commitment, by index: none exactly where none was kept. Takes
    /// no memory.
    pub fn kept(&self, commitment: &Commitment) -> Option<&BTreeMap<u16, Chunk<Digest32>>>
        ensures some { IfSome result (λ m. (i : ℕ) → lookup (nat_eq i) m.now.entries
            ≡ find (λ x. x.index == i) (chunks_of commitment.now self.now.kept)) }
        ensures more { IfSome result (λ m. 0 < btree_map_len m.now) }
        ensures none { IfNone result (chunks_of commitment.now self.now.kept ≡ []) }
    {
        self.kept.by_index(commitment)
    }

    /// Takes a chunk that came, under the commitment that it was said to be of. The verdict is the
    /// first that holds: it is known, where one of that commitment and index was kept; foreign,
    /// where the commitment's config is that of no epoch or the chunk doesn't stand under its root.
    /// Else it is kept; and as the last of as many chunks as show a block, it shows the block of
    /// whose codeword they are rows, if there is one that is committed to so. Where memory is short
    /// nothing changes; of a chunk that is known or foreign it never is.
    pub fn take<R: Threads + Sync, S: Strategy>(
        &mut self,
        rt: &R,
        commitment: &Commitment,
        chunk: Chunk<Digest32>,
        strategy: &S,
    ) -> Result<Verdict, NoMemory>
        ensures verdict { IfOk result
            (λ v. v ≡ verdict (chunk_rules H.digest_of self.old.epochs) self.old.kept commitment.now
            chunk) }
        ensures ok { OnOk result
            (self.new
            ≡ gathered_after (chunk_rules H.digest_of self.old.epochs) self.old commitment.now
            chunk) }
        ensures err { OnErr result (self.new ≡ self.old) }
        ensures new { IfErr result
            (λ _. IsFalse (is_kept_chunk self.old.kept commitment.now chunk)) }
        ensures taken { IfErr result
            (λ _. IsTrue (is_chunk_of (chunk_rules H.digest_of self.old.epochs) commitment.now
            chunk)) }
    {
        if self.kept.has(commitment, &chunk) {
            drop(chunk);
            return Ok(Verdict::Known);
        }
        if !is_chunk_of::<H>(&self.committees, commitment, &chunk) {
            drop(chunk);
            return Ok(Verdict::Foreign);
        }
        let verdict = kept_verdict::<H, R, S>(
            rt,
            self.alloc,
            &self.committees,
            &self.kept,
            commitment,
            &chunk,
            strategy,
        )?;
        Ok(keep(&mut self.kept, self.alloc, commitment, chunk, verdict)?)
    }
}

// Keeps a chunk that isn't known; what is answered to it is then as it was given.
fn keep(
    kept: &mut KeptChunks,
    alloc: Global,
    commitment: &Commitment,
    chunk: Chunk<Digest32>,
    verdict: Verdict,
) -> Result<Verdict, NoMemory>
    requires { IsFalse (is_kept_chunk kept.old commitment.now chunk) }
    ensures ok { OnOk result (kept.new ≡ with_chunk kept.old commitment.now chunk) }
    ensures same { IfOk result (λ v. v ≡ verdict) }
    ensures err { OnErr result (kept.new ≡ kept.old) }
{
    match kept.push(alloc, commitment, chunk) {
        Ok(()) => Ok(verdict),
        Err(error) => {
            drop(verdict);
            Err(error)
        }
    }
}
