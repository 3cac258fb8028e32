//! The block that chunks show.

ghost use Rattle.std.specs.Prelude.{◌&&◌, ◌-◌, ◌==◌, ◌≡◌, ◌≢◌, ◌≤◌, IfNone, IfOk, IfSome, IsNone};
ghost use Rattle.std.specs.Prelude.{List, false, ℕ, length, map, option_and_then, true};
ghost use Rattle.cw_base.specs.Config.{same_counts};
ghost use Rattle.cw_rules.specs.Accepted.{is_chunk_of};
ghost use Rattle.cw_rules.specs.Held.{if_committed};
ghost use Rattle.cw_rules.specs.Rules.{block_of, commit};
ghost use Rattle.cw_coding.specs.Totals.{total_of};
ghost use Rattle.cw_types.specs.Encoding.{block_bytes};
ghost use Rattle.cw_types.specs.Reading.{block_in};
ghost use Rattle.cw_types.specs.Same.{same_commitment, same_digest};
ghost use Rattle.shards.specs.Enough.{AreEnough, AreOfText, IsRooted};
ghost use Rattle.shards.specs.Kept.{AreTakenOnce, chunk_rules, chunks_of, is_kept_chunk};
ghost use Rattle.shards.specs.Verdicts.{kept_verdict};

use crate::checks::checked_all;
use crate::index::KeptChunks;
use crate::laws::coder_laws;
use crate::verdict::Verdict;
use bytes::Bytes;
use cw_base::{Config, Digest32, Hasher, NoMemory, Strategy};
use cw_coding::{Chunk, ReedSolomon, ReedSolomonError, Scheme, encodings_decode};
use cw_types::{ChainBlock, Commitment, Committees};
use std::alloc::Global;
use std::thread::Threads;

// The text of whose codeword the chunks are rows, where its root is that of the commitment.
fn decoded<H: Hasher<Digest = Digest32>, R: Threads + Sync, S: Strategy>(
    rt: &R,
    alloc: Global,
    commitment: &Commitment,
    chunks: &[&Chunk<Digest32>],
    strategy: &S,
) -> Result<Option<Vec<u8>>, NoMemory>
    requires { AreEnough H.digest_of commitment.now (map (λ chunk. chunk.now) chunks.now) }
    ensures some { IfOk result (λ text. IfSome text (λ text.
        AreOfText H.digest_of commitment.now (map (λ chunk. chunk.now) chunks.now) text.items)) }
    ensures none { IfOk result (λ text. IfNone text ((other : List ℕ)
        → AreOfText H.digest_of commitment.now (map (λ chunk. chunk.now) chunks.now) other → ⊥)) }
{
    coder_laws();
    encodings_decode::<H>();
    let checked = checked_all::<H, S>(alloc, commitment, chunks, strategy)?;
    let decoded = ReedSolomon::<H>::decode(
        rt,
        alloc,
        &commitment.config,
        &commitment.root,
        checked.iter(),
        strategy,
    );
    drop(checked);
    match decoded {
        Ok(text) => Ok(Some(text)),
        Err(error) => no_text(error),
    }
}

// No text, where chunks were refused.
fn no_text(error: ReedSolomonError) -> Result<Option<Vec<u8>>, NoMemory>
    ensures none { IfOk result (λ text. IsNone text) }
    ensures refused { IfOk result (λ text. error ≢ ReedSolomonError.NoMemory) }
{
    match error {
        ReedSolomonError::NoMemory => Err(NoMemory),
        _ => Ok(None),
    }
}

// Whether the block with these bytes, whose root is that of the commitment, is committed to so.
fn is_committed<H: Hasher<Digest = Digest32>>(
    committees: &Committees,
    commitment: &Commitment,
    block: &ChainBlock,
    text: &[u8],
) -> bool
    requires some { 1 ≤ commitment.now.config.minimum }
    requires bytes { block_bytes block.now ≡ text.now }
    requires rooted { IsRooted H.digest_of commitment.now text.now }
    ensures { result
        ≡ same_commitment (commit (chunk_rules H.digest_of committees.now) block.now)
        commitment.now }
{
    coder_laws();
    let config = committees.config(block.context().epoch);
    let digest = H::hash(text);
    let context = H::hash(&block.context().to_bytes());
    has_parts(commitment, &digest, &context, &config)
}

// Whether a commitment has these parts.
fn has_parts(commitment: &Commitment, block: &Digest32, context: &Digest32, config: &Config) -> bool
    ensures { result ≡ (same_digest block.now commitment.now.block
        && (same_digest context.now commitment.now.context
        && same_counts config.now commitment.now.config)) }
{
    *block == commitment.block
        && *context == commitment.context
        && config.is_same(&commitment.config)
}

// The block whose bytes the text is, where it is committed to so. Its payload keeps a part of them.
fn block_of<H: Hasher<Digest = Digest32>>(
    alloc: Global,
    committees: &Committees,
    commitment: &Commitment,
    text: &Bytes,
) -> Result<Option<ChainBlock>, NoMemory>
    requires some { 1 ≤ commitment.now.config.minimum }
    requires rooted { IsRooted H.digest_of commitment.now text.now }
    ensures { IfOk result (λ block. block
        ≡ option_and_then (if_committed (chunk_rules H.digest_of committees.now) commitment.now)
        (block_in text.now)) }
{
    match ChainBlock::of_shared(alloc, text)? {
        Some(block) => {
            if is_committed::<H>(committees, commitment, &block, text.as_slice()) {
                Ok(Some(block))
            } else {
                drop(block);
                Ok(None)
            }
        }
        None => Ok(None),
    }
}

/// The block as which the commitment is shown by these chunks.
pub(crate) fn shown<H: Hasher<Digest = Digest32>, R: Threads + Sync, S: Strategy>(
    rt: &R,
    alloc: Global,
    committees: &Committees,
    commitment: &Commitment,
    chunks: &[&Chunk<Digest32>],
    strategy: &S,
) -> Result<Option<ChainBlock>, NoMemory>
    requires { AreEnough H.digest_of commitment.now (map (λ chunk. chunk.now) chunks.now) }
    ensures { IfOk result (λ block. block
        ≡ option_and_then (if_committed (chunk_rules H.digest_of committees.now) commitment.now)
        (block_of (chunk_rules H.digest_of committees.now) commitment.now.config
        (map (λ chunk. chunk.now) chunks.now))) }
{
    coder_laws();
    match decoded::<H, R, S>(rt, alloc, commitment, chunks, strategy)? {
        Some(text) => block_of::<H>(alloc, committees, commitment, &Bytes::from_vec(text)?),
        None => Ok(None),
    }
}

/// The verdict on a chunk that isn't known and that the rules take.
pub(crate) fn kept_verdict<H: Hasher<Digest = Digest32>, R: Threads + Sync, S: Strategy>(
    rt: &R,
    alloc: Global,
    committees: &Committees,
    kept: &KeptChunks,
    commitment: &Commitment,
    chunk: &Chunk<Digest32>,
    strategy: &S,
) -> Result<Verdict, NoMemory>
    requires some { 2 ≤ commitment.now.config.minimum }
    requires few { total_of commitment.now.config ≤ 65535 }
    requires kept { AreTakenOnce (chunk_rules H.digest_of committees.now) kept.now }
    requires new { is_kept_chunk kept.now commitment.now chunk.now ≡ false }
    requires taken { is_chunk_of (chunk_rules H.digest_of committees.now) commitment.now chunk.now
        ≡ true }
    ensures { IfOk result (λ verdict. verdict
        ≡ kept_verdict (chunk_rules H.digest_of committees.now) kept.now commitment.now chunk.now) }
{
    if !lack_one(kept, commitment) {
        return Ok(Verdict::Kept);
    }
    let chunks = kept.chunks_with(alloc, commitment, chunk)?;
    let block = shown::<H, R, S>(rt, alloc, committees, commitment, &chunks, strategy)?;
    match block {
        Some(block) => Ok(Verdict::Held(block)),
        None => Ok(Verdict::Garbage),
    }
}

// Whether all but one of the chunks that show a block were kept of a commitment.
fn lack_one(kept: &KeptChunks, commitment: &Commitment) -> bool
    ensures { result ≡ (length (chunks_of commitment.now kept.now)
        == commitment.now.config.minimum - 1) }
{
    kept.count(commitment) == usize::from(commitment.config.minimum() - 1)
}
