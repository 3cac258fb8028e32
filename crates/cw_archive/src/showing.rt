//! The block that chunks give back.

ghost use Rattle.std.specs.Prelude.{◌≡◌, ◌≢◌, ◌&&◌, IfNone, IfOk, IfSome, IsNone, map};
ghost use Rattle.std.specs.Prelude.{option_and_then};
ghost use Rattle.cw_archive.specs.Archived.{chunks_of_least_index, if_named, name_of};
ghost use Rattle.cw_archive.specs.Archived.{shown_by_chunks};
ghost use Rattle.cw_archive.specs.Showing.{AreSufficient, IsOfNoBlock};
ghost use Rattle.cw_types.specs.Encoding.{block_bytes};
ghost use Rattle.cw_types.specs.Reading.{block_in};
ghost use Rattle.cw_types.specs.Same.{same_commitment, same_digest};
ghost use Rattle.shards.specs.Enough.{AreOfText, IsRooted};

use crate::checks::checked_all;
use crate::queue::ChunkQueue;
use bytes::Bytes;
use cw_base::{Digest32, Hasher, NoMemory, Strategy};
use cw_coding::{Chunk, ReedSolomon, ReedSolomonError, Scheme, encodings_decode};
use cw_rules_coded::coded_laws;
use cw_types::laws::{blocks_are_bounded, blocks_read_back};
use cw_types::{ChainBlock, Commitment};
use std::alloc::Global;
use std::thread::Threads;

/// The chunks of a commitment that are kept, by index, and no more than its config asks for.
pub(crate) fn chunks_of_least_index<'a>(
    alloc: Global,
    kept: &'a ChunkQueue,
    commitment: &Commitment,
) -> Result<Vec<&'a Chunk<Digest32>>, NoMemory>
    ensures { IfOk result
        (λ chunks. map (λ chunk. chunk.now) chunks.items
        ≡ chunks_of_least_index commitment.now kept.now) }
{
    let minimum = usize::from(commitment.config.minimum());
    let mut chunks = Vec::new(alloc);
    for index in 0..commitment.config.total_shards() {
        if chunks.len() == minimum {
            return Ok(chunks);
        }
        if let Some(chunk) = kept.find(commitment, index) {
            chunks.push(chunk)?;
        }
    }
    Ok(chunks)
}

// The text of whose codeword the chunks are rows, where its root is that of the commitment. Where
// there is none, there is none that a block could have.
fn decoded<H: Hasher<Digest = Digest32>, R: Threads + Sync, S: Strategy>(
    rt: &R,
    alloc: Global,
    commitment: &Commitment,
    chunks: &[&Chunk<Digest32>],
    strategy: &S,
) -> Result<Option<Vec<u8>>, NoMemory>
    requires { AreSufficient H.digest_of commitment.now (map (λ chunk. chunk.now) chunks.now) }
    ensures some { IfOk result (λ text. IfSome text (λ text.
        AreOfText H.digest_of commitment.now (map (λ chunk. chunk.now) chunks.now) text.items)) }
    ensures none { IfOk result (λ text. IfNone text (IsOfNoBlock H.digest_of commitment.now
        (map (λ chunk. chunk.now) chunks.now))) }
{
    coded_laws();
    encodings_decode::<H>();
    let checked = checked_all::<H, S>(alloc, commitment, chunks, strategy)?;
    let decoded = ReedSolomon::<H>::decode(
        rt,
        alloc,
        &commitment.config,
        &commitment.root,
        checked.iter(),
        strategy,
    );
    match decoded {
        Ok(text) => Ok(Some(text)),
        Err(error) => no_text(error),
    }
}

// No text, where chunks were refused.
fn no_text(error: ReedSolomonError) -> Result<Option<Vec<u8>>, NoMemory>
    ensures none { IfOk result (λ text. IsNone text) }
    ensures refused { IfOk result (λ text. error ≢ ReedSolomonError.NoMemory) }
{
    match error {
        ReedSolomonError::NoMemory => Err(NoMemory),
        _ => Ok(None),
    }
}

// Whether the commitment names the block with these bytes, whose root is that of the commitment.
fn is_named<H: Hasher<Digest = Digest32>>(
    commitment: &Commitment,
    block: &ChainBlock,
    text: &[u8],
) -> bool
    requires bytes { block_bytes block.now ≡ text.now }
    requires rooted { IsRooted H.digest_of commitment.now text.now }
    ensures { result
        ≡ same_commitment (name_of H.digest_of commitment.now.config block.now) commitment.now }
{
    coded_laws();
    let _some = commitment.config.minimum();
    let digest = H::hash(text);
    let context = H::hash(&block.context().to_bytes());
    has_digests(commitment, &digest, &context)
}

// Whether a commitment has these digests of a block and of its context.
fn has_digests(commitment: &Commitment, block: &Digest32, context: &Digest32) -> bool
    ensures { result ≡ (same_digest block.now commitment.now.block
        && same_digest context.now commitment.now.context) }
{
    *block == commitment.block && *context == commitment.context
}

// The block whose bytes the text is, where the commitment names it. Its payload keeps a part of
// them.
fn block_of<H: Hasher<Digest = Digest32>>(
    alloc: Global,
    commitment: &Commitment,
    text: &Bytes,
) -> Result<Option<ChainBlock>, NoMemory>
    requires { IsRooted H.digest_of commitment.now text.now }
    ensures { IfOk result (λ block. block
        ≡ option_and_then (if_named H.digest_of commitment.now) (block_in text.now)) }
{
    match ChainBlock::of_shared(alloc, text)? {
        Some(block) => {
            if is_named::<H>(commitment, &block, text.as_slice()) {
                Ok(Some(block))
            } else {
                Ok(None)
            }
        }
        None => Ok(None),
    }
}

/// The block that these chunks give back.
pub(crate) fn shown<H: Hasher<Digest = Digest32>, R: Threads + Sync, S: Strategy>(
    rt: &R,
    alloc: Global,
    commitment: &Commitment,
    chunks: &[&Chunk<Digest32>],
    strategy: &S,
) -> Result<Option<ChainBlock>, NoMemory>
    requires { AreSufficient H.digest_of commitment.now (map (λ chunk. chunk.now) chunks.now) }
    ensures { IfOk result (λ block. block
        ≡ shown_by_chunks H.digest_of commitment.now (map (λ chunk. chunk.now) chunks.now)) }
{
    coded_laws();
    blocks_are_bounded();
    blocks_read_back();
    match decoded::<H, R, S>(rt, alloc, commitment, chunks, strategy)? {
        Some(text) => block_of::<H>(alloc, commitment, &Bytes::from_vec(text)?),
        None => Ok(None),
    }
}
