//! From chunks to the text that they come of.

ghost use Rattle.std.specs.Prelude.{◌≡◌, ◌⊎◌, ◌↔◌, ℕ, List, length, map, IfOk, IfErr};
ghost use Rattle.std.specs.Iterator.{IsFinite, Drains};
ghost use Rattle.cw_coding.specs.Decoding.{AreDecodable, AreRecoverable, Fits, IsDecoding};
ghost use Rattle.cw_coding.specs.Decoding.{IsDecodeRefusal};
ghost use Rattle.cw_coding.specs.Digests.{AreDigests};

use crate::checking::CheckedChunk;
use crate::error::ReedSolomonError;
use crate::gathering::{Given, decodable, gathered, ordered};
use crate::recovering::{recovered, recovered_here};
use cw_base::{Config, Hasher, Strategy};
use std::alloc::Global;
use std::thread::Threads;

// The text that the chunks of an iterator come of.
pub(crate) fn decode_text<
    'a,
    H: Hasher + 'a,
    I: Iterator<Item = &'a CheckedChunk<H>> + Drop,
    R: Threads + Sync,
    S: Strategy,
>(
    rt: &R,
    alloc: Global,
    config: &Config,
    commitment: &H::Digest,
    shards: I,
    strategy: &S,
) -> Result<Vec<u8>, ReedSolomonError>
    requires can { I.can_next shards }
    requires ends { IsFinite (I.remaining shards) }
    ensures decoded { IfOk result (λ text. (given : _) × Drains I.next_gives shards given
        × AreDecodable config.now commitment.now (map (λ chunk. chunk.now) given)
        × IsDecoding H.digest_of H.Digest.content config.now commitment.now
        (map (λ chunk. chunk.now) given) text.items) }
    ensures refused { IfErr result (λ e. (e ≡ ReedSolomonError.NoMemory)
        ⊎ ((given : _) × Drains I.next_gives shards given
        × IsDecodeRefusal H.digest_of H.Digest.content config.now commitment.now
        (map (λ chunk. chunk.now) given) e)) }
{
    let chunks = gathered::<H, I>(alloc, shards)?;
    decode_chunks::<H, R, S>(rt, alloc, config, commitment, &chunks, strategy)
}

// The text that chunks come of.
fn decode_chunks<H: Hasher, R: Threads + Sync, S: Strategy>(
    rt: &R,
    alloc: Global,
    config: &Config,
    commitment: &H::Digest,
    shards: &[CheckedChunk<H>],
    strategy: &S,
) -> Result<Vec<u8>, ReedSolomonError>
    ensures decoded { IfOk result (λ text. AreDecodable config.now commitment.now shards.now
        × IsDecoding H.digest_of H.Digest.content config.now commitment.now shards.now text.items) }
    ensures refused { IfErr result
        (λ e. IsDecodeRefusal H.digest_of H.Digest.content config.now commitment.now shards.now e) }
{
    let given = match prepared::<H>(alloc, config, commitment, shards) {
        Ok(given) => given,
        Err(error) => return Err(error),
    };
    match recovered::<H, R, S>(rt, alloc, config, commitment, &given, strategy)? {
        Some(text) => Ok(text),
        None => Err(ReedSolomonError::Inconsistent),
    }
}

// The same on the caller's thread.
pub(crate) fn decode_chunks_here<H: Hasher>(
    alloc: Global,
    config: &Config,
    commitment: &H::Digest,
    shards: &[CheckedChunk<H>],
) -> Result<Vec<u8>, ReedSolomonError>
    ensures decoded { IfOk result (λ text. AreDecodable config.now commitment.now shards.now
        × IsDecoding H.digest_of H.Digest.content config.now commitment.now shards.now text.items) }
    ensures refused { IfErr result
        (λ e. IsDecodeRefusal H.digest_of H.Digest.content config.now commitment.now shards.now e) }
{
    let given = match prepared::<H>(alloc, config, commitment, shards) {
        Ok(given) => given,
        Err(error) => return Err(error),
    };
    match recovered_here::<H>(alloc, config, commitment, &given)? {
        Some(text) => Ok(text),
        None => Err(ReedSolomonError::Inconsistent),
    }
}

// Chunks that can be decoded, in the order in which they are used.
fn prepared<H: Hasher>(
    alloc: Global,
    config: &Config,
    commitment: &H::Digest,
    shards: &[CheckedChunk<H>],
) -> Result<Given<H>, ReedSolomonError>
    ensures decodable { IfOk result (λ _. AreDecodable config.now commitment.now shards.now) }
    ensures recoverable { IfOk result (λ given. AreRecoverable config.now given.width
        given.indices.items given.rows.items given.compared) }
    ensures digests { IfOk result (λ given. AreDigests H.digest_of given.width given.rows.items
        (length given.indices.items) given.digests.items) }
    ensures same { IfOk result (λ given. (text : List ℕ)
        → Fits H.digest_of H.Digest.content config.now.minimum config.now.extra commitment.now
        given.width given.indices.items given.rows.items given.compared text
        ↔ IsDecoding H.digest_of H.Digest.content config.now commitment.now shards.now text) }
    ensures refused { IfErr result
        (λ e. IsDecodeRefusal H.digest_of H.Digest.content config.now commitment.now shards.now e) }
{
    let width = match decodable::<H>(alloc, config, commitment, shards) {
        Ok(width) => width,
        Err(error) => return Err(error),
    };
    let given = ordered::<H>(alloc, config.minimum(), width, shards)?;
    Ok(given)
}
