//! The scheme's answers, before they are put in a caller's buffers.

ghost use Rattle.std.specs.Prelude.{◌≡◌, ℕ, ◌+◌, ◌-◌, ◌*◌, ◌^◌, ◌≤◌, ◌<◌, ◌⊎◌, List, [], ◌++◌, length};
ghost use Rattle.std.specs.Prelude.{map, drop, IfOk, IfErr, IfSome, MatchOption, MatchResult};
ghost use Rattle.std.specs.List.{flat_map};
ghost use Rattle.cw_tree.specs.Formats.{chunk_bytes};
ghost use Rattle.cw_coding.specs.Checking.{IsUnder};
ghost use Rattle.cw_coding.specs.Encoding.{IsEncodable};
ghost use Rattle.coding_c.specs.Calls.{content, config_of_numbers, digest_of_bytes, hash, size_of};
ghost use Rattle.coding_c.specs.Calls.{AreNoConfig, IsEncodeStatus, IsEncoded, IsRootOf, IsChunk};
ghost use Rattle.coding_c.specs.Calls.{IsNoChunk, HasChunkRoom, HasNoRoom};
ghost use Rattle.coding_c.specs.Calls.{IsNotTaken, IsCheckStatus, IsTaken, AreTaken};
ghost use Rattle.coding_c.specs.Calls.{IsFirstNotTaken, HasNoTextRoom};
ghost use Rattle.coding_c.specs.Calls.{AreChunksOfText, IsDecodeStatus, IsDecoded};

use crate::shards::Span;
use crate::status::{NO_CHUNK, NO_MEMORY, status_of};
use cw_base::{CodecError, Config, Digest32, NoMemory, Reader, Sequential, Sha256};
use cw_coding::{CheckedChunk, Chunk, ReedSolomon, Scheme, encodings_decode, max_shard_size_fits};
use std::alloc::Global;
use std::num::NonZeroU16;

// The config of two numbers.
pub(crate) fn config_of(k: u16, m: u16) -> Option<Config>
    ensures { MatchOption result (AreNoConfig k m)
        (λ config. (config ≡ config_of_numbers k m) × (1 ≤ k) × (1 ≤ m)) }
{
    match NonZeroU16::new(k) {
        Some(minimum_shards) => match NonZeroU16::new(m) {
            Some(extra_shards) => Some(Config {
                minimum_shards,
                extra_shards,
            }),
            None => None,
        },
        None => None,
    }
}

// An encoding as a caller gets it.
#[derive(Drop)]
pub(crate) struct Encoded {
    pub(crate) root: Digest32,
    pub(crate) bytes: Vec<u8>,
    pub(crate) sizes: Vec<usize>,
}

pub(crate) fn encode(alloc: Global, config: &Config, text: &[u8]) -> Result<Encoded, u32>
    ensures done { IfOk result (λ e. IsEncoded config.now.minimum config.now.extra text.now
        e.root.0 e.bytes.items e.sizes.items) }
    ensures refused { IfErr result (λ code.
        IsEncodeStatus config.now.minimum config.now.extra (length text.now) code) }
    ensures some { IfErr result (λ code. 1 ≤ code) }
{
    let (root, chunks) = match ReedSolomon::<Sha256>::encode_here(alloc, config, text) {
        Ok(encoded) => encoded,
        Err(error) => return Err(status_of(error)),
    };
    match written(alloc, &chunks) {
        Ok((bytes, sizes)) => Ok(Encoded { root, bytes, sizes }),
        Err(NoMemory) => Err(NO_MEMORY),
    }
}

// The root of a text.
pub(crate) fn root_of(alloc: Global, config: &Config, text: &[u8]) -> Result<Digest32, u32>
    ensures done { IfOk result
        (λ root. IsRootOf config.now.minimum config.now.extra text.now root.0) }
    ensures refused { IfErr result (λ code.
        IsEncodeStatus config.now.minimum config.now.extra (length text.now) code) }
    ensures some { IfErr result (λ code. 1 ≤ code) }
{
    match ReedSolomon::<Sha256>::encode_here(alloc, config, text) {
        Ok((root, _)) => Ok(root),
        Err(error) => Err(status_of(error)),
    }
}

// What room the chunks of a text of `length` bytes need, where there is less, or there are too few
// places for their sizes.
pub(crate) fn lacking_room(
    config: &Config,
    length: usize,
    room: usize,
    places: usize,
) -> Option<usize>
    ensures { MatchOption result
        (IsEncodable config.now length → HasChunkRoom config.now length room places)
        (λ needed. HasNoRoom config.now length room places needed) }
{
    if !max_shard_size_fits(config, length) {
        return None;
    }
    let count = config.total_shards() as usize;
    let needed = count * ReedSolomon::<Sha256>::max_shard_size(config, length);
    if room < needed || places < count {
        return Some(needed);
    }
    None
}

// The bytes of chunks, end to end, and how many each has.
fn written(alloc: Global, chunks: &[Chunk<Digest32>]) -> Result<(Vec<u8>, Vec<usize>), NoMemory>
    ensures bytes { IfOk result (λ r. r.0.items ≡ flat_map (chunk_bytes content) chunks.now) }
    ensures sizes { IfOk result (λ r. r.1.items ≡ map size_of chunks.now) }
{
    let mut bytes = Vec::new(alloc);
    let mut sizes = Vec::new(alloc);
    for chunk in chunks {
        let start = bytes.len();
        chunk.write(&mut bytes)?;
        sizes.push(bytes.len() - start)?;
    }
    Ok((bytes, sizes))
}

// The chunk that bytes are read as, to their end.
pub(crate) fn chunk_of(alloc: Global, config: &Config, bytes: &[u8]) -> Result<Chunk<Digest32>, u32>
    ensures { MatchResult result
        (λ chunk. IsChunk config.now.minimum bytes.now chunk)
        (λ code. (code ≡ 1) ⊎ ((code ≡ 6) × IsNoChunk config.now.minimum bytes.now)) }
{
    let mut reader = Reader::new(bytes);
    match Chunk::<Digest32>::read(alloc, &mut reader, config, 0xffff_ffff) {
        Ok(chunk) => {
            if !reader.rest().is_empty() {
                return Err(NO_CHUNK);
            }
            Ok(chunk)
        }
        Err(CodecError::NoMemory) => Err(NO_MEMORY),
        Err(CodecError::EndOfBuffer) => Err(NO_CHUNK),
        Err(CodecError::InvalidVarint) => Err(NO_CHUNK),
        Err(CodecError::TooLong) => Err(NO_CHUNK),
        Err(CodecError::Invalid) => Err(NO_CHUNK),
        Err(CodecError::Extra) => Err(NO_CHUNK),
    }
}

// A chunk, checked under a root at an index.
pub(crate) fn checked(
    alloc: Global,
    config: &Config,
    root: &[u8; 32],
    index: u16,
    chunk: &Chunk<Digest32>,
) -> Result<CheckedChunk<Sha256>, u32>
    ensures value { MatchResult result
        (λ x. (x ≡ record {
          root = digest_of_bytes root.now;
          shard = chunk.now.shard;
          index = index;
          digest = hash chunk.now.shard;
        })
        × IsUnder hash content config.now (digest_of_bytes root.now) index chunk.now)
        (λ code. IsNotTaken config.now root.now index chunk.now code) }
    ensures some { IfErr result (λ code. 1 ≤ code) }
{
    match ReedSolomon::<Sha256>::check(alloc, config, &Digest32(*root), index, chunk, &Sequential) {
        Ok(checked) => Ok(checked),
        Err(error) => Err(status_of(error)),
    }
}

// The chunk that bytes are, checked under a root at its own index.
fn taken(
    alloc: Global,
    config: &Config,
    root: &[u8; 32],
    bytes: &[u8],
) -> Result<CheckedChunk<Sha256>, u32>
    ensures value { MatchResult result
        (λ x. IsTaken config.now root.now bytes.now x)
        (λ code. IsCheckStatus config.now root.now (λ p. p.index) bytes.now code) }
    ensures some { IfErr result (λ code. 1 ≤ code) }
{
    let chunk = match chunk_of(alloc, config, bytes) {
        Ok(chunk) => chunk,
        Err(code) => return Err(code),
    };
    match checked(alloc, config, root, chunk.index(), &chunk) {
        Ok(taken) => Ok(taken),
        Err(code) => Err(code),
    }
}

// All chunks, each checked at its own index.
fn all_taken(
    alloc: Global,
    config: &Config,
    root: &[u8; 32],
    chunks: &[Span],
) -> Result<Vec<CheckedChunk<Sha256>>, u32>
    ensures done { IfOk result
        (λ all. AreTaken config.now root.now (map (λ s. s.bytes.now) chunks.now) all.items) }
    ensures refused { IfErr result (λ code. (code ≡ 1)
        ⊎ IsFirstNotTaken config.now root.now (map (λ s. s.bytes.now) chunks.now) code) }
    ensures some { IfErr result (λ code. 1 ≤ code) }
{
    let mut all = Vec::new(alloc);
    for span in chunks {
        let chunk = match taken(alloc, config, root, span.bytes) {
            Ok(chunk) => chunk,
            Err(code) => return Err(code),
        };
        let Ok(()) = all.push(chunk) else {
            return Err(NO_MEMORY);
        };
    }
    Ok(all)
}

// What room the text of chunks needs, where there is less than the shortest text has whose shards
// are as wide as the first chunk's.
pub(crate) fn lacking_text(
    alloc: Global,
    config: &Config,
    root: &[u8; 32],
    chunks: &[Span],
    room: usize,
) -> Option<usize>
    ensures { IfSome result (λ needed. HasNoTextRoom config.now root.now
        (map (λ s. s.bytes.now) chunks.now) room needed) }
{
    let Some(first) = chunks.first() else {
        return None;
    };
    let Ok(chunk) = taken(alloc, config, root, first.bytes) else {
        return None;
    };
    let width = chunk.shard().len();
    let k = usize::from(config.minimum());
    if width > 0xffff_ffff || room >= (k * width.saturating_sub(2)).saturating_sub(3) {
        return None;
    }
    Some((k * width).saturating_sub(4))
}

// The text that chunks come of, each of which is checked.
pub(crate) fn decoded(
    alloc: Global,
    config: &Config,
    root: &[u8; 32],
    chunks: &[Span],
) -> Result<Vec<u8>, u32>
    ensures done { IfOk result
        (λ text. IsDecoded config.now root.now (map (λ s. s.bytes.now) chunks.now) text.items) }
    ensures refused { IfErr result
        (λ code. IsDecodeStatus config.now root.now (map (λ s. s.bytes.now) chunks.now) code) }
    ensures any_enough { (text : List ℕ)
        → AreChunksOfText config.now.minimum config.now.extra root.now text
        (map (λ s. s.bytes.now) chunks.now)
        → MatchResult result (λ found. found.items ≡ text) (λ code. code ≡ 1) }
    ensures some { IfErr result (λ code. 1 ≤ code) }
{
    encodings_decode::<Sha256>();
    let all = match all_taken(alloc, config, root, chunks) {
        Ok(all) => all,
        Err(code) => return Err(code),
    };
    match ReedSolomon::<Sha256>::decode_here(alloc, config, &Digest32(*root), &all) {
        Ok(text) => Ok(text),
        Err(error) => Err(status_of(error)),
    }
}
