//! The coding scheme for callers in C. `coding.h` says each call in C's words.
//!
//! A caller owns all buffers. Whatever a call takes from the allocator it gives back before it
//! returns. Where a call is refused, no buffer has changed; where a buffer is too small, the number
//! beside it tells the room that is needed.
#![tactic(auto)]

mod answers;
mod shards;
mod status;

ghost use Rattle.std.specs.Prelude.{◌≡◌, ◌≢◌, ℕ, ◌+◌, ◌-◌, ◌*◌, ◌^◌, ◌<◌, ◌≤◌, ◌⊎◌, ◌↔◌, List, []};
ghost use Rattle.std.specs.Prelude.{◌∷◌, ◌++◌, length, map, take, slice_index};
ghost use Rattle.rs_code.specs.Rows.{code_row};
ghost use Rattle.cw_coding.specs.Encoding.{IsEncodable};
ghost use Rattle.coding_c.specs.Calls.{config_of_numbers, AreNoConfig, IsEncodeStatus, IsPut};
ghost use Rattle.coding_c.specs.Calls.{IsEncoded, HoldsChunks, HoldsEncodings, IsChunkRoom};
ghost use Rattle.coding_c.specs.Calls.{IsRoom, HasNoRoom, IsRootOf, IsChunk, IsNoChunk};
ghost use Rattle.coding_c.specs.Calls.{StandsUnder, IsCheckStatus, HasRoot, AreChunksOfText};
ghost use Rattle.coding_c.specs.Calls.{IsDecodeStatus, IsDecoded, HasNoTextRoom};
ghost use Rattle.coding_c.specs.Shards.{AreShards, HaveRoom, ArePut, IsRecoveryStatus};
ghost use Rattle.coding_c.specs.Shards.{recovery_of, IsRebuildStatus, rebuilt_of, AreOfCodeword};
ghost use Rattle.coding_c.specs.Shards.{first_width};
ghost use Rattle.coding_c.specs.Texts.{status_text};

use answers::{checked, chunk_of, config_of, decoded, encode, lacking_room, lacking_text, root_of};
use cw_base::Sha256;
use cw_coding::{ReedSolomon, Scheme, encodings_decode, max_shard_size_fits};
use shards::{
    Room, Span, are_below, codeword_of, have_room, is_short, put_front, put_rows, rebuilt, width_of,
};
use status::{BAD_INDEX, NO_CONFIG, NO_MEMORY, NO_ROOM, OK, TOO_LONG, words_of};
use std::alloc::Global;

/// The version of these calls, 10,000 times the first number of `BUZ_VERSION_TEXT`, 100 times the
/// second and the third.
#[unsafe(no_mangle)]
pub extern "C" fn buz_version() -> u32
    ensures { result ≡ 10000 }
{
    10000
}

/// Writes what a status means, as much of it as there is room for, with a zero byte behind it. How
/// many bytes all of it has, with the zero.
#[unsafe(no_mangle)]
pub extern "C" fn buz_status_text(status: u32, text: &mut [u8]) -> usize
    ensures size { result ≡ length (status_text status) + 1 }
    ensures written { 1 ≤ length text.old
        → IsPut (take (length text.old - 1) (status_text status) ++ 0 ∷ []) text.old text.new }
{
    let words = words_of(status);
    if !text.is_empty() {
        put_words(text, words);
    }
    words.len() + 1
}

// Writes the front of some words, with a zero byte behind it.
fn put_words(text: &mut [u8], words: &[u8])
    requires room { 1 ≤ length text.old }
    ensures { IsPut (take (length text.old - 1) words.now ++ 0 ∷ []) text.old text.new }
{
    let count = words.len().min(text.len() - 1);
    put_front(text, &words[..count]);
    text[count] = 0;
}

/// As many bytes as any chunk of a text of at most `size` bytes has, or more; 0 exactly where such
/// a text isn't encoded.
#[unsafe(no_mangle)]
pub extern "C" fn buz_chunk_len(k: u16, m: u16, size: usize) -> usize
    ensures some { (result ≢ 0) → IsEncodable (config_of_numbers k m) size }
    ensures value { (result ≢ 0) → IsChunkRoom (config_of_numbers k m) size result }
    ensures holds { (result ≢ 0) → HoldsChunks k m size result }
    ensures room { (result ≢ 0) → HoldsEncodings k m size ((k + m) * result) }
    ensures none { (result ≡ 0) → AreNoConfig k m ⊎ (IsEncodable (config_of_numbers k m) size → ⊥) }
{
    let Some(config) = config_of(k, m) else {
        return 0;
    };
    if !max_shard_size_fits(&config, size) {
        return 0;
    }
    encodings_decode::<Sha256>();
    ReedSolomon::<Sha256>::max_shard_size(&config, size)
}

/// Encodes `text`: the chunks end to end, how many bytes they have together, the size of each, and
/// the root. Where there is too little room, `used` tells how much is needed.
#[unsafe(no_mangle)]
pub extern "C" fn buz_encode(
    alloc: Global,
    k: u16,
    m: u16,
    text: &[u8],
    chunks: &mut [u8],
    used: &mut usize,
    sizes: &mut [usize],
    root: &mut [u8; 32],
) -> u32
    ensures done { result ≡ 0 → (bytes : List ℕ) × (each : List ℕ)
        × IsEncoded k m text.now root.new bytes each
        × IsPut bytes chunks.old chunks.new × (used.new ≡ length bytes)
        × IsPut each sizes.old sizes.new }
    ensures kept { result ≢ 0
        → (chunks.new ≡ chunks.old) × (sizes.new ≡ sizes.old) × (root.new ≡ root.old) }
    ensures refused { result ≢ 0
        → ((result ≡ 5) × HasNoRoom (config_of_numbers k m) (length text.now) (length chunks.old)
        (length sizes.old) used.new)
        ⊎ (IsEncodeStatus k m (length text.now) result × (used.new ≡ used.old)) }
    ensures enough { (most needed : ℕ) → length text.now ≤ most
        → IsRoom (config_of_numbers k m) most needed
        → needed ≤ length chunks.old → k + m ≤ length sizes.old → result ≢ 5 }
{
    let Some(config) = config_of(k, m) else {
        return NO_CONFIG;
    };
    match lacking_room(&config, text.len(), chunks.len(), sizes.len()) {
        Some(needed) => {
            *used = needed;
            return NO_ROOM;
        }
        None => {}
    }
    let encoded = match encode(alloc, &config, text) {
        Ok(encoded) => encoded,
        Err(code) => return code,
    };
    encodings_decode::<Sha256>();
    put_front(chunks, &encoded.bytes);
    put_front(sizes, &encoded.sizes);
    *used = encoded.bytes.len();
    *root = encoded.root.0;
    OK
}

/// The root that [`buz_encode`] gives a text.
#[unsafe(no_mangle)]
pub extern "C" fn buz_root(alloc: Global, k: u16, m: u16, text: &[u8], root: &mut [u8; 32]) -> u32
    ensures done { result ≡ 0 → IsRootOf k m text.now root.new }
    ensures kept { result ≢ 0 → root.new ≡ root.old }
    ensures refused { result ≢ 0 → IsEncodeStatus k m (length text.now) result }
{
    let Some(config) = config_of(k, m) else {
        return NO_CONFIG;
    };
    match root_of(alloc, &config, text) {
        Ok(found) => {
            let digest = found.0;
            *root = digest;
            OK
        }
        Err(code) => code,
    }
}

/// The index of the chunk that bytes are, which nothing is known of.
#[unsafe(no_mangle)]
pub extern "C" fn buz_chunk_index(alloc: Global, chunk: &[u8], index: &mut u16) -> u32
    ensures done { result ≡ 0 → (piece : _) × IsChunk 1 chunk.now piece × (index.new ≡ piece.index) }
    ensures kept { result ≢ 0 → index.new ≡ index.old }
    ensures refused { result ≢ 0 → (result ≡ 1) ⊎ ((result ≡ 6) × IsNoChunk 1 chunk.now) }
{
    let Some(config) = config_of(1, 1) else {
        return NO_CONFIG;
    };
    match chunk_of(alloc, &config, chunk) {
        Ok(read) => {
            *index = read.index();
            OK
        }
        Err(code) => code,
    }
}

/// Checks that bytes are the chunk at an index under a root.
#[unsafe(no_mangle)]
pub extern "C" fn buz_check(
    alloc: Global,
    k: u16,
    m: u16,
    root: &[u8; 32],
    index: u16,
    chunk: &[u8],
) -> u32
    ensures done { result ≡ 0 → StandsUnder (config_of_numbers k m) root.now index chunk.now }
    ensures refused { result ≢ 0 → ((result ≡ 2) × AreNoConfig k m)
        ⊎ IsCheckStatus (config_of_numbers k m) root.now (λ _. index) chunk.now result }
{
    let Some(config) = config_of(k, m) else {
        return NO_CONFIG;
    };
    let read = match chunk_of(alloc, &config, chunk) {
        Ok(read) => read,
        Err(code) => return code,
    };
    match checked(alloc, &config, root, index, &read) {
        Ok(_) => OK,
        Err(refusal) => refusal,
    }
}

/// The text that chunks come of. Where there is too little room, `size` tells how much is enough.
#[unsafe(no_mangle)]
pub extern "C" fn buz_decode(
    alloc: Global,
    k: u16,
    m: u16,
    root: &[u8; 32],
    chunks: &[Span],
    text: &mut [u8],
    size: &mut usize,
) -> u32
    ensures done { result ≡ 0 → (found : List ℕ)
        × IsDecoded (config_of_numbers k m) root.now (map (λ s. s.bytes.now) chunks.now) found
        × HasRoot (config_of_numbers k m) root.now found
        × IsPut found text.old text.new × (size.new ≡ length found) }
    ensures kept { result ≢ 0 → text.new ≡ text.old }
    ensures refused { result ≢ 0
        → ((result ≡ 5) × HasNoTextRoom (config_of_numbers k m) root.now
        (map (λ s. s.bytes.now) chunks.now) (length text.old) size.new)
        ⊎ ((result ≡ 5) × (found : List ℕ) × HasRoot (config_of_numbers k m) root.now found
        × (length text.old < length found) × (size.new ≡ length found))
        ⊎ ((((result ≡ 2) × AreNoConfig k m)
        ⊎ IsDecodeStatus (config_of_numbers k m) root.now (map (λ s. s.bytes.now) chunks.now)
        result) × (size.new ≡ size.old)) }
    ensures any_enough { (found : List ℕ)
        → AreChunksOfText k m root.now found (map (λ s. s.bytes.now) chunks.now)
        → ((result ≡ 0) × IsPut found text.old text.new × (size.new ≡ length found))
        ⊎ (result ≡ 1)
        ⊎ ((result ≡ 5) × (length text.old < length found) × (length found ≤ size.new)) }
{
    let Some(config) = config_of(k, m) else {
        return NO_CONFIG;
    };
    encodings_decode::<Sha256>();
    if let Some(needed) = lacking_text(alloc, &config, root, chunks, text.len()) {
        *size = needed;
        return NO_ROOM;
    }
    let found = match decoded(alloc, &config, root, chunks) {
        Ok(found) => found,
        Err(code) => return code,
    };
    *size = found.len();
    if text.len() < found.len() {
        return NO_ROOM;
    }
    put_front(text, &found);
    OK
}

/// The recovery shards of `k` shards, with no tree over them. The first `k` are read, and the first
/// `m` buffers written.
#[unsafe(no_mangle)]
pub extern "C" fn buz_encode_shards(
    alloc: Global,
    k: u16,
    m: u16,
    shards: &[Span],
    recoveries: &mut [Room],
) -> u32
    ensures done { result ≡ 0 → AreShards k (map (λ s. s.bytes.now) shards.now)
        × ArePut m (recovery_of k (map (λ s. s.bytes.now) shards.now))
        (map (λ b. b.bytes.now) recoveries.old) (map (λ b. b.bytes.now) recoveries.new) }
    ensures kept { result ≢ 0
        → map (λ b. b.bytes.now) recoveries.new ≡ map (λ b. b.bytes.now) recoveries.old }
    ensures refused { result ≢ 0 → IsRecoveryStatus k m (map (λ s. s.bytes.now) shards.now)
        (map (λ b. b.bytes.now) recoveries.old) result }
{
    let width = match width_of(k, m, shards) {
        Ok(width) => width,
        Err(code) => return code,
    };
    let first = usize::from(k);
    let count = usize::from(m);
    if !have_room(recoveries, count, width) {
        return NO_ROOM;
    }
    let Ok(rows) = codeword_of(alloc, k, m, shards, width) else {
        return NO_MEMORY;
    };
    put_rows(recoveries, &rows, first, width, count);
    OK
}

/// The shards of the targets, rebuilt from `k` shards of a codeword, with no tree over them. The
/// first `k` shards are read, which stand at the first `k` indices.
#[unsafe(no_mangle)]
pub extern "C" fn buz_rebuild_shards(
    alloc: Global,
    k: u16,
    m: u16,
    indices: &[u16],
    shards: &[Span],
    targets: &[u16],
    buffers: &mut [Room],
) -> u32
    ensures done { result ≡ 0 → AreShards k (map (λ s. s.bytes.now) shards.now)
        × ArePut (length targets.now)
        (rebuilt_of k indices.now (map (λ s. s.bytes.now) shards.now) targets.now)
        (map (λ b. b.bytes.now) buffers.old) (map (λ b. b.bytes.now) buffers.new) }
    ensures codeword { result ≡ 0 → (originals : List ℕ)
        → AreOfCodeword k originals indices.now (map (λ s. s.bytes.now) shards.now)
        → ArePut (length targets.now)
        (λ i. code_row k originals (first_width (map (λ s. s.bytes.now) shards.now))
        (slice_index targets.now i))
        (map (λ b. b.bytes.now) buffers.old) (map (λ b. b.bytes.now) buffers.new) }
    ensures kept { result ≢ 0
        → map (λ b. b.bytes.now) buffers.new ≡ map (λ b. b.bytes.now) buffers.old }
    ensures refused { result ≢ 0 → IsRebuildStatus k m indices.now
        (map (λ s. s.bytes.now) shards.now) targets.now (map (λ b. b.bytes.now) buffers.old)
        result }
{
    let width = match width_of(k, m, shards) {
        Ok(width) => width,
        Err(code) => return code,
    };
    if !have_room(buffers, targets.len(), width) {
        return NO_ROOM;
    }
    if !is_short(targets.len(), width) {
        return TOO_LONG;
    }
    if !are_below(targets, k, m) {
        return BAD_INDEX;
    }
    let rows = match rebuilt(alloc, k, m, indices, shards, width, targets) {
        Ok(rows) => rows,
        Err(code) => return code,
    };
    put_rows(buffers, &rows, 0, width, targets.len());
    OK
}
