//! From rows to the text that they come of.

ghost use Rattle.std.specs.Prelude.{ℕ, ◌%◌, ◌*◌, ◌+◌, ◌-◌, ◌<◌, ◌^◌, ◌↔◌, ◌≡◌, ◌≢◌, ◌≤◌, List};
ghost use Rattle.std.specs.Prelude.{length, slice_index, take, replicate, Some, IfOk, IsTrue};
ghost use Rattle.std.specs.Prelude.{MatchOption};
ghost use Rattle.rs_code.specs.Rows.{joined, code_row};
ghost use Rattle.cw_base.specs.Rows.{row_of};
ghost use Rattle.rs_code.specs.Indices.{AreSound};
ghost use Rattle.cw_tree.specs.Widths.{shard_len};
ghost use Rattle.cw_tree.specs.Tree.{root_of};
ghost use Rattle.cw_coding.specs.Layout.{counted_text, layout};
ghost use Rattle.cw_coding.specs.Decoding.{AreRecoverable, Fits};
ghost use Rattle.cw_coding.specs.Digests.{AreDigests};
ghost use Rattle.cw_coding.specs.Totals.{total_of};

use crate::encoding::tree_of;
use crate::gathering::Given;
use crate::hashing::{hash_others, hash_others_here};
use crate::layout::{Originals, codeword, codeword_here};
use cw_base::{Config, Digest, Hasher, NoMemory, Strategy, bytes_fit};
use cw_tree::canonical_shard_len;
use rs_code::laws::prove_rows;
use rs_code::{restore, restore_here};
use std::alloc::Global;
use std::thread::Threads;

// The text that the rows given come of, and that has this root.
pub(crate) fn recovered<H: Hasher, R: Threads + Sync, S: Strategy>(
    rt: &R,
    alloc: Global,
    config: &Config,
    root: &H::Digest,
    given: &Given<H>,
    strategy: &S,
) -> Result<Option<Vec<u8>>, NoMemory>
    requires given { AreRecoverable config.now given.now.width given.now.indices.items
        given.now.rows.items given.now.compared }
    requires digests { AreDigests H.digest_of given.now.width given.now.rows.items
        (length given.now.indices.items) given.now.digests.items }
    ensures { IfOk result (λ found. MatchOption found
        ((text : List ℕ)
        → Fits H.digest_of H.Digest.content config.now.minimum config.now.extra root.now
        given.now.width given.now.indices.items given.now.rows.items given.now.compared text → ⊥)
        (λ text. Fits H.digest_of H.Digest.content config.now.minimum config.now.extra root.now
        given.now.width given.now.indices.items given.now.rows.items given.now.compared
        text.items)) }
{
    let width = given.width;
    if !is_row_width(width) {
        return Ok(None);
    }
    let originals = rebuilt(rt, alloc, config, given, strategy)?;
    let Some(count) = candidate::<H>(config, given, &originals) else {
        return Ok(None);
    };
    let originals = Originals {
        width,
        rows: originals,
    };
    let rows = codeword(
        rt,
        alloc,
        config.minimum(),
        config.extra(),
        originals,
        strategy,
    )?;
    if !has_rows::<H>(config, given, &rows) {
        return Ok(None);
    }
    let (indices, digests) = compared_digests(given);
    let digests = hash_others::<H, R, S>(rt, alloc, &rows, width, indices, digests, strategy)?;
    text_under::<H>(alloc, root, count, rows, digests)
}

// The same on the caller's thread.
pub(crate) fn recovered_here<H: Hasher>(
    alloc: Global,
    config: &Config,
    root: &H::Digest,
    given: &Given<H>,
) -> Result<Option<Vec<u8>>, NoMemory>
    requires given { AreRecoverable config.now given.now.width given.now.indices.items
        given.now.rows.items given.now.compared }
    requires digests { AreDigests H.digest_of given.now.width given.now.rows.items
        (length given.now.indices.items) given.now.digests.items }
    ensures { IfOk result (λ found. MatchOption found
        ((text : List ℕ)
        → Fits H.digest_of H.Digest.content config.now.minimum config.now.extra root.now
        given.now.width given.now.indices.items given.now.rows.items given.now.compared text → ⊥)
        (λ text. Fits H.digest_of H.Digest.content config.now.minimum config.now.extra root.now
        given.now.width given.now.indices.items given.now.rows.items given.now.compared
        text.items)) }
{
    let width = given.width;
    if !is_row_width(width) {
        return Ok(None);
    }
    let originals = rebuilt_here(alloc, config, given)?;
    let Some(count) = candidate::<H>(config, given, &originals) else {
        return Ok(None);
    };
    let originals = Originals {
        width,
        rows: originals,
    };
    let rows = codeword_here(alloc, config.minimum(), config.extra(), originals)?;
    if !has_rows::<H>(config, given, &rows) {
        return Ok(None);
    }
    let (indices, digests) = compared_digests(given);
    let digests = hash_others_here::<H>(alloc, &rows, width, indices, digests)?;
    text_under::<H>(alloc, root, count, rows, digests)
}

// Whether rows of codewords have this width.
fn is_row_width(width: usize) -> bool
    ensures { IsTrue result ↔ ((0 < width) × (width % 2 ≡ 0)) }
{
    width != 0 && width % 2 == 0
}

// The originals, of the first rows given.
fn rebuilt<H: Hasher, R: Threads + Sync, S: Strategy>(
    rt: &R,
    alloc: Global,
    config: &Config,
    given: &Given<H>,
    strategy: &S,
) -> Result<Vec<u8>, NoMemory>
    requires given { AreRecoverable config.now given.now.width given.now.indices.items
        given.now.rows.items given.now.compared }
    requires positive { 0 < given.now.width }
    requires even { given.now.width % 2 ≡ 0 }
    ensures long { IfOk result (λ v. length v.items ≡ config.now.minimum * given.now.width) }
    ensures value { (originals : List ℕ) →
        ((s : ℕ) → s < config.now.minimum → row_of given.now.rows.items given.now.width s
        ≡ code_row config.now.minimum originals given.now.width
        (slice_index given.now.indices.items s)) →
        IfOk result (λ v. v.items ≡ joined config.now.minimum
        (λ i. code_row config.now.minimum originals given.now.width i)) }
{
    let used = used_rows(config, given);
    let (k, m) = (config.minimum(), config.extra());
    restore(rt, alloc, k, m, &given.indices, used, given.width, strategy)
}

// The same on the caller's thread.
fn rebuilt_here<H: Hasher>(
    alloc: Global,
    config: &Config,
    given: &Given<H>,
) -> Result<Vec<u8>, NoMemory>
    requires given { AreRecoverable config.now given.now.width given.now.indices.items
        given.now.rows.items given.now.compared }
    requires positive { 0 < given.now.width }
    requires even { given.now.width % 2 ≡ 0 }
    ensures long { IfOk result (λ v. length v.items ≡ config.now.minimum * given.now.width) }
    ensures value { (originals : List ℕ) →
        ((s : ℕ) → s < config.now.minimum → row_of given.now.rows.items given.now.width s
        ≡ code_row config.now.minimum originals given.now.width
        (slice_index given.now.indices.items s)) →
        IfOk result (λ v. v.items ≡ joined config.now.minimum
        (λ i. code_row config.now.minimum originals given.now.width i)) }
{
    let used = used_rows(config, given);
    let (k, m) = (config.minimum(), config.extra());
    restore_here(alloc, k, m, &given.indices, used, given.width)
}

// The rows that are used: as many as there are originals.
fn used_rows<'a, H: Hasher>(config: &Config, given: &'a Given<H>) -> &'a [u8]
    requires { AreRecoverable config.now given.now.width given.now.indices.items
        given.now.rows.items given.now.compared }
    ensures value { result.now
        ≡ take (config.now.minimum * given.now.width) given.now.rows.items }
    ensures long { length result.now ≡ config.now.minimum * given.now.width }
    ensures fits { config.now.minimum * given.now.width < 2 ^ 63 }
{
    &given.rows[..usize::from(config.minimum()) * given.width]
}

// The length of the only text that the rows given can come of, by the originals that were rebuilt
// from them, in which it is laid out.
fn candidate<H: Hasher>(config: &Config, given: &Given<H>, originals: &[u8]) -> Option<usize>
    requires given { AreRecoverable config.now given.now.width given.now.indices.items
        given.now.rows.items given.now.compared }
    requires long { length originals.now ≡ config.now.minimum * given.now.width }
    requires value { (xs : List ℕ) →
        ((s : ℕ) → s < config.now.minimum → row_of given.now.rows.items given.now.width s
        ≡ code_row config.now.minimum xs given.now.width (slice_index given.now.indices.items s)) →
        originals.now ≡ joined config.now.minimum
        (λ i. code_row config.now.minimum xs given.now.width i) }
    ensures { MatchOption result
        ((root : H.Digest) (text : List ℕ)
        → Fits H.digest_of H.Digest.content config.now.minimum config.now.extra root
        given.now.width given.now.indices.items given.now.rows.items given.now.compared text → ⊥)
        (λ count. (count ≤ 2 ^ 32 - 1) × (count + 4 ≤ length originals.now)
        × (layout config.now.minimum (counted_text originals.now count) ≡ originals.now)
        × (shard_len count config.now.minimum ≡ given.now.width)
        × ((root : H.Digest) (other : List ℕ)
        → Fits H.digest_of H.Digest.content config.now.minimum config.now.extra root
        given.now.width given.now.indices.items given.now.rows.items given.now.compared other
        → other ≡ counted_text originals.now count)) }
{
    prove_rows();
    let found = text_length(config.minimum(), given.width, originals);
    match found {
        Some(count) => Some(count),
        None => None,
    }
}

// The length of the text that has this layout.
fn text_length(k: u16, width: usize, originals: &[u8]) -> Option<usize>
    requires some { 1 ≤ k }
    requires long { length originals.now ≡ k * width }
    ensures { MatchOption result
        ((text : List ℕ) → length text ≤ 2 ^ 32 - 1 → layout k text ≡ originals.now → ⊥)
        (λ count. (count ≤ 2 ^ 32 - 1) × (count + 4 ≤ length originals.now)
        × (layout k (counted_text originals.now count) ≡ originals.now)
        × (shard_len count k ≡ width)) }
{
    let [a, b, c, d, rest @ ..] = originals else {
        return None;
    };
    let count = u32::from_be_bytes([*a, *b, *c, *d]) as usize;
    if rest.len() < count || canonical_shard_len(count, k) != width {
        return None;
    }
    if !are_zeros(&rest[count..]) {
        return None;
    }
    Some(count)
}

fn are_zeros(bytes: &[u8]) -> bool
    ensures { IsTrue result ↔ (bytes.now ≡ replicate (length bytes.now) 0) }
{
    for i in 0..bytes.len() {
        if bytes[i] != 0 {
            return false;
        }
    }
    true
}

// Whether a codeword has the rows that are compared.
fn has_rows<H: Hasher>(config: &Config, given: &Given<H>, rows: &[u8]) -> bool
    requires given { AreRecoverable config.now given.now.width given.now.indices.items
        given.now.rows.items given.now.compared }
    requires rows { length rows.now ≡ total_of config.now * given.now.width }
    ensures { IsTrue result ↔ ((s : ℕ) → s < given.now.compared
        → row_of given.now.rows.items given.now.width s
        ≡ row_of rows.now given.now.width (slice_index given.now.indices.items s)) }
{
    same_rows(
        rows,
        given.width,
        config.minimum() + config.extra(),
        &given.indices,
        &given.rows,
        given.compared,
    )
}

// Whether the first rows given are those of a codeword.
fn same_rows(
    rows: &[u8],
    width: usize,
    total: u16,
    indices: &[u16],
    given: &[u8],
    compared: usize,
) -> bool
    requires compared { compared ≤ length indices.now }
    requires given { length given.now ≡ length indices.now * width }
    requires rows { length rows.now ≡ total * width }
    requires range { (s : ℕ) → s < length indices.now → slice_index indices.now s < total }
    ensures { IsTrue result ↔ ((s : ℕ) → s < compared
        → row_of given.now width s ≡ row_of rows.now width (slice_index indices.now s)) }
{
    for s in 0..compared {
        if !same_row(width, given, s, rows, usize::from(indices[s])) {
            return false;
        }
    }
    true
}

// Whether a row of the one is a row of the other.
fn same_row(width: usize, given: &[u8], s: usize, rows: &[u8], i: usize) -> bool
    requires given { s * width + width ≤ length given.now }
    requires rows { i * width + width ≤ length rows.now }
    ensures { IsTrue result ↔ (row_of given.now width s ≡ row_of rows.now width i) }
{
    row(given, width, s) == row(rows, width, i)
}

fn row<'a>(rows: &'a [u8], width: usize, i: usize) -> &'a [u8]
    requires { i * width + width ≤ length rows.now }
    ensures { result.now ≡ row_of rows.now width i }
{
    let start = i * width;
    &rows[start..start + width]
}

// The indices of the rows that are compared, and their digests.
fn compared_digests<'a, H: Hasher>(given: &'a Given<H>) -> (&'a [u16], &'a [H::Digest])
    requires indices { given.now.compared ≤ length given.now.indices.items }
    requires digests { given.now.compared ≤ length given.now.digests.items }
    ensures indices { result.0.now ≡ take given.now.compared given.now.indices.items }
    ensures digests { result.1.now ≡ take given.now.compared given.now.digests.items }
{
    (
        &given.indices[..given.compared],
        &given.digests[..given.compared],
    )
}

// The text in rows whose digests have this root, if they have it.
fn text_under<H: Hasher>(
    alloc: Global,
    root: &H::Digest,
    count: usize,
    rows: Vec<u8>,
    digests: Vec<H::Digest>,
) -> Result<Option<Vec<u8>>, NoMemory>
    requires text { count + 4 ≤ length rows.items }
    requires some { 1 ≤ length digests.items }
    requires few { length digests.items ≤ 65535 }
    ensures { IfOk result (λ found. MatchOption found
        (root_of H.digest_of H.Digest.content digests.items ≢ Some root.now)
        (λ text. (root_of H.digest_of H.Digest.content digests.items ≡ Some root.now)
        × (text.items ≡ counted_text rows.items count)
        × ((i : ℕ) → slice_index text.items i < 256))) }
{
    let tree = tree_of::<H>(alloc, digests)?;
    if !tree.root().is_same(root) {
        return Ok(None);
    }
    Ok(Some(text_behind(rows, count)))
}

// The text in rows, in their room.
fn text_behind(rows: Vec<u8>, count: usize) -> Vec<u8>
    requires { count + 4 ≤ length rows.items }
    ensures value { result.items ≡ counted_text rows.items count }
    ensures bytes { (i : ℕ) → slice_index result.items i < 256 }
{
    let mut text = rows;
    text.copy_within(4..4 + count, 0);
    text.truncate(count);
    text.shrink_to_fit();
    bytes_fit(&text);
    text
}
