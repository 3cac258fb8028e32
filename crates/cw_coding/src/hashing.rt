//! The digests of rows.

ghost use Rattle.std.specs.Prelude.{ℕ, ◌/◌, ◌<◌, ◌≡◌, ◌≤◌, ◌⊎◌, length, slice_index};
ghost use Rattle.std.specs.Prelude.{slice_index_or, true, false, IfOk};
ghost use Rattle.cw_base.specs.Rows.{row_of, row_hashes};
ghost use Rattle.cw_coding.specs.Digests.{AreDigestsAt, IsOneOf};

use cw_base::{Digest, FEW_BYTES, Hasher, NoMemory, Strategy};
use std::alloc::Global;
use std::thread::Threads;

// The digest of each row, of which some are given: those of the rows at these indices.
pub(crate) fn hash_others<H: Hasher, R: Threads + Sync, S: Strategy>(
    rt: &R,
    alloc: Global,
    rows: &[u8],
    width: usize,
    indices: &[u16],
    digests: &[H::Digest],
    strategy: &S,
) -> Result<Vec<H::Digest>, NoMemory>
    requires positive { 0 < width }
    requires few { length rows.now / width ≤ 65535 }
    requires given { AreDigestsAt H.digest_of width rows.now indices.now digests.now }
    ensures { IfOk result (λ v. v.items ≡ row_hashes H.digest_of width rows.now) }
{
    let total = rows.len() / width;
    let others = others(alloc, total as u16, indices)?;
    let hashed = hash_at::<H, R, S>(rt, alloc, rows, width, &others, strategy)?;
    all_digests::<H>(alloc, rows, width, indices, digests, &others, &hashed)
}

// The same on the caller's thread.
pub(crate) fn hash_others_here<H: Hasher>(
    alloc: Global,
    rows: &[u8],
    width: usize,
    indices: &[u16],
    digests: &[H::Digest],
) -> Result<Vec<H::Digest>, NoMemory>
    requires positive { 0 < width }
    requires few { length rows.now / width ≤ 65535 }
    requires given { AreDigestsAt H.digest_of width rows.now indices.now digests.now }
    ensures { IfOk result (λ v. v.items ≡ row_hashes H.digest_of width rows.now) }
{
    let total = rows.len() / width;
    let others = others(alloc, total as u16, indices)?;
    let hashed = hash_at_here::<H>(alloc, rows, width, &others)?;
    all_digests::<H>(alloc, rows, width, indices, digests, &others, &hashed)
}

// The digest of each row, on the caller's thread.
#[tactic(auto, unfolding(cw_base::specs::Rows::row_hashes))]
pub(crate) fn hash_each<H: Hasher>(
    alloc: Global,
    rows: &[u8],
    width: usize,
) -> Result<Vec<H::Digest>, NoMemory>
    requires positive { 0 < width }
    ensures { IfOk result (λ digests. digests.items ≡ row_hashes H.digest_of width rows.now) }
{
    let count = rows.len() / width;
    let mut digests = Vec::with_capacity(alloc, count)?;
    for i in 0..count {
        digests.push(H::hash(nth_row(rows, width, i)))?;
    }
    Ok(digests)
}

// The numbers below a total that aren't listed.
fn others(alloc: Global, total: u16, listed: &[u16]) -> Result<Vec<u16>, NoMemory>
    requires { (t : ℕ) → t < length listed.now → slice_index listed.now t < total }
    ensures below { IfOk result
        (λ v. (t : ℕ) → t < length v.items → slice_index v.items t < total) }
    ensures all { IfOk result (λ v. (i : ℕ) → i < total
        → IsOneOf i listed.now ⊎ IsOneOf i v.items) }
{
    let marks = marks(alloc, total, listed)?;
    let mut others = Vec::new(alloc);
    for i in 0..total {
        if !marks[usize::from(i)] {
            others.push(i)?;
        }
    }
    Ok(others)
}

// Which numbers below a total are listed.
fn marks(alloc: Global, total: u16, listed: &[u16]) -> Result<Vec<bool>, NoMemory>
    requires { (t : ℕ) → t < length listed.now → slice_index listed.now t < total }
    ensures count { IfOk result (λ v. length v.items ≡ total) }
    ensures marked { IfOk result (λ v. (i : ℕ) → slice_index_or v.items i false ≡ true
        → IsOneOf i listed.now) }
{
    let mut marks = vec![in alloc; false; usize::from(total)]?;
    for i in listed {
        marks[usize::from(*i)] = true;
    }
    Ok(marks)
}

// The digests of the rows at these indices: by a strategy, but for few bytes.
fn hash_at<H: Hasher, R: Threads + Sync, S: Strategy>(
    rt: &R,
    alloc: Global,
    rows: &[u8],
    width: usize,
    indices: &[u16],
    strategy: &S,
) -> Result<Vec<H::Digest>, NoMemory>
    requires positive { 0 < width }
    requires below { (t : ℕ) → t < length indices.now
        → slice_index indices.now t < length rows.now / width }
    ensures { IfOk result
        (λ v. AreDigestsAt H.digest_of width rows.now indices.now v.items) }
{
    if indices.len() < FEW_BYTES.div_ceil(width) {
        return hash_at_here::<H>(alloc, rows, width, indices);
    }
    let hash = |i: &u16| -> H::Digest
        requires { (0 < width) × (i.now < length rows.now / width) }
        ensures { result ≡ H.digest_of (row_of rows.entry.now width i.now) }
    { H::hash(nth_row(rows, width, usize::from(*i))) };
    let hashes = strategy.map(rt, alloc, indices, &hash)?;
    Ok(hashes)
}

// The same on the caller's thread.
fn hash_at_here<H: Hasher>(
    alloc: Global,
    rows: &[u8],
    width: usize,
    indices: &[u16],
) -> Result<Vec<H::Digest>, NoMemory>
    requires positive { 0 < width }
    requires below { (t : ℕ) → t < length indices.now
        → slice_index indices.now t < length rows.now / width }
    ensures { IfOk result
        (λ v. AreDigestsAt H.digest_of width rows.now indices.now v.items) }
{
    let mut digests = Vec::with_capacity(alloc, indices.len())?;
    for i in indices {
        digests.push(H::hash(nth_row(rows, width, usize::from(*i))))?;
    }
    Ok(digests)
}

// The digests of all rows, from those at some indices and those at the others.
fn all_digests<H: Hasher>(
    alloc: Global,
    rows: &[u8],
    width: usize,
    indices: &[u16],
    digests: &[H::Digest],
    others: &[u16],
    hashed: &[H::Digest],
) -> Result<Vec<H::Digest>, NoMemory>
    requires positive { 0 < width }
    requires given { AreDigestsAt H.digest_of width rows.now indices.now digests.now }
    requires made { AreDigestsAt H.digest_of width rows.now others.now hashed.now }
    requires all { (i : ℕ) → i < length rows.now / width
        → IsOneOf i indices.now ⊎ IsOneOf i others.now }
    ensures { IfOk result (λ v. v.items ≡ row_hashes H.digest_of width rows.now) }
{
    let mut all = vec![in alloc; H::Digest::EMPTY; rows.len() / width]?;
    put_at::<H>(&mut all, indices, digests);
    put_at::<H>(&mut all, others, hashed);
    Ok(all)
}

// Puts digests at their places.
fn put_at<H: Hasher>(all: &mut Vec<H::Digest>, places: &[u16], digests: &[H::Digest])
    requires below { (t : ℕ) → t < length places.now
        → slice_index places.now t < length all.old.items }
    requires count { length digests.now ≡ length places.now }
    ensures count { length all.new.items ≡ length all.old.items }
    ensures each { (f : ℕ → H.Digest)
        → ((t : ℕ) (d : H.Digest) → t < length places.now
        → slice_index_or digests.now t d ≡ f (slice_index places.now t)) → (i : ℕ)
        → i < length all.old.items
        → ((d : H.Digest) → slice_index_or all.old.items i d ≡ f i) ⊎ IsOneOf i places.now
        → (d : H.Digest) → slice_index_or all.new.items i d ≡ f i }
{
    for t in 0..places.len() {
        all[usize::from(places[t])] = digests[t];
    }
}

// Row i.
#[tactic(auto, unfolding(cw_base::specs::Rows::row_of))]
fn nth_row(rows: &[u8], width: usize, i: usize) -> &[u8]
    requires positive { 0 < width }
    requires within { i < length rows.now / width }
    ensures { result.now ≡ row_of rows.now width i }
{
    let start = i * width;
    &rows[start..start + width]
}
