//! Rows of one width that stand end to end, made of others row by row.

ghost use Rattle.std.specs.Prelude.{◌≡◌, ℕ, ◌<◌, ◌≤◌, ◌+◌, ◌*◌, ◌/◌, ◌%◌, ◌++◌, bit_xor, length};
ghost use Rattle.std.specs.Prelude.{slice_index, IfOk, OnOk};
ghost use Rattle.cw_base.specs.Rows.{row_of};
ghost use Rattle.rs_code.specs.Field.{times};
ghost use Rattle.rs_code.specs.Rows.{symbol, symbol_bytes, joined};

use crate::gf16;
use std::alloc::{AllocError, Global};

/// The rows at these places, in this order.
pub(crate) fn picked(
    alloc: Global,
    rows: &[u8],
    width: usize,
    places: &[usize],
) -> Result<Vec<u8>, AllocError>
    requires some_width { 0 < width }
    requires within { (i : ℕ) → i < length places.now
        → slice_index places.now i < length rows.now / width }
    ensures long { IfOk result (λ v. length v.items ≡ length places.now * width) }
    ensures rows { IfOk result (λ v. v.items ≡ joined (length places.now)
        (λ i. row_of rows.now width (slice_index places.now i))) }
{
    let mut picked = Vec::new(alloc);
    for i in 0..places.len() {
        picked.extend_from_slice(row(rows, width, places[i]))?;
    }
    Ok(picked)
}

/// The rows at these places among the rows of two lists, the second behind the first, in this order.
pub(crate) fn picked_of_two(
    alloc: Global,
    first: &[u8],
    second: &[u8],
    width: usize,
    places: &[usize],
) -> Result<Vec<u8>, AllocError>
    requires some_width { 0 < width }
    requires whole { length first.now % width ≡ 0 }
    requires within { (i : ℕ) → i < length places.now
        → slice_index places.now i < (length first.now + length second.now) / width }
    ensures long { IfOk result (λ v. length v.items ≡ length places.now * width) }
    ensures rows { IfOk result (λ v. v.items ≡ joined (length places.now)
        (λ i. row_of (first.now ++ second.now) width (slice_index places.now i))) }
{
    let mut picked = Vec::new(alloc);
    for i in 0..places.len() {
        picked.extend_from_slice(row_of_two(first, second, width, places[i]))?;
    }
    Ok(picked)
}

// Row i of two lists, the second behind the first.
fn row_of_two<'a>(first: &'a [u8], second: &'a [u8], width: usize, i: usize) -> &'a [u8]
    requires some_width { 0 < width }
    requires whole { length first.now % width ≡ 0 }
    requires within { i < (length first.now + length second.now) / width }
    ensures { result.now ≡ row_of (first.now ++ second.now) width i }
{
    let count = first.len() / width;
    if i < count {
        return row(first, width, i);
    }
    row(second, width, i - count)
}

// Row i.
#[tactic(auto, unfolding(cw_base::specs::Rows::row_of))]
fn row(rows: &[u8], width: usize, i: usize) -> &[u8]
    requires some_width { 0 < width }
    requires within { i < length rows.now / width }
    ensures { result.now ≡ row_of rows.now width i }
{
    let start = i * width;
    &rows[start..start + width]
}

/// The sums of two lists of rows.
pub(crate) fn summed(alloc: Global, first: &[u8], second: &[u8]) -> Result<Vec<u8>, AllocError>
    requires { length first.now ≡ length second.now }
    ensures count { IfOk result (λ v. length v.items ≡ length first.now) }
    ensures symbols { IfOk result (λ v. (width i j : ℕ) → i * width + width ≤ length first.now
        → 2 * j + 1 < width → symbol v.items width i j
        ≡ bit_xor (symbol first.now width i j) (symbol second.now width i j)) }
{
    let mut sums = Vec::with_capacity(alloc, first.len())?;
    for i in 0..first.len() {
        sums.push(first[i] ^ second[i])?;
    }
    Ok(sums)
}

/// Each row times a factor of its own.
pub(crate) fn scaled(
    alloc: Global,
    rows: &[u8],
    width: usize,
    factors: &[u16],
) -> Result<Vec<u8>, AllocError>
    requires some_width { 0 < width }
    requires even { width % 2 ≡ 0 }
    requires rows { length rows.now ≡ length factors.now * width }
    ensures long { IfOk result (λ v. length v.items ≡ length factors.now * width) }
    ensures rows { IfOk result (λ v. v.items ≡ joined (length factors.now)
        (λ i. symbol_bytes (width / 2)
        (λ j. times (symbol rows.now width i j) (slice_index factors.now i)))) }
{
    let mut scaled = Vec::with_capacity(alloc, rows.len())?;
    for i in 0..factors.len() {
        push_scaled(&mut scaled, row(rows, width, i), factors[i])?;
    }
    Ok(scaled)
}

// Appends a row times a factor.
fn push_scaled(out: &mut Vec<u8>, row: &[u8], factor: u16) -> Result<(), AllocError>
    ensures { OnOk result (out.new.items ≡ out.old.items ++ symbol_bytes (length row.now / 2)
        (λ j. times (symbol row.now 0 0 j) factor)) }
{
    for j in 0..row.len() / 2 {
        let symbol = u16::from(row[2 * j]) * 256 + u16::from(row[2 * j + 1]);
        let product = gf16::mul(symbol, factor);
        out.push((product / 256) as u8)?;
        out.push((product % 256) as u8)?;
    }
    Ok(())
}
