//! Hashing rows of one width that stand end to end.

ghost use Rattle.std.specs.Prelude.{◌≡◌, ◌/◌, ◌<◌, length, map, IfOk};
ghost use Rattle.cw_base.specs.Rows.{listed, row_of, row_hashes};

use crate::error::NoMemory;
use crate::hash::Hasher;
use crate::strategy::Strategy;
use std::alloc::Global;
use std::thread::Threads;

// The hash of each row, by a strategy.
pub(crate) fn hash_rows<H: Hasher, R: Threads + Sync, S: Strategy>(
    rt: &R,
    alloc: Global,
    rows: &[u8],
    width: usize,
    strategy: &S,
) -> Result<Vec<H::Digest>, NoMemory>
    requires { 0 < width }
    ensures { IfOk result (λ v. v.items ≡ row_hashes H.digest_of width rows.now) }
{
    let slices = rows_of(alloc, rows, width)?;
    let hash = |row: &&[u8]| -> H::Digest
        ensures { result ≡ H.digest_of row.now.now }
    { H::hash(row) };
    let hashes = strategy.map(rt, alloc, &slices, &hash)?;
    Ok(hashes)
}

// The rows, as slices.
fn rows_of(alloc: Global, rows: &[u8], width: usize) -> Result<Vec<&[u8]>, NoMemory>
    requires { 0 < width }
    ensures { IfOk result
        (λ v. map (λ row. row.now) v.items
        ≡ listed (length rows.now / width) (λ i. row_of rows.now width i)) }
{
    let mut slices = Vec::new(alloc);
    for i in 0..rows.len() / width {
        slices.push(row(rows, width, i))?;
    }
    Ok(slices)
}

// Row i.
#[tactic(auto, unfolding(crate::specs::Rows::row_of))]
fn row(rows: &[u8], width: usize, i: usize) -> &[u8]
    requires positive { 0 < width }
    requires within { i < length rows.now / width }
    ensures { result.now ≡ row_of rows.now width i }
{
    let start = i * width;
    &rows[start..start + width]
}
