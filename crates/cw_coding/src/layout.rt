//! The layout of data in shards, and the rows of its codeword.

ghost use Rattle.std.specs.Prelude.{◌≡◌, ℕ, ◌+◌, ◌-◌, ◌*◌, ◌^◌, ◌<◌, ◌≤◌, ◌%◌, ◌++◌, length};
ghost use Rattle.std.specs.Prelude.{replicate, List, take, IfOk, OnOk};
ghost use Rattle.rs_code.specs.Rows.{joined, code_row};
ghost use Rattle.cw_tree.specs.Widths.{shard_len};
ghost use Rattle.cw_coding.specs.Layout.{layout, row_at};

use cw_base::{NoMemory, Strategy, bytes_fit, put_be32, put_bytes};
use cw_tree::canonical_shard_len;
use rs_code::laws::prove_rows;
use rs_code::{add_recoveries, add_recoveries_here};
use std::alloc::Global;
use std::thread::Threads;

// All rows of the text's codeword, end to end.
pub(crate) fn rows_of_text<R: Threads + Sync, S: Strategy>(
    rt: &R,
    alloc: Global,
    k: u16,
    m: u16,
    text: &[u8],
    strategy: &S,
) -> Result<Vec<u8>, NoMemory>
    requires short { length text.now ≤ 2 ^ 32 - 1 }
    requires some { 1 ≤ k }
    requires more { 1 ≤ m }
    requires total { k + m ≤ 65535 }
    ensures value { IfOk result (λ v. v.items ≡ joined (k + m) (row_at k text.now)) }
    ensures long { IfOk result (λ v. length v.items ≡ (k + m) * shard_len (length text.now) k) }
{
    let originals = lay_originals(alloc, k, m, text)?;
    codeword(rt, alloc, k, m, originals, strategy)
}

// The same on the caller's thread.
pub(crate) fn rows_of_text_here(
    alloc: Global,
    k: u16,
    m: u16,
    text: &[u8],
) -> Result<Vec<u8>, NoMemory>
    requires short { length text.now ≤ 2 ^ 32 - 1 }
    requires some { 1 ≤ k }
    requires more { 1 ≤ m }
    requires total { k + m ≤ 65535 }
    ensures value { IfOk result (λ v. v.items ≡ joined (k + m) (row_at k text.now)) }
    ensures long { IfOk result (λ v. length v.items ≡ (k + m) * shard_len (length text.now) k) }
{
    let originals = lay_originals(alloc, k, m, text)?;
    codeword_here(alloc, k, m, originals)
}

// A text laid out in `k` rows of one width.
#[derive(Drop)]
pub(crate) struct Originals {
    pub(crate) width: usize,
    pub(crate) rows: Vec<u8>,
}

// All rows of the codeword that begins with these, end to end.
pub(crate) fn codeword<R: Threads + Sync, S: Strategy>(
    rt: &R,
    alloc: Global,
    k: u16,
    m: u16,
    originals: Originals,
    strategy: &S,
) -> Result<Vec<u8>, NoMemory>
    requires some { 1 ≤ k }
    requires more { 1 ≤ m }
    requires total { k + m ≤ 65535 }
    requires positive { 0 < originals.width }
    requires even { originals.width % 2 ≡ 0 }
    requires long { length originals.rows.items ≡ k * originals.width }
    requires room { (k + m) * originals.width < 2 ^ 63 }
    ensures first { IfOk result (λ v. take (length originals.rows.items) v.items
        ≡ originals.rows.items) }
    ensures long { IfOk result (λ v. length v.items ≡ (k + m) * originals.width) }
    ensures value { (text : List ℕ) → originals.width ≡ shard_len (length text) k
        → originals.rows.items ≡ layout k text →
        IfOk result (λ v. v.items ≡ joined (k + m) (row_at k text)) }
{
    let mut rows = originals.rows;
    bytes_fit(&rows);
    add_recoveries(rt, alloc, k, m, &mut rows, originals.width, strategy)?;
    prove_rows();
    Ok(rows)
}

// The same on the caller's thread.
pub(crate) fn codeword_here(
    alloc: Global,
    k: u16,
    m: u16,
    originals: Originals,
) -> Result<Vec<u8>, NoMemory>
    requires some { 1 ≤ k }
    requires more { 1 ≤ m }
    requires total { k + m ≤ 65535 }
    requires positive { 0 < originals.width }
    requires even { originals.width % 2 ≡ 0 }
    requires long { length originals.rows.items ≡ k * originals.width }
    requires room { (k + m) * originals.width < 2 ^ 63 }
    ensures first { IfOk result (λ v. take (length originals.rows.items) v.items
        ≡ originals.rows.items) }
    ensures long { IfOk result (λ v. length v.items ≡ (k + m) * originals.width) }
    ensures value { (text : List ℕ) → originals.width ≡ shard_len (length text) k
        → originals.rows.items ≡ layout k text →
        IfOk result (λ v. v.items ≡ joined (k + m) (row_at k text)) }
{
    let mut rows = originals.rows;
    bytes_fit(&rows);
    add_recoveries_here(alloc, k, m, &mut rows, originals.width)?;
    prove_rows();
    Ok(rows)
}

// The same, with room for `m` rows more.
fn lay_originals(alloc: Global, k: u16, m: u16, text: &[u8]) -> Result<Originals, NoMemory>
    requires short { length text.now ≤ 2 ^ 32 - 1 }
    requires some { 1 ≤ k }
    requires total { k + m ≤ 65535 }
    ensures width { IfOk result (λ laid. laid.width ≡ shard_len (length text.now) k) }
    ensures some_width { IfOk result (λ laid. 0 < laid.width) }
    ensures even { IfOk result (λ laid. laid.width % 2 ≡ 0) }
    ensures rows { IfOk result (λ laid. laid.rows.items ≡ layout k text.now) }
    ensures long { IfOk result (λ laid. length laid.rows.items ≡ k * laid.width) }
    ensures room { IfOk result (λ laid. (k + m) * laid.width < 2 ^ 63) }
{
    let width = canonical_shard_len(text.len(), k);
    let rows = lay_out(alloc, k, k + m, width, text)?;
    Ok(Originals { width, rows })
}

// The text's length, the text, and zeros up to `k` shards of this width, with room for `total` of
// them.
#[tactic(auto, unfolding(crate::specs::Layout::layout))]
fn lay_out(
    alloc: Global,
    k: u16,
    total: u16,
    width: usize,
    text: &[u8],
) -> Result<Vec<u8>, NoMemory>
    requires short { length text.now ≤ 2 ^ 32 - 1 }
    requires some { 1 ≤ k }
    requires width { width ≡ shard_len (length text.now) k }
    requires covers { length text.now + 4 ≤ k * width }
    requires fits { k * width < 2 ^ 63 }
    ensures { IfOk result (λ v. v.items ≡ layout k text.now) }
{
    let mut out = Vec::with_capacity(alloc, usize::from(total).saturating_mul(width))?;
    put_be32(&mut out, text.len() as u32)?;
    put_bytes(&mut out, text)?;
    put_zeros(&mut out, usize::from(k) * width - (text.len() + 4))?;
    Ok(out)
}

// Adds zeros at the end.
fn put_zeros(out: &mut Vec<u8>, count: usize) -> Result<(), NoMemory>
    requires { count < 2 ^ 63 }
    ensures { OnOk result (out.new.items ≡ out.old.items ++ replicate count 0) }
{
    let size = out.len() + count;
    out.resize(size, 0)?;
    Ok(())
}
