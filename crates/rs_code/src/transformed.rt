//! Recovery rows by the transform. Where there are many rows that is far fewer steps than a product
//! for each original and each recovery.

ghost use Rattle.std.specs.Prelude.{◌≡◌, ◌≢◌, ℕ, ◌<◌, ◌≤◌, ◌+◌, ◌*◌, ◌/◌, ◌%◌, ◌^◌, length};
ghost use Rattle.std.specs.Prelude.{slice_index, OnOk};
ghost use Rattle.rs_code.specs.Codeword.{codeword};
ghost use Rattle.rs_code.specs.Columns.{entry, AreScales};
ghost use Rattle.rs_code.specs.Rows.{symbol, symbol_bytes, joined};
ghost use Rattle.rs_code.specs.Symbols.{symbol_in};
ghost use Rattle.rs_code.specs.Transform.{combined};

use crate::columns::Columns;
use crate::products::symbols_fit;
use crate::subspaces::{STEPS, scales};
use crate::transform::{Part, forward, inverse, size};
use cw_base::bytes_fit;
use std::alloc::{AllocError, Global};

// How many coefficients are worked on at once. A factor's tables are made anew for each piece of
// the columns; the steps go by halves, so most of them stay in the caches near the processor.
const SYMBOLS: usize = 524288;

// For how many originals and recoveries rows are made, the exponent of the least power of two that
// is no less than the originals, and the inverted divisors.
#[derive(Drop)]
struct Setting {
    k: usize,
    m: usize,
    t: usize,
    scales: [u16; STEPS],
}

// A block of `n` columns: from the column `from` on in the originals, of `width` bytes each, and
// from the column `start` on in the recoveries, of `wide` bytes each.
#[derive(Clone, Copy)]
struct Window {
    from: usize,
    width: usize,
    start: usize,
    wide: usize,
    n: usize,
}

/// Writes the recovery rows: `wide` bytes of each, from the first column on.
pub fn fill_transformed(
    alloc: Global,
    out: &mut [u8],
    k: usize,
    m: usize,
    columns: Columns,
    wide: usize,
) -> Result<(), AllocError>
    requires total { k + m ≤ 65535 }
    requires rows { length columns.rows.now ≡ k * columns.width }
    requires columns { 2 * columns.first + wide ≤ columns.width }
    requires even { wide % 2 ≡ 0 }
    requires out { length out.old ≡ m * wide }
    ensures count { length out.new ≡ length out.old }
    ensures rows { OnOk result (out.new ≡ joined m (λ i. symbol_bytes (wide / 2)
        (λ j. codeword k (λ s. symbol_in columns.entry s j) (k + i)))) }
{
    let t = exponent(k);
    let scales = scales();
    let setting = Setting { k, m, t, scales };
    let total = wide / 2;
    let each = columns_at_once(total, t);
    for block in 0..pieces(total, each) {
        let start = each * block;
        let n = (total - start).min(each);
        let window = Window {
            from: columns.first + start,
            width: columns.width,
            start,
            wide,
            n,
        };
        fill_columns(alloc, out, &setting, columns.rows, window)?;
    }
    bytes_fit(out);
    Ok(())
}

// The exponent of the least power of two that is no less.
fn exponent(count: usize) -> usize
    requires { count ≤ 65536 }
    ensures fits { result ≤ 16 }
    ensures room { count ≤ 2 ^ result }
{
    for t in 0..16 {
        if count <= size(t) {
            return t;
        }
    }
    16
}

// How many pieces of a size cover a total.
fn pieces(total: usize, each: usize) -> usize
    requires some { 1 ≤ each }
    requires fits { total + each < 2 ^ 64 }
    ensures within { (b : ℕ) → b < result → b * each < total }
    ensures all { total ≤ result * each }
{
    (total + each - 1) / each
}

// How many columns are worked on at once: as many in each piece, but for the last one.
fn columns_at_once(columns: usize, t: usize) -> usize
    requires { t ≤ 16 }
    ensures some { 1 ≤ result }
    ensures few { result ≤ 4096 }
{
    let most = (SYMBOLS / size(t)).max(256).min(4096);
    let count = columns.div_ceil(most).max(1);
    columns.div_ceil(count).max(1).min(most)
}

// Writes the recovery rows' symbols in a block of columns.
fn fill_columns(
    alloc: Global,
    out: &mut [u8],
    setting: &Setting,
    rows: &[u8],
    window: Window,
) -> Result<(), AllocError>
    requires total { setting.now.k + setting.now.m ≤ 65535 }
    requires fits { setting.now.t ≤ 16 }
    requires few { window.n ≤ 4096 }
    requires room { setting.now.k ≤ 2 ^ setting.now.t }
    requires rows { length rows.now ≡ setting.now.k * window.width }
    requires columns { 2 * (window.from + window.n) ≤ window.width }
    requires own { 2 * (window.start + window.n) ≤ window.wide }
    requires out { length out.old ≡ setting.now.m * window.wide }
    requires scales { AreScales 15 setting.now.scales }
    ensures count { length out.new ≡ length out.old }
    ensures written { OnOk result ((i j : ℕ) → i < setting.now.m → j < window.n
        → symbol out.new window.wide i (window.start + j)
        ≡ codeword setting.now.k (λ s. symbol rows.now window.width s (window.from + j))
        (setting.now.k + i)) }
    ensures others { (i j : ℕ) → 2 * (j + 1) ≤ window.wide
        → (window.start ≤ j → j < window.start + window.n → ⊥)
        → symbol out.new window.wide i j ≡ symbol out.old window.wide i j }
{
    let count = size(setting.t) * window.n;
    let mut coefficients = vec![in alloc; 0u16; count]?;
    let mut values = vec![in alloc; 0u16; count]?;
    transform_columns(out, setting, rows, window, &mut coefficients, &mut values);
    Ok(())
}

// The same in room for the coefficients, of which each is 0, and for the values.
fn transform_columns(
    out: &mut [u8],
    setting: &Setting,
    rows: &[u8],
    window: Window,
    coefficients: &mut [u16],
    values: &mut [u16],
)
    requires total { setting.now.k + setting.now.m ≤ 65535 }
    requires fits { setting.now.t ≤ 16 }
    requires room { setting.now.k ≤ 2 ^ setting.now.t }
    requires rows { length rows.now ≡ setting.now.k * window.width }
    requires columns { 2 * (window.from + window.n) ≤ window.width }
    requires own { 2 * (window.start + window.n) ≤ window.wide }
    requires out { length out.old ≡ setting.now.m * window.wide }
    requires scales { AreScales 15 setting.now.scales }
    requires coefficients { length coefficients.old ≡ 2 ^ setting.now.t * window.n }
    requires zeros { (p : ℕ) → p < length coefficients.old → slice_index coefficients.old p ≡ 0 }
    requires values { length values.old ≡ 2 ^ setting.now.t * window.n }
    ensures count { length out.new ≡ length out.old }
    ensures written { (i j : ℕ) → i < setting.now.m → j < window.n
        → symbol out.new window.wide i (window.start + j)
        ≡ codeword setting.now.k (λ s. symbol rows.now window.width s (window.from + j))
        (setting.now.k + i) }
    ensures others { (i j : ℕ) → 2 * (j + 1) ≤ window.wide
        → (window.start ≤ j → j < window.start + window.n → ⊥)
        → symbol out.new window.wide i j ≡ symbol out.old window.wide i j }
{
    load(coefficients, window, setting.k, rows);
    inverse(
        coefficients,
        window.n,
        &setting.scales,
        setting.t,
        0,
        setting.k,
    );
    symbols_fit(coefficients);
    for block in 0..pieces(setting.k + setting.m, size(setting.t)) {
        fill_block(out, setting, window, coefficients, values, block);
    }
}

// Reads the symbols of the first `k` rows.
fn load(symbols: &mut [u16], window: Window, k: usize, rows: &[u8])
    requires own { k * window.n ≤ length symbols.old }
    requires rows { length rows.now ≡ k * window.width }
    requires columns { 2 * (window.from + window.n) ≤ window.width }
    ensures count { length symbols.new ≡ length symbols.old }
    ensures read { (i j : ℕ) → i < k → j < window.n
        → entry symbols.new window.n i j ≡ symbol rows.now window.width i (window.from + j) }
    ensures others { (i j : ℕ) → k ≤ i → j < window.n
        → entry symbols.new window.n i j ≡ entry symbols.old window.n i j }
{
    for row in 0..k {
        load_row(symbols, window, row, rows);
    }
}

// Reads the symbols of one row.
fn load_row(symbols: &mut [u16], window: Window, row: usize, rows: &[u8])
    requires own { (row + 1) * window.n ≤ length symbols.old }
    requires rows { (row + 1) * window.width ≤ length rows.now }
    requires columns { 2 * (window.from + window.n) ≤ window.width }
    ensures count { length symbols.new ≡ length symbols.old }
    ensures read { (j : ℕ) → j < window.n
        → entry symbols.new window.n row j ≡ symbol rows.now window.width row (window.from + j) }
    ensures others { (i j : ℕ) → i ≢ row → j < window.n
        → entry symbols.new window.n i j ≡ entry symbols.old window.n i j }
{
    for column in 0..window.n {
        let place = row * window.width + 2 * (window.from + column);
        symbols[row * window.n + column] = u16::from(rows[place]) * 256
            + u16::from(rows[place + 1]);
    }
}

// Writes the symbols of those recovery rows that stand in one block of elements.
fn fill_block(
    out: &mut [u8],
    setting: &Setting,
    window: Window,
    coefficients: &[u16],
    values: &mut [u16],
    block: usize,
)
    requires total { setting.now.k + setting.now.m ≤ 65535 }
    requires fits { setting.now.t ≤ 16 }
    requires room { setting.now.k ≤ 2 ^ setting.now.t }
    requires block { block * 2 ^ setting.now.t < setting.now.k + setting.now.m }
    requires coefficients { length coefficients.now ≡ 2 ^ setting.now.t * window.n }
    requires zeros { (i j : ℕ) → setting.now.k ≤ i → i < 2 ^ setting.now.t → j < window.n
        → entry coefficients.now window.n i j ≡ 0 }
    requires values { length values.old ≡ 2 ^ setting.now.t * window.n }
    requires own { 2 * (window.start + window.n) ≤ window.wide }
    requires out { length out.old ≡ setting.now.m * window.wide }
    requires scales { AreScales 15 setting.now.scales }
    ensures count { length out.new ≡ length out.old }
    ensures values { length values.new ≡ 2 ^ setting.now.t * window.n }
    ensures written { (i j : ℕ) → i < setting.now.m → block * 2 ^ setting.now.t ≤ setting.now.k + i
        → setting.now.k + i < (block + 1) * 2 ^ setting.now.t → j < window.n
        → symbol out.new window.wide i (window.start + j)
        ≡ combined setting.now.t (λ r. entry coefficients.now window.n r j) (setting.now.k + i) }
    ensures others { (i j : ℕ) → 2 * (j + 1) ≤ window.wide
        → (block * 2 ^ setting.now.t ≤ setting.now.k + i
        → setting.now.k + i < (block + 1) * 2 ^ setting.now.t
        → window.start ≤ j → j < window.start + window.n → ⊥)
        → symbol out.new window.wide i j ≡ symbol out.old window.wide i j }
{
    let each = size(setting.t);
    let begin = block * each;
    let first = setting.k.saturating_sub(begin);
    let last = each.min(setting.k + setting.m - begin);
    values.copy_from_slice(coefficients);
    let part = Part {
        given: setting.k,
        first,
        last,
    };
    forward(values, window.n, &setting.scales, setting.t, block, part);
    store(
        out,
        window,
        begin + first - setting.k,
        values,
        first,
        last.saturating_sub(first),
    );
}

// Writes the symbols of `count` rows, from the row `from` on, into the rows from `row` on.
fn store(out: &mut [u8], window: Window, row: usize, symbols: &[u16], from: usize, count: usize)
    requires rows { (row + count) * window.wide ≤ length out.old }
    requires columns { 2 * (window.start + window.n) ≤ window.wide }
    requires own { (from + count) * window.n ≤ length symbols.now }
    requires few { row + count ≤ 65536 }
    requires few_own { from + count ≤ 65536 }
    ensures long { length out.new ≡ length out.old }
    ensures written { (r j : ℕ) → r < count → j < window.n
        → symbol out.new window.wide (row + r) (window.start + j)
        ≡ entry symbols.now window.n (from + r) j }
    ensures others { (i j : ℕ) → 2 * (j + 1) ≤ window.wide
        → (row ≤ i → i < row + count → window.start ≤ j → j < window.start + window.n → ⊥)
        → symbol out.new window.wide i j ≡ symbol out.old window.wide i j }
{
    for r in 0..count {
        store_row(out, window, row + r, symbols, from + r);
    }
}

// Writes the symbols of one row.
fn store_row(out: &mut [u8], window: Window, row: usize, symbols: &[u16], from: usize)
    requires row { (row + 1) * window.wide ≤ length out.old }
    requires columns { 2 * (window.start + window.n) ≤ window.wide }
    requires own { (from + 1) * window.n ≤ length symbols.now }
    ensures long { length out.new ≡ length out.old }
    ensures written { (j : ℕ) → j < window.n
        → symbol out.new window.wide row (window.start + j) ≡ entry symbols.now window.n from j }
    ensures others { (i j : ℕ) → 2 * (j + 1) ≤ window.wide
        → (i ≡ row → window.start ≤ j → j < window.start + window.n → ⊥)
        → symbol out.new window.wide i j ≡ symbol out.old window.wide i j }
{
    for column in 0..window.n {
        let symbol = symbols[from * window.n + column];
        let at = row * window.wide + 2 * (window.start + column);
        out[at] = (symbol / 256) as u8;
        out[at + 1] = (symbol % 256) as u8;
    }
}
