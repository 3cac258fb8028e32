//! Sums of rows for eight targets at once, where rows may be too narrow for tables of all bytes to
//! pay: then a table has the products with each number of four bits.

ghost use Rattle.std.specs.Prelude.{◌≡◌, ℕ, ◌<◌, ◌≤◌, ◌+◌, ◌*◌, ◌/◌, ◌%◌, bit_xor, length};
ghost use Rattle.std.specs.Prelude.{slice_index, IfOk};
ghost use Rattle.rs_code.specs.Codeword.{sum_below};
ghost use Rattle.rs_code.specs.Coefficients.{lane};
ghost use Rattle.rs_code.specs.Field.{times};
ghost use Rattle.rs_code.specs.Rows.{symbol};
ghost use Rattle.rs_code.specs.Symbols.{symbol_in};

use crate::columns::Columns;
use crate::eights::{spread_short, wide_sums, zeros};
use crate::lanes::{Eight, each_by_16, each_by_256, sum_of_three};
use cw_base::bytes_fit;
use std::alloc::{AllocError, Global};

// Fewer columns than these are narrow.
const WIDE: usize = 64;

/// For each of eight targets, one in a lane, the sums over the rows of a row's symbol times its
/// factor for the target, in `count` columns from the column `first` on.
pub fn group_sums(
    alloc: Global,
    factors: &[Eight],
    rows: &[u8],
    width: usize,
    first: usize,
    count: usize,
) -> Result<Vec<Eight>, AllocError>
    requires rows { length rows.now ≡ length factors.now * width }
    requires columns { 2 * (first + count) ≤ width }
    ensures count { IfOk result (λ v. length v.items ≡ count) }
    ensures each { IfOk result (λ v. (j l : ℕ) → j < count → l < 8 → lane v.items j l
        ≡ sum_below (length factors.now)
        (λ s. times (symbol rows.now width s (first + j)) (lane factors.now s l))) }
{
    if count < WIDE {
        narrow_sums(alloc, factors, rows, width, first, count)
    } else {
        wide_sums(alloc, factors, rows, width, first, count)
    }
}

// The same by short tables.
fn narrow_sums(
    alloc: Global,
    factors: &[Eight],
    rows: &[u8],
    width: usize,
    first: usize,
    count: usize,
) -> Result<Vec<Eight>, AllocError>
    requires rows { length rows.now ≡ length factors.now * width }
    requires columns { 2 * (first + count) ≤ width }
    ensures count { IfOk result (λ v. length v.items ≡ count) }
    ensures each { IfOk result (λ v. (j l : ℕ) → j < count → l < 8 → lane v.items j l
        ≡ sum_below (length factors.now)
        (λ s. times (symbol rows.now width s (first + j)) (lane factors.now s l))) }
{
    let mut tables = zeros(alloc, 32)?;
    let mut sums = zeros(alloc, count)?;
    let columns = Columns { rows, width, first };
    add_rows(&mut sums, &mut tables, factors, columns);
    Ok(sums)
}

// Adds to the sums the products of each row's factors with its symbols, from the first column on.
fn add_rows(sums: &mut [Eight], tables: &mut [Eight], factors: &[Eight], columns: Columns)
    requires rows { length columns.rows.now ≡ length factors.now * columns.width }
    requires columns { 2 * (columns.first + length sums.old) ≤ columns.width }
    requires tables { length tables.old ≡ 32 }
    ensures count { length sums.new ≡ length sums.old }
    ensures each { ((j l : ℕ) → j < length sums.old → l < 8 → lane sums.old j l ≡ 0) →
        (j l : ℕ) → j < length sums.old → l < 8 → lane sums.new j l
        ≡ sum_below (length factors.now)
        (λ s. times (symbol_in columns.entry s j) (lane factors.now s l)) }
{
    let (low, high) = tables.split_at_mut(16);
    for row in 0..factors.len() {
        add_row(sums, low, high, &factors[row], columns, row);
    }
}

// Adds to the sums the products of eight factors with the row's symbols, from the first column on.
fn add_row(
    sums: &mut [Eight],
    low: &mut [Eight],
    high: &mut [Eight],
    factors: &Eight,
    columns: Columns,
    row: usize,
)
    requires room { row * columns.width + 2 * (columns.first + length sums.old)
        ≤ length columns.rows.now }
    requires low { length low.old ≡ 16 }
    requires high { length high.old ≡ 16 }
    ensures count { length sums.new ≡ length sums.old }
    ensures each { (j l : ℕ) → j < length sums.old → l < 8 → lane sums.new j l
        ≡ bit_xor (lane sums.old j l)
        (times (symbol_in columns.entry row j) (slice_index factors.now l)) }
{
    bytes_fit(columns.rows);
    let start = row * columns.width + 2 * columns.first;
    add_bytes(sums, low, high, &each_by_256(factors), columns.rows, start);
    add_bytes(sums, low, high, factors, columns.rows, start + 1);
}

// Adds to the sums the products of eight factors with every other byte, from a first one on.
fn add_bytes(
    sums: &mut [Eight],
    low: &mut [Eight],
    high: &mut [Eight],
    factors: &Eight,
    rows: &[u8],
    start: usize,
)
    requires room { start + 2 * length sums.old ≤ length rows.now + 1 }
    requires low { length low.old ≡ 16 }
    requires high { length high.old ≡ 16 }
    ensures count { length sums.new ≡ length sums.old }
    ensures each { (j l : ℕ) → j < length sums.old → l < 8
        → lane sums.new j l ≡ bit_xor (lane sums.old j l)
        (times (slice_index factors.now l) (slice_index rows.now (start + 2 * j))) }
{
    spread_short(low, factors);
    spread_short(high, &each_by_16(factors));
    add_by_short_tables(sums, low, high, rows, start);
}

// Adds to the sums the products of eight factors with every other byte, from a first one on. `low`
// has the factors' products with the lower four bits, `high` with the upper four.
fn add_by_short_tables(sums: &mut [Eight], low: &[Eight], high: &[Eight], rows: &[u8], start: usize)
    requires room { start + 2 * length sums.old ≤ length rows.now + 1 }
    requires low { length low.now ≡ 16 }
    requires high { length high.now ≡ 16 }
    ensures count { length sums.new ≡ length sums.old }
    ensures each { (j l : ℕ) → j < length sums.old → l < 8
        → lane sums.new j l ≡ bit_xor (lane sums.old j l)
        (bit_xor (lane low.now (slice_index rows.now (start + 2 * j) % 16) l)
        (lane high.now (slice_index rows.now (start + 2 * j) / 16) l)) }
{
    for column in 0..sums.len() {
        let byte = usize::from(rows[start + 2 * column]);
        sums[column] = sum_of_three(&sums[column], &low[byte % 16], &high[byte / 16]);
    }
}
