//! Sums of rows for eight targets at once: each entry of a table has eight factors' products side
//! by side, so that one look-up serves eight targets.

ghost use Rattle.std.specs.Prelude.{◌≡◌, ℕ, ◌<◌, ◌≤◌, ◌+◌, ◌*◌, ◌/◌, ◌^◌, bit_xor, length};
ghost use Rattle.std.specs.Prelude.{slice_index, IfOk};
ghost use Rattle.rs_code.specs.Codeword.{sum_below};
ghost use Rattle.rs_code.specs.Coefficients.{lane, AreTables};
ghost use Rattle.rs_code.specs.Field.{times};
ghost use Rattle.rs_code.specs.Rows.{symbol};
ghost use Rattle.rs_code.specs.Symbols.{symbol_in};

use crate::columns::Columns;
use crate::lanes::{
    Eight, each_by_2, each_by_4, each_by_16, each_by_256, sum_of_three, sum_of_two,
};
use cw_base::bytes_fit;
use std::alloc::{AllocError, Global};

/// For each of eight targets, one in a lane, the sums over the rows of a row's symbol times its
/// factor for the target, in `count` columns from the column `first` on.
pub fn wide_sums(
    alloc: Global,
    factors: &[Eight],
    rows: &[u8],
    width: usize,
    first: usize,
    count: usize,
) -> Result<Vec<Eight>, AllocError>
    requires rows { length rows.now ≡ length factors.now * width }
    requires columns { 2 * (first + count) ≤ width }
    ensures count { IfOk result (λ v. length v.items ≡ count) }
    ensures each { IfOk result (λ v. (j l : ℕ) → j < count → l < 8 → lane v.items j l
        ≡ sum_below (length factors.now)
        (λ s. times (symbol rows.now width s (first + j)) (lane factors.now s l))) }
{
    let mut room = zeros(alloc, 1024)?;
    let mut sums = zeros(alloc, count)?;
    let columns = Columns { rows, width, first };
    add_rows(&mut sums, &mut room, factors, columns);
    Ok(sums)
}

/// Writes the symbols of one lane into a row, from a first column on, each as two big-endian bytes.
pub fn fill_lane(
    rows: &mut [u8],
    width: usize,
    row: usize,
    first: usize,
    sums: &[Eight],
    place: usize,
)
    requires row { (row + 1) * width ≤ length rows.old }
    requires columns { 2 * (first + length sums.now) ≤ width }
    requires place { place < 8 }
    ensures count { length rows.new ≡ length rows.old }
    ensures written { (j : ℕ) → j < length sums.now
        → symbol rows.new width row (first + j) ≡ lane sums.now j place }
    ensures others { (i j : ℕ) → 2 * (j + 1) ≤ width
        → (i ≡ row → first ≤ j → j < first + length sums.now → ⊥) →
        symbol rows.new width i j ≡ symbol rows.old width i j }
{
    for column in 0..sums.len() {
        let symbol = sums[column][place];
        let at = row * width + 2 * (first + column);
        rows[at] = (symbol / 256) as u8;
        rows[at + 1] = (symbol % 256) as u8;
    }
}

// Adds to the sums the products of each row's factors with its symbols, from the first column on.
// There is room for the tables of two rows.
fn add_rows(sums: &mut [Eight], room: &mut [Eight], factors: &[Eight], columns: Columns)
    requires rows { length columns.rows.now ≡ length factors.now * columns.width }
    requires columns { 2 * (columns.first + length sums.old) ≤ columns.width }
    requires room { length room.old ≡ 1024 }
    ensures count { length sums.new ≡ length sums.old }
    ensures each { ((j l : ℕ) → j < length sums.old → l < 8 → lane sums.old j l ≡ 0) →
        (j l : ℕ) → j < length sums.old → l < 8 → lane sums.new j l
        ≡ sum_below (length factors.now)
        (λ s. times (symbol_in columns.entry s j) (lane factors.now s l)) }
{
    add_row_pairs(sums, room, factors, columns);
    let (own, _) = room.split_at_mut(512);
    add_odd_row(sums, own, factors, columns);
}

// Adds to the sums the products of each row's factors with its symbols, of two rows at a time, for
// all rows but the last of an odd number of them.
fn add_row_pairs(sums: &mut [Eight], room: &mut [Eight], factors: &[Eight], columns: Columns)
    requires rows { length columns.rows.now ≡ length factors.now * columns.width }
    requires columns { 2 * (columns.first + length sums.old) ≤ columns.width }
    requires room { length room.old ≡ 1024 }
    ensures count { length sums.new ≡ length sums.old }
    ensures each { ((j l : ℕ) → j < length sums.old → l < 8 → lane sums.old j l ≡ 0) →
        (j l : ℕ) → j < length sums.old → l < 8 → lane sums.new j l
        ≡ sum_below (2 * (length factors.now / 2))
        (λ s. times (symbol_in columns.entry s j) (lane factors.now s l)) }
{
    for pair in 0..factors.len() / 2 {
        add_two_rows(sums, room, factors, columns, 2 * pair);
    }
}

// Adds to the sums the products of the last row's factors with its symbols, where the number of
// rows is odd.
fn add_odd_row(sums: &mut [Eight], room: &mut [Eight], factors: &[Eight], columns: Columns)
    requires rows { length columns.rows.now ≡ length factors.now * columns.width }
    requires columns { 2 * (columns.first + length sums.old) ≤ columns.width }
    requires room { length room.old ≡ 512 }
    ensures count { length sums.new ≡ length sums.old }
    ensures each { (j l : ℕ) → j < length sums.old → l < 8 → lane sums.old j l
        ≡ sum_below (2 * (length factors.now / 2))
        (λ s. times (symbol_in columns.entry s j) (lane factors.now s l)) →
        lane sums.new j l
        ≡ sum_below (length factors.now)
        (λ s. times (symbol_in columns.entry s j) (lane factors.now s l)) }
{
    if factors.len() % 2 == 0 {
        return;
    }
    add_row(sums, room, factors, columns, factors.len() - 1);
}

// Adds to the sums the products of the row's factors with its symbols, and of the next row's with
// its own, from the first column on. There is room for the tables of both.
fn add_two_rows(
    sums: &mut [Eight],
    room: &mut [Eight],
    factors: &[Eight],
    columns: Columns,
    row: usize,
)
    requires rows { row + 1 < length factors.now }
    requires columns { (row + 1) * columns.width + 2 * (columns.first + length sums.old)
        ≤ length columns.rows.now }
    requires room { length room.old ≡ 1024 }
    ensures count { length sums.new ≡ length sums.old }
    ensures each { (j l : ℕ) → j < length sums.old → l < 8
        → lane sums.new j l ≡ bit_xor (lane sums.old j l)
        (bit_xor (times (symbol_in columns.entry row j) (lane factors.now row l))
        (times (symbol_in columns.entry (row + 1) j) (lane factors.now (row + 1) l))) }
{
    bytes_fit(columns.rows);
    let (own, others) = room.split_at_mut(512);
    let (low, high) = own.split_at_mut(256);
    let (next_low, next_high) = others.split_at_mut(256);
    fill_tables(low, high, &factors[row]);
    fill_tables(next_low, next_high, &factors[row + 1]);
    let tables = Tables { low, high };
    let next_tables = Tables {
        low: next_low,
        high: next_high,
    };
    add_two_by_tables(sums, tables, next_tables, columns, row);
}

// Adds to the sums the products of eight factors with the row's symbols and of eight others with
// the next row's, from the first column on.
fn add_two_by_tables(
    sums: &mut [Eight],
    tables: Tables,
    next_tables: Tables,
    columns: Columns,
    row: usize,
)
    requires room { (row + 1) * columns.width + 2 * (columns.first + length sums.old)
        ≤ length columns.rows.now }
    ensures count { length sums.new ≡ length sums.old }
    ensures each { (j l : ℕ) → j < length sums.old → l < 8 →
        let place = row * columns.entry.width + 2 * (columns.entry.first + j) in
        let next = place + columns.entry.width in
        lane sums.new j l ≡ bit_xor (lane sums.old j l)
        (bit_xor
        (bit_xor (lane tables.entry.high.now (slice_index columns.entry.rows.now place) l)
        (lane tables.entry.low.now (slice_index columns.entry.rows.now (place + 1)) l))
        (bit_xor (lane next_tables.entry.high.now (slice_index columns.entry.rows.now next) l)
        (lane next_tables.entry.low.now (slice_index columns.entry.rows.now (next + 1)) l))) }
{
    for column in 0..sums.len() {
        let place = row * columns.width + 2 * (columns.first + column);
        let next = place + columns.width;
        let upper = &tables.high[usize::from(columns.rows[place])];
        let lower = &tables.low[usize::from(columns.rows[place + 1])];
        let next_upper = &next_tables.high[usize::from(columns.rows[next])];
        let next_lower = &next_tables.low[usize::from(columns.rows[next + 1])];
        let own = sum_of_two(upper, lower);
        let others = sum_of_two(next_upper, next_lower);
        sums[column] = sum_of_three(&sums[column], &own, &others);
    }
}

// Adds to the sums the products of the row's factors with its symbols, from the first column on.
// There is room for its tables.
fn add_row(sums: &mut [Eight], room: &mut [Eight], factors: &[Eight], columns: Columns, row: usize)
    requires row { row < length factors.now }
    requires columns { row * columns.width + 2 * (columns.first + length sums.old)
        ≤ length columns.rows.now }
    requires room { length room.old ≡ 512 }
    ensures count { length sums.new ≡ length sums.old }
    ensures each { (j l : ℕ) → j < length sums.old → l < 8 → lane sums.new j l
        ≡ bit_xor (lane sums.old j l)
        (times (symbol_in columns.entry row j) (lane factors.now row l)) }
{
    bytes_fit(columns.rows);
    let (low, high) = room.split_at_mut(256);
    fill_tables(low, high, &factors[row]);
    add_by_tables(sums, Tables { low, high }, columns, row);
}

// Adds to the sums the products of eight factors with the row's symbols, from the first column on.
fn add_by_tables(sums: &mut [Eight], tables: Tables, columns: Columns, row: usize)
    requires room { row * columns.width + 2 * (columns.first + length sums.old)
        ≤ length columns.rows.now }
    ensures count { length sums.new ≡ length sums.old }
    ensures each { (j l : ℕ) → j < length sums.old → l < 8 →
        let place = row * columns.entry.width + 2 * (columns.entry.first + j) in
        lane sums.new j l ≡ bit_xor (lane sums.old j l)
        (bit_xor (lane tables.entry.high.now (slice_index columns.entry.rows.now place) l)
        (lane tables.entry.low.now (slice_index columns.entry.rows.now (place + 1)) l)) }
{
    for column in 0..sums.len() {
        let place = row * columns.width + 2 * (columns.first + column);
        let upper = &tables.high[usize::from(columns.rows[place])];
        let lower = &tables.low[usize::from(columns.rows[place + 1])];
        sums[column] = sum_of_three(&sums[column], upper, lower);
    }
}

// Eight factors' products with each lower byte of a symbol, and with each upper byte.
#[derive(Clone, Copy)]
struct Tables<'a> {
    low: &'a [Eight],
    high: &'a [Eight],
    ghost low_each: { length low.now ≡ 256 },
    ghost high_each: { length high.now ≡ 256 },
}

// The products of eight factors with each lower byte of a symbol, and with each upper byte.
fn fill_tables(low: &mut [Eight], high: &mut [Eight], factors: &Eight)
    requires low { length low.old ≡ 256 }
    requires high { length high.old ≡ 256 }
    ensures { (upper lower l : ℕ) → upper < 256 → lower < 256 → l < 8
        → bit_xor (lane high.new upper l) (lane low.new lower l)
        ≡ times (upper * 256 + lower) (slice_index factors.now l) }
{
    spread(low, factors);
    spread(high, &each_by_256(factors));
}

/// The products of eight factors with each byte.
pub fn spread(table: &mut [Eight], factors: &Eight)
    requires { length table.old ≡ 256 }
    ensures { AreTables factors.now table.new }
{
    let two = each_by_2(factors);
    let four = each_by_4(factors);
    let eight = each_by_4(&two);
    table[0] = [0; 8];
    double_products(table, 1, factors, factors);
    double_products(table, 2, factors, &two);
    double_products(table, 4, factors, &four);
    double_products(table, 8, factors, &eight);
    double_products(table, 16, factors, &each_by_16(factors));
    double_products(table, 32, factors, &each_by_16(&two));
    double_products(table, 64, factors, &each_by_16(&four));
    double_products(table, 128, factors, &each_by_16(&eight));
}

/// The products of eight factors with each number of four bits.
pub fn spread_short(table: &mut [Eight], factors: &Eight)
    requires { length table.old ≡ 16 }
    ensures count { length table.new ≡ 16 }
    ensures each { (b l : ℕ) → b < 16 → l < 8
        → lane table.new b l ≡ times (slice_index factors.now l) b }
{
    let two = each_by_2(factors);
    table[0] = [0; 8];
    double_products(table, 1, factors, factors);
    double_products(table, 2, factors, &two);
    double_products(table, 4, factors, &each_by_4(factors));
    double_products(table, 8, factors, &each_by_4(&two));
}

// Copies the first `count` entries behind themselves, with a step added in each lane.
fn double(table: &mut [Eight], count: usize, step: &Eight)
    requires { 2 * count ≤ length table.old }
    ensures count { length table.new ≡ length table.old }
    ensures first { (b l : ℕ) → b < count → l < 8 → lane table.new b l ≡ lane table.old b l }
    ensures second { (b l : ℕ) → b < count → l < 8
        → lane table.new (count + b) l ≡ bit_xor (lane table.old b l) (slice_index step.now l) }
{
    for place in 0..count {
        table[count + place] = sum_of_two(&table[place], step);
    }
}

// Doubles a table of eight factors' products with the bytes below a power of two. The step is the
// product with that power.
fn double_products(table: &mut [Eight], count: usize, factors: &Eight, step: &Eight)
    requires { 2 * count ≤ length table.old }
    ensures count { length table.new ≡ length table.old }
    ensures each { (n : ℕ) → count ≡ 2 ^ n → count ≤ 128 →
        ((l : ℕ) → l < 8 → slice_index step.now l ≡ times (slice_index factors.now l) count) →
        ((b l : ℕ) → b < count → l < 8 → lane table.old b l ≡ times (slice_index factors.now l) b) →
        (b l : ℕ) → b < 2 * count → l < 8
        → lane table.new b l ≡ times (slice_index factors.now l) b }
{
    double(table, count, step);
}

/// As many entries, of 0 in each lane.
pub fn zeros(alloc: Global, count: usize) -> Result<Vec<Eight>, AllocError>
    ensures count { IfOk result (λ v. length v.items ≡ count) }
    ensures each { IfOk result (λ v. (j l : ℕ) → j < count → lane v.items j l ≡ 0) }
{
    let entries = vec![in alloc; [0u16; 8]; count]?;
    Ok(entries)
}
