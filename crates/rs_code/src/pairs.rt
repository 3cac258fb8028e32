//! Sums of rows for two targets at once, where no more are left.

ghost use Rattle.std.specs.Prelude.{◌≡◌, ℕ, ◌<◌, ◌≤◌, ◌+◌, ◌*◌, ◌/◌, ◌%◌, bit_xor, length};
ghost use Rattle.std.specs.Prelude.{slice_index, IfOk};
ghost use Rattle.rs_code.specs.Codeword.{sum_below};
ghost use Rattle.rs_code.specs.Coefficients.{lane, half};
ghost use Rattle.rs_code.specs.Field.{times};
ghost use Rattle.rs_code.specs.Rows.{symbol};
ghost use Rattle.rs_code.specs.Symbols.{symbol_in};

use crate::columns::Columns;
use crate::eights::{spread, zeros};
use crate::lanes::{Eight, each_by_256};
use cw_base::bytes_fit;
use std::alloc::{AllocError, Global};

/// An element for each of two targets.
pub type Pair = [u16; 2];

// Two factors' products with each lower byte of a symbol, and with each upper byte.
#[derive(Clone, Copy)]
struct Tables<'a> {
    low: &'a [u32],
    high: &'a [u32],
    ghost low_each: { length low.now ≡ 256 },
    ghost high_each: { length high.now ≡ 256 },
}

/// For each of two targets, one in a lane, the sums over the rows of a row's symbol times its
/// factor for the target, in `count` columns from the column `first` on. The factors of the other
/// lanes are not used.
pub fn pair_sums(
    alloc: Global,
    factors: &[Eight],
    rows: &[u8],
    width: usize,
    first: usize,
    count: usize,
) -> Result<Vec<Pair>, AllocError>
    requires rows { length rows.now ≡ length factors.now * width }
    requires columns { 2 * (first + count) ≤ width }
    ensures count { IfOk result (λ v. length v.items ≡ count) }
    ensures each { IfOk result (λ v. (j l : ℕ) → j < count → l < 2 → lane v.items j l
        ≡ sum_below (length factors.now)
        (λ s. times (symbol rows.now width s (first + j)) (lane factors.now s l))) }
{
    let mut entries = zeros(alloc, 256)?;
    let mut words = vec![in alloc; 0u32; 1024]?;
    let mut sums = vec![in alloc; [0u16; 2]; count]?;
    let columns = Columns { rows, width, first };
    add_rows(&mut sums, &mut words, &mut entries, factors, columns);
    Ok(sums)
}

// Adds to the sums the products of each row's factors with its symbols, from the first column on.
// There is room for the tables of two rows, and for one whose entries have all eight lanes.
fn add_rows(
    sums: &mut [Pair],
    words: &mut [u32],
    entries: &mut [Eight],
    factors: &[Eight],
    columns: Columns,
)
    requires rows { length columns.rows.now ≡ length factors.now * columns.width }
    requires columns { 2 * (columns.first + length sums.old) ≤ columns.width }
    requires words { length words.old ≡ 1024 }
    requires entries { length entries.old ≡ 256 }
    ensures count { length sums.new ≡ length sums.old }
    ensures each { ((j l : ℕ) → j < length sums.old → l < 2 → lane sums.old j l ≡ 0) →
        (j l : ℕ) → j < length sums.old → l < 2 → lane sums.new j l
        ≡ sum_below (length factors.now)
        (λ s. times (symbol_in columns.entry s j) (lane factors.now s l)) }
{
    add_row_pairs(sums, words, entries, factors, columns);
    let (own, _) = words.split_at_mut(512);
    add_odd_row(sums, own, entries, factors, columns);
}

// The same of two rows at a time, for all rows but the last of an odd number of them.
fn add_row_pairs(
    sums: &mut [Pair],
    words: &mut [u32],
    entries: &mut [Eight],
    factors: &[Eight],
    columns: Columns,
)
    requires rows { length columns.rows.now ≡ length factors.now * columns.width }
    requires columns { 2 * (columns.first + length sums.old) ≤ columns.width }
    requires words { length words.old ≡ 1024 }
    requires entries { length entries.old ≡ 256 }
    ensures count { length sums.new ≡ length sums.old }
    ensures each { ((j l : ℕ) → j < length sums.old → l < 2 → lane sums.old j l ≡ 0) →
        (j l : ℕ) → j < length sums.old → l < 2 → lane sums.new j l
        ≡ sum_below (2 * (length factors.now / 2))
        (λ s. times (symbol_in columns.entry s j) (lane factors.now s l)) }
{
    for pair in 0..factors.len() / 2 {
        add_two_rows(sums, words, entries, factors, columns, 2 * pair);
    }
}

// Adds to the sums the products of the last row's factors with its symbols, where the number of
// rows is odd.
fn add_odd_row(
    sums: &mut [Pair],
    words: &mut [u32],
    entries: &mut [Eight],
    factors: &[Eight],
    columns: Columns,
)
    requires rows { length columns.rows.now ≡ length factors.now * columns.width }
    requires columns { 2 * (columns.first + length sums.old) ≤ columns.width }
    requires words { length words.old ≡ 512 }
    requires entries { length entries.old ≡ 256 }
    ensures count { length sums.new ≡ length sums.old }
    ensures each { (j l : ℕ) → j < length sums.old → l < 2 → lane sums.old j l
        ≡ sum_below (2 * (length factors.now / 2))
        (λ s. times (symbol_in columns.entry s j) (lane factors.now s l)) →
        lane sums.new j l
        ≡ sum_below (length factors.now)
        (λ s. times (symbol_in columns.entry s j) (lane factors.now s l)) }
{
    if factors.len() % 2 == 0 {
        return;
    }
    add_row(sums, words, entries, factors, columns, factors.len() - 1);
}

// Adds to the sums the products of the row's factors with its symbols, and of the next row's with
// its own, from the first column on.
fn add_two_rows(
    sums: &mut [Pair],
    words: &mut [u32],
    entries: &mut [Eight],
    factors: &[Eight],
    columns: Columns,
    row: usize,
)
    requires rows { row + 1 < length factors.now }
    requires columns { (row + 1) * columns.width + 2 * (columns.first + length sums.old)
        ≤ length columns.rows.now }
    requires words { length words.old ≡ 1024 }
    requires entries { length entries.old ≡ 256 }
    ensures count { length sums.new ≡ length sums.old }
    ensures each { (j l : ℕ) → j < length sums.old → l < 2
        → lane sums.new j l ≡ bit_xor (lane sums.old j l)
        (bit_xor (times (symbol_in columns.entry row j) (lane factors.now row l))
        (times (symbol_in columns.entry (row + 1) j) (lane factors.now (row + 1) l))) }
{
    bytes_fit(columns.rows);
    let (own, others) = words.split_at_mut(512);
    let (low, high) = own.split_at_mut(256);
    let (next_low, next_high) = others.split_at_mut(256);
    fill_tables(low, high, entries, &factors[row]);
    fill_tables(next_low, next_high, entries, &factors[row + 1]);
    let tables = Tables { low, high };
    let next_tables = Tables {
        low: next_low,
        high: next_high,
    };
    add_two_by_tables(sums, tables, next_tables, columns, row);
}

// Adds to the sums the products of the row's factors with its symbols, from the first column on.
fn add_row(
    sums: &mut [Pair],
    words: &mut [u32],
    entries: &mut [Eight],
    factors: &[Eight],
    columns: Columns,
    row: usize,
)
    requires row { row < length factors.now }
    requires columns { row * columns.width + 2 * (columns.first + length sums.old)
        ≤ length columns.rows.now }
    requires words { length words.old ≡ 512 }
    requires entries { length entries.old ≡ 256 }
    ensures count { length sums.new ≡ length sums.old }
    ensures each { (j l : ℕ) → j < length sums.old → l < 2 → lane sums.new j l
        ≡ bit_xor (lane sums.old j l)
        (times (symbol_in columns.entry row j) (lane factors.now row l)) }
{
    bytes_fit(columns.rows);
    let (low, high) = words.split_at_mut(256);
    fill_tables(low, high, entries, &factors[row]);
    add_by_tables(sums, Tables { low, high }, columns, row);
}

// The products of the first two of eight factors with each lower byte of a symbol, and with each
// upper byte.
fn fill_tables(low: &mut [u32], high: &mut [u32], entries: &mut [Eight], factors: &Eight)
    requires low { length low.old ≡ 256 }
    requires high { length high.old ≡ 256 }
    requires entries { length entries.old ≡ 256 }
    ensures { (upper lower l : ℕ) → upper < 256 → lower < 256 → l < 2
        → bit_xor (half (slice_index high.new upper) l) (half (slice_index low.new lower) l)
        ≡ times (upper * 256 + lower) (slice_index factors.now l) }
{
    fill_table(low, entries, factors);
    fill_table(high, entries, &each_by_256(factors));
}

// The products of the first two of eight factors with each byte, both in a word.
fn fill_table(words: &mut [u32], entries: &mut [Eight], factors: &Eight)
    requires words { length words.old ≡ 256 }
    requires entries { length entries.old ≡ 256 }
    ensures { (b l : ℕ) → b < 256 → l < 2
        → half (slice_index words.new b) l ≡ times (slice_index factors.now l) b }
{
    spread(entries, factors);
    put_first_lanes(words, entries);
}

// Writes the first two lanes of each entry.
fn put_first_lanes(words: &mut [u32], table: &[Eight])
    requires { length words.old ≡ length table.now }
    ensures { (b l : ℕ) → b < length table.now → l < 2
        → half (slice_index words.new b) l ≡ lane table.now b l }
{
    for place in 0..table.len() {
        words[place] = word_of(table[place][0], table[place][1]);
    }
}

// Two lanes in a word, which is loaded and stored at once.
fn word_of(first: u16, second: u16) -> u32
    ensures { result ≡ second * 65536 + first }
{
    u32::from(second) * 65536 + u32::from(first)
}

// The sum with the lanes of a word.
fn sum_with(pair: &Pair, word: u32) -> Pair
    ensures { (l : ℕ) → l < 2
        → slice_index result l ≡ bit_xor (slice_index pair.now l) (half word l) }
{
    let sum = word_of(pair[0], pair[1]) ^ word;
    [(sum % 65536) as u16, (sum / 65536) as u16]
}

// Adds to the sums the products of two factors with the row's symbols, from the first column on.
fn add_by_tables(sums: &mut [Pair], tables: Tables, columns: Columns, row: usize)
    requires room { row * columns.width + 2 * (columns.first + length sums.old)
        ≤ length columns.rows.now }
    ensures count { length sums.new ≡ length sums.old }
    ensures each { (j l : ℕ) → j < length sums.old → l < 2 →
        let place = row * columns.entry.width + 2 * (columns.entry.first + j) in
        let byte = λ (n : ℕ). slice_index columns.entry.rows.now n in
        lane sums.new j l ≡ bit_xor (lane sums.old j l)
        (bit_xor (half (slice_index tables.entry.high.now (byte place)) l)
        (half (slice_index tables.entry.low.now (byte (place + 1))) l)) }
{
    for column in 0..sums.len() {
        let place = row * columns.width + 2 * (columns.first + column);
        let upper = tables.high[usize::from(columns.rows[place])];
        let lower = tables.low[usize::from(columns.rows[place + 1])];
        sums[column] = sum_with(&sums[column], upper ^ lower);
    }
}

// Adds to the sums the products of two factors with the row's symbols and of two others with the
// next row's, from the first column on.
fn add_two_by_tables(
    sums: &mut [Pair],
    tables: Tables,
    next_tables: Tables,
    columns: Columns,
    row: usize,
)
    requires room { (row + 1) * columns.width + 2 * (columns.first + length sums.old)
        ≤ length columns.rows.now }
    ensures count { length sums.new ≡ length sums.old }
    ensures each { (j l : ℕ) → j < length sums.old → l < 2 →
        let place = row * columns.entry.width + 2 * (columns.entry.first + j) in
        let next = place + columns.entry.width in
        let byte = λ (n : ℕ). slice_index columns.entry.rows.now n in
        lane sums.new j l ≡ bit_xor (lane sums.old j l)
        (bit_xor
        (bit_xor (half (slice_index tables.entry.high.now (byte place)) l)
        (half (slice_index tables.entry.low.now (byte (place + 1))) l))
        (bit_xor (half (slice_index next_tables.entry.high.now (byte next)) l)
        (half (slice_index next_tables.entry.low.now (byte (next + 1))) l))) }
{
    for column in 0..sums.len() {
        let place = row * columns.width + 2 * (columns.first + column);
        let next = place + columns.width;
        let upper = tables.high[usize::from(columns.rows[place])];
        let lower = tables.low[usize::from(columns.rows[place + 1])];
        let next_upper = next_tables.high[usize::from(columns.rows[next])];
        let next_lower = next_tables.low[usize::from(columns.rows[next + 1])];
        sums[column] = sum_with(&sums[column], upper ^ lower ^ (next_upper ^ next_lower));
    }
}

/// Writes the symbols of one lane into a row, from a first column on, each as two big-endian bytes.
pub fn fill_pair_lane(
    rows: &mut [u8],
    width: usize,
    row: usize,
    first: usize,
    sums: &[Pair],
    place: usize,
)
    requires row { (row + 1) * width ≤ length rows.old }
    requires columns { 2 * (first + length sums.now) ≤ width }
    requires place { place < 2 }
    ensures count { length rows.new ≡ length rows.old }
    ensures written { (j : ℕ) → j < length sums.now
        → symbol rows.new width row (first + j) ≡ lane sums.now j place }
    ensures others { (i j : ℕ) → 2 * (j + 1) ≤ width
        → (i ≡ row → first ≤ j → j < first + length sums.now → ⊥) →
        symbol rows.new width i j ≡ symbol rows.old width i j }
{
    for column in 0..sums.len() {
        let symbol = sums[column][place];
        let at = row * width + 2 * (first + column);
        rows[at] = (symbol / 256) as u8;
        rows[at + 1] = (symbol % 256) as u8;
    }
}
