//! Products of one factor with many symbols, by tables of its products with bytes, and the sums of
//! a transform's steps.

ghost use Rattle.std.specs.Prelude.{◌≡◌, ℕ, ◌<◌, ◌≤◌, ◌+◌, ◌*◌, ◌/◌, ◌%◌, ◌^◌, bit_xor, length};
ghost use Rattle.std.specs.Prelude.{slice_index};
ghost use Rattle.rs_code.specs.Field.{times};

use crate::gf16;

/// One step from coefficients to values: the first half gets the second's products with a factor,
/// and the second half gets the first. The second half has zeros from the place `filled` on, which
/// have no products.
///
/// Products and sums have a loop each, since a loop of sums alone is done eight symbols at a time.
pub fn step_forward(first: &mut [u16], second: &mut [u16], factor: u16, filled: usize)
    requires second { length second.old ≡ length first.old }
    requires filled { filled ≤ length first.old }
    requires zeros { (p : ℕ) → filled ≤ p → p < length first.old → slice_index second.old p ≡ 0 }
    ensures first_count { length first.new ≡ length first.old }
    ensures second_count { length second.new ≡ length first.old }
    ensures first { (p : ℕ) → p < length first.old → slice_index first.new p
        ≡ bit_xor (slice_index first.old p) (times factor (slice_index second.old p)) }
    ensures second { (p : ℕ) → p < length first.old
        → slice_index second.new p ≡ bit_xor (slice_index first.new p) (slice_index second.old p) }
{
    let (front, _) = first.split_at_mut(filled);
    add_products(front, factor, &second[..filled], 0);
    add(second, first, 0);
}

/// One step from values to coefficients: the second half gets the first, and the first half gets
/// the second's products with a factor.
pub fn step_back(first: &mut [u16], second: &mut [u16], factor: u16)
    requires second { length second.old ≡ length first.old }
    ensures first_count { length first.new ≡ length first.old }
    ensures second_count { length second.new ≡ length first.old }
    ensures second { (p : ℕ) → p < length first.old
        → slice_index second.new p ≡ bit_xor (slice_index first.old p) (slice_index second.old p) }
    ensures first { (p : ℕ) → p < length first.old → slice_index first.new p
        ≡ bit_xor (slice_index first.old p) (times factor (slice_index second.new p)) }
{
    add(second, first, 0);
    add_products(first, factor, second, 0);
}

/// Adds a factor's products with other symbols to symbols, from a first place on.
pub fn add_products(sums: &mut [u16], factor: u16, symbols: &[u16], from: usize)
    requires symbols { length symbols.now ≡ length sums.old }
    ensures count { length sums.new ≡ length sums.old }
    ensures before { (p : ℕ) → p < from → slice_index sums.new p ≡ slice_index sums.old p }
    ensures each { (p : ℕ) → from ≤ p → p < length sums.old → slice_index sums.new p
        ≡ bit_xor (slice_index sums.old p) (times factor (slice_index symbols.now p)) }
{
    if factor == 0 {
        return;
    }
    let mut low = [0u16; 256];
    let mut high = [0u16; 256];
    spread(&mut low, factor);
    spread(&mut high, gf16::by_256(factor));
    add_by_tables(sums, &low, &high, symbols, from);
}

/// Adds other symbols to symbols, from a first place on.
pub fn add(sums: &mut [u16], symbols: &[u16], from: usize)
    requires { length symbols.now ≡ length sums.old }
    ensures count { length sums.new ≡ length sums.old }
    ensures before { (p : ℕ) → p < from → slice_index sums.new p ≡ slice_index sums.old p }
    ensures each { (p : ℕ) → from ≤ p → p < length sums.old
        → slice_index sums.new p ≡ bit_xor (slice_index sums.old p) (slice_index symbols.now p) }
{
    for place in from..sums.len() {
        sums[place] ^= symbols[place];
    }
}

// Adds a factor's products with other symbols to symbols, from a first place on.
fn add_by_tables(sums: &mut [u16], low: &[u16], high: &[u16], symbols: &[u16], from: usize)
    requires symbols { length symbols.now ≡ length sums.old }
    requires low { length low.now ≡ 256 }
    requires high { length high.now ≡ 256 }
    ensures count { length sums.new ≡ length sums.old }
    ensures before { (p : ℕ) → p < from → slice_index sums.new p ≡ slice_index sums.old p }
    ensures each { (p : ℕ) → from ≤ p → p < length sums.old
        → slice_index sums.new p ≡ bit_xor (slice_index sums.old p)
        (bit_xor (slice_index high.now (slice_index symbols.now p / 256))
        (slice_index low.now (slice_index symbols.now p % 256))) }
{
    for place in from..sums.len() {
        sums[place] ^= product(low, high, symbols[place]);
    }
}

// The products of a factor with each byte.
fn spread(table: &mut [u16], factor: u16)
    requires { length table.old ≡ 256 }
    ensures count { length table.new ≡ 256 }
    ensures each { (b : ℕ) → b < 256 → slice_index table.new b ≡ times factor b }
{
    let two = gf16::by_2(factor);
    let four = gf16::by_4(factor);
    let eight = gf16::by_4(two);
    table[0] = 0;
    double_products(table, 1, factor, factor);
    double_products(table, 2, factor, two);
    double_products(table, 4, factor, four);
    double_products(table, 8, factor, eight);
    double_products(table, 16, factor, gf16::by_16(factor));
    double_products(table, 32, factor, gf16::by_16(two));
    double_products(table, 64, factor, gf16::by_16(four));
    double_products(table, 128, factor, gf16::by_16(eight));
}

// The product with a symbol, by the tables of the factor's products with its lower byte and its
// upper byte.
fn product(low: &[u16], high: &[u16], symbol: u16) -> u16
    requires low { length low.now ≡ 256 }
    requires high { length high.now ≡ 256 }
    ensures { result ≡ bit_xor (slice_index high.now (symbol / 256))
        (slice_index low.now (symbol % 256)) }
{
    high[usize::from(symbol / 256)] ^ low[usize::from(symbol % 256)]
}

// Copies the first `count` entries behind themselves, with a step added.
fn double(table: &mut [u16], count: usize, step: u16)
    requires { 2 * count ≤ length table.old }
    ensures count { length table.new ≡ length table.old }
    ensures first { (b : ℕ) → b < count → slice_index table.new b ≡ slice_index table.old b }
    ensures second { (b : ℕ) → b < count
        → slice_index table.new (count + b) ≡ bit_xor (slice_index table.old b) step }
{
    let (first, rest) = table.split_at_mut(count);
    for place in 0..count {
        rest[place] = first[place] ^ step;
    }
}

// Doubles a table of a factor's products with the bytes below a power of two. The step is the
// product with that power.
fn double_products(table: &mut [u16], count: usize, factor: u16, step: u16)
    requires { 2 * count ≤ length table.old }
    ensures count { length table.new ≡ length table.old }
    ensures each { (n : ℕ) → count ≡ 2 ^ n → count ≤ 128 → step ≡ times factor count →
        ((b : ℕ) → b < count → slice_index table.old b ≡ times factor b) →
        (b : ℕ) → b < 2 * count → slice_index table.new b ≡ times factor b }
{
    double(table, count, step);
}

/// It does nothing: what is known of the symbols' type is its contract.
pub fn symbols_fit(symbols: &[u16])
    ensures { (p : ℕ) → slice_index symbols.now p < 2 ^ 16 }
{
    let _ = symbols;
}
