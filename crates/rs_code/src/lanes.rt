//! Elements in eight lanes, one for each of eight targets. What is done to all lanes alike is
//! written out lane by lane: the compiler then does it to all of them at once.

ghost use Rattle.std.specs.Prelude.{◌≡◌, ℕ, ◌+◌, ◌<◌, ◌/◌, ◌%◌, bit_xor, length, slice_index};
ghost use Rattle.rs_code.specs.Field.{times};

use crate::gf16;

/// An element for each of eight targets.
pub type Eight = [u16; 8];

/// The sum of two in each lane.
pub fn sum_of_two(a: &Eight, b: &Eight) -> Eight
    ensures { (l : ℕ) → l < 8
        → slice_index result l ≡ bit_xor (slice_index a.now l) (slice_index b.now l) }
{
    [
        a[0] ^ b[0],
        a[1] ^ b[1],
        a[2] ^ b[2],
        a[3] ^ b[3],
        a[4] ^ b[4],
        a[5] ^ b[5],
        a[6] ^ b[6],
        a[7] ^ b[7],
    ]
}

/// The sum of three in each lane.
pub fn sum_of_three(a: &Eight, b: &Eight, c: &Eight) -> Eight
    ensures { (l : ℕ) → l < 8 →
        slice_index result l ≡ bit_xor (slice_index a.now l)
        (bit_xor (slice_index b.now l) (slice_index c.now l)) }
{
    [
        a[0] ^ (b[0] ^ c[0]),
        a[1] ^ (b[1] ^ c[1]),
        a[2] ^ (b[2] ^ c[2]),
        a[3] ^ (b[3] ^ c[3]),
        a[4] ^ (b[4] ^ c[4]),
        a[5] ^ (b[5] ^ c[5]),
        a[6] ^ (b[6] ^ c[6]),
        a[7] ^ (b[7] ^ c[7]),
    ]
}

/// The difference to one element in each lane.
pub fn differences(a: &Eight, b: u16) -> Eight
    ensures { (l : ℕ) → l < 8 → slice_index result l ≡ bit_xor (slice_index a.now l) b }
{
    [
        a[0] ^ b,
        a[1] ^ b,
        a[2] ^ b,
        a[3] ^ b,
        a[4] ^ b,
        a[5] ^ b,
        a[6] ^ b,
        a[7] ^ b,
    ]
}

/// The next eight elements. Where fewer are left, the other lanes have 0.
pub fn next_eight(elements: &[u16], done: usize) -> Eight
    requires { done < length elements.now }
    ensures { (l : ℕ) → l < 8 → done + l < length elements.now
        → slice_index result l ≡ slice_index elements.now (done + l) }
{
    [
        element_in(elements, done, 0),
        element_in(elements, done, 1),
        element_in(elements, done, 2),
        element_in(elements, done, 3),
        element_in(elements, done, 4),
        element_in(elements, done, 5),
        element_in(elements, done, 6),
        element_in(elements, done, 7),
    ]
}

// The element in one of eight lanes, and 0 where none is left.
fn element_in(elements: &[u16], done: usize, lane: usize) -> u16
    requires done { done < length elements.now }
    requires lane { lane < 8 }
    ensures { done + lane < length elements.now → result ≡ slice_index elements.now (done + lane) }
{
    if lane < elements.len() - done {
        elements[done + lane]
    } else {
        0
    }
}

/// Writes the elements of eight lanes, or of as many as there is room for.
pub fn put_eight(elements: &mut [u16], done: usize, own: &Eight)
    requires { done < length elements.old }
    ensures count { length elements.new ≡ length elements.old }
    ensures before { (i : ℕ) → i < done → slice_index elements.new i ≡ slice_index elements.old i }
    ensures own { (l : ℕ) → l < 8 → done + l < length elements.old
        → slice_index elements.new (done + l) ≡ slice_index own.now l }
{
    for lane in 0..(elements.len() - done).min(8) {
        elements[done + lane] = own[lane];
    }
}

/// The product in each lane, by the halves of the second factor.
pub fn products(a: &Eight, b: &Eight) -> Eight
    ensures { (l : ℕ) → l < 8
        → slice_index result l ≡ times (slice_index a.now l) (slice_index b.now l) }
{
    let multiples = multiples_of(a);
    let low = by_eight_bits(&multiples, &low_parts(b, 256));
    let high = by_eight_bits(&multiples, &high_parts(b, 256));
    sum_of_two(&low, &each_by_256(&high))
}

// An element's products with 1, 2, 4 and 8 in each lane.
#[derive(Drop)]
struct Multiples {
    one: Eight,
    two: Eight,
    four: Eight,
    eight: Eight,
    ghost one_fits: { (l : ℕ) → l < 8 → slice_index one l < 65536 },
    ghost two_each: { (l : ℕ) → l < 8 → slice_index two l ≡ times (slice_index one l) 2 },
    ghost four_each: { (l : ℕ) → l < 8 → slice_index four l ≡ times (slice_index one l) 4 },
    ghost eight_each: { (l : ℕ) → l < 8 → slice_index eight l ≡ times (slice_index one l) 8 },
}

// The products with 1, 2, 4 and 8 in each lane.
fn multiples_of(a: &Eight) -> Multiples
    ensures { result.one ≡ a.now }
{
    let two = each_by_2(a);
    let four = each_by_4(a);
    let eight = each_by_4(&two);
    Multiples {
        one: *a,
        two,
        four,
        eight,
    }
}

// The product with elements of eight bits.
fn by_eight_bits(a: &Multiples, b: &Eight) -> Eight
    ensures { (l : ℕ) → l < 8 → slice_index b.now l < 256
        → slice_index result l ≡ times (slice_index a.now.one l) (slice_index b.now l) }
{
    let low = by_four_bits(a, &low_parts(b, 16));
    let high = by_four_bits(a, &high_parts(b, 16));
    sum_of_two(&low, &each_by_16(&high))
}

// The product with elements of four bits.
fn by_four_bits(a: &Multiples, b: &Eight) -> Eight
    ensures { (l : ℕ) → l < 8 → slice_index b.now l < 16
        → slice_index result l ≡ times (slice_index a.now.one l) (slice_index b.now l) }
{
    let low = by_two_bits(&a.one, &a.two, &low_parts(b, 4));
    let high = by_two_bits(&a.four, &a.eight, &high_parts(b, 4));
    sum_of_two(&low, &high)
}

// The product with elements of two bits, where the product with 2 is known.
fn by_two_bits(a: &Eight, twice: &Eight, b: &Eight) -> Eight
    requires { (l : ℕ) → l < 8 → slice_index twice.now l ≡ times (slice_index a.now l) 2 }
    ensures { (l : ℕ) → l < 8 → slice_index b.now l < 4
        → slice_index result l ≡ times (slice_index a.now l) (slice_index b.now l) }
{
    let low = by_bits(a, &low_parts(b, 2));
    let high = by_bits(twice, &high_parts(b, 2));
    sum_of_two(&low, &high)
}

// The product with 0 or 1 in each lane.
fn by_bits(a: &Eight, b: &Eight) -> Eight
    ensures { (l : ℕ) → l < 8 → slice_index b.now l < 2
        → slice_index result l ≡ times (slice_index a.now l) (slice_index b.now l) }
{
    [
        by_bit(a[0], b[0]),
        by_bit(a[1], b[1]),
        by_bit(a[2], b[2]),
        by_bit(a[3], b[3]),
        by_bit(a[4], b[4]),
        by_bit(a[5], b[5]),
        by_bit(a[6], b[6]),
        by_bit(a[7], b[7]),
    ]
}

// The product with 0 or 1.
fn by_bit(a: u16, b: u16) -> u16
    ensures { b < 2 → result ≡ times a b }
{
    a.wrapping_mul(b)
}

// What each lane leaves over a power of two.
fn low_parts(a: &Eight, size: u16) -> Eight
    requires { 0 < size }
    ensures { (l : ℕ) → l < 8 → slice_index result l ≡ slice_index a.now l % size }
{
    [
        a[0] % size,
        a[1] % size,
        a[2] % size,
        a[3] % size,
        a[4] % size,
        a[5] % size,
        a[6] % size,
        a[7] % size,
    ]
}

// How often each lane holds a power of two.
fn high_parts(a: &Eight, size: u16) -> Eight
    requires { 0 < size }
    ensures { (l : ℕ) → l < 8 → slice_index result l ≡ slice_index a.now l / size }
{
    [
        a[0] / size,
        a[1] / size,
        a[2] / size,
        a[3] / size,
        a[4] / size,
        a[5] / size,
        a[6] / size,
        a[7] / size,
    ]
}

/// The product with 2 in each lane.
pub fn each_by_2(a: &Eight) -> Eight
    ensures { (l : ℕ) → l < 8 → slice_index result l ≡ times (slice_index a.now l) 2 }
{
    [
        gf16::by_2(a[0]),
        gf16::by_2(a[1]),
        gf16::by_2(a[2]),
        gf16::by_2(a[3]),
        gf16::by_2(a[4]),
        gf16::by_2(a[5]),
        gf16::by_2(a[6]),
        gf16::by_2(a[7]),
    ]
}

/// The product with 4 in each lane.
pub fn each_by_4(a: &Eight) -> Eight
    ensures { (l : ℕ) → l < 8 → slice_index result l ≡ times (slice_index a.now l) 4 }
{
    [
        gf16::by_4(a[0]),
        gf16::by_4(a[1]),
        gf16::by_4(a[2]),
        gf16::by_4(a[3]),
        gf16::by_4(a[4]),
        gf16::by_4(a[5]),
        gf16::by_4(a[6]),
        gf16::by_4(a[7]),
    ]
}

/// The product with 16 in each lane.
pub fn each_by_16(a: &Eight) -> Eight
    ensures { (l : ℕ) → l < 8 → slice_index result l ≡ times (slice_index a.now l) 16 }
{
    [
        gf16::by_16(a[0]),
        gf16::by_16(a[1]),
        gf16::by_16(a[2]),
        gf16::by_16(a[3]),
        gf16::by_16(a[4]),
        gf16::by_16(a[5]),
        gf16::by_16(a[6]),
        gf16::by_16(a[7]),
    ]
}

/// The product with 256 in each lane.
pub fn each_by_256(a: &Eight) -> Eight
    ensures { (l : ℕ) → l < 8 → slice_index result l ≡ times (slice_index a.now l) 256 }
{
    [
        gf16::by_256(a[0]),
        gf16::by_256(a[1]),
        gf16::by_256(a[2]),
        gf16::by_256(a[3]),
        gf16::by_256(a[4]),
        gf16::by_256(a[5]),
        gf16::by_256(a[6]),
        gf16::by_256(a[7]),
    ]
}
