//! The transform between coefficients and values, for all columns of rows at once: the additive FFT,
//! in the basis of Lin, Chung and Han.
//!
//! The polynomial s_t vanishes at the elements below 2^t and is 1 at 2^t. Let p = a + s_t * b, where
//! a and b are below degree 2^t. As s_t is additive, it is constant on each half of a block of
//! 2^(t + 1) elements: s_t(c) on the first, where c is the block's first element, and s_t(c) + 1 on
//! the second. There p is a + s_t(c) * b, and the same + b: so each half is a block of its own, of
//! half as many coefficients. `low_half` and `high_half` in proofs/TransformLaws.antt prove it.
//!
//! A block of four, of the coefficients d0 to d3, at the elements 0 to 3: s_1(0) is 0, so the first
//! half's are d0 and d1, and the second's e0 = d0 + d2 and e1 = d1 + d3. And s_0(x) is x, so the
//! values are d0 and d0 + d1, then e0 + 2 * e1 and e0 + 2 * e1 + e1.

ghost use Rattle.std.specs.Prelude.{◌≡◌, ℕ, ◌<◌, ◌≤◌, ◌+◌, ◌-◌, ◌*◌, ◌^◌, length, slice_index};
ghost use Rattle.rs_code.specs.Columns.{entry, AreScales};
ghost use Rattle.rs_code.specs.Transform.{vanishing, combined};

use crate::products::{add, add_products, step_back, step_forward, symbols_fit};
use crate::subspaces::{STEPS, vanishing_at};

/// Which rows hold coefficients, those from `given` on being zero, and which values are asked for:
/// those of the rows from `first` on that are before `last`.
#[derive(Clone, Copy)]
pub struct Part {
    /// How many of the first rows hold coefficients that may be other than zero.
    pub given: usize,
    /// The first row that is asked for.
    pub first: usize,
    /// The row behind the last that is asked for.
    pub last: usize,
}

/// How many rows a block has.
pub fn size(t: usize) -> usize
    requires { t ≤ 16 }
    ensures { result ≡ 2 ^ t }
{
    1 << t
}

// What the second half of a block counts for in its first.
fn factor_at(scales: &[u16; STEPS], t: usize, block: usize) -> u16
    requires some { 1 ≤ t }
    requires block { (block + 1) * 2 ^ t ≤ 2 ^ 16 }
    requires fits { t ≤ 16 }
    requires scales { AreScales 15 scales.now }
    ensures { result ≡ vanishing (t - 1) (block * 2 ^ t) }
{
    vanishing_at(scales, t - 1, (block * size(t)) as u16)
}

/// From the coefficients in 2^t rows to their polynomial's values at the elements of a block, in
/// the rows that are asked for. What the others have then isn't said.
pub fn forward(
    rows: &mut [u16],
    n: usize,
    scales: &[u16; STEPS],
    t: usize,
    block: usize,
    part: Part,
)
    requires fits { t ≤ 16 }
    requires block { (block + 1) * 2 ^ t ≤ 2 ^ 16 }
    requires rows { length rows.old ≡ 2 ^ t * n }
    requires given { part.given ≤ 2 ^ t }
    requires zeros { (i j : ℕ) → part.given ≤ i → i < 2 ^ t → j < n → entry rows.old n i j ≡ 0 }
    requires scales { AreScales 15 scales.now }
    ensures count { length rows.new ≡ length rows.old }
    ensures values { (i j : ℕ) → part.first ≤ i → i < part.last → i < 2 ^ t → j < n
        → entry rows.new n i j
        ≡ combined t (λ r. entry rows.old n r j) (block * 2 ^ t + i) }
{
    if t == 0 {
        return;
    }
    if part.last <= part.first {
        return;
    }
    if size(t) <= part.first {
        return;
    }
    symbols_fit(rows);
    let half = size(t - 1);
    let factor = factor_at(scales, t, block);
    let (low, high) = rows.split_at_mut(half * n);
    step_forward(low, high, factor, part.given.saturating_sub(half) * n);
    let front = Part {
        given: half,
        ..part
    };
    let back = Part {
        given: half,
        first: part.first.saturating_sub(half),
        last: part.last.saturating_sub(half),
    };
    forward(low, n, scales, t - 1, 2 * block, front);
    forward(high, n, scales, t - 1, 2 * block + 1, back);
}

/// From the values of a polynomial at the first elements of a block, and its coefficients from
/// their number on, to all its coefficients.
pub fn inverse(
    rows: &mut [u16],
    n: usize,
    scales: &[u16; STEPS],
    t: usize,
    block: usize,
    known: usize,
)
    requires fits { t ≤ 16 }
    requires block { (block + 1) * 2 ^ t ≤ 2 ^ 16 }
    requires known { known ≤ 2 ^ t }
    requires rows { length rows.old ≡ 2 ^ t * n }
    requires scales { AreScales 15 scales.now }
    ensures count { length rows.new ≡ length rows.old }
    ensures values { (i j : ℕ) → i < known → j < n
        → combined t (λ r. entry rows.new n r j) (block * 2 ^ t + i) ≡ entry rows.old n i j }
    ensures others { (i j : ℕ) → known ≤ i → i < 2 ^ t → j < n
        → entry rows.new n i j ≡ entry rows.old n i j }
{
    if t == 0 {
        return;
    }
    if known == 0 {
        return;
    }
    let half = size(t - 1);
    let factor = factor_at(scales, t, block);
    let (low, high) = rows.split_at_mut(half * n);
    if known <= half {
        // No value of the second half is known, but its coefficients are: what they count for in
        // the first half is taken away while that is worked out.
        add_products(low, factor, high, known * n);
        inverse(low, n, scales, t - 1, 2 * block, known);
        add_products(low, factor, high, 0);
        return;
    }
    // All values of the first half are known. So are, from `more` on, the coefficients of p in the
    // second: with those of the first half they give that block's own.
    let more = known - half;
    inverse(low, n, scales, t - 1, 2 * block, half);
    add(high, low, more * n);
    inverse(high, n, scales, t - 1, 2 * block + 1, more);
    step_back(low, high, factor);
}
