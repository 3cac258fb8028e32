//! The polynomials that vanish on the elements below a power of two.

ghost use Rattle.std.specs.Prelude.{◌≡◌, ◌≢◌, ℕ, ◌<◌, ◌≤◌, ◌+◌, ◌^◌, bit_xor};
ghost use Rattle.rs_code.specs.Columns.{AreScales};
ghost use Rattle.rs_code.specs.Field.{times, inverse};
ghost use Rattle.rs_code.specs.Transform.{by_next, vanishing};

use crate::gf16;

/// How many vanishing polynomials are made of the one before.
pub const STEPS: usize = 15;

/// The inverted divisors, one for each step.
pub fn scales() -> [u16; STEPS]
    ensures { AreScales 15 result }
{
    let mut scales = [0u16; STEPS];
    for t in 0..STEPS {
        let divisor = with_next(vanishing_at(&scales, t, 1 << (t + 1)));
        scales[t] = inverse_or_zero(divisor);
    }
    scales
}

/// The polynomial that is 0 at the elements below 2^t and 1 at 2^t, at an element.
pub fn vanishing_at(scales: &[u16; STEPS], t: usize, x: u16) -> u16
    requires steps { t ≤ 15 }
    requires scales { AreScales t scales.now }
    ensures { result ≡ vanishing t x }
{
    let mut y = x;
    for step in 0..t {
        y = gf16::mul(with_next(y), scales[step]);
    }
    y
}

// y * (y + 1)
fn with_next(y: u16) -> u16
    ensures { result ≡ by_next y }
{
    gf16::mul(y, y ^ 1)
}

// The inverse of an element, and 0 at 0.
fn inverse_or_zero(element: u16) -> u16
    ensures { element ≢ 0 → result ≡ inverse element }
{
    if element == 0 { 0 } else { gf16::inv(element) }
}
