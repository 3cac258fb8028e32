//! Where things stand in a picture.

ghost use Rattle.std.specs.Prelude.{◌≡◌, ◌≤◌, ◌<◌, ◌^◌, ◌+◌};
ghost use Rattle.run_picture.specs.Frame as spec;

/// How many rows there are at most.
pub(crate) const MOST_ROWS: usize = 2000;

// How far the lanes of so many members are apart.
#[tactic(auto, unfolding(crate::specs::Frame::wide))]
fn wide(total: usize) -> u64
    ensures value { result ≡ spec.wide total }
    ensures bound { result ≤ 112 }
{
    if total < 9 {
        112
    } else if total < 17 {
        64
    } else {
        24
    }
}

/// The lane of a member.
#[tactic(auto, unfolding(crate::specs::Frame::x_of))]
pub(crate) fn x_of(total: usize, member: u64) -> u64
    ensures value { result ≡ spec.x_of total member }
    ensures low { 282 ≤ result }
    ensures bound { result < 2 ^ 32 }
{
    let lane = if member < 65535 { member } else { 65535 };
    282 + wide(total) * lane
}

/// A row, from 1.
#[tactic(auto, unfolding(crate::specs::Frame::y_of))]
pub(crate) fn y_of(row: u16) -> u64
    ensures value { result ≡ spec.y_of row }
    ensures low { 124 ≤ result }
    ensures bound { result < 2 ^ 32 }
{
    124 + 20 * u64::from(row)
}

/// How wide a picture of so many members is.
#[tactic(auto, unfolding(crate::specs::Frame::width))]
pub(crate) fn width(total: usize) -> u64
    ensures value { result ≡ spec.width total }
{
    if total < 5 {
        900
    } else {
        x_of(total, total as u64) + 90
    }
}
