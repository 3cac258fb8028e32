//! Where each lane of a script stands: the place of its next event, and the end of its events.

ghost use Rattle.std.specs.Prelude.{◌≡◌, ◌<◌, ◌≤◌, ◌∷◌, ℕ, [], List, None, Some, drop, flat_map};
ghost use Rattle.std.specs.Prelude.{length, map, slice_get, slice_index, take, IfOk, IfSome};
ghost use Rattle.std.specs.Prelude.{IsTrue};
ghost use Rattle.cw_rules.specs.World.{Line};
ghost use Rattle.hail_script.specs.Lanes.{cut};
ghost use Rattle.hailstorm.specs.Lanes.{lane_at};
ghost use Rattle.hailstorm.specs.Turns.{between};

use cw_base::NoMemory;
use std::alloc::Global;

/// How many events come before all lanes, and where each lane stands before its first event.
pub(crate) fn cursors_of(
    alloc: Global,
    sizes: &[u64],
    count: usize,
) -> Result<(usize, Vec<(usize, usize)>), NoMemory>
    ensures within { IfOk result (λ r. r.0 ≤ count) }
    ensures before { (rows : List (ℕ × Line)) → length rows ≡ count
        → IfOk result (λ r. cut sizes.now rows ≡ take r.0 rows ∷ map (between rows) r.1.items) }
{
    match sizes {
        [] => Ok((count, Vec::new(alloc))),
        [first, more @ ..] => {
            let before = end_of(0, *first, count);
            Ok((before, runs_from(alloc, before, more, count)?))
        }
    }
}

// The end of a run of so many from a place on, where there are so many.
fn end_of(from: usize, size: u64, count: usize) -> usize
    requires { from ≤ count }
    ensures within { result ≤ count }
    ensures behind { from ≤ result }
    ensures run { (rows : List (ℕ × Line)) → length rows ≡ count
        → between rows (from, result) ≡ take size (drop from rows) }
    ensures rest { (rows : List (ℕ × Line)) → length rows ≡ count
        → drop result rows ≡ drop size (drop from rows) }
{
    let left = count - from;
    if size as usize >= left {
        return count;
    }
    from + size as usize
}

// Runs of these sizes from a place on, and the rest.
fn runs_from(
    alloc: Global,
    from: usize,
    sizes: &[u64],
    count: usize,
) -> Result<Vec<(usize, usize)>, NoMemory>
    requires { from ≤ count }
    ensures { (rows : List (ℕ × Line)) → length rows ≡ count
        → IfOk result (λ runs. map (between rows) runs.items ≡ cut sizes.now (drop from rows)) }
{
    let mut runs = Vec::new(alloc);
    let mut from = from;
    for size in sizes {
        let end = end_of(from, *size, count);
        runs.push((from, end))?;
        from = end;
    }
    runs.push((from, count))?;
    Ok(runs)
}

/// The cursor of a lane that has an event left, of so many events in all.
pub(crate) fn cursor_at(
    cursors: &[(usize, usize)],
    lane: u64,
    count: usize,
) -> Option<(usize, usize)>
    ensures some { IfSome result (λ next. (slice_get cursors.now lane ≡ Some next)
        × (next.0 < next.1) × (next.0 < count)) }
    ensures known { IfSome result (λ _. lane < length cursors.now) }
    ensures none { result ≡ None → (rows : List (ℕ × Line)) → length rows ≡ count
        → lane_at (map (between rows) cursors.now) lane ≡ [] }
{
    match cursors.get(lane as usize) {
        None => None,
        Some((from, end)) => {
            if from >= end || *from >= count {
                return None;
            }
            Some((*from, *end))
        }
    }
}

/// The first lane that has an event left, of so many events in all.
pub(crate) fn first_left(cursors: &[(usize, usize)], count: usize) -> Option<u64>
    ensures some { IfSome result (λ lane. (rows : List (ℕ × Line)) → length rows ≡ count
        → 0 < length (lane_at (map (between rows) cursors.now) lane)) }
    ensures none { result ≡ None → (rows : List (ℕ × Line)) → length rows ≡ count
        → flat_map (λ lane. lane) (map (between rows) cursors.now) ≡ [] }
{
    for (lane, cursor) in cursors.iter().enumerate() {
        if cursor.0 < cursor.1 && cursor.0 < count {
            return Some(lane as u64);
        }
    }
    None
}

/// The number of an event line.
pub(crate) fn number_of(numbers: &[u64], at: usize) -> u64
    ensures { result ≡ slice_index numbers.now at }
{
    match numbers.get(at) {
        None => 0,
        Some(number) => *number,
    }
}
