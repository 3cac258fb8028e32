//! Which originals are among the rows that are given, and where rows are taken from.

ghost use Rattle.std.specs.Prelude.{◌≡◌, ℕ, ◌+◌, ◌*◌, ◌^◌, ◌<◌, ◌≤◌, length, slice_index, All, IfOk};
ghost use Rattle.rs_code.specs.Codeword.{ArePoints};
ghost use Rattle.rs_code.specs.Completions.{given_originals, given_recoveries, AreSpots};
ghost use Rattle.rs_code.specs.Completions.{AreSources};

use std::alloc::{AllocError, Global};

/// The indices of rows: those of originals and those of recoveries, each in their order, and where
/// the recoveries stand among all of them.
#[derive(Drop)]
pub(crate) struct Split {
    pub(crate) originals: Vec<u16>,
    pub(crate) recoveries: Vec<u16>,
    pub(crate) spots: Vec<usize>,
}

/// Splits the indices of rows.
pub(crate) fn split_of(alloc: Global, k: u16, points: &[u16]) -> Result<Split, AllocError>
    ensures originals { IfOk result (λ s. s.originals.items ≡ given_originals k points.now) }
    ensures recoveries { IfOk result (λ s. s.recoveries.items ≡ given_recoveries k points.now) }
    ensures spots { IfOk result (λ s. AreSpots k points.now s.spots.items) }
{
    let mut originals = Vec::new(alloc);
    let mut recoveries = Vec::new(alloc);
    let mut spots = Vec::new(alloc);
    for s in 0..points.len() {
        if points[s] < k {
            originals.push(points[s])?;
            continue;
        }
        recoveries.push(points[s])?;
        spots.push(s)?;
    }
    Ok(Split {
        originals,
        recoveries,
        spots,
    })
}

/// Where rows are taken from: the place of each among the rows that are given and, behind them,
/// those that are missing; and the indices of these, in the order of their places.
#[derive(Drop)]
pub(crate) struct Sources {
    pub(crate) places: Vec<usize>,
    pub(crate) missing: Vec<u16>,
}

/// Where the rows at the targets are taken from, where the rows at these points are given. All
/// targets are below `total`.
pub(crate) fn sources_of(
    alloc: Global,
    total: u32,
    points: &[u16],
    targets: &[u16],
) -> Result<Sources, AllocError>
    requires few { length points.now ≤ 65536 }
    requires points { ArePoints (length points.now) (λ s. slice_index points.now s) }
    requires targets { All (λ target. target < total) targets.now }
    ensures sources { IfOk result (λ s. AreSources (length targets.now)
        (λ i. slice_index targets.now i) points.now s.missing.items s.places.items) }
    ensures below { IfOk result (λ s. All (λ target. target < total) s.missing.items) }
{
    let given = places_among(alloc, total, points)?;
    let mut places = Vec::new(alloc);
    let mut missing = Vec::new(alloc);
    for i in 0..targets.len() {
        let place = given[usize::from(targets[i])];
        if place < points.len() {
            places.push(place)?;
            continue;
        }
        places.push(points.len() + missing.len())?;
        missing.push(targets[i])?;
    }
    Ok(Sources { places, missing })
}

// Where each index below a total stands among these, and their number where it doesn't.
fn places_among(alloc: Global, total: u32, points: &[u16]) -> Result<Vec<usize>, AllocError>
    requires { ArePoints (length points.now) (λ s. slice_index points.now s) }
    ensures count { IfOk result (λ v. length v.items ≡ total) }
    ensures here { IfOk result (λ v. (x : ℕ) → x < total
        → slice_index v.items x < length points.now
        → slice_index points.now (slice_index v.items x) ≡ x) }
    ensures each { IfOk result (λ v. (s : ℕ) → s < length points.now
        → slice_index points.now s < total
        → slice_index v.items (slice_index points.now s) ≡ s) }
{
    let mut places = vec![in alloc; points.len(); total as usize]?;
    for s in 0..points.len() {
        if u32::from(points[s]) >= total {
            continue;
        }
        places[usize::from(points[s])] = s;
    }
    Ok(places)
}

/// Indices as places among rows that stand end to end.
pub(crate) fn as_places(alloc: Global, indices: &[u16]) -> Result<Vec<usize>, AllocError>
    ensures { IfOk result (λ v. v.items ≡ indices.now) }
{
    let mut places = Vec::new(alloc);
    for index in indices {
        places.push(usize::from(*index))?;
    }
    Ok(places)
}

/// The indices from a first one on.
pub(crate) fn indices(alloc: Global, from: u16, count: u16) -> Result<Vec<u16>, AllocError>
    requires { from + count ≤ 65535 }
    ensures count { IfOk result (λ v. length v.items ≡ count) }
    ensures each { IfOk result (λ v. (s : ℕ) → s < count → slice_index v.items s ≡ from + s) }
{
    let mut values = Vec::new(alloc);
    for s in 0..count {
        values.push(from + s)?;
    }
    Ok(values)
}
