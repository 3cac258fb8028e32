//! Rows of a codeword that is found from another one, where few originals are missing.
//!
//! The originals that are given, with zeros for those that are missing, have a codeword q of their
//! own. The wanted one, p, has the same values at these originals: so p = q + z * g, where z is the
//! product of the differences to them, and g a polynomial below the number of the recoveries that
//! are given. It is known at each of these, where it is (p + q) / z. So what goes by the product of
//! two numbers of rows goes by those that are missing alone, and the rest as recoveries are made,
//! by the transform where there are many.

ghost use Rattle.std.specs.Prelude.{◌≡◌, ℕ, ◌+◌, ◌*◌, ◌/◌, ◌%◌, ◌^◌, ◌<◌, ◌≤◌, ◌++◌, length};
ghost use Rattle.std.specs.Prelude.{slice_index, bit_xor, replicate, All, IfOk, IsTrue};
ghost use Rattle.cw_base.specs.Rows.{row_of};
ghost use Rattle.rs_code.specs.Completions.{AreCompletable};
ghost use Rattle.rs_code.specs.Field.{times};
ghost use Rattle.rs_code.specs.Rows.{joined, row_through, code_row, symbol, symbol_bytes};

use crate::basis::{Basis, distances_at, inverses_at};
use crate::recipe::Recipe;
use crate::recovery::{add_recoveries, add_recoveries_here};
use crate::row_lists::{picked, picked_of_two, scaled, summed};
use crate::split::{Sources, Split, as_places, indices, sources_of, split_of};
use crate::striped::{rows_at, whole_rows_at};
use cw_base::{NoMemory, Strategy};
use std::alloc::{AllocError, Global};
use std::marker::Model;
use std::thread::Threads;

/// The rows at some indices, by which a codeword is found from that of the originals among them.
#[derive(Drop)]
pub(crate) struct Completion {
    k: u16,
    m: u16,
    points: Vec<u16>,
    basis: Basis,
    parts: Parts,
}

// Where the rows stand that are used, and what they are multiplied by. A distance is the product of
// the differences to the originals that are given.
#[derive(Drop)]
struct Parts {
    // Where each original stands among the rows given and, behind them, the missing ones.
    sources: Vec<usize>,
    // The originals that are missing.
    missing: Vec<u16>,
    // Where the recoveries stand among the rows given, and their indices.
    spots: Vec<usize>,
    recoveries: Vec<usize>,
    // 1 over the distance of each of these recoveries.
    scales: Vec<u16>,
    // The distance of each missing original.
    distances: Vec<u16>,
}

impl Model for Completion {
    ghost use Rattle.std.specs.Prelude.{◌≡◌};
    ghost use Rattle.rs_code.specs.Completions.{given_recoveries, ArePartsOf, AreCompletable};
    ghost use Rattle.rs_code.specs.Plans.{Shape};

    ghost Value = { Shape };

    ghost view = { λ c. record { k = c.k; m = c.m; points = c.points.items } };

    ghost invariant = { λ c. AreCompletable c.k c.m c.points.items
        × (c.basis ≡ given_recoveries c.k c.points.items)
        × ArePartsOf c.k c.points.items c.parts };
}

impl Completion {
    /// For codewords of `k` originals and `m` recoveries, by the rows at these `k` indices.
    pub fn new(alloc: Global, k: u16, m: u16, points: Vec<u16>) -> Result<Completion, AllocError>
        requires { AreCompletable k m points.items }
        ensures { IfOk result (λ c. c ≡ record { k = k; m = m; points = points.items }) }
    {
        let Split {
            originals,
            recoveries,
            spots,
        } = split_of(alloc, k, &points)?;
        let all = indices(alloc, 0, k)?;
        let total = u32::from(k) + u32::from(m);
        let Sources { places, missing } = sources_of(alloc, total, &points, &all)?;
        let parts = Parts {
            scales: inverses_at(alloc, &originals, &recoveries)?,
            distances: distances_at(alloc, &originals, &missing)?,
            recoveries: as_places(alloc, &recoveries)?,
            sources: places,
            missing,
            spots,
        };
        let basis = Basis::new(alloc, recoveries, total)?;
        Ok(Completion {
            k,
            m,
            points,
            basis,
            parts,
        })
    }

    /// The indices of the rows that are used.
    pub fn points(&self) -> &[u16]
        ensures { result.now ≡ self.now.points }
    {
        &self.points
    }

    /// The rows of the targets, in their order and end to end.
    pub fn rebuild<R: Threads + Sync, S: Strategy>(
        &self,
        rt: &R,
        alloc: Global,
        rows: &[u8],
        width: usize,
        targets: &[u16],
        strategy: &S,
    ) -> Result<Vec<u8>, NoMemory>
        requires some_width { 0 < width }
        requires even { width % 2 ≡ 0 }
        requires rows { length rows.now ≡ self.now.k * width }
        requires targets { All (λ target. target < self.now.k + self.now.m) targets.now }
        ensures { IfOk result (λ v. v.items ≡ joined (length targets.now)
            (λ i. row_through self.now.k (λ s. slice_index self.now.points s) rows.now width
            (slice_index targets.now i))) }
    {
        if !has_room(self.k, self.m, width) {
            return Err(NoMemory);
        }
        let mut near = self.parts.near_originals(alloc, rows, width)?;
        add_recoveries(rt, alloc, self.k, self.m, &mut near, width, strategy)?;
        let quotients = self.parts.quotients(alloc, rows, &near, width)?;
        let recipe = Recipe::ByWeights(&self.basis, &self.parts.missing);
        let factors = rows_at(rt, alloc, &recipe, &quotients, width, strategy)?;
        let originals = self.parts.originals(alloc, rows, &factors, width)?;
        rows_behind(
            rt, alloc, self.k, self.m, originals, width, targets, strategy,
        )
    }

    /// What [`Completion::rebuild`] gives, on the caller's thread: it takes no runtime.
    pub fn rebuild_here(
        &self,
        alloc: Global,
        rows: &[u8],
        width: usize,
        targets: &[u16],
    ) -> Result<Vec<u8>, NoMemory>
        requires some_width { 0 < width }
        requires even { width % 2 ≡ 0 }
        requires rows { length rows.now ≡ self.now.k * width }
        requires targets { All (λ target. target < self.now.k + self.now.m) targets.now }
        ensures { IfOk result (λ v. v.items ≡ joined (length targets.now)
            (λ i. row_through self.now.k (λ s. slice_index self.now.points s) rows.now width
            (slice_index targets.now i))) }
    {
        if !has_room(self.k, self.m, width) {
            return Err(NoMemory);
        }
        let mut near = self.parts.near_originals(alloc, rows, width)?;
        add_recoveries_here(alloc, self.k, self.m, &mut near, width)?;
        let quotients = self.parts.quotients(alloc, rows, &near, width)?;
        let recipe = Recipe::ByWeights(&self.basis, &self.parts.missing);
        let factors = whole_rows_at(alloc, &recipe, &quotients, width)?;
        let originals = self.parts.originals(alloc, rows, &factors, width)?;
        rows_behind_here(alloc, self.k, self.m, originals, width, targets)
    }
}

impl Parts {
    // The originals that are given, and zeros for the missing ones.
    fn near_originals(
        &self,
        alloc: Global,
        rows: &[u8],
        width: usize,
    ) -> Result<Vec<u8>, AllocError>
        requires some_width { 0 < width }
        requires whole { length rows.now % width ≡ 0 }
        requires within { (i : ℕ) → i < length self.now.sources.items →
            slice_index self.now.sources.items i
            < length rows.now / width + length self.now.missing.items }
        requires room { length self.now.missing.items * width < 2 ^ 63 }
        ensures long { IfOk result (λ v. length v.items ≡ length self.now.sources.items * width) }
        ensures rows { IfOk result (λ v. v.items ≡ joined (length self.now.sources.items)
            (λ i. row_of (rows.now ++ replicate (length self.now.missing.items * width) 0) width
            (slice_index self.now.sources.items i))) }
    {
        let zeros = vec![in alloc; 0u8; self.missing.len() * width]?;
        picked_of_two(alloc, rows, &zeros, width, &self.sources)
    }

    // What the recoveries that are given differ by from those of a codeword, over their distances.
    fn quotients(
        &self,
        alloc: Global,
        rows: &[u8],
        near: &[u8],
        width: usize,
    ) -> Result<Vec<u8>, AllocError>
        requires some_width { 0 < width }
        requires even { width % 2 ≡ 0 }
        requires spots { length self.now.spots.items ≡ length self.now.scales.items }
        requires recoveries { length self.now.recoveries.items ≡ length self.now.scales.items }
        requires given { (j : ℕ) → j < length self.now.spots.items
            → slice_index self.now.spots.items j < length rows.now / width }
        requires others { (j : ℕ) → j < length self.now.recoveries.items
            → slice_index self.now.recoveries.items j < length near.now / width }
        ensures long { IfOk result (λ v. length v.items ≡ length self.now.scales.items * width) }
        ensures rows { IfOk result (λ v. v.items ≡ joined (length self.now.scales.items)
            (λ j. symbol_bytes (width / 2) (λ t. times
            (bit_xor (symbol rows.now width (slice_index self.now.spots.items j) t)
            (symbol near.now width (slice_index self.now.recoveries.items j) t))
            (slice_index self.now.scales.items j)))) }
    {
        let given = picked(alloc, rows, width, &self.spots)?;
        let others = picked(alloc, near, width, &self.recoveries)?;
        let differences = summed(alloc, &given, &others)?;
        scaled(alloc, &differences, width, &self.scales)
    }

    // All originals, where the missing ones are these rows times their distances.
    fn originals(
        &self,
        alloc: Global,
        rows: &[u8],
        factors: &[u8],
        width: usize,
    ) -> Result<Vec<u8>, AllocError>
        requires some_width { 0 < width }
        requires even { width % 2 ≡ 0 }
        requires whole { length rows.now % width ≡ 0 }
        requires factors { length factors.now ≡ length self.now.distances.items * width }
        requires within { (i : ℕ) → i < length self.now.sources.items →
            slice_index self.now.sources.items i
            < length rows.now / width + length self.now.distances.items }
        ensures long { IfOk result (λ v. length v.items ≡ length self.now.sources.items * width) }
        ensures rows { IfOk result (λ v. v.items ≡ joined (length self.now.sources.items)
            (λ i. row_of (rows.now ++ joined (length self.now.distances.items)
            (λ j. symbol_bytes (width / 2) (λ t. times (symbol factors.now width j t)
            (slice_index self.now.distances.items j)))) width
            (slice_index self.now.sources.items i))) }
    {
        let missing = scaled(alloc, factors, width, &self.distances)?;
        picked_of_two(alloc, rows, &missing, width, &self.sources)
    }
}

// The rows of the targets, of the codeword that begins with these originals. Its recoveries are made
// only where one of them is a target.
fn rows_behind<R: Threads + Sync, S: Strategy>(
    rt: &R,
    alloc: Global,
    k: u16,
    m: u16,
    originals: Vec<u8>,
    width: usize,
    targets: &[u16],
    strategy: &S,
) -> Result<Vec<u8>, NoMemory>
    requires some_originals { 1 ≤ k }
    requires some_recoveries { 1 ≤ m }
    requires total { k + m ≤ 65535 }
    requires some_width { 0 < width }
    requires even { width % 2 ≡ 0 }
    requires rows { length originals.items ≡ k * width }
    requires room { (k + m) * width < 2 ^ 63 }
    requires targets { All (λ target. target < k + m) targets.now }
    ensures { IfOk result (λ v. v.items ≡ joined (length targets.now)
        (λ i. row_of (originals.items ++ joined m (λ r. code_row k originals.items width (k + r)))
        width (slice_index targets.now i))) }
{
    let places = as_places(alloc, targets)?;
    if are_originals(k, targets) {
        let rows = picked(alloc, &originals, width, &places)?;
        return Ok(rows);
    }
    let mut whole = originals;
    add_recoveries(rt, alloc, k, m, &mut whole, width, strategy)?;
    let rows = picked(alloc, &whole, width, &places)?;
    Ok(rows)
}

// The same on the caller's thread.
fn rows_behind_here(
    alloc: Global,
    k: u16,
    m: u16,
    originals: Vec<u8>,
    width: usize,
    targets: &[u16],
) -> Result<Vec<u8>, NoMemory>
    requires some_originals { 1 ≤ k }
    requires some_recoveries { 1 ≤ m }
    requires total { k + m ≤ 65535 }
    requires some_width { 0 < width }
    requires even { width % 2 ≡ 0 }
    requires rows { length originals.items ≡ k * width }
    requires room { (k + m) * width < 2 ^ 63 }
    requires targets { All (λ target. target < k + m) targets.now }
    ensures { IfOk result (λ v. v.items ≡ joined (length targets.now)
        (λ i. row_of (originals.items ++ joined m (λ r. code_row k originals.items width (k + r)))
        width (slice_index targets.now i))) }
{
    let places = as_places(alloc, targets)?;
    if are_originals(k, targets) {
        let rows = picked(alloc, &originals, width, &places)?;
        return Ok(rows);
    }
    let mut whole = originals;
    add_recoveries_here(alloc, k, m, &mut whole, width)?;
    let rows = picked(alloc, &whole, width, &places)?;
    Ok(rows)
}

// That all targets are originals.
fn are_originals(k: u16, targets: &[u16]) -> bool
    ensures { IsTrue result → All (λ target. target < k) targets.now }
{
    for i in 0..targets.len() {
        if targets[i] >= k {
            return false;
        }
    }
    true
}

// That a codeword fits into memory.
fn has_room(k: u16, m: u16, width: usize) -> bool
    requires { k + m ≤ 65535 }
    ensures { IsTrue result → (k + m) * width < 2 ^ 63 }
{
    width <= 1 << 47
}
