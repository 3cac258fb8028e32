//! Rows that are made of given rows, one stripe of columns beside the other.

ghost use Rattle.std.specs.Prelude.{◌≡◌, ℕ, ◌<◌, ◌≤◌, ◌+◌, ◌-◌, ◌*◌, ◌/◌, ◌%◌, ◌^◌, ◌++◌, take};
ghost use Rattle.std.specs.Prelude.{length, slice_index, IfOk, OnOk, OnErr};
ghost use Rattle.std.specs.Thread.{IsSync};
ghost use Rattle.rs_code.specs.Codeword.{sum_below};
ghost use Rattle.rs_code.specs.Coefficients.{lane, symbol_through};
ghost use Rattle.rs_code.specs.Field.{times};
ghost use Rattle.rs_code.specs.Recipes.{given_count, made_count, FitsField, made_symbol, made_row};
ghost use Rattle.rs_code.specs.Rows.{symbol, symbol_bytes, joined};
ghost use Rattle.rs_code.specs.Symbols.{symbol_in};
ghost use Rattle.rs_code.specs.Stripes.{stripe_start, stripe_bytes, AreStripes};

use crate::basis::Basis;
use crate::columns::Columns;
use crate::eights::fill_lane;
use crate::joining::{all_done, put_rows};
use crate::lanes::{Eight, next_eight};
use crate::narrow::group_sums;
use crate::pairs::{fill_pair_lane, pair_sums};
use crate::recipe::Recipe;
use crate::stripes::{stripe, stripe_count};
use crate::transformed::fill_transformed;
use cw_base::{NoMemory, Strategy};
use std::alloc::{AllocError, Global};
use std::thread;
use std::thread::Threads;

// How many columns are worked on at once: their sums stay in the caches near the processor.
const BLOCK: usize = 8192;

// Where sums are written: into `lanes` rows of `wide` bytes each, behind those that are done, and
// there into `count` columns from the column `start` on.
#[derive(Clone, Copy)]
struct Area {
    wide: usize,
    done: usize,
    lanes: usize,
    start: usize,
    count: usize,
}

/// The rows of a recipe.
///
/// Each stripe is done by itself; by weights for eight targets at a time, whose coefficients are
/// then let go.
pub fn rows_at<R: Threads + Sync, S: Strategy>(
    rt: &R,
    alloc: Global,
    recipe: &Recipe,
    rows: &[u8],
    width: usize,
    strategy: &S,
) -> Result<Vec<u8>, NoMemory>
    requires rows { length rows.now ≡ given_count recipe.now * width }
    requires even { width % 2 ≡ 0 }
    requires fits { FitsField recipe.now }
    requires room { made_count recipe.now * width < 2 ^ 63 }
    ensures { IfOk result (λ v. v.items
        ≡ joined (made_count recipe.now) (made_row recipe.now rows.now width)) }
{
    let count = stripe_count(width, strategy.pieces());
    if count == 1 {
        strategy.arrive(0);
        return whole_rows_at(alloc, recipe, rows, width);
    }
    let n = recipe.count();
    let done = run_with_room(rt, alloc, recipe, rows, width, count, n * width, strategy)?;
    let mut out = done.room;
    put_rows(rt, &done.stripes, width, n, &mut out);
    Ok(out)
}

/// What [`rows_at`] gives, on the caller's thread, all columns in one piece.
pub fn whole_rows_at(
    alloc: Global,
    recipe: &Recipe,
    rows: &[u8],
    width: usize,
) -> Result<Vec<u8>, NoMemory>
    requires rows { length rows.now ≡ given_count recipe.now * width }
    requires even { width % 2 ≡ 0 }
    requires fits { FitsField recipe.now }
    requires room { made_count recipe.now * width < 2 ^ 63 }
    ensures { IfOk result (λ v. v.items
        ≡ joined (made_count recipe.now) (made_row recipe.now rows.now width)) }
{
    let whole = stripe_rows(alloc, recipe, rows, width, 1, 0)?;
    Ok(whole)
}

/// Appends the rows of a recipe to the given rows, as a strategy does `count` stripes of them. The
/// rows move to room that is made meanwhile.
pub fn put_rows_at<R: Threads + Sync, S: Strategy>(
    rt: &R,
    alloc: Global,
    recipe: &Recipe,
    rows: &mut Vec<u8>,
    width: usize,
    count: usize,
    strategy: &S,
) -> Result<(), NoMemory>
    requires rows { length rows.old.items ≡ given_count recipe.now * width }
    requires some_width { 1 ≤ width }
    requires even { width % 2 ≡ 0 }
    requires some_stripes { 1 ≤ count }
    requires fits { FitsField recipe.now }
    requires room { length rows.old.items + made_count recipe.now * width < 2 ^ 63 }
    ensures ok { OnOk result (rows.new.items ≡ rows.old.items
        ++ joined (made_count recipe.now) (made_row recipe.now rows.old.items width)) }
    ensures err { OnErr result (take (length rows.old.items) rows.new.items ≡ rows.old.items) }
{
    let n = recipe.count();
    let size = rows.len();
    let total = size + n * width;
    let done = run_with_room(rt, alloc, recipe, rows, width, count, total, strategy)?;
    let mut all = done.room;
    let (given, out) = all.split_at_mut(size);
    given.copy_from_slice(rows);
    put_rows(rt, &done.stripes, width, n, out);
    *rows = all;
    Ok(())
}

/// What [`put_rows_at`] does, on the caller's thread: all columns in one piece, where the rows
/// stay.
pub fn put_whole_rows(
    alloc: Global,
    recipe: &Recipe,
    rows: &mut Vec<u8>,
    width: usize,
) -> Result<(), NoMemory>
    requires rows { length rows.old.items ≡ given_count recipe.now * width }
    requires even { width % 2 ≡ 0 }
    requires fits { FitsField recipe.now }
    requires room { length rows.old.items + made_count recipe.now * width < 2 ^ 63 }
    ensures ok { OnOk result (rows.new.items ≡ rows.old.items
        ++ joined (made_count recipe.now) (made_row recipe.now rows.old.items width)) }
    ensures err { OnErr result (take (length rows.old.items) rows.new.items ≡ rows.old.items) }
{
    let size = rows.len();
    rows.resize(size + recipe.count() * width, 0)?;
    let (given, out) = rows.split_at_mut(size);
    fill_rows(alloc, out, recipe, given, width, 0, width)?;
    Ok(())
}

// The stripes of the rows of a recipe, and room for what they are put into.
#[derive(Drop)]
struct Done {
    stripes: Vec<Vec<u8>>,
    room: Vec<u8>,
}

// The stripes of the rows of a recipe, as a strategy does them, and `size` zeros, which a thread
// beside it writes: no other may write memory that nobody has written before.
fn run_with_room<R: Threads + Sync, S: Strategy>(
    rt: &R,
    alloc: Global,
    recipe: &Recipe,
    rows: &[u8],
    width: usize,
    count: usize,
    size: usize,
    strategy: &S,
) -> Result<Done, NoMemory>
    requires rows { length rows.now ≡ given_count recipe.now * width }
    requires even { width % 2 ≡ 0 }
    requires some_stripes { 1 ≤ count }
    requires fits { FitsField recipe.now }
    requires room { made_count recipe.now * width < 2 ^ 63 }
    requires size { size < 2 ^ 63 }
    ensures count { IfOk result (λ done. length done.stripes.items ≡ count) }
    ensures stripes { IfOk result (λ done. AreStripes width (made_count recipe.now)
        (made_symbol recipe.now rows.now width) done.stripes.items) }
    ensures room { IfOk result (λ done. length done.room.items ≡ size) }
{
    let (room, stripes) = thread::join_mut(
        rt,
        &mut move || -> Result<Vec<u8>, AllocError>
            requires { size < 2 ^ 63 }
            ensures { IfOk result (λ v. length v.items ≡ size) }
        { vec![in alloc; 0u8; size] },
        &mut || -> Result<Vec<Vec<u8>>, NoMemory>
            requires { IsSync R.row
                × (length rows.now ≡ given_count recipe.now * width) × (width % 2 ≡ 0)
                × FitsField recipe.now
                × (made_count recipe.now * width < 2 ^ 63) × (1 ≤ count) }
            ensures { IfOk result (λ v. (length v.items ≡ count)
                × AreStripes width (made_count recipe.entry.now)
                (made_symbol recipe.entry.now rows.entry.now width) v.items) }
        { run_stripes(rt, alloc, recipe, rows, width, count, strategy) },
    );
    let room = room?;
    let stripes = stripes?;
    Ok(Done { stripes, room })
}

// The stripes of the rows of a recipe, as a strategy does them.
fn run_stripes<R: Threads + Sync, S: Strategy>(
    rt: &R,
    alloc: Global,
    recipe: &Recipe,
    rows: &[u8],
    width: usize,
    count: usize,
    strategy: &S,
) -> Result<Vec<Vec<u8>>, NoMemory>
    requires rows { length rows.now ≡ given_count recipe.now * width }
    requires even { width % 2 ≡ 0 }
    requires fits { FitsField recipe.now }
    requires room { made_count recipe.now * width < 2 ^ 63 }
    ensures count { IfOk result (λ v. length v.items ≡ count) }
    ensures stripes { IfOk result (λ v. AreStripes width (made_count recipe.now)
        (made_symbol recipe.now rows.now width) v.items) }
{
    let indices = stripe_indices(alloc, count)?;
    let work = |index: &usize| -> Result<Vec<u8>, AllocError>
        requires rows { length rows.now ≡ given_count recipe.now * width }
        requires even { width % 2 ≡ 0 }
        requires fits { FitsField recipe.now }
        requires room { made_count recipe.now * width < 2 ^ 63 }
        requires index { index.now < count }
        ensures { IfOk result (λ v. v.items ≡ joined (made_count recipe.entry.now)
            (λ i. stripe_bytes width count index.now
            (made_symbol recipe.entry.now rows.entry.now width i))) }
    { stripe_rows(alloc, recipe, rows, width, count, *index) };
    let pieces = strategy.map(rt, alloc, &indices, &work)?;
    let done = all_done(alloc, pieces)?;
    Ok(done)
}

// The indices of the stripes.
fn stripe_indices(alloc: Global, count: usize) -> Result<Vec<usize>, AllocError>
    ensures count { IfOk result (λ v. length v.items ≡ count) }
    ensures each { IfOk result (λ v. (i : ℕ) → i < count → slice_index v.items i ≡ i) }
{
    let mut indices = Vec::new(alloc);
    for index in 0..count {
        indices.push(index)?;
    }
    Ok(indices)
}

// One stripe of the rows of a recipe.
fn stripe_rows(
    alloc: Global,
    recipe: &Recipe,
    rows: &[u8],
    width: usize,
    count: usize,
    index: usize,
) -> Result<Vec<u8>, AllocError>
    requires rows { length rows.now ≡ given_count recipe.now * width }
    requires even { width % 2 ≡ 0 }
    requires fits { FitsField recipe.now }
    requires room { made_count recipe.now * width < 2 ^ 63 }
    requires index { index < count }
    ensures { IfOk result (λ v. v.items ≡ joined (made_count recipe.now)
        (λ i. stripe_bytes width count index (made_symbol recipe.now rows.now width i))) }
{
    let (first, last) = stripe(width, count, index);
    let wide = last - first;
    let mut out = vec![in alloc; 0u8; recipe.count() * wide]?;
    fill_rows(alloc, &mut out, recipe, rows, width, first / 2, wide)?;
    Ok(out)
}

// Writes the rows of a recipe: `wide` bytes of each, from the column `first` on.
fn fill_rows(
    alloc: Global,
    out: &mut [u8],
    recipe: &Recipe,
    rows: &[u8],
    width: usize,
    first: usize,
    wide: usize,
) -> Result<(), AllocError>
    requires rows { length rows.now ≡ given_count recipe.now * width }
    requires columns { 2 * first + wide ≤ width }
    requires even { wide % 2 ≡ 0 }
    requires fits { FitsField recipe.now }
    requires out { length out.old ≡ made_count recipe.now * wide }
    ensures count { length out.new ≡ length out.old }
    ensures rows { OnOk result (out.new ≡ joined (made_count recipe.now)
        (λ i. symbol_bytes (wide / 2)
        (λ j. made_symbol recipe.now rows.now width i (first + j)))) }
{
    let columns = Columns { rows, width, first };
    match *recipe {
        Recipe::ByWeights(basis, targets) => {
            fill_by_weights(alloc, out, basis, columns, targets, wide)
        }
        Recipe::Transformed(k, m) => {
            fill_transformed(alloc, out, usize::from(k), usize::from(m), columns, wide)
        }
    }
}

// Writes the rows of all targets, by what each given row counts for in each: `wide` bytes of each,
// from the first column on.
fn fill_by_weights(
    alloc: Global,
    out: &mut [u8],
    basis: &Basis,
    columns: Columns,
    targets: &[u16],
    wide: usize,
) -> Result<(), AllocError>
    requires rows { length columns.rows.now ≡ length basis.now * columns.width }
    requires columns { 2 * columns.first + wide ≤ columns.width }
    requires even { wide % 2 ≡ 0 }
    requires out { length out.old ≡ length targets.now * wide }
    ensures count { length out.new ≡ length out.old }
    ensures rows { OnOk result (out.new ≡ joined (length targets.now)
        (λ i. symbol_bytes (wide / 2)
        (λ j. symbol_through basis.now columns.entry.rows.now columns.entry.width
        (slice_index targets.now i) (columns.entry.first + j)))) }
{
    for group in 0..targets.len().div_ceil(8) {
        fill_group(alloc, out, basis, columns, targets, 8 * group, wide)?;
    }
    Ok(())
}

// Writes the rows of the next eight targets, or of those that are left: `wide` bytes of each, from
// the first column on.
fn fill_group(
    alloc: Global,
    out: &mut [u8],
    basis: &Basis,
    columns: Columns,
    targets: &[u16],
    done: usize,
    wide: usize,
) -> Result<(), AllocError>
    requires rows { length columns.rows.now ≡ length basis.now * columns.width }
    requires columns { 2 * columns.first + wide ≤ columns.width }
    requires even { wide % 2 ≡ 0 }
    requires out { length out.old ≡ length targets.now * wide }
    requires done { done < length targets.now }
    ensures count { length out.new ≡ length out.old }
    ensures before { (i j : ℕ) → i < done → j < wide / 2
        → symbol out.new wide i j ≡ symbol out.old wide i j }
    ensures bytes { OnOk result ((i : ℕ) → slice_index out.new i < 256) }
    ensures group { OnOk result ((i j : ℕ) → done ≤ i → i < done + 8 → i < length targets.now
        → j < wide / 2 →
        symbol out.new wide i j ≡ symbol_through basis.now columns.entry.rows.now
        columns.entry.width (slice_index targets.now i) (columns.entry.first + j)) }
{
    let lanes = (targets.len() - done).min(8);
    let factors = basis.coefficients(alloc, &next_eight(targets, done))?;
    let total = wide / 2;
    for block in 0..total.div_ceil(BLOCK) {
        let start = BLOCK * block;
        let count = (total - start).min(BLOCK);
        let area = Area {
            wide,
            done,
            lanes,
            start,
            count,
        };
        fill_area(alloc, out, &factors, columns, area)?;
    }
    Ok(())
}

// Writes the sums of the rows' symbols, each times its factor in the lane: those of as many columns
// behind the first as the area's stand in its rows.
fn fill_area(
    alloc: Global,
    out: &mut [u8],
    factors: &[Eight],
    columns: Columns,
    area: Area,
) -> Result<(), AllocError>
    requires rows { length columns.rows.now ≡ length factors.now * columns.width }
    requires columns { 2 * (columns.first + area.start + area.count) ≤ columns.width }
    requires own { 2 * (area.start + area.count) ≤ area.wide }
    requires out { (area.done + area.lanes) * area.wide ≤ length out.old }
    requires lanes { area.lanes ≤ 8 }
    requires fits { area.done + area.lanes < 2 ^ 64 }
    ensures count { length out.new ≡ length out.old }
    ensures others { (i j : ℕ) → 2 * (j + 1) ≤ area.wide
        → (area.done ≤ i → area.start ≤ j → j < area.start + area.count → ⊥) →
        symbol out.new area.wide i j ≡ symbol out.old area.wide i j }
    ensures written { OnOk result ((l j : ℕ) → l < area.lanes → j < area.count
        → symbol out.new area.wide (area.done + l) (area.start + j)
        ≡ sum_below (length factors.now)
        (λ s. times (symbol_in columns.entry s (area.start + j)) (lane factors.now s l))) }
{
    if area.lanes <= 2 {
        return fill_pairs(alloc, out, factors, columns, area);
    }
    fill_eights(alloc, out, factors, columns, area)
}

// The same by tables for eight targets.
fn fill_eights(
    alloc: Global,
    out: &mut [u8],
    factors: &[Eight],
    columns: Columns,
    area: Area,
) -> Result<(), AllocError>
    requires rows { length columns.rows.now ≡ length factors.now * columns.width }
    requires columns { 2 * (columns.first + area.start + area.count) ≤ columns.width }
    requires own { 2 * (area.start + area.count) ≤ area.wide }
    requires out { (area.done + area.lanes) * area.wide ≤ length out.old }
    requires lanes { area.lanes ≤ 8 }
    requires fits { area.done + area.lanes < 2 ^ 64 }
    ensures count { length out.new ≡ length out.old }
    ensures others { (i j : ℕ) → 2 * (j + 1) ≤ area.wide
        → (area.done ≤ i → area.start ≤ j → j < area.start + area.count → ⊥) →
        symbol out.new area.wide i j ≡ symbol out.old area.wide i j }
    ensures written { OnOk result ((l j : ℕ) → l < area.lanes → j < area.count
        → symbol out.new area.wide (area.done + l) (area.start + j)
        ≡ sum_below (length factors.now)
        (λ s. times (symbol_in columns.entry s (area.start + j)) (lane factors.now s l))) }
{
    let first = columns.first + area.start;
    let sums = group_sums(
        alloc,
        factors,
        columns.rows,
        columns.width,
        first,
        area.count,
    )?;
    for place in 0..area.lanes {
        fill_lane(out, area.wide, area.done + place, area.start, &sums, place);
    }
    Ok(())
}

// The same by tables for two targets.
fn fill_pairs(
    alloc: Global,
    out: &mut [u8],
    factors: &[Eight],
    columns: Columns,
    area: Area,
) -> Result<(), AllocError>
    requires rows { length columns.rows.now ≡ length factors.now * columns.width }
    requires columns { 2 * (columns.first + area.start + area.count) ≤ columns.width }
    requires own { 2 * (area.start + area.count) ≤ area.wide }
    requires out { (area.done + area.lanes) * area.wide ≤ length out.old }
    requires lanes { area.lanes ≤ 2 }
    requires fits { area.done + area.lanes < 2 ^ 64 }
    ensures count { length out.new ≡ length out.old }
    ensures others { (i j : ℕ) → 2 * (j + 1) ≤ area.wide
        → (area.done ≤ i → area.start ≤ j → j < area.start + area.count → ⊥) →
        symbol out.new area.wide i j ≡ symbol out.old area.wide i j }
    ensures written { OnOk result ((l j : ℕ) → l < area.lanes → j < area.count
        → symbol out.new area.wide (area.done + l) (area.start + j)
        ≡ sum_below (length factors.now)
        (λ s. times (symbol_in columns.entry s (area.start + j)) (lane factors.now s l))) }
{
    let first = columns.first + area.start;
    let sums = pair_sums(
        alloc,
        factors,
        columns.rows,
        columns.width,
        first,
        area.count,
    )?;
    for place in 0..area.lanes {
        fill_pair_lane(out, area.wide, area.done + place, area.start, &sums, place);
    }
    Ok(())
}
