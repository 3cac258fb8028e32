//! Stripes of rows that were done beside each other, put where the rows stay.

ghost use Rattle.std.specs.Prelude.{◌≡◌, ℕ, ◌<◌, ◌≤◌, ◌+◌, ◌-◌, ◌*◌, ◌/◌, ◌%◌, ◌^◌};
ghost use Rattle.std.specs.Prelude.{length, map, IfOk, Vec, Ok};
ghost use Rattle.std.specs.declared.alloc.Global.{Global};
ghost use Rattle.rs_code.specs.Rows.{joined};
ghost use Rattle.rs_code.specs.Stripes.{HaveRows, row_of_stripes};

use crate::stripes::stripe_part;
use cw_base::NoMemory;
use std::alloc::{AllocError, Global};
use std::thread;
use std::thread::Threads;

/// The pieces of work that were done, where none lacks memory.
pub(crate) fn all_done(
    alloc: Global,
    pieces: Vec<Result<Vec<u8>, AllocError>>,
) -> Result<Vec<Vec<u8>>, NoMemory>
    ensures { IfOk result (λ done. map Ok done.items ≡ pieces.items) }
{
    let mut done = Vec::with_capacity(alloc, pieces.len())?;
    for piece in pieces {
        done.push(piece?)?;
    }
    Ok(done)
}

/// Writes the rows whose stripes were done, on as many threads as there are stripes: each thread
/// writes a group of rows.
pub(crate) fn put_rows<R: Threads + Sync>(
    rt: &R,
    stripes: &[Vec<u8>],
    width: usize,
    count: usize,
    out: &mut [u8],
)
    requires some { 1 ≤ length stripes.now }
    requires wide { 1 ≤ width }
    requires out { length out.old ≡ count * width }
    requires rows { HaveRows width count stripes.now }
    ensures { (d : Vec ℕ Global) → out.new ≡ joined count (row_of_stripes width stripes.now d) }
{
    let each = count.div_ceil(stripes.len()).max(1);
    let put = |start: usize, group: &mut [u8]|
        requires { (1 ≤ length stripes.now) × (1 ≤ width) × (length group.now % width ≡ 0)
            × (start / width + length group.now / width < 2 ^ 64)
            × HaveRows width (start / width + length group.now / width) stripes.now }
        ensures { (d : Vec ℕ Global) → group.exit.now ≡ joined (length group.entry.now / width)
            (λ i. row_of_stripes width stripes.entry.now d (start / width + i)) }
    { put_group(group, stripes, width, start / width) };
    thread::for_each_chunk_mut(rt, out, each * width, &put);
}

// Writes the rows of a group, the first of which is row `first`.
fn put_group(group: &mut [u8], stripes: &[Vec<u8>], width: usize, first: usize)
    requires some { 1 ≤ length stripes.now }
    requires wide { 1 ≤ width }
    requires whole { length group.old % width ≡ 0 }
    requires fits { first + length group.old / width < 2 ^ 64 }
    requires rows { HaveRows width (first + length group.old / width) stripes.now }
    ensures { (d : Vec ℕ Global) → group.new ≡ joined (length group.old / width)
        (λ i. row_of_stripes width stripes.now d (first + i)) }
{
    for place in 0..group.len() / width {
        let start = place * width;
        put_row(
            &mut group[start..start + width],
            stripes,
            width,
            first + place,
        );
    }
}

// Writes one row: its part of each stripe.
fn put_row(out: &mut [u8], stripes: &[Vec<u8>], width: usize, place: usize)
    requires some { 1 ≤ length stripes.now }
    requires out { length out.old ≡ width }
    requires rows { HaveRows width (place + 1) stripes.now }
    ensures { (d : Vec ℕ Global) → out.new ≡ row_of_stripes width stripes.now d place }
{
    for index in 0..stripes.len() {
        let (first, wide) = stripe_part(width, stripes.len(), index);
        out[first..first + wide].copy_from_slice(&stripes[index][place * wide..][..wide]);
    }
}
