//! The frame of each program that reads a plain script, runs it, and writes what it makes of the
//! run. That of lanes (`hailstorm`) has its own, since it tells an order beside each answer.
//!
//! A program asks its words, and ends with its usage where they aren't its own. Else it runs its
//! source's script by [`run_source`], makes of the run what it hands back and the text that it
//! writes, or passes on why there is no report, and ends with [`end_made`]. Its own function
//! between the two promises `IsMade` of what done means for it; from that and `EndsMade` the lemmas
//! of `proofs/Framing.antt` give what each of its answers means.

ghost use Rattle.std.specs.Prelude.{IfOk};
ghost use Rattle.hail_world.specs.OneChain.{IsOneChain};
ghost use Rattle.hail_world.specs.Programs.{EndsMade, HasRun};

use crate::report::Ran;
use crate::world::run_text;
use cw_base::{Digest32, Hasher, Sink, Source, Strategy};
use hail_report::{Early, Exit, Reading, early_of, end_early, finish, read_script};
use node::Way;
use std::alloc::Global;
use std::thread::Threads;

/// What a program makes of a run: what it hands back, and the text that it writes.
#[derive(Drop)]
pub struct Made<X> {
    /// What is handed back.
    pub done: X,
    /// What is written.
    pub text: Vec<u8>,
}

/// Reads a script to its end and runs it. Of a source that gives more than 16,777,216 bytes one
/// byte more than these is read.
pub fn run_source<H: Hasher<Digest = Digest32>, W: Way, R: Threads + Sync, I: Source, S: Strategy>(
    rt: &R,
    alloc: Global,
    input: &mut I,
    strategy: &S,
) -> Result<Ran<H, W>, Early>
    // All that its honest members hand out lies on one chain.
    ensures one_chain { IfOk result (λ ran. IsOneChain H.digest_of ran.report) }

    // The bytes that were read spell this script, and this is the report of its run; or they are
    // the cause for which there is none.
    ensures run { HasRun W.travel H.digest_of (I.left input.old) (I.left input.new)
        (I.faults input.old) (I.faults input.new) result }
{
    match read_script(alloc, input) {
        Reading::Whole(text) => match run_text::<H, W, R, S>(rt, alloc, &text, strategy) {
            Ok(ran) => Ok(ran),
            Err(error) => Err(early_of(error)),
        },
        Reading::TooLong => Err(Early::TooLong),
        Reading::Fault => Err(Early::ReadFault),
        Reading::NoMemory => Err(Early::NoMemory),
    }
}

/// Writes what a program made of a script, or why there is no report, and ends so. All text was
/// made before the first byte is written.
pub fn end_made<X: Drop, O: Sink>(
    alloc: Global,
    output: &mut O,
    made: Result<Made<X>, Early>,
) -> Exit<X>
    ensures { EndsMade (O.held output.old) (O.held output.new) (O.faults output.old)
        (O.faults output.new) made result }
{
    match made {
        Ok(Made { done, text }) => finish(output, &text, Exit::Done(done)),
        Err(early) => end_early(alloc, output, early),
    }
}
