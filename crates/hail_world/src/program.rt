//! The program without words: from the bytes that come in to the bytes that go out.

ghost use Rattle.std.specs.Prelude.{◌≡◌};
ghost use Rattle.cw_base.specs.Causes.{Rose};
ghost use Rattle.hail_report.specs.Answers.{AnswersSource};
ghost use Rattle.hail_report.specs.Exits.{IfDone};
ghost use Rattle.hail_report.specs.Text as spec;
ghost use Rattle.hail_world.specs.Headline.{IsRunOf, TellsReport};
ghost use Rattle.hail_world.specs.OneChain.{IsOneChain};
ghost use Rattle.hail_world.specs.Programs.{IsMade};

use crate::frame::{Made, end_made, run_source};
use crate::report::{Report, report_text};
use cw_base::{Digest32, Hasher, NoMemory, Sink, Source, Strategy};
use hail_report::{Early, Exit};
use node::Way;
use std::alloc::Global;
use std::thread::Threads;

/// Reads a script to its end, runs it, and writes its report, or why there is none. All text is
/// made before the first byte is written.
pub fn run_input<
    H: Hasher<Digest = Digest32>,
    W: Way,
    R: Threads + Sync,
    I: Source,
    O: Sink,
    S: Strategy,
>(rt: &R, alloc: Global, input: &mut I, output: &mut O, strategy: &S) -> Exit<Report<H, W>>
    // All that the report's honest members hand out lies on one chain.
    ensures one_chain { IfDone result (λ report. IsOneChain H.digest_of report) }

    // Each answer is that of the bytes that were read, and the text that is due for it was written.
    ensures answer { AnswersSource
        (TellsReport W.travel H.digest_of (spec.report_text H.digest_of)) (I.left input.old)
        (I.left input.new) (O.held output.old) (O.held output.new) result }

    // A fault is told only where the source or the sink has failed in this call.
    ensures read_fault { result ≡ Exit.ReadFault
        → Rose (I.faults input.old) (I.faults input.new) }
    ensures write_fault { result ≡ Exit.WriteFault
        → Rose (O.faults output.old) (O.faults output.new) }
{
    let made = made_of_source::<H, W, R, I, S>(rt, alloc, input, strategy);
    end_made(alloc, output, made)
}

// Reads a script, runs it, and makes the text of its report.
fn made_of_source<H: Hasher<Digest = Digest32>, W: Way, R: Threads + Sync, I: Source, S: Strategy>(
    rt: &R,
    alloc: Global,
    input: &mut I,
    strategy: &S,
) -> Result<Made<Report<H, W>>, Early>
    ensures { IsMade W.travel H.digest_of
        (IsRunOf W.travel H.digest_of (spec.report_text H.digest_of)) (I.left input.old)
        (I.left input.new) (I.faults input.old) (I.faults input.new) result }
{
    match run_source::<H, W, R, I, S>(rt, alloc, input, strategy) {
        Ok(ran) => match report_text::<H, W>(alloc, &ran.report) {
            Ok(text) => Ok(Made {
                done: ran.report,
                text,
            }),
            Err(NoMemory) => Err(Early::NoMemory),
        },
        Err(early) => Err(early),
    }
}
