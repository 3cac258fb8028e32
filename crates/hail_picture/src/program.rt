//! The program: from the bytes of a script to the picture of its run.

ghost use Rattle.std.specs.Prelude.{◌≡◌, ◌≢◌, length};
ghost use Rattle.cw_base.specs.Causes.{Rose};
ghost use Rattle.cw_rules.specs.declared.travel.Travel.TheVariants as travel;
ghost use Rattle.hail_report.specs.Answers.{AnswersSource};
ghost use Rattle.hail_report.specs.Exits.{Finishes, IfDone};
ghost use Rattle.hail_world.specs.Headline.{TellsRun};
ghost use Rattle.hail_world.specs.OneChain.{IsOneChain};
ghost use Rattle.hail_world.specs.Programs.{IsMade};
ghost use Rattle.hail_picture.specs.Drawing.{IsDrawn, usage_line};

use crate::drawing::picture_of;
use cw_base::{Digest32, Hasher, NoMemory, Sink, Source, Strategy};
use hail_report::{Early, Exit, finish};
use hail_world::{Made, Report, end_made, run_source};
use node::Chunked;
use std::alloc::Global;
use std::thread::Threads;

const USAGE: &[u8] = b"usage: hail_picture\n";

/// Reads a script to its end, runs it, and writes the picture of its run: a row for each line, a
/// lane for each member, an arrow for each message that a line brings. It takes no words. All text
/// is made before the first byte is written.
pub fn picture_program<
    H: Hasher<Digest = Digest32>,
    R: Threads + Sync,
    I: Source,
    O: Sink,
    S: Strategy,
>(
    rt: &R,
    alloc: Global,
    words: &[String],
    input: &mut I,
    output: &mut O,
    strategy: &S,
) -> Exit<Report<H, Chunked>>
    // All that the report's honest members hand out lies on one chain.
    ensures one_chain { IfDone result (λ report. IsOneChain H.digest_of report) }

    // With words nothing is read, and the usage is written.
    ensures usage { length words.now ≢ 0
        → (input.new ≡ input.old)
        × Finishes (O.held output.old) (O.held output.new) (O.faults output.old)
        (O.faults output.new) usage_line Exit.Usage result }

    // Without words each answer is that of the bytes that were read, and the text that is due for
    // it was written.
    ensures answer { length words.now ≡ 0
        → AnswersSource (TellsRun travel.Chunked H.digest_of (IsDrawn H.digest_of))
        (I.left input.old) (I.left input.new) (O.held output.old) (O.held output.new) result }

    // A fault is told only where the source or the sink has failed in this call.
    ensures read_fault { result ≡ Exit.ReadFault
        → Rose (I.faults input.old) (I.faults input.new) }
    ensures write_fault { result ≡ Exit.WriteFault
        → Rose (O.faults output.old) (O.faults output.new) }
{
    if !words.is_empty() {
        return finish(output, USAGE, Exit::Usage);
    }
    let made = made_of_source::<H, R, I, S>(rt, alloc, input, strategy);
    end_made(alloc, output, made)
}

// Reads a script, runs it, and draws the picture of its run.
fn made_of_source<H: Hasher<Digest = Digest32>, R: Threads + Sync, I: Source, S: Strategy>(
    rt: &R,
    alloc: Global,
    input: &mut I,
    strategy: &S,
) -> Result<Made<Report<H, Chunked>>, Early>
    ensures { IsMade travel.Chunked H.digest_of (IsDrawn H.digest_of) (I.left input.old)
        (I.left input.new) (I.faults input.old) (I.faults input.new) result }
{
    match run_source::<H, Chunked, R, I, S>(rt, alloc, input, strategy) {
        Ok(ran) => match picture_of::<H>(alloc, &ran) {
            Ok(text) => Ok(Made {
                done: ran.report,
                text,
            }),
            Err(NoMemory) => Err(Early::NoMemory),
        },
        Err(early) => Err(early),
    }
}
