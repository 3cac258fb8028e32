//! The program: from the bytes that come in to the bytes that go out.

ghost use Rattle.std.specs.Prelude.{◌≡◌, ◌≢◌, []};
ghost use Rattle.cw_base.specs.Causes.{Rose};
ghost use Rattle.cw_rules.specs.declared.travel.Travel.TheVariants as travel;
ghost use Rattle.hail_report.specs.Answers.{AnswersSource};
ghost use Rattle.hail_report.specs.Exits.{Finishes, IfDone};
ghost use Rattle.hail_report.specs.Text.{report_text};
ghost use Rattle.hail_world.specs.Headline.{TellsReport};
ghost use Rattle.hail_world.specs.OneChain.{IsOneChain};
ghost use Rattle.whole_world.specs.Usage.{whole_usage_line};

use crate::run::Report;
use cw_base::{Digest32, Hasher, Sink, Source, Strategy};
use hail_report::{Exit, finish};
use hail_world::run_input;
use node::Uncut;
use std::alloc::Global;
use std::thread::Threads;

const USAGE: &[u8] = b"usage: hail_whole\n";

/// Reads a script to its end, runs it with blocks that travel whole, and writes its report. All
/// text is made before the first byte is written. The words are those after the program's name, and
/// there are to be none.
pub fn whole_program<
    H: Hasher<Digest = Digest32>,
    R: Threads + Sync,
    I: Source,
    O: Sink,
    S: Strategy,
>(
    rt: &R,
    alloc: Global,
    words: &[String],
    input: &mut I,
    output: &mut O,
    strategy: &S,
) -> Exit<Report<H>>
    // All that the report's honest members hand out lies on one chain.
    ensures one_chain { IfDone result (λ report. IsOneChain H.digest_of report) }

    // With words nothing is read, and the usage is written.
    ensures usage { words.now ≢ []
        → (input.new ≡ input.old)
        × Finishes (O.held output.old) (O.held output.new) (O.faults output.old)
        (O.faults output.new) whole_usage_line Exit.Usage result }

    // Without words each answer is that of the bytes that were read, and the text that is due for
    // it was written.
    ensures answer { words.now ≡ []
        → AnswersSource (TellsReport travel.Uncut H.digest_of (report_text H.digest_of))
        (I.left input.old) (I.left input.new) (O.held output.old) (O.held output.new) result }

    // A fault is told only where the source or the sink has failed in this call.
    ensures read_fault { result ≡ Exit.ReadFault
        → Rose (I.faults input.old) (I.faults input.new) }
    ensures write_fault { result ≡ Exit.WriteFault
        → Rose (O.faults output.old) (O.faults output.new) }
{
    if !words.is_empty() {
        return finish(output, USAGE, Exit::Usage);
    }
    run_input::<H, Uncut, R, I, O, S>(rt, alloc, input, output, strategy)
}
