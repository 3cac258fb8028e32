//! The program: from the bytes that come in to the bytes that go out.

ghost use Rattle.std.specs.Prelude.{◌≡◌, ◌≢◌, ℕ, None, Some, IfOk, map, string_bytes};
ghost use Rattle.cw_base.specs.Causes.{Rose};
ghost use Rattle.cw_rules.specs.declared.travel.Travel.TheVariants as travel;
ghost use Rattle.hail_script.specs.declared.error.RunError.{RunError as Cause};
ghost use Rattle.hail_report.specs.Answers.{Answers, AnswersSource};
ghost use Rattle.hail_report.specs.Exits.{Finishes, IfDone};
ghost use Rattle.hail_report.specs.Storm as spec;
ghost use Rattle.hail_report.specs.Text.{report_text, summary_text as summary_by};
ghost use Rattle.hail_world.specs.Headline.{TellsReport};
ghost use Rattle.hail_world.specs.OneChain.{IsOneChain};
ghost use Rattle.hailstorm.specs.Headline as headline;
ghost use Rattle.hailstorm.specs.Reports.{shown_report};

use crate::world::{Report, World};
use cw_base::{Digest32, Hasher, NoMemory, Sink, Source, Strategy};
use hail_report::{Exit, early_of, end_early, finish, storm_laws, storm_script, summary_of_parts};
use hail_script::number_of;
use hail_world::run_input;
use node::Chunked;
use std::alloc::Global;
use std::thread::Threads;

const USAGE: &[u8] = b"usage: hail_run [storm N]\n";

/// Without words reads a script to its end, runs it, and writes its report; with `storm N` runs the
/// script of that storm and writes a summary. All text is made before the first byte is written.
/// The words are those after the program's name.
pub fn run_program<
    H: Hasher<Digest = Digest32>,
    R: Threads + Sync,
    I: Source,
    O: Sink,
    S: Strategy,
>(
    rt: &R,
    alloc: Global,
    words: &[String],
    input: &mut I,
    output: &mut O,
    strategy: &S,
) -> Exit<Report<H>>
    // All that the report's honest members hand out lies on one chain.
    ensures one_chain { IfDone result (λ report. IsOneChain H.digest_of report) }

    // With other words nothing is read, and the usage is written.
    ensures usage { headline.words_ask (map string_bytes words.now) ≡ None
        → (input.new ≡ input.old)
        × Finishes (O.held output.old) (O.held output.new) (O.faults output.old)
        (O.faults output.new) headline.usage_line Exit.Usage result }

    // Without words each answer is that of the bytes that were read, and the text that is due for
    // it was written.
    ensures answer { headline.words_ask (map string_bytes words.now) ≡ Some None
        → AnswersSource (TellsReport travel.Chunked H.digest_of (report_text H.digest_of))
        (I.left input.old) (I.left input.new) (O.held output.old) (O.held output.new) result }

    // Under `storm N` nothing is read. Each answer is that of the storm's script, and the summary
    // or the line that is due for it was written.
    ensures storm { (number : ℕ)
        → headline.words_ask (map string_bytes words.now) ≡ Some (Some number)
        → (input.new ≡ input.old)
        × Answers (TellsReport travel.Chunked H.digest_of (summary_by H.digest_of number)
        (spec.storm_script number)) (O.held output.old) (O.held output.new) result }

    // Under `storm N` the run is done or ends in a clash, unless the sink fails or memory is short.
    ensures storm_runs { (number : ℕ)
        → headline.words_ask (map string_bytes words.now) ≡ Some (Some number)
        → (result ≢ Exit.ReadFault) × ((cause : Cause) → result ≢ Exit.Refused cause) }

    // A fault is told only where the source or the sink has failed in this call.
    ensures read_fault { result ≡ Exit.ReadFault
        → Rose (I.faults input.old) (I.faults input.new) }
    ensures write_fault { result ≡ Exit.WriteFault
        → Rose (O.faults output.old) (O.faults output.new) }
{
    storm_laws();
    match asked_of(words) {
        None => finish(output, USAGE, Exit::Usage),
        Some(None) => run_input::<H, Chunked, R, I, O, S>(rt, alloc, input, output, strategy),
        Some(Some(number)) => run_storm(rt, alloc, number, output, strategy),
    }
}

// What the words ask for: none, a script that is read; `storm` and a number, that storm.
fn asked_of(words: &[String]) -> Option<Option<u64>>
    ensures { result ≡ headline.words_ask (map string_bytes words.now) }
{
    match words {
        [] => Some(None),
        [word, field] => asked_storm(word.as_bytes(), field.as_bytes()),
        _ => None,
    }
}

fn asked_storm(word: &[u8], field: &[u8]) -> Option<Option<u64>>
    ensures { result ≡ headline.asked_storm word.now field.now }
{
    if word != b"storm".as_slice() {
        return None;
    }
    let number = number_of(field)?;
    Some(Some(number))
}

// Runs the script of a storm, and writes a summary.
fn run_storm<H: Hasher<Digest = Digest32>, R: Threads + Sync, O: Sink, S: Strategy>(
    rt: &R,
    alloc: Global,
    number: u64,
    output: &mut O,
    strategy: &S,
) -> Exit<Report<H>>
    ensures answer { Answers (TellsReport travel.Chunked H.digest_of
        (summary_by H.digest_of number) (spec.storm_script number)) (O.held output.old)
        (O.held output.new) result }
    ensures read_fault { result ≢ Exit.ReadFault }
    ensures write_fault { result ≡ Exit.WriteFault
        → Rose (O.faults output.old) (O.faults output.new) }
{
    let Ok(script) = storm_script(alloc, number) else {
        return Exit::NoMemory;
    };
    match World::run::<H, R, S>(rt, alloc, &script, strategy) {
        Ok(report) => match summary_text::<H>(alloc, number, &report) {
            Ok(text) => finish(output, &text, Exit::Done(report)),
            Err(NoMemory) => Exit::NoMemory,
        },
        Err(error) => end_early(alloc, output, early_of(error)),
    }
}

// The summary of a report.
fn summary_text<H: Hasher<Digest = Digest32>>(
    alloc: Global,
    number: u64,
    report: &Report<H>,
) -> Result<Vec<u8>, NoMemory>
    ensures { IfOk result
        (λ text. text.items ≡ summary_by H.digest_of number (shown_report report.now)) }
{
    summary_of_parts::<H>(
        alloc,
        number,
        report.opening.as_slice(),
        report.steps.as_slice(),
        report.chain.as_slice(),
    )
}
