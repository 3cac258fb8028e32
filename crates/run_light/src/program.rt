//! The program: from the bytes of a script to the line of what is shown.

ghost use Rattle.std.specs.Prelude.{◌≡◌, ℕ, None, Some, IfOk, map, string_bytes};
ghost use Rattle.cw_base.specs.Causes.{Rose};
ghost use Rattle.cw_rules.specs.declared.travel.Travel.TheVariants as travel;
ghost use Rattle.hail_report.specs.Answers.{AnswersSource};
ghost use Rattle.hail_report.specs.Exits.{Finishes, IfDone};
ghost use Rattle.hail_world.specs.Headline.{TellsRun};
ghost use Rattle.hail_world.specs.OneChain.{IsOneChain};
ghost use Rattle.hail_world.specs.Programs.{IsMade};
ghost use Rattle.hail_world.specs.Reports.{IsRun};
ghost use Rattle.run_light.specs.Telling.{IsToldRun, TellsOf, asked_height, usage_line};

use crate::search::found_in;
use crate::table::Table;
use crate::text::{none_text, yes_text};
use crate::told::told_of;
use cw_base::{Digest32, Hasher, NoMemory, Sink, Source, Strategy};
use hail_report::{Early, Exit, finish};
use hail_script::{Script, number_of, script_laws};
use hail_world::{Made, Ran, Report, end_made, run_source};
use node::Chunked;
use std::alloc::Global;
use std::thread::Threads;

const USAGE: &[u8] = b"usage: hail_light\n";

/// Reads a script to its end and runs it. Then it goes over the honest members by number, and over
/// the finalizations on the disk of each in order, to the first that is valid by the votes which
/// were sent and whose held payload reaches the height by held parents; checks it and the blocks
/// down to that height as a light client would, and writes `yes`, the height and the block's
/// digest. Where there is no such finalization it writes `none`.
///
/// The words are those after the program's name: one, the height in digits, below 2^64.
pub fn light_program<
    H: Hasher<Digest = Digest32>,
    R: Threads + Sync,
    I: Source,
    O: Sink,
    S: Strategy,
>(
    rt: &R,
    alloc: Global,
    words: &[String],
    input: &mut I,
    output: &mut O,
    strategy: &S,
) -> Exit<Report<H, Chunked>>
    // All that the report's honest members hand out lies on one chain.
    ensures one_chain { IfDone result (λ report. IsOneChain H.digest_of report) }

    // With other words nothing is read, and the usage is written.
    ensures usage { asked_height (map string_bytes words.now) ≡ None
        → (input.new ≡ input.old)
        × Finishes (O.held output.old) (O.held output.new) (O.faults output.old)
        (O.faults output.new) usage_line Exit.Usage result }

    // With a height each answer is that of the bytes that were read, and the text that is due for
    // it was written.
    ensures answer { (height : ℕ) → asked_height (map string_bytes words.now) ≡ Some height
        → AnswersSource (TellsRun travel.Chunked H.digest_of (IsToldRun H.digest_of height))
        (I.left input.old) (I.left input.new) (O.held output.old) (O.held output.new) result }

    // A fault is told only where the source or the sink has failed in this call.
    ensures read_fault { result ≡ Exit.ReadFault
        → Rose (I.faults input.old) (I.faults input.new) }
    ensures write_fault { result ≡ Exit.WriteFault
        → Rose (O.faults output.old) (O.faults output.new) }
{
    let Some(height) = height_of(words) else {
        return finish(output, USAGE, Exit::Usage);
    };
    let made = made_of_source::<H, R, I, S>(rt, alloc, height, input, strategy);
    end_made(alloc, output, made)
}

// The height that the words ask for.
fn height_of(words: &[String]) -> Option<u64>
    ensures { result ≡ asked_height (map string_bytes words.now) }
{
    match words {
        [word] => number_of(word.as_bytes()),
        _ => None,
    }
}

// Reads a script, runs it, and makes the line of what is shown of a height.
fn made_of_source<H: Hasher<Digest = Digest32>, R: Threads + Sync, I: Source, S: Strategy>(
    rt: &R,
    alloc: Global,
    height: u64,
    input: &mut I,
    strategy: &S,
) -> Result<Made<Report<H, Chunked>>, Early>
    ensures { IsMade travel.Chunked H.digest_of (IsToldRun H.digest_of height) (I.left input.old)
        (I.left input.new) (I.faults input.old) (I.faults input.new) result }
{
    script_laws();
    match run_source::<H, Chunked, R, I, S>(rt, alloc, input, strategy) {
        Ok(Ran { script, report }) => {
            match light_text::<H, R, S>(rt, alloc, height, &script, &report, strategy) {
                Ok(text) => Ok(Made { done: report, text }),
                Err(NoMemory) => Err(Early::NoMemory),
            }
        }
        Err(early) => Err(early),
    }
}

// The line of what is shown of a height.
fn light_text<H: Hasher<Digest = Digest32>, R: Threads + Sync, S: Strategy>(
    rt: &R,
    alloc: Global,
    height: u64,
    script: &Script,
    report: &Report<H, Chunked>,
    strategy: &S,
) -> Result<Vec<u8>, NoMemory>
    requires run { IsRun H.digest_of script.now report.now }
    requires way { script.now.travel ≡ travel.Chunked }
    ensures { (run : IsRun H.digest_of script.now report.now)
        → IfOk result (λ text. TellsOf H.digest_of height script.now report.now run text.items) }
{
    // of each epoch at most f members are faulty
    script.is_cluster();
    let committees = script.committees(alloc)?;
    let faulty = script.faulty(alloc)?;
    let steps = report.steps.as_slice();
    let disks = report.disks.as_slice();
    let table = Table {
        faulty: &faulty,
        steps,
    };
    let found = found_in::<H, Table>(alloc, &committees, &table, height, disks)?;
    match found {
        None => none_text(alloc),
        Some(shown) => {
            let told = told_of::<H, R, Table, S>(rt, alloc, &committees, &table, &shown, strategy)?;
            yes_text(alloc, told.0, &told.1)
        }
    }
}
