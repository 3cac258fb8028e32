//! The program: from the bytes that come in to the bytes that go out.

ghost use Rattle.std.specs.Prelude.{◌≡◌, ℕ, None, Some, IfOk, map, string_bytes};
ghost use Rattle.cw_base.specs.Causes.{Rose};
ghost use Rattle.cw_rules.specs.declared.travel.Travel.TheVariants as travel;
ghost use Rattle.hail_report.specs.Answers.{AnswersSource};
ghost use Rattle.hail_report.specs.Exits.{Finishes, IfDone};
ghost use Rattle.hail_world.specs.Headline.{TellsRun};
ghost use Rattle.hail_world.specs.OneChain.{IsOneChain};
ghost use Rattle.hail_world.specs.Programs.{IsMade};
ghost use Rattle.hail_world.specs.Reports.{shown_report};
ghost use Rattle.run_archive.specs.Program as spec;
ghost use Rattle.run_archive.specs.Program.{IsDone, usage_line};

use crate::filling::filled;
use crate::text::archive_text;
use cw_archive::Archive;
use cw_base::{Digest32, Hasher, NoMemory, Sink, Source, Strategy};
use hail_report::{Early, Exit, finish};
use hail_script::number_of;
use hail_world::{Made, Ran, Report, end_made, run_source};
use node::Chunked;
use std::alloc::Global;
use std::thread::Threads;

const USAGE: &[u8] = b"usage: hail_archive\n";

/// Reads a script to its end, runs it, and puts the chunk of each shard message that was sent into
/// an archive of as many shard bytes as the one word says, in the order in which they were sent.
/// Writes which links above genesis the archive gives back, and how many bytes it holds. All text
/// is made before the first byte is written. The words are those after the program's name.
pub fn archive_program<
    H: Hasher<Digest = Digest32>,
    R: Threads + Sync,
    I: Source,
    O: Sink,
    S: Strategy,
>(
    rt: &R,
    alloc: Global,
    words: &[String],
    input: &mut I,
    output: &mut O,
    strategy: &S,
) -> Exit<(Report<H, Chunked>, Archive<H>)>
    // All that the report's honest members hand out lies on one chain.
    ensures one_chain { IfDone result (λ done. IsOneChain H.digest_of done.0) }

    // With other words than one number nothing is read, and the usage is written.
    ensures usage { spec.limit_of (map string_bytes words.now) ≡ None
        → (input.new ≡ input.old)
        × Finishes (O.held output.old) (O.held output.new) (O.faults output.old)
        (O.faults output.new) usage_line Exit.Usage result }

    // With a limit each answer is that of the bytes that were read, and the text that is due for it
    // was written.
    ensures answer { (limit : ℕ) → spec.limit_of (map string_bytes words.now) ≡ Some limit
        → AnswersSource (TellsRun travel.Chunked H.digest_of (IsDone H.digest_of limit))
        (I.left input.old) (I.left input.new) (O.held output.old) (O.held output.new) result }

    // A fault is told only where the source or the sink has failed in this call.
    ensures read_fault { result ≡ Exit.ReadFault
        → Rose (I.faults input.old) (I.faults input.new) }
    ensures write_fault { result ≡ Exit.WriteFault
        → Rose (O.faults output.old) (O.faults output.new) }
{
    let Some(limit) = limit_of(words) else {
        return finish(output, USAGE, Exit::Usage);
    };
    let made = made_of_source::<H, R, I, S>(rt, alloc, limit, input, strategy);
    end_made(alloc, output, made)
}

// The limit, where the one word is a number.
fn limit_of(words: &[String]) -> Option<u64>
    ensures { result ≡ spec.limit_of (map string_bytes words.now) }
{
    match words {
        [word] => number_of(word.as_bytes()),
        _ => None,
    }
}

// Reads a script, runs it, and fills an archive of that limit with what the run sent.
fn made_of_source<H: Hasher<Digest = Digest32>, R: Threads + Sync, I: Source, S: Strategy>(
    rt: &R,
    alloc: Global,
    limit: u64,
    input: &mut I,
    strategy: &S,
) -> Result<Made<(Report<H, Chunked>, Archive<H>)>, Early>
    ensures { IsMade travel.Chunked H.digest_of (IsDone H.digest_of limit) (I.left input.old)
        (I.left input.new) (I.faults input.old) (I.faults input.new) result }
{
    match run_source::<H, Chunked, R, I, S>(rt, alloc, input, strategy) {
        Ok(ran) => match archive_told::<H, R, S>(rt, alloc, limit, &ran, strategy) {
            Ok((archive, text)) => Ok(Made {
                done: (ran.report, archive),
                text,
            }),
            Err(NoMemory) => Err(Early::NoMemory),
        },
        Err(early) => Err(early),
    }
}

// The archive that what a run sent fills, and the text of what it gives back of the run's chain.
fn archive_told<H: Hasher<Digest = Digest32>, R: Threads + Sync, S: Strategy>(
    rt: &R,
    alloc: Global,
    limit: u64,
    ran: &Ran<H, Chunked>,
    strategy: &S,
) -> Result<(Archive<H>, Vec<u8>), NoMemory>
    ensures archive { IfOk result
        (λ told. told.0 ≡ spec.filled H.digest_of limit (shown_report ran.now.report)) }
    ensures text { IfOk result (λ told. told.1.items
        ≡ spec.archive_text H.digest_of ran.now.script.committees told.0 ran.now.report.chain) }
{
    let archive = filled::<H, R, S>(rt, alloc, limit, &ran.report, strategy)?;
    let committees = ran.script.committees(alloc)?;
    let chain = ran.report.chain.as_slice();
    let text = archive_text::<H, R, S>(rt, alloc, &committees, &archive, chain, strategy)?;
    Ok((archive, text))
}
