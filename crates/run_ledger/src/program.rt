//! The program: from the bytes of a script to the balances of each honest member.

ghost use Rattle.std.specs.Prelude.{◌≡◌, ◌≢◌, IfOk, List, length, ℕ};
ghost use Rattle.cw_base.specs.Causes.{Rose};
ghost use Rattle.cw_rules.specs.declared.travel.Travel.TheVariants as travel;
ghost use Rattle.hail_report.specs.Answers.{AnswersSource};
ghost use Rattle.hail_report.specs.Exits.{Finishes, IfDone};
ghost use Rattle.hail_world.specs.Headline.{TellsRun};
ghost use Rattle.hail_world.specs.OneChain.{IsOneChain};
ghost use Rattle.hail_world.specs.Programs.{IsMade};
ghost use Rattle.hail_world.specs.Reports.{IsReport};
ghost use Rattle.run_ledger.specs.Ledgers.{AreDone};
ghost use Rattle.run_ledger.specs.Text.{usage_line};

use crate::giving::replicas_of;
use crate::text::ledger_text;
use cw_base::{Digest32, Hasher, Items, NoMemory, Sink, Source, Strategy};
use cw_ledger::Replica;
use hail_report::{Early, Exit, finish};
use hail_world::{Made, Report, end_made, run_source};
use node::Chunked;
use node_disk::MemoryDisk;
use std::alloc::Global;
use std::thread::Threads;

const USAGE: &[u8] = b"usage: hail_ledger\n";

/// Reads a script to its end and runs it, gives each honest member's replica the block of the chain
/// at each height that was handed out to the member, in the report's order, and writes what the
/// replicas came to, by member. It takes no words. All text is made before the first byte is
/// written.
pub fn ledger_program<
    H: Hasher<Digest = Digest32>,
    R: Threads + Sync,
    I: Source,
    O: Sink,
    S: Strategy,
>(
    rt: &R,
    alloc: Global,
    words: &[String],
    input: &mut I,
    output: &mut O,
    strategy: &S,
) -> Exit<(Report<H, Chunked>, Items<Replica<MemoryDisk>>)>
    // All that the report's honest members hand out lies on one chain.
    ensures one_chain { IfDone result (λ done. IsOneChain H.digest_of done.0) }

    // With words nothing is read, and the usage is written.
    ensures usage { length words.now ≢ 0
        → (input.new ≡ input.old)
        × Finishes (O.held output.old) (O.held output.new) (O.faults output.old)
        (O.faults output.new) usage_line Exit.Usage result }

    // Without words each answer is that of the bytes that were read, and the text that is due for
    // it was written.
    ensures answer { length words.now ≡ 0
        → AnswersSource (TellsRun travel.Chunked H.digest_of (AreDone H.digest_of))
        (I.left input.old) (I.left input.new) (O.held output.old) (O.held output.new) result }

    // A fault is told only where the source or the sink has failed in this call.
    ensures read_fault { result ≡ Exit.ReadFault
        → Rose (I.faults input.old) (I.faults input.new) }
    ensures write_fault { result ≡ Exit.WriteFault
        → Rose (O.faults output.old) (O.faults output.new) }
{
    if !words.is_empty() {
        return finish(output, USAGE, Exit::Usage);
    }
    let made = made_of_source::<H, R, I, S>(rt, alloc, input, strategy);
    end_made(alloc, output, made)
}

// Reads a script, runs it, and gives the replicas their blocks.
fn made_of_source<H: Hasher<Digest = Digest32>, R: Threads + Sync, I: Source, S: Strategy>(
    rt: &R,
    alloc: Global,
    input: &mut I,
    strategy: &S,
) -> Result<Made<(Report<H, Chunked>, Items<Replica<MemoryDisk>>)>, Early>
    ensures { IsMade travel.Chunked H.digest_of (AreDone H.digest_of) (I.left input.old)
        (I.left input.new) (I.faults input.old) (I.faults input.new) result }
{
    match run_source::<H, Chunked, R, I, S>(rt, alloc, input, strategy) {
        Ok(ran) => match replicas_told::<H>(alloc, &ran.report) {
            Ok((replicas, text)) => Ok(Made {
                done: (ran.report, replicas),
                text,
            }),
            Err(NoMemory) => Err(Early::NoMemory),
        },
        Err(early) => Err(early),
    }
}

// The replicas of a run, and the text of what they came to.
fn replicas_told<H: Hasher<Digest = Digest32>>(
    alloc: Global,
    report: &Report<H, Chunked>,
) -> Result<(Items<Replica<MemoryDisk>>, Vec<u8>), NoMemory>
    ensures { (text : List ℕ) → IsReport travel.Chunked H.digest_of text report.now
        → IfOk result (λ told. AreDone H.digest_of text (report.now, told.0) told.1.items) }
{
    let replicas = replicas_of::<H>(alloc, report)?;
    let text = ledger_text(alloc, report.acked.as_slice(), replicas.as_slice())?;
    Ok((replicas, text))
}
