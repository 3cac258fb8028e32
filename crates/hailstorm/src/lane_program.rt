//! The lanes program: from the bytes that come in to the bytes that go out.

ghost use Rattle.std.specs.Prelude.{◌≡◌, ◌≢◌, ◌++◌, [], List, ℕ, IfOk, OnOk, flat_map};
ghost use Rattle.std.specs.Prelude.{string_bytes};
ghost use Rattle.cw_base.specs.Causes.{Rose};
ghost use Rattle.hail_report.specs.Answers.{Answers, AnswersSource};
ghost use Rattle.hail_report.specs.Exits.{Finishes, IfDone};
ghost use Rattle.hail_world.specs.OneChain.{IsOneChain};
ghost use Rattle.hailstorm.specs.Lanes.{IsLanesCause};
ghost use Rattle.hailstorm.specs.LanesProgram as spec;
ghost use Rattle.hailstorm.specs.LanesProgram.{TellsLanes};

use crate::text::report_text;
use crate::world::{Report, World};
use cw_base::{Digest32, Gate, Hasher, Items, NoMemory, Sink, Source, Strategy};
use hail_report::{Early, Exit, Reading, clash_text, early_of, end_early, finish, read_script};
use hail_script::RunError;
use std::alloc::Global;
use std::sync::Wait;
use std::thread::Threads;

const USAGE: &[u8] = b"usage: hail_lanes\n";

/// Reads a script with lanes to its end, runs it, and writes the order in which the lanes had their
/// turns, and its report. All text is made before the first byte is written. The words are those
/// after the program's name, and there are to be none.
pub fn lanes_program<
    H: Hasher<Digest = Digest32>,
    R: Threads + Wait + Sync,
    I: Source,
    O: Sink,
    S: Strategy,
    G: Gate,
>(
    rt: &R,
    alloc: Global,
    words: &[String],
    input: &mut I,
    output: &mut O,
    strategy: &S,
    gate: &G,
) -> Exit<(Items<u64>, Report<H>)>
    // All that the report's honest members hand out lies on one chain.
    ensures one_chain { IfDone result (λ done. IsOneChain H.digest_of done.1) }

    // With words nothing is read, and the usage is written.
    ensures usage { words.now ≢ []
        → (input.new ≡ input.old)
        × Finishes (O.held output.old) (O.held output.new) (O.faults output.old)
        (O.faults output.new) spec.lanes_usage_line Exit.Usage result }

    // Without words each answer is that of the bytes that were read, and the text that is due for
    // it was written.
    ensures answer { words.now ≡ []
        → AnswersSource (TellsLanes H.digest_of) (I.left input.old) (I.left input.new)
        (O.held output.old) (O.held output.new) result }

    // A fault is told only where the source or the sink has failed in this call.
    ensures read_fault { result ≡ Exit.ReadFault
        → Rose (I.faults input.old) (I.faults input.new) }
    ensures write_fault { result ≡ Exit.WriteFault
        → Rose (O.faults output.old) (O.faults output.new) }
{
    if !words.is_empty() {
        return finish(output, USAGE, Exit::Usage);
    }
    match read_script(alloc, input) {
        Reading::Whole(text) => run_whole(rt, alloc, &text, output, strategy, gate),
        Reading::TooLong => end_early(alloc, output, Early::TooLong),
        Reading::Fault => end_early(alloc, output, Early::ReadFault),
        Reading::NoMemory => end_early(alloc, output, Early::NoMemory),
    }
}

// Runs a script, and writes what comes of it.
fn run_whole<H: Hasher<Digest = Digest32>, R: Threads + Wait + Sync, O: Sink, S: Strategy, G: Gate>(
    rt: &R,
    alloc: Global,
    text: &[u8],
    output: &mut O,
    strategy: &S,
    gate: &G,
) -> Exit<(Items<u64>, Report<H>)>
    ensures answer { Answers (TellsLanes H.digest_of text.now) (O.held output.old)
        (O.held output.new) result }
    ensures read_fault { result ≢ Exit.ReadFault }
    ensures write_fault { result ≡ Exit.WriteFault
        → Rose (O.faults output.old) (O.faults output.new) }
{
    match World::run_lanes::<H, R, S, G>(rt, alloc, text, strategy, gate) {
        Ok((order, report)) => match lanes_text::<H>(alloc, order.as_slice(), &report) {
            Ok(text) => finish(output, &text, Exit::Done((order, report))),
            Err(NoMemory) => Exit::NoMemory,
        },
        Err((order, error)) => end_with::<H, O>(alloc, output, order.as_slice(), error),
    }
}

// Writes why there is no report, and ends so.
fn end_with<H: Hasher<Digest = Digest32>, O: Sink>(
    alloc: Global,
    output: &mut O,
    order: &[u64],
    error: RunError,
) -> Exit<(Items<u64>, Report<H>)>
    ensures answer { (text : List ℕ) → IsLanesCause H.digest_of text order.now error
        → Answers (TellsLanes H.digest_of text) (O.held output.old) (O.held output.new) result }
    ensures read_fault { result ≢ Exit.ReadFault }
    ensures write_fault { result ≡ Exit.WriteFault
        → Rose (O.faults output.old) (O.faults output.new) }
{
    match error {
        RunError::HashClash(earlier, later) => {
            match clash_lines(alloc, order, earlier.as_slice(), later.as_slice()) {
                Ok(text) => finish(output, &text, Exit::Clash(earlier, later)),
                Err(NoMemory) => Exit::NoMemory,
            }
        }
        other => end_early(alloc, output, early_of(other)),
    }
}

// `order`, and each lane behind one space.
fn order_text(alloc: Global, order: &[u64]) -> Result<String, NoMemory>
    ensures { IfOk result (λ text. string_bytes text ≡ spec.order_line order.now) }
{
    let mut out = String::new(alloc);
    write!(out, "order")?;
    put_lanes(&mut out, order)?;
    write!(out, "\n")?;
    Ok(out)
}

fn put_lanes(out: &mut String, lanes: &[u64]) -> Result<(), NoMemory>
    ensures { OnOk result
        (string_bytes out.new ≡ string_bytes out.old ++ flat_map spec.lane_word lanes.now) }
{
    for lane in lanes {
        put_lane(out, *lane)?;
    }
    Ok(())
}

#[tactic(auto, unfolding(crate::specs::LanesProgram::lane_word))]
fn put_lane(out: &mut String, lane: u64) -> Result<(), NoMemory>
    ensures { OnOk result (string_bytes out.new ≡ string_bytes out.old ++ spec.lane_word lane) }
{
    write!(out, " {lane}")?;
    Ok(())
}

// The order, and the text of a report.
fn lanes_text<H: Hasher<Digest = Digest32>>(
    alloc: Global,
    order: &[u64],
    report: &Report<H>,
) -> Result<Vec<u8>, NoMemory>
    ensures { IfOk result (λ text. text.items ≡ spec.lanes_text H.digest_of order.now report.now) }
{
    let mut text = order_text(alloc, order)?.into_bytes();
    let rest = report_text::<H>(alloc, report)?;
    text.extend_from_slice(&rest)?;
    Ok(text)
}

// The order, and the line of a clash.
fn clash_lines(
    alloc: Global,
    order: &[u64],
    earlier: &[u8],
    later: &[u8],
) -> Result<Vec<u8>, NoMemory>
    ensures { IfOk result (λ text. text.items ≡ spec.clash_lines order.now earlier.now later.now) }
{
    let mut text = order_text(alloc, order)?.into_bytes();
    let rest = clash_text(alloc, earlier, later)?;
    text.extend_from_slice(&rest)?;
    Ok(text)
}
