//! A script whose lanes run beside each other.

ghost use Rattle.std.specs.Prelude.{◌≡◌, ◌-◌, ◌^◌, [], ℕ, List, Ok, Some, IfOk, IfErr, IfSome};
ghost use Rattle.hail_script.specs.Lanes.{laned_of};
ghost use Rattle.hail_world.specs.OneChain.{IsOneChain};
ghost use Rattle.hailstorm.specs.Lanes.{IsLanesCause, IsLanesReport};
ghost use Rattle.hailstorm.specs.Turns.{IsTurnOf};

use crate::reply::Reply;
use crate::turning::Turning;
use crate::world::{Report, World};
use cw_base::{Digest32, Gate, Hasher, Items, NoMemory, Strategy};
use cw_rules::clash_laws;
use cw_rules_coded::ruled_tells;
use hail_script::{LaneScript, RunError, script_laws};
use mailbox::{Mailbox, Session, Turn};
use std::alloc::Global;
use std::marker::Brand;
use std::sync::Wait;
use std::sync::ledger::Blank;
use std::thread;
use std::thread::Threads;

impl<H: Hasher<Digest = Digest32>> Turn for Turning<H> {
    type Event = u64;

    type Reply = Reply;

    ghost turns = { λ old lane reply new. IsTurnOf H.digest_of old lane reply new };

    fn copy(_alloc: Global, lane: &u64) -> Result<u64, NoMemory> {
        Ok(*lane)
    }
}

/// The parts of a session: enough to halve them once for each of 64 lanes.
const PARTS: u64 = u64::MAX;

impl World {
    /// Runs a script with lanes, each lane on a thread of its own over one locked cluster. The
    /// lines before all lanes are played first. Each lane passes the gate with its number, counted
    /// from 0, before its first line, and its lines have their turns in order, whoever comes first.
    ///
    /// The list has the lanes in the order of their turns. With a clash its last turn met that
    /// clash, and where it has none a line before all lanes did; with any other error it has none.
    /// Where no thread or no memory for one is there, the lanes are played one behind the other.
    pub fn run_lanes<H: Hasher<Digest = Digest32>, R: Threads + Wait + Sync, S: Strategy, G: Gate>(
        rt: &R,
        alloc: Global,
        script: &[u8],
        strategy: &S,
        gate: &G,
    ) -> Result<(Items<u64>, Report<H>), (Items<u64>, RunError)>
        // All that its honest members hand out lies on one chain.
        ensures one_chain { IfOk result (λ done. IsOneChain H.digest_of done.1) }

        // The report is that of the script's lines in this order.
        ensures ok { IfOk result (λ done. IsLanesReport H.digest_of script.now done.0 done.1) }
        ensures err { IfErr result (λ done. IsLanesCause H.digest_of script.now done.0 done.1) }
    {
        let opened = match open_text::<H, R, S>(rt, alloc, script, strategy) {
            Ok(opened) => opened,
            Err(error) => return Err((Items::new(alloc), error)),
        };
        match share(rt, alloc, opened, strategy, gate) {
            Some(shared) => end_of(rt, alloc, shared, strategy),
            None => match open_text::<H, R, S>(rt, alloc, script, strategy) {
                Ok(opened) => end_of(rt, alloc, opened, strategy),
                Err(error) => Err((Items::new(alloc), error)),
            },
        }
    }
}

// The cluster of a text's script, before the first turn of a lane.
fn open_text<H: Hasher<Digest = Digest32>, R: Threads + Sync, S: Strategy>(
    rt: &R,
    alloc: Global,
    text: &[u8],
    strategy: &S,
) -> Result<Turning<H>, RunError>
    ensures ok { IfOk result (λ t. laned_of text.now ≡ Ok t.laned) }
    ensures err { IfErr result (λ e. IsLanesCause H.digest_of text.now [] e) }
{
    clash_laws();
    script_laws();
    ruled_tells::<H>();
    let script = match LaneScript::parse(alloc, text) {
        Ok(script) => script,
        Err(error) => return Err(error),
    };
    script.script().is_cluster();
    let _lines = script.script().lines();
    match Turning::open(rt, alloc, script, strategy) {
        Ok(opened) => Ok(opened),
        Err(error) => Err(error),
    }
}

// Plays what is left, one lane behind the other, and ends.
fn end_of<H: Hasher<Digest = Digest32>, R: Threads + Sync, S: Strategy>(
    rt: &R,
    alloc: Global,
    turning: Turning<H>,
    strategy: &S,
) -> Result<(Items<u64>, Report<H>), (Items<u64>, RunError)>
    ensures ok { (text : List ℕ) → laned_of text ≡ Ok turning.laned
        → IfOk result (λ done. IsLanesReport H.digest_of text done.0 done.1) }
    ensures err { (text : List ℕ) → laned_of text ≡ Ok turning.laned
        → IfErr result (λ done. IsLanesCause H.digest_of text done.0 done.1) }
{
    let mut turning = turning;
    'lanes: while let Some(lane) = turning.next_lane() {
        let _ = turning.turn(rt, alloc, lane, strategy);
    }
    turning.end(alloc)
}

// What a lane begins with.
#[derive(Drop)]
struct Job<H: Hasher<Digest = Digest32>, L: Session<Turning<H>>> {
    number: usize,
    lines: usize,
    mailbox: Mailbox<Turning<H>, L>,
}

// Each lane on a thread of its own over one mailbox; or none, where there isn't memory for that.
fn share<H: Hasher<Digest = Digest32>, R: Threads + Wait + Sync, S: Strategy, G: Gate>(
    rt: &R,
    alloc: Global,
    turning: Turning<H>,
    strategy: &S,
    gate: &G,
) -> Option<Turning<H>>
    ensures { IfSome result (λ t. t.laned ≡ turning.laned) }
{
    share_by::<H, R, S, G, Brand>(rt, alloc, Blank::new(PARTS), turning, strategy, gate)
}

fn share_by<
    H: Hasher<Digest = Digest32>,
    R: Threads + Wait + Sync,
    S: Strategy,
    G: Gate,
    L: Session<Turning<H>> + Send + Sync,
>(
    rt: &R,
    alloc: Global,
    blank: Blank,
    turning: Turning<H>,
    strategy: &S,
    gate: &G,
) -> Option<Turning<H>>
    requires name { blank.name ≡ L.name }
    requires blank { blank.parts ≡ L.parts }
    requires agreed { L.all ≡ L.parts }
    requires parts { L.all ≡ 2 ^ 64 - 1 }
    requires opening { L.opening ≡ Some turning }
    ensures { IfSome result (λ t. t.laned ≡ turning.laned) }
{
    let lines = turning.lines_left(alloc).ok()?;
    let mut mailbox = Mailbox::new(alloc, PARTS, blank, turning).ok()?;
    let jobs = jobs_of(alloc, &mut mailbox, &lines)?;
    let done = thread::map_vec(
        rt,
        jobs,
        &|job: Job<H, L>| run_job(rt, alloc, job, strategy, gate),
    )
    .ok()?;
    join_all(alloc, &mut mailbox, done)?;
    match mailbox.close(rt) {
        Ok((turning, _)) => Some(turning),
        Err(_) => None,
    }
}

// A job for each lane, with a part of the mailbox.
fn jobs_of<H: Hasher<Digest = Digest32>, L: Session<Turning<H>>>(
    alloc: Global,
    mailbox: &mut Mailbox<Turning<H>, L>,
    lines: &[usize],
) -> Option<Vec<Job<H, L>>> {
    let mut jobs = Vec::new(alloc);
    for (number, lines) in lines.iter().enumerate() {
        if mailbox.parts() < 2 {
            return None;
        }
        let mailbox = mailbox.split(alloc).ok()?;
        jobs.push(Job {
            number,
            lines: *lines,
            mailbox,
        })
        .ok()?;
    }
    Some(jobs)
}

fn join_all<H: Hasher<Digest = Digest32>, L: Session<Turning<H>>>(
    alloc: Global,
    mailbox: &mut Mailbox<Turning<H>, L>,
    others: Vec<Mailbox<Turning<H>, L>>,
) -> Option<()> {
    for other in others {
        mailbox.join(alloc, other).ok()?;
    }
    Some(())
}

// A turn for each line of a lane, behind the gate.
fn run_job<
    H: Hasher<Digest = Digest32>,
    R: Threads + Wait + Sync,
    S: Strategy,
    G: Gate,
    L: Session<Turning<H>>,
>(rt: &R, alloc: Global, job: Job<H, L>, strategy: &S, gate: &G) -> Mailbox<Turning<H>, L> {
    let Job {
        number,
        lines,
        mut mailbox,
    } = job;
    gate.arrive(number);
    for _line in 0..lines {
        if step(rt, alloc, &mut mailbox, number as u64, strategy).is_err() {
            break;
        }
    }
    mailbox
}

// One turn of a lane, under the lock.
fn step<
    H: Hasher<Digest = Digest32>,
    R: Threads + Wait + Sync,
    S: Strategy,
    L: Session<Turning<H>>,
>(
    rt: &R,
    alloc: Global,
    mailbox: &mut Mailbox<Turning<H>, L>,
    lane: u64,
    strategy: &S,
) -> Result<u64, NoMemory> {
    mailbox.step_by(rt, alloc, lane, |turning, lane| {
        turning.turn(rt, alloc, *lane, strategy)
    })
}
