//! Tests of scripts whose lanes run on threads of their own.

use cw_base::{Gate, MemorySink, MemorySource, NoGate, Sequential, SumHasher};
use cw_types::{ChainBlock, Context, Payload, genesis_commitment};
use hailstorm::{Report, World, lanes_program};
use std::alloc::Global;
use std::sync::Wait;
use std::sync::atomic::{AtomicU64, Ordering};
use std::test::Fail;
use std::thread;
use std::thread::Threads;

// Holds lane 0 until lane 1 arrives, for so many turns; counts who came, and how often lane 0 found
// lane 1 there.
#[derive(Drop)]
struct Door {
    open: AtomicU64,
    came: AtomicU64,
    passed: AtomicU64,
}

impl Gate for Door {
    fn arrive(&self, piece: usize) {
        self.came.fetch_add(1, Ordering::SeqCst);
        if piece == 1 {
            self.open.store(1, Ordering::SeqCst);
        }
        if piece == 0 {
            for _ in 0..10_000_000u64 {
                if self.open.load(Ordering::SeqCst) == 1 {
                    self.passed.fetch_add(1, Ordering::SeqCst);
                    return;
                }
                thread::yield_now();
            }
        }
    }
}

const TWO: &[u8] = b"cluster 4 3\nlane\ntimeout 0 1\nlane\ntimeout 1 1\n";

// The same lines in two orders, without lanes.
const FIRST_BEFORE: &[u8] = b"cluster 4 3\ntimeout 0 1\ntimeout 1 1\n";

const SECOND_BEFORE: &[u8] = b"cluster 4 3\ntimeout 1 1\ntimeout 0 1\n";

// Whether the steps are those of a plain script, under these numbers.
fn are_steps(report: &Report<SumHasher>, plain: &Report<SumHasher>, lines: &[u64]) -> bool {
    let steps = report.steps.as_slice();
    let others = plain.steps.as_slice();
    if steps.len() != others.len() || steps.len() != lines.len() {
        return false;
    }
    for (index, step) in steps.iter().enumerate() {
        let Some(other) = others.get(index) else {
            return false;
        };
        if lines.get(index) != Some(&step.line)
            || step.member != other.member
            || step.sent != other.sent
        {
            return false;
        }
    }
    true
}

// Whether two runs did and left the same, the second under other numbers of lines.
fn is_same_run(report: &Report<SumHasher>, plain: &Report<SumHasher>, lines: &[u64]) -> bool {
    are_steps(report, plain, lines)
        && report.opening == plain.opening
        && report.acked == plain.acked
        && report.disks == plain.disks
}

// Whether a report is that of the plain script in which the lanes have that order.
fn is_run_in<R: Threads + Sync>(
    rt: &R,
    alloc: Global,
    order: &[u64],
    report: &Report<SumHasher>,
) -> Result<bool, Fail> {
    let (plain, lines) = match order {
        [0, 1] => (FIRST_BEFORE, [3u64, 5]),
        [1, 0] => (SECOND_BEFORE, [5u64, 3]),
        _ => return Err("each lane once".into()),
    };
    match World::run::<SumHasher, _, _>(rt, alloc, plain, &Sequential) {
        Ok(other) => Ok(is_same_run(report, &other, &lines)),
        Err(_) => Err("a plain report".into()),
    }
}

// Whether two lanes behind a gate are played as the plain script in the order that is told.
fn two_lanes<R: Threads + Wait + Sync>(rt: &R, alloc: Global, door: &Door) -> Result<bool, Fail> {
    match World::run_lanes::<SumHasher, _, _, _>(rt, alloc, TWO, &Sequential, door) {
        Ok((order, report)) => is_run_in(rt, alloc, order.as_slice(), &report),
        Err(_) => Err("a report".into()),
    }
}

// Lane 0 waits at the gate until lane 1 is there.
#[test]
fn two_lanes_run_beside_each_other_and_have_their_turns_in_one_order(
    rt: HostRuntime,
) -> Result<(), Fail> {
    let door = Door {
        open: AtomicU64::new(0),
        came: AtomicU64::new(0),
        passed: AtomicU64::new(0),
    };
    assert!(rt; two_lanes(&rt, rt.alloc(), &door)?);
    assert_eq!(rt; door.came.load(Ordering::SeqCst), 2);
    assert_eq!(rt; door.passed.load(Ordering::SeqCst), 1);
    Ok(())
}

// The status of the program over these words and this text, and what it wrote.
fn ended<R: Threads + Wait + Sync>(
    rt: &R,
    alloc: Global,
    words: &[String],
    text: &str,
) -> Result<(u8, String), Fail> {
    let bytes = text.as_bytes().to_vec(alloc)?;
    let mut input = MemorySource::new(bytes, 4096, Vec::new(alloc));
    let mut output = MemorySink::new(alloc, 4096, Vec::new(alloc))?;
    let exit = lanes_program::<SumHasher, _, _, _, _, _>(
        rt,
        alloc,
        words,
        &mut input,
        &mut output,
        &Sequential,
        &NoGate,
    );
    Ok((
        exit.status(),
        String::from_utf8_lossy(alloc, output.bytes())?,
    ))
}

// The encoding of the block of view 1 over genesis with that payload.
fn first_block(alloc: Global, payload: [u8; 2]) -> Result<Vec<u8>, Fail> {
    let genesis = genesis_commitment::<SumHasher>();
    let Ok(payload) = Payload::new(payload.to_vec(alloc)?) else {
        return Err("a short payload".into());
    };
    let context = Context {
        epoch: 0,
        view: 1,
        leader: 1,
        parent_view: 0,
        parent: genesis,
    };
    let mut bytes = Vec::new(alloc);
    ChainBlock::new(context, genesis.block, 1, payload).write(&mut bytes)?;
    Ok(bytes)
}

// In a lane the last line meets the clash, and before all lanes none has a turn.
#[test]
fn a_clash_is_told_behind_the_lanes_that_had_a_turn(rt: HostRuntime) -> Result<(), Fail> {
    let alloc = rt.alloc();
    let earlier = hex::encode(alloc, &first_block(alloc, [1, 2])?)?;
    let later = hex::encode(alloc, &first_block(alloc, [2, 1])?)?;
    let front = "cluster 4 3
faulty 1 offer 1 0102
faulty 1 offer 1 0201
deliver 0 0
deliver 1 0
deliver 7 2
";
    for (lines, order) in [
        ("lane\ndeliver 6 2\n", "order 0"),
        ("deliver 6 2\nlane\n", "order"),
    ] {
        let script = format!(in alloc; "{front}{lines}")?;
        let want = format!(in alloc; "{order}\nerror 6 HashClash {earlier} {later}\n")?;
        let (status, text) = ended(&rt, alloc, &[], &script)?;
        assert_eq!(rt; (status, &text), (4, &want));
    }
    Ok(())
}

#[test]
fn words_are_answered_by_the_usage(rt: HostRuntime) -> Result<(), Fail> {
    let alloc = rt.alloc();
    let word = String::from_str(alloc, "storm")?;
    let (status, text) = ended(&rt, alloc, &[word], "")?;
    assert_eq!(rt; (status, text.as_str()), (2, "usage: hail_lanes\n"));
    Ok(())
}

// The header is line 1, so lane 65 begins in line 66, and the line behind the header is line 2.
#[test]
fn lanes_are_one_to_sixty_four(rt: HostRuntime) -> Result<(), Fail> {
    let alloc = rt.alloc();
    for (count, status, want) in [
        (0u64, 3, "error 1 Syntax 2\n"),
        (65, 3, "error 1 Syntax 66\n"),
    ] {
        let mut script = String::from_str(alloc, "cluster 4 3\n")?;
        for _ in 0..count {
            script.push_str("lane\n")?;
        }
        let (got, text) = ended(&rt, alloc, &[], &script)?;
        assert_eq!(rt; (got, text.as_str()), (status, want), "at {count}");
    }
    Ok(())
}
