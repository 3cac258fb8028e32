//! Tests of mailboxes of a counter.

ghost use Rattle.std.specs.Prelude.{◌≡◌, ◌+◌, ◌%◌, ◌^◌, Some};

use cw_base::{Gate, NoMemory};
use mailbox::{CloseError, Mailbox, Session, Turn, TurnAlone};
use std::alloc::Global;
use std::marker::Brand;
use std::sync::Wait;
use std::sync::atomic::{AtomicU64, Ordering};
use std::sync::ledger::Blank;
use std::test::*;
use std::thread;
use std::thread::Threads;

// A number that events are added to.
#[derive(Drop)]
struct Counter {
    value: u64,
}

impl Turn for Counter {
    type Event = u64;

    type Reply = u64;

    ghost turns = { λ old event reply new. (new.value ≡ (old.value + event) % 2 ^ 64)
        × (reply ≡ new.value) };

    fn copy(_alloc: Global, event: &u64) -> Result<u64, NoMemory> {
        Ok(*event)
    }
}

impl TurnAlone for Counter {
    fn turn(&mut self, _alloc: Global, event: &u64) -> (u64, u64) {
        self.value = self.value.wrapping_add(*event);
        (self.value, self.value)
    }
}

// Holds lane 0 until lane 1 arrives, for so many turns; counts who came, and how often lane 0 found
// lane 1 there.
#[derive(Drop)]
struct Door {
    open: AtomicU64,
    came: AtomicU64,
    passed: AtomicU64,
}

impl Gate for Door {
    fn arrive(&self, piece: usize) {
        self.came.fetch_add(1, Ordering::SeqCst);
        if piece == 1 {
            self.open.store(1, Ordering::SeqCst);
        }
        if piece == 0 {
            for _ in 0..10_000_000u64 {
                if self.open.load(Ordering::SeqCst) == 1 {
                    self.passed.fetch_add(1, Ordering::SeqCst);
                    return;
                }
                thread::yield_now();
            }
        }
    }
}

// Passes the gate, and steps twice.
fn lane<G: Gate, L: Session<Counter>, R: Wait>(
    rt: &R,
    gate: &G,
    number: usize,
    alloc: Global,
    mailbox: Mailbox<Counter, L>,
    event: u64,
) -> Mailbox<Counter, L> {
    let mut mailbox = mailbox;
    gate.arrive(number);
    let _ = mailbox.step(rt, alloc, event);
    let _ = mailbox.step(rt, alloc, event);
    mailbox
}

// Two lanes on threads of their own, one at 5, one at 7: the sum and the number of entries.
fn two_lanes<G: Gate, L: Session<Counter> + Send + Sync, R: Threads + Wait + Sync>(
    rt: &R,
    gate: &G,
    alloc: Global,
    blank: Blank,
) -> Result<Option<(u64, usize)>, NoMemory>
    requires name { blank.name ≡ L.name }
    requires blank { blank.parts ≡ L.parts }
    requires agreed { L.all ≡ L.parts }
    requires parts { L.all ≡ 2 }
    requires opening { L.opening ≡ Some (record { value = 0 }) }
{
    let mut mailbox: Mailbox<Counter, L> = Mailbox::new(alloc, 2, blank, Counter { value: 0 })?;
    let other = mailbox.split(alloc)?;
    let (mut mailbox, other) = thread::join(
        rt,
        move || lane(rt, gate, 0, alloc, mailbox, 5),
        move || lane(rt, gate, 1, alloc, other, 7),
    );
    if mailbox.join(alloc, other).is_err() {
        return Err(NoMemory);
    }
    Ok(
        mailbox
            .close(rt)
            .ok()
            .map(|(counter, history)| (counter.value, history.len())),
    )
}

// What a close answers before the other mailbox is joined (1 for Open), and the number of entries
// after it.
fn one_left_out<L: Session<Counter>, R: Wait>(
    rt: &R,
    alloc: Global,
    blank: Blank,
) -> Result<(u64, usize), NoMemory>
    requires name { blank.name ≡ L.name }
    requires blank { blank.parts ≡ L.parts }
    requires agreed { L.all ≡ L.parts }
    requires parts { L.all ≡ 2 }
    requires opening { L.opening ≡ Some (record { value = 0 }) }
{
    let mut mailbox: Mailbox<Counter, L> = Mailbox::new(alloc, 2, blank, Counter { value: 0 })?;
    let other = mailbox.split(alloc)?;
    let _ = mailbox.step(rt, alloc, 3)?;
    let mut mailbox = match mailbox.close(rt) {
        Err(CloseError::Open(mailbox)) => mailbox,
        _ => return Ok((0, 0)),
    };
    if mailbox.join(alloc, other).is_err() {
        return Err(NoMemory);
    }
    match mailbox.close(rt) {
        Ok((_, history)) => Ok((1, history.len())),
        Err(_) => Ok((1, 0)),
    }
}

// What a close that comes too early is told as.
fn open_told<L: Session<Counter>, R: Wait>(
    rt: &R,
    alloc: Global,
    blank: Blank,
) -> Result<String, Fail>
    requires name { blank.name ≡ L.name }
    requires blank { blank.parts ≡ L.parts }
    requires agreed { L.all ≡ L.parts }
    requires parts { L.all ≡ 2 }
    requires opening { L.opening ≡ Some (record { value = 0 }) }
{
    let mut mailbox: Mailbox<Counter, L> = Mailbox::new(alloc, 2, blank, Counter { value: 0 })?;
    let other = mailbox.split(alloc)?;
    let told = match mailbox.close(rt) {
        Err(error) => format!(in alloc; "{error}: {error:?}")?,
        Ok(_) => String::new(alloc),
    };
    drop(other);
    Ok(told)
}

fn told_early<R: Wait>(rt: &R, alloc: Global) -> Result<String, Fail> {
    open_told::<Brand, R>(rt, alloc, Blank::new(2))
}

fn gated<G: Gate, R: Threads + Wait + Sync>(
    rt: &R,
    gate: &G,
    alloc: Global,
) -> Result<Option<(u64, usize)>, NoMemory> {
    two_lanes::<G, Brand, R>(rt, gate, alloc, Blank::new(2))
}

fn left_out<R: Wait>(rt: &R, alloc: Global) -> Result<(u64, usize), NoMemory> {
    one_left_out::<Brand, R>(rt, alloc, Blank::new(2))
}

#[test]
fn lanes_run_beside_each_other(rt: HostRuntime) -> Result<(), Fail> {
    let door = Door {
        open: AtomicU64::new(0),
        came: AtomicU64::new(0),
        passed: AtomicU64::new(0),
    };
    assert_eq!(rt; gated(&rt, &door, rt.alloc())?, Some((24, 4)));
    assert_eq!(rt; door.came.load(Ordering::SeqCst), 2);
    assert_eq!(rt; door.passed.load(Ordering::SeqCst), 1);
    Ok(())
}

#[test]
fn open_until_all_are_joined(rt: HostRuntime) -> Result<(), Fail> {
    assert_eq!(rt; left_out(&rt, rt.alloc())?, (1, 1));
    Ok(())
}

#[test]
fn a_close_tells_what_is_missing(rt: HostRuntime) -> Result<(), Fail> {
    let want = "not all parts of the session are here: Open(1 of 2)";
    assert_eq!(rt; told_early(&rt, rt.alloc())?.as_str(), want);
    Ok(())
}
