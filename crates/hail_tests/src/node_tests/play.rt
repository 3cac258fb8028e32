//! Tables of what happens to a member, each with what it answers, played one call after another.
//!
//! A line `== NAME` begins a table. The next line has the scene and, behind a colon, a task with
//! three numbers: which member it is given to, which of the fronts the member plays before, and how
//! many lines of that. Each further line is a call with its answer, or what the task tells.

use super::blocks::Scene;
use super::copies::first_uncopied;
use super::member::Member;
use crate::tables::{Call, call_and_answer, call_in, two};
use node::Way;
use std::alloc::Global;
use std::fmt::Debug;
use std::test::Fail;
use std::thread::Threads;

/// Runs that members play before, with what they answer.
pub(crate) type Fronts<'a> = [&'a str; 4];

/// What a new member of a scene answers otherwise than a table tells; nothing where it answers all
/// so. It plays so many lines of a front before, which it is to answer as the front tells.
pub(crate) fn wrong_in<W: Way, R: Threads + Sync>(
    rt: &R,
    alloc: Global,
    scene: &Scene<W>,
    fronts: &Fronts,
    (head, lines): (&str, &str),
) -> Result<String, Fail> {
    let task = call_in(head)?;
    let (id, front, count) = task.numbers;
    let front = front_at(fronts, front)?;
    match task.name {
        // Plays the lines behind the front.
        "play" => played(rt, alloc, scene, id, (front, count as usize), lines),
        // Each event of the front comes twice, and does nothing the second time.
        "twice" => repeated(rt, alloc, scene, id, front),
        // Each event, answer, message and note of the front is copied.
        "copy" => copied(rt, alloc, scene, id, front),
        // Behind the front the finalize vote of member 1 comes, with a stop.
        "stop" => stopped(rt, alloc, scene, id, (front, count as usize), lines),
        _ => Err("a task".into()),
    }
}

fn front_at<'a>(fronts: &Fronts<'a>, number: u64) -> Result<&'a str, Fail> {
    match fronts.get(number as usize) {
        Some(front) => Ok(*front),
        None => Err("a front".into()),
    }
}

// A table, and how many of its lines are played.
type Front<'a> = (&'a str, usize);

fn played<W: Way, R: Threads + Sync>(
    rt: &R,
    alloc: Global,
    scene: &Scene<W>,
    id: u64,
    before: Front,
    lines: &str,
) -> Result<String, Fail> {
    let mut member = Member::new(rt, alloc, scene, (id % 65536) as u16)?;
    let wrong = both_wrong(rt, alloc, scene, &mut member, before, lines);
    drop(member);
    wrong
}

// What the member answers otherwise than the front and the lines tell.
fn both_wrong<W: Way, R: Threads + Sync>(
    rt: &R,
    alloc: Global,
    scene: &Scene<W>,
    member: &mut Member<W>,
    before: Front,
    lines: &str,
) -> Result<String, Fail> {
    let wrong = first_wrong(rt, alloc, scene, member, before)?;
    if !wrong.is_empty() {
        return Ok(wrong);
    }
    first_wrong(rt, alloc, scene, member, (lines, usize::MAX))
}

// The first call that the member answers otherwise, with that answer; nothing where it answers all
// so.
fn first_wrong<W: Way, R: Threads + Sync>(
    rt: &R,
    alloc: Global,
    scene: &Scene<W>,
    member: &mut Member<W>,
    (table, count): Front,
) -> Result<String, Fail> {
    for line in table.lines().take(count) {
        let (call, want) = call_and_answer(line)?;
        let said = member.answer(rt, alloc, scene, call)?;
        if said.as_str() != want {
            return told(alloc, line, said);
        }
    }
    Ok(String::new(alloc))
}

// A line, and what was answered in place of what it tells.
fn told<D: Debug + Drop>(alloc: Global, line: &str, said: D) -> Result<String, Fail> {
    Ok(format!(in alloc; "{line} is answered by {said:?}")?)
}

fn repeated<W: Way, R: Threads + Sync>(
    rt: &R,
    alloc: Global,
    scene: &Scene<W>,
    id: u64,
    front: &str,
) -> Result<String, Fail> {
    let mut member = Member::new(rt, alloc, scene, (id % 65536) as u16)?;
    let place = first_changed(rt, alloc, scene, &mut member, front);
    drop(member);
    told_at(alloc, front, place?)
}

fn copied<W: Way, R: Threads + Sync>(
    rt: &R,
    alloc: Global,
    scene: &Scene<W>,
    id: u64,
    front: &str,
) -> Result<String, Fail> {
    let mut member = Member::new(rt, alloc, scene, (id % 65536) as u16)?;
    let place = first_uncopied(rt, alloc, scene, &mut member, front);
    drop(member);
    told_at(alloc, front, place?)
}

// The line at a place.
fn told_at(alloc: Global, table: &str, place: Option<usize>) -> Result<String, Fail> {
    match place {
        Some(place) => told(alloc, table, place),
        None => Ok(String::new(alloc)),
    }
}

// The place of the first event at which the member does something else where each comes twice; none
// where it never does.
fn first_changed<W: Way, R: Threads + Sync>(
    rt: &R,
    alloc: Global,
    scene: &Scene<W>,
    member: &mut Member<W>,
    table: &str,
) -> Result<Option<usize>, Fail> {
    for (place, line) in table.lines().enumerate() {
        let (call, want) = call_and_answer(line)?;
        if !is_idle_again(rt, alloc, scene, member, call, want)? {
            return Ok(Some(place));
        }
    }
    Ok(None)
}

// Whether an event that comes twice is answered so the first time, and the second time by nothing
// and with no note.
fn is_idle_again<W: Way, R: Threads + Sync>(
    rt: &R,
    alloc: Global,
    scene: &Scene<W>,
    member: &mut Member<W>,
    call: Call,
    want: &str,
) -> Result<bool, Fail> {
    let said = member.answer(rt, alloc, scene, call)?;
    if said.as_str() != want || call.name == "notes" {
        return Ok(said.as_str() == want);
    }
    let notes = member.notes();
    let again = member.answer(rt, alloc, scene, call)?;
    Ok(again.is_empty() && member.notes() == notes)
}

// How many bytes of a write reach the disk, and what fills the rest.
const STOPS: [(u64, u64); 9] = [
    (0, 0),
    (0, 1),
    (0, 255),
    (1, 0),
    (1, 1),
    (1, 255),
    (2, 0),
    (2, 1),
    (2, 255),
];

// Each line tells a device call, and how many notes a start of the member finds where it is stopped
// there: of each stop.
fn stopped<W: Way, R: Threads + Sync>(
    rt: &R,
    alloc: Global,
    scene: &Scene<W>,
    id: u64,
    before: Front,
    lines: &str,
) -> Result<String, Fail> {
    for line in lines.lines() {
        let (call, want) = two(line, ": ")?;
        let found = found_after(rt, alloc, scene, id, before, call.parse::<u64>()?)?;
        if found.as_str() != want {
            return told(alloc, line, found);
        }
    }
    Ok(String::new(alloc))
}

// How many notes a start finds behind the stopped vote: of each stop.
fn found_after<W: Way, R: Threads + Sync>(
    rt: &R,
    alloc: Global,
    scene: &Scene<W>,
    id: u64,
    before: Front,
    device_call: u64,
) -> Result<String, Fail> {
    let mut found = String::new(alloc);
    for (cut, fill) in STOPS {
        let stop = Call {
            name: "stop_at",
            numbers: (device_call, cut, fill),
        };
        write!(found, "{}", found_with(rt, alloc, scene, id, before, stop)?)?;
    }
    Ok(found)
}

fn found_with<W: Way, R: Threads + Sync>(
    rt: &R,
    alloc: Global,
    scene: &Scene<W>,
    id: u64,
    before: Front,
    stop: Call,
) -> Result<usize, Fail> {
    let mut member = Member::new(rt, alloc, scene, (id % 65536) as u16)?;
    let found = found_by(rt, alloc, scene, &mut member, before, stop);
    drop(member);
    found
}

// How many notes a start finds where the member has played a front, and the stopped vote came.
fn found_by<W: Way, R: Threads + Sync>(
    rt: &R,
    alloc: Global,
    scene: &Scene<W>,
    member: &mut Member<W>,
    before: Front,
    stop: Call,
) -> Result<usize, Fail> {
    if !first_wrong(rt, alloc, scene, member, before)?.is_empty() {
        return Err("the answers of the front".into());
    }
    member.answer(rt, alloc, scene, stop)?;
    member.answer(rt, alloc, scene, call_in("finalize 1 1 1")?)?;
    member.answer(rt, alloc, scene, call_in("restart")?)?;
    Ok(member.notes())
}
