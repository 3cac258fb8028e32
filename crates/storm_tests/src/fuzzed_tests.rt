//! Tests of messages that are changed on their way, as a fuzzer would.

use crate::cases::{Case, cases, two};
use crate::runs::{Ended, run};
use crate::tables::WORKED;
use cw_base::SumHasher;
use cw_types::Message;
use hailstorm::Entry;
use std::alloc::Global;
use std::test::Fail;
use std::thread::Threads;

// How the run ends, changed messages or not.
const END: &str = "live acked none notes 5
member 1 live acked none notes 6
member 2 live acked none notes 6
chain 0 0202020202020202020202020202020202020202020202020202020202020202
chain 1 d8d8d8d8d8d8d8d8d8d8d8d8d8d8d8d8d8d8d8d8d8d8d8d8d8d8d8d8d8d8d8d8
done 352
";

// 17 messages come in four forms each, to four members each. Two of the run's own twelve lines do
// nothing, and none of the deliveries does anything.
#[test]
fn changed_messages_change_nothing(rt: HostRuntime) -> Result<(), Fail> {
    let alloc = rt.alloc();
    let script = third_script(alloc)?;
    let script = changed(&rt, alloc, &script)?;
    let (empty, end) = idle_and_end(&rt, alloc, &script)?;
    assert_eq!(rt; (empty, end.as_str()), (274, END));
    Ok(())
}

// A script, and lines by which each message of its run comes in each form.
fn changed<R: Threads + Sync>(rt: &R, alloc: Global, script: &str) -> Result<String, Fail> {
    let clean = run(rt, alloc, script)?;
    fuzzed(alloc, script, &clean)
}

// In how many entries of a script's run nothing was sent or handed out, and how its text ends.
fn idle_and_end<R: Threads + Sync>(
    rt: &R,
    alloc: Global,
    script: &str,
) -> Result<(u64, String), Fail> {
    let ended = run(rt, alloc, script)?;
    empty_and_end(alloc, &ended)
}

fn empty_and_end(alloc: Global, ended: &Ended<SumHasher>) -> Result<(u64, String), Fail> {
    let (_, end) = two(&ended.text, "member 0 ")?;
    Ok((empty_ones(ended)?, String::from_str(alloc, end)?))
}

// The script of the run in which a block is handed out.
fn third_script(alloc: Global) -> Result<String, Fail> {
    let cases = cases(alloc, WORKED)?;
    script_of(alloc, cases.get(2))
}

fn script_of(alloc: Global, case: Option<&Case>) -> Result<String, Fail> {
    match case {
        Some(case) => Ok(String::from_str(alloc, case.script)?),
        None => Err("a third run".into()),
    }
}

// In how many entries nothing was sent or handed out.
fn empty_ones(ended: &Ended<SumHasher>) -> Result<u64, Fail> {
    let mut count = 0u64;
    for entry in ended.report()?.steps.as_slice() {
        if entry.sent.is_empty() && entry.handed.is_empty() {
            count = count.saturating_add(1);
        }
    }
    Ok(count)
}

// A script, lines by which a faulty member sends each message of its run in each form, and lines
// that deliver these.
fn fuzzed(alloc: Global, script: &str, ended: &Ended<SumHasher>) -> Result<String, Fail> {
    let mut lines = String::from_str(alloc, script)?;
    for entry in ended.report()?.steps.as_slice() {
        put_entry(alloc, &mut lines, entry)?;
    }
    for place in 0..272u64 {
        let number = 17 + place / 4;
        let member = place % 4;
        put_line(
            &mut lines,
            &format!(in alloc; "deliver {number} {member}\n")?,
        )?;
    }
    Ok(lines)
}

fn put_line(lines: &mut String, line: &str) -> Result<(), Fail> {
    lines.push_str(line)?;
    Ok(())
}

fn put_entry(alloc: Global, lines: &mut String, entry: &Entry) -> Result<(), Fail> {
    for sent in entry.sent.as_slice() {
        put_forms(alloc, lines, &sent.message)?;
    }
    Ok(())
}

// A message with another tag, with another last byte, with a byte cut off, and with a byte added.
// None is a message that a member takes.
fn put_forms(alloc: Global, lines: &mut String, message: &Message) -> Result<(), Fail> {
    let mut bytes = Vec::new(alloc);
    message.write(&mut bytes)?;
    if let Some((tag, rest)) = bytes.split_first() {
        put_raw(alloc, lines, &[*tag ^ 128], rest)?;
    }
    if let Some((last, front)) = bytes.split_last() {
        put_raw(alloc, lines, front, &[*last ^ 4])?;
        put_raw(alloc, lines, front, &[])?;
    }
    put_raw(alloc, lines, &bytes, &[0])
}

// The line by which a faulty member sends these bytes.
fn put_raw(alloc: Global, lines: &mut String, front: &[u8], back: &[u8]) -> Result<(), Fail> {
    let front = hex::encode(alloc, front)?;
    let back = hex::encode(alloc, back)?;
    put_line(lines, &format!(in alloc; "faulty 3 raw {front}{back}\n")?)
}
