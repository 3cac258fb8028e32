//! Tests of a member's process: the lines of its host, its answers, and how it ends.

ghost use Rattle.std.specs.Prelude.{◌≤◌};

use cw_base::{MemorySink, MemorySource, Sequential, Sha256};
use member_session::{End, member_program};
use std::alloc::Global;
use std::test::Fail;
use std::thread::Threads;

// Runs the program with these words, apart from each other by a space, on a text.
fn told<R: Threads + Sync>(
    rt: &R,
    alloc: Global,
    words: &str,
    text: &str,
    failing: (u64, u64),
) -> Result<(End, String), Fail> {
    let mut given = Vec::new(alloc);
    for word in words.split_whitespace() {
        given.push(String::from_str(alloc, word)?)?;
    }
    let reads = vec![in alloc; failing.0]?;
    let mut source = MemorySource::new(text.as_bytes().to_vec(alloc)?, 1000, reads);
    let mut sink = MemorySink::new(alloc, 1000, vec![in alloc; failing.1]?)?;
    sink.reserve(262_144)?;
    let end = member_program::<Sha256, _, _, _, _>(
        rt,
        alloc,
        &given,
        &mut source,
        &mut sink,
        &Sequential,
    );
    let told = str::from_utf8(sink.bytes()).map_err(|_| Fail::from("text"))?;
    Ok((end, String::from_str(alloc, told)?))
}

// Of each line of an answer the first two fields, and of a place and a height's block all of it
// that is short; an answer a line.
fn shortened(alloc: Global, told: &str) -> Result<String, Fail> {
    let mut text = String::new(alloc);
    for line in told.lines() {
        let mut fields = line.split(' ');
        text.push_str(fields.next().ok_or("a word")?)?;
        if let Some(field) = fields.next() {
            text.push(' ')?;
            text.push_str(field)?;
        }
        let ends = line == "ok" || line.starts_with("no ");
        text.push_str(if ends { "\n" } else { ", " })?;
    }
    Ok(text)
}

// The lines of a host, each with what is answered.
const TALK: &str = "start = no TooEarly
disk 00 = no TooEarly
view = no TooEarly
ack = no TooEarly
deliver = no Syntax
members 0 1 2 3 = no Syntax
cluster 3 1 = no BadCommittee
cluster 1 1 = no BadCommittee
epochs 4 3 10 0 = no Syntax
epochs 4 3 10 2 = ok
members 0 1 2 3 = ok
members 3 2 = no Syntax
members 0 1 2 = no BadCommittee
members 0 1 2 4 = no UnknownMember
start = no TooEarly
members 0 1 2 3 = ok
cluster 4 3 = no Syntax
view = no TooEarly
timeout 1 = no TooEarly
disk 01 = ok
disk 00 = ok
start = no Foreign
start = no Foreign
";

// The same of a member that starts.
const WORK: &str = "cluster 4 3 = ok
disk - = ok
start = sync, write 0, sync, hand 0, view 0, ok
start = no TooLate
disk 00 = no TooLate
cluster 4 3 = no Syntax
view = view 0, ok
at 0 = block 0, ok
at 1 = no NoBlock
final 0 = no NoBlock
names 00 = names, ok
names 010001010000000000000001 = names 010000000000000001, ok
block 0000000000000000000000000000000000000000000000000000000000000000 = no NoBlock
watch 0000000000000000000000000000000000000000000000000000000000000000 = told 0, ok
cancel 0 = ok
timeout 1 = write 1, sync, write 0, sync, send all, ok
timeout 1 = ok
propose 6869 = ok
floor 00 = no NoFinalization
ack = write 20, sync, write 19, sync, ok
hint 2 = send all, ok
prune 1 = ok
deliver 00 = ok
";

fn talks<R: Threads + Sync>(rt: &R, alloc: Global, words: &str, rows: &str) -> Result<bool, Fail> {
    let mut lines = String::new(alloc);
    let mut wanted = String::new(alloc);
    for row in rows.lines() {
        let (line, want) = row.split_once(" = ").ok_or("a line and its answer")?;
        write!(lines, "{line}\n")?;
        write!(wanted, "{want}\n")?;
    }
    let (end, out) = told(rt, alloc, words, &lines, (0, 0))?;
    Ok(end == End::Done && shortened(alloc, &out)? == wanted)
}

#[test]
fn lines_before_the_start_are_done_or_refused(rt: HostRuntime) -> Result<(), Fail> {
    assert!(rt; talks(&rt, rt.alloc(), "1", TALK)?);
    Ok(())
}

#[test]
fn lines_behind_it_are_answered(rt: HostRuntime) -> Result<(), Fail> {
    assert!(rt; talks(&rt, rt.alloc(), "2", WORK)?);
    assert!(rt; talks(&rt, rt.alloc(), "2 whole", WORK)?);
    Ok(())
}

// Words, lines apart from each other by a `/`, the call of the source and that of the sink that
// fail, 0 for none; and the status with what was written.
const ENDS: &str = "1,,0,0 = 0
1,foo/,0,0 = 0 no Syntax/
1,foo,0,0 = 0 no Syntax/
1,foo//view,0,0 = 0 no Syntax/no Syntax/no TooEarly/
1,foo/view,2,0 = 5 no Syntax/
1,foo/view/,2,0 = 5 no Syntax/no TooEarly/
1,foo/view/,1,0 = 5
1,foo/view/,0,1 = 6
1,foo/view/,2,1 = 6
1,foo/view/,0,2 = 6 no Syntax/
4,cluster 4 1/,0,0 = 0 no UnknownMember/
65535,cluster 4 1/,0,0 = 0 no UnknownMember/
3 whole,epochs 4 1 9 1/cluster 4 1,0,0 = 0 no Syntax/ok/
65536,foo/,0,0 = 2 usage: hail_member M [whole]/
-1,foo/,0,0 = 2 usage: hail_member M [whole]/
1 chunked,foo/,0,0 = 2 usage: hail_member M [whole]/
1 whole 1,foo/,0,0 = 2 usage: hail_member M [whole]/
,foo/,0,0 = 2 usage: hail_member M [whole]/
,foo/,0,1 = 6
";

// What a row of ends tells.
fn end_of<R: Threads + Sync>(rt: &R, alloc: Global, row: &str) -> Result<String, Fail> {
    let mut fields = row.split(',');
    let words = fields.next().ok_or("words")?;
    let text = fields.next().ok_or("lines")?.replace(alloc, "/", "\n")?;
    let reading = fields
        .next()
        .ok_or("a call")?
        .parse::<u64>()
        .map_err(|_| Fail::from("a call"))?;
    let writing = fields
        .next()
        .ok_or("a call")?
        .parse::<u64>()
        .map_err(|_| Fail::from("a call"))?;
    let (end, out) = told(rt, alloc, words, &text, (reading, writing))?;
    let out = out.replace(alloc, "\n", "/")?;
    let status = end.status();
    Ok(if out.is_empty() {
        format!(in alloc; "{status}")?
    } else {
        format!(in alloc; "{status} {out}")?
    })
}

#[test]
fn each_end_has_its_cause(rt: HostRuntime) -> Result<(), Fail> {
    for row in ENDS.lines() {
        let (given, want) = row.split_once(" = ").ok_or("a row and its end")?;
        let told = end_of(&rt, rt.alloc(), given)?;
        assert_eq!(rt; told.as_str(), want);
    }
    Ok(())
}

// A line of one byte more than a line may have is refused, and the next one is read behind it.
#[test]
fn a_line_that_is_too_long_is_passed_over(rt: HostRuntime) -> Result<(), Fail> {
    let alloc = rt.alloc();
    let mut text = vec![in alloc; b'a'; 4_194_304]?;
    text.push(b'\n')?;
    text.resize(8_388_610, b'b')?;
    text.extend_from_slice(b"\nview\n")?;
    let mut source = MemorySource::new(text, 1_000_000, Vec::new(alloc));
    let mut sink = MemorySink::new(alloc, 1000, Vec::new(alloc))?;
    let words = vec![in alloc; String::from_str(alloc, "1")?]?;
    let end = member_program::<Sha256, _, _, _, _>(
        &rt,
        alloc,
        &words,
        &mut source,
        &mut sink,
        &Sequential,
    );
    assert!(rt; end == End::Done);
    assert_eq!(rt;
        sink.bytes(),
        b"no Syntax\nno TooLong\nno TooEarly\n".as_slice()
    );
    Ok(())
}
