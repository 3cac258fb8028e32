//! Tests of scripts, with and without lanes: which texts are run, and why the others are not.

use hail_script::{LaneScript, RunError, Script};
use std::alloc::Global;
use std::test::Fail;

// Texts, and the first cause for which each isn't run.
const REFUSED: [(&[u8], RunError); 40] = [
    (b"", RunError::Syntax(1)),
    (b"\n", RunError::Syntax(1)),
    (b"cluster 4 0", RunError::Syntax(1)),
    (b"cluster 4  3", RunError::Syntax(1)),
    (b" cluster 4 3", RunError::Syntax(1)),
    (b"cluster 4 3 ", RunError::Syntax(1)),
    (b"cluster 4 18446744073709551616", RunError::Syntax(1)),
    (b"epochs 4 3 0 1\nmembers 0 1 2 3\n", RunError::Syntax(1)),
    (b"epochs 4 3 1 0\n", RunError::Syntax(1)),
    (b"epochs 4 3 1 65\n", RunError::Syntax(1)),
    (b"epochs 4 3 1 1\nmembers\n", RunError::Syntax(2)),
    (b"epochs 4 3 1 1\nmembers 0 2 1 3\n", RunError::Syntax(2)),
    (b"epochs 4 3 1 1\nmembers 0 1 1 2 3\n", RunError::Syntax(2)),
    (b"epochs 4 3 1 2\nmembers 0 1 2 3\n", RunError::Syntax(3)),
    (
        b"epochs 4 3 1 2\nmembers 0 1 2 3\nack 0\n",
        RunError::Syntax(3),
    ),
    (b"cluster 4 3\n\n", RunError::Syntax(2)),
    (b"cluster 4 3\nack 0\n\nack 1\n", RunError::Syntax(3)),
    (b"cluster 4 3\nlane\n", RunError::Syntax(2)),
    (b"cluster 4 3\nack\n", RunError::Syntax(2)),
    (b"cluster 4 3\npropose 1 \n", RunError::Syntax(2)),
    (b"cluster 4 3\npropose 1 6\n", RunError::Syntax(2)),
    (b"cluster 4 3\npropose 1 6g\n", RunError::Syntax(2)),
    (b"cluster 4 3\ntimeout 0 -1\n", RunError::Syntax(2)),
    (b"cluster 4 3\ncut 0 0 0 ack 1\n", RunError::Syntax(2)),
    (b"cluster 4 3\ncut 1 0 256 ack 1\n", RunError::Syntax(2)),
    (b"cluster 4 3\ncut 1 0 0 restart 1\n", RunError::Syntax(2)),
    (
        b"cluster 4 3\ncut 1 0 0 cut 1 0 0 ack 1\n",
        RunError::Syntax(2),
    ),
    (b"cluster 4 3\nfaulty 1\n", RunError::Syntax(2)),
    (b"cluster 4 3\nfaulty 1 raw 0\n", RunError::Syntax(2)),
    (b"cluster 3 1\n", RunError::BadCommittee),
    (b"cluster 65536 1\n", RunError::BadCommittee),
    (b"cluster 3 1\nack 7\nack 0 0\n", RunError::Syntax(3)),
    (b"cluster 3 1\nack 7\n", RunError::BadCommittee),
    (b"epochs 4 3 1 1\nmembers 0 1 2\n", RunError::BadCommittee),
    (
        b"epochs 4 3 1 1\nmembers 0 1 2 4\n",
        RunError::UnknownMember(2),
    ),
    (
        b"epochs 4 3 1 1\nmembers 0 1 2 3\nack 4\n",
        RunError::UnknownMember(3),
    ),
    (b"cluster 4 1\ntimeout 4 1\n", RunError::UnknownMember(2)),
    (
        b"cluster 4 1\nack 0\ncut 1 0 0 ack 4\nrestart 5\n",
        RunError::UnknownMember(3),
    ),
    (
        b"cluster 4 1\nfaulty 0 silent\nfaulty 1 silent\n",
        RunError::TooManyFaulty,
    ),
    (
        b"epochs 5 1 9 2\nmembers 0 1 2 3\nmembers 1 2 3 4\nfaulty 0 silent\nfaulty 4 silent\nfaulty 3 silent\n",
        RunError::TooManyFaulty,
    ),
];

// Texts that are run; and how many members, what backlog and how many events each has.
const RUN: [(&[u8], u16, u64, u64); 6] = [
    (b"cluster 4 1", 4, 1, 0),
    (
        b"cluster 00004 0018446744073709551615\n",
        4,
        18446744073709551615,
        0,
    ),
    (b"cluster 65535 1\nfaulty 65534 silent\n", 65535, 1, 1),
    (
        b"cluster 4 3\nfaulty 0 silent\nfaulty 0 raw -\nack 0",
        4,
        3,
        3,
    ),
    (
        b"epochs 5 1 9 2\nmembers 0 1 2 3\nmembers 1 2 3 4\nfaulty 0 silent\nfaulty 4 silent\n",
        5,
        1,
        2,
    ),
    (
        b"epochs 5 3 1 2\nmembers 0 1 2 3\nmembers 1 2 3 4\npropose 1 6869\npropose 1 -\ntimeout 0 1\ndeliver 0 0\nack 3\nprune 2 7\nfloor 2 16\nhint 1 9\ncut 3 1 0 deliver 12 2\nrestart 2\nfaulty 4 silent\nfaulty 4 offer 1 fF\nfaulty 4 notarize 2\nfaulty 4 finalize 2\nfaulty 4 nullify 0007\nfaulty 4 raw ff",
        5,
        3,
        16,
    ),
];

fn is_refused(alloc: Global, text: &[u8], cause: &RunError) -> bool {
    match Script::parse(alloc, text) {
        Ok(_) => false,
        Err(error) => error == *cause,
    }
}

#[test]
fn texts_that_are_refused(rt: HostRuntime) -> Result<(), Fail> {
    for (text, cause) in &REFUSED {
        assert!(rt; is_refused(rt.alloc(), text, cause));
    }
    Ok(())
}

const TOLD: [(RunError, &str); 6] = [
    (RunError::Syntax(7), "line 7 is outside the grammar"),
    (
        RunError::BadCommittee,
        "a committee has fewer than 4 members, or more than 65,535",
    ),
    (
        RunError::UnknownMember(3),
        "line 3 names a member past the last",
    ),
    (
        RunError::TooManyFaulty,
        "more members are faulty than an epoch bears",
    ),
    (
        RunError::OversizeBlock(2),
        "line 2 has a payload of more than 1,048,576 bytes",
    ),
    (RunError::NoMemory, "memory ran out"),
];

#[test]
fn refusals_are_told_in_words(rt: HostRuntime) -> Result<(), Fail> {
    for (error, want) in &TOLD {
        assert_eq!(rt; format!(in rt.alloc(); "{error}")?.as_str(), *want);
    }
    Ok(())
}

#[test]
fn texts_that_are_run(rt: HostRuntime) -> Result<(), Fail> {
    for (text, members, backlog, events) in &RUN {
        let script = match Script::parse(rt.alloc(), text) {
            Ok(script) => script,
            Err(_) => Err("refused")?,
        };
        assert_eq!(rt; script.members(), *members);
        assert_eq!(rt; script.backlog(), *backlog);
        assert_eq!(rt; script.events(), *events);
    }
    Ok(())
}

// A line that proposes or offers so many bytes, after a header.
fn with_payload(alloc: Global, before: &[u8], bytes: usize) -> Result<Vec<u8>, Fail> {
    let mut text = Vec::from_slice(alloc, before)?;
    for _byte in 0..bytes {
        text.push(b'0')?;
        text.push(b'0')?;
    }
    Ok(text)
}

#[test]
fn payloads_have_a_limit(rt: HostRuntime) -> Result<(), Fail> {
    let alloc = rt.alloc();
    for before in [
        b"cluster 4 1\npropose 1 ".as_slice(),
        b"cluster 4 1\ncut 1 0 0 propose 1 ",
        b"cluster 4 1\nfaulty 1 offer 1 ",
    ] {
        let most = with_payload(alloc, before, 1_048_576)?;
        assert!(rt; Script::parse(alloc, &most).is_ok());
        let more = with_payload(alloc, before, 1_048_577)?;
        assert!(rt; is_refused(alloc, &more, &RunError::OversizeBlock(2)));
    }
    Ok(())
}

// Texts that are no scripts with lanes, and the first cause for which each isn't run.
const REFUSED_LANES: [(&[u8], RunError); 8] = [
    (b"", RunError::Syntax(1)),
    (b"cluster 4 3\ntimeout 0 1\n", RunError::Syntax(3)),
    (b"lane\ncluster 4 3\n", RunError::Syntax(1)),
    (b"cluster 4 3\nlane\nlanes\n", RunError::Syntax(3)),
    (b"cluster 4 3\nlane\nack 0\nlane \n", RunError::Syntax(4)),
    (
        b"epochs 4 3 1 1\nlane\nmembers 0 1 2 3\n",
        RunError::Syntax(2),
    ),
    (b"cluster 3 1\nlane\nack 7\n", RunError::BadCommittee),
    (
        b"cluster 4 3\nlane\nack 0\nlane\nack 4\n",
        RunError::UnknownMember(5),
    ),
];

#[test]
fn texts_without_lanes_are_refused(rt: HostRuntime) {
    for (text, cause) in &REFUSED_LANES {
        assert!(rt; has_no_lanes(rt.alloc(), text, cause));
    }
}

// How many events a script with lanes has, the numbers of their lines, and how many each lane has.
fn counts(alloc: Global, script: &LaneScript) -> Result<String, Fail> {
    let events = script.script().events();
    Ok(format!(in alloc; "{events} {:?} {:?}", script.numbers(), script.sizes())?)
}

fn counted(alloc: Global, text: &[u8]) -> Result<String, Fail> {
    match LaneScript::parse(alloc, text) {
        Ok(script) => counts(alloc, &script),
        Err(_) => Err("a script with lanes".into()),
    }
}

// A script of so many empty lanes.
fn empty_lanes(alloc: Global, count: usize) -> Result<Vec<u8>, Fail> {
    let mut text = Vec::from_slice(alloc, b"cluster 4 3\n")?;
    for _lane in 0..count {
        text.extend_from_slice(b"lane\n")?;
    }
    Ok(text)
}

#[test]
fn lanes_are_counted(rt: HostRuntime) -> Result<(), Fail> {
    let alloc = rt.alloc();
    let text = b"cluster 4 3\nack 0\nlane\nack 1\nlane\nack 2";
    assert_eq!(rt; counted(alloc, text)?.as_str(), "3 [2, 4, 6] [1, 1]");
    assert!(rt; !counted(alloc, &empty_lanes(alloc, 64)?)?.is_empty());
    assert!(rt; has_no_lanes(alloc, &empty_lanes(alloc, 65)?, &RunError::Syntax(66)));
    Ok(())
}

fn has_no_lanes(alloc: Global, text: &[u8], cause: &RunError) -> bool {
    match LaneScript::parse(alloc, text) {
        Ok(_) => false,
        Err(error) => error == *cause,
    }
}
