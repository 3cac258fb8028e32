//! Tests of what comes from outside: words, sources and sinks that fail, and sizes.

use crate::runs::{source_of, told_from, told_into};
use cw_base::{MemorySink, MemorySource, SumHasher};
use std::alloc::Global;
use std::test::Fail;

const HEADER: &str = "cluster 4 3\n";

// The words of a text, one before each space.
fn words_of(alloc: Global, text: &str) -> Result<Vec<String>, Fail> {
    let mut words = Vec::new(alloc);
    for word in text.split(" ") {
        words.push(String::from_str(alloc, word)?)?;
    }
    Ok(words)
}

const USAGE: &str = "usage: hail_run [storm N]\n";

const STORM: &str = "storm 7
events 5576
messages 30
handed 8
top 1
chain 5b5b5b5b5b5b5b5b5b5b5b5b5b5b5b5b5b5b5b5b5b5b5b5b5b5b5b5b5b5b5b5b
";

// A storm is run twice. The source has no line, so it isn't read.
#[test]
fn words_ask_for_a_storm_or_are_told_the_usage(rt: HostRuntime) -> Result<(), Fail> {
    let alloc = rt.alloc();
    for (text, status, want) in [
        ("x", 2, USAGE),
        ("storm", 2, USAGE),
        ("storm x", 2, USAGE),
        ("storm 7 7", 2, USAGE),
        ("storm 7", 0, STORM),
        ("storm 7", 0, STORM),
    ] {
        let words = words_of(alloc, text)?;
        let (found, written) = told_from(&rt, alloc, &words, source_of(alloc, "")?)?;
        assert_eq!(rt; (found, written.as_str()), (status, want), "at {text}");
    }
    Ok(())
}

// The header has twelve bytes: the pieces of 3 are read by calls 1 to 4, the one piece by call 1,
// and the next call finds the end.
#[test]
fn a_source_that_fails_ends_the_run_with_nothing_written(rt: HostRuntime) -> Result<(), Fail> {
    let alloc = rt.alloc();
    for (piece, call) in [(3, 1u64), (3, 2), (3, 5), (4096, 2)] {
        assert!(rt; 1 <= piece);
        let bytes = HEADER.as_bytes().to_vec(alloc)?;
        let source = MemorySource::new(bytes, piece, vec![in alloc; call]?);
        let (status, text) = told_from(&rt, alloc, &[], source)?;
        assert_eq!(rt; (status, text.as_str()), (5, ""), "at {call}");
    }
    Ok(())
}

#[test]
fn a_sink_that_fails_has_a_front_of_the_text(rt: HostRuntime) -> Result<(), Fail> {
    let alloc = rt.alloc();
    for (call, want) in [(1u64, ""), (2, "open 0\nhan"), (3, "open 0\nhand 0 0 0202")] {
        let sink = MemorySink::new(alloc, 10, vec![in alloc; call]?)?;
        let (status, text) = told_into::<SumHasher, _>(
            &rt,
            alloc,
            &[],
            source_of(alloc, HEADER)?,
            sink,
        )?;
        assert_eq!(rt; (status, text.as_str()), (6, want), "at {call}");
    }
    Ok(())
}

// A front of a script, and the size to which digits fill it up.
#[test]
fn what_is_too_large_is_told(rt: HostRuntime) -> Result<(), Fail> {
    let alloc = rt.alloc();
    for (front, size, want) in [
        ("", 16_777_216, "error 1 Syntax 1\n"),
        ("", 16_777_217, "error TooLong\n"),
        (
            "cluster 4 3\npropose 1 ",
            2_097_176,
            "error 5 OversizeBlock 2\n",
        ),
    ] {
        let mut bytes = front.as_bytes().to_vec(alloc)?;
        bytes.resize(size, b'0')?;
        let source = MemorySource::new(bytes, 65_536, Vec::new(alloc));
        let (status, text) = told_from(&rt, alloc, &[], source)?;
        assert_eq!(rt; (status, text.as_str()), (3, want));
    }
    Ok(())
}
