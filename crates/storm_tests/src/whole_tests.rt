//! Tests of runs whose blocks travel whole.

use crate::cases::cases;
use crate::runs::source_of;
use crate::tables::WHOLE;
use cw_base::{MemorySink, MemorySource, Sequential, Sha256};
use std::alloc::Global;
use std::test::Fail;
use std::thread::Threads;
use whole_world::{Report, RunError, whole_program, whole_run};

// The exit status of the program on words and a script, and what it wrote.
fn told_whole<R: Threads + Sync>(
    rt: &R,
    alloc: Global,
    words: &[String],
    script: &str,
) -> Result<(u8, String), Fail> {
    let mut source = source_of(alloc, script)?;
    let mut sink = MemorySink::new(alloc, 4096, Vec::new(alloc))?;
    sink.reserve(65_536)?;
    let exit = whole_program::<Sha256, R, MemorySource, MemorySink, Sequential>(
        rt,
        alloc,
        words,
        &mut source,
        &mut sink,
        &Sequential,
    );
    let text = String::from_utf8_lossy(alloc, sink.bytes())?;
    Ok((exit.status(), text))
}

#[test]
fn whole_runs_end_with_the_texts_of_an_independent_program(rt: HostRuntime) -> Result<(), Fail> {
    let alloc = rt.alloc();
    for case in cases(alloc, WHOLE)? {
        let (status, text) = told_whole(&rt, alloc, &[], case.script)?;
        let found = format!(in alloc; "{status}\n{text}")?;
        let want = format!(in alloc; "{}\n{}", case.status, case.text)?;
        assert_eq!(rt; found, want, "at {}", case.name);
    }
    Ok(())
}

#[test]
fn words_are_told_the_usage(rt: HostRuntime) -> Result<(), Fail> {
    let alloc = rt.alloc();
    let mut words = Vec::new(alloc);
    words.push(String::from_str(alloc, "storm")?)?;
    words.push(String::from_str(alloc, "7")?)?;
    let (status, text) = told_whole(&rt, alloc, &words, "cluster 4 3\n")?;
    assert_eq!(rt; (status, text.as_str()), (2, "usage: hail_whole\n"));
    Ok(())
}

// The report of a script's run.
fn report_of<R: Threads + Sync>(
    rt: &R,
    alloc: Global,
    script: &str,
) -> Result<Report<Sha256>, Fail> {
    match whole_run::<Sha256, R, Sequential>(rt, alloc, script.as_bytes(), &Sequential) {
        Ok(report) => Ok(report),
        Err(_) => Err("a script that is run".into()),
    }
}

#[test]
fn a_report_hands_back_the_node_of_each_live_member(rt: HostRuntime) -> Result<(), Fail> {
    let alloc = rt.alloc();
    let script = "cluster 4 3\npropose 1 6869\nfaulty 2 silent\ncut 1 0 0 ack 3\n";
    let report = report_of(&rt, alloc, script)?;
    let live = report
        .nodes
        .as_slice()
        .iter()
        .filter(|node| node.is_some())
        .count();
    assert_eq!(rt; (report.disks.len(), report.nodes.len(), live), (3, 3, 2));
    Ok(())
}

#[test]
fn a_script_of_epochs_is_refused_at_its_header(rt: HostRuntime) -> Result<(), Fail> {
    let script = b"epochs 4 3 1 1\nmembers 0 1 2 3\n";
    let ran = whole_run::<Sha256, _, Sequential>(&rt, rt.alloc(), script, &Sequential);
    let refused = match ran {
        Ok(_) => false,
        Err(error) => error == RunError::Syntax(1),
    };
    assert!(rt; refused);
    Ok(())
}
