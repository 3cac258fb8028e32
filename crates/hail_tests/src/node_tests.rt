//! Tests of a member alone: what it answers to each event, by a table of votes that were signed,
//! where blocks come in chunks and where they come whole.

mod blocks;
mod calls;
mod copies;
mod member;
mod play;
mod said;
mod scenes;
mod tables;
mod tree;
mod whole_tables;
mod whole_tests;

use crate::tables::{count_of, head_and_rest, two};
use play::wrong_in;
use scenes::{chunked_scene, whole_scene};
use std::alloc::Global;
use std::test::Fail;
use std::thread::Threads;
use tables::{FRONTS, MEMBERS};
use tree::sent_for_rows;
use whole_tables::{WHOLE_FRONTS, WHOLE_MEMBERS};

#[test]
fn members_answer_by_the_tables(rt: HostRuntime) -> Result<(), Fail> {
    for part in MEMBERS.split("== ").skip(1) {
        assert_eq!(rt;
            chunked_wrong(&rt, rt.alloc(), part)?.as_str(),
            "",
            "{part}"
        );
    }
    assert_eq!(rt; count_of(MEMBERS), 28);
    Ok(())
}

#[test]
fn whole_members_answer_by_the_tables(rt: HostRuntime) -> Result<(), Fail> {
    for part in WHOLE_MEMBERS.split("== ").skip(1) {
        assert_eq!(rt; whole_wrong(&rt, rt.alloc(), part)?.as_str(), "", "{part}");
    }
    assert_eq!(rt; count_of(WHOLE_MEMBERS), 12);
    Ok(())
}

// What a member answers otherwise than a table of blocks in chunks tells.
fn chunked_wrong<R: Threads + Sync>(rt: &R, alloc: Global, part: &str) -> Result<String, Fail> {
    let (name, task) = scene_and_task(part)?;
    let scene = chunked_scene(rt, alloc, name)?;
    let wrong = wrong_in(rt, alloc, &scene, &FRONTS, task);
    drop(scene);
    wrong
}

// The same of whole blocks.
fn whole_wrong<R: Threads + Sync>(rt: &R, alloc: Global, part: &str) -> Result<String, Fail> {
    let (name, task) = scene_and_task(part)?;
    let scene = whole_scene(rt, alloc, name)?;
    let wrong = wrong_in(rt, alloc, &scene, &WHOLE_FRONTS, task);
    drop(scene);
    wrong
}

// The scene of a table, and its task with the lines.
fn scene_and_task<'a>(part: &'a str) -> Result<(&'a str, (&'a str, &'a str)), Fail> {
    let (_, table) = head_and_rest(part)?;
    let (head, lines) = head_and_rest(table)?;
    let (scene, task) = two(head, ": ")?;
    Ok((scene, (task, lines)))
}

#[test]
fn rows_that_are_no_codeword_are_no_block(rt: HostRuntime) -> Result<(), Fail> {
    let told = sent_for_rows(&rt, rt.alloc(), &[0, 1, 2, 0])?;
    assert_eq!(rt; told.as_str(), "1000, 0 notes");
    Ok(())
}
