//! What a store answers to the calls of a table, as text. Blocks are named by their places in the
//! table's list.

use super::blocks::{Made, chain, chain_and_one, rivals};
use super::store::Store;
use crate::tables::{Call, call_and_answer, call_in, head_and_rest, two};
use marshal::Identifier;
use std::alloc::Global;
use std::fmt::Debug;
use std::test::Fail;
use std::thread::Threads;

/// The number of the first call of a table that answers otherwise on a new store, and its answer;
/// none where all answer so.
pub(crate) fn first_wrong<R: Threads + Sync>(
    rt: &R,
    alloc: Global,
    table: &str,
) -> Result<Option<(usize, String)>, Fail> {
    let (head, lines) = head_and_rest(table)?;
    let (backlog, list) = two(head, " ")?;
    let blocks = blocks_of(rt, alloc, call_in(list)?)?;
    let wrong = wrong_on_new(rt, alloc, backlog, &blocks, lines);
    drop(blocks);
    wrong
}

fn wrong_on_new<R: Threads + Sync>(
    rt: &R,
    alloc: Global,
    backlog: &str,
    blocks: &[Made],
    lines: &str,
) -> Result<Option<(usize, String)>, Fail> {
    let mut store = Store::new(alloc, backlog.parse::<u64>()?)?;
    let wrong = play(rt, alloc, &mut store, blocks, lines);
    drop(store);
    wrong
}

// The number of the first of these calls that answers otherwise, and its answer.
fn play<R: Threads + Sync>(
    rt: &R,
    alloc: Global,
    store: &mut Store,
    blocks: &[Made],
    lines: &str,
) -> Result<Option<(usize, String)>, Fail> {
    for (number, line) in lines.lines().enumerate() {
        let (call, want) = call_and_answer(line)?;
        let said = answer(rt, alloc, store, blocks, call)?;
        if said.as_str() != want {
            return Ok(Some((number, said)));
        }
    }
    Ok(None)
}

// The blocks that a table is about.
fn blocks_of<R: Threads + Sync>(rt: &R, alloc: Global, list: Call) -> Result<Vec<Made>, Fail> {
    let (first, last, _) = list.numbers;
    match list.name {
        "chain" => chain(rt, alloc, first, last),
        "rivals" => rivals(rt, alloc),
        "behind" => chain_and_one(rt, alloc, first, last),
        _ => Err("a list of blocks".into()),
    }
}

// The text of an answer.
fn told<D: Debug + Drop>(alloc: Global, answer: Result<D, Fail>) -> Result<String, Fail> {
    match answer {
        Ok(answer) => said(alloc, answer),
        Err(error) => Err(error),
    }
}

fn said<D: Debug + Drop>(alloc: Global, answer: D) -> Result<String, Fail> {
    Ok(format!(in alloc; "{answer:?}")?)
}

// What a call answers that notes a block, or several.
fn answer<R: Threads + Sync>(
    rt: &R,
    alloc: Global,
    store: &mut Store,
    blocks: &[Made],
    call: Call,
) -> Result<String, Fail> {
    let (first, view, _) = call.numbers;
    let place = first as usize;
    match call.name {
        // Notes a block as verified: whether it did.
        "verify" => told(alloc, store.verify(rt, blocks, place)),
        // Notes the blocks at 1 to a place as verified: how many of them it did.
        "verify_to" => told(alloc, store.verify_to(rt, blocks, place)),
        // Notes a block as certified in a view: whether it did.
        "certify" => told(alloc, store.certify(rt, blocks, place, view)),
        _ => reported(alloc, store, blocks, call),
    }
}

// What a call answers that notes a certificate, or several.
fn reported(alloc: Global, store: &mut Store, blocks: &[Made], call: Call) -> Result<String, Fail> {
    let (first, view, _) = call.numbers;
    let place = first as usize;
    match call.name {
        // Notes the finalization of a block in a view: whether it did.
        "report" => told(alloc, store.report(alloc, blocks, place, view)),
        // Notes its notarization in a view: whether it did.
        "notarize" => told(alloc, store.notarize(alloc, blocks, place, view)),
        // Notes those of the blocks at 1 to a place, each in its block's view: how many it did.
        "report_to" => told(alloc, store.report_to(alloc, blocks, place)),
        // Asks for the floor of a block's finalization in a view: whether it stands at once.
        "set_floor" => told(alloc, store.set_floor(alloc, blocks, place, view)),
        _ => passed(alloc, store, blocks, call),
    }
}

// What a call answers that moves what is held or handed out.
fn passed(alloc: Global, store: &mut Store, blocks: &[Made], call: Call) -> Result<String, Fail> {
    let (first, _, _) = call.numbers;
    match call.name {
        // Acknowledges the least pending height: which.
        "acknowledge" => told(alloc, store.acknowledge()),
        // Hands out and acknowledges all heights: how many.
        "process" => told(alloc, store.process(alloc)),
        // Lets blocks below a height go: whether it did.
        "prune" => told(alloc, store.prune(first)),
        // Starts anew on what a crash leaves of the disk: the height that was acknowledged last.
        "restart" => told(alloc, store.restart(alloc)),
        // The heights that are handed out next.
        "deliver" => told(alloc, store.deliver(alloc)),
        // The first and the last of them, and how many they are, each one above the other.
        "deliver_run" => told(alloc, store.deliver_run(alloc)),
        _ => watched(alloc, store, blocks, call),
    }
}

// What a call answers about tickets.
fn watched(alloc: Global, store: &mut Store, blocks: &[Made], call: Call) -> Result<String, Fail> {
    let (first, _, _) = call.numbers;
    let place = first as usize;
    match call.name {
        // A ticket for the block of a digest.
        "watch_digest" => told(alloc, store.watch_digest(blocks, place)),
        // A ticket for the block under a commitment.
        "watch_commitment" => told(alloc, store.watch_commitment(blocks, place)),
        // Lets a ticket go: whether it waited.
        "cancel" => said(alloc, store.cancel(first)),
        // The tickets that are served, each with the place of its block.
        "tickets" => told(alloc, store.take_tickets(alloc, blocks)),
        _ => found(alloc, store, blocks, call),
    }
}

// What a call answers that looks for a block.
fn found(alloc: Global, store: &Store, blocks: &[Made], call: Call) -> Result<String, Fail> {
    let (first, last, _) = call.numbers;
    let place = first as usize;
    match call.name {
        // The block that was verified last in a view.
        "verified" => told(alloc, store.verified_in(blocks, first)),
        // The height that was acknowledged last, or the floor, with its block.
        "anchor" => told(alloc, store.anchor(blocks)),
        // The block of the greatest finalized height.
        "latest" => told(alloc, store.found(blocks, Identifier::Latest)),
        // The block at a height.
        "at" => told(alloc, store.found(blocks, Identifier::Height(first))),
        // How many heights from one to another have a block.
        "count_at" => said(alloc, store.count_at(first, last)),
        // The block of the digest of a block of the list.
        "of" => told(alloc, store.found_by_digest(blocks, place)),
        _ => known(alloc, store, blocks, call),
    }
}

// What a call answers that only reads.
fn known(alloc: Global, store: &Store, blocks: &[Made], call: Call) -> Result<String, Fail> {
    let (first, _, _) = call.numbers;
    let place = first as usize;
    match call.name {
        // Whether a block is found by its commitment and by its digest.
        "has" => told(alloc, store.has(blocks, place)),
        // The blocks that are noted, each with the place of the first such note.
        "places" => told(alloc, store.places(alloc, blocks)),
        // How many of the blocks are at their heights.
        "final" => said(alloc, store.count_final(blocks)),
        // The view of the finalization of a height.
        "finalization" => said(alloc, store.finalized_in(first)),
        // The floor.
        "floor" => said(alloc, store.floor()),
        // The heights from a block down, as far as they are held.
        "ancestry" => told(alloc, store.heights_down(alloc, blocks, place)),
        _ => Err("a call of a store".into()),
    }
}
