//! Copies of all that a member takes, notes and gives.

use super::blocks::Scene;
use super::calls::event_of;
use super::member::Member;
use crate::tables::{Call, call_and_answer};
use cw_types::{ChainBlock, Event, Message, Note, StepOut};
use node::Way;
use std::alloc::Global;
use std::test::Fail;
use std::thread::Threads;

/// The place of the first line of a table at which a copy is another thing: of an event, of what
/// the member gives, or, where its notes are counted, of one of these; none where all are equal.
pub(crate) fn first_uncopied<W: Way, R: Threads + Sync>(
    rt: &R,
    alloc: Global,
    scene: &Scene<W>,
    member: &mut Member<W>,
    table: &str,
) -> Result<Option<usize>, Fail> {
    for (place, line) in table.lines().enumerate() {
        let (call, _) = call_and_answer(line)?;
        if !is_copied(rt, alloc, scene, member, call)? {
            return Ok(Some(place));
        }
    }
    Ok(None)
}

fn is_copied<W: Way, R: Threads + Sync>(
    rt: &R,
    alloc: Global,
    scene: &Scene<W>,
    member: &mut Member<W>,
    call: Call,
) -> Result<bool, Fail> {
    if call.name == "notes" {
        return are_notes_copied(alloc, member.all_notes());
    }
    let event = event_of(alloc, scene, call)?;
    let same = is_step_copied(rt, alloc, scene, member, &event);
    drop(event);
    same
}

// Whether the copies of an event and of what the member answers to it equal them.
fn is_step_copied<W: Way, R: Threads + Sync>(
    rt: &R,
    alloc: Global,
    scene: &Scene<W>,
    member: &mut Member<W>,
    event: &Event,
) -> Result<bool, Fail> {
    let out = member.take(rt, alloc, scene, event)?;
    let same = is_answer_copied(alloc, &out);
    drop(out);
    Ok(same? && is_event_copied(alloc, event)?)
}

fn is_event_copied(alloc: Global, event: &Event) -> Result<bool, Fail> {
    Ok(event.copy(alloc)? == *event)
}

// The answer itself, and each message that it has.
fn is_answer_copied(alloc: Global, out: &StepOut) -> Result<bool, Fail> {
    for sent in out.sent.as_slice() {
        if !is_message_copied(alloc, &sent.message)? {
            return Ok(false);
        }
    }
    Ok(out.copy(alloc)? == *out)
}

fn is_message_copied(alloc: Global, message: &Message) -> Result<bool, Fail> {
    Ok(message.copy(alloc)? == *message)
}

fn are_notes_copied(alloc: Global, notes: &[Note]) -> Result<bool, Fail> {
    for note in notes {
        if !is_inner_copied(alloc, note)? || !is_note_copied(alloc, note)? {
            return Ok(false);
        }
    }
    Ok(true)
}

fn is_note_copied(alloc: Global, note: &Note) -> Result<bool, Fail> {
    Ok(note.copy(alloc)? == *note)
}

// The block or the certificate that is noted.
fn is_inner_copied(alloc: Global, note: &Note) -> Result<bool, Fail> {
    match note {
        Note::Block(_, block) => is_block_copied(alloc, block),
        Note::Cert(cert) => Ok(cert.copy(alloc)? == *cert),
        _ => Ok(true),
    }
}

// A block, and its payload.
fn is_block_copied(alloc: Global, block: &ChainBlock) -> Result<bool, Fail> {
    let payload = block.payload();
    if payload.copy(alloc)? != *payload {
        return Ok(false);
    }
    Ok(block.copy(alloc)? == *block)
}
