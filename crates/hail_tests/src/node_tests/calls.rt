//! The calls of a table, and the events of a member that they spell. Blocks are named by their
//! places in the scene's list.

use super::blocks::{Made, Scene, certificate};
use crate::tables::Call;
use cw_types::{Event, Message, Vote};
use node::Way;
use std::alloc::Global;
use std::test::Fail;

/// The event that a call spells.
pub(crate) fn event_of<W: Way>(alloc: Global, scene: &Scene<W>, call: Call) -> Result<Event, Fail> {
    let (first, _, _) = call.numbers;
    match call.name {
        // The view is over.
        "timeout" => Ok(Event::Timeout(first)),
        // The least pending height is acknowledged.
        "ack" => Ok(Event::Ack),
        // Blocks below a height are to be hidden.
        "prune" => Ok(Event::Prune(first)),
        // The finalized block of a height is wanted.
        "hint" => Ok(Event::Hint(first)),
        // Lets a ticket go.
        "cancel" => Ok(Event::Cancel(first)),
        _ => event_about(alloc, scene, call),
    }
}

// The same where it is about a block.
fn event_about<W: Way>(alloc: Global, scene: &Scene<W>, call: Call) -> Result<Event, Fail> {
    let (first, view, _) = call.numbers;
    let place = first as usize;
    match call.name {
        // It is asked for a block with the payload of a block of the list.
        "propose" => proposed(alloc, scene.block(place)?),
        // The finalization of a block in a view, by members 0, 1 and 2, is to be the floor.
        "floor" => floored(alloc, finalize(scene, place, view)?),
        // A ticket for the block of a digest.
        "watch_digest" => Ok(Event::WatchDigest(scene.block(place)?.commitment.block)),
        // A ticket for the block under a commitment.
        "watch_commitment" => Ok(Event::WatchCommitment(scene.block(place)?.commitment)),
        _ => delivered(message_of(alloc, scene, call)),
    }
}

fn proposed(alloc: Global, made: &Made) -> Result<Event, Fail> {
    Ok(Event::Propose(made.block.payload().copy(alloc)?))
}

fn floored(alloc: Global, vote: Vote) -> Result<Event, Fail> {
    Ok(Event::Floor(certificate(alloc, vote)?))
}

fn delivered(message: Result<Message, Fail>) -> Result<Event, Fail> {
    Ok(Event::Deliver(message?))
}

// The message that comes.
fn message_of<W: Way>(alloc: Global, scene: &Scene<W>, call: Call) -> Result<Message, Fail> {
    let (first, second, view) = call.numbers;
    let member = (first % 65536) as u16;
    let place = second as usize;
    match call.name {
        // The chunk of that index of a block.
        "shard" => shard(alloc, scene.block(first as usize)?, place),
        // A member's vote to notarize a block in a view.
        "notarize" => Ok(Message::Vote(member, notarize(scene, place, view)?)),
        // A member's vote to finalize a block in a view.
        "finalize" => Ok(Message::Vote(member, finalize(scene, place, view)?)),
        // A member asks for a block.
        "ask" => Ok(Message::Ask(member, scene.block(place)?.commitment)),
        // A member asks for the finalized block of a height.
        "ask_height" => Ok(Message::AskHeight(member, second)),
        _ => whole_message(alloc, scene, call),
    }
}

// The same where it has a certificate or a whole block.
fn whole_message<W: Way>(alloc: Global, scene: &Scene<W>, call: Call) -> Result<Message, Fail> {
    let (first, view, _) = call.numbers;
    let place = first as usize;
    match call.name {
        // The certificate by members 0, 1 and 2 of votes to notarize a block in a view.
        "notarization" => certified(alloc, notarize(scene, place, view)?),
        // The certificate by members 0, 1 and 2 of votes to finalize a block in a view.
        "finalization" => certified(alloc, finalize(scene, place, view)?),
        // A whole block.
        "block" => whole(alloc, scene.block(place)?),
        _ => Err("what happens to a member".into()),
    }
}

fn notarize<W: Way>(scene: &Scene<W>, place: usize, view: u64) -> Result<Vote, Fail> {
    Ok(Vote::Notarize(scene.proposal(place, view)?))
}

fn finalize<W: Way>(scene: &Scene<W>, place: usize, view: u64) -> Result<Vote, Fail> {
    Ok(Vote::Finalize(scene.proposal(place, view)?))
}

fn certified(alloc: Global, vote: Vote) -> Result<Message, Fail> {
    Ok(Message::Cert(certificate(alloc, vote)?))
}

fn whole(alloc: Global, made: &Made) -> Result<Message, Fail> {
    Ok(Message::Block(made.block.copy(alloc)?))
}

fn shard(alloc: Global, made: &Made, index: usize) -> Result<Message, Fail> {
    match made.chunks.get(index) {
        Some(chunk) => Ok(Message::Shard(made.cut, chunk.copy(alloc)?)),
        None => Err("a chunk of that index".into()),
    }
}
