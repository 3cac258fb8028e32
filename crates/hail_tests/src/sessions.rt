//! Tests of mailboxes of a node.

ghost use Rattle.std.specs.Prelude.{◌≡◌, Some};

use cw_base::{NoMemory, Sequential, SumHasher};
use cw_types::{AcceptAll, Committees, Event, StepOut, Verifier, Vote};
use node::mailbox::{CloseError, Mailbox, Session, Turn};
use node::{Node, NodeError, Seat, step_seat};
use node_disk::MemoryDisk;
use std::alloc::Global;
use std::marker::Brand;
use std::sync::Wait;
use std::sync::ledger::Blank;
use std::test::*;
use std::thread::Threads;

// A verifier to which everyone signed everything.
#[derive(Clone, Copy)]
struct AllSigned;

impl Verifier for AllSigned {
    ghost use Rattle.std.specs.Prelude.{true};

    ghost signs = { λ _ _ _. true };

    fn signed(&self, _member: u16, _vote: &Vote) -> bool {
        true
    }
}

type Sitting = Seat<SumHasher, MemoryDisk, AcceptAll, AllSigned, Sequential>;

// Member 0 of four, on an empty disk. It handed out genesis.
fn first_of_four<R: Threads + Sync>(rt: &R, alloc: Global) -> Result<Sitting, Fail> {
    let committees = Committees::single(alloc, 4)?;
    let disk = MemoryDisk::new(alloc, Vec::new(alloc));
    match Node::<SumHasher, MemoryDisk, AcceptAll>::start(
        rt,
        alloc,
        0,
        committees,
        3,
        disk,
        AcceptAll,
        &Sequential,
    ) {
        Ok((node, _out)) => Ok(Seat::new(node, AllSigned, Sequential)),
        Err(_) => Err("a start on an empty disk".into()),
    }
}

type Reply = Result<StepOut, NodeError>;

// The place, the event and the reply of a call.
type Call = (u64, Event, Reply);

// What came of a session in which genesis was acknowledged: the place that was answered, how many
// entries there are, whether the first is the own call, and the height that was acknowledged last.
#[derive(Debug, Drop, PartialEq)]
struct Outcome {
    place: u64,
    entries: usize,
    is_own: bool,
    processed: Option<u64>,
}

fn reply_of(alloc: Global, reply: &Reply) -> Result<Reply, Fail> {
    match reply {
        Ok(out) => Ok(Ok(out.copy(alloc)?)),
        Err(error) => Ok(Err(*error)),
    }
}

// The first own call, copied: its place, its event and its reply.
fn first_call<L: Session<Sitting>>(
    alloc: Global,
    mailbox: &Mailbox<Sitting, L>,
) -> Result<Call, Fail> {
    match mailbox.own().first() {
        Some(call) => Ok((
            call.place,
            call.event.copy(alloc)?,
            reply_of(alloc, &call.reply)?,
        )),
        None => Err("an own call".into()),
    }
}

// Two mailboxes of a session.
fn two_mailboxes<T: Turn, L: Session<T>>(
    alloc: Global,
    blank: Blank,
    state: T,
) -> Result<(Mailbox<T, L>, Mailbox<T, L>), Fail>
    requires name { blank.name ≡ L.name }
    requires blank { blank.parts ≡ L.parts }
    requires agreed { L.all ≡ L.parts }
    requires parts { L.all ≡ 2 }
    requires opening { L.opening ≡ Some state }
{
    let mut mailbox: Mailbox<T, L> = Mailbox::new(alloc, 2, blank, state)?;
    let other = mailbox.split(alloc)?;
    Ok((mailbox, other))
}

// The mailbox, whose close is refused since another isn't joined.
fn refused_open<T: Turn, L: Session<T>, R: Wait>(
    rt: &R,
    mailbox: Mailbox<T, L>,
) -> Result<Mailbox<T, L>, Fail> {
    match mailbox.close(rt) {
        Err(CloseError::Open(mailbox)) => Ok(mailbox),
        _ => Err("a close with a mailbox left out".into()),
    }
}

fn joined<T: Turn, L: Session<T>>(
    alloc: Global,
    mut mailbox: Mailbox<T, L>,
    other: Mailbox<T, L>,
) -> Result<Mailbox<T, L>, Fail> {
    match mailbox.join(alloc, other) {
        Ok(()) => Ok(mailbox),
        Err(_) => Err(NoMemory.into()),
    }
}

// What a close with all mailboxes gives.
fn closed<T: Turn, L: Session<T>, R: Wait>(
    rt: &R,
    mailbox: Mailbox<T, L>,
) -> Result<(T, Vec<(T::Event, T::Reply)>), Fail> {
    match mailbox.close(rt) {
        Ok(closed) => Ok(closed),
        Err(_) => Err("a close with all mailboxes".into()),
    }
}

// The end of a session of two mailboxes, whose close is refused before the second is joined: the
// state and the history, and what was kept of it before.
fn ended<T: Turn, L: Session<T>, R: Wait, K: Drop>(
    rt: &R,
    alloc: Global,
    mailbox: Mailbox<T, L>,
    other: Mailbox<T, L>,
    kept: Result<K, Fail>,
) -> Result<(T, Vec<(T::Event, T::Reply)>, K), Fail> {
    let kept = kept?;
    let mailbox = refused_open(rt, mailbox)?;
    let mailbox = joined(alloc, mailbox, other)?;
    let (state, history) = closed(rt, mailbox)?;
    Ok((state, history, kept))
}

// Whether the first entry of a history is that call, at place 0, and wasn't refused.
fn is_first(history: &[(Event, Reply)], (place, event, reply): &Call) -> bool {
    match history.first() {
        Some(entry) => *place == 0 && entry.0 == *event && entry.1 == *reply && reply.is_ok(),
        None => false,
    }
}

fn processed(seat: &Sitting) -> Option<u64> {
    match seat.node().marshal().get_processed() {
        Some(height) => Some(height.get()),
        None => None,
    }
}

// The acknowledgement of genesis in a mailbox: its place, and the call.
fn stepped<L: Session<Sitting>, R: Threads + Wait + Sync>(
    rt: &R,
    alloc: Global,
    mailbox: &mut Mailbox<Sitting, L>,
) -> Result<(u64, Call), Fail> {
    let place = step_seat(rt, alloc, mailbox, Event::Ack)?;
    Ok((place, first_call(alloc, mailbox)?))
}

type Ended = (Sitting, Vec<(Event, Reply)>, (u64, Call));

// What came of it.
fn told((seat, history, (place, call)): &Ended) -> Outcome {
    Outcome {
        place: *place,
        entries: history.len(),
        is_own: is_first(history, call),
        processed: processed(seat),
    }
}

fn acknowledged<L: Session<Sitting>, R: Threads + Wait + Sync>(
    rt: &R,
    alloc: Global,
    blank: Blank,
    seat: Sitting,
) -> Result<Ended, Fail>
    requires name { blank.name ≡ L.name }
    requires blank { blank.parts ≡ L.parts }
    requires agreed { L.all ≡ L.parts }
    requires parts { L.all ≡ 2 }
    requires opening { L.opening ≡ Some seat }
{
    let (mut mailbox, other) = two_mailboxes::<Sitting, L>(alloc, blank, seat)?;
    let kept = stepped(rt, alloc, &mut mailbox);
    ended(rt, alloc, mailbox, other, kept)
}

fn session<R: Threads + Wait + Sync>(
    rt: &R,
    alloc: Global,
    seat: Sitting,
) -> Result<Outcome, Fail> {
    let ended = acknowledged::<Brand, R>(rt, alloc, Blank::new(2), seat)?;
    Ok(told(&ended))
}

#[test]
fn genesis_is_acknowledged_in_a_mailbox(rt: HostRuntime) -> Result<(), Fail> {
    let seat = first_of_four(&rt, rt.alloc())?;
    let wanted = Outcome {
        place: 0,
        entries: 1,
        is_own: true,
        processed: Some(0),
    };
    assert_eq!(rt; session(&rt, rt.alloc(), seat)?, wanted);
    Ok(())
}
