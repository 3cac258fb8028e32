//! A node that takes turns, for mailboxes.

ghost use Rattle.std.specs.Prelude.{◌≡◌, false, true, IfOk, OnErr};
ghost use Rattle.mailbox.specs.Calls.{HasAddedCall};
ghost use Rattle.node.specs.Seating.{IsSeatTurn, IsStep};

use crate::member::{Member, NodeError};
use crate::way::{Chunked, Way};
use cw_base::{Digest32, Hasher, NoMemory, Strategy};
use cw_types::{Application, Event, StepOut, Verifier};
use mailbox::{Mailbox, Session, Turn};
use node_disk::{Disk, StoreError};
use std::alloc::Global;
use std::marker::Model;
use std::sync::Wait;
use std::thread::Threads;

/// A member beside its verifier and its strategy; a [`Seat`] is that of a node. Contracts see the
/// node, the verifier, and whether an answer was lost.
///
/// Its turns may start threads, so a mailbox of it is stepped by [`step_seat`].
///
/// ```text
/// let seat = Seat::new(node, verifier, Sequential);
/// // in a session over L
/// let mut mailbox: Mailbox<Seat<..>, L> = Mailbox::new(alloc, 1, blank, seat)?;
/// let place = step_seat(&rt, alloc, &mut mailbox, Event::Ack)?;
/// ```
#[derive(Drop)]
pub struct MemberSeat<
    H: Hasher<Digest = Digest32>,
    D: Disk + Drop,
    A: Application + Drop,
    V: Verifier + Drop,
    S: Strategy + Drop,
    W: Way,
> {
    node: Member<H, D, A, W>,
    verifier: V,
    strategy: S,
    // No memory was left for the second copy of an answer.
    lost: bool,
}

/// A node beside its verifier and its strategy.
pub type Seat<H, D, A, V, S> = MemberSeat<H, D, A, V, S, Chunked>;

impl<
    H: Hasher<Digest = Digest32>,
    D: Disk + Drop,
    A: Application + Drop,
    V: Verifier + Drop,
    S: Strategy + Drop,
    W: Way,
> Model for MemberSeat<H, D, A, V, S, W> {
    ghost use Rattle.node.specs.Seating.{SeatState};

    ghost Value = { SeatState D A V };

    ghost view = { λ s. record { node = s.node; verifier = s.verifier; lost = s.lost } };
}

impl<
    H: Hasher<Digest = Digest32>,
    D: Disk + Drop,
    A: Application + Drop,
    V: Verifier + Drop,
    S: Strategy + Drop,
    W: Way,
> Turn for MemberSeat<H, D, A, V, S, W> {
    type Event = Event;

    type Reply = Result<StepOut, NodeError>;

    ghost use Rattle.node.specs.Seating.{IsSeatTurn};

    ghost turns = { λ old event reply new.
        IsSeatTurn H.digest_of A.accepts V.signs D.state D.continues old event reply new };

    fn copy(alloc: Global, event: &Event) -> Result<Event, NoMemory> {
        let copy = event.copy(alloc)?;
        law_of_equality(&copy);
        Ok(copy)
    }
}

impl<
    H: Hasher<Digest = Digest32>,
    D: Disk + Drop,
    A: Application + Drop,
    V: Verifier + Drop,
    S: Strategy + Drop,
    W: Way,
> MemberSeat<H, D, A, V, S, W> {
    /// Joins the three.
    pub fn new(node: Member<H, D, A, W>, verifier: V, strategy: S) -> MemberSeat<H, D, A, V, S, W>
        ensures { result ≡ record { node = node; verifier = verifier; lost = false } }
    {
        MemberSeat {
            node,
            verifier,
            strategy,
            lost: false,
        }
    }

    /// Its node.
    pub fn node(&self) -> &Member<H, D, A, W>
        ensures { result.now ≡ self.now.node }
    {
        &self.node
    }

    /// The node takes the event, and what it answers is given twice. Where no memory is left for
    /// the second copy it answers `NoMemory` twice, and `Failed` from then on.
    pub fn turn<R: Threads + Sync>(
        &mut self,
        rt: &R,
        alloc: Global,
        event: &Event,
    ) -> (Result<StepOut, NodeError>, Result<StepOut, NodeError>)
        ensures lawful { IsSeatTurn H.digest_of A.accepts V.signs D.state D.continues self.old
            event.now result.0 self.new }
        ensures twice { result.1 ≡ result.0 }
        ensures equal { ⟦<Result<StepOut, NodeError> as PartialEq>⟧.eq result.0 result.1 ≡ true }
    {
        let (stored, reply) = self.answer_twice(rt, alloc, event);
        law_of_equality(&stored);
        (stored, reply)
    }

    // The same, without that what is given is equal.
    fn answer_twice<R: Threads + Sync>(
        &mut self,
        rt: &R,
        alloc: Global,
        event: &Event,
    ) -> (Result<StepOut, NodeError>, Result<StepOut, NodeError>)
        ensures lawful { IsSeatTurn H.digest_of A.accepts V.signs D.state D.continues self.old
            event.now result.0 self.new }
        ensures twice { result.1 ≡ result.0 }
    {
        if self.lost {
            return (Err(StoreError::Failed), Err(StoreError::Failed));
        }
        match step_once(
            rt,
            alloc,
            &mut self.node,
            event,
            &self.verifier,
            &self.strategy,
        ) {
            Ok(out) => match out.copy(alloc) {
                Ok(copy) => (Ok(out), Ok(copy)),
                Err(NoMemory) => {
                    self.lost = true;
                    (Err(StoreError::NoMemory), Err(StoreError::NoMemory))
                }
            },
            Err(error) => (Err(error), Err(error)),
        }
    }
}

/// Steps a mailbox of a seat: its node takes the event, under the lock. Answers the place of the
/// entry in the history, as [`Mailbox::step_by`] does.
pub fn step_seat<
    H: Hasher<Digest = Digest32>,
    D: Disk + Drop,
    A: Application + Drop,
    V: Verifier + Drop,
    S: Strategy + Drop,
    W: Way,
    L: Session<MemberSeat<H, D, A, V, S, W>>,
    R: Threads + Wait + Sync,
>(
    rt: &R,
    alloc: Global,
    mailbox: &mut Mailbox<MemberSeat<H, D, A, V, S, W>, L>,
    event: Event,
) -> Result<u64, NoMemory>
    ensures ok { IfOk result (λ place.
        HasAddedCall (IsSeatTurn H.digest_of A.accepts V.signs D.state D.continues)
        ⟦<Event as PartialEq>⟧.eq ⟦<Result<StepOut, NodeError> as PartialEq>⟧.eq event place
        mailbox.old mailbox.new) }
    ensures err { OnErr result (mailbox.new ≡ mailbox.old) }
{
    mailbox.step_by(rt, alloc, event, |seat, event| seat.turn(rt, alloc, event))
}

// One step of the node.
fn step_once<
    H: Hasher<Digest = Digest32>,
    D: Disk,
    A: Application + Drop,
    V: Verifier,
    S: Strategy,
    W: Way,
    R: Threads + Sync,
>(
    rt: &R,
    alloc: Global,
    node: &mut Member<H, D, A, W>,
    event: &Event,
    verifier: &V,
    strategy: &S,
) -> Result<StepOut, NodeError>
    ensures { IsStep H.digest_of A.accepts
        (V.signs verifier.now) D.state D.continues node.old event.now result node.new }
{
    node.step(rt, alloc, event, verifier, strategy)
}

// What is equal is so to itself.
fn law_of_equality<T: Eq>(value: &T)
    ensures { T.eq value.now value.now ≡ true }
{
    let _ = value;
}
