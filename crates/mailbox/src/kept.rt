//! The value under the lock of a session.

ghost use Rattle.std.specs.Prelude.{◌≡◌, ◌+◌, ◌^◌, ◌<◌, [], length, map, true, Some, IfOk, OnOk};
ghost use Rattle.std.specs.Prelude.{OnErr};
ghost use Rattle.mailbox.specs.Replay.{HasTurned, IsReplay};
ghost use Rattle.mailbox.specs.Turning.{TurnsBy};

use crate::mark::Mark;
use crate::room::put;
use crate::session::Session;
use crate::turn::{Turn, TurnAlone};
use cw_base::NoMemory;
use std::alloc::Global;
use std::marker::Model;
use std::sync::ledger::{Book, Share};

/// A state beside the history that led to it, and the book of its session's ledger.
///
/// Contracts see the state, the entries, and how many calls the book has counted. What each such
/// value keeps is [`Kept::law`].
#[derive(Drop)]
pub struct Kept<T: Turn, L: Session<T>> {
    state: T,
    history: Vec<(T::Event, T::Reply)>,
    // one for each entry, for a close
    marks: Vec<Mark>,
    book: Book<L>,
}

impl<T: Turn, L: Session<T>> Model for Kept<T, L> {
    ghost use Rattle.std.specs.Prelude.{◌≡◌, length, map};
    ghost use Rattle.mailbox.specs.Replay.{Course, IsReplay};
    ghost use Rattle.mailbox.specs.declared.mark.Mark.TheVariants.{Empty};

    ghost Value = { Course T T.Event T.Reply };

    ghost view = { λ k. record {
      state = k.state;
      history = k.history.items;
      booked = k.book.total;
    } };

    ghost invariant = { λ k. IsReplay T.turns L.opening k.history.items k.state
        × (length k.history.items ≡ k.book.total)
        × (k.marks.items ≡ map (λ x. Empty) k.history.items) };
}

impl<T: Turn, L: Session<T>> Kept<T, L> {
    /// A state before its first turn.
    pub fn new(alloc: Global, book: Book<L>, state: T) -> Kept<T, L>
        requires opening { L.opening ≡ Some state }
        requires unused { book.total ≡ 0 }
        ensures { result ≡ record { state = state; history = []; booked = 0 } }
    {
        Kept {
            state,
            history: Vec::new(alloc),
            marks: Vec::new(alloc),
            book,
        }
    }

    /// What it keeps: its history is a replay from the state that the session names to its own
    /// state, and its book has counted each entry once.
    pub fn law(&self)
        ensures replay { IsReplay T.turns L.opening self.now.history self.now.state }
        ensures booked { length self.now.history ≡ self.now.booked }
    {
        let _ = &self.state;
    }

    /// Turns the state once by a closure, adds the entry, and counts the call on a share of the
    /// ledger. What the closure calls may start threads, where a trait's method may not. Refused
    /// for memory it makes no turn. Answers the entry's place and the reply.
    pub fn enter_by<F: FnOnce(&mut T, &T::Event) -> (T::Reply, T::Reply)>(
        &mut self,
        share: &mut Share<L>,
        event: T::Event,
        turn: F,
    ) -> Result<(u64, T::Reply), NoMemory>
        requires parts { 0 < share.old.parts }
        requires turn { TurnsBy F.FnOnce T.turns T.Reply.eq turn }

        ensures turned { IfOk result
            (λ r. HasTurned T.turns T.Reply.eq event r.1 self.old self.new) }
        ensures place { IfOk result (λ r. r.0 ≡ length self.old.history) }
        ensures counted { OnOk result (share.new.amount ≡ share.old.amount + 1) }
        // A count of calls has 64 bits.
        ensures within { OnOk result (share.new.amount < 2 ^ 64) }
        ensures parts { share.new.parts ≡ share.old.parts }

        ensures err { OnErr result (self.new ≡ self.old) }
        ensures not_counted { OnErr result (share.new.amount ≡ share.old.amount) }
    {
        let Kept {
            state,
            history,
            marks,
            book,
        } = self;
        history.reserve(1)?;
        marks.reserve(1)?;
        let place = history.len() as u64;
        let (stored, reply) = turned(state, &event, turn);
        book.add(share, 1);
        book.audit(share);
        put(history, (event, stored));
        put(marks, Mark::Empty);
        Ok((place, reply))
    }

    /// A share with all parts has counted as many calls as there are entries.
    pub(crate) fn audit(&mut self, share: &mut Share<L>)
        requires { share.old.parts ≡ L.parts }
        ensures counted { length self.new.history ≡ share.new.amount }
        ensures parts { share.new.parts ≡ share.old.parts }
        ensures amount { share.new.amount ≡ share.old.amount }
    {
        self.book.audit(share);
    }

    /// The state, its history, and an empty mark for each entry.
    pub(crate) fn into_parts(self) -> (T, Vec<(T::Event, T::Reply)>, Vec<Mark>)
        ensures replay { IsReplay T.turns L.opening result.1.items result.0 }
        ensures history { result.1.items ≡ self.history }
        ensures marks { result.2.items ≡ map (λ x. Mark.Empty) result.1.items }
    {
        let Kept {
            state,
            history,
            marks,
            book: _,
        } = self;
        (state, history, marks)
    }
}

impl<T: TurnAlone, L: Session<T>> Kept<T, L> {
    /// Turns the state once, adds the entry, and counts the call on a share of the ledger, as
    /// [`Kept::enter_by`] does.
    pub fn enter(
        &mut self,
        alloc: Global,
        share: &mut Share<L>,
        event: T::Event,
    ) -> Result<(u64, T::Reply), NoMemory>
        requires { 0 < share.old.parts }

        ensures turned { IfOk result
            (λ r. HasTurned T.turns T.Reply.eq event r.1 self.old self.new) }
        ensures place { IfOk result (λ r. r.0 ≡ length self.old.history) }
        ensures counted { OnOk result (share.new.amount ≡ share.old.amount + 1) }
        ensures within { OnOk result (share.new.amount < 2 ^ 64) }
        ensures parts { share.new.parts ≡ share.old.parts }

        ensures err { OnErr result (self.new ≡ self.old) }
        ensures not_counted { OnErr result (share.new.amount ≡ share.old.amount) }
    {
        self.enter_by(share, event, |state, event| state.turn(alloc, event))
    }
}

// One turn, by a closure.
fn turned<T: Turn, F: FnOnce(&mut T, &T::Event) -> (T::Reply, T::Reply)>(
    state: &mut T,
    event: &T::Event,
    turn: F,
) -> (T::Reply, T::Reply)
    requires { TurnsBy F.FnOnce T.turns T.Reply.eq turn }
    ensures lawful { T.turns state.old event.now result.0 state.new }
    ensures twice { T.Reply.eq result.0 result.1 ≡ true }
{
    turn(state, event)
}
