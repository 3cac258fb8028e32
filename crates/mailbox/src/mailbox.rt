//! Mailboxes: parts of a session whose state lies under one lock, beside the calls that were made.

ghost use Rattle.std.specs.Prelude.{◌≡◌, ◌≢◌, ◌+◌, ◌-◌, ◌/◌, ◌<◌, ◌≤◌, [], ◌∷◌, Some, Err, IfErr};
ghost use Rattle.std.specs.Prelude.{IfOk, OnErr, OnOk, length, map, ℕ};
ghost use Rattle.mailbox.specs.Calls.{AreCalls, HasAddedCall, IsFirstFault, Mail, calls_in};
ghost use Rattle.mailbox.specs.Calls.{is_entry};
ghost use Rattle.mailbox.specs.Calls.{lists_of, mail_joined};
ghost use Rattle.mailbox.specs.Replay.{IsReplay, IsReplayToSome};
ghost use Rattle.mailbox.specs.Turning.{TurnsBy};

use crate::call::Call;
use crate::kept::Kept;
use crate::mark::first_fault;
use crate::room::put;
use crate::session::{Agreed, Session};
use crate::slot::{Slot, take_out};
use crate::turn::{Turn, TurnAlone};
use cw_base::NoMemory;
use std::alloc::Global;
use std::fmt;
use std::marker::Model;
use std::sync::ledger::{Blank, Share};
use std::sync::{Arc, Mutex, Wait};
use thiserror::Error;

/// Why a session was not closed. Its texts tell the parts and the place alone.
#[derive(Drop, Error)]
pub enum CloseError<T: Turn, L: Session<T>> {
    /// Not all parts of the session are here: another mailbox wasn't joined. The mailbox is handed
    /// back.
    #[error("not all parts of the session are here")]
    Open(Mailbox<T, L>),
    /// The history isn't the calls of all mailboxes: the least place of it that fails, the history,
    /// and the lists of calls. A place fails where not exactly one call has it, where the call that
    /// has it isn't the entry there, or where a call of it stands behind one of a greater place in
    /// its list.
    #[error("the history is not the calls of all mailboxes: place {0} fails")]
    Differs(u64, Vec<(T::Event, T::Reply)>, Vec<Vec<Call<T>>>),
}

impl<T: Turn, L: Session<T>> fmt::Debug for CloseError<T, L> {
    fn fmt<W: fmt::Write>(&self, f: &mut fmt::Formatter<W>) -> fmt::Result {
        match self {
            CloseError::Open(mailbox) => {
                let (parts, all) = (mailbox.parts, mailbox.all);
                write!(f, "Open({parts} of {all})")
            }
            CloseError::Differs(place, history, lists) => {
                let (entries, mailboxes) = (history.len(), lists.len());
                write!(
                    f,
                    "Differs({place}, {entries} entries, {mailboxes} mailboxes)"
                )
            }
        }
    }
}

/// Some parts of a session, at least one, and the calls that were made on them. All mailboxes of a
/// session share one state under one lock; each may be on a thread of its own.
///
/// Contracts see its parts, its own calls in their order, and the lists of those that were joined
/// into it.
///
/// ```text
/// fn session<L: Session<Counter>, R: Wait>(rt: &R, alloc: Global, blank: Blank) -> ..
///     requires { .. } // what `Mailbox::new` requires
/// {
///     let mut mailbox: Mailbox<Counter, L> = Mailbox::new(alloc, 2, blank, Counter::new())?;
///     let mut other = mailbox.split(alloc)?; // for another thread
///     let place = mailbox.step(rt, alloc, 5)?;
///     other.step(rt, alloc, 7)?;
///     mailbox.join(alloc, other)?;
///     mailbox.close(rt) // the counter, and the history of both calls
/// }
/// session::<Brand, _>(rt, alloc, Blank::new(2))
/// ```
#[derive(Drop)]
pub struct Mailbox<T: Turn, L: Session<T>> {
    shared: Arc<Mutex<Slot<T, L>>, Global>,
    share: Share<L>,
    parts: u64,
    all: u64,
    calls: u64,
    own: Vec<Call<T>>,
    // with room for one more, the own list at the close
    lists: Vec<Vec<Call<T>>>,
    agreed: Agreed<T, L>,
}

impl<T: Turn, L: Session<T>> Model for Mailbox<T, L> {
    ghost use Rattle.std.specs.Prelude.{◌≡◌, ◌+◌, ◌<◌, map, length, vec_len};
    ghost use Rattle.std.specs.Vec.{vec_capacity};
    ghost use Rattle.mailbox.specs.Calls.{Mail, calls_in};
    ghost use Rattle.mailbox.specs.declared.call.Call.{Call};

    ghost Value = { Mail (Call T T.Event T.Reply) };

    ghost view = { λ m. record {
      parts = m.parts;
      own = m.own.items;
      lists = map (λ v. v.items) m.lists.items;
    } };

    ghost invariant = { λ m. (0 < m.parts)
        × (m.share.parts ≡ m.parts)
        × (m.all ≡ L.all)
        × (m.share.amount ≡ m.calls)
        × (m.calls ≡ calls_in (map (λ v. v.items) m.lists.items) + length m.own.items)
        × (vec_len m.lists < vec_capacity m.lists) };
}

impl<T: Turn, L: Session<T>> Mailbox<T, L> {
    /// Opens the session that L names, in so many parts. Refused for memory it leaves nothing.
    pub fn new(alloc: Global, parts: u64, blank: Blank, state: T) -> Result<Mailbox<T, L>, NoMemory>
        requires name { blank.name ≡ L.name }
        requires blank { blank.parts ≡ L.parts }
        requires agreed { L.all ≡ L.parts }
        requires parts { parts ≡ L.all }
        requires some { 0 < parts }
        requires opening { L.opening ≡ Some state }
        ensures { IfOk result (λ m. m ≡ record { parts = parts; own = []; lists = [] }) }
    {
        let agreed: Agreed<T, L> = Agreed::new();
        let mut lists = Vec::new(alloc);
        lists.reserve(1)?;
        let (book, share) = blank.open::<L>();
        let kept = Kept::new(alloc, book, state);
        let shared = Arc::new(alloc, Mutex::new(Slot::Held(kept)))?;
        Ok(Mailbox {
            shared,
            share,
            parts,
            all: parts,
            calls: 0,
            own: Vec::new(alloc),
            lists,
            agreed,
        })
    }

    /// How many parts of the session it has, at least one.
    pub fn parts(&self) -> u64
        ensures parts { result ≡ self.now.parts }
        ensures some { 0 < result }
    {
        self.parts
    }

    /// Its own calls, in the order in which they were made.
    pub fn own(&self) -> &[Call<T>]
        ensures { result.now ≡ self.now.own }
    {
        self.own.as_slice()
    }

    /// How many calls are in all its lists.
    pub fn calls(&self) -> u64
        ensures { result ≡ calls_in (lists_of self.now) }
    {
        self.calls
    }

    /// Hands over half of its parts, rounded down, to a new mailbox without calls.
    pub fn split(&mut self, alloc: Global) -> Result<Mailbox<T, L>, NoMemory>
        requires { 2 ≤ self.old.parts }
        ensures half { IfOk result
            (λ m. m ≡ record { parts = self.old.parts / 2; own = []; lists = [] }) }
        ensures rest { OnOk result
            (self.new ≡ record self.old { parts = self.old.parts - self.old.parts / 2 }) }
        ensures err { OnErr result (self.new ≡ self.old) }
    {
        let half = self.parts / 2;
        let mut lists = Vec::new(alloc);
        lists.reserve(1)?;
        let shared = Arc::try_clone(&self.shared)?;
        let share = self.share.split_off(half, 0);
        self.parts -= half;
        Ok(Mailbox {
            shared,
            share,
            parts: half,
            all: self.all,
            calls: 0,
            own: Vec::new(alloc),
            lists,
            agreed: self.agreed.again(),
        })
    }

    /// Turns the state once by a closure, under the lock, and adds the call to its own list. It
    /// makes room and copies the event first: refused for memory it makes no turn. Answers the
    /// place of the entry in the history.
    ///
    /// What the closure calls may start threads, where [`TurnAlone::turn`] may not.
    pub fn step_by<R: Wait, F: FnOnce(&mut T, &T::Event) -> (T::Reply, T::Reply)>(
        &mut self,
        rt: &R,
        alloc: Global,
        event: T::Event,
        turn: F,
    ) -> Result<u64, NoMemory>
        requires { TurnsBy F.FnOnce T.turns T.Reply.eq turn }
        ensures ok { IfOk result
            (λ place. HasAddedCall T.turns T.Event.eq T.Reply.eq event place self.old self.new) }
        ensures err { OnErr result (self.new ≡ self.old) }
    {
        self.own.reserve(1)?;
        let copy = T::copy(alloc, &event)?;
        let Mailbox {
            shared,
            share,
            parts: _,
            all: _,
            calls,
            own,
            lists: _,
            agreed,
        } = self;
        let mut guard = shared.lock(rt);
        match &mut *guard {
            Slot::Held(kept) => {
                let (place, reply) = kept.enter_by(share, event, turn)?;
                let call = Call {
                    place,
                    event: copy,
                    reply,
                };
                put(own, call);
                *calls += 1;
                Ok(place)
            }
            Slot::Closed(all) => {
                agreed.tell();
                all.refuse(share);
                unreachable!()
            }
        }
    }

    /// Takes the parts and all lists of another mailbox of the session. It is handed back for want
    /// of memory alone.
    pub fn join(&mut self, _alloc: Global, other: Mailbox<T, L>) -> Result<(), Mailbox<T, L>>
        ensures ok { OnOk result (self.new ≡ mail_joined self.old other) }
        ensures back { IfErr result (λ m. m ≡ other) }
        ensures err { OnErr result (self.new ≡ self.old) }
    {
        let Some(all) = self.calls.checked_add(other.calls) else {
            return Err(other);
        };
        // for its lists, its own list, and the own list of this one
        let Some(room) = other.lists.len().checked_add(2) else {
            return Err(other);
        };
        if self.lists.reserve(room).is_err() {
            return Err(other);
        }
        let Mailbox {
            shared: _,
            share,
            parts,
            all: _,
            calls: _,
            own,
            mut lists,
            agreed: _,
        } = other;
        self.agreed.tell();
        self.share.merge(share);
        let Ok(()) = self.lists.append(&mut lists) else {
            unreachable!()
        };
        put(&mut self.lists, own);
        self.parts += parts;
        self.calls = all;
        Ok(())
    }

    /// Ends the session: the state and the history, which is the calls of all joined mailboxes.
    /// Takes no memory, and passes over each list once.
    pub fn close<R: Wait>(self, rt: &R) -> Result<(T, Vec<(T::Event, T::Reply)>), CloseError<T, L>>
        ensures replay { IfOk result (λ r. IsReplay T.turns L.opening r.1.items r.0) }
        ensures calls { IfOk result
            (λ r. AreCalls (is_entry T.Event.eq T.Reply.eq) r.1.items (lists_of self)) }
        ensures number { IfOk result (λ r. length r.1.items ≡ calls_in (lists_of self)) }
        ensures whole { OnOk result (self.parts ≡ L.all) }

        ensures open { self.parts ≢ L.all → result ≡ Err (CloseError.Open self) }
        ensures open_only { (m : _) → result ≡ Err (CloseError.Open m) → self.parts ≢ L.all }

        ensures differs { (place : ℕ) (history : _) (lists : _)
            → result ≡ Err (CloseError.Differs place history lists)
            → IsFirstFault (is_entry T.Event.eq T.Reply.eq) history.items (lists_of self) place }
        ensures differs_not { (place : ℕ) (history : _) (lists : _)
            → result ≡ Err (CloseError.Differs place history lists)
            → AreCalls (is_entry T.Event.eq T.Reply.eq) history.items (lists_of self) → ⊥ }
        ensures differs_lists { (place : ℕ) (history : _) (lists : _)
            → result ≡ Err (CloseError.Differs place history lists)
            → (self.parts ≡ L.all) × (map (λ v. v.items) lists.items ≡ lists_of self) }
        ensures differs_history { (place : ℕ) (history : _) (lists : _)
            → result ≡ Err (CloseError.Differs place history lists)
            → IsReplayToSome T.turns L.opening history.items
            × (length history.items ≡ calls_in (lists_of self)) }
    {
        if self.parts != self.all {
            return Err(CloseError::Open(self));
        }
        let Mailbox {
            shared,
            share,
            parts: _,
            all: _,
            calls: _,
            own,
            mut lists,
            agreed,
        } = self;
        agreed.tell();
        let (state, history, mut marks) = take_out(rt, &*shared, share);
        put(&mut lists, own);
        match first_fault(history.as_slice(), lists.as_slice(), marks.as_mut_slice()) {
            None => Ok((state, history)),
            Some(place) => Err(CloseError::Differs(place, history, lists)),
        }
    }
}

impl<T: TurnAlone, L: Session<T>> Mailbox<T, L> {
    /// Turns the state once, under the lock, and adds the call to its own list, as
    /// [`Mailbox::step_by`] does.
    pub fn step<R: Wait>(&mut self, rt: &R, alloc: Global, event: T::Event) -> Result<u64, NoMemory>
        ensures ok { IfOk result
            (λ place. HasAddedCall T.turns T.Event.eq T.Reply.eq event place self.old self.new) }
        ensures err { OnErr result (self.new ≡ self.old) }
    {
        self.step_by(rt, alloc, event, |state, event| state.turn(alloc, event))
    }
}
