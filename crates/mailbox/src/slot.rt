//! What lies under the lock of a session.

ghost use Rattle.std.specs.Prelude.{◌≡◌, ◌<◌, length, map};
ghost use Rattle.mailbox.specs.Replay.{IsReplay};

use crate::kept::Kept;
use crate::mark::Mark;
use crate::session::Session;
use crate::turn::Turn;
use std::marker::PhantomData;
use std::mem;
use std::sync::ledger::Share;
use std::sync::{Mutex, Wait};

/// The state with its history; or, once the session was closed, all parts of its ledger, so that no
/// mailbox can be left.
#[derive(Drop)]
pub(crate) enum Slot<T: Turn, L: Session<T>> {
    Held(Kept<T, L>),
    Closed(AllParts<T, L>),
}

/// All parts of the ledger of a session.
#[derive(Drop)]
pub(crate) struct AllParts<T, L: Session<T>> {
    state: PhantomData<T>,
    share: Share<L>,
    ghost all: { share.parts ≡ L.all },
}

impl<T, L: Session<T>> AllParts<T, L> {
    fn new(share: Share<L>) -> AllParts<T, L>
        requires { share.parts ≡ L.all }
    {
        AllParts {
            state: PhantomData,
            share,
        }
    }

    /// Beside all parts there is none.
    pub(crate) fn refuse(&mut self, share: &mut Share<L>)
        requires agreed { L.all ≡ L.parts }
        requires some { 0 < share.old.parts }
        ensures { ⊥ }
    {
        share.give(&mut self.share, 0, 0);
    }
}

/// Takes the state, its history and the marks out of the lock, and leaves all parts there.
pub(crate) fn take_out<T: Turn, L: Session<T>, R: Wait>(
    rt: &R,
    shared: &Mutex<Slot<T, L>>,
    share: Share<L>,
) -> (T, Vec<(T::Event, T::Reply)>, Vec<Mark>)
    requires agreed { L.all ≡ L.parts }
    requires all { share.parts ≡ L.all }
    requires some { 0 < share.parts }
    ensures replay { IsReplay T.turns L.opening result.1.items result.0 }
    ensures calls { length result.1.items ≡ share.amount }
    ensures marks { result.2.items ≡ map (λ x. Mark.Empty) result.1.items }
{
    let mut share = share;
    let mut guard = shared.lock(rt);
    match &mut *guard {
        Slot::Held(kept) => kept.audit(&mut share),
        Slot::Closed(all) => {
            all.refuse(&mut share);
            unreachable!()
        }
    }
    match mem::replace(&mut *guard, Slot::Closed(AllParts::new(share))) {
        Slot::Held(kept) => kept.into_parts(),
        Slot::Closed(_) => unreachable!(),
    }
}
