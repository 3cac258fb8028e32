//! What names a session.

ghost use Rattle.std.specs.Prelude.{◌≡◌, ℕ, Option, None};

use std::marker::{Brand, PhantomData};
use std::sync::ledger::Ledger;

/// One session: into how many parts its ledger is cut, and the state that it opens with.
///
/// A session is a function over `L: Session<T>` that its caller calls at `Brand`, where the
/// caller's proof picks both: `all` is the number of parts of the `Blank` that it passes, `opening`
/// the state that the function hands to [`Mailbox::new`](crate::Mailbox::new).
pub trait Session<T>: Ledger {
    ghost all: { ℕ };

    ghost opening: { Option T };
}

impl<T> Session<T> for Brand {
    ghost all = { 0 };

    ghost opening = { None };
}

/// That the parts that a session names are those of its ledger. It is asked for once, since what
/// has a token of the ledger can't say so itself.
#[derive(Drop)]
pub(crate) struct Agreed<T, L: Session<T>> {
    state: PhantomData<T>,
    session: PhantomData<L>,
    ghost agreed: { L.all ≡ L.parts },
}

impl<T, L: Session<T>> Agreed<T, L> {
    pub(crate) fn new() -> Agreed<T, L>
        requires { L.all ≡ L.parts }
    {
        Agreed {
            state: PhantomData,
            session: PhantomData,
        }
    }

    /// Once more.
    pub(crate) fn again(&self) -> Agreed<T, L> {
        Agreed {
            state: PhantomData,
            session: PhantomData,
        }
    }

    /// What it says.
    pub(crate) fn tell(&self)
        ensures { L.all ≡ L.parts }
    {
        let _ = &self.state;
    }
}
