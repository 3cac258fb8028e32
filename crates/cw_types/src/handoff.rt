//! What becomes of a payload that is made ready.

ghost use Rattle.std.specs.Prelude.{◌≡◌};
ghost use Rattle.cw_types.specs.Handoff as handoff;

/// What becomes of a payload that is made ready: it is voted for, it is kept for later, or there is
/// none yet.
///
/// ```text
/// Handoff::Stage(1).map(|x| x + 1) == Handoff::Stage(2)
/// ```
#[derive(Clone, Copy, Debug, PartialEq, Eq)]
pub enum Handoff<D> {
    /// The payload is voted for now.
    Vote(D),
    /// The payload is kept, without a vote.
    Stage(D),
    /// There is nothing yet.
    Wait,
}

impl<D> Handoff<D> {
    /// Whether there is nothing yet.
    pub fn is_wait(&self) -> bool
        ensures { result ≡ handoff.is_wait self.now }
    {
        match self {
            Handoff::Vote(_) | Handoff::Stage(_) => false,
            Handoff::Wait => true,
        }
    }

    /// The same with what `f` makes of the payload.
    pub fn map<E, F: FnOnce(D) -> E>(self, f: F) -> Handoff<E>
        requires { handoff.ForPayload (F.pre f) self }
        ensures mapped { handoff.IsMapped (F.post f) self result }
        ensures wait { handoff.is_wait result ≡ handoff.is_wait self }
    {
        match self {
            Handoff::Vote(payload) => Handoff::Vote(f(payload)),
            Handoff::Stage(payload) => Handoff::Stage(f(payload)),
            Handoff::Wait => Handoff::Wait,
        }
    }
}
