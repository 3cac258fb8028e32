//! What carries payloads to others, and what hears of them.

ghost use Rattle.std.specs.Prelude.{◌≡◌};

/// Whether what was handed over is taken.
#[derive(Clone, Copy, Debug, PartialEq, Eq)]
pub enum Feedback {
    /// It is taken.
    Ok,
    /// The other side has ended, and takes nothing more.
    Closed,
}

/// Sends payloads to other members. Nothing here asks for it: what a member sends is in its
/// [`StepOut`](crate::StepOut).
pub trait Relay {
    /// What a payload is known by.
    type Digest;
    /// What a member is known by.
    type PublicKey;
    /// To whom a payload is sent, and how.
    type Plan;

    /// Sends the payload by that plan.
    fn broadcast(&mut self, payload: Self::Digest, plan: Self::Plan) -> Feedback;
}

/// Hears of what happens. Nothing here asks for it.
pub trait Reporter {
    /// What happens.
    type Activity;

    /// Tells of it.
    fn report(&mut self, activity: Self::Activity) -> Feedback;
}

/// Knows how far something has come. Nothing here asks for it.
pub trait Monitor {
    /// How far it has come.
    type Index;

    /// The latest index.
    ghost latest: { Self → Self.Index };

    /// The latest index; to ask for it leaves it as it is.
    fn subscribe(&mut self) -> Self::Index
        ensures index { result ≡ latest self.old }
        ensures same { latest self.new ≡ latest self.old };
}
