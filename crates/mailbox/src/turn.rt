//! What turns on an event and answers a reply.

ghost use Rattle.std.specs.Prelude.{◌≡◌, true, IfOk};

use cw_base::NoMemory;
use std::alloc::Global;

/// A state that an event turns into another one, with a reply.
///
/// What a turn may do is said by `turns`. What makes one is a closure, or [`TurnAlone::turn`].
pub trait Turn: Drop {
    type Event: Eq + Drop;

    type Reply: Eq + Drop;

    /// Which turns are lawful: from an old state, by an event, with a reply, to a new state.
    ghost turns: { Self → Self.Event → Self.Reply → Self → Type 0 };

    /// An equal event.
    fn copy(alloc: Global, event: &Self::Event) -> Result<Self::Event, NoMemory>
        ensures { IfOk result (λ copy. Self.Event.eq event.now copy ≡ true) };
}

/// A state that turns by itself, and starts no threads for it.
pub trait TurnAlone: Turn {
    /// Turns once, and gives its reply twice: one for the history, one for the caller.
    fn turn(&mut self, alloc: Global, event: &Self::Event) -> (Self::Reply, Self::Reply)
        ensures lawful { Self.turns self.old event.now result.0 self.new }
        ensures twice { Self.Reply.eq result.0 result.1 ≡ true };
}
