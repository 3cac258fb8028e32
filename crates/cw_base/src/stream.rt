//! Where bytes come from and where they go.

ghost use Rattle.std.specs.Prelude.{◌≡◌, ℕ, List, Option};
ghost use Rattle.std.specs.Io.{ReadsAtMost};
ghost use Rattle.std.specs.Io.KnownBytes.{ReadConsumes, WriteAppends};
ghost use Rattle.cw_base.specs.Causes.{HasCause};
ghost use Rattle.cw_base.specs.Streams.{TakesSome};

use crate::error::Failed;

/// Gives bytes until its end.
///
/// A source counts its faults. The count never falls, and a call fails only where it rose (or
/// stands at the end of a `u64`).
pub trait Source {
    /// The bytes that are left, where it tells them.
    ghost left: { Self → Option (List ℕ) };

    /// How often it has failed.
    ghost faults: { Self → ℕ };

    /// Fills a front of `room` and answers its length. Zero for a room that is not empty is the end
    /// of the input.
    fn take(&mut self, room: &mut [u8]) -> Result<usize, Failed>
        ensures bound { ReadsAtMost result room.new }
        ensures bytes { ReadConsumes (left self.old) (left self.new) result room.new }
        ensures cause { HasCause (faults self.old) (faults self.new) result };
}

/// Takes bytes.
///
/// A sink counts its faults as a source does.
pub trait Sink {
    /// The bytes taken so far, where it tells them.
    ghost held: { Self → Option (List ℕ) };

    /// How often it has failed.
    ghost faults: { Self → ℕ };

    /// Takes a prefix of `bytes` and answers its length, at least one for a piece that is not
    /// empty.
    fn put(&mut self, bytes: &[u8]) -> Result<usize, Failed>
        ensures bound { TakesSome result bytes.now }
        ensures bytes { WriteAppends (held self.old) (held self.new) result bytes.now }
        ensures cause { HasCause (faults self.old) (faults self.new) result };
}
