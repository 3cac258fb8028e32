//! A source and a sink over memory, whose calls fail where their maker says: the outside of tests.

ghost use Rattle.std.specs.Prelude.{◌≡◌, ◌↔◌, ◌⊎◌, ◌-◌, ◌≤◌, max, min, Contains, IsErr, IfOk, OnOk};
ghost use Rattle.std.specs.Prelude.{OnErr, take, drop, length, ◌++◌, [], Some};
ghost use Rattle.std.specs.Io.{ReadsAtMost};
ghost use Rattle.std.specs.Io.KnownBytes.{ReadConsumes, WriteAppends};
ghost use Rattle.cw_base.specs.Causes.{HasCause};
ghost use Rattle.cw_base.specs.Memory.{counted, IsFull};
ghost use Rattle.cw_base.specs.Streams.{TakesSome};

use crate::error::{Failed, NoMemory};
use crate::stream::{Sink, Source};
use std::alloc::Global;
use std::marker::Model;

/// A source that gives the bytes of a `Vec`, and fails in the calls that its maker names.
#[derive(Drop)]
pub struct MemorySource {
    bytes: Vec<u8>,
    at: usize,
    piece: usize,
    failing: Vec<u64>,
    calls: u64,
    faults: u64,
}

impl Model for MemorySource {
    ghost use Rattle.std.specs.Prelude.{ℕ, ◌≤◌, length, drop};
    ghost use Rattle.cw_base.specs.Memory.{SourceState};

    ghost Value = { SourceState };

    ghost view = { λ s. record {
      left = drop s.at s.bytes.items;
      piece = s.piece;
      failing = s.failing.items;
      calls = s.calls;
      faults = s.faults;
    } };

    ghost invariant = { λ s. (s.at ≤ length s.bytes.items) × (1 ≤ s.piece) };
}

impl MemorySource {
    /// A source that gives at most `piece` bytes a call, at least one. The calls whose numbers,
    /// counted from 1, stand in `failing` fail, and no others.
    pub fn new(bytes: Vec<u8>, piece: usize, failing: Vec<u64>) -> MemorySource
        requires { 1 ≤ piece }
        ensures { result
            ≡ record {
              left = bytes.items;
              piece = piece;
              failing = failing.items;
              calls = 0;
              faults = 0;
            } }
    {
        MemorySource {
            bytes,
            at: 0,
            piece,
            failing,
            calls: 0,
            faults: 0,
        }
    }
}

impl Source for MemorySource {
    ghost left = { λ s. Some s.left };

    ghost faults = { λ s. s.faults };

    fn take(&mut self, room: &mut [u8]) -> Result<usize, Failed>
        ensures fails { IsErr result ↔ Contains self.old.failing (counted self.old.calls) }
        ensures count { IfOk result
            (λ n. n ≡ min (min self.old.piece (length room.old)) (length self.old.left)) }
        ensures given { IfOk result (λ n. take n room.new ≡ take n self.old.left) }
        ensures behind { IfOk result (λ n. drop n room.new ≡ drop n room.old) }
        ensures untouched { OnErr result (room.new ≡ room.old) }
        ensures ok { IfOk result
            (λ n. self.new
            ≡ record self.old { left = drop n self.old.left; calls = counted self.old.calls }) }
        ensures err { OnErr result
            (self.new
            ≡ record self.old {
              calls = counted self.old.calls;
              faults = counted self.old.faults;
            }) }

        // what every source promises
        ensures bound { ReadsAtMost result room.new }
        ensures bytes { ReadConsumes (Some self.old.left) (Some self.new.left) result room.new }
        ensures cause { HasCause self.old.faults self.new.faults result }
    {
        self.calls = self.calls.saturating_add(1);
        if self.failing.contains(&self.calls) {
            self.faults = self.faults.saturating_add(1);
            return Err(Failed);
        }
        let left = &self.bytes[self.at..];
        let count = self.piece.min(room.len()).min(left.len());
        room[..count].copy_from_slice(&left[..count]);
        self.at += count;
        Ok(count)
    }
}

/// A sink that keeps what it takes, within the room that was reserved, and fails in the calls that
/// its maker names.
#[derive(Drop)]
pub struct MemorySink {
    bytes: Vec<u8>,
    room: usize,
    piece: usize,
    failing: Vec<u64>,
    calls: u64,
    faults: u64,
}

impl Model for MemorySink {
    ghost use Rattle.std.specs.Prelude.{ℕ, ◌+◌, ◌≤◌, vec_len, vec_capacity};
    ghost use Rattle.cw_base.specs.Memory.{SinkState};

    ghost Value = { SinkState };

    ghost view = { λ s. record {
      held = s.bytes.items;
      room = s.room;
      piece = s.piece;
      failing = s.failing.items;
      calls = s.calls;
      faults = s.faults;
    } };

    ghost invariant = { λ s. (vec_len s.bytes + s.room ≤ vec_capacity s.bytes) × (1 ≤ s.piece) };
}

impl MemorySink {
    /// An empty sink with room for 1,024 bytes, that takes at most `piece` bytes a call, at least
    /// one. The calls whose numbers, counted from 1, stand in `failing` fail.
    pub fn new(alloc: Global, piece: usize, failing: Vec<u64>) -> Result<MemorySink, NoMemory>
        requires { 1 ≤ piece }
        ensures { IfOk result
            (λ s. s
            ≡ record {
              held = [];
              room = 1024;
              piece = piece;
              failing = failing.items;
              calls = 0;
              faults = 0;
            }) }
    {
        Ok(MemorySink {
            bytes: Vec::with_capacity(alloc, 1024)?,
            room: 1024,
            piece,
            failing,
            calls: 0,
            faults: 0,
        })
    }

    /// What was taken.
    pub fn bytes(&self) -> &[u8]
        ensures { result.now ≡ self.now.held }
    {
        &self.bytes
    }

    /// Makes room for at least `more` bytes beyond those taken. Where memory is short nothing
    /// changes.
    pub fn reserve(&mut self, more: usize) -> Result<(), NoMemory>
        ensures ok { OnOk result (self.new ≡ record self.old { room = max self.old.room more }) }
        ensures err { OnErr result (self.new ≡ self.old) }
    {
        self.bytes.reserve(more)?;
        self.room = self.room.max(more);
        Ok(())
    }
}

impl Sink for MemorySink {
    ghost held = { λ s. Some s.held };

    ghost faults = { λ s. s.faults };

    fn put(&mut self, bytes: &[u8]) -> Result<usize, Failed>
        ensures fails { IsErr result ↔ (Contains self.old.failing (counted self.old.calls)
            ⊎ IsFull self.old bytes.now) }
        ensures count { IfOk result
            (λ n. n ≡ min (min self.old.piece (length bytes.now)) self.old.room) }
        ensures ok { IfOk result
            (λ n. self.new
            ≡ record self.old {
              held = self.old.held ++ take n bytes.now;
              room = self.old.room - n;
              calls = counted self.old.calls;
            }) }
        ensures err { OnErr result
            (self.new
            ≡ record self.old {
              calls = counted self.old.calls;
              faults = counted self.old.faults;
            }) }

        // what every sink promises
        ensures bound { TakesSome result bytes.now }
        ensures bytes { WriteAppends (Some self.old.held) (Some self.new.held) result bytes.now }
        ensures cause { HasCause self.old.faults self.new.faults result }
    {
        self.calls = self.calls.saturating_add(1);
        if self.failing.contains(&self.calls) || (!bytes.is_empty() && self.room == 0) {
            self.faults = self.faults.saturating_add(1);
            return Err(Failed);
        }
        let count = self.piece.min(bytes.len()).min(self.room);
        self.bytes.extend_from_slice(&bytes[..count]).unwrap();
        self.room -= count;
        Ok(count)
    }
}
