//! Standard input and output, and any other reader and writer: the trusted edge, of which only the
//! counts of faults are told.

ghost use Rattle.std.specs.Prelude.{◌≡◌, ℕ, List, Option, None};

use crate::error::Failed;
use crate::stream::{Sink, Source};
use std::io::{Read, Write};
use std::marker::Model;

/// A reader as a source. Its count is raised at each error. It tells no bytes.
#[derive(Drop)]
pub struct StdSource<R> {
    inner: R,
    faults: u64,
}

impl<R> Model for StdSource<R> {
    ghost use Rattle.cw_base.specs.Streams.{StreamState};

    ghost Value = { StreamState };

    ghost view = { λ stream. record { faults = stream.faults } };
}

impl<R> StdSource<R> {
    /// A source over a stream that hasn't failed yet.
    pub fn new(inner: R) -> StdSource<R>
        ensures no_faults { result.faults ≡ 0 }
    {
        StdSource { inner, faults: 0 }
    }
}

impl<R: Read> Source for StdSource<R> {
    ghost left = { λ _. None };

    ghost faults = { λ s. s.faults };

    fn take(&mut self, room: &mut [u8]) -> Result<usize, Failed> {
        match self.inner.read(room) {
            Ok(count) => Ok(count),
            Err(_) => {
                self.faults = self.faults.saturating_add(1);
                Err(Failed)
            }
        }
    }
}

/// A writer as a sink. Its count is raised at each error, and where nothing of a piece that is not
/// empty was taken. It tells no bytes.
#[derive(Drop)]
pub struct StdSink<W> {
    inner: W,
    faults: u64,
}

impl<W> Model for StdSink<W> {
    ghost use Rattle.cw_base.specs.Streams.{StreamState};

    ghost Value = { StreamState };

    ghost view = { λ stream. record { faults = stream.faults } };
}

impl<W> StdSink<W> {
    /// A sink over a stream that hasn't failed yet.
    pub fn new(inner: W) -> StdSink<W>
        ensures no_faults { result.faults ≡ 0 }
    {
        StdSink { inner, faults: 0 }
    }
}

impl<W: Write> Sink for StdSink<W> {
    ghost held = { λ _. None };

    ghost faults = { λ s. s.faults };

    fn put(&mut self, bytes: &[u8]) -> Result<usize, Failed> {
        match self.inner.write(bytes) {
            Ok(count) if count > 0 || bytes.is_empty() => Ok(count),
            _ => {
                self.faults = self.faults.saturating_add(1);
                Err(Failed)
            }
        }
    }
}
