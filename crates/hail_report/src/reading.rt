//! Reading a script whole, and writing a text whole.

ghost use Rattle.std.specs.Prelude.{◌≡◌, ◌+◌, ◌≤◌, ◌<◌, ◌++◌, List, ℕ, take, length, OnOk, OnErr};
ghost use Rattle.std.specs.Io.KnownBytes.{Consumes, Appends};
ghost use Rattle.cw_base.specs.Causes.{HasCause};
ghost use Rattle.hail_report.specs.Reading.{Reads};
ghost use Rattle.hail_report.specs.Writing.{WritesFront};

use cw_base::{Failed, Sink, Source, put_bytes};
use std::alloc::Global;

/// The most bytes of a script.
const LIMIT: usize = 16_777_216;

/// What reading a script gave.
#[derive(Drop)]
pub enum Reading {
    Whole(Vec<u8>),
    TooLong,
    Fault,
    NoMemory,
}

/// Reads a source to its end, or to one byte more than a script may have.
pub fn read_script<I: Source>(alloc: Global, input: &mut I) -> Reading
    ensures { Reads (I.left input.old) (I.left input.new) (I.faults input.old)
        (I.faults input.new) result }
{
    let mut text = Vec::new(alloc);
    let mut room = [0u8; 4096];
    'pieces: while text.len() <= LIMIT {
        let most = (LIMIT + 1 - text.len()).min(4096);
        let count = match input.take(&mut room[..most]) {
            Ok(count) => count,
            Err(Failed) => return Reading::Fault,
        };
        if count == 0 {
            return Reading::Whole(text);
        }
        if put_bytes(&mut text, &room[..count]).is_err() {
            return Reading::NoMemory;
        }
    }
    Reading::TooLong
}

/// Writes the whole of a text.
pub fn write_all<O: Sink>(output: &mut O, text: &[u8]) -> Result<(), Failed>
    ensures ok { OnOk result (Appends (O.held output.old) (O.held output.new) text.now) }
    ensures err { OnErr result (WritesFront (O.held output.old) (O.held output.new) text.now) }
    ensures cause { HasCause (O.faults output.old) (O.faults output.new) result }
{
    let mut at = 0;
    'pieces: while at < text.len() {
        at += output.put(&text[at..])?;
    }
    Ok(())
}
