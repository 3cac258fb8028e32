//! A source, line by line.

ghost use Rattle.std.specs.Prelude.{◌≡◌, ◌≤◌, ◌++◌, IfOk, OnErr, OnOk, [], length};
ghost use Rattle.std.specs.Io.KnownBytes.{Keeps};
ghost use Rattle.cw_base.specs.Causes.{HasCause};
ghost use Rattle.member_lines.specs.Ahead as ahead;

use cw_base::{Failed, NoMemory, Source, put_bytes};
use std::alloc::Global;
use std::marker::Model;

/// The most bytes of a line.
pub const LONGEST: usize = 4_194_304;

/// How many bytes are asked of a source at once.
const ROOM: usize = 65_536;

/// What comes next of a source.
#[derive(Clone, Copy, Debug, PartialEq, Eq)]
pub enum Next {
    /// A line, which ended with a line feed.
    Line,
    /// The last line, which has none: the source is at its end.
    Last,
    /// The source is at its end, and no line is left.
    End,
    /// The source failed.
    Fault,
    /// Memory is short.
    NoMemory,
    /// The line came in more pieces than a `u64` counts.
    Endless,
}

/// What was read of a source: a line, or as much of it as tells that it is too long, and what
/// stands behind it.
#[derive(Drop)]
pub struct Input {
    line: Vec<u8>,
    room: Vec<u8>,
    from: usize,
    to: usize,
}

impl Model for Input {
    ghost use Rattle.std.specs.Prelude.{◌≡◌, ◌≤◌, ◌-◌, drop, length, take};
    ghost use Rattle.member_lines.specs.Ahead.{Ahead};

    ghost Value = { Ahead };

    ghost view = { λ i. record {
      line = i.line.items;
      ahead = take (i.to - i.from) (drop i.from i.room.items);
    } };

    ghost invariant = { λ i. (i.from ≤ i.to) × (i.to ≤ length i.room.items)
        × (length i.room.items ≡ 65536) × (length i.line.items ≤ 4194305) };
}

impl Input {
    /// Nothing is read yet.
    pub fn new(alloc: Global) -> Result<Input, NoMemory>
        ensures { IfOk result (λ input. input ≡ record { line = []; ahead = [] }) }
    {
        let room = vec![in alloc; 0u8; ROOM]?;
        Ok(Input {
            line: Vec::new(alloc),
            room,
            from: 0,
            to: 0,
        })
    }

    /// The line that was read last, if it isn't too long; else its first 4,194,305 bytes.
    pub fn line(&self) -> &[u8]
        ensures { result.now ≡ self.now.line }
    {
        &self.line
    }

    /// Reads the next line. Of one that doesn't come whole, what came of it is the line, and the
    /// next call begins behind that.
    pub fn next<I: Source>(&mut self, source: &mut I) -> Next
        ensures { ahead.ReadsLine (I.left source.old) (I.left source.new) (I.faults source.old)
            (I.faults source.new) self.old.ahead self.new result }
    {
        self.line.clear();
        'pieces: for _ in 0..u64::MAX {
            match self.move_ahead() {
                Err(NoMemory) => return Next::NoMemory,
                Ok(true) => return Next::Line,
                Ok(false) => {}
            }
            match self.fill(source) {
                Err(Failed) => return Next::Fault,
                Ok(true) => {}
                Ok(false) => return if self.line.is_empty() {
                    Next::End
                } else {
                    Next::Last
                },
            }
        }
        Next::Endless
    }

    // Moves what stands ahead to the line, up to a line feed; tells whether there is one.
    fn move_ahead(&mut self) -> Result<bool, NoMemory>
        ensures ok { IfOk result (λ ended. ahead.Moves self.old self.new ended) }
        ensures err { OnErr result (self.new ≡ self.old) }
    {
        let pending = &self.room[self.from..self.to];
        match feed_in(pending) {
            Some(at) => {
                keep(&mut self.line, &pending[..at])?;
                self.from += at + 1;
                Ok(true)
            }
            None => {
                keep(&mut self.line, pending)?;
                self.from = self.to;
                Ok(false)
            }
        }
    }

    // Reads more, where nothing stands ahead; tells whether there was more.
    fn fill<I: Source>(&mut self, source: &mut I) -> Result<bool, Failed>
        ensures same { self.new.line ≡ self.old.line }
        ensures ok { IfOk result (λ more. ahead.Fills (I.left source.old) (I.left source.new)
            self.new.ahead more) }
        ensures err { OnErr result (Keeps (I.left source.old) (I.left source.new)) }
        ensures none { OnErr result (self.new.ahead ≡ []) }
        ensures cause { HasCause (I.faults source.old) (I.faults source.new) result }
    {
        self.from = 0;
        self.to = 0;
        self.to = source.take(&mut self.room)?;
        Ok(self.to > 0)
    }
}

// The place of the first line feed.
fn feed_in(bytes: &[u8]) -> Option<usize>
    ensures { ahead.FindsFeed bytes.now result }
{
    for (at, byte) in bytes.iter().enumerate() {
        if *byte == b'\n' {
            return Some(at);
        }
    }
    None
}

// Puts bytes to a line, as many as tell whether it is too long.
fn keep(line: &mut Vec<u8>, bytes: &[u8]) -> Result<(), NoMemory>
    requires { length line.old.items ≤ 4194305 }
    ensures ok { OnOk result (line.new.items ≡ ahead.kept_part (line.old.items ++ bytes.now)) }
    ensures err { OnErr result (line.new.items ≡ line.old.items) }
{
    let most = bytes.len().min(LONGEST + 1 - line.len());
    put_bytes(line, &bytes[..most])
}
