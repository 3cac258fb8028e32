//! The program of a member: each line is answered before the next is read.

ghost use Rattle.std.specs.Prelude.{◌≡◌, ℕ, None, Some, map, string_bytes};
ghost use Rattle.cw_rules.specs.declared.travel.Travel.{Travel as TravelValue};
ghost use Rattle.member_session.specs.Programs.{EndsUsage, Served, end_status, words_in};
ghost use Rattle.member_session.specs.Programs as programs;
ghost use Rattle.member_session.specs.Talk as talk;

use crate::running::Running;
use crate::session::Session;
use cw_base::{Digest32, Failed, Hasher, Sink, Source, Strategy};
use cw_rules::Travel;
use hail_report::write_all;
use hail_script::number_of;
use member_lines::{Input, Next};
use node::{Chunked, Uncut, Way};
use std::alloc::Global;
use std::thread::Threads;

/// How the program ends.
#[derive(Clone, Copy, Debug, PartialEq, Eq)]
pub enum End {
    /// The source is at its end, and each line was answered.
    Done,
    /// The words aren't those of the program.
    Usage,
    /// The source failed. Each line that came whole was answered.
    ReadFault,
    /// The sink failed.
    WriteFault,
    /// Memory is short. Of the answer to the last line nothing was written.
    NoMemory,
    /// More lines came, or more pieces of one, than a `u64` counts.
    Endless,
}

impl End {
    /// The exit status: 0, 2, 5, 6, 7 and 8, in the order of the variants.
    pub fn status(&self) -> u8
        ensures { result ≡ end_status self.now }
    {
        match self {
            End::Done => 0,
            End::Usage => 2,
            End::ReadFault => 5,
            End::WriteFault => 6,
            End::NoMemory => 7,
            End::Endless => 8,
        }
    }
}

const USAGE: &[u8] = b"usage: hail_member M [whole]\n";

/// Answers each line of the source on the sink, one after another: an answer is written whole
/// before the next line is read. It holds one line, its answer, and what the member holds.
pub fn member_program<
    H: Hasher<Digest = Digest32>,
    R: Threads + Sync,
    I: Source,
    O: Sink,
    S: Strategy,
>(rt: &R, alloc: Global, words: &[String], source: &mut I, sink: &mut O, strategy: &S) -> End
    // With other words nothing is read, and the usage is written.
    ensures usage { words_in (map string_bytes words.now) ≡ None
        → (source.new ≡ source.old)
        × EndsUsage (O.held sink.old) (O.held sink.new) (O.faults sink.old) (O.faults sink.new)
        result }

    // With its words, what came of the source was answered by that member.
    ensures served { (who : ℕ × TravelValue) → words_in (map string_bytes words.now) ≡ Some who
        → Served H.digest_of who (I.left source.old) (I.left source.new) (I.faults source.old)
        (I.faults source.new) (O.held sink.old) (O.held sink.new) (O.faults sink.old)
        (O.faults sink.new) result }
{
    match asked_of(words) {
        None => usage(sink),
        Some((id, Travel::Chunked)) => {
            serve::<H, Chunked, R, I, O, S>(rt, alloc, id, source, sink, strategy)
        }
        Some((id, Travel::Uncut)) => {
            serve::<H, Uncut, R, I, O, S>(rt, alloc, id, source, sink, strategy)
        }
    }
}

// The member that the words name, and how its blocks travel.
fn asked_of(words: &[String]) -> Option<(u16, Travel)>
    ensures { result ≡ words_in (map string_bytes words.now) }
{
    match words {
        [id] => by_way(Travel::Chunked, id.as_bytes()),
        [id, word] if word.as_bytes() == b"whole".as_slice() => {
            by_way(Travel::Uncut, id.as_bytes())
        }
        _ => None,
    }
}

fn by_way(travel: Travel, word: &[u8]) -> Option<(u16, Travel)>
    ensures { result ≡ programs.by_way travel word.now }
{
    match number_of(word) {
        Some(number) if number < 65_536 => Some((number as u16, travel)),
        _ => None,
    }
}

fn usage<O: Sink>(sink: &mut O) -> End
    ensures { EndsUsage (O.held sink.old) (O.held sink.new) (O.faults sink.old)
        (O.faults sink.new) result }
{
    match write_all(sink, USAGE) {
        Ok(()) => End::Usage,
        Err(Failed) => End::WriteFault,
    }
}

// Answers each line of the source on the sink.
fn serve<H: Hasher<Digest = Digest32>, W: Way, R: Threads + Sync, I: Source, O: Sink, S: Strategy>(
    rt: &R,
    alloc: Global,
    id: u16,
    source: &mut I,
    sink: &mut O,
    strategy: &S,
) -> End
    ensures { Served H.digest_of (id, W.travel) (I.left source.old) (I.left source.new)
        (I.faults source.old) (I.faults source.new) (O.held sink.old) (O.held sink.new)
        (O.faults sink.old) (O.faults sink.new) result }
{
    let Ok(mut input) = Input::new(alloc) else {
        return End::NoMemory;
    };
    let mut session: Session<Running<H, W>> = Session::fresh(alloc, id);
    'lines: for _ in 0..u64::MAX {
        let next = input.next(source);
        if let Some(end) = end_of(next) {
            drop(session);
            return end;
        }
        match answer_line(rt, alloc, session, input.line(), strategy, sink) {
            Ok(left) => session = left,
            Err(end) => return end,
        }
        if is_last(next) {
            drop(session);
            return End::Done;
        }
    }
    drop(session);
    End::Endless
}

// How the program ends where no line comes.
fn end_of(next: Next) -> Option<End>
    ensures { result ≡ programs.end_of next }
{
    match next {
        Next::Line | Next::Last => None,
        Next::End => Some(End::Done),
        Next::Fault => Some(End::ReadFault),
        Next::NoMemory => Some(End::NoMemory),
        Next::Endless => Some(End::Endless),
    }
}

fn is_last(next: Next) -> bool
    ensures { result ≡ programs.is_last_line next }
{
    matches!(next, Next::Last)
}

// Answers a line on the sink, or tells how the program ends.
fn answer_line<H: Hasher<Digest = Digest32>, W: Way, R: Threads + Sync, O: Sink, S: Strategy>(
    rt: &R,
    alloc: Global,
    session: Session<Running<H, W>>,
    line: &[u8],
    strategy: &S,
    sink: &mut O,
) -> Result<Session<Running<H, W>>, End>
    ensures { programs.AnswersLine (talk.answered H.digest_of W.travel session line.now)
        (O.held sink.old) (O.held sink.new) (O.faults sink.old) (O.faults sink.new) result }
{
    let mut out = String::new(alloc);
    let Ok(left) = session.answer(rt, alloc, line, strategy, &mut out) else {
        return Err(End::NoMemory);
    };
    match write_all(sink, out.as_bytes()) {
        Ok(()) => Ok(left),
        Err(Failed) => {
            drop(left);
            Err(End::WriteFault)
        }
    }
}
