//! The talk of a member with its host: what each line leaves, and what is answered.

ghost use Rattle.std.specs.Prelude.{◌≡◌, ◌++◌, IfOk, string_bytes};
ghost use Rattle.member_lines.specs.Answers.{no_line, ok_line};
ghost use Rattle.member_session.specs.Talk as talk;

use crate::heading::Heading;
use crate::opening::Opening;
use crate::running::Running;
use cw_base::{Digest32, Hasher, NoMemory, Strategy};
use member_lines::{HostLine, LONGEST, Refusal, put_no, put_ok};
use node::Way;
use std::alloc::Global;
use std::thread::Threads;

/// A member and its host, between two lines.
#[derive(Drop)]
pub enum Session<M> {
    /// The header isn't whole.
    Heading(Heading),
    /// The header is known, and the member hasn't started.
    Opening(Opening),
    /// The member is at work.
    Running(M),
}

/// Ends the answer to a line that was done.
pub(crate) fn done<M: Drop>(session: Session<M>, out: &mut String) -> Result<Session<M>, NoMemory>
    ensures { IfOk result (λ left. (left ≡ session)
        × (string_bytes out.new ≡ string_bytes out.old ++ ok_line)) }
{
    put_ok(out)?;
    Ok(session)
}

/// Answers a line that was refused.
pub(crate) fn refused<M: Drop>(
    session: Session<M>,
    out: &mut String,
    refusal: &Refusal,
) -> Result<Session<M>, NoMemory>
    ensures { IfOk result (λ left. (left ≡ session)
        × (string_bytes out.new ≡ string_bytes out.old ++ no_line refusal.now)) }
{
    put_no(out, refusal)?;
    Ok(session)
}

impl<H: Hasher<Digest = Digest32>, W: Way> Session<Running<H, W>> {
    /// A member of this number, of which nothing else is known. It takes no memory.
    pub fn fresh(alloc: Global, id: u16) -> Session<Running<H, W>>
        ensures { result ≡ talk.new_session id }
    {
        Session::Heading(Heading::new(alloc, id))
    }

    /// Answers a line, behind what is there. Where memory is short the member is gone, and its host
    /// starts another process on its file.
    pub fn answer<R: Threads + Sync, S: Strategy>(
        self,
        rt: &R,
        alloc: Global,
        line: &[u8],
        strategy: &S,
        out: &mut String,
    ) -> Result<Session<Running<H, W>>, NoMemory>
        ensures { IfOk result
            (λ left. talk.Answers (talk.answered H.digest_of W.travel self line.now)
            (string_bytes out.old) (string_bytes out.new) left) }
    {
        if line.len() > LONGEST {
            return refused(self, out, &Refusal::TooLong);
        }
        match HostLine::read(alloc, line) {
            Ok(Ok(asked)) => {
                let left = self.ask(rt, alloc, &asked, strategy, out);
                drop(asked);
                left
            }
            Ok(Err(refusal)) => self.head(alloc, line, &refusal, out),
            Err(NoMemory) => {
                drop(self);
                Err(NoMemory)
            }
        }
    }

    // A line that asks for nothing: until the header is whole it may be one of that.
    fn head(
        self,
        alloc: Global,
        line: &[u8],
        refusal: &Refusal,
        out: &mut String,
    ) -> Result<Session<Running<H, W>>, NoMemory>
        ensures { IfOk result
            (λ left. talk.Answers (talk.else_headed W.travel self line.now refusal.now)
            (string_bytes out.old) (string_bytes out.new) left) }
    {
        match self {
            Session::Heading(heading) => match refusal {
                Refusal::Syntax => heading.take::<H, W>(alloc, line, out),
                _ => refused(Session::Heading(heading), out, refusal),
            },
            Session::Opening(opening) => refused(Session::Opening(opening), out, refusal),
            Session::Running(running) => refused(Session::Running(running), out, refusal),
        }
    }

    // A line that asks for this.
    fn ask<R: Threads + Sync, S: Strategy>(
        self,
        rt: &R,
        alloc: Global,
        asked: &HostLine,
        strategy: &S,
        out: &mut String,
    ) -> Result<Session<Running<H, W>>, NoMemory>
        ensures { IfOk result
            (λ left. talk.Answers (talk.answered_ask H.digest_of W.travel self asked.now)
            (string_bytes out.old) (string_bytes out.new) left) }
    {
        match self {
            Session::Heading(heading) => {
                refused(Session::Heading(heading), out, &Refusal::TooEarly)
            }
            Session::Opening(opening) => opening.take(rt, alloc, asked, strategy, out),
            Session::Running(running) => running.take(rt, alloc, asked, strategy, out),
        }
    }
}
