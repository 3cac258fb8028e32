//! The lines of the header, until they are whole.

ghost use Rattle.std.specs.Prelude.{◌≡◌, ◌++◌, Err, IfOk, List, Ok, [], string_bytes, ℕ};
ghost use Rattle.hail_report.specs.Text as report;
ghost use Rattle.hail_script.specs.declared.error.RunError.TheVariants as error;
ghost use Rattle.member_session.specs.Talk as talk;

use crate::opening::Opening;
use crate::running::Running;
use crate::session::{Session, done, refused};
use cw_base::{Digest32, Hasher, Items, NoMemory, put_bytes, put_u8};
use hail_script::{RunError, Script};
use member_lines::Refusal;
use node::Way;
use std::alloc::Global;

/// The member's number, the lines of a header that isn't whole, each with its line feed, and how
/// many they are.
#[derive(Drop)]
pub struct Heading {
    id: u16,
    text: Items<u8>,
    count: u64,
}

impl Heading {
    /// No line yet. It takes no memory.
    pub(crate) fn new(alloc: Global, id: u16) -> Heading
        ensures { result ≡ record { id = id; text = []; count = 0 } }
    {
        Heading {
            id,
            text: Items::new(alloc),
            count: 0,
        }
    }

    /// Takes a line of the header.
    pub(crate) fn take<H: Hasher<Digest = Digest32>, W: Way>(
        self,
        alloc: Global,
        line: &[u8],
        out: &mut String,
    ) -> Result<Session<Running<H, W>>, NoMemory>
        ensures { IfOk result (λ left. talk.Answers (talk.headed W.travel self line.now)
            (string_bytes out.old) (string_bytes out.new) left) }
    {
        let longer = with_line(alloc, self.text.as_slice(), line)?;
        match Script::parse_by(alloc, W::travel(), longer.as_slice()) {
            Ok(script) => self.whole(alloc, &script, out),
            Err(RunError::NoMemory) => Err(NoMemory),
            Err(RunError::Syntax(at)) => self.open(longer, at, out),
            Err(error) => refused(Session::Heading(self), out, &refusal_of(&error)),
        }
    }

    // The header is that of this script.
    fn whole<H: Hasher<Digest = Digest32>, W: Way>(
        self,
        alloc: Global,
        script: &Script,
        out: &mut String,
    ) -> Result<Session<Running<H, W>>, NoMemory>
        ensures { IfOk result (λ left. (line : List ℕ)
            → talk.Answers (talk.headed_as self line (Ok script.now))
            (string_bytes out.old) (string_bytes out.new) left) }
    {
        if self.id >= script.members() {
            return refused(Session::Heading(self), out, &Refusal::UnknownMember);
        }
        let committees = script.committees(alloc)?;
        let opening = Opening::new(alloc, self.id, committees, script.backlog());
        done(Session::Opening(opening), out)
    }

    // The first line outside the grammar is this one: it may be one that hasn't come.
    fn open<H: Hasher<Digest = Digest32>, W: Way>(
        self,
        longer: Items<u8>,
        at: u64,
        out: &mut String,
    ) -> Result<Session<Running<H, W>>, NoMemory>
        ensures { IfOk result (λ left. (line : List ℕ) → longer ≡ talk.longer self line
            → talk.Answers (talk.headed_as self line (Err (error.Syntax at)))
            (string_bytes out.old) (string_bytes out.new) left) }
    {
        if at == 0 || at - 1 <= self.count {
            return refused(Session::Heading(self), out, &Refusal::Syntax);
        }
        let heading = Heading {
            id: self.id,
            text: longer,
            count: self.count + 1,
        };
        done(Session::Heading(heading), out)
    }
}

// The lines, and this one behind them.
fn with_line(alloc: Global, text: &[u8], line: &[u8]) -> Result<Items<u8>, NoMemory>
    ensures { IfOk result (λ longer. longer ≡ text.now ++ report.line line.now) }
{
    let mut longer = Vec::new(alloc);
    put_bytes(&mut longer, text)?;
    put_bytes(&mut longer, line)?;
    put_u8(&mut longer, b'\n')?;
    Ok(Items::from_vec(longer))
}

// Why a header is refused that can't be longer.
fn refusal_of(error: &RunError) -> Refusal
    ensures { result ≡ talk.why_headed error.now }
{
    match error {
        RunError::BadCommittee => Refusal::BadCommittee,
        RunError::UnknownMember(_) => Refusal::UnknownMember,
        _ => Refusal::Syntax,
    }
}
