//! How a program ends that reads a script, runs it, and writes what it makes of the run.

ghost use Rattle.std.specs.Prelude.{◌≡◌};
ghost use Rattle.hail_report.specs.Exits.{EndsEarly, Finishes, early_of as early_by, status_of};
ghost use Rattle.hail_report.specs.declared.exit.Early.TheVariants as cause;

use crate::reading::write_all;
use crate::text::{clash_text, error_text};
use cw_base::{Failed, Items, Sink};
use hail_script::RunError;
use std::alloc::Global;

/// How a program ends. Each end but want of memory and a fault has written one text, whole.
#[derive(Drop)]
pub enum Exit<R> {
    /// The text that the program makes of the report was written.
    Done(R),
    /// The words aren't those of the program.
    Usage,
    /// The source gave more than 16,777,216 bytes.
    TooLong,
    /// The text isn't run.
    Refused(RunError),
    /// The run ends in two blocks of one digest. Their encodings, the earlier first.
    Clash(Items<u8>, Items<u8>),
    /// The source failed. Nothing was written.
    ReadFault,
    /// The sink failed. What it took is a front of the text.
    WriteFault,
    /// Memory is short. Nothing was written.
    NoMemory,
}

impl<R> Exit<R> {
    /// The exit status: 0, 2, 3, 3, 4, 5, 6 and 7, in the order of the variants.
    pub fn status(&self) -> u8
        ensures { result ≡ status_of self.now }
    {
        match self {
            Exit::Done(_) => 0,
            Exit::Usage => 2,
            Exit::TooLong => 3,
            Exit::Refused(_) => 3,
            Exit::Clash(..) => 4,
            Exit::ReadFault => 5,
            Exit::WriteFault => 6,
            Exit::NoMemory => 7,
        }
    }
}

/// Why a source's script has no report.
#[derive(Drop)]
pub enum Early {
    /// The source gave more than 16,777,216 bytes.
    TooLong,
    /// The text isn't run.
    Refused(RunError),
    /// The run ends in two blocks of one digest. Their encodings, the earlier first.
    Clash(Items<u8>, Items<u8>),
    /// The source failed.
    ReadFault,
    /// Memory is short.
    NoMemory,
}

const TOO_LONG: &[u8] = b"error TooLong\n";

/// Why a run has no report.
pub fn early_of(error: RunError) -> Early
    ensures { result ≡ early_by error }
{
    match error {
        RunError::NoMemory => Early::NoMemory,
        RunError::HashClash(earlier, later) => Early::Clash(earlier, later),
        other => Early::Refused(other),
    }
}

/// Writes the line of the cause for which there is no report, and ends so. Of a fault of the
/// source, and where memory is short, nothing is written.
pub fn end_early<X: Drop, O: Sink>(alloc: Global, output: &mut O, early: Early) -> Exit<X>
    ensures { EndsEarly (O.held output.old) (O.held output.new) (O.faults output.old)
        (O.faults output.new) early result }
{
    match early {
        Early::TooLong => finish(output, TOO_LONG, Exit::TooLong),
        Early::Refused(error) => end_refused(alloc, output, error),
        Early::Clash(earlier, later) => end_clash(alloc, output, earlier, later),
        Early::ReadFault => Exit::ReadFault,
        Early::NoMemory => Exit::NoMemory,
    }
}

fn end_refused<X: Drop, O: Sink>(alloc: Global, output: &mut O, error: RunError) -> Exit<X>
    ensures { EndsEarly (O.held output.old) (O.held output.new) (O.faults output.old)
        (O.faults output.new) (cause.Refused error) result }
{
    match error_text(alloc, &error) {
        Ok(text) => finish(output, &text, Exit::Refused(error)),
        Err(_) => Exit::NoMemory,
    }
}

fn end_clash<X: Drop, O: Sink>(
    alloc: Global,
    output: &mut O,
    earlier: Items<u8>,
    later: Items<u8>,
) -> Exit<X>
    ensures { EndsEarly (O.held output.old) (O.held output.new) (O.faults output.old)
        (O.faults output.new) (cause.Clash earlier later) result }
{
    match clash_text(alloc, earlier.as_slice(), later.as_slice()) {
        Ok(text) => finish(output, &text, Exit::Clash(earlier, later)),
        Err(_) => Exit::NoMemory,
    }
}

/// Writes a text whole, and then ends so; or tells that the sink failed behind a front of the text.
pub fn finish<X: Drop, O: Sink>(output: &mut O, text: &[u8], exit: Exit<X>) -> Exit<X>
    ensures { Finishes (O.held output.old) (O.held output.new) (O.faults output.old)
        (O.faults output.new) text.now exit result }
{
    match write_all(output, text) {
        Ok(()) => exit,
        Err(Failed) => Exit::WriteFault,
    }
}
