//! Replies to turns, each of which is given twice.

ghost use Rattle.std.specs.Prelude.{◌≡◌, ◌⊎◌, true, IfOk};
ghost use Rattle.hail_script.specs.declared.error.RunError.TheVariants as cause;

use cw_base::{Items, NoMemory};
use hail_report::{Entry, Sent};
use hail_script::RunError;
use std::alloc::Global;

/// What a lane's turn gave: the entry of its line, or none where no line was left; or why no
/// further line is played.
pub(crate) type Reply = Result<Option<Entry>, RunError>;

fn copy_sent(alloc: Global, sent: &[Sent]) -> Result<Items<Sent>, NoMemory>
    ensures { IfOk result (λ copy. copy ≡ sent.now) }
{
    let mut copies = Items::new(alloc);
    for one in sent {
        copies.push(one.copy(alloc)?)?;
    }
    Ok(copies)
}

/// An equal entry.
pub(crate) fn copy_entry(alloc: Global, entry: &Entry) -> Result<Entry, NoMemory>
    ensures { IfOk result (λ copy. copy ≡ entry.now) }
{
    let sent = copy_sent(alloc, entry.sent.as_slice())?;
    let handed = Vec::from_slice(alloc, entry.handed.as_slice())?;
    Ok(Entry {
        line: entry.line,
        member: entry.member,
        found: entry.found,
        sent,
        handed: Items::from_vec(handed),
    })
}

fn copy_bytes(alloc: Global, bytes: &[u8]) -> Result<Items<u8>, NoMemory>
    ensures { IfOk result (λ copy. copy ≡ bytes.now) }
{
    Ok(Items::from_vec(Vec::from_slice(alloc, bytes)?))
}

fn copy_error(alloc: Global, error: &RunError) -> Result<RunError, NoMemory>
    ensures { IfOk result (λ copy. copy ≡ error.now) }
{
    match error {
        RunError::Syntax(line) => Ok(RunError::Syntax(*line)),
        RunError::BadCommittee => Ok(RunError::BadCommittee),
        RunError::UnknownMember(line) => Ok(RunError::UnknownMember(*line)),
        RunError::TooManyFaulty => Ok(RunError::TooManyFaulty),
        RunError::OversizeBlock(line) => Ok(RunError::OversizeBlock(*line)),
        RunError::HashClash(earlier, later) => Ok(RunError::HashClash(
            copy_bytes(alloc, earlier.as_slice())?,
            copy_bytes(alloc, later.as_slice())?,
        )),
        RunError::NoMemory => Ok(RunError::NoMemory),
    }
}

/// An error twice; or twice that memory is short, for its copies.
pub(crate) fn errors_again(alloc: Global, error: &RunError) -> (RunError, RunError)
    ensures value { (result.0 ≡ error.now) ⊎ (result.0 ≡ cause.NoMemory) }
    ensures twice { result.1 ≡ result.0 }
{
    let Ok(first) = copy_error(alloc, error) else {
        return (RunError::NoMemory, RunError::NoMemory);
    };
    let Ok(second) = copy_error(alloc, error) else {
        return (RunError::NoMemory, RunError::NoMemory);
    };
    (first, second)
}

/// What is equal is so to itself.
pub(crate) fn law_of_equality<T: Eq>(value: &T)
    ensures { T.eq value.now value.now ≡ true }
{
    let _ = value;
}
