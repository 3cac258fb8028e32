//! An archive that a run fills.

ghost use Rattle.std.specs.Prelude.{◌≡◌, IfOk, OnOk};
ghost use Rattle.std.specs.List.{fold};
ghost use Rattle.cw_archive.specs.Archived.{after_put};
ghost use Rattle.hail_world.specs.Reports.{shown_report};
ghost use Rattle.run_archive.specs.Program as spec;

use cw_archive::Archive;
use cw_base::{Digest32, Hasher, NoMemory, Strategy};
use cw_types::Message;
use hail_report::{Entry, Sent};
use hail_world::Report;
use node::Chunked;
use std::alloc::Global;
use std::thread::Threads;

/// An archive of so many bytes, to which the chunk of each shard message of a report was put, in
/// the order in which they were sent.
pub(crate) fn filled<H: Hasher<Digest = Digest32>, R: Threads + Sync, S: Strategy>(
    rt: &R,
    alloc: Global,
    limit: u64,
    report: &Report<H, Chunked>,
    strategy: &S,
) -> Result<Archive<H>, NoMemory>
    ensures { IfOk result
        (λ archive. archive ≡ spec.filled H.digest_of limit (shown_report report.now)) }
{
    let mut archive = Archive::new(alloc, limit)?;
    put_entries(rt, alloc, &mut archive, report.opening.as_slice(), strategy)?;
    put_entries(rt, alloc, &mut archive, report.steps.as_slice(), strategy)?;
    Ok(archive)
}

// Puts what these entries sent.
fn put_entries<H: Hasher<Digest = Digest32>, R: Threads + Sync, S: Strategy>(
    rt: &R,
    alloc: Global,
    archive: &mut Archive<H>,
    entries: &[Entry],
    strategy: &S,
) -> Result<(), NoMemory>
    ensures { OnOk result
        (archive.new ≡ fold (spec.after_entry H.digest_of) archive.old entries.now) }
{
    for entry in entries {
        put_sends(rt, alloc, archive, entry.sent.as_slice(), strategy)?;
    }
    Ok(())
}

// Puts the chunks of these messages.
fn put_sends<H: Hasher<Digest = Digest32>, R: Threads + Sync, S: Strategy>(
    rt: &R,
    alloc: Global,
    archive: &mut Archive<H>,
    messages: &[Sent],
    strategy: &S,
) -> Result<(), NoMemory>
    ensures { OnOk result
        (archive.new ≡ fold (spec.after_sent H.digest_of) archive.old messages.now) }
{
    for sent in messages {
        put_message(rt, alloc, archive, &sent.message, strategy)?;
    }
    Ok(())
}

// Puts the chunk of a message, if it carries one.
fn put_message<H: Hasher<Digest = Digest32>, R: Threads + Sync, S: Strategy>(
    rt: &R,
    alloc: Global,
    archive: &mut Archive<H>,
    message: &Message,
    strategy: &S,
) -> Result<(), NoMemory>
    ensures { OnOk result
        (archive.new ≡ spec.after_message H.digest_of archive.old message.now) }
{
    if let Message::Shard(commitment, chunk) = message {
        archive.put(rt, commitment, chunk.copy(alloc)?, strategy)?;
    }
    Ok(())
}
