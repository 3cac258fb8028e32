//! What is told of a start and of a step.

ghost use Rattle.std.specs.Prelude.{◌≡◌, ◌++◌, OnOk, map, string_bytes};
ghost use Rattle.std.specs.List.{flat_map};
ghost use Rattle.marshal.specs.Stored.{marshal_rules, notes_of};
ghost use Rattle.node_disk.specs.Host.{told_of};
ghost use Rattle.member_lines.specs.Answers as lines;
ghost use Rattle.member_session.specs.Told as told;

use cw_base::{Digest32, Hasher, NoMemory};
use cw_types::{Handed, Out, TicketOut};
use marshal::{Identifier, Marshal};
use member_lines::{put_handed, put_send, put_sync, put_ticket, put_write};
use node_disk::{Disk, HostCall};
use std::alloc::Global;

/// Puts device calls, in their order.
pub(crate) fn put_calls(alloc: Global, out: &mut String, calls: &[HostCall]) -> Result<(), NoMemory>
    ensures { OnOk result (string_bytes out.new
        ≡ string_bytes out.old ++ flat_map told.call_line (map told_of calls.now)) }
{
    for call in calls {
        put_call(alloc, out, call)?;
    }
    Ok(())
}

fn put_call(alloc: Global, out: &mut String, call: &HostCall) -> Result<(), NoMemory>
    ensures { OnOk result (string_bytes out.new
        ≡ string_bytes out.old ++ told.call_line (told_of call.now)) }
{
    match call {
        HostCall::Write { place, bytes, .. } => put_write(alloc, out, *place, bytes.as_slice()),
        HostCall::Sync { .. } => put_sync(out),
    }
}

/// Puts messages to send, in their order.
pub(crate) fn put_sends(alloc: Global, out: &mut String, sent: &[Out]) -> Result<(), NoMemory>
    ensures { OnOk result (string_bytes out.new
        ≡ string_bytes out.old ++ flat_map lines.send_line sent.now) }
{
    for one in sent {
        put_send(alloc, out, one)?;
    }
    Ok(())
}

/// Puts the blocks that are handed out, in their order.
pub(crate) fn put_all_handed<H: Hasher<Digest = Digest32>, D: Disk>(
    alloc: Global,
    out: &mut String,
    marshal: &Marshal<H, D>,
    handed: &[Handed],
) -> Result<(), NoMemory>
    ensures { OnOk result (string_bytes out.new
        ≡ string_bytes out.old
        ++ flat_map (told.hand_out_line (marshal_rules H.digest_of marshal.now) (notes_of marshal.now))
        handed.now) }
{
    for one in handed {
        put_one_handed(alloc, out, marshal, one)?;
    }
    Ok(())
}

fn put_one_handed<H: Hasher<Digest = Digest32>, D: Disk>(
    alloc: Global,
    out: &mut String,
    marshal: &Marshal<H, D>,
    handed: &Handed,
) -> Result<(), NoMemory>
    ensures { OnOk result (string_bytes out.new
        ≡ string_bytes out.old
        ++ told.hand_out_line (marshal_rules H.digest_of marshal.now) (notes_of marshal.now)
        handed.now) }
{
    match marshal.get_block(Identifier::Commitment(handed.commitment)) {
        Some(block) => put_handed(alloc, out, handed, block.payload().bytes()),
        None => Ok(()),
    }
}

/// Puts what is said of tickets, in its order.
pub(crate) fn put_tickets(
    alloc: Global,
    out: &mut String,
    tickets: &[TicketOut],
) -> Result<(), NoMemory>
    ensures { OnOk result (string_bytes out.new
        ≡ string_bytes out.old ++ flat_map lines.ticket_line tickets.now) }
{
    for ticket in tickets {
        put_ticket(alloc, out, ticket)?;
    }
    Ok(())
}
