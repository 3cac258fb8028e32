//! What a device call does to the bytes of a disk in memory.

ghost use Rattle.std.specs.Prelude.{◌≡◌, ◌==◌, ◌+◌, ◌-◌, ◌≤◌, ◌<◌, ◌^◌, ◌++◌, [], ◌∷◌, ℕ, List};
ghost use Rattle.std.specs.Prelude.{length, map, IfOk, OnOk, OnErr, vec_len, vec_capacity};
ghost use Rattle.cw_base.specs.Causes.{Rose};
ghost use Rattle.cw_base.specs.Memory.{counted};
ghost use Rattle.node_disk.specs.Disk.{put_at};
ghost use Rattle.node_disk.specs.Record.{Write, Sync, Held, put_within, torn, put_torn};
ghost use Rattle.node_disk.specs.Record.{done_writes, write_of, effect, recorded_of, is_to_fail};
ghost use Rattle.node_disk.specs.Record.{by_number, has_succeeded, outcome_at, request_of};

use crate::DiskError;
use crate::record::{Action, Call, Outcome, Pending, Stop};
use std::alloc::{AllocError, Global};

// Makes room for more bytes: for an eighth of those that are there, where that is more, so that a
// disk holds little more than its bytes however large it is.
fn make_room(bytes: &mut Vec<u8>, more: usize) -> Result<(), AllocError>
    ensures { bytes.new.items ≡ bytes.old.items }
{
    let room = bytes.capacity() - bytes.len();
    if room < more {
        bytes.reserve_exact(more.max(bytes.len() / 8))?;
    }
    Ok(())
}

// Writes over what is there, and past the end.
pub(crate) fn put_bytes(bytes: &mut Vec<u8>, place: u64, new: &[u8]) -> Result<(), AllocError>
    ensures ok { OnOk result (bytes.new.items ≡ put_at bytes.old.items place new.now) }
    ensures err { OnErr result (bytes.new.items ≡ bytes.old.items) }
{
    let len = bytes.len();
    let at = (place as usize).min(len);
    let room = len - at;
    if new.len() <= room {
        bytes[at..at + new.len()].copy_from_slice(new);
    } else {
        make_room(bytes, new.len() - room)?;
        bytes.extend_from_slice(&new[room..])?;
        bytes[at..len].copy_from_slice(&new[..room]);
    }
    Ok(())
}

// The same, and the bytes end where they did.
fn put_inside(bytes: &mut Vec<u8>, place: u64, new: &[u8]) -> Result<(), AllocError>
    ensures ok { OnOk result (bytes.new.items ≡ put_within bytes.old.items place new.now) }
{
    let len = bytes.len();
    put_bytes(bytes, place, new)?;
    bytes.truncate(len);
    Ok(())
}

// The first of these bytes, and then the fill.
pub(crate) fn make_torn(
    alloc: Global,
    bytes: &[u8],
    cut: u64,
    fill: u8,
) -> Result<Vec<u8>, AllocError>
    ensures { IfOk result (λ v. v.items ≡ torn cut fill bytes.now) }
{
    let cut = (cut as usize).min(bytes.len());
    let mut made = bytes[..cut].to_vec(alloc)?;
    made.resize(bytes.len(), fill)?;
    Ok(made)
}

// What a write does. Where memory is refused nothing changes.
#[tactic(auto, using(crate::proofs::Writes::done_pushes))]
fn change_by_write(
    alloc: Global,
    bytes: &mut Vec<u8>,
    pending: &mut Vec<Pending>,
    place: u64,
    new: &[u8],
    outcome: Outcome,
) -> Result<(), AllocError>
    ensures seen { OnOk result ((held : Held) → bytes.old.items ≡ held.seen
        → bytes.new.items ≡ (effect held (Write place new.now) outcome).seen) }
    ensures unsynced { OnOk result ((held : Held)
        → map write_of pending.old.items ≡ done_writes held.writes
        → map write_of pending.new.items ≡ done_writes
        (effect held (Write place new.now) outcome).writes) }
    ensures err { OnErr result ((bytes.new.items ≡ bytes.old.items)
        × (pending.new.items ≡ pending.old.items)) }
{
    match outcome {
        Outcome::Done => {
            pending.reserve(1)?;
            let kept = new.to_vec(alloc)?;
            put_bytes(bytes, place, new)?;
            let _ = pending.push(Pending { place, bytes: kept });
            Ok(())
        }
        Outcome::Failed => Ok(()),
        Outcome::Stopped { cut, fill } => {
            let made = make_torn(alloc, new, cut, fill)?;
            put_bytes(bytes, place, &made)
        }
    }
}

// Tears the writes since the last sync, joined in order.
fn tear(
    alloc: Global,
    bytes: &mut Vec<u8>,
    pending: &[Pending],
    cut: u64,
    fill: u8,
) -> Result<(), AllocError>
    ensures { OnOk result
        (bytes.new.items ≡ put_torn cut fill (map write_of pending.now) bytes.old.items) }
{
    let mut left = cut;
    for write in pending {
        let made = make_torn(alloc, &write.bytes, left, fill)?;
        put_inside(bytes, write.place, &made)?;
        left = left.saturating_sub(write.bytes.len() as u64);
    }
    Ok(())
}

// What a sync does. Where memory is refused nothing changes.
fn change_by_sync(
    alloc: Global,
    bytes: &mut Vec<u8>,
    pending: &mut Vec<Pending>,
    outcome: Outcome,
) -> Result<(), AllocError>
    ensures seen { OnOk result ((held : Held) → bytes.old.items ≡ held.seen
        → map write_of pending.old.items ≡ done_writes held.writes
        → bytes.new.items ≡ (effect held Sync outcome).seen) }
    ensures unsynced { OnOk result ((held : Held)
        → map write_of pending.old.items ≡ done_writes held.writes
        → map write_of pending.new.items ≡ done_writes (effect held Sync outcome).writes) }
    ensures err { OnErr result ((bytes.new.items ≡ bytes.old.items)
        × (pending.new.items ≡ pending.old.items)) }
{
    match outcome {
        Outcome::Done => {
            pending.clear();
            Ok(())
        }
        Outcome::Failed => Ok(()),
        Outcome::Stopped { cut, fill } => {
            let mut next = bytes.to_vec(alloc)?;
            tear(alloc, &mut next, pending, cut, fill)?;
            *bytes = next;
            Ok(())
        }
    }
}

// What a device call does, with room for its record. Where memory is refused nothing changes.
pub(crate) fn change(
    alloc: Global,
    bytes: &mut Vec<u8>,
    pending: &mut Vec<Pending>,
    calls: &mut Vec<Call>,
    action: &Action,
    outcome: Outcome,
) -> Result<(), AllocError>
    ensures room { OnOk result (vec_len calls.new < vec_capacity calls.new) }
    ensures calls { calls.new.items ≡ calls.old.items }
    ensures seen { OnOk result ((held : Held) → bytes.old.items ≡ held.seen
        → map write_of pending.old.items ≡ done_writes held.writes
        → bytes.new.items ≡ (effect held (request_of action.now) outcome).seen) }
    ensures unsynced { OnOk result ((held : Held)
        → map write_of pending.old.items ≡ done_writes held.writes
        → map write_of pending.new.items ≡ done_writes
        (effect held (request_of action.now) outcome).writes) }
    ensures err { OnErr result ((bytes.new.items ≡ bytes.old.items)
        × (pending.new.items ≡ pending.old.items)) }
{
    calls.reserve(1)?;
    match action {
        Action::Write { place, bytes: new } => {
            change_by_write(alloc, bytes, pending, *place, new, outcome)
        }
        Action::Sync => change_by_sync(alloc, bytes, pending, outcome),
    }
}

fn is_to_fail(failing: &[u64], number: u64) -> bool
    ensures { result ≡ is_to_fail failing.now number }
{
    failing.iter().any(|x| *x == number)
}

// How it goes by the numbers that fail.
fn numbered(failing: &[u64], made: u64) -> Outcome
    requires { made + 1 < 2 ^ 64 }
    ensures { result ≡ by_number failing.now made }
{
    if is_to_fail(failing, made + 1) {
        Outcome::Failed
    } else {
        Outcome::Done
    }
}

// How the next device call goes, after as many as were made.
pub(crate) fn outcome_of(stop: Option<Stop>, failing: &[u64], made: u64) -> Outcome
    requires { made + 1 < 2 ^ 64 }
    ensures { result ≡ outcome_at stop failing.now made }
{
    match stop {
        None => numbered(failing, made),
        Some(stop) => match stop.after.checked_add(stop.call) {
            None => numbered(failing, made),
            Some(end) => {
                if end <= made {
                    Outcome::Failed
                } else if end == made + 1 {
                    Outcome::Stopped {
                        cut: stop.cut,
                        fill: stop.fill,
                    }
                } else {
                    numbered(failing, made)
                }
            }
        },
    }
}

pub(crate) fn has_succeeded(outcome: Outcome) -> bool
    ensures { result ≡ has_succeeded outcome }
{
    match outcome {
        Outcome::Done => true,
        Outcome::Failed | Outcome::Stopped { .. } => false,
    }
}

// A count that stays at its greatest value once it is there, and the answer of a call that failed.
pub(crate) fn count_fault(faults: &mut u64) -> DiskError
    ensures failed { result ≡ DiskError.Failed }
    ensures counted { faults.new ≡ counted faults.old }
    ensures cause { Rose faults.old faults.new }
    ensures later { faults.old ≤ faults.new }
{
    *faults = faults.saturating_add(1);
    DiskError::Failed
}

// Records a device call, for which there is room.
pub(crate) fn add_call(calls: &mut Vec<Call>, reopened: bool, action: Action, outcome: Outcome)
    requires { vec_len calls.old < vec_capacity calls.old }
    ensures { calls.new.items ≡ calls.old.items
        ++ record { reopened = reopened; action = action; outcome = outcome } ∷ [] }
{
    let _ = calls.push(Call {
        reopened,
        action,
        outcome,
    });
}
