//! The event that a line asks a member for, over the messages that were sent.

ghost use Rattle.std.specs.Prelude.{◌≡◌, IfOk};
ghost use Rattle.std.specs.Option.{option_map};
ghost use Rattle.cw_rules.specs.World as rule;
ghost use Rattle.hail_world.specs.Places.{is_faulty_member, world_of_pool};
ghost use Rattle.hail_report.specs.Pool.{sent_in};

use cw_base::NoMemory;
use cw_types::{Event, Message, To, Vote};
use hail_report::Pool;
use hail_script::{Ask, AskKind};
use std::alloc::Global;

/// Whether a member is marked as faulty.
pub(crate) fn is_faulty(faulty: &[bool], member: u16) -> bool
    ensures { result ≡ is_faulty_member faulty.now member }
{
    match faulty.get(usize::from(member)) {
        Some(faulty) => *faulty,
        None => false,
    }
}

fn is_to(to: To, member: u16) -> bool
    ensures { result ≡ rule.is_to member to }
{
    match to {
        To::All => true,
        To::One(other) => other == member,
    }
}

// The message of that number, where it was sent and goes to the member.
fn message_for(pool: &Pool, member: u16, number: u64) -> Option<&Message>
    ensures { option_map (λ message. message.now) result ≡ rule.message_for
        (world_of_pool (sent_in pool.now)) member number }
{
    match pool.get(number) {
        None => None,
        Some(sent) => {
            if !is_to(sent.to, member) {
                return None;
            }
            Some(&sent.message)
        }
    }
}

fn finalization(alloc: Global, message: &Message) -> Result<Option<Event>, NoMemory>
    ensures { IfOk result (λ event. event ≡ rule.as_finalization message.now) }
{
    let Message::Cert(cert) = message else {
        return Ok(None);
    };
    match cert.vote {
        Vote::Finalize(_) => Ok(Some(Event::Floor(cert.copy(alloc)?))),
        _ => Ok(None),
    }
}

fn delivered(
    alloc: Global,
    pool: &Pool,
    member: u16,
    number: u64,
) -> Result<Option<Event>, NoMemory>
    ensures { IfOk result
        (λ event. event
        ≡ rule.event_of (world_of_pool (sent_in pool.now)) member (rule.Deliver number)) }
{
    match message_for(pool, member, number) {
        None => Ok(None),
        Some(message) => Ok(Some(Event::Deliver(message.copy(alloc)?))),
    }
}

fn floor_of(alloc: Global, pool: &Pool, member: u16, number: u64) -> Result<Option<Event>, NoMemory>
    ensures { IfOk result
        (λ event. event
        ≡ rule.event_of (world_of_pool (sent_in pool.now)) member (rule.Floor number)) }
{
    match message_for(pool, member, number) {
        None => Ok(None),
        Some(message) => finalization(alloc, message),
    }
}

/// The event that a member is asked for, if there is one.
pub(crate) fn event_for(
    alloc: Global,
    pool: &Pool,
    member: u16,
    ask: &Ask,
) -> Result<Option<Event>, NoMemory>
    ensures { IfOk result
        (λ event. event ≡ rule.event_of (world_of_pool (sent_in pool.now)) member ask.now) }
{
    match ask.kind() {
        AskKind::Propose(payload) => Ok(Some(Event::Propose(payload.copy(alloc)?))),
        AskKind::Timeout(view) => Ok(Some(Event::Timeout(*view))),
        AskKind::Deliver(number) => delivered(alloc, pool, member, *number),
        AskKind::Ack => Ok(Some(Event::Ack)),
        AskKind::Prune(height) => Ok(Some(Event::Prune(*height))),
        AskKind::Floor(number) => floor_of(alloc, pool, member, *number),
        AskKind::Hint(height) => Ok(Some(Event::Hint(*height))),
    }
}
