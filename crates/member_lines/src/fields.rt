//! What the fields of a line stand for.

ghost use Rattle.std.specs.Prelude.{◌≡◌, ◌<◌, Ok, IfOk, IsTrue, map, nat_lt};
ghost use Rattle.std.specs.List.{list_all};
ghost use Rattle.cw_types.specs.Reading.{message_of as message_by};
ghost use Rattle.cw_types.specs.Reading.{to_the_end, vote_at};
ghost use Rattle.hail_script.specs.Pieces.{numbers};
ghost use Rattle.member_lines.specs.HostLines as lines;

use crate::claim::Claim;
use bytes::Bytes;
use cw_base::{Digest32, Items, NoMemory, Reader};
use cw_types::{Commitment, Message, Vote};
use hail_script::{bytes_of, numbers_of};
use std::alloc::Global;

// What was read, where nothing is left behind it.
fn to_the_end<T: Copy>(value: T, rest: &[u8]) -> Option<T>
    ensures { result ≡ to_the_end (Ok (value, rest.now)) }
{
    if rest.is_empty() { Some(value) } else { None }
}

/// The commitment that bytes are.
pub(crate) fn commitment_in(bytes: &[u8]) -> Option<Commitment>
    ensures { result ≡ lines.commitment_in bytes.now }
{
    let mut reader = Reader::new(bytes);
    match Commitment::read(&mut reader) {
        Ok(commitment) => to_the_end(commitment, reader.rest()),
        Err(_) => None,
    }
}

/// The digest that bytes are.
pub(crate) fn digest_in(bytes: &[u8]) -> Option<Digest32>
    ensures { result ≡ lines.digest_in bytes.now }
{
    if bytes.len() != 32 {
        return None;
    }
    let mut digest = [0; 32];
    digest.copy_from_slice(bytes);
    Some(Digest32(digest))
}

// The vote that bytes are.
fn vote_in(bytes: &[u8]) -> Option<Vote>
    ensures { result ≡ to_the_end (vote_at bytes.now) }
{
    let mut reader = Reader::new(bytes);
    match Vote::read(&mut reader) {
        Ok(vote) => to_the_end(vote, reader.rest()),
        Err(_) => None,
    }
}

/// The message that bytes are, whose payload shares them.
pub(crate) fn message_of(alloc: Global, bytes: Items<u8>) -> Result<Message, NoMemory>
    ensures { IfOk result (λ message. message ≡ message_by bytes) }
{
    let Ok(shared) = Bytes::from_vec(bytes.into_vec()) else {
        return Err(NoMemory);
    };
    let mut reader = Reader::new(&shared);
    match Message::read_shared(alloc, &shared, &mut reader) {
        Ok(message) => Ok(message),
        Err(_) => Err(NoMemory),
    }
}

fn are_small(numbers: &[u64]) -> bool
    ensures { result ≡ list_all (λ member. nat_lt member 65536) numbers.now }
{
    numbers.iter().all(|number| *number < 65_536)
}

fn narrow(alloc: Global, numbers: &[u64]) -> Result<Items<u16>, NoMemory>
    requires { IsTrue (list_all (λ member. nat_lt member 65536) numbers.now) }
    ensures { IfOk result (λ members. members ≡ numbers.now) }
{
    let mut members = Items::new(alloc);
    for number in numbers {
        members.push(*number as u16)?;
    }
    Ok(members)
}

// The numbers of members, if the fields are such.
fn members_of(alloc: Global, fields: &[&[u8]]) -> Result<Option<Items<u16>>, NoMemory>
    ensures { IfOk result
        (λ members. members
        ≡ lines.small_numbers (numbers (map (λ field. field.now) fields.now))) }
{
    let Some(numbers) = numbers_of(alloc, fields)? else {
        return Ok(None);
    };
    if !are_small(numbers.as_slice()) {
        return Ok(None);
    }
    Ok(Some(narrow(alloc, numbers.as_slice())?))
}

// A claim of the vote that bytes are. They may have come from outside, and a host can't tell
// whether they are one: so bytes that are none are a claim of nothing.
fn claim_of(vote: &[u8], signers: Items<u16>) -> Claim
    ensures { result ≡ record { vote = to_the_end (vote_at vote.now); signers = signers } }
{
    Claim {
        vote: vote_in(vote),
        signers,
    }
}

/// What a host vouches for, in the fields behind a message.
pub(crate) fn claim_in(alloc: Global, fields: &[&[u8]]) -> Result<Option<Claim>, NoMemory>
    ensures { IfOk result
        (λ claim. claim ≡ lines.claim_in (map (λ field. field.now) fields.now)) }
{
    let [vote, members @ ..] = fields else {
        return Ok(Some(Claim::nothing(alloc)));
    };
    let Some(vote) = bytes_of(alloc, vote)? else {
        return Ok(None);
    };
    match members_of(alloc, members)? {
        Some(signers) => Ok(Some(claim_of(vote.as_slice(), signers))),
        None => Ok(None),
    }
}
