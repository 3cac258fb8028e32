//! What a host asks for by a line.

ghost use Rattle.std.specs.Prelude.{◌≡◌, IfOk, map, option_and_then};
ghost use Rattle.hail_script.specs.Pieces.{bytes_in, number};
ghost use Rattle.member_lines.specs.HostLines as lines;

use crate::claim::Claim;
use crate::fields::{claim_in, commitment_in, digest_in, message_of};
use crate::refusal::Refusal;
use cw_base::{Digest32, Items, NoMemory};
use cw_types::{Commitment, Event, Message, Payload, Vote};
use hail_script::{bytes_of, number_of, pieces_of};
use std::alloc::Global;

/// A question, which changes nothing.
#[derive(Debug, Drop)]
pub enum Question {
    /// The finalized block of a height.
    At(u64),
    /// The first block of a digest.
    OfDigest(Digest32),
    /// The block under a commitment.
    Under(Commitment),
    /// The finalization of a height.
    Final(u64),
    /// The view that the member is in, and who leads it.
    View,
    /// The vote that a message is of, and its signers.
    Names(Message),
}

/// What a line asks for.
#[derive(Debug, Drop)]
pub enum HostLine {
    /// To hold these bytes behind what the file is known to hold.
    Disk(Items<u8>),
    /// To start on the file.
    Start,
    /// To take an event, with what the host vouches for.
    Take(Event, Claim),
    /// To answer a question.
    Ask(Question),
}

// How a line was read, unless memory is short.
type Read = Result<Result<HostLine, Refusal>, NoMemory>;

impl HostLine {
    /// What a line asks for behind the header, or why it is refused. docs/PROTOCOL.md has each
    /// line's form.
    pub fn read(alloc: Global, line: &[u8]) -> Result<Result<HostLine, Refusal>, NoMemory>
        ensures { IfOk result (λ read. read ≡ lines.host_line line.now) }
    {
        let parts = pieces_of(alloc, line, b' ')?;
        line_in(alloc, &parts)
    }
}

fn line_in(alloc: Global, parts: &[&[u8]]) -> Read
    ensures { IfOk result (λ read. read ≡ lines.host_line_in (map (λ part. part.now) parts.now)) }
{
    match parts {
        [] => Ok(Err(Refusal::Syntax)),
        [word] => Ok(or_syntax(alone(alloc, word))),
        [word, field, claim @ ..] if *word == b"deliver".as_slice() => {
            delivered(alloc, field, claim)
        }
        [word, field, claim @ ..] if *word == b"floor".as_slice() => given_up(alloc, field, claim),
        [word, field] => with_field(alloc, word, field),
        _ => Ok(Err(Refusal::Syntax)),
    }
}

fn or_syntax(line: Option<HostLine>) -> Result<HostLine, Refusal>
    ensures { result ≡ lines.or_syntax line }
{
    match line {
        Some(line) => Ok(line),
        None => Err(Refusal::Syntax),
    }
}

fn taking(alloc: Global, event: Event) -> HostLine
    ensures { result ≡ lines.taking event }
{
    HostLine::Take(event, Claim::nothing(alloc))
}

fn alone(alloc: Global, word: &[u8]) -> Option<HostLine>
    ensures { result ≡ lines.alone word.now }
{
    if word == b"start".as_slice() {
        return Some(HostLine::Start);
    }
    if word == b"ack".as_slice() {
        return Some(taking(alloc, Event::Ack));
    }
    if word == b"view".as_slice() {
        return Some(HostLine::Ask(Question::View));
    }
    None
}

fn number_asked(alloc: Global, word: &[u8], number: u64) -> Option<HostLine>
    ensures { result ≡ lines.number_asked word.now number }
{
    if word == b"timeout".as_slice() {
        return Some(taking(alloc, Event::Timeout(number)));
    }
    if word == b"prune".as_slice() {
        return Some(taking(alloc, Event::Prune(number)));
    }
    if word == b"hint".as_slice() {
        return Some(taking(alloc, Event::Hint(number)));
    }
    if word == b"cancel".as_slice() {
        return Some(taking(alloc, Event::Cancel(number)));
    }
    if word == b"at".as_slice() {
        return Some(HostLine::Ask(Question::At(number)));
    }
    if word == b"final".as_slice() {
        return Some(HostLine::Ask(Question::Final(number)));
    }
    None
}

fn payload_asked(alloc: Global, payload: Items<u8>) -> Result<HostLine, Refusal>
    ensures { result ≡ lines.payload_asked payload }
{
    match Payload::new(payload.into_vec()) {
        Ok(payload) => Ok(taking(alloc, Event::Propose(payload))),
        Err(_) => Err(Refusal::OversizeBlock),
    }
}

fn watched(
    alloc: Global,
    digest: Option<Digest32>,
    commitment: Option<Commitment>,
) -> Option<HostLine>
    ensures { result ≡ lines.watched digest commitment }
{
    match (digest, commitment) {
        (Some(digest), _) => Some(taking(alloc, Event::WatchDigest(digest))),
        (None, Some(commitment)) => Some(taking(alloc, Event::WatchCommitment(commitment))),
        (None, None) => None,
    }
}

fn asked_block(digest: Option<Digest32>, commitment: Option<Commitment>) -> Option<HostLine>
    ensures { result ≡ lines.asked_block digest commitment }
{
    match (digest, commitment) {
        (Some(digest), _) => Some(HostLine::Ask(Question::OfDigest(digest))),
        (None, Some(commitment)) => Some(HostLine::Ask(Question::Under(commitment))),
        (None, None) => None,
    }
}

fn with_bytes(alloc: Global, word: &[u8], bytes: Items<u8>) -> Read
    ensures { IfOk result (λ read. read ≡ lines.with_bytes word.now bytes) }
{
    if word == b"disk".as_slice() {
        return Ok(Ok(HostLine::Disk(bytes)));
    }
    if word == b"propose".as_slice() {
        return Ok(payload_asked(alloc, bytes));
    }
    if word == b"watch".as_slice() {
        let bytes = bytes.as_slice();
        return Ok(or_syntax(watched(alloc, digest_in(bytes), commitment_in(bytes))));
    }
    if word == b"block".as_slice() {
        let bytes = bytes.as_slice();
        return Ok(or_syntax(asked_block(digest_in(bytes), commitment_in(bytes))));
    }
    if word == b"names".as_slice() {
        let message = message_of(alloc, bytes)?;
        return Ok(Ok(HostLine::Ask(Question::Names(message))));
    }
    Ok(Err(Refusal::Syntax))
}

fn number_in(alloc: Global, word: &[u8], field: &[u8]) -> Option<HostLine>
    ensures { result ≡ option_and_then (lines.number_asked word.now) (number field.now) }
{
    match number_of(field) {
        Some(number) => number_asked(alloc, word, number),
        None => None,
    }
}

fn with_field(alloc: Global, word: &[u8], field: &[u8]) -> Read
    ensures { IfOk result (λ read. read ≡ lines.with_field word.now field.now) }
{
    if let Some(line) = number_in(alloc, word, field) {
        return Ok(Ok(line));
    }
    match bytes_of(alloc, field)? {
        Some(bytes) => with_bytes(alloc, word, bytes),
        None => Ok(Err(Refusal::Syntax)),
    }
}

fn delivered(alloc: Global, message: &[u8], claim: &[&[u8]]) -> Read
    ensures { IfOk result
        (λ read. read ≡ lines.delivered (bytes_in message.now)
        (lines.claim_in (map (λ part. part.now) claim.now))) }
{
    let claim = claim_in(alloc, claim)?;
    let message = bytes_of(alloc, message)?;
    match (message, claim) {
        (Some(bytes), Some(claim)) => {
            let message = message_of(alloc, bytes)?;
            Ok(Ok(HostLine::Take(Event::Deliver(message), claim)))
        }
        _ => Ok(Err(Refusal::Syntax)),
    }
}

fn given_up(alloc: Global, message: &[u8], claim: &[&[u8]]) -> Read
    ensures { IfOk result
        (λ read. read ≡ lines.given_up (bytes_in message.now)
        (lines.claim_in (map (λ part. part.now) claim.now))) }
{
    let claim = claim_in(alloc, claim)?;
    let message = bytes_of(alloc, message)?;
    match (message, claim) {
        (Some(bytes), Some(claim)) => {
            let message = message_of(alloc, bytes)?;
            Ok(floored(message, claim))
        }
        _ => Ok(Err(Refusal::Syntax)),
    }
}

fn floored(message: Message, claim: Claim) -> Result<HostLine, Refusal>
    ensures { result ≡ lines.floored message claim }
{
    let Message::Cert(cert) = message else {
        return Err(Refusal::NoFinalization);
    };
    match &cert.vote {
        Vote::Finalize(_) => Ok(HostLine::Take(Event::Floor(cert), claim)),
        _ => Err(Refusal::NoFinalization),
    }
}
