//! The lines of an answer. docs/PROTOCOL.md has each line's form.

ghost use Rattle.std.specs.Prelude.{◌≡◌, ◌++◌, IfOk, OnOk, string_bytes};
ghost use Rattle.std.specs.List.{flat_map};
ghost use Rattle.std.specs.Fmt.{decimal};
ghost use Rattle.hail_report.specs.Text as report;
ghost use Rattle.member_lines.specs.Answers as spec;

use crate::refusal::Refusal;
use cw_base::{Digest32, NoMemory};
use cw_types::{Commitment, Handed, Message, Out, TicketOut, To, Vote};
use std::alloc::Global;

// Bytes in hexadecimal, `-` for none.
fn hex_text(alloc: Global, bytes: &[u8]) -> Result<String, NoMemory>
    ensures { IfOk result (λ text. string_bytes text ≡ spec.hex_text bytes.now) }
{
    if bytes.is_empty() {
        let mut text = String::new(alloc);
        text.push_str("-")?;
        return Ok(text);
    }
    Ok(hex::encode(alloc, bytes)?)
}

fn commitment_text(alloc: Global, commitment: &Commitment) -> Result<String, NoMemory>
    ensures { IfOk result (λ text. string_bytes text ≡ spec.commitment_text commitment.now) }
{
    Ok(hex::encode(alloc, commitment.to_bytes().as_slice())?)
}

/// Puts what the host has to write to its file, at a place: `write P HEX`.
#[tactic(auto, unfolding(crate::specs::Answers::write_line))]
pub fn put_write(alloc: Global, out: &mut String, place: u64, bytes: &[u8]) -> Result<(), NoMemory>
    ensures { OnOk result
        (string_bytes out.new ≡ string_bytes out.old ++ spec.write_line place bytes.now) }
{
    let bytes = hex_text(alloc, bytes)?;
    write!(out, "write {place} {bytes}\n")?;
    Ok(())
}

/// Puts that all which was written be kept: `sync`.
#[tactic(auto, unfolding(crate::specs::Answers::sync_line))]
pub fn put_sync(out: &mut String) -> Result<(), NoMemory>
    ensures { OnOk result (string_bytes out.new ≡ string_bytes out.old ++ spec.sync_line) }
{
    write!(out, "sync\n")?;
    Ok(())
}

fn put_members(out: &mut String, members: &[u16]) -> Result<(), NoMemory>
    ensures { OnOk result
        (string_bytes out.new ≡ string_bytes out.old ++ spec.members_text members.now) }
{
    for member in members {
        let member = *member;
        write!(out, " {member}")?;
    }
    Ok(())
}

fn put_signed(alloc: Global, out: &mut String, vote: &Vote, signers: &[u16]) -> Result<(), NoMemory>
    ensures { OnOk result
        (string_bytes out.new ≡ string_bytes out.old ++ spec.signed_text vote.now signers.now) }
{
    let mut bytes = Vec::new(alloc);
    vote.write(&mut bytes)?;
    let vote = hex::encode(alloc, &bytes)?;
    write!(out, " {vote}")?;
    put_members(out, signers)
}

// Puts the vote that a message is of, and its signers, if it is of one.
#[tactic(auto, unfolding(crate::specs::Answers::named_text))]
fn put_named(alloc: Global, out: &mut String, message: &Message) -> Result<(), NoMemory>
    ensures { OnOk result
        (string_bytes out.new ≡ string_bytes out.old ++ spec.named_text message.now) }
{
    match message {
        Message::Vote(signer, vote) => put_signed(alloc, out, vote, &[*signer]),
        Message::Cert(cert) => put_signed(alloc, out, &cert.vote, cert.signers.as_slice()),
        _ => Ok(()),
    }
}

#[tactic(auto, unfolding(crate::specs::Answers::message_text))]
fn put_message(alloc: Global, out: &mut String, message: &Message) -> Result<(), NoMemory>
    ensures { OnOk result
        (string_bytes out.new ≡ string_bytes out.old ++ spec.message_text message.now) }
{
    let mut bytes = Vec::new(alloc);
    message.write(&mut bytes)?;
    let text = hex_text(alloc, &bytes)?;
    out.push_str(&text)?;
    put_named(alloc, out, message)
}

#[tactic(auto, unfolding(hail_report::specs::Text::to_text))]
fn put_to(out: &mut String, to: &To) -> Result<(), NoMemory>
    ensures { OnOk result
        (string_bytes out.new ≡ string_bytes out.old ++ report.to_text to.now) }
{
    match to {
        To::All => out.push_str("all")?,
        To::One(member) => {
            let member = *member;
            write!(out, "{member}")?
        }
    }
    Ok(())
}

/// Puts a message to send, with the vote that it is of, and its signers: `send TO HEX [VOTE M M
/// ..]`.
#[tactic(auto, unfolding(crate::specs::Answers::send_line))]
pub fn put_send(alloc: Global, out: &mut String, sent: &Out) -> Result<(), NoMemory>
    ensures { OnOk result
        (string_bytes out.new ≡ string_bytes out.old ++ spec.send_line sent.now) }
{
    out.push_str("send ")?;
    put_to(out, &sent.to)?;
    out.push_str(" ")?;
    put_message(alloc, out, &sent.message)?;
    out.push_str("\n")?;
    Ok(())
}

/// Puts a block that is handed out, with its payload: `hand H DIGEST COMMITMENT PAYLOAD`.
#[tactic(auto, unfolding(crate::specs::Answers::handed_out_line))]
pub fn put_handed(
    alloc: Global,
    out: &mut String,
    handed: &Handed,
    payload: &[u8],
) -> Result<(), NoMemory>
    ensures { OnOk result
        (string_bytes out.new ≡ string_bytes out.old
        ++ spec.handed_out_line handed.now payload.now) }
{
    let height = handed.height;
    let digest = hex::encode(alloc, handed.digest.0.as_slice())?;
    let commitment = commitment_text(alloc, &handed.commitment)?;
    let payload = hex_text(alloc, payload)?;
    write!(out, "hand {height} {digest} {commitment} {payload}\n")?;
    Ok(())
}

/// Puts a ticket that is given now, `told T`, or whose block is held, `told T COMMITMENT`.
#[tactic(auto, unfolding(crate::specs::Answers::ticket_line))]
pub fn put_ticket(alloc: Global, out: &mut String, ticket: &TicketOut) -> Result<(), NoMemory>
    ensures { OnOk result
        (string_bytes out.new ≡ string_bytes out.old ++ spec.ticket_line ticket.now) }
{
    let number = ticket.number;
    match &ticket.commitment {
        Some(commitment) => {
            let commitment = commitment_text(alloc, commitment)?;
            write!(out, "told {number} {commitment}\n")?
        }
        None => write!(out, "told {number}\n")?,
    }
    Ok(())
}

/// Puts where a member stands, its epoch and its view, and who leads that: `view E V M`.
#[tactic(auto, unfolding(crate::specs::Answers::place_line))]
pub fn put_place(out: &mut String, epoch: u64, view: u64, leader: u16) -> Result<(), NoMemory>
    ensures { OnOk result
        (string_bytes out.new ≡ string_bytes out.old ++ spec.place_line epoch view leader) }
{
    write!(out, "view {epoch} {view} {leader}\n")?;
    Ok(())
}

/// Puts a block that was asked for: `block H DIGEST COMMITMENT PAYLOAD`, with `-` in place of the
/// commitment where it was asked for by its digest.
#[tactic(auto, unfolding(crate::specs::Answers::block_line))]
pub fn put_block(
    alloc: Global,
    out: &mut String,
    height: u64,
    digest: &Digest32,
    commitment: Option<Commitment>,
    payload: &[u8],
) -> Result<(), NoMemory>
    ensures { OnOk result
        (string_bytes out.new ≡ string_bytes out.old
        ++ spec.block_line height digest.now commitment payload.now) }
{
    let digest = hex::encode(alloc, digest.0.as_slice())?;
    let payload = hex_text(alloc, payload)?;
    match commitment {
        Some(commitment) => {
            let commitment = commitment_text(alloc, &commitment)?;
            write!(out, "block {height} {digest} {commitment} {payload}\n")?
        }
        None => write!(out, "block {height} {digest} - {payload}\n")?,
    }
    Ok(())
}

/// Puts a finalization that was asked for: `final H HEX VOTE M M ..`.
#[tactic(auto, unfolding(crate::specs::Answers::final_line))]
pub fn put_final(
    alloc: Global,
    out: &mut String,
    height: u64,
    message: &Message,
) -> Result<(), NoMemory>
    ensures { OnOk result
        (string_bytes out.new ≡ string_bytes out.old ++ spec.final_line height message.now) }
{
    write!(out, "final {height} ")?;
    put_message(alloc, out, message)?;
    out.push_str("\n")?;
    Ok(())
}

/// Puts the vote that a message is of, and its signers: `names [VOTE M M ..]`.
#[tactic(auto, unfolding(crate::specs::Answers::names_line))]
pub fn put_names(alloc: Global, out: &mut String, message: &Message) -> Result<(), NoMemory>
    ensures { OnOk result
        (string_bytes out.new ≡ string_bytes out.old ++ spec.names_line message.now) }
{
    out.push_str("names")?;
    put_named(alloc, out, message)?;
    out.push_str("\n")?;
    Ok(())
}

/// Puts the end of the answer to a line that was done: `ok`.
#[tactic(auto, unfolding(crate::specs::Answers::ok_line))]
pub fn put_ok(out: &mut String) -> Result<(), NoMemory>
    ensures { OnOk result (string_bytes out.new ≡ string_bytes out.old ++ spec.ok_line) }
{
    out.push_str("ok\n")?;
    Ok(())
}

/// Puts the answer to a line that was refused: `no REASON`.
#[tactic(auto, unfolding(crate::specs::Answers::no_line))]
pub fn put_no(out: &mut String, refusal: &Refusal) -> Result<(), NoMemory>
    ensures { OnOk result
        (string_bytes out.new ≡ string_bytes out.old ++ spec.no_line refusal.now) }
{
    match refusal {
        Refusal::Syntax => out.push_str("no Syntax\n")?,
        Refusal::TooLong => out.push_str("no TooLong\n")?,
        Refusal::TooEarly => out.push_str("no TooEarly\n")?,
        Refusal::TooLate => out.push_str("no TooLate\n")?,
        Refusal::BadCommittee => out.push_str("no BadCommittee\n")?,
        Refusal::UnknownMember => out.push_str("no UnknownMember\n")?,
        Refusal::OversizeBlock => out.push_str("no OversizeBlock\n")?,
        Refusal::NoFinalization => out.push_str("no NoFinalization\n")?,
        Refusal::NoBlock => out.push_str("no NoBlock\n")?,
        Refusal::Foreign(place) => {
            let place = *place;
            write!(out, "no Foreign {place}\n")?
        }
    }
    Ok(())
}
