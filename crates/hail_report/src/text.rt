//! The text of a report.

ghost use Rattle.std.specs.Prelude.{◌≡◌, ◌++◌, OnOk, IfOk, string_bytes, drop};
ghost use Rattle.std.specs.List.{flat_map};
ghost use Rattle.cw_types.specs.Encoding.{message_bytes};
ghost use Rattle.hail_script.specs.declared.error.RunError.TheVariants as cause;
ghost use Rattle.hail_report.specs.Text as spec;

use crate::report::{Acked, Entry, Sent};
use cw_base::{Digest32, Hasher, NoMemory};
use cw_types::{ChainBlock, Handed, Message, To, Vote};
use hail_script::{RunError, view_text};
use std::alloc::Global;

/// The whole text of a report, line by line: what each start gave, what each line gave, where each
/// member stands, the chain, and the number of lines. docs/FORMATS.md has each line's form.
#[tactic(auto, unfolding(crate::specs::Text::done_line))]
pub fn text_of_parts<H: Hasher<Digest = Digest32>>(
    alloc: Global,
    opening: &[Entry],
    steps: &[Entry],
    acked: &[Acked],
    chain: &[ChainBlock],
) -> Result<Vec<u8>, NoMemory>
    ensures { IfOk result
        (λ text. text.items
        ≡ spec.report_text H.digest_of
        (record {
          opening = opening.now;
          steps = steps.now;
          acked = acked.now;
          chain = chain.now;
        })) }
{
    let mut out = String::new(alloc);
    put_opening::<H>(alloc, &mut out, opening)?;
    put_steps::<H>(alloc, &mut out, steps)?;
    put_members(&mut out, acked)?;
    put_chain::<H>(alloc, &mut out, chain)?;
    let events = steps.len();
    write!(out, "done {events}\n")?;
    Ok(out.into_bytes())
}

fn put_opening<H: Hasher<Digest = Digest32>>(
    alloc: Global,
    out: &mut String,
    entries: &[Entry],
) -> Result<(), NoMemory>
    ensures { OnOk result
        (string_bytes out.new ≡ string_bytes out.old ++ flat_map
        (spec.opening_text H.digest_of) entries.now) }
{
    for entry in entries {
        put_open(out, entry.member)?;
        put_gave::<H>(alloc, out, entry)?;
    }
    Ok(())
}

fn put_steps<H: Hasher<Digest = Digest32>>(
    alloc: Global,
    out: &mut String,
    entries: &[Entry],
) -> Result<(), NoMemory>
    ensures { OnOk result
        (string_bytes out.new ≡ string_bytes out.old ++ flat_map
        (spec.step_text H.digest_of) entries.now) }
{
    for entry in entries {
        put_step(out, entry.line)?;
        put_found(out, entry.found)?;
        put_gave::<H>(alloc, out, entry)?;
    }
    Ok(())
}

#[tactic(auto, unfolding(crate::specs::Text::open_line))]
fn put_open(out: &mut String, member: Option<u16>) -> Result<(), NoMemory>
    ensures { OnOk result (string_bytes out.new ≡ string_bytes out.old ++ spec.open_line member) }
{
    let Some(member) = member else {
        return Ok(());
    };
    write!(out, "open {member}\n")?;
    Ok(())
}

#[tactic(auto, unfolding(crate::specs::Text::step_line))]
fn put_step(out: &mut String, line: u64) -> Result<(), NoMemory>
    ensures { OnOk result (string_bytes out.new ≡ string_bytes out.old ++ spec.step_line line) }
{
    write!(out, "step {line}\n")?;
    Ok(())
}

#[tactic(auto, unfolding(crate::specs::Text::found_text))]
fn put_found(out: &mut String, found: Option<u64>) -> Result<(), NoMemory>
    ensures { OnOk result (string_bytes out.new ≡ string_bytes out.old ++ spec.found_text found) }
{
    let Some(notes) = found else {
        return Ok(());
    };
    write!(out, "found {notes}\n")?;
    Ok(())
}

// The messages of an entry, and then its blocks.
fn put_gave<H: Hasher<Digest = Digest32>>(
    alloc: Global,
    out: &mut String,
    entry: &Entry,
) -> Result<(), NoMemory>
    ensures { OnOk result
        (string_bytes out.new ≡ string_bytes out.old ++ spec.gave_text H.digest_of entry.now) }
{
    put_sends::<H>(alloc, out, entry.sent.as_slice())?;
    put_handed(alloc, out, entry.member, entry.handed.as_slice())?;
    Ok(())
}

fn put_sends<H: Hasher<Digest = Digest32>>(
    alloc: Global,
    out: &mut String,
    messages: &[Sent],
) -> Result<(), NoMemory>
    ensures { OnOk result
        (string_bytes out.new ≡ string_bytes out.old ++ flat_map
        (spec.sent_line H.digest_of) messages.now) }
{
    for sent in messages {
        put_sent::<H>(alloc, out, sent)?;
    }
    Ok(())
}

#[tactic(auto, unfolding(crate::specs::Text::sent_line))]
fn put_sent<H: Hasher<Digest = Digest32>>(
    alloc: Global,
    out: &mut String,
    sent: &Sent,
) -> Result<(), NoMemory>
    ensures { OnOk result
        (string_bytes out.new ≡ string_bytes out.old ++ spec.sent_line H.digest_of sent.now) }
{
    let number = sent.number;
    let from = sent.from;
    let goes = goes_text::<H>(alloc, sent)?;
    write!(out, "sent {number} {from} {goes}\n")?;
    Ok(())
}

#[tactic(auto, unfolding(crate::specs::Text::goes_text))]
fn goes_text<H: Hasher<Digest = Digest32>>(alloc: Global, sent: &Sent) -> Result<String, NoMemory>
    ensures { IfOk result (λ text. string_bytes text ≡ spec.goes_text H.digest_of sent.now) }
{
    let mut text = to_text(alloc, sent.to)?;
    let what = what_text(alloc, &sent.message)?;
    let digest = message_digest::<H>(alloc, &sent.message)?;
    write!(text, " {what} {digest}")?;
    Ok(text)
}

fn message_digest<H: Hasher<Digest = Digest32>>(
    alloc: Global,
    message: &Message,
) -> Result<String, NoMemory>
    ensures { IfOk result
        (λ text. string_bytes text ≡ spec.digest_text (H.digest_of (message_bytes message.now))) }
{
    let mut bytes = Vec::new(alloc);
    message.write(&mut bytes)?;
    Ok(hex::encode(alloc, H::hash(&bytes).0.as_slice())?)
}

#[tactic(auto, unfolding(crate::specs::Text::to_text))]
fn to_text(alloc: Global, to: To) -> Result<String, NoMemory>
    ensures { IfOk result (λ text. string_bytes text ≡ spec.to_text to) }
{
    let mut text = String::new(alloc);
    match to {
        To::All => text.push_str("all")?,
        To::One(member) => write!(text, "{member}")?,
    }
    Ok(text)
}

#[tactic(auto, unfolding(crate::specs::Text::vote_text))]
fn vote_text(alloc: Global, vote: &Vote) -> Result<String, NoMemory>
    ensures { IfOk result (λ text. string_bytes text ≡ spec.vote_text vote.now) }
{
    let mut text = String::new(alloc);
    let view = view_text(alloc, vote.epoch(), vote.view())?;
    match vote {
        Vote::Notarize(_) => write!(text, "notarize {view}")?,
        Vote::Nullify { .. } => write!(text, "nullify {view}")?,
        Vote::Finalize(_) => write!(text, "finalize {view}")?,
    }
    Ok(text)
}

#[tactic(auto, unfolding(crate::specs::Text::what_text))]
fn what_text(alloc: Global, message: &Message) -> Result<String, NoMemory>
    ensures { IfOk result (λ text. string_bytes text ≡ spec.what_text message.now) }
{
    let mut text = String::new(alloc);
    match message {
        Message::Shard(_, chunk) => {
            let index = chunk.index();
            write!(text, "shard {index}")?
        }
        Message::Vote(signer, vote) => {
            let signer = *signer;
            let vote = vote_text(alloc, vote)?;
            write!(text, "vote {signer} {vote}")?
        }
        Message::Cert(cert) => {
            let vote = vote_text(alloc, &cert.vote)?;
            let signers = cert.signers.len();
            write!(text, "cert {vote} {signers}")?
        }
        Message::Ask(..) => text.push_str("ask")?,
        Message::AskHeight(_, height) => {
            let height = *height;
            write!(text, "askheight {height}")?
        }
        Message::Block(block) => {
            let height = block.height();
            write!(text, "block {height}")?
        }
        Message::Junk(bytes) => {
            let length = bytes.len();
            write!(text, "junk {length}")?
        }
    }
    Ok(text)
}

fn put_handed(
    alloc: Global,
    out: &mut String,
    member: Option<u16>,
    handed: &[Handed],
) -> Result<(), NoMemory>
    ensures { OnOk result
        (string_bytes out.new ≡ string_bytes out.old ++ spec.hands_text member handed.now) }
{
    let Some(member) = member else {
        return Ok(());
    };
    put_hands(alloc, out, member, handed)?;
    Ok(())
}

fn put_hands(
    alloc: Global,
    out: &mut String,
    member: u16,
    handed: &[Handed],
) -> Result<(), NoMemory>
    ensures { OnOk result
        (string_bytes out.new ≡ string_bytes out.old ++ flat_map
        (spec.hand_line member) handed.now) }
{
    for block in handed {
        put_hand(alloc, out, member, block)?;
    }
    Ok(())
}

#[tactic(auto, unfolding(crate::specs::Text::hand_line))]
fn put_hand(alloc: Global, out: &mut String, member: u16, handed: &Handed) -> Result<(), NoMemory>
    ensures { OnOk result
        (string_bytes out.new ≡ string_bytes out.old ++ spec.hand_line member handed.now) }
{
    let digest = hex::encode(alloc, handed.digest.0.as_slice())?;
    let height = handed.height;
    write!(out, "hand {member} {height} {digest}\n")?;
    Ok(())
}

fn put_members(out: &mut String, members: &[Acked]) -> Result<(), NoMemory>
    ensures { OnOk result
        (string_bytes out.new ≡ string_bytes out.old ++ flat_map spec.member_line members.now) }
{
    for member in members {
        put_member(out, member)?;
    }
    Ok(())
}

#[tactic(auto, unfolding(crate::specs::Text::member_line))]
fn put_member(out: &mut String, acked: &Acked) -> Result<(), NoMemory>
    ensures { OnOk result
        (string_bytes out.new ≡ string_bytes out.old ++ spec.member_line acked.now) }
{
    let member = acked.member;
    let state = if acked.live { "live" } else { "stopped" };
    let notes = acked.notes;
    match acked.height {
        Some(height) => write!(
            out,
            "member {member} {state} acked {height} notes {notes}\n"
        )?,
        None => write!(out, "member {member} {state} acked none notes {notes}\n")?,
    }
    Ok(())
}

fn put_chain<H: Hasher<Digest = Digest32>>(
    alloc: Global,
    out: &mut String,
    chain: &[ChainBlock],
) -> Result<(), NoMemory>
    ensures { OnOk result
        (string_bytes out.new ≡ string_bytes out.old ++ spec.chain_text H.digest_of 0 chain.now) }
{
    for (height, block) in chain.iter().enumerate() {
        put_link::<H>(alloc, out, height, block)?;
    }
    Ok(())
}

#[tactic(auto, unfolding(crate::specs::Text::chain_line))]
fn put_link<H: Hasher<Digest = Digest32>>(
    alloc: Global,
    out: &mut String,
    height: usize,
    block: &ChainBlock,
) -> Result<(), NoMemory>
    ensures { OnOk result
        (string_bytes out.new ≡ string_bytes out.old
        ++ spec.chain_line H.digest_of height block.now) }
{
    let mut bytes = Vec::new(alloc);
    block.write(&mut bytes)?;
    let digest = hex::encode(alloc, H::hash(&bytes).0.as_slice())?;
    write!(out, "chain {height} {digest}\n")?;
    Ok(())
}

/// The line of a refusal, or of a clash.
#[tactic(auto, unfolding(crate::specs::Text::error_line))]
pub fn error_text(alloc: Global, error: &RunError) -> Result<Vec<u8>, NoMemory>
    ensures { IfOk result (λ text. text.items ≡ spec.error_line error.now) }
{
    let mut out = String::new(alloc);
    match error {
        RunError::Syntax(line) => {
            let line = *line;
            write!(out, "error 1 Syntax {line}\n")?
        }
        RunError::BadCommittee => write!(out, "error 2 BadCommittee\n")?,
        RunError::UnknownMember(line) => {
            let line = *line;
            write!(out, "error 3 UnknownMember {line}\n")?
        }
        RunError::TooManyFaulty => write!(out, "error 4 TooManyFaulty\n")?,
        RunError::OversizeBlock(line) => {
            let line = *line;
            write!(out, "error 5 OversizeBlock {line}\n")?
        }
        RunError::HashClash(earlier, later) => {
            return clash_text(alloc, earlier.as_slice(), later.as_slice());
        }
        RunError::NoMemory => {}
    }
    Ok(out.into_bytes())
}

/// The line of a clash of two blocks, from their encodings.
#[tactic(auto, unfolding(crate::specs::Text::error_line))]
pub fn clash_text(alloc: Global, earlier: &[u8], later: &[u8]) -> Result<Vec<u8>, NoMemory>
    ensures { IfOk result
        (λ text. text.items ≡ spec.error_line (cause.HashClash earlier.now later.now)) }
{
    let mut out = String::new(alloc);
    let earlier = hex::encode(alloc, earlier)?;
    let later = hex::encode(alloc, later)?;
    write!(out, "error 6 HashClash {earlier} {later}\n")?;
    Ok(out.into_bytes())
}
