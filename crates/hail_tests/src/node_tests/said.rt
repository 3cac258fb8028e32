//! What a step gives, as text: what is sent, handed out and served, in order. Blocks are named by
//! their places in the scene's list.

use super::blocks::Scene;
use cw_base::Digest32;
use cw_coding::Chunk;
use cw_types::{Cert, Commitment, Handed, Message, Out, Proposal, StepOut, TicketOut, To, Vote};
use node::Way;
use std::alloc::Global;
use std::test::Fail;

/// The text of what a step gives.
pub(crate) fn text_of<W: Way>(
    alloc: Global,
    scene: &Scene<W>,
    out: &StepOut,
) -> Result<String, Fail> {
    let mut text = String::new(alloc);
    push_out(&mut text, scene, out)?;
    Ok(text)
}

fn push_out<W: Way>(text: &mut String, scene: &Scene<W>, out: &StepOut) -> Result<(), Fail> {
    push_sent(text, scene, out.sent.as_slice())?;
    push_handed(text, scene, out.handed.as_slice())?;
    push_tickets(text, scene, out.tickets.as_slice())
}

fn push_sent<W: Way>(text: &mut String, scene: &Scene<W>, sent: &[Out]) -> Result<(), Fail> {
    for out in sent {
        push_to(text, &out.to)?;
        push_message(text, scene, &out.message)?;
    }
    Ok(())
}

fn push_handed<W: Way>(text: &mut String, scene: &Scene<W>, handed: &[Handed]) -> Result<(), Fail> {
    for handed in handed {
        push_block_handed(text, scene, handed)?;
    }
    Ok(())
}

fn push_tickets<W: Way>(
    text: &mut String,
    scene: &Scene<W>,
    tickets: &[TicketOut],
) -> Result<(), Fail> {
    for ticket in tickets {
        push_ticket(text, scene, ticket)?;
    }
    Ok(())
}

// What stands between two things that are said.
fn mark(text: &str) -> &'static str {
    if text.is_empty() { "" } else { "; " }
}

fn push_to(text: &mut String, to: &To) -> Result<(), Fail> {
    let mark = mark(text);
    match to {
        To::All => Ok(write!(text, "{mark}all ")?),
        To::One(member) => Ok(write!(text, "{mark}{member} ")?),
    }
}

// The height and the digest are those of the block.
fn push_block_handed<W: Way>(
    text: &mut String,
    scene: &Scene<W>,
    handed: &Handed,
) -> Result<(), Fail> {
    let place = scene.named(&handed.commitment);
    let made = scene.block(place)?;
    if made.block.height() != handed.height || made.commitment.block != handed.digest {
        return Err("the height and the digest of the block".into());
    }
    let mark = mark(text);
    Ok(write!(text, "{mark}hand {place}")?)
}

fn push_ticket<W: Way>(
    text: &mut String,
    scene: &Scene<W>,
    ticket: &TicketOut,
) -> Result<(), Fail> {
    let number = ticket.number;
    let mark = mark(text);
    match ticket.commitment {
        None => Ok(write!(text, "{mark}ticket {number}")?),
        Some(commitment) => {
            let place = scene.named(&commitment);
            Ok(write!(text, "{mark}ticket {number} has {place}")?)
        }
    }
}

fn push_message<W: Way>(
    text: &mut String,
    scene: &Scene<W>,
    message: &Message,
) -> Result<(), Fail> {
    match message {
        Message::Shard(commitment, chunk) => push_shard(text, scene, commitment, chunk),
        Message::Vote(signer, vote) => push_signed(text, scene, *signer, vote),
        Message::Cert(cert) => push_cert(text, scene, cert),
        Message::Ask(from, commitment) => {
            let place = scene.named(commitment);
            Ok(write!(text, "ask {from} {place}")?)
        }
        Message::AskHeight(from, height) => Ok(write!(text, "ask {from} height {height}")?),
        Message::Block(block) => {
            let place = scene.place(block);
            Ok(write!(text, "block {place}")?)
        }
        Message::Junk(_) => Err("no junk".into()),
    }
}

// The chunk is that of its index.
fn push_shard<W: Way>(
    text: &mut String,
    scene: &Scene<W>,
    commitment: &Commitment,
    chunk: &Chunk<Digest32>,
) -> Result<(), Fail> {
    let place = scene.named(commitment);
    let index = chunk.index();
    if scene.block(place)?.chunks.get(usize::from(index)) != Some(chunk) {
        return Err("the chunk of that index".into());
    }
    Ok(write!(text, "shard {index} of {place}")?)
}

fn push_signed<W: Way>(
    text: &mut String,
    scene: &Scene<W>,
    signer: u16,
    vote: &Vote,
) -> Result<(), Fail> {
    write!(text, "vote {signer} ")?;
    push_vote(text, scene, vote)
}

fn push_cert<W: Way>(text: &mut String, scene: &Scene<W>, cert: &Cert) -> Result<(), Fail> {
    text.push_str("cert ")?;
    push_vote(text, scene, &cert.vote)?;
    Ok(write!(text, " by {:?}", cert.signers.as_slice())?)
}

fn push_vote<W: Way>(text: &mut String, scene: &Scene<W>, vote: &Vote) -> Result<(), Fail> {
    match vote {
        Vote::Notarize(proposal) => push_proposal(text, scene, "notarize", proposal),
        Vote::Finalize(proposal) => push_proposal(text, scene, "finalize", proposal),
        Vote::Nullify { epoch, view } => Ok(write!(text, "nullify {epoch}/{view}")?),
    }
}

// The block, the epoch and the view, and the view that it stands over.
fn push_proposal<W: Way>(
    text: &mut String,
    scene: &Scene<W>,
    kind: &str,
    proposal: &Proposal,
) -> Result<(), Fail> {
    let place = scene.named(&proposal.payload);
    let (epoch, view, parent) = (proposal.epoch, proposal.view, proposal.parent);
    Ok(write!(text, "{kind} {place} in {epoch}/{view} over {parent}")?)
}
