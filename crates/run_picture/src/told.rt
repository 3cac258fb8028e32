//! What a picture tells of a message.

ghost use Rattle.std.specs.Prelude.{◌≡◌, IfOk, string_bytes};
ghost use Rattle.run_picture.specs.Told as spec;

use cw_base::NoMemory;
use cw_types::{Message, To, Vote};
use hail_script::view_text;
use std::alloc::Global;

/// What a message says.
#[derive(Clone, Copy, Debug, PartialEq, Eq)]
pub enum Says {
    /// A piece of a block.
    Shard,
    /// A vote.
    Ballot(Vote),
    /// A certificate of the vote.
    Cert(Vote),
    /// A block is asked for.
    Ask,
    /// The block of the height is asked for.
    AskHeight(u64),
    /// The whole block of the height.
    Whole(u64),
    /// No message.
    Junk,
}

/// A message that was sent: whom it goes to, and what it says.
#[derive(Clone, Copy, Debug, PartialEq, Eq)]
pub struct Said {
    /// Whom the message goes to.
    pub to: To,
    /// What the picture says of it.
    pub says: Says,
}

/// What a message says.
pub fn says_of(message: &Message) -> Says
    ensures { result ≡ spec.says_of message.now }
{
    match message {
        Message::Shard(..) => Says::Shard,
        Message::Vote(_, vote) => Says::Ballot(*vote),
        Message::Cert(cert) => Says::Cert(cert.vote),
        Message::Ask(..) => Says::Ask,
        Message::AskHeight(_, height) => Says::AskHeight(*height),
        Message::Block(block) => Says::Whole(block.height()),
        Message::Junk(_) => Says::Junk,
    }
}

/// A message in a few letters.
#[tactic(auto, unfolding(crate::specs::Told::letters))]
pub(crate) fn letters_of(alloc: Global, says: &Says) -> Result<String, NoMemory>
    ensures { IfOk result (λ text. string_bytes text ≡ spec.letters says.now) }
{
    let mut text = String::new(alloc);
    match says {
        Says::Shard => text.push_str("S")?,
        Says::Ballot(vote) => return vote_letters(alloc, vote),
        Says::Cert(vote) => {
            let vote = vote_letters(alloc, vote)?;
            write!(text, "[{vote}]")?
        }
        Says::Ask => text.push_str("ask")?,
        Says::AskHeight(height) => {
            let height = *height;
            write!(text, "ask{height}")?
        }
        Says::Whole(height) => {
            let height = *height;
            write!(text, "B{height}")?
        }
        Says::Junk => text.push_str("junk")?,
    }
    Ok(text)
}

#[tactic(auto, unfolding(crate::specs::Told::vote_letters))]
fn vote_letters(alloc: Global, vote: &Vote) -> Result<String, NoMemory>
    ensures { IfOk result (λ text. string_bytes text ≡ spec.vote_letters vote.now) }
{
    let mut text = String::new(alloc);
    let view = view_text(alloc, vote.epoch(), vote.view())?;
    match vote {
        Vote::Notarize(_) => write!(text, "N{view}")?,
        Vote::Nullify { .. } => write!(text, "X{view}")?,
        Vote::Finalize(_) => write!(text, "F{view}")?,
    }
    Ok(text)
}

/// The class of a message's colour.
pub(crate) fn class_of(says: &Says) -> &'static str
    ensures { result.now ≡ spec.class_of says.now }
{
    match says {
        Says::Shard => "b",
        Says::Ballot(vote) => vote_class(vote),
        Says::Cert(Vote::Notarize(_)) => "n c",
        Says::Cert(Vote::Nullify { .. }) => "x c",
        Says::Cert(Vote::Finalize(_)) => "f c",
        Says::Ask => "a",
        Says::AskHeight(_) => "a",
        Says::Whole(_) => "b c",
        Says::Junk => "j",
    }
}

fn vote_class(vote: &Vote) -> &'static str
    ensures { result.now ≡ spec.vote_class vote.now }
{
    match vote {
        Vote::Notarize(_) => "n",
        Vote::Nullify { .. } => "x",
        Vote::Finalize(_) => "f",
    }
}

/// Whether it is a finalization.
pub(crate) fn is_finalization(says: &Says) -> bool
    ensures { result ≡ spec.is_finalization says.now }
{
    matches!(says, Says::Cert(Vote::Finalize(_)))
}
