//! Who signed what in a run.

ghost use Rattle.std.specs.Prelude.{◌≡◌};
ghost use Rattle.std.specs.List.{list_any};
ghost use Rattle.cw_rules.specs.World as rule;
ghost use Rattle.hail_world.specs.Places.{is_faulty_member, table};
ghost use Rattle.hail_report.specs.Pool.{sent_in};

use cw_types::{Message, Verifier, Vote};
use hail_report::{Entry, Sent};

/// The table of votes of a run: a faulty member signed all, an honest one those that it sent.
#[derive(Drop)]
pub(crate) struct Table<'a> {
    /// For each member, whether it is faulty.
    pub(crate) faulty: &'a [bool],
    /// The entries of the script's lines.
    pub(crate) steps: &'a [Entry],
}

impl Verifier for Table<'_> {
    ghost signs = { λ votes member vote.
        table votes.faulty.now (sent_in votes.steps.now) member vote };

    fn signed(&self, member: u16, vote: &Vote) -> bool {
        is_faulty(self.faulty, member) || some_sends(self.steps, member, vote)
    }
}

fn is_faulty(faulty: &[bool], member: u16) -> bool
    ensures { result ≡ is_faulty_member faulty.now member }
{
    match faulty.get(usize::from(member)) {
        Some(faulty) => *faulty,
        None => false,
    }
}

fn some_sends(entries: &[Entry], member: u16, vote: &Vote) -> bool
    ensures { result ≡ list_any (rule.is_sent_vote member vote.now) (sent_in entries.now) }
{
    any_sends(entries, member, vote)
}

fn any_sends(entries: &[Entry], member: u16, vote: &Vote) -> bool
    ensures { result
        ≡ list_any (λ e. list_any (rule.is_sent_vote member vote.now) e.sent) entries.now }
{
    entries.iter().any(|entry| sends_vote(entry, member, vote))
}

fn sends_vote(entry: &Entry, member: u16, vote: &Vote) -> bool
    ensures { result ≡ list_any (rule.is_sent_vote member vote.now) entry.now.sent }
{
    entry
        .sent
        .as_slice()
        .iter()
        .any(|sent| is_sent_vote(sent, member, vote))
}

fn is_sent_vote(sent: &Sent, member: u16, vote: &Vote) -> bool
    ensures { result ≡ rule.is_sent_vote member vote.now sent.now }
{
    sent.from == member && is_vote_of(&sent.message, member, vote)
}

fn is_vote_of(message: &Message, member: u16, vote: &Vote) -> bool
    ensures { result ≡ rule.is_vote_of member vote.now message.now }
{
    match message {
        Message::Vote(signer, other) => *signer == member && vote.is_same(other),
        _ => false,
    }
}
