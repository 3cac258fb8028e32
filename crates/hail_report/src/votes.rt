//! The votes that members sent, kept beside the messages.

ghost use Rattle.std.specs.Prelude.{◌≡◌, ◌++◌, ◌∷◌, [], List, OnOk, unwrap_or};
ghost use Rattle.std.specs.List.{list_any};
ghost use Rattle.cw_types.specs.Same.{same_vote};
ghost use Rattle.cw_types.specs.declared.message.Message.TheVariants as message;
ghost use Rattle.cw_rules.specs.World.{Sent as SentValue};
ghost use Rattle.hail_report.specs.Votes.{TellVotes, round_of, votes_under};

use crate::report::Sent;
use cw_base::{Items, NoMemory};
use cw_types::{Message, Vote};
use std::alloc::Global;
use std::collections::BTreeMap;

/// The votes that their own signers sent, by the signer and the epoch and view that they are cast
/// in. So a look-up passes over the few votes of one member in one view.
#[derive(Drop)]
pub(crate) struct Votes {
    rounds: BTreeMap<(u16, u64, u64), Items<Vote>>,
}

impl Votes {
    /// No votes.
    pub(crate) fn new(alloc: Global) -> Votes
        ensures { TellVotes result.rounds [] }
    {
        Votes {
            rounds: BTreeMap::new(alloc),
        }
    }

    /// Whether a member sent a vote.
    pub(crate) fn has(&self, member: u16, vote: &Vote) -> bool
        ensures { result ≡ list_any (same_vote vote.now)
            (votes_under self.now.rounds (round_of member vote.now)) }
    {
        match self.rounds.get(&(member, vote.epoch(), vote.view())) {
            None => false,
            Some(votes) => some_same(votes.as_slice(), vote),
        }
    }

    /// With messages more.
    pub(crate) fn take_all(&mut self, alloc: Global, sent: &[Sent]) -> Result<(), NoMemory>
        ensures { (before : List SentValue) → TellVotes self.old.rounds before
            → OnOk result (TellVotes self.new.rounds (before ++ sent.now)) }
    {
        for one in sent {
            self.take(alloc, one)?;
        }
        Ok(())
    }

    // With a message more.
    fn take(&mut self, alloc: Global, sent: &Sent) -> Result<(), NoMemory>
        ensures { (before : List SentValue) → TellVotes self.old.rounds before
            → OnOk result (TellVotes self.new.rounds (before ++ sent.now ∷ [])) }
    {
        let Message::Vote(signer, vote) = &sent.message else {
            return Ok(());
        };
        if *signer != sent.from {
            return Ok(());
        }
        self.put(alloc, *signer, *vote)?;
        Ok(())
    }

    // With a vote of its own signer more.
    fn put(&mut self, alloc: Global, signer: u16, vote: Vote) -> Result<(), NoMemory>
        ensures { (before : List SentValue) (sent : SentValue) → sent.from ≡ signer
            → sent.message ≡ message.Vote signer vote → TellVotes self.old.rounds before
            → OnOk result (TellVotes self.new.rounds (before ++ sent ∷ [])) }
    {
        let round = (signer, vote.epoch(), vote.view());
        let mut votes = or_none(alloc, self.rounds.remove(&round));
        votes.push(vote)?;
        match self.rounds.insert(round, votes) {
            Ok(_) => Ok(()),
            Err(_) => Err(NoMemory),
        }
    }
}

// The votes, or none.
fn or_none(alloc: Global, votes: Option<Items<Vote>>) -> Items<Vote>
    ensures { result ≡ unwrap_or votes [] }
{
    match votes {
        None => Items::new(alloc),
        Some(votes) => votes,
    }
}

fn some_same(votes: &[Vote], vote: &Vote) -> bool
    ensures { result ≡ list_any (same_vote vote.now) votes.now }
{
    votes.iter().any(|other| vote.is_same(other))
}
