//! The entries of the lines so far, and the messages and votes in them by number and by signer.

ghost use Rattle.std.specs.Prelude.{◌≡◌, ◌<◌, ◌^◌, ◌++◌, ◌∷◌, [], length, map, option_and_then};
ghost use Rattle.std.specs.Prelude.{slice_get, IfOk, OnOk};
ghost use Rattle.std.specs.List.{list_any, range_with_len};
ghost use Rattle.std.specs.Option.{option_map};
ghost use Rattle.cw_rules.specs.World as rule;
ghost use Rattle.hail_report.specs.Pool.{sent_at, sent_in};

use crate::report::{Entry, Sent};
use crate::votes::Votes;
use cw_base::{Items, NoMemory};
use cw_types::Vote;
use std::alloc::Global;
use std::marker::Model;

/// The entries of the lines so far. Each message stands in its entry alone, and is found by its
/// number without a search; a sent vote is looked up among its signer's of that view. Contracts see
/// the entries.
#[derive(Drop)]
pub struct Pool {
    entries: Items<Entry>,
    // of each message, the number of its entry and its place there
    places: Vec<(usize, usize)>,
    votes: Votes,
}

impl Model for Pool {
    ghost use Rattle.std.specs.Prelude.{◌≡◌, List};
    ghost use Rattle.cw_rules.specs.Report.{Entry};
    ghost use Rattle.hail_report.specs.Pool.{StandAt, sent_in};
    ghost use Rattle.hail_report.specs.Votes.{TellVotes};

    ghost Value = { List Entry };

    ghost view = { λ p. p.entries };

    ghost invariant = { λ p. StandAt p.entries p.places.items
        × TellVotes p.votes.rounds (sent_in p.entries) };
}

impl Pool {
    /// No entries.
    pub fn new(alloc: Global) -> Pool
        ensures { result ≡ [] }
    {
        Pool {
            entries: Items::new(alloc),
            places: Vec::new(alloc),
            votes: Votes::new(alloc),
        }
    }

    /// How many messages were sent.
    #[tactic(auto, using(crate::proofs::Numbered::counted))]
    pub fn count(&self) -> usize
        ensures value { result ≡ length (sent_in self.now) }
        ensures small { result < 2 ^ 63 }
    {
        self.places.len()
    }

    /// The message of a number.
    pub fn get(&self, number: u64) -> Option<&Sent>
        ensures { option_map (λ sent. sent.now) result ≡ slice_get (sent_in self.now) number }
    {
        let place = place_of(&self.places, number as usize);
        message_at(self.entries.as_slice(), place)
    }

    /// Whether a member sent a vote.
    pub fn has_vote(&self, member: u16, vote: &Vote) -> bool
        ensures { result ≡ list_any (rule.is_sent_vote member vote.now) (sent_in self.now) }
    {
        self.votes.has(member, vote)
    }

    /// One entry more.
    pub fn with(self, alloc: Global, entry: Entry) -> Result<Pool, NoMemory>
        ensures { IfOk result (λ pool. pool ≡ self ++ entry ∷ []) }
    {
        let Pool {
            mut entries,
            mut places,
            mut votes,
        } = self;
        put_places(&mut places, entries.len(), entry.sent.len())?;
        votes.take_all(alloc, entry.sent.as_slice())?;
        entries.push(entry)?;
        Ok(Pool {
            entries,
            places,
            votes,
        })
    }

    /// The entries, in order. Takes no memory.
    pub fn entries(&self) -> &[Entry]
        ensures { result.now ≡ self.now }
    {
        self.entries.as_slice()
    }

    /// The entries.
    pub fn into_entries(self) -> Items<Entry>
        ensures { result ≡ self }
    {
        let Pool {
            entries,
            places: _,
            votes: _,
        } = self;
        entries
    }
}

// The places of an entry's messages.
fn put_places(places: &mut Vec<(usize, usize)>, entry: usize, count: usize) -> Result<(), NoMemory>
    ensures { OnOk result
        (places.new.items ≡ places.old.items ++ map (λ place. (entry, place))
        (range_with_len 0 count)) }
{
    for place in 0..count {
        places.push((entry, place))?;
    }
    Ok(())
}

fn place_of(places: &[(usize, usize)], number: usize) -> Option<(usize, usize)>
    ensures { result ≡ slice_get places.now number }
{
    places.get(number).copied()
}

// The message at a place of an entry, if there is one.
fn message_at<'a>(entries: &'a [Entry], place: Option<(usize, usize)>) -> Option<&'a Sent>
    ensures { option_map (λ sent. sent.now) result ≡ option_and_then (sent_at entries.now) place }
{
    match place {
        None => None,
        Some((entry, place)) => message_of(entries, entry, place),
    }
}

fn message_of<'a>(entries: &'a [Entry], entry: usize, place: usize) -> Option<&'a Sent>
    ensures { option_map (λ sent. sent.now) result ≡ sent_at entries.now (entry, place) }
{
    match entries.get(entry) {
        None => None,
        Some(entry) => entry.sent.as_slice().get(place),
    }
}
