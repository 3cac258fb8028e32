//! Sets of members, one for each vote.

ghost use Rattle.std.specs.Prelude.{◌≡◌, [], OnErr, OnOk, option_map};
ghost use Rattle.std.specs.Map.{lookup};
ghost use Rattle.note_scans.specs.Keys.{key_of, same_key};
ghost use Rattle.voter.specs.Sets.{AreSameSets, HaveAdded, HaveRemoved, NoneEmpty, is_in_set};

use cw_base::NoMemory;
use cw_types::Vote;
use note_scans::VoteKey;
use std::alloc::Global;
use std::collections::{BTreeMap, BTreeSet};

/// Sets of members by vote.
#[derive(Drop)]
pub(crate) struct SignerSets {
    pub(crate) by_vote: BTreeMap<VoteKey, BTreeSet<u16>>,
    alloc: Global,
}

impl SignerSets {
    /// No set.
    pub(crate) fn new(alloc: Global) -> SignerSets
        ensures { result.by_vote.entries ≡ [] }
    {
        SignerSets {
            by_vote: BTreeMap::new(alloc),
            alloc,
        }
    }

    /// Puts a member into the set of a vote. Where memory is short nothing changes.
    pub(crate) fn add(&mut self, vote: &Vote, member: u16) -> Result<(), NoMemory>
        ensures ok { OnOk result
            (HaveAdded self.old.by_vote.entries self.new.by_vote.entries vote.now member) }
        ensures err { OnErr result
            (AreSameSets self.old.by_vote.entries self.new.by_vote.entries) }
        ensures some { NoneEmpty self.old.by_vote.entries → NoneEmpty self.new.by_vote.entries }
    {
        let key = VoteKey::new(vote);
        if let Some(members) = self.by_vote.get_mut(&key) {
            members.insert(member)?;
            return Ok(());
        }
        let mut members = BTreeSet::new(self.alloc);
        members.insert(member)?;
        self.by_vote.insert(key, members)?;
        Ok(())
    }

    /// Takes a member out of the set of a vote, which it may leave empty.
    pub(crate) fn remove(&mut self, vote: &Vote, member: u16)
        ensures { HaveRemoved self.old.by_vote.entries self.new.by_vote.entries vote.now member }
    {
        let key = VoteKey::new(vote);
        if let Some(members) = self.by_vote.get_mut(&key) {
            members.remove(&member);
        }
    }

    /// The set of a vote, if there is one.
    pub(crate) fn get(&self, vote: &Vote) -> Option<&BTreeSet<u16>>
        ensures { option_map (λ members. members.now) result
            ≡ lookup (same_key (key_of vote.now)) self.now.by_vote.entries }
    {
        self.by_vote.get(&VoteKey::new(vote))
    }

    /// Whether a member is in the set of a vote.
    pub(crate) fn has(&self, vote: &Vote, member: u16) -> bool
        ensures { result ≡ is_in_set self.now.by_vote.entries vote.now member }
    {
        match self.get(vote) {
            Some(members) => members.contains(&member),
            None => false,
        }
    }
}
