//! The signers of the certificates of each vote.

ghost use Rattle.std.specs.Prelude.{◌≡◌, [], OnErr, OnOk};
ghost use Rattle.voter.specs.Lists.{AreSameLists, HaveListed, HaveUnlisted, has_signers_list};

use cw_base::NoMemory;
use cw_types::Vote;
use note_scans::VoteKey;
use std::alloc::Global;
use std::collections::{BTreeMap, BTreeSet};

/// Lists of signers by vote.
#[derive(Drop)]
pub(crate) struct SignerLists {
    pub(crate) by_vote: BTreeMap<VoteKey, BTreeSet<Vec<u16>>>,
    alloc: Global,
}

impl SignerLists {
    /// No list.
    pub(crate) fn new(alloc: Global) -> SignerLists
        ensures { result.by_vote.entries ≡ [] }
    {
        SignerLists {
            by_vote: BTreeMap::new(alloc),
            alloc,
        }
    }

    /// Keeps a list of signers of a vote. Where memory is short nothing changes.
    pub(crate) fn add(&mut self, vote: &Vote, signers: &[u16]) -> Result<(), NoMemory>
        ensures ok { OnOk result (HaveListed self.old.by_vote.entries self.new.by_vote.entries
            vote.now signers.now) }
        ensures err { OnErr result
            (AreSameLists self.old.by_vote.entries self.new.by_vote.entries) }
    {
        let key = VoteKey::new(vote);
        let list = Vec::from_slice(self.alloc, signers)?;
        if let Some(lists) = self.by_vote.get_mut(&key) {
            lists.insert(list)?;
            return Ok(());
        }
        let mut lists = BTreeSet::new(self.alloc);
        lists.insert(list)?;
        self.by_vote.insert(key, lists)?;
        Ok(())
    }

    /// Lets go of a list of signers of a vote.
    pub(crate) fn remove(&mut self, vote: &Vote, signers: &[u16])
        ensures { HaveUnlisted self.old.by_vote.entries self.new.by_vote.entries vote.now
            signers.now }
    {
        let key = VoteKey::new(vote);
        if let Some(lists) = self.by_vote.get_mut(&key) {
            lists.remove(signers);
        }
    }

    /// Whether there is a list of these signers of a vote.
    pub(crate) fn has(&self, vote: &Vote, signers: &[u16]) -> bool
        ensures { result ≡ has_signers_list self.now.by_vote.entries vote.now signers.now }
    {
        match self.by_vote.get(&VoteKey::new(vote)) {
            Some(lists) => lists.contains(signers),
            None => false,
        }
    }
}
