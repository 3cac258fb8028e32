//! Which certificates came, and where the first of each vote stands.

ghost use Rattle.std.specs.Prelude.{◌≡◌, ◌++◌, ◌∷◌, [], List, OnErr, OnOk, false, length};
ghost use Rattle.std.specs.List.{list_any};
ghost use Rattle.cw_rules.specs.Accepted.{Ballot as BallotValue, Many, same_ballot};
ghost use Rattle.voter.specs.Certs.{HasFirst, first_place};
ghost use Rattle.voter.specs.Lists.{HasLists};

use crate::maps::put_first;
use crate::signer_lists::SignerLists;
use cw_base::NoMemory;
use cw_types::{Cert, Vote};
use note_scans::VoteKey;
use std::alloc::Global;
use std::collections::BTreeMap;

/// The place of the first certificate of each vote, among what came, and the signers of each
/// certificate.
#[derive(Drop)]
pub(crate) struct Certs {
    pub(crate) first: BTreeMap<VoteKey, usize>,
    pub(crate) lists: SignerLists,
}

impl Certs {
    /// That of nothing that came.
    pub(crate) fn new(alloc: Global) -> Certs
        ensures first { HasFirst [] result.first.entries }
        ensures lists { HasLists [] result.lists.by_vote.entries }
    {
        Certs {
            first: BTreeMap::new(alloc),
            lists: SignerLists::new(alloc),
        }
    }

    /// A certificate came that wasn't there, at this place. Where memory is short nothing changes.
    pub(crate) fn take(&mut self, cert: &Cert, place: usize) -> Result<(), NoMemory>
        ensures first { (ballots : List BallotValue)
            → HasFirst ballots self.old.first.entries → place ≡ length ballots
            → OnOk result (HasFirst (ballots ++ Many cert.now ∷ []) self.new.first.entries) }
        ensures lists { (ballots : List BallotValue)
            → HasLists ballots self.old.lists.by_vote.entries
            → OnOk result (HasLists (ballots ++ Many cert.now ∷ [])
            self.new.lists.by_vote.entries) }
        ensures same { OnErr result (self.new.first.entries ≡ self.old.first.entries) }
        ensures err { (ballots : List BallotValue)
            → HasLists ballots self.old.lists.by_vote.entries
            → list_any (same_ballot (Many cert.now)) ballots ≡ false
            → OnErr result (HasLists ballots self.new.lists.by_vote.entries) }
    {
        self.lists.add(&cert.vote, cert.signers.as_slice())?;
        if let Err(NoMemory) = put_first(&mut self.first, VoteKey::new(&cert.vote), place) {
            self.lists.remove(&cert.vote, cert.signers.as_slice());
            return Err(NoMemory);
        }
        Ok(())
    }

    /// Whether this certificate came.
    pub(crate) fn has(&self, cert: &Cert) -> bool
        ensures { (ballots : List BallotValue) → HasLists ballots self.now.lists.by_vote.entries
            → result ≡ list_any (same_ballot (Many cert.now)) ballots }
    {
        self.lists.has(&cert.vote, cert.signers.as_slice())
    }

    /// The place of the first certificate of the vote.
    pub(crate) fn place(&self, vote: &Vote) -> Option<usize>
        ensures { (ballots : List BallotValue) → HasFirst ballots self.now.first.entries
            → result ≡ first_place vote.now ballots }
    {
        self.first.get(&VoteKey::new(vote)).copied()
    }
}
