//! The certificate that a member owes.

ghost use Rattle.std.specs.Prelude.{◌≡◌, ◌≤◌, ◌&&◌, ◌||◌, IfOk, IfSome, IsTrue, filter, find};
ghost use Rattle.std.specs.Prelude.{length, not, option_map, unwrap_or};
ghost use Rattle.std.specs.List.{list_any};
ghost use Rattle.std.specs.Option.{is_some};
ghost use Rattle.cw_rules.specs.Accepted.{Single, same_ballot};
ghost use Rattle.cw_rules.specs.Notes.{has_cert};
ghost use Rattle.cw_rules.specs.Owed as rule;
ghost use Rattle.cw_types.specs.Epochs.{is_enough, members_in};
ghost use Rattle.cw_types.specs.Votes.{vote_epoch, well_formed};
ghost use Rattle.cw_types.specs.declared.note.Note.{Note};
ghost use Rattle.note_scans.specs.Countable.{is_countable};
ghost use Rattle.voter.specs.Known.{ballot_signers, is_cert_for, known_signers, known_state};
ghost use Rattle.voter.specs.Known.{vote_rules};
ghost use Rattle.voter.specs.Owing as owing;
ghost use Rattle.voter.specs.Standing.{are_signers};

use crate::ballot::{Ballot, ballot_at};
use crate::tally::Tally;
use cw_base::{Digest32, Hasher, Items, NoMemory};
use cw_types::{Cert, Vote};
use std::alloc::Global;
use std::collections::BTreeSet;

impl<H> Tally<H> {
    /// The members of its epoch that are known to have signed a vote, rising: those whose vote
    /// came, and the member itself where it noted its own. None where there is none. Takes no
    /// memory.
    pub fn signers(&self, vote: &Vote) -> Option<&BTreeSet<u16>>
        ensures { option_map (λ signers. signers.now.keys) result
            ≡ known_signers self.now vote.now }
    {
        self.index.signers(&self.committees, vote)
    }

    // Whether this vote of that member came.
    pub(crate) fn has_voted_so(&self, vote: &Vote, member: u16) -> bool
        ensures vote { result ≡ list_any (rule.is_single member vote.now) self.now.ballots }
        ensures same { result ≡ list_any (same_ballot (Single member vote.now)) self.now.ballots }
    {
        self.index.came.has(vote, member)
    }

    // The members that are known to have signed the vote, rising.
    fn known(&self, alloc: Global, vote: &Vote) -> Result<Vec<u16>, NoMemory>
        ensures { IfOk result (λ known. known.items
            ≡ filter (rule.knows self.now.id (known_state self.now) vote.now)
            (members_in self.now.epochs (vote_epoch vote.now))) }
    {
        match self.signers(vote) {
            Some(signers) => {
                let known = signers.iter().copied().collect(alloc)?;
                Ok(known)
            }
            None => Ok(Vec::new(alloc)),
        }
    }

    // The first certificate of the vote that came.
    fn first_cert(&self, vote: &Vote) -> Option<&Ballot>
        ensures { option_map (λ ballot. ballot.now) result
            ≡ find (is_cert_for vote.now) self.now.ballots }
    {
        match self.index.certs.place(vote) {
            Some(place) => ballot_at(self.ballots.as_slice(), place),
            None => None,
        }
    }
}

impl<H: Hasher<Digest = Digest32>> Tally<H> {
    // Whether a certificate of the vote is owed.
    fn owes_cert(&self, vote: &Vote) -> bool
        ensures { result ≡ owing.owes_cert H.digest_of self.now vote.now }
    {
        self.index.can_certify(&self.committees, vote)
    }

    // The first vote of which a certificate is owed.
    fn first_certifiable(&self) -> Option<Vote>
        ensures { result ≡ find (owing.owes_cert H.digest_of self.now)
            (rule.named_votes (known_state self.now)) }
    {
        let votes = &self.waiting.votes;
        votes
            .came
            .waiting
            .iter()
            .map(|at| at.1)
            .chain(votes.noted.waiting.iter().map(|at| at.1))
            .find(|vote| self.owes_cert(vote))
    }

    // The same: it may be counted.
    fn first_owing(&self) -> Option<Vote>
        ensures value { result ≡ find (owing.owes_cert H.digest_of self.now)
            (rule.named_votes (known_state self.now)) }
        ensures formed { IfSome result (λ vote. IsTrue (well_formed vote)) }
    {
        let _ = &self.notes;
        self.first_certifiable()
    }

    // The signers of the first certificate of the vote that came, else those that are known.
    fn chosen(&self, alloc: Global, vote: &Vote) -> Result<Items<u16>, NoMemory>
        ensures { IfOk result (λ signers. signers
            ≡ unwrap_or (option_map ballot_signers (find (is_cert_for vote.now) self.now.ballots))
            (rule.known (vote_rules H.digest_of self.now.epochs) self.now.id (known_state self.now)
            vote.now)) }
    {
        let signers = match self.first_cert(vote) {
            Some(ballot) => Vec::from_slice(alloc, ballot.signers())?,
            None => self.known(alloc, vote)?,
        };
        Ok(Items::from_vec(signers))
    }

    // The same: they may sign the vote.
    fn certifying(&self, alloc: Global, vote: &Vote) -> Result<Items<u16>, NoMemory>
        ensures value { IfOk result
            (λ signers. signers ≡ unwrap_or
            (option_map ballot_signers (find (is_cert_for vote.now) self.now.ballots))
            (rule.known (vote_rules H.digest_of self.now.epochs) self.now.id (known_state self.now)
            vote.now)) }
        ensures signed { IfOk result
            (λ signers. IsTrue (are_signers self.now.epochs vote.now signers)) }
        ensures few { IfOk result (λ signers. length signers ≤ 65535) }
    {
        // No committee has more members than there are, so their number fits.
        let _total = self.committees.total();
        let _members = self.committees.members(vote.epoch());
        let signers = self.chosen(alloc, vote)?;
        Ok(signers)
    }

    /// The certificate that the member owes: of the first vote without a noted one, in the order of
    /// what came and then of the notes, of which a certificate came or a quorum is known to have
    /// signed. Its signers are those of the first certificate of the vote that came, else all that
    /// are known, rising. It can be noted, and at most 65,535 members sign it.
    pub fn owed_cert(&self, alloc: Global) -> Result<Option<Cert>, NoMemory>
        ensures value { IfOk result
            (λ owed. option_map Note.Cert owed ≡ owing.first_cert_owed H.digest_of self.now) }
        ensures countable { IfOk result
            (λ owed. IfSome owed (λ cert. IsTrue (is_countable (Note.Cert cert)))) }
        ensures signed { IfOk result
            (λ owed. IfSome owed (λ cert.
            IsTrue (are_signers self.now.epochs cert.vote cert.signers))) }
        ensures few { IfOk result (λ owed. IfSome owed (λ cert. length cert.signers ≤ 65535)) }
    {
        match self.first_owing() {
            Some(vote) => {
                let signers = self.certifying(alloc, &vote)?;
                Ok(Some(Cert { vote, signers }))
            }
            None => Ok(None),
        }
    }
}
