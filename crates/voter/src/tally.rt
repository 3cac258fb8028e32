//! The tally: what a member knows, and what it is told.

ghost use Rattle.std.specs.Prelude.{◌≡◌, ◌<◌, IfOk, IsTrue, OnOk, OnErr, not, option_map};
ghost use Rattle.std.specs.List.{list_any};
ghost use Rattle.cw_rules.specs.Accepted.{Many, Single, same_ballot};
ghost use Rattle.cw_rules.specs.Notes as rule;
ghost use Rattle.cw_types.specs.Commit.{genesis_commitment};
ghost use Rattle.cw_types.specs.Votes as votes;
ghost use Rattle.note_scans.specs.Countable.{is_countable};
ghost use Rattle.voter.specs.Known.{with_note, unknowing, with_ballot, with_own};
ghost use Rattle.voter.specs.Signing.{counted_vote};
ghost use Rattle.voter.specs.Standing.{are_signers};

use crate::ballot::Ballot;
use crate::index::Index;
use crate::own::OwnChunk;
use crate::waiting::Waiting;
use cw_base::{Digest32, Hasher, Items, NoMemory};
use cw_types::{Cert, Commitment, Committees, Note, Vote, genesis_commitment};
use std::alloc::Global;
use std::marker::{Model, PhantomData};

/// What a member knows of votes and certificates. Contracts see it as the committees, the member's
/// number, and lists: its notes, the votes and certificates that came, and the chunks that came at
/// its own place, each in the order in which the tally was told of them.
///
/// Member 0 of four owes a certificate once the votes of three members came, and the certificate
/// goes into its notes, from where the tally is told of it:
///
/// ```text
/// let nullify = Vote::Nullify { epoch: 0, view: 1 };
/// let mut tally = Tally::<Sha256>::new(alloc, Committees::single(alloc, 4)?, 0);
/// for signer in 1..4 {
///     tally.take_vote(signer, &nullify)?;
/// }
/// if let Some(cert) = tally.owed_cert(alloc)? {
///     // of `nullify`, signed by 1, 2 and 3
///     tally.take_note(&Note::Cert(cert))?;
/// }
/// assert!(rt; tally.view(0) == 2);
/// ```
#[derive(Drop)]
pub struct Tally<H> {
    pub(crate) committees: Committees,
    pub(crate) id: u16,
    pub(crate) notes: Items<Note>,
    pub(crate) ballots: Items<Ballot>,
    pub(crate) own: Items<OwnChunk>,
    // in place of searches
    pub(crate) index: Index,
    // the only ones of which something can be owed
    pub(crate) waiting: Waiting,
    alloc: Global,
    hasher: PhantomData<H>,
}

impl<H> Model for Tally<H> {
    ghost use Rattle.voter.specs.Known.{Known};
    ghost use Rattle.voter.specs.Standing.{IsTally};

    ghost Value = { Known };

    ghost view = { λ t. record
        { epochs = t.committees; id = t.id; notes = t.notes; ballots = t.ballots; own = t.own } };

    ghost invariant = { λ t. IsTally t.committees t.id t.notes t.ballots
        t.index.came.by_vote.entries t.index.known.by_vote.entries
        t.index.facts t.index.certs.first.entries t.index.certs.lists.by_vote.entries
        t.own t.index.own.by_key.entries t.waiting };
}

impl<H: Hasher<Digest = Digest32>> Tally<H> {
    /// The tally of member `id` of these committees, which knows nothing yet. Takes no memory.
    pub fn new(alloc: Global, committees: Committees, id: u16) -> Tally<H>
        requires { id < committees.total }
        ensures { result ≡ unknowing committees id }
    {
        Tally {
            committees,
            id,
            notes: Items::new(alloc),
            ballots: Items::new(alloc),
            own: Items::new(alloc),
            index: Index::new(alloc),
            waiting: Waiting::new(alloc),
            alloc,
            hasher: PhantomData,
        }
    }

    /// The payload that is settled for a view of an epoch: that of the first noted certified
    /// proposal or finalization of the view, and for view 0 what the epoch builds on. None where
    /// nothing is settled. Takes no memory.
    pub fn settled(&self, epoch: u64, view: u64) -> Option<Commitment>
        ensures { result ≡ rule.settled (genesis_commitment H.digest_of) self.now.notes epoch view }
    {
        if view > 0 {
            return self.index.facts.settled.of_view(epoch, view);
        }
        if epoch == 0 {
            return Some(genesis_commitment::<H>());
        }
        self.index.facts.settled.of_epoch(epoch)
    }
}

impl<H> Tally<H> {
    /// Takes a note of the member's own, at the end. Where memory is short nothing changes.
    pub fn take_note(&mut self, note: &Note) -> Result<(), NoMemory>
        requires { IsTrue (is_countable note.now) }
        ensures ok { OnOk result (self.new ≡ with_note self.old note.now) }
        ensures err { OnErr result (self.new ≡ self.old) }
    {
        let counted = self.counted_vote(note);
        let copy = note.copy(self.alloc)?;
        self.waiting.reserve_noted(note)?;
        let len = self.notes.len();
        self.notes.push(copy)?;
        if let Err(NoMemory) = self.index.take_note(self.id, note, counted) {
            self.notes.truncate(len);
            return Err(NoMemory);
        }
        let certifies = self.index.certifies(&self.committees, note);
        let said = &self.index.facts.said;
        self.waiting
            .take_note(note, certifies, said, &self.committees, self.id);
        Ok(())
    }

    // The vote of the member's own that a note is, where it is a member of the vote's epoch.
    fn counted_vote<'a>(&self, note: &'a Note) -> Option<&'a Vote>
        ensures { option_map (λ vote. vote.now) result
            ≡ counted_vote self.now.epochs self.now.id note.now }
    {
        match note {
            Note::Vote(vote) => {
                if self.committees.is_member(vote.epoch(), self.id) {
                    Some(vote)
                } else {
                    None
                }
            }
            _ => None,
        }
    }

    /// Takes a vote that member `signer` signed; true exactly where it wasn't there. Where memory
    /// is short nothing changes.
    pub fn take_vote(&mut self, signer: u16, vote: &Vote) -> Result<bool, NoMemory>
        requires { IsTrue (votes.well_formed vote.now) }
        ensures ok { OnOk result (self.new ≡ with_ballot self.old (Single signer vote.now)) }
        ensures fresh { IfOk result
            (λ fresh. fresh ≡ not (list_any (same_ballot (Single signer vote.now))
            self.old.ballots)) }
        ensures err { OnErr result (self.new ≡ self.old) }
    {
        if self.has_voted_so(vote, signer) {
            return Ok(false);
        }
        let counts = self.committees.is_member(vote.epoch(), signer);
        self.waiting.reserve_came(vote)?;
        let len = self.ballots.len();
        self.ballots.push(Ballot::single(signer, *vote))?;
        if let Err(NoMemory) = self.index.take_vote(signer, vote, counts) {
            self.ballots.truncate(len);
            return Err(NoMemory);
        }
        let certifies = self.index.can_certify(&self.committees, vote);
        let said = &self.index.facts.said;
        self.waiting
            .take_came(vote, certifies, said, &self.committees, self.id);
        Ok(true)
    }

    /// Takes a valid certificate, whose signers rise and are members of its epoch; true exactly
    /// where it wasn't there. Where memory is short nothing changes.
    pub fn take_cert(&mut self, cert: &Cert) -> Result<bool, NoMemory>
        requires formed { IsTrue (votes.well_formed cert.now.vote) }
        requires signed { IsTrue (are_signers self.old.epochs cert.now.vote cert.now.signers) }
        ensures ok { OnOk result (self.new ≡ with_ballot self.old (Many cert.now)) }
        ensures fresh { IfOk result
            (λ fresh. fresh ≡ not (list_any (same_ballot (Many cert.now)) self.old.ballots)) }
        ensures err { OnErr result (self.new ≡ self.old) }
    {
        if self.has_same_cert(cert) {
            return Ok(false);
        }
        let copy = cert.copy(self.alloc)?;
        self.waiting.reserve_came(&cert.vote)?;
        let len = self.ballots.len();
        self.ballots.push(Ballot::many(copy))?;
        if let Err(NoMemory) = self.index.certs.take(cert, len) {
            self.ballots.truncate(len);
            return Err(NoMemory);
        }
        let certifies = self.index.can_certify(&self.committees, &cert.vote);
        let said = &self.index.facts.said;
        self.waiting
            .take_came(&cert.vote, certifies, said, &self.committees, self.id);
        Ok(true)
    }

    /// Is told that a chunk of this commitment came, whose index is the member's place in the list
    /// of some epoch. Where memory is short nothing changes.
    pub fn take_own_chunk(&mut self, commitment: &Commitment, index: u16) -> Result<(), NoMemory>
        ensures ok { OnOk result (self.new ≡ with_own self.old commitment.now index) }
        ensures err { OnErr result (self.new ≡ self.old) }
    {
        let len = self.own.len();
        self.own.push(OwnChunk {
            commitment: *commitment,
            index,
        })?;
        if let Err(NoMemory) = self.index.own.take(commitment, index) {
            self.own.truncate(len);
            return Err(NoMemory);
        }
        Ok(())
    }

    // Whether this certificate came.
    fn has_same_cert(&self, cert: &Cert) -> bool
        ensures { result ≡ list_any (same_ballot (Many cert.now)) self.now.ballots }
    {
        self.index.certs.has(cert)
    }

    /// The epoch that the member is in: the greatest that a note enters. Takes no memory.
    pub fn epoch(&self) -> u64
        ensures { result ≡ rule.epoch_of self.now.notes }
    {
        self.index.facts.epoch
    }

    /// The view of an epoch that the member is in: one above the greatest with a noted
    /// nullification, finalization or certified proposal. Takes no memory.
    pub fn view(&self, epoch: u64) -> u64
        ensures { result ≡ rule.view_of self.now.notes epoch }
    {
        1 + self.index.facts.ended.of(epoch)
    }

    /// Whether the nullification of a view of an epoch is noted. Takes no memory.
    pub fn nullified(&self, epoch: u64, view: u64) -> bool
        ensures { result ≡ rule.nullified self.now.notes epoch view }
    {
        self.index.facts.said.has_nullified(epoch, view)
    }
}
