//! What a member accepts.

ghost use Rattle.std.specs.Prelude.{◌≡◌, ◌==◌, ◌&&◌, ◌++◌, ◌∷◌, [], None, IfOk, IsTrue, OnOk};
ghost use Rattle.std.specs.Prelude.{false, position, true};
ghost use Rattle.std.specs.List.{list_any};
ghost use Rattle.std.specs.Option.{option_map_or};
ghost use Rattle.cw_rules.specs.Accepted as rule;
ghost use Rattle.cw_rules.specs.Accepted.{Many, Row, Single, Whole, same_part};
ghost use Rattle.cw_rules.specs.Rules.{commit};
ghost use Rattle.cw_rules.specs.Step.{taken_came};
ghost use Rattle.cw_types.specs.Votes.{well_formed};
ghost use Rattle.voter.specs.Standing.{are_signers};
ghost use Rattle.node.specs.Accepting.{brings_row, is_acceptable, is_new_row, is_own_place};
ghost use Rattle.node.specs.Accepting.{with_row};
ghost use Rattle.node.specs.Holding.{came_of, cut_rules, is_whole, knowing, rules_of};
ghost use Rattle.node.specs.Standing.{HasCome, PartsStand};

use crate::arrival::{Arrival, Shown};
use crate::holding::Holding;
use cw_base::{Digest32, Hasher, Items, NoMemory, Strategy};
use cw_coding::Chunk;
use cw_rules::Travel;
use cw_rules_coded::coded_laws;
use cw_types::{
    Application, Cert, ChainBlock, Commitment, Event, Message, Verifier, Vote, well_formed,
};
use node_disk::Disk;
use shards::{Verdict, shards_stand, shown_by_kept, shown_stays};
use std::alloc::Global;
use std::thread::Threads;
use voter::standing_is_kept;

impl<H: Hasher<Digest = Digest32>, D: Disk, A: Application> Holding<H, D, A> {
    fn is_acceptable<V: Verifier>(&self, verifier: &V, signer: u16, vote: &Vote) -> bool
        ensures { result ≡ is_acceptable (rules_of H.digest_of A.accepts self.now)
            (V.signs verifier.now) signer vote.now }
    {
        self.committees.is_member(vote.epoch(), signer)
            && well_formed(vote)
            && verifier.signed(signer, vote)
    }

    // Whether the certificate is valid.
    fn is_valid<V: Verifier>(&self, verifier: &V, cert: &Cert) -> bool
        ensures { result ≡ rule.is_valid (rules_of H.digest_of A.accepts self.now)
            (V.signs verifier.now) cert.now }
    {
        cw_types::is_valid(&self.committees, verifier, cert)
    }

    // A vote that may be accepted.
    fn take_vote(&mut self, signer: u16, vote: &Vote) -> Result<(), NoMemory>
        requires stands { PartsStand H.digest_of A.accepts self.old }
        requires formed { IsTrue (well_formed vote.now) }
        ensures ok { OnOk result (HasCome H.digest_of A.accepts
            (rule.take_ballot (came_of self.old) true (Single signer vote.now)) self.old self.new) }
        ensures kept { self.new ≡ knowing self.old self.new }
    {
        standing_is_kept();
        self.tally.take_vote(signer, vote)?;
        Ok(())
    }

    fn accept_vote<V: Verifier>(
        &mut self,
        verifier: &V,
        signer: u16,
        vote: &Vote,
    ) -> Result<(), NoMemory>
        requires { PartsStand H.digest_of A.accepts self.old }
        ensures ok { OnOk result (HasCome H.digest_of A.accepts
            (rule.take_ballot (came_of self.old)
            (is_acceptable (rules_of H.digest_of A.accepts self.old) (V.signs verifier.now) signer
            vote.now) (Single signer vote.now)) self.old self.new) }
        ensures kept { self.new ≡ knowing self.old self.new }
    {
        if !self.is_acceptable(verifier, signer, vote) {
            return Ok(());
        }
        self.take_vote(signer, vote)
    }

    // A certificate that is valid.
    fn take_cert(&mut self, cert: &Cert) -> Result<(), NoMemory>
        requires stands { PartsStand H.digest_of A.accepts self.old }
        requires formed { IsTrue (well_formed cert.now.vote) }
        requires signed { IsTrue (are_signers self.old.epochs cert.now.vote cert.now.signers) }
        ensures ok { OnOk result (HasCome H.digest_of A.accepts
            (rule.take_ballot (came_of self.old) true (Many cert.now)) self.old self.new) }
        ensures kept { self.new ≡ knowing self.old self.new }
    {
        standing_is_kept();
        self.tally.take_cert(cert)?;
        Ok(())
    }

    fn accept_cert<V: Verifier>(&mut self, verifier: &V, cert: &Cert) -> Result<(), NoMemory>
        requires { PartsStand H.digest_of A.accepts self.old }
        ensures ok { OnOk result (HasCome H.digest_of A.accepts
            (rule.take_ballot (came_of self.old)
            (rule.is_valid (rules_of H.digest_of A.accepts self.old) (V.signs verifier.now)
            cert.now) (Many cert.now)) self.old self.new) }
        ensures kept { self.new ≡ knowing self.old self.new }
    {
        if !self.is_valid(verifier, cert) {
            return Ok(());
        }
        self.take_cert(cert)
    }

    // One more wish.
    fn add_wish(&mut self, commitment: &Commitment) -> Result<(), NoMemory>
        requires { PartsStand H.digest_of A.accepts self.old }
        ensures ok { OnOk result (HasCome H.digest_of A.accepts
            (rule.add_wish (came_of self.old) commitment.now) self.old self.new) }
        ensures kept { self.new ≡ knowing self.old self.new }
    {
        standing_is_kept();
        self.wishes.push(*commitment)?;
        Ok(())
    }

    fn accept_floor<V: Verifier>(&mut self, verifier: &V, cert: &Cert) -> Result<(), NoMemory>
        requires { PartsStand H.digest_of A.accepts self.old }
        ensures ok { OnOk result (HasCome H.digest_of A.accepts
            (rule.wished (rules_of H.digest_of A.accepts self.old) (V.signs verifier.now)
            (came_of self.old) cert.now) self.old self.new) }
        ensures kept { self.new ≡ knowing self.old self.new }
    {
        let Vote::Finalize(proposal) = &cert.vote else {
            return Ok(());
        };
        if !self.is_valid(verifier, cert) {
            return Ok(());
        }
        self.take_cert(cert)?;
        self.add_wish(&proposal.payload)
    }

    // Whether that block came whole.
    fn has_arrived(&self, block: &ChainBlock) -> bool
        requires { PartsStand H.digest_of A.accepts self.now }
        ensures { result ≡ list_any (same_part (Whole block.now)) (came_of self.now).parts }
    {
        self.arrivals.has(block)
    }

    // Puts a block that came whole behind the others.
    fn add_whole(&mut self, commitment: Commitment, block: ChainBlock) -> Result<(), NoMemory>
        requires stands { PartsStand H.digest_of A.accepts self.old }
        requires commitment { commitment ≡ commit (rules_of H.digest_of A.accepts self.old) block }
        requires new { list_any (same_part (Whole block)) (came_of self.old).parts ≡ false }
        ensures ok { OnOk result (HasCome H.digest_of A.accepts
            (rule.take_part (came_of self.old) true (Whole block)) self.old self.new) }
        ensures kept { self.new ≡ knowing self.old self.new }
    {
        standing_is_kept();
        shards_stand();
        self.arrivals.push(Arrival {
            commitment,
            block: Some(block),
        })?;
        Ok(())
    }

    fn accept_block<R: Threads + Sync, S: Strategy>(
        &mut self,
        rt: &R,
        alloc: Global,
        block: &ChainBlock,
        strategy: &S,
    ) -> Result<(), NoMemory>
        requires { PartsStand H.digest_of A.accepts self.old }
        ensures ok { OnOk result (HasCome H.digest_of A.accepts
            (rule.take_part (came_of self.old) true (Whole block.now)) self.old self.new) }
        ensures kept { self.new ≡ knowing self.old self.new }
    {
        if self.has_arrived(block) {
            return Ok(());
        }
        let commitment = self.commitment_of(rt, alloc, block, strategy)?;
        let block = block.copy(alloc)?;
        self.add_whole(commitment, block)
    }

    // Whether that is the member's place in the list of some epoch.
    fn is_own_place(&self, index: u16) -> bool
        ensures { result ≡ is_own_place self.now.epochs self.now.id index }
    {
        stands_in(self.committees.lists(), self.id, index)
    }

    // Tells the tally of a chunk, where it is the member's own.
    #[tactic(auto, using(crate::proofs::Rows::row_told, crate::proofs::Rows::row_untold))]
    fn tell_own(&mut self, commitment: &Commitment, index: u16) -> Result<(), NoMemory>
        ensures ok { OnOk result (self.new
            ≡ record self.old {
              tally = with_row self.old.epochs self.old.id self.old.tally
                  commitment.now index;
            }) }
        ensures kept { self.new ≡ knowing self.old self.new }
    {
        if !self.is_own_place(index) {
            return Ok(());
        }
        self.tally.take_own_chunk(commitment, index)
    }

    // Keeps that a chunk came.
    fn add_row(&mut self, commitment: &Commitment, index: u16) -> Result<(), NoMemory>
        ensures ok { OnOk result (self.new
            ≡ record self.old {
              tally = with_row self.old.epochs self.old.id self.old.tally
                  commitment.now index;
              arrivals = self.old.arrivals
                  ++ record { commitment = commitment.now; block = None } ∷ [];
            }) }
        ensures kept { self.new ≡ knowing self.old self.new }
    {
        self.tell_own(commitment, index)?;
        self.arrivals.push(Arrival {
            commitment: *commitment,
            block: None,
        })?;
        Ok(())
    }

    // Keeps that a chunk came, and the block that it showed.
    fn add_last_row(
        &mut self,
        commitment: &Commitment,
        index: u16,
        block: ChainBlock,
    ) -> Result<(), NoMemory>
        ensures ok { OnOk result (self.new
            ≡ record self.old {
              tally = with_row self.old.epochs self.old.id self.old.tally
                  commitment.now index;
              arrivals = self.old.arrivals
                  ++ record { commitment = commitment.now; block = None } ∷ [];
              shown = self.old.shown
                  ++ record { commitment = commitment.now; block = block } ∷ [];
            }) }
        ensures kept { self.new ≡ knowing self.old self.new }
    {
        self.add_row(commitment, index)?;
        self.shown.push(Shown {
            commitment: *commitment,
            block,
        })?;
        Ok(())
    }

    fn accept_chunk<R: Threads + Sync, S: Strategy>(
        &mut self,
        rt: &R,
        alloc: Global,
        commitment: &Commitment,
        chunk: &Chunk<Digest32>,
        strategy: &S,
    ) -> Result<bool, NoMemory>
        requires { PartsStand H.digest_of A.accepts self.old }
        ensures come { OnOk result
            (HasCome H.digest_of A.accepts
            (rule.take_part (came_of self.old)
            (rule.is_chunk_of (cut_rules H.digest_of A.accepts self.old) commitment.now chunk.now)
            (Row commitment.now chunk.now)) self.old self.new) }
        ensures new { IfOk result
            (λ new. new ≡ is_new_row (cut_rules H.digest_of A.accepts self.old) (came_of self.old)
            commitment.now chunk.now) }
        ensures kept { self.new ≡ knowing self.old self.new }
    {
        let chunk = chunk.copy(alloc)?;
        self.keep_chunk(rt, commitment, chunk, strategy)
    }

    // Keeps a chunk that is taken, and the block that it shows.
    fn keep_chunk<R: Threads + Sync, S: Strategy>(
        &mut self,
        rt: &R,
        commitment: &Commitment,
        chunk: Chunk<Digest32>,
        strategy: &S,
    ) -> Result<bool, NoMemory>
        requires { PartsStand H.digest_of A.accepts self.old }
        ensures come { OnOk result
            (HasCome H.digest_of A.accepts
            (rule.take_part (came_of self.old)
            (rule.is_chunk_of (cut_rules H.digest_of A.accepts self.old) commitment.now chunk)
            (Row commitment.now chunk)) self.old self.new) }
        ensures new { IfOk result
            (λ new. new ≡ is_new_row (cut_rules H.digest_of A.accepts self.old) (came_of self.old)
            commitment.now chunk) }
        ensures kept { self.new ≡ knowing self.old self.new }
    {
        standing_is_kept();
        shards_stand();
        shown_stays();
        shown_by_kept();
        coded_laws();
        let index = chunk.index();
        match self.shards.take(rt, commitment, chunk, strategy)? {
            Verdict::Known => Ok(false),
            Verdict::Foreign => Ok(false),
            Verdict::Kept => {
                self.add_row(commitment, index)?;
                Ok(true)
            }
            Verdict::Held(block) => {
                self.add_last_row(commitment, index, block)?;
                Ok(true)
            }
            Verdict::Garbage => {
                self.add_row(commitment, index)?;
                Ok(true)
            }
        }
    }

    // Takes a chunk. Where blocks travel whole it changes nothing.
    fn accept_shard<R: Threads + Sync, S: Strategy>(
        &mut self,
        rt: &R,
        alloc: Global,
        commitment: &Commitment,
        chunk: &Chunk<Digest32>,
        strategy: &S,
    ) -> Result<bool, NoMemory>
        requires { PartsStand H.digest_of A.accepts self.old }
        ensures come { OnOk result
            (HasCome H.digest_of A.accepts
            (rule.take_part (came_of self.old)
            (rule.is_chunk_of (rules_of H.digest_of A.accepts self.old) commitment.now chunk.now)
            (Row commitment.now chunk.now)) self.old self.new) }
        ensures new { IfOk result
            (λ new. new ≡ is_new_row (rules_of H.digest_of A.accepts self.old) (came_of self.old)
            commitment.now chunk.now) }
        ensures kept { self.new ≡ knowing self.old self.new }
    {
        match self.travel {
            Travel::Chunked => self.accept_chunk(rt, alloc, commitment, chunk, strategy),
            Travel::Uncut => Ok(false),
        }
    }

    /// Takes in what an event brings; true exactly where it is a chunk that is accepted.
    pub(crate) fn accept<R: Threads + Sync, V: Verifier, S: Strategy>(
        &mut self,
        rt: &R,
        alloc: Global,
        event: &Event,
        verifier: &V,
        strategy: &S,
    ) -> Result<bool, NoMemory>
        requires { PartsStand H.digest_of A.accepts self.old }
        ensures come { OnOk result
            (HasCome H.digest_of A.accepts
            (taken_came (rules_of H.digest_of A.accepts self.old) (V.signs verifier.now)
            (came_of self.old) event.now) self.old self.new) }
        ensures new { IfOk result
            (λ new. new ≡ brings_row (rules_of H.digest_of A.accepts self.old) (came_of self.old)
            event.now) }
        ensures kept { self.new ≡ knowing self.old self.new }
    {
        match event {
            Event::Deliver(Message::Vote(signer, vote)) => {
                self.accept_vote(verifier, *signer, vote)?;
                Ok(false)
            }
            Event::Deliver(Message::Cert(cert)) => {
                self.accept_cert(verifier, cert)?;
                Ok(false)
            }
            Event::Deliver(Message::Shard(commitment, chunk)) => {
                self.accept_shard(rt, alloc, commitment, chunk, strategy)
            }
            Event::Deliver(Message::Block(block)) => {
                self.accept_block(rt, alloc, block, strategy)?;
                Ok(false)
            }
            Event::Floor(cert) => {
                self.accept_floor(verifier, cert)?;
                Ok(false)
            }
            _ => Ok(false),
        }
    }
}

// A member's place in a list.
fn place_in(members: &[u16], member: u16) -> Option<usize>
    ensures { result ≡ position (λ j. j == member) members.now }
{
    members.iter().position(|other| *other == member)
}

// Whether a member stands at that place of a list.
fn stands_at(members: &[u16], member: u16, index: u16) -> bool
    ensures { result ≡ option_map_or (λ at. at == index) (position (λ j. j == member) members.now)
        false }
{
    match place_in(members, member) {
        Some(place) => place == index as usize,
        None => false,
    }
}

// Whether a member stands at that place of some list.
fn stands_in(lists: &[Items<u16>], member: u16, index: u16) -> bool
    ensures { result ≡ list_any
        (λ list. option_map_or (λ at. at == index) (position (λ j. j == member) list) false)
        lists.now }
{
    lists
        .iter()
        .any(|members| stands_at(members.as_slice(), member, index))
}
