//! The notes that an event gives at once.

ghost use Rattle.std.specs.Prelude.{◌≡◌, ◌&&◌, ◌==◌, ◌<◌, ◌-◌, ◌^◌, ◌+◌, IfOk, IfSome, IsTrue};
ghost use Rattle.std.specs.Prelude.{OnOk, if◌then◌else◌, [], ◌∷◌, false, nat_le, nat_lt, not};
ghost use Rattle.std.specs.Option.{option_map, option_map_or};
ghost use Rattle.cw_types.specs.Epochs as epochs_rule;
ghost use Rattle.cw_types.specs.Votes.{is_ordered};
ghost use Rattle.cw_types.specs.declared.event.Event.TheVariants as event;
ghost use Rattle.cw_types.specs.declared.note.Note.{Note as NoteValue};
ghost use Rattle.cw_rules.specs.Direct as rule;
ghost use Rattle.cw_rules.specs.Held as held_rule;
ghost use Rattle.cw_rules.specs.Notes as notes_rule;
ghost use Rattle.cw_rules.specs.Owed as owed_rule;
ghost use Rattle.node.specs.Proposing.{is_fit, notes_proposed};
ghost use Rattle.node.specs.Holding.{own_state, knowing, rules_of};
ghost use Rattle.node.specs.Noting.{HasNoted};
ghost use Rattle.node.specs.Standing.{PartsStand};
ghost use Rattle.node.specs.Store.{stored_notes};

use crate::holding::Holding;
use cw_base::{Digest32, Hasher, NoMemory, Strategy};
use cw_types::{
    Application, ChainBlock, Commitment, Event, Note, Payload, Proposal, Vote, committees,
};
use node_disk::Disk;
use std::alloc::Global;
use std::thread::Threads;
use voter::parent_stands;

impl<H: Hasher<Digest = Digest32>, D: Disk, A: Application> Holding<H, D, A> {
    // The greatest settled view below that one whose payload is held, with its payload and block.
    fn best_parent(&self, epoch: u64, view: u64) -> Option<(u64, Commitment, &ChainBlock)>
        requires stands { PartsStand H.digest_of A.accepts self.now }
        requires view { view ≡ notes_rule.view_of (stored_notes self.now.store) epoch }
        ensures below { IfSome result (λ best. best.0 < view) }
        ensures value { option_map (λ best. (best.0, best.1, best.2.now)) result
            ≡ rule.best_parent (rules_of H.digest_of A.accepts self.now)
            (stored_notes self.now.store) epoch view }
    {
        parent_stands();
        let mut below = view;
        while let Some((parent, payload)) = self.tally.propose_parent(epoch, below) {
            if let Some(block) = self.store.held(&payload) {
                return Some((parent, payload, block));
            }
            below = parent;
        }
        None
    }

    // The block that a leader proposes over a parent.
    fn proposed_block(
        &self,
        alloc: Global,
        proposal: &Proposal,
        parent: &ChainBlock,
        height: u64,
        payload: &Payload,
    ) -> Result<ChainBlock, NoMemory>
        requires fits { height < 2 ^ 64 - 1 }
        requires height { height ≡ parent.now.height + 1 }
        ensures { IfOk result (λ block. block
            ≡ rule.proposed_block (rules_of H.digest_of A.accepts self.now) proposal.now
            proposal.now.payload parent.now payload.now) }
    {
        let context = self.context_for(proposal, &proposal.payload);
        let digest = parent.digest::<H>(alloc)?;
        Ok(ChainBlock::new(context, digest, height, payload.copy(alloc)?))
    }

    // Writes the note of a block, where there is none under its commitment.
    fn write_block(&mut self, commitment: &Commitment, block: ChainBlock) -> Result<(), NoMemory>
        requires { PartsStand H.digest_of A.accepts self.old }
        ensures ok { OnOk result (HasNoted H.digest_of A.accepts
            (if notes_rule.has_block (stored_notes self.old.store) commitment.now then []
            else NoteValue.Block commitment.now block ∷ []) self.old self.new) }
        ensures kept { self.new ≡ knowing self.old self.new }
    {
        if self.store.has_block(commitment) {
            return Ok(());
        }
        self.write(Note::Block(*commitment, block))
    }

    // Writes the notes of a proposal of a block in a view.
    fn write_proposal<R: Threads + Sync, S: Strategy>(
        &mut self,
        rt: &R,
        alloc: Global,
        place: &Proposal,
        block: ChainBlock,
        strategy: &S,
    ) -> Result<(), NoMemory>
        requires stands { PartsStand H.digest_of A.accepts self.old }
        requires ordered { IsTrue (is_ordered place.now) }
        ensures ok { OnOk result (HasNoted H.digest_of A.accepts
            (rule.proposal_notes (rules_of H.digest_of A.accepts self.old)
            (stored_notes self.old.store) place.now.epoch place.now.view place.now.parent block)
            self.old self.new) }
        ensures kept { self.new ≡ knowing self.old self.new }
    {
        let commitment = self.commitment_of(rt, alloc, &block, strategy)?;
        self.write_block(&commitment, block)?;
        self.write(Note::Verified(place.epoch, place.view, commitment))?;
        self.write(Note::Vote(Vote::Notarize(Proposal {
            epoch: place.epoch,
            view: place.view,
            parent: place.parent,
            payload: commitment,
        })))?;
        Ok(())
    }

    // The new block over the parent that a proposal names, if it may be proposed.
    fn new_block(
        &self,
        alloc: Global,
        over: &Proposal,
        parent: &ChainBlock,
        payload: &Payload,
    ) -> Result<Option<ChainBlock>, NoMemory>
        ensures { IfOk result (λ block. option_map_or
            (rule.proposal_notes (rules_of H.digest_of A.accepts self.now)
            (stored_notes self.now.store) over.now.epoch over.now.view over.now.parent) block []
            ≡ rule.propose_new (rules_of H.digest_of A.accepts self.now)
            (stored_notes self.now.store) over.now.epoch over.now.view payload.now
            (over.now.parent, over.now.payload, parent.now)) }
    {
        let height = parent.height() + 1;
        if height == u64::MAX {
            return Ok(None);
        }
        let block = self.proposed_block(alloc, over, parent, height, payload)?;
        if self.is_within(over.epoch, height) && self.app.verify(&block, parent) {
            Ok(Some(block))
        } else {
            Ok(None)
        }
    }

    // What the leader of a view proposes over the best parent: that again, where it is the last of
    // the epoch, else a new block.
    fn proposal_over(
        &self,
        alloc: Global,
        over: Proposal,
        parent: &ChainBlock,
        payload: &Payload,
    ) -> Result<Proposed, NoMemory>
        requires ordered { IsTrue (is_ordered over) }
        ensures ordered { IfOk result (λ proposed. IsTrue (is_fit proposed)) }
        ensures value { IfOk result
            (λ proposed. notes_proposed (rules_of H.digest_of A.accepts self.now)
            (stored_notes self.now.store) proposed
            ≡ rule.propose_over (rules_of H.digest_of A.accepts self.now)
            (stored_notes self.now.store) over.epoch over.view payload.now
            (over.parent, over.payload, parent.now)) }
    {
        if 0 < over.parent && self.is_last(over.epoch, parent.height()) {
            return Ok(Proposed::Again(over));
        }
        match self.new_block(alloc, &over, parent, payload)? {
            Some(block) => Ok(Proposed::New(over, block)),
            None => Ok(Proposed::Nothing),
        }
    }

    // Whether the member leads that view, and has no vote in it.
    fn may_propose(&self, epoch: u64, view: u64) -> bool
        requires { PartsStand H.digest_of A.accepts self.now }
        ensures { result ≡ ((epochs_rule.leader self.now.epochs epoch view == self.now.id)
            && nat_lt view (2 ^ 64 - 1)
            && not (owed_rule.has_voted (stored_notes self.now.store) epoch view)) }
    {
        committees::leader(&self.committees, epoch, view) == self.id
            && view < u64::MAX
            && !self.tally.has_voted(epoch, view)
    }

    // What the member proposes in its view.
    fn proposal(&self, alloc: Global, payload: &Payload) -> Result<Proposed, NoMemory>
        requires { PartsStand H.digest_of A.accepts self.now }
        ensures ordered { IfOk result (λ proposed. IsTrue (is_fit proposed)) }
        ensures value { IfOk result
            (λ proposed. notes_proposed (rules_of H.digest_of A.accepts self.now)
            (stored_notes self.now.store) proposed
            ≡ rule.proposed (rules_of H.digest_of A.accepts self.now) self.now.id
            (stored_notes self.now.store) payload.now) }
    {
        let epoch = self.tally.epoch();
        let view = self.tally.view(epoch);
        if !self.may_propose(epoch, view) {
            return Ok(Proposed::Nothing);
        }
        match self.best_parent(epoch, view) {
            Some((parent, payload_below, block)) => {
                let over = Proposal {
                    epoch,
                    view,
                    parent,
                    payload: payload_below,
                };
                self.proposal_over(alloc, over, block, payload)
            }
            None => Ok(Proposed::Nothing),
        }
    }

    fn propose<R: Threads + Sync, S: Strategy>(
        &mut self,
        rt: &R,
        alloc: Global,
        payload: &Payload,
        strategy: &S,
    ) -> Result<(), NoMemory>
        requires { PartsStand H.digest_of A.accepts self.old }
        ensures ok { OnOk result (HasNoted H.digest_of A.accepts
            (rule.proposed (rules_of H.digest_of A.accepts self.old) self.old.id
            (stored_notes self.old.store) payload.now) self.old self.new) }
        ensures kept { self.new ≡ knowing self.old self.new }
    {
        match self.proposal(alloc, payload)? {
            Proposed::Again(over) => self.write(Note::Vote(Vote::Notarize(over))),
            Proposed::New(over, block) => self.write_proposal(rt, alloc, &over, block, strategy),
            Proposed::Nothing => Ok(()),
        }
    }

    // Whether the member may vote to nullify that view: it is its view, below 2^64 - 1 and not
    // closed, of an epoch whose member it is.
    fn may_nullify(&self, epoch: u64, view: u64) -> bool
        requires { PartsStand H.digest_of A.accepts self.now }
        ensures { result ≡ ((view == notes_rule.view_of (stored_notes self.now.store) epoch)
            && nat_lt view (2 ^ 64 - 1) && epochs_rule.is_member self.now.epochs epoch self.now.id
            && not (owed_rule.has_closed (stored_notes self.now.store) epoch view)) }
    {
        view == self.tally.view(epoch)
            && view < u64::MAX
            && self.committees.is_member(epoch, self.id)
            && !self.tally.has_closed(epoch, view)
    }

    fn time_out(&mut self, view: u64) -> Result<(), NoMemory>
        requires { PartsStand H.digest_of A.accepts self.old }
        ensures ok { OnOk result (HasNoted H.digest_of A.accepts
            (rule.timed_out (rules_of H.digest_of A.accepts self.old) self.old.id
            (stored_notes self.old.store) view) self.old self.new) }
        ensures kept { self.new ≡ knowing self.old self.new }
    {
        let epoch = self.tally.epoch();
        if !self.may_nullify(epoch, view) {
            return Ok(());
        }
        self.write(Note::Vote(Vote::Nullify { epoch, view }))
    }

    fn acknowledge(&mut self) -> Result<(), NoMemory>
        requires { PartsStand H.digest_of A.accepts self.old }
        ensures ok { OnOk result (HasNoted H.digest_of A.accepts
            (option_map_or (λ h. NoteValue.Ack h ∷ [])
            (rule.least (held_rule.pending (own_state self.old))) []) self.old self.new) }
        ensures kept { self.new ≡ knowing self.old self.new }
    {
        match self.store.least_pending() {
            Some(height) => self.write(Note::Ack(height)),
            None => Ok(()),
        }
    }

    // Whether blocks below that height may be hidden: it is acknowledged, and above those noted.
    fn may_prune(&self, height: u64) -> bool
        ensures bound { IsTrue result → height < 2 ^ 64 - 1 }
        ensures value { result ≡ (option_map_or (λ a. nat_le height a)
            (held_rule.last_ack (stored_notes self.now.store)) false
            && nat_lt (held_rule.greatest_prune (stored_notes self.now.store)) height) }
    {
        match self.store.last_ack() {
            Some(acked) => height <= acked && self.store.greatest_prune().unwrap_or(0) < height,
            None => false,
        }
    }

    fn prune(&mut self, height: u64) -> Result<(), NoMemory>
        requires { PartsStand H.digest_of A.accepts self.old }
        ensures ok { OnOk result (HasNoted H.digest_of A.accepts
            (rule.direct (rules_of H.digest_of A.accepts self.old) self.old.id
            (own_state self.old)
            (event.Prune height)) self.old self.new) }
        ensures kept { self.new ≡ knowing self.old self.new }
    {
        if !self.may_prune(height) {
            return Ok(());
        }
        self.write(Note::Prune(height))
    }

    /// Writes the notes that an event gives at once.
    pub(crate) fn write_direct<R: Threads + Sync, S: Strategy>(
        &mut self,
        rt: &R,
        alloc: Global,
        event: &Event,
        strategy: &S,
    ) -> Result<(), NoMemory>
        requires { PartsStand H.digest_of A.accepts self.old }
        ensures ok { OnOk result (HasNoted H.digest_of A.accepts
            (rule.direct (rules_of H.digest_of A.accepts self.old) self.old.id
            (own_state self.old)
            event.now) self.old self.new) }
        ensures kept { self.new ≡ knowing self.old self.new }
    {
        match event {
            Event::Propose(payload) => self.propose(rt, alloc, payload, strategy),
            Event::Timeout(view) => self.time_out(*view),
            Event::Ack => self.acknowledge(),
            Event::Prune(height) => self.prune(*height),
            _ => Ok(()),
        }
    }
}

/// What a leader proposes.
#[derive(Drop)]
pub(crate) enum Proposed {
    Nothing,
    /// The parent again.
    Again(Proposal),
    /// A new block over the parent that the proposal names.
    New(Proposal, ChainBlock),
}
