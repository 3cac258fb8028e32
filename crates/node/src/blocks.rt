//! The blocks that a member is shown, and the note that is owed of one.

ghost use Rattle.std.specs.Prelude.{◌≡◌, ◌&&◌, ◌<◌, ◌-◌, ◌*◌, IfOk, IfSome, IsTrue, max, nat_le};
ghost use Rattle.std.specs.Option.{option_map};
ghost use Rattle.cw_types.specs.Values.{is_storable};
ghost use Rattle.cw_types.specs.declared.note.Note.{Note as NoteValue};
ghost use Rattle.cw_rules.specs.Accepted.{first_some};
ghost use Rattle.cw_rules.specs.Held as held_rule;
ghost use Rattle.cw_rules.specs.Owed as rule;
ghost use Rattle.node.specs.Noting.{arrival_owed};
ghost use Rattle.node.specs.Holding.{came_of, own_state, rules_of};
ghost use Rattle.node.specs.Standing.{OwesLast, PartsStand};
ghost use Rattle.node.specs.Store.{stored_notes};

use crate::holding::Holding;
use cw_base::{Digest32, Hasher, NoMemory};
use cw_rules::Travel;
use cw_types::laws::commitment_fits;
use cw_types::{Application, ChainBlock, Commitment, Note, genesis_commitment};
use node_disk::Disk;
use shards::shown_by_kept;
use std::alloc::Global;

impl<H: Hasher<Digest = Digest32>, D: Disk, A: Application> Holding<H, D, A> {
    // The block that came whole under a commitment.
    fn whole(&self, commitment: &Commitment) -> Option<&ChainBlock>
        requires { PartsStand H.digest_of A.accepts self.now }
        ensures { option_map (λ block. block.now) result
            ≡ first_some (held_rule.whole_of (rules_of H.digest_of A.accepts self.now)
            commitment.now) (came_of self.now).parts }
    {
        self.arrivals.whole(commitment)
    }

    // The block as which a commitment is shown where blocks are cut.
    fn shown_cut(&self, commitment: &Commitment) -> Option<&ChainBlock>
        requires stands { PartsStand H.digest_of A.accepts self.now }
        requires cut { self.now.travel ≡ Travel.Chunked }
        ensures { option_map (λ block. block.now) result
            ≡ held_rule.shown_by Travel.Chunked (rules_of H.digest_of A.accepts self.now)
            (came_of self.now) commitment.now }
    {
        shown_by_kept();
        commitment_fits(*commitment);
        match self.whole(commitment) {
            Some(block) => Some(block),
            None => self.shown.under(commitment),
        }
    }

    // The block as which a commitment is shown where blocks travel whole.
    fn shown_whole(&self, commitment: &Commitment) -> Option<&ChainBlock>
        requires { PartsStand H.digest_of A.accepts self.now }
        ensures { option_map (λ block. block.now) result
            ≡ held_rule.shown_by Travel.Uncut (rules_of H.digest_of A.accepts self.now)
            (came_of self.now) commitment.now }
    {
        if commitment.is_same(&genesis_commitment::<H>()) {
            None
        } else {
            self.whole(commitment)
        }
    }

    // The block as which a commitment is shown.
    pub(crate) fn shown(&self, commitment: &Commitment) -> Option<&ChainBlock>
        requires { PartsStand H.digest_of A.accepts self.now }
        ensures { option_map (λ block. block.now) result
            ≡ held_rule.shown (rules_of H.digest_of A.accepts self.now) (came_of self.now)
            commitment.now }
    {
        match self.travel {
            Travel::Chunked => self.shown_cut(commitment),
            Travel::Uncut => self.shown_whole(commitment),
        }
    }

    // Whether the height isn't below what was given up.
    fn is_kept(&self, height: u64) -> bool
        ensures { result ≡ nat_le
            (max (held_rule.greatest_floor (stored_notes self.now.store))
            (held_rule.greatest_prune (stored_notes self.now.store))) height }
    {
        let floor = self.store.greatest_floor().unwrap_or(0);
        let prune = self.store.greatest_prune().unwrap_or(0);
        floor.max(prune) <= height
    }

    // The block of which a note is owed under a commitment.
    fn unnoted(&self, commitment: &Commitment) -> Option<&ChainBlock>
        requires { PartsStand H.digest_of A.accepts self.now }
        ensures { option_map (λ block. NoteValue.Block commitment.now block.now) result
            ≡ rule.block_owed (rules_of H.digest_of A.accepts self.now) (own_state self.now)
            commitment.now }
    {
        match self.shown(commitment) {
            Some(block) => {
                if !self.store.has_block(commitment) && self.is_kept(block.height()) {
                    Some(block)
                } else {
                    None
                }
            }
            None => None,
        }
    }

    // 1. A block that is shown, isn't noted and isn't below what was given up. When the step began
    // none was owed, so one can be owed only under the commitment that came last.
    pub(crate) fn owed_block(&self, alloc: Global) -> Result<Option<Note>, NoMemory>
        requires stands { PartsStand H.digest_of A.accepts self.now }
        requires last { OwesLast (rules_of H.digest_of A.accepts self.now) (own_state self.now) }
        ensures value { IfOk result
            (λ note. note ≡ first_some
            (arrival_owed (rules_of H.digest_of A.accepts self.now) (own_state self.now))
            self.now.arrivals) }
        ensures storable { IfOk result (λ note. IfSome note (λ note. IsTrue (is_storable note))) }
    {
        let Some(last) = self.arrivals.as_slice().last() else {
            return Ok(None);
        };
        match self.unnoted(&last.commitment) {
            Some(block) => Ok(Some(Note::Block(last.commitment, block.copy(alloc)?))),
            None => Ok(None),
        }
    }
}
