//! The note that a member owes.

ghost use Rattle.std.specs.Prelude.{◌≡◌, ◌&&◌, ◌<◌, ◌-◌, ◌^◌, ◌*◌, IfOk, IfSome, IsTrue};
ghost use Rattle.std.specs.Prelude.{filter_map, nat_le, nat_lt};
ghost use Rattle.std.specs.Option.{option_map, option_or};
ghost use Rattle.cw_types.specs.Values.{is_storable};
ghost use Rattle.cw_types.specs.declared.note.Note.{Note as NoteValue};
ghost use Rattle.cw_rules.specs.Accepted.{first_some};
ghost use Rattle.cw_rules.specs.Held as held_rule;
ghost use Rattle.cw_rules.specs.Notes as notes_rule;
ghost use Rattle.cw_rules.specs.Owed as rule;
ghost use Rattle.node.specs.Noting.{last_owed};
ghost use Rattle.std.specs.List.{list_all};
ghost use Rattle.node.specs.Holding.{own_state, rules_of};
ghost use Rattle.node.specs.Standing.{OwesLast, PartsStand};
ghost use Rattle.node.specs.Store.{stored_notes};

use crate::holding::Holding;
use cw_base::{Digest32, Hasher, NoMemory};
use cw_types::laws::committees_are_sound;
use cw_types::{Application, Commitment, Note, committees};
use node_disk::Disk;
use std::alloc::Global;
use voter::tally_stands;

impl<H: Hasher<Digest = Digest32>, D: Disk, A: Application> Holding<H, D, A> {
    // That of a floor, an epoch or a vote.
    fn owed_last(&self) -> Result<Option<Note>, NoMemory>
        requires { PartsStand H.digest_of A.accepts self.now }
        ensures value { IfOk result
            (λ note. note ≡ last_owed (rules_of H.digest_of A.accepts self.now) self.now.id
            (own_state self.now)) }
        ensures storable { IfOk result (λ note. IfSome note (λ note. IsTrue (is_storable note))) }
    {
        if let Some(note) = self.owed_floor() {
            return Ok(Some(note));
        }
        if let Some(note) = self.owed_epoch() {
            return Ok(Some(note));
        }
        let note = self.owed_vote()?;
        Ok(note)
    }

    /// The note that is owed: that of the first case that applies. It can be stored.
    pub(crate) fn owed(&self, alloc: Global) -> Result<Option<Note>, NoMemory>
        requires stands { PartsStand H.digest_of A.accepts self.now }
        requires last { OwesLast (rules_of H.digest_of A.accepts self.now) (own_state self.now) }
        ensures value { IfOk result
            (λ note. note ≡ rule.owed (rules_of H.digest_of A.accepts self.now) self.now.id
            (own_state self.now)) }
        ensures storable { IfOk result (λ note. IfSome note (λ note. IsTrue (is_storable note))) }
    {
        if let Some(note) = self.owed_block(alloc)? {
            return Ok(Some(note));
        }
        if let Some(note) = self.owed_cert(alloc)? {
            return Ok(Some(note));
        }
        if let Some(note) = self.owed_certified(alloc)? {
            return Ok(Some(note));
        }
        let note = self.owed_last()?;
        Ok(note)
    }

    // ---- certificates

    // 2. A certificate that isn't noted.
    fn owed_cert(&self, alloc: Global) -> Result<Option<Note>, NoMemory>
        requires { PartsStand H.digest_of A.accepts self.now }
        ensures value { IfOk result
            (λ note. note ≡ first_some
            (rule.cert_owed (rules_of H.digest_of A.accepts self.now) self.now.id
            (own_state self.now)) (rule.named_votes (own_state self.now))) }
        ensures storable { IfOk result (λ note. IfSome note (λ note. IsTrue (is_storable note))) }
    {
        tally_stands();
        match self.tally.owed_cert(alloc)? {
            Some(cert) => Ok(Some(Note::Cert(cert))),
            None => Ok(None),
        }
    }

    // ---- floors

    // Whether the height is above each floor that is noted.
    #[tactic(auto, using(crate::proofs::Tops::all_below))]
    fn is_above_floors(&self, height: u64) -> bool
        ensures { result ≡ list_all (λ h. nat_lt h height)
            (filter_map held_rule.floor_height (stored_notes self.now.store)) }
    {
        match self.store.greatest_floor() {
            Some(floor) => floor < height,
            None => true,
        }
    }

    // Whether the height is one for a floor: it isn't handed out, and above those that are noted.
    fn is_floor(&self, height: u64) -> bool
        ensures { result ≡ (nat_le (held_rule.next (own_state self.now)) height
            && list_all (λ h. nat_lt h height)
            (filter_map held_rule.floor_height (stored_notes self.now.store))) }
    {
        self.store.next_height() <= height && self.is_above_floors(height)
    }

    // The height of the floor that is owed for a wish.
    fn floor_for(&self, commitment: &Commitment) -> Option<u64>
        ensures value { option_map NoteValue.Floor result
            ≡ rule.floor_owed (rules_of H.digest_of A.accepts self.now) (own_state self.now)
            commitment.now }
        ensures bound { IfSome result (λ height. height < 2 ^ 64 - 1) }
    {
        match self.store.held(commitment) {
            Some(block) => {
                let height = block.height();
                if self.is_floor(height) {
                    Some(height)
                } else {
                    None
                }
            }
            None => None,
        }
    }

    // The height of the floor that is owed for the first of these wishes for which one is.
    fn first_floor(&self, wishes: &[Commitment]) -> Option<u64>
        ensures value { option_map NoteValue.Floor result
            ≡ first_some (rule.floor_owed (rules_of H.digest_of A.accepts self.now)
            (own_state self.now)) wishes.now }
        ensures bound { IfSome result (λ height. height < 2 ^ 64 - 1) }
    {
        for wish in wishes {
            if let Some(height) = self.floor_for(wish) {
                return Some(height);
            }
        }
        None
    }

    // 4. A floor that is wished for, above those noted.
    fn owed_floor(&self) -> Option<Note>
        ensures value { result ≡ first_some
            (rule.floor_owed (rules_of H.digest_of A.accepts self.now) (own_state self.now))
            self.now.wishes }
        ensures storable { IfSome result (λ note. IsTrue (is_storable note)) }
    {
        match self.first_floor(self.wishes.as_slice()) {
            Some(height) => Some(Note::Floor(height)),
            None => None,
        }
    }

    // ---- epochs

    // The greatest height of a held block of a noted finalization, 0 where there is none.
    fn top_height(&self) -> u64
        ensures bound { result < 2 ^ 64 - 1 }
        ensures value { result ≡ notes_rule.greatest
            (rule.final_heights (rules_of H.digest_of A.accepts self.now)
            (stored_notes self.now.store)) }
    {
        match self.store.highest() {
            Some(block) => block.height(),
            None => 0,
        }
    }

    // The commitment at a height.
    fn commitment_at(&self, height: u64) -> Option<Commitment>
        requires { PartsStand H.digest_of A.accepts self.now }
        ensures { result ≡ held_rule.at_height (rules_of H.digest_of A.accepts self.now)
            (stored_notes self.now.store) height }
    {
        self.store.commitment_at(height)
    }

    // The note of the greatest epoch, up to that one and above the member's, whose last height
    // before it is reached.
    fn reached_epoch(&self, span: u64, top: u64) -> Option<Note>
        requires fits { top * span < 2 ^ 64 }
        requires stands { PartsStand H.digest_of A.accepts self.now }
        ensures value { result ≡ rule.reached_epoch (rules_of H.digest_of A.accepts self.now)
            (stored_notes self.now.store) span top }
        ensures storable { IfSome result (λ note. IsTrue (is_storable note)) }
    {
        let current = self.tally.epoch();
        let mut epoch = top;
        while epoch > current {
            if let Some(commitment) = self.commitment_at(epoch * span) {
                return Some(Note::Epoch(epoch, commitment));
            }
            epoch -= 1;
        }
        None
    }

    // How many heights an epoch covers.
    fn span(&self) -> Option<u64>
        ensures value { result ≡ self.now.epochs.span }
        ensures some { IfSome result (λ span. 0 < span) }
    {
        committees_are_sound(&self.committees);
        self.committees.span()
    }

    // 5. The greatest epoch whose beginning is reached.
    fn owed_epoch(&self) -> Option<Note>
        requires { PartsStand H.digest_of A.accepts self.now }
        ensures value { result ≡ rule.epoch_owed (rules_of H.digest_of A.accepts self.now)
            (own_state self.now) }
        ensures storable { IfSome result (λ note. IsTrue (is_storable note)) }
    {
        match self.span() {
            Some(span) => {
                let top = self.top_height();
                self.reached_epoch(span, top / span)
            }
            None => None,
        }
    }
}
