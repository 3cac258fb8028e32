//! Over what a member may propose.

ghost use Rattle.std.specs.Prelude.{◌≡◌, None, if◌then◌else◌, nat_lt, option_map};
ghost use Rattle.cw_rules.specs.Notes.{settled};
ghost use Rattle.cw_types.specs.Commit.{genesis_commitment};
ghost use Rattle.voter.specs.Owing as owing;
ghost use Rattle.voter.specs.Settled.{last_some};

use crate::tally::Tally;
use cw_base::{Digest32, Hasher};
use cw_types::Commitment;

impl<H: Hasher<Digest = Digest32>> Tally<H> {
    /// Over what a member may propose in an epoch: the greatest settled view below `below`, and
    /// below the member's view, after which all views below the member's are nullified, with its
    /// payload. Takes no memory.
    pub fn propose_parent(&self, epoch: u64, below: u64) -> Option<(u64, Commitment)>
        ensures { result ≡ owing.parent_over (genesis_commitment H.digest_of) self.now.notes epoch
            below }
    {
        let top = below.min(self.view(epoch));
        let from = self.nullified_from(epoch);
        if top < from {
            return None;
        }
        match self.settled_below(epoch, top) {
            Some((view, payload)) => {
                if view < from.saturating_sub(1) {
                    None
                } else {
                    Some((view, payload))
                }
            }
            None => None,
        }
    }

    // The greatest settled view of the epoch below `top`, with its payload.
    fn settled_below(&self, epoch: u64, top: u64) -> Option<(u64, Commitment)>
        ensures { result
            ≡ last_some (settled (genesis_commitment H.digest_of) self.now.notes epoch) top }
    {
        match self.index.facts.settled.last_below(epoch, top) {
            Some(found) => Some(found),
            None => self.root_below(epoch, top),
        }
    }

    // What the epoch builds on, as the payload of view 0, if that is below `top`.
    fn root_below(&self, epoch: u64, top: u64) -> Option<(u64, Commitment)>
        ensures { result ≡ (if nat_lt 0 top
            then option_map (λ c. (0, c))
            (settled (genesis_commitment H.digest_of) self.now.notes epoch 0)
            else None) }
    {
        if top == 0 {
            return None;
        }
        match self.settled(epoch, 0) {
            Some(payload) => Some((0, payload)),
            None => None,
        }
    }
}
