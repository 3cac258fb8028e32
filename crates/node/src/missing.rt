//! Which blocks are missing, and what is asked for.

ghost use Rattle.std.specs.Prelude.{◌≡◌, ◌≤◌, ◌++◌, ◌∷◌, [], ℕ, IfOk, OnOk, None, Some, filter};
ghost use Rattle.std.specs.Prelude.{filter_map, if◌then◌else◌, length, map, nat_lt};
ghost use Rattle.std.specs.Prelude.{option_and_then};
ghost use Rattle.cw_types.specs.declared.message.Message.TheVariants as message;
ghost use Rattle.cw_rules.specs.Accepted.{State};
ghost use Rattle.cw_types.specs.Commit as first;
ghost use Rattle.cw_rules.specs.Held as held_rule;
ghost use Rattle.cw_rules.specs.Sends as rule;
ghost use Rattle.node.specs.Asking.{asks};
ghost use Rattle.node.specs.Holding.{own_state, rules_of};
ghost use Rattle.node.specs.Leading.{GoesOnFrom, IsLedBy, is_new, lead_at, lead_height};
ghost use Rattle.node.specs.Standing.{PartsStand};
ghost use Rattle.node.specs.Store.{stored_notes};

use crate::holding::Holding;
use crate::leads::{Lead, LeadMap, Led};
use crate::sends::to_all;
use cw_base::{Digest32, Hasher, NoMemory};
use cw_types::{Application, Commitment, Message, Note, Out, genesis_commitment};
use node_disk::Disk;
use note_scans::voted_proposal;
use std::alloc::Global;
use std::collections::BTreeSet;

impl<H: Hasher<Digest = Digest32>, D: Disk, A: Application> Holding<H, D, A> {
    /// The height above which blocks lead to their parents.
    pub(crate) fn lead_height(&self) -> u64
        ensures { result ≡ lead_height (own_state self.now) }
    {
        let prune = self.store.greatest_prune().unwrap_or(0);
        self.store.next_height().max(prune.saturating_sub(1))
    }

    /// Puts behind the others a question for each block that is missing now and wasn't before, and
    /// adds to the map what the notes since then lead to. There were so many notes, and blocks led
    /// to their parents above that height.
    pub(crate) fn put_missing(
        &self,
        alloc: Global,
        place: usize,
        height: u64,
        leads: &mut LeadMap,
        out: &mut Vec<Out>,
    ) -> Result<(), NoMemory>
        requires stands { PartsStand H.digest_of A.accepts self.now }
        requires place { place ≤ length (stored_notes self.now.store) }
        ensures asked { (old : State)
            → GoesOnFrom (rules_of H.digest_of A.accepts self.now) old (own_state self.now)
            leads.old.led.entries
            → place ≡ length old.notes → height ≡ lead_height old
            → OnOk result (out.new.items ≡ out.old.items
            ++ asks self.now.id
            (rule.missing (rules_of H.digest_of A.accepts self.now) (own_state self.now))
            (rule.missing (rules_of H.digest_of A.accepts self.now) old)) }
        ensures led { (old : State)
            → GoesOnFrom (rules_of H.digest_of A.accepts self.now) old (own_state self.now)
            leads.old.led.entries
            → place ≡ length old.notes
            → OnOk result (IsLedBy (rules_of H.digest_of A.accepts self.now)
            (stored_notes self.now.store) leads.new.led.entries) }
    {
        let led = self.leads(alloc, &self.store.notes()[place..])?;
        let new = self.newly(alloc, &led, height, leads)?;
        let asked = each_once::<H>(alloc, &new)?;
        self.put_asks(&asked, out)?;
        leads.add_all(&led)?;
        Ok(())
    }

    // What notes lead to, each in its turn.
    fn leads(&self, alloc: Global, notes: &[Note]) -> Result<Vec<Lead>, NoMemory>
        ensures { IfOk result (λ leads. (height : ℕ) → filter_map (lead_at height) leads.items
            ≡ filter_map (rule.leads (rules_of H.digest_of A.accepts self.now)
            (stored_notes self.now.store) height) notes.now) }
    {
        let mut leads = Vec::new(alloc);
        for note in notes {
            if let Some(lead) = self.lead(note) {
                leads.push(lead)?;
            }
        }
        Ok(leads)
    }

    // What a note leads to.
    fn lead(&self, note: &Note) -> Option<Lead>
        ensures { (height : ℕ) → option_and_then (lead_at height) result
            ≡ rule.leads (rules_of H.digest_of A.accepts self.now) (stored_notes self.now.store)
            height note.now }
    {
        match note {
            Note::Cert(cert) => match voted_proposal(&cert.vote) {
                Some(proposal) => Some(Lead {
                    to: proposal.payload,
                    by: Led {
                        by_cert: true,
                        above: 0,
                    },
                }),
                None => None,
            },
            Note::Block(commitment, _) => self.parent_lead(commitment),
            _ => None,
        }
    }

    // What the held block under a commitment leads to: its parent.
    fn parent_lead(&self, commitment: &Commitment) -> Option<Lead>
        ensures { (height : ℕ) → option_and_then (lead_at height) result
            ≡ option_and_then
            (λ a. if nat_lt height a.height then Some a.context.parent else None)
            (held_rule.held (rules_of H.digest_of A.accepts self.now) (stored_notes self.now.store)
            commitment.now) }
    {
        match self.store.held(commitment) {
            Some(block) => Some(Lead {
                to: block.context().parent,
                by: Led {
                    by_cert: false,
                    above: block.height(),
                },
            }),
            None => None,
        }
    }

    // The commitments to which these lead now, of blocks that aren't noted, where nothing led there
    // above that height before.
    fn newly(
        &self,
        alloc: Global,
        leads: &[Lead],
        height: u64,
        map: &LeadMap,
    ) -> Result<Vec<Commitment>, NoMemory>
        ensures { IfOk result (λ new. new.items
            ≡ filter (is_new (stored_notes self.now.store) map.now.led.entries height)
            (filter_map (lead_at (held_rule.next (own_state self.now))) leads.now)) }
    {
        let next = self.store.next_height();
        let mut new = Vec::new(alloc);
        for lead in leads {
            if lead.by.is_above(next) && self.is_new(&lead.to, height, map) {
                new.push(lead.to)?;
            }
        }
        Ok(new)
    }

    // Whether no block is noted under a commitment, and nothing leads there above that height.
    fn is_new(&self, commitment: &Commitment, height: u64, map: &LeadMap) -> bool
        ensures { result ≡ is_new (stored_notes self.now.store) map.now.led.entries height
            commitment.now }
    {
        !self.store.has_block(commitment) && !map.is_led(commitment, height)
    }

    // Puts behind the others a question for each of these commitments.
    fn put_asks(&self, commitments: &[Commitment], out: &mut Vec<Out>) -> Result<(), NoMemory>
        ensures { OnOk result (out.new.items ≡ out.old.items
            ++ map (λ c. rule.to_all (message.Ask self.now.id c)) commitments.now) }
    {
        for commitment in commitments {
            out.push(to_all(Message::Ask(self.id, *commitment)))?;
        }
        Ok(())
    }
}

// Each of these commitments once, in order, but for that of the first block.
fn each_once<H: Hasher<Digest = Digest32>>(
    alloc: Global,
    commitments: &[Commitment],
) -> Result<Vec<Commitment>, NoMemory>
    ensures { IfOk result (λ each. each.items
        ≡ rule.once (first.genesis_commitment H.digest_of ∷ []) commitments.now) }
{
    // Most steps ask for nothing, and need no hash.
    if commitments.is_empty() {
        return Ok(Vec::new(alloc));
    }
    once_but(alloc, genesis_commitment::<H>(), commitments)
}

// Each of these commitments once, in order, but for this one.
fn once_but(
    alloc: Global,
    but: Commitment,
    commitments: &[Commitment],
) -> Result<Vec<Commitment>, NoMemory>
    ensures { IfOk result (λ each. each.items ≡ rule.once (but ∷ []) commitments.now) }
{
    let mut seen = BTreeSet::new(alloc);
    seen.insert(but)?;
    let mut each = Vec::new(alloc);
    for commitment in commitments {
        if seen.insert(*commitment)? {
            each.push(*commitment)?;
        }
    }
    Ok(each)
}
