//! Which commitments notes lead to, without going over the notes.

ghost use Rattle.std.specs.Prelude.{◌≡◌, ◌||◌, ℕ, [], OnErr, OnOk, filter_map};
ghost use Rattle.std.specs.List.{list_any};
ghost use Rattle.cw_types.specs.Same.{same_commitment};
ghost use Rattle.cw_types.specs.declared.commitment.Commitment.{Commitment as CommitmentValue};
ghost use Rattle.node.specs.Leading as rule;

use cw_base::NoMemory;
use cw_types::Commitment;
use std::alloc::Global;
use std::collections::BTreeMap;

/// What leads to a commitment: a certificate of it, and blocks of which it is the parent's, up to a
/// height; 0 where there is none.
#[derive(Clone, Copy)]
pub(crate) struct Led {
    pub by_cert: bool,
    pub above: u64,
}

/// A commitment that a note leads to, and what leads there.
#[derive(Clone, Copy)]
pub(crate) struct Lead {
    pub to: Commitment,
    pub by: Led,
}

/// What leads to each commitment. One that isn't there is led to by nothing.
#[derive(Drop)]
pub(crate) struct LeadMap {
    pub led: BTreeMap<Commitment, Led>,
}

impl LeadMap {
    /// Nothing leads anywhere.
    pub(crate) fn new(alloc: Global) -> LeadMap
        ensures { result.led.entries ≡ [] }
    {
        LeadMap {
            led: BTreeMap::new(alloc),
        }
    }

    /// Whether one leads to the commitment, of the certificates and of the blocks above a height.
    pub(crate) fn is_led(&self, commitment: &Commitment, height: u64) -> bool
        ensures { result ≡ rule.is_led self.now.led.entries height commitment.now }
    {
        self.found(commitment).is_above(height)
    }

    /// Adds what notes lead to.
    pub(crate) fn add_all(&mut self, leads: &[Lead]) -> Result<(), NoMemory>
        ensures { OnOk result ((c : CommitmentValue) (height : ℕ)
            → rule.is_led self.new.led.entries height c
            ≡ (rule.is_led self.old.led.entries height c
            || list_any (same_commitment c) (filter_map (rule.lead_at height) leads.now))) }
    {
        for lead in leads {
            self.add(lead)?;
        }
        Ok(())
    }

    // Adds what one more note leads to. Where memory is short nothing changes.
    fn add(&mut self, lead: &Lead) -> Result<(), NoMemory>
        ensures ok { OnOk result ((c : CommitmentValue)
            → rule.led_to self.new.led.entries c
            ≡ rule.with_lead (rule.led_to self.old.led.entries c) lead.now c) }
        ensures err { OnErr result (self.new.led.entries ≡ self.old.led.entries) }
    {
        let led = self.found(&lead.to).and(lead.by);
        self.led.insert(lead.to, led)?;
        Ok(())
    }

    // What leads to a commitment.
    fn found(&self, commitment: &Commitment) -> Led
        ensures { result ≡ rule.led_to self.now.led.entries commitment.now }
    {
        match self.led.get(commitment) {
            Some(led) => *led,
            None => Led::none(),
        }
    }
}

impl Led {
    // Nothing.
    fn none() -> Led
        ensures { result ≡ rule.no_lead }
    {
        Led {
            by_cert: false,
            above: 0,
        }
    }

    // Both.
    fn and(self, other: Led) -> Led
        ensures { result ≡ rule.merge self other }
    {
        Led {
            by_cert: self.by_cert || other.by_cert,
            above: self.above.max(other.above),
        }
    }

    /// Whether it has a certificate, or a block above that height.
    pub(crate) fn is_above(self, height: u64) -> bool
        ensures { result ≡ rule.is_above height self }
    {
        self.by_cert || height < self.above
    }
}
