//! One step of what a node holds.

ghost use Rattle.std.specs.Prelude.{◌≡◌, ◌≤◌, ◌++◌, ◌∷◌, [], ℕ, IfOk, IsErrOf, None, OnOk, drop};
ghost use Rattle.std.specs.Prelude.{false, filter_map, length, map, true};
ghost use Rattle.cw_rules.specs.Accepted.{State};
ghost use Rattle.cw_rules.specs.Sends as sends_rule;
ghost use Rattle.cw_rules.specs.Step as rule;
ghost use Rattle.node.specs.Accepting.{brings_row};
ghost use Rattle.node.specs.Acting.{HasActed, IsBefore, IsSameHolder, notes_of_event};
ghost use Rattle.node.specs.Answering.{HasAnswered};
ghost use Rattle.node.specs.Disks.{HasTried};
ghost use Rattle.node.specs.Holding.{came_of, own_state, knowing, member_of, rules_of};
ghost use Rattle.node.specs.Noting.{committed};
ghost use Rattle.node.specs.Leading.{GoesOnFrom, IsLedBy};
ghost use Rattle.node.specs.Standing.{IsAwake, IsReady, PartsStand};
ghost use Rattle.node.specs.State.{stepped};
ghost use Rattle.node.specs.Store.{stored_notes};

use crate::holding::Holding;
use crate::leads::LeadMap;
use cw_base::{Digest32, Hasher, Items, NoMemory, Strategy};
use cw_types::{Application, Event, Handed, Out, StepOut, TicketOut, Verifier};
use node_disk::{Disk, StoreError};
use std::alloc::Global;
use std::thread::Threads;
use voter::standing_is_kept;

/// What a step has to know of the member before it.
#[derive(Drop)]
pub(crate) struct Before {
    /// How many notes there were.
    pub notes: usize,
    /// The epoch that the member was in.
    pub epoch: u64,
    /// The height above which blocks led to their parents.
    pub height: u64,
    /// The event brought a chunk that was accepted.
    pub brought: bool,
}

// These tickets behind the others.
fn put_served(out: &mut Vec<TicketOut>, served: &[TicketOut]) -> Result<(), NoMemory>
    ensures { OnOk result (out.new.items ≡ out.old.items ++ served.now) }
{
    for ticket in served {
        out.push(*ticket)?;
    }
    Ok(())
}

// One more ticket, which is given now.
fn put_number(out: &mut Vec<TicketOut>, number: u64) -> Result<(), NoMemory>
    ensures { OnOk result (out.new.items ≡ out.old.items
        ++ record { number = number; commitment = None } ∷ []) }
{
    out.push(TicketOut {
        number,
        commitment: None,
    })?;
    Ok(())
}

impl<H: Hasher<Digest = Digest32>, D: Disk, A: Application> Holding<H, D, A> {
    // Accepts what an event brings, and writes the notes of the step.
    fn note<R: Threads + Sync, V: Verifier, S: Strategy>(
        &mut self,
        rt: &R,
        alloc: Global,
        event: &Event,
        verifier: &V,
        strategy: &S,
    ) -> Result<bool, NoMemory>
        requires { IsReady H.digest_of A.accepts self.old }
        ensures acted { OnOk result
            (HasActed H.digest_of A.accepts (V.signs verifier.now) event.now self.old self.new) }
        ensures brought { IfOk result
            (λ brought. brought ≡ brings_row (rules_of H.digest_of A.accepts self.old)
            (came_of self.old) event.now) }
        ensures kept { self.new ≡ knowing self.old self.new }
    {
        let brought = self.accept(rt, alloc, event, verifier, strategy)?;
        self.write_direct(rt, alloc, event, strategy)?;
        self.settle(alloc)?;
        Ok(brought)
    }

    // What a step does before its commit.
    fn prepare<R: Threads + Sync, V: Verifier, S: Strategy>(
        &mut self,
        rt: &R,
        alloc: Global,
        event: &Event,
        verifier: &V,
        strategy: &S,
    ) -> Result<Before, NoMemory>
        requires { IsReady H.digest_of A.accepts self.old }
        ensures acted { OnOk result
            (HasActed H.digest_of A.accepts (V.signs verifier.now) event.now self.old self.new) }
        ensures before { IfOk result
            (λ before. IsBefore (rules_of H.digest_of A.accepts self.old) event.now
            (own_state self.old) before) }
        ensures kept { self.new ≡ knowing self.old self.new }
    {
        let notes = self.store.notes().len();
        let epoch = self.tally.epoch();
        let height = self.lead_height();
        let brought = self.note(rt, alloc, event, verifier, strategy)?;
        Ok(Before {
            notes,
            epoch,
            height,
            brought,
        })
    }

    // What a step sends.
    fn sends<R: Threads + Sync, S: Strategy>(
        &self,
        rt: &R,
        alloc: Global,
        event: &Event,
        before: &Before,
        strategy: &S,
        leads: &mut LeadMap,
    ) -> Result<Vec<Out>, NoMemory>
        requires stands { PartsStand H.digest_of A.accepts self.now }
        requires notes { before.now.notes ≤ length (stored_notes self.now.store) }
        ensures out { (old : State)
            → IsBefore (rules_of H.digest_of A.accepts self.now) event.now old before.now
            → GoesOnFrom (rules_of H.digest_of A.accepts self.now) old (own_state self.now)
            leads.old.led.entries
            → IfOk result (λ out. out.items
            ≡ sends_rule.sends (rules_of H.digest_of A.accepts self.now) self.now.id old
            (own_state self.now) event.now
            (drop before.now.notes (stored_notes self.now.store))) }
        ensures led { (old : State)
            → IsBefore (rules_of H.digest_of A.accepts self.now) event.now old before.now
            → GoesOnFrom (rules_of H.digest_of A.accepts self.now) old (own_state self.now)
            leads.old.led.entries
            → OnOk result (IsLedBy (rules_of H.digest_of A.accepts self.now)
            (stored_notes self.now.store) leads.new.led.entries) }
    {
        let notes = &self.store.notes()[before.notes..];
        let mut out = self.notes_out(rt, alloc, notes, strategy)?;
        self.put_own(alloc, before.epoch, before.brought, event, &mut out)?;
        self.put_missing(alloc, before.notes, before.height, leads, &mut out)?;
        self.put_answer(alloc, event, &mut out)?;
        Ok(out)
    }

    // Puts behind the others the ticket that an event gives. A cancelled one waits no more.
    fn put_ticket(&mut self, event: &Event, out: &mut Vec<TicketOut>) -> Result<(), NoMemory>
        ensures ok { OnOk result (self.new
            ≡ record self.old {
              store = record self.old.store
                  { tickets = rule.ticketed self.old.store.tickets event.now };
            }) }
        ensures out { OnOk result
            (out.new.items ≡ out.old.items ++ rule.ticket_given self.old.store.tickets event.now) }
        ensures kept { self.new ≡ knowing self.old self.new }
    {
        match event {
            Event::WatchDigest(digest) => {
                let number = self.store.watch_digest(*digest)?;
                put_number(out, number)
            }
            Event::WatchCommitment(commitment) => {
                let number = self.store.watch_commitment(*commitment)?;
                put_number(out, number)
            }
            Event::Cancel(number) => {
                self.store.cancel(*number);
                Ok(())
            }
            _ => Ok(()),
        }
    }

    // The tickets of a step.
    fn tickets(&mut self, alloc: Global, event: &Event) -> Result<Vec<TicketOut>, NoMemory>
        requires stands { PartsStand H.digest_of A.accepts self.old }
        requires quiet { self.old.store.staged ≡ [] }
        ensures ok { OnOk result (self.new
            ≡ record self.old {
              store = record self.old.store {
                tickets = rule.unserved (rules_of H.digest_of A.accepts self.old)
                    (stored_notes self.old.store) (rule.ticketed self.old.store.tickets event.now);
              };
            }) }
        ensures out { IfOk result
            (λ out. out.items ≡ rule.ticket_given self.old.store.tickets event.now
            ++ filter_map (rule.served (rules_of H.digest_of A.accepts self.old)
            (stored_notes self.old.store))
            (rule.ticketed self.old.store.tickets event.now).waiting) }
        ensures kept { self.new ≡ knowing self.old self.new }
    {
        let mut out = Vec::new(alloc);
        self.put_ticket(event, &mut out)?;
        let served = self.store.take_tickets(alloc)?;
        put_served(&mut out, &served)?;
        Ok(out)
    }

    // Hands out what can be.
    pub(crate) fn hand_out(&mut self, alloc: Global) -> Result<Vec<Handed>, NoMemory>
        requires stands { PartsStand H.digest_of A.accepts self.old }
        requires quiet { self.old.store.staged ≡ [] }
        ensures value { IfOk result
            (λ handed. handed.items ≡ rule.deliveries (rules_of H.digest_of A.accepts self.old)
            (own_state self.old)) }
        ensures ok { IfOk result (λ handed. self.new
            ≡ record self.old {
              store = record self.old.store
                  { given = self.old.store.given ++ map (λ h. h.height) handed.items };
            }) }
        ensures stands { OnOk result (PartsStand H.digest_of A.accepts self.new) }
        ensures kept { self.new ≡ knowing self.old self.new }
    {
        standing_is_kept();
        let handed = self.store.next_deliveries(alloc)?;
        Ok(handed)
    }

    // Writes the notes that wait onto the disk.
    fn commit(&mut self) -> Result<(), StoreError>
        requires { self.old.store.failed ≡ false }
        ensures ok { OnOk result (self.new
            ≡ record self.old { store = committed self.old.store; log = self.new.log }) }
        ensures tried { HasTried D.state D.continues self.old.store.frames self.old.store.staged
            result self.old.log self.new.log }
        ensures never_fails { D.calm self.old.log.disk ≡ true → IsErrOf result StoreError.Disk → ⊥ }
        ensures same { IsSameHolder self.old self.new }
        ensures not_failed { IsErrOf result StoreError.Failed → ⊥ }
        ensures not_foreign { (place : ℕ) → IsErrOf result (StoreError.Foreign place) → ⊥ }
    {
        self.store.commit()
    }

    // What a step answers after its commit.
    fn answer<R: Threads + Sync, S: Strategy>(
        &mut self,
        rt: &R,
        alloc: Global,
        event: &Event,
        before: &Before,
        strategy: &S,
        leads: &mut LeadMap,
    ) -> Result<StepOut, NoMemory>
        requires stands { PartsStand H.digest_of A.accepts self.old }
        requires quiet { self.old.store.staged ≡ [] }
        requires notes { before.now.notes ≤ length (stored_notes self.old.store) }
        ensures answer { (was : State)
            → IsBefore (rules_of H.digest_of A.accepts self.old) event.now was before.now
            → GoesOnFrom (rules_of H.digest_of A.accepts self.old) was (own_state self.old)
            leads.old.led.entries
            → IfOk result (λ out. HasAnswered H.digest_of A.accepts event.now was self.old self.new
            out) }
        ensures led { (was : State)
            → IsBefore (rules_of H.digest_of A.accepts self.old) event.now was before.now
            → GoesOnFrom (rules_of H.digest_of A.accepts self.old) was (own_state self.old)
            leads.old.led.entries
            → OnOk result (IsLedBy (rules_of H.digest_of A.accepts self.old)
            (stored_notes self.old.store) leads.new.led.entries) }
        ensures stands { OnOk result (PartsStand H.digest_of A.accepts self.new) }
        ensures kept { self.new ≡ knowing self.old self.new }
    {
        let sent = self.sends(rt, alloc, event, before, strategy, leads)?;
        let handed = self.hand_out(alloc)?;
        let tickets = self.tickets(alloc, event)?;
        Ok(StepOut {
            sent: Items::from_vec(sent),
            handed: Items::from_vec(handed),
            tickets: Items::from_vec(tickets),
        })
    }

    /// One step: accepts, notes, commits and answers.
    pub(crate) fn act<R: Threads + Sync, V: Verifier, S: Strategy>(
        &mut self,
        rt: &R,
        alloc: Global,
        event: &Event,
        verifier: &V,
        strategy: &S,
        leads: &mut LeadMap,
    ) -> Result<StepOut, StoreError>
        requires { IsAwake H.digest_of A.accepts self.old leads.old.led.entries }
        ensures step { IfOk result
            (λ out. stepped (member_of true self.new) out
            ≡ rule.step (rules_of H.digest_of A.accepts self.old) self.old.id (V.signs verifier.now)
            (member_of true self.old) event.now) }
        ensures awake { OnOk result
            (IsAwake H.digest_of A.accepts self.new leads.new.led.entries) }
        ensures same { IsSameHolder self.old self.new }
        ensures not_failed { IsErrOf result StoreError.Failed → ⊥ }
        ensures not_foreign { (place : ℕ) → IsErrOf result (StoreError.Foreign place) → ⊥ }
        ensures disk { HasTried D.state D.continues self.old.store.frames
            (notes_of_event (rules_of H.digest_of A.accepts self.old) (V.signs verifier.now)
            event.now self.old) result self.old.log self.new.log }
        ensures never_fails { D.calm self.old.log.disk ≡ true → IsErrOf result StoreError.Disk → ⊥ }
    {
        self.rests();
        let before = self.prepare(rt, alloc, event, verifier, strategy)?;
        self.commit()?;
        let out = self.answer(rt, alloc, event, &before, strategy, leads)?;
        Ok(out)
    }
}
