//! What a step answers a question.

ghost use Rattle.std.specs.Prelude.{◌≡◌, ◌++◌, ◌∷◌, [], OnOk, None, Some, nat_lt};
ghost use Rattle.cw_rules.specs.Rules.{genesis_commitment};
ghost use Rattle.cw_types.specs.declared.event.Event.TheVariants as event;
ghost use Rattle.std.specs.Option.{option_map, option_map_or};
ghost use Rattle.cw_types.specs.declared.message.Message.TheVariants as message;
ghost use Rattle.cw_rules.specs.Held as held_rule;
ghost use Rattle.cw_rules.specs.Sends as rule;
ghost use Rattle.cw_rules.specs.Accepted.{first_some};
ghost use Rattle.node.specs.Holding.{rules_of};
ghost use Rattle.node.specs.Standing.{PartsStand};
ghost use Rattle.node.specs.Store.{stored_notes};

use crate::holding::Holding;
use crate::sends::to_all;
use cw_base::{Digest32, Hasher, NoMemory};
use cw_types::{Application, Cert, Commitment, Event, Message, Out, To, genesis_commitment};
use node_disk::Disk;
use note_scans::voted_proposal;
use std::alloc::Global;

impl<H: Hasher<Digest = Digest32>, D: Disk, A: Application> Holding<H, D, A> {
    // Whether that is a member.
    fn is_known(&self, member: u16) -> bool
        ensures { result ≡ nat_lt member self.now.epochs.total }
    {
        member < self.committees.total()
    }

    // Puts behind the others the held block under a commitment, for a member.
    fn put_held(
        &self,
        alloc: Global,
        member: u16,
        commitment: &Commitment,
        out: &mut Vec<Out>,
    ) -> Result<(), NoMemory>
        ensures { OnOk result (out.new.items ≡ out.old.items
            ++ option_map_or (λ b. record { to = To.One member; message = message.Block b } ∷ [])
            (held_rule.held (rules_of H.digest_of A.accepts self.now) (stored_notes self.now.store)
            commitment.now) []) }
    {
        match self.store.held(commitment) {
            Some(block) => {
                let message = Message::Block(block.copy(alloc)?);
                out.push(Out {
                    to: To::One(member),
                    message,
                })?;
                Ok(())
            }
            None => Ok(()),
        }
    }

    // The first noted finalization whose held block has that height.
    fn finalization(&self, height: u64) -> Option<&Cert>
        requires { PartsStand H.digest_of A.accepts self.now }
        ensures { option_map (λ cert. cert.now) result
            ≡ first_some (rule.finalization_at (rules_of H.digest_of A.accepts self.now)
            (stored_notes self.now.store) height) (stored_notes self.now.store) }
    {
        self.store.finalization(height)
    }

    // Puts behind the others a finalization and its block, for a member.
    fn put_finalization(
        &self,
        alloc: Global,
        member: u16,
        cert: &Cert,
        out: &mut Vec<Out>,
    ) -> Result<(), NoMemory>
        ensures { OnOk result (out.new.items ≡ out.old.items
            ++ rule.finalization_outs (rules_of H.digest_of A.accepts self.now)
            (stored_notes self.now.store) member cert.now) }
    {
        let message = Message::Cert(cert.copy(alloc)?);
        out.push(Out {
            to: To::One(member),
            message,
        })?;
        match voted_proposal(&cert.vote) {
            Some(proposal) => self.put_held(alloc, member, &proposal.payload, out),
            None => Ok(()),
        }
    }

    fn answer_ask(
        &self,
        alloc: Global,
        member: u16,
        commitment: &Commitment,
        out: &mut Vec<Out>,
    ) -> Result<(), NoMemory>
        ensures { OnOk result (out.new.items ≡ out.old.items
            ++ rule.answer (rules_of H.digest_of A.accepts self.now) self.now.id
            (stored_notes self.now.store) (event.Deliver (message.Ask member commitment.now))) }
    {
        if !self.is_known(member) || commitment.is_same(&genesis_commitment::<H>()) {
            return Ok(());
        }
        self.put_held(alloc, member, commitment, out)
    }

    fn answer_height(
        &self,
        alloc: Global,
        member: u16,
        height: u64,
        out: &mut Vec<Out>,
    ) -> Result<(), NoMemory>
        requires { PartsStand H.digest_of A.accepts self.now }
        ensures { OnOk result (out.new.items ≡ out.old.items
            ++ rule.answer (rules_of H.digest_of A.accepts self.now) self.now.id
            (stored_notes self.now.store) (event.Deliver (message.AskHeight member height))) }
    {
        if !self.is_known(member) {
            return Ok(());
        }
        match self.finalization(height) {
            Some(cert) => self.put_finalization(alloc, member, cert, out),
            None => Ok(()),
        }
    }

    fn ask_height(&self, height: u64, out: &mut Vec<Out>) -> Result<(), NoMemory>
        requires { PartsStand H.digest_of A.accepts self.now }
        ensures { OnOk result (out.new.items ≡ out.old.items
            ++ rule.answer (rules_of H.digest_of A.accepts self.now) self.now.id
            (stored_notes self.now.store) (event.Hint height)) }
    {
        if self.finalization(height).is_some() {
            return Ok(());
        }
        out.push(to_all(Message::AskHeight(self.id, height)))?;
        Ok(())
    }

    fn answer_message(
        &self,
        alloc: Global,
        message: &Message,
        out: &mut Vec<Out>,
    ) -> Result<(), NoMemory>
        requires { PartsStand H.digest_of A.accepts self.now }
        ensures { OnOk result (out.new.items ≡ out.old.items
            ++ rule.answer (rules_of H.digest_of A.accepts self.now) self.now.id
            (stored_notes self.now.store) (event.Deliver message.now)) }
    {
        match message {
            Message::Ask(member, commitment) => self.answer_ask(alloc, *member, commitment, out),
            Message::AskHeight(member, height) => {
                self.answer_height(alloc, *member, *height, out)
            }
            _ => Ok(()),
        }
    }

    /// Puts behind the others the answer to a question.
    pub(crate) fn put_answer(
        &self,
        alloc: Global,
        event: &Event,
        out: &mut Vec<Out>,
    ) -> Result<(), NoMemory>
        requires { PartsStand H.digest_of A.accepts self.now }
        ensures { OnOk result (out.new.items ≡ out.old.items
            ++ rule.answer (rules_of H.digest_of A.accepts self.now) self.now.id
            (stored_notes self.now.store) event.now) }
    {
        match event {
            Event::Deliver(message) => self.answer_message(alloc, message, out),
            Event::Hint(height) => self.ask_height(*height, out),
            _ => Ok(()),
        }
    }
}
