//! What the notes of a step send, and the chunk of its own that a member passes on.

ghost use Rattle.std.specs.Prelude.{◌≡◌, ◌++◌, ◌∷◌, ◌==◌, [], ℕ, IfOk, OnOk, None, Some};
ghost use Rattle.std.specs.Prelude.{filter_map, flat_map, if◌then◌else◌, slice_get};
ghost use Rattle.cw_base.specs.Config.{same_counts};
ghost use Rattle.cw_rules.specs.Rules.{config as config_of};
ghost use Rattle.cw_types.specs.declared.event.Event.TheVariants as event;
ghost use Rattle.cw_types.specs.declared.note.Note.{Note as NoteValue};
ghost use Rattle.std.specs.Option.{option_map, option_map_or};
ghost use Rattle.cw_rules.specs.Sends as rule;
ghost use Rattle.cw_rules.specs.Accepted.{Came};
ghost use Rattle.node.specs.Accepting.{brings_row};
ghost use Rattle.node.specs.Asking.{is_own_row};
ghost use Rattle.node.specs.Holding.{rules_of};
ghost use Rattle.node.specs.Standing.{PartsStand};
ghost use Rattle.node.specs.Store.{stored_notes};

use crate::holding::Holding;
use crate::naming::uncut_config;
use cw_base::{Config, Digest32, Hasher, NoMemory, Strategy};
use cw_coding::Chunk;
use cw_rules::Travel;
use cw_types::{Application, ChainBlock, Commitment, Event, Message, Note, Out, To};
use node_disk::Disk;
use shards::cut_block;
use std::alloc::Global;
use std::thread::Threads;

impl<H: Hasher<Digest = Digest32>, D: Disk, A: Application> Holding<H, D, A> {
    // ---- what notes send

    // Whom a chunk at that place goes to: the member of the list there, the own one to all.
    fn address(&self, list: &[u16], index: u16) -> Option<To>
        ensures { result ≡ option_map (λ j. if j == self.now.id then To.All else To.One j)
            (slice_get list.now index) }
    {
        match list.get(index as usize) {
            Some(member) => {
                if *member == self.id {
                    Some(To::All)
                } else {
                    Some(To::One(*member))
                }
            }
            None => None,
        }
    }

    // Puts a chunk behind the others, for the member at its place, if there is one.
    fn put_chunk(
        &self,
        list: &[u16],
        commitment: &Commitment,
        chunk: Chunk<Digest32>,
        out: &mut Vec<Out>,
    ) -> Result<(), NoMemory>
        ensures { OnOk result (out.new.items ≡ out.old.items
            ++ option_map_or (λ o. o ∷ [])
            (rule.chunk_out self.now.id list.now commitment.now chunk) []) }
    {
        match self.address(list, chunk.index()) {
            Some(to) => {
                out.push(Out {
                    to,
                    message: Message::Shard(*commitment, chunk),
                })?;
                Ok(())
            }
            None => Ok(()),
        }
    }

    // Puts behind the others the chunks of a block, each for the member at its place.
    #[tactic(auto, using(cw_rules::proofs::Lists::filter_map_more))]
    fn put_chunks(
        &self,
        list: &[u16],
        commitment: &Commitment,
        chunks: Vec<Chunk<Digest32>>,
        out: &mut Vec<Out>,
    ) -> Result<(), NoMemory>
        ensures { OnOk result (out.new.items ≡ out.old.items
            ++ filter_map (rule.chunk_out self.now.id list.now commitment.now) chunks.items) }
    {
        for chunk in chunks {
            self.put_chunk(list, commitment, chunk, out)?;
        }
        Ok(())
    }

    // Puts behind the others the chunks of a block of an epoch, where blocks are cut.
    fn put_cut<R: Threads + Sync, S: Strategy>(
        &self,
        rt: &R,
        alloc: Global,
        epoch: u64,
        block: &ChainBlock,
        strategy: &S,
        out: &mut Vec<Out>,
    ) -> Result<(), NoMemory>
        requires { self.now.travel ≡ Travel.Chunked }
        ensures { OnOk result (out.new.items ≡ out.old.items
            ++ rule.block_sends Travel.Chunked (rules_of H.digest_of A.accepts self.now) self.now.id
            epoch block.now) }
    {
        let (own, chunks) = cut_block::<H, R, S>(rt, alloc, &self.committees, block, strategy)?;
        self.put_chunks(self.committees.members(epoch), &own, chunks, out)
    }

    // Puts a block behind the others, where blocks travel whole.
    fn put_whole(
        &self,
        alloc: Global,
        block: &ChainBlock,
        out: &mut Vec<Out>,
    ) -> Result<(), NoMemory>
        ensures { OnOk result
            (out.new.items ≡ out.old.items ++ rule.to_all (Message.Block block.now) ∷ []) }
    {
        out.push(to_all(Message::Block(block.copy(alloc)?)))?;
        Ok(())
    }

    // Puts behind the others what a block of an epoch sends that is to be voted for.
    fn put_verified<R: Threads + Sync, S: Strategy>(
        &self,
        rt: &R,
        alloc: Global,
        epoch: u64,
        block: &ChainBlock,
        strategy: &S,
        out: &mut Vec<Out>,
    ) -> Result<(), NoMemory>
        ensures { OnOk result (out.new.items ≡ out.old.items
            ++ rule.block_sends self.now.travel (rules_of H.digest_of A.accepts self.now)
            self.now.id epoch block.now) }
    {
        match self.travel {
            Travel::Chunked => self.put_cut(rt, alloc, epoch, block, strategy, out),
            Travel::Uncut => self.put_whole(alloc, block, out),
        }
    }

    // Puts behind the others what a Verified note of an epoch sends.
    fn put_block<R: Threads + Sync, S: Strategy>(
        &self,
        rt: &R,
        alloc: Global,
        epoch: u64,
        commitment: &Commitment,
        strategy: &S,
        out: &mut Vec<Out>,
    ) -> Result<(), NoMemory>
        requires { PartsStand H.digest_of A.accepts self.now }
        ensures { (view : ℕ) → OnOk result
            (out.new.items ≡ out.old.items
            ++ rule.note_sends (rules_of H.digest_of A.accepts self.now) self.now.id
            (stored_notes self.now.store) (NoteValue.Verified epoch view commitment.now)) }
    {
        match self.store.noted_block(commitment) {
            Some(block) => self.put_verified(rt, alloc, epoch, block, strategy, out),
            None => Ok(()),
        }
    }

    // Puts behind the others what a note sends.
    fn put_note<R: Threads + Sync, S: Strategy>(
        &self,
        rt: &R,
        alloc: Global,
        note: &Note,
        strategy: &S,
        out: &mut Vec<Out>,
    ) -> Result<(), NoMemory>
        requires { PartsStand H.digest_of A.accepts self.now }
        ensures { OnOk result (out.new.items ≡ out.old.items
            ++ rule.note_sends (rules_of H.digest_of A.accepts self.now) self.now.id
            (stored_notes self.now.store) note.now) }
    {
        match note {
            Note::Verified(epoch, _, commitment) => {
                self.put_block(rt, alloc, *epoch, commitment, strategy, out)
            }
            Note::Vote(vote) => {
                out.push(to_all(Message::Vote(self.id, *vote)))?;
                Ok(())
            }
            Note::Cert(cert) => {
                out.push(to_all(Message::Cert(cert.copy(alloc)?)))?;
                Ok(())
            }
            _ => Ok(()),
        }
    }

    /// What notes send, in order.
    pub(crate) fn notes_out<R: Threads + Sync, S: Strategy>(
        &self,
        rt: &R,
        alloc: Global,
        notes: &[Note],
        strategy: &S,
    ) -> Result<Vec<Out>, NoMemory>
        requires { PartsStand H.digest_of A.accepts self.now }
        ensures { IfOk result (λ out. out.items
            ≡ flat_map (rule.note_sends (rules_of H.digest_of A.accepts self.now) self.now.id
            (stored_notes self.now.store)) notes.now) }
    {
        let mut out = Vec::new(alloc);
        for note in notes {
            self.put_note(rt, alloc, note, strategy, &mut out)?;
        }
        Ok(out)
    }

    // ---- the own chunk

    // Whether blocks of that epoch are cut so.
    pub(crate) fn is_config_of(&self, config: &Config, epoch: u64) -> bool
        ensures { result ≡ same_counts config.now
            (config_of (rules_of H.digest_of A.accepts self.now) epoch) }
    {
        match self.travel {
            Travel::Chunked => config.is_same(&self.committees.config(epoch)),
            Travel::Uncut => config.is_same(&uncut_config()),
        }
    }

    // Whether a chunk is of the epoch's config and stands at the member's own place in it.
    fn is_own(&self, epoch: u64, commitment: &Commitment, chunk: &Chunk<Digest32>) -> bool
        ensures { result ≡ is_own_row (rules_of H.digest_of A.accepts self.now) self.now.id epoch
            commitment.now chunk.now }
    {
        match self.committees.place(epoch, self.id) {
            Some(place) => chunk.index() == place && self.is_config_of(&commitment.config, epoch),
            None => false,
        }
    }

    /// Puts behind the others the own chunk that an event brought, where it was accepted.
    pub(crate) fn put_own(
        &self,
        alloc: Global,
        epoch: u64,
        brought: bool,
        event: &Event,
        out: &mut Vec<Out>,
    ) -> Result<(), NoMemory>
        ensures { (came : Came) → brought
            ≡ brings_row (rules_of H.digest_of A.accepts self.now) came event.now
            → OnOk result (out.new.items ≡ out.old.items
            ++ rule.own_chunk (rules_of H.digest_of A.accepts self.now) self.now.id epoch came
            event.now) }
    {
        if !brought {
            return Ok(());
        }
        if let Event::Deliver(Message::Shard(commitment, chunk)) = event {
            if self.is_own(epoch, commitment, chunk) {
                out.push(to_all(Message::Shard(*commitment, chunk.copy(alloc)?)))?;
            }
        }
        Ok(())
    }
}

/// The message to every member.
pub(crate) fn to_all(message: Message) -> Out
    ensures { result ≡ rule.to_all message }
{
    Out {
        to: To::All,
        message,
    }
}
