//! The store of a node's notes: its marshal, by the clauses that the node stands on.

ghost use Rattle.std.specs.Prelude.{◌≡◌, ℕ, ◌≤◌, ◌<◌, ◌++◌, ◌^◌, ◌-◌, [], IfErr, IfOk, IfSome};
ghost use Rattle.std.specs.Prelude.{IsErrOf, IsTrue, List, None, OnErr, OnOk, Some, filter_map};
ghost use Rattle.std.specs.Prelude.{false, map, option_and_then, slice_get, true, unwrap_or};
ghost use Rattle.std.specs.List.{last_or, list_all};
ghost use Rattle.std.specs.Option.{option_map};
ghost use Rattle.cw_types.specs.Values.{is_storable};
ghost use Rattle.cw_rules.specs.Accepted.{first_some};
ghost use Rattle.cw_rules.specs.Direct.{least};
ghost use Rattle.cw_rules.specs.Held as rule;
ghost use Rattle.cw_rules.specs.Notes as notes_rule;
ghost use Rattle.cw_rules.specs.Sends as sends_rule;
ghost use Rattle.cw_rules.specs.Step.{Of_commitment, Of_digest, add_frame, deliveries, give_ticket};
ghost use Rattle.cw_rules.specs.Step.{no_tickets, served, ticketed, unserved};
ghost use Rattle.cw_types.specs.declared.event.Event.TheVariants as event;
ghost use Rattle.cw_types.specs.declared.note.Note.{Note as NoteValue};
ghost use Rattle.node_disk.specs.Disk.{LeavesOnly};
ghost use Rattle.node_disk.specs.Log.{HasSettled};
ghost use Rattle.note_scans.specs.Heights.{greatest_of};
ghost use Rattle.marshal.specs.Finding.{final_blocks, highest_block};
ghost use Rattle.marshal.specs.Frames.{FindsAllOrNone, ReadBack, frame_bytes};
ghost use Rattle.marshal.specs.Stored.{join_frames, marshal_log};
ghost use Rattle.node.specs.Disks.{HasFound, HasTried, WasRefused};
ghost use Rattle.node.specs.Store.{store_of, stored_notes, stored_rules, stored_state, with_staged};

use cw_base::{Digest32, Hasher, NoMemory};
use cw_types::{Cert, ChainBlock, Commitment, Committees, Handed, Note, TicketOut};
use marshal::{Identifier, Marshal};
use node_disk::{Disk, StoreError};
use note_scans::noted_block_of;
use std::alloc::Global;

/// The marshal of a node, as the node knows it: by the member's notes and what was handed out since
/// the start. Each call is the marshal's own.
#[derive(Drop)]
pub(crate) struct Store<H: Hasher<Digest = Digest32>, D: Disk> {
    pub(crate) marshal: Marshal<H, D>,
}

impl<H: Hasher<Digest = Digest32>, D: Disk> Store<H, D> {
    /// Opens the store of a disk.
    pub(crate) fn start(
        alloc: Global,
        committees: Committees,
        backlog: u64,
        disk: D,
    ) -> Result<Store<H, D>, (D, StoreError)>
        requires { 1 ≤ backlog }
        ensures started { IfOk result
            (λ s. store_of s.marshal ≡ record {
              epochs = committees;
              backlog = backlog;
              frames = (store_of s.marshal).frames;
              staged =
                  [];
              given = [];
              tickets = no_tickets;
              failed = false;
            }) }
        ensures found { IfOk result
            (λ s. HasFound D.state D.continues (store_of s.marshal).frames disk
            (marshal_log s.marshal).disk) }
        ensures refused { IfErr result (λ e. WasRefused D.state D.continues e.1 disk e.0) }
        ensures never_fails { D.calm disk ≡ true → IfErr result (λ e. e.1 ≡ StoreError.Disk → ⊥) }
        ensures not_failed { IfErr result (λ e. e.1 ≡ StoreError.Failed → ⊥) }
    {
        match Marshal::start(alloc, committees, backlog, disk) {
            Ok(marshal) => Ok(Store { marshal }),
            Err(refused) => Err(refused),
        }
    }

    /// A law, of every store: its log is that of its frames, which read back; and unless the disk
    /// is in doubt it is at rest, so that a crash where no device is called leaves the frames.
    pub(crate) fn rests(&self)
        ensures running { (marshal_log self.now.marshal).failed
            ≡ (store_of self.now.marshal).failed }
        ensures frames { (marshal_log self.now.marshal).frames
            ≡ map frame_bytes (store_of self.now.marshal).frames }
        ensures readable { ReadBack (store_of self.now.marshal).frames }
        ensures settled { (store_of self.now.marshal).failed ≡ false
            → HasSettled (marshal_log self.now.marshal).frames (marshal_log self.now.marshal).gate
            (D.state (marshal_log self.now.marshal).disk).now }
        ensures still { (store_of self.now.marshal).failed ≡ false → (notes : List NoteValue)
            → LeavesOnly (D.state (marshal_log self.now.marshal).disk)
            (D.state (marshal_log self.now.marshal).disk)
            (FindsAllOrNone (store_of self.now.marshal).frames notes) }
    {
        self.marshal.frames_read_back();
        self.marshal.rests();
    }

    /// All notes, and behind them those that wait.
    pub(crate) fn notes(&self) -> &[Note]
        ensures value { result.now ≡ stored_notes (store_of self.now.marshal) }
        ensures storable { IsTrue (list_all is_storable result.now) }
    {
        self.marshal.notes()
    }

    /// The notes on the disk.
    pub(crate) fn noted(&self) -> &[Note]
        ensures { result.now ≡ join_frames (store_of self.now.marshal).frames }
    {
        self.marshal.noted()
    }

    /// The notes of the last frame on the disk.
    pub(crate) fn last_frame(&self) -> &[Note]
        ensures { result.now ≡ unwrap_or (last_or None (store_of self.now.marshal).frames) [] }
    {
        self.marshal.last_frame()
    }

    /// Whether a block under the commitment is noted.
    pub(crate) fn has_block(&self, commitment: &Commitment) -> bool
        ensures { result ≡ notes_rule.has_block (stored_notes (store_of self.now.marshal))
            commitment.now }
    {
        self.marshal.has_block(commitment)
    }

    /// The first noted block under the commitment, be it pruned or not.
    pub(crate) fn noted_block(&self, commitment: &Commitment) -> Option<&ChainBlock>
        ensures { option_map (λ block. block.now) result
            ≡ first_some (rule.noted_block_of commitment.now)
            (stored_notes (store_of self.now.marshal)) }
    {
        match self.marshal.places().get(commitment) {
            Some(place) => block_at(self.marshal.notes(), *place as usize, commitment),
            None => None,
        }
    }

    /// The block that is held under the commitment.
    pub(crate) fn held(&self, commitment: &Commitment) -> Option<&ChainBlock>
        ensures { option_map (λ block. block.now) result
            ≡ rule.held (stored_rules H.digest_of (store_of self.now.marshal))
            (stored_notes (store_of self.now.marshal)) commitment.now }
    {
        self.marshal.get_block(Identifier::Commitment(*commitment))
    }

    /// The first of the highest held blocks that noted finalizations have.
    pub(crate) fn highest(&self) -> Option<&ChainBlock>
        ensures { option_map (λ block. block.now) result
            ≡ highest_block (final_blocks (stored_rules H.digest_of (store_of self.now.marshal))
            (stored_notes (store_of self.now.marshal))) }
    {
        self.marshal.get_block(Identifier::Latest)
    }

    /// The commitment at a height.
    pub(crate) fn commitment_at(&self, height: u64) -> Option<Commitment>
        ensures { result ≡ rule.at_height (stored_rules H.digest_of (store_of self.now.marshal))
            (stored_notes (store_of self.now.marshal)) height }
    {
        self.marshal.commitment_at(height)
    }

    /// The first noted finalization whose held block has that height.
    pub(crate) fn finalization(&self, height: u64) -> Option<&Cert>
        ensures { option_map (λ cert. cert.now) result
            ≡ first_some (sends_rule.finalization_at
            (stored_rules H.digest_of (store_of self.now.marshal))
            (stored_notes (store_of self.now.marshal)) height)
            (stored_notes (store_of self.now.marshal)) }
    {
        self.marshal.get_finalization(height)
    }

    /// The height to be handed out next.
    pub(crate) fn next_height(&self) -> u64
        ensures { result ≡ rule.next (stored_state (store_of self.now.marshal)) }
    {
        self.marshal.next_height()
    }

    /// The least height that was handed out and isn't acknowledged.
    pub(crate) fn least_pending(&self) -> Option<u64>
        ensures value { result ≡ least (rule.pending (stored_state (store_of self.now.marshal))) }
        ensures bound { IfSome result (λ height. height < 2 ^ 64 - 1) }
    {
        match self.marshal.least_pending() {
            Some(height) => Some(height.get()),
            None => None,
        }
    }

    /// The height that was acknowledged last.
    pub(crate) fn last_ack(&self) -> Option<u64>
        ensures value { result ≡ rule.last_ack (stored_notes (store_of self.now.marshal)) }
        ensures bound { IfSome result (λ height. height < 2 ^ 64 - 1) }
    {
        match self.marshal.get_processed() {
            Some(height) => Some(height.get()),
            None => None,
        }
    }

    /// The greatest height below which heights are given up, where one is noted.
    pub(crate) fn greatest_floor(&self) -> Option<u64>
        ensures { result ≡ greatest_of
            (filter_map rule.floor_height (stored_notes (store_of self.now.marshal))) }
    {
        match self.marshal.greatest_floor() {
            Some(height) => Some(height.get()),
            None => None,
        }
    }

    /// The greatest height below which blocks are hidden, where one is noted.
    pub(crate) fn greatest_prune(&self) -> Option<u64>
        ensures { result ≡ greatest_of
            (filter_map rule.pruned_height (stored_notes (store_of self.now.marshal))) }
    {
        match self.marshal.greatest_prune() {
            Some(height) => Some(height.get()),
            None => None,
        }
    }

    /// Puts a note behind those that wait. Where memory is short nothing changes.
    pub(crate) fn stage(&mut self, note: Note) -> Result<(), NoMemory>
        requires { IsTrue (is_storable note) }
        ensures ok { OnOk result (store_of self.new.marshal
            ≡ with_staged (store_of self.old.marshal) note) }
        ensures err { OnErr result (store_of self.new.marshal ≡ store_of self.old.marshal) }
        ensures log { marshal_log self.new.marshal ≡ marshal_log self.old.marshal }
    {
        self.marshal.stage(note)
    }

    /// Writes the notes that wait in one frame onto the disk. Where there are none it calls no
    /// device.
    pub(crate) fn commit(&mut self) -> Result<(), StoreError>
        requires { (store_of self.old.marshal).failed ≡ false }
        ensures ok { OnOk result (store_of self.new.marshal
            ≡ record (store_of self.old.marshal) {
              frames = add_frame (store_of self.old.marshal).frames
                  (store_of self.old.marshal).staged;
              staged = [];
            }) }
        ensures tried { HasTried D.state D.continues (store_of self.old.marshal).frames
            (store_of self.old.marshal).staged result (marshal_log self.old.marshal)
            (marshal_log self.new.marshal) }
        ensures never_fails { D.calm (marshal_log self.old.marshal).disk ≡ true
            → IsErrOf result StoreError.Disk → ⊥ }
        ensures readable { ReadBack
            (add_frame (store_of self.old.marshal).frames (store_of self.old.marshal).staged) }
        ensures not_failed { IsErrOf result StoreError.Failed → ⊥ }
        ensures not_foreign { (place : ℕ) → IsErrOf result (StoreError.Foreign place) → ⊥ }
    {
        self.marshal.frames_read_back();
        self.marshal.commit()
    }

    /// The blocks to hand out now, which are then handed out. Where memory is short nothing
    /// changes.
    pub(crate) fn next_deliveries(&mut self, alloc: Global) -> Result<Vec<Handed>, NoMemory>
        requires { (store_of self.old.marshal).staged ≡ [] }
        ensures value { IfOk result
            (λ handed. handed.items ≡ deliveries
            (stored_rules H.digest_of (store_of self.old.marshal))
            (stored_state (store_of self.old.marshal))) }
        ensures given { IfOk result
            (λ handed. store_of self.new.marshal
            ≡ record (store_of self.old.marshal)
            { given = (store_of self.old.marshal).given ++ map (λ h. h.height) handed.items }) }
        ensures err { OnErr result (store_of self.new.marshal ≡ store_of self.old.marshal) }
        ensures log { marshal_log self.new.marshal ≡ marshal_log self.old.marshal }
    {
        self.marshal.next_deliveries(alloc)
    }

    /// The number of a new ticket for the block of a digest. Where memory is short nothing changes.
    pub(crate) fn watch_digest(&mut self, digest: Digest32) -> Result<u64, NoMemory>
        ensures number { IfOk result
            (λ number. number ≡ (store_of self.old.marshal).tickets.coming) }
        ensures ok { OnOk result (store_of self.new.marshal
            ≡ record (store_of self.old.marshal)
            { tickets = give_ticket (store_of self.old.marshal).tickets (Of_digest digest) }) }
        ensures log { marshal_log self.new.marshal ≡ marshal_log self.old.marshal }
    {
        self.marshal.subscribe_by_digest(digest)
    }

    /// The number of a new ticket for the block under a commitment. Where memory is short nothing
    /// changes.
    pub(crate) fn watch_commitment(&mut self, commitment: Commitment) -> Result<u64, NoMemory>
        ensures number { IfOk result
            (λ number. number ≡ (store_of self.old.marshal).tickets.coming) }
        ensures ok { OnOk result (store_of self.new.marshal
            ≡ record (store_of self.old.marshal) {
              tickets = give_ticket (store_of self.old.marshal).tickets
                  (Of_commitment commitment);
            }) }
        ensures log { marshal_log self.new.marshal ≡ marshal_log self.old.marshal }
    {
        self.marshal.subscribe_by_commitment(commitment)
    }

    /// The ticket of that number waits no more.
    pub(crate) fn cancel(&mut self, number: u64)
        ensures value { store_of self.new.marshal
            ≡ record (store_of self.old.marshal)
            { tickets = ticketed (store_of self.old.marshal).tickets (event.Cancel number) } }
        ensures log { marshal_log self.new.marshal ≡ marshal_log self.old.marshal }
    {
        let _was = self.marshal.cancel(number);
    }

    /// The waiting tickets whose block is held, which then wait no more. Where memory is short
    /// nothing changes.
    pub(crate) fn take_tickets(&mut self, alloc: Global) -> Result<Vec<TicketOut>, NoMemory>
        requires { (store_of self.old.marshal).staged ≡ [] }
        ensures value { IfOk result
            (λ out. out.items ≡ filter_map
            (served (stored_rules H.digest_of (store_of self.old.marshal))
            (stored_notes (store_of self.old.marshal)))
            (store_of self.old.marshal).tickets.waiting) }
        ensures ok { OnOk result (store_of self.new.marshal
            ≡ record (store_of self.old.marshal) {
              tickets = unserved (stored_rules H.digest_of (store_of self.old.marshal))
                  (stored_notes (store_of self.old.marshal)) (store_of self.old.marshal).tickets;
            }) }
        ensures log { marshal_log self.new.marshal ≡ marshal_log self.old.marshal }
    {
        self.marshal.take_ticket_outs(alloc)
    }

    /// The disk, as it stands.
    pub(crate) fn into_disk(self) -> D
        ensures { result ≡ (marshal_log self.marshal).disk }
    {
        let Store { marshal } = self;
        marshal.into_disk()
    }
}

// The block of the note at a place, where it is under that commitment.
fn block_at<'a>(notes: &'a [Note], place: usize, commitment: &Commitment) -> Option<&'a ChainBlock>
    ensures { option_map (λ block. block.now) result
        ≡ option_and_then (rule.noted_block_of commitment.now) (slice_get notes.now place) }
{
    match notes.get(place) {
        Some(note) => noted_block_of(note, commitment),
        None => None,
    }
}
