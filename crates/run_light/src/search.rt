//! The first finalization on the disks that shows a height.

ghost use Rattle.std.specs.Prelude.{[], ◌≡◌, ◌+◌, ◌++◌, ◌∷◌, ◌==◌, ℕ, Bool, List, None, Ok, Some};
ghost use Rattle.std.specs.Prelude.{IfOk, IfSome, if◌then◌else◌};
ghost use Rattle.cw_types.specs.Block.{Block};
ghost use Rattle.cw_types.specs.Epochs.{Epochs};
ghost use Rattle.cw_types.specs.declared.note.Note.{Note as NoteValue};
ghost use Rattle.cw_rules.specs.Held as rule;
ghost use Rattle.cw_rules.specs.Step.{Member};
ghost use Rattle.cw_rules_coded.specs.Coded.{coded};
ghost use Rattle.marshal.specs.Stored.{read_notes};
ghost use Rattle.hail_world.specs.Reports.{HoldNotes};
ghost use Rattle.run_light.specs.Finding as spec;

use cw_base::{Digest32, Hasher, Items, NoMemory};
use cw_light::is_valid;
use cw_types::{
    Cert, ChainBlock, Commitment, Committees, Note, Verifier, Vote, genesis, genesis_commitment,
};
use marshal::notes_on;
use node_disk::StoreError;
use note_scans::kept_block;
use std::alloc::Global;

/// A finalization, and the blocks from its payload down to one that is asked for.
#[derive(Drop)]
pub(crate) struct Shown {
    pub(crate) cert: Cert,
    pub(crate) path: Items<ChainBlock>,
}

/// The first finalization of members' disks that is valid and whose held payload reaches a height.
pub(crate) fn found_in<H: Hasher<Digest = Digest32>, V: Verifier>(
    alloc: Global,
    committees: &Committees,
    verifier: &V,
    height: u64,
    disks: &[Items<u8>],
) -> Result<Option<Shown>, NoMemory>
    requires { (members : List Member) × HoldNotes members disks.now }
    ensures { (backlog : ℕ) (accepts : Block → Block → Bool) (members : List Member)
        → HoldNotes members disks.now → IfOk result (λ found. found
        ≡ spec.found_in (coded H.digest_of committees.now backlog accepts) (V.signs verifier.now)
        height members) }
{
    for disk in disks {
        let notes = notes_of(alloc, disk.as_slice())?;
        let notes = notes.as_slice();
        if let Some(found) = first_shown::<H, V>(alloc, committees, verifier, height, notes)? {
            return Ok(Some(found));
        }
    }
    Ok(None)
}

// The notes that a member's disk holds.
fn notes_of(alloc: Global, disk: &[u8]) -> Result<Items<Note>, NoMemory>
    requires { (notes : List NoteValue) × (read_notes disk.now ≡ Ok notes) }
    ensures { IfOk result (λ notes. read_notes disk.now ≡ Ok notes) }
{
    match notes_on(alloc, disk) {
        Ok(notes) => Ok(notes),
        Err(StoreError::NoMemory) => Err(NoMemory),
        Err(_) => unreachable!(),
    }
}

// The first finalization among these notes that is valid and whose held payload reaches a height.
fn first_shown<H: Hasher<Digest = Digest32>, V: Verifier>(
    alloc: Global,
    committees: &Committees,
    verifier: &V,
    height: u64,
    notes: &[Note],
) -> Result<Option<Shown>, NoMemory>
    ensures { (backlog : ℕ) (accepts : Block → Block → Bool)
        → IfOk result (λ found. found
        ≡ spec.first_shown (coded H.digest_of committees.now backlog accepts) (V.signs verifier.now)
        height notes.now) }
{
    for note in notes {
        if let Some(shown) = shown_by::<H, V>(alloc, committees, verifier, height, notes, note)? {
            return Ok(Some(shown));
        }
    }
    Ok(None)
}

// What a note shows of a height: it is a valid finalization whose held payload reaches it.
fn shown_by<H: Hasher<Digest = Digest32>, V: Verifier>(
    alloc: Global,
    committees: &Committees,
    verifier: &V,
    height: u64,
    notes: &[Note],
    note: &Note,
) -> Result<Option<Shown>, NoMemory>
    ensures { (backlog : ℕ) (accepts : Block → Block → Bool)
        → IfOk result (λ shown. shown
        ≡ spec.shown_by_note (coded H.digest_of committees.now backlog accepts)
        (V.signs verifier.now)
        height notes.now note.now) }
{
    let Note::Cert(cert) = note else {
        return Ok(None);
    };
    let Vote::Finalize(proposal) = &cert.vote else {
        return Ok(None);
    };
    if !is_valid(committees, verifier, cert) {
        return Ok(None);
    }
    match path_to::<H>(alloc, notes, height, &proposal.payload)? {
        None => Ok(None),
        Some(path) => Ok(Some(Shown {
            cert: cert.copy(alloc)?,
            path,
        })),
    }
}

// The blocks from the held one of a commitment down to that of a height, by held parents.
fn path_to<H: Hasher<Digest = Digest32>>(
    alloc: Global,
    notes: &[Note],
    height: u64,
    commitment: &Commitment,
) -> Result<Option<Items<ChainBlock>>, NoMemory>
    ensures { (epochs : Epochs) (backlog : ℕ) (accepts : Block → Block → Bool)
        → IfOk result (λ path. path
        ≡ spec.path_to (coded H.digest_of epochs backlog accepts) notes.now height
        commitment.now) }
{
    let mut path = Items::new(alloc);
    let mut next = held::<H>(alloc, notes, commitment)?;
    while let Some(block) = next {
        if block.height() <= height {
            return path_end(path, height, block);
        }
        next = parent_of::<H>(alloc, notes, &block)?;
        path.push(block)?;
    }
    Ok(None)
}

// The path with its last block, where that has the height.
fn path_end(
    path: Items<ChainBlock>,
    height: u64,
    last: ChainBlock,
) -> Result<Option<Items<ChainBlock>>, NoMemory>
    ensures { IfOk result (λ made. made
        ≡ (if last.height == height then Some (path ++ last ∷ []) else None)) }
{
    if last.height() != height {
        return Ok(None);
    }
    let mut path = path;
    path.push(last)?;
    Ok(Some(path))
}

// The held parent of a block, where it is one height lower.
fn parent_of<H: Hasher<Digest = Digest32>>(
    alloc: Global,
    notes: &[Note],
    block: &ChainBlock,
) -> Result<Option<ChainBlock>, NoMemory>
    ensures value { (epochs : Epochs) (backlog : ℕ) (accepts : Block → Block → Bool)
        → IfOk result (λ parent. parent
        ≡ rule.parent_of (coded H.digest_of epochs backlog accepts) notes.now block.now) }
    ensures below { IfOk result (λ parent. IfSome parent (λ a. a.height + 1 ≡ block.now.height)) }
{
    match held::<H>(alloc, notes, &block.context().parent)? {
        None => Ok(None),
        Some(parent) => {
            if parent.height() + 1 == block.height() {
                Ok(Some(parent))
            } else {
                Ok(None)
            }
        }
    }
}

// The held block of a commitment.
fn held<H: Hasher<Digest = Digest32>>(
    alloc: Global,
    notes: &[Note],
    commitment: &Commitment,
) -> Result<Option<ChainBlock>, NoMemory>
    ensures { (epochs : Epochs) (backlog : ℕ) (accepts : Block → Block → Bool)
        → IfOk result (λ block. block
        ≡ rule.held (coded H.digest_of epochs backlog accepts) notes.now commitment.now) }
{
    if commitment.is_same(&genesis_commitment::<H>()) {
        return Ok(Some(genesis::<H>(alloc)));
    }
    match kept_block(notes, commitment) {
        None => Ok(None),
        Some(block) => Ok(Some(block.copy(alloc)?)),
    }
}
