//! What is written reads back, and what reads is in its format: laws, which take no work.

ghost use Rattle.std.specs.Prelude.{◌≡◌, ◌<◌, ◌≤◌, ◌^◌, ℕ, IsTrue, List, Some, length};
ghost use Rattle.cw_base.specs.ReadsBack.{IsBytes, ReadsBack};
ghost use Rattle.std.specs.List.{AllByRecursion};
ghost use Rattle.cw_base.specs.Counts.{Counts};
ghost use Rattle.cw_types.specs.Block.{Block as BlockValue};
ghost use Rattle.cw_types.specs.Handoff.{IsMapped};
ghost use Rattle.cw_types.specs.declared.handoff.Handoff.{Handoff as HandoffValue};
ghost use Rattle.cw_types.specs.Epochs.{members_in, rises_from, size};
ghost use Rattle.cw_types.specs.Encoding.{block_bytes, commitment_bytes, context_bytes, cert_bytes};
ghost use Rattle.cw_types.specs.Encoding.{message_bytes, note_bytes, proposal_bytes, vote_bytes};
ghost use Rattle.cw_types.specs.Reading.{block_at, block_in, cert_at, commitment_at, context_at};
ghost use Rattle.cw_types.specs.Reading.{message_of, note_at, proposal_at, block_chunk_at};
ghost use Rattle.cw_types.specs.Reading.{tagged_message_at, vote_at, NeverWantsMemory};
ghost use Rattle.cw_types.specs.Values.{AreMembers, is_storable, IsBlock, IsCert, IsCommitment};
ghost use Rattle.cw_types.specs.Values.{IsContext, IsMessage, IsNote, IsPrefixFree, IsProposal};
ghost use Rattle.cw_types.specs.Values.{IsVote};
ghost use Rattle.cw_types.specs.declared.message.Message.{Message};

use crate::block::{ChainBlock, Context};
use crate::commitment::Commitment;
use crate::committees::Committees;
use crate::digested::Block;
use crate::note::Note;
use crate::vote::{Cert, Proposal, Vote};

/// What a commitment, a context, a block, a proposal, a vote, a certificate or a note is read from
/// is in its format, and what is in the format is read as itself, whatever follows it.
pub fn values_read_back()
    ensures commitment { ReadsBack commitment_bytes IsCommitment commitment_at }
    ensures context { ReadsBack context_bytes IsContext context_at }
    ensures block { ReadsBack block_bytes IsBlock block_at }
    ensures proposal { (epoch : ℕ)
        → ReadsBack proposal_bytes (IsProposal epoch) (proposal_at epoch) }
    ensures vote { ReadsBack vote_bytes IsVote vote_at }
    ensures cert { ReadsBack cert_bytes IsCert cert_at }
    ensures note { ReadsBack note_bytes IsNote note_at }
{}

/// No form of a value begins that of another, so values that stand one behind the other are told
/// apart.
pub fn forms_are_told()
    ensures commitment { IsPrefixFree commitment_bytes IsCommitment }
    ensures context { IsPrefixFree context_bytes IsContext }
    ensures block { IsPrefixFree block_bytes IsBlock }
    ensures vote { IsPrefixFree vote_bytes IsVote }
    ensures cert { IsPrefixFree cert_bytes IsCert }
    ensures note { IsPrefixFree note_bytes IsNote }
{}

/// No format refuses bytes for want of memory: a reader that does so has read a whole value, and
/// stands behind it.
pub fn formats_want_no_memory()
    ensures commitment { NeverWantsMemory commitment_at }
    ensures context { NeverWantsMemory context_at }
    ensures block { NeverWantsMemory block_at }
    ensures proposal { (epoch : ℕ) → NeverWantsMemory (proposal_at epoch) }
    ensures vote { NeverWantsMemory vote_at }
    ensures cert { NeverWantsMemory cert_at }
    ensures note { NeverWantsMemory note_at }
    ensures shard { (config : Counts) → NeverWantsMemory (block_chunk_at config) }
    ensures message { NeverWantsMemory tagged_message_at }
{}

/// A text that is read as a block is that block's bytes and no other's, and the bytes of a block
/// are read as that block.
pub fn blocks_read_back()
    ensures found { (text : List ℕ) (b : BlockValue) → IsBytes text → block_in text ≡ Some b
        → (block_bytes b ≡ text) × IsBlock b }
    ensures again { (b : BlockValue) → IsBlock b → block_in (block_bytes b) ≡ Some b }
{}

/// Two blocks with the same bytes are the same block, whatever their type.
pub fn blocks_are_told<B: Block>(one: &B, other: &B)
    ensures { B.bytes_of one.now ≡ B.bytes_of other.now → one.now ≡ other.now }
{
    one.is_read_back();
    other.is_read_back();
}

/// A handoff mapped by what changes nothing stays, and mapped twice it is mapped by both in turn.
pub fn handoffs_map<C, D, E>()
    ensures same { (one other : HandoffValue C) → IsMapped (λ x y. y ≡ x) one other → other ≡ one }
    ensures turn { (first : C → D) (then : D
        → E) (one : HandoffValue C) (next : HandoffValue D) (last : HandoffValue E)
        → IsMapped (λ x y. y ≡ first x) one next → IsMapped (λ y z. z ≡ then y) next last
        → IsMapped (λ x z. z ≡ then (first x)) one last }
{}

/// Each commitment reads back.
pub fn commitment_fits(commitment: Commitment)
    ensures { IsCommitment commitment }
{}

/// Each context reads back.
pub fn context_fits(context: Context)
    ensures { IsContext context }
{}

/// Each block reads back.
pub fn block_fits(block: &ChainBlock)
    ensures { IsBlock block.now }
{
    context_fits(*block.context());
    let _parent = block.parent().0;
    let _height = block.height();
    let _payload = block.payload().bytes();
}

/// A block has at most 1,048,745 bytes, and one with the longest payload has as many.
pub fn blocks_are_bounded()
    ensures bound { (b : BlockValue) → IsBlock b → length (block_bytes b) ≤ 1048745 }
    ensures reached { (b : BlockValue) → IsBlock b → length b.payload ≡ 1048576
        → length (block_bytes b) ≡ 1048745 }
{}

/// Each vote reads back.
pub fn vote_fits(vote: Vote)
    ensures { IsVote vote }
{}

/// Each proposal reads back, of its epoch.
pub fn proposal_fits(proposal: Proposal)
    ensures epoch { proposal.epoch < 2 ^ 64 }
    ensures fits { IsProposal proposal.epoch proposal }
{}

/// Each certificate of at most 65,535 signers reads back.
pub fn cert_fits(cert: &Cert)
    requires { length cert.now.signers < 2 ^ 16 }
    ensures { IsCert cert.now }
{
    vote_fits(cert.vote);
    signers_fit(cert.signers.as_slice());
}

// Each signer is a member's number.
fn signers_fit(signers: &[u16])
    ensures { AreMembers signers.now }
{}

/// Each note reads back whose votes and proposals are well formed, whose heights are below 2^64 -
/// 1, whose entered epoch is above 0, and whose certificate has at most 65,535 signers.
pub fn note_fits(note: &Note)
    requires { IsTrue (is_storable note.now) }
    ensures { IsNote note.now }
{
    match note {
        Note::Block(commitment, block) => {
            commitment_fits(*commitment);
            block_fits(block);
        }
        Note::Verified(epoch, view, commitment) => {
            let _numbers = (*epoch, *view);
            commitment_fits(*commitment);
        }
        Note::Certified(proposal) => proposal_fits(*proposal),
        Note::Vote(vote) => vote_fits(*vote),
        Note::Cert(cert) => cert_fits(cert),
        Note::Ack(_) | Note::Floor(_) | Note::Prune(_) => {}
        Note::Epoch(epoch, commitment) => {
            let _number = *epoch;
            commitment_fits(*commitment);
        }
    }
}

/// The members of each epoch are at least four, rise, and are members of the cluster; an epoch
/// covers at least one height.
pub fn committees_are_sound(committees: &Committees)
    ensures enough { (epoch : ℕ) → 4 ≤ size committees.now epoch }
    ensures rising { (epoch : ℕ) → IsTrue (rises_from 0 (members_in committees.now epoch)) }
    ensures there { (epoch : ℕ)
        → AllByRecursion (λ i. i < committees.now.total) (members_in committees.now epoch) }
    ensures spans { (span : ℕ) → committees.now.span ≡ Some span → 0 < span }
{
    let _lists = committees.lists();
}

/// Bytes are those of the message that they read as, and a message reads back as it was written.
/// Junk does where it doesn't read as another message.
pub fn messages_read_back()
    ensures found { (bytes : List ℕ) → IsBytes bytes → (message_bytes (message_of bytes) ≡ bytes)
        × IsMessage (message_of bytes) }
    ensures again { (m : Message) → IsMessage m → message_of (message_bytes m) ≡ m }
{}
