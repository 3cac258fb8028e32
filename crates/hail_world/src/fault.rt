//! What a faulty member sends.

ghost use Rattle.std.specs.Prelude.{◌≡◌, ◌++◌, ◌<◌, ◌∷◌, [], IfOk, OnOk, IsTrue, map};
ghost use Rattle.std.specs.Prelude.{option_map, filter_map, ℕ, Bool};
ghost use Rattle.cw_types.specs.Reading.{message_of};
ghost use Rattle.cw_types.specs.Block.{Block};
ghost use Rattle.cw_types.specs.Epochs.{Epochs};
ghost use Rattle.cw_types.specs.declared.message.Message.TheVariants as message;
ghost use Rattle.cw_rules.specs.declared.travel.Travel.TheVariants as travel;
ghost use Rattle.cw_rules.specs.Rules.{commit};
ghost use Rattle.cw_rules.specs.Sends.{block_sends, chunk_out, to_all as all};
ghost use Rattle.cw_rules.specs.World as rule;
ghost use Rattle.cw_rules_coded.specs.Coded.{uncut_rules};
ghost use Rattle.shards.specs.Kept.{chunk_rules as cut_by};
ghost use Rattle.hail_world.specs.Offers as offers;
ghost use Rattle.hail_world.specs.Places.{script_rules, world_of_pool};
ghost use Rattle.hail_report.specs.Pool.{sent_in};

use cw_base::{Digest32, Hasher, Items, NoMemory, Reader, Strategy};
use cw_coding::Chunk;
use cw_rules::Travel;
use cw_types::committees::leader;
use cw_types::{
    ChainBlock, Commitment, Committees, Context, Message, Out, Payload, Proposal, To, Vote,
    genesis, genesis_commitment,
};
use hail_report::Pool;
use hail_script::{Fault, FaultKind, Script};
use node::whole_commit;
use shards::cut_block;
use std::alloc::Global;
use std::thread::Threads;

fn proposal_of(message: &Message) -> Option<Proposal>
    ensures { result ≡ rule.message_proposal message.now }
{
    match message {
        Message::Vote(_, vote) => match vote {
            Vote::Notarize(proposal) => Some(*proposal),
            Vote::Nullify { .. } => None,
            Vote::Finalize(proposal) => Some(*proposal),
        },
        _ => None,
    }
}

// The proposal of a vote that was sent under that number.
fn voted_on(pool: &Pool, number: u64) -> Option<Proposal>
    ensures { result ≡ rule.voted_on (world_of_pool (sent_in pool.now)) number }
{
    match pool.get(number) {
        None => None,
        Some(sent) => proposal_of(&sent.message),
    }
}

fn to_all(message: Message) -> Out
    ensures { result ≡ all message }
{
    Out {
        to: To::All,
        message,
    }
}

fn one(alloc: Global, message: Message) -> Result<Items<Out>, NoMemory>
    ensures { IfOk result (λ outs. outs ≡ all message ∷ []) }
{
    let mut outs = Items::new(alloc);
    outs.push(to_all(message))?;
    Ok(outs)
}

// A vote on what the vote of that number is on.
fn vote_on_same(
    alloc: Global,
    pool: &Pool,
    member: u16,
    number: u64,
    finalizes: bool,
) -> Result<Items<Out>, NoMemory>
    ensures { IfOk result
        (λ outs. outs
        ≡ offers.vote_on_same finalizes (world_of_pool (sent_in pool.now)) member number) }
{
    match voted_on(pool, number) {
        None => Ok(Items::new(alloc)),
        Some(proposal) => {
            if finalizes {
                return one(alloc, Message::Vote(member, Vote::Finalize(proposal)));
            }
            one(alloc, Message::Vote(member, Vote::Notarize(proposal)))
        }
    }
}

// The message that bytes read as.
fn read_message(alloc: Global, bytes: &[u8]) -> Result<Message, NoMemory>
    ensures { IfOk result (λ message. message ≡ message_of bytes.now) }
{
    let mut reader = Reader::new(bytes);
    match Message::read(alloc, &mut reader) {
        Ok(message) => Ok(message),
        Err(_) => Err(NoMemory),
    }
}

// A chunk to the member of the list at its place, if there is one, the own one to all.
fn chunk_out(
    member: u16,
    list: &[u16],
    commitment: &Commitment,
    chunk: Chunk<Digest32>,
) -> Option<Out>
    ensures { result ≡ chunk_out member list.now commitment.now chunk }
{
    let Some(other) = list.get(usize::from(chunk.index())) else {
        return None;
    };
    let to = goes_to(member, *other);
    Some(Out {
        to,
        message: Message::Shard(*commitment, chunk),
    })
}

fn goes_to(member: u16, other: u16) -> To
    ensures { result ≡ offers.goes_to member other }
{
    if other == member {
        return To::All;
    }
    To::One(other)
}

fn chunk_outs(
    alloc: Global,
    member: u16,
    list: &[u16],
    commitment: &Commitment,
    chunks: Vec<Chunk<Digest32>>,
) -> Result<Items<Out>, NoMemory>
    ensures { IfOk result
        (λ outs. outs ≡ filter_map (chunk_out member list.now commitment.now) chunks.items) }
{
    let mut outs = Items::new(alloc);
    for chunk in chunks {
        push_some(&mut outs, chunk_out(member, list, commitment, chunk))?;
    }
    Ok(outs)
}

fn push_some(outs: &mut Items<Out>, out: Option<Out>) -> Result<(), NoMemory>
    ensures { OnOk result (outs.new ≡ outs.old ++ offers.some_of out) }
{
    match out {
        None => Ok(()),
        Some(out) => {
            outs.push(out)?;
            Ok(())
        }
    }
}

// A block of that view over the first one.
fn offered<H: Hasher<Digest = Digest32>>(
    alloc: Global,
    committees: &Committees,
    view: u64,
    payload: Payload,
) -> Result<ChainBlock, NoMemory>
    ensures { IfOk result
        (λ block. block ≡ offers.offered H.digest_of committees.now view payload) }
{
    let mut bytes = Vec::new(alloc);
    genesis::<H>(alloc).write(&mut bytes)?;
    let context = Context {
        epoch: 0,
        view,
        leader: leader(committees, 0, view),
        parent_view: 0,
        parent: genesis_commitment::<H>(),
    };
    Ok(ChainBlock::new(context, H::hash(&bytes), 1, payload))
}

// What names a block that goes out in chunks, and its chunks, each to its member.
fn go_cut<H: Hasher<Digest = Digest32>, R: Threads + Sync, S: Strategy>(
    rt: &R,
    alloc: Global,
    committees: &Committees,
    member: u16,
    block: &ChainBlock,
    strategy: &S,
) -> Result<(Commitment, Items<Out>), NoMemory>
    ensures name { IfOk result
        (λ gone. gone.0 ≡ commit (cut_by H.digest_of committees.now) block.now) }
    ensures outs { IfOk result
        (λ gone. gone.1 ≡ block_sends travel.Chunked (cut_by H.digest_of committees.now) member 0
        block.now) }
{
    let (commitment, chunks) = cut_block::<H, R, S>(rt, alloc, committees, block, strategy)?;
    let outs = chunk_outs(alloc, member, committees.members(0), &commitment, chunks)?;
    Ok((commitment, outs))
}

// What names a block that goes out whole, and the block, to all.
fn go_whole<H: Hasher<Digest = Digest32>>(
    alloc: Global,
    block: ChainBlock,
) -> Result<(Commitment, Items<Out>), NoMemory>
    ensures name { (epochs : Epochs) (backlog : ℕ) (accepts : Block → Block → Bool)
        → IfOk result
        (λ gone. gone.0 ≡ commit (uncut_rules H.digest_of epochs backlog accepts) block) }
    ensures outs { IfOk result (λ gone. gone.1 ≡ all (message.Block block) ∷ []) }
{
    let commitment = whole_commit::<H>(alloc, &block)?;
    let outs = one(alloc, Message::Block(block))?;
    Ok((commitment, outs))
}

// What names a block, and how it goes out.
fn go_out<H: Hasher<Digest = Digest32>, R: Threads + Sync, S: Strategy>(
    rt: &R,
    alloc: Global,
    script: &Script,
    member: u16,
    block: ChainBlock,
    strategy: &S,
) -> Result<(Commitment, Items<Out>), NoMemory>
    ensures name { IfOk result
        (λ gone. gone.0 ≡ commit (script_rules H.digest_of script.now) block) }
    ensures outs { IfOk result
        (λ gone. gone.1
        ≡ block_sends script.now.travel (script_rules H.digest_of script.now) member 0
        block) }
{
    match script.travel() {
        Travel::Chunked => {
            let committees = script.committees(alloc)?;
            go_cut::<H, R, S>(rt, alloc, &committees, member, &block, strategy)
        }
        Travel::Uncut => go_whole::<H>(alloc, block),
    }
}

fn offer<H: Hasher<Digest = Digest32>, R: Threads + Sync, S: Strategy>(
    rt: &R,
    alloc: Global,
    script: &Script,
    member: u16,
    view: u64,
    payload: &Payload,
    strategy: &S,
) -> Result<Items<Out>, NoMemory>
    ensures { IfOk result
        (λ outs. outs
        ≡ offers.offer (script_rules H.digest_of script.now) member view payload.now) }
{
    let committees = script.committees(alloc)?;
    let block = offered::<H>(alloc, &committees, view, payload.copy(alloc)?)?;
    let (commitment, mut outs) = go_out::<H, R, S>(rt, alloc, script, member, block, strategy)?;
    let proposal = Proposal {
        epoch: 0,
        view,
        parent: 0,
        payload: commitment,
    };
    outs.push(to_all(Message::Vote(member, Vote::Notarize(proposal))))?;
    Ok(outs)
}

/// What a faulty member sends.
pub(crate) fn fault_sends<H: Hasher<Digest = Digest32>, R: Threads + Sync, S: Strategy>(
    rt: &R,
    alloc: Global,
    script: &Script,
    pool: &Pool,
    member: u16,
    fault: &Fault,
    strategy: &S,
) -> Result<Items<Out>, NoMemory>
    ensures { IfOk result
        (λ outs. outs ≡ rule.fault_sends (script_rules H.digest_of script.now)
        (world_of_pool (sent_in pool.now)) member fault.now) }
{
    match fault.kind() {
        FaultKind::Silent => Ok(Items::new(alloc)),
        FaultKind::Offer(view, payload) => {
            offer::<H, R, S>(rt, alloc, script, member, *view, payload, strategy)
        }
        FaultKind::Notarize(number) => vote_on_same(alloc, pool, member, *number, false),
        FaultKind::Finalize(number) => vote_on_same(alloc, pool, member, *number, true),
        FaultKind::Nullify(view) => {
            let vote = Vote::Nullify {
                epoch: 0,
                view: *view,
            };
            one(alloc, Message::Vote(member, vote))
        }
        FaultKind::Raw(bytes) => one(alloc, read_message(alloc, bytes.as_slice())?),
    }
}
