//! Worked bytes of values, committees, equality and copies.

mod numbers;
mod reading;
mod surface;

use crate::tables::bytes_of;
use cw_base::{CodecError, Digest32, Items, Reader, Sequential, SumHasher};
use cw_types::{
    Block, BoundedBlock, Cert, CertifiableBlock, ChainBlock, Committees, Context, Digested, Event,
    Height, Heightable, Message, Note, Out, Payload, Proposal, Round, Roundable, StepOut,
    TicketOut, To, Vote, commit, commit_with_chunks, committees, config_for, genesis,
    genesis_commitment, max_faults, quorum, well_formed,
};
use std::alloc::Global;
use std::test::Fail;
use std::thread::Threads;

fn proposal(view: u64, parent: u64) -> Proposal {
    Proposal {
        epoch: 0,
        view,
        parent,
        payload: genesis_commitment::<SumHasher>(),
    }
}

fn hi(alloc: Global) -> Result<Payload, Fail> {
    let bytes = [0x68u8, 0x69].to_vec(alloc)?;
    Ok(Payload::new(bytes).ok().ok_or("a payload")?)
}

// the block of view 1 of a cluster of four, over the first block
fn first_block(alloc: Global) -> Result<ChainBlock, Fail> {
    let context = Context {
        epoch: 0,
        view: 1,
        leader: 1,
        parent_view: 0,
        parent: genesis_commitment::<SumHasher>(),
    };
    Ok(ChainBlock::new(context, Digest32([2; 32]), 1, hi(alloc)?))
}

// the digests of a block and of its context, how many chunks it is cut in, and whether its config
// is that of four, and it is named so without chunks
fn cut<R: Threads + Sync>(
    rt: &R,
    alloc: Global,
) -> Result<(Digest32, Digest32, usize, bool), Fail> {
    let block = first_block(alloc)?;
    let alone = commit::<SumHasher, _, _>(rt, alloc, 4, &block, &Sequential)?;
    let (named, chunks) = commit_with_chunks::<SumHasher, _, _>(rt, alloc, 4, &block, &Sequential)?;
    let is_same = named.config.is_same(&config_for(4)) && named.is_same(&alone);
    Ok((named.block, named.context, chunks.len(), is_same))
}

#[test]
fn a_block_is_cut_for_its_committee(rt: HostRuntime) -> Result<(), Fail> {
    let want = (Digest32([216; 32]), Digest32([196; 32]), 4, true);
    assert_eq!(rt; cut(&rt, rt.alloc())?, want);
    Ok(())
}

fn nullify(epoch: u64, view: u64) -> Vote {
    Vote::Nullify { epoch, view }
}

// whether a vote is written in these bytes, and read from them
fn is_spelled(alloc: Global, vote: Vote, numbers: &str) -> Result<bool, Fail> {
    let bytes = bytes_of(alloc, numbers)?;
    let mut out = Vec::new(alloc);
    vote.write(&mut out)?;
    Ok(out.as_slice() == bytes.as_slice() && Vote::read(&mut Reader::new(&bytes)) == Ok(vote))
}

#[test]
fn a_vote_names_an_epoch_above_zero(rt: HostRuntime) -> Result<(), Fail> {
    for (epoch, view, want) in [(0, 9, "1 0*7 9"), (1, 1, "4 0*7 1 0*7 1")] {
        assert!(rt;
            is_spelled(rt.alloc(), nullify(epoch, view), want)?,
            "{want}"
        );
    }
    let notarize = Vote::Notarize(proposal(2, 1));
    let spelled = is_spelled(rt.alloc(), notarize, "0 0*7 2 0*7 1 2*96 0 1 0 1")?;
    assert!(rt; spelled);
    Ok(())
}

#[test]
fn a_vote_is_well_formed_within_its_views(rt: HostRuntime) {
    let cases = [
        (0, 0, false),
        (1, 0, true),
        (1, 1, false),
        (u64::MAX, 0, false),
    ];
    for (view, parent, want) in cases {
        let proposal = proposal(view, parent);
        let notarize = well_formed(&Vote::Notarize(proposal));
        let finalize = well_formed(&Vote::Finalize(proposal));
        assert_eq!(rt; (notarize, finalize), (want, want), "{view} {parent}");
    }
    assert!(rt; well_formed(&nullify(3, 1)) && !well_formed(&nullify(3, 0)));
}

#[test]
fn a_committee_has_its_numbers(rt: HostRuntime) {
    let cases = [(4, 1, 3), (6, 1, 5), (7, 2, 5), (65535, 21844, 43691)];
    for (n, faults, members) in cases {
        assert!(rt; n >= 4);
        let minimum = config_for(n).minimum_shards.get();
        assert_eq!(rt;
            (max_faults(n), quorum(n), minimum),
            (faults, members, faults + 1)
        );
    }
}

// two committees of four among five members, for epochs of one height each
fn two_committees(alloc: Global) -> Result<Committees, Fail> {
    let mut lists = Vec::new(alloc);
    lists.push([0u16, 1, 2, 3].to_vec(alloc)?)?;
    lists.push([1u16, 2, 3, 4].to_vec(alloc)?)?;
    Ok(Committees::new(alloc, 5, 1, &lists)?.copy(alloc)?)
}

// what those say of themselves, and a single committee of its leader and its last height
fn told(alloc: Global) -> Result<String, Fail> {
    let all = two_committees(alloc)?;
    let one = Committees::single(alloc, 4)?;
    let sizes = (all.total(), all.span(), all.size(7));
    let (early, late) = (all.members(0), all.members(7));
    let is_config = all.config(7).is_same(&config_for(4));
    let members = (all.is_member(0, 0), all.is_member(1, 0), is_config);
    let places = (all.place(0, 0), all.place(1, 0), all.place(1, 4));
    let heights = (
        all.last_height(0),
        all.last_height(1),
        all.last_height(u64::MAX),
    );
    let leaders = (
        committees::leader(&all, 1, 1),
        committees::leader(&one, 9, 6),
    );
    let end = one.last_height(0);
    Ok(format!(in alloc;
        "{sizes:?} {early:?} {late:?} {members:?}\n{places:?} {heights:?} {leaders:?} {end:?}\n"
    )?)
}

const TOLD: &str = "\
(5, Some(1), 4) [0, 1, 2, 3] [1, 2, 3, 4] (true, false, true)
(Some(0), None, Some(3)) (Some(1), Some(2), None) (2, 2) None
";

#[test]
fn a_later_epoch_has_the_last_committee(rt: HostRuntime) -> Result<(), Fail> {
    assert_eq!(rt; told(rt.alloc())?.as_str(), TOLD);
    Ok(())
}

fn three_signed(alloc: Global) -> Result<Message, Fail> {
    let signers = Items::from_vec([0u16, 1, 2].to_vec(alloc)?);
    Ok(Message::Cert(Cert {
        vote: nullify(0, 1),
        signers,
    }))
}

fn first_message(alloc: Global) -> Result<Message, Fail> {
    Ok(Message::Block(first_block(alloc)?))
}

// Notes: a nullification, a floor, and a proposal of 116 bytes. Messages: a nullification of member
// 0, a certificate, and a block. The block in 169 bytes: epoch, view, leader and the parent's view;
// the parent's commitment; its digest; the height, the number of the payload's bytes, and the
// payload.
const WRITTEN: &str = "3 1 0*7 1 6 0*7 2 2 0*7 1 0*8 2*96 0 1 0 1 \
1 0 0 1 0*7 1 2 1 0*7 1 0 3 0 0 0 1 0 2 \
5 0*15 1 0 1 0*8 2*96 0 1 0 1 2*32 0*7 1 2 104 105 \
0*15 1 0 1 0*8 2*96 0 1 0 1 2*32 0*7 1 2 104 105";

fn put_notes(out: &mut Vec<u8>) -> Result<(), Fail> {
    Note::Vote(nullify(0, 1)).write(out)?;
    Note::Floor(2).write(out)?;
    Note::Certified(proposal(1, 0)).write(out)?;
    Ok(())
}

fn put_message(out: &mut Vec<u8>, message: Message) -> Result<(), Fail> {
    Ok(message.write(out)?)
}

fn put_messages(alloc: Global, out: &mut Vec<u8>) -> Result<(), Fail> {
    put_message(out, Message::Vote(0, nullify(0, 1)))?;
    put_message(out, three_signed(alloc)?)?;
    put_message(out, first_message(alloc)?)
}

// whether these and a block are written so, one behind another
fn are_written(alloc: Global) -> Result<bool, Fail> {
    let want = bytes_of(alloc, WRITTEN)?;
    let mut out = Vec::new(alloc);
    put_notes(&mut out)?;
    put_messages(alloc, &mut out)?;
    first_block(alloc)?.write(&mut out)?;
    Ok(out.as_slice() == want.as_slice())
}

#[test]
fn blocks_notes_and_messages_are_written_in_their_bytes(rt: HostRuntime) -> Result<(), Fail> {
    assert!(rt; are_written(rt.alloc())?);
    Ok(())
}

// what a step gives that sends a block and answers a ticket
fn answered(alloc: Global) -> Result<StepOut, Fail> {
    let mut sent = Items::new(alloc);
    let message = first_message(alloc)?;
    sent.push(Out {
        to: To::One(2),
        message,
    })?;
    let mut tickets = Items::new(alloc);
    tickets.push(TicketOut {
        number: 1,
        commitment: Some(genesis_commitment::<SumHasher>()),
    })?;
    Ok(StepOut {
        sent,
        handed: Items::new(alloc),
        tickets,
    })
}

fn note_is_copied(alloc: Global) -> Result<bool, Fail> {
    let note = Note::Block(genesis_commitment::<SumHasher>(), first_block(alloc)?);
    Ok(note.copy(alloc)? == note)
}

fn event_is_copied(alloc: Global) -> Result<bool, Fail> {
    let event = Event::Propose(hi(alloc)?);
    Ok(event.copy(alloc)? == event)
}

fn message_is_copied(alloc: Global) -> Result<bool, Fail> {
    let message = three_signed(alloc)?;
    Ok(message.copy(alloc)? == message)
}

fn step_is_copied(alloc: Global) -> Result<bool, Fail> {
    let step = answered(alloc)?;
    Ok(step.copy(alloc)? == step)
}

#[test]
fn a_copy_equals_what_it_is_of(rt: HostRuntime) -> Result<(), Fail> {
    let note = note_is_copied(rt.alloc())?;
    let event = event_is_copied(rt.alloc())?;
    let message = message_is_copied(rt.alloc())?;
    let step = step_is_copied(rt.alloc())?;
    assert_eq!(rt; (note, event, message, step), (true, true, true, true));
    Ok(())
}

fn is_junk(alloc: Global, bytes: &[u8]) -> Result<bool, CodecError> {
    match Message::read(alloc, &mut Reader::new(bytes))? {
        Message::Junk(junk) => Ok(junk.as_slice() == bytes),
        _ => Ok(false),
    }
}

fn is_read_again(alloc: Global, message: Message) -> Result<bool, Fail> {
    let mut bytes = Vec::new(alloc);
    message.write(&mut bytes)?;
    match Message::read(alloc, &mut Reader::new(&bytes)) {
        Ok(read) => Ok(read == message),
        Err(_) => Ok(false),
    }
}

#[test]
fn bytes_that_are_no_message_are_junk(rt: HostRuntime) -> Result<(), Fail> {
    let short = is_junk(rt.alloc(), &[5]);
    let cut = is_junk(rt.alloc(), &[1, 0, 0, 1]);
    assert_eq!(rt; (short, cut), (Ok(true), Ok(true)));
    let signed = is_read_again(rt.alloc(), three_signed(rt.alloc())?)?;
    let first = is_read_again(rt.alloc(), first_message(rt.alloc())?)?;
    assert!(rt; signed && first);
    Ok(())
}

// the digests of the first block and of its parent, its height and its round
fn first_told(alloc: Global) -> Result<(Digest32, Digest32, Height, Round), Fail> {
    let first = Digested::<SumHasher>::new(alloc, genesis::<SumHasher>(alloc))?;
    Ok((
        first.digest(),
        first.parent(),
        first.height(),
        first.context().round(),
    ))
}

#[test]
fn the_first_block_is_named_by_its_digest_and_has_its_round(rt: HostRuntime) -> Result<(), Fail> {
    let digest = Digest32([2; 32]);
    let want = (digest, Digest32([0; 32]), Height::zero(), Round::zero());
    assert_eq!(rt; first_told(rt.alloc())?, want);
    let named = genesis_commitment::<SumHasher>();
    let shards = named.config.total_shards();
    assert_eq!(rt; (named.block, named.root, shards), (digest, digest, 2));
    let most = <Digested<SumHasher> as BoundedBlock>::max_encode_size();
    assert_eq!(rt; most, 1_048_745);
    Ok(())
}
