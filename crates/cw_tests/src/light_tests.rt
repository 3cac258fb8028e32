//! Tests of the light client's check: a finalization among four members, paths down from it, and
//! what is told of each.

use cw_base::{Digest32, Hasher, Items, Sequential, Sha256};
use cw_light::{Answer, light_check};
use cw_types::{
    Cert, ChainBlock, Commitment, Committees, Context, Payload, Proposal, Verifier, Vote, commit,
    genesis, genesis_commitment,
};
use std::alloc::Global;
use std::test::Fail;
use std::thread::Threads;

// Members 0 to 2 sign everything.
struct LowSign;

impl Verifier for LowSign {
    ghost use Rattle.std.specs.Prelude.{nat_lt};

    ghost signs = { λ verifier member vote. nat_lt member 3 };

    fn signed(&self, member: u16, _vote: &Vote) -> bool {
        member < 3
    }
}

fn first(alloc: Global) -> ChainBlock {
    genesis::<Sha256>(alloc)
}

// A block over another, in the view of its height and proposed by its leader.
fn over(
    alloc: Global,
    height: u64,
    below: &Commitment,
    payload: &[u8],
) -> Result<ChainBlock, Fail> {
    let context = Context {
        epoch: 0,
        view: height,
        leader: (height % 4) as u16,
        parent_view: height.saturating_sub(1),
        parent: *below,
    };
    match Payload::new(Vec::from_slice(alloc, payload)?) {
        Ok(payload) if height < u64::MAX => {
            Ok(ChainBlock::new(context, below.block, height, payload))
        }
        _ => Err("a low block of a short payload".into()),
    }
}

fn second(alloc: Global) -> Result<ChainBlock, Fail> {
    over(alloc, 1, &genesis_commitment::<Sha256>(), b"hi")
}

// What names a block.
fn named<R: Threads + Sync>(rt: &R, alloc: Global, block: &ChainBlock) -> Result<Commitment, Fail> {
    Ok(commit::<Sha256, R, _>(rt, alloc, 4, block, &Sequential)?)
}

// The block that is told of: by its height the first, the second or the third, and in tens another
// of that height.
fn block_of<R: Threads + Sync>(rt: &R, alloc: Global, place: u8) -> Result<ChainBlock, Fail> {
    match place {
        0 => Ok(first(alloc)),
        1 => second(alloc),
        2 => over(alloc, 2, &named(rt, alloc, &second(alloc)?)?, b"hi"),
        10 => over(alloc, 0, &genesis_commitment::<Sha256>(), b"hi"),
        11 => over(alloc, 1, &genesis_commitment::<Sha256>(), b"ho"),
        _ => Err("a block of the tests".into()),
    }
}

// The blocks of a path.
fn path_of<R: Threads + Sync>(
    rt: &R,
    alloc: Global,
    places: &[u8],
) -> Result<Vec<ChainBlock>, Fail> {
    let mut path = Vec::new(alloc);
    for place in places {
        path.push(block_of(rt, alloc, *place)?)?;
    }
    Ok(path)
}

// A vote for the block of that height.
fn vote_for<R: Threads + Sync>(
    rt: &R,
    alloc: Global,
    is_final: bool,
    height: u8,
) -> Result<Vote, Fail> {
    let view = u64::from(height);
    let proposal = Proposal {
        epoch: 0,
        view,
        parent: view.saturating_sub(1),
        payload: named(rt, alloc, &block_of(rt, alloc, height)?)?,
    };
    if is_final {
        Ok(Vote::Finalize(proposal))
    } else {
        Ok(Vote::Notarize(proposal))
    }
}

// What is told about a certificate of these signers, and a path of these blocks.
fn told<R: Threads + Sync>(
    rt: &R,
    alloc: Global,
    vote: Vote,
    signers: &[u16],
    places: &[u8],
) -> Result<Answer, Fail> {
    let committees = Committees::single(alloc, 4)?;
    let signers = Items::from_vec(Vec::from_slice(alloc, signers)?);
    let path = path_of(rt, alloc, places)?;
    let cert = Cert { vote, signers };
    Ok(light_check::<Sha256, R, _, _>(rt, alloc, &committees, &cert, &path, &LowSign, &Sequential)?)
}

// The digest of a block.
fn digest(alloc: Global, block: &ChainBlock) -> Result<Digest32, Fail> {
    let mut bytes = Vec::new(alloc);
    block.write(&mut bytes)?;
    Ok(Sha256::hash(&bytes))
}

#[test]
fn each_answer_is_told(rt: HostRuntime) -> Result<(), Fail> {
    let alloc = rt.alloc();
    let low = digest(alloc, &first(alloc))?;
    let high = digest(alloc, &second(alloc)?)?;
    let all: &[u16] = &[0, 1, 2];
    for (is_final, signers, heights, want) in [
        (true, all, [].as_slice(), Answer::EmptyPath),
        (true, all, &[0], Answer::Broken(0)),
        (true, all, &[1, 1], Answer::Broken(1)),
        (true, &[0, 1], &[1], Answer::BadSigners),
        (true, &[0, 2, 1], &[1], Answer::BadSigners),
        (true, &[0, 1, 3], &[1], Answer::BadSigners),
        (true, &[0, 1, 2, 4], &[1], Answer::BadSigners),
        (false, all, &[1], Answer::NotFinal),
        (false, &[0], &[1], Answer::NotFinal),
        (
            true,
            all,
            &[1],
            Answer::Yes {
                height: 1,
                digest: high,
            },
        ),
        (
            true,
            all,
            &[1, 0],
            Answer::Yes {
                height: 0,
                digest: low,
            },
        ),
        (true, all, &[1, 0, 0], Answer::Broken(2)),
    ] {
        let vote = vote_for(&rt, alloc, is_final, 1)?;
        assert!(rt; told(&rt, alloc, vote, signers, heights)? == want);
    }
    Ok(())
}

// A finalization of the third block, and paths in which a block of the right height isn't the
// parent that the one above it names.
#[test]
fn a_path_goes_from_parent_to_parent(rt: HostRuntime) -> Result<(), Fail> {
    let alloc = rt.alloc();
    for (places, want) in [
        ([2, 1, 0].as_slice(), None),
        (&[2, 11], Some(1)),
        (&[2, 1, 10], Some(2)),
        (&[2, 0], Some(1)),
        (&[11], Some(0)),
    ] {
        let vote = vote_for(&rt, alloc, true, 2)?;
        assert_eq!(rt; broken(told(&rt, alloc, vote, &[0, 1, 2], places)?), want);
    }
    Ok(())
}

// The place where a path is told to be broken.
fn broken(answer: Answer) -> Option<u64> {
    match answer {
        Answer::Broken(place) => Some(place),
        _ => None,
    }
}
