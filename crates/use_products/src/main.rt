//! What stands above a chain: a replica of the ledger, an archive of chunks and a light client,
//! over one block and a finalization of it.
#![tactic(auto)]

use anyhow::{Context, Result};
use cw_archive::Archive;
use cw_base::{Items, Sequential, Sha256};
use cw_ledger::Replica;
use cw_light::{Answer, light_check};
use cw_types::{Cert, ChainBlock, Committees, Payload, Proposal, Verifier, Vote};
use node_disk::MemoryDisk;
use std::alloc::Global;
use std::thread::Threads;

// The verifier: members 0 to 2 signed this vote, and nobody signed another.
#[derive(Clone, Copy)]
struct Signed(Vote);

impl Verifier for Signed {
    ghost use Rattle.std.specs.Prelude.{◌&&◌, nat_lt};
    ghost use Rattle.cw_types.specs.Same.{same_vote};

    ghost signs = { λ signed member vote. nat_lt member 3 && same_vote signed.0 vote };

    fn signed(&self, member: u16, vote: &Vote) -> bool {
        member < 3 && self.0.is_same(vote)
    }
}

// A replica takes the blocks by their heights, each once. What it answers `Done` is on its disk.
fn ledger(rt: &impl Print, alloc: Global, block: &ChainBlock) -> Result<u64> {
    let disk = MemoryDisk::new(alloc, Vec::new(alloc));
    let mut replica = Replica::start(alloc, disk).map_err(|(_disk, error)| error)?;
    for one in [block, &cw_types::genesis::<Sha256>(alloc), block, block] {
        println!(rt; "height {}: {:?}", one.height(), replica.apply(alloc, one)?)?;
    }
    let disk = replica.into_disk().reopen();
    let again = Replica::start(alloc, disk).map_err(|(_disk, error)| error)?;
    Ok(again.balance(7))
}

// An archive keeps the newest chunks. Any two of the four give the block back.
fn archive(rt: &(impl Print + Threads + Sync), alloc: Global, block: &ChainBlock) -> Result<bool> {
    let cut = cw_types::commit_with_chunks::<Sha256, _, _>(rt, alloc, 4, block, &Sequential)?;
    let (named, chunks) = cut;
    let mut archive = Archive::<Sha256>::new(alloc, 250)?;
    for chunk in chunks {
        let answer = archive.put(rt, &named, chunk, &Sequential)?;
        println!(rt; "{answer:?}, {} bytes in all", archive.used())?;
    }
    let shown = archive.get(rt, alloc, &named, &Sequential)?;
    Ok(shown.as_ref() == Some(block))
}

// A light client holds no chain: it takes a quorum's word for the first block that it is shown, and
// hashes for those below. Then member 3, which signed nothing, is named as a signer too.
fn light(rt: &(impl Print + Threads + Sync), alloc: Global, block: ChainBlock) -> Result<()> {
    let all = Committees::single(alloc, 4)?;
    let vote = Vote::Finalize(Proposal {
        epoch: 0,
        view: 1,
        parent: 0,
        payload: cw_types::commit::<Sha256, _, _>(rt, alloc, 4, &block, &Sequential)?,
    });
    let (signed, path) = (Signed(vote), [block]);
    let signers = Items::from_vec(Vec::from_slice(alloc, &[0, 1, 2])?);
    let mut cert = Cert { vote, signers };
    let told = light_check::<Sha256, _, _, _>(rt, alloc, &all, &cert, &path, &signed, &Sequential)?;
    if let Answer::Yes { height, digest } = told {
        println!(rt; "height {height} is {digest}")?;
    }
    cert.signers.push(3)?;
    let told = light_check::<Sha256, _, _, _>(rt, alloc, &all, &cert, &path, &signed, &Sequential)?;
    println!(rt; "with a signer who signed nothing: {told:?}")?;
    Ok(())
}

// One block, which member 1 proposes in view 1 over genesis.
fn main(rt: HostRuntime) -> Result<()> {
    let alloc = rt.alloc();
    // Its payload is a transfer of 5 from account 0 to account 7: two numbers of 4 bytes, one of 8.
    let bytes = vec![in alloc; 0, 0, 0, 0, 0, 0, 0, 7, 0, 0, 0, 0, 0, 0, 0, 5]?;
    let payload = Payload::new(bytes).ok().context("too long a payload")?;
    let place = cw_types::Context {
        epoch: 0,
        view: 1,
        leader: 1,
        parent_view: 0,
        parent: cw_types::genesis_commitment::<Sha256>(),
    };
    let block = ChainBlock::new(place, place.parent.block, 1, payload);
    let balance = ledger(&rt, alloc, &block)?;
    println!(rt; "account 7 has {balance} after a restart")?;
    println!(rt; "they show the block: {}", archive(&rt, alloc, &block)?)?;
    light(&rt, alloc, block)
}
