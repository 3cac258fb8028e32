//! Replicas that are given the blocks of a chain, by the heights that were handed out.

ghost use Rattle.std.specs.Prelude.{◌≡◌, [], IfOk, OnOk, map};
ghost use Rattle.std.specs.List.{AllByRecursion};
ghost use Rattle.run_ledger.specs.Giving.{given_all, given_one, all_replica_payloads};
ghost use Rattle.run_ledger.specs.Giving.{replica_payloads};
ghost use Rattle.run_ledger.specs.Ledgers.{NeverFails, handed_in_entries};
ghost use Rattle.hail_world.specs.Reports.{shown_report};

use cw_base::{Digest32, Hasher, Items, NoMemory};
use cw_ledger::Replica;
use cw_types::{ChainBlock, Handed};
use hail_report::Entry;
use hail_world::Report;
use node::Chunked;
use node_disk::{MemoryDisk, StoreError};
use std::alloc::Global;

/// The replicas of the honest members, by number: each was given the link of each height that was
/// handed out to its member, in the report's order.
#[tactic(auto, using(crate::proofs::Meaning::all_push))]
pub(crate) fn replicas_of<H: Hasher<Digest = Digest32>>(
    alloc: Global,
    report: &Report<H, Chunked>,
) -> Result<Items<Replica<MemoryDisk>>, NoMemory>
    ensures given { IfOk result (λ replicas. map (λ r. r.payloads) replicas
        ≡ all_replica_payloads (shown_report report.now)) }
    ensures works { IfOk result (λ replicas. AllByRecursion NeverFails replicas) }
{
    let mut replicas = Items::new(alloc);
    for acked in report.acked.as_slice() {
        replicas.push(replica_of::<H>(alloc, report, acked.member)?)?;
    }
    Ok(replicas)
}

// The replica of a member.
fn replica_of<H: Hasher<Digest = Digest32>>(
    alloc: Global,
    report: &Report<H, Chunked>,
    member: u16,
) -> Result<Replica<MemoryDisk>, NoMemory>
    ensures given { IfOk result (λ replica. replica.payloads
        ≡ replica_payloads (shown_report report.now) member) }
    ensures works { IfOk result (λ replica. NeverFails replica) }
{
    let chain = report.chain.as_slice();
    let mut replica = empty_replica(alloc)?;
    give_entries(
        alloc,
        &mut replica,
        chain,
        member,
        report.opening.as_slice(),
    )?;
    give_entries(alloc, &mut replica, chain, member, report.steps.as_slice())?;
    Ok(replica)
}

// A replica on an empty disk in memory, no call of which is to fail.
fn empty_replica(alloc: Global) -> Result<Replica<MemoryDisk>, NoMemory>
    ensures empty { IfOk result (λ replica. replica.payloads ≡ []) }
    ensures works { IfOk result (λ replica. NeverFails replica) }
{
    match Replica::start(alloc, MemoryDisk::new(alloc, Vec::new(alloc))) {
        Ok(replica) => Ok(replica),
        Err((_, StoreError::NoMemory)) => Err(NoMemory),
        Err((_, StoreError::Disk)) => unreachable!(),
        Err((_, StoreError::Failed)) => unreachable!(),
        Err((_, StoreError::Foreign(_))) => unreachable!(),
    }
}

// Gives what some entries handed out to a member.
fn give_entries(
    alloc: Global,
    replica: &mut Replica<MemoryDisk>,
    chain: &[ChainBlock],
    member: u16,
    entries: &[Entry],
) -> Result<(), NoMemory>
    requires { NeverFails replica.old }
    ensures given { OnOk result (replica.new.payloads
        ≡ given_all chain.now replica.old.payloads (handed_in_entries member entries.now)) }
    ensures works { OnOk result (NeverFails replica.new) }
{
    for entry in entries {
        if entry.member == Some(member) {
            give_handed(alloc, replica, chain, entry.handed.as_slice())?;
        }
    }
    Ok(())
}

// Gives the links of the heights that were handed out.
fn give_handed(
    alloc: Global,
    replica: &mut Replica<MemoryDisk>,
    chain: &[ChainBlock],
    handed: &[Handed],
) -> Result<(), NoMemory>
    requires { NeverFails replica.old }
    ensures given { OnOk result (replica.new.payloads
        ≡ given_all chain.now replica.old.payloads (map (λ h. h.height) handed.now)) }
    ensures works { OnOk result (NeverFails replica.new) }
{
    for block in handed {
        give_link(alloc, replica, chain, block.height)?;
    }
    Ok(())
}

// Gives the link of a height.
fn give_link(
    alloc: Global,
    replica: &mut Replica<MemoryDisk>,
    chain: &[ChainBlock],
    height: u64,
) -> Result<(), NoMemory>
    requires { NeverFails replica.old }
    ensures given { OnOk result (replica.new.payloads
        ≡ given_one chain.now replica.old.payloads height) }
    ensures works { OnOk result (NeverFails replica.new) }
{
    let Some(link) = chain.get(height as usize) else {
        return Ok(());
    };
    match replica.apply(alloc, link) {
        Ok(_) => Ok(()),
        Err(StoreError::NoMemory) => Err(NoMemory),
        Err(StoreError::Disk) => unreachable!(),
        Err(StoreError::Failed) => unreachable!(),
        Err(StoreError::Foreign(_)) => unreachable!(),
    }
}
