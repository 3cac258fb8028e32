//! The text of the replicas: a line for each, and one for each account that holds something.

ghost use Rattle.std.specs.Prelude.{◌≡◌, ◌++◌, IfOk, OnOk, string_bytes, length, map};
ghost use Rattle.std.specs.List.{flat_map};
ghost use Rattle.run_ledger.specs.Text as spec;

use cw_base::NoMemory;
use cw_ledger::{Holding, Replica};
use hail_report::Acked;
use node_disk::MemoryDisk;
use std::alloc::Global;

/// What the replicas of the honest members came to, by member.
pub(crate) fn ledger_text(
    alloc: Global,
    members: &[Acked],
    replicas: &[Replica<MemoryDisk>],
) -> Result<Vec<u8>, NoMemory>
    requires { length members.now ≡ length replicas.now }
    ensures { IfOk result (λ text. text.items
        ≡ spec.ledger_text (map (λ a. a.member) members.now) (map (λ r. r.payloads) replicas.now)) }
{
    let mut out = String::new(alloc);
    for index in 0..members.len() {
        let acked = &members[index];
        let replica = &replicas[index];
        put_replica(alloc, &mut out, acked.member, replica)?;
    }
    Ok(out.into_bytes())
}

fn put_replica(
    alloc: Global,
    out: &mut String,
    member: u16,
    replica: &Replica<MemoryDisk>,
) -> Result<(), NoMemory>
    ensures { OnOk result (string_bytes out.new
        ≡ string_bytes out.old ++ spec.replica_text member replica.now.payloads) }
{
    put_height(out, member, replica.height())?;
    let holdings = replica.holdings(alloc)?;
    put_holdings(out, member, holdings.as_slice())?;
    Ok(())
}

#[tactic(auto, unfolding(crate::specs::Text::height_line))]
fn put_height(out: &mut String, member: u16, height: Option<u64>) -> Result<(), NoMemory>
    ensures { OnOk result
        (string_bytes out.new ≡ string_bytes out.old ++ spec.height_line member height) }
{
    match height {
        Some(height) => write!(out, "ledger {member} {height}\n")?,
        None => write!(out, "ledger {member} none\n")?,
    }
    Ok(())
}

fn put_holdings(out: &mut String, member: u16, holdings: &[Holding]) -> Result<(), NoMemory>
    ensures { OnOk result (string_bytes out.new
        ≡ string_bytes out.old ++ flat_map (spec.balance_line member) holdings.now) }
{
    for holding in holdings {
        put_holding(out, member, holding)?;
    }
    Ok(())
}

#[tactic(auto, unfolding(crate::specs::Text::balance_line))]
fn put_holding(out: &mut String, member: u16, holding: &Holding) -> Result<(), NoMemory>
    ensures { OnOk result
        (string_bytes out.new ≡ string_bytes out.old ++ spec.balance_line member holding.now) }
{
    let account = holding.account;
    let amount = holding.amount;
    write!(out, "balance {member} {account} {amount}\n")?;
    Ok(())
}
