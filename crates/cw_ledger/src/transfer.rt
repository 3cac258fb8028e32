//! Transfers, and how a payload spells them.

ghost use Rattle.std.specs.Prelude.{◌≡◌, ◌*◌, ◌+◌, ◌≤◌, IfOk, drop, length};
ghost use Rattle.cw_ledger.specs.Transfers.{transfer_at, transfers};

use cw_base::{NoMemory, Reader};
use std::alloc::Global;

/// An amount that goes from one account to another. In a payload it takes 16 bytes: 4 for `from`, 4
/// for `to`, 8 for `amount`, the high byte first.
#[derive(Clone, Copy, Debug, PartialEq, Eq)]
pub struct Transfer {
    /// The account that pays.
    pub from: u32,
    /// The account that is paid.
    pub to: u32,
    /// How much.
    pub amount: u64,
}

impl Transfer {
    /// How many bytes a transfer takes.
    pub const SIZE: usize = 16;

    // The transfer that the first sixteen bytes say.
    fn at(bytes: &[u8]) -> Transfer
        requires { 16 ≤ length bytes.now }
        ensures { result ≡ transfer_at bytes.now }
    {
        let (from, rest) = bytes.split_first_chunk::<4>().unwrap();
        let (to, rest) = rest.split_first_chunk::<4>().unwrap();
        let (amount, _) = rest.split_first_chunk::<8>().unwrap();
        Transfer {
            from: u32::from_be_bytes(*from),
            to: u32::from_be_bytes(*to),
            amount: u64::from_be_bytes(*amount),
        }
    }
}

/// The transfers of a payload, in order: one for each sixteen bytes, and none where its length
/// isn't a multiple of sixteen.
#[tactic(auto, unfolding(crate::specs::Transfers::transfers))]
pub fn transfers_of(alloc: Global, payload: &[u8]) -> Result<Vec<Transfer>, NoMemory>
    ensures { IfOk result (λ found. found.items ≡ transfers payload.now) }
{
    let mut found = Vec::new(alloc);
    if payload.len() % Transfer::SIZE != 0 {
        return Ok(found);
    }
    for index in 0..payload.len() / Transfer::SIZE {
        found.push(Transfer::at(&payload[index * Transfer::SIZE..]))?;
    }
    Ok(found)
}
