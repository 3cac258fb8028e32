//! Payloads as the frames of a log, and read back from them.

ghost use Rattle.std.specs.Prelude.{◌≡◌, ℕ, [], IfOk, OnOk, option_map};
ghost use Rattle.cw_base.specs.ReadsBack.{IsBytes};
ghost use Rattle.cw_ledger.specs.Frames.{payload_in};
ghost use Rattle.cw_ledger.specs.Kept.{KeepBalances, amount_in};
ghost use Rattle.cw_ledger.specs.Ledger.{frame_of};
ghost use Rattle.cw_ledger.specs.Transfers.{moved_all, transfers};

use crate::balances::Balances;
use crate::transfer::transfers_of;
use cw_base::{NoMemory, Reader, put_be64, put_bytes};
use node_disk::Records;
use std::alloc::Global;

/// The frame of a block of this height.
pub(crate) fn frame_of(alloc: Global, height: u64, payload: &[u8]) -> Result<Vec<u8>, NoMemory>
    ensures { IfOk result (λ frame. frame.items ≡ frame_of (height, payload.now)) }
{
    let mut frame = Vec::new(alloc);
    put_be64(&mut frame, height)?;
    put_bytes(&mut frame, payload)?;
    Ok(frame)
}

// The payload in a frame of this height.
fn payload_in(frame: &[u8], height: u64) -> Option<&[u8]>
    ensures { option_map (λ payload. payload.now) result ≡ payload_in height frame.now }
{
    let mut reader = Reader::new(frame);
    match reader.be64() {
        Ok(found) if found == height => Some(reader.rest()),
        _ => None,
    }
}

// A law: each item of a slice of bytes is below 256.
fn are_bytes(bytes: &[u8])
    ensures { IsBytes bytes.now }
{
    let _bytes = bytes;
}

/// What the frames of a log leave, while they are read.
#[derive(Drop)]
pub(crate) struct Loading {
    balances: Balances,
    // how many were read
    count: u64,
}

impl Loading {
    /// Before the first frame.
    pub(crate) fn new(alloc: Global) -> Result<Loading, NoMemory>
        ensures { IfOk result (λ loading. KeepBalances [] loading.balances × (loading.count ≡ 0)) }
    {
        let balances = Balances::new(alloc)?;
        Ok(Loading { balances, count: 0 })
    }

    /// The balances after those that were read.
    pub(crate) fn into_balances(self) -> Balances
        ensures { result ≡ self.balances }
    {
        let Loading { balances, count: _ } = self;
        balances
    }
}

impl Records for Loading {
    ghost use Rattle.cw_ledger.specs.Loading.{HaveLeft, is_payload};

    ghost is_record = { is_payload };

    ghost keeps = { HaveLeft };

    fn read(&mut self, alloc: Global, frame: &[u8]) -> Result<bool, NoMemory> {
        are_bytes(frame);
        let Some(payload) = payload_in(frame, self.count) else {
            return Ok(false);
        };
        // No memory holds so many frames.
        let Some(count) = self.count.checked_add(1) else {
            return Err(NoMemory);
        };
        take_payload(alloc, &mut self.balances, payload)?;
        self.count = count;
        Ok(true)
    }
}

// Passes the transfers of a payload.
fn take_payload(alloc: Global, balances: &mut Balances, payload: &[u8]) -> Result<(), NoMemory>
    ensures { OnOk result ((account : ℕ)
        → amount_in balances.new account ≡ moved_all (amount_in balances.old)
        (transfers payload.now) account) }
{
    let transfers = transfers_of(alloc, payload)?;
    balances.make_room(&transfers)?;
    balances.pass_all(&transfers);
    Ok(())
}
