//! A replica over a disk in memory, and what it answers, as text.

use cw_base::Sha256;
use cw_ledger::{Applied, Replica};
use cw_types::{ChainBlock, Context, Payload, genesis_commitment};
use node_disk::{MemoryDisk, StoreError};
use std::alloc::Global;
use std::fmt::Debug;
use std::marker::Model;
use std::test::Fail;

/// A call of a replica.
#[derive(Clone, Copy)]
pub(crate) enum LedgerCall {
    /// Applies a block of a height without transfers.
    Empty(u64),
    /// Applies a block of a height with one transfer: from, to and amount.
    Pass(u64, u32, u32, u64),
    /// The height that was applied last.
    Height,
    /// What an account has.
    Balance(u32),
    /// The accounts that hold something.
    Holdings,
    /// Its disk is to stop at a device call from now, behind so many bytes.
    StopAt(u64, u64),
    /// Drops such a stop.
    Disarm,
    /// How many bytes a read of its disk gives.
    Bytes,
    /// Starts it on its disk again: the height that it finds.
    Restart,
}

/// A replica. What contracts see of it says nothing.
#[derive(Drop)]
pub(crate) struct Book {
    replica: Replica<MemoryDisk>,
}

impl Model for Book {
    ghost Value = { Unit {0} };

    ghost view = { λ _. tt };
}

impl Book {
    /// Over a new disk.
    pub(crate) fn new(alloc: Global) -> Result<Book, Fail> {
        Book::on(alloc, MemoryDisk::new(alloc, Vec::new(alloc)))
    }

    fn on(alloc: Global, disk: MemoryDisk) -> Result<Book, Fail> {
        match Replica::start(alloc, disk) {
            Ok(replica) => Ok(Book { replica }),
            Err((_, error)) => Err(Fail::from(error)),
        }
    }

    /// Started again on its disk.
    pub(crate) fn restart(self, alloc: Global) -> Result<Book, Fail> {
        Book::on(alloc, self.replica.into_disk().reopen())
    }

    /// What accounts 0, 7 and 8 have.
    pub(crate) fn balances(&self) -> (u64, u64, u64) {
        (
            self.replica.balance(0),
            self.replica.balance(7),
            self.replica.balance(8),
        )
    }

    /// Applies a block of a height.
    pub(crate) fn apply(
        &mut self,
        alloc: Global,
        height: u64,
        payload: &[u8],
    ) -> Result<Result<Applied, StoreError>, Fail> {
        let block = block(alloc, height, payload)?;
        Ok(self.replica.apply(alloc, &block))
    }

    /// Its disk stops at a device call from now, behind so many bytes.
    pub(crate) fn stop_at(&mut self, call: u64, cut: u64) {
        self.replica.stop_at(call, cut, 0);
    }

    fn disarm(&mut self) {
        self.replica.disarm();
    }

    // What a call says that only reads.
    fn told(&self, alloc: Global, call: LedgerCall) -> Result<String, Fail> {
        match call {
            LedgerCall::Balance(account) => text(alloc, self.replica.balance(account)),
            LedgerCall::Holdings => text(alloc, self.replica.holdings(alloc)?.as_slice()),
            LedgerCall::Bytes => text(alloc, self.replica.bytes().len()),
            _ => text(alloc, self.replica.height()),
        }
    }

    /// What a call answers. A start is done before.
    pub(crate) fn answer(&mut self, alloc: Global, call: LedgerCall) -> Result<String, Fail> {
        match call {
            LedgerCall::Empty(height) => text(alloc, self.apply(alloc, height, &[])?),
            LedgerCall::Pass(height, from, to, amount) => {
                let payload = transfer(from, to, amount);
                text(alloc, self.apply(alloc, height, &payload)?)
            }
            LedgerCall::StopAt(call, cut) => text(alloc, self.stop_at(call, cut)),
            LedgerCall::Disarm => text(alloc, self.disarm()),
            _ => self.told(alloc, call),
        }
    }
}

/// An answer as text.
pub(crate) fn text<D: Debug + Drop>(alloc: Global, answer: D) -> Result<String, Fail> {
    Ok(format!(in alloc; "{answer:?}")?)
}

/// A transfer in bytes.
pub(crate) fn transfer(from: u32, to: u32, amount: u64) -> [u8; 16] {
    let mut bytes = [0; 16];
    bytes[..4].copy_from_slice(&from.to_be_bytes());
    bytes[4..8].copy_from_slice(&to.to_be_bytes());
    bytes[8..].copy_from_slice(&amount.to_be_bytes());
    bytes
}

// A block of a height.
fn block(alloc: Global, height: u64, payload: &[u8]) -> Result<ChainBlock, Fail> {
    let parent = genesis_commitment::<Sha256>();
    let context = Context {
        epoch: 0,
        view: height,
        leader: 1,
        parent_view: 0,
        parent,
    };
    let Ok(payload) = Payload::new(Vec::from_slice(alloc, payload)?) else {
        return Err("a short payload".into());
    };
    if height == u64::MAX {
        return Err("a height that a block may have".into());
    }
    Ok(ChainBlock::new(context, parent.block, height, payload))
}
