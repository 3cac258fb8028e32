//! Tests of a replica of the ledger: worked transfers, damaged disks, and a stop at each device
//! call.

mod book;

use crate::disk_tests::disk_of;
use crate::tables::case_in;
use book::LedgerCall::{Balance, Bytes, Disarm, Empty, Height, Holdings, Pass, Restart, StopAt};
use book::{Book, LedgerCall, transfer};
use cw_ledger::{Replica, transfers_of};
use node_disk::StoreError;
use std::alloc::Global;
use std::test::Fail;

// The first call of a table that a replica answers otherwise, with that answer.
fn first_wrong(
    alloc: Global,
    mut book: Book,
    table: &[(LedgerCall, &str)],
) -> Result<Option<(usize, String)>, Fail> {
    for (place, (call, want)) in table.iter().enumerate() {
        if matches!(call, LedgerCall::Restart) {
            book = book.restart(alloc)?;
        }
        let said = book.answer(alloc, *call)?;
        if said.as_str() != *want {
            return Ok(Some((place, said)));
        }
    }
    Ok(None)
}

// A replica with heights 0 and 1, the second of which gives 5 to account 7.
fn two_heights(alloc: Global) -> Result<Book, Fail> {
    let mut book = Book::new(alloc)?;
    let _first = book.apply(alloc, 0, &[])?;
    let _second = book.apply(alloc, 1, &transfer(0, 7, 5))?;
    Ok(book)
}

const IN_ORDER: [(LedgerCall, &str); 14] = [
    (Height, "None"),
    (Balance(0), "1000000000"),
    (Empty(1), "Ok(Gap(0))"),
    (Empty(0), "Ok(Done)"),
    (Pass(1, 0, 7, 5), "Ok(Done)"),
    (Pass(1, 0, 7, 5), "Ok(Known)"),
    (Empty(3), "Ok(Gap(2))"),
    (Height, "Some(1)"),
    (Balance(0), "999999995"),
    (Balance(7), "5"),
    (Bytes, "51"),
    (Restart, "Some(1)"),
    (Balance(7), "5"),
    (
        Holdings,
        "[Holding { account: 0, amount: 999999995 }, Holding { account: 7, amount: 5 }]",
    ),
];

#[test]
fn blocks_are_applied_in_order_and_once(rt: HostRuntime) -> Result<(), Fail> {
    let alloc = rt.alloc();
    let book = Book::new(alloc)?;
    assert_eq!(rt; first_wrong(alloc, book, &IN_ORDER)?, None);
    Ok(())
}

// After a stop each call answers that an earlier one failed.
const FAILED: [(LedgerCall, &str); 4] = [
    (StopAt(1, 0), "()"),
    (Empty(2), "Err(Disk)"),
    (Empty(2), "Err(Failed)"),
    (Empty(0), "Err(Failed)"),
];

const DISARMED: [(LedgerCall, &str); 4] = [
    (StopAt(1, 0), "()"),
    (Disarm, "()"),
    (Empty(2), "Ok(Done)"),
    (Height, "Some(2)"),
];

#[test]
fn a_stop_that_is_reached_fails_each_later_call(rt: HostRuntime) -> Result<(), Fail> {
    let alloc = rt.alloc();
    for table in [&FAILED, &DISARMED] {
        let book = two_heights(alloc)?;
        assert_eq!(rt; first_wrong(alloc, book, table)?, None);
    }
    Ok(())
}

// What accounts 0, 7 and 8 have after one more payload.
fn after(alloc: Global, payload: &[u8]) -> Result<(u64, u64, u64), Fail> {
    let mut book = two_heights(alloc)?;
    let _applied = book.apply(alloc, 2, payload)?;
    Ok(book.balances())
}

#[test]
fn a_transfer_passes_where_the_balance_is_there(rt: HostRuntime) -> Result<(), Fail> {
    let alloc = rt.alloc();
    for ((from, to, amount), want) in [
        ((7, 8, 6), (999_999_995, 5, 0)),
        ((7, 8, 5), (999_999_995, 0, 5)),
        ((7, 8, 0), (999_999_995, 5, 0)),
        ((8, 7, 0), (999_999_995, 5, 0)),
        ((7, 7, 5), (999_999_995, 5, 0)),
        ((0, 8, 999_999_995), (0, 5, 999_999_995)),
        ((0, 8, u64::MAX), (999_999_995, 5, 0)),
    ] {
        assert_eq!(rt; after(alloc, &transfer(from, to, amount))?, want);
    }
    Ok(())
}

// The bytes of two transfers, and one byte more.
fn two_transfers(alloc: Global) -> Result<Vec<u8>, Fail> {
    let mut bytes = Vec::from_slice(alloc, &transfer(7, 8, 4))?;
    bytes.extend_from_slice(&transfer(8, 0, 3))?;
    bytes.push(0)?;
    Ok(bytes)
}

// How many transfers a part of those bytes holds, and what the accounts have after it.
fn part(alloc: Global, length: usize) -> Result<(usize, (u64, u64, u64)), Fail> {
    let bytes = two_transfers(alloc)?;
    let Some(payload) = bytes.get(..length) else {
        return Err("so many bytes".into());
    };
    Ok((transfers_of(alloc, payload)?.len(), after(alloc, payload)?))
}

#[test]
fn a_payload_of_another_length_has_no_transfers(rt: HostRuntime) -> Result<(), Fail> {
    for (length, count, want) in [
        (15, 0, (999_999_995, 5, 0)),
        (16, 1, (999_999_995, 1, 4)),
        (17, 0, (999_999_995, 5, 0)),
        (32, 2, (999_999_998, 1, 1)),
        (33, 0, (999_999_995, 5, 0)),
    ] {
        assert_eq!(rt; part(rt.alloc(), length)?, (count, want), "{length}");
    }
    Ok(())
}

// What a start finds on a disk of these bytes.
fn found(alloc: Global, bytes: &[u8]) -> Result<Result<Option<u64>, StoreError>, Fail> {
    match Replica::start(alloc, disk_of(alloc, bytes)?) {
        Ok(replica) => Ok(Ok(replica.height())),
        Err((_, error)) => Ok(Err(error)),
    }
}

// Whether that is found on a disk of a line of the table.
fn is_found(alloc: Global, line: &str) -> Result<bool, Fail> {
    let case = case_in(alloc, line)?;
    let found = book::text(alloc, found(alloc, &case.bytes)?)?;
    Ok(found.as_str() == case.want)
}

// Each frame stands behind a 1 and its length, and begins with a height.
const FOUND: &str = "\
heights 0 and 1: 1 0*7 8 0*8 1 0*7 9 0*7 1 9 0: Ok(Some(1))
a short frame: 1 0*7 7 0*7 0: Err(Foreign(0))
height 0 and a short frame: 1 0*7 8 0*8 1 0*7 7 0*7 0: Err(Foreign(17))
height 1: 1 0*7 9 0*7 1 9 0: Err(Foreign(0))
heights 0 and 2: 1 0*7 8 0*8 1 0*7 8 0*7 2 0: Err(Foreign(17))
heights 0, 1 and 1: 1 0*7 8 0*8 1 0*7 9 0*7 1 9 1 0*7 9 0*7 1 9 0: Err(Foreign(35))
";

#[test]
fn a_start_names_the_first_frame_that_is_none_of_its_own(rt: HostRuntime) -> Result<(), Fail> {
    let mut count = 0u8;
    for line in FOUND.lines() {
        assert!(rt; is_found(rt.alloc(), line)?, "{line}");
        count = count.wrapping_add(1);
    }
    assert_eq!(rt; count, 6);
    Ok(())
}

// Stops an apply at a device call, and gives what account 7 has before the restart and after it.
fn stopped(alloc: Global, call: u64, cut: u64) -> Result<(u64, u64), Fail> {
    let mut book = two_heights(alloc)?;
    book.stop_at(call, cut);
    let _answer = book.apply(alloc, 2, &transfer(0, 7, 1))?;
    let (_, before, _) = book.balances();
    let (_, found, _) = book.restart(alloc)?.balances();
    Ok((before, found))
}

#[test]
fn a_stop_leaves_what_was_before_or_what_is_after(rt: HostRuntime) -> Result<(), Fail> {
    for (call, cut, want) in [
        (1, 0, (5, 5)),
        (1, 9, (5, 5)),
        (2, 0, (5, 5)),
        (3, 0, (5, 5)),
        (3, 1, (5, 6)),
        (4, 0, (5, 5)),
        (4, 1, (5, 6)),
        (5, 0, (6, 6)),
    ] {
        assert_eq!(rt; stopped(rt.alloc(), call, cut)?, want);
    }
    Ok(())
}
