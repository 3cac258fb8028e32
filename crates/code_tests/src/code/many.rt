//! Recoveries of many rows, against an independent program. From 64 originals and 64 recoveries on
//! they are made by another body than of fewer.

use super::plain::{is_joined, originals_of, with_recoveries};
use super::*;
use cw_base::{Digest, Hasher, Sha256};

// Whether the recoveries of a part of the table have the digest that stands there, also where
// several stripes are worked on, and stand behind the originals where they are added.
fn are_recoveries<R: Threads + Sync>(rt: &R, alloc: Global, part: &str) -> Result<bool, Fail> {
    let (head, digest) = head_and_rest(part)?;
    let want = bytes_of(alloc, digest)?;
    let numbers = numbers_of(alloc, head)?;
    let [k, m, width] = numbers.as_slice() else {
        return Err(Fail::from("no sizes"));
    };
    let originals = originals_of(alloc, *k, *width)?;
    let found = recoveries(rt, alloc, *k, *m, &originals, *width, &Sequential)?;
    let rows = with_recoveries(rt, alloc, *k, *m, &originals, *width, 4)?;
    let right = Sha256::hash(&found).as_bytes() == want.as_slice();
    let joined = is_joined(&rows, &originals, &found);
    if stripe_count(usize::from(*width), 4) == 1 {
        return Ok(right && joined);
    }
    let cut = recoveries(rt, alloc, *k, *m, &originals, *width, &FourPieces::new())?;
    Ok(right && joined && cut.as_slice() == found.as_slice())
}

#[test]
fn many_recoveries_are_those_of_an_independent_program(rt: HostRuntime) -> Result<(), Fail> {
    let mut count = 0u8;
    for part in RECOVERIES.split("== ").skip(1) {
        assert!(rt; are_recoveries(&rt, rt.alloc(), part)?, "at {count}");
        count = count.wrapping_add(1);
    }
    assert_eq!(rt; count, 11);
    Ok(())
}

// Twelve of 1,030 originals are missing, so few that the rows are found from the codeword of the
// others.
#[test]
fn few_missing_originals_are_rebuilt(rt: HostRuntime) -> Result<(), Fail> {
    let mut rows = originals_of(rt.alloc(), 1030, 4)?;
    let found = recoveries(&rt, rt.alloc(), 1030, 12, &rows, 4, &Sequential)?;
    rows.extend_from_slice(&found)?;
    let back = rebuilt(&rt, rt.alloc(), 1030, 12, &rows, 4)?;
    assert!(rt; back.as_slice() == rows.as_slice());
    Ok(())
}

// Originals, recoveries and the width of a row, then the digest of the recoveries end to end, under
// SHA-256, as tools/oracle/recoveries.py gives them. The first has one original too few for the
// other body; the last two are wide enough for two stripes. That of 1,030 is rebuilt too, above.
const RECOVERIES: &str = "\
== 63 64 66
8a2835da9221098c7869896228565edf62fe537a05c56359e985672c375b0bc9
== 64 64 2
a1a683cb1a32ce70a00591d9620bbcfa7e6b740d9c9db76d2f08541b04e0fe38
== 64 100 66
03097a9be34bb065d1ea6e9906b5cd189cf2bb81e961b897b78c86a9fc8a2ae8
== 65 130 258
2dc1e458f8cda9da49a5de9eb93a75167b1459ceb42235037cde824cfa881b4a
== 100 64 126
721bc9f35edbb8abc2b7fda5b9a7ff0035bc2ef6e080ce9d8d9754c70668170f
== 200 300 40
9c76c9ffa6e82cfea9e98b8c6291504cd06161b7b0aa43f0b3fdbc60ed011231
== 342 682 48
57869e2d0e144ac7243371a8c63181d5a9393c919ba22b67244f813fb118eae6
== 1100 1100 2
3544fb578cca564f67ae64f89db9cd882e9367c42bdc5da8537f428c23f48bc6
== 1030 12 4
4be8b0a8b2370b26ea246e230fc9666166fa38b8daa1ae6211eb320b67064873
== 64 64 16386
072339a18f79177c25c239ea13d84f0493d1e282625d3da48b8d36fe23122c75
== 70 90 16388
6b4930545f07e7fcb127b252bbc992b2447fe19499240c272686135032ada123
";
