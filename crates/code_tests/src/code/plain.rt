//! Codewords against the plain definition: in each column the value of the polynomial through the
//! rows that are given, factor by factor.

use super::*;
use cw_base::NoGate;

// The value at `x` of the polynomial that is `values[s]` at `points[s]`.
fn value_at(points: &[u16], values: &[u16], x: u16) -> u16 {
    let mut sum = 0;
    for (s, (point, value)) in points.iter().zip(values.iter()).enumerate() {
        let mut product = *value;
        for (u, other) in points.iter().enumerate() {
            let over = *point ^ *other;
            if u != s && over != 0 {
                product = gf16::mul(product, gf16::mul(x ^ *other, gf16::inv(over)));
            }
        }
        sum = gf16::add(sum, product);
    }
    sum
}

// The symbol of a row in a column, and 0 where there is none.
fn symbol(rows: &[u8], width: usize, row: usize, column: usize) -> u16 {
    let at = row
        .wrapping_mul(width)
        .wrapping_add(2usize.wrapping_mul(column));
    match (rows.get(at), rows.get(at.wrapping_add(1))) {
        (Some(high), Some(low)) => u16::from(*high) << 8 | u16::from(*low),
        _ => 0,
    }
}

// Whether the rows at the targets are those of the plain definition, in some columns.
fn are_plain(
    alloc: Global,
    points: &[u16],
    rows: &[u8],
    targets: &[u16],
    found: &[u8],
    width: usize,
) -> Result<bool, AllocError> {
    for column in [
        0,
        1,
        5,
        4094,
        4095,
        4096,
        8191,
        8192,
        width / 4,
        (width / 2).saturating_sub(1),
    ] {
        let mut values = Vec::new(alloc);
        for s in 0..points.len() {
            values.push(symbol(rows, width, s, column))?;
        }
        for (i, target) in targets.iter().enumerate() {
            let right = column >= width / 2
                || symbol(found, width, i, column) == value_at(points, &values, *target);
            if !right {
                return Ok(false);
            }
        }
    }
    Ok(true)
}

// So many bytes.
fn bytes(alloc: Global, count: usize) -> Result<Vec<u8>, AllocError> {
    let mut all = Vec::new(alloc);
    let mut byte = 1u8;
    for _ in 0..count {
        all.push(byte)?;
        byte = byte.wrapping_mul(5).wrapping_add(3);
    }
    Ok(all)
}

// The numbers from one on.
pub fn numbers(alloc: Global, from: u16, count: u16) -> Result<Vec<u16>, AllocError> {
    let mut all = Vec::new(alloc);
    for i in 0..count {
        all.push(from.wrapping_add(i))?;
    }
    Ok(all)
}

// Originals, recoveries, and the width of a row: one column; half a block of columns but one, half
// a block, and one column more; 33 columns; a block and a half and one column more; then the widest
// narrow row, one column more, and five columns.
const SHAPES: [(u16, u16, u16); 9] = [
    (1, 1, 2),
    (2, 2, 8190),
    (3, 5, 8192),
    (2, 3, 8194),
    (3, 17, 66),
    (2, 9, 24578),
    (4, 13, 126),
    (4, 13, 128),
    (5, 4, 10),
];

// So many rows.
pub fn originals_of(alloc: Global, k: u16, width: u16) -> Result<Vec<u8>, AllocError> {
    bytes(alloc, usize::from(k) * usize::from(width))
}

// Whether recoveries are those of the plain definition.
fn are_plain_recoveries(
    alloc: Global,
    k: u16,
    m: u16,
    originals: &[u8],
    found: &[u8],
    width: u16,
) -> Result<bool, AllocError> {
    let points = numbers(alloc, 0, k)?;
    let targets = numbers(alloc, k, m)?;
    are_plain(
        alloc,
        &points,
        originals,
        &targets,
        found,
        usize::from(width),
    )
}

#[test]
fn recoveries_are_those_of_the_plain_definition(rt: HostRuntime) -> Result<(), Fail> {
    for (k, m, width) in SHAPES {
        let originals = originals_of(rt.alloc(), k, width)?;
        let found = recoveries(&rt, rt.alloc(), k, m, &originals, width, &Sequential)?;
        let right = are_plain_recoveries(rt.alloc(), k, m, &originals, &found, width)?;
        assert!(rt; right, "{k} and {m}, {width} bytes");
        if stripe_count(usize::from(width), 4) > 1 {
            let cut = recoveries(&rt, rt.alloc(), k, m, &originals, width, &FourPieces::new())?;
            assert!(rt; cut.as_slice() == found.as_slice());
        }
    }
    Ok(())
}

// Rows with their recoveries added behind them in so many pieces.
pub fn with_recoveries<R: Threads + Sync>(
    rt: &R,
    alloc: Global,
    k: u16,
    m: u16,
    originals: &[u8],
    width: u16,
    pieces: usize,
) -> Result<Vec<u8>, Fail> {
    let width = usize::from(width);
    if k < 1 || m < 1 || u32::from(k) + u32::from(m) > 65535 {
        return Err(Fail::from("no codeword"));
    }
    if pieces < 1 || pieces > 64 {
        return Err(Fail::from("no threads"));
    }
    let mut rows = originals.to_vec(alloc)?;
    if width < 1 || width % 2 != 0 || rows.len() != usize::from(k) * width {
        return Err(Fail::from("no rows"));
    }
    let threads = cw_base::Threads::new(pieces, NoGate);
    add_recoveries(rt, alloc, k, m, &mut rows, width, &threads)?;
    Ok(rows)
}

// Whether rows are those of two lists, one behind the other.
pub fn is_joined(rows: &[u8], front: &[u8], back: &[u8]) -> bool {
    rows.starts_with(front) && rows.ends_with(back) && rows.len() == front.len() + back.len()
}

#[test]
fn recoveries_are_added_behind_the_originals(rt: HostRuntime) -> Result<(), Fail> {
    for (k, m, width) in SHAPES {
        let originals = originals_of(rt.alloc(), k, width)?;
        let found = recoveries(&rt, rt.alloc(), k, m, &originals, width, &Sequential)?;
        for pieces in [1, 4] {
            let rows = with_recoveries(&rt, rt.alloc(), k, m, &originals, width, pieces)?;
            assert!(rt;
                is_joined(&rows, &originals, &found),
                "{k} and {m}, {width} bytes"
            );
        }
    }
    Ok(())
}

// Three rows that are given, and targets: rows that are given among others.
const GIVEN: [u16; 3] = [19, 2, 5];

const TARGETS: [u16; 17] = [0, 5, 1, 19, 2, 3, 4, 6, 7, 8, 9, 10, 11, 12, 13, 14, 18];

#[test]
fn any_number_of_targets_is_rebuilt(rt: HostRuntime) -> Result<(), Fail> {
    let rows = bytes(rt.alloc(), 198)?;
    assert_eq!(rt; rows.len(), 198);
    let plan = Plan::new(rt.alloc(), 3, 17, &GIVEN).expect(&rt, "three rows");
    for count in 1..18usize {
        let targets = &TARGETS[..count];
        assert!(rt; targets.iter().all(|target| *target < 20));
        let found = plan.rebuild(&rt, rt.alloc(), &rows, 66, targets, &Sequential)?;
        let right = are_plain(rt.alloc(), &GIVEN, &rows, targets, &found, 66)?;
        assert!(rt; right, "{count} targets");
    }
    Ok(())
}
