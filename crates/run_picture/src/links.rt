//! The chain, as boxes.

ghost use Rattle.std.specs.Prelude.{◌≡◌, ◌≤◌, ◌<◌, ◌^◌, ◌++◌, OnOk, length, string_bytes};
ghost use Rattle.run_picture.specs.Links as spec;

use crate::elements::{across, number_text, put_box_at, put_path, put_text};
use cw_base::{Digest32, NoMemory};
use std::alloc::Global;

/// The last twelve links of a chain.
pub(crate) fn put_chain(
    alloc: Global,
    out: &mut String,
    y: u64,
    chain: &[Digest32],
) -> Result<(), NoMemory>
    requires { y < 2 ^ 33 }
    ensures { OnOk result
        (string_bytes out.new ≡ string_bytes out.old ++ spec.links_text y chain.now) }
{
    let first = chain.len().saturating_sub(12);
    put_links(alloc, out, y, first as u64, &chain[first..])
}

// Links beside each other, from a height on.
fn put_links(
    alloc: Global,
    out: &mut String,
    y: u64,
    first: u64,
    links: &[Digest32],
) -> Result<(), NoMemory>
    requires y { y < 2 ^ 33 }
    requires few { length links.now ≤ 12 }
    requires first { first < 2 ^ 63 }
    ensures { OnOk result
        (string_bytes out.new ≡ string_bytes out.old ++ spec.links_from y first 0 links.now) }
{
    for (at, digest) in links.iter().enumerate() {
        put_link(
            alloc,
            out,
            14 + 70 * at as u64,
            y,
            first + at as u64,
            digest,
        )?;
    }
    Ok(())
}

fn put_link(
    alloc: Global,
    out: &mut String,
    x: u64,
    y: u64,
    height: u64,
    digest: &Digest32,
) -> Result<(), NoMemory>
    requires low { 14 ≤ x }
    requires x { x < 2 ^ 33 }
    requires y { y < 2 ^ 33 }
    ensures { OnOk result
        (string_bytes out.new ≡ string_bytes out.old ++ spec.link_text x y height digest.now) }
{
    if height != 0 {
        let way = across(alloc, x, y + 15, x - 14)?;
        put_path(out, &way, "link")?;
    }
    put_box(alloc, out, x, y, height, digest)
}

fn put_box(
    alloc: Global,
    out: &mut String,
    x: u64,
    y: u64,
    height: u64,
    digest: &Digest32,
) -> Result<(), NoMemory>
    requires x { x < 2 ^ 33 }
    requires y { y < 2 ^ 33 }
    ensures { OnOk result
        (string_bytes out.new ≡ string_bytes out.old ++ spec.box_text x y height digest.now) }
{
    put_box_at(out, x, y)?;
    let number = number_text(alloc, height)?;
    put_text(out, x + 28, y + 13, "full mid", &number)?;
    let front = hex::encode(alloc, &digest.0.as_slice()[..2])?;
    put_text(out, x + 28, y + 25, "tiny mid", &front)
}
