//! What the archive gives back, as text.

ghost use Rattle.std.specs.Prelude.{◌++◌, ◌≡◌, IfOk, OnOk, drop, string_bytes};
ghost use Rattle.std.specs.List.{flat_map};
ghost use Rattle.cw_rules.specs.Rules.{commit};
ghost use Rattle.run_archive.specs.Program as spec;
ghost use Rattle.shards.specs.Kept.{chunk_rules};

use cw_archive::Archive;
use cw_base::{Digest32, Hasher, NoMemory, Strategy};
use cw_types::{ChainBlock, Commitment, Committees};
use shards::cut_block;
use std::alloc::Global;
use std::thread::Threads;

/// A line for each link of the chain above genesis, whether the archive gives it back, and a line
/// of how many bytes the archive holds.
#[tactic(auto, unfolding(crate::specs::Program::used_line))]
pub(crate) fn archive_text<H: Hasher<Digest = Digest32>, R: Threads + Sync, S: Strategy>(
    rt: &R,
    alloc: Global,
    committees: &Committees,
    archive: &Archive<H>,
    chain: &[ChainBlock],
    strategy: &S,
) -> Result<Vec<u8>, NoMemory>
    ensures { IfOk result (λ text. text.items
        ≡ spec.archive_text H.digest_of committees.now archive.now chain.now) }
{
    let mut out = String::new(alloc);
    if let [_, links @ ..] = chain {
        put_links(rt, alloc, &mut out, committees, archive, links, strategy)?;
    }
    let used = archive.used();
    write!(out, "used {used}\n")?;
    Ok(out.into_bytes())
}

// A line for each link.
fn put_links<H: Hasher<Digest = Digest32>, R: Threads + Sync, S: Strategy>(
    rt: &R,
    alloc: Global,
    out: &mut String,
    committees: &Committees,
    archive: &Archive<H>,
    links: &[ChainBlock],
    strategy: &S,
) -> Result<(), NoMemory>
    ensures { OnOk result (string_bytes out.new ≡ string_bytes out.old
        ++ flat_map (spec.link_line H.digest_of committees.now archive.now) links.now) }
{
    for link in links {
        let given = is_given_back(rt, alloc, committees, archive, link, strategy)?;
        put_link(out, link.height(), given)?;
    }
    Ok(())
}

#[tactic(auto, unfolding(crate::specs::Program::answer_line))]
fn put_link(out: &mut String, height: u64, given: bool) -> Result<(), NoMemory>
    ensures { OnOk result
        (string_bytes out.new ≡ string_bytes out.old ++ spec.answer_line height given) }
{
    if given {
        write!(out, "archive {height} yes\n")?;
    } else {
        write!(out, "archive {height} no\n")?;
    }
    Ok(())
}

// Whether the archive gives this link back, by its commitment.
fn is_given_back<H: Hasher<Digest = Digest32>, R: Threads + Sync, S: Strategy>(
    rt: &R,
    alloc: Global,
    committees: &Committees,
    archive: &Archive<H>,
    link: &ChainBlock,
    strategy: &S,
) -> Result<bool, NoMemory>
    ensures { IfOk result (λ given. given
        ≡ spec.is_given_back H.digest_of committees.now archive.now link.now) }
{
    let commitment = commitment_of::<H, R, S>(rt, alloc, committees, link, strategy)?;
    match archive.get(rt, alloc, &commitment, strategy)? {
        Some(block) => Ok(block.is_same(link)),
        None => Ok(false),
    }
}

// What names the link, by the committee of its epoch.
fn commitment_of<H: Hasher<Digest = Digest32>, R: Threads + Sync, S: Strategy>(
    rt: &R,
    alloc: Global,
    committees: &Committees,
    link: &ChainBlock,
    strategy: &S,
) -> Result<Commitment, NoMemory>
    ensures { IfOk result (λ commitment. commitment
        ≡ commit (chunk_rules H.digest_of committees.now) link.now) }
{
    let cut = cut_block::<H, R, S>(rt, alloc, committees, link, strategy)?;
    Ok(cut.0)
}
