//! Cuts a text into chunks, loses some of them, and restores it from the others; then it shows what
//! is refused. That what is restored is the text is proved: it is the contract of `restored`.
#![tactic(auto)]

ghost use Rattle.std.specs.Prelude.{◌≡◌, IfOk, map};
ghost use Rattle.use_coding.specs.Checked.{checked_under};

use anyhow::{Context, Result, ensure};
use cw_base::{Config, Digest32, Sequential, Sha256};
use cw_coding::{CheckedChunk, Chunk, ReedSolomon, Scheme, encodings_decode};
use std::alloc::Global;
use std::thread::Threads;

type Code = ReedSolomon<Sha256>;

const TEXT: &[u8] = b"Any four of these seven chunks give this text back.";

// Each chunk is checked at its index, under the root.
fn all_checked(
    alloc: Global,
    config: &Config,
    root: &Digest32,
    chunks: &[Chunk<Digest32>],
) -> Result<Vec<CheckedChunk<Sha256>>>
    ensures { IfOk result (λ all. all.items ≡ map (checked_under root.now) chunks.now) }
{
    let mut all = Vec::new(alloc);
    for chunk in chunks {
        let one = Code::check(alloc, config, root, chunk.index(), chunk, &Sequential)?;
        all.push(one)?;
    }
    Ok(all)
}

// Cuts a text, loses so many chunks, and restores it from the others: the rows are rebuilt, and
// their root is compared before the text is handed out. `encodings_decode` is the law by which this
// is the text.
fn restored<R: Threads + Sync>(
    rt: &R,
    alloc: Global,
    config: &Config,
    text: &[u8],
    lost: usize,
) -> Result<Vec<u8>>
    ensures { IfOk result (λ back. back.items ≡ text.now) }
{
    encodings_decode::<Sha256>();
    let (root, chunks) = Code::encode(rt, alloc, config, text, &Sequential)?;
    let needed = config.minimum();
    ensure!(lost <= chunks.len(), "{needed} chunks are needed");
    let (_, left) = chunks.split_at(lost);
    let checked = all_checked(alloc, config, &root, left)?;
    let back = Code::decode(rt, alloc, config, &root, checked.iter(), &Sequential)?;
    Ok(back)
}

fn main(rt: HostRuntime) -> Result<()> {
    let alloc = rt.alloc();
    let config = Config::new(4, 3).context("a number of the config is zero")?;

    // Cut: four chunks hold the text, three are added, and one root stands for all.
    let (root, chunks) = Code::encode(&rt, alloc, &config, TEXT, &Sequential)?;
    println!(rt; "{} chunks under {root}", chunks.len())?;

    // Whoever wants no chunks takes the root alone.
    let alone = Code::commitment(&rt, alloc, &config, TEXT, &Sequential)?;
    println!(rt; "the root alone: {alone}")?;

    // Three are lost, and the others give the text back. Three chunks are not enough.
    let back = restored(&rt, alloc, &config, TEXT, 3)?;
    println!(rt; "restored: {}", back.as_slice() == TEXT)?;
    if let Err(error) = restored(&rt, alloc, &config, TEXT, 4) {
        println!(rt; "of three chunks: {error}")?;
    }

    // No chunk stands at another's index.
    let fourth = chunks.get(3).context("the chunk of index 3")?;
    if let Err(error) = Code::check(alloc, &config, &root, 2, fourth, &Sequential) {
        println!(rt; "chunk 3 as chunk 2: {error}")?;
    }
    Ok(())
}
