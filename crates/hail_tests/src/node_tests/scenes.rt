//! Clusters with two blocks, one over the other.

use super::blocks::Scene;
use cw_base::SumHasher;
use cw_types::{Committees, genesis_commitment};
use node::{Chunked, Uncut, Way};
use std::alloc::Global;
use std::test::Fail;
use std::thread::Threads;

/// The scene of that name, in which blocks come in chunks.
pub(crate) fn chunked_scene<R: Threads + Sync>(
    rt: &R,
    alloc: Global,
    name: &str,
) -> Result<Scene<Chunked>, Fail> {
    match name {
        "one epoch" => of_one_epoch(rt, alloc),
        "short epochs" => short_epochs(rt, alloc),
        "two epochs" => two_epochs(rt, alloc),
        _ => Err("a scene".into()),
    }
}

/// The scene of that name, in which blocks come whole.
pub(crate) fn whole_scene<R: Threads + Sync>(
    rt: &R,
    alloc: Global,
    name: &str,
) -> Result<Scene<Uncut>, Fail> {
    match name {
        "whole" => of_one_epoch(rt, alloc),
        "whole as genesis" => whole_as_genesis(rt, alloc),
        _ => Err("a scene".into()),
    }
}

// Four members in one committee, a block of view 1, and one of view 2 over it.
fn of_one_epoch<W: Way, R: Threads + Sync>(rt: &R, alloc: Global) -> Result<Scene<W>, Fail> {
    of_two_blocks(rt, alloc, Committees::single(alloc, 4)?, (0, 2, 2))
}

// The same members, and a whole block of view 62 which has the commitment of the first block, since
// under this hash their bytes add up alike.
fn whole_as_genesis<R: Threads + Sync>(rt: &R, alloc: Global) -> Result<Scene<Uncut>, Fail> {
    let mut scene = Scene::new(alloc, Committees::single(alloc, 4)?)?;
    let added = add_as_genesis(rt, alloc, &mut scene);
    with_added(scene, added)
}

fn add_as_genesis<R: Threads + Sync>(
    rt: &R,
    alloc: Global,
    scene: &mut Scene<Uncut>,
) -> Result<(), Fail> {
    scene.add(rt, alloc, 0, (0, 62, 2), &[190])?;
    if scene.block(1)?.commitment != genesis_commitment::<SumHasher>() {
        return Err("the commitment of the first block".into());
    }
    Ok(())
}

// The same members in epochs of one height each. No block stands over the one that ends the first.
fn short_epochs<R: Threads + Sync>(rt: &R, alloc: Global) -> Result<Scene<Chunked>, Fail> {
    let mut lists = Vec::new(alloc);
    lists.push([0u16, 1, 2, 3].to_vec(alloc)?)?;
    of_two_blocks(rt, alloc, Committees::new(alloc, 4, 1, &lists)?, (0, 2, 2))
}

// Epochs of one height each, the first of members 0 to 3, the others of members 1 to 4, and a block
// of each of the first two. Member 2 leads the first view of the second.
fn two_epochs<R: Threads + Sync>(rt: &R, alloc: Global) -> Result<Scene<Chunked>, Fail> {
    let mut lists = Vec::new(alloc);
    lists.push([0u16, 1, 2, 3].to_vec(alloc)?)?;
    lists.push([1u16, 2, 3, 4].to_vec(alloc)?)?;
    of_two_blocks(rt, alloc, Committees::new(alloc, 5, 1, &lists)?, (1, 1, 2))
}

fn of_two_blocks<W: Way, R: Threads + Sync>(
    rt: &R,
    alloc: Global,
    committees: Committees,
    second: (u64, u64, u16),
) -> Result<Scene<W>, Fail> {
    let mut scene = Scene::new(alloc, committees)?;
    let added = add_two(rt, alloc, &mut scene, second);
    with_added(scene, added)
}

fn add_two<W: Way, R: Threads + Sync>(
    rt: &R,
    alloc: Global,
    scene: &mut Scene<W>,
    second: (u64, u64, u16),
) -> Result<(), Fail> {
    scene.add(rt, alloc, 0, (0, 1, 1), &[0x68, 0x69])?;
    scene.add(rt, alloc, 1, second, &[0x62])
}

// The scene to which blocks were added.
fn with_added<W: Way>(scene: Scene<W>, added: Result<(), Fail>) -> Result<Scene<W>, Fail> {
    match added {
        Ok(()) => Ok(scene),
        Err(error) => {
            drop(scene);
            Err(error)
        }
    }
}
