//! A tree as it is built, and the way up from each of its leaves.

ghost use Rattle.std.specs.Prelude.{◌≡◌, ℕ, ◌+◌, ◌-◌, ◌*◌, ◌/◌, ◌^◌, ◌<◌, ◌≤◌, [], ◌∷◌, ◌++◌};
ghost use Rattle.std.specs.Prelude.{length, IfOk, OnOk, OnErr, Some, take, drop};
ghost use Rattle.cw_tree.specs.Tree.{AreLevels, beside, leaves_from, paired, top_within, root_of};
ghost use Rattle.cw_tree.specs.Tree.{path_of};

use crate::bmt::node::{above_of, leaf_of, rooted_of};
use crate::bmt::proof::Proof;
use cw_base::{Hasher, Items, NoMemory};
use std::alloc::Global;
use std::marker::{Model, PhantomData};

/// The digests that a tree is built over, as they come.
///
/// ```text
/// let mut builder = Builder::<Sha256>::new(alloc, 2)?;
/// builder.add(&Sha256::hash(b"first"))?;
/// builder.add(&Sha256::hash(b"second"))?;
/// let tree = builder.build(alloc)?;
/// let proof = tree.proof(alloc, 1)?; // that "second" stands at 1 under `tree.root()`
/// ```
#[derive(Drop)]
pub struct Builder<H: Hasher> {
    digests: Items<H::Digest>,
    hasher: PhantomData<H>,
}

impl<H: Hasher> Model for Builder<H> {
    ghost use Rattle.std.specs.Prelude.{ℕ, ◌-◌, ◌^◌, ◌≤◌, List, length};

    ghost Value = { List H.Digest };

    ghost view = { λ b. b.digests };

    ghost invariant = { λ b. length b.digests ≤ 2 ^ 32 - 1 };
}

impl<H: Hasher> Builder<H> {
    /// A builder without digests, and with room for `count`.
    pub fn new(alloc: Global, count: usize) -> Result<Builder<H>, NoMemory>
        ensures { IfOk result (λ b. b ≡ []) }
    {
        Ok(Builder {
            digests: Items::from_vec(Vec::with_capacity(alloc, count)?),
            hasher: PhantomData,
        })
    }

    /// All digests at once. Takes no memory.
    pub fn of(digests: Items<H::Digest>) -> Builder<H>
        requires few { length digests ≤ 2 ^ 32 - 1 }
        ensures { result ≡ digests }
    {
        Builder {
            digests,
            hasher: PhantomData,
        }
    }

    /// Adds a digest behind the others. Where memory is short nothing changes.
    pub fn add(&mut self, digest: &H::Digest) -> Result<(), NoMemory>
        requires room { length self.old < 2 ^ 32 - 1 }
        ensures ok { OnOk result (self.new ≡ self.old ++ digest.now ∷ []) }
        ensures err { OnErr result (self.new ≡ self.old) }
    {
        self.digests.push(*digest)?;
        Ok(())
    }

    /// The tree over the digests that were added.
    pub fn build(self, alloc: Global) -> Result<Tree<H>, NoMemory>
        requires some { 0 < length self }
        ensures { IfOk result (λ tree. tree ≡ self) }
    {
        let count = self.digests.len() as u32;
        let leaves = leaves_of::<H>(alloc, self.digests.as_slice())?;
        let (levels, top) = levels_over::<H>(alloc, leaves)?;
        Ok(Tree {
            digests: self.digests,
            levels,
            root: rooted_of::<H>(count, &top),
        })
    }
}

/// The tree over a list of digests, which contracts see as that list.
#[derive(Drop)]
pub struct Tree<H: Hasher> {
    digests: Items<H::Digest>,
    // the leaves and the levels above them, as far as they have more than one node
    levels: Items<Items<H::Digest>>,
    root: H::Digest,
}

impl<H: Hasher> Model for Tree<H> {
    ghost use Rattle.std.specs.Prelude.{◌≡◌, ℕ, ◌-◌, ◌^◌, ◌≤◌, List, length, Some};
    ghost use Rattle.cw_tree.specs.Tree.{AreLevels, leaves_from, root_of};

    ghost Value = { List H.Digest };

    ghost view = { λ t. t.digests };

    ghost invariant = { λ t. (root_of H.digest_of H.Digest.content t.digests ≡ Some t.root)
        × (AreLevels H.digest_of H.Digest.content
        (leaves_from H.digest_of H.Digest.content 0 t.digests) t.levels)
        × (length t.digests ≤ 2 ^ 32 - 1) };
}

impl<H: Hasher> Tree<H> {
    /// The root of the tree.
    pub fn root(&self) -> H::Digest
        ensures { root_of H.digest_of H.Digest.content self.now ≡ Some result }
    {
        self.root
    }

    /// The way up from leaf `index`.
    pub fn proof(&self, alloc: Global, index: u32) -> Result<Proof<H::Digest>, NoMemory>
        requires within { index < length self.now }
        ensures leaf_count { IfOk result (λ p. p.leaf_count ≡ length self.now) }
        ensures siblings { IfOk result
            (λ p. p.siblings ≡ path_of H.digest_of H.Digest.content index self.now) }
    {
        let leaf_count = self.digests.len() as u32;
        let mut siblings = Items::new(alloc);
        let mut at = index as usize;
        for level in self.levels.as_slice() {
            put_beside(&mut siblings, level.as_slice(), at)?;
            at /= 2;
        }
        Ok(Proof {
            leaf_count,
            siblings,
        })
    }
}

// The leaves of these digests.
fn leaves_of<H: Hasher>(alloc: Global, digests: &[H::Digest]) -> Result<Items<H::Digest>, NoMemory>
    requires few { length digests.now ≤ 2 ^ 32 - 1 }
    ensures { IfOk result
        (λ leaves. leaves ≡ leaves_from H.digest_of H.Digest.content 0 digests.now) }
{
    let mut leaves = Items::new(alloc);
    for i in 0..digests.len() {
        leaves.push(leaf_of::<H>(i as u32, &digests[i]))?;
    }
    Ok(leaves)
}

// The level above a level.
fn pair_up<H: Hasher>(alloc: Global, level: &[H::Digest]) -> Result<Items<H::Digest>, NoMemory>
    ensures { IfOk result (λ next. next ≡ paired H.digest_of H.Digest.content level.now) }
{
    let mut next = Items::new(alloc);
    let mut at = 0;
    'pairs: while at < level.len() {
        if level.len() - at > 1 {
            next.push(above_of::<H>(&level[at], &level[at + 1]))?;
            at += 2;
        } else {
            next.push(above_of::<H>(&level[at], &level[at]))?;
            at += 1;
        }
    }
    Ok(next)
}

// These leaves and the levels above them, as far as they have more than one node, and the top.
fn levels_over<H: Hasher>(
    alloc: Global,
    leaves: Items<H::Digest>,
) -> Result<(Items<Items<H::Digest>>, H::Digest), NoMemory>
    requires some { 0 < length leaves }
    ensures levels { IfOk result (λ r. AreLevels H.digest_of H.Digest.content leaves r.0) }
    ensures top { IfOk result
        (λ r. top_within H.digest_of H.Digest.content (length leaves) leaves ≡ Some r.1) }
{
    let mut levels = Items::new(alloc);
    let mut level = leaves;
    'up: while level.len() > 1 {
        let above = pair_up::<H>(alloc, level.as_slice())?;
        levels.push(level)?;
        level = above;
    }
    let top = level.as_slice()[0];
    Ok((levels, top))
}

// Adds the node at a place, where there is one.
fn put_one<D: Copy>(out: &mut Items<D>, level: &[D], at: usize) -> Result<(), NoMemory>
    ensures { OnOk result (out.new ≡ out.old ++ take 1 (drop at level.now)) }
{
    if at < level.len() {
        out.push(level[at])?;
    }
    Ok(())
}

// Adds the node beside a node, where there is one.
fn put_beside<D: Copy>(out: &mut Items<D>, level: &[D], at: usize) -> Result<(), NoMemory>
    requires within { at < length level.now }
    ensures { OnOk result (out.new ≡ out.old ++ beside at level.now) }
{
    if at % 2 == 0 {
        put_one(out, level, at + 1)?;
        Ok(())
    } else {
        put_one(out, level, at - 1)?;
        Ok(())
    }
}
