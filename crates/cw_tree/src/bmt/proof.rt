//! The way up from a leaf.

ghost use Rattle.std.specs.Prelude.{◌≡◌, IfOk};

use cw_base::{Items, NoMemory};
use std::alloc::Global;

/// The siblings on the way up from a leaf, and of how many leaves the tree is.
#[derive(Debug, Drop, PartialEq, Eq)]
pub struct Proof<D> {
    /// How many leaves the tree has.
    pub leaf_count: u32,
    /// From the leaf up, one sibling for each level where the node is not paired with itself.
    pub siblings: Items<D>,
}

impl<D: Copy> Proof<D> {
    /// An equal proof.
    pub fn copy(&self, alloc: Global) -> Result<Proof<D>, NoMemory>
        ensures { IfOk result (λ copy. copy ≡ self.now) }
    {
        let siblings = Vec::from_slice(alloc, self.siblings.as_slice())?;
        Ok(Proof {
            leaf_count: self.leaf_count,
            siblings: Items::from_vec(siblings),
        })
    }
}
