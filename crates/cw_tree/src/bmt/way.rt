//! The way up from a leaf, as it is checked.

ghost use Rattle.std.specs.Prelude.{◌≡◌, ℕ, ◌+◌, ◌%◌, ◌≤◌, ◌==◌, ◌&&◌, ◌++◌, ◌↔◌, length, drop};
ghost use Rattle.std.specs.Prelude.{IfSome, IsTrue, MatchOption, Some, None, option_map};
ghost use Rattle.std.specs.Prelude.{if◌then◌else◌};
ghost use Rattle.cw_tree.specs.Tree.{last_digest, partner_of, pair_bytes, way_from, root_by};

use crate::bmt::node::{above_of, leaf_of, rooted_of};
use crate::bmt::proof::Proof;
use cw_base::{Digest, Hasher};

impl<D> Proof<D> {
    /// Whether `digest` is digest `index` of the tree with this root.
    ///
    /// Where two texts have one hash there may be more than one such digest.
    pub fn verify_element_inclusion<H: Hasher<Digest = D>>(
        &self,
        digest: &D,
        index: u32,
        root: &D,
    ) -> bool
        ensures { IsTrue result ↔
            (root_by H.digest_of D.content self.now.leaf_count self.now.siblings index digest.now
            ≡ Some root.now) }
    {
        is_under::<H>(
            self.leaf_count,
            self.siblings.as_slice(),
            digest,
            index,
            root,
        )
    }
}

// Whether a digest leads to a root, as leaf `index` of so many.
fn is_under<H: Hasher>(
    count: u32,
    siblings: &[H::Digest],
    digest: &H::Digest,
    index: u32,
    root: &H::Digest,
) -> bool
    ensures { IsTrue result ↔
        (root_by H.digest_of H.Digest.content count siblings.now index digest.now ≡ Some root.now) }
{
    match root_led_to::<H>(count, siblings, digest, index) {
        Some(led_to) => led_to.is_same(root),
        None => false,
    }
}

// The root that a digest leads to as leaf `index` of so many.
fn root_led_to<H: Hasher>(
    count: u32,
    siblings: &[H::Digest],
    digest: &H::Digest,
    index: u32,
) -> Option<H::Digest>
    ensures { result
        ≡ root_by H.digest_of H.Digest.content count siblings.now index digest.now }
{
    if index >= count {
        return None;
    }
    root_above::<H>(count, index, leaf_of::<H>(index, digest), siblings)
}

// What a node is paired with, and how many siblings are used then.
pub(crate) fn partner<D: Digest>(
    width: u32,
    at: u32,
    node: &D,
    siblings: &[D],
    used: usize,
) -> Option<(D, usize)>
    requires within { used ≤ length siblings.now }
    ensures within { IfSome result (λ pair. pair.1 ≤ length siblings.now) }
    ensures value { MatchOption result
        (partner_of width at node.now (drop used siblings.now) ≡ None)
        (λ pair. partner_of width at node.now (drop used siblings.now)
        ≡ Some (pair.0, drop pair.1 siblings.now)) }
{
    if at % 2 == 0 && u64::from(at) + 1 == u64::from(width) {
        return Some((*node, used));
    }
    if used == siblings.len() {
        return None;
    }
    Some((siblings[used], used + 1))
}

// The node above a node and its partner.
#[tactic(auto, unfolding(crate::specs::Tree::above))]
fn above_both<H: Hasher>(at: u32, node: &H::Digest, partner: &H::Digest) -> H::Digest
    ensures { result ≡ H.digest_of (pair_bytes H.Digest.content at node.now partner.now) }
{
    if at % 2 == 0 {
        above_of::<H>(node, partner)
    } else {
        above_of::<H>(partner, node)
    }
}

// The root that a leaf leads to, where the way up takes just these siblings.
fn root_above<H: Hasher>(
    count: u32,
    index: u32,
    leaf: H::Digest,
    siblings: &[H::Digest],
) -> Option<H::Digest>
    requires { 1 ≤ count }
    ensures { result ≡ option_map (last_digest H.digest_of leaf)
        (way_from H.digest_of H.Digest.content count count count index leaf siblings.now) }
{
    let mut width = count;
    let mut at = index;
    let mut node = leaf;
    let mut used = 0;
    'up: while width > 1 {
        let Some((partner, more)) = partner(width, at, &node, siblings, used) else {
            return None;
        };
        node = above_both::<H>(at, &node, &partner);
        used = more;
        width = width / 2 + width % 2;
        at /= 2;
    }
    if used == siblings.len() {
        Some(rooted_of::<H>(count, &node))
    } else {
        None
    }
}
