//! The nodes of a tree.

ghost use Rattle.std.specs.Prelude.{◌≡◌};
ghost use Rattle.cw_tree.specs.Tree.{leaf, above, rooted};

use cw_base::{Digest, Hasher};

// The leaf of a digest.
#[tactic(auto, unfolding(crate::specs::Tree::leaf, cw_base::specs::Bytes::be32))]
pub(crate) fn leaf_of<H: Hasher>(index: u32, digest: &H::Digest) -> H::Digest
    ensures { result ≡ leaf H.digest_of H.Digest.content index digest.now }
{
    H::hash_pair(&index.to_be_bytes(), digest.as_bytes())
}

// The node above two nodes.
#[tactic(auto, unfolding(crate::specs::Tree::above))]
pub(crate) fn above_of<H: Hasher>(left: &H::Digest, right: &H::Digest) -> H::Digest
    ensures { result ≡ above H.digest_of H.Digest.content left.now right.now }
{
    H::hash_pair(left.as_bytes(), right.as_bytes())
}

// The root over the top of so many leaves.
#[tactic(auto, unfolding(crate::specs::Tree::rooted, cw_base::specs::Bytes::be32))]
pub(crate) fn rooted_of<H: Hasher>(count: u32, top: &H::Digest) -> H::Digest
    ensures { result ≡ rooted H.digest_of H.Digest.content count top.now }
{
    H::hash_pair(&count.to_be_bytes(), top.as_bytes())
}
