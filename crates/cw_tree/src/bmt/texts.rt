//! The texts that are hashed on the way up from a leaf.

ghost use Rattle.std.specs.Prelude.{◌≡◌, ℕ, ◌+◌, ◌%◌, ◌<◌, ◌≤◌, ◌==◌, ◌++◌, ◌∷◌, IfOk, drop};
ghost use Rattle.std.specs.Prelude.{option_map, if◌then◌else◌, length, Some, None, OnOk, []};
ghost use Rattle.cw_base.specs.Bytes.{be32};
ghost use Rattle.cw_tree.specs.Tree.{pair_bytes, way_from, way_by};

use crate::bmt::proof::Proof;
use crate::bmt::way::partner;
use cw_base::{Digest, Hasher, Items, NoMemory, put_be32, put_bytes};
use std::alloc::Global;

impl<D> Proof<D> {
    /// The texts that are hashed from `digest`, as digest `index`, up to the root: that of its
    /// leaf, that of each node above it, and last the one whose digest is the root.
    ///
    /// `None` where the tree has no such leaf, and where siblings are missing or left over.
    pub fn hashed_texts<H: Hasher<Digest = D>>(
        &self,
        alloc: Global,
        digest: &D,
        index: u32,
    ) -> Result<Option<Vec<Items<u8>>>, NoMemory>
        ensures { IfOk result (λ found. option_map (λ texts. texts.items) found
            ≡ way_by H.digest_of D.content self.now.leaf_count self.now.siblings index digest.now) }
    {
        texts_by::<H>(
            alloc,
            self.leaf_count,
            self.siblings.as_slice(),
            digest,
            index,
        )
    }
}

// The texts that are hashed from a digest, as leaf `index` of so many.
#[tactic(auto, unfolding(crate::specs::Tree::way_by, crate::specs::Tree::leaf))]
fn texts_by<H: Hasher>(
    alloc: Global,
    count: u32,
    siblings: &[H::Digest],
    digest: &H::Digest,
    index: u32,
) -> Result<Option<Vec<Items<u8>>>, NoMemory>
    ensures { IfOk result (λ found. option_map (λ texts. texts.items) found
        ≡ way_by H.digest_of H.Digest.content count siblings.now index digest.now) }
{
    if index >= count {
        return Ok(None);
    }
    let text = numbered(alloc, index, digest)?;
    let leaf = H::hash(&text);
    let mut texts = Vec::new(alloc);
    put_text(&mut texts, text)?;
    if put_above::<H>(alloc, count, index, leaf, siblings, &mut texts)? {
        Ok(Some(texts))
    } else {
        Ok(None)
    }
}

// Adds the texts that are hashed on the way up from a leaf; false where no such way is.
fn put_above<H: Hasher>(
    alloc: Global,
    count: u32,
    index: u32,
    leaf: H::Digest,
    siblings: &[H::Digest],
    texts: &mut Vec<Items<u8>>,
) -> Result<bool, NoMemory>
    requires { 1 ≤ count }
    ensures { IfOk result (λ found. (if found then Some texts.new.items else None)
        ≡ option_map (λ above. texts.old.items ++ above)
        (way_from H.digest_of H.Digest.content count count count index leaf siblings.now)) }
{
    let mut width = count;
    let mut at = index;
    let mut node = leaf;
    let mut used = 0;
    'up: while width > 1 {
        let Some((partner, more)) = partner(width, at, &node, siblings, used) else {
            return Ok(false);
        };
        let text = pair(alloc, at, &node, &partner)?;
        node = H::hash(&text);
        put_text(texts, text)?;
        used = more;
        width = width / 2 + width % 2;
        at /= 2;
    }
    if used < siblings.len() {
        return Ok(false);
    }
    put_text(texts, numbered(alloc, count, &node)?)?;
    Ok(true)
}

// Adds a text.
fn put_text(texts: &mut Vec<Items<u8>>, text: Vec<u8>) -> Result<(), NoMemory>
    ensures { OnOk result (texts.new.items ≡ texts.old.items ++ text.items ∷ []) }
{
    texts.push(Items::from_vec(text))?;
    Ok(())
}

// The bytes of a node and of its partner.
fn pair<D: Digest>(alloc: Global, at: u32, node: &D, partner: &D) -> Result<Vec<u8>, NoMemory>
    ensures { IfOk result (λ text. text.items ≡ pair_bytes D.content at node.now partner.now) }
{
    if at % 2 == 0 {
        joined(alloc, node.as_bytes(), partner.as_bytes())
    } else {
        joined(alloc, partner.as_bytes(), node.as_bytes())
    }
}

// One text behind another.
fn joined(alloc: Global, left: &[u8], right: &[u8]) -> Result<Vec<u8>, NoMemory>
    ensures { IfOk result (λ text. text.items ≡ left.now ++ right.now) }
{
    let mut text = Vec::new(alloc);
    put_bytes(&mut text, left)?;
    put_bytes(&mut text, right)?;
    Ok(text)
}

// A number, and the bytes of a digest.
fn numbered<D: Digest>(alloc: Global, number: u32, digest: &D) -> Result<Vec<u8>, NoMemory>
    ensures { IfOk result (λ text. text.items ≡ be32 number ++ D.content digest.now) }
{
    let mut text = Vec::new(alloc);
    put_be32(&mut text, number)?;
    put_bytes(&mut text, digest.as_bytes())?;
    Ok(text)
}
