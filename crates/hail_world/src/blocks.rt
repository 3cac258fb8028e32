//! The blocks that are known, by their digests.

ghost use Rattle.std.specs.Prelude.{◌≡◌, ◌∷◌, [], List, None, OnErr, OnOk, Some, option_map, IfOk};
ghost use Rattle.std.specs.Prelude.{if◌then◌else◌};
ghost use Rattle.std.specs.BTreeMap.{IsUnchanged, get};
ghost use Rattle.std.specs.Option.{option_or};
ghost use Rattle.std.specs.Ordering.{is_eq};
ghost use Rattle.cw_types.specs.Block.{Block};
ghost use Rattle.cw_types.specs.Encoding.{block_bytes};
ghost use Rattle.cw_rules.specs.Reached.{IsNamed};
ghost use Rattle.cw_rules.specs.Rules as rules;
ghost use Rattle.cw_rules.specs.Rules.{Rules};
ghost use Rattle.hail_world.specs.Known.{AreKnown, Takes, digest_cmp, other};
ghost use Rattle.hail_world.specs.Runs.{GoesBy};

use cw_base::{Digest32, Hasher, Items, NoMemory};
use cw_types::{ChainBlock, Note, genesis};
use std::alloc::Global;
use std::collections::BTreeMap;

/// Genesis and the blocks that members have noted, each once, under its digest. While no two of one
/// digest were met they stand for the notes of all members.
#[derive(Drop)]
pub struct KnownBlocks {
    /// Each block, under its digest.
    pub by_digest: BTreeMap<Digest32, ChainBlock>,
}

impl KnownBlocks {
    /// Genesis alone.
    pub fn new<H: Hasher<Digest = Digest32>>(alloc: Global) -> Result<KnownBlocks, NoMemory>
        ensures { (r : Rules) → GoesBy H.digest_of r
            → IfOk result (λ known. AreKnown r known (rules.genesis r ∷ [])) }
    {
        let first = genesis::<H>(alloc);
        let digest = first.digest::<H>(alloc)?;
        let mut by_digest = BTreeMap::new(alloc);
        by_digest.insert(digest, first)?;
        Ok(KnownBlocks { by_digest })
    }

    /// The clash that a note brings; where it brings none, its block is known from then on. Where
    /// memory is short nothing changes.
    pub(crate) fn take(
        &mut self,
        alloc: Global,
        note: &Note,
    ) -> Result<Option<(Items<u8>, Items<u8>)>, NoMemory>
        ensures ok { (r : Rules) (blocks : List Block) → r.block_bytes ≡ block_bytes
            → IsNamed r note.now → AreKnown r self.old blocks
            → IfOk result (λ clash. Takes r blocks note.now self.new clash) }
        ensures err { OnErr result (IsUnchanged self.old.by_digest self.new.by_digest) }
    {
        let Note::Block(commitment, block) = note else {
            return Ok(None);
        };
        match self.clash_with(alloc, &commitment.block, block)? {
            Some(both) => Ok(Some(both)),
            None => {
                self.put_first(alloc, commitment.block, block)?;
                Ok(None)
            }
        }
    }

    // The encodings of the known block of that digest, where it is another, and of the block.
    fn clash_with(
        &self,
        alloc: Global,
        digest: &Digest32,
        block: &ChainBlock,
    ) -> Result<Option<(Items<u8>, Items<u8>)>, NoMemory>
        ensures { IfOk result
            (λ clash. clash ≡ option_map (λ a. (block_bytes a, block_bytes block.now))
            (other block.now (get digest_cmp self.now.by_digest digest.now))) }
    {
        match self.by_digest.get(digest) {
            None => Ok(None),
            Some(found) => {
                if found.is_same(block) {
                    Ok(None)
                } else {
                    Ok(Some((encode(alloc, found)?, encode(alloc, block)?)))
                }
            }
        }
    }

    // Keeps a block whose digest is new.
    fn put_first(
        &mut self,
        alloc: Global,
        digest: Digest32,
        block: &ChainBlock,
    ) -> Result<(), NoMemory>
        ensures ok { (q : Digest32) → OnOk result (get digest_cmp self.new.by_digest q
            ≡ option_or (get digest_cmp self.old.by_digest q)
            (if is_eq (digest_cmp q digest) then Some block.now else None)) }
        ensures err { OnErr result (IsUnchanged self.old.by_digest self.new.by_digest) }
    {
        if self.by_digest.contains_key(&digest) {
            return Ok(());
        }
        let copy = block.copy(alloc)?;
        self.by_digest.insert(digest, copy)?;
        Ok(())
    }
}

fn encode(alloc: Global, block: &ChainBlock) -> Result<Items<u8>, NoMemory>
    ensures { IfOk result (λ bytes. bytes ≡ block_bytes block.now) }
{
    let mut bytes = Vec::new(alloc);
    block.write(&mut bytes)?;
    Ok(Items::from_vec(bytes))
}
