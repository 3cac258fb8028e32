//! Where the digests of noted blocks stand.

ghost use Rattle.std.specs.Prelude.{◌≡◌, ◌++◌, ◌∷◌, [], List, None, OnErr, OnOk, Option, Some};
ghost use Rattle.std.specs.Prelude.{length, option_map};
ghost use Rattle.std.specs.Map.{lookup};
ghost use Rattle.cw_base.specs.declared.hash.Digest32.{Digest32 as DigestValue};
ghost use Rattle.cw_types.specs.Same.{same_digest};
ghost use Rattle.marshal.specs.Digests.{HaveDigests, later_place};

use crate::maps::take_last;
use cw_base::{Digest32, NoMemory};
use std::alloc::Global;
use std::collections::BTreeMap;

/// Where each digest stands first; and of one that was met again a place behind which it doesn't
/// stand, which a refused note may leave too late.
#[derive(Drop)]
pub(crate) struct ByDigest {
    pub(crate) first: BTreeMap<Digest32, u64>,
    pub(crate) again: BTreeMap<Digest32, u64>,
}

impl ByDigest {
    /// That of no notes.
    pub(crate) fn new(alloc: Global) -> ByDigest
        ensures { HaveDigests [] result.first.entries result.again.entries }
    {
        ByDigest {
            first: BTreeMap::new(alloc),
            again: BTreeMap::new(alloc),
        }
    }

    /// What stands beside a note that goes to the end. Where memory is short nothing changes.
    pub(crate) fn put(&mut self, digest: Option<Digest32>, place: u64) -> Result<(), NoMemory>
        ensures ok { (digests : List (Option DigestValue))
            → HaveDigests digests self.old.first.entries self.old.again.entries
            → place ≡ length digests
            → OnOk result (HaveDigests (digests ++ digest ∷ []) self.new.first.entries
            self.new.again.entries) }
        ensures err { OnErr result ((self.new.first.entries ≡ self.old.first.entries)
            × (self.new.again.entries ≡ self.old.again.entries)) }
    {
        match digest {
            Some(digest) => self.meet(digest, place),
            None => Ok(()),
        }
    }

    // A digest at the end.
    fn meet(&mut self, digest: Digest32, place: u64) -> Result<(), NoMemory>
        ensures ok { (digests : List (Option DigestValue))
            → HaveDigests digests self.old.first.entries self.old.again.entries
            → place ≡ length digests
            → OnOk result (HaveDigests (digests ++ Some digest ∷ []) self.new.first.entries
            self.new.again.entries) }
        ensures err { OnErr result ((self.new.first.entries ≡ self.old.first.entries)
            × (self.new.again.entries ≡ self.old.again.entries)) }
    {
        if self.first.contains_key(&digest) {
            self.again.insert(digest, place)?;
            return Ok(());
        }
        self.first.insert(digest, place)?;
        Ok(())
    }

    /// Lets what stands beside the last note go.
    pub(crate) fn take(&mut self, digest: Option<Digest32>, place: u64)
        ensures { (digests : List (Option DigestValue))
            → HaveDigests (digests ++ digest ∷ []) self.old.first.entries self.old.again.entries
            → place ≡ length digests
            → HaveDigests digests self.new.first.entries self.new.again.entries }
    {
        if let Some(digest) = digest {
            take_last(&mut self.first, &digest, place);
        }
    }

    /// Where a digest stands first, and a place behind which it doesn't stand.
    pub(crate) fn span(&self, digest: &Digest32) -> Option<(u64, u64)>
        ensures { result ≡ option_map (λ first. (
          first,
          later_place (Some first)
              (lookup (same_digest digest.now) self.now.again.entries),
        ))
            (lookup (same_digest digest.now) self.now.first.entries) }
    {
        match self.first.get(digest) {
            Some(first) => Some((*first, self.later(*first, digest))),
            None => None,
        }
    }

    // The later of a place and of the one where the digest was met again.
    fn later(&self, first: u64, digest: &Digest32) -> u64
        ensures { result ≡ later_place (Some first)
            (lookup (same_digest digest.now) self.now.again.entries) }
    {
        match self.again.get(digest) {
            Some(again) => first.max(*again),
            None => first,
        }
    }
}
