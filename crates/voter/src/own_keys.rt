//! Which chunks of a member's own came, by what they are of and their place.

ghost use Rattle.std.specs.Prelude.{◌≡◌, ◌++◌, ◌∷◌, [], List, OnErr, OnOk};
ghost use Rattle.std.specs.List.{list_any};
ghost use Rattle.voter.specs.Known.{is_own_at};
ghost use Rattle.voter.specs.Own.{HasOwn, own_key};
ghost use Rattle.voter.specs.declared.own.OwnChunk.{OwnChunk as OwnValue};

use crate::maps::put_first;
use cw_base::NoMemory;
use cw_types::Commitment;
use note_scans::VoteKey;
use std::alloc::Global;
use std::collections::BTreeMap;

/// The chunks that came: those that have a key.
#[derive(Drop)]
pub(crate) struct OwnKeys {
    pub(crate) by_key: BTreeMap<VoteKey, bool>,
}

// The key of a chunk.
fn own_key(commitment: &Commitment, index: u16) -> VoteKey
    ensures { result ≡ own_key commitment.now index }
{
    VoteKey {
        kind: 8,
        epoch: index as u64,
        view: 0,
        parent: 0,
        payload: *commitment,
    }
}

impl OwnKeys {
    /// That of nothing that came.
    pub(crate) fn new(alloc: Global) -> OwnKeys
        ensures { HasOwn [] result.by_key.entries }
    {
        OwnKeys {
            by_key: BTreeMap::new(alloc),
        }
    }

    /// A chunk came. Where memory is short nothing changes.
    pub(crate) fn take(&mut self, commitment: &Commitment, index: u16) -> Result<(), NoMemory>
        ensures ok { (own : List OwnValue) (x : OwnValue) → HasOwn own self.old.by_key.entries
            → x.commitment ≡ commitment.now → x.index ≡ index
            → OnOk result (HasOwn (own ++ x ∷ []) self.new.by_key.entries) }
        ensures err { OnErr result (self.new.by_key.entries ≡ self.old.by_key.entries) }
    {
        put_first(&mut self.by_key, own_key(commitment, index), true)?;
        Ok(())
    }

    /// Whether the chunk at that place of that commitment came.
    pub(crate) fn has(&self, index: u16, commitment: &Commitment) -> bool
        ensures { (own : List OwnValue) → HasOwn own self.now.by_key.entries
            → result ≡ list_any (is_own_at index commitment.now) own }
    {
        self.by_key.contains_key(&own_key(commitment, index))
    }
}
