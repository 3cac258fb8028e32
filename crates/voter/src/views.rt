//! The proposals of each view.

ghost use Rattle.std.specs.Prelude.{◌≡◌, ◌++◌, ◌∷◌, [], List, OnOk, false};
ghost use Rattle.std.specs.List.{list_any};
ghost use Rattle.cw_types.specs.Same.{same_proposal};
ghost use Rattle.cw_types.specs.declared.vote.Proposal.{Proposal as ProposalValue};
ghost use Rattle.note_scans.specs.Keys.{in_view};
ghost use Rattle.voter.specs.Views.{HasKey, HasRoomAt, HasViews, listed_at};

use crate::maps::put_first;
use cw_base::NoMemory;
use cw_types::Proposal;
use note_scans::VoteKey;
use std::alloc::Global;
use std::collections::BTreeMap;

/// The proposals that what came names in each view, each once, in that order.
#[derive(Drop)]
pub(crate) struct Views {
    pub(crate) by_view: BTreeMap<VoteKey, Vec<Proposal>>,
    alloc: Global,
}

// The key of a view of an epoch.
fn view_key(epoch: u64, view: u64) -> VoteKey
    ensures { result ≡ in_view 9 epoch view }
{
    VoteKey::in_view(9, epoch, view)
}

impl Views {
    /// Those of nothing that came.
    pub(crate) fn new(alloc: Global) -> Views
        ensures { HasViews [] result.by_view.entries }
    {
        Views {
            by_view: BTreeMap::new(alloc),
            alloc,
        }
    }

    /// Makes room for one more in its view.
    pub(crate) fn prepare(&mut self, proposal: &Proposal) -> Result<(), NoMemory>
        ensures same { (named : List ProposalValue) → HasViews named self.old.by_view.entries
            → HasViews named self.new.by_view.entries }
        ensures there { OnOk result
            (HasKey (in_view 9 proposal.now.epoch proposal.now.view) self.new.by_view.entries) }
        ensures room { OnOk result
            (HasRoomAt (in_view 9 proposal.now.epoch proposal.now.view)
            self.new.by_view.entries) }
    {
        let key = view_key(proposal.epoch, proposal.view);
        put_first(&mut self.by_view, key, Vec::new(self.alloc))?;
        if let Some(list) = self.by_view.get_mut(&key) {
            list.reserve(1)?;
        }
        Ok(())
    }

    /// One more is named that wasn't. Takes no memory.
    pub(crate) fn take(&mut self, proposal: &Proposal)
        requires room { HasRoomAt (in_view 9 proposal.now.epoch proposal.now.view)
            self.old.by_view.entries }
        ensures { (named : List ProposalValue)
            → HasKey (in_view 9 proposal.now.epoch proposal.now.view) self.old.by_view.entries
            → list_any (same_proposal proposal.now) named ≡ false
            → HasViews named self.old.by_view.entries
            → HasViews (named ++ proposal.now ∷ []) self.new.by_view.entries }
    {
        let key = view_key(proposal.epoch, proposal.view);
        if let Some(list) = self.by_view.get_mut(&key) {
            list.push_reserved(*proposal);
        }
    }

    /// Those of a view of an epoch.
    pub(crate) fn of(&self, epoch: u64, view: u64) -> &[Proposal]
        ensures { result.now ≡ listed_at (in_view 9 epoch view) self.now.by_view.entries }
    {
        match self.by_view.get(&view_key(epoch, view)) {
            Some(list) => list.as_slice(),
            None => &[],
        }
    }
}
