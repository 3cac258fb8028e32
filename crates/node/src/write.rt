//! Notes that are written.

ghost use Rattle.std.specs.Prelude.{◌≡◌, ◌∷◌, [], IsTrue, OnOk};
ghost use Rattle.cw_types.specs.Values.{is_storable};
ghost use Rattle.cw_rules.specs.Step.{marks, settle};
ghost use Rattle.node.specs.Holding.{own_state, knowing, rules_of};
ghost use Rattle.node.specs.Noting.{HasNoted};
ghost use Rattle.node.specs.Standing.{OwesLast, OwesNoBlock, PartsStand};

use crate::holding::Holding;
use cw_base::{Digest32, Hasher, NoMemory};
use cw_rules::bound_laws;
use cw_types::{Application, Note};
use node_disk::Disk;
use std::alloc::Global;
use voter::standing_is_kept;

impl<H: Hasher<Digest = Digest32>, D: Disk, A: Application> Holding<H, D, A> {
    /// Writes a note, which then waits for a commit.
    pub(crate) fn write(&mut self, note: Note) -> Result<(), NoMemory>
        requires stands { PartsStand H.digest_of A.accepts self.old }
        requires storable { IsTrue (is_storable note) }
        ensures ok { OnOk result (HasNoted H.digest_of A.accepts (note ∷ []) self.old self.new) }
        ensures kept { self.new ≡ knowing self.old self.new }
    {
        standing_is_kept();
        self.tally.take_note(&note)?;
        self.store.stage(note)?;
        Ok(())
    }

    /// Writes the notes that are owed, until none is.
    pub(crate) fn settle(&mut self, alloc: Global) -> Result<(), NoMemory>
        requires stands { PartsStand H.digest_of A.accepts self.old }
        requires last { OwesLast (rules_of H.digest_of A.accepts self.old) (own_state self.old) }
        ensures ok { OnOk result (HasNoted H.digest_of A.accepts
            (settle (rules_of H.digest_of A.accepts self.old) self.old.id
            (marks (own_state self.old)) (own_state self.old)) self.old self.new) }
        ensures rests { OnOk result
            (OwesNoBlock (rules_of H.digest_of A.accepts self.new) (own_state self.new)) }
        ensures kept { self.new ≡ knowing self.old self.new }
    {
        bound_laws();
        'settling: while let Some(note) = self.owed(alloc)? {
            self.write(note)?;
        }
        Ok(())
    }
}
