//! A disk as the log sees it.

ghost use Rattle.std.specs.Prelude.{◌≡◌, ◌≤◌, length, Bool, true, false, IfOk, OnOk, IsErrOf};
ghost use Rattle.cw_base.specs.Causes.{Rose};
ghost use Rattle.node_disk.specs.Images.{IsImage};
ghost use Rattle.node_disk.specs.Disk.{DiskState, HasWritten, HasFailedToWrite, HasSynced};
ghost use Rattle.node_disk.specs.Disk.{HasFailedToSync, IsSame};

use std::alloc::{AllocError, Global};
use thiserror::Error;

/// Why a call of a disk did not succeed.
#[derive(Clone, Copy, Debug, PartialEq, Eq, Error)]
pub enum DiskError {
    /// The disk failed, and counted it.
    #[error("the disk failed")]
    Failed,
    /// Memory was refused, and nothing was done to the disk.
    #[error("memory ran out, and nothing was done to the disk")]
    NoMemory,
}

impl From<AllocError> for DiskError {
    ghost use Rattle.std.specs.Prelude.{◌≡◌};
    ghost use Rattle.node_disk.specs.declared.disk.DiskError.TheVariants.{NoMemory};

    ghost from_gives = { λ _ e. e ≡ NoMemory };

    fn from(_: AllocError) -> Self {
        DiskError::NoMemory
    }
}

/// A disk of bytes, numbered from 0.
///
/// Between two syncs a crash may leave any bytes in each range that was written, and past the old
/// end; bytes outside stay. After a sync that succeeds, a crash leaves what a read gives. A write
/// that fails counts as a written range, and a sync that fails as no sync.
pub trait Disk: Send + Sync {
    /// What the disk tells of itself: what a read gives, what a crash now or at an earlier moment
    /// may leave, its device calls where it tells them, and two counts that never fall, of calls
    /// that failed and of device calls tried.
    ghost state: { Self → DiskState };

    /// The second is the first after calls of this trait alone.
    ghost continues: { Self → Self → Type 0 };

    /// No call to come fails. A disk that doesn't tell isn't calm.
    ghost calm: { Self → Bool } = { λ _. false };

    /// All the bytes. This is no device call, and changes nothing.
    fn read_all(&mut self, alloc: Global) -> Result<Vec<u8>, DiskError>
        ensures bytes { IfOk result (λ bytes. bytes.items ≡ (state self.old).now.seen) }
        ensures same { IsSame (state self.old) (state self.new) }
        ensures tries { (state self.new).tries ≡ (state self.old).tries }
        ensures faults { (state self.old).faults ≤ (state self.new).faults }
        ensures cause { IsErrOf result DiskError.Failed
            → Rose (state self.old).faults (state self.new).faults }
        ensures never_fails { calm self.old ≡ true → IsErrOf result DiskError.Failed → ⊥ }
        ensures continues { continues self.old self.new };

    /// Writes over what is there from `place` on, and past the end.
    fn write_at(&mut self, place: u64, bytes: &[u8]) -> Result<(), DiskError>
        requires { place ≤ length (state self.old).now.seen }
        ensures ok { OnOk result (HasWritten place bytes.now (state self.old) (state self.new)) }
        ensures failed { IsErrOf result DiskError.Failed
            → HasFailedToWrite place bytes.now (state self.old) (state self.new) }
        ensures no_memory { IsErrOf result DiskError.NoMemory
            → IsSame (state self.old) (state self.new) }
        ensures tried { Rose (state self.old).tries (state self.new).tries }
        ensures faults { (state self.old).faults ≤ (state self.new).faults }
        ensures never_fails { calm self.old ≡ true → IsErrOf result DiskError.Failed → ⊥ }
        ensures continues { continues self.old self.new };

    /// Brings all that was written onto the disk: a crash then leaves what a read gives.
    fn sync(&mut self) -> Result<(), DiskError>
        ensures ok { OnOk result (HasSynced (state self.old) (state self.new)) }
        ensures failed { IsErrOf result DiskError.Failed
            → HasFailedToSync (state self.old) (state self.new) }
        ensures no_memory { IsErrOf result DiskError.NoMemory
            → IsSame (state self.old) (state self.new) }
        ensures tried { Rose (state self.old).tries (state self.new).tries }
        ensures faults { (state self.old).faults ≤ (state self.new).faults }
        ensures never_fails { calm self.old ≡ true → IsErrOf result DiskError.Failed → ⊥ }
        ensures continues { continues self.old self.new };

    /// What a read gives is itself one of the images that a crash now may leave.
    ghost seen_is_image: { (disk : Self) → IsImage (state disk).now (state disk).now.seen };

    /// No call at all goes on.
    ghost continues_itself: { (disk : Self) → continues disk disk };

    /// What goes on twice goes on.
    ghost continues_on: { (a b c : Self) → continues a b → continues b c → continues a c };

    /// A calm disk stays calm.
    ghost stays_calm: { (old new : Self) → continues old new → calm old ≡ true → calm new ≡ true };
}
