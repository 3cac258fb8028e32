//! The notes that a disk's bytes hold, found without a start.

ghost use Rattle.std.specs.Prelude.{◌≡◌, Err, IfOk, IsErrOf, IsTrue, Ok, ℕ};
ghost use Rattle.std.specs.List.{list_all};
ghost use Rattle.cw_types.specs.Values.{is_storable};
ghost use Rattle.marshal.specs.Stored.{read_notes};

use crate::frames::Loading;
use crate::marshal::MarshalError;
use cw_base::Items;
use cw_types::Note;
use node_disk::{StoreError, read_records};
use std::alloc::Global;

/// The notes that a start on a disk of these bytes has, in order. `Foreign` comes exactly where
/// such a start answers it, and beside it only want of memory.
pub fn notes_on(alloc: Global, bytes: &[u8]) -> Result<Items<Note>, MarshalError>
    ensures ok { IfOk result (λ notes. read_notes bytes.now ≡ Ok notes) }
    ensures storable { IfOk result (λ notes. IsTrue (list_all is_storable notes)) }
    ensures foreign { (place : ℕ) → IsErrOf result (StoreError.Foreign place)
        → read_notes bytes.now ≡ Err place }
    ensures disk { IsErrOf result StoreError.Disk → ⊥ }
    ensures failed { IsErrOf result StoreError.Failed → ⊥ }
{
    let mut loading = Loading::new(alloc);
    match read_records(alloc, bytes, &mut loading) {
        Ok(()) => Ok(Items::from_vec(loading.into_notes())),
        Err(error) => Err(error),
    }
}
