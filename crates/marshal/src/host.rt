//! A store over a disk that notes its device calls for a host.

ghost use Rattle.std.specs.Prelude.{◌≡◌, [], map};
ghost use Rattle.node_disk.specs.Host.{told_of};

use crate::marshal::Marshal;
use cw_base::{Digest32, Hasher, Items};
use node_disk::{Disk, HostCall, HostDisk};

/// What a store over a disk for a host passes on to it.
impl<H: Hasher<Digest = Digest32>, D: Disk> Marshal<H, HostDisk<D>> {
    /// Takes the device calls that wait, as [`HostDisk::take_calls`] does.
    pub fn take_calls(&mut self) -> Items<HostCall>
        ensures taken { map told_of result ≡ self.old.disk.waiting }
        ensures rest { self.new
            ≡ record self.old { disk = record self.old.disk { waiting = [] } } }
    {
        self.log.take_calls()
    }
}
