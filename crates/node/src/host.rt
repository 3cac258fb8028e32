//! A node over a disk that notes its device calls for a host.

ghost use Rattle.std.specs.Prelude.{◌≡◌, [], map};
ghost use Rattle.node_disk.specs.Host.{told_of};

use crate::holding::Holding;
use crate::member::Member;
use crate::way::Way;
use cw_base::{Digest32, Hasher, Items};
use cw_types::Application;
use node_disk::{Disk, HostCall, HostDisk};

impl<H: Hasher<Digest = Digest32>, D: Disk, A: Application> Holding<H, HostDisk<D>, A> {
    /// Takes the device calls that wait.
    pub(crate) fn take_calls(&mut self) -> Items<HostCall>
        ensures taken { map told_of result ≡ self.old.log.disk.waiting }
        ensures rest { self.new
            ≡ record self.old {
              log = record self.old.log { disk = record self.old.log.disk { waiting = [] } };
            } }
    {
        self.store.marshal.take_calls()
    }
}

/// What a node over a disk for a host passes on to it.
impl<H: Hasher<Digest = Digest32>, D: Disk, A: Application + Drop, W: Way> Member<
    H,
    HostDisk<D>,
    A,
    W,
> {
    /// Takes the device calls that wait, as [`HostDisk::take_calls`] does. Behind a step that
    /// answered they are those of the one append of its notes, so a host makes them on its file
    /// before it sends or hands out anything of that step's.
    pub fn take_calls(&mut self) -> Items<HostCall>
        ensures taken { map told_of result ≡ self.old.log.disk.waiting }
        ensures rest { self.new
            ≡ record self.old {
              log = record self.old.log { disk = record self.old.log.disk { waiting = [] } };
            } }
    {
        self.holding.take_calls()
    }
}
