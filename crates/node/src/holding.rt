//! What a node holds between its calls.

ghost use Rattle.std.specs.Prelude.{◌≡◌, List, false, map};
ghost use Rattle.cw_types.specs.declared.note.Note.{Note as NoteValue};
ghost use Rattle.marshal.specs.Frames.{FindsAllOrNone, ReadBack, frame_bytes};
ghost use Rattle.marshal.specs.Stored.{marshal_log};
ghost use Rattle.node_disk.specs.Disk.{LeavesOnly};
ghost use Rattle.node_disk.specs.Log.{HasSettled};
ghost use Rattle.node.specs.Store.{store_of};

use crate::came::{Arrivals, ShownBlocks};
use crate::store::Store;
use cw_base::{Digest32, Hasher, Items};
use cw_rules::Travel;
use cw_types::{Application, Commitment, Committees};
use marshal::Marshal;
use node_disk::{Disk, MemoryDisk};
use shards::Shards;
use std::alloc::Global;
use std::marker::{Model, PhantomData};
use voter::Tally;

/// What a node holds between its calls. Contracts see it as a record of what its parts tell.
#[derive(Drop)]
pub(crate) struct Holding<H: Hasher<Digest = Digest32>, D: Disk, A> {
    pub travel: Travel,
    pub id: u16,
    pub committees: Committees,
    pub backlog: u64,
    pub app: A,
    pub store: Store<H, D>,
    pub tally: Tally<H>,
    pub shards: Shards<H>,
    pub arrivals: Arrivals,
    pub shown: ShownBlocks,
    pub wishes: Items<Commitment>,
    pub alloc: Global,
    pub disk: PhantomData<D>,
}

impl<H: Hasher<Digest = Digest32>, D: Disk, A> Model for Holding<H, D, A> {
    ghost use Rattle.marshal.specs.Stored.{marshal_log};
    ghost use Rattle.node.specs.Holding.{Holding};
    ghost use Rattle.node.specs.Store.{store_of};

    ghost Value = { Holding D A };

    ghost view = { λ h. record {
      travel = h.travel;
      id = h.id;
      epochs = h.committees;
      backlog = h.backlog;
      app = h.app;
      store = store_of h.store.marshal;
      log = marshal_log h.store.marshal;
      tally = h.tally;
      shards = h.shards;
      arrivals = h.arrivals;
      shown = h.shown;
      wishes = h.wishes;
    } };
}

impl<H: Hasher<Digest = Digest32>, D: Disk, A: Application> Holding<H, D, A> {
    /// A law, of what every node holds: its log is that of its frames, which read back; and unless
    /// the disk is in doubt it is at rest, so that a crash where no device is called leaves the
    /// frames.
    pub(crate) fn rests(&self)
        ensures running { self.now.log.failed ≡ self.now.store.failed }
        ensures frames { self.now.log.frames ≡ map frame_bytes self.now.store.frames }
        ensures readable { ReadBack self.now.store.frames }
        ensures settled { self.now.store.failed ≡ false
            → HasSettled self.now.log.frames self.now.log.gate (D.state self.now.log.disk).now }
        ensures still { self.now.store.failed ≡ false → (notes : List NoteValue)
            → LeavesOnly (D.state self.now.log.disk) (D.state self.now.log.disk)
            (FindsAllOrNone self.now.store.frames notes) }
    {
        self.store.rests();
    }

    /// The marshal.
    pub(crate) fn marshal(&self) -> &Marshal<H, D>
        ensures store { store_of result.now ≡ self.now.store }
        ensures log { marshal_log result.now ≡ self.now.log }
    {
        &self.store.marshal
    }
}

impl<H: Hasher<Digest = Digest32>, A: Application> Holding<H, MemoryDisk, A> {
    ghost use Rattle.std.specs.Prelude.{None, true};
    ghost use Rattle.node_disk.specs.Memory.{is_stopped, stop_from_now};

    /// Arms a stop of the disk.
    pub(crate) fn stop_at(&mut self, call: u64, cut: u64, fill: u8)
        ensures armed { is_stopped self.old.log.disk ≡ false
            → self.new ≡ record self.old {
              log = record self.old.log {
                disk = record self.old.log.disk {
                  stop = stop_from_now self.old.log.disk call cut
                      fill;
                };
              };
            } }
        ensures stopped { is_stopped self.old.log.disk ≡ true → self.new ≡ self.old }
    {
        self.store.marshal.stop_at(call, cut, fill);
    }

    /// Drops a stop that wasn't reached yet.
    pub(crate) fn disarm(&mut self)
        ensures dropped { is_stopped self.old.log.disk ≡ false
            → self.new ≡ record self.old {
              log = record self.old.log {
                disk = record self.old.log.disk { stop = None };
              };
            } }
        ensures stopped { is_stopped self.old.log.disk ≡ true → self.new ≡ self.old }
    {
        self.store.marshal.disarm();
    }
}
