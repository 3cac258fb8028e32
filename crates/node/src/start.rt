//! How a member starts on a disk.

ghost use Rattle.std.specs.Prelude.{◌≡◌, ◌<◌, ◌++◌, IfErr, IfOk, IsTrue, OnOk, [], false, true};
ghost use Rattle.std.specs.List.{list_all};
ghost use Rattle.cw_types.specs.Values.{is_storable};
ghost use Rattle.voter.specs.Known.{unknowing};
ghost use Rattle.cw_rules.specs.Step as rule;
ghost use Rattle.marshal.specs.Stored.{marshal_log};
ghost use Rattle.node.specs.Store.{store_of};
ghost use Rattle.node.specs.Holding.{begun, came_of, knowing, member_of, rules_of};
ghost use Rattle.node.specs.Standing.{IsAwake, IsReady};
ghost use Rattle.node.specs.State.{stepped};
ghost use Rattle.node.specs.Store.{stored_notes};

use crate::came::{Arrivals, ShownBlocks};
use crate::holding::Holding;
use crate::leads::LeadMap;
use crate::store::Store;
use cw_base::{Digest32, Hasher, Items, NoMemory, Strategy};
use cw_rules::Travel;
use cw_types::{Application, Committees, Note, StepOut};
use node_disk::{Disk, StoreError};
use shards::{Shards, shards_stand};
use std::alloc::Global;
use std::marker::PhantomData;
use std::thread::Threads;
use voter::{Tally, standing_is_kept};

/// How blocks travel, and the number, the committees, the backlog and the application of a member.
#[derive(Drop)]
pub(crate) struct Setup<A> {
    pub travel: Travel,
    pub id: u16,
    pub committees: Committees,
    pub backlog: u64,
    pub app: A,
}

// Tells a tally of notes that can be stored.
fn tell<H>(tally: &mut Tally<H>, notes: &[Note]) -> Result<(), NoMemory>
    requires { IsTrue (list_all is_storable notes.now) }
    ensures { OnOk result (tally.new ≡ record tally.old { notes = tally.old.notes ++ notes.now }) }
{
    for note in notes {
        tally.take_note(note)?;
    }
    Ok(())
}

impl<H: Hasher<Digest = Digest32>, D: Disk, A: Application + Drop> Holding<H, D, A> {
    /// What a node holds over a store, of whose notes its tally isn't told yet.
    pub(crate) fn over(
        setup: Setup<A>,
        alloc: Global,
        lists: (Committees, Committees),
        store: Store<H, D>,
    ) -> Holding<H, D, A>
        requires { setup.id < lists.0.total }
        ensures { result ≡ record {
          travel = setup.travel;
          id = setup.id;
          epochs = setup.committees;
          backlog = setup.backlog;
          app = setup.app;
          store = store_of store.marshal;
          log = marshal_log store.marshal;
          tally = unknowing lists.0
              setup.id;
          shards = record { epochs = lists.1; kept = [] };
          arrivals = [];
          shown = [];
          wishes = [];
        } }
    {
        let Setup {
            travel,
            id,
            committees,
            backlog,
            app,
        } = setup;
        Holding {
            travel,
            id,
            committees,
            backlog,
            app,
            store,
            tally: Tally::new(alloc, lists.0, id),
            shards: Shards::new(alloc, lists.1),
            arrivals: Arrivals::new(alloc),
            shown: ShownBlocks::new(alloc),
            wishes: Items::new(alloc),
            alloc,
            disk: PhantomData,
        }
    }

    /// The disk of the store, as it stands.
    pub(crate) fn into_disk(self) -> D
        ensures { result ≡ self.log.disk }
    {
        let Holding {
            travel: _,
            id: _,
            committees: _,
            backlog: _,
            app: _,
            store,
            tally: _,
            shards: _,
            arrivals: _,
            shown: _,
            wishes: _,
            alloc: _,
            disk: _,
        } = self;
        store.into_disk()
    }

    /// Tells the tally of the notes of the store.
    pub(crate) fn tell(&mut self) -> Result<(), NoMemory>
        ensures ok { OnOk result (self.new
            ≡ record self.old {
              tally = record self.old.tally
                  { notes = self.old.tally.notes ++ stored_notes self.old.store };
            }) }
        ensures kept { self.new ≡ knowing self.old self.new }
    {
        tell(&mut self.tally, self.store.notes())
    }

    /// What a node holds over a store that was started: its tally knows the notes. Where memory is
    /// short it hands the disk back.
    pub(crate) fn begin(
        setup: Setup<A>,
        alloc: Global,
        lists: (Committees, Committees),
        store: Store<H, D>,
    ) -> Result<Holding<H, D, A>, (D, StoreError)>
        requires id { setup.id < setup.committees.total }
        requires first { lists.0 ≡ setup.committees }
        requires second { lists.1 ≡ setup.committees }
        requires epochs { (store_of store.marshal).epochs ≡ setup.committees }
        requires backlog { (store_of store.marshal).backlog ≡ setup.backlog }
        requires quiet { (store_of store.marshal).staged ≡ [] }
        requires running { (store_of store.marshal).failed ≡ false }
        ensures value { IfOk result
            (λ h. h ≡ begun setup.travel setup.id setup.committees setup.backlog setup.app
            (store_of store.marshal) (marshal_log store.marshal)) }
        ensures ready { IfOk result (λ h. IsReady H.digest_of A.accepts h) }
        ensures err { IfErr result
            (λ e. (e.0 ≡ (marshal_log store.marshal).disk) × (e.1 ≡ StoreError.NoMemory)) }
    {
        standing_is_kept();
        shards_stand();
        let mut holding = Holding::over(setup, alloc, lists, store);
        match holding.tell() {
            Ok(()) => Ok(holding),
            Err(NoMemory) => Err((holding.into_disk(), StoreError::NoMemory)),
        }
    }

    /// What a start sends and hands out.
    pub(crate) fn open<R: Threads + Sync, S: Strategy>(
        &mut self,
        rt: &R,
        alloc: Global,
        strategy: &S,
        leads: &mut LeadMap,
    ) -> Result<StepOut, NoMemory>
        requires ready { IsReady H.digest_of A.accepts self.old }
        requires came { came_of self.old ≡ rule.nothing_came }
        requires given { self.old.store.given ≡ [] }
        requires tickets { self.old.store.tickets ≡ rule.no_tickets }
        requires nothing { leads.old.led.entries ≡ [] }
        ensures start { IfOk result
            (λ out. stepped (member_of true self.new) out
            ≡ rule.start (rules_of H.digest_of A.accepts self.old) self.old.id
            self.old.store.frames) }
        ensures awake { OnOk result
            (IsAwake H.digest_of A.accepts self.new leads.new.led.entries) }
        ensures frames { OnOk result (self.new.store.frames ≡ self.old.store.frames) }
        ensures kept { self.new ≡ knowing self.old self.new }
    {
        let mut sent = self.notes_out(rt, alloc, self.store.last_frame(), strategy)?;
        self.put_missing(alloc, 0, 0, leads, &mut sent)?;
        let handed = self.hand_out(alloc)?;
        Ok(StepOut {
            sent: Items::from_vec(sent),
            handed: Items::from_vec(handed),
            tickets: Items::new(alloc),
        })
    }
}
