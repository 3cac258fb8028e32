//! A member, which acts by the rules.

ghost use Rattle.std.specs.Prelude.{◌≡◌, ℕ, ◌<◌, ◌≤◌, IfErr, IfOk, IsErrOf, OnErr, OnOk, false};
ghost use Rattle.std.specs.Prelude.{true};
ghost use Rattle.cw_rules.specs.Notes.{epoch_of, view_of};
ghost use Rattle.cw_rules.specs.Step as rule;
ghost use Rattle.marshal.specs.Stored.{marshal_log};
ghost use Rattle.node.specs.Disks.{HasFound, HasTried, WasRefused};
ghost use Rattle.node.specs.State.{IsAtWork, IsMarshalOf, IsNodeOf, IsSameNode, notes_of_step};
ghost use Rattle.node.specs.State.{node_rules, stepped};

use crate::holding::Holding;
use crate::leads::LeadMap;
use crate::start::Setup;
use crate::store::Store;
use crate::way::{Chunked, Way};
use cw_base::{Digest32, Hasher, NoMemory, Strategy};
use cw_rules::Travel;
use cw_types::{Application, Committees, Event, Note, StepOut, Verifier};
use marshal::Marshal;
use node_disk::{Disk, MemoryDisk, StoreError};
use std::alloc::Global;
use std::marker::{Model, PhantomData};
use std::thread::Threads;

/// Why a node did not start, or did not take an event.
pub type NodeError = StoreError;

/// A member of a cluster, with all that it knows, on its disk. The last parameter says how blocks
/// travel: a [`Node`] is a member to which they come in chunks. Contracts see it as that, its
/// number, the committees, the backlog, the application, the member of the rules and the log of its
/// notes.
///
/// `use_cluster` runs four members; parts of it:
///
/// ```text
/// // on an empty disk, or on what a crash left; it answers what a step does
/// let started = Node::start(rt, self.alloc, id, all, 3, disk, AcceptAll, &Sequential);
/// let (member, out) = started.map_err(|(_disk, error)| error)?;
/// // once it answers, the notes of the step lie on the disk
/// let out = member.step(self.rt, self.alloc, event, &Everybody, &Sequential)?;
/// ```
#[derive(Drop)]
pub struct Member<H: Hasher<Digest = Digest32>, D: Disk, A: Application + Drop, W: Way> {
    pub(crate) holding: Holding<H, D, A>,
    // What its notes lead to.
    leads: LeadMap,
    // A step was refused, by the disk or for memory.
    failed: bool,
    way: PhantomData<W>,
}

/// A member of a cluster in which blocks travel in chunks.
pub type Node<H, D, A> = Member<H, D, A, Chunked>;

impl<H: Hasher<Digest = Digest32>, D: Disk, A: Application + Drop, W: Way> Model
    for Member<H, D, A, W> {
    ghost use Rattle.std.specs.Prelude.{◌≡◌, false, not};
    ghost use Rattle.node.specs.State.{NodeState};
    ghost use Rattle.node.specs.Holding.{node_of};
    ghost use Rattle.node.specs.Standing.{IsAwake};

    ghost Value = { NodeState D A };

    ghost view = { λ n. node_of (not n.failed) n.holding };

    ghost invariant = { λ n. (n.holding.travel ≡ W.travel)
        × (n.failed ≡ false → IsAwake H.digest_of A.accepts n.holding n.leads.led.entries) };
}

// Three copies of the committees.
fn copies(
    alloc: Global,
    committees: &Committees,
) -> Result<(Committees, Committees, Committees), NoMemory>
    ensures { IfOk result (λ copies. (copies.0 ≡ committees.now)
        × ((copies.1 ≡ committees.now) × (copies.2 ≡ committees.now))) }
{
    Ok((
        committees.copy(alloc)?,
        committees.copy(alloc)?,
        committees.copy(alloc)?,
    ))
}

impl<H: Hasher<Digest = Digest32>, D: Disk, A: Application + Drop, W: Way> Member<H, D, A, W> {
    /// Starts a member on a disk: the notes of its last frame send again what they sent, each
    /// missing block is asked for, and what can be is handed out. Refused, it hands the disk back:
    /// `Foreign` where its bytes aren't frames of notes, `Disk` where the disk failed, else for
    /// want of memory.
    pub fn start<R: Threads + Sync, S: Strategy>(
        rt: &R,
        alloc: Global,
        id: u16,
        committees: Committees,
        backlog: u64,
        disk: D,
        app: A,
        strategy: &S,
    ) -> Result<(Member<H, D, A, W>, StepOut), (D, NodeError)>
        requires id { id < committees.total }
        requires backlog { 1 ≤ backlog }

        // The rules' start on the frames that it finds on the disk.
        ensures node { IfOk result (λ r. IsNodeOf id committees backlog app r.0) }
        ensures way { IfOk result (λ r. r.0.travel ≡ W.travel) }
        ensures start { IfOk result (λ r.
            stepped r.0.member r.1 ≡ rule.start
            (node_rules H.digest_of A.accepts r.0) id r.0.member.frames) }
        ensures at_work { IfOk result (λ r. IsAtWork D.state r.0) }

        // What it did to the disk, and what a crash at any moment leaves.
        ensures disk { IfOk result (λ r.
            HasFound D.state D.continues r.0.member.frames disk r.0.log.disk) }
        ensures refused { IfErr result (λ e. WasRefused D.state D.continues e.1 disk e.0) }
        // Over a calm disk it is refused for memory, or as foreign, alone.
        ensures never_fails { D.calm disk ≡ true → IfErr result (λ e. e.1 ≡ StoreError.Disk → ⊥) }
        ensures not_failed { IfErr result (λ e. e.1 ≡ StoreError.Failed → ⊥) }
    {
        let (own, first, second) = match copies(alloc, &committees) {
            Ok(copies) => copies,
            Err(NoMemory) => return Err((disk, StoreError::NoMemory)),
        };
        let store = match Store::start(alloc, committees, backlog, disk) {
            Ok(store) => store,
            Err(refused) => return Err(refused),
        };
        let setup = Setup {
            travel: W::travel(),
            id,
            committees: own,
            backlog,
            app,
        };
        let mut holding = match Holding::begin(setup, alloc, (first, second), store) {
            Ok(holding) => holding,
            Err(refused) => return Err(refused),
        };
        let mut leads = LeadMap::new(alloc);
        match holding.open(rt, alloc, strategy, &mut leads) {
            Ok(out) => {
                holding.rests();
                Ok((
                    Member {
                        holding,
                        leads,
                        failed: false,
                        way: PhantomData,
                    },
                    out,
                ))
            }
            Err(NoMemory) => Err((holding.into_disk(), StoreError::NoMemory)),
        }
    }

    /// Takes an event: accepts, notes, sends and hands out as the rules say. The notes of the step
    /// lie on the disk before it answers. Where the disk or memory fails, this and each later step
    /// are refused until the node is started again on its disk; the disk then has the notes of the
    /// steps before, with all or none of this one's.
    pub fn step<R: Threads + Sync, V: Verifier, S: Strategy>(
        &mut self,
        rt: &R,
        alloc: Global,
        event: &Event,
        verifier: &V,
        strategy: &S,
    ) -> Result<StepOut, NodeError>
        // One step of the rules.
        ensures step { IfOk result (λ out.
            stepped self.new.member out ≡ rule.step
            (node_rules H.digest_of A.accepts self.old) self.old.id
            (V.signs verifier.now) self.old.member event.now) }
        ensures same { IsSameNode self.old self.new }
        ensures at_work { OnOk result (IsAtWork D.state self.new) }

        // Refused, it is out, and so is each later step, before all else.
        ensures err { OnErr result (self.new.member.live ≡ false) }
        ensures failed { self.old.member.live ≡ false → IsErrOf result StoreError.Failed }
        ensures failed_same { self.old.member.live ≡ false → self.new ≡ self.old }
        ensures failed_only { IsErrOf result StoreError.Failed → self.old.member.live ≡ false }
        ensures not_foreign { (place : ℕ) → IsErrOf result (StoreError.Foreign place) → ⊥ }

        // The device calls, and what a crash at any moment leaves: those of one commit of its
        // notes.
        ensures disk { self.old.member.live ≡ true
            → HasTried D.state D.continues self.old.member.frames
            (notes_of_step (node_rules H.digest_of A.accepts self.old)
            (V.signs verifier.now) self.old event.now)
            result self.old.log self.new.log }
        ensures never_fails { D.calm self.old.log.disk ≡ true → IsErrOf result StoreError.Disk → ⊥ }
    {
        if self.failed {
            return Err(StoreError::Failed);
        }
        self.failed = true;
        match self
            .holding
            .act(rt, alloc, event, verifier, strategy, &mut self.leads)
        {
            Ok(out) => {
                self.holding.rests();
                self.failed = false;
                Ok(out)
            }
            Err(error) => Err(error),
        }
    }

    /// How its blocks travel, which its type says.
    pub fn travel(&self) -> Travel
        ensures value { result ≡ self.now.travel }
        ensures way { result ≡ W.travel }
    {
        self.holding.travel
    }

    /// Whether no step was refused. If so it is at work.
    pub fn is_live(&self) -> bool
        ensures live { result ≡ self.now.member.live }
        ensures at_work { self.now.member.live ≡ true → IsAtWork D.state self.now }
    {
        self.holding.rests();
        !self.failed
    }

    /// Its marshal, which answers from its notes. Once a step was refused, some of that step's may
    /// be staged in it, behind the frames of the steps before.
    pub fn marshal(&self) -> &Marshal<H, D>
        ensures value { self.now.member.live ≡ true → IsMarshalOf self.now result.now }
        // Of a node that is out too.
        ensures frames { result.now.frames ≡ self.now.member.frames }
        ensures log { marshal_log result.now ≡ self.now.log }
    {
        self.holding.marshal()
    }

    /// Its notes, in order: those of its frames.
    pub fn notes(&self) -> &[Note]
        ensures { result.now ≡ rule.member_notes self.now.member }
    {
        self.holding.store.noted()
    }

    /// The epoch that the member is in. Of a node that is out it is 0.
    pub fn epoch(&self) -> u64
        ensures place { self.now.member.live ≡ true → result
            ≡ epoch_of (rule.member_notes self.now.member) }
        ensures out { self.now.member.live ≡ false → result ≡ 0 }
    {
        if self.failed {
            0
        } else {
            self.holding.tally.epoch()
        }
    }

    /// The view of this epoch that the member is in. Of a node that is out it is 0, which no view
    /// is.
    pub fn view(&self) -> u64
        ensures place { self.now.member.live ≡ true
            → result ≡ view_of (rule.member_notes self.now.member)
            (epoch_of (rule.member_notes self.now.member)) }
        ensures out { self.now.member.live ≡ false → result ≡ 0 }
    {
        if self.failed {
            0
        } else {
            self.holding.tally.view(self.holding.tally.epoch())
        }
    }

    /// Its disk, as it stands.
    pub fn into_disk(self) -> D
        ensures { result ≡ self.log.disk }
    {
        let Member {
            holding,
            leads: _,
            failed: _,
            way: _,
        } = self;
        holding.into_disk()
    }
}

/// What a node over a disk in memory passes on to it.
impl<H: Hasher<Digest = Digest32>, A: Application + Drop, W: Way> Member<H, MemoryDisk, A, W> {
    ghost use Rattle.std.specs.Prelude.{None};
    ghost use Rattle.node_disk.specs.Memory.{is_stopped, memory_state, stop_from_now};

    /// Arms a stop of the disk, as [`MemoryDisk::stop_at`] does.
    pub fn stop_at(&mut self, call: u64, cut: u64, fill: u8)
        ensures armed { is_stopped self.old.log.disk ≡ false
            → self.new ≡ record self.old {
              log = record self.old.log {
                disk = record self.old.log.disk {
                  stop = stop_from_now self.old.log.disk call cut
                      fill;
                };
              };
            } }
        ensures stopped { is_stopped self.old.log.disk ≡ true → self.new ≡ self.old }
    {
        self.holding.stop_at(call, cut, fill);
    }

    /// Drops a stop that wasn't reached yet.
    pub fn disarm(&mut self)
        ensures dropped { is_stopped self.old.log.disk ≡ false
            → self.new ≡ record self.old {
              log = record self.old.log {
                disk = record self.old.log.disk { stop = None };
              };
            } }
        ensures stopped { is_stopped self.old.log.disk ≡ true → self.new ≡ self.old }
    {
        self.holding.disarm();
    }

    /// What a read of the disk gives.
    pub fn bytes(&self) -> &[u8]
        ensures { result.now ≡ (memory_state self.now.log.disk).now.seen }
    {
        self.holding.store.marshal.bytes()
    }
}
