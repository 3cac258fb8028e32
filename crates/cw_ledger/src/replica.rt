//! A replica of the ledger: how it starts, and how it applies blocks.

ghost use Rattle.std.specs.Prelude.{◌≡◌, ◌⊎◌, ◌<◌, ◌≤◌, ◌∷◌, ◌++◌, [], ℕ, List, length, true};
ghost use Rattle.std.specs.Prelude.{false, None, Err, IfErr, IfOk, IsErrOf, OnErr, OnOk};
ghost use Rattle.cw_base.specs.Causes.{Rose};
ghost use Rattle.node_disk.specs.Disk.{HasTold, IsCutShort, IsFront, LeavesOnly, Synced};
ghost use Rattle.node_disk.specs.Images.{IsImage};
ghost use Rattle.node_disk.specs.Log.{HasAppended, HasSettled, WasCutShort, calls_of_append};
ghost use Rattle.node_disk.specs.Log.{start_calls};
ghost use Rattle.cw_ledger.specs.Frames.{FindsEither, FindsPayloads, IsBeforeOrPayloads};
ghost use Rattle.cw_ledger.specs.Frames.{read_payloads};
ghost use Rattle.cw_ledger.specs.Ledger.{answer_to, applied, frame_of, last_applied, replica_log};
ghost use Rattle.cw_ledger.specs.Ledger.{replica_over};
ghost use Rattle.cw_ledger.specs.Ledger.{replica_started, written_for};
ghost use Rattle.cw_ledger.specs.Transfers.{balances, holdings};

use crate::balances::{Balances, Holding};
use crate::frames::{Loading, frame_of};
use crate::transfer::transfers_of;
use cw_base::{Items, NoMemory};
use cw_types::ChainBlock;
use node_disk::{Disk, MemoryDisk, RecordLog, StoreError, law_of_reads};
use std::alloc::Global;
use std::marker::Model;

/// What a replica did with a block.
#[derive(Clone, Copy, Debug, PartialEq, Eq)]
pub enum Applied {
    /// The block is applied, and its frame is on the disk.
    Done,
    /// A block of this height was applied before.
    Known,
    /// The block's height is above the next one, which is this.
    Gap(u64),
}

/// A replica of the ledger, on the log of its disk. It applies blocks in the order of their
/// heights, each once, and keeps the balances that their transfers leave.
///
/// ```text
/// let mut replica = match Replica::start(alloc, disk) {
///     Ok(replica) => replica,
///     Err((_disk, error)) => return Err(error),
/// };
/// match replica.apply(alloc, &block)? {
///     Applied::Done => {} // on the disk from here on
///     Applied::Known => {} // it was applied before
///     Applied::Gap(next) => {} // the block of height `next` is missing
/// }
/// let amount = replica.balance(7);
/// let disk = replica.into_disk(); // a start on it finds all of this
/// ```
///
/// `crates/use_products` gives one a block too early, in its turn and again, and restarts it.
#[derive(Drop)]
pub struct Replica<D: Disk> {
    log: RecordLog<D>,
    balances: Balances,
}

impl<D: Disk> Model for Replica<D> {
    ghost use Rattle.cw_ledger.specs.Kept.{KeepBalances, kept_payloads};
    ghost use Rattle.cw_ledger.specs.Ledger.{Ledger};
    ghost use Rattle.node_disk.specs.RecordWords.{has_failed, log_disk, log_frames, log_gate};

    ghost Value = { Ledger D };

    ghost view = { λ r. record {
      payloads = kept_payloads (log_frames r.log);
      gate = log_gate r.log;
      failed = has_failed r.log;
      disk = log_disk r.log;
    } };

    ghost invariant = { λ r. KeepBalances (log_frames r.log) r.balances };
}

impl<D: Disk> Replica<D> {
    /// Opens the replica of a disk: it syncs, reads, and where the file is shorter than two bytes
    /// writes a closed gate and syncs. An `Err` hands the disk back.
    pub fn start(alloc: Global, disk: D) -> Result<Replica<D>, (D, StoreError)>
        // The payloads are those of the bytes that it found, or a frame there is cut, too short or
        // of another height.
        ensures ok { IfOk result (λ r. r ≡ replica_started r.payloads r.gate r.disk) }
        ensures found { IfOk result (λ r. FindsPayloads r.payloads (D.state disk).now.seen) }
        ensures settled { IfOk result
            (λ r. HasSettled (replica_log r).frames r.gate (D.state r.disk).now) }
        ensures on_disk { IfOk result (λ r. (image : List ℕ)
            → IsImage (D.state r.disk).now image → FindsPayloads r.payloads image) }
        ensures foreign { (place : ℕ) → IfErr result (λ e. e.1 ≡ StoreError.Foreign place
            → read_payloads (D.state disk).now.seen ≡ Err place) }
        ensures foreign_again { (place : ℕ) → IfErr result (λ e. e.1 ≡ StoreError.Foreign place
            → read_payloads (D.state e.0).now.seen ≡ Err place) }

        // They stay in each image from the first sync on, and before it no other image than before
        // can be left.
        ensures any_moment { IfOk result (λ r.
            LeavesOnly (D.state disk) (D.state r.disk) (IsBeforeOrPayloads (D.state disk).now)) }
        ensures any_moment_err { IfErr result (λ e.
            LeavesOnly (D.state disk) (D.state e.0) (IsBeforeOrPayloads (D.state disk).now)) }

        // The device calls: all of them, or up to the first that fails. A read that fails comes
        // after the sync.
        ensures calls { IfOk result (λ r.
            HasTold (start_calls (D.state disk).now.seen) (D.state disk) (D.state r.disk)) }
        ensures calls_foreign { (place : ℕ) → IfErr result (λ e. e.1 ≡ StoreError.Foreign place
            → HasTold (start_calls (D.state disk).now.seen) (D.state disk) (D.state e.0)) }
        ensures calls_failed { IfErr result (λ e. e.1 ≡ StoreError.Disk
            → IsCutShort (start_calls (D.state disk).now.seen) (D.state disk) (D.state e.0)
            ⊎ HasTold (Synced true ∷ []) (D.state disk) (D.state e.0)) }
        ensures calls_no_memory { IfErr result (λ e. e.1 ≡ StoreError.NoMemory
            → IsFront (start_calls (D.state disk).now.seen) (D.state disk) (D.state e.0)) }

        ensures cause { IfErr result (λ e. e.1 ≡ StoreError.Disk
            → Rose (D.state disk).faults (D.state e.0).faults) }
        ensures faults { IfOk result (λ r. (D.state disk).faults ≤ (D.state r.disk).faults) }
        ensures faults_err { IfErr result (λ e. (D.state disk).faults ≤ (D.state e.0).faults) }
        ensures never_fails { D.calm disk ≡ true → IfErr result (λ e. e.1 ≡ StoreError.Disk → ⊥) }
        ensures not_failed { IfErr result (λ e. e.1 ≡ StoreError.Failed → ⊥) }
        ensures continues { IfOk result (λ r. D.continues disk r.disk) }
        ensures continues_err { IfErr result (λ e. D.continues disk e.0) }
    {
        law_of_reads::<D>();
        let mut loading = match Loading::new(alloc) {
            Ok(loading) => loading,
            Err(NoMemory) => return Err((disk, StoreError::NoMemory)),
        };
        match RecordLog::start(alloc, disk, &mut loading) {
            Ok(log) => Ok(Replica {
                log,
                balances: loading.into_balances(),
            }),
            Err(refused) => Err(refused),
        }
    }

    /// Applies a block, by its height: a block of the next height is written on the disk and its
    /// transfers pass, in order; one below it is known; one above it leaves a gap. A transfer of
    /// more than its account has, or from an account to itself, is passed over. Refused for memory
    /// before a device call, it changes nothing.
    pub fn apply(&mut self, alloc: Global, block: &ChainBlock) -> Result<Applied, StoreError>
        ensures answer { IfOk result
            (λ answer. answer ≡ answer_to (length self.old.payloads) block.now.height) }
        ensures ok { OnOk result
            (self.new
            ≡ record (replica_over self.old self.new)
            { payloads = applied self.old.payloads block.now }) }
        ensures err { OnErr result (self.new ≡ replica_over self.old self.new) }
        ensures settled { self.new.failed ≡ false
            → HasSettled (replica_log self.new).frames self.new.gate (D.state self.new.disk).now }

        // After it each image has all payloads, the new one too.
        ensures on_disk { OnOk result ((image : List ℕ)
            → IsImage (D.state self.new.disk).now image → FindsPayloads self.new.payloads image) }

        // A crash at any moment of the call leaves the payloads from before it, or those after it.
        ensures any_moment { self.old.failed ≡ false
            → LeavesOnly (D.state self.old.disk) (D.state self.new.disk)
            (FindsEither self.old.payloads (applied self.old.payloads block.now)) }

        // The device calls: those of one append, or up to the first that fails.
        ensures appended { OnOk result
            (HasAppended D.state D.continues (written_for self.old.payloads block.now)
            (replica_log self.old) (replica_log self.new)) }
        ensures cut_short { IsErrOf result StoreError.Disk
            → WasCutShort D.state D.continues (written_for self.old.payloads block.now)
            (replica_log self.old) (replica_log self.new) }
        ensures calls_no_memory { IsErrOf result StoreError.NoMemory
            → IsFront (calls_of_append self.old.gate (written_for self.old.payloads block.now))
            (D.state self.old.disk) (D.state self.new.disk) }

        // Each answer and its cause, and whether later calls answer `Failed`.
        ensures works { OnOk result ((self.old.failed ≡ false) × (self.new.failed ≡ false)) }
        ensures disk { IsErrOf result StoreError.Disk → self.new.failed ≡ true }
        ensures disk_cause { IsErrOf result StoreError.Disk
            → Rose (D.state self.old.disk).faults (D.state self.new.disk).faults }
        ensures never_fails { D.calm self.old.disk ≡ true → IsErrOf result StoreError.Disk → ⊥ }
        ensures faults { (D.state self.old.disk).faults ≤ (D.state self.new.disk).faults }
        ensures failed { self.old.failed ≡ true → IsErrOf result StoreError.Failed }
        ensures failed_same { self.old.failed ≡ true → self.new ≡ self.old }
        ensures failed_only { IsErrOf result StoreError.Failed → self.old.failed ≡ true }
        ensures no_memory { IsErrOf result StoreError.NoMemory → (self.new ≡ self.old)
            ⊎ ((self.new.failed ≡ true)
            × Rose (D.state self.old.disk).tries (D.state self.new.disk).tries) }
        ensures not_foreign { (place : ℕ) → IsErrOf result (StoreError.Foreign place) → ⊥ }
        ensures continues { D.continues self.old.disk self.new.disk }
    {
        if self.log.is_failed() {
            return Err(StoreError::Failed);
        }
        self.rests();
        let next = self.log.frames() as u64;
        let height = block.height();
        if height < next {
            return Ok(Applied::Known);
        }
        if next < height {
            return Ok(Applied::Gap(next));
        }
        match self.add(alloc, block.payload().bytes()) {
            Ok(()) => Ok(Applied::Done),
            Err(error) => Err(error),
        }
    }

    // Writes the payload of the next height on the disk, and then passes its transfers.
    fn add(&mut self, alloc: Global, payload: &[u8]) -> Result<(), StoreError>
        requires { self.old.failed ≡ false }
        ensures ok { OnOk result
            (self.new
            ≡ record (replica_over self.old self.new) {
              payloads = self.old.payloads ++ payload.now
                  ∷ [];
            }) }
        ensures err { OnErr result (self.new ≡ replica_over self.old self.new) }
        ensures settled { self.new.failed ≡ false
            → HasSettled (replica_log self.new).frames self.new.gate (D.state self.new.disk).now }
        ensures on_disk { OnOk result ((image : List ℕ)
            → IsImage (D.state self.new.disk).now image → FindsPayloads self.new.payloads image) }
        ensures any_moment { LeavesOnly (D.state self.old.disk) (D.state self.new.disk)
            (FindsEither self.old.payloads (self.old.payloads ++ payload.now ∷ [])) }
        ensures appended { OnOk result
            (HasAppended D.state D.continues (frame_of (length self.old.payloads, payload.now))
            (replica_log self.old) (replica_log self.new)) }
        ensures cut_short { IsErrOf result StoreError.Disk
            → WasCutShort D.state D.continues (frame_of (length self.old.payloads, payload.now))
            (replica_log self.old) (replica_log self.new) }
        ensures calls_no_memory { IsErrOf result StoreError.NoMemory
            → IsFront
            (calls_of_append self.old.gate (frame_of (length self.old.payloads, payload.now)))
            (D.state self.old.disk) (D.state self.new.disk) }
        ensures works { OnOk result (self.new.failed ≡ false) }
        ensures disk { IsErrOf result StoreError.Disk → self.new.failed ≡ true }
        ensures disk_cause { IsErrOf result StoreError.Disk
            → Rose (D.state self.old.disk).faults (D.state self.new.disk).faults }
        ensures never_fails { D.calm self.old.disk ≡ true → IsErrOf result StoreError.Disk → ⊥ }
        ensures faults { (D.state self.old.disk).faults ≤ (D.state self.new.disk).faults }
        ensures not_failed { IsErrOf result StoreError.Failed → ⊥ }
        ensures no_memory { IsErrOf result StoreError.NoMemory → (self.new ≡ self.old)
            ⊎ ((self.new.failed ≡ true)
            × Rose (D.state self.old.disk).tries (D.state self.new.disk).tries) }
        ensures not_foreign { (place : ℕ) → IsErrOf result (StoreError.Foreign place) → ⊥ }
        ensures continues { D.continues self.old.disk self.new.disk }
    {
        let next = self.log.frames() as u64;
        let transfers = match transfers_of(alloc, payload) {
            Ok(transfers) => transfers,
            Err(NoMemory) => return Err(StoreError::NoMemory),
        };
        let frame = match frame_of(alloc, next, payload) {
            Ok(frame) => frame,
            Err(NoMemory) => return Err(StoreError::NoMemory),
        };
        if let Err(NoMemory) = self.balances.make_room(&transfers) {
            return Err(StoreError::NoMemory);
        }
        match self.log.append(&frame) {
            Ok(()) => {
                self.balances.pass_all(&transfers);
                Ok(())
            }
            Err(error) => Err(error),
        }
    }

    /// A law, of every replica that isn't failed: its log is at rest, a start finds its payloads in
    /// each image, and where no device is called that stays so.
    pub fn rests(&self)
        ensures settled { self.now.failed ≡ false
            → HasSettled (replica_log self.now).frames self.now.gate (D.state self.now.disk).now }
        ensures found { self.now.failed ≡ false → (image : List ℕ)
            → IsImage (D.state self.now.disk).now image → FindsPayloads self.now.payloads image }
        ensures stays { self.now.failed ≡ false → (others : List (List ℕ))
            → LeavesOnly (D.state self.now.disk) (D.state self.now.disk)
            (FindsEither self.now.payloads others) }
        ensures nothing { self.now.failed ≡ false
            → HasAppended D.state D.continues [] (replica_log self.now) (replica_log self.now) }
    {
        let _log = &self.log;
    }

    /// The height that was applied last, none where none was. It takes no memory.
    pub fn height(&self) -> Option<u64>
        ensures { result ≡ last_applied (length self.now.payloads) }
    {
        match self.log.frames() {
            0 => None,
            count => Some(count as u64 - 1),
        }
    }

    /// What an account has. Before the first block account 0 has 1,000,000,000, and the others have
    /// nothing. It takes no memory.
    pub fn balance(&self, account: u32) -> u64
        ensures { result ≡ balances self.now.payloads account }
    {
        self.balances.amount(account)
    }

    /// The accounts that hold something, by number, and what they hold.
    pub fn holdings(&self, alloc: Global) -> Result<Items<Holding>, NoMemory>
        ensures { IfOk result (λ found. found ≡ holdings (balances self.now.payloads)) }
    {
        let found = self.balances.holdings(alloc)?;
        Ok(Items::from_vec(found))
    }

    /// The disk, as it stands.
    pub fn into_disk(self) -> D
        ensures { result ≡ self.disk }
    {
        let Replica { log, balances: _ } = self;
        log.into_disk()
    }
}

/// What a replica over a disk in memory passes on to it.
impl Replica<MemoryDisk> {
    ghost use Rattle.node_disk.specs.Memory.{memory_state, is_stopped, stop_from_now};

    /// Arms a stop of the disk, as [`MemoryDisk::stop_at`] does.
    pub fn stop_at(&mut self, call: u64, cut: u64, fill: u8)
        ensures armed { is_stopped self.old.disk ≡ false
            → self.new
            ≡ record self.old {
              disk = record self.old.disk {
                stop = stop_from_now self.old.disk
                    call cut fill;
              };
            } }
        ensures stopped { is_stopped self.old.disk ≡ true → self.new ≡ self.old }
        ensures state { memory_state self.new.disk ≡ memory_state self.old.disk }
    {
        self.log.stop_at(call, cut, fill);
    }

    /// Drops a stop of the disk that wasn't reached.
    pub fn disarm(&mut self)
        ensures dropped { is_stopped self.old.disk ≡ false
            → self.new ≡ record self.old { disk = record self.old.disk { stop = None } } }
        ensures stopped { is_stopped self.old.disk ≡ true → self.new ≡ self.old }
        ensures state { memory_state self.new.disk ≡ memory_state self.old.disk }
    {
        self.log.disarm();
    }

    /// What a read of the disk gives.
    pub fn bytes(&self) -> &[u8]
        ensures { result.now ≡ (memory_state self.now.disk).now.seen }
    {
        self.log.bytes()
    }
}
