//! A member of a cluster in which blocks travel whole.
#![tactic(auto)]

ghost use Rattle.std.specs.Prelude.{◌≡◌, ℕ, ◌<◌, ◌≤◌, IfErr, IfOk, true};
ghost use Rattle.cw_rules.specs.Step as rule;
ghost use Rattle.cw_rules_coded.specs.Coded.{uncut_rules};
ghost use Rattle.cw_types.specs.Epochs.{single};
ghost use Rattle.node.specs.Disks.{HasFound, WasRefused};
ghost use Rattle.node.specs.State.{IsAtWork, IsNodeOf, node_rules, stepped};

use cw_base::{Digest32, Hasher, NoMemory, Strategy};
use cw_types::{Application, Committees, StepOut};
pub use node::whole_commit;
use node::{Member, NodeError, Uncut};
use node_disk::{Disk, StoreError};
use std::alloc::Global;
use std::thread::Threads;

/// A member of a cluster in which blocks travel whole: a block goes to all in one message, is named
/// by [`whole_commit`], and is voted for where it came or is held. In all else it is a
/// [`Node`](node::Node): it has all calls of a [`Member`](node::Member), with the same contracts
/// and refusals.
///
/// [`start_whole`] starts it among the members of one epoch. Its own `start` asks for no such
/// committees: what it promises holds over any, by the rules of epochs.
///
/// ```text
/// let started =
///     start_whole::<Sha256, _, _, _, _>(&rt, alloc, 1, 4, 3, disk, app, &Sequential);
/// let (mut member, out) = started.map_err(|(_disk, error)| error)?;
/// let out = member.step(&rt, alloc, &event, &verifier, &Sequential)?;
/// ```
pub type WholeNode<H, D, A> = Member<H, D, A, Uncut>;

/// Starts member `id` of the members 0 to `n - 1` on a disk, in one epoch without end
/// ([`Committees::single`]). At most `backlog` blocks wait for their acknowledgement. Refused, as
/// [`Member::start`] is, it hands the disk back: `Foreign` where its bytes aren't frames of notes,
/// `Disk` where the disk failed, else for want of memory.
pub fn start_whole<
    H: Hasher<Digest = Digest32>,
    D: Disk,
    A: Application + Drop,
    R: Threads + Sync,
    S: Strategy,
>(
    rt: &R,
    alloc: Global,
    id: u16,
    n: u16,
    backlog: u64,
    disk: D,
    app: A,
    strategy: &S,
) -> Result<(WholeNode<H, D, A>, StepOut), (D, NodeError)>
    requires n { 4 ≤ n }
    requires id { id < n }
    requires backlog { 1 ≤ backlog }

    // The rules' start on the frames that it finds on the disk.
    ensures node { IfOk result (λ r. IsNodeOf id (single n) backlog app r.0) }
    ensures start { IfOk result (λ r.
        stepped r.0.member r.1 ≡ rule.start
        (uncut_rules H.digest_of (single n) backlog (A.accepts app)) id r.0.member.frames) }
    ensures at_work { IfOk result (λ r. IsAtWork D.state r.0) }

    // What it did to the disk, and what a crash at any moment leaves.
    ensures disk { IfOk result (λ r.
        HasFound D.state D.continues r.0.member.frames disk r.0.log.disk) }
    ensures refused { IfErr result (λ e. WasRefused D.state D.continues e.1 disk e.0) }
    // Over a calm disk it is refused for memory, or as foreign, alone.
    ensures never_fails { D.calm disk ≡ true → IfErr result (λ e. e.1 ≡ StoreError.Disk → ⊥) }
    ensures not_failed { IfErr result (λ e. e.1 ≡ StoreError.Failed → ⊥) }
{
    let committees = match Committees::single(alloc, n) {
        Ok(committees) => committees,
        Err(NoMemory) => return Err((disk, StoreError::NoMemory)),
    };
    WholeNode::<H, D, A>::start(rt, alloc, id, committees, backlog, disk, app, strategy)
}

/// A law, which takes no work: the rules by which contracts say what a whole member does are those
/// of blocks that travel whole, whatever its committees.
pub fn goes_by_uncut<H: Hasher<Digest = Digest32>, D: Disk, A: Application + Drop>(
    node: &WholeNode<H, D, A>,
)
    ensures { node_rules H.digest_of A.accepts node.now
        ≡ uncut_rules H.digest_of node.now.epochs node.now.backlog (A.accepts node.now.app) }
{
    let _travel = node.travel();
}
