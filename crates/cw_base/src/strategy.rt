//! How work over many items is cut into pieces.

ghost use Rattle.std.specs.Prelude.{◌≡◌, ◌+◌, ◌-◌, ◌<◌, ◌≤◌, ◌++◌, length};
ghost use Rattle.std.specs.Prelude.{IfOk, IsErr, MatchResult};
ghost use Rattle.std.specs.Fn.{FnReturnsAt};
ghost use Rattle.std.specs.Thread.{IsSync};
ghost use Rattle.cw_base.specs.Mapping.{AcceptsItems, GivesItems};
ghost use Rattle.cw_base.specs.Runs.{run_start};

use crate::error::NoMemory;
use std::alloc::Global;
use std::thread;

/// A way to map a function over a list, on the caller's thread or on several.
///
/// What a strategy decides is into how many pieces work is cut. The answers of [`Strategy::map`]
/// do not depend on it.
pub trait Strategy: Sync {
    /// Into how many pieces work is cut, at the most.
    fn pieces(&self) -> usize
        ensures positive { 1 ≤ result };

    /// Called by the worker of a piece, before the piece. Pieces are counted from 0.
    fn arrive(&self, piece: usize);

    /// What `f` answers for each item, in the order of the items.
    ///
    /// The items are cut into as many runs as the smaller of `pieces` and their number, as
    /// [`run_of`] says, and run i is piece i. Each run but the last goes to a thread of its own, or
    /// to the caller's where none can be started.
    final fn map<R: thread::Threads + Sync, T: Sync, X: Send + Drop, F: Fn(&T) -> X + Sync>(
        &self,
        rt: &R,
        alloc: Global,
        items: &[T],
        f: &F,
    ) -> Result<Vec<X>, NoMemory>
        requires { AcceptsItems F.Fn f.now items.now }
        ensures list_map { IfOk result (λ answers. GivesItems F.Fn f.now items.now answers.items) }
    {
        let pieces = self.pieces().min(items.len());
        if pieces == 0 {
            return map_run(alloc, items, f);
        }
        map_pieces(rt, self, alloc, items, items.len(), pieces, 0, f)
    }
}

/// One item behind the other, on the caller's thread.
#[derive(Clone, Copy, Debug)]
pub struct Sequential;

impl Strategy for Sequential {
    fn pieces(&self) -> usize
        ensures one { result ≡ 1 }
        ensures positive { 1 ≤ result }
    {
        1
    }

    fn arrive(&self, _piece: usize) {}
}

/// The first item of a run, and the item after its last, where so many items are cut in order into
/// so many pieces as even as can be, earlier runs longer by one. Items and runs are counted from 0.
#[tactic(auto, using(crate::proofs::Runs::runs), unfolding(crate::specs::Runs::run_start))]
pub fn run_of(items: usize, pieces: usize, piece: usize) -> (usize, usize)
    requires { piece < pieces }
    ensures first { result.0 ≡ run_start items pieces piece }
    ensures end { result.1 ≡ run_start items pieces (piece + 1) }
    ensures in_order { result.0 ≤ result.1 }
    ensures within { result.1 ≤ items }
{
    let each = items / pieces;
    let longer = items % pieces;
    let first = piece * each + piece.min(longer);
    let own = if piece < longer { each + 1 } else { each };
    (first, first + own)
}

// What f answers for one item.
fn answer<T, X, F: Fn(&T) -> X>(f: &F, item: &T) -> X
    requires { F.pre f.now item }
    ensures { FnReturnsAt F.Fn f.now item.now result }
{
    f(item)
}

// What f answers for each item of a run.
fn map_run<T, X: Drop, F: Fn(&T) -> X>(
    alloc: Global,
    items: &[T],
    f: &F,
) -> Result<Vec<X>, NoMemory>
    requires { AcceptsItems F.Fn f.now items.now }
    ensures { IfOk result (λ answers. GivesItems F.Fn f.now items.now answers.items) }
{
    let mut answers = Vec::new(alloc);
    for item in items {
        answers.push(answer(f, item))?;
    }
    Ok(answers)
}

// One piece, behind the strategy's gate.
fn map_piece<S: Strategy, T, X: Drop, F: Fn(&T) -> X>(
    strategy: &S,
    alloc: Global,
    items: &[T],
    piece: usize,
    f: &F,
) -> Result<Vec<X>, NoMemory>
    requires { AcceptsItems F.Fn f.now items.now }
    ensures { IfOk result (λ answers. GivesItems F.Fn f.now items.now answers.items) }
{
    strategy.arrive(piece);
    map_run(alloc, items, f)
}

// A piece on a thread of its own, beside those behind it: `rest` are the items from its first on,
// of so many in all.
fn map_pieces<
    R: thread::Threads + Sync,
    S: Strategy,
    T: Sync,
    X: Send + Drop,
    F: Fn(&T) -> X + Sync,
>(
    rt: &R,
    strategy: &S,
    alloc: Global,
    rest: &[T],
    total: usize,
    pieces: usize,
    piece: usize,
    f: &F,
) -> Result<Vec<X>, NoMemory>
    requires within { piece < pieces }
    requires from { length rest.now ≡ total - run_start total pieces piece }
    requires accepts { AcceptsItems F.Fn f.now rest.now }
    ensures { IfOk result (λ answers. GivesItems F.Fn f.now rest.now answers.items) }
{
    if piece + 1 == pieces {
        return map_piece(strategy, alloc, rest, piece, f);
    }
    let (first, end) = run_of(total, pieces, piece);
    let (head, tail) = rest.split_at(end - first);
    let (own, others) = thread::join(
        rt,
        || -> Result<Vec<X>, NoMemory>
            requires { AcceptsItems F.Fn f.now head.now }
            ensures { IfOk result
                (λ answers. GivesItems F.Fn f.entry.now head.entry.now answers.items) }
        { map_piece(strategy, alloc, head, piece, f) },
        || -> Result<Vec<X>, NoMemory>
            requires { IsSync R.row × (piece + 1 < pieces)
                × (length tail.now ≡ total - run_start total pieces (piece + 1))
                × AcceptsItems F.Fn f.now tail.now }
            ensures { IfOk result
                (λ answers. GivesItems F.Fn f.entry.now tail.entry.now answers.items) }
        { map_pieces(rt, strategy, alloc, tail, total, pieces, piece + 1, f) },
    );
    behind(own, others)
}

// The answers of one piece, and behind them those of the pieces that follow.
fn behind<X: Drop>(
    own: Result<Vec<X>, NoMemory>,
    others: Result<Vec<X>, NoMemory>,
) -> Result<Vec<X>, NoMemory>
    ensures { MatchResult own
        (λ first. MatchResult others
        (λ rest. IfOk result (λ all. all.items ≡ first.items ++ rest.items)) (λ _. IsErr result))
        (λ _. IsErr result) }
{
    let mut answers = own?;
    let mut more = others?;
    answers.append(&mut more)?;
    Ok(answers)
}
