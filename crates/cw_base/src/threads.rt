//! Work on threads of their own, behind a gate.

ghost use Rattle.std.specs.Prelude.{◌≡◌, ◌≤◌};

use crate::strategy::Strategy;
use std::marker::Model;

/// What a worker goes through before its piece.
///
/// Where threads can be started the workers of one map are beside each other, so a gate may hold
/// one until another arrives. It has to end where they come one behind the other, as without
/// threads.
pub trait Gate: Sync {
    /// Called by the worker of a piece, before the piece. Pieces are counted from 0.
    fn arrive(&self, piece: usize);
}

/// A gate that stands open.
#[derive(Clone, Copy, Debug)]
pub struct NoGate;

impl Gate for NoGate {
    fn arrive(&self, _piece: usize) {}
}

// A gate that is lent, so that its owner can look at it afterwards.
impl<G: Gate> Gate for &G {
    fn arrive(&self, piece: usize) {
        (**self).arrive(piece);
    }
}

/// Each piece on a thread of its own, behind a gate; the last on the caller's thread, and each on
/// the caller's where no thread can be started. A contract sees the number of pieces.
///
/// ```text
/// let strategy = Threads::new(4, NoGate);
/// let halves = strategy.map(&rt, alloc, &[8u64, 2, 5], &|x: &u64| *x / 2)?;
/// ```
///
/// The runtime's own bound `std::thread::Threads` has the same name: it says that threads may be
/// started, and this type says how many.
#[derive(Clone, Debug, Drop)]
pub struct Threads<G> {
    count: usize,
    gate: G,
}

impl<G> Model for Threads<G> {
    ghost use Rattle.std.specs.Prelude.{ℕ, ◌≤◌};

    ghost Value = { ℕ };

    ghost view = { λ threads. threads.count };

    ghost invariant = { λ threads. (1 ≤ threads.count) × (threads.count ≤ 64) };
}

impl<G: Gate> Threads<G> {
    /// So many pieces, 1 to 64, each behind the gate.
    pub fn new(count: usize, gate: G) -> Threads<G>
        requires some { 1 ≤ count }
        requires few { count ≤ 64 }
        ensures { result ≡ count }
    {
        Threads { count, gate }
    }
}

impl<G: Gate> Strategy for Threads<G> {
    fn pieces(&self) -> usize
        ensures count { result ≡ self.now }
        ensures few { result ≤ 64 }
        ensures positive { 1 ≤ result }
    {
        self.count
    }

    fn arrive(&self, piece: usize) {
        self.gate.arrive(piece);
    }
}
