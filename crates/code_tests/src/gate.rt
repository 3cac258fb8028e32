//! A strategy by which a test sees that pieces of work run beside each other.

use cw_base::Strategy;
use std::sync::atomic::{AtomicU64, Ordering};
use std::thread;

/// Cuts work into four pieces. Piece 0 waits until piece 1 of the same work arrives, for ten
/// million turns at most; so each work that is given to it has two pieces or more.
#[derive(Drop)]
pub struct FourPieces {
    // How often piece 1 arrived, piece 0 did, and piece 0 found piece 1 there.
    opened: AtomicU64,
    begun: AtomicU64,
    passed: AtomicU64,
}

impl FourPieces {
    /// Nothing has arrived.
    pub fn new() -> FourPieces {
        FourPieces {
            opened: AtomicU64::new(0),
            begun: AtomicU64::new(0),
            passed: AtomicU64::new(0),
        }
    }

    /// How often piece 0 found piece 1 beside it.
    pub fn passed(&self) -> u64 {
        self.passed.load(Ordering::SeqCst)
    }
}

impl Strategy for FourPieces {
    fn pieces(&self) -> usize {
        4
    }

    fn arrive(&self, piece: usize) {
        if piece == 1 {
            self.opened.fetch_add(1, Ordering::SeqCst);
        }
        if piece == 0 {
            let before = self.begun.fetch_add(1, Ordering::SeqCst);
            for _ in 0..10_000_000u64 {
                if self.opened.load(Ordering::SeqCst) > before {
                    self.passed.fetch_add(1, Ordering::SeqCst);
                    return;
                }
                thread::yield_now();
            }
        }
    }
}
