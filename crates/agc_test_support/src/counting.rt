//! A gate that counts writes.
use crate::flag::Flag;
use agc_ring::Gate;
use std::sync::atomic::{AtomicU64, Ordering};

/// Counts the writes sent and the writes received, and notes a call whose number is not the next. It delays nothing.
/// This detects a write that is reported twice, late or not at all, and an end of a run that is reported as a write.
#[derive(Drop)]
pub struct Counting {
    sent: AtomicU64,
    received: AtomicU64,
    out_of_order: Flag,
}

impl Counting {
    /// Creates a gate that has counted nothing.
    pub fn new() -> Counting {
        Counting {
            sent: AtomicU64::new(0),
            received: AtomicU64::new(0),
            out_of_order: Flag::new(),
        }
    }

    /// Returns how many writes were received.
    pub fn received(&self) -> u64 {
        self.received.load(Ordering::SeqCst)
    }

    /// Returns whether every write that was sent was received, and each was reported once and in order.
    pub fn is_whole(&self) -> bool {
        !self.out_of_order.is_up() && self.sent.load(Ordering::SeqCst) == self.received()
    }

    fn count(&self, counter: &AtomicU64, n: u64) {
        let before = counter.fetch_add(1, Ordering::SeqCst);
        if before.saturating_add(1) != n {
            self.out_of_order.raise();
        }
    }
}

impl Gate for Counting {
    fn before_send(&self, n: u64) {
        self.count(&self.sent, n);
    }

    fn after_receive(&self, n: u64) {
        self.count(&self.received, n);
    }
}
