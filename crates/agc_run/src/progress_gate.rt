//! A gate that reports the progress of the machine's thread.
use agc_io::ProgressLine;
use agc_ring::Gate;
use std::sync::Mutex;

/// Reports how far the run has come, and wipes the progress line at the run's stop. Only the machine's thread calls it,
/// so nobody waits for the lock; if another thread held it, nothing would be reported.
#[derive(Drop)]
pub struct ProgressGate<P> {
    progress: Mutex<P>,
    wants_progress: bool,
}

impl<P> ProgressGate<P> {
    /// Makes a gate for this progress, which is reported only if `wants_progress` is true.
    pub fn new(progress: P, wants_progress: bool) -> ProgressGate<P> {
        ProgressGate {
            progress: Mutex::new(progress),
            wants_progress,
        }
    }

    /// Returns the progress.
    pub fn into_inner(self) -> P {
        let ProgressGate { progress, .. } = self;
        progress.into_inner()
    }
}

impl<P: ProgressLine> Gate for ProgressGate<P> {
    fn before_send(&self, _n: u64) {}

    fn after_receive(&self, _n: u64) {}

    fn wants_progress(&self) -> bool {
        self.wants_progress
    }

    fn progress(&self, cycle: u64) {
        if let Some(mut progress) = self.progress.try_lock() {
            progress.come_to(cycle);
        }
    }

    fn stopped(&self) {
        if let Some(mut progress) = self.progress.try_lock() {
            progress.wipe();
        }
    }
}
