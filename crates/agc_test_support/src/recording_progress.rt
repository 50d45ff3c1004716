//! Records the progress of a run, for tests of runs, traces, comparisons and films.
use agc_io::{Progress, ProgressLine};
use std::alloc::Global;

/// A progress that records the reported cycles and how often the progress line was wiped.
#[derive(Debug, Drop)]
pub struct RecordingProgress {
    cycles: Vec<u64>,
    wiped: u32,
}

impl RecordingProgress {
    /// Creates an empty record.
    pub fn new(alloc: Global) -> RecordingProgress {
        RecordingProgress {
            cycles: Vec::new(alloc),
            wiped: 0,
        }
    }

    /// Returns the reported cycles in order. If memory runs out, a cycle is missing, and the test notices.
    pub fn cycles(&self) -> &[u64] {
        self.cycles.as_slice()
    }

    /// Returns how often the progress line was wiped.
    pub fn wiped(&self) -> u32 {
        self.wiped
    }
}

impl Progress for RecordingProgress {
    fn come_to(&mut self, cycle: u64) {
        let _kept = self.cycles.push(cycle);
    }
}

impl ProgressLine for RecordingProgress {
    fn wipe(&mut self) {
        self.wiped = self.wiped.saturating_add(1);
    }
}
