//! Progress reports: how far a run has come.
//!
//! A long run reports now and then, and the receiver may show it. The run and its results do not
//! depend on it: `come_to` takes a number and returns nothing.
/// A receiver of progress reports.
pub trait Progress {
    /// Reports that the run has reached this machine cycle; a second of the machine has 1,024,000 / 12 cycles.
    fn come_to(&mut self, cycle: u64);
}

/// Ignores all reports.
#[derive(Clone, Copy, Debug, Default)]
pub struct NoProgress;

impl Progress for NoProgress {
    fn come_to(&mut self, _cycle: u64) {}
}
