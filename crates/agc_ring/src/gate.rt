//! The gate: a place to follow, or hold up, the two threads.

/// Calls made as writes and keys go through their rings. Both threads share the gate. Writes and
/// keys are counted from 1.
pub trait Gate {
    /// Called by the machine's thread just before it first tries to send a block with this write.
    fn before_send(&self, n: u64);

    /// Called by the display's thread after it has taken this write.
    fn after_receive(&self, n: u64);

    /// Called by the display's thread after it has put this live key into the key ring.
    fn key_sent(&self, _n: u64) {}

    /// Whether the gate wants progress reports, which cost some instructions a write.
    fn wants_progress(&self) -> bool {
        false
    }

    /// Called by the machine's thread now and then, when its run has reached this machine cycle.
    fn progress(&self, _cycle: u64) {}

    /// Called by the machine's thread when its run has reached its stop, before the last block is sent.
    fn stopped(&self) {}
}

/// The gate that does nothing.
#[derive(Clone, Copy, Debug, Default)]
pub struct Open;

impl Gate for Open {
    fn before_send(&self, _n: u64) {}

    fn after_receive(&self, _n: u64) {}
}
