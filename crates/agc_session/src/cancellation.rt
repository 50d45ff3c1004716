//! What a long search asks now and then: whether it is cancelled.

/// Decides whether a search goes on. It changes nothing that a search finds.
pub trait Cancellation {
    /// Returns whether the search is cancelled.
    fn is_cancelled(&mut self) -> bool;
}

/// Cancels nothing.
#[derive(Clone, Copy, Debug, Default)]
pub struct NoCancellation;

impl Cancellation for NoCancellation {
    fn is_cancelled(&mut self) -> bool {
        false
    }
}
