//! The streams that a subcommand writes to.

/// The streams of a subcommand: for its result, an error, its remarks, and the progress of a run.
#[derive(Debug, Drop)]
pub struct Streams<W, E, N, P> {
    /// Standard output: the result.
    pub out: W,
    /// Standard error: the line of an error.
    pub err: E,
    /// Standard error: remarks.
    pub remarks: N,
    pub progress: P,
}
