//! The observations by which two runs are compared.

/// The observations by which two runs are compared.
#[derive(Clone, Copy, Debug, PartialEq, Eq)]
pub enum DiffBy {
    /// All channel writes.
    Writes,
    /// The writes of one channel.
    Channel(u16),
    /// What the panel shows, at each write that changes it.
    Panels,
}
