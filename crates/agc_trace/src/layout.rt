//! The layout of a profile.

/// The layout of a profile.
#[derive(Clone, Copy, Debug, PartialEq, Eq)]
pub enum Layout {
    /// Columns, for reading.
    Columns,
    /// Comma-separated values, for programs.
    Csv,
}
