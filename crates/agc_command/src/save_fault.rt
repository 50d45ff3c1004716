//! Why a script was not saved.

/// Why a script was not saved.
#[derive(Clone, Copy, Debug, PartialEq, Eq)]
pub enum SaveFault {
    /// There is a file with this name.
    Exists,
    /// The file could not be created or written.
    CannotWrite,
}
