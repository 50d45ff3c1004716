//! The files of a run.

/// The paths of the files of a run.
#[derive(Debug, Drop)]
pub struct RunFiles {
    pub rope: String,
    pub script: String,
}
