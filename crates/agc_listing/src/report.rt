//! A report on files.

/// A report on files: its text, and whether nothing is wrong with them.
#[derive(Debug, Drop)]
pub struct Report {
    pub text: String,
    pub is_sound: bool,
}
