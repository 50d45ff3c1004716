//! What a full word of a quantity is worth.

/// What a full word is worth: `worth` / `parts`.
#[derive(Clone, Copy)]
pub struct Scale {
    pub worth: u64,
    pub parts: u64,
}
