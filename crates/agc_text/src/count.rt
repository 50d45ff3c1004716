//! Prints a number and what it counts.
use std::alloc::AllocError;

/// Appends a number and what it counts, in the singular for one.
pub(crate) fn push_count(
    text: &mut String,
    number: u64,
    one: &str,
    many: &str,
) -> Result<(), AllocError> {
    let counted = if number == 1 { one } else { many };
    write!(text, "{number} {counted}")
}
