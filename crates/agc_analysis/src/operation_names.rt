//! The names of operations by what the accumulator holds: one code stands for an operation on scalars and one on vectors.
use std::alloc::{AllocError, Global};

/// Operations with one code: the name for a scalar, then that for a vector. A word of the general shift names the rounding of a
/// scalar, but not that of a vector.
const NAMES: [(&str, &str); 22] = [
    ("DCOMP", "VCOMP"),
    ("ABS", "ABVAL"),
    ("SL1R", "VSL1"),
    ("SR1R", "VSR1"),
    ("SL1", "VSL2"),
    ("SR1", "VSR2"),
    ("SL2R", "VSL3"),
    ("SR2R", "VSR3"),
    ("SL2", "VSL4"),
    ("SR2", "VSR4"),
    ("SL3R", "VSL5"),
    ("SR3R", "VSR5"),
    ("SL3", "VSL6"),
    ("SR3", "VSR6"),
    ("SL4R", "VSL7"),
    ("SR4R", "VSR7"),
    ("SL4", "VSL8"),
    ("SR4", "VSR8"),
    ("SL", "VSL"),
    ("SR", "VSR"),
    ("SLR", "VSL"),
    ("SRR", "VSR"),
];

/// Returns an operation's text, such as `SL*`, with the name for what the accumulator holds.
pub(crate) fn named_for(
    alloc: Global,
    operation: String,
    is_vector: bool,
) -> Result<String, AllocError> {
    let is_indexed = operation.as_str().ends_with("*");
    let Some(name) = name_for(without_star(operation.as_str()), is_vector) else {
        return Ok(operation);
    };
    let mut text = String::new(alloc);
    text.push_str(name)?;
    if is_indexed {
        text.push_str("*")?;
    }
    Ok(text)
}

fn without_star(operation: &str) -> &str {
    operation.strip_suffix("*").unwrap_or(operation)
}

/// Returns the name of an operation for a scalar or a vector, if its code stands for both.
fn name_for(name: &str, is_vector: bool) -> Option<&'static str> {
    for (scalar, vector) in NAMES.iter() {
        if name == *scalar || name == *vector {
            return Some(if is_vector { *vector } else { *scalar });
        }
    }
    None
}
