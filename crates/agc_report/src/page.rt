//! The page of a rope, or of two that are compared.
use crate::apart::push_apart;
use crate::head::{HEAD, TAIL};
use crate::rope_words::{RopeWords, read_words};
use crate::section::push_section;
use agc_mend::places_apart;
use agc_store::RopeForm;
use std::alloc::{AllocError, Global};

/// A rope that the page shows.
#[derive(Clone, Copy)]
pub struct ShownRope<'a> {
    /// The name of its file.
    pub name: &'a str,
    pub form: RopeForm,
    /// Whether the places of the file's words are known.
    pub is_placed: bool,
    pub file: &'a [u8],
    /// What `check` prints first: what the rope has, or its fault.
    pub holdings: &'a str,
    /// What `check` prints then: words with wrong parity, how the file reads, sums, and patterns of damage.
    pub findings: &'a str,
}

/// Returns the page of a rope, or of two whose words are compared. It needs no other file, and has no script. Fails if out
/// of memory.
pub fn rope_page(
    alloc: Global,
    rope: ShownRope<'_>,
    other: Option<ShownRope<'_>>,
) -> Result<String, AllocError> {
    let mut text = String::from_str(alloc, HEAD)?;
    let words = read_words(alloc, rope.form, rope.file)?;
    match other {
        None => push_section(alloc, &mut text, rope, &words, &[])?,
        Some(other) => {
            let other_words = read_words(alloc, other.form, other.file)?;
            let apart = apart_of(alloc, &words, &other_words)?;
            push_section(alloc, &mut text, rope, &words, apart.as_slice())?;
            push_section(alloc, &mut text, other, &other_words, apart.as_slice())?;
            if let (Some(first), Some(second)) = (&words, &other_words) {
                push_apart(
                    alloc,
                    &mut text,
                    &first.store,
                    &second.store,
                    apart.as_slice(),
                )?;
            }
        }
    }
    text.push_str(TAIL)?;
    Ok(text)
}

/// Returns the places at which the words of two ropes differ; none if one of them cannot be read.
fn apart_of(
    alloc: Global,
    first: &Option<RopeWords>,
    second: &Option<RopeWords>,
) -> Result<Vec<usize>, AllocError> {
    match (first, second) {
        (Some(first), Some(second)) => places_apart(alloc, &first.store, &second.store),
        _ => Ok(Vec::new(alloc)),
    }
}
