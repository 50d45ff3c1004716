//! Reports damage of a rope by single words and by its pattern: stuck bits, and banks in other places, twice, missing, moved or
//! changed bit by bit.
use crate::bank_patterns::push_bank_patterns;
use crate::bank_sums::rope_bits;
use crate::stuck_columns::push_stuck_columns;
use agc_check::push_findings;
use agc_mend::file_words;
use agc_store::RopeForm;
use agc_store::place::FIXED_WORDS;
use std::alloc::{AllocError, Global};

/// What the findings conclude from many words with wrong parity, if no bit is the same in all of them.
const OTHER_LAYOUT: &str = "the file has another layout, or is not a rope (likely)";

/// What is concluded if a bit is stuck in part of the rope.
const STUCK_IN_PART: &str = "a bit is stuck in part of the rope, as said below (likely)";

/// Appends the findings on a rope file and the patterns that it shows.
pub fn push_damage(
    alloc: Global,
    text: &mut String,
    form: RopeForm,
    is_placed: bool,
    file: &[u8],
) -> Result<(), AllocError> {
    let mut findings = String::new(alloc);
    push_findings(alloc, &mut findings, form, is_placed, file)?;
    let mut patterns = String::new(alloc);
    push_patterns(alloc, &mut patterns, form, is_placed, file)?;
    match findings.as_str().split_once(OTHER_LAYOUT) {
        Some((before, after)) if patterns.as_str().starts_with("stuck: ") => {
            text.push_str(before)?;
            text.push_str(STUCK_IN_PART)?;
            text.push_str(after)?;
        }
        _ => text.push_str(findings.as_str())?,
    }
    text.push_str(patterns.as_str())
}

/// Appends the patterns that a rope file shows, if it has whole words and not more than a rope.
pub fn push_patterns(
    alloc: Global,
    text: &mut String,
    form: RopeForm,
    is_placed: bool,
    file: &[u8],
) -> Result<(), AllocError> {
    if file.is_empty() || file.len() % 2 == 1 || file.len() > 2 * FIXED_WORDS as usize {
        return Ok(());
    }
    let words = file_words(alloc, file)?;
    let rope = rope_bits(alloc, form, words.as_slice())?;
    if form == RopeForm::Parity {
        push_stuck_columns(alloc, text, rope.plain.as_slice())?;
    }
    push_bank_patterns(alloc, text, form, is_placed, &rope)
}
