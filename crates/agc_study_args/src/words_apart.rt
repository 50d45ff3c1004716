//! Prints the words of two ropes that differ, and blocks of words that moved, with the lines of their sources.
ghost use Rattle.std.specs.Prelude.{◌<◌};
ghost use Rattle.agc_store.specs.Places.{fixed_words};

use agc_listing::{leads_on, next_is_extracode, push_order, push_rope_place};
use agc_mend::{MovedBlock, moved_blocks, places_apart};
use agc_store::Store;
use agc_store::place::{FIXED_BANKS, FIXED_WORDS, bank_of};
use agc_word::Narrow;
use std::alloc::{AllocError, Global};

/// The least number of words of a moved block.
const LEAST_MOVED: usize = 8;

/// A rope, and the lines of the source that it was assembled from.
#[derive(Drop)]
pub struct LinedRope {
    pub store: Store,
    /// For each place, the number of the line that put its word there, or 0; empty if the rope has no source.
    pub lines: Vec<usize>,
    /// The name of each line of the source, as `PAGE.agc line 3`; empty if the source is one file.
    pub line_names: Vec<String>,
}

impl LinedRope {
    /// Returns the number of the line that put the word at a place there.
    fn line_at(&self, place: usize) -> Option<usize> {
        match self.lines.as_slice().get(place) {
            Some(line) if *line > 0 => Some(*line),
            _ => None,
        }
    }
}

/// Returns the text of the words that differ in two ropes; it is empty if all are the same. A word of a source has the
/// number of its line. Fails if out of memory.
pub fn text_of_words_apart(
    alloc: Global,
    first: &LinedRope,
    second: &LinedRope,
) -> Result<String, AllocError> {
    let mut text = String::new(alloc);
    let apart = places_apart(alloc, &first.store, &second.store)?;
    if apart.is_empty() {
        return Ok(text);
    }
    let blocks = moved_blocks(alloc, &first.store, &second.store, LEAST_MOVED)?;
    for block in blocks.as_slice() {
        push_block(&mut text, first, second, *block)?;
    }
    push_words(&mut text, first, second, blocks.as_slice())?;
    push_counts(alloc, &mut text, apart.as_slice())?;
    Ok(text)
}

/// Appends where a block moved, with the lines of its first word.
fn push_block(
    text: &mut String,
    first: &LinedRope,
    second: &LinedRope,
    block: MovedBlock,
) -> Result<(), AllocError> {
    let count = block.count;
    push_rope_place(text, block.source)?;
    push_line(text, first, block.source)?;
    text.push_str(" moved to ")?;
    push_rope_place(text, block.target)?;
    push_line(text, second, block.target)?;
    writeln!(text, ": {count} words")
}

/// Appends a line for each place that differs, unless moved blocks explain it: the word and order of each rope.
fn push_words(
    text: &mut String,
    first: &LinedRope,
    second: &LinedRope,
    blocks: &[MovedBlock],
) -> Result<(), AllocError> {
    let (mut left_leads, mut right_leads) = (false, false);
    for place in 0..FIXED_WORDS as usize {
        let (left, right) = (first.store.fixed_at(place), second.store.fixed_at(place));
        let left_extracode = leads_on(left_leads, place);
        let right_extracode = leads_on(right_leads, place);
        if left.bits() != right.bits() && !is_explained(blocks, place, left, right) {
            push_rope_place(text, place)?;
            text.push_str(": ")?;
            push_word(text, first, place, left_extracode)?;
            text.push_str(" | ")?;
            push_word(text, second, place, right_extracode)?;
            text.push_str("\n")?;
        }
        left_leads = next_is_extracode(left_extracode, left);
        right_leads = next_is_extracode(right_extracode, right);
    }
    Ok(())
}

/// Returns whether moved blocks explain what is at a place: the word of the first rope moved away, or is +0, and the word of
/// the second rope came with a block, or is +0.
fn is_explained(blocks: &[MovedBlock], place: usize, left: Narrow, right: Narrow) -> bool {
    let moved_away = blocks
        .iter()
        .any(|block| is_within(place, block.source, block.count));
    let moved_here = blocks
        .iter()
        .any(|block| is_within(place, block.target, block.count));
    (moved_away || left.bits() == 0) && (moved_here || right.bits() == 0)
}

fn is_within(place: usize, start: usize, count: usize) -> bool {
    start <= place && place < start.saturating_add(count)
}

/// Appends the word at a place, its order and its line. A word +0 without a line is no word.
fn push_word(
    text: &mut String,
    rope: &LinedRope,
    place: usize,
    extracode: bool,
) -> Result<(), AllocError>
    requires { place < fixed_words }
{
    let word = rope.store.fixed_at(place);
    if word.bits() == 0 && rope.line_at(place).is_none() {
        return text.push_str("no word");
    }
    write!(text, "{word} ")?;
    push_order(text, extracode, word)?;
    push_line(text, rope, place)
}

/// Appends the line of the word at a place, if it has one.
fn push_line(text: &mut String, rope: &LinedRope, place: usize) -> Result<(), AllocError> {
    let Some(line) = rope.line_at(place) else {
        return Ok(());
    };
    match rope.line_names.as_slice().get(line.saturating_sub(1)) {
        Some(name) => write!(text, " ({name})"),
        None => write!(text, " (line {line})"),
    }
}

/// Appends how many words of each bank differ.
fn push_counts(alloc: Global, text: &mut String, apart: &[usize]) -> Result<(), AllocError> {
    let mut counts = vec![in alloc; 0usize; FIXED_BANKS as usize]?;
    for place in apart {
        if *place < FIXED_WORDS as usize {
            let bank = usize::from(bank_of(*place as u32));
            if let Some(count) = counts.get_mut(bank) {
                *count = count.saturating_add(1);
            }
        }
    }
    for (bank, count) in counts.as_slice().iter().enumerate() {
        if *count > 0 {
            writeln!(text, "bank {bank:02o}: {count} words differ")?;
        }
    }
    Ok(())
}
