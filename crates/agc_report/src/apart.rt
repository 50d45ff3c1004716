//! The words in which two ropes differ.
use agc_listing::{leads_on, next_is_extracode, push_order, push_rope_place};
use agc_mend::{MovedBlock, moved_blocks};
use agc_store::Store;
use agc_store::place::FIXED_WORDS;
use agc_word::Narrow;
use std::alloc::{AllocError, Global};

/// The least number of words of a moved block, as `compare --words` has it.
const LEAST_MOVED: usize = 8;

/// The most blocks, and the most words, that the page shows.
const MOST_SHOWN: usize = 200;

/// Appends the places at which the words of two ropes differ: blocks that moved, and a row for each other word.
pub(crate) fn push_apart(
    alloc: Global,
    text: &mut String,
    first: &Store,
    second: &Store,
    apart: &[usize],
) -> Result<(), AllocError> {
    let count = apart.len();
    writeln!(
        text,
        "<section class='apart'>\n<h2>Words that differ: {count}</h2>"
    )?;
    if count > 0 {
        let blocks = moved_blocks(alloc, first, second, LEAST_MOVED)?;
        push_blocks(text, blocks.as_slice())?;
        push_words(text, first, second, blocks.as_slice())?;
    }
    text.push_str("</section>\n")
}

fn push_blocks(text: &mut String, blocks: &[MovedBlock]) -> Result<(), AllocError> {
    if blocks.is_empty() {
        return Ok(());
    }
    text.push_str("<ul>\n")?;
    for block in blocks.iter().take(MOST_SHOWN) {
        let count = block.count;
        write!(text, "<li>{count} words moved from ")?;
        push_rope_place(text, block.source)?;
        text.push_str(" to ")?;
        push_rope_place(text, block.target)?;
        text.push_str("\n")?;
    }
    text.push_str("</ul>\n")
}

/// Appends a row for each of the first places that differ, unless moved blocks explain it: the word and order of each rope.
fn push_words(
    text: &mut String,
    first: &Store,
    second: &Store,
    blocks: &[MovedBlock],
) -> Result<(), AllocError> {
    text.push_str(
        "<table class='apart'>\n<thead><tr><th>Place<th>In the rope<th>Order<th>In the other rope<th>Order</thead>\n<tbody>\n",
    )?;
    let (mut left_leads, mut right_leads) = (false, false);
    let mut shown = 0usize;
    for place in 0..FIXED_WORDS as usize {
        let (left, right) = (first.fixed_at(place), second.fixed_at(place));
        let left_extracode = leads_on(left_leads, place);
        let right_extracode = leads_on(right_leads, place);
        if left.bits() != right.bits() && !is_explained(blocks, place, left, right) {
            if shown < MOST_SHOWN {
                text.push_str("<tr><td>")?;
                push_rope_place(text, place)?;
                push_word(text, left_extracode, left)?;
                push_word(text, right_extracode, right)?;
                text.push_str("\n")?;
            }
            shown = shown.saturating_add(1);
        }
        left_leads = next_is_extracode(left_extracode, left);
        right_leads = next_is_extracode(right_extracode, right);
    }
    text.push_str("</tbody></table>\n")?;
    if shown > MOST_SHOWN {
        writeln!(
            text,
            "<p>The first {MOST_SHOWN} of {shown} are shown; <code>compare --words</code> prints all.</p>"
        )?;
    }
    Ok(())
}

fn push_word(text: &mut String, extracode: bool, word: Narrow) -> Result<(), AllocError> {
    write!(text, "<td>{word}<td>")?;
    push_order(text, extracode, word)
}

/// Returns whether moved blocks explain what is at a place, as `compare --words` has it.
fn is_explained(blocks: &[MovedBlock], place: usize, left: Narrow, right: Narrow) -> bool {
    let moved_away = blocks
        .iter()
        .any(|block| is_within(place, block.source, block.count));
    let moved_here = blocks
        .iter()
        .any(|block| is_within(place, block.target, block.count));
    (moved_away || left.bits() == 0) && (moved_here || right.bits() == 0)
}

fn is_within(place: usize, start: usize, count: usize) -> bool {
    start <= place && place < start.saturating_add(count)
}
