//! The table of words with wrong parity, and their repairs by one bit.
use crate::escaped::push_escaped;
use crate::rope_words::RopeWords;
use agc_check::{Damage, MOST_REPAIRED, push_stuck};
use agc_listing::{push_order, push_rope_place};
use agc_mend::{BadWord, Repair, is_extracode_at, push_repair_line, repairs};
use agc_store::place::FIXED_WORDS;
use agc_word::Narrow;
use std::alloc::{AllocError, Global};

/// The most legal repairs of a word that the page shows, apart from those with which the sum of the bank fits.
const MOST_REPAIRS: usize = 4;

/// Appends the words with wrong parity, if there are any.
pub(crate) fn push_bad_words(
    alloc: Global,
    text: &mut String,
    rope: &RopeWords,
    is_placed: bool,
) -> Result<(), AllocError> {
    let count = rope.wrong.len();
    if count == 0 {
        return Ok(());
    }
    writeln!(text, "<h3>Words with wrong parity: {count}</h3>")?;
    match rope.damage {
        Damage::Words => push_table(alloc, text, rope, is_placed),
        Damage::Stuck(bit) => {
            text.push_str("<p>More than one word in ten, and ")?;
            push_stuck(text, bit)?;
            text.push_str(
                " (likely). <code>repair ROPE</code> prints the repairs of all of them.</p>\n",
            )
        }
        Damage::Layout => text.push_str(
            "<p>More than one word in ten: these are not single words that were read wrongly, so no word has proposals.</p>\n",
        ),
    }
}

/// Appends a row for each of the first words, with its repairs.
fn push_table(
    alloc: Global,
    text: &mut String,
    rope: &RopeWords,
    is_placed: bool,
) -> Result<(), AllocError> {
    text.push_str(
        "<table class='words'>\n<thead><tr><th>Place<th>Word<th>Parity bit<th>Order<th>Proposals: lines of a patch</thead>\n<tbody>\n",
    )?;
    for bad in rope.wrong.as_slice().iter().take(MOST_REPAIRED) {
        if bad.place < FIXED_WORDS as usize {
            let found = repairs(alloc, &rope.store, is_placed, rope.wrong.as_slice(), *bad)?;
            push_row(text, rope, *bad)?;
            push_proposals(alloc, text, rope, found.as_slice())?;
        }
    }
    text.push_str("</tbody></table>\n")?;
    if rope.wrong.len() > MOST_REPAIRED {
        writeln!(text, "<p>The first {MOST_REPAIRED} words are shown.</p>")?;
    }
    text.push_str(
        "<p>Write these lines to a file by <code>repair ROPE --form parity &gt; repairs</code>, keep one for each place, and put them in by <code>patch ROPE repairs --form parity</code>.</p>\n",
    )
}

/// Appends the place, word, parity bit and order of a word.
fn push_row(text: &mut String, rope: &RopeWords, bad: BadWord) -> Result<(), AllocError> {
    let (word, parity) = (Narrow::with_bits(bad.word / 2), bad.word % 2);
    text.push_str("<tr><td>")?;
    push_rope_place(text, bad.place)?;
    write!(text, "<td>{word}<td>{parity}<td>")?;
    if bad.place < FIXED_WORDS as usize {
        push_order(text, is_extracode_at(&rope.store, bad.place), word)?;
    }
    text.push_str("<td>")
}

/// Appends the repairs of a word with which the sum of its bank fits, or up to four that are legal orders.
fn push_proposals(
    alloc: Global,
    text: &mut String,
    rope: &RopeWords,
    found: &[Repair],
) -> Result<(), AllocError> {
    let mut shown = 0usize;
    for repair in found {
        let fits = repair.plausibility >= 8;
        if repair.place < FIXED_WORDS as usize
            && (fits || repair.is_legal && shown < MOST_REPAIRS)
        {
            shown = shown.saturating_add(1);
            let mut line = String::new(alloc);
            push_repair_line(&mut line, &rope.store, *repair)?;
            for line in line.lines() {
                text.push_str("<code>")?;
                push_escaped(text, line)?;
                text.push_str("</code><br>")?;
            }
        }
    }
    if shown == 0 {
        text.push_str("no repair by one bit is a legal order")?;
    }
    text.push_str("\n")
}
