//! The part of the page that shows one rope.
use crate::bad_words::push_bad_words;
use crate::escaped::push_escaped;
use crate::head::{LEGEND, LEGEND_END, LEGEND_OF_TWO};
use crate::lines::{count_patterns, has_better_reading, push_patterns, push_readings};
use crate::map::{count_in, push_map};
use crate::page::ShownRope;
use crate::rope_words::{BANKS, Held, RopeWords};
use crate::sums::{SumCounts, count_sums, push_sums};
use agc_store::RopeForm;
use std::alloc::{AllocError, Global};

/// Appends the part of the page on a rope. `apart` has the places at which the words of another rope differ.
pub(crate) fn push_section(
    alloc: Global,
    text: &mut String,
    shown: ShownRope<'_>,
    words: &Option<RopeWords>,
    apart: &[usize],
) -> Result<(), AllocError> {
    text.push_str("<section class='rope'>\n<h2>Rope ")?;
    push_escaped(text, shown.name)?;
    text.push_str("</h2>\n")?;
    push_holdings(text, shown.holdings)?;
    if let Some(words) = words {
        push_facts(text, shown, words, apart)?;
        push_map(text, words, apart)?;
        push_legend(text, !apart.is_empty())?;
        push_readings(text, shown.findings)?;
        push_patterns(text, shown.findings)?;
        push_bad_words(alloc, text, words, shown.is_placed)?;
        push_sums(text, words)?;
    }
    text.push_str("</section>\n")
}

/// Appends what the map shows.
fn push_legend(text: &mut String, has_apart: bool) -> Result<(), AllocError> {
    text.push_str(LEGEND)?;
    if has_apart {
        text.push_str(LEGEND_OF_TWO)?;
    }
    text.push_str(LEGEND_END)
}

/// Appends what `check` prints of a rope first: what it has, or its fault.
fn push_holdings(text: &mut String, holdings: &str) -> Result<(), AllocError> {
    text.push_str("<pre>")?;
    for line in holdings.lines() {
        push_escaped(text, line)?;
        text.push_str("\n")?;
    }
    text.push_str("</pre>\n")
}

/// Appends the counts of what was found, and the verdict.
fn push_facts(
    text: &mut String,
    shown: ShownRope<'_>,
    words: &RopeWords,
    apart: &[usize],
) -> Result<(), AllocError> {
    let sums = count_sums(words);
    let patterns = count_patterns(shown.findings);
    push_verdict(text, shown, words, sums)?;
    text.push_str("<table class='facts'>\n")?;
    push_form(text, shown.form, words.wrong.len())?;
    let (used, right) = (sums.used, sums.right);
    writeln!(
        text,
        "<tr><th>Sums<td>right in {right} of {used} banks that have words"
    )?;
    writeln!(text, "<tr><th>Patterns<td>{patterns}")?;
    let (reached, other) = (
        words.count_held(Held::Reached),
        words.count_held(Held::NotReached),
    );
    writeln!(
        text,
        "<tr><th>Code and data<td>{reached} words are reached from 4000 and the interrupt vectors, {other} are not"
    )?;
    if !apart.is_empty() {
        let (count, banks) = (apart.len(), banks_apart(apart));
        writeln!(
            text,
            "<tr><th>Other rope<td>{count} words differ, in {banks} banks"
        )?;
    }
    text.push_str("</table>\n")
}

/// Appends the form, and the number of words with wrong parity.
fn push_form(text: &mut String, form: RopeForm, wrong: usize) -> Result<(), AllocError> {
    match form {
        RopeForm::Classic => text.push_str("<tr><th>Form<td>classic: no parity bits\n"),
        RopeForm::Parity => writeln!(
            text,
            "<tr><th>Form<td>parity\n<tr><th>Parity<td>wrong in {wrong} words"
        ),
    }
}

fn banks_apart(apart: &[usize]) -> usize {
    (0..BANKS).filter(|bank| count_in(apart, *bank) > 0).count()
}

/// Appends whether anything was found.
fn push_verdict(
    text: &mut String,
    shown: ShownRope<'_>,
    words: &RopeWords,
    sums: SumCounts,
) -> Result<(), AllocError> {
    let is_odd = !words.wrong.is_empty()
        || count_patterns(shown.findings) > 0
        || has_better_reading(shown.findings);
    text.push_str(if is_odd || sums.right < sums.used && sums.right > 0 {
        "<p class='verdict odd'>Something is wrong: see below.</p>\n"
    } else if sums.right < sums.used {
        "<p class='verdict'>No finding, but no bank has a right sum: little damage would show.</p>\n"
    } else {
        "<p class='verdict'>No finding.</p>\n"
    })
}
