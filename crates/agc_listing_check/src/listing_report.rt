//! Reports what is wrong with the text of a rope or with a source.
ghost use Rattle.std.specs.Prelude.{◌≡◌, ◌++◌, ℕ, List, false, IfOk, OnOk, is_ok, string_bytes};
ghost use Rattle.agc_asm.specs.Source.{source_in};
ghost use Rattle.agc_listing_check.specs.ListingReport.{IsListingReport, listing_fault_text};

use crate::listing_doubt::doubts;
use crate::source_remark::{push_letter_below, push_source_why};
use agc_asm::{
    AssemblyFault, FaultyLine, assemble, counted_faults, overlapped_line, word_at_fault,
};
use agc_listing::{LineFault, Report, push_file_line, push_quoted, push_quoted_then, words_of};
use agc_store::RopeForm;
use agc_vocabulary::{SourceFault, code_of};
use agc_word::without_return;
use std::alloc::{AllocError, Global};

/// The most faulty lines that a report shows.
const MOST_LINES: usize = 100;

/// Checks the text of a rope as `weave` reads it: places and words, or names, orders and directives. The report says
/// that it has no fault, and which lines of places and words are in doubt, or gives the first fault of the first faulty
/// line found and what is wrong there. Fails if out of memory.
pub fn check_listing(alloc: Global, file: &[u8]) -> Result<Report, AllocError>
    ensures sound { IfOk result (λ report. report.is_sound ≡ is_ok (source_in file.now)) }
    ensures text { IfOk result (λ report. IsListingReport file.now (string_bytes report.text)) }
{
    let mut text = String::new(alloc);
    match assemble(alloc, RopeForm::Classic, file) {
        Ok(_) => {
            text.push_str("text: no fault")?;
            let doubts = doubts(alloc, file)?;
            text.push_str(doubts.as_str())?;
            Ok(Report {
                text,
                is_sound: true,
            })
        }
        Err(AssemblyFault::Memory) => Err(AllocError),
        Err(AssemblyFault::Line(number, fault)) => faulty_report(alloc, file, number, fault),
        Err(AssemblyFault::Overlap(number, _)) => faulty_report(
            alloc,
            file,
            number,
            SourceFault::Listed(LineFault::NamedTwice),
        ),
    }
}

/// Returns the report on a text with this first fault.
fn faulty_report(
    alloc: Global,
    file: &[u8],
    number: usize,
    fault: SourceFault,
) -> Result<Report, AllocError>
    ensures sound { IfOk result (λ report. report.is_sound ≡ false) }
    ensures text { IfOk result (λ report. (why : List ℕ)
        × (string_bytes report.text ≡ listing_fault_text number fault ++ why)) }
{
    let mut text = String::new(alloc);
    push_listing_fault(&mut text, number, fault)?;
    let remarks = remarks(alloc, file, number, fault)?;
    text.push_str(remarks.as_str())?;
    Ok(Report {
        text,
        is_sound: false,
    })
}

/// Appends the number of a line and its fault.
#[tactic(auto, unfolding(crate::specs::ListingReport::listing_fault_text))]
fn push_listing_fault(
    text: &mut String,
    number: usize,
    fault: SourceFault,
) -> Result<(), AllocError>
    ensures { OnOk result
        (string_bytes text.new ≡ string_bytes text.old ++ listing_fault_text number fault) }
{
    write!(text, "text line {number}: ")?;
    text.push_str(fault.text())?;
    text.push_str("\n")
}

/// Returns the remark on the first faulty line, and below it the other faulty lines with theirs. An unknown name has one
/// line, with the number of the lines that use it.
fn remarks(
    alloc: Global,
    file: &[u8],
    number: usize,
    fault: SourceFault,
) -> Result<String, AllocError> {
    let found = counted_faults(alloc, file)?;
    let first = FaultyLine::new(number, line_at(file, number), fault);
    let mut text = remark(alloc, file, number, fault)?;
    for counted in found.iter() {
        if is_same_fault(counted.first, first) {
            push_uses(&mut text, counted.lines)?;
        }
    }
    let mut room = MOST_LINES.saturating_sub(1);
    for counted in found.iter() {
        let faulty = counted.first;
        if is_same_fault(faulty, first) || room == 0 {
            continue;
        }
        room = room.saturating_sub(1);
        push_listing_fault(&mut text, faulty.line, faulty.fault)?;
        let remark = remark(alloc, file, faulty.line, faulty.fault)?;
        text.push_str(remark.as_str())?;
        push_uses(&mut text, counted.lines)?;
    }
    Ok(text)
}

/// Returns whether two faults are one: of one line, or of an unknown name, which each pass may find first in another line.
pub fn is_same_fault(one: FaultyLine<'_>, other: FaultyLine<'_>) -> bool {
    one.line == other.line
        || one.fault == SourceFault::UnknownName
            && other.fault == SourceFault::UnknownName
            && one.word == other.word
}

/// Appends how many lines use an unknown name, if there are several.
fn push_uses(text: &mut String, count: usize) -> Result<(), AllocError> {
    if count > 1 {
        writeln!(text, "    {count} lines use this name")?;
    }
    Ok(())
}

/// Returns the faulty line, and below it the word that is wrong, with its column, and what is expected.
fn remark(
    alloc: Global,
    file: &[u8],
    number: usize,
    fault: SourceFault,
) -> Result<String, AllocError> {
    let line = line_at(file, number);
    let mut text = String::new(alloc);
    text.push_str("    ")?;
    push_file_line(&mut text, line)?;
    text.push_str("\n    ")?;
    write!(text, "column {}: ", word_at_fault(line, fault).column)?;
    match fault {
        SourceFault::Listed(LineFault::NamedTwice) => push_owner(alloc, &mut text, file, number)?,
        _ => push_line_why(alloc, &mut text, file, line, fault)?,
    }
    Ok(text)
}

/// Returns the line with a number, counted from 1, without its end.
fn line_at(file: &[u8], number: usize) -> &[u8] {
    match file.split(|b| *b == b'\n').nth(number.saturating_sub(1)) {
        Some(line) => without_return(line),
        None => file,
    }
}

/// Appends which earlier line has a word at a place of a line.
fn push_owner(
    alloc: Global,
    text: &mut String,
    file: &[u8],
    number: usize,
) -> Result<(), AllocError> {
    let fault = SourceFault::Listed(LineFault::NamedTwice);
    push_quoted(text, word_at_fault(line_at(file, number), fault).word)?;
    match overlapped_line(alloc, file, number)? {
        Some(owner) => writeln!(text, " has its word from line {owner}"),
        None => text.push_str(" has its word from an earlier line\n"),
    }
}

/// Appends the word that is wrong in a line, and what is expected.
fn push_line_why(
    alloc: Global,
    text: &mut String,
    file: &[u8],
    line: &[u8],
    fault: SourceFault,
) -> Result<(), AllocError> {
    let words = words_of(alloc, code_of(line))?;
    match fault {
        SourceFault::Listed(LineFault::NotText) => push_not_text(text, words.as_slice()),
        SourceFault::Listed(LineFault::BadAddress) => push_bad_address(text, words.as_slice()),
        SourceFault::Listed(LineFault::BadWord) => push_bad_word(text, words.as_slice()),
        fault => push_source_why(alloc, text, file, line, fault),
    }
}

/// Appends the word at an index, or a substitute if the line is shorter.
fn push_word(text: &mut String, words: &[&[u8]], place: usize) -> Result<(), AllocError> {
    if place < words.len() {
        push_quoted(text, words[place])
    } else {
        text.push_str("the line")
    }
}

fn push_not_text(text: &mut String, words: &[&[u8]]) -> Result<(), AllocError> {
    let place = words
        .iter()
        .position(|word| word.iter().any(|b| *b < 0x20 || *b >= 0x7F));
    push_word(text, words, place.unwrap_or(words.len()))?;
    text.push_str(" has a byte that is neither a tab nor printable ASCII\n")
}

fn push_bad_address(text: &mut String, words: &[&[u8]]) -> Result<(), AllocError> {
    push_word(text, words, 0)?;
    text.push_str(
        " is not a place of a rope: 4000 to 7777, or a bank from 00 to 43 and an address, as 04,2000; start comments with #\n",
    )?;
    push_letter_below(text, words.first().copied().unwrap_or(&[]))
}

fn push_bad_word(text: &mut String, words: &[&[u8]]) -> Result<(), AllocError> {
    if words.len() > 1 {
        push_quoted_then(text, words[1], " is not a word: five octal digits\n")?;
        push_letter_below(text, words[1])
    } else {
        text.push_str("the word is missing: five octal digits after the place\n")
    }
}
