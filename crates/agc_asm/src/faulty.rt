//! Finds all faulty lines of a source, not only the first.
ghost use Rattle.agc_encode.specs.LocationCounter.{IsAt};

use crate::fault_place::word_at_fault;
use crate::pass1::{define_label, first_names, note_label};
use crate::pass2::{State, assemble_line};
use agc_encode::{
    LineKind, LocationCounter, Role, SourceLine, counter_after, due_behind, kind_of, parse_lines,
    role_of,
};
use agc_listing::is_no_text;
use agc_vocabulary::{Names, SourceFault};
use std::alloc::{AllocError, Global};
use std::collections::BTreeMap;

/// A faulty line, and the word of it that is at fault.
#[derive(Clone, Copy, Debug, PartialEq, Eq)]
pub struct FaultyLine<'a> {
    /// The line's number, counted from 1.
    pub line: usize,
    /// The byte column at which the word begins, counted from 1; a tab counts as one.
    pub column: usize,
    pub word: &'a [u8],
    pub fault: SourceFault,
}

impl<'a> FaultyLine<'a> {
    /// Finds the word of a line that is at fault.
    pub fn new(number: usize, line: &'a [u8], fault: SourceFault) -> FaultyLine<'a> {
        let spot = word_at_fault(line, fault);
        FaultyLine {
            line: number,
            column: spot.column,
            word: spot.word,
            fault,
        }
    }

    /// Appends the fault with its place and word: ``line 3, column 9: no line has this name: `FOO` ``. A byte that is
    /// not printable ASCII is printed as `?`.
    pub fn push(&self, text: &mut String) -> Result<(), AllocError> {
        write!(
            text,
            "line {}, column {}: {}: `",
            self.line, self.column, self.fault
        )?;
        for byte in self.word {
            text.push(if is_no_text(*byte) {
                '?'
            } else {
                char::from(*byte)
            })?;
        }
        text.push_str("`")
    }
}

/// Returns the faulty lines of a source in order: those of the first pass, and of the others those of the second. A faulty line
/// takes the room that it would take without the fault, if its operation is known. Words at places that are taken are not
/// found. Fails if out of memory.
fn faulty_lines(alloc: Global, text: &[u8]) -> Result<Vec<FaultyLine<'_>>, AllocError> {
    let lines = parse_lines(alloc, text)?;
    let mut names = first_names(alloc, &lines)?;
    let labels = faulty_labels(alloc, &mut names, &lines)?;
    let words = faulty_words(alloc, &names, &lines)?;
    let lost = lost_names(alloc, labels.as_slice(), &lines)?;
    merged(alloc, labels.as_slice(), words.as_slice(), &lost)
}

/// Returns the names of lines that are faulty in the first pass, so that they have no place.
fn lost_names<'a>(
    alloc: Global,
    labels: &[FaultyLine<'a>],
    lines: &[SourceLine<'a>],
) -> Result<BTreeMap<&'a [u8], usize>, AllocError> {
    let mut lost = BTreeMap::new(alloc);
    for faulty in labels {
        let label = match lines.get(faulty.line.saturating_sub(1)) {
            Some(line) => line.label,
            None => None,
        };
        if let Some(label) = label {
            lost.insert(label, faulty.line)?;
        }
    }
    Ok(lost)
}

/// Returns the faulty lines of both passes in order. A line that is faulty in the first pass is not named again, and a name
/// that such a line has is not unknown.
fn merged<'a>(
    alloc: Global,
    labels: &[FaultyLine<'a>],
    words: &[FaultyLine<'a>],
    lost: &BTreeMap<&'a [u8], usize>,
) -> Result<Vec<FaultyLine<'a>>, AllocError> {
    let mut found = Vec::new(alloc);
    let mut at = 0;
    for label in labels {
        at = push_before(&mut found, words, at, label.line, lost)?;
        found.push(*label)?;
    }
    push_before(&mut found, words, at, usize::MAX, lost)?;
    Ok(found)
}

/// Adds those of these faulty lines, from an index on, that come before a line. Returns the index of the first one behind it.
fn push_before<'a>(
    found: &mut Vec<FaultyLine<'a>>,
    words: &[FaultyLine<'a>],
    from: usize,
    line: usize,
    lost: &BTreeMap<&'a [u8], usize>,
) -> Result<usize, AllocError> {
    for index in from..words.len() {
        let faulty = words[index];
        if faulty.line > line {
            return Ok(index);
        }
        let is_lost = faulty.fault == SourceFault::UnknownName && lost.get(faulty.word).is_some();
        if faulty.line < line && !is_lost {
            found.push(faulty)?;
        }
    }
    Ok(words.len())
}

/// A fault, and the number of lines that have it.
#[derive(Clone, Copy, Debug, PartialEq, Eq)]
pub struct CountedFault<'a> {
    /// The first faulty line.
    pub first: FaultyLine<'a>,
    /// The number of faulty lines that use the unknown name; 1 if the fault is another one.
    pub lines: usize,
}

/// Returns the faults of a source, in the order of its lines; an unknown name is one fault. Fails if out of memory.
pub fn counted_faults(alloc: Global, text: &[u8]) -> Result<Vec<CountedFault<'_>>, AllocError> {
    let found = faulty_lines(alloc, text)?;
    let mut uses = uses_of(alloc, found.as_slice())?;
    let mut faults = Vec::new(alloc);
    for faulty in found.iter() {
        let lines = match faulty.fault {
            SourceFault::UnknownName => uses.remove(faulty.word).unwrap_or(0),
            _ => 1,
        };
        if lines > 0 {
            faults.push(CountedFault {
                first: *faulty,
                lines,
            })?;
        }
    }
    Ok(faults)
}

/// Returns for each unknown name how many faulty lines use it.
fn uses_of<'a>(
    alloc: Global,
    found: &[FaultyLine<'a>],
) -> Result<BTreeMap<&'a [u8], usize>, AllocError> {
    let mut uses = BTreeMap::new(alloc);
    for faulty in found {
        if faulty.fault == SourceFault::UnknownName {
            let count: usize = uses.get(faulty.word).copied().unwrap_or(0);
            uses.insert(faulty.word, count.saturating_add(1))?;
        }
    }
    Ok(uses)
}

/// Returns the faulty lines of the first pass, and adds the names of the others.
fn faulty_labels<'a>(
    alloc: Global,
    names: &mut Names<'a>,
    lines: &[SourceLine<'a>],
) -> Result<Vec<FaultyLine<'a>>, AllocError> {
    let mut found = Vec::new(alloc);
    let mut counter = LocationCounter::new();
    let mut number = 0;
    let mut rest = lines;
    while let [line, after @ ..] = rest {
        number += 1;
        match define_label(names, counter, line) {
            Ok(next) => {
                note_label(names, line, next.place)?;
                counter = next.counter;
            }
            Err(fault) => {
                found.push(FaultyLine::new(number, line.plain, fault))?;
                counter = moved_past(names, counter, line);
            }
        }
        rest = after;
    }
    Ok(found)
}

/// Returns the faulty lines of the second pass.
fn faulty_words<'a>(
    alloc: Global,
    names: &Names,
    lines: &[SourceLine<'a>],
) -> Result<Vec<FaultyLine<'a>>, AllocError> {
    let mut found = Vec::new(alloc);
    let mut state = State::new();
    let mut number = 0;
    let mut rest = lines;
    while let [line, after @ ..] = rest {
        number += 1;
        match assemble_line(names, state, line) {
            Ok(step) => state = step.state,
            Err(fault) => {
                found.push(FaultyLine::new(number, line.plain, fault))?;
                state.counter = moved_past(names, state.counter, line);
                state.leads = false;
            }
        }
        rest = after;
    }
    if let (Some(fault), Some(last)) = (state.counter.due.fault_at_end(false), lines.last()) {
        let fault = SourceFault::Interpretive(fault);
        found.push(FaultyLine::new(number, last.plain, fault))?;
    }
    Ok(found)
}

/// Returns where the next line goes after a faulty one.
fn moved_past(names: &Names, counter: LocationCounter, line: &SourceLine) -> LocationCounter
    requires { IsAt counter.at }
    ensures { IsAt result.at }
{
    let role = role_of(&counter.due, line);
    if !matches!(role, Role::Basic) {
        let next = counter_after(counter, LineKind::Word).unwrap_or(counter);
        return next.due_there(due_behind(&counter.due, role, line.words));
    }
    let Some(operation) = &line.operation else {
        return counter;
    };
    match kind_of(names, operation) {
        Ok(kind) => counter_after(counter, kind).unwrap_or(counter),
        Err(_) => counter,
    }
}
