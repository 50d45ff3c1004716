//! Finds the line of a source that puts each word into the rope.
ghost use Rattle.std.specs.Prelude.{◌≡◌, IfOk, length};
ghost use Rattle.agc_store.specs.Places.{fixed_words};

use crate::fault::AssemblyFault;
use crate::pass1::read_names;
use crate::pass2::{State, assemble_line};
use agc_encode::parse_lines;
use agc_listing::PlacedWord;
use agc_store::place::FIXED_WORDS;
use std::alloc::{AllocError, Global};

/// Returns for each place of fixed memory the number of the source line that puts its word there, counted from 1; 0 if
/// no line does. Fails with the first faulty line, but words at places that are taken are not found, or if out of
/// memory.
pub fn word_lines(alloc: Global, text: &[u8]) -> Result<Vec<usize>, AssemblyFault>
    ensures { IfOk result (λ found. length found.items ≡ fixed_words) }
{
    let lines = parse_lines(alloc, text)?;
    let names = read_names(alloc, &lines)?;
    let mut found = no_lines(alloc, FIXED_WORDS as usize)?;
    let mut state = State::new();
    let mut number = 0;
    let mut rest = lines.as_slice();
    while let [line, after @ ..] = rest {
        number += 1;
        match assemble_line(&names, state, line) {
            Ok(step) => {
                state = step.state;
                note_line(&mut found, number, step.first);
                note_line(&mut found, number, step.second);
            }
            Err(fault) => return Err(AssemblyFault::Line(number, fault)),
        }
        rest = after;
    }
    Ok(found)
}

/// Returns the earlier line that puts a word at a place of the line with a number, if there is one and no line up to this
/// one has another fault. Fails if out of memory.
pub fn overlapped_line(
    alloc: Global,
    text: &[u8],
    number: usize,
) -> Result<Option<usize>, AllocError> {
    let lines = parse_lines(alloc, text)?;
    let names = match read_names(alloc, &lines) {
        Ok(names) => names,
        Err(AssemblyFault::Line(_, _) | AssemblyFault::Overlap(_, _)) => return Ok(None),
        Err(AssemblyFault::Memory) => return Err(AllocError),
    };
    let mut found = no_lines(alloc, FIXED_WORDS as usize)?;
    let mut state = State::new();
    let mut here = 0;
    let mut rest = lines.as_slice();
    while let [line, after @ ..] = rest {
        here += 1;
        let Ok(step) = assemble_line(&names, state, line) else {
            return Ok(None);
        };
        if here == number {
            return Ok(line_at(&found, step.first).or(line_at(&found, step.second)));
        }
        state = step.state;
        note_line(&mut found, here, step.first);
        note_line(&mut found, here, step.second);
        rest = after;
    }
    Ok(None)
}

/// Returns the noted line of a word's place.
fn line_at(found: &Vec<usize>, word: Option<PlacedWord>) -> Option<usize> {
    let line = found.get(word?.place).copied()?;
    if line == 0 { None } else { Some(line) }
}

/// Returns no line for each place.
fn no_lines(alloc: Global, count: usize) -> Result<Vec<usize>, AllocError>
    ensures { IfOk result (λ found. length found.items ≡ count) }
{
    let mut found = Vec::new(alloc);
    found.resize(count, 0)?;
    Ok(found)
}

/// Notes the line of a word.
fn note_line(found: &mut Vec<usize>, number: usize, word: Option<PlacedWord>)
    ensures { length found.new.items ≡ length found.old.items }
{
    if let Some(word) = word {
        if let Some(line) = found.get_mut(word.place) {
            *line = number;
        }
    }
}
