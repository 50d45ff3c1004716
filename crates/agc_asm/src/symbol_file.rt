//! Writes the names of a source with their places, as lines of a symbol file.
ghost use Rattle.std.specs.Prelude.{◌≡◌, ◌++◌, IfOk, Ok, OnOk};
ghost use Rattle.agc_symbols.specs.Symbols.{names_in};
ghost use Rattle.agc_symbols.specs.Writing.{names_text};
ghost use Rattle.agc_asm.specs.NameLines.{label_named, labels_in, name_lines_in};
ghost use Rattle.agc_vocabulary.specs.Body.{line_label, plain_line};

use crate::pass1::{define_label, first_names, note_label};
use agc_encode::{LocationCounter, SourceLine, parse_lines};
use agc_listing::Location;
use agc_symbols::push_name_line;
use std::alloc::{AllocError, Global};

/// Writes the names of a source, one line each with its place, in the order of its lines; for a faulty source, those
/// before its first fault in the first pass. `SymbolTable::read` of agc_symbols reads from this text the same names at
/// the same places, in the same order. Fails if out of memory.
#[tactic(auto, using(crate::proofs::ReportedNames::first_reported))]
pub fn name_lines(alloc: Global, text: &[u8]) -> Result<Vec<u8>, AllocError>
    ensures written { IfOk result (λ lines. lines.items ≡ name_lines_in text.now) }
    ensures read { IfOk result (λ lines. names_in lines.items ≡ Ok (labels_in text.now)) }
{
    let mut reported = Vec::new(alloc);
    let lines = parse_lines(alloc, text)?;
    let mut names = first_names(alloc, &lines)?;
    let mut counter = LocationCounter::new();
    let mut rest = lines.as_slice();
    while let [line, after @ ..] = rest {
        match define_label(&names, counter, line) {
            Ok(next) => {
                tell_label(alloc, &mut reported, line, next.place)?;
                note_label(&mut names, line, next.place)?;
                counter = next.counter;
            }
            Err(_) => return Ok(reported),
        }
        rest = after;
    }
    Ok(reported)
}

/// Appends the symbol-file line of a line's name, if it has a location.
#[tactic(auto, unfolding(agc_symbols::specs::Writing::names_text))]
fn tell_label(
    alloc: Global,
    reported: &mut Vec<u8>,
    line: &SourceLine,
    place: Option<Location>,
) -> Result<(), AllocError>
    ensures { OnOk result
        (reported.new.items ≡ reported.old.items ++ names_text (label_named (line_label (plain_line line.now.text.now)) place)) }
{
    match (line.label, place) {
        (Some(label), Some(place)) => push_name_line(alloc, reported, place, label),
        _ => Ok(()),
    }
}
