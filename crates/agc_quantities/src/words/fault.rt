//! Prints what is wrong with a file of quantities, or of lists.
use crate::fault::{LineFault, QuantitiesFault};
use crate::line::fields_of;
use agc_listing::{push_quoted, push_quoted_then};
use agc_symbols::{PlaceName, SymbolTable, most_similar_name};
use agc_word::next_line;
use std::alloc::{AllocError, Global};

/// Appends what is wrong with a file of quantities, without a line feed. After an unknown place comes the nearest name.
pub fn push_fault(
    alloc: Global,
    text: &mut String,
    file: &[u8],
    names: &Option<SymbolTable>,
    fault: QuantitiesFault,
) -> Result<(), AllocError> {
    match fault {
        QuantitiesFault::Line(line, fault) => {
            write!(text, "quantities line {line}: {}", fault.text())?;
            if matches!(fault, LineFault::UnknownPlace) {
                push_place(alloc, text, place_in(file, line), names)?;
            }
            Ok(())
        }
        QuantitiesFault::Nothing => text.push_str("quantities: no line has a quantity"),
        QuantitiesFault::Memory => text.push_str("memory"),
    }
}

/// Appends what is wrong with a file of lists, without a line feed.
pub fn push_list_fault(text: &mut String, fault: QuantitiesFault) -> Result<(), AllocError> {
    match fault {
        QuantitiesFault::Line(line, fault) => write!(text, "lists line {line}: {}", fault.text()),
        QuantitiesFault::Nothing => text.push_str("lists: no list has a quantity"),
        QuantitiesFault::Memory => text.push_str("memory"),
    }
}

/// Returns the place of a line, counted from 1; nothing if there is none.
fn place_in(file: &[u8], number: usize) -> &[u8] {
    let mut lines = 0;
    let mut rest = file;
    while let Some((line, after)) = next_line(rest) {
        lines += 1;
        if lines == number {
            return match fields_of(line) {
                Ok(Some(fields)) => fields.place,
                _ => &[],
            };
        }
        rest = after;
    }
    &[]
}

/// Appends an unknown place, and the name that was probably meant.
fn push_place(
    alloc: Global,
    text: &mut String,
    place: &[u8],
    names: &Option<SymbolTable>,
) -> Result<(), AllocError> {
    text.push_str(" ")?;
    let Some(names) = names else {
        push_quoted(text, place)?;
        return text.push_str("; octal 0100 or E3,1402, or a name of --names");
    };
    let mut words = Vec::new(alloc);
    for name in names.names() {
        push_name(&mut words, name)?;
    }
    if words.is_empty() {
        return push_quoted(text, place);
    }
    push_quoted_then(text, place, "; did you mean ")?;
    push_quoted_then(
        text,
        most_similar_name(alloc, place, words.as_slice())?,
        "?",
    )
}

fn push_name<'a>(words: &mut Vec<&'a [u8]>, name: &'a PlaceName) -> Result<(), AllocError> {
    words.push(name.name().as_bytes())?;
    Ok(())
}
