//! Notes behind the lines of cells and of breakpoints: names, fractions, and pairs of words in double precision.
use agc_listing::{Location, location_named};
use agc_quantities::{CellWord, Kind, Quantity, Sample, Scale, push_row};
use agc_symbols::{SymbolTable, push_nearby};
use agc_word::next_word;
use std::alloc::{AllocError, Global};

/// How a row of cycle 0 begins.
const ROW_START: &str = "0,0,";

/// A full word is worth 1.
const FRACTION: Scale = Scale { worth: 1, parts: 1 };

/// A full pair of words is worth 2 to the power of 28, so that its last bit is worth 1.
const WHOLE: Scale = Scale {
    worth: 1 << 28,
    parts: 1,
};

/// Appends ` # ` and the name of the place that a line is about, if it has one: of a cell, or of a breakpoint.
pub(crate) fn push_name_note(
    text: &mut String,
    names: &Option<SymbolTable>,
    line: &[u8],
) -> Result<(), AllocError> {
    let (Some(names), Some(place)) = (names, place_in(line)) else {
        return Ok(());
    };
    let Some(near) = names.operand_at(place) else {
        return Ok(());
    };
    text.push_str(" # ")?;
    push_nearby(text, near)
}

/// Returns the place that a line is about: `cell PLACE ..`, `print PLACE ..`, `break N order PLACE ..`, `hit N cell PLACE`.
fn place_in(line: &[u8]) -> Option<Location> {
    let (kind, rest) = next_word(line)?;
    let (place, rest) = next_word(rest)?;
    match kind {
        b"cell" | b"print" => location_named(place),
        b"break" | b"hit" => {
            let (what, rest) = next_word(rest)?;
            let (place, _) = next_word(rest)?;
            match what {
                b"order" | b"cell" => location_named(place),
                _ => None,
            }
        }
        _ => None,
    }
}

/// Appends the line that says what one printed word is as a fraction, or what two are in double precision.
pub(crate) fn push_worth_line(
    alloc: Global,
    text: &mut String,
    printed: &[CellWord],
) -> Result<(), AllocError> {
    match printed {
        [word] => {
            text.push_str("# as a fraction ")?;
            push_words(alloc, text, &[*word], Kind::Single(FRACTION))?;
            text.push_str("\n")
        }
        [high, low] => {
            text.push_str("# in double precision ")?;
            push_words(alloc, text, &[*high, *low], Kind::Double(WHOLE))?;
            text.push_str(", as a fraction ")?;
            push_words(alloc, text, &[*high, *low], Kind::Double(FRACTION))?;
            text.push_str("\n")
        }
        _ => Ok(()),
    }
}

/// Appends what words are worth.
fn push_words(
    alloc: Global,
    text: &mut String,
    printed: &[CellWord],
    kind: Kind,
) -> Result<(), AllocError> {
    let mut words = Vec::new(alloc);
    words.extend_from_slice(printed)?;
    let quantity = Quantity {
        name: String::new(alloc),
        cell: 0,
        kind,
    };
    let mut row = String::new(alloc);
    push_row(&mut row, &[quantity], &Sample { cycle: 0, words }, false)?;
    let row = row.as_str();
    let value = row.strip_prefix(ROW_START).unwrap_or(row);
    text.push_str(value.strip_suffix("\n").unwrap_or(value))
}
