//! Parses a line of a file of quantities.
ghost use Rattle.std.specs.Prelude.{◌≤◌, ◌<◌, ◌+◌, ◌%◌};
ghost use Rattle.agc_store.specs.Places.{erasable_bank_size, erasable_cells};
ghost use Rattle.agc_quantities.specs.Kind.{size_of};

use crate::fault::LineFault;
use crate::field::{is_name, is_unit, read_cell, read_kind};
use crate::quantity::{Kind, Quantity};
use agc_store::place::ERASABLE_BANK_SIZE;
use agc_symbols::SymbolTable;
use agc_word::next_word;

/// A quantity, as read from a line.
#[derive(Clone, Copy)]
pub(crate) struct Parsed<'a> {
    pub name: &'a str,
    pub cell: u16,
    pub kind: Kind,
    ghost erasable: { cell < erasable_cells },
    ghost in_bank: { cell % erasable_bank_size + size_of kind ≤ erasable_bank_size },
}

/// The fields of a line; the unit is empty if there is none.
#[derive(Clone, Copy)]
pub(crate) struct Fields<'a> {
    pub name: &'a [u8],
    pub place: &'a [u8],
    pub kind: &'a [u8],
    pub scale: &'a [u8],
    pub unit: &'a [u8],
}

/// Parses a line; `None` if it has no fields. The quantities are those of earlier lines.
pub(crate) fn read_line<'a>(
    line: &'a [u8],
    names: &Option<SymbolTable>,
    earlier: &[Quantity],
) -> Result<Option<Parsed<'a>>, LineFault> {
    let Some(fields) = fields_of(line)? else {
        return Ok(None);
    };
    let name = read_name(fields.name, earlier)?;
    let cell = read_cell(names, fields.place)?;
    let kind = read_kind(fields.kind, fields.scale)?;
    if earlier.iter().any(|other| is_taken(fields.name, kind, other.name.as_bytes(), other.kind)) {
        return Err(LineFault::NameTwice);
    }
    if cell % ERASABLE_BANK_SIZE + kind.size() > ERASABLE_BANK_SIZE {
        return Err(LineFault::PastBank);
    }
    if !is_unit(fields.unit) {
        return Err(LineFault::BadUnit);
    }
    Ok(Some(Parsed { name, cell, kind }))
}

/// Returns the part of a line before its comment.
pub(crate) fn without_comment(line: &[u8]) -> &[u8] {
    match line.iter().position(|b| *b == b'#') {
        Some(at) => &line[..at],
        None => line,
    }
}

/// Splits a line into its fields; `None` if it has none.
pub(crate) fn fields_of(line: &[u8]) -> Result<Option<Fields<'_>>, LineFault> {
    let (words, count) = first_words(without_comment(line));
    match count {
        0 => Ok(None),
        1..4 => Err(LineFault::TooFewFields),
        4..6 => Ok(Some(Fields {
            name: words[0],
            place: words[1],
            kind: words[2],
            scale: words[3],
            unit: words[4],
        })),
        _ => Err(LineFault::TooManyFields),
    }
}

/// Splits a text into its first words, at most six, and counts them; the others are empty.
pub(crate) fn first_words(text: &[u8]) -> ([&[u8]; 6], usize) {
    let mut words: [&[u8]; 6] = [&[]; 6];
    let mut rest = text;
    for count in 0..6 {
        match next_word(rest) {
            Some((word, after)) => {
                words[count] = word;
                rest = after;
            }
            None => return (words, count),
        }
    }
    (words, 6)
}

/// Parses a name that no earlier line has, and no column of an earlier vector.
fn read_name<'a>(word: &'a [u8], earlier: &[Quantity]) -> Result<&'a str, LineFault> {
    if !is_name(word) {
        return Err(LineFault::BadName);
    }
    if earlier.iter().any(|other| has_name(other, word)) {
        return Err(LineFault::NameTwice);
    }
    match str::from_utf8(word) {
        Ok(name) => Ok(name),
        Err(_) => Err(LineFault::BadName),
    }
}

fn has_name(quantity: &Quantity, word: &[u8]) -> bool {
    let name = quantity.name.as_bytes();
    name == word || quantity.kind.is_vector() && is_column(name, word)
}

/// Returns whether a quantity has the name or a column of another one.
pub(crate) fn is_taken(name: &[u8], kind: Kind, other: &[u8], other_kind: Kind) -> bool {
    name == other
        || other_kind.is_vector() && is_column(other, name)
        || kind.is_vector() && is_column(name, other)
}

/// Returns whether a name is that of a column of a vector: the vector's, and `.x`, `.y` or `.z`.
fn is_column(vector: &[u8], name: &[u8]) -> bool {
    match name {
        [start @ .., b'.', b'x' | b'y' | b'z'] => start == vector,
        _ => false,
    }
}
