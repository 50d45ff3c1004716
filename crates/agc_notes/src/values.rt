//! The values of quantities whose words an answer has.
use agc_listing::{Cell, Location, location_named};
use agc_quantities::{CellWord, Quantity, Sample, push_row};
use agc_word::{Narrow, next_word, read_octal, without_return};
use std::alloc::{AllocError, Global};

/// How a row of cycle 0 begins.
const ROW_START: &[u8] = b"0,0,";

/// The quantities of a program, each with its unit.
#[derive(Drop)]
pub(crate) struct Values {
    quantities: Vec<Quantity>,
    /// Empty for a quantity without a unit.
    units: Vec<String>,
}

impl Values {
    /// Puts the units of a file of quantities beside them.
    pub(crate) fn new(
        alloc: Global,
        quantities: Vec<Quantity>,
        file: &[u8],
    ) -> Result<Values, AllocError> {
        let mut units = Vec::new(alloc);
        for line in file.split(|byte| *byte == b'\n') {
            if let Some(unit) = unit_in(without_return(line)) {
                let unit = String::from_str(alloc, str::from_utf8(unit).unwrap_or(""))?;
                units.push(unit)?;
            }
        }
        Ok(Values { quantities, units })
    }

    pub(crate) fn quantities(&self) -> &[Quantity] {
        self.quantities.as_slice()
    }

    /// Appends a line for each quantity whose words are all among these cells: `# NAME VALUE UNIT`.
    pub(crate) fn push_lines(
        &self,
        alloc: Global,
        text: &mut String,
        seen: &[CellWord],
    ) -> Result<(), AllocError> {
        let mut at = 0usize;
        for unit in self.units.iter() {
            let next = at.saturating_add(1);
            if let Some(one) = self.quantities.as_slice().get(at..next) {
                push_line(alloc, text, one, unit.as_str(), seen)?;
            }
            at = next;
        }
        Ok(())
    }
}

/// Returns the unit of a line of a file of quantities, empty if it has none; `None` for a line without a quantity.
fn unit_in(line: &[u8]) -> Option<&[u8]> {
    let line = match line.iter().position(|byte| *byte == b'#') {
        Some(at) => line.get(..at)?,
        None => line,
    };
    let (_name, rest) = next_word(line)?;
    let (_place, rest) = next_word(rest)?;
    let (_kind, rest) = next_word(rest)?;
    let (_scale, rest) = next_word(rest)?;
    match next_word(rest) {
        Some((unit, _)) => Some(unit),
        None => Some(&[]),
    }
}

/// Appends the line of a quantity, if all its words are among these cells.
fn push_line(
    alloc: Global,
    text: &mut String,
    one: &[Quantity],
    unit: &str,
    seen: &[CellWord],
) -> Result<(), AllocError> {
    let Some(quantity) = one.first() else {
        return Ok(());
    };
    let words = words_of(alloc, quantity, seen)?;
    if words.len() < usize::from(quantity.kind.size()) {
        return Ok(());
    }
    text.push_str("# ")?;
    text.push_str(quantity.name.as_str())?;
    text.push_str(" ")?;
    let mut row = String::new(alloc);
    push_row(&mut row, one, &Sample { cycle: 0, words }, false)?;
    push_values(text, row.as_bytes())?;
    if !unit.is_empty() {
        text.push_str(" ")?;
        text.push_str(unit)?;
    }
    text.push_str("\n")
}

/// Returns the words of a quantity that are among these cells.
fn words_of(
    alloc: Global,
    quantity: &Quantity,
    seen: &[CellWord],
) -> Result<Vec<CellWord>, AllocError> {
    let mut words = Vec::new(alloc);
    let first = quantity.cell;
    for offset in 0..quantity.kind.size() {
        let number = first.saturating_add(offset);
        if let Some(found) = seen.iter().find(|word| word.cell.number() == number) {
            words.push(*found)?;
        }
    }
    Ok(words)
}

/// Appends the values of a row, with a blank behind each comma.
fn push_values(text: &mut String, row: &[u8]) -> Result<(), AllocError> {
    let values = row.strip_prefix(ROW_START).unwrap_or(row);
    let values = values.strip_suffix(b"\n").unwrap_or(values);
    let mut is_first = true;
    for value in values.split(|byte| *byte == b',') {
        if !is_first {
            text.push_str(", ")?;
        }
        text.push_str(str::from_utf8(value).unwrap_or("?"))?;
        is_first = false;
    }
    Ok(())
}

/// Returns the cell and the word of a line `cell PLACE WORD`, or `print PLACE WORD NUMBER`.
pub(crate) fn cell_word_in(line: &[u8]) -> Option<CellWord> {
    let (kind, rest) = next_word(line)?;
    match kind {
        b"cell" | b"print" => {}
        _ => return None,
    }
    let (place, rest) = next_word(rest)?;
    let (word, _) = next_word(rest)?;
    let Some(Location::Erasable(number)) = location_named(place) else {
        return None;
    };
    let word = Narrow::from_bits(read_octal(5, word)? as u16)?;
    Some(CellWord {
        cell: Cell::new(number as u16),
        word,
    })
}
