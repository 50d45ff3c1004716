//! Reads a text of numbers as the words of a rope file.
use crate::dump_line::{Address, DumpLine, dump_line};
use crate::fault::{DumpFault, DumpLineFault};
use crate::line_words::push_line_words;
use crate::radix::Radix;
use crate::unit::{Unit, unit_of};
use agc_store::place::FIXED_WORDS;
use agc_store::{RopeForm, index_in_file};
use agc_word::next_line;
use std::alloc::Global;

/// Returns the words of a text of numbers, sixteen bits each, as a rope file with this order of banks has them: at least one, and
/// at most 36,864. Places that addresses skip have 16 bits 0. Fails with the first faulty line, or if out of memory.
pub fn words_of_text(
    alloc: Global,
    radix: Radix,
    order: RopeForm,
    text: &[u8],
) -> Result<Vec<u16>, DumpFault> {
    let text = without_byte_order_mark(text);
    let unit = unit_of(alloc, radix, text)?;
    let mut words = Vec::new(alloc);
    let mut shape = None;
    let mut rest = text;
    for index in 0..text.len() {
        let Some((line, after)) = next_line(rest) else {
            break;
        };
        rest = after;
        let line = dump_line(radix, index.saturating_add(1), line)?;
        skip_to_address(line, unit, order, &mut words)?;
        shape = push_line_words(radix, line, shape, &mut words)?;
    }
    if shape.is_none() {
        return Err(DumpFault::Empty);
    }
    Ok(words)
}

/// Returns a text without the three bytes with which some editors mark UTF-8.
fn without_byte_order_mark(text: &[u8]) -> &[u8] {
    match text {
        [0xEF, 0xBB, 0xBF, rest @ ..] => rest,
        _ => text,
    }
}

/// Appends 16 bits 0 for each place that the address of a line skips.
fn skip_to_address(
    line: DumpLine<'_>,
    unit: Option<Unit>,
    order: RopeForm,
    words: &mut Vec<u16>,
) -> Result<(), DumpFault> {
    let Some(address) = line.address else {
        return Ok(());
    };
    let index = match index_of(address, unit, order) {
        Ok(index) => index,
        Err(fault) => return Err(line.fault_at_start(fault)),
    };
    if index < words.len() {
        return Err(line.fault_at_start(DumpLineFault::GoesBack));
    }
    if index > FIXED_WORDS as usize {
        return Err(line.fault_at_start(DumpLineFault::PastEnd));
    }
    words.resize(index, 0)?;
    Ok(())
}

/// Returns the number of words before an address in the file.
fn index_of(address: Address, unit: Option<Unit>, order: RopeForm) -> Result<usize, DumpLineFault> {
    match address {
        Address::Place(place) if place < FIXED_WORDS as usize => Ok(index_in_file(order, place)),
        Address::Place(_) => Err(DumpLineFault::PastEnd),
        Address::Number(0) => Ok(0),
        Address::Number(number) => match unit {
            Some(Unit::Words) => Ok(number as usize),
            Some(Unit::Bytes) if number % 2 == 0 || number / 2 > FIXED_WORDS => {
                Ok(number as usize / 2)
            }
            Some(Unit::Bytes) => Err(DumpLineFault::OddAddress),
            None => Err(DumpLineFault::UnknownUnit),
        },
    }
}
