//! Finds out what the addresses of a text count.
use crate::dump_line::{Address, DumpLine, dump_line};
use crate::fault::DumpFault;
use crate::line_words::push_line_words;
use crate::radix::Radix;
use agc_word::next_line;
use std::alloc::Global;

/// What the numbers at the start of lines count.
#[derive(Clone, Copy, Debug, PartialEq, Eq)]
pub(crate) enum Unit {
    Words,
    Bytes,
}

/// Returns what the addresses of a text count, if a line shows it: the first address that is greater than the one before it, or
/// than 0, by the number of words between them, or by twice that number. A faulty line ends the search.
pub(crate) fn unit_of(alloc: Global, radix: Radix, text: &[u8]) -> Result<Option<Unit>, DumpFault> {
    let mut words = Vec::new(alloc);
    let mut shape = None;
    let mut last = Some(0u32);
    let mut count = 0usize;
    let mut rest = text;
    for index in 0..text.len() {
        let Some((line, after)) = next_line(rest) else {
            break;
        };
        rest = after;
        let Ok(line) = dump_line(radix, index.saturating_add(1), line) else {
            break;
        };
        if let Some(unit) = unit_shown(last, count, line) {
            return Ok(Some(unit));
        }
        if let Some(address) = line.address {
            last = number_in(address);
            count = 0;
        }
        words.clear();
        match push_line_words(radix, line, shape, &mut words) {
            Ok(found) => shape = found,
            Err(DumpFault::Memory) => return Err(DumpFault::Memory),
            Err(_) => break,
        }
        count = count.saturating_add(words.len());
    }
    Ok(None)
}

/// Returns what the address of a line counts, if it shows that: `count` words stand behind the last address.
fn unit_shown(last: Option<u32>, count: usize, line: DumpLine<'_>) -> Option<Unit> {
    let number = number_in(line.address?)?;
    let step = number.checked_sub(last?)? as usize;
    if step == 0 {
        None
    } else if step == count {
        Some(Unit::Words)
    } else if step == count.saturating_mul(2) {
        Some(Unit::Bytes)
    } else {
        None
    }
}

/// Returns the number of an address that is no place.
fn number_in(address: Address) -> Option<u32> {
    match address {
        Address::Place(_) => None,
        Address::Number(number) => Some(number),
    }
}
