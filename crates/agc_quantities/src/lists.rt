//! Reads a file of lists.
ghost use Rattle.std.specs.Prelude.{IfErr};
ghost use Rattle.agc_quantities.specs.Fault.{IsLineOf};

use crate::fault::{LineFault, QuantitiesFault};
use crate::field::{is_name, is_unit, read_kind};
use crate::line::{Fields, fields_of, first_words, is_taken, without_comment};
use crate::quantity::Kind;
use crate::sent_list::{SentList, SentQuantity};
use agc_word::{next_line, next_word, read_decimal, read_octal};
use std::alloc::{AllocError, Global};

/// The most columns that the lists of a file may have.
pub const MOST_IN_LISTS: usize = 4096;

/// The word by which a line begins a list.
const LIST: &[u8] = b"list";

/// The lists so far.
#[derive(Drop)]
struct Lists {
    lists: Vec<SentList>,
    columns: usize,
}

/// Reads a file of lists. A line `list NAME WORD WORD` begins a list, with the words of its first pair; each line after
/// it has a name, the number of a word in the list, a kind, a scale or bits, and perhaps a unit. `#` begins a comment.
/// The fault is that of the first faulty line.
pub fn read_lists(alloc: Global, text: &[u8]) -> Result<Vec<SentList>, QuantitiesFault>
    ensures { IfErr result (IsLineOf text.now) }
{
    let mut so_far = Lists {
        lists: Vec::new(alloc),
        columns: 0,
    };
    let mut lines = 0;
    let mut rest = text;
    while let Some((line, after)) = next_line(rest) {
        lines += 1;
        match add_line(alloc, &mut so_far, line) {
            Ok(()) => {}
            Err(ListsFault::Line(fault)) => return Err(QuantitiesFault::Line(lines, fault)),
            Err(ListsFault::Memory) => return Err(QuantitiesFault::Memory),
        }
        rest = after;
    }
    if so_far.columns == 0 {
        return Err(QuantitiesFault::Nothing);
    }
    Ok(so_far.lists)
}

/// Why a line was not added.
#[derive(Clone, Copy)]
enum ListsFault {
    Line(LineFault),
    Memory,
}

impl From<AllocError> for ListsFault {
    fn from(_error: AllocError) -> ListsFault {
        ListsFault::Memory
    }
}

impl From<LineFault> for ListsFault {
    fn from(fault: LineFault) -> ListsFault {
        ListsFault::Line(fault)
    }
}

/// Adds the list or the quantity of a line, if it has one.
fn add_line(alloc: Global, so_far: &mut Lists, line: &[u8]) -> Result<(), ListsFault> {
    match next_word(without_comment(line)) {
        None => Ok(()),
        Some((LIST, rest)) => add_list(alloc, &mut so_far.lists, rest),
        Some(_) => add_quantity(alloc, so_far, line),
    }
}

/// Adds a list, with the words after `list`.
fn add_list(alloc: Global, lists: &mut Vec<SentList>, words: &[u8]) -> Result<(), ListsFault> {
    let Some(head) = read_head(words) else {
        return Err(ListsFault::Line(LineFault::BadList));
    };
    if lists.iter().any(|list| list.first == head.first && list.second == head.second) {
        return Err(ListsFault::Line(LineFault::ListTwice));
    }
    let list = SentList {
        name: String::from_str(alloc, head.name)?,
        first: head.first,
        second: head.second,
        pairs: 1,
        quantities: Vec::new(alloc),
    };
    match lists.push(list) {
        Ok(()) => Ok(()),
        Err(_) => Err(ListsFault::Memory),
    }
}

/// The name of a list, and the words of its first pair.
#[derive(Clone, Copy)]
struct Head<'a> {
    name: &'a str,
    first: u16,
    second: u16,
}

/// Parses the words after `list`.
fn read_head(words: &[u8]) -> Option<Head<'_>> {
    let (words, count) = first_words(words);
    if count != 3 || !is_name(words[0]) {
        return None;
    }
    match (
        str::from_utf8(words[0]),
        read_bits(words[1]),
        read_bits(words[2]),
    ) {
        (Ok(name), Some(first), Some(second)) => Some(Head {
            name,
            first,
            second,
        }),
        _ => None,
    }
}

/// Parses a word of five octal digits.
fn read_bits(word: &[u8]) -> Option<u16> {
    if word.len() != 5 {
        return None;
    }
    Some(read_octal(5, word)? as u16)
}

/// Adds the quantity of a line to the last list.
fn add_quantity(alloc: Global, so_far: &mut Lists, line: &[u8]) -> Result<(), ListsFault> {
    let quantity = read_quantity(alloc, so_far.lists.as_slice(), line)?;
    so_far.columns = so_far.columns.saturating_add(quantity.kind.columns());
    if so_far.columns > MOST_IN_LISTS {
        return Err(ListsFault::Line(LineFault::TooManyInLists));
    }
    match so_far.lists.last_mut() {
        Some(list) => push_quantity(list, quantity),
        None => Err(ListsFault::Line(LineFault::NoList)),
    }
}

/// Parses the quantity of a line, after those of these lists.
fn read_quantity(
    alloc: Global,
    lists: &[SentList],
    line: &[u8],
) -> Result<SentQuantity, ListsFault> {
    if lists.is_empty() {
        return Err(ListsFault::Line(LineFault::NoList));
    }
    let Some(fields) = fields_of(line)? else {
        return Err(ListsFault::Line(LineFault::TooFewFields));
    };
    if !is_name(fields.name) {
        return Err(ListsFault::Line(LineFault::BadName));
    }
    let Some(place) = read_decimal(3, fields.place) else {
        return Err(ListsFault::Line(LineFault::BadNumber));
    };
    let kind = read_kind(fields.kind, fields.scale)?;
    if lists.iter().any(|list| has_name(list, fields.name, kind)) {
        return Err(ListsFault::Line(LineFault::NameTwice));
    }
    if !is_unit(fields.unit) {
        return Err(ListsFault::Line(LineFault::BadUnit));
    }
    owned(alloc, fields, place as usize, kind)
}

/// Returns the quantity with these fields.
fn owned(
    alloc: Global,
    fields: Fields<'_>,
    place: usize,
    kind: Kind,
) -> Result<SentQuantity, ListsFault> {
    match str::from_utf8(fields.name) {
        Ok(name) => Ok(SentQuantity {
            name: String::from_str(alloc, name)?,
            place,
            kind,
        }),
        Err(_) => Err(ListsFault::Line(LineFault::BadName)),
    }
}

/// Returns whether a list has a column of this quantity.
fn has_name(list: &SentList, name: &[u8], kind: Kind) -> bool {
    list.quantities.iter().any(|other| is_taken(name, kind, other.name.as_bytes(), other.kind))
}

/// Adds a quantity to a list, which has as many pairs as its quantities need.
fn push_quantity(list: &mut SentList, quantity: SentQuantity) -> Result<(), ListsFault> {
    let words = quantity
        .place
        .saturating_add(usize::from(quantity.kind.size()));
    list.pairs = list.pairs.max(words.div_ceil(2));
    match list.quantities.push(quantity) {
        Ok(()) => Ok(()),
        Err(_) => Err(ListsFault::Memory),
    }
}
