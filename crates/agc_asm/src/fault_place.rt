//! Finds which word of a faulty line is at fault, and its column.
ghost use Rattle.std.specs.Prelude.{◌≡◌, ◌+◌, ◌≤◌, length, take, drop, IfSome};
ghost use Rattle.agc_asm.specs.FaultPlace.{IsWordOf};

use agc_interpretive::{Fault, Operation};
use agc_listing::{LineFault, has_other_byte, is_listed, offset_parsed};
use agc_vocabulary::{Directive, SourceFault, is_numeral, is_operation, is_scale, without_minus};

/// A word of a line, and the byte column at which it begins, counted from 1.
#[derive(Clone, Copy, Debug, PartialEq, Eq)]
pub struct Spot<'a> {
    pub column: usize,
    pub word: &'a [u8],
}

/// Returns the word of a faulty line that is at fault; if a word is missing, the one before it. The word is empty only
/// if the line has none.
pub fn word_at_fault(line: &[u8], fault: SourceFault) -> Spot<'_>
    ensures { IsWordOf line.now result }
{
    let operation = operation_index(line);
    if !is_named_operation(line, operation) && is_of_operand(fault) {
        return spot_upto(line, operation);
    }
    let index = match fault {
        SourceFault::Listed(LineFault::NotText) => first_odd_word(line),
        SourceFault::Listed(LineFault::BadAddress) => 0,
        SourceFault::Listed(LineFault::BadWord) => 1,
        SourceFault::Listed(LineFault::NamedTwice) if is_listed(line) => 0,
        SourceFault::BadName
        | SourceFault::NameTwice
        | SourceFault::CheckFailed
        | SourceFault::Include => 0,
        SourceFault::MisplacedName if !is_indented(line) => 0,
        SourceFault::UnknownOrder if has_operation_first(line) || has_letter_first(line) => 0,
        SourceFault::MisplacedName
        | SourceFault::Listed(_)
        | SourceFault::UnknownOrder
        | SourceFault::NotSupported
        | SourceFault::ExtracodeAlone
        | SourceFault::BasicAfterExtend
        | SourceFault::OtherOrder
        | SourceFault::Full
        | SourceFault::WrongMemory => operation_index(line),
        SourceFault::BadOperand | SourceFault::BadPlace => bad_operand(
            line,
            operation_index(line) + 1,
        ),
        SourceFault::Interpretive(fault) => operation + usize::from(is_behind(fault)),
        SourceFault::BadNumber => bad_number(line, operation_index(line)),
        SourceFault::UnknownName
        | SourceFault::NoSuchPlace
        | SourceFault::ErasableWanted
        | SourceFault::FixedWanted
        | SourceFault::ChannelWanted
        | SourceFault::ChannelName
        | SourceFault::AnotherBank
        | SourceFault::OutOfRange => operation_index(line) + 1,
    };
    spot_upto(line, index)
}

/// Returns whether the word with an index is an order, a directive or an operation of the interpretive language.
fn is_named_operation(line: &[u8], index: usize) -> bool {
    match word_of(line, index) {
        Some(word) => is_operation(without_minus(word)) || Operation::from_name(word).is_some(),
        None => false,
    }
}

/// Returns whether an operand on a line of its own can have a fault.
fn is_of_operand(fault: SourceFault) -> bool {
    matches!(
        fault,
        SourceFault::Interpretive(_)
            | SourceFault::UnknownName
            | SourceFault::NoSuchPlace
            | SourceFault::BadOperand
    )
}

/// Returns whether a fault of an interpretive line is one of the word behind its operation.
fn is_behind(fault: Fault) -> bool {
    !matches!(
        fault,
        Fault::TooFew | Fault::NoPushUp | Fault::NoStadr | Fault::StoreWanted
    )
}

/// Returns whether a line begins with a blank, so that it has no name.
fn is_indented(line: &[u8]) -> bool {
    matches!(line, [b' ' | b'\t', ..])
}

/// Returns whether a line has an order or directive in its first column, where names are.
fn has_operation_first(line: &[u8]) -> bool {
    match word_of(line, 0) {
        Some(first) => !is_indented(line) && is_operation(first),
        None => false,
    }
}

/// Returns whether a line begins with a place, except for letters O.
fn has_letter_first(line: &[u8]) -> bool {
    match word_of(line, 0) {
        Some(first) => !is_indented(line) && has_letter(first),
        None => false,
    }
}

/// Returns whether a word is a place or a number, except for letters O.
pub fn has_letter(word: &[u8]) -> bool {
    let is_like_digit = |b: &u8| matches!(*b, b'0'..=b'9' | b',' | b'O' | b'o');
    word.iter().all(is_like_digit)
        && word.iter().any(|b| b.is_ascii_digit())
        && word.iter().any(|b| *b == b'O' || *b == b'o')
}

/// Returns the index of a line's operation among its words.
fn operation_index(line: &[u8]) -> usize
    ensures { result ≤ 1 }
{
    if !is_indented(line) {
        return 1;
    }
    match word_of(line, 0) {
        Some(first) if offset_parsed(first).is_some() => 1,
        _ => 0,
    }
}

/// Returns the index of the first word with a byte that is not text.
fn first_odd_word(line: &[u8]) -> usize {
    for index in 0..line.len() {
        match word_of(line, index) {
            Some(word) if has_other_byte(word) => return index,
            _ => {}
        }
    }
    0
}

/// Returns the index of the word that makes an operand malformed: the third one, or a second one that is no offset.
fn bad_operand(line: &[u8], first: usize) -> usize
    requires { first ≤ 2 }
{
    if word_of(line, first + 2).is_some() {
        return first + 2;
    }
    match word_of(line, first + 1) {
        Some(second) if offset_parsed(second).is_none() => first + 1,
        _ => first,
    }
}

/// Returns the index of the word that is not part of a number.
fn bad_number(line: &[u8], operation: usize) -> usize
    requires { operation ≤ 1 }
{
    let first = operation + 1;
    let starred = match word_of(line, operation).and_then(|word| Directive::from_name(word)) {
        Some(Directive::Dec | Directive::PairDec) => false,
        Some(Directive::DecStarred | Directive::PairDecStarred) => true,
        _ => return if word_of(line, first + 1).is_some() {
            first + 1
        } else {
            first
        },
    };
    match (word_of(line, first), word_of(line, first + 1)) {
        (Some(number), Some(scale)) if is_numeral(number) => {
            if is_scale(starred, scale) {
                first + 2
            } else {
                first + 1
            }
        }
        _ => first,
    }
}

/// Returns the word of a line with an index.
fn word_of(line: &[u8], index: usize) -> Option<&[u8]> {
    let mut from = 0;
    for _ in 0..index {
        from = end_of(next_spot(line, from)?);
    }
    Some(next_spot(line, from)?.word)
}

/// Returns the word of a line with an index, or its last word if it has fewer.
fn spot_upto(line: &[u8], index: usize) -> Spot<'_>
    ensures { IsWordOf line.now result }
{
    let mut spot = Spot {
        column: 1,
        word: &line[..0],
    };
    for _ in 0..=index {
        match next_spot(line, end_of(spot)) {
            Some(next) => spot = next,
            None => return spot,
        }
    }
    spot
}

/// Returns the index behind a word.
fn end_of(spot: Spot<'_>) -> usize {
    spot.column
        .saturating_sub(1)
        .saturating_add(spot.word.len())
}

/// Returns the first word before the comment that begins at an index or later.
fn next_spot(line: &[u8], from: usize) -> Option<Spot<'_>>
    ensures { IfSome result (IsWordOf line.now) }
{
    if from > line.len() {
        return None;
    }
    let start = from + line[from..].iter().position(|b| !is_blank(*b))?;
    if line[start] == b'#' {
        return None;
    }
    let end = match line[start..]
        .iter()
        .position(|b| is_blank(*b) || *b == b'#')
    {
        Some(length) => start + length,
        None => line.len(),
    };
    Some(Spot {
        column: start + 1,
        word: &line[start..end],
    })
}

fn is_blank(b: u8) -> bool {
    b == b' ' || b == b'\t'
}
