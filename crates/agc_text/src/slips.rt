//! Compares two transcriptions of one listing, and names the likely slips of those who typed them.
use agc_listing::{octal_word, push_file_bytes, push_rope_place, read_place};
use agc_mend::{SumFit, fit_of, word_sum};
use agc_store::place::{FIXED_BANK_SIZE, FIXED_BANKS, FIXED_WORDS};
use agc_word::{Narrow, next_line, next_word};
use std::alloc::{AllocError, Global};

/// A line of a typed listing that has a place and a word.
#[derive(Clone, Copy)]
struct TypedLine {
    number: usize,
    /// The number of bytes before it.
    start: usize,
}

/// A typed listing, and its line for each place.
#[derive(Clone, Copy)]
struct Typed<'a> {
    text: &'a [u8],
    lines: &'a [Option<TypedLine>],
}

/// Appends the places at which two typed listings have different words, each with the likely slip, then the sums of the banks
/// that differ. Appends nothing for texts without lines of places and words.
pub fn push_slips(
    alloc: Global,
    text: &mut String,
    first: &[u8],
    second: &[u8],
) -> Result<(), AllocError> {
    let (first_lines, second_lines) = (typed_lines(alloc, first)?, typed_lines(alloc, second)?);
    let first = Typed {
        text: first,
        lines: first_lines.as_slice(),
    };
    let second = Typed {
        text: second,
        lines: second_lines.as_slice(),
    };
    for bank in 0..FIXED_BANKS {
        let mut any = false;
        for offset in 0..FIXED_BANK_SIZE {
            let place = place_in(bank, offset);
            any = push_place_slip(text, first, second, place)? || any;
        }
        if any {
            push_bank_sums(text, first, second, bank)?;
        }
    }
    Ok(())
}

fn place_in(bank: u8, offset: u16) -> usize {
    usize::from(bank)
        .saturating_mul(FIXED_BANK_SIZE as usize)
        .saturating_add(usize::from(offset))
}

/// Returns the first line with a word for each place.
fn typed_lines(alloc: Global, text: &[u8]) -> Result<Vec<Option<TypedLine>>, AllocError> {
    let mut lines = vec![in alloc; None; FIXED_WORDS as usize]?;
    let mut rest = text;
    for number in 0..text.len() {
        let Some((line, after)) = next_line(rest) else {
            break;
        };
        if let Some(place) = place_typed(line) {
            let start = text.len().saturating_sub(rest.len());
            if let Some(found) = lines.get_mut(place) {
                if found.is_none() {
                    *found = Some(TypedLine {
                        number: number.saturating_add(1),
                        start,
                    });
                }
            }
        }
        rest = after;
    }
    Ok(lines)
}

/// Returns the place with which a line begins, if a word follows it.
fn place_typed(line: &[u8]) -> Option<usize> {
    let (place, rest) = next_word(line)?;
    let (_word, _) = next_word(rest)?;
    read_place(place)
}

/// Returns the line for a place.
fn line_at(listing: Typed<'_>, place: usize) -> Option<TypedLine> {
    match listing.lines.get(place) {
        Some(line) => *line,
        None => None,
    }
}

/// Returns the word of a line, as it was typed.
fn word_typed(text: &[u8], line: TypedLine) -> &[u8] {
    let Some((_, rest)) = text.split_at_checked(line.start) else {
        return &[];
    };
    let Some((line, _)) = next_line(rest) else {
        return &[];
    };
    let Some((_place, rest)) = next_word(line) else {
        return &[];
    };
    match next_word(rest) {
        Some((word, _)) => word,
        None => &[],
    }
}

/// Appends what the two listings have at a place, if they differ there. Returns whether they do.
fn push_place_slip(
    text: &mut String,
    first: Typed<'_>,
    second: Typed<'_>,
    place: usize,
) -> Result<bool, AllocError> {
    match (line_at(first, place), line_at(second, place)) {
        (Some(one), Some(two)) => {
            let (left, right) = (word_typed(first.text, one), word_typed(second.text, two));
            if left == right {
                return Ok(false);
            }
            push_typed_place(text, place)?;
            push_typed_word(text, left, one)?;
            text.push_str(" | ")?;
            push_typed_word(text, right, two)?;
            push_slip(text, left, right)?;
            Ok(true)
        }
        (Some(one), None) if has_neighbour(second, place) => {
            push_typed_place(text, place)?;
            push_typed_word(text, word_typed(first.text, one), one)?;
            text.push_str(" | no line: a line left out (likely)\n")?;
            Ok(true)
        }
        (None, Some(two)) if has_neighbour(first, place) => {
            push_typed_place(text, place)?;
            text.push_str("no line | ")?;
            push_typed_word(text, word_typed(second.text, two), two)?;
            text.push_str(": a line left out (likely)\n")?;
            Ok(true)
        }
        _ => Ok(false),
    }
}

/// Returns whether a listing has a line for the place before or after one.
fn has_neighbour(listing: Typed<'_>, place: usize) -> bool {
    let before = match place.checked_sub(1) {
        Some(before) => line_at(listing, before).is_some(),
        None => false,
    };
    before || line_at(listing, place.saturating_add(1)).is_some()
}

fn push_typed_place(text: &mut String, place: usize) -> Result<(), AllocError> {
    if place < FIXED_WORDS as usize {
        push_rope_place(text, place)?;
    }
    text.push_str(": ")
}

/// Appends a word as it was typed, and its line.
fn push_typed_word(text: &mut String, word: &[u8], line: TypedLine) -> Result<(), AllocError> {
    let number = line.number;
    push_file_bytes(text, word)?;
    write!(text, " (line {number})")
}

/// Appends the likely slip between two words.
fn push_slip(text: &mut String, left: &[u8], right: &[u8]) -> Result<(), AllocError> {
    let count = left
        .iter()
        .zip(right.iter())
        .filter(|(one, two)| *one != *two)
        .count();
    let at = left
        .iter()
        .zip(right.iter())
        .position(|(one, two)| *one != *two);
    let at = at.unwrap_or(0);
    if left.len() != right.len() {
        let apart = left.len().abs_diff(right.len());
        return if apart == 1 {
            text.push_str(": a digit left out or typed twice (likely)\n")
        } else {
            text.push_str(": words of other lengths\n")
        };
    }
    let (one, two) = (byte_at(left, at), byte_at(right, at));
    let next = at.saturating_add(1);
    if count == 2 && byte_at(left, next) == two && byte_at(right, next) == one {
        text.push_str(": two digits swapped (likely)\n")
    } else if count != 1 {
        writeln!(text, ": {count} digits differ")
    } else if is_octal(two) && !is_octal(one) {
        push_wrong(text, one, two)
    } else if is_octal(one) && !is_octal(two) {
        push_wrong(text, two, one)
    } else {
        push_digits(text, one, two)
    }
}

fn byte_at(word: &[u8], at: usize) -> u8 {
    word.get(at).copied().unwrap_or(0)
}

fn is_octal(byte: u8) -> bool {
    b'0' <= byte && byte <= b'7'
}

/// Appends which byte was typed for which digit.
fn push_wrong(text: &mut String, typed: u8, meant: u8) -> Result<(), AllocError> {
    text.push_str(": ")?;
    push_file_bytes(text, &[typed])?;
    text.push_str(" for ")?;
    push_file_bytes(text, &[meant])?;
    text.push_str(if is_alike(typed, meant) {
        " (likely)\n"
    } else {
        " (possible)\n"
    })
}

/// Appends two digits of which one is wrong.
fn push_digits(text: &mut String, one: u8, two: u8) -> Result<(), AllocError> {
    text.push_str(": one digit, ")?;
    push_file_bytes(text, &[one])?;
    text.push_str(" or ")?;
    push_file_bytes(text, &[two])?;
    text.push_str(if is_alike(one, two) {
        ", which look alike (likely)\n"
    } else {
        " (possible)\n"
    })
}

/// Returns whether two characters are often taken for each other.
fn is_alike(one: u8, two: u8) -> bool {
    let (low, high) = (one.min(two), one.max(two));
    matches!(
        (low, high),
        (b'1', b'7')
            | (b'3', b'8')
            | (b'0', b'8')
            | (b'6', b'8')
            | (b'3', b'5')
            | (b'5', b'6')
            | (b'0', b'6')
            | (b'4', b'9')
            | (b'0', b'O')
            | (b'0', b'o')
            | (b'0', b'D')
            | (b'0', b'Q')
            | (b'1', b'I')
            | (b'1', b'l')
            | (b'2', b'Z')
            | (b'5', b'S')
    )
}

/// Appends how the sum of a bank fits in each listing, if all its words there are words.
fn push_bank_sums(
    text: &mut String,
    first: Typed<'_>,
    second: Typed<'_>,
    bank: u8,
) -> Result<(), AllocError> {
    let (one, two) = (has_right_sum(first, bank), has_right_sum(second, bank));
    write!(text, "bank {bank:02o}: ")?;
    text.push_str(match (one, two) {
        (true, true) => "its sum is right in both\n",
        (true, false) => "its sum is right in the first only\n",
        (false, true) => "its sum is right in the second only\n",
        (false, false) => "its sum is right in neither\n",
    })
}

/// Returns whether the sum of a bank is its number or the complement, and each of its lines has a word.
fn has_right_sum(listing: Typed<'_>, bank: u8) -> bool {
    let mut sum = Narrow::PLUS_ZERO;
    for offset in 0..FIXED_BANK_SIZE {
        if let Some(line) = line_at(listing, place_in(bank, offset)) {
            let typed = word_typed(listing.text, line);
            match octal_word(typed) {
                Some(word) if typed.len() == 5 => sum = word_sum(sum, word),
                _ => return false,
            }
        }
    }
    fit_of(bank, sum) != SumFit::Neither
}
