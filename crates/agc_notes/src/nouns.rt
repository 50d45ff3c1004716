//! Reads a file of verbs and nouns: what they are, and what the registers show.
use crate::amount::{Amount, PLAIN, Worth, are_digits};
use crate::fault::{NotesFault, NounFault};
use agc_word::{next_word, read_decimal, without_return};
use std::alloc::{AllocError, Global};

/// The most digits before the point of a worth, and behind it.
const MOST_DIGITS: usize = 9;

/// The most bytes of a unit.
const LONGEST_UNIT: usize = 64;

/// What a verb is.
#[derive(Drop)]
struct Verb {
    number: [u8; 2],
    meaning: String,
}

/// A register of a noun: its name, and what it shows.
#[derive(Drop)]
pub(crate) struct Part {
    /// `1` to `3`.
    pub(crate) register: u8,
    pub(crate) name: String,
    pub(crate) amount: Amount,
    pub(crate) unit: String,
}

/// What a noun shows.
#[derive(Drop)]
struct Noun {
    number: [u8; 2],
    parts: Vec<Part>,
}

/// The verbs and nouns of a program.
#[derive(Drop)]
pub(crate) struct Nouns {
    verbs: Vec<Verb>,
    nouns: Vec<Noun>,
}

impl Nouns {
    /// Returns what a verb is; nothing if no line says it.
    pub(crate) fn verb(&self, number: &[u8]) -> &str {
        for verb in self.verbs.iter() {
            if verb.number.as_slice() == number {
                return verb.meaning.as_str();
            }
        }
        ""
    }

    /// Returns what a noun shows; nothing if no line says it.
    pub(crate) fn parts(&self, number: &[u8]) -> &[Part] {
        for noun in self.nouns.iter() {
            if noun.number.as_slice() == number {
                return noun.parts.as_slice();
            }
        }
        &[]
    }
}

/// Reads a file of verbs and nouns. The fault is that of its first faulty line.
pub(crate) fn read_nouns(alloc: Global, file: &[u8]) -> Result<Nouns, NotesFault> {
    let mut nouns = Nouns {
        verbs: Vec::new(alloc),
        nouns: Vec::new(alloc),
    };
    let mut lines = 0usize;
    for line in file.split(|byte| *byte == b'\n') {
        lines = lines.saturating_add(1);
        match read_line(alloc, &mut nouns, without_return(line)) {
            Ok(()) => {}
            Err(NounFault::Memory) => return Err(NotesFault::Memory),
            Err(fault) => return Err(NotesFault::NounLine(lines, fault)),
        }
    }
    Ok(nouns)
}

/// Adds the verb or noun of a line, if it has one.
fn read_line(alloc: Global, nouns: &mut Nouns, line: &[u8]) -> Result<(), NounFault> {
    let line = match line.iter().position(|byte| *byte == b'#') {
        Some(at) => &line[..at],
        None => line,
    };
    let Some((kind, rest)) = next_word(line) else {
        return Ok(());
    };
    match kind {
        b"verb" => read_verb(alloc, nouns, rest),
        b"noun" => read_noun(alloc, nouns, rest),
        _ => Err(NounFault::UnknownWord),
    }
}

fn read_verb(alloc: Global, nouns: &mut Nouns, rest: &[u8]) -> Result<(), NounFault> {
    let (number, rest) = read_number(rest)?;
    if !nouns.verb(number.as_slice()).is_empty() {
        return Err(NounFault::Again);
    }
    let meaning = joined(alloc, rest)?;
    if meaning.is_empty() {
        return Err(NounFault::NoMeaning);
    }
    add(&mut nouns.verbs, Verb { number, meaning })?;
    Ok(())
}

fn read_noun(alloc: Global, nouns: &mut Nouns, rest: &[u8]) -> Result<(), NounFault> {
    let (number, rest) = read_number(rest)?;
    if !nouns.parts(number.as_slice()).is_empty() {
        return Err(NounFault::Again);
    }
    let meaning = joined(alloc, rest)?;
    if meaning.is_empty() {
        return Err(NounFault::NoMeaning);
    }
    let parts = read_parts(alloc, meaning.as_bytes())?;
    add(&mut nouns.nouns, Noun { number, parts })?;
    Ok(())
}

/// Reads the two digits of a verb or noun. Returns what stands behind them too.
fn read_number(text: &[u8]) -> Result<([u8; 2], &[u8]), NounFault> {
    match next_word(text) {
        Some((word, rest)) => match word {
            [tens, ones] if tens.is_ascii_digit() && ones.is_ascii_digit() => {
                Ok(([*tens, *ones], rest))
            }
            _ => Err(NounFault::BadNumber),
        },
        None => Err(NounFault::BadNumber),
    }
}

/// Returns the words of a text with one blank between them. Bytes that are no text become `?`.
fn joined(alloc: Global, text: &[u8]) -> Result<String, AllocError> {
    let mut joined = String::new(alloc);
    for word in text.split(|byte| matches!(*byte, b' ' | b'\t')) {
        if !word.is_empty() {
            if !joined.is_empty() {
                joined.push_str(" ")?;
            }
            joined.push_str(str::from_utf8(word).unwrap_or("?"))?;
        }
    }
    Ok(joined)
}

/// Reads the parts of a noun, which commas separate.
fn read_parts(alloc: Global, text: &[u8]) -> Result<Vec<Part>, NounFault> {
    let mut parts = Vec::new(alloc);
    for part in text.split(|byte| *byte == b',') {
        let part = part.strip_prefix(b" ").unwrap_or(part);
        let read = read_part(alloc, part)?;
        add(&mut parts, read)?;
    }
    Ok(parts)
}

fn add<T: Drop>(list: &mut Vec<T>, value: T) -> Result<(), AllocError> {
    list.push(value)?;
    Ok(())
}

/// Reads a part of a noun: `R1 NAME = WORTH UNIT`, or `= octal`, or `= min sec`.
fn read_part(alloc: Global, text: &[u8]) -> Result<Part, NounFault> {
    let (register, text) = match text {
        [b'R', register, b' ', rest @ ..] if matches!(*register, b'1'..=b'3') => (*register, rest),
        _ => return Err(NounFault::BadPart),
    };
    for at in 1..text.len() {
        if let Some((amount, unit)) = amount_behind(&text[at..]) {
            return Ok(Part {
                register,
                name: owned(alloc, &text[..at])?,
                amount,
                unit: owned(alloc, unit)?,
            });
        }
    }
    Err(NounFault::BadPart)
}

fn owned(alloc: Global, text: &[u8]) -> Result<String, AllocError> {
    String::from_str(alloc, str::from_utf8(text).unwrap_or("?"))
}

/// Returns the amount and the unit of a text ` = WORTH UNIT`, ` = octal` or ` = min sec`.
fn amount_behind(text: &[u8]) -> Option<(Amount, &[u8])> {
    let text = text.strip_prefix(b" = ")?;
    match text {
        b"octal" => return Some((PLAIN, &[])),
        b"min sec" => return Some((Amount::MinutesAndSeconds, &[])),
        _ => {}
    }
    let (number, unit) = match text.iter().position(|byte| *byte == b' ') {
        Some(at) => (text.get(..at)?, text.get(at.checked_add(1)?..)?),
        None => (text, [].as_slice()),
    };
    let is_unit = unit.len() <= LONGEST_UNIT && !unit.iter().any(|byte| *byte == b' ');
    if !is_unit || (unit.is_empty() && number.len() != text.len()) {
        return None;
    }
    Some((Amount::Number(worth_of(number)?), unit))
}

/// Returns the worth that a decimal is.
fn worth_of(number: &[u8]) -> Option<Worth> {
    let Some(point) = number.iter().position(|byte| *byte == b'.') else {
        return Some(Worth {
            factor: read_decimal(MOST_DIGITS, number)?,
            places: 0,
        });
    };
    let (whole, fraction) = (number.get(..point)?, number.get(point.checked_add(1)?..)?);
    if !are_digits(whole) || !are_digits(fraction) {
        return None;
    }
    let mut factor = read_decimal(MOST_DIGITS, whole)?;
    let below = read_decimal(MOST_DIGITS, fraction)?;
    let mut places = 0u32;
    for _digit in fraction {
        factor = factor.saturating_mul(10);
        places = places.saturating_add(1);
    }
    Some(Worth {
        factor: factor.saturating_add(below),
        places,
    })
}
