//! Prints samples as a table: a heading, and a row of values for each.
use crate::quantity::{Kind, Quantity};
use crate::sample::{CellWord, Sample};
use crate::scale::Scale;
use crate::words::decimal::{Step, push_decimal};
use agc_word::Narrow;
use std::alloc::AllocError;

/// A cycle in seconds: 12 / 1,024,000.
const CYCLE: Step = Step {
    worth: 3,
    parts: 256_000,
};

/// Steps in a full word, pair, and triple of words.
const WORD: u64 = 1 << 14;

const PAIR: u64 = 1 << 28;

const TRIPLE: u64 = 1 << 42;

/// Angles in a full word without a sign.
const CIRCLE: u64 = 1 << 15;

/// The words of a quantity, the first ones of these; the others are +0.
pub(crate) type Words = [Narrow; 6];

/// Appends the heading of a table.
pub fn push_heading(text: &mut String, quantities: &[Quantity]) -> Result<(), AllocError> {
    text.push_str("cycle,seconds")?;
    for quantity in quantities {
        push_columns(text, quantity.name.as_str(), quantity.kind)?;
    }
    text.push_str("\n")
}

/// Appends the names of the columns of a quantity, each after a comma.
pub(crate) fn push_columns(text: &mut String, name: &str, kind: Kind) -> Result<(), AllocError> {
    match kind {
        Kind::Vector(_) => write!(text, ",{name}.x,{name}.y,{name}.z"),
        _ => write!(text, ",{name}"),
    }
}

/// Appends the row of a sample of these quantities. `shows_minus_zero` prints zero as `-0` if its first word is -0.
pub fn push_row(
    text: &mut String,
    quantities: &[Quantity],
    sample: &Sample,
    shows_minus_zero: bool,
) -> Result<(), AllocError> {
    push_time(text, sample.cycle)?;
    let mut rest = sample.words.as_slice();
    for quantity in quantities {
        let size = usize::from(quantity.kind.size());
        push_values(text, quantity.kind, words_of(rest), shows_minus_zero)?;
        rest = &rest[size.min(rest.len())..];
    }
    text.push_str("\n")
}

/// Appends a cycle and its seconds.
pub(crate) fn push_time(text: &mut String, cycle: u64) -> Result<(), AllocError> {
    write!(text, "{cycle},")?;
    push_decimal(text, cycle, CYCLE)
}

/// Returns the words of the first cells.
fn words_of(cells: &[CellWord]) -> Words {
    let mut words = [Narrow::PLUS_ZERO; 6];
    for (word, seen) in words.iter_mut().zip(cells) {
        *word = seen.word;
    }
    words
}

/// Appends the values of a quantity with these words, each after a comma.
pub(crate) fn push_values(
    text: &mut String,
    kind: Kind,
    words: Words,
    shows_minus_zero: bool,
) -> Result<(), AllocError> {
    text.push_str(",")?;
    push_value(text, kind, words, shows_minus_zero)
}

/// Appends the value of a quantity with these words: as many of the six as its kind has. Commas separate the three parts of a vector.
/// `shows_minus_zero` prints zero as `-0` if its first word is -0.
pub fn push_value(
    text: &mut String,
    kind: Kind,
    words: Words,
    shows_minus_zero: bool,
) -> Result<(), AllocError> {
    let [first, second, third, fourth, fifth, sixth] = words;
    match kind {
        Kind::Single(scale) => push_signed(text, &[first], step_of(scale, WORD), shows_minus_zero),
        Kind::Double(scale) => {
            push_signed(
                text,
                &[first, second],
                step_of(scale, PAIR),
                shows_minus_zero,
            )
        }
        Kind::Triple(scale) => {
            push_signed(
                text,
                &[first, second, third],
                step_of(scale, TRIPLE),
                shows_minus_zero,
            )
        }
        Kind::Vector(scale) => {
            let step = step_of(scale, PAIR);
            push_signed(text, &[first, second], step, shows_minus_zero)?;
            text.push_str(",")?;
            push_signed(text, &[third, fourth], step, shows_minus_zero)?;
            text.push_str(",")?;
            push_signed(text, &[fifth, sixth], step, shows_minus_zero)
        }
        Kind::Unsigned(scale) => {
            push_decimal(text, u64::from(first.bits()), step_of(scale, CIRCLE))
        }
        Kind::Bits { high, low } => {
            let bits = bits_of(first, high, low);
            write!(text, "{bits}")
        }
        Kind::Octal { high, low } => push_octal(text, first, high, low),
    }
}

/// Returns the step of a scale whose full word has this many steps.
fn step_of(scale: Scale, steps: u64) -> Step {
    Step {
        worth: u128::from(scale.worth),
        parts: u128::from(scale.parts) * u128::from(steps),
    }
}

/// Returns the number that some bits of a word are.
fn bits_of(word: Narrow, high: u32, low: u32) -> u32 {
    let mut bits: u32 = 0;
    for from_left in 1..16 {
        let place = 16 - from_left;
        if low <= place && place <= high {
            bits = bits
                .saturating_mul(2)
                .saturating_add(u32::from(word.bit(place)));
        }
    }
    bits
}

/// Appends some bits of a word in octal: all of the word are five digits.
fn push_octal(text: &mut String, word: Narrow, high: u32, low: u32) -> Result<(), AllocError> {
    let bits = bits_of(word, high, low);
    for digits_below in 0..5u32 {
        let place = 3 * (4 - digits_below);
        if place <= high.saturating_sub(low) {
            let digit = (bits >> place) % 8;
            write!(text, "{digit}")?;
        }
    }
    Ok(())
}

/// Appends the value of one to three words, which may have unlike signs.
fn push_signed(
    text: &mut String,
    words: &[Narrow],
    step: Step,
    shows_minus_zero: bool,
) -> Result<(), AllocError> {
    let (mut plus, mut minus) = (0u64, 0u64);
    for word in words {
        let magnitude = u64::from(word.magnitude());
        let (more, less) = if word.is_minus() {
            (0, magnitude)
        } else {
            (magnitude, 0)
        };
        plus = plus.saturating_mul(WORD).saturating_add(more);
        minus = minus.saturating_mul(WORD).saturating_add(less);
    }
    let is_minus_zero = words.first().is_some_and(|word| word.bits() == 0o77777);
    if plus < minus || (plus == minus && shows_minus_zero && is_minus_zero) {
        text.push_str("-")?;
    }
    push_decimal(text, plus.abs_diff(minus), step)
}
