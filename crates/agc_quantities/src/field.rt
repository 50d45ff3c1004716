//! Parses the fields of a line: a name, a place, a kind with its scale, and a unit.
ghost use Rattle.std.specs.Prelude.{◌<◌, IfOk};
ghost use Rattle.agc_store.specs.Places.{erasable_cells};

use crate::fault::LineFault;
use crate::quantity::Kind;
use crate::scale::Scale;
use agc_listing::Location;
use agc_symbols::{SymbolTable, resolve};
use agc_word::read_decimal;

/// The most digits of a constant.
const MOST_DIGITS: usize = 15;

/// Returns whether a word is a name: a letter, then letters, digits, `_`, `.` and `-`, at most 24 characters.
pub(crate) fn is_name(word: &[u8]) -> bool {
    match word {
        [first, rest @ ..] => {
            first.is_ascii_alphabetic() && rest.len() < 24 && rest.iter().all(|b| is_in_name(*b))
        }
        [] => false,
    }
}

fn is_in_name(byte: u8) -> bool {
    byte.is_ascii_alphanumeric() || matches!(byte, b'_' | b'.' | b'-')
}

/// Returns whether a word is a unit: at most 16 printable ASCII characters.
pub(crate) fn is_unit(word: &[u8]) -> bool {
    word.len() <= 16 && word.iter().all(|b| b.is_ascii_graphic())
}

/// Parses a place in erasable memory.
pub(crate) fn read_cell(names: &Option<SymbolTable>, word: &[u8]) -> Result<u16, LineFault>
    ensures { IfOk result (λ cell. cell < erasable_cells) }
{
    match resolve(names, word) {
        Some(Location::Erasable(cell)) => Ok(cell as u16),
        Some(Location::Fixed(_)) => Err(LineFault::FixedPlace),
        None => Err(LineFault::UnknownPlace),
    }
}

/// Parses a kind, and its scale or bits.
pub(crate) fn read_kind(word: &[u8], scale: &[u8]) -> Result<Kind, LineFault> {
    match word {
        b"bits" => {
            let (high, low) = read_bits(scale)?;
            Ok(Kind::Bits { high, low })
        }
        b"octal" => {
            let (high, low) = read_bits(scale)?;
            Ok(Kind::Octal { high, low })
        }
        b"single" | b"double" | b"triple" | b"vector" | b"unsigned" => {
            Ok(scaled_kind(word, read_scale(scale)?))
        }
        _ => Err(LineFault::UnknownKind),
    }
}

/// Returns the kind with this name and scale.
fn scaled_kind(word: &[u8], scale: Scale) -> Kind {
    match word {
        b"single" => Kind::Single(scale),
        b"double" => Kind::Double(scale),
        b"triple" => Kind::Triple(scale),
        b"vector" => Kind::Vector(scale),
        _ => Kind::Unsigned(scale),
    }
}

/// Parses a scale: a power of two, or a constant.
fn read_scale(word: &[u8]) -> Result<Scale, LineFault> {
    let scale = match word {
        [b'B', b'-', power @ ..] => scale_of(Some(1), read_power(power)),
        [b'B', power @ ..] => scale_of(read_power(power), Some(1)),
        _ => read_constant(word),
    };
    match scale {
        Some(scale) => Ok(scale),
        None => Err(LineFault::BadScale),
    }
}

/// Returns the scale with these parts, unless one is missing or zero.
fn scale_of(worth: Option<u64>, parts: Option<u64>) -> Option<Scale> {
    let (worth, parts) = (worth?, parts?);
    if worth == 0 || parts == 0 {
        return None;
    }
    Some(Scale { worth, parts })
}

/// Parses an exponent, at most 60, and returns that power of two.
fn read_power(word: &[u8]) -> Option<u64> {
    let exponent = read_decimal(2, word)?;
    if exponent > 60 {
        return None;
    }
    Some(1u64 << exponent)
}

/// Parses a constant: digits, and a point between two of them.
fn read_constant(word: &[u8]) -> Option<Scale> {
    let Some(point) = word.iter().position(|b| *b == b'.') else {
        return scale_of(read_decimal(MOST_DIGITS, word), Some(1));
    };
    let (whole, fraction) = (&word[..point], &word[point + 1..]);
    if whole.len() + fraction.len() > MOST_DIGITS {
        return None;
    }
    let whole_digits = read_decimal(MOST_DIGITS, whole)?;
    let fraction_digits = read_decimal(MOST_DIGITS, fraction)?;
    let mut parts: u64 = 1;
    for _digit in fraction {
        parts = parts.saturating_mul(10);
    }
    let worth = whole_digits
        .checked_mul(parts)?
        .checked_add(fraction_digits);
    scale_of(worth, Some(parts))
}

/// Parses bits: a bit, or two with a dash between them, the higher one first.
fn read_bits(word: &[u8]) -> Result<(u32, u32), LineFault> {
    let (high, low) = match word.iter().position(|b| *b == b'-') {
        Some(dash) => (read_bit(&word[..dash]), read_bit(&word[dash + 1..])),
        None => (read_bit(word), read_bit(word)),
    };
    match (high, low) {
        (Some(high), Some(low)) if low <= high => Ok((high, low)),
        _ => Err(LineFault::BadBits),
    }
}

/// Parses the number of a bit, 1 to 15.
fn read_bit(word: &[u8]) -> Option<u32> {
    let bit = read_decimal(2, word)?;
    if 1 <= bit && bit <= 15 {
        Some(bit as u32)
    } else {
        None
    }
}
