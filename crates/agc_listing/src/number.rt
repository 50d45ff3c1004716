//! Parses the numbers of a source: octal words, and decimal numbers with a sign.
ghost use Rattle.std.specs.Prelude.{◌≡◌, ◌^◌, ◌<◌, IfSome};
ghost use Rattle.agc_listing.specs.Number.{
  begins_with_minus,
  begins_with_sign,
  count_named,
  decimal_word,
  octal_word,
  offset_named,
  offset_parsed,
  signed_number,
  without_sign,
};

use agc_word::{Narrow, read_decimal, read_octal};

/// A decimal number with its sign: +0 and -0 differ.
#[derive(Clone, Copy, Debug, PartialEq, Eq)]
pub struct Signed {
    pub minus: bool,
    pub magnitude: u64,
}

/// Parses an optional sign and up to `most` decimal digits.
#[tactic(auto, unfolding(crate::specs::Number::signed_number))]
pub fn signed_number(most: usize, text: &[u8]) -> Option<Signed>
    requires { most < 10 }
    ensures number { result ≡ signed_number most text.now }
    ensures range { IfSome result (λ n. n.magnitude < 10 ^ most) }
{
    let minus = matches!(text, [b'-', ..]);
    let magnitude = read_decimal(most, without_sign(text))?;
    Some(Signed { minus, magnitude })
}

fn without_sign(text: &[u8]) -> &[u8]
    ensures { result.now ≡ without_sign text.now }
{
    match text {
        [b'+' | b'-', digits @ ..] => digits,
        _ => text,
    }
}

/// Parses a decimal number of up to five digits that must have a sign.
#[tactic(auto, unfolding(crate::specs::Number::offset_named))]
pub fn offset_named(text: &[u8]) -> Option<Signed>
    ensures number { result ≡ offset_named text.now }
    ensures range { IfSome result (λ n. n.magnitude < 100000) }
{
    match text {
        [b'+' | b'-', ..] => signed_number(5, text),
        _ => None,
    }
}

/// Parses up to five octal digits, or up to five decimal digits and a letter D.
#[tactic(auto, unfolding(crate::specs::Number::count_named))]
pub fn count_named(text: &[u8]) -> Option<u64>
    ensures number { result ≡ count_named text.now }
    ensures range { IfSome result (λ n. n < 100000) }
{
    match text {
        [digits @ .., b'D'] => read_decimal(5, digits),
        _ => read_octal(5, text),
    }
}

/// Parses an offset as sources write it: a sign, and octal digits, or decimal digits and a letter D.
#[tactic(auto, unfolding(crate::specs::Number::offset_parsed))]
pub fn offset_parsed(text: &[u8]) -> Option<Signed>
    ensures number { result ≡ offset_parsed text.now }
    ensures range { IfSome result (λ n. n.magnitude < 100000) }
{
    match text {
        [b'+', digits @ ..] => Some(Signed {
            minus: false,
            magnitude: count_named(digits)?,
        }),
        [b'-', digits @ ..] => Some(Signed {
            minus: true,
            magnitude: count_named(digits)?,
        }),
        _ => None,
    }
}

/// Parses a decimal number into a word; its magnitude is below 40000 octal.
#[tactic(auto, unfolding(crate::specs::Number::decimal_word))]
pub fn decimal_word(text: &[u8]) -> Option<Narrow>
    ensures { result ≡ decimal_word text.now }
{
    let number = signed_number(5, text)?;
    if number.magnitude < 0o40000 {
        Some(Narrow::signed(number.minus, number.magnitude as u16))
    } else {
        None
    }
}

/// Parses up to five octal digits into a word.
#[tactic(auto, unfolding(crate::specs::Number::octal_word))]
pub fn octal_word(text: &[u8]) -> Option<Narrow>
    ensures { result ≡ octal_word text.now }
{
    let bits = read_octal(5, text)?;
    Some(Narrow::with_bits(bits as u16))
}
