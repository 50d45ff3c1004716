//! What a register shows, as an amount with its unit.
use std::alloc::AllocError;

/// What stands for a register with blank digits, or with codes that are no digits: an en dash.
const NO_NUMBER: &str = "–";

/// What a one in the last place of a register is worth: `factor` / 10^`places`.
#[derive(Clone, Copy, Debug, PartialEq, Eq)]
pub(crate) struct Worth {
    pub(crate) factor: u64,
    pub(crate) places: u32,
}

/// What kind of amount a register shows.
#[derive(Clone, Copy, Debug, PartialEq, Eq)]
pub(crate) enum Amount {
    Number(Worth),
    /// Two digits of minutes and two of seconds, with a blank between.
    MinutesAndSeconds,
}

/// A register without a unit, whose last place is worth 1.
pub(crate) const PLAIN: Amount = Amount::Number(Worth {
    factor: 1,
    places: 0,
});

/// Appends what a register shows: sign and five digits, as `+00377`, or `+12_05`.
pub(crate) fn push_amount(
    text: &mut String,
    shown: &[u8],
    amount: Amount,
    unit: &str,
) -> Result<(), AllocError> {
    match amount {
        Amount::Number(worth) => push_signed(text, shown, worth, unit),
        Amount::MinutesAndSeconds => push_time(text, shown),
    }
}

/// Appends minutes and seconds, as `12 min 5 s`.
fn push_time(text: &mut String, shown: &[u8]) -> Result<(), AllocError> {
    match shown {
        [sign, tens, ones, b'_', seconds @ ..]
            if are_digits(&[*tens, *ones]) && seconds.len() == 2 && are_digits(seconds) => {
            if *sign == b'-' {
                text.push_str("-")?;
            }
            let minutes = two_digits(&[*tens, *ones]);
            let seconds = two_digits(seconds);
            write!(text, "{minutes} min {seconds} s")
        }
        _ => text.push_str(NO_NUMBER),
    }
}

/// Returns the number of two digits.
fn two_digits(digits: &[u8]) -> u32 {
    let mut number = 0u32;
    for digit in digits {
        number = number
            .saturating_mul(10)
            .saturating_add(u32::from(digit.saturating_sub(b'0')));
    }
    number
}

/// Appends a number with its unit. Without a sign the digits are octal.
fn push_signed(
    text: &mut String,
    shown: &[u8],
    worth: Worth,
    unit: &str,
) -> Result<(), AllocError> {
    let Some((sign, digits)) = signed_digits(shown) else {
        return text.push_str(NO_NUMBER);
    };
    match sign {
        b'+' => push_number(text, digits, worth, unit),
        b'-' => {
            text.push_str("-")?;
            push_number(text, digits, worth, unit)
        }
        _ if has_decimal_digit(digits) => text.push_str(NO_NUMBER),
        _ => {
            push_digits(text, digits)?;
            text.push_str(" octal")
        }
    }
}

/// Returns the sign and the five digits of a register, if each is a digit.
fn signed_digits(shown: &[u8]) -> Option<(u8, &[u8])> {
    match shown {
        [sign, digits @ ..] if digits.len() == 5 && are_digits(digits) => Some((*sign, digits)),
        _ => None,
    }
}

pub(crate) fn are_digits(text: &[u8]) -> bool {
    !text.is_empty() && text.iter().all(|byte| byte.is_ascii_digit())
}

fn has_decimal_digit(digits: &[u8]) -> bool {
    digits.iter().any(|digit| matches!(*digit, b'8' | b'9'))
}

fn push_digits(text: &mut String, digits: &[u8]) -> Result<(), AllocError> {
    for digit in digits {
        let digit = digit.saturating_sub(b'0');
        write!(text, "{digit}")?;
    }
    Ok(())
}

/// Appends the number that digits are worth, and its unit.
fn push_number(
    text: &mut String,
    digits: &[u8],
    worth: Worth,
    unit: &str,
) -> Result<(), AllocError> {
    let mut steps: u128 = 0;
    for digit in digits {
        steps = steps
            .saturating_mul(10)
            .saturating_add(u128::from(digit.saturating_sub(b'0')));
    }
    let mut one: u128 = 1;
    for _place in 0..worth.places {
        one = one.saturating_mul(10);
    }
    let value = steps.saturating_mul(u128::from(worth.factor));
    let (whole, mut rest) = divided(value, one);
    write!(text, "{whole}")?;
    if worth.places > 0 {
        text.push_str(".")?;
    }
    for _place in 0..worth.places {
        let (digit, left) = divided(rest.saturating_mul(10), one);
        write!(text, "{digit}")?;
        rest = left;
    }
    if !unit.is_empty() {
        text.push_str(" ")?;
        text.push_str(unit)?;
    }
    Ok(())
}

/// Returns the quotient and the remainder; both are 0 if the divisor is.
fn divided(number: u128, divisor: u128) -> (u128, u128) {
    if divisor == 0 {
        return (0, 0);
    }
    (number / divisor, number % divisor)
}
