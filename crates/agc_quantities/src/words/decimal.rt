//! Prints a multiple of a step as the shortest decimal that tells it from its neighbours.
use std::alloc::AllocError;

/// The most decimals that a value can need: the smallest step is 2^-102.
const MOST_DECIMALS: u32 = 40;

/// The difference of two neighbours: `worth` / `parts`, at most 2^60 and at least 2^-102.
#[derive(Clone, Copy)]
pub(crate) struct Step {
    pub worth: u128,
    pub parts: u128,
}

/// A decimal: `digits` / 10^`decimals`.
#[derive(Clone, Copy)]
struct Decimal {
    digits: u128,
    decimals: u32,
}

/// Appends the value of this many steps, at most 2^43, as the shortest decimal that is less than half a step away.
pub(crate) fn push_decimal(text: &mut String, steps: u64, step: Step) -> Result<(), AllocError> {
    let Decimal { digits, decimals } = shortest(steps, step);
    let mut unit: u128 = 1;
    for _digit in 0..decimals {
        unit = unit.saturating_mul(10);
    }
    let (whole, mut rest) = divided(digits, unit);
    write!(text, "{whole}")?;
    if decimals > 0 {
        text.push_str(".")?;
    }
    for _digit in 0..decimals {
        let (digit, left) = divided(rest.saturating_mul(10), unit);
        write!(text, "{digit}")?;
        rest = left;
    }
    Ok(())
}

/// Returns the shortest decimal. No product here reaches 2^110, so that none saturates.
fn shortest(steps: u64, step: Step) -> Decimal {
    let (mut digits, mut rest) = divided(u128::from(steps).saturating_mul(step.worth), step.parts);
    // The step, in units of the last digit.
    let mut width = step.worth;
    for decimals in 0..MOST_DECIMALS {
        let missing = step.parts.saturating_sub(rest);
        let fits = rest.saturating_mul(2) < width;
        let fits_above = missing.saturating_mul(2) < width;
        if fits_above && !(fits && rest <= missing) {
            return Decimal {
                digits: digits.saturating_add(1),
                decimals,
            };
        }
        if fits {
            return Decimal { digits, decimals };
        }
        let (digit, left) = divided(rest.saturating_mul(10), step.parts);
        digits = digits.saturating_mul(10).saturating_add(digit);
        rest = left;
        width = width.saturating_mul(10);
    }
    Decimal {
        digits,
        decimals: MOST_DECIMALS,
    }
}

/// Returns the quotient and the remainder; both are 0 if the divisor is.
fn divided(number: u128, divisor: u128) -> (u128, u128) {
    if divisor == 0 {
        return (0, 0);
    }
    (number / divisor, number % divisor)
}
