//! Multiplication and division, on magnitudes and signs.
ghost use Rattle.std.specs.Prelude.{◌≡◌, ◌<◌, ◌^◌, ◌≤◌, ◌↔◌, ◌+◌, ◌*◌, ◌*ℤ◌, ◌/◌, ◌⊎◌, ℕ, min, nat_abs, IsNone, IfSome};
ghost use Rattle.agc_word.specs.Number.{Number, value};
ghost use Rattle.agc_word.specs.Products.{product_of, quotient_of, dividend_of, dividend_is_minus, IsDivision};

use crate::narrow::Narrow;

/// Returns the product in two words: its magnitude divided by 40000 octal, and the remainder. Both
/// words have the product's sign, even a word that is zero; if `k` is a zero of either sign, both
/// are +0. Read as a dividend, the two words are the product of the values.
#[inline]
#[tactic(auto, unfolding(crate::specs::Products::product_of))]
pub fn product(a: Narrow, k: Narrow) -> (Narrow, Narrow)
    ensures pair { result ≡ product_of a k }
    ensures law { dividend_of result.0 result.1 ≡ value a *ℤ value k }
{
    let size = u32::from(a.magnitude()) * u32::from(k.magnitude());
    let minus = a.is_minus() != k.is_minus() && k.magnitude() != 0;
    (
        Narrow::signed(minus, (size / 0o40000) as u16),
        Narrow::signed(minus, (size % 0o40000) as u16),
    )
}

/// Divides the number in `a` and `l` by `k`: returns the quotient and the remainder. Returns `None` if `k` is a zero of
/// either sign, or if the dividend is more than 40000 octal times as large as `k`.
#[tactic(auto, unfolding(crate::specs::Products::quotient_of))]
pub fn quotient(a: Narrow, l: Narrow, k: Narrow) -> Option<(Narrow, Narrow)>
    ensures pair { result ≡ quotient_of a l k }
    ensures only { IfSome result (λ (q, r). IsDivision a l k q r
        × ((p s : Number) → IsDivision a l k p s → (p ≡ q) × (s ≡ r))) }
    ensures none { IsNone result ↔ ((q r : Number) → ¬ IsDivision a l k q r) }
{
    let dividend = dividend_size(a, l);
    let divisor = u32::from(k.magnitude());
    if divisor == 0 {
        return None;
    }
    if dividend > 0o40000 * divisor {
        return None;
    }
    let minus = if a.magnitude() == 0 {
        l.is_minus()
    } else {
        a.is_minus()
    };
    let (whole, rest) = divided(dividend, divisor);
    Some((
        Narrow::signed(minus != k.is_minus(), whole),
        Narrow::signed(minus, rest),
    ))
}

/// Returns the whole part, at most 37777 octal, and the remainder.
fn divided(dividend: u32, divisor: u32) -> (u16, u16)
    requires positive { 0 < divisor }
    requires narrow { divisor < 2 ^ 14 }
    requires within { dividend ≤ 0o40000 * divisor }
    ensures whole { result.0 ≡ min (dividend / divisor) 0o37777 }
    ensures parts { dividend ≡ result.0 * divisor + result.1 }
    ensures rest { (result.1 < divisor) ⊎ ((result.0 ≡ 0o37777) × (result.1 ≡ divisor)) }
{
    let whole = dividend / divisor;
    if whole < 0o40000 {
        (whole as u16, (dividend % divisor) as u16)
    } else {
        (0o37777, divisor as u16)
    }
}

fn dividend_size(a: Narrow, l: Narrow) -> u32
    ensures size { result ≡ nat_abs (dividend_of a l) }
    ensures bound { result < 2 ^ 28 }
{
    let upper = u32::from(a.magnitude()) * 0o40000;
    let lower = u32::from(l.magnitude());
    if a.is_minus() == l.is_minus() {
        upper + lower
    } else if upper < lower {
        lower - upper
    } else {
        upper - lower
    }
}
