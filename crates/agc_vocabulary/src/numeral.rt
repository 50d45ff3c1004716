//! Parses the numbers of DEC and 2DEC: integers, and fractions with a decimal exponent and a binary scale.
ghost use Rattle.std.specs.Prelude.{◌≡◌, ◌+◌, ◌-◌, ◌*◌, ◌/◌, ◌^◌, ◌<◌, ◌≤◌, nat_lt, if◌then◌else◌, length, position, option_map, IfSome, IfOk};
ghost use Rattle.agc_word.specs.Numeral.{decimal_number};
ghost use Rattle.agc_listing.specs.Number.{without_sign};
ghost use Rattle.agc_vocabulary.specs.Body.{tokens};
ghost use Rattle.agc_vocabulary.specs.Numeral.{
  AreSmall,
  IsNearest,
  IsSmall,
  bound,
  down,
  fraction_of,
  is_exponent,
  is_point,
  magnitude_in,
  magnitude_plain,
  magnitude_scaled,
  nearest,
  number_in,
  numeral_cut,
  numeral_named,
  numeral_split,
  one_scale,
  part_named,
  power_named,
  raised,
  ratio,
  rounded,
  scale_by,
  scale_named,
  scaled,
  times_below,
  two_scales,
  up,
  with_exponent,
};

use crate::body::next_token;
use crate::source_fault::SourceFault;
use agc_listing::Signed;
use agc_word::read_decimal;

/// The digits of a number as one integer, and how many of them stand after its point.
#[derive(Clone, Copy)]
pub(crate) struct Numeral {
    pub minus: bool,
    pub digits: u128,
    pub places: u32,
    /// It has no point and no exponent.
    pub whole: bool,
    /// The power of ten right behind the digits.
    pub exponent: Signed,
}

/// A factor: a power of ten or of two.
#[derive(Clone, Copy)]
pub(crate) enum Scale {
    Ten(Signed),
    Two(Signed),
}

/// Both factors of a number.
#[derive(Clone, Copy)]
pub(crate) struct Scales {
    pub ten: Signed,
    pub two: Signed,
}

/// A quotient of two integers.
#[derive(Clone, Copy)]
pub(crate) struct Quotient {
    pub over: u128,
    pub under: u128,
}

/// The largest product that is computed.
const BOUND: u128 = 1 << 124;

/// The power zero.
const NO_POWER: Signed = Signed {
    minus: false,
    magnitude: 0,
};

/// Parses the number that words write, in units of the last of `bits` bits: an integer as it stands, a fraction as the
/// nearest integer. Fails if the number is out of range.
#[tactic(auto, unfolding(crate::specs::Numeral::number_in))]
pub fn number_in(bits: u32, starred: bool, text: &[u8]) -> Result<Signed, SourceFault>
    requires { bits ≤ 28 }
    ensures number { result ≡ number_in bits starred (tokens text.now) }
    ensures range { IfOk result (λ n. n.magnitude < 2 ^ bits) }
{
    let Some((first, rest)) = next_token(text) else {
        return Err(SourceFault::BadNumber);
    };
    let Some(numeral) = numeral_named(first) else {
        return Err(SourceFault::BadNumber);
    };
    let magnitude = magnitude_in(bits, starred, numeral, rest)?;
    Ok(Signed {
        minus: numeral.minus,
        magnitude,
    })
}

/// Returns whether a word is a numeral.
pub fn is_numeral(word: &[u8]) -> bool {
    numeral_named(word).is_some()
}

/// Returns whether a word is a scale.
pub fn is_scale(starred: bool, word: &[u8]) -> bool {
    scale_named(starred, word).is_some()
}

fn magnitude_in(bits: u32, starred: bool, numeral: Numeral, text: &[u8]) -> Result<u64, SourceFault>
    requires bits { bits ≤ 28 }
    requires places { numeral.places ≤ 18 }
    requires digits { numeral.digits < bound }
    requires exponent { numeral.exponent.magnitude < 100 }
    ensures magnitude { result ≡ magnitude_in bits starred numeral (tokens text.now) }
    ensures range { IfOk result (λ n. n < 2 ^ bits) }
{
    let Some((first, rest)) = next_token(text) else {
        return magnitude_plain(bits, numeral);
    };
    let Some((second, more)) = next_token(rest) else {
        return magnitude_scaled(bits, numeral, one_scale(scale_named(starred, first)));
    };
    if next_token(more).is_some() {
        return Err(SourceFault::BadNumber);
    }
    let scales = two_scales(scale_named(starred, first), scale_named(starred, second));
    magnitude_scaled(bits, numeral, scales)
}

/// Returns the magnitude of a number without scales.
fn magnitude_plain(bits: u32, numeral: Numeral) -> Result<u64, SourceFault>
    requires bits { bits ≤ 28 }
    requires places { numeral.places ≤ 18 }
    requires digits { numeral.digits < bound }
    requires exponent { numeral.exponent.magnitude < 100 }
    ensures magnitude { result ≡ magnitude_plain bits numeral }
    ensures range { IfOk result (λ n. n < 2 ^ bits) }
{
    if numeral.whole {
        if numeral.digits < 1 << bits {
            Ok(numeral.digits as u64)
        } else {
            Err(SourceFault::OutOfRange)
        }
    } else {
        scaled(
            bits,
            numeral,
            Scales {
                ten: NO_POWER,
                two: NO_POWER,
            },
        )
    }
}

fn magnitude_scaled(bits: u32, numeral: Numeral, scales: Option<Scales>) -> Result<u64, SourceFault>
    requires bits { bits ≤ 28 }
    requires places { numeral.places ≤ 18 }
    requires digits { numeral.digits < bound }
    requires exponent { numeral.exponent.magnitude < 100 }
    requires scales { IfSome scales AreSmall }
    ensures magnitude { result ≡ magnitude_scaled bits numeral scales }
    ensures range { IfOk result (λ n. n < 2 ^ bits) }
{
    match scales {
        Some(scales) => scaled(bits, numeral, scales),
        None => Err(SourceFault::BadNumber),
    }
}

/// Returns the magnitude of a fraction, with its scales.
fn scaled(bits: u32, numeral: Numeral, scales: Scales) -> Result<u64, SourceFault>
    requires bits { bits ≤ 28 }
    requires places { numeral.places ≤ 18 }
    requires digits { numeral.digits < bound }
    requires exponent { numeral.exponent.magnitude < 100 }
    requires ten { scales.ten.magnitude < 100 }
    requires two { scales.two.magnitude < 100 }
    ensures magnitude { result ≡ scaled bits (ratio bits numeral scales) }
    ensures range { IfOk result (λ n. n < 2 ^ bits) }
{
    let Some(ratio) = ratio(bits, numeral, scales) else {
        return Err(SourceFault::OutOfRange);
    };
    match nearest(limit_of(bits), ratio) {
        Some(magnitude) => Ok(magnitude),
        None => Err(SourceFault::OutOfRange),
    }
}

/// Returns the first number that has more than this many bits.
#[tactic(auto, using(crate::proofs::Nearest::shifted, crate::proofs::Nearest::at_most, crate::proofs::Nearest::positive))]
fn limit_of(bits: u32) -> u128
    requires { bits ≤ 28 }
    ensures limit { result ≡ 2 ^ bits }
    ensures range { result ≤ 2 ^ 28 }
    ensures some { 0 < result }
{
    1 << bits
}

/// Parses a numeral: a sign, digits, and perhaps a point with digits before it, after it or both; and perhaps a power
/// of ten right behind them.
#[tactic(auto, unfolding(crate::specs::Numeral::numeral_named))]
fn numeral_named(text: &[u8]) -> Option<Numeral>
    ensures numeral { result ≡ numeral_named text.now }
    ensures places { IfSome result (λ n. n.places ≤ 18) }
    ensures digits { IfSome result (λ n. n.digits < bound) }
    ensures exponent { IfSome result (λ n. n.exponent.magnitude < 100) }
{
    let minus = matches!(text, [b'-', ..]);
    let digits = without_sign(text);
    let Some(at) = first_exponent(digits) else {
        return digits_named(minus, digits);
    };
    let numeral = digits_named(minus, &digits[..at])?;
    let exponent = power_named(&digits[at + 1..])?;
    Some(Numeral {
        minus: numeral.minus,
        digits: numeral.digits,
        places: numeral.places,
        whole: false,
        exponent,
    })
}

fn first_exponent(text: &[u8]) -> Option<usize>
    ensures exponent { result ≡ position is_exponent text.now }
    ensures bound { IfSome result (λ at. at < length text.now) }
{
    text.iter().position(|b| *b == b'E')
}

/// Parses digits, perhaps with a point.
fn digits_named(minus: bool, digits: &[u8]) -> Option<Numeral>
    ensures numeral { result ≡ numeral_cut minus (position is_point digits.now) digits.now }
    ensures places { IfSome result (λ n. n.places ≤ 18) }
    ensures digits { IfSome result (λ n. n.digits < bound) }
    ensures exponent { IfSome result (λ n. n.exponent.magnitude < 100) }
{
    match first_point(digits) {
        None => Some(Numeral {
            minus,
            digits: u128::from(read_decimal(18, digits)?),
            places: 0,
            whole: true,
            exponent: NO_POWER,
        }),
        Some(at) => fraction_named(minus, at, digits),
    }
}

/// Parses digits with a point at this position.
fn fraction_named(minus: bool, at: usize, text: &[u8]) -> Option<Numeral>
    requires { at < length text.now }
    ensures numeral { result ≡ numeral_cut minus (Some at) text.now }
    ensures places { IfSome result (λ n. n.places ≤ 18) }
    ensures digits { IfSome result (λ n. n.digits < bound) }
    ensures exponent { IfSome result (λ n. n.exponent.magnitude < 100) }
{
    let places = text.len() - (at + 1);
    if text.len() < 2 || places > 18 {
        return None;
    }
    let whole = raised(u128::from(part_named(18, &text[..at])?), 10, places as u32)?;
    let part = u128::from(part_named(18, &text[at + 1..])?);
    let digits = whole + part;
    if digits >= BOUND {
        return None;
    }
    Some(Numeral {
        minus,
        digits,
        places: places as u32,
        whole: false,
        exponent: NO_POWER,
    })
}

/// Parses the digits on one side of the point, which may be missing.
fn part_named(most: usize, text: &[u8]) -> Option<u64>
    requires { most ≤ 18 }
    ensures { result ≡ part_named most text.now }
{
    if text.is_empty() {
        Some(0)
    } else {
        read_decimal(most, text)
    }
}

fn first_point(text: &[u8]) -> Option<usize>
    ensures point { result ≡ position is_point text.now }
    ensures bound { IfSome result (λ at. at < length text.now) }
{
    text.iter().position(|b| *b == b'.')
}

/// Returns a text without the sign before it.
pub fn without_sign(text: &[u8]) -> &[u8]
    ensures { result.now ≡ without_sign text.now }
{
    match text {
        [b'+' | b'-', digits @ ..] => digits,
        _ => text,
    }
}

/// Parses a scale; in DEC* and 2DEC* it may end in `*`.
#[tactic(auto, unfolding(crate::specs::Numeral::scale_named))]
fn scale_named(starred: bool, text: &[u8]) -> Option<Scale>
    ensures scale { result ≡ scale_named starred text.now }
    ensures range { IfSome result IsSmall }
{
    match text {
        [scale @ .., b'*'] if starred => scale_by(scale),
        _ => scale_by(text),
    }
}

fn scale_by(text: &[u8]) -> Option<Scale>
    ensures scale { result ≡ scale_by text.now }
    ensures range { IfSome result IsSmall }
{
    match text {
        [b'E', power @ ..] => Some(Scale::Ten(power_named(power)?)),
        [b'B', power @ ..] => Some(Scale::Two(power_named(power)?)),
        _ => None,
    }
}

/// Parses an optional sign and one or two digits.
fn power_named(text: &[u8]) -> Option<Signed>
    ensures power { result ≡ power_named text.now }
    ensures range { IfSome result (λ n. n.magnitude < 100) }
{
    let minus = matches!(text, [b'-', ..]);
    let magnitude = read_decimal(2, without_sign(text))?;
    Some(Signed { minus, magnitude })
}

fn one_scale(scale: Option<Scale>) -> Option<Scales>
    requires { IfSome scale IsSmall }
    ensures scales { result ≡ one_scale scale }
    ensures range { IfSome result AreSmall }
{
    match scale? {
        Scale::Ten(ten) => Some(Scales { ten, two: NO_POWER }),
        Scale::Two(two) => Some(Scales { ten: NO_POWER, two }),
    }
}

fn two_scales(first: Option<Scale>, second: Option<Scale>) -> Option<Scales>
    requires first { IfSome first IsSmall }
    requires second { IfSome second IsSmall }
    ensures scales { result ≡ two_scales first second }
    ensures range { IfSome result AreSmall }
{
    match (first?, second?) {
        (Scale::Ten(ten), Scale::Two(two)) | (Scale::Two(two), Scale::Ten(ten)) => {
            Some(Scales { ten, two })
        }
        _ => None,
    }
}

/// Returns a number with its scales as a quotient, in units of the last of `bits` bits. Powers over and under the line
/// are set off against each other, so that products stay small.
#[tactic(auto, unfolding(crate::specs::Numeral::ratio))]
fn ratio(bits: u32, numeral: Numeral, scales: Scales) -> Option<Quotient>
    requires bits { bits ≤ 28 }
    requires places { numeral.places ≤ 18 }
    requires digits { numeral.digits < bound }
    requires exponent { numeral.exponent.magnitude < 100 }
    requires ten { scales.ten.magnitude < 100 }
    requires two { scales.two.magnitude < 100 }
    ensures ratio { result ≡ ratio bits numeral scales }
    ensures over { IfSome result (λ r. r.over < bound) }
    ensures under { IfSome result (λ r. r.under < bound) }
    ensures positive { IfSome result (λ r. 0 < r.under) }
{
    let ten_up = up(numeral.exponent) + up(scales.ten);
    let ten_down = numeral.places + down(numeral.exponent) + down(scales.ten);
    let two_up = bits + up(scales.two);
    let two_down = down(scales.two);
    let over = raised(numeral.digits, 10, ten_up.saturating_sub(ten_down))?;
    let over = raised(over, 2, two_up.saturating_sub(two_down))?;
    let under = raised(1, 10, ten_down.saturating_sub(ten_up))?;
    let under = raised(under, 2, two_down.saturating_sub(two_up))?;
    Some(Quotient { over, under })
}

/// Returns the power by which a scale multiplies.
fn up(power: Signed) -> u32
    requires { power.magnitude < 100 }
    ensures up { result ≡ up power }
    ensures range { result < 100 }
{
    if power.minus {
        0
    } else {
        power.magnitude as u32
    }
}

/// Returns the power by which a scale divides.
fn down(power: Signed) -> u32
    requires { power.magnitude < 100 }
    ensures down { result ≡ down power }
    ensures range { result < 100 }
{
    if power.minus {
        power.magnitude as u32
    } else {
        0
    }
}

/// Multiplies a number by a power of a base, unless a product is too large.
#[tactic(auto, unfolding(crate::specs::Numeral::raised))]
fn raised(n: u128, base: u128, times: u32) -> Option<u128>
    requires n { n < bound }
    requires base { base ≤ 10 }
    requires some { 0 < base }
    ensures product { result ≡ raised n base times }
    ensures range { IfSome result (λ more. more < bound) }
    ensures positive { 0 < n → IfSome result (λ more. 0 < more) }
{
    if times == 0 {
        return Some(n);
    }
    raised(times_below(n, base)?, base, times - 1)
}

fn times_below(n: u128, base: u128) -> Option<u128>
    requires n { n < bound }
    requires base { base ≤ 10 }
    requires some { 0 < base }
    ensures product { result ≡ times_below n base }
    ensures range { IfSome result (λ more. more < bound) }
    ensures positive { 0 < n → IfSome result (λ more. 0 < more) }
{
    let more = n * base;
    if more < BOUND { Some(more) } else { None }
}

/// Returns the integer nearest to a quotient that is below `limit`; the largest one below the limit if the nearest is
/// the limit itself.
#[tactic(auto, unfolding(crate::specs::Numeral::nearest))]
fn nearest(limit: u128, ratio: Quotient) -> Option<u64>
    requires limit { limit ≤ 2 ^ 28 }
    requires some { 0 < limit }
    requires over { ratio.over < bound }
    requires under { ratio.under < bound }
    requires positive { 0 < ratio.under }
    ensures integer { result ≡ nearest limit ratio }
    ensures range { IfSome result (λ n. n < limit) }
    ensures nearest { IfSome result (IsNearest limit ratio) }
{
    if !is_below(limit, ratio) {
        return None;
    }
    let rounded = (2 * ratio.over + ratio.under) / (2 * ratio.under);
    Some(capped(limit, rounded) as u64)
}

/// Returns an integer if it is below a limit, and otherwise the largest one that is.
fn capped(limit: u128, n: u128) -> u128
    requires { 0 < limit }
    ensures capped { result ≡ (if nat_lt n limit then n else limit - 1) }
    ensures range { result < limit }
{
    if n < limit { n } else { limit - 1 }
}

/// Returns whether a quotient is below a limit.
#[tactic(auto, using(crate::proofs::Nearest::below_is))]
fn is_below(limit: u128, ratio: Quotient) -> bool
    requires limit { limit ≤ 2 ^ 28 }
    requires over { ratio.over < bound }
    requires under { ratio.under < bound }
    requires positive { 0 < ratio.under }
    ensures { result ≡ nat_lt ratio.over (limit * ratio.under) }
{
    ratio.over / ratio.under < limit
}
