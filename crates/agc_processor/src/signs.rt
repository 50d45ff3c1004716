//! The signs of words: +1, -1 and +0, which orders add and leave, and the tests of a sign.
ghost use Rattle.std.specs.Prelude.{◌≡◌, ◌==◌, ◌||◌, ◌<◌};
ghost use Rattle.agc_processor.specs.Signs.{overflow_word, ccs_skip};

use agc_word::{Over, Wide};

/// Returns what an overflow leaves in A: +1 or -1, or +0 without overflow.
pub(crate) fn word_of_overflow(over: Over) -> Wide
    ensures { result ≡ overflow_word over }
{
    match over {
        Over::None => Wide::PLUS_ZERO,
        Over::Plus => Wide::PLUS_ONE,
        Over::Minus => Wide::MINUS_ONE,
    }
}

/// Returns whether the sign, bit 16, is minus.
#[inline]
pub(crate) fn is_minus(x: Wide) -> bool
    ensures { result ≡ x.minus }
{
    x.bits() >= 0o100000
}

/// Returns whether the word is either zero.
#[inline]
pub(crate) fn is_zero(x: Wide) -> bool
    ensures { result ≡ (x.magnitude == 0) }
{
    let bits = x.bits();
    bits == 0 || bits == 0o177777
}

/// Returns whether BZMF jumps: the sign is minus, or the word is +0.
#[inline]
pub(crate) fn is_minus_or_plus_zero(x: Wide) -> bool
    ensures { result ≡ (x.minus || (x.magnitude == 0)) }
{
    let bits = x.bits();
    bits == 0 || bits >= 0o100000
}

/// Returns how many orders CCS skips: 0 for a positive word, 1 for +0, 2 for a negative word, 3 for -0.
#[inline]
pub(crate) fn orders_left_out(x: Wide) -> u8
    ensures left_out { result ≡ ccs_skip x }
    ensures bound { result < 4 }
{
    match x.bits() {
        0 => 1,
        0o177777 => 3,
        bits => if bits < 0o100000 { 0 } else { 2 },
    }
}
