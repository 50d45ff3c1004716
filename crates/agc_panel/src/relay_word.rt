//! The relay words, which set the digits, the signs and six of the lamps.
ghost use Rattle.std.specs.Prelude.{◌≡◌};
ghost use Rattle.agc_panel.specs.RelayWord.{bits, is_bit_on, left_digit, right_digit};

use crate::digit::Digit;
use agc_word::Narrow;

/// Returns the row that a relay word names.
#[tactic(auto, unfolding(crate::specs::RelayWord::bits))]
pub(crate) fn row_of(word: Narrow) -> u16
    ensures { result ≡ bits 15 12 word }
{
    word.bits() >> 11
}

/// Returns the sign that a relay word sets in its row.
pub(crate) fn sign_of(word: Narrow) -> bool
    ensures { result ≡ is_bit_on 11 word }
{
    word.bit(11)
}

/// Returns the left digit of a relay word.
#[tactic(auto, unfolding(crate::specs::RelayWord::bits))]
pub(crate) fn left_of(word: Narrow) -> Digit
    ensures { result ≡ left_digit word }
{
    Digit::from_code((word.bits() >> 5) % 0o40)
}

/// Returns the right digit of a relay word.
#[tactic(auto, unfolding(crate::specs::RelayWord::bits))]
pub(crate) fn right_of(word: Narrow) -> Digit
    ensures { result ≡ right_digit word }
{
    Digit::from_code(word.bits() % 0o40)
}
