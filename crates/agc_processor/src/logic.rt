//! Logical operations on words: wide if A or Q is the other operand, otherwise on words corrected for overflow.
ghost use Rattle.std.specs.Prelude.{◌≡◌};
ghost use Rattle.agc_processor.specs.Logic.{and_words_of, or_words_of, xor_words_of};

use agc_word::{Wide, and, or, widen, xor};

pub(crate) fn and_words(wide: bool, x: Wide, y: Wide) -> Wide
    ensures { result ≡ and_words_of wide x y }
{
    if wide {
        and(x, y)
    } else {
        and(widen(x.narrow()), widen(y.narrow()))
    }
}

pub(crate) fn or_words(wide: bool, x: Wide, y: Wide) -> Wide
    ensures { result ≡ or_words_of wide x y }
{
    if wide {
        or(x, y)
    } else {
        or(widen(x.narrow()), widen(y.narrow()))
    }
}

pub(crate) fn xor_words(wide: bool, x: Wide, y: Wide) -> Wide
    ensures { result ≡ xor_words_of wide x y }
{
    if wide {
        xor(x, y)
    } else {
        xor(widen(x.narrow()), widen(y.narrow()))
    }
}
