//! Narrow words as cells store them: widened, so that all cells have one type.
ghost use Rattle.std.specs.Prelude.{◌≡◌, ℕ, ◌<◌, ◌^◌};
ghost use Rattle.agc_word.specs.Number.{pattern_of};
ghost use Rattle.agc_store.specs.Cells.{narrow_number, cleared_cells};

use agc_word::{Narrow, Wide, widen};

/// Returns `N` cells of +0.
#[tactic(auto, unfolding(crate::specs::Cells::cleared_cells))]
pub(super) fn cleared<const N: usize>() -> [Wide; N]
    ensures { result ≡ cleared_cells N }
{
    [Wide::PLUS_ZERO; N]
}

/// Returns the word with a pattern of fifteen bits, as a narrow cell stores it.
#[inline]
pub(super) fn narrow_word(bits: u16) -> Wide
    requires { bits < 2 ^ 15 }
    ensures word { result ≡ narrow_number bits }
    ensures range { result.magnitude < 2 ^ 14 }
{
    widen(Narrow::with_bits(bits))
}

/// Returns the pattern of fifteen bits of a word that a narrow cell stores.
#[inline]
pub(super) fn narrow_pattern(word: Wide) -> u16
    ensures pattern { result ≡ pattern_of 15 word }
    ensures range { result < 2 ^ 15 }
{
    word.bits() % 0o100000
}
