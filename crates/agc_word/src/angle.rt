//! The difference of two angles, which are kept in two's complement.
ghost use Rattle.std.specs.Prelude.{◌≡◌};
ghost use Rattle.agc_word.specs.Number.{Number};
ghost use Rattle.agc_word.specs.Angles.{modular_difference_of, IsModularDifference};

use crate::narrow::Narrow;
use crate::wide::Wide;

/// Returns the shorter way from angle `k` to angle `a` on a circle of 100000 octal, in -40000 to 37777 octal, as MSU
/// leaves it in A. Equal angles give +0; only the value -40000 octal has overflow.
#[inline]
#[tactic(auto, unfolding(crate::specs::Angles::modular_difference_of))]
pub fn modular_difference(a: Narrow, k: Narrow) -> Wide
    ensures value { result ≡ modular_difference_of a k }
    ensures law { IsModularDifference a k result }
    ensures only { (d : Number) → IsModularDifference a k d → d ≡ result }
{
    let way = (a.bits() + 0o100000 - k.bits()) % 0o100000;
    Wide::from_bits(if way < 0o40000 { way } else { way + 0o77777 })
}
