//! Pairs the next observations of two runs.
ghost use Rattle.std.specs.Prelude.{◌≡◌};
ghost use Rattle.agc_diff.specs.ObservedPrefix.{IsPairing};

use crate::observed::comparison::Pair;
use crate::observed::observation::{Observation, are_alike};

/// The next observations of two runs, compared.
#[derive(Clone, Copy, Debug, PartialEq, Eq)]
pub(crate) enum Pairing {
    /// Both are the same.
    Alike(Pair),
    /// They differ, or only one run has one.
    Apart,
    /// Neither run has one.
    Over,
}

/// Compares the next observations of two runs; `None` means that a run has no further one.
pub(crate) fn pairing_of(left: Option<Observation>, right: Option<Observation>) -> Pairing
    ensures { IsPairing left right result }
{
    match (left, right) {
        (Some(left), Some(right)) => {
            if are_alike(left.sight, right.sight) {
                Pairing::Alike(Pair { left, right })
            } else {
                Pairing::Apart
            }
        }
        (None, None) => Pairing::Over,
        (Some(_), None) | (None, Some(_)) => Pairing::Apart,
    }
}
