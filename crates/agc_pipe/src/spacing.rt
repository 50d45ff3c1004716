//! The checked spacing of live keys.
use std::marker::Model;

/// The least number of machine cycles between two live keys: 1 or more.
#[derive(Clone, Copy, Debug, PartialEq, Eq)]
pub struct Spacing {
    cycles: u64,
}

impl Model for Spacing {
    ghost use Rattle.std.specs.Prelude.{ℕ, ◌<◌};

    ghost Value = { ℕ };

    ghost view = { λ spacing. spacing.cycles };

    ghost invariant = { λ spacing. 0 < spacing.cycles };

    ghost inverse = { λ n. record { cycles = n } };
}

impl Spacing {
    ghost use Rattle.std.specs.Prelude.{◌≡◌, ◌<◌, ◌↔◌, IfSome, IsSome};

    /// Checks a number of cycles; `None` for 0.
    pub fn new(cycles: u64) -> Option<Spacing>
        ensures fits { IsSome result ↔ (0 < cycles) }
        ensures spacing { IfSome result (λ spacing. spacing ≡ cycles) }
    {
        if cycles == 0 {
            None
        } else {
            Some(Spacing { cycles })
        }
    }

    /// Returns the number.
    pub fn cycles(self) -> u64
        ensures number { result ≡ self }
        ensures range { 0 < result }
    {
        self.cycles
    }
}
