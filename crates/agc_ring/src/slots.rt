//! The checked number of slots of a ring.
use crate::ring::LinkFault;
use std::marker::Model;

/// The most slots that a ring may have.
pub const MOST_SLOTS: usize = 65_536;

/// The number of slots of a ring: 1 to 65,536.
#[derive(Clone, Copy, Debug, PartialEq, Eq)]
pub struct Slots {
    count: usize,
}

impl Model for Slots {
    ghost use Rattle.std.specs.Prelude.{ℕ, ◌<◌, ◌≤◌};

    ghost Value = { ℕ };

    ghost view = { λ slots. slots.count };

    ghost invariant = { λ slots. (0 < slots.count) × (slots.count ≤ 65536) };

    ghost inverse = { λ n. record { count = n } };
}

impl Slots {
    ghost use Rattle.std.specs.Prelude.{◌≡◌, ◌<◌, ◌≤◌, ◌↔◌, ◌⊎◌, IfOk, IfErr, IsErrOf};
    ghost use Rattle.agc_ring.specs.declared.ring.LinkFault.TheVariants as fault;

    /// Checks a number of slots: `NoSlots` for 0, `TooManySlots` above 65,536, and no other fault.
    pub fn new(count: usize) -> Result<Slots, LinkFault>
        ensures slots { IfOk result (λ slots. slots ≡ count) }
        ensures no_slots { IsErrOf result fault.NoSlots ↔ (count ≡ 0) }
        ensures too_many { IsErrOf result fault.TooManySlots ↔ (65536 < count) }
        ensures fault { IfErr result (λ why. (why ≡ fault.NoSlots) ⊎ (why ≡ fault.TooManySlots)) }
    {
        if count == 0 {
            return Err(LinkFault::NoSlots);
        }
        if count > MOST_SLOTS {
            return Err(LinkFault::TooManySlots);
        }
        Ok(Slots { count })
    }

    /// Returns the number.
    pub fn count(self) -> usize
        ensures number { result ≡ self }
        ensures range { (0 < result) × (result ≤ 65536) }
    {
        self.count
    }
}
