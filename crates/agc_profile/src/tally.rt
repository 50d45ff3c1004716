//! How often something happened, and how many cycles it took.
ghost use Rattle.std.specs.Prelude.{◌≡◌, IfOk};
ghost use Rattle.agc_profile.specs.Tally.{total_of};

use std::alloc::AllocError;

/// How often something happened, and how many cycles it took in all.
#[derive(Clone, Copy, Debug, PartialEq, Eq)]
pub struct Tally {
    pub times: u64,
    pub cycles: u64,
}

impl Tally {
    ghost use Rattle.std.specs.Prelude.{◌≡◌, IfOk};
    ghost use Rattle.agc_profile.specs.Tally.{is_counted, nothing, once, plus};

    /// Nothing happened.
    pub const NOTHING: Tally = Tally {
        times: 0,
        cycles: 0,
    };

    /// Creates the tally of something that happened once and took this many cycles.
    pub fn once(cycles: u64) -> Tally
        ensures { result ≡ once cycles }
    {
        Tally { times: 1, cycles }
    }

    /// Adds two tallies. No run is long enough to overflow 64 bits; an overflow is reported as out of memory.
    pub fn plus(self, more: Tally) -> Result<Tally, AllocError>
        ensures { IfOk result (λ both. both ≡ plus self more) }
    {
        Ok(Tally {
            times: self.times.checked_add(more.times).ok_or(AllocError)?,
            cycles: self.cycles.checked_add(more.cycles).ok_or(AllocError)?,
        })
    }

    /// Returns whether it happened at all.
    pub fn is_counted(self) -> bool
        ensures { result ≡ is_counted self }
    {
        self.times != 0 || self.cycles != 0
    }
}

/// Returns the sum of all tallies. Fails if a number overflows.
pub(crate) fn total_of(tallies: &[Tally]) -> Result<Tally, AllocError>
    ensures { IfOk result (λ all. all ≡ total_of tallies.now) }
{
    let mut all = Tally::NOTHING;
    for tally in tallies {
        all = all.plus(*tally)?;
    }
    Ok(all)
}
