//! One boundary of a run, with the cycles that it takes and the context in which it begins.
ghost use Rattle.std.specs.Prelude.{◌≡◌, ◌+◌, ◌<◌, ◌^◌, None};
ghost use Rattle.agc_listing.specs.Location.{location_at};
ghost use Rattle.agc_store.specs.Places.{fixed_window};
ghost use Rattle.agc_machine.specs.Boundary.{boundary, upcoming_of, HasPlace};
ghost use Rattle.agc_profile.specs.DataReads.{data_of};
ghost use Rattle.agc_profile.specs.Step.{HasTally, IsPlaced, passage_of};

use crate::context::Context;
use crate::data::DataReads;
use agc_machine::{Machine, Upcoming};
use agc_processor::Rupt;
use agc_store::Addr;

/// One boundary of a run.
#[derive(Clone, Copy, Debug, PartialEq, Eq)]
pub struct Step {
    /// The machine cycle at which it begins.
    pub cycle: u64,
    /// What happens.
    pub happening: Upcoming,
    /// The cycles up to the next boundary.
    pub cycles: u64,
    /// The context in which it begins.
    pub mode: Context,
    /// The words that it reads as data.
    pub reads: DataReads,
}

impl Step {
    ghost use Rattle.std.specs.Prelude.{◌≡◌};
    ghost use Rattle.agc_profile.specs.Step.{service_of};

    /// Returns the interrupt to whose service the boundary belongs, if any; the entry and the
    /// RESUME belong to it.
    pub(crate) fn service(&self) -> Option<Rupt>
        ensures { result ≡ service_of self.now }
    {
        match self.happening {
            Upcoming::Interrupt(rupt) => Some(rupt),
            Upcoming::Stop(_) | Upcoming::Event(_) | Upcoming::Timer(_) | Upcoming::Order(_) => self
                .mode
                .service,
        }
    }
}

/// Steps a machine in a context over its next boundary, and returns it, given what happens and the words read as data.
#[inline(always)]
#[tactic(auto, unfolding(crate::specs::Step::passage_of))]
pub(crate) fn next_passage(
    machine: &mut Machine,
    mode: Context,
    happening: &Upcoming,
    reads: DataReads,
) -> Step
    requires reported { happening.now ≡ upcoming_of machine.old }
    requires reads { reads ≡ data_of happening.now machine.old.processor.store }
    ensures passage { result ≡ passage_of mode machine.old }
    ensures after { machine.new ≡ (boundary None machine.old).0 }
    ensures cycles { machine.old.cycle + result.cycles ≡ machine.new.cycle }
    ensures range { machine.new.cycle < 2 ^ 64 }
{
    let cycle = machine.cycle();
    machine.step(None);
    Step {
        cycle,
        happening: *happening,
        cycles: machine.cycle() - cycle,
        mode,
        reads,
    }
}

/// Proves that the place of an order is in the tables.
#[inline]
pub(crate) fn has_tally(happening: &Upcoming)
    requires { HasPlace happening.now }
    ensures { IsPlaced happening.now }
{
    if let Upcoming::Order(order) = happening {
        is_within(order.bank, order.address);
    }
}

/// Proves that a place given by its bank and its address is in the tables.
#[tactic(auto, unfolding(agc_listing::specs::Location::location_at))]
fn is_within(bank: u8, address: Addr)
    requires bank { bank < 0o50 }
    requires erasable { address < fixed_window → bank < 0o10 }
    ensures { HasTally (location_at bank address) }
{
    let _address = address.bits();
}
