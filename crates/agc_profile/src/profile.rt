//! The profile of a run: its tallies, and how a boundary is added to them.
ghost use Rattle.std.specs.Prelude.{◌≡◌};
ghost use Rattle.agc_store.specs.Places.{erasable_cells, fixed_places};
ghost use Rattle.agc_profile.specs.Profile.{served};
ghost use Rattle.agc_profile.specs.Number.{basic_count, extracode_count};

use crate::data::DataReads;
use crate::number::{BASICS, EXTRACODES, basic_number, extracode_number};
use crate::opcode::Opcode;
use crate::step::Step;
use crate::table::Table;
use crate::tally::Tally;
use agc_listing::Location;
use agc_machine::Upcoming;
use agc_processor::Rupt;
use agc_store::place::{ERASABLE_CELLS, FIXED_PLACES};
use agc_trace::Span;
use std::alloc::{AllocError, Global};

/// The number of places of fixed memory at which an order may be: 40 banks, of which the last four are empty.
const PLACES: usize = FIXED_PLACES as usize;
/// The number of cells of erasable memory.
const CELLS: usize = ERASABLE_CELLS as usize;
/// The number of interrupts.
const RUPTS: usize = 10;

/// The profile of a run.
#[derive(Debug, Drop)]
pub struct Profile {
    /// The orders that ran at each place in fixed memory: 2000 octal times its bank, plus its offset.
    pub fixed: Table,
    /// The orders that ran at each cell of erasable memory: 400 octal times its bank, plus its offset.
    pub erasable: Table,
    /// How often the word at each place in fixed memory was read as data, and the cycles of the orders that read it.
    pub fixed_data: Table,
    /// The same for each cell of erasable memory.
    pub erasable_data: Table,
    /// The orders of each kind, in the sequence of their codes.
    pub basics: Table,
    pub extracodes: Table,
    /// How often each interrupt was taken, and the cycles of its services, including the entries.
    pub interrupts: Table,
    /// All orders.
    pub orders: Tally,
    /// The steps of timers.
    pub timers: Tally,
    /// The events of the script; pulses take cycles.
    pub events: Tally,
    /// The entries of interrupts.
    pub entries: Tally,
    /// All boundaries of services.
    pub serving: Tally,
    /// All boundaries that began with INHINT in force.
    pub inhibited: Tally,
}

impl Profile {
    ghost use Rattle.std.specs.Prelude.{◌≡◌, ◌+◌, ◌<◌, ◌^◌, IfOk, OnOk, false};
    ghost use Rattle.agc_profile.specs.Step.{HasTally, RunsAs, is_order};
    ghost use Rattle.agc_profile.specs.Sums.{AddsUp, Fits};
    ghost use Rattle.agc_profile.specs.Tally.{plus};
    ghost use Rattle.agc_profile.specs.Profile.{
      counted_as,
      counted_at,
      counted_data,
      counted_happening,
      counted_in,
      counted_inhibited,
      counted_one,
      counted_read,
      counted_serving,
      nothing_counted,
      served,
    };

    /// Creates an empty profile. Fails if out of memory.
    #[tactic(auto, unfolding(crate::specs::Profile::nothing_counted))]
    pub(crate) fn none(alloc: Global) -> Result<Profile, AllocError>
        ensures { IfOk result (λ counts. counts ≡ nothing_counted) }
    {
        Ok(Profile {
            fixed: Table::new(alloc, PLACES)?,
            erasable: Table::new(alloc, CELLS)?,
            fixed_data: Table::new(alloc, PLACES)?,
            erasable_data: Table::new(alloc, CELLS)?,
            basics: Table::new(alloc, BASICS)?,
            extracodes: Table::new(alloc, EXTRACODES)?,
            interrupts: Table::new(alloc, RUPTS)?,
            orders: Tally::NOTHING,
            timers: Tally::NOTHING,
            events: Tally::NOTHING,
            entries: Tally::NOTHING,
            serving: Tally::NOTHING,
            inhibited: Tally::NOTHING,
        })
    }

    /// Adds a boundary that is not an order, if it begins in a span of cycles. Fails if a number overflows.
    #[inline]
    pub(crate) fn take_in(&mut self, span: Span, passage: &Step) -> Result<(), AllocError>
        requires other { is_order passage.now.happening ≡ false }
        ensures { OnOk result (self.new ≡ counted_in span passage.now self.old) }
    {
        if span.has(passage.cycle) {
            self.take(passage)
        } else {
            Ok(())
        }
    }

    /// Adds a boundary that is not an order. Fails if a number overflows. It is a real call, so that the profile stays
    /// in memory: values in registers would be saved and restored at each step of the machine.
    #[inline(never)]
    #[tactic(auto, unfolding(crate::specs::Profile::counted_one))]
    fn take(&mut self, passage: &Step) -> Result<(), AllocError>
        requires other { is_order passage.now.happening ≡ false }
        ensures { OnOk result (self.new ≡ counted_one passage.now self.old) }
    {
        let one = Tally::once(passage.cycles);
        self.take_other(&passage.happening, one)?;
        self.take_serving(passage.service(), passage)?;
        self.take_inhibited(passage.mode.inhibited, one)?;
        self.take_data(passage.reads, one)
    }

    /// Adds what happened, which is not an order.
    #[inline]
    fn take_other(&mut self, happening: &Upcoming, one: Tally) -> Result<(), AllocError>
        requires other { is_order happening.now ≡ false }
        ensures { OnOk result (self.new ≡ counted_happening happening.now one self.old) }
    {
        match happening {
            Upcoming::Timer(_) => self.timers = self.timers.plus(one)?,
            Upcoming::Event(_) => self.events = self.events.plus(one)?,
            Upcoming::Interrupt(_) => self.entries = self.entries.plus(one)?,
            Upcoming::Stop(_) | Upcoming::Order(_) => {}
        }
        Ok(())
    }

    /// Adds an order at its place and by its opcode, if it begins in a span of cycles. Fails if a number overflows.
    #[inline(always)]
    pub(crate) fn take_order_in(
        &mut self,
        span: Span,
        passage: &Step,
        place: Location,
        named: Opcode,
    ) -> Result<(), AllocError>
        requires order { RunsAs place named passage.now.happening }
        requires tally { HasTally place }
        requires sums { AddsUp self.old }
        requires times { self.old.orders.times + 1 < 2 ^ 64 }
        requires cycles { self.old.orders.cycles + passage.now.cycles < 2 ^ 64 }
        ensures { OnOk result (self.new ≡ counted_in span passage.now self.old) }
    {
        if span.has(passage.cycle) {
            self.take_order(passage, place, named)
        } else {
            Ok(())
        }
    }

    /// Adds an order at its place and by its opcode. The total of orders is the sum over all places and also over all
    /// opcodes: if the total has room for one more, each place and each opcode has.
    #[inline(always)]
    #[tactic(auto, unfolding(crate::specs::Profile::counted_one))]
    fn take_order(
        &mut self,
        passage: &Step,
        place: Location,
        named: Opcode,
    ) -> Result<(), AllocError>
        requires order { RunsAs place named passage.now.happening }
        requires tally { HasTally place }
        requires sums { AddsUp self.old }
        requires times { self.old.orders.times + 1 < 2 ^ 64 }
        requires cycles { self.old.orders.cycles + passage.now.cycles < 2 ^ 64 }
        ensures { OnOk result (self.new ≡ counted_one passage.now self.old) }
    {
        let one = Tally::once(passage.cycles);
        self.take_run(&passage.happening, place, named, one);
        self.take_serving(passage.service(), passage)?;
        self.take_inhibited(passage.mode.inhibited, one)?;
        self.take_data(passage.reads, one)
    }

    /// Adds an order that ran to the total, to its opcode, and to its place.
    #[inline(always)]
    #[tactic(auto, using(crate::proofs::Room::fits, crate::proofs::Room::runs_as))]
    fn take_run(&mut self, happening: &Upcoming, place: Location, named: Opcode, one: Tally)
        requires order { RunsAs place named happening.now }
        requires tally { HasTally place }
        requires sums { AddsUp self.old }
        requires times { self.old.orders.times + one.times < 2 ^ 64 }
        requires cycles { self.old.orders.cycles + one.cycles < 2 ^ 64 }
        ensures { self.new ≡ counted_happening happening.now one self.old }
    {
        self.take_with_all(one);
        self.take_as(named, one);
        self.take_at(place, one);
    }

    /// Adds an order to the total.
    #[inline(always)]
    fn take_with_all(&mut self, one: Tally)
        requires times { self.old.orders.times + one.times < 2 ^ 64 }
        requires cycles { self.old.orders.cycles + one.cycles < 2 ^ 64 }
        ensures { self.new ≡ record self.old { orders = plus self.old.orders one } }
    {
        self.orders = Tally {
            times: self.orders.times + one.times,
            cycles: self.orders.cycles + one.cycles,
        };
    }

    /// Adds an order to its opcode.
    #[inline(always)]
    fn take_as(&mut self, order: Opcode, one: Tally)
        requires fits { Fits basic_count extracode_count self.old.basics self.old.extracodes one }
        ensures named { self.new ≡ counted_as order one self.old }
        ensures fixed { self.new.fixed ≡ self.old.fixed }
        ensures erasable { self.new.erasable ≡ self.old.erasable }
    {
        match order {
            Opcode::Basic(order) => self.basics.gain(basic_number(order), one),
            Opcode::Extracode(order) => self.extracodes.gain(extracode_number(order), one),
        }
    }

    /// Adds an order to its place.
    #[inline(always)]
    fn take_at(&mut self, location: Location, one: Tally)
        requires tally { HasTally location }
        requires fits { Fits fixed_places erasable_cells self.old.fixed self.old.erasable one }
        ensures { self.new ≡ counted_at location one self.old }
    {
        match location {
            Location::Fixed(place) => self.fixed.gain(place as usize, one),
            Location::Erasable(cell) => self.erasable.gain(cell as usize, one),
        }
    }

    /// Adds a boundary to the service that it belongs to.
    #[inline]
    fn take_serving(&mut self, rupt: Option<Rupt>, passage: &Step) -> Result<(), AllocError>
        ensures { OnOk result (self.new ≡ counted_serving rupt passage.now self.old) }
    {
        let Some(rupt) = rupt else {
            return Ok(());
        };
        let place = usize::from(rupt.number()) - 1;
        self.interrupts.add(place, served(passage))?;
        self.serving = self.serving.plus(Tally::once(passage.cycles))?;
        Ok(())
    }

    /// Adds the words that a boundary reads as data.
    #[inline(always)]
    fn take_data(&mut self, words: DataReads, one: Tally) -> Result<(), AllocError>
        ensures { OnOk result (self.new ≡ counted_data words one self.old) }
    {
        self.take_read(words.at, one)?;
        self.take_read(words.before, one)
    }

    /// Adds a word that is read as data.
    #[inline(always)]
    fn take_read(&mut self, place: Option<Location>, one: Tally) -> Result<(), AllocError>
        ensures { OnOk result (self.new ≡ counted_read place one self.old) }
    {
        match place {
            Some(Location::Fixed(place)) => self.fixed_data.add(place as usize, one),
            Some(Location::Erasable(cell)) => self.erasable_data.add(cell as usize, one),
            None => Ok(()),
        }
    }

    /// Adds a boundary that began with INHINT in force.
    #[inline(always)]
    fn take_inhibited(&mut self, is_inhibited: bool, one: Tally) -> Result<(), AllocError>
        ensures { OnOk result (self.new ≡ counted_inhibited is_inhibited one self.old) }
    {
        if is_inhibited {
            self.inhibited = self.inhibited.plus(one)?;
        }
        Ok(())
    }
}

/// Returns what a boundary adds to a service: its cycles, and one interrupt if it is the entry.
fn served(passage: &Step) -> Tally
    ensures { result ≡ served passage.now }
{
    Tally {
        times: match passage.happening {
            Upcoming::Interrupt(_) => 1,
            Upcoming::Stop(_) | Upcoming::Event(_) | Upcoming::Timer(_) | Upcoming::Order(_) => 0,
        },
        cycles: passage.cycles,
    }
}
