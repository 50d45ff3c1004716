//! Runs a machine from sample to sample.
ghost use Rattle.std.specs.Prelude.{◌≡◌};
ghost use Rattle.agc_quantities.specs.Due.{comes_at, earliest, is_due, is_due_after, is_first, next_multiple};
ghost use Rattle.agc_quantities.specs.Walk.{Finds, IsFirst, has_reached};

use crate::quantity::Quantity;
use crate::sample::{Sample, has_changed, take_sample};
use agc_io::{Progress, report_at};
use agc_listing::{Cell, LocationRange, location_at};
use agc_machine::{Machine, Stepped, Upcoming};
use std::alloc::{AllocError, Global};

/// Which states of a run are sampled.
#[derive(Clone, Copy)]
pub enum Schedule {
    /// The first one, and then the first whose cycle has reached the next multiple of this number; 0 counts as 1.
    Every(u64),
    /// Those in which the order at one of these places is the next thing to run.
    At(LocationRange),
    /// The first one, and each in which a cell has another word than in the sample before.
    Changes,
}

/// What is sampled of a run: states whose cycles are in a range, both ends included.
#[derive(Clone, Copy)]
pub struct Plan {
    pub schedule: Schedule,
    pub from: u64,
    pub to: u64,
}

/// Samples a run: keeps the last sample, so that memory does not grow with the run.
#[derive(Drop)]
pub struct Sampler {
    pub plan: Plan,
    /// The cells of the quantities, in their order.
    pub cells: Vec<Cell>,
    pub last: Option<Sample>,
    /// The cycle at which progress is reported next.
    mark: u64,
}

impl Sampler {
    ghost use Rattle.std.specs.Prelude.{◌≡◌, IfOk, IfSome, IsTrue, None, flat_map};
    ghost use Rattle.agc_quantities.specs.Cells.{cells_of};
    ghost use Rattle.agc_quantities.specs.Due.{is_due};
    ghost use Rattle.agc_quantities.specs.Sample.{IsSampleOf};
    ghost use Rattle.agc_quantities.specs.Walk.{Finds, resumed};

    /// Returns the sampler of quantities, before the first sample.
    pub fn new(alloc: Global, plan: Plan, quantities: &[Quantity]) -> Result<Sampler, AllocError>
        ensures plan { IfOk result (λ sampler. sampler.plan ≡ plan) }
        ensures cells { IfOk result (λ sampler. sampler.cells.items ≡ flat_map cells_of quantities.now) }
        ensures none { IfOk result (λ sampler. sampler.last ≡ None) }
    {
        let mut cells = Vec::new(alloc);
        for quantity in quantities {
            quantity.push_cells(&mut cells)?;
        }
        Ok(Sampler {
            plan,
            cells,
            last: None,
            mark: 0,
        })
    }

    /// Runs a machine to its next sample, which becomes the last one, and returns whether there is one. If not, the
    /// machine is past the range, or has stopped.
    pub fn next<P: Progress>(
        &mut self,
        alloc: Global,
        machine: &mut Machine,
        progress: &mut P,
    ) -> Result<bool, AllocError>
        ensures found { IfOk result (Finds (is_due self.old.plan self.old.last) self.old.plan.to
            (resumed self.old.last machine.old) machine.new) }
        ensures sample { IfOk result (λ found. IsTrue found
            → IfSome self.new.last (IsSampleOf self.old.cells.items machine.new)) }
        ensures plan { self.new.plan ≡ self.old.plan }
        ensures cells { self.new.cells ≡ self.old.cells }
    {
        if self.last.is_some() {
            machine.step(None);
        }
        if !go_to_due(&self.plan, &self.last, machine, &mut self.mark, progress) {
            return Ok(false);
        }
        let sample = take_sample(alloc, self.cells.as_slice(), machine)?;
        self.last = Some(sample);
        Ok(true)
    }
}

/// Runs a machine to the first state that is due, and returns whether there is one in the range.
fn go_to_due<P: Progress>(
    plan: &Plan,
    last: &Option<Sample>,
    machine: &mut Machine,
    mark: &mut u64,
    progress: &mut P,
) -> bool
    ensures { Finds (is_due plan.now last.now) plan.now.to machine.old machine.new result }
{
    go_to_cycle(earliest(plan, last), machine, mark, progress);
    while machine.cycle() <= plan.to {
        if is_due(plan, last, machine) {
            return true;
        }
        match machine.step(None) {
            Stepped::Stopped(_) => return machine.cycle() <= plan.to && is_due(plan, last, machine),
            Stepped::Quiet | Stepped::Wrote(_) => {
                *mark = report_at(*mark, machine.cycle(), progress);
            }
        }
    }
    false
}

/// Runs a machine to the first state whose cycle has reached this one, or to its stop if that comes first.
fn go_to_cycle<P: Progress>(cycle: u64, machine: &mut Machine, mark: &mut u64, progress: &mut P)
    ensures { IsFirst (has_reached cycle) machine.old machine.new }
{
    while machine.cycle() < cycle {
        *mark = report_at(*mark, machine.cycle(), progress);
        match machine.next_write_before(cycle.min(*mark)) {
            Stepped::Quiet | Stepped::Wrote(_) => {}
            Stepped::Stopped(_) => return,
        }
    }
}

/// Returns a cycle before which no state is due.
fn earliest(plan: &Plan, last: &Option<Sample>) -> u64
    ensures { result ≡ earliest plan.now last.now }
{
    match (plan.schedule, last) {
        (_, None) => plan.from,
        (Schedule::Every(period), Some(last)) => next_multiple(period, last.cycle),
        (Schedule::At(_) | Schedule::Changes, Some(_)) => 0,
    }
}

/// Returns the next multiple of a number after a cycle; 0 counts as 1.
fn next_multiple(period: u64, cycle: u64) -> u64
    ensures { result ≡ next_multiple period cycle }
{
    let period = period.max(1);
    (cycle - cycle % period).saturating_add(period)
}

/// Returns whether the present state is sampled, after the last sample.
fn is_due(plan: &Plan, last: &Option<Sample>, machine: &Machine) -> bool
    ensures { result ≡ is_due plan.now last.now machine.now }
{
    match last {
        None => plan.from <= machine.cycle() && is_first(plan.schedule, machine),
        Some(last) => is_due_after(plan.schedule, last, machine),
    }
}

fn is_first(schedule: Schedule, machine: &Machine) -> bool
    ensures { result ≡ is_first schedule machine.now }
{
    match schedule {
        Schedule::At(places) => comes_at(places, machine.upcoming()),
        Schedule::Every(_) | Schedule::Changes => true,
    }
}

fn is_due_after(schedule: Schedule, last: &Sample, machine: &Machine) -> bool
    ensures { result ≡ is_due_after schedule last.now machine.now }
{
    match schedule {
        Schedule::Every(period) => next_multiple(period, last.cycle) <= machine.cycle(),
        Schedule::At(places) => comes_at(places, machine.upcoming()),
        Schedule::Changes => has_changed(last.words.as_slice(), machine.store()),
    }
}

/// Returns whether this is an order at one of these places.
fn comes_at(places: LocationRange, upcoming: Upcoming) -> bool
    ensures { result ≡ comes_at places upcoming }
{
    match upcoming {
        Upcoming::Order(order) => places.has(location_at(order.bank, order.address)),
        Upcoming::Stop(_) | Upcoming::Event(_) | Upcoming::Timer(_) | Upcoming::Interrupt(_) =>
            false,
    }
}
