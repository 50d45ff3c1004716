//! Conditions: what a run forward or a search back stops at, and whether a boundary hits one.
ghost use Rattle.std.specs.Prelude.{◌≡◌, ◌↔◌, ◌<◌, IsTrue, find, if◌then◌else◌, not, true};
ghost use Rattle.agc_machine.specs.Boundary.{boundary, upcoming_of};
ghost use Rattle.agc_machine.specs.State.{State};
ghost use Rattle.agc_session.specs.Search.{IsOnWrite};
ghost use Rattle.agc_session.specs.Session.{shown_after};
ghost use Rattle.agc_session.specs.Condition.{
  AreArmedInRange,
  IsConditionInRange,
  IsJobInRange,
  Meets,
  armed_in,
  first_hit,
  is_among,
  is_caller,
  is_channel_of,
  is_hit,
  is_met_by,
  is_of_job,
  is_on_write,
  is_order_among,
  is_order_at,
  is_order_if,
  is_other_word,
  is_service_of,
  is_value_of,
  is_wanted,
  needs_each,
  place_number,
  same_location,
  window_address,
};
ghost use Rattle.agc_session.specs.Comparison.{IsComparisonInRange};
ghost use Rattle.agc_store.specs.Places.{erasable_cells};

use crate::comparison::{Comparison, has_changed, word_of};
use agc_listing::{Location, location_at};
use agc_machine::{Machine, Stepped, Upcoming};
use agc_panel::{Panel, PanelLine};
use agc_processor::Rupt;
use agc_store::Store;
use agc_word::Narrow;

/// What a run, forward or backward, stops at.
#[derive(Clone, Copy, Debug, PartialEq, Eq)]
pub enum Condition {
    /// Every boundary.
    Boundary,
    /// The order at this place.
    Order(Location),
    /// The order at this place, if a comparison holds just before it.
    OrderIf {
        place: Location,
        comparison: Comparison,
    },
    /// An order of a caller.
    Caller(Caller),
    /// A change of this cell, with overflow corrected. Its number is 400 octal times its bank, plus its offset.
    Cell(u16),
    /// A channel write: to this channel, or to any, and of this word, or of any.
    Write {
        channel: Option<u16>,
        word: Option<Narrow>,
    },
    /// The start of the service of this interrupt, or of any.
    Interrupt(Option<Rupt>),
    /// A change of the panel.
    Panel,
    /// A channel write after which the panel shows this line, and before which it did not.
    Shows(PanelLine),
}

/// The orders of a caller next to its call: those behind it, to which the call returns, or those before.
#[derive(Clone, Copy, Debug, PartialEq, Eq)]
pub struct Caller {
    /// The place of the first one.
    pub first: Location,
    /// The number of places in a row.
    pub count: u32,
    /// Whether the caller runs in the service of an interrupt.
    pub serving: bool,
    /// What holds in the caller's job, if its job is known.
    pub job: Option<Comparison>,
}

/// A numbered condition that a run forward ends at.
#[derive(Clone, Copy, Debug, PartialEq, Eq)]
pub struct Armed {
    pub number: u64,
    pub condition: Condition,
    /// For a cell, its word when the condition was armed.
    pub before: Option<Narrow>,
}

impl Armed {
    /// Arms a condition in the machine's present state.
    pub fn new(machine: &Machine, number: u64, condition: Condition) -> Armed
        requires { IsConditionInRange condition }
        ensures { result ≡ armed_in machine.now number condition }
    {
        let before = match condition {
            Condition::Cell(cell) => Some(word_of(machine.store(), cell)),
            _ => None,
        };
        Armed {
            number,
            condition,
            before,
        }
    }

    /// Returns whether the last boundary hit the condition, by the panel before and after it and the machine's present
    /// state: just before an order or the service of an interrupt, otherwise just after the boundary.
    #[tactic(auto, unfolding(crate::specs::Condition::is_hit))]
    fn is_hit(&self, stepped: &Stepped, before: &Panel, now: &Panel, machine: &Machine) -> bool
        requires range { IsConditionInRange self.now.condition }
        requires shown { now.now ≡ shown_after stepped.now before.now }
        ensures { result ≡ is_hit self.now before.now machine.now stepped.now }
    {
        match &self.condition {
            Condition::Boundary => true,
            Condition::Order(place) => is_order_next(machine, *place),
            Condition::OrderIf { place, comparison } => {
                is_order_next_if(machine, *place, comparison)
            }
            Condition::Caller(caller) => is_caller_next(machine, caller),
            Condition::Cell(cell) => is_other_word(machine.store(), *cell, &self.before),
            Condition::Interrupt(which) => is_service_next(machine, *which),
            Condition::Write { .. } | Condition::Panel | Condition::Shows(_) => {
                is_hit_by_write(&self.condition, stepped, before, now)
            }
        }
    }
}

/// Returns the first condition that the last boundary hit.
pub(crate) fn first_hit(
    armed: &[Armed],
    stepped: &Stepped,
    before: &Panel,
    now: &Panel,
    machine: &Machine,
) -> Option<Armed>
    requires range { AreArmedInRange armed.now }
    requires shown { now.now ≡ shown_after stepped.now before.now }
    ensures { result ≡ first_hit armed.now before.now machine.now stepped.now }
{
    for one in armed {
        if one.is_hit(stepped, before, now, machine) {
            return Some(*one);
        }
    }
    None
}

/// Returns whether a run to the first of some conditions has to look at each boundary.
#[tactic(auto, unfolding(crate::specs::Condition::needs_each))]
pub(crate) fn needs_each(armed: &[Armed]) -> bool
    ensures { result ≡ needs_each armed.now }
{
    armed.iter().any(|one| !is_on_write(&one.condition))
}

/// Returns whether only a channel write can hit a condition.
fn is_on_write(condition: &Condition) -> bool
    ensures { result ≡ is_on_write condition.now }
{
    match condition {
        Condition::Write { .. } => true,
        Condition::Panel => true,
        Condition::Shows(_) => true,
        _ => false,
    }
}

/// Returns whether a boundary with this answer hits a condition that only a write can hit.
#[tactic(auto, unfolding(crate::specs::Condition::Meets))]
pub(crate) fn is_hit_by_write(
    condition: &Condition,
    stepped: &Stepped,
    before: &Panel,
    now: &Panel,
) -> bool
    requires on { IsOnWrite condition.now }
    requires shown { now.now ≡ shown_after stepped.now before.now }
    ensures meets { (s : State) → (boundary None s).1 ≡ stepped.now → (IsTrue result ↔ Meets condition.now before.now s) }
    ensures value { result ≡ is_met_by condition.now before.now stepped.now }
{
    let Stepped::Wrote(write) = stepped else {
        return false;
    };
    match condition {
        Condition::Write { channel, word } => {
            is_channel_of(*channel, write.channel) && is_value_of(word, write.value)
        }
        Condition::Panel => !before.shows_same(now),
        Condition::Shows(line) => !before.face().shows(line) && now.face().shows(line),
        _ => false,
    }
}

/// Returns whether the order at a place comes next. Z rules out nearly all orders at once.
#[inline(always)]
pub(crate) fn is_order_next(machine: &Machine, place: Location) -> bool
    ensures { result ≡ is_order_at place (upcoming_of machine.now) }
{
    may_come_next(machine, place) && is_order_in_hand(machine, place)
}

/// Returns whether the order at a place comes next, and a comparison holds.
pub(crate) fn is_order_next_if(machine: &Machine, place: Location, comparison: &Comparison) -> bool
    requires { IsComparisonInRange comparison.now }
    ensures { result ≡ is_order_if place comparison.now machine.now }
{
    is_order_next(machine, place) && comparison.holds_in(machine.store())
}

/// Returns whether an order of a caller comes next, in its job and on its side of interrupts.
pub(crate) fn is_caller_next(machine: &Machine, caller: &Caller) -> bool
    requires { IsJobInRange caller.now.job }
    ensures { result ≡ is_caller caller.now machine.now }
{
    is_order_among(machine, caller.first, caller.count)
        && is_serving(machine, caller.serving)
        && is_of_job(machine.store(), &caller.job)
}

/// Returns whether the order at one of some places in a row comes next.
fn is_order_among(machine: &Machine, first: Location, count: u32) -> bool
    ensures { result ≡ is_order_among first count (upcoming_of machine.now) }
{
    match machine.upcoming() {
        Upcoming::Order(order) => is_among(first, count, location_at(order.bank, order.address)),
        _ => false,
    }
}

/// Returns whether a place is one of some places in a row.
fn is_among(first: Location, count: u32, here: Location) -> bool
    ensures { result ≡ is_among first count here }
{
    match (first, here) {
        (Location::Fixed(first), Location::Fixed(here)) => first <= here && here - first < count,
        (Location::Erasable(first), Location::Erasable(here)) => {
            first <= here && here - first < count
        }
        _ => false,
    }
}

/// Returns whether the service of an interrupt runs, or not, as wanted.
fn is_serving(machine: &Machine, wanted: bool) -> bool
    ensures { result ≡ if wanted then machine.now.processor.serving else not machine.now.processor.serving }
{
    if wanted {
        machine.serving()
    } else {
        !machine.serving()
    }
}

/// Returns whether a memory is that of a job, if one is known.
fn is_of_job(store: &Store, job: &Option<Comparison>) -> bool
    requires { IsJobInRange job.now }
    ensures { result ≡ is_of_job job.now store.now }
{
    match job {
        Some(comparison) => comparison.holds_in(store),
        None => true,
    }
}

/// Returns whether Z is one past an address of a place: its own, or the one in the window of its bank.
#[inline(always)]
fn may_come_next(machine: &Machine, place: Location) -> bool
    ensures { is_order_at place (upcoming_of machine.now) ≡ true → result ≡ true }
{
    let address = u32::from(machine.store().z().previous().bits());
    address == place_number(place) || address == window_address(place)
}

/// Returns the address of a location in the window of its bank.
#[inline(always)]
pub(crate) fn window_address(place: Location) -> u32
    ensures { result ≡ window_address place }
{
    match place {
        Location::Fixed(number) => 0o2000 + number % 0o2000,
        Location::Erasable(number) => 0o1400 + number % 0o400,
    }
}

/// Returns the number of a location in its part of the memory.
#[inline(always)]
pub(crate) fn place_number(place: Location) -> u32
    ensures { result ≡ place_number place }
{
    match place {
        Location::Fixed(number) => number,
        Location::Erasable(number) => number,
    }
}

/// Returns whether the order at a place comes next.
fn is_order_in_hand(machine: &Machine, place: Location) -> bool
    ensures { result ≡ is_order_at place (upcoming_of machine.now) }
{
    match machine.upcoming() {
        Upcoming::Order(order) => is_at(location_at(order.bank, order.address), place),
        _ => false,
    }
}

/// Returns whether the service of this interrupt, or of any, comes next.
pub(crate) fn is_service_next(machine: &Machine, which: Option<Rupt>) -> bool
    ensures { result ≡ is_service_of which (upcoming_of machine.now) }
{
    match machine.upcoming() {
        Upcoming::Interrupt(rupt) => is_wanted(which, rupt),
        _ => false,
    }
}

fn is_wanted(which: Option<Rupt>, rupt: Rupt) -> bool
    ensures { result ≡ is_wanted which rupt }
{
    match which {
        Some(which) => rupt.number() == which.number(),
        None => true,
    }
}

fn is_channel_of(wanted: Option<u16>, channel: u16) -> bool
    ensures { result ≡ is_channel_of wanted channel }
{
    match wanted {
        Some(wanted) => channel == wanted,
        None => true,
    }
}

fn is_value_of(wanted: &Option<Narrow>, value: Narrow) -> bool
    ensures { result ≡ is_value_of wanted.now value }
{
    match wanted {
        Some(wanted) => value == *wanted,
        None => true,
    }
}

/// Returns whether two places are the same.
fn is_at(here: Location, there: Location) -> bool
    ensures { result ≡ same_location here there }
{
    here == there
}

/// Returns whether a cell has another word than before, if that is known.
fn is_other_word(store: &Store, cell: u16, before: &Option<Narrow>) -> bool
    requires { cell < erasable_cells }
    ensures { result ≡ is_other_word cell before.now store.now }
{
    match before {
        Some(before) => has_changed(store, cell, *before),
        None => false,
    }
}
