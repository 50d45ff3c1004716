//! Steps by calls: over one or out of one, forward and back. Each is a condition, by the present state alone.
ghost use Rattle.std.specs.Prelude.{◌≡◌, ◌+◌, ◌-◌, ◌<◌, ◌≤◌, ◌%◌, IfSome};
ghost use Rattle.agc_word.specs.Number.{pattern_of};
ghost use Rattle.agc_machine.specs.Boundary.{upcoming_of};
ghost use Rattle.agc_listing.specs.Location.{location_in};
ghost use Rattle.agc_store.specs.Places.{erasable_cells};
ghost use Rattle.agc_session.specs.Calls.{
  address_in_hand,
  ahead,
  back,
  before,
  caller_at,
  follows_call,
  is_call,
  is_return,
  is_tc,
  job_of,
  over_by,
  return_address,
  word_before,
};
ghost use Rattle.agc_session.specs.Comparison.{IsComparisonInRange};
ghost use Rattle.agc_session.specs.Condition.{IsConditionInRange, IsJobInRange};

use crate::comparison::{Comparison, Relation, word_of};
use crate::condition::{Caller, Condition};
use agc_listing::{Location, location_in};
use agc_machine::{InHand, Machine, Upcoming};
use agc_store::place::FIXED_WINDOW;
use agc_store::{Addr, Store};

/// The number of places behind a call to which it may return.
const RETURNS: u16 = 3;

/// A step by calls.
#[derive(Clone, Copy, Debug, PartialEq, Eq)]
pub enum CallStep {
    /// Over the call that comes next, to the order behind it. Any other order is one step.
    Over,
    /// Out of the routine that runs, to the place that Q names.
    Finish,
}

impl CallStep {
    /// Returns the condition at which the step ends. Jobs differ by the word of a cell, if there is one.
    #[tactic(auto, unfolding(crate::specs::Calls::ahead))]
    pub fn ahead(self, machine: &Machine, cell: Option<u16>) -> Condition
        requires { IfSome cell (λ cell. cell < erasable_cells) }
        ensures condition { result ≡ ahead self cell machine.now }
        ensures range { IsConditionInRange result }
    {
        match self {
            CallStep::Over => over(machine, cell),
            CallStep::Finish => {
                caller_at(
                    machine,
                    cell,
                    returns_to(machine.store()),
                    u32::from(RETURNS),
                )
            }
        }
    }

    /// Returns the condition at which the step back ends.
    #[tactic(auto, unfolding(crate::specs::Calls::back))]
    pub fn back(self, machine: &Machine, cell: Option<u16>) -> Condition
        requires { IfSome cell (λ cell. cell < erasable_cells) }
        ensures condition { result ≡ back self cell machine.now }
        ensures range { IsConditionInRange result }
    {
        match self {
            CallStep::Over => {
                if follows_call(machine.store()) {
                    before(machine, cell, place_in_hand(machine.store()))
                } else {
                    Condition::Boundary
                }
            }
            CallStep::Finish => before(machine, cell, returns_to(machine.store())),
        }
    }
}

/// Returns the condition at which a step over what comes next ends.
#[tactic(auto, unfolding(crate::specs::Calls::over_by))]
fn over(machine: &Machine, cell: Option<u16>) -> Condition
    requires { IfSome cell (λ cell. cell < erasable_cells) }
    ensures condition { result ≡ over_by cell machine.now (upcoming_of machine.now) }
    ensures range { IsConditionInRange result }
{
    match machine.upcoming() {
        Upcoming::Order(order) => {
            if is_call(&order, machine.store()) {
                let behind = location_in(machine.store(), machine.store().z());
                caller_at(machine, cell, behind, u32::from(RETURNS))
            } else {
                Condition::Boundary
            }
        }
        Upcoming::Interrupt(_) => caller_at(machine, cell, place_in_hand(machine.store()), 1),
        _ => Condition::Boundary,
    }
}

/// Returns whether an order is a call: TC in fixed memory, but not to where Q returns.
#[tactic(auto, unfolding(crate::specs::Calls::is_call))]
fn is_call(order: &InHand, store: &Store) -> bool
    ensures { result ≡ is_call order.now store.now }
{
    let word = order.word.bits();
    !order.extracode
        && FIXED_WINDOW <= order.address.bits()
        && is_tc(word)
        && !is_return(word, store)
}

/// Returns whether a word is TC to fixed memory.
#[tactic(auto, unfolding(crate::specs::Calls::is_tc))]
fn is_tc(word: u16) -> bool
    ensures { result ≡ is_tc word }
{
    FIXED_WINDOW <= word && word < 0o10000
}

/// Returns whether TC with this word goes to the address that Q names, or to one of the two behind it.
fn is_return(word: u16, store: &Store) -> bool
    ensures { result ≡ is_return word store.now }
{
    let back = return_address(store).bits();
    back <= word && word < back + RETURNS
}

/// Returns the address that Q names.
fn return_address(store: &Store) -> Addr
    ensures { result ≡ return_address store.now }
{
    Addr::of_word(store.q().narrow())
}

/// Returns the place that Q names.
fn returns_to(store: &Store) -> Location
    ensures { result ≡ location_in store.now (return_address store.now) }
{
    location_in(store, return_address(store))
}

/// Returns the place of the order in hand.
fn place_in_hand(store: &Store) -> Location
    ensures { result ≡ location_in store.now (address_in_hand store.now) }
{
    location_in(store, store.z().previous())
}

/// Returns whether the order in hand is in fixed memory, and one of the three words before it is TC.
#[tactic(auto, unfolding(crate::specs::Calls::follows_call))]
fn follows_call(store: &Store) -> bool
    ensures { result ≡ follows_call store.now }
{
    FIXED_WINDOW <= store.z().previous().bits()
        && (is_tc(word_before(store, 1))
            || is_tc(word_before(store, 2))
            || is_tc(word_before(store, 3)))
}

/// Returns the word at some distance before the order in hand.
fn word_before(store: &Store, distance: u16) -> u16
    requires { distance ≤ 3 }
    ensures { result ≡ word_before distance store.now }
{
    let here = store.z().previous().bits();
    store
        .fetch(Addr::wrapped(here + (0o10000 - distance)))
        .bits()
}

/// Returns the condition that the order at one of the three places before one comes next, in the present job.
fn before(machine: &Machine, cell: Option<u16>, place: Location) -> Condition
    requires { IfSome cell (λ cell. cell < erasable_cells) }
    ensures condition { result ≡ before cell machine.now place }
    ensures range { IsConditionInRange result }
{
    let returns = u32::from(RETURNS);
    match place {
        Location::Fixed(place) => {
            let first = place.saturating_sub(returns);
            caller_at(machine, cell, Location::Fixed(first), place - first)
        }
        Location::Erasable(place) => {
            let first = place.saturating_sub(returns);
            caller_at(machine, cell, Location::Erasable(first), place - first)
        }
    }
}

/// Returns the condition that the order at one of some places in a row comes next, in the present job, and in a service
/// if one runs now.
fn caller_at(machine: &Machine, cell: Option<u16>, first: Location, count: u32) -> Condition
    requires { IfSome cell (λ cell. cell < erasable_cells) }
    ensures condition { result ≡ caller_at cell machine.now first count }
    ensures range { IsConditionInRange result }
{
    Condition::Caller(Caller {
        first,
        count,
        serving: machine.serving(),
        job: job_of(machine.store(), cell),
    })
}

/// Returns the comparison that holds in the present job.
fn job_of(store: &Store, cell: Option<u16>) -> Option<Comparison>
    requires { IfSome cell (λ cell. cell < erasable_cells) }
    ensures job { result ≡ job_of cell store.now }
    ensures range { IsJobInRange result }
{
    match cell {
        Some(cell) => Some(same_word_in(store, cell)),
        None => None,
    }
}

/// Returns the comparison that a cell keeps its word.
fn same_word_in(store: &Store, cell: u16) -> Comparison
    requires { cell < erasable_cells }
    ensures job { IfSome (job_of (Some cell) store.now) (λ job. result ≡ job) }
    ensures range { IsComparisonInRange result }
{
    Comparison {
        cell,
        relation: Relation::Equal,
        word: word_of(store, cell),
    }
}
