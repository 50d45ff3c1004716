//! Idle loops: looks for a turn of still orders that comes back to the same context, and skips as many whole turns as
//! end before a cycle.
ghost use Rattle.std.specs.Prelude.{◌≡◌, ◌<◌, ◌≤◌, ◌+◌, ◌*◌, ◌-◌, ◌/◌, true};

use crate::answer::Stepped;
use crate::engine::Engine;
use crate::quiet::Pace;
use agc_processor::Context;
use agc_word::{Narrow, Wide};

/// The most orders of a turn.
const TURN_ORDERS: u8 = 16;

/// The most cycles of an order.
const LONGEST_MCT: u64 = 6;

/// The most stretches between two searches.
const LONGEST_PAUSE: u8 = 63;

/// The addresses on both sides of a loop's that count as near it.
const NEAR: u16 = 16;

/// When the next search for an idle loop is due: near the last loop that was found at once, and elsewhere after each
/// failure twice as many stretches later, up to 64.
#[derive(Clone, Copy)]
pub(crate) struct Search {
    /// The stretches that are left out after a failure.
    pause: u8,
    /// The stretches that are left out before the next search.
    left: u8,
    /// Z in the last loop that was found; before the first, an address that nothing is near.
    found_at: u16,
}

impl Search {
    /// Returns the state in which the next stretch is searched.
    pub(crate) fn new() -> Search {
        Search {
            pause: 0,
            left: 0,
            found_at: u16::MAX,
        }
    }

    /// Returns whether the present stretch, which begins with this Z, is searched.
    fn is_due(&mut self, z: u16) -> bool {
        if self.left == 0 || self.is_near(z) {
            return true;
        }
        self.left -= 1;
        false
    }

    /// Returns whether Z is near the last loop that was found.
    fn is_near(&self, z: u16) -> bool {
        if z < self.found_at {
            self.found_at - z < NEAR
        } else {
            z - self.found_at < NEAR
        }
    }

    /// Records whether a turn was found from this Z.
    fn record(&mut self, found: bool, z: u16) {
        if found {
            self.pause = 0;
            self.found_at = z;
        } else {
            self.pause = self.pause.min(LONGEST_PAUSE / 2) * 2 + 1;
        }
        self.left = self.pause;
    }
}

impl Engine {
    ghost use Rattle.std.specs.Prelude.{◌≡◌, ◌+◌, ◌<◌, ◌≤◌, true};
    ghost use Rattle.agc_processor.specs.Idle.{is_still};
    ghost use Rattle.agc_machine.specs.Engine.{IsSound, state_of};
    ghost use Rattle.agc_machine.specs.Idle.{Leads};
    ghost use Rattle.agc_machine.specs.State.{State};
    ghost use Rattle.agc_machine.specs.Run.{boundaries_left, next_before};

    /// Looks for an idle loop and skips whole turns of it, if a search is due and nothing but orders can come. What the
    /// run shows up to `end` or later stays the same.
    #[cold]
    #[inline(never)]
    pub(crate) fn skip_idle_turns(&mut self, end: u64)
        requires sound { IsSound self.old }
        requires end { end ≤ self.old.quiet_until }
        ensures next { next_before end (state_of self.new) ≡ next_before end (state_of self.old) }
        ensures sound { IsSound self.new }
        ensures left { boundaries_left (state_of self.new) ≤ boundaries_left (state_of self.old) }
    {
        if self.pace == Pace::Bare && self.cycle < end {
            let z = self.processor.store.z().bits();
            if self.search.is_due(z) {
                let found = self.run_turn(end);
                self.search.record(found, z);
            }
        }
    }

    /// Runs still orders, at most a turn of them. If they come back to the context at the start, skips whole turns and
    /// returns true.
    fn run_turn(&mut self, end: u64) -> bool
        requires sound { IsSound self.old }
        requires quiet { self.old.cycle < end }
        requires end { end ≤ self.old.quiet_until }
        requires pace { self.old.pace ≡ Pace.Bare }
        ensures next { next_before end (state_of self.new) ≡ next_before end (state_of self.old) }
        ensures sound { IsSound self.new }
        ensures left { boundaries_left (state_of self.new) ≤ boundaries_left (state_of self.old) }
    {
        let from = self.cycle;
        let start = self.processor.context();
        for _order in 0..TURN_ORDERS {
            if end <= self.cycle + LONGEST_MCT || !self.processor.is_still() {
                return false;
            }
            self.run_still_order(end);
            if is_same(&self.processor.context(), &start) {
                self.cycle = after_turns(self.cycle, self.cycle - from, end);
                return true;
            }
        }
        false
    }

    /// Runs the order in hand, which is still and ends before `end`.
    fn run_still_order(&mut self, end: u64)
        requires sound { IsSound self.old }
        requires room { self.old.cycle + 6 < end }
        requires end { end ≤ self.old.quiet_until }
        requires pace { self.old.pace ≡ Pace.Bare }
        requires still { is_still self.old.processor ≡ true }
        ensures leads { (s : State) → Leads end s (state_of self.old) → Leads end s (state_of self.new) }
        ensures rises { self.old.cycle < self.new.cycle }
        ensures before { self.new.cycle < end }
        ensures sound { IsSound self.new }
        ensures quiet_until { self.new.quiet_until ≡ self.old.quiet_until }
        ensures pace { self.new.pace ≡ self.old.pace }
    {
        match self.step_bare() {
            Stepped::Quiet => {}
            Stepped::Wrote(_) => unreachable!(),
            Stepped::Stopped(_) => unreachable!(),
        }
    }
}

/// Returns whether two contexts are the same.
fn is_same(now: &Context, start: &Context) -> bool
    ensures { result ≡ true → now.now ≡ start.now }
{
    if !is_same_wide(now.z, start.z) {
        return false;
    }
    if !is_same_narrow(now.hand, start.hand) {
        return false;
    }
    if !is_same_wide(now.a, start.a) {
        return false;
    }
    if !is_same_narrow(now.l, start.l) {
        return false;
    }
    if !is_same_wide(now.q, start.q) {
        return false;
    }
    has_same_flags(now, start)
}

fn is_same_wide(now: Wide, start: Wide) -> bool
    ensures { result ≡ true → now ≡ start }
{
    now.bits() == start.bits()
}

fn is_same_narrow(now: Narrow, start: Narrow) -> bool
    ensures { result ≡ true → now ≡ start }
{
    now.bits() == start.bits()
}

fn has_same_flags(now: &Context, start: &Context) -> bool
    ensures extracode { result ≡ true → now.now.extracode ≡ start.now.extracode }
    ensures uninterruptible { result ≡ true → now.now.uninterruptible ≡ start.now.uninterruptible }
    ensures inhibited { result ≡ true → now.now.inhibited ≡ start.now.inhibited }
    ensures serving { result ≡ true → now.now.serving ≡ start.now.serving }
{
    if now.extracode != start.extracode {
        return false;
    }
    if now.uninterruptible != start.uninterruptible {
        return false;
    }
    if now.inhibited != start.inhibited {
        return false;
    }
    now.serving == start.serving
}

/// Returns the cycle after as many whole periods as end before a cycle.
fn after_turns(cycle: u64, period: u64, end: u64) -> u64
    requires some { 0 < period }
    requires before { cycle < end }
    ensures turns { result ≡ cycle + (end - 1 - cycle) / period * period }
    ensures later { cycle ≤ result }
    ensures before { result < end }
{
    let turns = (end - 1 - cycle) / period;
    cycle + turns * period
}
