//! The quiet path: while the clock brings nothing, few things can come before the order in hand,
//! and usually nothing does.
ghost use Rattle.std.specs.Prelude.{◌+◌, ◌%◌};

use crate::answer::{Stepped, Stop};
use crate::engine::{Engine, Paced};
use crate::stop_address::StopAddress;
use agc_processor::Rupt;
use agc_store::Addr;

/// What may come before the order in hand while the clock brings nothing.
#[derive(Clone, Copy, Debug, PartialEq, Eq)]
pub(crate) enum Pace {
    /// Nothing: no interrupt is requested, and there is no stop address.
    Bare,
    /// The stop: no interrupt is requested, but there is a stop address.
    Watched,
    /// An interrupt, which is requested and held off until it is allowed, and the stop.
    Held,
}

impl Engine {
    ghost use Rattle.std.specs.Prelude.{◌≡◌, ℕ, ◌<◌, ◌≤◌, drop, false, true, None, Some};
    ghost use Rattle.agc_processor.specs.Interrupt.{pending};
    ghost use Rattle.agc_machine.specs.Boundary.{boundary, is_reached, IsBefore};
    ghost use Rattle.agc_machine.specs.Engine.{engine_at, state_of, IsInTime, IsSound, paced_engine, paced_state};
    ghost use Rattle.agc_machine.specs.Quiet.{IsEventDue, IsLongest, IsQuiet, Serves, is_timer_due, pace_of};
    ghost use Rattle.agc_machine.specs.Run.{next_before};

    /// Runs boundaries below `quiet_until`, up to the next write, the stop, or the first one that
    /// ends at `end` or later. Runs at least one.
    #[inline(always)]
    pub(crate) fn go_quickly(&mut self, end: u64) -> Stepped
        requires sound { IsSound self.old }
        requires quiet { self.old.cycle < self.old.quiet_until }
        requires end { end ≤ self.old.quiet_until }
        ensures next { (state_of self.new, result) ≡ next_before end (state_of self.old) }
        ensures sound { IsSound self.new }
    {
        match self.pace {
            Pace::Bare => self.go_bare(end),
            Pace::Watched => self.go_watched(end),
            Pace::Held => self.go_held(end),
        }
    }

    /// Runs orders up to the next write, the stop, or the first that ends at `end` or later, when nothing comes before
    /// an order. It is a separate call that counts the cycle outside the engine: a loop of its own keeps it in a
    /// register.
    #[inline(never)]
    fn go_bare(&mut self, end: u64) -> Stepped
        requires sound { IsSound self.old }
        requires quiet { self.old.cycle < self.old.quiet_until }
        requires end { end ≤ self.old.quiet_until }
        requires pace { self.old.pace ≡ Pace.Bare }
        ensures next { (state_of self.new, result) ≡ next_before end (state_of self.old) }
        ensures sound { IsSound self.new }
    {
        let mut cycle = self.cycle;
        loop {
            match self.order_in_quiet(cycle) {
                Paced::Goes(next) => {
                    cycle = next;
                    if end <= cycle {
                        self.cycle = cycle;
                        return Stepped::Quiet;
                    }
                }
                Paced::Ends(stepped) => return stepped,
            }
        }
    }

    /// Runs orders up to the next write, the stop, or the first that ends at `end` or later, when
    /// the stop address may come before an order.
    fn go_watched(&mut self, end: u64) -> Stepped
        requires sound { IsSound self.old }
        requires quiet { self.old.cycle < self.old.quiet_until }
        requires end { end ≤ self.old.quiet_until }
        requires pace { self.old.pace ≡ Pace.Watched }
        ensures next { (state_of self.new, result) ≡ next_before end (state_of self.old) }
        ensures sound { IsSound self.new }
    {
        match self.until {
            Some(at) => self.go_up_to(at, end),
            None => {
                self.pace = Pace::Bare;
                self.go_bare(end)
            }
        }
    }

    /// Runs orders up to this stop address, the next write, another stop, or the first that ends at
    /// `end` or later. The bank is compared only when Z agrees.
    #[inline(never)]
    fn go_up_to(&mut self, at: StopAddress, end: u64) -> Stepped
        requires sound { IsSound self.old }
        requires quiet { self.old.cycle < self.old.quiet_until }
        requires end { end ≤ self.old.quiet_until }
        requires pace { self.old.pace ≡ Pace.Watched }
        requires until { self.old.until ≡ Some at }
        ensures next { (state_of self.new, result) ≡ next_before end (state_of self.old) }
        ensures sound { IsSound self.new }
    {
        let past = at.address.next();
        let mut cycle = self.cycle;
        loop {
            if self.is_one_past(past, &at) {
                self.cycle = cycle;
                self.quiet_until = 0;
                return self.stop(Stop::Reached);
            }
            match self.order_in_quiet(cycle) {
                Paced::Goes(next) => {
                    cycle = next;
                    if end <= cycle {
                        self.cycle = cycle;
                        return Stepped::Quiet;
                    }
                }
                Paced::Ends(stepped) => return stepped,
            }
        }
    }

    /// Runs boundaries up to the next write, the stop, or the first that ends at `end` or later, when an interrupt is
    /// requested. While it is held off and there is no stop address, only orders come.
    fn go_held(&mut self, end: u64) -> Stepped
        requires sound { IsSound self.old }
        requires quiet { self.old.cycle < self.old.quiet_until }
        requires end { end ≤ self.old.quiet_until }
        ensures next { (state_of self.new, result) ≡ next_before end (state_of self.old) }
        ensures sound { IsSound self.new }
    {
        if self.until.is_some() {
            self.go_step_by_step(end)
        } else {
            self.go_held_off(end)
        }
    }

    /// Runs orders up to the next write, a stop, or the first that ends at `end` or later, while a requested interrupt
    /// is held off; there is no stop address.
    #[inline(never)]
    fn go_held_off(&mut self, end: u64) -> Stepped
        requires sound { IsSound self.old }
        requires quiet { self.old.cycle < self.old.quiet_until }
        requires end { end ≤ self.old.quiet_until }
        requires until { self.old.until ≡ None }
        ensures next { (state_of self.new, result) ≡ next_before end (state_of self.old) }
        ensures sound { IsSound self.new }
    {
        let mut cycle = self.cycle;
        loop {
            if !self.is_held_off() {
                self.cycle = cycle;
                return self.go_step_by_step(end);
            }
            match self.order_in_quiet(cycle) {
                Paced::Goes(next) => {
                    cycle = next;
                    if end <= cycle {
                        self.cycle = cycle;
                        return Stepped::Quiet;
                    }
                }
                Paced::Ends(stepped) => return stepped,
            }
        }
    }

    /// Runs boundaries up to the next write, the stop, or the first that ends at `end` or later, and checks before each
    /// order for an interrupt and the stop. After an interrupt the pace is chosen again.
    #[inline(never)]
    fn go_step_by_step(&mut self, end: u64) -> Stepped
        requires sound { IsSound self.old }
        requires quiet { self.old.cycle < self.old.quiet_until }
        requires end { end ≤ self.old.quiet_until }
        ensures next { (state_of self.new, result) ≡ next_before end (state_of self.old) }
        ensures sound { IsSound self.new }
    {
        loop {
            match self.step_held() {
                Stepped::Quiet => {
                    if end <= self.cycle {
                        return Stepped::Quiet;
                    }
                    match self.pace {
                        Pace::Bare => return self.go_bare(end),
                        Pace::Watched => return self.go_watched(end),
                        Pace::Held => {}
                    }
                }
                Stepped::Wrote(write) => return Stepped::Wrote(write),
                Stepped::Stopped(why) => return Stepped::Stopped(why),
            }
        }
    }

    /// Runs the order in hand at a cycle below `quiet_until`, when no interrupt is taken and the stop address is not in
    /// hand.
    #[inline(always)]
    pub(crate) fn order_in_quiet(&mut self, cycle: u64) -> Paced
        requires sound { IsSound (engine_at cycle self.old) }
        requires quiet { cycle < self.old.quiet_until }
        requires uninterrupted { pending self.old.processor ≡ None }
        requires unreached { is_reached self.old.until self.old.processor ≡ false }
        ensures step { paced_state self.new result ≡ boundary None (state_of (engine_at cycle self.old)) }
        ensures sound { IsSound (paced_engine self.new result) }
        ensures quiet_until { (next : ℕ) → result ≡ Paced.Goes next → self.new.quiet_until ≡ self.old.quiet_until }
        ensures pace { self.new.pace ≡ self.old.pace }
        ensures until { self.new.until ≡ self.old.until }
        ensures shows { (stepped : Stepped) → result ≡ Paced.Ends stepped → stepped ≡ Stepped.Quiet → ⊥ }
    {
        self.order_at(cycle)
    }

    /// Runs one boundary below `quiet_until`.
    pub(crate) fn step_quickly(&mut self) -> Stepped
        requires sound { IsSound self.old }
        requires quiet { self.old.cycle < self.old.quiet_until }
        ensures step { (state_of self.new, result) ≡ boundary None (state_of self.old) }
        ensures sound { IsSound self.new }
    {
        if self.pace == Pace::Bare {
            self.step_bare()
        } else {
            self.step_held()
        }
    }

    /// Runs one boundary at which only the order in hand can come.
    #[inline(always)]
    pub(crate) fn step_bare(&mut self) -> Stepped
        requires sound { IsSound self.old }
        requires quiet { self.old.cycle < self.old.quiet_until }
        requires pace { self.old.pace ≡ Pace.Bare }
        ensures step { (state_of self.new, result) ≡ boundary None (state_of self.old) }
        ensures sound { IsSound self.new }
        ensures quiet_until { result ≡ Stepped.Quiet → self.new.quiet_until ≡ self.old.quiet_until }
        ensures pace { self.new.pace ≡ self.old.pace }
    {
        self.run_order()
    }

    /// Runs one boundary at which no interrupt can come, but the stop may.
    #[inline(always)]
    fn step_watched(&mut self) -> Stepped
        requires sound { IsSound self.old }
        requires quiet { self.old.cycle < self.old.quiet_until }
        requires uninterrupted { pending self.old.processor ≡ None }
        ensures step { (state_of self.new, result) ≡ boundary None (state_of self.old) }
        ensures sound { IsSound self.new }
        ensures quiet_until { result ≡ Stepped.Quiet → self.new.quiet_until ≡ self.old.quiet_until }
        ensures pace { self.new.pace ≡ self.old.pace }
    {
        if self.is_reached() {
            self.quiet_until = 0;
            return self.stop(Stop::Reached);
        }
        self.run_order()
    }

    /// Runs one boundary at which an interrupt or the stop may come.
    #[inline(always)]
    fn step_held(&mut self) -> Stepped
        requires sound { IsSound self.old }
        requires quiet { self.old.cycle < self.old.quiet_until }
        ensures step { (state_of self.new, result) ≡ boundary None (state_of self.old) }
        ensures sound { IsSound self.new }
        ensures quiet_until { result ≡ Stepped.Quiet → self.new.quiet_until ≡ self.old.quiet_until }
    {
        match self.pending() {
            Some(rupt) => self.take_interrupt(rupt),
            None => self.step_watched(),
        }
    }

    /// Returns the interrupt that is taken next, if any is allowed.
    #[inline(always)]
    fn pending(&self) -> Option<Rupt>
        ensures { result ≡ pending self.now.processor }
    {
        if self.is_held_off() {
            return None;
        }
        self.processor.pending()
    }

    /// Returns the cycle from which the clock brings something again; 0 if the machine has not
    /// begun or has stopped.
    #[tactic(auto, using(crate::proofs::Stillness::least_of))]
    pub(crate) fn quiet_from_here(&self) -> u64
        requires sound { IsSound (record self.now { quiet_until = 0 }) }
        ensures quiet { 0 < result → IsQuiet result (state_of self.now) }
        ensures longest { IsLongest result (state_of self.now) }
    {
        if !self.begun || self.stopped.is_some() {
            return 0;
        }
        let timers = self.next_timer_cycle();
        timers.min(self.limit).min(self.next_event_cycle())
    }

    /// Returns the first cycle at which some timer's step is due.
    fn next_timer_cycle(&self) -> u64
        requires in_time { IsInTime self.now.cycle self.now.processor.timers }
        requires cycle { self.now.cycle ≤ 1000000000006 }
        ensures none { (cycle : ℕ) → cycle < result → is_timer_due cycle (state_of self.now) ≡ false }
        ensures due { is_timer_due result (state_of self.now) ≡ true }
    {
        self.processor.timers_quiet_until()
    }

    /// Returns the cycle of the next event, or a cycle beyond every limit.
    #[tactic(auto, using(crate::proofs::Events::events_from, crate::proofs::Events::no_events))]
    fn next_event_cycle(&self) -> u64
        ensures before { (cycle : ℕ) → cycle < result → IsBefore cycle (drop self.now.next self.now.script) }
        ensures due { result ≤ 1000000000000 → IsEventDue result (drop self.now.next self.now.script) }
    {
        match self.next_event() {
            Some(event) => event.cycle,
            None => u64::MAX,
        }
    }

    /// Returns what may come before the next order while the clock brings nothing.
    pub(crate) fn pace_from_here(&self) -> Pace
        ensures pace { result ≡ pace_of (state_of self.now) }
        ensures serves { Serves result (state_of self.now) }
    {
        if self.processor.is_requested() {
            Pace::Held
        } else if self.until.is_some() {
            Pace::Watched
        } else {
            Pace::Bare
        }
    }
}
