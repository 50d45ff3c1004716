//! The boundary between two orders: carries out the first thing that applies of all that may happen there.
ghost use Rattle.std.specs.Prelude.{◌≡◌, ◌<◌, ◌≤◌, ◌+◌, ◌%◌, ◌^◌, length};
ghost use Rattle.agc_processor.specs.Effect.{order_effect, IsOrderly};
ghost use Rattle.agc_processor.specs.Keeps.{Keeps};
ghost use Rattle.agc_machine.specs.Engine.{state_of, IsInTime, IsSound};

use crate::answer::{Next, Stepped, Stop};
use crate::event::apply_event;
use crate::idle::Search;
use crate::quiet::Pace;
use crate::stop_address::StopAddress;
use crate::upcoming::Upcoming;
use agc_processor::{INTERRUPT_MCT, Processor, Ran, Rupt, Timer, WRITE_MCT};
use agc_script::{Event, Script, What};
use agc_store::place::{ERASABLE_WINDOW, FIXED_FIXED, FIXED_WINDOW};
use agc_store::{Addr, Rope};
use agc_word::ChannelWrite;
use agc_word::channels::CHAN13;

/// The state of a run, and the script that it takes its events from.
#[derive(Drop)]
pub(crate) struct Engine {
    pub(crate) processor: Processor,
    pub(crate) script: Script,
    /// The position of the first event that the run has not taken.
    pub(crate) next: usize,
    pub(crate) limit: u64,
    pub(crate) cycle: u64,
    pub(crate) begun: bool,
    pub(crate) stopped: Option<Stop>,
    pub(crate) until: Option<StopAddress>,
    /// Below this cycle the clock brings nothing; 0 if that is unknown.
    pub(crate) quiet_until: u64,
    /// What may come before the order in hand below that cycle.
    pub(crate) pace: Pace,
    /// When to look for an idle loop again.
    pub(crate) search: Search,
}

/// The result of an order that ran at a cycle outside the engine, so that a loop over orders keeps
/// the cycle in a register.
#[derive(Clone, Copy)]
pub(crate) enum Paced {
    /// Nothing is visible outside. The next boundary comes at this cycle, which the engine does not hold yet.
    Goes(u64),
    /// This is visible outside; the engine holds the cycle.
    Ends(Stepped),
}

impl Engine {
    ghost use Rattle.std.specs.Prelude.{◌≡◌, ℕ, ◌<◌, ◌≤◌, ◌+◌, ◌%◌, ◌^◌, ◌↔◌, ◌||◌, length, drop, slice_get, true, false, IsTrue, IsSome, IfSome, IfNone, Some, None};
    ghost use Rattle.agc_script.specs.Event.{IsInRange, IsWhatInRange};
    ghost use Rattle.agc_machine.specs.Engine.{engine_at, state_of, IsSound, IsRunning, StandsInScript, paced_engine, paced_state};
    ghost use Rattle.agc_machine.specs.Quiet.{IsLongest, IsQuiet, Serves, pace_of};
    ghost use Rattle.agc_processor.specs.Timer.{due_timer};
    ghost use Rattle.agc_machine.specs.State.{start_state};
    ghost use Rattle.agc_machine.specs.Run.{next_before, next_of};
    ghost use Rattle.agc_machine.specs.Boundary.{Applies, boundary, WantsKey, IsBefore, by_order, carried_out, stops, is_reached, bank_agrees};

    /// Returns the state at the start of a run.
    #[tactic(auto, unfolding(crate::specs::State::start_state))]
    pub(crate) fn new(rope: Rope, script: Script, limit: u64) -> Engine
        requires positive { 0 < limit }
        requires limit { limit ≤ 1000000000000 }
        ensures start { state_of result ≡ start_state rope script limit None }
        ensures sound { IsSound result }
    {
        Engine {
            processor: Processor::new(rope),
            script,
            next: 0,
            limit,
            cycle: 0,
            begun: false,
            stopped: None,
            until: None,
            quiet_until: 0,
            pace: Pace::Held,
            search: Search::new(),
        }
    }

    /// Runs boundaries without live events, up to the next write or the stop.
    pub(crate) fn next_write(&mut self) -> Next
        requires sound { IsSound self.old }
        ensures next { (state_of self.new, result) ≡ next_of (state_of self.old) }
        ensures sound { IsSound self.new }
    {
        loop {
            if self.cycle < self.quiet_until {
                match self.go_quickly(self.quiet_until) {
                    Stepped::Quiet => {}
                    Stepped::Wrote(write) => return Next::Wrote(write),
                    Stepped::Stopped(why) => return Next::Stopped(why),
                }
            } else {
                match self.step_slowly(None) {
                    Stepped::Quiet => self.skip_idle_turns(self.quiet_until),
                    Stepped::Wrote(write) => return Next::Wrote(write),
                    Stepped::Stopped(why) => return Next::Stopped(why),
                }
            }
        }
    }

    /// Runs boundaries without live events, up to the next write, the stop, or the first quiet boundary that ends at
    /// `cycle` or later.
    pub(crate) fn next_write_before(&mut self, cycle: u64) -> Stepped
        requires sound { IsSound self.old }
        ensures next { (state_of self.new, result) ≡ next_before cycle (state_of self.old) }
        ensures sound { IsSound self.new }
    {
        self.skip_idle_turns(self.quiet_until.min(cycle));
        self.go_before(cycle)
    }

    /// Does the same, without looking for an idle loop first.
    fn go_before(&mut self, cycle: u64) -> Stepped
        requires sound { IsSound self.old }
        ensures next { (state_of self.new, result) ≡ next_before cycle (state_of self.old) }
        ensures sound { IsSound self.new }
    {
        loop {
            if self.cycle < self.quiet_until {
                match self.go_quickly(self.quiet_until.min(cycle)) {
                    Stepped::Quiet => {
                        if cycle <= self.cycle {
                            return Stepped::Quiet;
                        }
                    }
                    Stepped::Wrote(write) => return Stepped::Wrote(write),
                    Stepped::Stopped(why) => return Stepped::Stopped(why),
                }
            } else {
                match self.step_slowly(None) {
                    Stepped::Quiet => {
                        if cycle <= self.cycle {
                            return Stepped::Quiet;
                        }
                        self.skip_idle_turns(self.quiet_until.min(cycle));
                    }
                    Stepped::Wrote(write) => return Stepped::Wrote(write),
                    Stepped::Stopped(why) => return Stepped::Stopped(why),
                }
            }
        }
    }

    /// Returns whether a live event would happen at once.
    pub(crate) fn wants_key(&self) -> bool
        ensures { IsTrue result ↔ WantsKey (state_of self.now) }
    {
        self.stopped.is_none() && self.cycle < self.limit && self.is_before_events()
    }

    /// Returns whether no event of the script is due.
    #[tactic(auto, using(crate::proofs::Events::events_from, crate::proofs::Events::no_events))]
    fn is_before_events(&self) -> bool
        ensures { IsTrue result ↔ IsBefore self.now.cycle (drop self.now.next self.now.script) }
    {
        match self.next_event() {
            Some(event) => self.cycle < event.cycle,
            None => true,
        }
    }

    /// Runs one boundary.
    #[inline(always)]
    pub(crate) fn step(&mut self, live: Option<What>) -> Stepped
        requires sound { IsSound self.old }
        requires wanted { IsSome live → WantsKey (state_of self.old) }
        requires range { IfSome live IsWhatInRange }
        ensures step { (state_of self.new, result) ≡ boundary live (state_of self.old) }
        ensures sound { IsSound self.new }
    {
        if live.is_none() && self.cycle < self.quiet_until {
            return self.step_quickly();
        }
        self.step_slowly(live)
    }

    /// Runs one boundary at which the clock may bring something.
    #[cold]
    #[inline(never)]
    fn step_slowly(&mut self, live: Option<What>) -> Stepped
        requires sound { IsSound self.old }
        requires wanted { IsSome live → WantsKey (state_of self.old) }
        requires range { IfSome live IsWhatInRange }
        ensures step { (state_of self.new, result) ≡ boundary live (state_of self.old) }
        ensures sound { IsSound self.new }
        ensures longest { IsLongest self.new.quiet_until (state_of self.new) }
        ensures pace { self.new.pace ≡ pace_of (state_of self.new) }
    {
        self.quiet_until = 0;
        let stepped = self.step_by_cases(live);
        self.quiet_until = self.quiet_from_here();
        self.pace = self.pace_from_here();
        stepped
    }

    /// Applies the live event, if there is one; otherwise carries out what comes next.
    #[tactic(auto, unfolding(crate::specs::Boundary::boundary))]
    fn step_by_cases(&mut self, live: Option<What>) -> Stepped
        requires sound { IsSound self.old }
        requires wanted { IsSome live → WantsKey (state_of self.old) }
        requires range { IfSome live IsWhatInRange }
        requires not_quiet { self.old.quiet_until ≡ 0 }
        ensures step { (state_of self.new, result) ≡ boundary live (state_of self.old) }
        ensures sound { IsSound self.new }
    {
        if let Some(what) = live {
            self.begun = true;
            self.cycle += apply_event(&mut self.processor, self.cycle, what);
            return Stepped::Quiet;
        }
        if let Some(why) = self.stopped {
            return Stepped::Stopped(why);
        }
        let next = self.upcoming_by_cases();
        self.begun = true;
        self.carry_out(next)
    }

    /// Carries out what comes next.
    fn carry_out(&mut self, next: Upcoming) -> Stepped
        requires sound { IsSound self.old }
        requires begun { self.old.begun ≡ true }
        requires not_quiet { self.old.quiet_until ≡ 0 }
        requires applies { Applies next (state_of self.old) }
        requires script { StandsInScript next self.old }
        ensures step { (state_of self.new, result) ≡ carried_out next (state_of self.old) }
        ensures sound { IsSound self.new }
    {
        match next {
            Upcoming::Stop(why) => self.stop(why),
            Upcoming::Event(what) => {
                self.next += 1;
                self.cycle += apply_event(&mut self.processor, self.cycle, what);
                Stepped::Quiet
            }
            Upcoming::Timer(timer) => {
                self.cycle += self.processor.step_timer(timer);
                Stepped::Quiet
            }
            Upcoming::Interrupt(rupt) => self.take_interrupt(rupt),
            Upcoming::Order(_) => self.run_order(),
        }
    }

    /// Returns the first event that the run has not taken.
    pub(crate) fn next_event(&self) -> Option<Event>
        ensures event { IfSome result (λ event. slice_get self.now.script self.now.next ≡ Some event) }
        ensures place { IfSome result (λ event. self.now.next < 2 ^ 16) }
        ensures none { IfNone result (length self.now.script ≤ self.now.next) }
        ensures range { IfSome result (λ event. IsInRange event) }
    {
        if self.next < self.script.len() {
            Some(self.script.at(self.next))
        } else {
            None
        }
    }

    /// Takes an interrupt.
    #[inline(always)]
    pub(crate) fn take_interrupt(&mut self, rupt: Rupt) -> Stepped
        requires running { IsRunning self.old }
        requires quiet { 0 < self.old.quiet_until → IsQuiet self.old.quiet_until (state_of self.old) }
        ensures step { (state_of self.new, result) ≡ carried_out (Upcoming.Interrupt rupt) (state_of self.old) }
        ensures quiet_until { self.new.quiet_until ≡ self.old.quiet_until }
        ensures sound { IsSound self.new }
    {
        self.processor.interrupt(rupt);
        self.cycle += INTERRUPT_MCT;
        self.pace = self.pace_from_here();
        Stepped::Quiet
    }

    /// Returns whether a service or INHINT holds every interrupt off.
    #[inline(always)]
    pub(crate) fn is_held_off(&self) -> bool
        ensures { result ≡ self.now.processor.serving || self.now.processor.inhibited }
    {
        self.processor.inhibited || self.processor.serving
    }

    /// Returns whether the order at the stop address is in hand.
    #[inline(always)]
    pub(crate) fn is_reached(&self) -> bool
        ensures { result ≡ is_reached self.now.until self.now.processor }
    {
        match self.until {
            Some(at) => self.processor.store.z().previous() == at.address && self.is_in_bank(at),
            None => false,
        }
    }

    /// Returns whether the order at this stop address is in hand: Z is then one past it.
    #[inline(always)]
    #[tactic(auto, using(crate::proofs::OnePast::stands_one_past))]
    pub(crate) fn is_one_past(&self, past: Addr, at: &StopAddress) -> bool
        requires range { at.now.address < 0o10000 }
        requires past { past ≡ (at.now.address + 1) % 0o10000 }
        ensures { result ≡ is_reached (Some at.now) self.now.processor }
    {
        self.processor.store.z() == past && self.is_in_bank(*at)
    }

    /// Returns whether the bank of the stop address agrees; it counts only in the two windows of switched banks.
    fn is_in_bank(&self, at: StopAddress) -> bool
        ensures { result ≡ bank_agrees at self.now.processor }
    {
        let store = &self.processor.store;
        match at.address.bits() {
            0..ERASABLE_WINDOW => true,
            ERASABLE_WINDOW..FIXED_WINDOW => store.erasable_bank() == at.bank,
            FIXED_WINDOW..FIXED_FIXED => store.selected_bank() == at.bank,
            _ => true,
        }
    }

    /// Runs the order in hand.
    #[inline(always)]
    pub(crate) fn run_order(&mut self) -> Stepped
        requires running { IsRunning self.old }
        requires quiet { 0 < self.old.quiet_until → IsQuiet self.old.quiet_until (state_of self.old) }
        requires pace { 0 < self.old.quiet_until → Serves self.old.pace (state_of self.old) }
        ensures step { (state_of self.new, result) ≡ by_order (state_of self.old) }
        ensures sound { IsSound self.new }
        ensures quiet_until { result ≡ Stepped.Quiet → self.new.quiet_until ≡ self.old.quiet_until }
        ensures pace { self.new.pace ≡ self.old.pace }
    {
        match self.order_at(self.cycle) {
            Paced::Goes(next) => {
                self.cycle = next;
                Stepped::Quiet
            }
            Paced::Ends(stepped) => stepped,
        }
    }

    /// Runs the order in hand at this cycle, whatever cycle the engine holds. If the run continues, the engine's own
    /// cycle is unchanged.
    #[inline(always)]
    #[tactic(auto, unfolding(crate::specs::Boundary::by_order))]
    pub(crate) fn order_at(&mut self, cycle: u64) -> Paced
        requires running { IsRunning (engine_at cycle self.old) }
        requires quiet { 0 < self.old.quiet_until → IsQuiet self.old.quiet_until (state_of (engine_at cycle self.old)) }
        requires pace { 0 < self.old.quiet_until → Serves self.old.pace (state_of (engine_at cycle self.old)) }
        ensures step { paced_state self.new result ≡ by_order (state_of (engine_at cycle self.old)) }
        ensures sound { IsSound (paced_engine self.new result) }
        ensures quiet_until { (next : ℕ) → result ≡ Paced.Goes next → self.new.quiet_until ≡ self.old.quiet_until }
        ensures pace { self.new.pace ≡ self.old.pace }
        ensures until { self.new.until ≡ self.old.until }
        ensures shows { (stepped : Stepped) → result ≡ Paced.Ends stepped → stepped ≡ Stepped.Quiet → ⊥ }
    {
        match run_in_time(&mut self.processor, cycle) {
            Ran::Quiet(cycles) => Paced::Goes(cycle + cycles),
            Ran::Wrote(channel, value) => {
                if channel == CHAN13 {
                    self.quiet_until = 0;
                }
                self.cycle = cycle + WRITE_MCT;
                Paced::Ends(Stepped::Wrote(ChannelWrite {
                    cycle,
                    channel,
                    value,
                }))
            }
            Ran::Halted(halt) => {
                self.cycle = cycle;
                self.quiet_until = 0;
                Paced::Ends(self.stop(Stop::at_halt(halt)))
            }
        }
    }

    /// Stops for this reason; nothing else changes.
    pub(crate) fn stop(&mut self, why: Stop) -> Stepped
        ensures step { (state_of self.new, result) ≡ stops why (state_of self.old) }
        ensures rest { self.new ≡ record self.old { stopped = Some why } }
    {
        self.stopped = Some(why);
        Stepped::Stopped(why)
    }
}

/// Runs the order in hand in a processor; its timers never get ahead of the cycle.
#[inline(always)]
fn run_in_time(processor: &mut Processor, cycle: u64) -> Ran
    requires cycle { cycle < 2 ^ 41 }
    requires in_time { IsInTime cycle processor.old.timers }
    ensures effect { (processor.new, result) ≡ order_effect cycle processor.old }
    ensures orderly { IsOrderly result }
    ensures keeps { Keeps processor.old (processor.new, result) }
    ensures in_time { IsInTime cycle processor.new.timers }
{
    processor.run(cycle)
}
