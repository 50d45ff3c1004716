//! The five timers: which step is due, and what it does.
ghost use Rattle.std.specs.Prelude.{◌≡◌};
ghost use Rattle.agc_store.specs.Places.{erasable_bank_size};
ghost use Rattle.agc_processor.specs.Timer.{timer_name};

use crate::clock::{
    TIME1_FIRST, TIME3_FIRST, TIME4_FIRST, TIME5_FIRST, due_from, step_is_due, time6_due_from,
    time6_periods,
};
use crate::interrupt::Rupt;
use crate::processor::Processor;
use agc_store::place::{TIME1, TIME2, TIME3, TIME4, TIME5, TIME6};
use agc_word::channels::CHAN13;
use agc_word::{Carry, Narrow, Pulse};

/// A timer that steps at boundaries of its own. TIME2 does not: TIME1's carry steps it.
#[derive(Clone, Copy, Debug, PartialEq, Eq)]
pub enum Timer {
    Time1,
    Time3,
    Time4,
    Time5,
    Time6,
}

impl Timer {
    /// Returns the name of its counter.
    pub fn name(self) -> &'static str
        ensures { result.now ≡ timer_name self }
    {
        match self {
            Timer::Time1 => "TIME1",
            Timer::Time3 => "TIME3",
            Timer::Time4 => "TIME4",
            Timer::Time5 => "TIME5",
            Timer::Time6 => "TIME6",
        }
    }
}

impl Processor {
    ghost use Rattle.std.specs.Prelude.{◌≡◌, ◌<◌, ◌≤◌, ◌^◌, ◌+◌, ◌*◌, IfSome, ℕ, true, false};
    ghost use Rattle.agc_word.specs.Pulses.{pulsed};
    ghost use Rattle.agc_processor.specs.Channel.{switch_word};
    ghost use Rattle.agc_processor.specs.Timer.{is_any_due, due_timer, IsCounted, steps_of, timer_step, time1_step, time3_step, time4_step, time5_step, time6_step, is_time6_due, set_counter, counter, tick};

    /// Returns the first timer whose step is due at a cycle.
    #[tactic(auto, unfolding(crate::specs::Timer::due_timer))]
    pub fn due_timer(&self, cycle: u64) -> Option<Timer>
        requires { cycle < 2 ^ 41 }
        ensures due { result ≡ due_timer cycle self.now }
        ensures counted { IfSome result (λ timer. steps_of timer self.now.timers < 2 ^ 60) }
    {
        let timers = &self.timers;
        if step_is_due(cycle, TIME1_FIRST, timers.time1) {
            Some(Timer::Time1)
        } else if step_is_due(cycle, TIME3_FIRST, timers.time3) {
            Some(Timer::Time3)
        } else if step_is_due(cycle, TIME4_FIRST, timers.time4) {
            Some(Timer::Time4)
        } else if step_is_due(cycle, TIME5_FIRST, timers.time5) {
            Some(Timer::Time5)
        } else if self.is_time6_due(cycle) {
            Some(Timer::Time6)
        } else {
            None
        }
    }

    /// Steps a timer; returns the cycles that the step costs.
    pub fn step_timer(&mut self, timer: Timer) -> u64
        requires counted { steps_of timer self.old.timers < 2 ^ 60 }
        ensures step { (self.new, result) ≡ timer_step timer self.old }
        ensures bound { result ≤ 2 }
    {
        match timer {
            Timer::Time1 => self.step_time1(),
            Timer::Time3 => self.step_time3(),
            Timer::Time4 => self.step_time4(),
            Timer::Time5 => self.step_time5(),
            Timer::Time6 => self.step_time6(),
        }
    }

    /// Returns whether TIME6 is on and a period has passed that it has not counted.
    fn is_time6_due(&self, cycle: u64) -> bool
        requires { cycle < 2 ^ 41 }
        ensures { result ≡ is_time6_due cycle self.now.timers (switch_word self.now) }
    {
        self.is_time6_on() && self.timers.mark < time6_periods(cycle)
    }

    /// Returns the first cycle at which some timer's step is due; 0 if that is unknown.
    pub fn timers_quiet_until(&self) -> u64
        ensures none { (cycle : ℕ) → cycle < result → is_any_due cycle self.now.timers (switch_word self.now) ≡ false }
        ensures due { 0 < result → is_any_due result self.now.timers (switch_word self.now) ≡ true }
        ensures known { IsCounted self.now.timers → 0 < result }
    {
        let timers = &self.timers;
        let time6 = if self.is_time6_on() {
            time6_due_from(timers.mark)
        } else {
            u64::MAX
        };
        due_from(TIME1_FIRST, timers.time1)
            .min(due_from(TIME3_FIRST, timers.time3))
            .min(due_from(TIME4_FIRST, timers.time4))
            .min(due_from(TIME5_FIRST, timers.time5))
            .min(time6)
    }

    /// Pulses a counter of bank 0 and returns the carry.
    pub fn pulse(&mut self, place: u16, kind: Pulse) -> Carry
        requires low { 0o10 ≤ place }
        requires high { place < erasable_bank_size }
        ensures word { self.new ≡ set_counter place (pulsed kind (counter place self.old)).0 self.old }
        ensures carry { result ≡ (pulsed kind (counter place self.old)).1 }
    {
        let (word, carry) = self.store.cell(0, place).pulse(kind);
        self.store.poke(0, place, word);
        carry
    }

    /// Increments a counter of bank 0; its carry requests an interrupt.
    fn tick(&mut self, place: u16, rupt: Rupt)
        requires low { 0o10 ≤ place }
        requires high { place < erasable_bank_size }
        ensures { self.new ≡ tick place rupt self.old }
    {
        if self.pulse(place, Pulse::Pinc) == Carry::Out {
            self.request(rupt);
        }
    }

    /// Steps TIME1; its carry steps TIME2, at the cost of another cycle.
    #[tactic(auto, unfolding(crate::specs::Timer::time1_step))]
    fn step_time1(&mut self) -> u64
        requires { self.old.timers.time1 < 2 ^ 60 }
        ensures step { (self.new, result) ≡ time1_step self.old }
        ensures bound { result ≤ 2 }
    {
        self.timers.time1 += 1;
        match self.pulse(TIME1, Pulse::Pinc) {
            Carry::Out => {
                self.pulse(TIME2, Pulse::Pinc);
                2
            }
            Carry::None => 1,
        }
    }

    #[tactic(auto, unfolding(crate::specs::Timer::time3_step))]
    fn step_time3(&mut self) -> u64
        requires { self.old.timers.time3 < 2 ^ 60 }
        ensures step { (self.new, result) ≡ time3_step self.old }
        ensures bound { result ≤ 2 }
    {
        self.timers.time3 += 1;
        self.tick(TIME3, Rupt::T3rupt);
        1
    }

    #[tactic(auto, unfolding(crate::specs::Timer::time4_step))]
    fn step_time4(&mut self) -> u64
        requires { self.old.timers.time4 < 2 ^ 60 }
        ensures step { (self.new, result) ≡ time4_step self.old }
        ensures bound { result ≤ 2 }
    {
        self.timers.time4 += 1;
        self.tick(TIME4, Rupt::T4rupt);
        1
    }

    #[tactic(auto, unfolding(crate::specs::Timer::time5_step))]
    fn step_time5(&mut self) -> u64
        requires { self.old.timers.time5 < 2 ^ 60 }
        ensures step { (self.new, result) ≡ time5_step self.old }
        ensures bound { result ≤ 2 }
    {
        self.timers.time5 += 1;
        self.tick(TIME5, Rupt::T5rupt);
        1
    }

    /// Steps TIME6 towards zero; a step that finds zero requests T6RUPT and switches TIME6 off.
    #[tactic(auto, unfolding(crate::specs::Timer::time6_step))]
    fn step_time6(&mut self) -> u64
        requires { self.old.timers.mark < 2 ^ 60 }
        ensures step { (self.new, result) ≡ time6_step self.old }
        ensures bound { result ≤ 2 }
    {
        self.timers.mark += 1;
        if self.pulse(TIME6, Pulse::Dinc) == Carry::Out {
            let off = self.channel_cell(CHAN13).bits() % 0o40000;
            self.set_channel_cell(CHAN13, Narrow::with_bits(off));
            self.request(Rupt::T6rupt);
        }
        1
    }
}
