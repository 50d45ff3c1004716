//! The machine as callers see it: it runs by boundaries or from write to write.
ghost use Rattle.std.specs.Prelude.{◌≡◌, ◌<◌, ◌≤◌, ◌↔◌, IsTrue, IsSome, IfSome, IfOk, IfErr, IsOk, OnOk};
ghost use Rattle.agc_script.specs.Event.{IsWhatInRange};
ghost use Rattle.agc_machine.specs.Boundary.{pressed_live};

use crate::answer::{Next, Stepped, Stop};
use crate::engine::Engine;
use crate::idle::Search;
use crate::quiet::Pace;
use crate::stop_address::StopAddress;
use agc_processor::Processor;
use agc_script::{Event, Key, Script, What};
use agc_store::{Addr, Rope, Store};
use agc_word::Narrow;
use std::alloc::Global;
use std::marker::Model;
use thiserror::Error;

/// A run of a rope and a script, up to a limit of cycles.
#[derive(Drop)]
pub struct Machine {
    pub(crate) engine: Engine,
}

impl Model for Machine {
    ghost use Rattle.agc_machine.specs.State.{State};

    ghost Value = { State };

    ghost use Rattle.agc_machine.specs.Engine.{state_of, IsSound};

    ghost view = { λ m. state_of m.engine };

    ghost invariant = { λ m. IsSound m.engine };
}

/// Why no machine was made.
#[derive(Clone, Copy, Debug, PartialEq, Eq, Error)]
pub enum LimitFault {
    #[error("the limit of cycles is 0")]
    Zero,
    #[error("the limit of cycles is above 1000000000000")]
    TooLarge,
}

/// A refusal, which returns the rope and the script.
#[derive(Drop)]
pub struct Refused {
    pub fault: LimitFault,
    pub rope: Rope,
    pub script: Script,
}

impl Machine {
    ghost use Rattle.std.specs.Prelude.{◌≡◌, ◌<◌, ◌≤◌, ◌↔◌, IsTrue, IsSome, IfOk, IfErr, IsOk, None, Some, not, true, false, drop, length};
    ghost use Rattle.agc_machine.specs.State.{start_state, IsAtStart};
    ghost use Rattle.agc_machine.specs.Boundary.{boundary, pressed_live, WantsKey};
    ghost use Rattle.agc_machine.specs.Run.{next_before, next_of};
    ghost use Rattle.agc_machine.specs.Laws.{HasChannel, HasNextChannel};
    ghost use Rattle.agc_processor.specs.Channel.{channel_word};
    ghost use Rattle.agc_word.specs.Arithmetic.{narrow_of};

    /// Returns the machine at the start of a run: the order at 4000 octal is in hand.
    pub fn new(rope: Rope, script: Script, limit: u64) -> Result<Machine, Refused>
        ensures start { IfOk result (λ machine. machine ≡ start_state rope script limit None) }
        ensures refused { IfErr result (λ refused. (refused.rope ≡ rope) × (refused.script ≡ script)) }
        ensures zero { IfErr result (λ refused. refused.fault ≡ LimitFault.Zero → limit ≡ 0) }
        ensures too_large { IfErr result (λ refused. refused.fault ≡ LimitFault.TooLarge → 1000000000000 < limit) }
        ensures in_range { IsOk result ↔ ((0 < limit) × (limit ≤ 1000000000000)) }
    {
        if limit == 0 {
            return Err(Refused {
                fault: LimitFault::Zero,
                rope,
                script,
            });
        }
        if limit > 1_000_000_000_000 {
            return Err(Refused {
                fault: LimitFault::TooLarge,
                rope,
                script,
            });
        }
        Ok(Machine {
            engine: Engine::new(rope, script, limit),
        })
    }

    /// Sets a stop address: the run also stops when the order there comes into hand. The bank
    /// counts only in the windows of switched banks. A second address replaces the first.
    pub fn until(mut self, bank: u8, address: Addr) -> Machine
        requires { self.begun ≡ false }
        ensures { result ≡ record self { until = Some (record { bank = bank; address = address }) } }
    {
        self.engine.until = Some(StopAddress { bank, address });
        self
    }

    /// Runs one boundary: one event, timer step, interrupt or order, or the stop. A live key is
    /// taken as an event of the present cycle and is allowed only if `wants_key` is true.
    pub fn step(&mut self, live: Option<Key>) -> Stepped
        requires { IsSome live → WantsKey self.old }
        ensures boundary { (self.new, result) ≡ boundary (pressed_live live) self.old }
        ensures channel { HasChannel result }
    {
        self.engine.step(pressed_live(live))
    }

    /// Applies an event at the present cycle, like any event of a script: a key, PRO, an input, a
    /// pulse, a request or a poke. Allowed only if `wants_key` is true.
    pub fn inject(&mut self, what: What)
        requires wants { WantsKey self.old }
        requires range { IsWhatInRange what }
        ensures { (self.new, Stepped.Quiet) ≡ boundary (Some what) self.old }
    {
        self.engine.step(Some(what));
    }

    /// Runs to the next channel write, or to the stop if no write comes before it.
    pub fn next_write(&mut self) -> Next
        ensures next { (self.new, result) ≡ next_of self.old }
        ensures channel { HasNextChannel result }
    {
        self.engine.next_write()
    }

    /// Runs as `next_write` does, but at most to the first quiet boundary that ends at `cycle` or
    /// later; returns `Quiet` there. Runs at least one boundary.
    pub fn next_write_before(&mut self, cycle: u64) -> Stepped
        ensures next { (self.new, result) ≡ next_before cycle self.old }
        ensures channel { HasChannel result }
    {
        self.engine.next_write_before(cycle)
    }

    /// Returns whether a live key would be taken now: the machine has not stopped, its cycle is
    /// below the limit, and no event of the script is due.
    pub fn wants_key(&self) -> bool
        ensures wants { IsTrue result ↔ WantsKey self.now }
        ensures limit { self.now.limit ≤ 1000000000000 }
    {
        self.engine.wants_key()
    }

    /// Returns why the machine has stopped, if it has; no boundary changes that.
    pub fn stopped(&self) -> Option<Stop>
        ensures { result ≡ self.now.stopped }
    {
        self.engine.stopped
    }

    /// Returns whether the machine is at the start of its run, before its first boundary.
    pub fn fresh(&self) -> bool
        ensures fresh { result ≡ not self.now.begun }
        ensures start { IsTrue result → IsAtStart self.now }
    {
        !self.engine.begun
    }

    /// Returns the events of the script that the run has not taken yet.
    pub fn events_left(&self) -> &[Event]
        ensures { result.now ≡ self.now.events }
    {
        self.engine.script.rest(self.engine.next)
    }

    /// Returns the machine cycle, counted from 0; a second has 1,024,000 / 12 cycles.
    pub fn cycle(&self) -> u64
        ensures cycle { result ≡ self.now.cycle }
    {
        self.engine.cycle
    }

    /// Returns whether the service of an interrupt is running: from the interrupt to the order RESUME. No other
    /// interrupt comes meanwhile.
    pub fn serving(&self) -> bool
        ensures { result ≡ self.now.processor.serving }
    {
        self.engine.processor.serving
    }

    /// Returns the present memory.
    pub fn store(&self) -> &Store
        ensures { result.now ≡ self.now.processor.store }
    {
        &self.engine.processor.store
    }

    /// Returns what a channel shows at the present cycle; channel 2 shows Q corrected for overflow.
    pub fn channel(&self, channel: u16) -> Narrow
        requires { channel ≤ 0o777 }
        ensures { result ≡ narrow_of (channel_word self.now.cycle channel self.now.processor) }
    {
        self.engine
            .processor
            .channel(self.engine.cycle, channel)
            .narrow()
    }

    /// Returns a copy of the machine with these events left, or `None` if memory runs out.
    pub fn copy_with(&self, alloc: Global, script: Script) -> Option<Machine>
        ensures { IfSome result (λ copy. copy ≡ record self.now { events = script }) }
    {
        let engine = &self.engine;
        let processor = engine.processor.copy(alloc).ok()?;
        Some(Machine {
            engine: Engine {
                processor,
                script,
                next: 0,
                limit: engine.limit,
                cycle: engine.cycle,
                begun: engine.begun,
                stopped: engine.stopped,
                until: engine.until,
                quiet_until: 0,
                pace: Pace::Held,
                search: Search::new(),
            },
        })
    }

    /// Returns the machine with other events left: those of a script after the first `taken`.
    pub fn resume_with(self, script: Script, taken: usize) -> Machine
        requires { taken ≤ length script }
        ensures { result ≡ record self { events = drop taken script } }
    {
        let Machine { mut engine } = self;
        engine.script = script;
        engine.next = taken;
        engine.quiet_until = 0;
        Machine { engine }
    }

    /// Returns the machine at the start of another run of the same rope, with these events, the
    /// same limit and no stop address.
    pub fn restart_with(self, script: Script) -> Machine
        ensures { result ≡ start_state self.processor.store.fixed script self.limit None }
    {
        let limit = self.engine.limit;
        let rope = self.into_store().into_rope();
        Machine {
            engine: Engine::new(rope, script, limit),
        }
    }

    /// Returns the memory as the run left it.
    pub fn into_store(self) -> Store
        ensures { result ≡ self.processor.store }
    {
        let Machine { engine } = self;
        let Engine { processor, .. } = engine;
        let Processor { store, .. } = processor;
        store
    }
}

/// Converts a live key into its event.
#[tactic(auto, unfolding(agc_script::specs::Event::IsWhatInRange))]
fn pressed_live(live: Option<Key>) -> Option<What>
    ensures event { result ≡ pressed_live live }
    ensures some { IsSome result → IsSome live }
    ensures range { IfSome result IsWhatInRange }
{
    Some(What::Key(live?))
}
