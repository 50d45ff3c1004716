//! Runs of orders: one order, or, while nothing but orders can come, all up to one after which a watch ends the run.
ghost use Rattle.std.specs.Prelude.{◌≡◌};

use crate::answer::Stepped;
use crate::engine::{Engine, Paced};
use crate::machine::Machine;
use crate::quiet::Pace;
use crate::upcoming::{InHand, Upcoming, in_hand};
use agc_store::Store;
use agc_store::place::ERASABLE_BANK_SIZE;
use agc_word::Narrow;

/// What ends a run of orders early.
#[derive(Clone, Copy, Debug, PartialEq, Eq)]
pub enum Watch {
    /// Nothing does.
    Nothing,
    /// The cell has another word than this, with overflow corrected. Its number is 400 octal times its bank, plus its
    /// offset.
    Change { cell: u16, word: Narrow },
    /// Z is one past one of two addresses.
    Next { address: u32, window: u32 },
}

/// A run of orders.
#[derive(Clone, Copy, Debug, PartialEq, Eq)]
pub struct OrderRun {
    /// The cycle at which the last order began.
    pub began: u64,
    /// What the last order returned.
    pub stepped: Stepped,
}

impl Watch {
    ghost use Rattle.std.specs.Prelude.{◌≡◌};
    ghost use Rattle.agc_machine.specs.OrderRun.{IsWatchInRange, is_triggered};

    /// Returns whether a run of orders ends with this memory.
    #[inline(always)]
    fn is_triggered(&self, store: &Store) -> bool
        requires range { IsWatchInRange self.now }
        ensures { result ≡ is_triggered self.now store.now }
    {
        match self {
            Watch::Nothing => false,
            Watch::Change { cell, word } => {
                store.cell(
                    (*cell / ERASABLE_BANK_SIZE) as u8,
                    *cell % ERASABLE_BANK_SIZE,
                ) != *word
            }
            Watch::Next { address, window } => {
                let here = u32::from(store.z().previous().bits());
                here == *address || here == *window
            }
        }
    }
}

impl Machine {
    ghost use Rattle.std.specs.Prelude.{◌≡◌, IfSome, IfNone, None};
    ghost use Rattle.agc_machine.specs.Boundary.{HasPlace, boundary, upcoming_of};
    ghost use Rattle.agc_machine.specs.Laws.{HasChannel};
    ghost use Rattle.agc_machine.specs.OrderRun.{HasRunOrders, IsWatchInRange};

    /// Runs the order in hand and returns it with what it did, if nothing else can come before it. Otherwise changes
    /// nothing and returns `None`. It may also return `None` if the order comes next but the clock, an interrupt or the
    /// stop address must be checked first.
    #[inline(always)]
    pub fn run_order(&mut self) -> Option<(InHand, Stepped)>
        ensures comes { IfSome result (λ (order, stepped). upcoming_of self.old ≡ Upcoming.Order order) }
        ensures ran { IfSome result (λ (order, stepped). (self.new, stepped) ≡ boundary None self.old) }
        ensures place { IfSome result (λ (order, stepped). HasPlace (Upcoming.Order order)) }
        ensures channel { IfSome result (λ (order, stepped). HasChannel stepped) }
        ensures unchanged { IfNone result (self.new ≡ self.old) }
    {
        self.engine.run_order_if_bare()
    }

    /// Runs one order or more, if nothing but orders can come: up to the first one after which the watch ends the run,
    /// that writes or stops, or that ends at `cycle` or later. May end earlier. Otherwise changes nothing and returns
    /// `None`.
    pub fn run_orders(&mut self, watch: &Watch, cycle: u64) -> Option<OrderRun>
        requires range { IsWatchInRange watch.now }
        ensures ran { IfSome result (λ run. HasRunOrders watch.now cycle self.old self.new run) }
        ensures unchanged { IfNone result (self.new ≡ self.old) }
    {
        self.engine.run_orders(watch, cycle)
    }
}

impl Engine {
    ghost use Rattle.std.specs.Prelude.{◌≡◌, ◌<◌, ◌≤◌, IfSome, IfNone, None};
    ghost use Rattle.agc_machine.specs.Boundary.{HasPlace, boundary, upcoming_of};
    ghost use Rattle.agc_machine.specs.Engine.{state_of, IsSound};
    ghost use Rattle.agc_machine.specs.OrderRun.{HasRunOrders, IsWatchInRange};

    /// Runs the order in hand, if the clock brings nothing and nothing may come before it. Otherwise changes nothing.
    #[inline(always)]
    fn run_order_if_bare(&mut self) -> Option<(InHand, Stepped)>
        requires sound { IsSound self.old }
        ensures comes { IfSome result (λ (order, stepped). upcoming_of (state_of self.old) ≡ Upcoming.Order order) }
        ensures ran { IfSome result (λ (order, stepped). (state_of self.new, stepped) ≡ boundary None (state_of self.old)) }
        ensures place { IfSome result (λ (order, stepped). HasPlace (Upcoming.Order order)) }
        ensures sound { IsSound self.new }
        ensures unchanged { IfNone result (state_of self.new ≡ state_of self.old) }
    {
        if self.cycle < self.quiet_until && self.pace == Pace::Bare {
            let order = in_hand(&self.processor);
            let stepped = self.step_bare();
            Some((order, stepped))
        } else {
            None
        }
    }

    /// Runs one order or more, if nothing but orders can come. Otherwise changes nothing.
    fn run_orders(&mut self, watch: &Watch, cycle: u64) -> Option<OrderRun>
        requires sound { IsSound self.old }
        requires range { IsWatchInRange watch.now }
        ensures ran { IfSome result (λ run. HasRunOrders watch.now cycle (state_of self.old) (state_of self.new) run) }
        ensures sound { IsSound self.new }
        ensures unchanged { IfNone result (state_of self.new ≡ state_of self.old) }
    {
        if self.cycle < self.quiet_until && self.pace == Pace::Bare {
            Some(self.run_bare_orders(watch, self.quiet_until.min(cycle)))
        } else {
            None
        }
    }

    /// Runs orders up to the first one after which the watch ends the run, that writes or stops, or that ends at `end`
    /// or later. The loop keeps the cycle in a register.
    #[inline(never)]
    fn run_bare_orders(&mut self, watch: &Watch, end: u64) -> OrderRun
        requires sound { IsSound self.old }
        requires range { IsWatchInRange watch.now }
        requires quiet { self.old.cycle < self.old.quiet_until }
        requires end { end ≤ self.old.quiet_until }
        requires pace { self.old.pace ≡ Pace.Bare }
        ensures ran { HasRunOrders watch.now end (state_of self.old) (state_of self.new) result }
        ensures sound { IsSound self.new }
    {
        let mut cycle = self.cycle;
        loop {
            match self.order_in_quiet(cycle) {
                Paced::Goes(next) => {
                    if end <= next || watch.is_triggered(&self.processor.store) {
                        self.cycle = next;
                        return OrderRun {
                            began: cycle,
                            stepped: Stepped::Quiet,
                        };
                    }
                    cycle = next;
                }
                Paced::Ends(stepped) => {
                    return OrderRun {
                        began: cycle,
                        stepped,
                    };
                }
            }
        }
    }
}
