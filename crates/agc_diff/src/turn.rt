//! The next boundary of one of two machines: the order in hand if it can run at once, otherwise any other one.
use agc_machine::{InHand, Machine, Stepped, Upcoming};
use agc_trace::{Entry, next_entry, registers_in, write_shown};

/// A machine at a boundary: it has run the order in hand, or the boundary is still to come.
#[derive(Clone, Copy, Debug, PartialEq, Eq)]
pub(crate) struct Turn {
    /// The cycle at which the boundary begins.
    pub(crate) cycle: u64,
    /// The order that has run, and what it did.
    pub(crate) ran: Option<(InHand, Stepped)>,
}

impl Turn {
    ghost use Rattle.std.specs.Prelude.{◌≡◌, IfSome, false};
    ghost use Rattle.agc_machine.specs.State.{State};
    ghost use Rattle.agc_trace.specs.Trace.{is_stop};
    ghost use Rattle.agc_diff.specs.Turn.{HasBegun, IsTaken};

    /// Runs the order in hand, if nothing else may come before it.
    #[inline(always)]
    pub(crate) fn begin(machine: &mut Machine) -> Turn
        ensures { HasBegun machine.old result machine.new }
    {
        let cycle = machine.cycle();
        let ran = machine.run_order();
        Turn { cycle, ran }
    }

    /// Leaves the boundary for later.
    pub(crate) fn wait(machine: &Machine) -> Turn
        ensures { HasBegun machine.now result machine.now }
    {
        Turn {
            cycle: machine.cycle(),
            ran: None,
        }
    }

    /// Returns the entry of the order that has run, if it wrote to no channel and stopped nothing. It is compiled into
    /// the loop over both machines, whose entries stay in registers.
    #[inline(always)]
    pub(crate) fn quiet_entry(&self, machine: &Machine) -> Option<Entry>
        ensures taken { IfSome result (λ entry. (s : State) → HasBegun s self.now machine.now → IsTaken s entry machine.now) }
        ensures goes_on { IfSome result (λ entry. is_stop entry.happening ≡ false) }
    {
        let (order, stepped) = self.ran?;
        if !matches!(stepped, Stepped::Quiet) {
            return None;
        }
        Some(Entry {
            cycle: self.cycle,
            happening: Upcoming::Order(order),
            write: write_shown(stepped),
            registers: registers_in(machine.store()),
        })
    }

    /// Returns the entry of the boundary, which the machine takes now if it is still to come.
    #[cold]
    #[inline(never)]
    pub(crate) fn finish(self, machine: &mut Machine) -> Entry
        ensures { (s : State) → HasBegun s self machine.old → IsTaken s result machine.new }
    {
        let Turn { cycle, ran } = self;
        match ran {
            Some((order, stepped)) => Entry {
                cycle,
                happening: Upcoming::Order(order),
                write: write_shown(stepped),
                registers: registers_in(machine.store()),
            },
            None => next_entry(machine),
        }
    }
}
