//! One boundary of a run as a value: what happened, and the channel write and the registers after it.
ghost use Rattle.std.specs.Prelude.{◌≡◌, ◌<◌, None};
ghost use Rattle.agc_machine.specs.Boundary.{boundary};
ghost use Rattle.agc_trace.specs.Entry.{FitsLine, entry_of, registers_of, write_shown};

use agc_machine::{Machine, Stepped, Upcoming};
use agc_store::place::{FB, FIXED_BANK_SIZE};
use agc_store::{Addr, Store};
use agc_word::{ChannelWrite, Narrow, Wide};

/// The registers between two boundaries.
#[derive(Clone, Copy, Debug, PartialEq, Eq)]
pub struct Registers {
    /// The accumulator, all sixteen bits.
    pub a: Wide,
    pub l: Narrow,
    /// The return address, all sixteen bits.
    pub q: Wide,
    /// The address of the next order to fetch: one past that of the order in hand.
    pub z: Addr,
    /// The bank in EB, 0 to 7.
    pub erasable_bank: u8,
    /// The bank in FB, 0 to 37 octal, whatever the superbank is.
    pub fixed_bank: u8,
}

/// One boundary of a run.
#[derive(Clone, Copy, Debug, PartialEq, Eq)]
pub struct Entry {
    /// The machine cycle at which it began.
    pub cycle: u64,
    /// What happened.
    pub happening: Upcoming,
    /// The channel write that it showed.
    pub write: Option<ChannelWrite>,
    /// The registers after it.
    pub registers: Registers,
}

impl Entry {
    ghost use Rattle.std.specs.Prelude.{◌≡◌};
    ghost use Rattle.agc_trace.specs.Trace.{is_stop};

    /// Returns whether the boundary is the stop.
    pub fn is_stop(&self) -> bool
        ensures { result ≡ is_stop self.now.happening }
    {
        matches!(self.happening, Upcoming::Stop(_))
    }
}

/// Steps a machine over one boundary, and returns its entry. It is compiled into its callers, and takes any other entry
/// field by field, so that the entry of an order stays in registers.
#[inline(always)]
#[tactic(auto, unfolding(crate::specs::Entry::entry_of))]
pub fn next_entry(machine: &mut Machine) -> Entry
    ensures entry { result ≡ entry_of machine.old }
    ensures after { machine.new ≡ (boundary None machine.old).0 }
    ensures fits { FitsLine result }
{
    let cycle = machine.cycle();
    match machine.run_order() {
        Some((order, stepped)) => Entry {
            cycle,
            happening: Upcoming::Order(order),
            write: write_shown(stepped),
            registers: registers_in(machine.store()),
        },
        None => {
            let other = next_entry_by_cases(machine);
            Entry {
                cycle: other.cycle,
                happening: other.happening,
                write: other.write,
                registers: other.registers,
            }
        }
    }
}

/// Returns the same, whatever comes next.
#[cold]
#[inline(never)]
#[tactic(auto, unfolding(crate::specs::Entry::entry_of))]
fn next_entry_by_cases(machine: &mut Machine) -> Entry
    ensures entry { result ≡ entry_of machine.old }
    ensures after { machine.new ≡ (boundary None machine.old).0 }
    ensures fits { FitsLine result }
{
    let cycle = machine.cycle();
    let happening = machine.upcoming();
    let stepped = machine.step(None);
    Entry {
        cycle,
        happening,
        write: write_shown(stepped),
        registers: registers_in(machine.store()),
    }
}

/// Returns the write that a boundary showed.
#[inline(always)]
pub fn write_shown(stepped: Stepped) -> Option<ChannelWrite>
    ensures { result ≡ write_shown stepped }
{
    match stepped {
        Stepped::Wrote(write) => Some(write),
        Stepped::Quiet | Stepped::Stopped(_) => None,
    }
}

/// Returns the registers in a memory.
#[inline(always)]
#[tactic(auto, unfolding(crate::specs::Entry::registers_of))]
pub fn registers_in(store: &Store) -> Registers
    ensures registers { result ≡ registers_of store.now }
    ensures erasable { result.erasable_bank < 0o10 }
    ensures fixed { result.fixed_bank < 0o100 }
{
    Registers {
        a: store.a(),
        l: store.l(),
        q: store.q(),
        z: store.z(),
        erasable_bank: store.erasable_bank(),
        fixed_bank: (store.cell(0, FB).bits() / FIXED_BANK_SIZE) as u8,
    }
}
