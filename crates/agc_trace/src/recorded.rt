//! A boundary of a run with the operand of its order.
ghost use Rattle.std.specs.Prelude.{◌≡◌, None};
ghost use Rattle.agc_machine.specs.Boundary.{boundary};
ghost use Rattle.agc_trace.specs.Entry.{FitsLine, entry_of};
ghost use Rattle.agc_trace.specs.Operand.{operand_of};

use crate::entry::{Entry, next_entry};
use crate::operand::{Operand, addressed_by, operand_again, operand_in};
use agc_machine::Machine;

/// A boundary: its entry, and the operand of the order that ran.
#[derive(Clone, Copy, Debug, PartialEq, Eq)]
pub struct Recorded {
    pub entry: Entry,
    pub operand: Operand,
}

/// Steps a machine over one boundary, and returns its entry and its operand. The place of the operand is that of the
/// banks before the boundary.
#[tactic(auto, using(crate::proofs::Operands::read_before_and_after))]
pub fn next_recorded(machine: &mut Machine) -> Recorded
    ensures entry { result.entry ≡ entry_of machine.old }
    ensures operand { result.operand ≡ operand_of machine.old }
    ensures after { machine.new ≡ (boundary None machine.old).0 }
    ensures fits { FitsLine result.entry }
{
    let addressed = addressed_by(machine.upcoming(), machine.store());
    let before = operand_in(machine, addressed);
    let entry = next_entry(machine);
    Recorded {
        entry,
        operand: operand_again(machine, before),
    }
}
