//! Runs a machine from write to write, and reports progress on the way.
ghost use Rattle.std.specs.Prelude.{◌≡◌};
ghost use Rattle.agc_machine.specs.Laws.{HasNextChannel};
ghost use Rattle.agc_machine.specs.Run.{next_of};

use agc_io::{Progress, next_mark};
use agc_machine::{Machine, Next, Stepped};

/// Runs to the next channel write, or to the stop if that comes first. Reports progress if no write comes for a long
/// time.
#[inline(always)]
pub fn next_write<P: Progress>(machine: &mut Machine, progress: &mut P) -> Next
    ensures next { (machine.new, result) ≡ next_of machine.old }
    ensures channel { HasNextChannel result }
{
    loop {
        let mark = next_mark(machine.cycle());
        match machine.next_write_before(mark) {
            Stepped::Wrote(write) => return Next::Wrote(write),
            Stepped::Stopped(stop) => return Next::Stopped(stop),
            Stepped::Quiet => progress.come_to(machine.cycle()),
        }
    }
}
