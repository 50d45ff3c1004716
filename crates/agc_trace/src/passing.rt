//! Passes over boundaries that are known in advance to have no line, without building entries, which would go through
//! memory.
ghost use Rattle.std.specs.Prelude.{◌≡◌, ◌<◌, ◌≤◌, map};
ghost use Rattle.agc_trace.specs.Change.{named_cells, seen_in};
ghost use Rattle.agc_trace.specs.Passing.{is_passed};
ghost use Rattle.agc_trace.specs.Selection.{selected, watch_for};
ghost use Rattle.agc_trace.specs.Service.{service_at_stop};
ghost use Rattle.agc_trace.specs.Trace.{entries_left, is_stop, trace_of};

use crate::selection::Selection;
use crate::service::{Service, service_past};
use crate::touched::is_away;
use agc_io::{Progress, report_at};
use agc_machine::{Machine, Upcoming};

/// Steps over boundaries as long as it is known in advance that they have no line. Returns the interrupt service in
/// progress then, given the one before. The loop is a function of its own, so that its state stays in registers.
#[inline(never)]
pub(crate) fn pass_unrequested<P: Progress>(
    machine: &mut Machine,
    selection: &Selection,
    before: Option<Service>,
    mark: &mut u64,
    progress: &mut P,
) -> Option<Service>
    ensures entries { selected selection.now (watch_for selection.now machine.new)
        ≡ selected selection.now (watch_for selection.now machine.old) }
    ensures service { service_at_stop selection.now result (trace_of machine.new)
        ≡ service_at_stop selection.now before (trace_of machine.old) }
    ensures seen { map (seen_in machine.new.processor.store) (named_cells selection.now.cells.items)
        ≡ map (seen_in machine.old.processor.store) (named_cells selection.now.cells.items) }
    ensures fewer { entries_left machine.new ≤ entries_left machine.old }
{
    let mut service = before;
    while machine.cycle() <= selection.to {
        let cycle = machine.cycle();
        let bank = machine.store().erasable_bank();
        let happening = machine.upcoming();
        if !is_passed(selection, bank, &happening) {
            return service;
        }
        machine.step(None);
        service = service_past(selection, service, cycle, &happening);
        *mark = report_at(*mark, cycle, progress);
    }
    service
}

/// Returns whether the boundary has no line, judged by what happens and the bank in EB: it changes no watched cell or,
/// if no cells are watched, it is not the stop and does not meet the conditions on places, mnemonics and channels.
#[inline]
fn is_passed(selection: &Selection, bank: u8, happening: &Upcoming) -> bool
    requires { bank < 8 }
    ensures { result ≡ is_passed selection.now bank happening.now }
{
    if selection.cells.is_empty() {
        !is_stop(happening) && !selection.is_met_by(happening)
    } else {
        is_away(selection.cells.as_slice(), bank, *happening)
    }
}

/// Returns whether the boundary is the stop.
fn is_stop(happening: &Upcoming) -> bool
    ensures { result ≡ is_stop happening.now }
{
    matches!(happening, Upcoming::Stop(_))
}
