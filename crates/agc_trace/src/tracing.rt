//! Writes the trace of a run line by line, so that memory use does not grow with the run.
ghost use Rattle.std.specs.Prelude.{◌≡◌, [], ◌∷◌, IfErr, IfOk, OnErr, OnOk};
ghost use Rattle.std.specs.Io.KnownBytes.{Appends, Keeps};
ghost use Rattle.agc_io.specs.Output.{IsBegun};
ghost use Rattle.agc_trace.specs.Entry.{FitsLine};
ghost use Rattle.agc_trace.specs.OperandLine.{watched_line};
ghost use Rattle.agc_trace.specs.Selection.{last_of, lines_of, selected, selected_lines, watch_for};
ghost use Rattle.agc_trace.specs.Service.{service_left};
ghost use Rattle.agc_trace.specs.Trace.{trace_of};

use crate::change::{Change, next_watched, watch_cells};
use crate::last::write_last;
use crate::line_form::LineForm;
use crate::operand_line::push_watched_line;
use crate::passing::pass_unrequested;
use crate::recorded::Recorded;
use crate::selection::Selection;
use crate::service::{Service, service_after};
use agc_io::{Progress, report_at, write_in_full};
use agc_machine::{Machine, Stepped};
use std::alloc::{AllocError, Global};
use std::io::Write;
use thiserror::Error;

/// Why a trace was cut off: no line follows the fault.
#[derive(Clone, Copy, Debug, PartialEq, Eq, Error)]
pub enum TraceFault {
    #[error("out of memory")]
    Memory,
    #[error("the trace could not be written")]
    Write,
}

impl From<AllocError> for TraceFault {
    ghost use Rattle.std.specs.Prelude.{◌≡◌};
    ghost use Rattle.agc_trace.specs.declared.tracing.TraceFault.TheVariants.{Memory};

    ghost from_gives = { λ _ fault. fault ≡ Memory };

    fn from(_error: AllocError) -> TraceFault {
        TraceFault::Memory
    }
}

/// Runs a machine, and writes the line of each selected boundary, in a form. Runs to the stop,
/// or past the last selected cycle, because no boundary is selected after it. At the stop, returns the interrupt
/// service that began in the range of cycles and that no RESUME has ended.
pub fn trace<W: Write, P: Progress>(
    alloc: Global,
    machine: &mut Machine,
    selection: &Selection,
    form: &LineForm,
    out: &mut W,
    progress: &mut P,
) -> Result<Option<Service>, TraceFault>
    ensures lines { OnOk result (Appends (W.contents out.old) (W.contents out.new)
        (selected_lines form.now selection.now (watch_for selection.now machine.old))) }
    ensures service { IfOk result (λ left. left ≡ service_left selection.now (trace_of machine.old)) }
    ensures cut { OnErr result (IsBegun (W.contents out.old) (W.contents out.new)
        (selected_lines form.now selection.now (watch_for selection.now machine.old))) }
{
    go_to_first(machine, selection, progress);
    match selection.last {
        None => write_lines(alloc, machine, selection, form, out, progress),
        Some(most) => write_last(alloc, machine, selection, form, most, out, progress),
    }
}

/// Runs a machine to the first selected cycle, or to its stop if that comes first.
fn go_to_first<P: Progress>(machine: &mut Machine, selection: &Selection, progress: &mut P)
    ensures entries { selected selection.now (watch_for selection.now machine.new)
        ≡ selected selection.now (watch_for selection.now machine.old) }
    ensures service { service_left selection.now (trace_of machine.new)
        ≡ service_left selection.now (trace_of machine.old) }
{
    let mut mark = 0;
    while machine.cycle() < selection.from {
        mark = report_at(mark, machine.cycle(), progress);
        match machine.next_write_before(selection.from.min(mark)) {
            Stepped::Quiet | Stepped::Wrote(_) => {}
            Stepped::Stopped(_) => return,
        }
    }
}

/// Runs a machine to its stop, or past the last selected cycle, and writes the lines.
fn write_lines<W: Write, P: Progress>(
    alloc: Global,
    machine: &mut Machine,
    selection: &Selection,
    form: &LineForm,
    out: &mut W,
    progress: &mut P,
) -> Result<Option<Service>, TraceFault>
    ensures lines { OnOk result (Appends (W.contents out.old) (W.contents out.new)
        (lines_of form.now (selected selection.now (watch_for selection.now machine.old)))) }
    ensures service { IfOk result (λ left. left ≡ service_left selection.now (trace_of machine.old)) }
    ensures cut { OnErr result (IsBegun (W.contents out.old) (W.contents out.new)
        (lines_of form.now (selected selection.now (watch_for selection.now machine.old)))) }
{
    let mut seen = watch_cells(alloc, selection.cells.as_slice(), machine.store())?;
    let mut changes = Vec::new(alloc);
    let mut mark = 0;
    let mut service = None;
    while machine.cycle() <= selection.to {
        let recorded = next_watched(alloc, machine, selection, &mut seen, &mut changes)?;
        write_selected(alloc, selection, form, &recorded, changes.as_slice(), out)?;
        if recorded.entry.is_stop() {
            return Ok(service);
        }
        service = service_after(selection, service, &recorded.entry);
        mark = report_at(mark, recorded.entry.cycle, progress);
        service = pass_unrequested(machine, selection, service, &mut mark, progress);
    }
    Ok(None)
}

/// Writes the line of an entry, if it is selected.
#[tactic(auto, unfolding(crate::specs::Selection::lines_of, crate::specs::Selection::selected))]
fn write_selected<W: Write>(
    alloc: Global,
    selection: &Selection,
    form: &LineForm,
    recorded: &Recorded,
    changes: &[Change],
    out: &mut W,
) -> Result<(), TraceFault>
    requires { FitsLine recorded.now.entry }
    ensures line { OnOk result (Appends (W.contents out.old) (W.contents out.new) (lines_of form.now
        (selected selection.now (record { entry = recorded.now.entry; operand = recorded.now.operand; changes = changes.now } ∷ [])))) }
    ensures cut { OnErr result (IsBegun (W.contents out.old) (W.contents out.new) (lines_of form.now
        (selected selection.now (record { entry = recorded.now.entry; operand = recorded.now.operand; changes = changes.now } ∷ [])))) }
    ensures kept { IfErr result (λ why. why ≡ TraceFault.Memory
        → Keeps (W.contents out.old) (W.contents out.new)) }
{
    if selection.takes(&recorded.entry, changes) {
        write_line(alloc, form, recorded, changes, out)
    } else {
        Ok(())
    }
}

/// Writes the line of an entry.
pub(crate) fn write_line<W: Write>(
    alloc: Global,
    form: &LineForm,
    recorded: &Recorded,
    changes: &[Change],
    out: &mut W,
) -> Result<(), TraceFault>
    requires { FitsLine recorded.now.entry }
    ensures line { OnOk result (Appends (W.contents out.old) (W.contents out.new)
        (watched_line form.now (record { entry = recorded.now.entry; operand = recorded.now.operand; changes = changes.now }))) }
    ensures cut { OnErr result (IsBegun (W.contents out.old) (W.contents out.new)
        (watched_line form.now (record { entry = recorded.now.entry; operand = recorded.now.operand; changes = changes.now }))) }
    ensures kept { IfErr result (λ why. why ≡ TraceFault.Memory
        → Keeps (W.contents out.old) (W.contents out.new)) }
{
    let mut line = String::new(alloc);
    if push_watched_line(&mut line, form, recorded, changes).is_err() {
        return Err(TraceFault::Memory);
    }
    match write_in_full(out, line.as_bytes()) {
        Ok(()) => Ok(()),
        Err(_) => Err(TraceFault::Write),
    }
}
