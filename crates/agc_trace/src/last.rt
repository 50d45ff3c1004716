//! Writes the last lines of a trace: keeps a number of entries, and writes them when the run has ended.
ghost use Rattle.std.specs.Prelude.{◌≡◌, ◌≤◌, [], ◌∷◌, ◌++◌, All, IfErr, IfOk, OnErr, OnOk, if◌then◌else◌, length};
ghost use Rattle.std.specs.Io.KnownBytes.{Appends};
ghost use Rattle.agc_io.specs.Output.{IsBegun};
ghost use Rattle.agc_trace.specs.Entry.{FitsLine};
ghost use Rattle.agc_trace.specs.Selection.{last_of, lines_of, selected, watch_for};
ghost use Rattle.agc_trace.specs.Service.{service_left};
ghost use Rattle.agc_trace.specs.Trace.{trace_of};
ghost use Rattle.agc_trace.specs.Watch.{FitsWatched};

use crate::change::{Change, next_watched, watch_cells};
use crate::line_form::LineForm;
use crate::passing::pass_unrequested;
use crate::recorded::Recorded;
use crate::selection::Selection;
use crate::service::{Service, service_after};
use crate::tracing::{TraceFault, write_line};
use agc_io::{Progress, report_at};
use agc_machine::Machine;
use std::alloc::Global;
use std::collections::VecDeque;
use std::io::Write;
use std::marker::Model;

/// A kept entry, with what its boundary changed in the watched cells.
#[derive(Drop)]
struct Kept {
    recorded: Recorded,
    changes: Vec<Change>,
}

impl Model for Kept {
    ghost use Rattle.agc_trace.specs.Watch.{Watched};

    ghost Value = { Watched };

    ghost view = { λ k. record { entry = k.recorded.entry; operand = k.recorded.operand; changes = k.changes.items } };
}

/// Runs a machine to its stop, or past the last selected cycle, and writes the lines of the last
/// `most` selected entries. No more entries than that are kept in memory.
pub(crate) fn write_last<W: Write, P: Progress>(
    alloc: Global,
    machine: &mut Machine,
    selection: &Selection,
    form: &LineForm,
    most: u64,
    out: &mut W,
    progress: &mut P,
) -> Result<Option<Service>, TraceFault>
    ensures lines { OnOk result (Appends (W.contents out.old) (W.contents out.new)
        (lines_of form.now (last_of most (selected selection.now (watch_for selection.now machine.old))))) }
    ensures service { IfOk result (λ left. left ≡ service_left selection.now (trace_of machine.old)) }
    ensures cut { OnErr result (IsBegun (W.contents out.old) (W.contents out.new)
        (lines_of form.now (last_of most (selected selection.now (watch_for selection.now machine.old))))) }
{
    let mut last = VecDeque::new(alloc);
    let service = keep_last(alloc, machine, selection, most, &mut last, progress)?;
    write_kept(alloc, form, &mut last, out)?;
    Ok(service)
}

/// Runs a machine to its stop, or past the last selected cycle, and keeps the last selected entries.
fn keep_last<P: Progress>(
    alloc: Global,
    machine: &mut Machine,
    selection: &Selection,
    most: u64,
    last: &mut VecDeque<Kept>,
    progress: &mut P,
) -> Result<Option<Service>, TraceFault>
    requires { last.old.items ≡ [] }
    ensures entries { OnOk result
        (last.new.items ≡ last_of most (selected selection.now (watch_for selection.now machine.old))) }
    ensures fits { OnOk result (All FitsWatched last.new.items) }
    ensures service { IfOk result (λ left. left ≡ service_left selection.now (trace_of machine.old)) }
    ensures fault { IfErr result (λ why. why ≡ TraceFault.Memory) }
{
    let mut seen = watch_cells(alloc, selection.cells.as_slice(), machine.store())?;
    let mut changes = Vec::new(alloc);
    let mut mark = 0;
    let mut service = None;
    while machine.cycle() <= selection.to {
        let recorded = next_watched(alloc, machine, selection, &mut seen, &mut changes)?;
        keep_selected(alloc, selection, last, most, &recorded, changes.as_slice())?;
        if recorded.entry.is_stop() {
            return Ok(service);
        }
        service = service_after(selection, service, &recorded.entry);
        mark = report_at(mark, recorded.entry.cycle, progress);
        service = pass_unrequested(machine, selection, service, &mut mark, progress);
    }
    Ok(None)
}

/// Keeps an entry with its changes as the last one, if it is selected.
#[tactic(auto, unfolding(crate::specs::Selection::selected))]
fn keep_selected(
    alloc: Global,
    selection: &Selection,
    last: &mut VecDeque<Kept>,
    most: u64,
    recorded: &Recorded,
    changes: &[Change],
) -> Result<(), TraceFault>
    requires bound { length last.old.items ≤ most }
    requires fits { All FitsWatched last.old.items }
    requires digits { FitsLine recorded.now.entry }
    ensures kept { OnOk result (last.new.items ≡ last_of most (last.old.items
        ++ selected selection.now (record { entry = recorded.now.entry; operand = recorded.now.operand; changes = changes.now } ∷ []))) }
    ensures fits { OnOk result (All FitsWatched last.new.items) }
    ensures fault { IfErr result (λ why. why ≡ TraceFault.Memory) }
{
    if !selection.takes(&recorded.entry, changes) {
        return Ok(());
    }
    let changes = Vec::from_slice(alloc, changes)?;
    let recorded = *recorded;
    push_last(last, most, Kept { recorded, changes })
}

/// Appends a value, and drops the first one if there are more than `most`.
fn push_last<T: Drop>(last: &mut VecDeque<T>, most: u64, value: T) -> Result<(), TraceFault>
    requires { length last.old.items ≤ most }
    ensures kept { OnOk result (last.new.items ≡ last_of most (last.old.items ++ value ∷ [])) }
    ensures fault { IfErr result (λ why. why ≡ TraceFault.Memory) }
{
    if last.push_back(value).is_err() {
        return Err(TraceFault::Memory);
    }
    if last.len() as u64 > most {
        let _first = last.pop_front();
    }
    Ok(())
}

/// Writes the lines of the kept entries.
fn write_kept<W: Write>(
    alloc: Global,
    form: &LineForm,
    last: &mut VecDeque<Kept>,
    out: &mut W,
) -> Result<(), TraceFault>
    requires { All FitsWatched last.old.items }
    ensures lines { OnOk result
        (Appends (W.contents out.old) (W.contents out.new) (lines_of form.now last.old.items)) }
    ensures cut { OnErr result (IsBegun (W.contents out.old) (W.contents out.new)
        (lines_of form.now last.old.items)) }
{
    while let Some(kept) = last.pop_front() {
        write_line(alloc, form, &kept.recorded, kept.changes.as_slice(), out)?;
    }
    Ok(())
}
