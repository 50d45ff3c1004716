//! Writes the tables of a run line by line as they change, so that memory does not grow with the run.
ghost use Rattle.std.specs.Prelude.{◌≡◌, [], ◌∷◌, IfErr, OnErr, OnOk};
ghost use Rattle.std.specs.Io.KnownBytes.{Appends, Keeps};
ghost use Rattle.agc_io.specs.Output.{IsBegun};
ghost use Rattle.agc_panel.specs.declared.watch_spec.WatchSpec.{WatchSpec};
ghost use Rattle.agc_trace.specs.declared.tracing.TraceFault.TheVariants as fault;
ghost use Rattle.agc_timeline.specs.Changes.{shown_after, sight_of, sights_in};
ghost use Rattle.agc_timeline.specs.Lines.{change_text, jobs_text, reported_of};
ghost use Rattle.agc_timeline.specs.States.{states_of};

use crate::shown::LastTables;
use agc_io::{Progress, report_at, write_in_full};
use agc_machine::{Machine, Stepped};
use agc_panel::{CheckedSpec, Tables};
use agc_symbols::SymbolTable;
use agc_trace::{Span, TraceFault};
use std::alloc::Global;
use std::io::Write;

/// Runs a machine to its stop, or past a span of cycles, and writes the tables at the places in `spec`: all their
/// lines in the first state in the span, and after each boundary the lines that it changed, each after its cycle. With names
/// a name of its place follows a line.
pub fn write_changes<W: Write, P: Progress>(
    alloc: Global,
    names: &Option<SymbolTable>,
    machine: &mut Machine,
    span: Span,
    spec: &CheckedSpec,
    out: &mut W,
    progress: &mut P,
) -> Result<(), TraceFault>
    ensures lines { OnOk result (Appends (W.contents out.old) (W.contents out.new)
        (jobs_text names.now span spec.now machine.old)) }
    ensures cut { OnErr result (IsBegun (W.contents out.old) (W.contents out.new)
        (jobs_text names.now span spec.now machine.old)) }
{
    go_to_first(machine, span, progress);
    write_in_span(alloc, names, machine, span, spec, out, progress)
}

/// Runs a machine to the first cycle of a span, or to its stop if that comes first.
pub fn go_to_first<P: Progress>(machine: &mut Machine, span: Span, progress: &mut P)
    ensures { (spec : WatchSpec) → sights_in span spec (states_of machine.new)
        ≡ sights_in span spec (states_of machine.old) }
{
    let mut mark = 0;
    while machine.cycle() < span.from {
        mark = report_at(mark, machine.cycle(), progress);
        match machine.next_write_before(span.from.min(mark)) {
            Stepped::Quiet | Stepped::Wrote(_) => {}
            Stepped::Stopped(_) => return,
        }
    }
}

/// Runs a machine to its stop, or past a span, and writes the lines.
fn write_in_span<W: Write, P: Progress>(
    alloc: Global,
    names: &Option<SymbolTable>,
    machine: &mut Machine,
    span: Span,
    spec: &CheckedSpec,
    out: &mut W,
    progress: &mut P,
) -> Result<(), TraceFault>
    ensures lines { OnOk result (Appends (W.contents out.old) (W.contents out.new)
        (jobs_text names.now span spec.now machine.old)) }
    ensures cut { OnErr result (IsBegun (W.contents out.old) (W.contents out.new)
        (jobs_text names.now span spec.now machine.old)) }
{
    let mut mark = 0;
    let mut shown = LastTables::nothing(alloc);
    while machine.cycle() <= span.to {
        write_state(alloc, names, machine, span, spec, &mut shown, out)?;
        if machine.stopped().is_some() {
            return Ok(());
        }
        machine.step(None);
        mark = report_at(mark, machine.cycle(), progress);
    }
    Ok(())
}

/// Writes the lines of the tables that changed since they were shown, if the state is in a span.
fn write_state<W: Write>(
    alloc: Global,
    names: &Option<SymbolTable>,
    machine: &Machine,
    span: Span,
    spec: &CheckedSpec,
    shown: &mut LastTables,
    out: &mut W,
) -> Result<(), TraceFault>
    ensures lines { OnOk result (Appends (W.contents out.old) (W.contents out.new)
        (reported_of names.now shown.old (sights_in span spec.now (machine.now ∷ [])))) }
    ensures shown { OnOk result
        (shown.new ≡ shown_after shown.old (sights_in span spec.now (machine.now ∷ []))) }
    ensures cut { OnErr result (IsBegun (W.contents out.old) (W.contents out.new)
        (reported_of names.now shown.old (sights_in span spec.now (machine.now ∷ [])))) }
    ensures kept { IfErr result (λ why. why ≡ fault.Memory
        → Keeps (W.contents out.old) (W.contents out.new)) }
{
    if span.has(machine.cycle()) {
        write_sight(alloc, names, machine, spec, shown, out)
    } else {
        Ok(())
    }
}

/// Writes the lines of the tables that changed since they were shown.
fn write_sight<W: Write>(
    alloc: Global,
    names: &Option<SymbolTable>,
    machine: &Machine,
    spec: &CheckedSpec,
    shown: &mut LastTables,
    out: &mut W,
) -> Result<(), TraceFault>
    ensures lines { OnOk result (Appends (W.contents out.old) (W.contents out.new)
        (change_text names.now shown.old (sight_of spec.now machine.now))) }
    ensures shown { OnOk result (shown.new ≡ (sight_of spec.now machine.now).text) }
    ensures cut { OnErr result (IsBegun (W.contents out.old) (W.contents out.new)
        (change_text names.now shown.old (sight_of spec.now machine.now))) }
    ensures kept { IfErr result (λ why. why ≡ fault.Memory
        → Keeps (W.contents out.old) (W.contents out.new)) }
{
    let tables = Tables::read(machine.store(), spec);
    if shown.is_of(&tables) {
        return Ok(());
    }
    match shown.take(alloc, names, machine.cycle(), tables) {
        Ok(lines) => write_lines(lines.as_str(), out),
        Err(_) => Err(TraceFault::Memory),
    }
}

/// Writes lines.
fn write_lines<W: Write>(lines: &str, out: &mut W) -> Result<(), TraceFault>
    ensures lines { OnOk result (Appends (W.contents out.old) (W.contents out.new) lines.now) }
    ensures cut { OnErr result (IsBegun (W.contents out.old) (W.contents out.new) lines.now) }
    ensures fault { IfErr result (λ why. why ≡ fault.Write) }
{
    match write_in_full(out, lines.as_bytes()) {
        Ok(()) => Ok(()),
        Err(_) => Err(TraceFault::Write),
    }
}
