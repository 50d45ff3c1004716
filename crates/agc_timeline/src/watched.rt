//! Records a part of a run with the Executive's tables beside the panel.
ghost use Rattle.std.specs.Prelude.{◌≡◌, ◌+◌, ◌≤◌, ◌++◌, ℕ, IfOk, None};
ghost use Rattle.agc_timeline.specs.Recording.{IsRecordingOf};
ghost use Rattle.agc_timeline.specs.Watched.{HasLines, span_of};
ghost use Rattle.agc_timeline.specs.Run.{HasOpened, HasRecorded, past};
ghost use Rattle.agc_timeline.specs.Changes.{shown_after, sights_in};
ghost use Rattle.agc_timeline.specs.Film.{after_first, film_text, until};
ghost use Rattle.agc_timeline.specs.Lines.{reported_of};
ghost use Rattle.agc_timeline.specs.States.{states_of};

use crate::recorder::Recorder;
use crate::recording::{Recording, recording_up_to};
use crate::table_film::{InitialTables, TablesFilm};
use agc_io::{Progress, report_at};
use agc_machine::{Machine, Stepped, Stop};
use agc_panel::{CheckedSpec, Panel};
use agc_trace::Span;
use std::alloc::{AllocError, Global};

/// Runs a machine past a part of its run, or to its stop before that, and returns the recording of that part, with
/// the tables at the places in `spec`. Fails if memory runs out.
pub fn film_watched<P: Progress>(
    alloc: Global,
    machine: &mut Machine,
    part: Span,
    spec: &CheckedSpec,
    progress: &mut P,
) -> Result<Recording, AllocError>
    ensures recording { IfOk result (IsRecordingOf part machine.old) }
    ensures tables { IfOk result (λ recording. HasLines recording.tables
        (film_text (span_of part) spec.now machine.old)) }
{
    let events = machine.events_left().to_vec(alloc)?;
    let span = Span {
        from: part.from,
        to: part.last(),
    };
    let mut opening = InitialTables::nothing();
    let panel = open(machine, part.from, spec, &mut opening, progress);
    let mut recorder = Recorder::new(alloc, part.from, panel)?;
    let mut tables = TablesFilm::begin(alloc, part.from, opening)?;
    let stop = record(
        alloc,
        machine,
        span,
        spec,
        &mut recorder,
        &mut tables,
        progress,
    )?;
    recording_up_to(
        alloc,
        part,
        events.as_slice(),
        machine,
        recorder,
        stop,
        Some(tables.into_text()),
    )
}

/// Runs a machine past a cycle, or to its stop before that, reads the tables of each state on the way, and returns
/// the panel then.
fn open<P: Progress>(
    machine: &mut Machine,
    cycle: u64,
    spec: &CheckedSpec,
    opening: &mut InitialTables,
    progress: &mut P,
) -> Panel
    ensures opened { HasOpened cycle machine.old machine.new result }
    ensures machine { (to : ℕ) → cycle ≤ to → past to machine.new ≡ past to machine.old }
    ensures tables { opening.new ≡ shown_after opening.old
        (sights_in (until cycle) spec.now (states_of machine.old)) }
    ensures later { (to : ℕ)
        → sights_in (record { from = cycle + 1; to = to }) spec.now (states_of machine.new)
        ≡ sights_in (record { from = cycle + 1; to = to }) spec.now (states_of machine.old) }
{
    let mut panel = Panel::new();
    let mut mark = 0;
    while machine.cycle() <= cycle {
        opening.look(machine, spec, cycle);
        match machine.next_write_before(0) {
            Stepped::Quiet => mark = report_at(mark, machine.cycle(), progress),
            Stepped::Wrote(write) => panel.take(&write),
            Stepped::Stopped(_) => {
                opening.look(machine, spec, cycle);
                return panel;
            }
        }
    }
    panel
}

/// Runs a machine past a span, or to its stop before that, and records its writes and the tables of each state.
fn record<P: Progress>(
    alloc: Global,
    machine: &mut Machine,
    span: Span,
    spec: &CheckedSpec,
    recorder: &mut Recorder,
    tables: &mut TablesFilm,
    progress: &mut P,
) -> Result<Option<Stop>, AllocError>
    ensures recorded { IfOk result
        (λ _. HasRecorded span.to machine.old machine.new recorder.old recorder.new) }
    ensures machine { IfOk result (λ _. machine.new ≡ past span.to machine.old) }
    ensures stop { IfOk result
        (λ stop. machine.new.cycle ≤ span.to → stop ≡ machine.new.stopped) }
    ensures tables { IfOk result (λ _. tables.new.text ≡ tables.old.text
        ++ reported_of None tables.old.shown
        (sights_in (after_first span) spec.now (states_of machine.old))) }
{
    let mut mark = 0;
    while machine.cycle() <= span.to {
        tables.look(alloc, machine, spec, span)?;
        match machine.next_write_before(0) {
            Stepped::Quiet => mark = report_at(mark, machine.cycle(), progress),
            Stepped::Wrote(write) => recorder.take(&write)?,
            Stepped::Stopped(stop) => {
                tables.look(alloc, machine, spec, span)?;
                return Ok(Some(stop));
            }
        }
    }
    Ok(None)
}
