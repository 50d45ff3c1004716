//! Records a part of a run: everything that its film shows.
ghost use Rattle.std.specs.Prelude.{◌≡◌, ◌+◌, ◌-◌, ◌≤◌, ℕ, IfOk, None, length, nat_le, take, if◌then◌else◌};
ghost use Rattle.agc_machine.specs.Run.{run_of};
ghost use Rattle.agc_machine.specs.State.{State};
ghost use Rattle.agc_timeline.specs.Frames.{frames_of, last_of};
ghost use Rattle.agc_timeline.specs.KeyEvents.{presses_of};
ghost use Rattle.agc_timeline.specs.Recording.{IsRecordingOf, end_of};
ghost use Rattle.agc_timeline.specs.Run.{HasOpened, HasRecorded, past};

use crate::frame::Frame;
use crate::key_event::presses;
use crate::recorder::Recorder;
use agc_io::{Progress, report_at};
use agc_machine::{Machine, Stepped, Stop};
use agc_panel::Panel;
use agc_script::Event;
use agc_trace::Span;
use std::alloc::{AllocError, Global};

/// The contents of a film of a part of a run.
#[derive(Debug, Drop)]
pub struct Recording {
    /// The first machine cycle of the film.
    pub from: u64,
    /// The panel at the first cycle, unless it is blank, and a frame for each later write that changes what the panel
    /// shows. Before the first frame the panel is blank.
    pub frames: Vec<Frame>,
    /// The key events that the run met up to the end of the film: keys pressed, and PRO pressed or released. Those from
    /// before the film are included, because a key may be held when it begins.
    pub presses: Vec<Event>,
    /// Why the run stopped, or `None` if it continues after the film.
    pub stop: Option<Stop>,
    /// The last machine cycle of the film: that of the stop, if there is one.
    pub cycle: u64,
    /// If the Executive's tables are watched, their lines at the first cycle, then the changed lines of each later
    /// change, each after its cycle.
    pub tables: Option<String>,
}

/// Runs a machine past a part of its run, or to its stop before that, and returns the recording of that part. Fails
/// if memory runs out.
pub fn film<P: Progress>(
    alloc: Global,
    machine: &mut Machine,
    part: Span,
    progress: &mut P,
) -> Result<Recording, AllocError>
    ensures recording { IfOk result (IsRecordingOf part machine.old) }
    ensures machine { IfOk result (λ _. machine.new ≡ end_of part machine.old) }
    ensures tables { IfOk result (λ recording. recording.tables ≡ None) }
{
    let events = machine.events_left().to_vec(alloc)?;
    let panel = open(machine, part.from, progress);
    let mut recorder = Recorder::new(alloc, part.from, panel)?;
    let stop = record(machine, part.last(), &mut recorder, progress)?;
    recording_up_to(
        alloc,
        part,
        events.as_slice(),
        machine,
        recorder,
        stop,
        None,
    )
}

/// Returns the recording of a part, from what a recorder took of it and these tables. Fails if memory runs out.
pub(crate) fn recording_up_to(
    alloc: Global,
    part: Span,
    events: &[Event],
    machine: &Machine,
    recorder: Recorder,
    stop: Option<Stop>,
    tables: Option<String>,
) -> Result<Recording, AllocError>
    ensures recording { IfOk result (λ recording. (start : State) → events.now ≡ start.events
        → machine.now ≡ end_of part start
        → (machine.now.cycle ≤ last_of part → stop ≡ machine.now.stopped)
        → recorder.frames.items ≡ frames_of part (run_of start).writes
        → IsRecordingOf part start recording) }
    ensures tables { IfOk result (λ recording. recording.tables ≡ tables) }
{
    let left = machine.events_left().len();
    Ok(Recording {
        from: part.from,
        frames: recorder.frames,
        presses: presses_met(alloc, events, left)?,
        stop: stop_up_to(stop, machine.cycle(), part.last()),
        cycle: part.last().min(machine.cycle()),
        tables,
    })
}

/// Returns the key events among the events that a run has met, that is, all but the last `left` of them. Fails if
/// memory runs out.
fn presses_met(alloc: Global, events: &[Event], left: usize) -> Result<Vec<Event>, AllocError>
    ensures { IfOk result (λ presses. presses.items
        ≡ presses_of (take (length events.now - left) events.now)) }
{
    let met = events.len().saturating_sub(left);
    presses(alloc, &events[..met])
}

/// Returns a stop at the cycle `at`, unless that is past `cycle`.
fn stop_up_to(stop: Option<Stop>, at: u64, cycle: u64) -> Option<Stop>
    ensures { result ≡ (if nat_le at cycle then stop else None) }
{
    if at <= cycle { stop } else { None }
}

/// Runs a machine past a cycle, or to its stop before that, and returns the panel then.
fn open<P: Progress>(machine: &mut Machine, cycle: u64, progress: &mut P) -> Panel
    ensures opened { HasOpened cycle machine.old machine.new result }
    ensures machine { (to : ℕ) → cycle ≤ to → past to machine.new ≡ past to machine.old }
{
    let mut panel = Panel::new();
    let mut mark = 0;
    while machine.cycle() <= cycle {
        match machine.next_write_before(next_stage(mark, cycle)) {
            Stepped::Quiet => mark = report_at(mark, machine.cycle(), progress),
            Stepped::Wrote(write) => panel.take(&write),
            Stepped::Stopped(_) => return panel,
        }
    }
    panel
}

/// Runs a machine past a cycle, or to its stop before that, and records its writes.
fn record<P: Progress>(
    machine: &mut Machine,
    cycle: u64,
    recorder: &mut Recorder,
    progress: &mut P,
) -> Result<Option<Stop>, AllocError>
    ensures recorded { IfOk result
        (λ _. HasRecorded cycle machine.old machine.new recorder.old recorder.new) }
    ensures machine { IfOk result (λ _. machine.new ≡ past cycle machine.old) }
    ensures stop { IfOk result
        (λ stop. machine.new.cycle ≤ cycle → stop ≡ machine.new.stopped) }
{
    let mut mark = 0;
    while machine.cycle() <= cycle {
        match machine.next_write_before(next_stage(mark, cycle)) {
            Stepped::Quiet => mark = report_at(mark, machine.cycle(), progress),
            Stepped::Wrote(write) => recorder.take(&write)?,
            Stepped::Stopped(stop) => return Ok(Some(stop)),
        }
    }
    Ok(None)
}

/// Returns the cycle up to which a run past `cycle` may go in one step: the mark, or just past `cycle`.
fn next_stage(mark: u64, cycle: u64) -> u64
    ensures { result ≤ cycle + 1 }
{
    if mark <= cycle {
        mark
    } else {
        cycle.saturating_add(1)
    }
}
