//! Tests the progress that a gate receives during a run.
ghost use Rattle.std.specs.Prelude.{◌≡◌, false};

use super::super::{Host, machine_of, script_of};
use agc_machine::Machine;
use agc_pipe::{run_live, run_shown};
use agc_run::ProgressGate;
use agc_test_support::RecordingProgress;
use std::process::Abort;

const LIMIT: u64 = 2_500_000;

/// Returns whether the cycle reported at this place is among the first 1,024 after as many millions.
fn is_soon_after_millions(reported: &RecordingProgress, place: usize) -> bool {
    reported.cycles().get(place).is_some_and(|cycle| cycle / 1_000_000 == place as u64
        && cycle % 1_000_000 < 1_024)
}

/// Returns TCF 4000 for ever, at its start.
fn endless(rt: &(impl AllocGlobal + Abort)) -> Machine
    ensures { result.begun ≡ false }
{
    machine_of(rt, "4000 14000 TCF 4000", script_of(rt, b""), LIMIT)
}

fn telling(rt: &impl AllocGlobal, wants_progress: bool) -> ProgressGate<RecordingProgress> {
    ProgressGate::new(RecordingProgress::new(rt.alloc()), wants_progress)
}

/// Returns the progress that this run reports.
fn reported_of(rt: &impl Host, wants_progress: bool) -> RecordingProgress {
    let gate = telling(rt, wants_progress);
    assert!(rt; run_shown(rt, rt.alloc(), endless(rt), 1, &gate).is_ok());
    gate.into_inner()
}

/// Orders of one cycle: progress is reported after the first, and then every million cycles.
#[test]
fn a_run_reports_how_far_it_has_come(rt: HostRuntime) {
    let reported = reported_of(&rt, true);
    assert!(rt; reported.cycles() == [1, 1_000_001, 2_000_001].as_slice());
    assert!(rt; reported.wiped() == 1);
}

#[test]
fn progress_is_reported_only_to_a_terminal(rt: HostRuntime) {
    assert!(rt; reported_of(&rt, false).cycles().is_empty());
}

/// With live keys, progress is reported when the machine looks for a key, every 256 cycles.
#[test]
fn a_live_run_reports_how_far_it_has_come(rt: HostRuntime) {
    let gate = telling(&rt, true);
    let no_keys = Vec::new(rt.alloc());
    let live = run_live(&rt, rt.alloc(), endless(&rt), no_keys, 1, 1, &gate);
    assert!(rt; live.is_ok());
    let reported = gate.into_inner();
    assert!(rt; (reported.cycles().len(), reported.wiped()) == (3, 1));
    assert!(rt; is_soon_after_millions(&reported, 0) && is_soon_after_millions(&reported, 1));
    assert!(rt; is_soon_after_millions(&reported, 2));
}
