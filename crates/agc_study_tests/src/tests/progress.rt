//! Tests when progress is reported: no clause guarantees that it is reported at all.
use super::{between, machine_of, same};
use agc_diff::compare;
use agc_io::{NoProgress, next_mark, report_at};
use agc_machine::Machine;
use agc_test_support::{IDLE, RecordingProgress};
use agc_trace::{LineForm, trace};
use std::process::Abort;

/// Checks the reported cycles.
pub(super) fn was_reported(rt: &impl Abort, reported: &RecordingProgress, cycles: &[u64]) {
    assert!(rt; reported.cycles() == cycles);
}

/// Returns a run in which each boundary takes one cycle, because TIME1 does not overflow in it.
fn idle(rt: &(impl AllocGlobal + Abort)) -> Machine {
    machine_of(rt, IDLE, "", 1_200_000)
}

/// On the way to the range, progress is reported at the start and after a million cycles; and again at the range's
/// first line.
#[test]
fn a_trace_reports_how_far_it_has_come(rt: HostRuntime) {
    let mut machine = idle(&rt);
    let selection = between(&rt, 1_100_000, 1_100_010, None);
    let mut reported = RecordingProgress::new(rt.alloc());
    let mut out = Vec::new(rt.alloc());
    let traced = trace(
        rt.alloc(),
        &mut machine,
        &selection,
        &LineForm::new(rt.alloc(), None, None),
        &mut out,
        &mut reported,
    );
    assert!(rt; traced.is_ok());
    was_reported(&rt, &reported, &[0, 1_000_000, 1_100_000]);
}

/// Two runs that are the same: progress is reported at the start, and after a million cycles.
#[test]
fn a_comparison_reports_how_far_it_has_come(rt: HostRuntime) {
    let (mut left, mut right) = (idle(&rt), idle(&rt));
    let mut reported = RecordingProgress::new(rt.alloc());
    let comparison = compare(rt.alloc(), &mut left, &mut right, &mut reported)
        .ok()
        .expect(&rt, "memory");
    assert!(rt; comparison.is_same());
    was_reported(&rt, &reported, &[0, 1_000_000]);
}

/// Progress is reported at the first cycle, and then at the first cycle that is at least a million after the last
/// report.
#[test]
fn reported_from_mark_to_mark(rt: HostRuntime) {
    let mut reported = RecordingProgress::new(rt.alloc());
    let mut mark = 0;
    for (cycle, times, last) in [
        (7, 1, 7),
        (8, 1, 7),
        (1_000_006, 1, 7),
        (1_000_007, 2, 1_000_007),
        (1_000_008, 2, 1_000_007),
        (5_000_000, 3, 5_000_000),
        (5_999_999, 3, 5_000_000),
    ] {
        mark = report_at(mark, cycle, &mut reported);
        let cycles = reported.cycles();
        same(
            &rt,
            (cycles.len(), cycles.last().copied()),
            (times, Some(last)),
            "told",
        );
    }
    same(&rt, mark, 6_000_000, "mark");
    same(&rt, next_mark(u64::MAX), u64::MAX, "last mark");
    let mark = report_at(mark, 6_000_000, &mut NoProgress);
    same(&rt, mark, 7_000_000, "untold");
}
