//! Tests the counts of a small program, worked out by hand. `tests/study` compares profiles.
use super::{SHOWS_PROG, machine_of, same};
use agc_io::NoProgress;
use agc_profile::{Profile, Tally, count};
use agc_trace::Span;
use std::process::Abort;

/// Returns the profile of a run of SHOWS_PROG up to 10.
fn counted(rt: &(impl AllocGlobal + Abort)) -> Profile {
    let mut machine = machine_of(rt, SHOWS_PROG, "", 10);
    count(rt.alloc(), &mut machine, Span::whole(), &mut NoProgress)
        .ok()
        .expect(rt, "memory")
}

fn tally(times: u64, cycles: u64) -> Tally {
    Tally { times, cycles }
}

/// Every word of a whole run.
#[test]
fn words_of_a_run(rt: HostRuntime) {
    let counts = counted(&rt);
    let (fixed, data) = (&counts.fixed, &counts.fixed_data);
    same(&rt, fixed.at(0o4000), tally(1, 2), "4000");
    same(&rt, fixed.at(0o4003), tally(5, 5), "4003");
    same(&rt, fixed.at(0o4004), Tally::NOTHING, "4004");
    same(&rt, data.at(0o4004), tally(1, 2), "data at 4004");
    same(&rt, data.at(0o4003), Tally::NOTHING, "data at 4003");
    same(&rt, counts.orders, tally(8, 10), "orders");
    same(&rt, counts.erasable.len(), 0o4000, "cells");
}
