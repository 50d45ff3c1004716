//! Tests idle loops, whose turns are skipped: each ends where it would end turn by turn. Before a cycle C the timers
//! have stepped as often as 12 (C - 1) pulses hold their periods, a cycle for each step; the rest is the orders'.
use super::*;

/// CCS of a cell that holds +0 (2 cycles) and TCF back (1), and a way out if the cell is positive.
const WAITING: &str = "
4000 10100 CCS 0100
4001 14010 TCF 4010
4002 14000 TCF 4000
4010 14010 TCF 4010";

/// Before 10000 there are 11 steps of TIME1, TIME3 and TIME4 and 12 of TIME5, so the orders have 9955 cycles: 3318
/// turns, and a CCS that is under way and ends at 10001.
#[test]
fn waiting_to_the_limit(rt: HostRuntime) {
    let mut machine = machine(&rt, WAITING, "", 10000);
    stopped(&rt, &mut machine, Stop::Limit, 10001);
    equal(&rt, registers(&machine), [0, 0, 0, 0o4003]);
    equal(&rt, cell(&machine, 0o25), 0o00013);
    equal(&rt, cell(&machine, 0o30), 0o00014);
}

/// Before 5000 there are 5, 5, 6 and 6 steps, so the orders have 4978 cycles: 1659 turns, and a CCS to 5001.
#[test]
fn waiting_to_a_cycle(rt: HostRuntime) {
    let mut machine = machine(&rt, WAITING, "", 10000);
    equal(&rt, machine.next_write_before(5000), Stepped::Quiet);
    equal(&rt, machine.cycle(), 5001);
    equal(&rt, registers(&machine), [0, 0, 0, 0o4003]);
}

/// Before 3000 there are 3, 3, 3 and 4 steps, so the orders have 2987 cycles: 995 turns and a CCS. At 3000 the cell is
/// set to 1. TCF ends at 3001, CCS at 3003 and leaves 0 in A, TCF at 3004.
#[test]
fn waiting_for_an_event(rt: HostRuntime) {
    let script = "3000 poke 0 100 1";
    let fresh = machine(&rt, WAITING, script, 10000);
    let mut watched = until(&rt, fresh, 0, 0o4010);
    stopped(&rt, &mut watched, Stop::Reached, 3004);
    let left = run(&rt, WAITING, script, 3005);
    equal(&rt, registers(&left), [0, 0, 0, 0o4011]);
    let staying = run(&rt, WAITING, script, 3001);
    equal(&rt, registers(&staying), [0, 0, 0, 0o4001]);
}

/// CCS of CYR edits it again, so no turn comes back: before 2000 there are 8 steps, and 664 turns of 3 cycles. 1 turned
/// right 664 times, or 4 times, is 04000.
#[test]
fn edited_register_is_not_skipped(rt: HostRuntime) {
    let listing = "
4000 10020 CCS 0020
4001 14000 TCF 4000
4002 14005 TCF 4005
4003 14000 TCF 4000";
    let machine = run(&rt, listing, "0 poke 0 20 1", 2000);
    equal(&rt, cell(&machine, 0o20), 0o04000);
}

/// EXTEND (1), READ 4 (2), TCF 4000 (1): the last READ before 2000 begins at 1997, where the scaler has 12 * 1997 / 320
/// counts, 74.
#[test]
fn scaler_is_not_skipped(rt: HostRuntime) {
    let listing = "
4000 00006 EXTEND
4001 00004 READ 4
4002 14000 TCF 4000";
    let machine = run(&rt, listing, "", 2000);
    equal(&rt, registers(&machine), [0o000112, 0, 0, 0o4001]);
}
