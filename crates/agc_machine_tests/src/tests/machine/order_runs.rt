//! Tests runs of orders: each ends after the order that ends it, at a cycle worked out by hand. The clock brings nothing
//! in the first 427 cycles of a run, so nothing else ends a run early there.
use super::*;
use agc_machine::{ChannelWrite, InHand, OrderRun, Watch};
use agc_test_support::RELAY_WORD;
use agc_word::Narrow;

/// INCR of a cell (2 cycles) and TCF back (1): a turn begins at each third cycle.
const COUNTING: &str = "
4000 24100 INCR 0100
4001 14000 TCF 4000";

/// Checks how a run of orders ended that showed nothing: the cycle at which its last order began, and the one after it.
fn ended(rt: &impl Abort, machine: &Machine, run: Option<OrderRun>, began: u64, end: u64) {
    let quiet = OrderRun {
        began,
        stepped: Stepped::Quiet,
    };
    equal(rt, run, Some(quiet));
    equal(rt, machine.cycle(), end);
}

/// Checks that one order ran: its address in the fixed banks 02 and 03, its word, and what it did.
fn order_ran(
    rt: &impl Abort,
    machine: &mut Machine,
    address: u16,
    word: u16,
    extracode: bool,
    stepped: Stepped,
) {
    let order = InHand {
        bank: 0,
        address: Addr::new(address).expect(rt, "an address of twelve bits"),
        word: Narrow::with_bits(word % 0o100000),
        extracode,
    };
    equal(rt, machine.run_order(), Some((order, stepped)));
}

/// The word that RELAY_WORD writes at 3.
fn relay_write() -> Stepped {
    Stepped::Wrote(ChannelWrite {
        cycle: 3,
        channel: 0o10,
        value: Narrow::with_bits(0o54171),
    })
}

/// A run begins by a step: before it nothing is known of the clock. EXTEND runs from 2, WRITE 10 as an extracode from 3,
/// TCF 4003 from 5 on; at the limit, 6, no order comes.
#[test]
fn order_by_order(rt: HostRuntime) {
    let mut machine = machine(&rt, RELAY_WORD, "", 6);
    equal(&rt, machine.run_order(), None);
    quiet(&rt, &mut machine);
    order_ran(&rt, &mut machine, 0o4001, 0o00006, false, Stepped::Quiet);
    order_ran(&rt, &mut machine, 0o4002, 0o01010, true, relay_write());
    order_ran(&rt, &mut machine, 0o4003, 0o14003, false, Stepped::Quiet);
    equal(&rt, machine.run_order(), None);
    stopped(&rt, &mut machine, Stop::Limit, 6);
}

/// With nothing to watch, the INCR from 18 is the first order to end at 20 or later. It is the seventh, and the cell
/// changes again by the one from 21.
#[test]
fn run_to_a_cycle_and_to_a_change(rt: HostRuntime) {
    let mut machine = machine(&rt, COUNTING, "", 400);
    assert!(rt; machine.run_orders(&Watch::Nothing, 20).is_none());
    quiet(&rt, &mut machine);
    let run = machine.run_orders(&Watch::Nothing, 20);
    ended(&rt, &machine, run, 18, 20);
    equal(&rt, cell(&machine, 0o100), 7);
    let change = Watch::Change {
        cell: 0o100,
        word: Narrow::with_bits(7),
    };
    let run = machine.run_orders(&change, 400);
    ended(&rt, &machine, run, 21, 23);
    equal(&rt, cell(&machine, 0o100), 8);
}

/// TCF 4000 ends at 3 and 6, each time with the order at 4000 in hand, and INCR at 5 with the one at 4001.
#[test]
fn run_to_an_address(rt: HostRuntime) {
    let mut machine = machine(&rt, COUNTING, "", 400);
    quiet(&rt, &mut machine);
    let start = Watch::Next {
        address: 0o4000,
        window: 0o4000,
    };
    let run = machine.run_orders(&start, 400);
    ended(&rt, &machine, run, 2, 3);
    let either = Watch::Next {
        address: 0o5000,
        window: 0o4001,
    };
    let run = machine.run_orders(&either, 400);
    ended(&rt, &machine, run, 3, 5);
    let run = machine.run_orders(&start, 400);
    ended(&rt, &machine, run, 5, 6);
}

/// WRITE 10 ends a run at 3, and the limit the next one, in which TCF 4003 runs from 5 to 10.
#[test]
fn run_to_a_write_and_to_the_limit(rt: HostRuntime) {
    let mut machine = machine(&rt, RELAY_WORD, "", 10);
    quiet(&rt, &mut machine);
    let run = machine.run_orders(&Watch::Nothing, 400);
    let writing = OrderRun {
        began: 3,
        stepped: relay_write(),
    };
    equal(&rt, run, Some(writing));
    let run = machine.run_orders(&Watch::Nothing, 400);
    ended(&rt, &machine, run, 9, 10);
    assert!(rt; machine.run_orders(&Watch::Nothing, 400).is_none());
}
