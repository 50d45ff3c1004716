//! Tests what bytes type, how time passes, and when keys are pressed.
use super::search::TURN;
use super::{equal, equal_at, has_text, session_of};
use agc_operands::OperandNames;
use agc_script::Key;
use agc_session::{Cancellation, InjectFault, NoCancellation, SearchFault};
use agc_symbols::SymbolTable;
use agc_test_support::IDLE;
use agc_tui::{
    Button, Decoder, InputEvent, Operator, Pacer, Search, Speed, Target, push_inspector,
};
use std::process::Abort;

/// Checks which input event the last byte of a text produces.
fn asks(rt: &impl Abort, text: &str, wanted: Option<InputEvent>) {
    let mut decoder = Decoder::new();
    let mut last = None;
    for byte in text.as_bytes() {
        last = decoder.take(*byte);
    }
    equal_at(rt, text, last, wanted);
}

/// Escape sequences produce no event, except the one that reports the terminal's size; the byte after a sequence
/// stands for itself.
#[test]
fn sequences_are_no_keys(rt: HostRuntime) {
    let size = InputEvent::Size {
        lines: 24,
        columns: 132,
    };
    let verb = InputEvent::Key(Button::Coded(Key::Verb));
    asks(&rt, "\x1b[24;132R", Some(size));
    asks(&rt, "\x1b[A", None);
    asks(&rt, "\x1b[15~", None);
    asks(&rt, "\x1bOP", None);
    asks(&rt, "\x1b[1;2R", None);
    asks(&rt, "\x1b]11;rgb:0000/0000/0000\x07", None);
    asks(&rt, "\x1bP1+r4d73\x1b\\", None);
    asks(&rt, "\x1b]11;rgb:0\x07v", Some(verb));
    asks(&rt, "\x1b]11;rgb:0\x03", Some(InputEvent::Quit));
    asks(&rt, "\x1b[Av", Some(verb));
    asks(&rt, "\x1bv", Some(verb));
    asks(&rt, "\x03", Some(InputEvent::Quit));
    asks(&rt, "\x7f", Some(InputEvent::Back));
}

/// Checks that a letter searches.
fn searches(rt: &impl Abort, letter: &str, wanted: Search) {
    asks(rt, letter, Some(InputEvent::Search(wanted)));
}

/// `u`, `w` and `d` search forward, the capitals back.
#[test]
fn letters_search(rt: HostRuntime) {
    searches(&rt, "u", Search::Next(Target::Interrupt));
    searches(&rt, "w", Search::Next(Target::Write));
    searches(&rt, "d", Search::Next(Target::Panel));
    searches(&rt, "U", Search::Previous(Target::Interrupt));
    searches(&rt, "W", Search::Previous(Target::Write));
    searches(&rt, "D", Search::Previous(Target::Panel));
}

/// A second is 1,024,000 / 12 cycles, ten times as many at speed 10, a tenth and a hundredth at the slow speeds, and none
/// while time is paused. At 1/100 a cycle comes each 1,171.875 microseconds, also after an hour.
#[test]
fn time_goes_by_the_clock(rt: HostRuntime) {
    let mut pacer = Pacer::new(Speed::Real, 5_000_000, 100);
    equal(&rt, pacer.due(6_000_000), 100 + 85_333);
    pacer.go_faster();
    equal(&rt, pacer.due(6_000_000), 100 + 853_333);
    pacer.go_slower();
    pacer.go_slower();
    equal(&rt, pacer.due(6_000_000), 100 + 8_533);
    pacer.go_slower();
    equal(&rt, pacer.due(6_000_000), 100 + 853);
    pacer.go_slower();
    equal(&rt, pacer.due(5_001_171), 100);
    equal(&rt, pacer.due(5_001_172), 101);
    equal(&rt, pacer.due(3_605_000_000), 100 + 3_072_000);
    pacer.pause_or_go_on();
    equal(&rt, pacer.due(6_000_000), 100);
    equal(&rt, Speed::from_name("1/100"), Some(Speed::Hundredth));
    equal(&rt, Speed::from_name("1/1000"), None);
}

/// Returns an operator of a program that jumps to itself, one cycle a turn, with a script.
fn operator_of(rt: &(impl AllocGlobal + Abort), script: &str) -> Operator {
    operator_with(rt, IDLE, script)
}

/// Returns an operator of the program of a listing, with a script.
fn operator_with(rt: &(impl AllocGlobal + Abort), listing: &str, script: &str) -> Operator {
    Operator::new(rt.alloc(), session_of(rt, listing, script, 1_000_000))
        .ok()
        .expect(rt, "memory")
}

fn type_pro(rt: &impl Abort, operator: &mut Operator) {
    type_key(rt, operator, Button::Pro);
}

fn type_key(rt: &impl Abort, operator: &mut Operator, button: Button) {
    operator.type_key(button).ok().expect(rt, "memory");
}

/// Runs the operator's machine to a cycle.
fn go_to(rt: &impl Abort, operator: &mut Operator, cycle: u64) {
    equal_at(rt, cycle, operator.go_to(cycle), Ok(()));
}

/// Checks the text of the operator's script.
fn reports(rt: &(impl AllocGlobal + Abort), operator: &Operator, wanted: &str) {
    has_text(rt, operator.script(rt.alloc()), wanted);
}

/// PRO is held for a fifth of a second, and the next key waits another tenth. If the machine is rewound while PRO is
/// held, PRO still comes up at its time.
#[test]
fn keys_wait_their_turn(rt: HostRuntime) {
    let mut operator = operator_of(&rt, "");
    type_pro(&rt, &mut operator);
    type_pro(&rt, &mut operator);
    go_to(&rt, &mut operator, 60_000);
    let whole = "0 pro down\n17067 pro up\n25600 pro down\n42667 pro up\n";
    reports(&rt, &operator, whole);
    let (mut operator, went) = operator.back(rt.alloc(), 30_000);
    assert!(rt; went);
    operator.rerun(u64::MAX);
    equal(&rt, operator.cycle(), 30_000);
    reports(&rt, &operator, "0 pro down\n17067 pro up\n25600 pro down\n");
    go_to(&rt, &mut operator, 60_000);
    reports(&rt, &operator, whole);
}

/// Going back reruns the machine bit by bit. On the way the script and the limit that repeat the session are those of the
/// end already, and going back further begins again.
#[test]
fn going_back_takes_turns(rt: HostRuntime) {
    let mut operator = operator_of(&rt, "");
    type_pro(&rt, &mut operator);
    go_to(&rt, &mut operator, 60_000);
    let (mut operator, _) = operator.back(rt.alloc(), 30_000);
    operator.rerun(10_000);
    equal(&rt, operator.cycle(), 10_000);
    equal(&rt, operator.rerun_end(), Some(30_000));
    equal(&rt, operator.limit_to_repeat(), 30_000);
    reports(&rt, &operator, "0 pro down\n17067 pro up\n");
    let (mut operator, _) = operator.back(rt.alloc(), 5_000);
    operator.rerun(10_000);
    equal(&rt, operator.cycle(), 5_000);
    equal(&rt, operator.rerun_end(), None);
    reports(&rt, &operator, "0 pro down\n");
}

/// A script has at most 65,536 events. A further key is dropped, and the machine continues without it.
#[test]
fn a_full_script_takes_no_key(rt: HostRuntime) {
    let mut operator = operator_of(&rt, "every 1 900000 965535 raise 9\n");
    type_pro(&rt, &mut operator);
    equal(&rt, operator.go_to(500), Err(InjectFault::TooMany));
    equal(&rt, operator.waiting(), 0);
    go_to(&rt, &mut operator, 500);
    equal(&rt, operator.cycle(), 500);
}

/// Returns the inspector's text for an operator's machine, with at most `most` lines of its last boundaries.
fn inspector(
    rt: &(impl AllocGlobal + Abort),
    names: Option<OperandNames<'_>>,
    operator: &Operator,
    most: usize,
) -> String {
    let mut text = String::new(rt.alloc());
    push_inspector(
        rt.alloc(),
        &mut text,
        names,
        operator.history(),
        most,
        operator.session(),
    )
    .ok()
    .expect(rt, "memory");
    text
}

/// Checks the inspector's text.
fn shows(rt: &(impl AllocGlobal + Abort), operator: &Operator, most: usize, wanted: &str) {
    equal(rt, inspector(rt, None, operator, most).as_str(), wanted);
}

/// Checks that twelve lines are kept, followed by the two lines of the state.
fn shows_twelve(rt: &(impl AllocGlobal + Abort), operator: &Operator) {
    let text = inspector(rt, None, operator, 20);
    equal(rt, text.as_str().lines().count(), 14);
}

/// The last boundaries are known if the machine goes step by step, and not if it runs as fast as it can. The equal ones of
/// the idle loop are one line, with their count.
#[test]
fn last_boundaries(rt: HostRuntime) {
    let mut operator = operator_of(&rt, "");
    go_to(&rt, &mut operator, 100);
    shows(
        &rt,
        &operator,
        12,
        " A 000000 L 00000 Q 000000 Z 4001 EB 0 FB 00 BB 00000\n next 4000 14000 TCF 4000\n",
    );
    equal(&rt, operator.step_tail(), Ok(()));
    shows(
        &rt,
        &operator,
        1,
        " 111 4000 14000 TCF 4000 x 12 | A 000000 L 00000 Q 000000 Z 4001 EB 0 FB 00
 A 000000 L 00000 Q 000000 Z 4001 EB 0 FB 00 BB 00000\n next 4000 14000 TCF 4000\n",
    );
    let names = SymbolTable::read(rt.alloc(), b"4000 LOOP\n")
        .ok()
        .expect(&rt, "names");
    let (places, channels) = names.split(rt.alloc());
    let names = OperandNames {
        places: &places,
        channels: &channels,
    };
    equal(
        &rt,
        inspector(&rt, Some(names), &operator, 12).as_str(),
        " 111 4000 LOOP         14000 TCF LOOP x 12 | A 000000 L 00000 Q 000000 Z 4001 EB 0 FB 00
 A 000000 L 00000 Q 000000 Z 4001 EB 0 FB 00 BB 00000\n next 4000 LOOP         14000 TCF LOOP\n",
    );
}

/// A key that goes down is listed among the boundaries.
#[test]
fn last_boundaries_with_a_key(rt: HostRuntime) {
    let mut operator = operator_of(&rt, "");
    type_pro(&rt, &mut operator);
    equal(&rt, operator.step(), Ok(()));
    shows(
        &rt,
        &operator,
        12,
        " 0 - event pro down | A 000000 L 00000 Q 000000 Z 4001 EB 0 FB 00
 0 4000 14000 TCF 4000 | A 000000 L 00000 Q 000000 Z 4001 EB 0 FB 00
 A 000000 L 00000 Q 000000 Z 4001 EB 0 FB 00 BB 00000\n next 4000 14000 TCF 4000\n",
    );
}

/// After a rewind the boundaries before it are known.
#[test]
fn last_boundaries_where_time_goes_back(rt: HostRuntime) {
    let mut operator = operator_of(&rt, "");
    go_to(&rt, &mut operator, 100);
    let (mut operator, _) = operator.back(rt.alloc(), 50);
    operator.rerun(u64::MAX);
    shows(
        &rt,
        &operator,
        12,
        " 49 4000 14000 TCF 4000 x 50 | A 000000 L 00000 Q 000000 Z 4001 EB 0 FB 00
 A 000000 L 00000 Q 000000 Z 4001 EB 0 FB 00 BB 00000\n next 4000 14000 TCF 4000\n",
    );
    let (mut operator, _) = operator.back(rt.alloc(), 1);
    operator.rerun(u64::MAX);
    shows(
        &rt,
        &operator,
        12,
        " 0 4000 14000 TCF 4000 | A 000000 L 00000 Q 000000 Z 4001 EB 0 FB 00
 A 000000 L 00000 Q 000000 Z 4001 EB 0 FB 00 BB 00000\n next 4000 14000 TCF 4000\n",
    );
}

/// If the machine stops by itself, its last boundaries are known once it has been rerun, and nothing that was typed
/// is lost. The last timer's step before is that of TIME4 at 11,998,720 pulses, of which a cycle has 12: at cycle 999894.
#[test]
fn last_boundaries_of_all(rt: HostRuntime) {
    let mut operator = operator_of(&rt, "");
    type_pro(&rt, &mut operator);
    go_to(&rt, &mut operator, 2_000_000);
    let script = "0 pro down\n17067 pro up\n";
    reports(&rt, &operator, script);
    let mut operator = operator.rebuild_history(rt.alloc());
    equal(&rt, operator.rerun_end(), Some(1_000_000));
    operator.rerun(u64::MAX);
    shows(
        &rt,
        &operator,
        2,
        " 999999 4000 14000 TCF 4000 x 105 | A 000000 L 00000 Q 000000 Z 4001 EB 0 FB 00
 1000000 - stop Limit | A 000000 L 00000 Q 000000 Z 4001 EB 0 FB 00
 A 000000 L 00000 Q 000000 Z 4001 EB 0 FB 00 BB 00000\n next - stop Limit\n",
    );
    shows_twelve(&rt, &operator);
    reports(&rt, &operator, script);
}

/// Searches forward, and checks whether it hits, and the cycle that it comes to.
fn seeks(
    rt: &impl Abort,
    operator: &mut Operator,
    target: Target,
    before: u64,
    hit: bool,
    cycle: u64,
) {
    equal_at(
        rt,
        target,
        operator.seek(target.condition(), before),
        Ok(hit),
    );
    equal_at(rt, target, operator.cycle(), cycle);
}

/// Searches back, and checks where it comes to.
fn seeks_back(
    rt: &(impl AllocGlobal + Abort),
    operator: Operator,
    target: Target,
    wanted: Option<u64>,
    cycle: u64,
) -> Operator {
    let (mut operator, found) = operator.back_to_last(
        rt.alloc(),
        target.condition(),
        1,
        &mut NoCancellation,
    );
    equal_at(rt, target, found.ok().expect(rt, "memory"), wanted);
    operator.rerun(u64::MAX);
    equal_at(rt, target, operator.cycle(), cycle);
    operator
}

/// A search ends just after a boundary that hits, or where one began, after the key of that cycle. The key at 50 follows
/// INCR, so its interrupt comes first, from 50 to 53. The last WRITE before it began at 45.
#[test]
fn searches_end_at_hits(rt: HostRuntime) {
    let mut operator = operator_with(&rt, TURN, "");
    seeks(&rt, &mut operator, Target::Write, 100, true, 5);
    seeks(&rt, &mut operator, Target::Write, 100, true, 11);
    seeks(&rt, &mut operator, Target::Panel, 50, false, 50);
    type_key(&rt, &mut operator, Button::Coded(Key::One));
    seeks(&rt, &mut operator, Target::Interrupt, 100, true, 53);
    reports(&rt, &operator, "50 key 1\n");
    let operator = seeks_back(&rt, operator, Target::Panel, None, 53);
    reports(&rt, &operator, "50 key 1\n");
    let mut operator = seeks_back(&rt, operator, Target::Interrupt, Some(50), 50);
    reports(&rt, &operator, "50 key 1\n");
    equal(&rt, operator.limit_to_repeat(), 51);
    seeks(&rt, &mut operator, Target::Interrupt, 100, true, 53);
    let operator = seeks_back(&rt, operator, Target::Write, Some(45), 45);
    reports(&rt, &operator, "");
    equal(&rt, operator.limit_to_repeat(), 45);
}

/// A search back for the second last hit comes to where it began: WRITE begins at 3, 9 .. 45.
#[test]
fn searches_back_pass_over_hits(rt: HostRuntime) {
    let mut operator = operator_with(&rt, TURN, "");
    go_to(&rt, &mut operator, 50);
    let (mut operator, found) = operator.back_to_last(
        rt.alloc(),
        Target::Write.condition(),
        2,
        &mut NoCancellation,
    );
    equal(&rt, found, Ok(Some(39)));
    operator.rerun(u64::MAX);
    equal(&rt, operator.cycle(), 39);
    let (operator, found) = operator.back_to_last(
        rt.alloc(),
        Target::Write.condition(),
        7,
        &mut NoCancellation,
    );
    equal(&rt, found, Ok(None));
    equal(&rt, operator.cycle(), 39);
}

/// Cancels each search.
#[derive(Drop)]
struct AlwaysCancelled;

impl Cancellation for AlwaysCancelled {
    fn is_cancelled(&mut self) -> bool {
        true
    }
}

/// A search back that is cancelled changes nothing.
#[test]
fn cancelled_searches_change_nothing(rt: HostRuntime) {
    let mut operator = operator_with(&rt, TURN, "");
    seeks(&rt, &mut operator, Target::Write, 100, true, 5);
    type_key(&rt, &mut operator, Button::Coded(Key::One));
    let condition = Target::Write.condition();
    let (operator, found) = operator.back_to_last(rt.alloc(), condition, 1, &mut AlwaysCancelled);
    equal(&rt, found, Err(SearchFault::Cancelled));
    equal(&rt, operator.rerun_end(), None);
    equal(&rt, operator.waiting(), 1);
    let operator = seeks_back(&rt, operator, Target::Write, Some(3), 3);
    equal(&rt, operator.waiting(), 0);
}

/// Waiting keys go down during a search forward, each at its time: the search pauses there.
#[test]
fn searches_press_keys(rt: HostRuntime) {
    let mut operator = operator_with(&rt, "4000 14000 TCF 4000\n4024 50017 RESUME", "");
    type_key(&rt, &mut operator, Button::Coded(Key::One));
    type_key(&rt, &mut operator, Button::Coded(Key::Two));
    seeks(&rt, &mut operator, Target::Interrupt, 20_000, true, 3);
    seeks(&rt, &mut operator, Target::Interrupt, 20_000, false, 8_533);
    seeks(&rt, &mut operator, Target::Interrupt, 20_000, true, 8_536);
    seeks(&rt, &mut operator, Target::Interrupt, 20_000, false, 20_000);
    reports(&rt, &operator, "0 key 1\n8533 key 2\n");
}

/// After a search forward the last boundaries are known once the machine has been rerun.
#[test]
fn last_boundaries_after_a_search(rt: HostRuntime) {
    let mut operator = operator_with(&rt, TURN, "");
    seeks(&rt, &mut operator, Target::Write, 100, true, 5);
    let mut operator = operator.rebuild_history(rt.alloc());
    equal(&rt, operator.rerun_end(), Some(5));
    operator.rerun(u64::MAX);
    shows(
        &rt,
        &operator,
        1,
        " 3 4002 01010 WRITE 010 > 010 00000 | A 000000 L 00000 Q 000000 Z 4004 EB 0 FB 00
 A 000000 L 00000 Q 000000 Z 4004 EB 0 FB 00 BB 00000\n next 4003 14000 TCF 4000\n",
    );
}
