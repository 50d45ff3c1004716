//! Tests of searches back and runs forward to conditions, worked out by hand. The numbers are octal, except for cycles.
ghost use Rattle.std.specs.Prelude.{◌<◌, ◌^◌, IfSome};
ghost use Rattle.agc_session.specs.Condition.{IsConditionInRange};

use super::{equal, equal_at, press, session_of};
use agc_listing::Location;
use agc_script::Key;
use agc_session::{Cancellation, Condition, SearchFault, Session};
use agc_test_support::RELAY_WORD;
use agc_word::Narrow;
use std::process::Abort;

/// A turn of six cycles: INCR 100 begins at 0, EXTEND at 2, WRITE 10 of +0 at 3, and TCF 4000 at 5. A key's service ends
/// at once.
pub(super) static TURN: &str = "
4000 24100 INCR 100
4001 00006 EXTEND
4002 01010 WRITE 10
4003 14000 TCF 4000
4024 50017 RESUME";

/// Checks the hit with a number, counted back from now.
fn finds(
    rt: &(impl AllocGlobal + Abort),
    session: &Session,
    condition: Condition,
    count: u64,
    wanted: Option<u64>,
)
    requires some { 0 < count }
    requires range { IsConditionInRange condition }
{
    let found = session
        .last_hit(rt.alloc(), condition, count)
        .ok()
        .expect(rt, "memory");
    equal_at(rt, count, found, wanted);
}

fn order(place: u32) -> Condition
    ensures { IsConditionInRange result }
{
    Condition::Order(Location::Fixed(place))
}

fn write_of(channel: Option<u16>, bits: Option<u16>) -> Condition
    requires { IfSome bits (λ bits. bits < 2 ^ 15) }
    ensures { IsConditionInRange result }
{
    match bits {
        Some(bits) => Condition::Write {
            channel,
            word: Some(Narrow::with_bits(bits)),
        },
        None => Condition::Write {
            channel,
            word: None,
        },
    }
}

/// The fourth INCR ends at 20. Each of the thirteen boundaries up to it is found.
#[test]
fn boundaries_are_found_back(rt: HostRuntime) {
    let mut session = session_of(&rt, TURN, "", 100);
    finds(&rt, &session, Condition::Boundary, 1, None);
    session.go_to(20);
    finds(&rt, &session, Condition::Boundary, 1, Some(18));
    finds(&rt, &session, Condition::Boundary, 2, Some(17));
    finds(&rt, &session, Condition::Boundary, 4, Some(14));
    finds(&rt, &session, Condition::Boundary, 13, Some(0));
    finds(&rt, &session, Condition::Boundary, 14, None);
    finds(&rt, &session, order(0o4001), 1, Some(14));
    finds(&rt, &session, order(0o4001), 2, Some(8));
    finds(&rt, &session, order(0o4001), 3, Some(2));
    finds(&rt, &session, order(0o4001), 4, None);
    finds(&rt, &session, order(0o4024), 1, None);
    finds(&rt, &session, Condition::Cell(0o100), 1, Some(18));
    finds(&rt, &session, Condition::Cell(0o100), 2, Some(12));
    finds(&rt, &session, Condition::Cell(0o100), 4, Some(0));
    finds(&rt, &session, Condition::Cell(0o100), 5, None);
    finds(&rt, &session, Condition::Cell(0o101), 1, None);
    equal(&rt, session.machine().cycle(), 20);
}

/// Writes of +0 to channel 10 begin at 3, 9 and 15, and change nothing on the panel.
#[test]
fn writes_are_found_back(rt: HostRuntime) {
    let mut session = session_of(&rt, TURN, "", 100);
    session.go_to(20);
    finds(&rt, &session, write_of(None, None), 1, Some(15));
    finds(&rt, &session, write_of(None, None), 2, Some(9));
    finds(&rt, &session, write_of(Some(0o10), None), 1, Some(15));
    finds(&rt, &session, write_of(Some(0o10), None), 2, Some(9));
    finds(&rt, &session, write_of(None, Some(0)), 1, Some(15));
    finds(&rt, &session, write_of(None, Some(0)), 2, Some(9));
    finds(&rt, &session, write_of(Some(0o10), Some(0)), 3, Some(3));
    finds(&rt, &session, write_of(Some(0o10), Some(0)), 4, None);
    finds(&rt, &session, write_of(Some(0o11), None), 1, None);
    finds(&rt, &session, write_of(None, Some(1)), 1, None);
    finds(&rt, &session, Condition::Panel, 1, None);
}

/// A key at 20 takes no cycle, its interrupt begins at 20 too, RESUME at 23, and EXTEND at 25. The machine stops at 31,
/// which is one more boundary, however often it is stepped. After going back to 20 the key is gone.
#[test]
fn a_key_is_found_back(rt: HostRuntime) {
    let mut session = session_of(&rt, TURN, "", 31);
    session.go_to(20);
    press(&rt, &mut session, Key::One, Ok(()));
    finds(&rt, &session, Condition::Boundary, 1, Some(20));
    finds(&rt, &session, Condition::Boundary, 2, Some(18));
    finds(&rt, &session, Condition::Interrupt(None), 1, None);
    session.go_to(100);
    session.step();
    finds(&rt, &session, Condition::Boundary, 1, Some(31));
    finds(&rt, &session, Condition::Boundary, 2, Some(29));
    finds(&rt, &session, Condition::Boundary, 7, Some(20));
    finds(&rt, &session, Condition::Boundary, 8, Some(20));
    finds(&rt, &session, Condition::Boundary, 9, Some(18));
    finds(&rt, &session, Condition::Interrupt(None), 1, Some(20));
    finds(&rt, &session, Condition::Interrupt(None), 2, None);
    finds(&rt, &session, order(0o4024), 1, Some(23));
    finds(&rt, &session, Condition::Cell(0o100), 1, Some(29));
    finds(&rt, &session, Condition::Cell(0o100), 2, Some(18));
    let session = session.rewind_to(rt.alloc(), 20).ok().expect(&rt, "memory");
    finds(&rt, &session, Condition::Interrupt(None), 1, None);
    finds(&rt, &session, Condition::Boundary, 1, Some(18));
    finds(&rt, &session, Condition::Boundary, 2, Some(17));
}

/// Cancels a search that asks more often than this.
#[derive(Drop)]
struct CancelAfter {
    left: u32,
}

impl Cancellation for CancelAfter {
    fn is_cancelled(&mut self) -> bool {
        let is_over = self.left == 0;
        self.left = self.left.saturating_sub(1);
        is_over
    }
}

/// Searches for an interrupt, of which there is none, and cancels the search if it asks too often.
fn misses_unless(
    rt: &(impl AllocGlobal + Abort),
    session: &Session,
    left: u32,
    wanted: Result<Option<u64>, SearchFault>,
) {
    let mut cancellation = CancelAfter { left };
    let condition = Condition::Interrupt(None);
    let found = session.last_hit_unless(rt.alloc(), condition, 1, &mut cancellation);
    equal_at(rt, left, found, wanted);
}

/// A search asks at the start of each stretch whether it is cancelled. Copies are made at 262,144 and 524,288, so there
/// are three stretches.
#[test]
fn searches_are_cancelled(rt: HostRuntime) {
    let mut session = session_of(&rt, RELAY_WORD, "", 2_000_000);
    session.go_to(20);
    misses_unless(&rt, &session, 0, Err(SearchFault::Cancelled));
    misses_unless(&rt, &session, 1, Ok(None));
    session.go_to(600_000);
    misses_unless(&rt, &session, 2, Err(SearchFault::Cancelled));
    misses_unless(&rt, &session, 3, Ok(None));
    finds(&rt, &session, Condition::Interrupt(None), 1, None);
    finds(&rt, &session, Condition::Panel, 1, Some(3));
}

/// Checks where a run forward to a condition ends, and whether it hit.
fn runs(
    rt: &impl Abort,
    session: &mut Session,
    condition: Condition,
    before: u64,
    hit: bool,
    cycle: u64,
)
    requires { IsConditionInRange condition }
{
    equal_at(rt, cycle, session.go_until(condition, before), hit);
    equal(rt, session.machine().cycle(), cycle);
}

/// The run ends before an order, and after any other hit.
#[test]
fn runs_end_at_hits(rt: HostRuntime) {
    let mut session = session_of(&rt, TURN, "", 40);
    runs(&rt, &mut session, order(0o4001), 40, true, 2);
    runs(&rt, &mut session, order(0o4001), 40, true, 8);
    runs(&rt, &mut session, order(0o4001), 12, false, 12);
    runs(&rt, &mut session, order(0o4001), 12, false, 12);
    runs(&rt, &mut session, Condition::Cell(0o100), 40, true, 14);
    runs(&rt, &mut session, write_of(Some(0o10), None), 40, true, 17);
    runs(&rt, &mut session, Condition::Boundary, 40, true, 18);
    runs(&rt, &mut session, Condition::Interrupt(None), 20, false, 20);
    press(&rt, &mut session, Key::One, Ok(()));
    runs(&rt, &mut session, Condition::Interrupt(None), 40, true, 23);
    runs(&rt, &mut session, Condition::Panel, 100, false, 40);
}
