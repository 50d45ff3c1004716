//! Tests sessions with small programs, worked out by hand. The numbers are octal, except for cycles.
use super::{equal, equal_at, has_text, press, session_of};
use agc_machine::{Stepped, Stop};
use agc_script::{Key, What};
use agc_session::{InjectFault, Session};
use agc_test_support::{IDLE, RELAY_WORD};
use agc_word::{ChannelWrite, Narrow};
use std::process::Abort;

/// Runs the session to a cycle and presses a key there.
fn press_at(rt: &impl Abort, session: &mut Session, cycle: u64, key: Key) {
    session.go_to(cycle);
    press(rt, session, key, Ok(()));
}

/// Checks the text of the session's script, exported and written.
fn reports(rt: &(impl AllocGlobal + Abort), session: &Session, wanted: &str) {
    has_text(rt, session.script(rt.alloc()), wanted);
    writes(rt, session, wanted);
    equal(rt, session.events(), wanted.lines().count());
}

/// Checks what the session writes as its script.
fn writes(rt: &(impl AllocGlobal + Abort), session: &Session, wanted: &str) {
    let mut line = String::new(rt.alloc());
    let mut written = Vec::new(rt.alloc());
    assert!(rt; session.write_script(&mut line, &mut written).is_ok());
    assert!(rt; written.as_slice() == wanted.as_bytes());
}

/// Checks that the session is at this cycle.
fn is_at(rt: &impl Abort, session: &Session, cycle: u64) {
    equal(rt, session.machine().cycle(), cycle);
}

/// Rewinds the session to a cycle.
fn back(rt: &(impl AllocGlobal + Abort), session: Session, cycle: u64) -> Session {
    session
        .rewind_to(rt.alloc(), cycle)
        .ok()
        .expect(rt, "memory")
}

/// The program jumps to itself, one cycle a turn. A key at 4 comes after the script's own event of 4.
#[test]
#[tactic(auto, unfolding(agc_script::specs::Event::IsWhatInRange))]
fn what_is_injected_is_reported(rt: HostRuntime) {
    let mut session = session_of(&rt, IDLE, "4 pro down\n9 pro up\n", 20);
    session.go_to(4);
    is_at(&rt, &session, 4);
    press(&rt, &mut session, Key::Verb, Err(InjectFault::Unwanted));
    equal(&rt, session.step(), Stepped::Quiet);
    press(&rt, &mut session, Key::Verb, Ok(()));
    equal(&rt, session.inject(What::Raise(9)), Ok(()));
    let want = "4 pro down\n4 key VERB\n4 raise 9\n9 pro up\n";
    reports(&rt, &session, want);
    session.go_to(100);
    equal(&rt, session.step(), Stepped::Stopped(Stop::Limit));
    is_at(&rt, &session, 20);
    press(&rt, &mut session, Key::Noun, Err(InjectFault::Unwanted));
    reports(&rt, &session, want);
}

/// Rewinding to 6 retains the key of 2 and discards the one of 6; what is injected again is in the script again.
/// Rewinding further discards what the first rewind retained.
#[test]
fn what_was_given_later_is_gone(rt: HostRuntime) {
    let mut session = session_of(&rt, IDLE, "", 100);
    let whole = "2 key 1\n6 key 2\n9 key 3\n";
    press_at(&rt, &mut session, 2, Key::One);
    press_at(&rt, &mut session, 6, Key::Two);
    press_at(&rt, &mut session, 9, Key::Three);
    reports(&rt, &session, whole);
    let mut session = back(&rt, session, 6);
    reports(&rt, &session, "2 key 1\n");
    is_at(&rt, &session, 6);
    press(&rt, &mut session, Key::Two, Ok(()));
    press_at(&rt, &mut session, 9, Key::Three);
    reports(&rt, &session, whole);
    let session = back(&rt, session, 8);
    reports(&rt, &session, "2 key 1\n6 key 2\n");
    let session = back(&rt, session, 2);
    reports(&rt, &session, "");
}

/// The write at cycle 3 shows digits in PROG. Rewinding to the start shows the blank panel again.
#[test]
fn the_panel_goes_back_too(rt: HostRuntime) {
    let mut session = session_of(&rt, RELAY_WORD, "", 100);
    let blank = session.panel().face();
    let write = ChannelWrite {
        cycle: 3,
        channel: 0o10,
        value: Narrow::with_bits(0o54171),
    };
    equal(&rt, session.go_on(50), Stepped::Wrote(write));
    assert!(rt; session.panel().face() != blank);
    equal(&rt, session.go_on(50), Stepped::Quiet);
    is_at(&rt, &session, 50);
    let session = back(&rt, session, 0);
    is_at(&rt, &session, 0);
    equal(&rt, session.panel().face(), blank);
}

/// Turns PRO at a cycle.
#[tactic(auto, unfolding(agc_script::specs::Event::IsWhatInRange))]
fn turn_pro_at(rt: &impl Abort, session: &mut Session, cycle: u64, down: bool) {
    session.go_to(cycle);
    equal_at(rt, down, session.inject(What::Pro(down)), Ok(()));
}

/// Goes back to the newest copy before a cycle, and checks where it is and how many writes there are up to it.
fn near(
    rt: &(impl AllocGlobal + Abort),
    session: Session,
    before: u64,
    cycle: u64,
    writes: usize,
) -> Session {
    let rewound = session
        .rewind_near(rt.alloc(), before, before)
        .ok()
        .expect(rt, "memory");
    is_at(rt, &rewound.session, cycle);
    equal(rt, rewound.writes, writes);
    rewound.session
}

/// A copy is made every 262,144 cycles, and the third one takes the place of the first. The write comes at cycle 3, so
/// every copy counts it and shows its digits. Before the second copy only the start is left.
#[test]
fn copies_are_gone_back_to(rt: HostRuntime) {
    let mut session = session_of(&rt, RELAY_WORD, "", 2_000_000);
    let blank = session.panel().face();
    turn_pro_at(&rt, &mut session, 300_000, true);
    let digits = session.panel().face();
    turn_pro_at(&rt, &mut session, 700_000, false);
    session.go_to(1_000_000);
    let session = near(&rt, session, 800_000, 786_432, 1);
    reports(&rt, &session, "300000 pro down\n700000 pro up\n");
    let session = near(&rt, session, 700_000, 524_288, 1);
    equal(&rt, session.panel().face(), digits);
    reports(&rt, &session, "300000 pro down\n");
    let session = near(&rt, session, 524_288, 0, 0);
    equal(&rt, session.panel().face(), blank);
    reports(&rt, &session, "300000 pro down\n");
    let mut session = back(&rt, session, 300_000);
    reports(&rt, &session, "");
    is_at(&rt, &session, 300_000);
    session.go_to(300_100);
    equal(&rt, session.panel().face(), digits);
}
