//! Tests of what is typed to and injected into a running machine, worked out by hand.
mod answer;
mod back;
mod console;
mod conversation;
mod operands;
mod operator;
mod picture;
mod request;
mod saving;
mod search;
mod session;

use agc_script::{Key, Script, What};
use agc_session::{InjectFault, Session};
use agc_store::Rope;
use agc_test_support::rope_file;
use std::fmt::Debug;
use std::process::Abort;

/// Fails if two values differ, and prints both. It is proved once; an `assert_eq!` would be proved at each place.
fn equal<T: Drop + PartialEq + Debug>(rt: &impl Abort, found: T, wanted: T) {
    assert_eq!(rt; found, wanted);
}

/// The same for an input or an action, which is printed too.
fn equal_at<R: Drop + Debug, T: Drop + PartialEq + Debug>(
    rt: &impl Abort,
    done: R,
    found: T,
    wanted: T,
) {
    assert_eq!(rt; found, wanted, "{done:?}");
}

/// Returns a session at cycle 0 with the rope of this listing and a script, or ends the test; so do the helpers
/// below. A test that returned failures would take the prover many times as long.
fn session_of(rt: &(impl AllocGlobal + Abort), listing: &str, script: &str, limit: u64) -> Session {
    let bytes = rope_file(rt.alloc(), listing)
        .ok()
        .expect(rt, "a rope file");
    let rope = Rope::read(rt.alloc(), bytes.as_slice())
        .ok()
        .expect(rt, "a rope");
    let script = Script::parse(rt.alloc(), script.as_bytes())
        .ok()
        .expect(rt, "a script");
    Session::new(rt.alloc(), rope, script, limit)
        .ok()
        .expect(rt, "the limit is in range")
}

/// Checks that a script was exported, and that this is its text.
fn has_text(rt: &(impl AllocGlobal + Abort), reported: Option<Script>, wanted: &str) {
    let mut text = String::new(rt.alloc());
    let script = reported.expect(rt, "memory");
    assert!(rt; script.push_text(&mut text).is_ok());
    equal(rt, text.as_str(), wanted);
}

/// Checks that a session accepts a key, or rejects it.
#[tactic(auto, unfolding(agc_script::specs::Event::IsWhatInRange))]
fn press(rt: &impl Abort, session: &mut Session, key: Key, wanted: Result<(), InjectFault>) {
    equal_at(rt, key, session.inject(What::Key(key)), wanted);
}
