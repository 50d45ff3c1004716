//! Tests of words, memory, orders, scripts and the machine, with values and runs worked out by hand.
mod interpretive;
mod listing;
mod machine;
mod order;
mod processor;
mod script;
mod store;
mod word;

use agc_script::Script;
use agc_store::Rope;
use agc_test_support::rope_file;
use std::fmt::Debug;
use std::process::Abort;

/// Fails if two values differ, and prints both. It is proved once; an `assert_eq!` would be proved at each place.
fn equal<T: Drop + PartialEq + Debug>(rt: &impl Abort, found: T, wanted: T) {
    assert_eq!(rt; found, wanted);
}

/// The same for a row of a table, which is printed too.
fn equal_at<R: Drop + Debug, T: Drop + PartialEq + Debug>(
    rt: &impl Abort,
    row: R,
    found: T,
    wanted: T,
) {
    assert_eq!(rt; found, wanted, "{row:?}");
}

/// Returns the rope of a listing, with +0 between its words, or ends the test; so do the helpers below. A test that
/// returned failures would take the prover many times as long.
fn rope(rt: &(impl AllocGlobal + Abort), listing: &str) -> Rope {
    let bytes = rope_file(rt.alloc(), listing)
        .ok()
        .expect(rt, "a rope file");
    Rope::read(rt.alloc(), bytes.as_slice())
        .ok()
        .expect(rt, "a rope")
}

fn parse(rt: &(impl AllocGlobal + Abort), script: &[u8]) -> Script {
    Script::parse(rt.alloc(), script)
        .ok()
        .expect(rt, "a script")
}
