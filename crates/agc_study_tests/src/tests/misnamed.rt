//! Tests a listing line whose mnemonic does not match its word, and which faults are one. `tests/study` compares the remarks.
use super::same;
use agc_asm::{FaultyLine, SourceFault};
use agc_listing_check::{Written, first_misnamed, is_same_fault};
use agc_order::Basic;

/// The remark on a line, and that INDEX alone is read as the basic order.
#[test]
fn a_line_is_found(rt: HostRuntime) {
    let misnamed = first_misnamed(b"4000 34004 CA\n4001 14000 INDEX\n4002 00000 CS").expect(
        &rt, "a remark",
    );
    let written = misnamed.written;
    same(&rt, misnamed.line, 2, "line");
    same(&rt, misnamed.word.bits(), 0o14000, "word");
    same(&rt, written, Written::Basic(Basic::Index), "written");
    same(&rt, written.is_extracode(), false, "extracode");
    same(&rt, written.mnemonic(), "INDEX", "mnemonic");
}

/// An unknown name is one fault, in whichever line. Other faults are one if they are in one line.
#[test]
fn faults_are_one(rt: HostRuntime) {
    let here = FaultyLine::new(1, b" CA FOO", SourceFault::UnknownName);
    let there = FaultyLine::new(2, b"HERE EQUALS FOO", SourceFault::UnknownName);
    let other = FaultyLine::new(2, b" CA BAR", SourceFault::UnknownName);
    same(&rt, is_same_fault(here, there), true, "one name");
    same(&rt, is_same_fault(here, other), false, "two names");
    same(&rt, is_same_fault(there, other), true, "one line");
}
