//! Tests one conversation, worked out by hand from the program and the cycles of its orders. Others are in
//! `tests/agc.d`.
use super::console::answers;
use super::session_of;
use agc_test_support::RELAY_WORD;

#[test]
fn ten_lines_are_answered_in_turn(rt: HostRuntime) {
    let parsed = b"go to 3\nnext\nstep\nwrites\nkey VERB\n\ngo 10\nscript\nback 3\nwrites\n";
    let wanted = "at 3
next 4002 01010 WRITE 010
at 3
3 4002 01010 WRITE 010 > 010 54171 | A 154171 L 00000 Q 000000 Z 4004 EB 0 FB 00
at 5
writes 1
at 5
at 5
at 5
at 15
5 key VERB
at 15
at 3
writes 0
at 3
";
    answers(&rt, session_of(&rt, RELAY_WORD, "", 1000), parsed, wanted);
}
