//! Tests rejected scripts: which line is reported, and which of its faults.
use super::*;

#[test]
fn script_faults(rt: HostRuntime) {
    let long = repeated(&rt, b"0", 121);
    refuses(
        &rt,
        &[
            (&long, 1, FaultKind::LineTooLong),
            (b"\xFF", 1, FaultKind::NotAscii),
            (b"5 key 1\n4 key 2", 2, FaultKind::OutOfOrder),
            (b"11111111111111111111 key 1", 1, FaultKind::BadCycle),
            (b"# x\n0 input 1000 0", 2, FaultKind::OutOfRange),
            (b"0 key VERB\n0 key FOO", 2, FaultKind::UnknownWord),
            (b"0 input 10 9", 1, FaultKind::BadNumber),
            (b"0 raise 1\n\xFF", 2, FaultKind::NotAscii),
        ],
    );
    assert!(rt; parse(&rt, b"").is_empty());
    assert!(rt; !parse(&rt, b"0 raise 1").is_empty());
    let full = repeated(&rt, b"0 raise 1\n", MOST_EVENTS + 1);
    refuses(&rt, &[(&full, MOST_EVENTS + 1, FaultKind::TooMany)]);
    let full = repeated(&rt, b"0 raise 1\n", MOST_EVENTS);
    equal(&rt, parse(&rt, &full).len(), MOST_EVENTS);
}

#[test]
fn poke_line_faults(rt: HostRuntime) {
    refuses(
        &rt,
        &[
            (b"5 poke 0 100 1\n4 poke 0 100 1", 2, FaultKind::OutOfOrder),
            (b"0 poke 0 7 1", 1, FaultKind::OutOfRange),
            (b"0 poke 8 400 1", 1, FaultKind::BadNumber),
            (b"0 poke 0 100", 1, FaultKind::UnknownWord),
        ],
    );
}

#[test]
fn script_edges(rt: HostRuntime) {
    refuses(
        &rt,
        &[
            (b"1000000000001 raise 1", 1, FaultKind::BadCycle),
            (b"0", 1, FaultKind::UnknownWord),
            (b"0 raise 11", 1, FaultKind::OutOfRange),
            (b"0 raise 0000001", 1, FaultKind::BadNumber),
            (b"0 pulse 23 pinc", 1, FaultKind::OutOfRange),
            (b"0 poke 9 400 1", 1, FaultKind::BadNumber),
        ],
    );
    accepts(&rt, &[b"1000000000000 raise 1"]);
    let too_long = Some(FaultKind::LineTooLong);
    ends_with(&rt, " \r\n", None);
    ends_with(&rt, "\r\n", None);
    ends_with(&rt, "  \r\n", too_long);
    ends_with(&rt, " ", None);
    ends_with(&rt, "  ", too_long);
    ends_with(&rt, " \r", None);
}

/// Checks that a line of 119 bytes plus this end is rejected with this kind of fault, or accepted.
fn ends_with(rt: &(impl AllocGlobal + Abort), end: &str, kind: Option<FaultKind>) {
    let blanks = repeated(rt, b" ", 111);
    let file = joined(rt, &[b"0 raise", &blanks, b"1", end.as_bytes()]);
    equal_at(rt, end, fault(rt, &file).map(|fault| fault.kind), kind);
}

/// If a line has two faults, the first in the list of kinds is reported.
#[test]
fn first_kind(rt: HostRuntime) {
    let long = joined(&rt, &[&[b'x'; 120], b"\xFF"]);
    refuses(
        &rt,
        &[
            (&long, 1, FaultKind::LineTooLong),
            (b"x\x80", 1, FaultKind::NotAscii),
            (b"5 raise 1\nx foo", 2, FaultKind::BadCycle),
            (b"5 raise 1\n4 foo", 2, FaultKind::OutOfOrder),
            (b"0 input 9", 1, FaultKind::UnknownWord),
            (b"0 pulse 9 foo", 1, FaultKind::UnknownWord),
            (b"0 poke 8 400 1", 1, FaultKind::BadNumber),
            (b"0 input 1000 8", 1, FaultKind::BadNumber),
            (
                b"every 1 0 65535 raise 1\n0 raise 11",
                2,
                FaultKind::OutOfRange,
            ),
            (
                b"every 1 0 65535 raise 1\n0 raise 10",
                2,
                FaultKind::TooMany,
            ),
        ],
    );
}

/// If several lines are faulty, the first is reported, whatever its kind.
#[test]
fn first_line(rt: HostRuntime) {
    refuses(
        &rt,
        &[
            (b"0 raise 11\nx\n\xFF", 1, FaultKind::OutOfRange),
            (b"0 raise 1\n0 raise 1 1\nx", 2, FaultKind::UnknownWord),
            (
                b"# x\n\n5 raise 1\n# y\n4 raise 1\nx",
                5,
                FaultKind::OutOfOrder,
            ),
        ],
    );
}

/// Commands with too few words or too many, and words that are not in the grammar.
#[test]
fn unknown_words(rt: HostRuntime) {
    for lines in [
        b"0; 0 #; 0 every 1 0 5 raise 1".as_slice(),
        b"0 key; 0 key verb; 0 key VERB NOUN; 0 key PRO".as_slice(),
        b"0 pro; 0 pro left; 0 pro Down; 0 pro up down".as_slice(),
        b"0 input 30; 0 input 30 0 0; 0 poke 0 100; 0 poke 0 100 1 1".as_slice(),
        b"0 pulse 30; 0 pulse pinc 30; 0 pulse 30 PINC; 0 pulse 30 dinc".as_slice(),
        b"0 pulse 30 pinc 1; 0 raise; 0 raise 1 1; 0 Raise 1".as_slice(),
    ] {
        refuses_each(&rt, FaultKind::UnknownWord, lines);
    }
}

#[test]
fn faults_have_texts(rt: HostRuntime) {
    let fault = ScriptFault {
        line: 7,
        kind: FaultKind::TooMany,
    };
    let text = format!(in rt.alloc(); "{fault}").expect(&rt, "memory");
    equal(
        &rt,
        text.as_str(),
        "line 7: there are more than 65536 events",
    );
}
