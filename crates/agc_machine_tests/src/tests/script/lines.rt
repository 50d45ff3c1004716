//! Tests how a file is split into lines and words.
use super::*;
use agc_word::{next_line, next_word};

#[test]
fn lines_and_words(rt: HostRuntime) {
    let want = [raise(1, 1), raise(2, 2)];
    lists(&rt, b"1 raise 1\n2 raise 2", &want);
    lists(&rt, b"1 raise 1\n2 raise 2\n", &want);
    lists(&rt, b"1 raise 1\r\n2 raise 2\r\n", &want);
    lists(&rt, b"1 raise 1\r\n2 raise 2\r", &want);
    let spaced = b"\n\t 1\traise \t 1 \n\n# 0 raise 3\n  #\n2 raise 2\t\n\n";
    lists(&rt, spaced, &want);
    refuses(
        &rt,
        &[
            (b"# \x80", 1, FaultKind::NotAscii),
            (b"\n\xEF\xBB\xBF0 raise 1", 2, FaultKind::NotAscii),
            (b"0 raise 1\r\r\n", 1, FaultKind::BadNumber),
            (b"\r\r", 1, FaultKind::BadCycle),
            (b"0 raise 1\r0 raise 2", 1, FaultKind::UnknownWord),
            (b"0\x0Braise 1", 1, FaultKind::BadCycle),
            (b"+5 raise 1", 1, FaultKind::BadCycle),
            (b"0 pulse x y", 1, FaultKind::UnknownWord),
        ],
    );
}

/// The length limit and the ASCII check also apply to comments and blank lines.
#[test]
fn comments_and_blanks(rt: HostRuntime) {
    let comment = repeated(&rt, b"#", 120);
    let blanks = repeated(&rt, b" ", 120);
    accepts(&rt, &[&comment, &blanks]);
    let comment = repeated(&rt, b"#", 121);
    let blanks = repeated(&rt, b"\t", 121);
    refuses(
        &rt,
        &[
            (&comment, 1, FaultKind::LineTooLong),
            (&blanks, 1, FaultKind::LineTooLong),
            (b"#\x80", 1, FaultKind::NotAscii),
            (b" # \xFF 0 raise 1", 1, FaultKind::NotAscii),
        ],
    );
}

/// The first line of a file without its end, and the rest.
#[test]
fn first_lines(rt: HostRuntime) {
    has_first_line(&rt, b"one\ntwo\n", b"one", b"two\n");
    has_first_line(&rt, b"one\n", b"one", b"");
    has_first_line(&rt, b"one", b"one", b"");
    has_first_line(&rt, b"one\r\ntwo", b"one", b"two");
    has_first_line(&rt, b"one\r", b"one", b"");
    has_first_line(&rt, b"one\r\r\n", b"one\r", b"");
    has_first_line(&rt, b"o\rne\ntwo", b"o\rne", b"two");
    has_first_line(&rt, b"\n\ntwo", b"", b"\ntwo");
    has_first_line(&rt, b"\r\n", b"", b"");
    has_first_line(&rt, b" \t\ntwo", b" \t", b"two");
    has_first_line(&rt, b"# one\n2 key 5", b"# one", b"2 key 5");
    equal(&rt, next_line(b""), None);
}

fn has_first_line(rt: &impl Abort, file: &[u8], line: &[u8], rest: &[u8]) {
    equal_at(rt, file, next_line(file), Some((line, rest)));
}

/// The first word of a line, and the rest: only spaces and tabs separate words.
#[test]
fn first_words(rt: HostRuntime) {
    has_first_word(&rt, b"one two", b"one", b" two");
    has_first_word(&rt, b"one\ttwo", b"one", b"\ttwo");
    has_first_word(&rt, b" \t one  two ", b"one", b"  two ");
    has_first_word(&rt, b"one", b"one", b"");
    has_first_word(&rt, b"one ", b"one", b" ");
    has_first_word(&rt, b"# one", b"#", b" one");
    has_first_word(&rt, b"one#two", b"one#two", b"");
    has_first_word(&rt, b"one\r\ntwo three", b"one\r\ntwo", b" three");
    has_no_word(&rt, b"");
    has_no_word(&rt, b" ");
    has_no_word(&rt, b"\t \t");
}

fn has_first_word(rt: &impl Abort, line: &[u8], word: &[u8], rest: &[u8]) {
    equal_at(rt, line, next_word(line), Some((word, rest)));
}

fn has_no_word(rt: &impl Abort, line: &[u8]) {
    equal_at(rt, line, next_word(line), None);
}
