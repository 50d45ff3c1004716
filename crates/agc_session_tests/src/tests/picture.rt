//! Tests pictures of a panel that was worked out by hand. The words of the writes are octal.
use super::{equal, equal_at, session_of};
use agc_script::Key;
use agc_tui::{Button, ColorMode, Size, View, render};
use std::process::Abort;

/// Writes relay words for PROG 12, for +1 and then 9 in R1, and then lights COMP ACTY, TEMP and the flash.
static SHOWS: &str = "
4000 34020 CA 4020
4001 00006 EXTEND
4002 01010 WRITE 10
4003 34021 CA 4021
4004 00006 EXTEND
4005 01010 WRITE 10
4006 34022 CA 4022
4007 00006 EXTEND
4010 01010 WRITE 10
4011 34023 CA 4023
4012 00006 EXTEND
4013 01011 WRITE 11
4014 14014 TCF 4014
4020 54171
4021 40003
4022 36037
4023 00052
";

/// Returns the picture after these writes, which take five cycles each, in the lit half of the flash.
fn picture(rt: &(impl AllocGlobal + Abort), size: Size) -> String {
    let mut session = session_of(rt, SHOWS, "", 100);
    session.go_to(20);
    let view = View {
        size,
        color: ColorMode::Plain,
        blink_off: false,
        pressed: None,
    };
    let mut text = String::new(rt.alloc());
    render(&mut text, view, &session).ok().expect(rt, "memory");
    text
}

/// Checks that a text has these lines from line `first` on.
fn has_lines(rt: &(impl AllocGlobal + Abort), text: &str, first: usize, lines: &[&str]) {
    for (line, want) in text.lines().skip(first).zip(lines.iter()) {
        assert_eq!(rt; line, *want);
    }
    assert!(rt; first.saturating_add(lines.len()) <= text.lines().count());
}

/// At a height of one line, digits look as the panel prints them, and a lamp that is on has a mark. The keyboard
/// comes below an empty line.
#[test]
fn small_face(rt: HostRuntime) {
    let text = picture(&rt, Size::Small);
    let want = [
        "  UPLINK ACTY *TEMP           *COMP ACTY      PROG 12",
        "  NO ATT       GIMBAL LOCK    ",
        "               PROG           VERB __         NOUN __",
        "  KEY REL                     ",
        "  OPR ERR      TRACKER        R1 +1_9__",
        "               ALT            R2 ______",
        "  ISS          VEL            R3 ______",
        "",
    ];
    has_lines(&rt, &text, 0, &want);
    equal(&rt, text.as_str().lines().count(), 12);
}

/// At a height of three lines, digits and signs are made of bars.
#[test]
fn large_face(rt: HostRuntime) {
    let text = picture(&rt, Size::Large);
    let head = [
        "  UPLINK ACTY *TEMP           *COMP ACTY      PROG",
        "                                                ╻ ╺━┓ ",
        "  NO ATT       GIMBAL LOCK                      ┃ ┏━┛ ",
        "                                                ╹ ┗━╸ ",
    ];
    has_lines(&rt, &text, 0, &head);
    let register = [
        "  OPR ERR      TRACKER         ╻    ╻     ┏━┓         ",
        "                              ╺╋╸   ┃     ┗━┫         ",
        "               ALT             ╹    ╹     ╺━┛         ",
    ];
    has_lines(&rt, &text, 8, &register);
    has_lines(&rt, &text, 17, &[""]);
    equal(&rt, text.as_str().lines().count(), 22);
}

/// Checks what a byte types.
fn types(rt: &impl Abort, byte: u8, wanted: Option<Button>) {
    equal_at(rt, byte, Button::from_byte(byte), wanted);
}

/// Keys are typed by the bytes that the page names, and by no other.
#[test]
fn bytes_type_keys(rt: HostRuntime) {
    types(&rt, b'v', Some(Button::Coded(Key::Verb)));
    types(&rt, b'\r', Some(Button::Coded(Key::Enter)));
    types(&rt, b'p', Some(Button::Pro));
    types(&rt, b'V', None);
}
