//! Tests the panel on known words: the worked panel, each digit code, each lamp alone.
use agc_panel::{Panel, PanelLine};
use agc_word::{ChannelWrite, Narrow};
use std::process::Abort;

/// The lines of digits and signs if none is shown.
const NO_FIELDS: &str = "PROG __\nVERB __\nNOUN __\nR1 ______\nR2 ______\nR3 ______\n";

fn write(rt: &impl Abort, channel: u16, bits: u16) -> ChannelWrite {
    ChannelWrite {
        cycle: 0,
        channel,
        value: Narrow::from_bits(bits).expect(rt, "a word of fifteen bits"),
    }
}

/// Checks what a panel shows.
fn has_text(rt: &(impl AllocGlobal + Abort), panel: &Panel, wanted: &str) {
    let text = panel.text(rt.alloc()).expect(rt, "memory");
    assert_eq!(rt; text.as_str(), wanted);
}

#[test]
fn starts_blank(rt: HostRuntime) {
    let panel = Panel::new();
    has_text(
        &rt,
        &panel,
        "PROG __\nVERB __\nNOUN __\nR1 ______\nR2 ______\nR3 ______\nFLASH off\nLAMPS none\n",
    );
    assert!(rt; !panel.face().flash);
}

#[test]
fn panel_from_relay_words(rt: HostRuntime) {
    let mut panel = Panel::new();
    for bits in [0o54171, 0o51563, 0o14777, 0o44040, 0o37265, 0o33265] {
        panel.take(&write(&rt, 0o10, bits));
    }
    has_text(
        &rt,
        &panel,
        "PROG 12\nVERB 37\nNOUN ?_\nR1 +_0000\nR2 _____4\nR3 _9____\nFLASH off\nLAMPS none\n",
    );

    panel.take(&write(&rt, 0o11, 0o00142));
    has_text(
        &rt,
        &panel,
        "PROG 12\nVERB 37\nNOUN ?_\nR1 +_0000\nR2 _____4\nR3 _9____\nFLASH on\nLAMPS COMP ACTY, OPR ERR\n",
    );
}

/// Checks that a line is parsed, printed as it was written, and shown by a panel or not.
fn line_is_shown(rt: &(impl AllocGlobal + Abort), panel: &Panel, line: &str, wanted: bool) {
    let parsed = PanelLine::parse(line.as_bytes()).expect(rt, "a line of the panel");
    let mut text = String::new(rt.alloc());
    parsed.push_to(&mut text).expect(rt, "memory");
    assert_eq!(rt; text.as_str(), line);
    assert_eq!(rt; panel.face().shows(&parsed), wanted);
}

#[test]
fn lines_are_parsed_and_shown(rt: HostRuntime) {
    let mut panel = Panel::new();
    for bits in [0o54171, 0o51563, 0o14777, 0o44040, 0o37265, 0o33265] {
        panel.take(&write(&rt, 0o10, bits));
    }
    panel.take(&write(&rt, 0o11, 0o00142));
    for line in [
        "PROG 12",
        "VERB 37",
        "NOUN ?_",
        "R1 +_0000",
        "R2 _____4",
        "R3 _9____",
        "FLASH on",
        "LAMPS COMP ACTY",
        "LAMPS OPR ERR",
    ] {
        line_is_shown(&rt, &panel, line, true);
    }
    for line in [
        "PROG 21",
        "R1 -_0000",
        "R2 _9____",
        "FLASH off",
        "LAMPS TEMP",
    ] {
        line_is_shown(&rt, &panel, line, false);
    }
    for line in [
        "",
        "PROG",
        "PROG 123",
        "R1 12345",
        "FLASH",
        "LAMPS COMP",
        "R0 +00000",
    ] {
        assert!(rt; PanelLine::parse(line.as_bytes()).is_none());
    }
}

#[test]
fn every_digit_code(rt: HostRuntime) {
    let mut panel = Panel::new();
    let glyphs = b"_??1???????????4???7?0???2?36859";
    for (code, glyph) in (0u16..).zip(glyphs) {
        panel.take(&write(&rt, 0o10, 0o10 * 0o4000 + code % 0o40));
        let shown = second_glyph_of_r1(&rt, &panel);
        assert!(rt; shown == Some(*glyph), "code {code}");
    }
}

/// Returns the character after the sign and the first digit of R1.
fn second_glyph_of_r1(rt: &(impl AllocGlobal + Abort), panel: &Panel) -> Option<u8> {
    let text = panel.text(rt.alloc()).expect(rt, "memory");
    let place = "PROG __\nVERB __\nNOUN __\nR1 _".len();
    text.as_bytes().get(place).copied()
}

/// Checks what a panel shows after a single write: the lines of digits and signs, and the last two.
fn shows(rt: &(impl AllocGlobal + Abort), channel: u16, bits: u16, lines: &str, last_lines: &str) {
    let mut panel = Panel::new();
    panel.take(&write(rt, channel, bits));
    let text = panel.text(rt.alloc()).expect(rt, "memory");
    let rest = text.as_str().strip_prefix(lines);
    assert!(rt; rest == Some(last_lines), "{channel:03o} {bits:05o} {text}");
}

/// Returns the relay word of a row with the sign on, a left 1 (code 3) and a right 2 (code 31 octal).
fn relay_word(row: u16) -> u16 {
    row % 0o20 * 0o4000 + 0o2000 + 0o3 * 0o40 + 0o31
}

#[test]
fn every_row_alone(rt: HostRuntime) {
    for (row, fields) in [
        (0, NO_FIELDS),
        (
            1,
            "PROG __\nVERB __\nNOUN __\nR1 ______\nR2 ______\nR3 -___12\n",
        ),
        (
            2,
            "PROG __\nVERB __\nNOUN __\nR1 ______\nR2 ______\nR3 +_12__\n",
        ),
        (
            3,
            "PROG __\nVERB __\nNOUN __\nR1 ______\nR2 _____1\nR3 _2____\n",
        ),
        (
            4,
            "PROG __\nVERB __\nNOUN __\nR1 ______\nR2 -__12_\nR3 ______\n",
        ),
        (
            5,
            "PROG __\nVERB __\nNOUN __\nR1 ______\nR2 +12___\nR3 ______\n",
        ),
        (
            6,
            "PROG __\nVERB __\nNOUN __\nR1 -___12\nR2 ______\nR3 ______\n",
        ),
        (
            7,
            "PROG __\nVERB __\nNOUN __\nR1 +_12__\nR2 ______\nR3 ______\n",
        ),
        (
            8,
            "PROG __\nVERB __\nNOUN __\nR1 _2____\nR2 ______\nR3 ______\n",
        ),
        (
            9,
            "PROG __\nVERB __\nNOUN 12\nR1 ______\nR2 ______\nR3 ______\n",
        ),
        (
            10,
            "PROG __\nVERB 12\nNOUN __\nR1 ______\nR2 ______\nR3 ______\n",
        ),
        (
            11,
            "PROG 12\nVERB __\nNOUN __\nR1 ______\nR2 ______\nR3 ______\n",
        ),
        (13, NO_FIELDS),
        (14, NO_FIELDS),
        (15, NO_FIELDS),
    ] {
        shows(
            &rt,
            0o10,
            relay_word(row),
            fields,
            "FLASH off\nLAMPS none\n",
        );
    }
}

/// Checks what a write that sets only lamps shows.
fn lamps_show(rt: &(impl AllocGlobal + Abort), channel: u16, bits: u16, last_lines: &str) {
    shows(rt, channel, bits, NO_FIELDS, last_lines);
}

#[test]
fn every_lamp_alone(rt: HostRuntime) {
    for (channel, bits, lines) in [
        (0o10, 0o60004, "FLASH off\nLAMPS VEL\n"),
        (0o10, 0o60010, "FLASH off\nLAMPS NO ATT\n"),
        (0o10, 0o60020, "FLASH off\nLAMPS ALT\n"),
        (0o10, 0o60040, "FLASH off\nLAMPS GIMBAL LOCK\n"),
        (0o10, 0o60200, "FLASH off\nLAMPS TRACKER\n"),
        (0o10, 0o60400, "FLASH off\nLAMPS PROG\n"),
        (0o10, 0o63103, "FLASH off\nLAMPS none\n"),
        (0o11, 0o00001, "FLASH off\nLAMPS ISS\n"),
        (0o11, 0o00002, "FLASH off\nLAMPS COMP ACTY\n"),
        (0o11, 0o00004, "FLASH off\nLAMPS UPLINK ACTY\n"),
        (0o11, 0o00010, "FLASH off\nLAMPS TEMP\n"),
        (0o11, 0o00020, "FLASH off\nLAMPS KEY REL\n"),
        (0o11, 0o00040, "FLASH on\nLAMPS none\n"),
        (0o11, 0o00100, "FLASH off\nLAMPS OPR ERR\n"),
        (0o11, 0o77600, "FLASH off\nLAMPS none\n"),
        (0o12, 0o77777, "FLASH off\nLAMPS none\n"),
    ] {
        lamps_show(&rt, channel, bits, lines);
    }
}

#[test]
fn last_write_of_a_field_shows(rt: HostRuntime) {
    let mut panel = Panel::new();
    // all lamps on, both signs of R1 on, then relay row 6 and channel 11 again, and relay row 12 dark
    for (channel, bits) in [
        (0o10, 0o60674),
        (0o11, 0o00177),
        (0o10, 0o36000),
        (0o10, 0o32000),
    ] {
        panel.take(&write(&rt, channel, bits));
    }
    has_text(
        &rt,
        &panel,
        "PROG __\nVERB __\nNOUN __\nR1 +_____\nR2 ______\nR3 ______\nFLASH on\nLAMPS COMP ACTY, UPLINK ACTY, NO ATT, TEMP, GIMBAL LOCK, PROG, KEY REL, OPR ERR, TRACKER, ALT, VEL, ISS\n",
    );

    for (channel, bits) in [(0o10, 0o34000), (0o11, 0o00020), (0o10, 0o60000)] {
        panel.take(&write(&rt, channel, bits));
    }
    has_text(
        &rt,
        &panel,
        "PROG __\nVERB __\nNOUN __\nR1 -_____\nR2 ______\nR3 ______\nFLASH off\nLAMPS KEY REL\n",
    );
}

#[test]
fn update_says_whether_something_else_shows(rt: HostRuntime) {
    let mut panel = Panel::new();
    for (channel, bits, is_changed) in [
        // rows without fields, and another channel
        (0o10, 0o00000, false),
        (0o10, 0o70000, false),
        (0o12, 0o00177, false),
        (0o10, 0o54171, true),
        (0o10, 0o54171, false),
        (0o11, 0o00002, true),
        (0o11, 0o00002, false),
        // the plus of R1, then its minus, which plus hides, then minus alone
        (0o10, 0o36000, true),
        (0o10, 0o32000, false),
        (0o10, 0o34000, true),
        // the six lamps of a relay word
        (0o10, 0o60674, true),
        (0o10, 0o60674, false),
    ] {
        let before = panel;
        assert_eq!(rt; panel.update(&write(&rt, channel, bits)), is_changed);
        assert_eq!(rt; before.shows_same(&panel), !is_changed);
    }
    has_text(
        &rt,
        &panel,
        "PROG 12\nVERB __\nNOUN __\nR1 -_____\nR2 ______\nR3 ______\nFLASH off\nLAMPS COMP ACTY, NO ATT, GIMBAL LOCK, PROG, TRACKER, ALT, VEL\n",
    );
}
