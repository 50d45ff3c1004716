//! Draws the face: the digits beside the lamps.
use super::color::{ColorMode, Style};
use super::lamps::{LampLine, push_lamp, push_lamps};
use super::segment::{Row, digit_row, sign_row};
use agc_panel::{Face, Lamp, Lamps, Pair, Register};
use std::alloc::AllocError;

/// Three lines of digits, each with the lamps beside it.
type Lines = [(Row, LampLine); 3];

/// Returns three lines of digits with lamps beside the middle one.
fn lines_around(middle: LampLine) -> Lines {
    [
        (Row::Top, LampLine::Empty),
        (Row::Middle, middle),
        (Row::Bottom, LampLine::Empty),
    ]
}

/// The lines of R1.
const R1_LINES: Lines = [
    (Row::Top, LampLine::ErrorTracker),
    (Row::Middle, LampLine::Empty),
    (Row::Bottom, LampLine::Altitude),
];

/// Adds the face with digits three lines high: 17 lines.
pub(crate) fn push_large_face(
    text: &mut String,
    color: ColorMode,
    face: &Face,
) -> Result<(), AllocError> {
    push_large_program(text, color, face)?;
    push_large_verb_noun(text, color, face)?;
    let lamps = &face.lamps;
    push_large_register(text, color, R1_LINES, lamps, &face.r1)?;
    let r2_lines = lines_around(LampLine::InertialVelocity);
    push_large_register(text, color, r2_lines, lamps, &face.r2)?;
    let r3_lines = lines_around(LampLine::Empty);
    push_large_register(text, color, r3_lines, lamps, &face.r3)
}

/// Adds four lines: the program below its name.
fn push_large_program(text: &mut String, color: ColorMode, face: &Face) -> Result<(), AllocError> {
    push_lamps(text, color, LampLine::UplinkTemp, &face.lamps)?;
    push_lamp(text, color, &face.lamps, Lamp::CompActy)?;
    text.push_str("   PROG\n")?;
    for (row, beside) in lines_around(LampLine::AttitudeGimbal) {
        push_lamps(text, color, beside, &face.lamps)?;
        text.push_str("                ")?;
        push_pair_row(text, color, row, face.program)?;
        text.push_str("\n")?;
    }
    Ok(())
}

/// Adds four lines: verb and noun below their names.
fn push_large_verb_noun(
    text: &mut String,
    color: ColorMode,
    face: &Face,
) -> Result<(), AllocError> {
    push_lamps(text, color, LampLine::Program, &face.lamps)?;
    text.push_str("VERB            NOUN\n")?;
    for (row, beside) in lines_around(LampLine::KeyRelease) {
        push_lamps(text, color, beside, &face.lamps)?;
        push_pair_row(text, color, row, face.verb)?;
        text.push_str("        ")?;
        push_pair_row(text, color, row, face.noun)?;
        text.push_str("\n")?;
    }
    Ok(())
}

/// Adds the three lines of a register.
fn push_large_register(
    text: &mut String,
    color: ColorMode,
    lines: Lines,
    lamps: &Lamps,
    register: &Register,
) -> Result<(), AllocError> {
    for (row, beside) in lines {
        push_lamps(text, color, beside, lamps)?;
        push_register_row(text, color, row, register)?;
        text.push_str("\n")?;
    }
    Ok(())
}

fn push_pair_row(
    text: &mut String,
    color: ColorMode,
    row: Row,
    pair: Pair,
) -> Result<(), AllocError> {
    let (start, end) = (color.start(Style::Segment), color.end());
    let (left, right) = (digit_row(row, pair.left), digit_row(row, pair.right));
    write!(text, "{start}{left} {right} {end}")
}

fn push_register_row(
    text: &mut String,
    color: ColorMode,
    row: Row,
    register: &Register,
) -> Result<(), AllocError> {
    let Register {
        d1,
        d2,
        d3,
        d4,
        d5,
        ..
    } = *register;
    text.push_str(color.start(Style::Segment))?;
    text.push_str(sign_row(row, register.sign()))?;
    for digit in [d1, d2, d3, d4, d5] {
        text.push_str(" ")?;
        text.push_str(digit_row(row, digit))?;
    }
    text.push_str(" ")?;
    text.push_str(color.end())
}

/// Adds the face with digits one line high: 7 lines.
pub(crate) fn push_small_face(
    text: &mut String,
    color: ColorMode,
    face: &Face,
) -> Result<(), AllocError> {
    let lamps = &face.lamps;
    push_lamps(text, color, LampLine::UplinkTemp, lamps)?;
    push_lamp(text, color, lamps, Lamp::CompActy)?;
    text.push_str("   PROG ")?;
    push_pair(text, color, face.program)?;
    text.push_str("\n")?;
    push_lamps(text, color, LampLine::AttitudeGimbal, lamps)?;
    text.push_str("\n")?;
    push_lamps(text, color, LampLine::Program, lamps)?;
    text.push_str("VERB ")?;
    push_pair(text, color, face.verb)?;
    text.push_str("         NOUN ")?;
    push_pair(text, color, face.noun)?;
    text.push_str("\n")?;
    push_lamps(text, color, LampLine::KeyRelease, lamps)?;
    text.push_str("\n")?;
    push_register(text, color, LampLine::ErrorTracker, lamps, "R1", &face.r1)?;
    push_register(text, color, LampLine::Altitude, lamps, "R2", &face.r2)?;
    let beside = LampLine::InertialVelocity;
    push_register(text, color, beside, lamps, "R3", &face.r3)
}

fn push_pair(text: &mut String, color: ColorMode, pair: Pair) -> Result<(), AllocError> {
    let (start, end) = (color.start(Style::Segment), color.end());
    let Pair { left, right } = pair;
    write!(text, "{start}{left}{right}{end}")
}

/// Adds a line of a register, after its name.
fn push_register(
    text: &mut String,
    color: ColorMode,
    beside: LampLine,
    lamps: &Lamps,
    name: &str,
    register: &Register,
) -> Result<(), AllocError> {
    push_lamps(text, color, beside, lamps)?;
    let (start, end) = (color.start(Style::Segment), color.end());
    let sign = register.sign();
    let Register {
        d1,
        d2,
        d3,
        d4,
        d5,
        ..
    } = *register;
    writeln!(text, "{name} {start}{sign}{d1}{d2}{d3}{d4}{d5}{end}")
}
