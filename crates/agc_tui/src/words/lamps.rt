//! Draws the lamps beside the digits.
use super::color::{ColorMode, Style};
use agc_panel::{Lamp, Lamps};
use std::alloc::AllocError;

/// A line of lamps, named after its lamps.
#[derive(Clone, Copy, Debug, PartialEq, Eq)]
pub(crate) enum LampLine {
    UplinkTemp,
    AttitudeGimbal,
    Program,
    KeyRelease,
    ErrorTracker,
    Altitude,
    InertialVelocity,
    /// A line without a lamp.
    Empty,
}

impl LampLine {
    /// Returns the lamps of the line, left and right.
    fn lamps(self) -> (Option<Lamp>, Option<Lamp>) {
        match self {
            LampLine::UplinkTemp => (Some(Lamp::UplinkActy), Some(Lamp::Temp)),
            LampLine::AttitudeGimbal => (Some(Lamp::NoAtt), Some(Lamp::GimbalLock)),
            LampLine::Program => (None, Some(Lamp::Prog)),
            LampLine::KeyRelease => (Some(Lamp::KeyRel), None),
            LampLine::ErrorTracker => (Some(Lamp::OprErr), Some(Lamp::Tracker)),
            LampLine::Altitude => (None, Some(Lamp::Alt)),
            LampLine::InertialVelocity => (Some(Lamp::Iss), Some(Lamp::Vel)),
            LampLine::Empty => (None, None),
        }
    }
}

/// Returns the style of a lamp that is on.
fn lit_style(lamp: Lamp) -> Style {
    match lamp {
        Lamp::Temp | Lamp::GimbalLock | Lamp::Prog | Lamp::Tracker | Lamp::Alt | Lamp::Vel =>
            Style::Caution,
        Lamp::CompActy | Lamp::UplinkActy | Lamp::NoAtt | Lamp::KeyRel | Lamp::OprErr | Lamp::Iss =>
            Style::Lit,
    }
}

/// Adds a lamp: a mark if it is on, its words, padded to the widest, a space.
pub(crate) fn push_lamp(
    text: &mut String,
    color: ColorMode,
    lamps: &Lamps,
    lamp: Lamp,
) -> Result<(), AllocError> {
    let (mark, style) = if lamps.is_lit(lamp) {
        ("*", lit_style(lamp))
    } else {
        (" ", Style::Unlit)
    };
    let (start, words, end) = (color.start(style), lamp.name(), color.end());
    write!(text, "{start}{mark}{words:<11} {end}")
}

/// Adds the place of a lamp, which may be empty.
fn push_place(
    text: &mut String,
    color: ColorMode,
    lamps: &Lamps,
    lamp: Option<Lamp>,
) -> Result<(), AllocError> {
    match lamp {
        Some(lamp) => push_lamp(text, color, lamps, lamp),
        None => text.push_str("             "),
    }
}

/// Adds a line of lamps, up to the digits beside it.
pub(crate) fn push_lamps(
    text: &mut String,
    color: ColorMode,
    line: LampLine,
    lamps: &Lamps,
) -> Result<(), AllocError> {
    let (left, right) = line.lamps();
    text.push_str(" ")?;
    push_place(text, color, lamps, left)?;
    push_place(text, color, lamps, right)?;
    text.push_str("   ")
}
