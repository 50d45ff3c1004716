//! Draws the picture of a session: what its DSKY shows at its cycle.
use super::color::ColorMode;
use super::face::{push_large_face, push_small_face};
use super::keyboard::push_keyboard;
use crate::flash::seen;
use crate::keyboard::Button;
use agc_session::Session;
use std::alloc::AllocError;

/// The height of a digit.
#[derive(Clone, Copy, Debug, PartialEq, Eq)]
pub enum Size {
    /// Three lines: the picture has 22 lines.
    Large,
    /// One line: the picture has 12 lines.
    Small,
}

/// The options of a picture.
#[derive(Clone, Copy, Debug, PartialEq, Eq)]
pub struct View {
    pub size: Size,
    pub color: ColorMode,
    /// Whether verb and noun are in the dark half of their flash.
    pub blink_off: bool,
    /// The lit key, which was pressed just now.
    pub pressed: Option<Button>,
}

/// Adds the picture of a session: its panel, the keyboard, and its present cycle. No line is wider than 57 columns,
/// not counting terminal sequences. Fails if memory runs out.
pub fn render(text: &mut String, view: View, session: &Session) -> Result<(), AllocError> {
    let face = seen(view.blink_off, session.panel().face());
    match view.size {
        Size::Large => push_large_face(text, view.color, &face)?,
        Size::Small => push_small_face(text, view.color, &face)?,
    }
    text.push_str("\n")?;
    push_keyboard(text, view.pressed)?;
    let cycle = session.machine().cycle();
    write!(text, " CYCLE {cycle}")?;
    if let Some(why) = session.machine().stopped() {
        let reason = why.name();
        write!(text, " STOP {reason}")?;
    }
    text.push_str("\n")
}
