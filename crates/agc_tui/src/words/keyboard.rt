//! Draws the keyboard.
use crate::keyboard::Button;
use agc_script::Key;
use std::alloc::AllocError;

const UPPER_KEYS: [Button; 6] = [
    Button::Coded(Key::Verb),
    Button::Coded(Key::Plus),
    Button::Coded(Key::Seven),
    Button::Coded(Key::Eight),
    Button::Coded(Key::Nine),
    Button::Coded(Key::Clear),
];

const MIDDLE_KEYS: [Button; 6] = [
    Button::Coded(Key::Noun),
    Button::Coded(Key::Minus),
    Button::Coded(Key::Four),
    Button::Coded(Key::Five),
    Button::Coded(Key::Six),
    Button::Pro,
];

const LOWER_KEYS: [Button; 5] = [
    Button::Coded(Key::Zero),
    Button::Coded(Key::One),
    Button::Coded(Key::Two),
    Button::Coded(Key::Three),
    Button::Coded(Key::KeyRelease),
];

/// Adds the three lines of the keyboard; a lit key is in brackets.
pub(crate) fn push_keyboard(text: &mut String, pressed: Option<Button>) -> Result<(), AllocError> {
    text.push_str(" ")?;
    for button in UPPER_KEYS {
        push_key(text, pressed, button)?;
    }
    text.push_str("   ")?;
    push_key(text, pressed, Button::Coded(Key::Enter))?;
    text.push_str("\n ")?;
    for button in MIDDLE_KEYS {
        push_key(text, pressed, button)?;
    }
    text.push_str("   ")?;
    push_key(text, pressed, Button::Coded(Key::Reset))?;
    text.push_str("\n       ")?;
    for button in LOWER_KEYS {
        push_key(text, pressed, button)?;
    }
    text.push_str("\n")
}

fn push_key(text: &mut String, pressed: Option<Button>, button: Button) -> Result<(), AllocError> {
    let name = button.name();
    if pressed == Some(button) {
        write!(text, "[{name}]")
    } else {
        write!(text, " {name} ")
    }
}
