//! The keyboard: which byte types which key, and the event and the name of each key.
ghost use Rattle.std.specs.Prelude.{◌≡◌};
ghost use Rattle.agc_script.specs.Event.{IsWhatInRange};
ghost use Rattle.agc_tui.specs.Keyboard.{cap_name, press_of, from_byte};

use agc_script::{Key, What};

/// A key of the DSKY.
#[derive(Clone, Copy, Debug, PartialEq, Eq)]
pub enum Button {
    /// A key with a code, which arrives in channel 15 octal.
    Coded(Key),
    /// PRO, a switch of its own in channel 32 octal.
    Pro,
}

impl Button {
    /// Returns the key that a byte types: digits and signs, `v` VERB, `n` NOUN, `c` CLR, `k` KEY REL, `r` RSET, `p`
    /// PRO, and a carriage return or a line feed ENTR.
    #[tactic(auto, unfolding(crate::specs::Keyboard::from_byte))]
    pub fn from_byte(byte: u8) -> Option<Button>
        ensures { result ≡ from_byte byte }
    {
        match byte {
            b'0' => Some(Button::Coded(Key::Zero)),
            b'1' => Some(Button::Coded(Key::One)),
            b'2' => Some(Button::Coded(Key::Two)),
            b'3' => Some(Button::Coded(Key::Three)),
            b'4' => Some(Button::Coded(Key::Four)),
            b'5' => Some(Button::Coded(Key::Five)),
            b'6' => Some(Button::Coded(Key::Six)),
            b'7' => Some(Button::Coded(Key::Seven)),
            b'8' => Some(Button::Coded(Key::Eight)),
            b'9' => Some(Button::Coded(Key::Nine)),
            b'+' => Some(Button::Coded(Key::Plus)),
            b'-' => Some(Button::Coded(Key::Minus)),
            b'v' => Some(Button::Coded(Key::Verb)),
            b'n' => Some(Button::Coded(Key::Noun)),
            b'\r' => Some(Button::Coded(Key::Enter)),
            b'\n' => Some(Button::Coded(Key::Enter)),
            b'c' => Some(Button::Coded(Key::Clear)),
            b'k' => Some(Button::Coded(Key::KeyRelease)),
            b'r' => Some(Button::Coded(Key::Reset)),
            b'p' => Some(Button::Pro),
            _ => None,
        }
    }

    /// Returns the event of pressing the key.
    #[tactic(auto, unfolding(agc_script::specs::Event::IsWhatInRange))]
    pub fn press(self) -> What
        ensures what { result ≡ press_of self }
        ensures range { IsWhatInRange result }
    {
        match self {
            Button::Coded(key) => What::Key(key),
            Button::Pro => What::Pro(true),
        }
    }

    /// Returns the name on the key, as scripts write it.
    pub fn name(self) -> &'static str
        ensures { result.now ≡ cap_name self }
    {
        match self {
            Button::Coded(key) => key.name(),
            Button::Pro => "PRO",
        }
    }
}
