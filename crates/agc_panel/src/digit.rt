//! One digit of the panel: five relays that light up to seven segments.
ghost use Rattle.std.specs.Prelude.{◌≡◌, Some};
ghost use Rattle.agc_panel.specs.Digit.{digit_of, glyph};

use std::fmt;

/// What the place of one digit shows. At the start of a run it is blank.
#[derive(Clone, Copy, Debug, PartialEq, Eq)]
pub enum Digit {
    Blank,
    Zero,
    One,
    Two,
    Three,
    Four,
    Five,
    Six,
    Seven,
    Eight,
    Nine,
    /// A code that is no digit.
    Unknown,
}

impl Digit {
    /// Returns the digit for a code of the relay word, 0 to 37 octal.
    #[tactic(auto, unfolding(crate::specs::Digit::digit_of))]
    pub fn from_code(code: u16) -> Digit
        ensures { result ≡ digit_of code }
    {
        match code {
            0o00 => Digit::Blank,
            0o25 => Digit::Zero,
            0o03 => Digit::One,
            0o31 => Digit::Two,
            0o33 => Digit::Three,
            0o17 => Digit::Four,
            0o36 => Digit::Five,
            0o34 => Digit::Six,
            0o23 => Digit::Seven,
            0o35 => Digit::Eight,
            0o37 => Digit::Nine,
            _ => Digit::Unknown,
        }
    }

    /// Returns the character that the digit prints as: `_` for a blank, `?` for an unknown code.
    #[tactic(auto, unfolding(crate::specs::Digit::glyph))]
    pub fn glyph(self) -> &'static str
        ensures { result.now ≡ glyph self }
    {
        match self {
            Digit::Blank => "_",
            Digit::Zero => "0",
            Digit::One => "1",
            Digit::Two => "2",
            Digit::Three => "3",
            Digit::Four => "4",
            Digit::Five => "5",
            Digit::Six => "6",
            Digit::Seven => "7",
            Digit::Eight => "8",
            Digit::Nine => "9",
            Digit::Unknown => "?",
        }
    }
}

impl fmt::Display for Digit {
    ghost output = { λ digit. Some (glyph digit) };

    fn fmt<W: fmt::Write>(&self, f: &mut fmt::Formatter<W>) -> fmt::Result {
        f.write_str(self.glyph())
    }
}
