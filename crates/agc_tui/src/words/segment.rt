//! Draws digits and signs three lines high.
use agc_panel::{Digit, Sign};

/// A line of a digit or sign three lines high.
#[derive(Clone, Copy, Debug, PartialEq, Eq)]
pub(crate) enum Row {
    Top,
    Middle,
    Bottom,
}

impl Row {
    /// Returns this line of three.
    fn of(self, top: &'static str, middle: &'static str, bottom: &'static str) -> &'static str {
        match self {
            Row::Top => top,
            Row::Middle => middle,
            Row::Bottom => bottom,
        }
    }
}

/// Returns a line of a digit: three characters, drawn from its segments.
pub(crate) fn digit_row(row: Row, digit: Digit) -> &'static str {
    match digit {
        Digit::Blank => row.of("   ", "   ", "   "),
        Digit::Zero => row.of("┏━┓", "┃ ┃", "┗━┛"),
        Digit::One => row.of("  ╻", "  ┃", "  ╹"),
        Digit::Two => row.of("╺━┓", "┏━┛", "┗━╸"),
        Digit::Three => row.of("╺━┓", "╺━┫", "╺━┛"),
        Digit::Four => row.of("╻ ╻", "┗━┫", "  ╹"),
        Digit::Five => row.of("┏━╸", "┗━┓", "╺━┛"),
        Digit::Six => row.of("┏━╸", "┣━┓", "┗━┛"),
        Digit::Seven => row.of("╺━┓", "  ┃", "  ╹"),
        Digit::Eight => row.of("┏━┓", "┣━┫", "┗━┛"),
        Digit::Nine => row.of("┏━┓", "┗━┫", "╺━┛"),
        Digit::Unknown => row.of("╺━┓", "┏━┛", "╹  "),
    }
}

/// Returns a line of a sign: three characters.
pub(crate) fn sign_row(row: Row, sign: Sign) -> &'static str {
    match sign {
        Sign::Plus => row.of(" ╻ ", "╺╋╸", " ╹ "),
        Sign::Minus => row.of("   ", "╺━╸", "   "),
        Sign::Blank => row.of("   ", "   ", "   "),
    }
}
