//! The colours of the picture.

/// Whether a picture is in colour. It is readable without.
#[derive(Clone, Copy, Debug, PartialEq, Eq)]
pub enum ColorMode {
    Plain,
    Colour,
}

/// The style of a stretch of text.
#[derive(Clone, Copy, Debug, PartialEq, Eq)]
pub(crate) enum Style {
    /// The green segments of a digit.
    Segment,
    /// A white lamp that is on.
    Lit,
    /// A yellow lamp, a caution, that is on.
    Caution,
    /// A lamp that is off.
    Unlit,
}

impl ColorMode {
    /// Returns what begins a stretch of text in a style: a sequence of the terminal, or nothing.
    pub(crate) fn start(self, style: Style) -> &'static str {
        match (self, style) {
            (ColorMode::Plain, _) => "",
            (ColorMode::Colour, Style::Segment) => "\x1b[1;32m",
            (ColorMode::Colour, Style::Lit) => "\x1b[30;47m",
            (ColorMode::Colour, Style::Caution) => "\x1b[30;43m",
            (ColorMode::Colour, Style::Unlit) => "\x1b[2m",
        }
    }

    /// Returns what ends it.
    pub(crate) fn end(self) -> &'static str {
        match self {
            ColorMode::Plain => "",
            ColorMode::Colour => "\x1b[0m",
        }
    }
}
