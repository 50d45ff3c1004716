//! Decodes typed bytes: keys of the DSKY, commands to the program, and the terminal's own reports.
use crate::keyboard::Button;
use crate::search::{Search, Way};

/// An event decoded from the terminal's bytes.
#[derive(Clone, Copy, Debug, PartialEq, Eq)]
pub enum InputEvent {
    /// Press a key of the DSKY.
    Key(Button),
    /// Pause or resume.
    Pause,
    /// Take one boundary.
    Step,
    /// Go back in time.
    Back,
    /// Search in time.
    Search(Search),
    /// Type a condition, and search for it.
    Condition(Way),
    Faster,
    Slower,
    /// Show or hide the inspector.
    Inside,
    /// Show or hide the Executive's tables.
    Tables,
    Save,
    Quit,
    /// The terminal reported the position of its last place, and so its size.
    Size { lines: u16, columns: u16 },
}

/// A decoder of terminal bytes, one at a time. Sequences such as those of arrow keys are ignored.
#[derive(Clone, Copy, Debug, PartialEq, Eq)]
pub struct Decoder {
    state: State,
}

/// The part of a sequence read so far.
#[derive(Clone, Copy, Debug, PartialEq, Eq)]
enum State {
    /// Nothing.
    Plain,
    /// ESC.
    Escape,
    /// ESC and O: one byte is left.
    Last,
    /// ESC and [, and so far these two numbers.
    Numbers(Numbers),
    /// The start of a reply in text, which has at most this many bytes left.
    Text { left: u8 },
    /// The same, and then ESC.
    TextEscape,
}

/// The longest reply in text that is ignored, in bytes.
const LONGEST_TEXT: u8 = 64;

/// Up to two decimal numbers with a semicolon between them.
#[derive(Clone, Copy, Debug, PartialEq, Eq)]
struct Numbers {
    first: u16,
    second: u16,
    is_second: bool,
}

impl Numbers {
    /// Returns the numbers with one more digit.
    fn with(self, digit: u16) -> Numbers {
        let Numbers {
            first,
            second,
            is_second,
        } = self;
        if is_second {
            Numbers {
                first,
                second: second.saturating_mul(10).saturating_add(digit),
                is_second,
            }
        } else {
            Numbers {
                first: first.saturating_mul(10).saturating_add(digit),
                second,
                is_second,
            }
        }
    }
}

impl Decoder {
    /// Creates a decoder that has read no byte.
    pub fn new() -> Decoder {
        Decoder {
            state: State::Plain,
        }
    }

    /// Returns whether no sequence has begun: the next byte is one of its own, unless it is ESC.
    pub fn is_plain(&self) -> bool {
        matches!(self.state, State::Plain)
    }

    /// Decodes a byte, and returns the event that it completes, if any.
    pub fn take(&mut self, byte: u8) -> Option<InputEvent> {
        let (state, input_event) = match self.state {
            State::Plain => after_plain(byte),
            State::Escape => after_escape(byte),
            State::Last => (State::Plain, None),
            State::Numbers(numbers) => after_numbers(numbers, byte),
            State::Text { left } => after_text(left, byte),
            State::TextEscape => after_text_escape(byte),
        };
        self.state = state;
        input_event
    }
}

/// Decodes a byte outside of a sequence.
fn after_plain(byte: u8) -> (State, Option<InputEvent>) {
    match byte {
        0x1b => (State::Escape, None),
        _ => (State::Plain, event_of(byte)),
    }
}

/// Returns the event of a single byte. Control-C and control-D end the session as `q` does.
fn event_of(byte: u8) -> Option<InputEvent> {
    match byte {
        b' ' => Some(InputEvent::Pause),
        b'.' => Some(InputEvent::Step),
        0x08 | 0x7f => Some(InputEvent::Back),
        b'>' => Some(InputEvent::Faster),
        b'<' => Some(InputEvent::Slower),
        b'i' => Some(InputEvent::Inside),
        b't' => Some(InputEvent::Tables),
        b'b' => Some(InputEvent::Condition(Way::Ahead)),
        b'B' => Some(InputEvent::Condition(Way::Back)),
        b's' => Some(InputEvent::Save),
        b'q' | 0x03 | 0x04 => Some(InputEvent::Quit),
        _ => key_or_search(byte),
    }
}

/// Returns the key of the DSKY or the search that a byte types.
fn key_or_search(byte: u8) -> Option<InputEvent> {
    match (Button::from_byte(byte), Search::from_byte(byte)) {
        (Some(button), _) => Some(InputEvent::Key(button)),
        (None, Some(search)) => Some(InputEvent::Search(search)),
        (None, None) => None,
    }
}

/// Decodes a byte after ESC, which continues a sequence or counts as a byte outside of one.
fn after_escape(byte: u8) -> (State, Option<InputEvent>) {
    match byte {
        b'[' => (
            State::Numbers(Numbers {
                first: 0,
                second: 0,
                is_second: false,
            }),
            None,
        ),
        b'O' => (State::Last, None),
        b']' | b'P' => (State::Text { left: LONGEST_TEXT }, None),
        _ => after_plain(byte),
    }
}

/// Decodes a byte of a reply in text (OSC or DCS), which BEL or ESC \ ends. Any other control character ends it too and
/// counts as a byte outside of it, so that control-C is never lost.
fn after_text(left: u8, byte: u8) -> (State, Option<InputEvent>) {
    match (byte, left) {
        (0x07, _) => (State::Plain, None),
        (0x1b, _) => (State::TextEscape, None),
        (0x00..=0x1f, _) => after_plain(byte),
        (_, 0) => (State::Plain, None),
        (_, left) => (
            State::Text {
                left: left.saturating_sub(1),
            },
            None,
        ),
    }
}

/// Decodes a byte after ESC in a reply in text: `\` ends the reply, any other byte begins a new sequence.
fn after_text_escape(byte: u8) -> (State, Option<InputEvent>) {
    match byte {
        b'\\' => (State::Plain, None),
        _ => after_escape(byte),
    }
}

/// Decodes a byte among or after the numbers of a sequence. A sequence that ends with R reports a position, except in
/// line 1: that is Shift-F3.
fn after_numbers(numbers: Numbers, byte: u8) -> (State, Option<InputEvent>) {
    match byte {
        b'0'..=b'9' => (
            State::Numbers(numbers.with(byte.saturating_sub(b'0') as u16)),
            None,
        ),
        b';' => (
            State::Numbers(Numbers {
                is_second: true,
                ..numbers
            }),
            None,
        ),
        b'R' if numbers.first > 1 => (
            State::Plain,
            Some(InputEvent::Size {
                lines: numbers.first,
                columns: numbers.second,
            }),
        ),
        0x40..=0x7e => (State::Plain, None),
        _ => (State::Numbers(numbers), None),
    }
}
