//! The digits of a text of numbers.

/// How a text writes its words.
#[derive(Clone, Copy, Debug, PartialEq, Eq)]
pub enum Radix {
    Octal,
    Hex,
}

/// The bytes of a file that show whether it is a text of numbers.
const SHOWN_BYTES: usize = 64;

/// Returns whether a file is plainly a text of numbers: its first 64 bytes are octal or hexadecimal digits, blanks, line ends,
/// colons and commas, and one of them is a digit.
pub fn looks_like_numbers(file: &[u8]) -> bool {
    let mut has_digit = false;
    for byte in file.iter().take(SHOWN_BYTES) {
        if digit_of(Radix::Hex, *byte).is_some() {
            has_digit = true;
        } else if !is_mark(*byte) && *byte != b'\r' && *byte != b'\n' {
            return false;
        }
    }
    has_digit
}

/// Returns whether a byte may stand between digits: a blank, a tab, a colon or a comma.
pub(crate) fn is_mark(byte: u8) -> bool {
    matches!(byte, b' ' | b'\t' | b':' | b',')
}

/// Returns the value of a digit, or `None` if the byte is no digit of the radix.
pub(crate) fn digit_of(radix: Radix, byte: u8) -> Option<u32> {
    let value = match byte {
        b'0'..=b'9' => u32::from(byte.saturating_sub(b'0')),
        b'a'..=b'f' => u32::from(byte.saturating_sub(b'a')).saturating_add(10),
        b'A'..=b'F' => u32::from(byte.saturating_sub(b'A')).saturating_add(10),
        _ => return None,
    };
    if value < base_of(radix) {
        Some(value)
    } else {
        None
    }
}

fn base_of(radix: Radix) -> u32 {
    match radix {
        Radix::Octal => 8,
        Radix::Hex => 16,
    }
}

/// Returns the number that digits write, or the largest one if it is larger.
pub(crate) fn number_of(radix: Radix, digits: &[u8]) -> u32 {
    let mut number = 0u32;
    for byte in digits {
        let digit = digit_of(radix, *byte).unwrap_or(0);
        number = number.saturating_mul(base_of(radix)).saturating_add(digit);
    }
    number
}
