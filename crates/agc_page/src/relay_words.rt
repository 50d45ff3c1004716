//! The words that give a panel.
use agc_panel::{Digit, Face, Lamp, Lamps};

/// The number of words that a panel has: that of channel 11, and those of rows 1 to 12 of channel 10.
pub(crate) const SOURCES: usize = 13;

/// Returns the words of a panel: that of channel 11, and then those of rows 1 to 12. A bit that the panel does not show
/// is off.
pub(crate) fn words_of(face: &Face) -> [u16; SOURCES] {
    let Face { r1, r2, r3, .. } = face;
    [
        dsalmout_word(face),
        relay_word(1, r3.minus, r3.d4, r3.d5),
        relay_word(2, r3.plus, r3.d2, r3.d3),
        relay_word(3, false, r2.d5, r3.d1),
        relay_word(4, r2.minus, r2.d3, r2.d4),
        relay_word(5, r2.plus, r2.d1, r2.d2),
        relay_word(6, r1.minus, r1.d4, r1.d5),
        relay_word(7, r1.plus, r1.d2, r1.d3),
        relay_word(8, false, Digit::Blank, r1.d1),
        relay_word(9, false, face.noun.left, face.noun.right),
        relay_word(10, false, face.verb.left, face.verb.right),
        relay_word(11, false, face.program.left, face.program.right),
        lamp_word(&face.lamps),
    ]
}

/// Returns the relay word of a row with these digits.
fn relay_word(row: u16, sign: bool, left: Digit, right: Digit) -> u16 {
    row << 11 | bit(sign, 0o2000) | code_of(left) << 5 | code_of(right)
}

/// Returns the code of a digit; for an unknown one a code that is no digit.
fn code_of(digit: Digit) -> u16 {
    match digit {
        Digit::Blank => 0o00,
        Digit::Zero => 0o25,
        Digit::One => 0o03,
        Digit::Two => 0o31,
        Digit::Three => 0o33,
        Digit::Four => 0o17,
        Digit::Five => 0o36,
        Digit::Six => 0o34,
        Digit::Seven => 0o23,
        Digit::Eight => 0o35,
        Digit::Nine => 0o37,
        Digit::Unknown => 0o01,
    }
}

/// Returns the word of channel 11.
fn dsalmout_word(face: &Face) -> u16 {
    let lamps = &face.lamps;
    bit(lamps.is_lit(Lamp::Iss), 0o1)
        | bit(lamps.is_lit(Lamp::CompActy), 0o2)
        | bit(lamps.is_lit(Lamp::UplinkActy), 0o4)
        | bit(lamps.is_lit(Lamp::Temp), 0o10)
        | bit(lamps.is_lit(Lamp::KeyRel), 0o20)
        | bit(face.flash, 0o40)
        | bit(lamps.is_lit(Lamp::OprErr), 0o100)
}

/// Returns the relay word of row 12.
fn lamp_word(lamps: &Lamps) -> u16 {
    12 << 11
        | bit(lamps.is_lit(Lamp::Vel), 0o4)
        | bit(lamps.is_lit(Lamp::NoAtt), 0o10)
        | bit(lamps.is_lit(Lamp::Alt), 0o20)
        | bit(lamps.is_lit(Lamp::GimbalLock), 0o40)
        | bit(lamps.is_lit(Lamp::Tracker), 0o200)
        | bit(lamps.is_lit(Lamp::Prog), 0o400)
}

/// Returns a bit, if it is on.
fn bit(on: bool, bit: u16) -> u16 {
    if on { bit } else { 0 }
}
