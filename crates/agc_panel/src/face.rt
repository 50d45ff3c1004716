//! The fields of the panel, and how a channel write changes them.
#![tactic(auto, unfolding(crate::specs::Face::face_after, crate::specs::Face::pair_after, crate::specs::Field::field_after, crate::specs::RelayWord::sign_of_row, crate::specs::RelayWord::left_of_row, crate::specs::RelayWord::right_of_row))]

ghost use Rattle.std.specs.Prelude.{◌≡◌, [], ◌∷◌, true};
ghost use Rattle.agc_panel.specs.Face.{blank_face, face_after};
ghost use Rattle.agc_panel.specs.RelayWord.{left_digit, right_digit};

use crate::digit::Digit;
use crate::lamp::{Lamps, Source};
use crate::relay_word::{left_of, right_of, row_of, sign_of};
use agc_word::channels::{DSALMOUT, OUT0};
use agc_word::{ChannelWrite, Narrow};

/// The bit of DSALMOUT that makes verb and noun flash.
const FLASH_BIT: u32 = 6;

/// Two digits side by side, of a program, a verb or a noun.
#[derive(Clone, Copy, Debug, PartialEq, Eq)]
pub struct Pair {
    pub left: Digit,
    pub right: Digit,
}

impl Pair {
    /// Returns the two digits of a relay word.
    fn of(word: Narrow) -> Pair
        ensures { result ≡ record { left = left_digit word; right = right_digit word } }
    {
        Pair {
            left: left_of(word),
            right: right_of(word),
        }
    }
}

/// A data register: its two sign relays and its five digits from the left.
#[derive(Clone, Copy, Debug, PartialEq, Eq)]
pub struct Register {
    pub plus: bool,
    pub minus: bool,
    pub d1: Digit,
    pub d2: Digit,
    pub d3: Digit,
    pub d4: Digit,
    pub d5: Digit,
}

/// What the panel shows.
#[derive(Clone, Copy, Debug, PartialEq, Eq)]
pub struct Face {
    pub program: Pair,
    pub verb: Pair,
    pub noun: Pair,
    pub r1: Register,
    pub r2: Register,
    pub r3: Register,
    /// Whether verb and noun flash.
    pub flash: bool,
    pub lamps: Lamps,
}

impl Face {
    /// Returns the panel before any write: every digit blank, every sign and lamp and the flash off.
    #[tactic(auto, unfolding(crate::specs::Face::blank_face))]
    pub(crate) fn blank() -> Face
        ensures { result ≡ blank_face }
    {
        let pair = Pair {
            left: Digit::Blank,
            right: Digit::Blank,
        };
        let register = Register {
            plus: false,
            minus: false,
            d1: Digit::Blank,
            d2: Digit::Blank,
            d3: Digit::Blank,
            d4: Digit::Blank,
            d5: Digit::Blank,
        };
        Face {
            program: pair,
            verb: pair,
            noun: pair,
            r1: register,
            r2: register,
            r3: register,
            flash: false,
            lamps: Lamps::dark(),
        }
    }

    /// Returns whether a write leaves every field unchanged because it names none: it is neither a
    /// relay word of row 1 to 12 nor a word of DSALMOUT.
    #[inline(always)]
    #[tactic(auto, using(crate::proofs::LampLemmas::no_lamp_named))]
    pub(crate) fn ignores(&self, write: &ChannelWrite) -> bool
        ensures { result ≡ true → face_after self.now (write.now ∷ []) ≡ self.now }
    {
        if write.channel == OUT0 {
            let row = row_of(write.value);
            row == 0 || row > 12
        } else {
            write.channel != DSALMOUT
        }
    }

    /// Puts a write's value into the fields that it names, and leaves all others unchanged.
    pub(crate) fn take(&mut self, write: &ChannelWrite)
        ensures { self.new ≡ face_after self.old (write.now ∷ []) }
    {
        if write.channel == OUT0 {
            self.take_digits(write);
        }
        if let Some(flash) = Source::Dsalmout.bit_given(FLASH_BIT, write) {
            self.flash = flash;
        }
        self.lamps.take(write);
    }

    /// Puts the sign and the digits of a relay word into the fields of its row. The row is checked
    /// first, so that no digit is decoded that no field takes.
    fn take_digits(&mut self, write: &ChannelWrite)
        requires { write.now.channel ≡ OUT0 }
        ensures { self.new ≡ record (face_after self.old (write.now ∷ [])) {
          flash = self.old.flash;
          lamps = self.old.lamps;
        } }
    {
        let word = write.value;
        match row_of(word) {
            1 => {
                self.r3.minus = sign_of(word);
                self.r3.d4 = left_of(word);
                self.r3.d5 = right_of(word);
            }
            2 => {
                self.r3.plus = sign_of(word);
                self.r3.d2 = left_of(word);
                self.r3.d3 = right_of(word);
            }
            3 => {
                self.r2.d5 = left_of(word);
                self.r3.d1 = right_of(word);
            }
            4 => {
                self.r2.minus = sign_of(word);
                self.r2.d3 = left_of(word);
                self.r2.d4 = right_of(word);
            }
            5 => {
                self.r2.plus = sign_of(word);
                self.r2.d1 = left_of(word);
                self.r2.d2 = right_of(word);
            }
            6 => {
                self.r1.minus = sign_of(word);
                self.r1.d4 = left_of(word);
                self.r1.d5 = right_of(word);
            }
            7 => {
                self.r1.plus = sign_of(word);
                self.r1.d2 = left_of(word);
                self.r1.d3 = right_of(word);
            }
            8 => self.r1.d1 = right_of(word),
            9 => self.noun = Pair::of(word),
            10 => self.verb = Pair::of(word),
            11 => self.program = Pair::of(word),
            _ => {}
        }
    }
}
