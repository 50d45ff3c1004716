//! One line of the panel: parses and prints it, and checks whether a panel shows it.
ghost use Rattle.std.specs.Prelude.{◌≡◌, ◌++◌, OnOk, codes, string_bytes};
ghost use Rattle.std.specs.Str.{bytes_eq};
ghost use Rattle.agc_word.specs.Text.{words_of};
ghost use Rattle.agc_panel.specs.Lamp.{printed_order};
ghost use Rattle.agc_panel.specs.Text.{sign_glyph};
ghost use Rattle.agc_panel.specs.PanelLine.{
  digit_in,
  field_in,
  flash_in,
  is_signed,
  lamp_in,
  line_in,
  line_text,
  pair_in,
  pair_text,
  pair_with,
  same_digit,
  same_pair,
  same_words,
  shows,
  sign_in,
  signed_in,
  signed_text,
};

use crate::digit::Digit;
use crate::face::{Face, Pair, Register};
use crate::lamp::Lamp;
use crate::text::Sign;
use agc_word::next_word;
use std::alloc::AllocError;

/// The sign and the five digits of a register, from the left.
#[derive(Clone, Copy, Debug, PartialEq, Eq)]
pub struct SignedDigits {
    pub sign: Sign,
    pub d1: Digit,
    pub d2: Digit,
    pub d3: Digit,
    pub d4: Digit,
    pub d5: Digit,
}

/// A line that the panel can show.
#[derive(Clone, Copy, Debug, PartialEq, Eq)]
pub enum PanelLine {
    Program(Pair),
    Verb(Pair),
    Noun(Pair),
    R1(SignedDigits),
    R2(SignedDigits),
    R3(SignedDigits),
    Flash(bool),
    /// This lamp is lit; others may be lit too.
    Lamp(Lamp),
}

/// All digits.
const DIGITS: [Digit; 12] = [
    Digit::Blank,
    Digit::Zero,
    Digit::One,
    Digit::Two,
    Digit::Three,
    Digit::Four,
    Digit::Five,
    Digit::Six,
    Digit::Seven,
    Digit::Eight,
    Digit::Nine,
    Digit::Unknown,
];

/// All signs.
const SIGNS: [Sign; 3] = [Sign::Plus, Sign::Minus, Sign::Blank];

impl PanelLine {
    /// Parses a line as the panel prints it; of the lamps, one.
    pub fn parse(line: &[u8]) -> Option<PanelLine>
        ensures { result ≡ line_in (words_of line.now) }
    {
        line_in(line)
    }

    /// Adds the line as the panel prints it, without a line feed. Fails if memory runs out.
    pub fn push_to(self, text: &mut String) -> Result<(), AllocError>
        ensures { OnOk result (string_bytes text.new ≡ string_bytes text.old ++ line_text self) }
    {
        push_line(text, self)
    }
}

impl Face {
    /// Returns whether the panel shows a line: the field has the same characters, and a lamp is lit.
    #[tactic(auto, unfolding(crate::specs::PanelLine::shows))]
    pub fn shows(&self, line: &PanelLine) -> bool
        ensures { result ≡ shows line.now self.now }
    {
        match line {
            PanelLine::Program(pair) => is_same_pair(pair, &self.program),
            PanelLine::Verb(pair) => is_same_pair(pair, &self.verb),
            PanelLine::Noun(pair) => is_same_pair(pair, &self.noun),
            PanelLine::R1(digits) => is_signed(digits, &self.r1),
            PanelLine::R2(digits) => is_signed(digits, &self.r2),
            PanelLine::R3(digits) => is_signed(digits, &self.r3),
            PanelLine::Flash(on) => *on == self.flash,
            PanelLine::Lamp(lamp) => self.lamps.is_lit(*lamp),
        }
    }
}

/// Parses a line of the panel.
#[tactic(auto, unfolding(crate::specs::PanelLine::line_in))]
fn line_in(words: &[u8]) -> Option<PanelLine>
    ensures { result ≡ line_in (words_of words.now) }
{
    let (name, rest) = next_word(words)?;
    if is_word(name, "LAMPS") {
        return lamp_in(rest).map(PanelLine::Lamp);
    }
    let (word, rest) = next_word(rest)?;
    match next_word(rest) {
        None => field_in(name, word),
        Some(_) => None,
    }
}

/// Returns whether a word is this one.
fn is_word(word: &[u8], name: &str) -> bool
    ensures { result ≡ bytes_eq word.now name.now }
{
    word == name.as_bytes()
}

/// Parses a field that prints as one word after its name.
#[tactic(auto, unfolding(crate::specs::PanelLine::field_in))]
fn field_in(name: &[u8], word: &[u8]) -> Option<PanelLine>
    ensures { result ≡ field_in name.now word.now }
{
    if is_word(name, "PROG") {
        pair_in(word).map(PanelLine::Program)
    } else if is_word(name, "VERB") {
        pair_in(word).map(PanelLine::Verb)
    } else if is_word(name, "NOUN") {
        pair_in(word).map(PanelLine::Noun)
    } else if is_word(name, "R1") {
        signed_in(word).map(PanelLine::R1)
    } else if is_word(name, "R2") {
        signed_in(word).map(PanelLine::R2)
    } else if is_word(name, "R3") {
        signed_in(word).map(PanelLine::R3)
    } else if is_word(name, "FLASH") {
        flash_in(word).map(PanelLine::Flash)
    } else {
        None
    }
}

/// Parses two digits.
#[tactic(auto, unfolding(crate::specs::PanelLine::pair_in))]
fn pair_in(word: &[u8]) -> Option<Pair>
    ensures { result ≡ pair_in word.now }
{
    match word {
        [left, right] => pair_of(*left, *right),
        _ => None,
    }
}

/// Returns the two digits that print as these characters.
fn pair_of(left: u8, right: u8) -> Option<Pair>
    ensures { result ≡ pair_with (digit_in left) (digit_in right) }
{
    let left = digit_in(left)?;
    let right = digit_in(right)?;
    Some(Pair { left, right })
}

/// Returns the digit that prints as this character.
#[tactic(auto, unfolding(crate::specs::PanelLine::digit_in))]
fn digit_in(byte: u8) -> Option<Digit>
    ensures { result ≡ digit_in byte }
{
    DIGITS
        .iter()
        .copied()
        .find(|digit| digit.glyph().as_bytes() == [byte].as_slice())
}

/// Returns the sign that prints as this character.
#[tactic(auto, unfolding(crate::specs::PanelLine::sign_in))]
fn sign_in(byte: u8) -> Option<Sign>
    ensures { result ≡ sign_in byte }
{
    SIGNS
        .iter()
        .copied()
        .find(|sign| sign_glyph(*sign).as_bytes() == [byte].as_slice())
}

/// Returns the character that a sign prints as.
fn sign_glyph(sign: Sign) -> &'static str
    ensures { result.now ≡ sign_glyph sign }
{
    match sign {
        Sign::Plus => "+",
        Sign::Minus => "-",
        Sign::Blank => "_",
    }
}

/// Parses a sign and five digits.
#[tactic(auto, unfolding(crate::specs::PanelLine::signed_in))]
fn signed_in(word: &[u8]) -> Option<SignedDigits>
    ensures { result ≡ signed_in word.now }
{
    let [sign, d1, d2, d3, d4, d5] = word else {
        return None;
    };
    let sign = sign_in(*sign)?;
    let first = pair_of(*d1, *d2)?;
    let second = pair_of(*d3, *d4)?;
    let d5 = digit_in(*d5)?;
    Some(SignedDigits {
        sign,
        d1: first.left,
        d2: first.right,
        d3: second.left,
        d4: second.right,
        d5,
    })
}

/// Parses whether verb and noun flash.
#[tactic(auto, unfolding(crate::specs::PanelLine::flash_in))]
fn flash_in(word: &[u8]) -> Option<bool>
    ensures { result ≡ flash_in word.now }
{
    if is_word(word, "on") {
        Some(true)
    } else if is_word(word, "off") {
        Some(false)
    } else {
        None
    }
}

/// Returns the lamp with this legend.
#[tactic(auto, unfolding(crate::specs::PanelLine::lamp_in))]
fn lamp_in(words: &[u8]) -> Option<Lamp>
    ensures { result ≡ lamp_in (words_of words.now) }
{
    Lamp::PRINTED
        .iter()
        .copied()
        .find(|lamp| same_words(lamp.name().as_bytes(), words))
}

/// Returns whether two texts have the same words.
#[tactic(auto, unfolding(crate::specs::PanelLine::same_words))]
fn same_words(one: &[u8], other: &[u8]) -> bool
    ensures { result ≡ same_words (words_of one.now) (words_of other.now) }
{
    match (next_word(one), next_word(other)) {
        (None, None) => true,
        (Some((word, ones)), Some((same, others))) => word == same && same_words(ones, others),
        _ => false,
    }
}

/// Adds a line of the panel.
#[tactic(auto, unfolding(crate::specs::PanelLine::line_text))]
fn push_line(text: &mut String, line: PanelLine) -> Result<(), AllocError>
    ensures { OnOk result (string_bytes text.new ≡ string_bytes text.old ++ line_text line) }
{
    match line {
        PanelLine::Program(pair) => push_pair(text, "PROG", pair),
        PanelLine::Verb(pair) => push_pair(text, "VERB", pair),
        PanelLine::Noun(pair) => push_pair(text, "NOUN", pair),
        PanelLine::R1(digits) => push_signed_digits(text, "R1", digits),
        PanelLine::R2(digits) => push_signed_digits(text, "R2", digits),
        PanelLine::R3(digits) => push_signed_digits(text, "R3", digits),
        PanelLine::Flash(on) => text.push_str(if on { "FLASH on" } else { "FLASH off" }),
        PanelLine::Lamp(lamp) => {
            let name = lamp.name();
            write!(text, "LAMPS {name}")
        }
    }
}

/// Adds a name and two digits.
#[tactic(auto, unfolding(crate::specs::PanelLine::pair_text))]
fn push_pair(text: &mut String, name: &str, pair: Pair) -> Result<(), AllocError>
    ensures { OnOk result
        (string_bytes text.new ≡ string_bytes text.old ++ name.now ++ codes " " ++ pair_text pair) }
{
    let Pair { left, right } = pair;
    write!(text, "{name} {left}{right}")
}

/// Adds a name, a sign and five digits.
#[tactic(auto, unfolding(crate::specs::PanelLine::signed_text))]
fn push_signed_digits(text: &mut String, name: &str, digits: SignedDigits) -> Result<(), AllocError>
    ensures { OnOk result
        (string_bytes text.new ≡ string_bytes text.old ++ name.now ++ codes " " ++ signed_text digits) }
{
    let SignedDigits {
        sign,
        d1,
        d2,
        d3,
        d4,
        d5,
    } = digits;
    write!(text, "{name} {sign}{d1}{d2}{d3}{d4}{d5}")
}

/// Returns whether a register shows this sign and these digits.
fn is_signed(digits: &SignedDigits, register: &Register) -> bool
    ensures { result ≡ is_signed digits.now register.now }
{
    sign_glyph(digits.sign) == sign_glyph(register.sign())
        && same_digit(digits.d1, register.d1)
        && same_digit(digits.d2, register.d2)
        && same_digit(digits.d3, register.d3)
        && same_digit(digits.d4, register.d4)
        && same_digit(digits.d5, register.d5)
}

/// Returns whether two pairs show the same characters.
fn is_same_pair(one: &Pair, other: &Pair) -> bool
    ensures { result ≡ same_pair one.now other.now }
{
    same_digit(one.left, other.left) && same_digit(one.right, other.right)
}

/// Returns whether two digits show the same character.
fn same_digit(one: Digit, other: Digit) -> bool
    ensures { result ≡ same_digit one other }
{
    one.glyph() == other.glyph()
}
