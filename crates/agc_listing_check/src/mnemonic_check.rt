//! Finds the first line of a listing whose mnemonic does not match its word.
ghost use Rattle.std.specs.Prelude.{◌≡◌, option_map};
ghost use Rattle.agc_word.specs.Number.{pattern_of};
ghost use Rattle.agc_word.specs.Text.{words_of};
ghost use Rattle.agc_listing_check.specs.MnemonicCheck.{
  has_mnemonic,
  is_extracode,
  misnamed_at,
  misnamed_in,
  mnemonic_of,
  order_amiss,
  order_named,
  third_of,
};

use agc_listing::read_line;
use agc_order::{Basic, Extracode};
use agc_vocabulary::{basic_named, extracode_named};
use agc_word::{Narrow, next_line, next_word};

/// An order whose mnemonic follows a word.
#[derive(Clone, Copy, Debug, PartialEq, Eq)]
pub enum Written {
    Basic(Basic),
    Extracode(Extracode),
}

impl Written {
    /// Returns the order of a mnemonic: the basic one for INDEX, which names two orders.
    fn from_name(name: &[u8]) -> Option<Written>
        ensures { result ≡ order_named name.now }
    {
        match (basic_named(name), extracode_named(name)) {
            (Some(order), _) => Some(Written::Basic(order)),
            (None, Some(order)) => Some(Written::Extracode(order)),
            (None, None) => None,
        }
    }

    /// Returns the mnemonic of the order.
    pub fn mnemonic(self) -> &'static str
        ensures { result.now ≡ mnemonic_of self }
    {
        match self {
            Written::Basic(order) => order.row().mnemonic,
            Written::Extracode(order) => order.row().mnemonic,
        }
    }

    /// Returns whether the order is an extracode.
    pub fn is_extracode(self) -> bool
        ensures { result ≡ is_extracode self }
    {
        matches!(self, Written::Extracode(_))
    }
}

/// A line of a listing whose mnemonic does not match its word.
#[derive(Clone, Copy, Debug, PartialEq, Eq)]
pub struct Misnamed {
    /// The line's number, counted from 1.
    pub line: usize,
    pub word: Narrow,
    pub written: Written,
}

/// Returns the first line of a text with a place, a word and a mnemonic that is not the word's, neither as a basic
/// order nor as an extracode. Anything else after a word is ignored.
#[tactic(auto, unfolding(crate::specs::MnemonicCheck::misnamed_in, crate::specs::MnemonicCheck::misnamed_from))]
pub fn first_misnamed(text: &[u8]) -> Option<Misnamed>
    ensures { result ≡ misnamed_in text.now }
{
    let mut lines = 0;
    let mut rest = text;
    while let Some((line, after)) = next_line(rest) {
        lines += 1;
        if let Some(misnamed) = misnamed_at(lines, line) {
            return Some(misnamed);
        }
        rest = after;
    }
    None
}

/// Checks the line with this number.
#[tactic(auto, unfolding(crate::specs::MnemonicCheck::misnamed_at))]
fn misnamed_at(number: usize, line: &[u8]) -> Option<Misnamed>
    ensures { result ≡ misnamed_at number line.now }
{
    let Ok(Some(parsed)) = read_line(line) else {
        return None;
    };
    let written = order_amiss(parsed.word, third_word(line)?)?;
    Some(Misnamed {
        line: number,
        word: parsed.word,
        written,
    })
}

/// Returns what follows the place and the word of a line.
fn third_word(line: &[u8]) -> Option<&[u8]>
    ensures { option_map (λ word. word.now) result ≡ third_of (words_of line.now) }
{
    let (_, rest) = next_word(line)?;
    let (_, rest) = next_word(rest)?;
    let (word, _) = next_word(rest)?;
    Some(word)
}

/// Returns the order of a mnemonic if the word does not have that mnemonic.
fn order_amiss(word: Narrow, name: &[u8]) -> Option<Written>
    ensures { result ≡ order_amiss (pattern_of 15 word) name.now }
{
    if has_mnemonic(word, name) {
        None
    } else {
        Written::from_name(name)
    }
}

/// Returns whether `list` may show a word with this mnemonic. TC fits all words below 10000 octal,
/// because RELINT, INHINT and EXTEND are TC too.
fn has_mnemonic(word: Narrow, name: &[u8]) -> bool
    ensures { result ≡ has_mnemonic (pattern_of 15 word) name.now }
{
    Basic::named_by(word).row().mnemonic.as_bytes() == name
        || Extracode::named_by(word).row().mnemonic.as_bytes() == name
        || "TC".as_bytes() == name && word.bits() < 0o10000
}
