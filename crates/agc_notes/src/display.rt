//! The display in words, from the lines of the panel.
use crate::amount::push_amount;
use crate::nouns::{Nouns, Part};
use std::alloc::{AllocError, Global};

/// What a blank register shows.
const BLANK: &[u8] = b"______";

/// The parts of the panel that are said in words.
#[derive(Drop)]
pub(crate) struct Display {
    verb: Vec<u8>,
    noun: Vec<u8>,
    registers: [Vec<u8>; 3],
}

impl Display {
    pub(crate) fn new(alloc: Global) -> Display {
        Display {
            verb: Vec::new(alloc),
            noun: Vec::new(alloc),
            registers: [Vec::new(alloc), Vec::new(alloc), Vec::new(alloc)],
        }
    }

    /// Keeps a line, if it is one of the panel.
    pub(crate) fn see(&mut self, line: &[u8]) -> Result<(), AllocError> {
        match line {
            [b'V', b'E', b'R', b'B', b' ', shown @ ..] => keep(&mut self.verb, shown),
            [b'N', b'O', b'U', b'N', b' ', shown @ ..] => keep(&mut self.noun, shown),
            [b'R', b'1', b' ', shown @ ..] => keep(&mut self.registers[0], shown),
            [b'R', b'2', b' ', shown @ ..] => keep(&mut self.registers[1], shown),
            [b'R', b'3', b' ', shown @ ..] => keep(&mut self.registers[2], shown),
            _ => Ok(()),
        }
    }

    /// Returns what a register shows.
    fn register(&self, number: u8) -> &[u8] {
        match number {
            b'1' => self.registers[0].as_slice(),
            b'2' => self.registers[1].as_slice(),
            _ => self.registers[2].as_slice(),
        }
    }

    /// Returns the display in words, as `V16 N68: monitor: slant range 377 m`; nothing without a verb.
    pub(crate) fn in_words(&self, alloc: Global, nouns: &Nouns) -> Result<String, AllocError> {
        let mut text = String::new(alloc);
        let Some(verb) = two_digits(self.verb.as_slice()) else {
            return Ok(text);
        };
        write!(text, "V{verb}")?;
        let noun = self.noun.as_slice();
        let parts = match two_digits(noun) {
            Some(digits) => {
                write!(text, " N{digits}")?;
                nouns.parts(noun)
            }
            None => &[],
        };
        let meaning = nouns.verb(self.verb.as_slice());
        if !meaning.is_empty() {
            text.push_str(": ")?;
            text.push_str(meaning)?;
        }
        let mut is_first = true;
        for part in parts.iter() {
            let shown = self.register(part.register);
            if shown != BLANK {
                push_separator(&mut text, is_first)?;
                push_part(&mut text, part, shown)?;
                is_first = false;
            }
        }
        Ok(text)
    }
}

/// Appends what stands before a part.
fn push_separator(text: &mut String, is_first: bool) -> Result<(), AllocError> {
    text.push_str(if is_first { ": " } else { ", " })
}

fn push_part(text: &mut String, part: &Part, shown: &[u8]) -> Result<(), AllocError> {
    text.push_str(part.name.as_str())?;
    text.push_str(" ")?;
    push_amount(text, shown, part.amount, part.unit.as_str())
}

fn keep(kept: &mut Vec<u8>, shown: &[u8]) -> Result<(), AllocError> {
    kept.clear();
    kept.extend_from_slice(shown)
}

/// Returns a text of two digits.
fn two_digits(shown: &[u8]) -> Option<&str> {
    match shown {
        [tens, ones] if tens.is_ascii_digit() && ones.is_ascii_digit() => {
            str::from_utf8(shown).ok()
        }
        _ => None,
    }
}
