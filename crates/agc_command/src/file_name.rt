//! The name of a file in a command.
ghost use Rattle.std.specs.Prelude.{◌≡◌};
ghost use Rattle.agc_command.specs.FileName.{name_of};

use agc_script::LONGEST_LINE;
use std::str;

/// The name of a file: at most as long as a line.
#[derive(Clone, Copy, Debug, PartialEq, Eq)]
pub struct FileName {
    /// The bytes of the name, and zeros.
    bytes: [u8; LONGEST_LINE],
    length: usize,
}

impl FileName {
    /// Returns the name that a word is. No word of a line is longer than a name.
    #[tactic(auto, unfolding(crate::specs::FileName::name_of))]
    pub fn new(word: &[u8]) -> FileName
        ensures { result ≡ name_of word.now }
    {
        let length = word.len().min(LONGEST_LINE);
        let mut bytes = [0; LONGEST_LINE];
        bytes[..length].copy_from_slice(&word[..length]);
        FileName { bytes, length }
    }

    /// Returns the name, or an empty text if it is not UTF-8.
    pub fn text(&self) -> &str {
        match str::from_utf8(&self.bytes[..self.length.min(LONGEST_LINE)]) {
            Ok(text) => text,
            Err(_) => "",
        }
    }
}
