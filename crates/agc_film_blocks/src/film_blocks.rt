//! Prints what the page of a film has after its runs: the text of a file as a block, and the script that shows it.
ghost use Rattle.std.specs.Prelude.{◌<◌};

use crate::film_plot::PLOT;
use crate::film_script::WORDS;
use agc_io::TEXT_BYTES;
use std::alloc::{AllocError, Global};

/// The most bytes of a file of verbs and nouns.
const NOUNS_BYTES: usize = 65_536;

/// A block of the page, with the text of a file.
#[derive(Clone, Copy, Debug, PartialEq, Eq)]
pub enum FilmBlock {
    /// Verbs and nouns, for the display in words.
    Nouns,
    /// Samples of quantities, for the plot.
    Samples,
}

impl FilmBlock {
    /// Returns what the page calls the block, and messages the file.
    pub fn name(self) -> &'static str {
        match self {
            FilmBlock::Nouns => "nouns",
            FilmBlock::Samples => "samples",
        }
    }

    /// Returns the most bytes that the file may have.
    pub fn most_bytes(self) -> usize
        ensures { result < 33554432 }
    {
        match self {
            FilmBlock::Nouns => NOUNS_BYTES,
            FilmBlock::Samples => TEXT_BYTES,
        }
    }

    /// Returns the elements of the page that show the block.
    fn script(self) -> &'static str {
        match self {
            FilmBlock::Nouns => WORDS,
            FilmBlock::Samples => PLOT,
        }
    }
}

/// Returns a block with the bytes of its file, and the elements that show it. Fails if out of memory.
pub fn film_block(alloc: Global, block: FilmBlock, bytes: &[u8]) -> Result<String, AllocError> {
    let name = block.name();
    let mut text = String::new(alloc);
    writeln!(text, "<script type=\"text/plain\" id=\"{name}\">")?;
    for byte in bytes {
        push_byte(&mut text, *byte)?;
    }
    text.push_str("</script>\n")?;
    text.push_str(block.script())?;
    Ok(text)
}

/// Adds a byte: a line feed and printable ASCII except `<` and the backslash as it is, and any other byte as `\` and
/// three octal digits.
fn push_byte(text: &mut String, byte: u8) -> Result<(), AllocError> {
    let is_plain = byte == b'\n' || 0x20 <= byte && byte < 0x7F && byte != b'<' && byte != b'\\';
    if is_plain {
        text.push(char::from(byte))
    } else {
        write!(text, "\\{byte:03o}")
    }
}
