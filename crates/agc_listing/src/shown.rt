//! Prints bytes of a file in reports: its lines, and words in quotes.
ghost use Rattle.std.specs.Prelude.{◌≡◌, ◌++◌, codes, OnOk, option_map, string_bytes};
ghost use Rattle.agc_word.specs.Octal.{octal_digits};
ghost use Rattle.agc_listing.specs.Shown.{printable, quoted, shown_byte, shown_line, subject};

use crate::line::is_no_text;
use std::alloc::AllocError;

/// The maximum number of bytes of a line that are printed.
pub const SHOWN_BYTES: usize = 120;

/// Appends a line of a file: its first 120 bytes, and ` ..` if it has more.
#[tactic(auto, unfolding(crate::specs::Shown::shown_line))]
pub fn push_file_line(text: &mut String, line: &[u8]) -> Result<(), AllocError>
    ensures { OnOk result (string_bytes text.new ≡ string_bytes text.old ++ shown_line line.now) }
{
    if line.len() > SHOWN_BYTES {
        let (start, _) = line.split_at(SHOWN_BYTES);
        push_file_bytes(text, start)?;
        text.push_str(" ..")
    } else {
        push_file_bytes(text, line)
    }
}

/// Appends bytes: printable ASCII and tabs as they are, every other byte as `\` and three octal digits.
#[tactic(auto, unfolding(crate::specs::Shown::printable))]
pub fn push_file_bytes(text: &mut String, bytes: &[u8]) -> Result<(), AllocError>
    ensures { OnOk result (string_bytes text.new ≡ string_bytes text.old ++ printable bytes.now) }
{
    for byte in bytes {
        push_byte(text, *byte)?;
    }
    Ok(())
}

#[tactic(auto, unfolding(crate::specs::Shown::shown_byte))]
fn push_byte(text: &mut String, byte: u8) -> Result<(), AllocError>
    ensures { OnOk result (string_bytes text.new ≡ string_bytes text.old ++ shown_byte byte) }
{
    if is_no_text(byte) {
        push_octal(text, byte)
    } else {
        text.push(char::from(byte))
    }
}

fn push_octal(text: &mut String, byte: u8) -> Result<(), AllocError>
    ensures { OnOk result (string_bytes text.new
        ≡ string_bytes text.old ++ (codes "\\" ++ octal_digits 3 byte)) }
{
    write!(text, "\\{byte:03o}")
}

/// Appends a word in quotes, its bytes as `push_file_bytes` prints them.
pub fn push_quoted(text: &mut String, word: &[u8]) -> Result<(), AllocError>
    ensures { OnOk result (string_bytes text.new ≡ string_bytes text.old ++ quoted word.now) }
{
    text.push_str("`")?;
    push_file_bytes(text, word)?;
    text.push_str("`")
}

/// Appends a word in quotes, and what follows it.
pub fn push_quoted_then(text: &mut String, word: &[u8], what: &str) -> Result<(), AllocError>
    ensures { OnOk result
        (string_bytes text.new ≡ string_bytes text.old ++ (quoted word.now ++ what.now)) }
{
    push_quoted(text, word)?;
    text.push_str(what)
}

/// Appends the subject of a sentence: a word in quotes, or `otherwise` if there is none.
pub fn push_subject(
    text: &mut String,
    word: Option<&[u8]>,
    otherwise: &str,
) -> Result<(), AllocError>
    ensures { OnOk result (string_bytes text.new
        ≡ string_bytes text.old ++ subject (option_map (λ word. word.now) word.entry) otherwise.now) }
{
    match word {
        Some(word) => push_quoted(text, word),
        None => text.push_str(otherwise),
    }
}
