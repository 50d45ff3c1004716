//! Writes the words of a command line as a shell reads them.
use std::io::{self, Write};

/// Writes the path of a file as an argument. A leading `-` gets `./` before it, so that it is not taken for an option.
pub fn write_path<W: Write>(out: &mut W, path: &str) -> io::Result<()> {
    if path.starts_with("-") {
        out.write_all(b"./")?;
    }
    write_word(out, path)
}

/// Writes a word: plain, or in quotes if a byte may have a meaning to a shell. If it has control characters, they are
/// written as `\ooo` in `$'..'`, so that none reaches the terminal.
pub fn write_word<W: Write>(out: &mut W, word: &str) -> io::Result<()> {
    if word.chars().any(|letter| letter.is_control()) {
        return write_escaped(out, word);
    }
    if !word.is_empty() && word.bytes().all(is_plain) {
        return out.write_all(word.as_bytes());
    }
    write_quoted(out, word)
}

/// Writes a word in quotes.
fn write_quoted<W: Write>(out: &mut W, word: &str) -> io::Result<()> {
    out.write_all(b"'")?;
    for (number, part) in word.split('\'').enumerate() {
        if 0 < number {
            out.write_all(b"'\\''")?;
        }
        out.write_all(part.as_bytes())?;
    }
    out.write_all(b"'")
}

/// Writes a word in `$'..'`, with each byte that is not a printable ASCII character as `\ooo`.
fn write_escaped<W: Write>(out: &mut W, word: &str) -> io::Result<()> {
    out.write_all(b"$'")?;
    for byte in word.bytes() {
        match byte {
            b'\'' | b'\\' => write!(out, "\\{}", byte as char)?,
            0x20..=0x7e => out.write_all(&[byte])?,
            _ => write!(out, "\\{byte:03o}")?,
        }
    }
    out.write_all(b"'")
}

fn is_plain(byte: u8) -> bool {
    byte.is_ascii_alphanumeric()
        || matches!(
            byte,
            b'/' | b'.' | b'-' | b'_' | b'+' | b',' | b':' | b'=' | b'@'
        )
}
