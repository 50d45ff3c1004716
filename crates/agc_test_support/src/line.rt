//! Parses the lines of a listing: which word goes where.
ghost use Rattle.std.specs.Prelude.{◌<◌, ◌^◌, IfSome};

use agc_word::read_octal;

/// A word and its place among the words of the rope: 2000 octal times its bank, plus its offset.
#[derive(Clone, Copy)]
pub(crate) struct Entry {
    pub place: usize,
    pub word: u16,
}

/// Returns whether a line is empty or a comment.
pub(crate) fn is_comment(line: &str) -> bool {
    line.is_empty() || line.starts_with(';')
}

/// Parses the entry of a line; `None` if the line is malformed.
pub(crate) fn read_line(line: &str) -> Option<Entry>
    ensures place { IfSome result (λ entry. entry.place < 36864) }
    ensures word { IfSome result (λ entry. entry.word < 2 ^ 15) }
{
    let (place, rest) = line.split_once(' ')?;
    let word = match rest.split_once(' ') {
        Some((word, _)) => word,
        None => rest,
    };
    Some(Entry {
        place: read_place(place)?,
        word: read_word(word)?,
    })
}

/// Parses the place of an address, or of a bank and an address.
fn read_place(text: &str) -> Option<usize>
    ensures { IfSome result (λ place. place < 36864) }
{
    let (bank, address) = match text.split_once(',') {
        Some((bank, address)) => (read_octal(2, bank.as_bytes())?, address),
        None => return fixed_fixed(text),
    };
    let address = read_octal(4, address.as_bytes())?;
    if bank > 0o43 || address < 0o2000 || address > 0o3777 {
        return None;
    }
    Some((0o2000 * bank + (address - 0o2000)) as usize)
}

/// Parses the place of an address in banks 02 and 03, which are always addressable.
fn fixed_fixed(text: &str) -> Option<usize>
    ensures { IfSome result (λ place. place < 36864) }
{
    let address = read_octal(4, text.as_bytes())?;
    if address < 0o4000 {
        return None;
    }
    Some(address as usize)
}

/// Parses a word of five octal digits.
fn read_word(text: &str) -> Option<u16>
    ensures { IfSome result (λ word. word < 2 ^ 15) }
{
    if text.len() < 5 {
        return None;
    }
    Some(read_octal(5, text.as_bytes())? as u16)
}
