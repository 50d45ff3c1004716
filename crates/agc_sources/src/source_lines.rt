//! The source line of each word of a rope.
use crate::fault::{Apart, SourceLinesFault};
use crate::listing::{ListingLine, listing_line};
use agc_io::{ROPE_BYTES, ReadError, TEXT_BYTES, read_limited};
use agc_listing::{Location, location_named};
use agc_store::place::FIXED_WORDS;
use agc_store::{RopeForm, index_in_file};
use agc_word::read_octal;
use std::alloc::Global;
use std::io::Read;

/// The line that ends the words of a listing: names follow.
const NAMES: &[u8] = b"# names";

/// A word of the listing, and where its source line stands in the text.
#[derive(Clone, Copy, Debug, PartialEq, Eq)]
struct ListedWord {
    word: u16,
    start: usize,
    end: usize,
}

/// The source lines of a program, by the places of their words: file, number and text of each.
#[derive(Drop)]
pub struct SourceLines {
    text: Vec<u8>,
    /// An entry for each place of the rope.
    words: Vec<Option<ListedWord>>,
}

impl SourceLines {
    /// Reads a listing as `weave --write-listing` writes it, up to its names.
    pub fn read(alloc: Global, text: Vec<u8>) -> Result<SourceLines, SourceLinesFault> {
        let words = listed_words(alloc, text.as_slice())?;
        if words.iter().any(|word| word.is_some()) {
            Ok(SourceLines { text, words })
        } else {
            Err(SourceLinesFault::Empty)
        }
    }

    /// Returns file, number and text of the source line whose word is at a place, or `None` if the listing has no word
    /// there.
    pub fn line_at(&self, place: u32) -> Option<&[u8]> {
        let Some(word) = self.words.get(place as usize) else {
            return None;
        };
        let word = (*word)?;
        self.text.as_slice().get(word.start..word.end)
    }

    /// Returns the first place at which the listing has another word than a rope file of this form, or `None` if all
    /// words of the listing are in the rope. The words past the file's end are +0.
    pub fn first_apart(&self, form: RopeForm, rope: &[u8]) -> Option<Apart> {
        let mut place = 0u32;
        for listed in self.words.iter() {
            if place >= FIXED_WORDS {
                return None;
            }
            if let Some(listed) = listed {
                let in_rope = word_in_file(rope, index_in_file(form, place as usize));
                if in_rope != listed.word {
                    let listed = listed.word;
                    return Some(Apart {
                        place,
                        listed,
                        in_rope,
                    });
                }
            }
            place = place.saturating_add(1);
        }
        None
    }
}

/// Reads the listing of a rope, and compares it with the rope's file. A rope that cannot be read is no fault here: whoever runs
/// it will say so.
pub fn read_source_lines<L: Read, R: Read>(
    alloc: Global,
    listing: &mut L,
    form: RopeForm,
    rope: &mut R,
) -> Result<SourceLines, SourceLinesFault> {
    let text = match read_limited(alloc, listing, TEXT_BYTES) {
        Ok(text) => text,
        Err(ReadError::CannotRead(_)) => return Err(SourceLinesFault::CannotRead),
        Err(ReadError::Memory) => return Err(SourceLinesFault::Memory),
    };
    let lines = SourceLines::read(alloc, text)?;
    let Ok(rope) = read_limited(alloc, rope, ROPE_BYTES) else {
        return Ok(lines);
    };
    match lines.first_apart(form, rope.as_slice()) {
        Some(apart) => Err(SourceLinesFault::OtherRope(apart)),
        None => Ok(lines),
    }
}

/// Returns the left fifteen bits of a word of a rope file.
fn word_in_file(rope: &[u8], index: usize) -> u16 {
    let at = index.saturating_mul(2);
    match rope.get(at..at.saturating_add(2)) {
        Some([high, low]) => (u16::from(*high) << 8 | u16::from(*low)) >> 1,
        _ => 0,
    }
}

/// Returns the words of a listing by their places.
fn listed_words(alloc: Global, text: &[u8]) -> Result<Vec<Option<ListedWord>>, SourceLinesFault> {
    let mut words = Vec::with_capacity(alloc, FIXED_WORDS as usize)?;
    words.resize(FIXED_WORDS as usize, None)?;
    let (mut start, mut end) = (0usize, 0usize);
    let mut at = 0usize;
    let mut number = 0usize;
    for line in text.split(|byte| *byte == b'\n') {
        number = number.saturating_add(1);
        let length = line.len();
        let line = without_return(line);
        if line == NAMES {
            break;
        }
        if !line.is_empty() {
            let Some(ListingLine { word, source }) = listing_line(line) else {
                return Err(SourceLinesFault::Line(number));
            };
            if let Some(source) = source {
                end = at.saturating_add(line.len());
                start = end.saturating_sub(source.len());
            }
            if let Some((place, word)) = word {
                let word = listed_word(word, start, end);
                put(&mut words, place, word, number)?;
            }
        }
        at = at.saturating_add(length).saturating_add(1);
    }
    Ok(words)
}

/// Returns a line without a carriage return at its end.
fn without_return(line: &[u8]) -> &[u8] {
    line.strip_suffix(b"\r").unwrap_or(line)
}

/// Returns a word that is written in octal, with its source line.
fn listed_word(word: &[u8], start: usize, end: usize) -> Option<ListedWord> {
    let word = read_octal(5, word)?;
    if word > 0o77777 {
        return None;
    }
    let word = word as u16;
    Some(ListedWord { word, start, end })
}

/// Puts a word of line `number` at its place.
fn put(
    words: &mut [Option<ListedWord>],
    place: &[u8],
    word: Option<ListedWord>,
    number: usize,
) -> Result<(), SourceLinesFault> {
    let Some(Location::Fixed(place)) = location_named(place) else {
        return Err(SourceLinesFault::Line(number));
    };
    let Some(slot) = words.get_mut(place as usize) else {
        return Err(SourceLinesFault::Line(number));
    };
    if word.is_none() {
        return Err(SourceLinesFault::Line(number));
    }
    if slot.is_some() {
        return Err(SourceLinesFault::Again(number));
    }
    *slot = word;
    Ok(())
}
