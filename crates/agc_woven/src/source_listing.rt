//! The listing of a source: each line with its words, then the names, and how far each bank is used. `weave` reads it as
//! places and words, so it is read back before it is handed out.
ghost use Rattle.std.specs.Prelude.{◌≡◌, IfOk, string_bytes};
ghost use Rattle.agc_asm.specs.Source.{IsSourceWoven};

use agc_asm::{AssemblyFault, assemble, source_symbols, word_lines};
use agc_include::Expanded;
use agc_listing::{push_file_bytes, push_rope_place};
use agc_store::place::{FIXED_BANK_SIZE, FIXED_BANKS, FIXED_WORDS, place_of};
use agc_store::{Rope, RopeForm, Store};
use agc_word::without_return;
use std::alloc::{AllocError, Global};

/// What stands for a place and a word before a line that has none.
const NO_WORD: &str = "             ";

/// Why a source has no listing.
#[derive(Clone, Copy, Debug, PartialEq, Eq)]
pub enum ListingFault {
    /// The source or its rope is at fault.
    Source(AssemblyFault),
    /// The listing would not weave to the same rope. The proofs do not rule this out; nothing is known that leads here.
    OtherRope,
}

impl From<AllocError> for ListingFault {
    fn from(_error: AllocError) -> ListingFault {
        ListingFault::Source(AssemblyFault::Memory)
    }
}

impl From<AssemblyFault> for ListingFault {
    fn from(fault: AssemblyFault) -> ListingFault {
        ListingFault::Source(fault)
    }
}

/// Returns the listing of a source that makes a rope file, perhaps with sums. It weaves to this very file.
pub fn listing_of(
    alloc: Global,
    form: RopeForm,
    source: &Expanded,
    file: &[u8],
) -> Result<String, ListingFault>
    ensures { IfOk result (λ text. IsSourceWoven form (string_bytes text) file.now) }
{
    let text = listing_text(alloc, form, source, file)?;
    let back = assemble(alloc, form, text.as_bytes())?;
    if back.as_slice() == file {
        Ok(text)
    } else {
        Err(ListingFault::OtherRope)
    }
}

/// The words of a rope, each with its line in the source.
#[derive(Drop)]
struct Words {
    store: Store,
    /// For each place the number of the line that puts its word there; 0 if no line does.
    lines: Vec<usize>,
    /// For each line the place of its first word.
    places: Vec<Option<usize>>,
}

fn listing_text(
    alloc: Global,
    form: RopeForm,
    source: &Expanded,
    file: &[u8],
) -> Result<String, ListingFault> {
    let words = words_of(alloc, form, source, file)?;
    let mut text = String::new(alloc);
    let mut number: usize = 0;
    for line in source.text().split(|b| *b == b'\n') {
        number = number.saturating_add(1);
        if source.origin(number).is_some() {
            push_source_line(&mut text, source, &words, number, without_return(line))?;
        }
    }
    push_sums(&mut text, &words)?;
    push_names(alloc, &mut text, source.text())?;
    push_banks(&mut text, &words)?;
    Ok(text)
}

/// Finds the words of each line.
fn words_of(
    alloc: Global,
    form: RopeForm,
    source: &Expanded,
    file: &[u8],
) -> Result<Words, ListingFault> {
    let lines = word_lines(alloc, source.text())?;
    let Ok(rope) = Rope::read_as(alloc, form, file) else {
        return Err(ListingFault::OtherRope);
    };
    let mut places = Vec::new(alloc);
    let count = source.text().iter().filter(|b| **b == b'\n').count();
    places.resize(count.saturating_add(1), None)?;
    for (place, line) in lines.as_slice().iter().enumerate() {
        if let Some(first) = places.get_mut(*line) {
            if first.is_none() {
                *first = Some(place);
            }
        }
    }
    Ok(Words {
        store: Store::new(rope),
        lines,
        places,
    })
}

/// Appends a line of the source behind its first word, and its second word, if there are two.
fn push_source_line(
    text: &mut String,
    source: &Expanded,
    words: &Words,
    number: usize,
    line: &[u8],
) -> Result<(), AllocError> {
    let place = words.places.get(number).copied().flatten();
    match place {
        Some(place) => push_word(text, &words.store, place)?,
        None => text.push_str(NO_WORD)?,
    }
    text.push_str(" # ")?;
    if let Some((file, number)) = source.origin(number) {
        push_file_bytes(text, file.as_bytes())?;
        write!(text, " {number}:")?;
    }
    if !line.is_empty() {
        text.push_str(" ")?;
        push_file_bytes(text, line)?;
    }
    text.push_str("\n")?;
    match place {
        Some(place) if words.lines.get(place.saturating_add(1)) == Some(&number) => {
            push_word(text, &words.store, place.saturating_add(1))?;
            text.push_str("\n")
        }
        _ => Ok(()),
    }
}

/// Appends a place and its word.
fn push_word(text: &mut String, store: &Store, place: usize) -> Result<(), AllocError> {
    if place < FIXED_WORDS as usize {
        push_rope_place(text, place)?;
        write!(text, " {}", store.fixed_at(place))?;
    }
    Ok(())
}

/// Appends the words that no line has: those of the sums.
fn push_sums(text: &mut String, words: &Words) -> Result<(), AllocError> {
    for (place, line) in words.lines.as_slice().iter().enumerate() {
        let has_word = place < FIXED_WORDS as usize && words.store.fixed_at(place).bits() != 0;
        if *line == 0 && has_word {
            push_word(text, &words.store, place)?;
            text.push_str(" # --sums\n")?;
        }
    }
    Ok(())
}

/// Appends a comment for each name and its place.
fn push_names(alloc: Global, text: &mut String, source: &[u8]) -> Result<(), AllocError> {
    text.push_str("# names\n")?;
    let names = source_symbols(alloc, source)?;
    for name in names.split(|b| *b == b'\n') {
        if !name.is_empty() {
            text.push_str("# ")?;
            push_file_bytes(text, name)?;
            text.push_str("\n")?;
        }
    }
    Ok(())
}

/// Appends a comment for each bank with words: their number, and the place of the last one.
fn push_banks(text: &mut String, words: &Words) -> Result<(), AllocError> {
    text.push_str("# banks\n")?;
    for bank in 0..FIXED_BANKS {
        let mut count: usize = 0;
        let mut last = 0;
        for offset in 0..FIXED_BANK_SIZE {
            let place = place_of(bank, offset) as usize;
            let is_taken = match words.lines.get(place) {
                Some(line) => *line != 0 || words.store.fixed_at(place).bits() != 0,
                None => false,
            };
            if is_taken {
                count = count.saturating_add(1);
                last = place;
            }
        }
        if count > 0 {
            write!(text, "# {bank:02o}: {count} of 1024 words, the last at ")?;
            push_rope_place(text, last)?;
            text.push_str("\n")?;
        }
    }
    Ok(())
}
