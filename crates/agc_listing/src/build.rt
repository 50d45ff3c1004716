//! Builds a rope file from the text of a rope.
ghost use Rattle.std.specs.Prelude.{◌≡◌, ◌≢◌, ◌<◌, List, None, Ok, Err, IfOk, IfErr, MatchResult, OnOk};
ghost use Rattle.agc_word.specs.Number.{Number, pattern_of};
ghost use Rattle.agc_store.specs.Places.{fixed_words};
ghost use Rattle.agc_listing.specs.Laws.{AreRopeWords, IsRopeOf};
ghost use Rattle.agc_listing.specs.List.{rope_text};
ghost use Rattle.agc_listing.specs.Weave.{
  ArePlaces,
  IsWovenOf,
  parsed_in,
  woven_bits,
  woven_file,
  woven_with,
};
ghost use Rattle.agc_listing.specs.declared.fault.WeaveFault.TheVariants.{Memory};

use crate::fault::WeaveFault;
use crate::line::PlacedWord;
use crate::rope_builder::RopeBuilder;
use agc_store::{RopeForm, index_in_file};
use agc_word::{Narrow, next_line};
use std::alloc::{AllocError, Global};

/// Builds a rope file of the given form from a text. The file is as long as its words need, and at
/// least one word long. A line `bb,oooo wwwww` names a place and its word, all octal; so does `oooo
/// wwwww` for 4000 to 7777. Text after the word, empty lines, and lines that begin with `#` are
/// ignored. The fault is that of the first faulty line, or `Memory`.
pub fn weave(alloc: Global, form: RopeForm, text: &[u8]) -> Result<Vec<u8>, WeaveFault>
    ensures file { IfOk result (λ bytes. IsWovenOf form text.now bytes.items) }
    ensures fault { IfErr result (λ fault. fault ≢ Memory → parsed_in text.now ≡ Err fault) }

    // The text of a whole rope builds a rope with the same words.
    ensures listing { (words : List Number) → AreRopeWords words → text.now ≡ rope_text None words
        → MatchResult result (λ bytes. IsRopeOf form words bytes.items) (λ fault. fault ≡ Memory) }
{
    let builder = read_text(alloc, text)?;
    match file_of(alloc, form, builder.words()) {
        Ok(bytes) => Ok(bytes),
        Err(_) => Err(WeaveFault::Memory),
    }
}

/// Returns the words that a text names, in the order of its lines, or the fault of its first faulty line.
pub fn read_text(alloc: Global, text: &[u8]) -> Result<RopeBuilder, WeaveFault>
    ensures words { IfOk result (λ builder. parsed_in text.now ≡ Ok builder) }
    ensures fault { IfErr result (λ fault. fault ≢ Memory → parsed_in text.now ≡ Err fault) }
{
    let mut builder = RopeBuilder::new(alloc)?;
    let mut lines = 0;
    let mut rest = text;
    while let Some((line, after)) = next_line(rest) {
        lines += 1;
        match builder.read(line) {
            Ok(named) => builder.add(named)?,
            Err(fault) => return Err(WeaveFault::Line(lines, fault)),
        }
        rest = after;
    }
    Ok(builder)
}

/// Builds the rope file of the given form that holds these words. It is as long as they need, and at least one word
/// long. Fails if out of memory.
pub fn file_of(alloc: Global, form: RopeForm, words: &[PlacedWord]) -> Result<Vec<u8>, AllocError>
    requires { ArePlaces words.now }
    ensures { IfOk result (λ bytes. bytes.items ≡ woven_file form words.now) }
{
    let mut bytes = vec![in alloc; 0, 0]?;
    for named in words {
        put_word(&mut bytes, form, named)?;
    }
    Ok(bytes)
}

/// Writes a word into a file, which grows with zeros as far as the word needs.
#[tactic(auto, unfolding(crate::specs::Weave::woven_with, crate::specs::Weave::woven_on))]
fn put_word(bytes: &mut Vec<u8>, form: RopeForm, named: &PlacedWord) -> Result<(), AllocError>
    requires { named.now.place < fixed_words }
    ensures { OnOk result (bytes.new.items ≡ woven_with form bytes.old.items named.now) }
{
    let at = 2 * index_in_file(form, named.place);
    if bytes.len() < at + 2 {
        bytes.resize(at + 2, 0)?;
    }
    let bits = woven_bits(form, named.word);
    bytes[at] = (bits / 256) as u8;
    bytes[at + 1] = (bits % 256) as u8;
    Ok(())
}

/// Returns the sixteen bits of a word in a rope file of the given form: the word, and the parity bit or 0.
#[tactic(auto, unfolding(crate::specs::Weave::woven_bits))]
pub fn woven_bits(form: RopeForm, word: Narrow) -> u16
    ensures { result ≡ woven_bits form (pattern_of 15 word) }
{
    let bits = 2 * word.bits();
    match form {
        RopeForm::Parity if bits.count_ones() % 2 == 0 => bits + 1,
        _ => bits,
    }
}
