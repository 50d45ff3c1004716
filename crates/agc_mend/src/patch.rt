//! Applies a patch to a rope file: lines of a place and its word.
ghost use Rattle.std.specs.Prelude.{◌≡◌, ◌≢◌, ◌<◌, Err, IfErr, IfOk, OnOk};
ghost use Rattle.agc_store.specs.Places.{fixed_words};
ghost use Rattle.agc_listing.specs.Weave.{ArePlaces, parsed_in};
ghost use Rattle.agc_listing.specs.declared.fault.WeaveFault.TheVariants.{Memory};
ghost use Rattle.agc_mend.specs.Patch.{IsPatchedBy, with_word, with_words};

use agc_listing::{PlacedWord, WeaveFault, read_text, woven_bits};
use agc_store::{RopeForm, index_in_file};
use std::alloc::{AllocError, Global};

/// Returns the words of a rope file with the words of a patch. The patch is a text as `weave` reads it: a line `bb,oooo
/// wwwww` or `oooo wwwww` for each word, all octal. In the form with parity a word gets the right parity bit. The fault
/// is that of the first faulty line, or `Memory`.
pub fn apply_patch(
    alloc: Global,
    form: RopeForm,
    words: &[u16],
    text: &[u8],
) -> Result<Vec<u16>, WeaveFault>
    ensures patched { IfOk result (λ new. IsPatchedBy form text.now words.now new.items) }
    ensures fault { IfErr result (λ fault. fault ≢ Memory → parsed_in text.now ≡ Err fault) }
{
    let patch = read_text(alloc, text)?;
    match with_words(alloc, form, words, patch.words()) {
        Ok(patched) => Ok(patched),
        Err(_) => Err(WeaveFault::Memory),
    }
}

/// Returns the words of a file with these words at their places.
#[tactic(auto, unfolding(crate::specs::Patch::with_words))]
fn with_words(
    alloc: Global,
    form: RopeForm,
    words: &[u16],
    parsed: &[PlacedWord],
) -> Result<Vec<u16>, AllocError>
    requires { ArePlaces parsed.now }
    ensures { IfOk result (λ new. new.items ≡ with_words form words.now parsed.now) }
{
    let mut new = Vec::from_slice(alloc, words)?;
    for named in parsed {
        put_word(&mut new, form, named)?;
    }
    Ok(new)
}

/// Writes a word into the words of a file, which grow with zeros as far as the word needs.
#[tactic(auto, unfolding(crate::specs::Patch::with_word))]
pub fn put_word(words: &mut Vec<u16>, form: RopeForm, named: &PlacedWord) -> Result<(), AllocError>
    requires { named.now.place < fixed_words }
    ensures { OnOk result (words.new.items ≡ with_word form words.old.items named.now) }
{
    let index = index_in_file(form, named.place);
    if words.len() < index + 1 {
        words.resize(index + 1, 0)?;
    }
    words[index] = woven_bits(form, named.word);
    Ok(())
}
