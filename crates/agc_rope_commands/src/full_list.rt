//! Lists all words of a rope file, also those that hold +0.
ghost use Rattle.std.specs.Prelude.{◌<◌};
ghost use Rattle.agc_store.specs.Places.{fixed_words};

use crate::ropes::{ListedRope, bank_of};
use agc_listing::{leads_on, next_is_extracode, push_order, push_rope_place};
use agc_load::LoadFault;
use agc_mend::file_words;
use agc_run_commands::AnalysisFault;
use agc_store::place::{FIXED_WORDS, bank_of as bank_of_place};
use agc_store::{RopeForm, Store, index_in_file};
use agc_study_args::{ListArgs, RopeRead, read_any_rope};
use std::alloc::{AllocError, Global};

/// Returns a line for each word of a rope file, or of one of its banks. In the form with parity sixteen bits 0 are no word;
/// in the classic form each place of the file has one.
pub(crate) fn full_list(
    alloc: Global,
    args: &ListArgs,
    file: &[u8],
) -> Result<ListedRope, AnalysisFault> {
    let bank = bank_of(&args.bank)?;
    let mut reader = file;
    let RopeRead { rope, wrong } = read_any_rope(
        alloc,
        args.form,
        args.ignores_parity,
        &mut reader,
    )?;
    let store = Store::new(rope);
    match full_text(alloc, args.form, bank, &store, file) {
        Ok(text) => Ok(ListedRope {
            text: text.into_bytes(),
            wrong,
        }),
        Err(_) => Err(AnalysisFault::Refused(LoadFault::Memory)),
    }
}

fn full_text(
    alloc: Global,
    form: RopeForm,
    bank: Option<u8>,
    store: &Store,
    file: &[u8],
) -> Result<String, AllocError> {
    let words = file_words(alloc, file)?;
    let mut text = String::new(alloc);
    let mut leads = false;
    for place in 0..FIXED_WORDS as usize {
        let extracode = leads_on(leads, place);
        let word = store.fixed_at(place);
        let is_in_bank = match bank {
            Some(bank) => bank_of_place(place as u32) == bank,
            None => true,
        };
        if is_in_bank && has_word(form, words.as_slice(), place) {
            push_rope_place(&mut text, place)?;
            write!(text, " {word} ")?;
            push_order(&mut text, extracode, word)?;
            text.push_str("\n")?;
        }
        leads = next_is_extracode(extracode, word);
    }
    Ok(text)
}

/// Returns whether a file has a word for a place.
fn has_word(form: RopeForm, words: &[u16], place: usize) -> bool
    requires { place < fixed_words }
{
    match (form, words.get(index_in_file(form, place))) {
        (_, None) => false,
        (RopeForm::Classic, Some(_)) => true,
        (RopeForm::Parity, Some(word)) => *word != 0,
    }
}
