//! Reports which banks of a rope changed, and by how many words.
use crate::bank_sums::{BANKS, SIZE, bits_at};
use agc_store::place::FIXED_WORDS;
use agc_store::{RopeForm, index_in_file};
use std::alloc::AllocError;

/// Appends a line for each bank in which words of two rope files differ: how many, and for how many the second file has none.
pub fn push_bank_changes(
    text: &mut String,
    form: RopeForm,
    before: &[u16],
    after: &[u16],
) -> Result<(), AllocError> {
    let mut any = false;
    for bank in 0..BANKS {
        let (mut changed, mut lost) = (0usize, 0usize);
        for offset in 0..SIZE {
            let place = bank.saturating_mul(SIZE).saturating_add(offset);
            if place < FIXED_WORDS as usize {
                let index = index_in_file(form, place);
                let (old, new) = (bits_at(before, index), bits_at(after, index));
                if old != new {
                    changed = changed.saturating_add(1);
                    if new == 0 {
                        lost = lost.saturating_add(1);
                    }
                }
            }
        }
        if changed > 0 {
            any = true;
            writeln!(
                text,
                "agc-study: bank {bank:02o}: words changed: {changed}, now without a word: {lost}"
            )?;
        }
    }
    if any {
        Ok(())
    } else {
        text.push_str("agc-study: no word changed\n")
    }
}
