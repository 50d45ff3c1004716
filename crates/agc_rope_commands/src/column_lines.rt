//! Prints the repairs of stuck columns as lines of a patch.
ghost use Rattle.std.specs.Prelude.{◌≡◌, ◌%◌, length};

use agc_mend::{bad_words, column_repairs, damaged_store, file_words, push_repair_line};
use agc_store::RopeForm;
use agc_store::place::FIXED_WORDS;
use std::alloc::{AllocError, Global};

/// The repairs of the words with wrong parity that are in stuck columns.
#[derive(Drop)]
pub(crate) struct ColumnRepairs {
    /// The lines of a patch.
    pub text: String,
    /// The number of words with wrong parity in the whole file.
    pub wrong: usize,
    /// The number of repairs.
    pub repaired: usize,
}

/// Returns the repairs of exactly the words with wrong parity that are in stuck columns of a file in the form with parity.
/// Fails if out of memory.
pub(crate) fn repairs_of_columns(alloc: Global, file: &[u8]) -> Result<ColumnRepairs, AllocError>
    requires { length file.now % 2 ≡ 0 }
{
    let words = file_words(alloc, file)?;
    let store = damaged_store(alloc, RopeForm::Parity, file)?;
    let mut found = ColumnRepairs {
        text: String::new(alloc),
        wrong: bad_words(alloc, words.as_slice())?.len(),
        repaired: 0,
    };
    if words.len() > FIXED_WORDS as usize {
        return Ok(found);
    }
    let repairs = column_repairs(alloc, words.as_slice())?;
    for repair in repairs.as_slice() {
        if repair.place < FIXED_WORDS as usize {
            push_repair_line(&mut found.text, &store, *repair)?;
            found.repaired = found.repaired.saturating_add(1);
        }
    }
    Ok(found)
}
