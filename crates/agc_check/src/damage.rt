//! Decides what the words with wrong parity of a file come from, and finds the repairs of all of them.
ghost use Rattle.std.specs.Prelude.{◌≡◌, ◌%◌, length};

use agc_mend::{
    BadWord, Repair, Sureness, bad_words, damaged_store, file_words, push_repair_line, repairs,
    word_repaired,
};
use agc_store::place::FIXED_WORDS;
use agc_store::{RopeForm, Store};
use std::alloc::{AllocError, Global};

/// The most words with wrong parity whose repairs are searched for.
pub const MOST_REPAIRED: usize = 20;

/// What the words with wrong parity come from.
#[derive(Clone, Copy, Debug, PartialEq, Eq)]
pub enum Damage {
    /// Single words were read wrongly.
    Words,
    /// More than one word in ten is wrong, and this one bit is the same in all wrong words: it is stuck.
    Stuck(u32),
    /// More than one word in ten is wrong, and no bit is stuck: the file has another layout, or is no rope.
    Layout,
}

/// Returns what the words with wrong parity come from. A single wrong word is always one that was read wrongly.
pub fn damage_of(words: &[u16], wrong: &[BadWord]) -> Damage {
    if wrong.len() <= 1 || wrong.len().saturating_mul(10) <= words_used(words) {
        return Damage::Words;
    }
    match stuck_bit(wrong) {
        Some(bit) => Damage::Stuck(bit),
        None => Damage::Layout,
    }
}

/// Returns the number of words that are not 0. Equal neighbours count once, since unused places may be filled with a word.
fn words_used(words: &[u16]) -> usize {
    let mut used = 0usize;
    let mut last = 0;
    for word in words {
        if *word != 0 && *word != last {
            used = used.saturating_add(1);
        }
        last = *word;
    }
    used
}

/// Returns the bit that is the same in all these words, if there is exactly one.
fn stuck_bit(wrong: &[BadWord]) -> Option<u32> {
    let (mut ones, mut zeros) = (0xFFFFu16, 0xFFFFu16);
    for bad in wrong {
        ones &= bad.word;
        zeros &= !bad.word;
    }
    let same = ones | zeros;
    if same.count_ones() == 1 {
        Some(same.trailing_zeros())
    } else {
        None
    }
}

/// The repairs of a file's words with wrong parity.
#[derive(Drop)]
pub struct FileRepairs {
    /// The lines of a patch.
    pub text: String,
    /// The number of words with wrong parity.
    pub wrong: usize,
    pub damage: Damage,
    /// Whether a line is not sure.
    pub has_unsure: bool,
}

/// Returns the repairs of the first twenty words with wrong parity: up to `most` for each word, the most plausible ones
/// first. If a bit is stuck, returns its repair for all of them, and if the layout is another one, nothing. The file is in
/// the form with parity. Fails if out of memory.
pub fn file_repairs(
    alloc: Global,
    file: &[u8],
    is_placed: bool,
    most: usize,
) -> Result<FileRepairs, AllocError>
    requires { length file.now % 2 ≡ 0 }
{
    let words = file_words(alloc, file)?;
    let store = damaged_store(alloc, RopeForm::Parity, file)?;
    let wrong = bad_words(alloc, words.as_slice())?;
    let damage = damage_of(words.as_slice(), wrong.as_slice());
    let mut found = FileRepairs {
        text: String::new(alloc),
        wrong: wrong.len(),
        damage,
        has_unsure: false,
    };
    match damage {
        Damage::Words => {
            for bad in wrong.as_slice().iter().take(MOST_REPAIRED) {
                if bad.place < FIXED_WORDS as usize {
                    let all = repairs(alloc, &store, is_placed, wrong.as_slice(), *bad)?;
                    for repair in all.as_slice().iter().take(most) {
                        add_repair(&mut found, &store, *repair)?;
                    }
                }
            }
        }
        Damage::Stuck(bit) => {
            for bad in wrong.as_slice() {
                add_stuck(&mut found, &store, *bad, bit)?;
            }
        }
        Damage::Layout => {}
    }
    Ok(found)
}

fn add_repair(found: &mut FileRepairs, store: &Store, repair: Repair) -> Result<(), AllocError> {
    if repair.place < FIXED_WORDS as usize {
        found.has_unsure = found.has_unsure || repair.sureness != Sureness::Sure;
        push_repair_line(&mut found.text, store, repair)?;
    }
    Ok(())
}

/// Adds the repair of a word by the bit that is stuck.
fn add_stuck(
    found: &mut FileRepairs,
    store: &Store,
    bad: BadWord,
    bit: u32,
) -> Result<(), AllocError> {
    if bit >= 16 {
        return Ok(());
    }
    let repair = Repair {
        place: bad.place,
        word: word_repaired(bad.word, bit),
        is_legal: false,
        plausibility: 0,
        sureness: Sureness::Stuck,
    };
    add_repair(found, store, repair)
}
