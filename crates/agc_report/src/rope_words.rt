//! The words of a rope file, and what is known of them.
use agc_check::{Damage, damage_of, reached_places};
use agc_mend::{BadWord, bad_words, damaged_store, file_words};
use agc_store::place::{FIXED_BANK_SIZE, FIXED_BANKS, FIXED_WORDS};
use agc_store::{RopeForm, Store};
use std::alloc::{AllocError, Global};

/// The banks of a rope.
pub(crate) const BANKS: usize = FIXED_BANKS as usize;

/// The words of a bank.
pub(crate) const SIZE: usize = FIXED_BANK_SIZE as usize;

/// What a place has.
#[derive(Clone, Copy, Debug, PartialEq, Eq)]
pub(crate) enum Held {
    /// The word +0, or none.
    Nothing,
    /// A word to which orders lead from 4000 and the interrupt vectors.
    Reached,
    /// Another word: data, or code of a bank that is entered by a change of bank.
    NotReached,
}

/// A rope: its words, and what is known of each.
#[derive(Drop)]
pub(crate) struct RopeWords {
    pub store: Store,
    /// What each place has.
    pub held: Vec<Held>,
    /// The words with wrong parity; none in a form without parity.
    pub wrong: Vec<BadWord>,
    /// What they come from.
    pub damage: Damage,
}

/// Reads a rope file, whatever its parity. `None` if it has no whole words, or more than a rope.
pub(crate) fn read_words(
    alloc: Global,
    form: RopeForm,
    file: &[u8],
) -> Result<Option<RopeWords>, AllocError> {
    if file.is_empty() || file.len() % 2 == 1 || file.len() > 2 * FIXED_WORDS as usize {
        return Ok(None);
    }
    let store = damaged_store(alloc, form, file)?;
    let words = file_words(alloc, file)?;
    let wrong = match form {
        RopeForm::Classic => Vec::new(alloc),
        RopeForm::Parity => bad_words(alloc, words.as_slice())?,
    };
    let damage = damage_of(words.as_slice(), wrong.as_slice());
    let held = held_places(alloc, &store)?;
    Ok(Some(RopeWords {
        store,
        held,
        wrong,
        damage,
    }))
}

/// Returns what each place has.
fn held_places(alloc: Global, store: &Store) -> Result<Vec<Held>, AllocError> {
    let reached = reached_places(alloc, store)?;
    let mut held = Vec::new(alloc);
    for place in 0..FIXED_WORDS as usize {
        let is_reached = reached.as_slice().get(place).copied().unwrap_or(false);
        held.push(if store.fixed_at(place).bits() == 0 {
            Held::Nothing
        } else if is_reached {
            Held::Reached
        } else {
            Held::NotReached
        })?;
    }
    Ok(held)
}

impl RopeWords {
    /// Returns what a place has.
    pub(crate) fn held_at(&self, place: usize) -> Held {
        self.held
            .as_slice()
            .get(place)
            .copied()
            .unwrap_or(Held::Nothing)
    }

    /// Returns how many places have this.
    pub(crate) fn count_held(&self, what: Held) -> usize {
        self.held
            .as_slice()
            .iter()
            .filter(|held| **held == what)
            .count()
    }

    /// Returns how many places of a bank have this.
    pub(crate) fn count_in_bank(&self, bank: usize, what: Held) -> usize {
        (0..SIZE)
            .filter(|offset| self.held_at(place_in(bank, *offset)) == what)
            .count()
    }

    /// Returns how many places of a bank have a word that is not +0.
    pub(crate) fn used_in(&self, bank: usize) -> usize {
        SIZE.saturating_sub(self.count_in_bank(bank, Held::Nothing))
    }

    /// Returns how many words of a bank have wrong parity.
    pub(crate) fn wrong_in(&self, bank: usize) -> usize {
        self.wrong
            .as_slice()
            .iter()
            .filter(|bad| bad.place / SIZE == bank)
            .count()
    }
}

/// Returns the place of an offset in a bank.
pub(crate) fn place_in(bank: usize, offset: usize) -> usize {
    bank.saturating_mul(SIZE).saturating_add(offset)
}
