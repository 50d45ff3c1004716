//! Comparisons of a cell with a word, on which a condition may depend.
ghost use Rattle.std.specs.Prelude.{◌≡◌, ◌<◌, not};
ghost use Rattle.agc_word.specs.Number.{value};
ghost use Rattle.agc_session.specs.Comparison.{IsComparisonInRange, holds_in, is_related, same_word, word_at};
ghost use Rattle.agc_store.specs.Places.{erasable_cells};

use agc_store::Store;
use agc_store::place::ERASABLE_BANK_SIZE;
use agc_word::Narrow;

/// How one word compares with another.
#[derive(Clone, Copy, Debug, PartialEq, Eq)]
pub enum Relation {
    /// All fifteen bits are the same: +0 and -0 differ.
    Equal,
    /// Some bits differ.
    Unequal,
    /// The first is the smaller number. Both zeros are 0.
    Less,
    /// The first is the larger number. Both zeros are 0.
    Greater,
}

/// A comparison of a cell, overflow corrected, with a word.
#[derive(Clone, Copy, Debug, PartialEq, Eq)]
pub struct Comparison {
    /// The cell's number: 400 octal times its bank, plus its offset.
    pub cell: u16,
    pub relation: Relation,
    pub word: Narrow,
}

impl Comparison {
    /// Returns whether the comparison holds in a memory.
    pub(crate) fn holds_in(&self, store: &Store) -> bool
        requires { IsComparisonInRange self.now }
        ensures { result ≡ holds_in store.now self.now }
    {
        is_related(self.relation, word_of(store, self.cell), self.word)
    }
}

/// Returns whether a word has this relation to another.
fn is_related(relation: Relation, one: Narrow, other: Narrow) -> bool
    ensures { result ≡ is_related relation one other }
{
    match relation {
        Relation::Equal => one == other,
        Relation::Unequal => one != other,
        Relation::Less => signed(one) < signed(other),
        Relation::Greater => signed(other) < signed(one),
    }
}

/// Returns the integer that a word stands for.
fn signed(word: Narrow) -> i32
    ensures { result ≡ value word }
{
    let magnitude = i32::from(word.magnitude());
    if word.is_minus() {
        -magnitude
    } else {
        magnitude
    }
}

/// Returns whether a cell has another word than before.
pub(crate) fn has_changed(store: &Store, cell: u16, before: Narrow) -> bool
    requires { cell < erasable_cells }
    ensures { result ≡ not (same_word (word_at cell store.now) before) }
{
    word_of(store, cell) != before
}

/// Returns the word of a cell by its number.
pub(crate) fn word_of(store: &Store, cell: u16) -> Narrow
    requires { cell < erasable_cells }
    ensures { result ≡ word_at cell store.now }
{
    store.cell((cell / ERASABLE_BANK_SIZE) as u8, cell % ERASABLE_BANK_SIZE)
}
