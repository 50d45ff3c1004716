//! Finds what a boundary changes in the watched cells, which are read again after each boundary that may change one.
ghost use Rattle.std.specs.Prelude.{◌≡◌, [], ◌∷◌, ◌++◌, IfOk, IsTrue, None, OnOk, false, if◌then◌else◌, map, not, string_bytes};
ghost use Rattle.std.specs.List.{list_any};
ghost use Rattle.agc_machine.specs.Boundary.{boundary};
ghost use Rattle.agc_trace.specs.Change.{
  change_of,
  change_text,
  changes_since,
  changes_text,
  is_changed,
  is_named,
  named_cells,
  seen_in,
};
ghost use Rattle.agc_trace.specs.Entry.{FitsLine, entry_of};
ghost use Rattle.agc_trace.specs.Watch.{watched_of};

use crate::recorded::{Recorded, next_recorded};
use crate::selection::Selection;
use crate::touched::is_away;
use agc_listing::{Cell, Location, LocationRange, is_same_word, push_cell_word, push_place};
use agc_machine::Machine;
use agc_store::Store;
use agc_store::place::ERASABLE_CELLS;
use agc_word::Wide;
use std::alloc::{AllocError, Global};

/// A cell whose word differs before and after a boundary.
#[derive(Clone, Copy, Debug, PartialEq, Eq)]
pub struct Change {
    pub cell: Cell,
    /// Its word before.
    pub old: Wide,
    /// Its word after.
    pub new: Wide,
}

/// A cell with its word when it was last read.
#[derive(Clone, Copy, Debug, PartialEq, Eq)]
pub(crate) struct Seen {
    cell: Cell,
    word: Wide,
}

/// Reads the watched cells, each once and in the order of their numbers.
#[tactic(auto, unfolding(crate::specs::Change::named_cells))]
pub(crate) fn watch_cells(
    alloc: Global,
    several: &[LocationRange],
    store: &Store,
) -> Result<Vec<Seen>, AllocError>
    ensures { IfOk result (λ seen. seen.items ≡ map (seen_in store.now) (named_cells several.now)) }
{
    let mut seen = Vec::new(alloc);
    for number in 0..ERASABLE_CELLS {
        let is_named = is_named(several, number);
        push_where(&mut seen, is_named, see(Cell::new(number), store))?;
    }
    Ok(seen)
}

/// Adds a cell if it is watched.
fn push_where(seen: &mut Vec<Seen>, is_named: bool, cell: Seen) -> Result<(), AllocError>
    ensures { OnOk result
        (seen.new.items ≡ seen.old.items ++ (if is_named then cell ∷ [] else [])) }
{
    if is_named {
        seen.push(cell)?;
    }
    Ok(())
}

/// Returns whether one of several ranges contains this cell.
pub(crate) fn is_named(several: &[LocationRange], number: u16) -> bool
    ensures { result ≡ is_named several.now number }
{
    let cell = Location::Erasable(u32::from(number));
    several.iter().any(|places| places.has(cell))
}

/// Reads a cell.
fn see(cell: Cell, store: &Store) -> Seen
    ensures { result ≡ seen_in store.now cell }
{
    Seen {
        cell,
        word: cell.word(store),
    }
}

/// Steps a machine over one boundary, and returns it with its operand, and what it changed in the watched cells, which were read
/// before it. They are read again only if it may have changed one. Without watched cells this costs next to nothing.
#[inline]
pub(crate) fn next_watched(
    alloc: Global,
    machine: &mut Machine,
    selection: &Selection,
    seen: &mut Vec<Seen>,
    changes: &mut Vec<Change>,
) -> Result<Recorded, AllocError>
    requires { seen.old.items
        ≡ map (seen_in machine.old.processor.store) (named_cells selection.now.cells.items) }
    ensures watched { IfOk result (λ recorded.
        record { entry = recorded.entry; operand = recorded.operand; changes = changes.new.items }
        ≡ watched_of (named_cells selection.now.cells.items) machine.old) }
    ensures entry { IfOk result (λ recorded. recorded.entry ≡ entry_of machine.old) }
    ensures fits { IfOk result (λ recorded. FitsLine recorded.entry) }
    ensures after { machine.new ≡ (boundary None machine.old).0 }
    ensures seen { OnOk result (seen.new.items
        ≡ map (seen_in machine.new.processor.store) (named_cells selection.now.cells.items)) }
{
    let bank = machine.store().erasable_bank();
    let Recorded { entry, operand } = next_recorded(machine);
    let stays = is_away(selection.cells.as_slice(), bank, entry.happening);
    look(alloc, machine.store(), stays, seen, changes)?;
    Ok(Recorded { entry, operand })
}

/// Reads the cells again after a boundary, unless it is known not to change them. Sets the changes, and keeps the cells
/// with their new words.
#[inline]
fn look(
    alloc: Global,
    store: &Store,
    stays: bool,
    seen: &mut Vec<Seen>,
    changes: &mut Vec<Change>,
) -> Result<(), AllocError>
    requires { IsTrue stays → list_any (λ s. is_changed store.now s) seen.old.items ≡ false }
    ensures changes { OnOk result (changes.new.items ≡ changes_since seen.old.items store.now) }
    ensures seen { OnOk result
        (seen.new.items ≡ map (λ s. seen_in store.now s.cell) seen.old.items) }
{
    if are_same(stays, seen.as_slice(), store) {
        changes.clear();
        return Ok(());
    }
    *changes = changes_since(alloc, seen.as_slice(), store)?;
    *seen = see_again(alloc, seen.as_slice(), store)?;
    Ok(())
}

/// Returns whether no cell has changed: either that is known, or the cells are read.
#[inline]
fn are_same(stays: bool, seen: &[Seen], store: &Store) -> bool
    requires { IsTrue stays → list_any (λ s. is_changed store.now s) seen.now ≡ false }
    ensures { result ≡ not (list_any (λ s. is_changed store.now s) seen.now) }
{
    stays || !has_changed(seen, store)
}

/// Returns whether a cell has changed.
#[inline]
fn has_changed(seen: &[Seen], store: &Store) -> bool
    ensures { result ≡ list_any (λ s. is_changed store.now s) seen.now }
{
    seen.iter().any(|cell| is_changed(*cell, store))
}

/// Returns whether this cell has changed.
fn is_changed(seen: Seen, store: &Store) -> bool
    ensures { result ≡ is_changed store.now seen }
{
    !is_same_word(seen.word, seen.cell.word(store))
}

/// Returns the changes of the cells.
fn changes_since(alloc: Global, seen: &[Seen], store: &Store) -> Result<Vec<Change>, AllocError>
    ensures { IfOk result (λ changes. changes.items ≡ changes_since seen.now store.now) }
{
    seen.iter()
        .filter(|cell| is_changed(**cell, store))
        .map(|cell| change_of(*cell, store))
        .collect(alloc)
}

fn change_of(seen: Seen, store: &Store) -> Change
    ensures { result ≡ change_of store.now seen }
{
    Change {
        cell: seen.cell,
        old: seen.word,
        new: seen.cell.word(store),
    }
}

/// Returns the cells with their present words.
fn see_again(alloc: Global, seen: &[Seen], store: &Store) -> Result<Vec<Seen>, AllocError>
    ensures { IfOk result (λ again. again.items ≡ map (λ s. seen_in store.now s.cell) seen.now) }
{
    seen.iter().map(|cell| see(cell.cell, store)).collect(alloc)
}

/// Appends the changes: ` | PLACE WORD to WORD` for each cell.
#[tactic(auto, unfolding(crate::specs::Change::changes_text))]
pub(crate) fn push_changes(text: &mut String, changes: &[Change]) -> Result<(), AllocError>
    ensures { OnOk result
        (string_bytes text.new ≡ string_bytes text.old ++ changes_text changes.now) }
{
    for change in changes {
        push_change(text, *change)?;
    }
    Ok(())
}

#[tactic(auto, unfolding(crate::specs::Change::change_text))]
fn push_change(text: &mut String, change: Change) -> Result<(), AllocError>
    ensures { OnOk result (string_bytes text.new ≡ string_bytes text.old ++ change_text change) }
{
    let Change { cell, old, new } = change;
    text.push_str(" | ")?;
    push_place(text, cell.place())?;
    text.push_str(" ")?;
    push_cell_word(text, cell, old)?;
    text.push_str(" to ")?;
    push_cell_word(text, cell, new)
}
