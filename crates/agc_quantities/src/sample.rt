//! A sample of a run: the words of the quantities in one state.
ghost use Rattle.std.specs.Prelude.{◌≡◌, ◌↔◌, IfOk, IsTrue, map, not};
ghost use Rattle.std.specs.List.{list_any};
ghost use Rattle.agc_listing.specs.Cell.{same_word};
ghost use Rattle.agc_quantities.specs.Sample.{IsSampleOf, is_changed, seen_in, word_in};

use agc_listing::{Cell, is_same_word};
use agc_machine::Machine;
use agc_store::Store;
use agc_word::{Narrow, widen};
use std::alloc::{AllocError, Global};

/// A cell with its word in a memory; for A and Q the overflow is corrected.
#[derive(Clone, Copy)]
pub struct CellWord {
    pub cell: Cell,
    pub word: Narrow,
}

/// The words of the quantities in a state of a run, with its cycle.
#[derive(Drop)]
pub struct Sample {
    pub cycle: u64,
    pub words: Vec<CellWord>,
}

/// Takes a sample of the present state.
pub(crate) fn take_sample(
    alloc: Global,
    cells: &[Cell],
    machine: &Machine,
) -> Result<Sample, AllocError>
    ensures { IfOk result (IsSampleOf cells.now machine.now) }
{
    Ok(Sample {
        cycle: machine.cycle(),
        words: look(alloc, cells, machine.store())?,
    })
}

/// Reads cells.
fn look(alloc: Global, cells: &[Cell], store: &Store) -> Result<Vec<CellWord>, AllocError>
    ensures { IfOk result (λ words. words.items ≡ map (seen_in store.now) cells.now) }
{
    cells.iter().map(|cell| see(*cell, store)).collect(alloc)
}

fn see(cell: Cell, store: &Store) -> CellWord
    ensures { result ≡ seen_in store.now cell }
{
    CellWord {
        cell,
        word: word_in(cell, store),
    }
}

/// Returns the word of a cell.
fn word_in(cell: Cell, store: &Store) -> Narrow
    ensures { result ≡ word_in store.now cell }
{
    cell.word(store).narrow()
}

/// Returns whether one of these cells has another word now. +0 and -0 differ.
pub(crate) fn has_changed(words: &[CellWord], store: &Store) -> bool
    ensures { result ≡ list_any (is_changed store.now) words.now }
{
    words.iter().any(|seen| is_changed(*seen, store))
}

fn is_changed(seen: CellWord, store: &Store) -> bool
    ensures { result ≡ is_changed store.now seen }
{
    !is_same_word(widen(seen.word), widen(word_in(seen.cell, store)))
}
