//! A cell of erasable memory by number, and how its word and its place are printed.
ghost use Rattle.std.specs.Prelude.{◌≡◌, ◌↔◌, ◌<◌, ◌++◌, IsTrue, OnOk, string_bytes};
ghost use Rattle.agc_listing.specs.Place.{IsInPrint};
ghost use Rattle.agc_store.specs.Memory.{cell_at};
ghost use Rattle.agc_store.specs.Places.{erasable_cells};
ghost use Rattle.agc_store.specs.Registers.{HoldsRegisters};
ghost use Rattle.agc_listing.specs.Cell.{cell_place, cell_word, same_word};

use crate::place::Place;
use agc_store::place::{A, ERASABLE_BANK_SIZE, ERASABLE_WINDOW, Q};
use agc_store::{Addr, Store};
use agc_word::{Wide, widen};
use std::alloc::AllocError;
use std::marker::Model;

/// A cell of erasable memory by its number, 0 to 3777 octal: 400 octal cells per bank.
#[derive(Clone, Copy, Debug, PartialEq, Eq)]
pub struct Cell {
    number: u16,
}

impl Model for Cell {
    ghost use Rattle.std.specs.Prelude.{ℕ, ◌<◌};
    ghost use Rattle.agc_store.specs.Places.{erasable_cells};

    ghost Value = { ℕ };

    ghost view = { λ c. c.number };

    ghost invariant = { λ c. c.number < erasable_cells };

    ghost inverse = { λ n. record { number = n } };
}

impl Cell {
    /// Returns the cell with this number. The caller ensures that the number is in range.
    pub fn new(number: u16) -> Cell
        requires { number < erasable_cells }
        ensures { result ≡ number }
    {
        Cell { number }
    }

    /// Returns its number, 0 to 3777 octal.
    pub fn number(self) -> u16
        ensures cell { result ≡ self }
        ensures range { result < erasable_cells }
    {
        self.number
    }

    /// Returns its word: sixteen bits in A and Q, fifteen in every other cell.
    #[tactic(auto, unfolding(agc_store::specs::Memory::read_of, agc_store::specs::Memory::erasable_place))]
    pub fn word(self, store: &Store) -> Wide
        ensures word { result ≡ cell_at self store.now.erasable }
        ensures registers { HoldsRegisters store.now.erasable }
    {
        let number = self.number();
        let word = store.read(Addr::wrapped(number));
        if number < ERASABLE_WINDOW {
            return word;
        }
        let bank = (number / ERASABLE_BANK_SIZE) as u8;
        widen(store.cell(bank, number % ERASABLE_BANK_SIZE))
    }

    /// Returns its place as traces print it: its address up to 1377 octal, above that its bank and
    /// its address in the window.
    pub fn place(self) -> Place
        ensures place { result ≡ cell_place self }
        ensures range { IsInPrint result }
    {
        let number = self.number;
        if number < ERASABLE_WINDOW {
            Place::Plain(number)
        } else {
            Place::Erasable {
                bank: (number / ERASABLE_BANK_SIZE) as u8,
                address: ERASABLE_WINDOW + number % ERASABLE_BANK_SIZE,
            }
        }
    }
}

/// Appends the word of a cell: six octal digits for A and Q, five for all others.
#[tactic(auto, unfolding(crate::specs::Cell::cell_word))]
pub fn push_cell_word(text: &mut String, cell: Cell, word: Wide) -> Result<(), AllocError>
    ensures { OnOk result (string_bytes text.new ≡ string_bytes text.old ++ cell_word cell word) }
{
    let number = cell.number();
    if number == A || number == Q {
        return write!(text, "{word}");
    }
    let word = word.narrow();
    write!(text, "{word}")
}

/// Returns whether two words are the same. +0 and -0 differ.
pub fn is_same_word(left: Wide, right: Wide) -> bool
    ensures { result ≡ same_word left right }
{
    is_equal(left, right)
}

fn is_equal(left: Wide, right: Wide) -> bool
    ensures { IsTrue result ↔ (left ≡ right) }
{
    left == right
}
