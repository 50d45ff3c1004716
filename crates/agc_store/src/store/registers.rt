//! Access to the registers by name.
#![tactic(auto, unfolding(crate::specs::Memory::cell_at, crate::specs::Cells::put_of, crate::specs::Cells::cells_with, crate::specs::Registers::register, crate::specs::Registers::z_of))]

ghost use Rattle.std.specs.Prelude.{◌≡◌, ◌+◌, ◌%◌};
ghost use Rattle.agc_store.specs.Places.{a_cell, l_cell, q_cell, z_cell};
ghost use Rattle.agc_store.specs.Cells.{narrow_number, put_of, fetch_of};
ghost use Rattle.agc_store.specs.Registers.{register, z_of};

use super::Store;
use super::narrow_cells::narrow_word;
use crate::addr::Addr;
use crate::place::{A, FIXED_FIXED, FIXED_WINDOW, L, Q, Z};
use agc_word::{Narrow, Wide, widen};

impl Store {
    /// Returns the accumulator A, all sixteen bits.
    #[inline]
    pub fn a(&self) -> Wide
        ensures { result ≡ register a_cell self.now }
    {
        self.cells[A as usize]
    }

    /// Returns the low register L, which holds a double word's lower half.
    #[inline]
    pub fn l(&self) -> Narrow
        ensures { result ≡ register l_cell self.now }
    {
        self.cells[L as usize].narrow()
    }

    /// Returns the return address register Q, all sixteen bits.
    #[inline]
    pub fn q(&self) -> Wide
        ensures { result ≡ register q_cell self.now }
    {
        self.cells[Q as usize]
    }

    /// Returns the address in Z: the next order to fetch.
    #[inline]
    pub fn z(&self) -> Addr
        ensures { result ≡ z_of self.now }
    {
        Addr::kept(self.cells[Z as usize].bits())
    }

    /// Sets A, as a write to it does.
    #[inline]
    pub fn set_a(&mut self, word: Wide)
        ensures { self.new ≡ put_of self.old a_cell word }
    {
        self.set_plain(A as usize, word);
    }

    /// Sets L, as a write to it does.
    #[inline]
    pub fn set_l(&mut self, word: Narrow)
        ensures { self.new ≡ put_of self.old l_cell word }
    {
        self.set_plain(L as usize, widen(word));
    }

    /// Sets Q, as a write to it does.
    #[inline]
    pub fn set_q(&mut self, word: Wide)
        ensures { self.new ≡ put_of self.old q_cell word }
    {
        self.set_plain(Q as usize, word);
    }

    /// Sets Z, as a write of the address to it does.
    #[tactic(auto, using(crate::proofs::Kept::stored_address), unfolding(crate::specs::Cells::put_of, crate::specs::Cells::cells_with))]
    pub fn set_z(&mut self, address: Addr)
        ensures { self.new ≡ put_of self.old z_cell (narrow_number address) }
    {
        self.set_plain(Z as usize, narrow_word(address.bits()));
    }

    /// Jumps to an address: sets Z to it, fetches the word there, and increments Z. Fixed memory
    /// does not see Z, so there Z is written once.
    #[inline]
    #[tactic(auto, using(crate::proofs::Jump::put_twice, crate::proofs::Jump::z_after, crate::proofs::Jump::fetch_unmoved))]
    pub fn fetch_at(&mut self, address: Addr) -> Narrow
        ensures jumped { z_of (put_of self.old z_cell (narrow_number address)) ≡ address }
        ensures word { result ≡ fetch_of (put_of self.old z_cell (narrow_number address)) address }
        ensures next { self.new ≡ put_of (put_of self.old z_cell (narrow_number address)) z_cell (narrow_number ((address + 1) % 0o10000)) }
    {
        // That Z holds what it is set to follows from the invariant on all cells.
        let _cells = &self.cells;
        let number = usize::from(address.bits());
        let word = if number >= FIXED_FIXED as usize {
            self.fetch_fixed_fixed(number)
        } else {
            if number < FIXED_WINDOW as usize {
                self.set_z(address);
            }
            self.fetch(address)
        };
        self.set_z(address.next());
        word
    }
}
