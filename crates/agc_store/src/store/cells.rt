//! What a write to an erasable cell changes, by the cell's number.
#![tactic(auto, unfolding(crate::specs::Memory::cell_at, crate::specs::Memory::erasable_bank, crate::specs::Memory::fixed_bank, crate::specs::Cells::with_banks, crate::specs::Cells::cells_with, crate::specs::Cells::put_of))]

ghost use Rattle.std.specs.Prelude.{◌≡◌, ℕ, ◌<◌, ◌≤◌, set};
ghost use Rattle.agc_store.specs.Places.{edop_cell, erasable_cells};
ghost use Rattle.agc_store.specs.Cells.{put_of};
ghost use Rattle.agc_store.specs.Registers.{IsPlain, IsStorable};

use super::Store;
use super::narrow_cells::narrow_word;
use crate::place::{
    A, BB, CYL, CYR, EB, EDOP, ERASABLE_BANK_SIZE, FB, FIXED_BANK_SIZE, Q, SR, Z, ZERO,
};
use agc_word::{Edit, Wide, widen};

impl Store {
    /// Writes a word to an erasable cell by its number. The cells past EDOP are plain.
    #[inline]
    pub(super) fn put(&mut self, place: usize, word: Wide)
        requires { place < erasable_cells }
        ensures { self.new ≡ put_of self.old place word }
    {
        if place > EDOP as usize {
            self.set_plain(place, widen(word.narrow()));
        } else {
            self.put_low(place, word);
        }
    }

    /// Writes a word to a cell up to EDOP: a register, a plain cell or an editing register.
    #[inline(never)]
    pub(super) fn put_low(&mut self, place: usize, word: Wide)
        requires { place ≤ edop_cell }
        ensures { self.new ≡ put_of self.old place word }
    {
        let narrow = word.narrow();
        let bits = narrow.bits();
        match place as u16 {
            A | Q => self.set_plain(place, word),
            EB => {
                let fixed = self.fixed_bank();
                self.set_banks(bits / ERASABLE_BANK_SIZE % 0o10, fixed);
            }
            FB => {
                let erasable = u16::from(self.erasable_bank());
                self.set_banks(erasable, bits / FIXED_BANK_SIZE);
            }
            Z => self.set_plain(place, narrow_word(bits % 0o10000)),
            BB => self.set_banks(bits % 0o10, bits / FIXED_BANK_SIZE),
            ZERO => {}
            CYR => self.set_plain(place, widen(narrow.edit(Edit::Cyr))),
            SR => self.set_plain(place, widen(narrow.edit(Edit::Sr))),
            CYL => self.set_plain(place, widen(narrow.edit(Edit::Cyl))),
            EDOP => self.set_plain(place, widen(narrow.edit(Edit::Edop))),
            _ => self.set_plain(place, widen(narrow)),
        }
    }

    /// Writes a word to a cell that selects no bank.
    #[inline]
    pub(super) fn set_plain(&mut self, place: usize, word: Wide)
        requires plain { IsPlain place }
        requires storable { IsStorable place word }
        ensures { self.new ≡ record self.old { erasable = set self.old.erasable place word } }
    {
        self.cells[place] = word;
    }
}
