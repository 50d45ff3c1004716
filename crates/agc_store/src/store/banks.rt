//! The banks: EB, FB and the superbank select them, and the store caches where they begin.
#![tactic(auto, unfolding(crate::specs::Memory::cell_at, crate::specs::Memory::erasable_bank, crate::specs::Memory::fixed_bank, crate::specs::Memory::selected_bank, crate::specs::Memory::erasable_place, crate::specs::Memory::fixed_place, crate::specs::Cells::with_banks))]

ghost use Rattle.std.specs.Prelude.{◌≡◌, ◌<◌, ◌≤◌};
ghost use Rattle.agc_store.specs.Places.{erasable_cells, fixed_places, fixed_window};
ghost use Rattle.agc_store.specs.Memory.{erasable_bank, fixed_bank, selected_bank, bank_with_superbank, erasable_place, fixed_place};
ghost use Rattle.agc_store.specs.Cells.{with_banks};

use super::Store;
use super::narrow_cells::{narrow_pattern, narrow_word};
use crate::place::{
    BB, EB, ERASABLE_BANK_SIZE, ERASABLE_WINDOW, FB, FIXED_BANK_SIZE, FIXED_FIXED, FIXED_WINDOW,
};

impl Store {
    /// Returns the erasable bank in EB, 0 to 7.
    #[inline]
    pub fn erasable_bank(&self) -> u8
        ensures bank { result ≡ erasable_bank self.now.erasable }
        ensures range { result < 8 }
    {
        (self.erasable_base / ERASABLE_BANK_SIZE as usize) as u8
    }

    /// Returns the fixed bank that FB and the superbank select, 0 to 47 octal.
    #[inline]
    pub fn selected_bank(&self) -> u8
        ensures bank { result ≡ selected_bank self.now }
        ensures range { result < 40 }
    {
        (self.fixed_base / FIXED_BANK_SIZE as usize) as u8
    }

    /// Returns the fixed bank in FB, ignoring the superbank.
    pub(super) fn fixed_bank(&self) -> u16
        ensures bank { result ≡ fixed_bank self.now.erasable }
        ensures range { result < 32 }
    {
        narrow_pattern(self.cells[FB as usize]) / FIXED_BANK_SIZE
    }

    /// Returns the erasable cell that an address below 2000 octal names.
    #[inline]
    pub(super) fn erasable_place(&self, number: usize) -> usize
        requires { number < fixed_window }
        ensures place { result ≡ erasable_place self.now.erasable number }
        ensures range { result < erasable_cells }
    {
        if number < ERASABLE_WINDOW as usize {
            number
        } else {
            self.erasable_base + (number - ERASABLE_WINDOW as usize)
        }
    }

    /// Returns the fixed word's place that an address from 2000 octal on names.
    #[inline]
    pub(super) fn fixed_place(&self, number: usize) -> usize
        requires low { fixed_window ≤ number }
        requires high { number < 0o10000 }
        ensures place { result ≡ fixed_place self.now number }
        ensures range { result < fixed_places }
    {
        if number < FIXED_FIXED as usize {
            self.fixed_base + (number - FIXED_WINDOW as usize)
        } else {
            number
        }
    }

    /// Sets EB and FB to these banks, and with them BB and the cached places.
    pub(super) fn set_banks(&mut self, erasable: u16, fixed: u16)
        requires erasable { erasable < 8 }
        requires fixed { fixed < 32 }
        ensures { self.new ≡ record self.old { erasable = with_banks self.old.erasable erasable fixed } }
    {
        self.cells[EB as usize] = narrow_word(ERASABLE_BANK_SIZE * erasable);
        self.cells[FB as usize] = narrow_word(FIXED_BANK_SIZE * fixed);
        self.cells[BB as usize] = narrow_word(FIXED_BANK_SIZE * fixed + erasable);
        self.erasable_base = (ERASABLE_BANK_SIZE * erasable) as usize;
        self.fixed_base = (FIXED_BANK_SIZE * selected(fixed, self.superbank)) as usize;
    }
}

/// Returns the fixed bank that the bank in FB and the superbank select.
#[tactic(auto, unfolding(crate::specs::Memory::bank_with_superbank))]
#[inline]
pub(super) fn selected(bank: u16, superbank: bool) -> u16
    requires { bank < 32 }
    ensures bank { result ≡ bank_with_superbank superbank bank }
    ensures range { result < 40 }
{
    if superbank && bank >= 0o30 {
        bank + 0o10
    } else {
        bank
    }
}
