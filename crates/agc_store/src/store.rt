//! The store: the cells, the rope, and what each access returns and changes.
#![tactic(auto, unfolding(crate::specs::Memory::cell_at, crate::specs::Memory::erasable_place, crate::specs::Memory::fixed_at, crate::specs::Memory::selected_bank, crate::specs::Memory::read_of, crate::specs::Cells::write_of, crate::specs::Cells::fetch_of, crate::specs::Cells::named_cell, crate::specs::Cells::reedit_of, crate::specs::Cells::cell_of, crate::specs::Cells::fixed_of, crate::specs::Cells::poke_of, crate::specs::Cells::superbank_set))]

ghost use Rattle.std.specs.Prelude.{◌≡◌, ℕ, ◌+◌, ◌*◌, ◌<◌, ◌≤◌, ◌^◌, ◌&&◌, nat_lt, IfOk};
ghost use Rattle.agc_store.specs.Places.{zero_cell, edop_cell, erasable_window, fixed_window, fixed_fixed, fixed_words};
ghost use Rattle.agc_store.specs.Memory.{fixed_at, read_of};
ghost use Rattle.agc_store.specs.Cells.{
  write_of,
  fetch_of,
  named_cell,
  reedit_of,
  cell_of,
  fixed_of,
  poke_of,
  superbank_set,
  start_memory,
};
ghost use Rattle.agc_store.specs.Registers.{HoldsRegisters};

mod banks;
mod cells;
mod narrow_cells;
mod registers;

use crate::addr::Addr;
use crate::place::{
    CYR, EDOP, ERASABLE_BANK_SIZE, ERASABLE_CELLS, ERASABLE_WINDOW, FIXED_BANK_SIZE, FIXED_FIXED,
    FIXED_WINDOW, place_of,
};
use crate::rope::Rope;
use agc_word::{Narrow, Wide, widen};
use banks::selected;
use narrow_cells::cleared;
use std::alloc::{AllocError, Global};
use std::marker::Model;

/// The memory of the machine: 2048 erasable cells in 8 banks of 256, which begin with the
/// registers, the 36,864 fixed words of a rope in 36 banks of 1024, and the superbank bit.
///
/// An address has twelve bits. Below 1400 octal it names an erasable cell of the banks 0 to 2, from
/// 1400 a cell of the bank in EB, from 2000 a fixed word of the bank in FB, and from 4000 a word of
/// the fixed banks 02 and 03, which can always be addressed.
#[derive(Debug, Drop)]
pub struct Store {
    cells: [Wide; ERASABLE_CELLS as usize],
    rope: Rope,
    superbank: bool,
    /// The first cell of the erasable bank in EB.
    erasable_base: usize,
    /// The first word of the fixed bank that FB and the superbank select.
    fixed_base: usize,
}

impl Model for Store {
    ghost use Rattle.agc_store.specs.Memory.{Memory};
    ghost use Rattle.agc_store.specs.Registers.{HoldsRegisters, KeepsPlaces};

    ghost Value = { Memory };

    ghost view = { λ s. record { erasable = s.cells; fixed = s.rope; superbank = s.superbank } };

    ghost invariant = { λ s. HoldsRegisters s.cells × KeepsPlaces s.cells s.superbank s.erasable_base s.fixed_base };
}

impl Store {
    /// Returns the memory at the start: +0 in every erasable cell and register, the superbank off.
    #[tactic(auto, unfolding(crate::specs::Cells::start_memory))]
    pub fn new(rope: Rope) -> Store
        ensures { result ≡ start_memory rope }
    {
        Store {
            cells: cleared(),
            rope,
            superbank: false,
            erasable_base: 0,
            fixed_base: 0,
        }
    }

    /// Returns a copy of the memory. Fails when memory runs out.
    pub fn copy(&self, alloc: Global) -> Result<Store, AllocError>
        ensures { IfOk result (λ copy. copy ≡ self.now) }
    {
        let rope = self.rope.copy(alloc)?;
        Ok(Store {
            cells: self.cells,
            rope,
            superbank: self.superbank,
            erasable_base: self.erasable_base,
            fixed_base: self.fixed_base,
        })
    }

    /// Returns the rope, which no run changes.
    pub fn into_rope(self) -> Rope
        ensures { result ≡ self.fixed }
    {
        let Store { rope, .. } = self;
        rope
    }

    /// Returns the word at an address, widened if the cell is narrow. A and Q give all sixteen
    /// bits, BB the banks in FB and EB, ZERO +0, and the fixed banks above 43 octal +0.
    #[inline]
    pub fn read(&self, address: Addr) -> Wide
        ensures word { result ≡ read_of self.now address }
        ensures registers { HoldsRegisters self.now.erasable }
    {
        let number = usize::from(address.bits());
        if number >= FIXED_WINDOW as usize {
            widen(self.rope.word(self.fixed_place(number)))
        } else if is_past_editing(number) {
            self.cells[number]
        } else {
            self.cells[self.erasable_place(number)]
        }
    }

    /// Returns the narrow word at an address, as an order is fetched: overflow in A and Q is corrected.
    #[inline]
    #[tactic(auto, unfolding(crate::specs::Memory::cell_at, crate::specs::Memory::fixed_place, crate::specs::Memory::read_of, crate::specs::Cells::fetch_of))]
    pub fn fetch(&self, address: Addr) -> Narrow
        ensures { result ≡ fetch_of self.now address }
    {
        let number = usize::from(address.bits());
        if number >= FIXED_FIXED as usize {
            self.fetch_fixed_fixed(number)
        } else if number >= FIXED_WINDOW as usize {
            self.rope.word(self.fixed_place(number))
        } else {
            self.cells[self.erasable_place(number)].narrow()
        }
    }

    /// Returns the word at an address of fixed-fixed memory, whose address is its place in the rope.
    #[inline]
    #[tactic(auto, unfolding(crate::specs::Memory::fixed_place, crate::specs::Memory::read_of, crate::specs::Cells::fetch_of))]
    fn fetch_fixed_fixed(&self, number: usize) -> Narrow
        requires low { fixed_fixed ≤ number }
        requires high { number < 0o10000 }
        ensures { result ≡ fetch_of self.now number }
    {
        self.rope.word(number)
    }

    /// Writes a word to an address below 2000 octal, by the rules of the cell there. A and Q take all sixteen bits,
    /// every other cell the word with overflow corrected. EB keeps bits 11 to 9, FB bits 15 to 11, Z bits 12 to 1; BB
    /// sets EB and FB; ZERO ignores the word; the cells 20 to 23 octal (CYR, SR, CYL and EDOP) keep the edited word.
    #[inline]
    pub fn write(&mut self, address: Addr, word: Wide)
        requires { address < fixed_window }
        ensures { self.new ≡ write_of self.old address word }
    {
        let number = usize::from(address.bits());
        if is_past_editing(number) {
            self.put(number, word);
        } else {
            let cell = self.erasable_place(number);
            self.put(cell, word);
        }
    }

    /// Writes a word without overflow, as `write` does; a plain cell then needs no correction.
    #[inline]
    #[tactic(auto, using(crate::proofs::Kept::narrow_stays), unfolding(crate::specs::Memory::erasable_place, crate::specs::Cells::write_of, crate::specs::Cells::put_of, crate::specs::Cells::cells_with))]
    pub fn write_in_range(&mut self, address: Addr, word: Wide)
        requires address { address < fixed_window }
        requires range { word.magnitude < 2 ^ 14 }
        ensures { self.new ≡ write_of self.old address word }
    {
        let number = usize::from(address.bits());
        if is_past_editing(number) {
            self.set_plain(number, word);
        } else {
            self.write(address, word);
        }
    }

    /// Writes the word of an editing register back into it, so that it is edited again; leaves all
    /// other cells unchanged.
    #[inline]
    pub fn reedit(&mut self, address: Addr)
        ensures { self.new ≡ reedit_of self.old address }
    {
        let number = usize::from(address.bits());
        if number < FIXED_WINDOW as usize && !is_past_editing(number) {
            let place = self.erasable_place(number);
            if CYR as usize <= place && place <= EDOP as usize {
                let word = self.cells[place];
                self.put_low(place, word);
            }
        }
    }

    /// Returns the word at an address and lets an editing register edit it again, as orders do that
    /// write back what they read.
    #[inline]
    pub fn read_and_edit(&mut self, address: Addr) -> Wide
        ensures word { result ≡ read_of self.old address }
        ensures edited { self.new ≡ reedit_of self.old address }
    {
        let word = self.read(address);
        self.reedit(address);
        word
    }

    /// Returns the erasable cell that an address names; `None` from 2000 octal on.
    #[inline]
    pub fn named_cell(&self, address: Addr) -> Option<u16>
        ensures { result ≡ named_cell self.now address }
    {
        let number = usize::from(address.bits());
        if number < FIXED_WINDOW as usize {
            Some(self.erasable_place(number) as u16)
        } else {
            None
        }
    }

    /// Returns whether the superbank is on: bit 7 of channel 7.
    #[inline]
    pub fn superbank(&self) -> bool
        ensures { result ≡ self.now.superbank }
    {
        self.superbank
    }

    /// Switches the superbank. While it is on, the banks 30 to 37 octal in FB select 40 to 47.
    pub fn set_superbank(&mut self, on: bool)
        ensures { self.new ≡ superbank_set self.old on }
    {
        self.fixed_base = (FIXED_BANK_SIZE * selected(self.fixed_bank(), on)) as usize;
        self.superbank = on;
    }

    /// Returns the fixed word at a place: 2000 octal times its bank, plus its offset.
    #[inline]
    pub fn fixed_at(&self, place: usize) -> Narrow
        requires { place < fixed_words }
        ensures { result ≡ fixed_at place self.now.fixed }
    {
        self.rope.word(place)
    }

    /// Returns the fixed word at an offset, 0 to 1777 octal, of a bank, 00 to 43 octal, whatever FB holds.
    pub fn fixed(&self, bank: u8, offset: u16) -> Narrow
        requires bank { bank ≤ 0o43 }
        requires offset { offset ≤ 0o1777 }
        ensures { result ≡ fixed_of self.now bank offset }
    {
        self.fixed_at(place_of(bank, offset) as usize)
    }

    /// Returns the erasable cell at an offset, 0 to 377 octal, of a bank, 0 to 7, whatever EB
    /// holds. For A and Q the overflow is corrected.
    pub fn cell(&self, bank: u8, offset: u16) -> Narrow
        requires bank { bank ≤ 7 }
        requires offset { offset ≤ 0o377 }
        ensures { result ≡ cell_of self.now bank offset }
    {
        self.cells[ERASABLE_BANK_SIZE as usize * usize::from(bank) + usize::from(offset)].narrow()
    }

    /// Stores a word unedited, even in an editing register, as the hardware does with counters and
    /// interrupt registers. The registers 0 to 7 of bank 0 cannot be poked.
    pub fn poke(&mut self, bank: u8, offset: u16, word: Narrow)
        requires bank { bank ≤ 7 }
        requires offset { offset ≤ 0o377 }
        requires no_register { bank ≡ 0 → zero_cell < offset }
        ensures { self.new ≡ poke_of self.old bank offset word }
    {
        let place = ERASABLE_BANK_SIZE as usize * usize::from(bank) + usize::from(offset);
        self.set_plain(place, widen(word));
    }
}

/// Returns whether an address is past EDOP and below the window: then it names its own cell, which
/// is no register. One comparison covers most accesses to erasable memory.
#[inline(always)]
fn is_past_editing(number: usize) -> bool
    ensures { result ≡ nat_lt edop_cell number && nat_lt number erasable_window }
{
    number > EDOP as usize && number < ERASABLE_WINDOW as usize
}
