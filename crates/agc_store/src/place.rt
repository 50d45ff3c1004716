//! Named places: cells of the first erasable bank, the address windows, and the place of a bank and
//! an offset in the rope.
ghost use Rattle.std.specs.Prelude.{◌≡◌, ℕ, ◌+◌, ◌*◌, ◌/◌, ◌%◌, ◌<◌};
ghost use Rattle.agc_store.specs.Places.{fixed_bank_size, fixed_banks, fixed_words};

/// A, the accumulator: sixteen bits; the two highest show overflow.
pub const A: u16 = 0o0;

/// L, the low register: the lower half of a double word that A begins.
pub const L: u16 = 0o1;

/// Q, where TC puts the return address: sixteen bits.
pub const Q: u16 = 0o2;

/// EB, the erasable bank register: bits 11 to 9.
pub const EB: u16 = 0o3;

/// FB, the fixed bank register: bits 15 to 11.
pub const FB: u16 = 0o4;

/// Z, the address of the next order.
pub const Z: u16 = 0o5;

/// BB, both bank registers: FB's bits 15 to 11, and EB's bank in bits 3 to 1.
pub const BB: u16 = 0o6;

/// ZERO, which always reads +0.
pub const ZERO: u16 = 0o7;

/// ZRUPT, which saves Z while an interrupt runs.
pub const ZRUPT: u16 = 0o15;

/// BRUPT, which saves the order that an interrupt preceded.
pub const BRUPT: u16 = 0o17;

/// CYR, which rotates a word right one place.
pub const CYR: u16 = 0o20;

/// SR, which shifts a word right one place and keeps the sign.
pub const SR: u16 = 0o21;

/// CYL, which rotates a word left one place.
pub const CYL: u16 = 0o22;

/// EDOP, which keeps bits 14 to 8 of a word as its bits 7 to 1.
pub const EDOP: u16 = 0o23;

/// TIME2, the clock's upper word, which counts TIME1's overflows.
pub const TIME2: u16 = 0o24;

/// TIME1, the clock's lower word, in hundredths of a second.
pub const TIME1: u16 = 0o25;

/// TIME3, whose overflow requests T3RUPT: the Waitlist's timer.
pub const TIME3: u16 = 0o26;

/// TIME4, whose overflow requests T4RUPT: the timer of the displays.
pub const TIME4: u16 = 0o27;

/// TIME5, whose overflow requests T5RUPT: the autopilot's timer.
pub const TIME5: u16 = 0o30;

/// TIME6, which counts down to T6RUPT in steps of 1/1600 of a second: the jets' timer.
pub const TIME6: u16 = 0o31;

/// INLINK, into which the uplink shifts its words.
pub const INLINK: u16 = 0o45;

/// Cells in an erasable bank.
pub const ERASABLE_BANK_SIZE: u16 = 0o400;

/// Erasable cells in all eight banks.
pub const ERASABLE_CELLS: u16 = 0o4000;

/// Words in a fixed bank.
pub const FIXED_BANK_SIZE: u16 = 0o2000;

/// Number of fixed banks, 00 to 43 octal.
pub const FIXED_BANKS: u8 = 36;

/// Fixed words in all 36 banks. A place in the rope is below this number: 2000 octal times the
/// bank, plus the offset.
pub const FIXED_WORDS: u32 = 36864;

/// Places in forty fixed banks, 00 to 47 octal: all that the bank registers and the superbank can
/// name. The last four banks are empty.
pub const FIXED_PLACES: u32 = 40960;

/// The first address of the window onto the erasable bank that EB names.
pub const ERASABLE_WINDOW: u16 = 0o1400;

/// The first address of the window onto the fixed bank that FB names, and of all fixed memory.
pub const FIXED_WINDOW: u16 = 0o2000;

/// The first address of fixed-fixed memory: the banks 02 and 03, which can always be addressed.
pub const FIXED_FIXED: u16 = 0o4000;

/// Returns the bank of the fixed word at a place.
#[inline]
pub fn bank_of(place: u32) -> u8
    requires { place < fixed_words }
    ensures bank { result ≡ place / fixed_bank_size }
    ensures range { result < fixed_banks }
{
    (place / u32::from(FIXED_BANK_SIZE)) as u8
}

/// Returns the offset of a place in its bank.
#[inline]
pub fn offset_of(place: u32) -> u16
    ensures offset { result ≡ place % fixed_bank_size }
    ensures range { result < fixed_bank_size }
{
    (place % u32::from(FIXED_BANK_SIZE)) as u16
}

/// Returns the place of the fixed word at an offset of a bank.
#[inline]
pub fn place_of(bank: u8, offset: u16) -> u32
    ensures { result ≡ fixed_bank_size * bank + offset }
{
    u32::from(FIXED_BANK_SIZE) * u32::from(bank) + u32::from(offset)
}
