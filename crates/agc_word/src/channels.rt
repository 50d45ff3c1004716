//! The channels by their names in the AGC, and the range that connects the computer to the outside.

/// The first channel that the outside sees and may set. Below it are L, Q and the two halves of the
/// scaler.
pub const FIRST_IO_CHANNEL: u16 = 0o5;

/// The last channel that the nine bits of an order can name.
pub const LAST_IO_CHANNEL: u16 = 0o777;

/// L, which is a channel too.
pub const L: u16 = 0o1;
/// Q, which is a channel too.
pub const Q: u16 = 0o2;
/// The high half of the scaler.
pub const HISCALAR: u16 = 0o3;
/// The low half of the scaler.
pub const LOSCALAR: u16 = 0o4;
/// Bit 7 is the superbank bit.
pub const SUPERBNK: u16 = 0o7;
/// The relay words of the display.
pub const OUT0: u16 = 0o10;
/// The lamps of the display.
pub const DSALMOUT: u16 = 0o11;
/// Bit 15 switches TIME6 on.
pub const CHAN13: u16 = 0o13;
/// The code of the last key pressed.
pub const MNKEYIN: u16 = 0o15;
/// Inputs from the spacecraft; a bit is 0 when its input is asserted.
pub const CHAN30: u16 = 0o30;
/// More inputs from the spacecraft.
pub const CHAN31: u16 = 0o31;
/// More inputs; bit 14 is the PRO key.
pub const CHAN32: u16 = 0o32;
/// More inputs from the spacecraft.
pub const CHAN33: u16 = 0o33;
