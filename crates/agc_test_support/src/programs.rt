//! Small programs that several tests run.

/// An order that jumps to itself.
pub const IDLE: &str = "4000 14000 TCF 4000";

/// Writes +0 to channel 10 every four cycles, first at cycle 1: with the timers' steps, the thousandth write begins
/// at cycle 4014 and the next at 4018.
pub const WRITES: &str = "
4000 00006 EXTEND
4001 01010 WRITE 10
4002 14000 TCF 4000";

/// The same program with a service that ends the interrupt of a key.
pub const KEYED_WRITES: &str = "
4000 00006 EXTEND
4001 01010 WRITE 10
4002 14000 TCF 4000
4024 50017 RESUME";

/// Writes the relay word of PROG 12 to channel 10 at cycle 3, then jumps to itself.
pub const RELAY_WORD: &str = "
4000 34004 CA 4004
4001 00006 EXTEND
4002 01010 WRITE 10
4003 14003 TCF 4003
4004 54171";

/// Writes +2 to channel 10 at cycle 3, then divides +2 by the word in cell 100: the machine stops at cycle 6 if that
/// word is +1.
pub const DIVISION: &str = "
4000 34007 CA 4007
4001 00006 EXTEND
4002 01010 WRITE 10
4003 00006 EXTEND
4004 10100 DV 100
4007 00002";

/// Writes +0 to channel 10 at cycle 1, then stops by EDRUPT at cycle 4.
pub const EDRUPT: &str = "
4000 00006 EXTEND
4001 01010 WRITE 10
4002 00006 EXTEND
4003 07000 EDRUPT";
