//! Prints places in memory.
ghost use Rattle.std.specs.Prelude.{◌≡◌, ◌++◌, OnOk, string_bytes};
ghost use Rattle.agc_listing.specs.Place.{IsInPrint, place_text};

use std::alloc::AllocError;

/// A place in memory as listings name it. Addresses have twelve bits, 0 to 7777 octal.
#[derive(Clone, Copy, Debug, PartialEq, Eq)]
pub enum Place {
    /// An address that names the same cell or word whatever the banks are: 0 to 1377 and 4000 to 7777 octal.
    Plain(u16),
    /// A cell of an erasable bank, 0 to 7, by its address in the window: 1400 to 1777 octal.
    Erasable { bank: u8, address: u16 },
    /// A word of a fixed bank, 00 to 47 octal including the superbank, by its address: 2000 to 3777
    /// octal in the window.
    Fixed { bank: u8, address: u16 },
}

/// Appends a place: `oooo`, `En,oooo` or `bb,oooo`, all octal. Fails if out of memory.
pub fn push_place(text: &mut String, place: Place) -> Result<(), AllocError>
    requires { IsInPrint place }
    ensures { OnOk result (string_bytes text.new ≡ string_bytes text.old ++ place_text place) }
{
    match place {
        Place::Plain(address) => write!(text, "{address:04o}"),
        Place::Erasable { bank, address } => write!(text, "E{bank:01o},{address:04o}"),
        Place::Fixed { bank, address } => write!(text, "{bank:02o},{address:04o}"),
    }
}
