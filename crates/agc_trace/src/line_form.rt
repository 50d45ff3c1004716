//! How the lines of a trace are printed.
ghost use Rattle.std.specs.Prelude.{◌≡◌, [], None};

use agc_symbols::{ChannelTable, SymbolTable};
use std::alloc::Global;

/// How the words of operands are printed.
#[derive(Clone, Copy, Debug, PartialEq, Eq)]
pub enum Notation {
    Octal,
    /// As signed numbers; -0 is `-0`.
    Decimal,
}

/// How the lines of a trace are printed.
#[derive(Drop)]
pub struct LineForm {
    /// The names of places, printed beside the places of orders and as operands.
    pub names: Option<SymbolTable>,
    /// The names of channels, printed as operands.
    pub channels: ChannelTable,
    /// How to print what operands hold; `None` if that is not printed.
    pub operands: Option<Notation>,
}

impl LineForm {
    /// Creates a form with the names of a symbol file.
    pub fn new(alloc: Global, names: Option<SymbolTable>, operands: Option<Notation>) -> LineForm
        ensures names { result.names ≡ names }
        ensures channels { names ≡ None → result.channels ≡ [] }
        ensures operands { result.operands ≡ operands }
    {
        match names {
            Some(names) => {
                let (names, channels) = names.split(alloc);
                LineForm {
                    names: Some(names),
                    channels,
                    operands,
                }
            }
            None => LineForm {
                names: None,
                channels: ChannelTable::new(alloc),
                operands,
            },
        }
    }
}
