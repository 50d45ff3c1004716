//! The symbol table: reads a symbol file, and finds the nearest name of a place.
ghost use Rattle.std.specs.Prelude.{◌≡◌, ◌≢◌, ◌<◌, find, get_or, option_map, Ok, Err, IfOk, IfErr, IfSome, None, OnOk};
ghost use Rattle.agc_symbols.specs.Index.{stands_at};
ghost use Rattle.agc_symbols.specs.Symbols.{names_in, names_with, option_named};
ghost use Rattle.agc_symbols.specs.Nearest.{as_nearby, nearest};
ghost use Rattle.agc_symbols.specs.Operand.{operand_named};
ghost use Rattle.agc_symbols.specs.declared.fault.SymbolTableFault.TheVariants.{Memory};

use crate::channel_table::ChannelTable;
use crate::fault::SymbolTableFault;
use crate::index::first_names;
use crate::line::{Parsed, read_line};
use crate::location::{is_single, number_of, room_below};
use crate::place_name::PlaceName;
use agc_listing::Location;
use agc_word::next_line;
use std::alloc::{AllocError, Global};
use std::marker::Model;

/// The names of a symbol file, in its order.
#[derive(Drop)]
pub struct SymbolTable {
    names: Vec<PlaceName>,
    channels: ChannelTable,
    /// For each number of a location, the index of the first name at it.
    first: Vec<Option<usize>>,
}

impl Model for SymbolTable {
    ghost use Rattle.std.specs.Prelude.{List};
    ghost use Rattle.agc_symbols.specs.Index.{AreFirst};
    ghost use Rattle.agc_symbols.specs.Symbols.{Symbol};

    ghost Value = { List Symbol };

    ghost view = { λ t. t.names.items };

    ghost invariant = { λ t. AreFirst t.first.items t.names.items };
}

/// A name at or below a place, and how many words the place is beyond it.
#[derive(Clone, Copy)]
pub struct Nearest<'a> {
    pub name: &'a str,
    pub offset: usize,
}

impl SymbolTable {
    /// Reads a symbol file. A line has a place and its name, `02,4071 LOOP` or `4071 LOOP` or `E3,1400 COUNT`,
    /// separated by blanks, or a channel and its name, `C015 KEYS`, or is empty; a word that begins with `#` begins a
    /// comment. The fault is that of the first faulty line, or `Memory`.
    pub fn read(alloc: Global, text: &[u8]) -> Result<SymbolTable, SymbolTableFault>
        ensures names { IfOk result (λ table. names_in text.now ≡ Ok table) }
        ensures fault { IfErr result (λ why. why ≢ Memory → names_in text.now ≡ Err why) }
    {
        let names = read_names(alloc, text)?;
        let first = first_names(alloc, names.as_slice())?;
        let channels = ChannelTable::read(alloc, text)?;
        Ok(SymbolTable {
            names,
            channels,
            first,
        })
    }

    /// Returns the first channel with this name, 0 to 777 octal. A channel is no place, and no place is a channel.
    pub fn channel(&self, name: &[u8]) -> Option<u16>
        ensures range { IfSome result (λ channel. channel < 512) }
    {
        self.channels.channel(name)
    }

    /// Returns the names of places and those of channels apart.
    pub fn split(self, alloc: Global) -> (SymbolTable, ChannelTable)
        ensures { result.0 ≡ self }
    {
        let SymbolTable {
            names,
            channels,
            first,
        } = self;
        let places = SymbolTable {
            names,
            channels: ChannelTable::new(alloc),
            first,
        };
        (places, channels)
    }

    /// Returns the names of places, in the order of the text.
    pub fn names(&self) -> &[PlaceName]
        ensures { result.now ≡ self.now }
    {
        self.names.as_slice()
    }

    /// Returns the nearest name at or below a place, in the same bank and at most 100 octal away. If several names have
    /// the same place, the first one counts.
    pub fn named_at(&self, at: Location) -> Option<Nearest<'_>>
        ensures { option_map as_nearby result ≡ nearest self.now at }
    {
        let number = number_of(at);
        for offset in 0..room_below(at) + 1 {
            if let Some(name) = self.first_at(number - 2 * offset) {
                return Some(Nearest { name, offset });
            }
        }
        None
    }

    /// Returns the name of a place as the operand of an order: the nearest one, but for a register or a counter only a
    /// name of its own.
    #[tactic(auto, unfolding(crate::specs::Operand::operand_named))]
    pub fn operand_at(&self, at: Location) -> Option<Nearest<'_>>
        ensures { option_map as_nearby result ≡ operand_named self.now at }
    {
        let near = self.named_at(at)?;
        if is_single(at) && near.offset != 0 {
            return None;
        }
        Some(near)
    }

    /// Returns the first of the names at a number.
    fn first_at(&self, number: usize) -> Option<&str>
        ensures { option_map (λ name. name.now) result
            ≡ option_map (λ named. named.name) (find (stands_at number) self.now) }
    {
        match first_index(self.first.as_slice(), number) {
            Some(index) => Some(self.names[index].name()),
            None => None,
        }
    }
}

/// Returns the index at a number, if there is one.
fn first_index(first: &[Option<usize>], number: usize) -> Option<usize>
    ensures { result ≡ get_or first.now number None }
{
    if number < first.len() {
        first[number]
    } else {
        None
    }
}

/// Returns the names of a text, or the fault of its first faulty line.
fn read_names(alloc: Global, text: &[u8]) -> Result<Vec<PlaceName>, SymbolTableFault>
    ensures names { IfOk result (λ names. names_in text.now ≡ Ok names.items) }
    ensures fault { IfErr result (λ why. why ≢ Memory → names_in text.now ≡ Err why) }
{
    let mut names = Vec::new(alloc);
    let mut lines = 0;
    let mut rest = text;
    while let Some((line, after)) = next_line(rest) {
        lines += 1;
        match read_line(line) {
            Ok(parsed) => add_parsed(alloc, &mut names, parsed)?,
            Err(fault) => return Err(SymbolTableFault::Line(lines, fault)),
        }
        rest = after;
    }
    Ok(names)
}

/// Adds the name of a line, if it has one.
fn add_parsed(
    alloc: Global,
    names: &mut Vec<PlaceName>,
    parsed: Option<Parsed<'_>>,
) -> Result<(), AllocError>
    ensures { OnOk result (names.new.items ≡ names_with names.old.items (option_named parsed.entry)) }
{
    if let Some(Parsed { place, name }) = parsed {
        names.push(PlaceName::new(alloc, place, name)?)?;
    }
    Ok(())
}
