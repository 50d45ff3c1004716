//! Parses operands: an address, a place or a cell, and an offset from it.
ghost use Rattle.std.specs.Prelude.{◌≡◌, true, ◌+◌, ◌<◌, ◌^◌, length, Ok, IfOk, IfSome};
ghost use Rattle.agc_vocabulary.specs.Body.{tokens};
ghost use Rattle.agc_vocabulary.specs.Name.{naming_of};
ghost use Rattle.agc_encode.specs.Operand.{
  address_at,
  address_of,
  as_memory,
  begins_offset,
  channel_at,
  is_channel_cell,
  is_channel_name,
  located,
  location_apart,
  location_beside,
  location_for,
  location_in,
  location_of,
  moved,
  number_of_location,
  no_value,
  offset_place,
  operand_for,
  value_apart,
  value_beside,
  value_cut,
  value_here,
  value_in,
  value_moved,
  value_of,
  value_parts,
  value_whole,
};
ghost use Rattle.agc_encode.specs.LocationCounter.{IsSmall};
ghost use Rattle.agc_listing.specs.Location.{IsWithin};
ghost use Rattle.agc_listing.specs.Number.{offset_parsed};

use agc_listing::{
    Location, Operand, Signed, cell_address, count_named, is_addressable, is_name, listed_address,
    location_named, location_of_pseudo_address, offset_parsed,
};
use agc_order::Takes;
use agc_store::place::{ERASABLE_CELLS, FIXED_FIXED, FIXED_WORDS};
use agc_vocabulary::{Names, SourceFault, next_token};
use agc_word::read_octal;

/// The value of an operand.
#[derive(Clone, Copy)]
pub(crate) enum Value {
    /// An address or a channel, as written.
    Number(u32),
    /// The location of a name, or one at an offset from it.
    At(Location),
}

/// Parses the operand of an order from the words after it, for a line at a place.
pub(crate) fn operand_for(
    takes: Takes,
    names: &Names,
    here: u32,
    text: &[u8],
) -> Result<Operand, SourceFault>
    ensures { result ≡ operand_for takes (naming_of names.now) here (tokens text.now) }
{
    match takes {
        Takes::Nothing => match next_token(text) {
            Some(_) => Err(SourceFault::BadOperand),
            None => Ok(Operand::Nothing),
        },
        Takes::Channel => {
            let value = value_of(names, here, text)?;
            Ok(Operand::Channel(channel_at(value)?))
        }
        _ => {
            let value = value_of(names, here, text)?;
            as_memory(is_channel_name(names, text), here, value)
        }
    }
}

/// Returns the address that a value names; the name of a channel is not the name of a cell.
fn as_memory(named: bool, here: u32, value: Value) -> Result<Operand, SourceFault>
    ensures { result ≡ as_memory named here (Ok value) }
{
    match value {
        Value::At(Location::Erasable(cell)) if named && is_channel_cell(cell) => {
            Err(SourceFault::ChannelName)
        }
        value => Ok(Operand::Address(address_at(here, value)?)),
    }
}

/// Returns whether an operand begins with a name that an order of the source takes as a channel.
fn is_channel_name(names: &Names, text: &[u8]) -> bool
    ensures { result ≡ is_channel_name (naming_of names.now) (tokens text.now) }
{
    match next_token(text) {
        Some((word, _)) => names.channel_line(word).is_some(),
        None => false,
    }
}

/// Parses the value of an operand, for a line at a place.
pub(crate) fn value_of(names: &Names, here: u32, text: &[u8]) -> Result<Value, SourceFault>
    ensures { result ≡ value_of (naming_of names.now) here (tokens text.now) }
{
    let Some((word, rest)) = next_token(text) else {
        return Err(SourceFault::BadOperand);
    };
    let Some((by, more)) = next_token(rest) else {
        return value_here(names, here, word);
    };
    if next_token(more).is_some() {
        return Err(SourceFault::BadOperand);
    }
    value_beside(names, word, by)
}

/// Parses a value of one word: an offset from the line itself, a number or a name.
fn value_here(names: &Names, here: u32, word: &[u8]) -> Result<Value, SourceFault>
    ensures { result ≡ value_here (offset_parsed word.now) (naming_of names.now) here word.now }
{
    match offset_parsed(word) {
        Some(by) => value_moved(Value::At(Location::Fixed(here)), by),
        None => value_in(names, word),
    }
}

/// Parses a value and an offset.
fn value_beside(names: &Names, word: &[u8], by: &[u8]) -> Result<Value, SourceFault>
    ensures { result ≡ value_beside (value_in (naming_of names.now) word.now) (offset_parsed by.now) }
{
    let value = value_in(names, word)?;
    match offset_parsed(by) {
        Some(by) => value_moved(value, by),
        None => Err(SourceFault::BadOperand),
    }
}

/// Parses a word; one that means nothing as a whole is cut before a sign.
pub(crate) fn value_in(names: &Names, word: &[u8]) -> Result<Value, SourceFault>
    ensures { result ≡ value_in (naming_of names.now) word.now }
{
    match value_whole(names, word) {
        Some(value) => Ok(value),
        None => value_cut(names, word),
    }
}

/// Parses a whole word: an octal number, a place with its bank, a name, or a decimal number before a letter D.
fn value_whole(names: &Names, word: &[u8]) -> Option<Value>
    ensures { result ≡ value_whole (naming_of names.now) word.now }
{
    if let Some(number) = read_octal(6, word) {
        return Some(Value::Number(number as u32));
    }
    if let Some(place) = location_named(word) {
        return Some(Value::At(place));
    }
    if let Some(place) = names.get(word) {
        return Some(Value::At(place));
    }
    Some(Value::Number(count_named(word)? as u32))
}

/// Parses a word that is cut before the offset at its end.
fn value_cut(names: &Names, word: &[u8]) -> Result<Value, SourceFault>
    ensures { result ≡ value_cut (naming_of names.now) (offset_place word.now) word.now }
{
    match offset_place(word) {
        Some(at) => value_parts(
            word,
            value_whole(names, &word[..at]),
            offset_parsed(&word[at..]),
        ),
        None => Err(no_value(word)),
    }
}

/// Returns where the offset at the end of a word begins, if it has one.
#[tactic(auto, unfolding(crate::specs::Operand::offset_place))]
fn offset_place(word: &[u8]) -> Option<usize>
    ensures place { result ≡ offset_place word.now }
    ensures bound { IfSome result (λ at. at < length word.now) }
{
    (0..word.len()).find(|at| begins_offset(word, *at))
}

fn begins_offset(word: &[u8], at: usize) -> bool
    ensures { result ≡ begins_offset word.now at }
{
    at < word.len() && offset_parsed(&word[at..]).is_some()
}

fn value_parts(word: &[u8], value: Option<Value>, by: Option<Signed>) -> Result<Value, SourceFault>
    requires { IfSome by (λ by. by.magnitude < 100000) }
    ensures { result ≡ value_parts word.now value by }
{
    match (value, by) {
        (Some(value), Some(by)) => value_moved(value, by),
        _ => Err(no_value(word)),
    }
}

/// Returns why a word has no value.
fn no_value(word: &[u8]) -> SourceFault
    ensures { result ≡ no_value word.now }
{
    if is_name(word) {
        SourceFault::UnknownName
    } else {
        SourceFault::BadOperand
    }
}

/// Adds an offset to a value.
pub(crate) fn value_moved(value: Value, by: Signed) -> Result<Value, SourceFault>
    requires { by.magnitude < 100000 }
    ensures { result ≡ value_moved value by }
{
    let found = match value {
        Value::Number(number) => moved(0o120000, number, by).map(Value::Number),
        Value::At(Location::Fixed(place)) => {
            moved(u64::from(FIXED_WORDS), place, by).map(|place| Value::At(Location::Fixed(place)))
        }
        Value::At(Location::Erasable(cell)) => {
            moved(u64::from(ERASABLE_CELLS), cell, by).map(|cell| Value::At(Location::Erasable(
                cell,
            )))
        }
    };
    found.ok_or(SourceFault::NoSuchPlace)
}

/// Adds an offset to a number; the sum must be below a bound.
fn moved(bound: u64, number: u32, by: Signed) -> Option<u32>
    requires magnitude { by.magnitude < 100000 }
    requires bound { bound < 2 ^ 32 }
    ensures { result ≡ moved bound number by }
{
    let number = u64::from(number);
    let sum = if by.minus {
        number.checked_sub(by.magnitude)?
    } else {
        number + by.magnitude
    };
    if sum < bound { Some(sum as u32) } else { None }
}

/// Returns the location that the operand of a directive names: a name or a number, and perhaps an offset.
pub fn location_in(names: &Names, text: &[u8]) -> Result<Location, SourceFault>
    ensures location { result ≡ location_in (naming_of names.now) (tokens text.now) }
    ensures range { IfOk result IsWithin }
{
    located(location_of(value_apart(names, text)?))
}

/// Returns the location at an offset from another one.
pub fn location_beside(here: Location, by: Signed) -> Result<Location, SourceFault>
    requires { by.magnitude < 100000 }
    ensures location { result ≡ location_beside here by }
    ensures range { IfOk result IsWithin }
{
    located(location_of(value_moved(Value::At(here), by)?))
}

/// Returns the number by which a location is behind another one, as the location of this number.
pub fn location_apart(here: Location, from: Location) -> Result<Location, SourceFault>
    requires here { IsSmall here }
    requires from { IsWithin from }
    ensures location { result ≡ location_apart here from }
    ensures range { IfOk result IsWithin }
{
    let (here, from) = (number_of_location(here), number_of_location(from));
    if from <= here {
        located(location_of_pseudo_address(here - from))
    } else {
        Err(SourceFault::NoSuchPlace)
    }
}

/// Returns the number of a location, as listings count all memory.
fn number_of_location(location: Location) -> u32
    requires { IsSmall location }
    ensures { result ≡ number_of_location location }
{
    match location {
        Location::Erasable(cell) => cell,
        Location::Fixed(place) if u32::from(FIXED_FIXED) <= place && place < 0o10000 => place,
        Location::Fixed(place) => place + 0o10000,
    }
}

/// Returns the location that the operand of a word at a place names; an offset alone is relative to that place.
pub(crate) fn location_for(names: &Names, here: u32, text: &[u8]) -> Result<Location, SourceFault>
    ensures location { result ≡ location_for (naming_of names.now) here (tokens text.now) }
    ensures range { IfOk result IsWithin }
{
    located(location_of(value_of(names, here, text)?))
}

fn value_apart(names: &Names, text: &[u8]) -> Result<Value, SourceFault>
    ensures { result ≡ value_apart (naming_of names.now) (tokens text.now) }
{
    let Some((word, rest)) = next_token(text) else {
        return Err(SourceFault::BadPlace);
    };
    let Some((by, more)) = next_token(rest) else {
        return value_in(names, word);
    };
    if next_token(more).is_some() {
        return Err(SourceFault::BadPlace);
    }
    value_beside(names, word, by)
}

/// Returns the location of a value; a number names one as listings count all memory.
pub(crate) fn location_of(value: Value) -> Option<Location>
    ensures { result ≡ location_of value }
{
    match value {
        Value::Number(number) => location_of_pseudo_address(number),
        Value::At(place) => Some(place),
    }
}

/// Checks that a location is in memory.
pub(crate) fn located(location: Option<Location>) -> Result<Location, SourceFault>
    ensures location { result ≡ located location }
    ensures range { IfOk result IsWithin }
{
    match location {
        Some(Location::Fixed(place)) if place < FIXED_WORDS => Ok(Location::Fixed(place)),
        Some(Location::Erasable(cell)) if cell < u32::from(ERASABLE_CELLS) => Ok(Location::Erasable(
            cell,
        )),
        _ => Err(SourceFault::NoSuchPlace),
    }
}

/// Returns the address by which an order at a place names a value; a number below 10000 octal is an address.
pub(crate) fn address_at(here: u32, value: Value) -> Result<u16, SourceFault>
    ensures address { result ≡ address_at here value }
    ensures range { IfOk result (λ address. address < 0o10000) }
{
    match value {
        Value::Number(number) if number < 0o10000 => Ok(number as u16),
        Value::Number(number) => match location_of_pseudo_address(number) {
            Some(place) => address_of(here, place),
            None => Err(SourceFault::NoSuchPlace),
        },
        Value::At(place) => address_of(here, place),
    }
}

fn address_of(here: u32, location: Location) -> Result<u16, SourceFault>
    ensures address { result ≡ address_of here location }
    ensures range { IfOk result (λ address. address < 0o10000) }
{
    match location {
        Location::Erasable(cell) => Ok(cell_address(cell)),
        Location::Fixed(place) => {
            if place < FIXED_WORDS && is_addressable(here, place) {
                Ok(listed_address(place as usize))
            } else {
                Err(SourceFault::AnotherBank)
            }
        }
    }
}

/// Returns the channel that a value names. A name of a memory cell is none.
pub(crate) fn channel_at(value: Value) -> Result<u16, SourceFault>
    ensures channel { result ≡ channel_at value }
    ensures range { IfOk result (λ channel. channel < 0o1000) }
{
    match value {
        Value::Number(number) if number < 0o1000 => Ok(number as u16),
        Value::At(Location::Erasable(cell)) if is_channel_cell(cell) => Ok(cell as u16),
        _ => Err(SourceFault::ChannelWanted),
    }
}

/// Returns whether the name of a cell may be that of a channel: of a register or counter, or of 77.
fn is_channel_cell(cell: u32) -> bool
    ensures cell { result ≡ is_channel_cell cell }
    ensures range { result ≡ true → cell < 0o1000 }
{
    cell < 0o61 || cell == 0o77
}
