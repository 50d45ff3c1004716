//! An operand that is due behind a line of operations, and its word.
ghost use Rattle.std.specs.Prelude.{◌≡◌, ◌<◌, IfOk};
ghost use Rattle.agc_interpretive.specs.Pending.{
  constant_of,
  constant_word,
  is_odd_index,
  number_of,
  operand_word,
  place_of,
  takes_index,
  word_due,
};

use crate::fault::Fault;
use crate::form::{Action, ShiftKind, When};
use crate::modifier::{shift_word, switch_word};
use crate::operand::{Count, FIRST_FIXED, FIXED_WORDS, Index, Place};
use crate::words::{address_word, branch_word, cadr_of, cadr_word, cell_word};

/// An operand that is due.
#[derive(Clone, Copy, Debug, PartialEq, Eq)]
pub enum Due {
    /// An address that may be left out, if all behind it are.
    Popped,
    /// An address that is written, indexed or not.
    Address(bool),
    /// The places of a general shift, indexed or not.
    Shift(ShiftKind, bool),
    Constant,
    Cell,
    Branch,
    Cadr,
    Switch(Action, When),
}

/// The value of an operand in a source.
#[derive(Clone, Copy, Debug, PartialEq, Eq)]
pub enum Value {
    /// A number with its sign.
    Number(Count),
    /// The place of a name, or a place as written.
    At(Place),
}

/// Encodes an operand that is due, for code at a place.
#[tactic(auto, unfolding(crate::specs::Pending::operand_word))]
pub fn operand_word(due: Due, here: u16, value: Value, index: Index) -> Result<u16, Fault>
    ensures word { result ≡ operand_word due here value index }
    ensures range { IfOk result (λ word. word < 0o100000) }
{
    if takes_index(due) != index.is_some() {
        return Err(Fault::BadIndex);
    }
    word_due(due, here, value, index)
}

fn takes_index(due: Due) -> bool
    ensures { result ≡ takes_index due }
{
    match due {
        Due::Address(is_indexed) | Due::Shift(_, is_indexed) => is_indexed,
        _ => false,
    }
}

fn word_due(due: Due, here: u16, value: Value, index: Index) -> Result<u16, Fault>
    ensures word { result ≡ word_due due here value index }
    ensures range { IfOk result (λ word. word < 0o100000) }
{
    match due {
        Due::Popped | Due::Address(_) => address_word(here, place_of(value)?, index),
        Due::Shift(kind, _) => shift_word(kind, number_of(value)?, index),
        Due::Constant => constant_word(value),
        Due::Cell => cell_word(place_of(value)?),
        Due::Branch => branch_word(place_of(value)?),
        Due::Cadr => cadr_word(place_of(value)?),
        Due::Switch(action, condition) => {
            let number = number_of(value)?;
            if number.minus && number.places != 0 {
                return Err(Fault::BadNumber);
            }
            switch_word(action, condition, number.places)
        }
    }
}

/// Returns the place that a value names: a number below 4000 octal is a cell, one below 10000 a word of bank 02 or 03.
pub(crate) fn place_of(value: Value) -> Result<Place, Fault>
    ensures { result ≡ place_of value }
{
    match value {
        Value::At(place) => Ok(place),
        Value::Number(number) if number.minus && number.places != 0 => Err(Fault::OutOfReach),
        Value::Number(number) if number.places < FIRST_FIXED => Ok(Place::Erasable(number.places)),
        Value::Number(number) if number.places < 0o10000 => Ok(Place::Fixed(number.places)),
        Value::Number(_) => Err(Fault::OutOfReach),
    }
}

/// Returns the number that a value is: a name that stands for a number is a cell.
fn number_of(value: Value) -> Result<Count, Fault>
    ensures { result ≡ number_of value }
{
    match value {
        Value::Number(number) => Ok(number),
        Value::At(Place::Erasable(cell)) => Ok(Count {
            minus: false,
            places: cell,
        }),
        Value::At(Place::Fixed(_)) => Err(Fault::BadNumber),
    }
}

/// Encodes a constant as it is, minus complemented; of a name, its address. From memory, not checked.
fn constant_word(value: Value) -> Result<u16, Fault>
    ensures word { result ≡ constant_word value }
    ensures range { IfOk result (λ word. word < 0o100000) }
{
    match value {
        Value::Number(number) => constant_of(number),
        Value::At(Place::Erasable(cell)) if cell < FIRST_FIXED => Ok(cell),
        Value::At(Place::Fixed(fixed)) if fixed < FIXED_WORDS => Ok(cadr_of(fixed)),
        Value::At(_) => Err(Fault::OutOfReach),
    }
}

fn constant_of(number: Count) -> Result<u16, Fault>
    ensures word { result ≡ constant_of number }
    ensures range { IfOk result (λ word. word < 0o100000) }
{
    if number.places >= 0o100000 {
        Err(Fault::BadNumber)
    } else if number.minus {
        Ok(0o77777 - number.places)
    } else {
        Ok(number.places)
    }
}
