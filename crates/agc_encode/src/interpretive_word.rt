//! The words of interpretive lines.
ghost use Rattle.std.specs.Prelude.{◌≡◌, ◌<◌, Ok, IfOk};
ghost use Rattle.agc_interpretive.specs.Pending.{operand_line, store_line};
ghost use Rattle.agc_listing.specs.Location.{IsWithin};
ghost use Rattle.agc_listing.specs.Number.{offset_parsed};
ghost use Rattle.agc_listing.specs.Text.{after_first};
ghost use Rattle.agc_store.specs.Places.{fixed_words};
ghost use Rattle.agc_vocabulary.specs.Body.{tokens};
ghost use Rattle.agc_encode.specs.Interpretive.{
  alone,
  at_location,
  beside,
  is_constant,
  meaning,
  operand_in,
  operation_meaning,
  pair_meaning,
  sized,
  spoken_meaning,
  stated,
};
ghost use Rattle.agc_vocabulary.specs.Name.{naming_of};
ghost use Rattle.agc_encode.specs.Operand.{value_in};

use crate::operand::{Value as Read, located, location_of, value_in, value_moved};
use crate::role::{Role, is_store};
use agc_interpretive::{Count, Due, Fault, Index, Operation, Pending, Place, Value, cut_index};
use agc_listing::{Location, Signed, offset_parsed};
use agc_vocabulary::{Names, SourceFault, next_token};

/// Encodes an interpretive line with these words, in code at a place.
#[tactic(auto, unfolding(crate::specs::Interpretive::spoken_meaning))]
pub fn spoken_meaning(
    names: &Names,
    here: u32,
    due: &Pending,
    role: Role,
    words: &[u8],
) -> Result<u16, SourceFault>
    requires { here < fixed_words }
    ensures word { result ≡ spoken_meaning (naming_of names.now) here due.now role (tokens words.now) }
    ensures range { IfOk result (λ word. word < 0o100000) }
{
    match role {
        Role::Basic => Err(SourceFault::UnknownOrder),
        Role::Operand if due.first.is_none() => { Err(SourceFault::Interpretive(Fault::TooMany)) }
        Role::Operand => {
            let (value, index) = operand_in(is_constant(due.first), names, words)?;
            stated(due.operand_line(here as u16, value, index))
        }
        Role::Operation(operation) => operation_meaning(names, due, operation, words_behind(words)),
    }
}

/// Returns what is behind the first word.
fn words_behind(words: &[u8]) -> &[u8]
    ensures { tokens result.now ≡ after_first (tokens words.now) }
{
    match next_token(words) {
        Some((_, rest)) => rest,
        None => words,
    }
}

fn is_constant(due: Option<Due>) -> bool
    ensures { result ≡ is_constant due }
{
    matches!(due, Some(Due::Constant))
}

/// Returns a fault of the interpretive language as one of a source.
fn stated(word: Result<u16, Fault>) -> Result<u16, SourceFault>
    requires { IfOk word (λ word. word < 0o100000) }
    ensures word { result ≡ stated word }
    ensures range { IfOk result (λ word. word < 0o100000) }
{
    match word {
        Ok(word) => Ok(word),
        Err(fault) => Err(SourceFault::Interpretive(fault)),
    }
}

/// Encodes a store or a line of operations, with the words behind the first one.
fn operation_meaning(
    names: &Names,
    due: &Pending,
    operation: Operation,
    rest: &[u8],
) -> Result<u16, SourceFault>
    ensures word { result ≡ operation_meaning (naming_of names.now) due.now operation (tokens rest.now) }
    ensures range { IfOk result (λ word. word < 0o100000) }
{
    let is_store = is_store(operation);
    if let Some(fault) = due.fault_at_end(is_store) {
        return Err(SourceFault::Interpretive(fault));
    }
    if !is_store {
        return pair_meaning(operation, rest);
    }
    let (value, index) = operand_in(false, names, rest)?;
    stated(due.store_line(operation, value, index))
}

/// Encodes an operation, alone or with the one behind it.
fn pair_meaning(operation: Operation, rest: &[u8]) -> Result<u16, SourceFault>
    ensures word { result ≡ pair_meaning operation (tokens rest.now) }
    ensures range { IfOk result (λ word. word < 0o100000) }
{
    let Some((word, more)) = next_token(rest) else {
        return stated(Pending::pair_line(operation, None));
    };
    if next_token(more).is_some() {
        return Err(SourceFault::Interpretive(Fault::BadPair));
    }
    match Operation::from_name(word) {
        Some(right) => stated(Pending::pair_line(operation, Some(right))),
        None => Err(SourceFault::Interpretive(Fault::BadPair)),
    }
}

/// Parses an operand: a name or a number, with an offset and an index or not.
fn operand_in(constant: bool, names: &Names, text: &[u8]) -> Result<(Value, Index), SourceFault>
    ensures { result ≡ operand_in constant (naming_of names.now) (tokens text.now) }
{
    let Some((word, rest)) = next_token(text) else {
        return Err(SourceFault::BadOperand);
    };
    let Some((by, more)) = next_token(rest) else {
        let (word, index) = cut_index(word);
        return Ok((alone(constant, names, word)?, index));
    };
    if next_token(more).is_some() {
        return Err(SourceFault::BadOperand);
    }
    let (by, index) = cut_index(by);
    Ok((beside(constant, names, word, by)?, index))
}

/// Parses an operand of one word. A sign and digits are a number.
fn alone(constant: bool, names: &Names, word: &[u8]) -> Result<Value, SourceFault>
    ensures { result ≡ alone constant (offset_parsed word.now) (naming_of names.now) word.now }
{
    match offset_parsed(word) {
        Some(by) => sized(by.minus, by.magnitude),
        None => meaning(constant, value_in(names, word)?),
    }
}

/// Parses an operand and an offset, which may take a number below 0.
fn beside(constant: bool, names: &Names, word: &[u8], by: &[u8]) -> Result<Value, SourceFault>
    ensures { result ≡ beside constant (value_in (naming_of names.now) word.now) (offset_parsed by.now) }
{
    let value = value_in(names, word)?;
    let Some(by) = offset_parsed(by) else {
        return Err(SourceFault::BadOperand);
    };
    moved(constant, value, by)
}

fn moved(constant: bool, value: Read, by: Signed) -> Result<Value, SourceFault>
    requires { by.magnitude < 100000 }
    ensures { result ≡ beside constant (Ok value) (Some by) }
{
    match value {
        Read::Number(number) if by.minus && u64::from(number) < by.magnitude => {
            sized(true, by.magnitude - u64::from(number))
        }
        value => meaning(constant, value_moved(value, by)?),
    }
}

/// Returns what a value means: a number, or the place that it names.
fn meaning(constant: bool, value: Read) -> Result<Value, SourceFault>
    ensures { result ≡ meaning constant (Ok value) }
{
    match value {
        Read::Number(number) if constant || number < 0o10000 => sized(false, u64::from(number)),
        value => Ok(at_location(located(location_of(value))?)),
    }
}

/// Returns a number of fifteen bits with its sign.
fn sized(minus: bool, number: u64) -> Result<Value, SourceFault>
    ensures { result ≡ sized minus number }
{
    if number < 0o100000 {
        Ok(Value::Number(Count {
            minus,
            places: number as u16,
        }))
    } else {
        Err(SourceFault::Interpretive(Fault::BadNumber))
    }
}

fn at_location(location: Location) -> Value
    requires { IsWithin location }
    ensures { Ok result ≡ at_location (Ok location) }
{
    match location {
        Location::Erasable(cell) => Value::At(Place::Erasable(cell as u16)),
        Location::Fixed(place) => Value::At(Place::Fixed(place as u16)),
    }
}
