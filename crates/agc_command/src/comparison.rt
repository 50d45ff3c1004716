//! Parses the place of an order and the comparison that may follow it, and prints the comparison.
ghost use Rattle.std.specs.Prelude.{◌≡◌, ◌++◌, drop, IfOk, OnOk, string_bytes};
ghost use Rattle.agc_listing.specs.Location.{IsWithin};
ghost use Rattle.agc_word.specs.Text.{words_of};
ghost use Rattle.agc_session.specs.Comparison.{IsComparisonInRange};
ghost use Rattle.agc_session.specs.Condition.{IsConditionInRange};
ghost use Rattle.agc_command.specs.Command.{IsBreakpointInRange, IsCommandInRange, back_place, until_place};
ghost use Rattle.agc_command.specs.Comparison.{
  after_order,
  compared_in,
  comparison_in,
  comparison_of,
  comparison_text,
  only_order,
  order_if,
  order_in,
  relation_in,
  sign_of,
};

use crate::command::Command;
use crate::fault::CommandFault;
use crate::name::CommandName;
use crate::place::{read_cell, read_place};
use crate::request::{read_back_target, read_until_target};
use crate::words::is_word;
use agc_listing::{Cell, Location, decimal_word, octal_word, push_place};
use agc_session::{Comparison, Condition, Relation};
use agc_symbols::SymbolTable;
use agc_word::{Narrow, next_word};
use std::alloc::AllocError;

/// Parses the place of an order, and a comparison if one follows. Nothing else may follow.
#[tactic(auto, unfolding(crate::specs::Comparison::only_order))]
pub(crate) fn read_only_order(
    names: &Option<SymbolTable>,
    name: CommandName,
    words: &[u8],
) -> Result<Condition, CommandFault>
    ensures order { result ≡ only_order names.now name (words_of words.now) }
    ensures range { IfOk result IsBreakpointInRange }
    ensures cell { IfOk result IsConditionInRange }
{
    let what = read_order(names, name, words)?;
    match next_word(after_order(words)) {
        None => Ok(what),
        Some(_) => Err(CommandFault::Usage(name)),
    }
}

/// Parses the place of an order, and a comparison if one follows.
#[tactic(auto, unfolding(crate::specs::Comparison::order_in))]
fn read_order(
    names: &Option<SymbolTable>,
    name: CommandName,
    words: &[u8],
) -> Result<Condition, CommandFault>
    ensures order { result ≡ order_in names.now name (words_of words.now) }
    ensures range { IfOk result IsBreakpointInRange }
    ensures cell { IfOk result IsConditionInRange }
{
    let (place, rest) = next_word(words).ok_or(CommandFault::Usage(name))?;
    let place = read_place(names, place)?;
    read_order_if(names, name, place, rest)
}

/// Parses the words after `until`: the place of an order, a comparison if one follows, and the most cycles.
pub(crate) fn read_until_place(
    names: &Option<SymbolTable>,
    words: &[u8],
) -> Result<Command, CommandFault>
    ensures until { result ≡ until_place names.now (words_of words.now) }
    ensures range { IfOk result IsCommandInRange }
{
    let rest = after_order(words);
    match read_order(names, CommandName::Until, words) {
        Ok(what) => read_until_target(what, rest),
        Err(fault) => Err(fault),
    }
}

/// Parses the words after `back until`: the place of an order, a comparison if one follows, and the hits to pass over.
pub(crate) fn read_back_place(
    names: &Option<SymbolTable>,
    words: &[u8],
) -> Result<Command, CommandFault>
    ensures back { result ≡ back_place names.now (words_of words.now) }
    ensures range { IfOk result IsCommandInRange }
{
    let rest = after_order(words);
    match read_order(names, CommandName::Back, words) {
        Ok(what) => read_back_target(what, rest),
        Err(fault) => Err(fault),
    }
}

/// Returns the words after the place of an order and its comparison.
#[tactic(auto, unfolding(crate::specs::Comparison::after_order))]
fn after_order(words: &[u8]) -> &[u8]
    ensures { words_of result.now ≡ after_order (words_of words.now) }
{
    let rest = without_first(words);
    let Some((first, comparison)) = next_word(rest) else {
        return rest;
    };
    if !is_word(first, "if") {
        return rest;
    }
    without_first(without_first(without_first(comparison)))
}

/// Returns the words without the first one.
pub(crate) fn without_first(words: &[u8]) -> &[u8]
    ensures { words_of result.now ≡ drop 1 (words_of words.now) }
{
    match next_word(words) {
        Some((_, rest)) => rest,
        None => words,
    }
}

/// Parses what follows the place of an order: `if` and a comparison, or something else.
#[tactic(auto, unfolding(crate::specs::Comparison::order_if, crate::specs::Command::IsBreakpointInRange))]
fn read_order_if(
    names: &Option<SymbolTable>,
    name: CommandName,
    place: Location,
    words: &[u8],
) -> Result<Condition, CommandFault>
    requires { IsWithin place }
    ensures order { result ≡ order_if names.now name place (words_of words.now) }
    ensures range { IfOk result IsBreakpointInRange }
    ensures cell { IfOk result IsConditionInRange }
{
    let Some((first, rest)) = next_word(words) else {
        return Ok(Condition::Order(place));
    };
    if !is_word(first, "if") {
        return Ok(Condition::Order(place));
    }
    let comparison = read_comparison(names, name, rest)?;
    Ok(Condition::OrderIf { place, comparison })
}

/// Parses the comparison at the beginning of some words.
#[tactic(auto, unfolding(crate::specs::Comparison::comparison_in))]
fn read_comparison(
    names: &Option<SymbolTable>,
    name: CommandName,
    words: &[u8],
) -> Result<Comparison, CommandFault>
    ensures comparison { result ≡ comparison_in names.now name (words_of words.now) }
    ensures range { IfOk result IsComparisonInRange }
{
    let (cell, rest) = next_word(words).ok_or(CommandFault::Usage(name))?;
    let (sign, rest) = next_word(rest).ok_or(CommandFault::Usage(name))?;
    let (word, _) = next_word(rest).ok_or(CommandFault::Usage(name))?;
    comparison_of(names, cell, sign, word)
}

/// Parses the three words of a comparison.
#[tactic(auto, unfolding(crate::specs::Comparison::comparison_of))]
fn comparison_of(
    names: &Option<SymbolTable>,
    cell: &[u8],
    sign: &[u8],
    word: &[u8],
) -> Result<Comparison, CommandFault>
    ensures comparison { result ≡ comparison_of names.now cell.now sign.now word.now }
    ensures range { IfOk result IsComparisonInRange }
{
    let cell = read_cell(names, cell)?;
    let relation = read_relation(sign)?;
    let word = read_compared(word)?;
    Ok(Comparison {
        cell,
        relation,
        word,
    })
}

/// Parses the sign of a relation.
#[tactic(auto, unfolding(crate::specs::Comparison::relation_in))]
fn read_relation(word: &[u8]) -> Result<Relation, CommandFault>
    ensures { result ≡ relation_in word.now }
{
    if is_word(word, "=") {
        Ok(Relation::Equal)
    } else if is_word(word, "!=") {
        Ok(Relation::Unequal)
    } else if is_word(word, "<") {
        Ok(Relation::Less)
    } else if is_word(word, ">") {
        Ok(Relation::Greater)
    } else {
        Err(CommandFault::BadRelation)
    }
}

/// Parses a word to compare with: in octal, or in decimal with its sign.
#[tactic(auto, unfolding(crate::specs::Comparison::compared_in))]
fn read_compared(word: &[u8]) -> Result<Narrow, CommandFault>
    ensures { result ≡ compared_in word.now }
{
    let parsed = match word {
        [b'+' | b'-', ..] => decimal_word(word),
        _ => octal_word(word),
    };
    parsed.ok_or(CommandFault::BadCompared)
}

/// Adds a comparison after the place of an order. Fails if memory runs out.
#[tactic(auto, unfolding(crate::specs::Comparison::comparison_text))]
pub(crate) fn push_comparison(text: &mut String, comparison: Comparison) -> Result<(), AllocError>
    requires { IsComparisonInRange comparison }
    ensures { OnOk result (string_bytes text.new ≡ string_bytes text.old ++ comparison_text comparison) }
{
    let sign = sign_of(comparison.relation);
    let word = comparison.word;
    text.push_str(" if ")?;
    push_place(text, Cell::new(comparison.cell).place())?;
    write!(text, " {sign} {word}")
}

/// Returns the sign of a relation.
#[tactic(auto, unfolding(crate::specs::Comparison::sign_of))]
fn sign_of(relation: Relation) -> &'static str
    ensures { result.now ≡ sign_of relation }
{
    match relation {
        Relation::Equal => "=",
        Relation::Unequal => "!=",
        Relation::Less => "<",
        Relation::Greater => ">",
    }
}
