//! Prints orders: the mnemonics of the instruction memos, each with its address or channel.
ghost use Rattle.std.specs.Prelude.{◌≡◌, ◌++◌, OnOk, string_bytes};
ghost use Rattle.agc_word.specs.Number.{pattern_of};
ghost use Rattle.agc_listing.specs.Order.{
  FitsPrint,
  basic_text,
  extracode_text,
  next_is_extracode,
  operand_in,
  operand_text,
  order_text,
};

use agc_order::{Basic, Extracode, Row, Takes};
use agc_word::Narrow;
use std::alloc::AllocError;

/// The operand after a mnemonic.
#[derive(Clone, Copy, Debug, PartialEq, Eq)]
pub enum Operand {
    /// No operand, for example EXTEND.
    Nothing,
    /// An address of twelve bits, 0 to 7777 octal.
    Address(u16),
    /// A channel of nine bits, 0 to 777 octal.
    Channel(u16),
}

/// Returns the operand in an order's word. For a double-word order it is the address of the upper
/// word, as source listings show it; the word itself holds the address of the lower one.
pub fn operand_in(takes: Takes, word: Narrow) -> Operand
    ensures operand { result ≡ operand_in takes (pattern_of 15 word) }
    ensures range { FitsPrint result }
{
    let bits = word.bits();
    match takes {
        Takes::Nothing => Operand::Nothing,
        Takes::Erasable => Operand::Address(bits % 0o2000),
        Takes::ErasablePair => Operand::Address((bits % 0o2000 + 0o1777) % 0o2000),
        Takes::Fixed | Takes::Memory => Operand::Address(bits % 0o10000),
        Takes::MemoryPair => Operand::Address((bits % 0o10000 + 0o7777) % 0o10000),
        Takes::Channel => Operand::Channel(bits % 0o1000),
    }
}

/// Returns whether the next word is an extracode: after EXTEND, and after the extracode INDEX.
#[tactic(auto, unfolding(crate::specs::Order::next_is_extracode))]
pub fn next_is_extracode(extracode: bool, word: Narrow) -> bool
    ensures { result ≡ next_is_extracode extracode word }
{
    if extracode {
        matches!(Extracode::named_by(word), Extracode::Index)
    } else {
        matches!(Basic::named_by(word), Basic::Extend)
    }
}

/// Appends a word as an order, either an extracode or a basic order: `CA 4004`, `WRITE 010`,
/// `EXTEND`. Fails if out of memory.
pub fn push_order(text: &mut String, extracode: bool, word: Narrow) -> Result<(), AllocError>
    ensures { OnOk result
        (string_bytes text.new ≡ string_bytes text.old ++ order_text extracode word) }
{
    if extracode {
        push_extracode(text, word)
    } else {
        push_basic(text, word)
    }
}

#[tactic(auto, unfolding(crate::specs::Order::basic_text))]
fn push_basic(text: &mut String, word: Narrow) -> Result<(), AllocError>
    ensures { OnOk result
        (string_bytes text.new ≡ string_bytes text.old ++ basic_text (pattern_of 15 word)) }
{
    push_row(text, Basic::named_by(word).row(), word)
}

#[tactic(auto, unfolding(crate::specs::Order::extracode_text))]
fn push_extracode(text: &mut String, word: Narrow) -> Result<(), AllocError>
    ensures { OnOk result
        (string_bytes text.new ≡ string_bytes text.old ++ extracode_text (pattern_of 15 word)) }
{
    push_row(text, Extracode::named_by(word).row(), word)
}

/// Appends a word as the order of a row.
fn push_row(text: &mut String, row: Row, word: Narrow) -> Result<(), AllocError>
    ensures { OnOk result (string_bytes text.new ≡ string_bytes text.old
        ++ row.mnemonic.now ++ operand_text (operand_in row.takes (pattern_of 15 word))) }
{
    text.push_str(row.mnemonic)?;
    push_operand(text, operand_in(row.takes, word))
}

/// Appends an operand: a space and its address or channel in octal, or nothing. Fails if out of memory.
pub fn push_operand(text: &mut String, operand: Operand) -> Result<(), AllocError>
    requires { FitsPrint operand }
    ensures { OnOk result (string_bytes text.new ≡ string_bytes text.old ++ operand_text operand) }
{
    match operand {
        Operand::Nothing => Ok(()),
        Operand::Address(address) => write!(text, " {address:04o}"),
        Operand::Channel(channel) => write!(text, " {channel:03o}"),
    }
}
