//! Operand words that are no addresses: general shifts and switches.
ghost use Rattle.std.specs.Prelude.{◌≡◌, ◌<◌, ◌≤◌, Some, IfOk};
ghost use Rattle.agc_interpretive.specs.Operand.{has_index};
ghost use Rattle.agc_interpretive.specs.Words.{
  action_at,
  action_bits,
  condition_at,
  condition_bits,
  count_at,
  has_sign,
  kind_at,
  kind_bits,
  moved,
  plain_count,
  shift_in,
  shift_word,
  switch_bits,
  switch_count,
  switch_in,
  switch_word,
};

use crate::fault::Fault;
use crate::form::{Action, ShiftKind, When};
use crate::operand::{Count, Index, OperandKind};

/// The "address" of a general shift, less the bits of its kind and places. From memory, not checked.
const SHIFT_BASE: u16 = 0o20000;

/// The switches in 64 words of STATE, fifteen in each.
const SWITCH_COUNT: u16 = 960;

impl ShiftKind {
    ghost use Rattle.std.specs.Prelude.{◌≡◌, ◌≤◌};
    ghost use Rattle.agc_interpretive.specs.Words.{kind_bits};

    /// Returns its bits, with bit 8, for 0 places.
    fn bits(self) -> u16
        ensures bits { result ≡ kind_bits self }
        ensures least { 0o200 ≤ result }
        ensures most { result ≤ 0o1600 }
    {
        match self {
            ShiftKind::Left => 0o0200,
            ShiftKind::Right => 0o0600,
            ShiftKind::LeftRounded => 0o1200,
            ShiftKind::RightRounded => 0o1600,
        }
    }
}

impl Action {
    ghost use Rattle.std.specs.Prelude.{◌≡◌, ◌≤◌};
    ghost use Rattle.agc_interpretive.specs.Words.{action_bits};

    fn bits(self) -> u16
        ensures bits { result ≡ action_bits self }
        ensures most { result ≤ 0o300 }
    {
        match self {
            Action::Set => 0o000,
            Action::Invert => 0o100,
            Action::Clear => 0o200,
            Action::Keep => 0o300,
        }
    }
}

impl When {
    ghost use Rattle.std.specs.Prelude.{◌≡◌, ◌≤◌};
    ghost use Rattle.agc_interpretive.specs.Words.{condition_bits};

    fn bits(self) -> u16
        ensures bits { result ≡ condition_bits self }
        ensures most { result ≤ 0o60 }
    {
        match self {
            When::IfOn => 0o00,
            When::Always => 0o20,
            When::IfOff => 0o40,
            When::Never => 0o60,
        }
    }
}

/// Encodes a general shift by up to 177 octal places, below 0 only with an index: kind and places, plus 1, complemented
/// for X2. Decoding gives kind, places and index back.
#[tactic(auto, unfolding(crate::specs::Words::shift_word, crate::specs::Words::shift_in))]
pub fn shift_word(kind: ShiftKind, count: Count, index: Index) -> Result<u16, Fault>
    ensures word { result ≡ shift_word kind count index }
    ensures back { IfOk result (λ word. shift_in (has_index index) word ≡ Some (kind, plain_count count, index)) }
    ensures range { IfOk result (λ word. word < 0o100000) }
{
    let has_sign = count.minus && count.places != 0;
    if count.places > 0o177 || has_sign && !index.is_some() {
        return Err(Fault::BadNumber);
    }
    let bits = if count.minus {
        kind.bits() - count.places
    } else {
        kind.bits() + count.places
    };
    Ok(index.applied(SHIFT_BASE + bits + OperandKind::Shift.plus_one()))
}

/// Decodes a general shift; `None` for a word below those of shifts, or negative without `*`.
#[tactic(auto, unfolding(crate::specs::Words::shift_in))]
pub fn shift_in(is_indexed: bool, word: u16) -> Option<(ShiftKind, Count, Index)>
    requires { word < 0o100000 }
    ensures { result ≡ shift_in is_indexed word }
{
    let (raised, index) = Index::taken_off(is_indexed, word)?;
    if raised < SHIFT_BASE + OperandKind::Shift.plus_one() {
        return None;
    }
    let bits = raised - OperandKind::Shift.plus_one() - SHIFT_BASE;
    Some((kind_at(bits), count_at(bits % 0o400), index))
}

fn kind_at(bits: u16) -> ShiftKind
    ensures { result ≡ kind_at bits }
{
    match (bits / 0o1000 % 2 == 1, bits / 0o400 % 2 == 1) {
        (false, false) => ShiftKind::Left,
        (false, true) => ShiftKind::Right,
        (true, false) => ShiftKind::LeftRounded,
        (true, true) => ShiftKind::RightRounded,
    }
}

fn count_at(bits: u16) -> Count
    ensures { result ≡ count_at bits }
{
    if bits < 0o200 {
        Count {
            minus: true,
            places: 0o200 - bits,
        }
    } else {
        Count {
            minus: false,
            places: bits - 0o200,
        }
    }
}

/// Encodes an operation on a switch: the word of STATE, what is done, when it branches, and the bit from the left.
/// Decoding gives all back.
#[tactic(auto, unfolding(crate::specs::Words::switch_word, crate::specs::Words::switch_in))]
pub fn switch_word(action: Action, condition: When, number: u16) -> Result<u16, Fault>
    ensures word { result ≡ switch_word action condition number }
    ensures back { IfOk result (λ word. switch_in word ≡ (action, condition, number)) }
    ensures range { IfOk result (λ word. word < 0o100000) }
{
    if number >= SWITCH_COUNT {
        return Err(Fault::BadNumber);
    }
    let bits = 0o400 * (number / 15) + number % 15;
    Ok(bits + action.bits() + condition.bits() + OperandKind::Switch.plus_one())
}

/// Decodes an operation on a switch.
#[tactic(auto, unfolding(crate::specs::Words::switch_in))]
pub fn switch_in(word: u16) -> (Action, When, u16)
    requires { word < 0o100000 }
    ensures { result ≡ switch_in word }
{
    let bits = word.saturating_sub(OperandKind::Switch.plus_one());
    let number = 15 * (bits / 0o400) + bits % 0o20;
    (
        action_at(bits / 0o100 % 4),
        condition_at(bits / 0o20 % 4),
        number,
    )
}

fn action_at(bits: u16) -> Action
    ensures { result ≡ action_at bits }
{
    match bits {
        0 => Action::Set,
        1 => Action::Invert,
        2 => Action::Clear,
        _ => Action::Keep,
    }
}

fn condition_at(bits: u16) -> When
    ensures { result ≡ condition_at bits }
{
    match bits {
        0 => When::IfOn,
        1 => When::Always,
        2 => When::IfOff,
        _ => When::Never,
    }
}
