//! Prints a boundary as a line in a form: with names, the operand by its name; what the operand held; the changed cells.
ghost use Rattle.std.specs.Prelude.{◌≡◌, ◌++◌, OnOk, option_map, string_bytes};
ghost use Rattle.agc_word.specs.Number.{pattern_of};
ghost use Rattle.agc_machine.specs.Boundary.{HasPlace};
ghost use Rattle.agc_machine.specs.declared.upcoming.Upcoming.TheVariants as upcoming;
ghost use Rattle.agc_listing.specs.Order.{FitsPrint, operand_in, operand_text};
ghost use Rattle.agc_trace.specs.Operand.{takes_of};
ghost use Rattle.agc_symbols.specs.Nearest.{as_nearby};
ghost use Rattle.agc_trace.specs.Entry.{FitsLine};
ghost use Rattle.agc_trace.specs.OperandLine.{
  after_text,
  before_text,
  called_or,
  column_in,
  entry_in_form,
  happening_in_form,
  held_in_form,
  held_text,
  is_wide,
  named_alone,
  operand_called,
  order_in_form,
  place_called,
  placed_word,
  signed_text,
  stays,
  watched_line,
  word_text,
};
ghost use Rattle.agc_symbols.specs.Channels.{name_of_channel};

use crate::change::{Change, push_changes};
use crate::line::{order_place, push_happening, push_registers, push_write};
use crate::line_form::{LineForm, Notation};
use crate::named_line::push_digits;
use crate::operand::{HeldChannel, HeldWord, Operand, takes_of};
use crate::recorded::Recorded;
use crate::selection::mnemonic_of;
use agc_listing::{
    Location, Operand as Field, is_same_word, location_at, operand_in, push_operand, push_place,
};
use agc_machine::{InHand, Upcoming};
use agc_store::place::{A, Q};
use agc_symbols::{ChannelTable, Nearest, SymbolTable, push_column, push_nearby};
use agc_word::{Wide, widen};
use std::alloc::AllocError;

/// Appends the line of a boundary, with the changes of watched cells after the registers: ` | PLACE WORD to WORD` for
/// each. Fails if out of memory.
#[tactic(auto, unfolding(crate::specs::OperandLine::watched_line))]
pub(crate) fn push_watched_line(
    text: &mut String,
    form: &LineForm,
    recorded: &Recorded,
    changes: &[Change],
) -> Result<(), AllocError>
    requires { FitsLine recorded.now.entry }
    ensures { OnOk result (string_bytes text.new ≡ string_bytes text.old ++ watched_line form.now
        (record { entry = recorded.now.entry; operand = recorded.now.operand; changes = changes.now })) }
{
    push_recorded(text, form, recorded)?;
    push_changes(text, changes)?;
    text.push_str("\n")
}

/// Appends a boundary without the end of its line.
#[tactic(auto, unfolding(crate::specs::OperandLine::entry_in_form))]
fn push_recorded(text: &mut String, form: &LineForm, recorded: &Recorded) -> Result<(), AllocError>
    requires { FitsLine recorded.now.entry }
    ensures { OnOk result (string_bytes text.new
        ≡ string_bytes text.old ++ entry_in_form form.now recorded.now.entry recorded.now.operand) }
{
    let entry = &recorded.entry;
    let cycle = entry.cycle;
    write!(text, "{cycle} ")?;
    push_happening_in_form(text, form, entry.happening, &recorded.operand)?;
    push_write(text, entry.write)?;
    text.push_str(" | ")?;
    push_registers(text, entry.registers)
}

fn push_happening_in_form(
    text: &mut String,
    form: &LineForm,
    happening: Upcoming,
    used: &Operand,
) -> Result<(), AllocError>
    requires { HasPlace happening }
    ensures { OnOk result (string_bytes text.new
        ≡ string_bytes text.old ++ happening_in_form form.now happening used.now) }
{
    match happening {
        Upcoming::Order(order) => push_order_in_form(text, form, &order, used),
        Upcoming::Stop(_) | Upcoming::Event(_) | Upcoming::Timer(_) | Upcoming::Interrupt(_) => {
            push_happening(text, happening)
        }
    }
}

#[tactic(auto, unfolding(crate::specs::OperandLine::order_in_form))]
fn push_order_in_form(
    text: &mut String,
    form: &LineForm,
    order: &InHand,
    used: &Operand,
) -> Result<(), AllocError>
    requires { HasPlace (upcoming.Order order.now) }
    ensures { OnOk result (string_bytes text.new
        ≡ string_bytes text.old ++ order_in_form form.now order.now used.now) }
{
    push_placed_word(text, &form.names, order)?;
    text.push_str(mnemonic_of(*order))?;
    push_called_operand(text, form, field_of(*order), used)?;
    push_held_in_form(text, form.operands, used)
}

/// Appends the place of an order, its name column if there are names, and its word.
fn push_placed_word(
    text: &mut String,
    names: &Option<SymbolTable>,
    order: &InHand,
) -> Result<(), AllocError>
    requires { HasPlace (upcoming.Order order.now) }
    ensures { OnOk result
        (string_bytes text.new ≡ string_bytes text.old ++ placed_word names.now order.now) }
{
    let (bank, address, word) = (order.bank, order.address, order.word);
    push_place(text, order_place(bank, address))?;
    text.push_str(" ")?;
    push_column_in(text, names, location_at(bank, address))?;
    push_digits(text, word)
}

/// Returns the operand in the word of an order.
fn field_of(order: InHand) -> Field
    ensures field { result ≡ operand_in (takes_of order) (pattern_of 15 order.word) }
    ensures range { FitsPrint result }
{
    let word = order.word;
    operand_in(takes_of(order), word)
}

/// Appends the name column of a place, if there are names.
fn push_column_in(
    text: &mut String,
    names: &Option<SymbolTable>,
    at: Location,
) -> Result<(), AllocError>
    ensures { OnOk result
        (string_bytes text.new ≡ string_bytes text.old ++ column_in names.now at) }
{
    match names {
        Some(names) => push_column(text, names, at),
        None => Ok(()),
    }
}

/// Appends an operand: its name or, if it has none, its address or channel.
fn push_called_operand(
    text: &mut String,
    form: &LineForm,
    field: Field,
    used: &Operand,
) -> Result<(), AllocError>
    requires { FitsPrint field }
    ensures { OnOk result (string_bytes text.new
        ≡ string_bytes text.old ++ called_or (operand_called form.now used.now) (operand_text field)) }
{
    match operand_called(form, used) {
        Some(near) => {
            text.push_str(" ")?;
            push_nearby(text, near)
        }
        None => push_operand(text, field),
    }
}

/// Returns the name of an operand.
fn operand_called<'a>(form: &'a LineForm, used: &Operand) -> Option<Nearest<'a>>
    ensures { option_map as_nearby result ≡ operand_called form.now used.now }
{
    match *used {
        Operand::Nothing => None,
        Operand::Target(at) => place_called(&form.names, at),
        Operand::Word(word) => place_called(&form.names, word.at),
        Operand::Pair(upper, _) => place_called(&form.names, upper.at),
        Operand::Channel(channel) => channel_called(&form.channels, channel.channel),
    }
}

fn place_called(names: &Option<SymbolTable>, at: Location) -> Option<Nearest<'_>>
    ensures { option_map as_nearby result ≡ place_called names.now at }
{
    match names {
        Some(names) => names.operand_at(at),
        None => None,
    }
}

fn channel_called(names: &ChannelTable, channel: u16) -> Option<Nearest<'_>>
    ensures { option_map as_nearby result ≡ named_alone (name_of_channel names.now channel) }
{
    match names.name(channel) {
        Some(name) => Some(Nearest { name, offset: 0 }),
        None => None,
    }
}

/// Appends what the operand held, if the form says how.
fn push_held_in_form(
    text: &mut String,
    notation: Option<Notation>,
    used: &Operand,
) -> Result<(), AllocError>
    ensures { OnOk result
        (string_bytes text.new ≡ string_bytes text.old ++ held_in_form notation used.now) }
{
    match notation {
        Some(notation) => push_held(text, notation, used),
        None => Ok(()),
    }
}

/// Appends what the operand held before the boundary and, if that has changed, ` > ` and what it holds after it.
#[tactic(auto, unfolding(crate::specs::OperandLine::held_text))]
fn push_held(text: &mut String, notation: Notation, used: &Operand) -> Result<(), AllocError>
    ensures { OnOk result
        (string_bytes text.new ≡ string_bytes text.old ++ held_text notation used.now) }
{
    match used {
        Operand::Nothing | Operand::Target(_) => Ok(()),
        Operand::Word(word) => push_held_word(text, notation, word),
        Operand::Pair(upper, lower) => push_held_pair(text, notation, upper, lower),
        Operand::Channel(channel) => push_held_channel(text, notation, channel),
    }
}

#[tactic(auto, unfolding(crate::specs::OperandLine::held_text))]
fn push_held_word(text: &mut String, notation: Notation, word: &HeldWord) -> Result<(), AllocError>
    ensures { OnOk result
        (string_bytes text.new ≡ string_bytes text.old ++ held_text notation (Operand.Word word.now)) }
{
    push_before(text, notation, word)?;
    if stays(word) {
        return Ok(());
    }
    text.push_str(" >")?;
    push_after(text, notation, word)
}

#[tactic(auto, unfolding(crate::specs::OperandLine::held_text))]
fn push_held_pair(
    text: &mut String,
    notation: Notation,
    upper: &HeldWord,
    lower: &HeldWord,
) -> Result<(), AllocError>
    ensures { OnOk result (string_bytes text.new
        ≡ string_bytes text.old ++ held_text notation (Operand.Pair upper.now lower.now)) }
{
    push_before(text, notation, upper)?;
    push_before(text, notation, lower)?;
    if stays(upper) && stays(lower) {
        return Ok(());
    }
    text.push_str(" >")?;
    push_after(text, notation, upper)?;
    push_after(text, notation, lower)
}

#[tactic(auto, unfolding(crate::specs::OperandLine::held_text))]
fn push_held_channel(
    text: &mut String,
    notation: Notation,
    channel: &HeldChannel,
) -> Result<(), AllocError>
    ensures { OnOk result (string_bytes text.new
        ≡ string_bytes text.old ++ held_text notation (Operand.Channel channel.now)) }
{
    let (before, after) = (widen(channel.before), widen(channel.after));
    text.push_str(" ")?;
    push_word(text, notation, false, before)?;
    if is_same_word(before, after) {
        return Ok(());
    }
    text.push_str(" > ")?;
    push_word(text, notation, false, after)
}

fn push_before(text: &mut String, notation: Notation, word: &HeldWord) -> Result<(), AllocError>
    ensures { OnOk result
        (string_bytes text.new ≡ string_bytes text.old ++ before_text notation word.now) }
{
    text.push_str(" ")?;
    push_word(text, notation, is_wide(word.at), word.before)
}

fn push_after(text: &mut String, notation: Notation, word: &HeldWord) -> Result<(), AllocError>
    ensures { OnOk result
        (string_bytes text.new ≡ string_bytes text.old ++ after_text notation word.now) }
{
    text.push_str(" ")?;
    push_word(text, notation, is_wide(word.at), word.after)
}

fn stays(word: &HeldWord) -> bool
    ensures { result ≡ stays word.now }
{
    is_same_word(word.before, word.after)
}

/// Returns whether a place holds sixteen bits: A and Q do.
fn is_wide(at: Location) -> bool
    ensures { result ≡ is_wide at }
{
    match at {
        Location::Erasable(cell) => cell == u32::from(A) || cell == u32::from(Q),
        Location::Fixed(_) => false,
    }
}

/// Appends a word.
#[tactic(auto, unfolding(crate::specs::OperandLine::word_text))]
fn push_word(
    text: &mut String,
    notation: Notation,
    is_wide: bool,
    word: Wide,
) -> Result<(), AllocError>
    ensures { OnOk result
        (string_bytes text.new ≡ string_bytes text.old ++ word_text notation is_wide word) }
{
    match notation {
        Notation::Octal => push_octal(text, is_wide, word),
        Notation::Decimal => push_signed(text, word),
    }
}

#[tactic(auto, unfolding(crate::specs::OperandLine::word_text))]
fn push_octal(text: &mut String, is_wide: bool, word: Wide) -> Result<(), AllocError>
    ensures { OnOk result (string_bytes text.new
        ≡ string_bytes text.old ++ word_text Notation.Octal is_wide word) }
{
    if is_wide {
        return write!(text, "{word}");
    }
    let word = word.narrow();
    write!(text, "{word}")
}

/// Appends a word as a signed number.
#[tactic(auto, unfolding(crate::specs::OperandLine::signed_text))]
fn push_signed(text: &mut String, word: Wide) -> Result<(), AllocError>
    ensures { OnOk result (string_bytes text.new ≡ string_bytes text.old ++ signed_text word) }
{
    let bits = word.bits();
    if bits < 0o100000 {
        return write!(text, "{bits}");
    }
    let magnitude = 0o177777 - bits;
    write!(text, "-{magnitude}")
}
