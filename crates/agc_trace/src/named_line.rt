//! Prints an entry of the trace as a line, with the name of an order's place.
ghost use Rattle.std.specs.Prelude.{◌≡◌, ◌++◌, OnOk, codes, string_bytes};
ghost use Rattle.agc_machine.specs.Boundary.{HasPlace};
ghost use Rattle.agc_machine.specs.declared.upcoming.Upcoming.TheVariants as upcoming;
ghost use Rattle.agc_trace.specs.Entry.{FitsLine};
ghost use Rattle.agc_word.specs.Octal.{word_digits};
ghost use Rattle.agc_trace.specs.NamedLine.{
  line_with,
  named_happening,
  named_order,
  named_text,
  text_with,
};

use crate::entry::Entry;
use crate::line::{order_place, push_entry, push_happening, push_registers, push_write};
use agc_listing::{location_at, push_order, push_place};
use agc_machine::{InHand, Upcoming};
use agc_symbols::{SymbolTable, push_column};
use agc_word::Narrow;
use std::alloc::AllocError;

/// Appends the line of an entry, as `push_line` does. With a symbol table, an order has the name column of its place
/// between its place and its word: the name padded to thirteen characters. Fails if out of memory.
#[tactic(auto, unfolding(crate::specs::NamedLine::line_with))]
pub fn push_line_with(
    text: &mut String,
    names: &Option<SymbolTable>,
    entry: &Entry,
) -> Result<(), AllocError>
    requires { FitsLine entry.now }
    ensures { OnOk result
        (string_bytes text.new ≡ string_bytes text.old ++ line_with names.now entry.now) }
{
    push_entry_with(text, names, entry)?;
    text.push_str("\n")
}

/// Appends an entry without the end of its line.
#[tactic(auto, unfolding(crate::specs::NamedLine::text_with))]
fn push_entry_with(
    text: &mut String,
    names: &Option<SymbolTable>,
    entry: &Entry,
) -> Result<(), AllocError>
    requires { FitsLine entry.now }
    ensures { OnOk result
        (string_bytes text.new ≡ string_bytes text.old ++ text_with names.now entry.now) }
{
    match names {
        Some(names) => push_named_entry(text, names, entry),
        None => push_entry(text, entry),
    }
}

#[tactic(auto, unfolding(crate::specs::NamedLine::named_text))]
fn push_named_entry(text: &mut String, names: &SymbolTable, entry: &Entry) -> Result<(), AllocError>
    requires { FitsLine entry.now }
    ensures { OnOk result
        (string_bytes text.new ≡ string_bytes text.old ++ named_text names.now entry.now) }
{
    let cycle = entry.cycle;
    write!(text, "{cycle} ")?;
    push_named_happening(text, names, entry.happening)?;
    push_write(text, entry.write)?;
    text.push_str(" | ")?;
    push_registers(text, entry.registers)
}

/// Appends what happened, or will happen, as `push_happening` does, and the name column for an order. Fails if out of
/// memory.
pub fn push_named_happening(
    text: &mut String,
    names: &SymbolTable,
    happening: Upcoming,
) -> Result<(), AllocError>
    requires { HasPlace happening }
    ensures { OnOk result
        (string_bytes text.new ≡ string_bytes text.old ++ named_happening names.now happening) }
{
    match happening {
        Upcoming::Order(order) => push_named_order(text, names, order),
        Upcoming::Stop(_) | Upcoming::Event(_) | Upcoming::Timer(_) | Upcoming::Interrupt(_) => {
            push_happening(text, happening)
        }
    }
}

#[tactic(auto, unfolding(crate::specs::NamedLine::named_order))]
fn push_named_order(text: &mut String, names: &SymbolTable, order: InHand) -> Result<(), AllocError>
    requires { HasPlace (upcoming.Order order) }
    ensures { OnOk result
        (string_bytes text.new ≡ string_bytes text.old ++ named_order names.now order) }
{
    let InHand {
        bank,
        address,
        word,
        extracode,
    } = order;
    push_place(text, order_place(bank, address))?;
    text.push_str(" ")?;
    push_column(text, names, location_at(bank, address))?;
    push_digits(text, word)?;
    push_order(text, extracode, word)
}

/// Appends a word and a space.
pub(crate) fn push_digits(text: &mut String, word: Narrow) -> Result<(), AllocError>
    ensures { OnOk result
        (string_bytes text.new ≡ string_bytes text.old ++ word_digits word ++ codes " ") }
{
    write!(text, "{word} ")
}
