//! Prints the present state of a machine: its registers and what comes next.
ghost use Rattle.std.specs.Prelude.{◌≡◌, ◌++◌, OnOk, string_bytes};
ghost use Rattle.agc_trace.specs.StateLines.{next_line, next_line_with, registers_line};
ghost use Rattle.agc_machine.specs.Boundary.{HasPlace};

use crate::entry::registers_in;
use crate::line::{push_happening, push_registers};
use crate::named_line::push_named_happening;
use agc_machine::Upcoming;
use agc_store::Store;
use agc_store::place::BB;
use agc_symbols::SymbolTable;
use std::alloc::AllocError;

/// Appends the registers as a trace prints them, with BB at the end.
#[tactic(auto, unfolding(crate::specs::StateLines::registers_line))]
pub fn push_registers_line(text: &mut String, store: &Store) -> Result<(), AllocError>
    ensures { OnOk result
        (string_bytes text.new ≡ string_bytes text.old ++ registers_line store.now) }
{
    push_registers(text, registers_in(store))?;
    let both_banks = store.cell(0, BB);
    writeln!(text, " BB {both_banks}")
}

/// Appends the line of what comes next, as a trace names it: `next PLACE WORD ORDER`, or `next - ` and anything else.
#[tactic(auto, unfolding(crate::specs::StateLines::next_line))]
pub fn push_next_line(text: &mut String, next: Upcoming) -> Result<(), AllocError>
    requires { HasPlace next }
    ensures { OnOk result (string_bytes text.new ≡ string_bytes text.old ++ next_line next) }
{
    text.push_str("next ")?;
    push_happening(text, next)?;
    text.push_str("\n")
}

/// Appends the line of what comes next, as `push_next_line` does. With a symbol table, an order has the name column of
/// its place between its place and its word: the name padded to thirteen characters.
#[tactic(auto, unfolding(crate::specs::StateLines::next_line_with))]
pub fn push_next_line_with(
    text: &mut String,
    names: &Option<SymbolTable>,
    next: Upcoming,
) -> Result<(), AllocError>
    requires { HasPlace next }
    ensures { OnOk result
        (string_bytes text.new ≡ string_bytes text.old ++ next_line_with names.now next) }
{
    let Some(names) = names else {
        return push_next_line(text, next);
    };
    text.push_str("next ")?;
    push_named_happening(text, names, next)?;
    text.push_str("\n")
}
