//! Prints the inspector (last boundaries, registers, what comes next) and the Executive's tables.
use super::history::push_lines;
use super::named_order::push_coming;
use crate::history::History;
use agc_operands::OperandNames;
use agc_panel::{WatchSpec, watch};
use agc_session::Session;
use agc_trace::push_registers_line;
use std::alloc::{AllocError, Global};

/// Adds the last boundaries of a session, in `most` lines at most, its registers, and what comes next, each a line after
/// a space. With a symbol table, an order has the name of its place, and its operand by its name. Fails if memory runs out.
pub fn push_inspector(
    alloc: Global,
    text: &mut String,
    names: Option<OperandNames<'_>>,
    history: &History,
    most: usize,
    session: &Session,
) -> Result<(), AllocError> {
    let lines = history.lines(alloc)?;
    let first = lines.len().saturating_sub(most);
    push_lines(text, names, &lines[first..])?;
    let machine = session.machine();
    text.push_str(" ")?;
    push_registers_line(text, machine.store())?;
    text.push_str(" next ")?;
    push_coming(text, names, machine)?;
    text.push_str("\n")
}

/// Adds the Executive's tables of a session, as `agc` prints them. Fails if memory runs out or the places of the
/// tables are invalid.
pub fn push_tables(
    alloc: Global,
    text: &mut String,
    session: &Session,
    spec: WatchSpec,
) -> Result<(), AllocError> {
    match watch(alloc, session.machine().store(), &spec) {
        Ok(tables) => text.push_str(&tables),
        Err(_) => Err(AllocError),
    }
}
