//! Prints the lines of a history.
ghost use Rattle.std.specs.Prelude.{All};
ghost use Rattle.agc_trace.specs.Entry.{FitsLine};
ghost use Rattle.agc_tui.specs.Fold.{Fits};

use super::named_order::push_happened;
use crate::fold::Line;
use agc_machine::ChannelWrite;
use agc_operands::OperandNames;
use agc_trace::push_registers;
use std::alloc::AllocError;

/// Adds these lines, each after a space, with the names of places if there are any.
pub(crate) fn push_lines(
    text: &mut String,
    names: Option<OperandNames<'_>>,
    lines: &[Line],
) -> Result<(), AllocError>
    requires { All Fits lines.now }
{
    for line in lines {
        push_folded(text, names, line)?;
    }
    Ok(())
}

/// Adds a line: the last boundary's cycle and what happened in it; of several boundaries their count; the channel write of
/// one; the registers.
fn push_folded(
    text: &mut String,
    names: Option<OperandNames<'_>>,
    line: &Line,
) -> Result<(), AllocError>
    requires { FitsLine line.now.last }
{
    let Line { last, count, .. } = *line;
    let cycle = last.cycle;
    write!(text, " {cycle} ")?;
    push_happened(text, names, &last)?;
    push_count_or_write(text, count, last.write)?;
    text.push_str(" | ")?;
    push_registers(text, last.registers)?;
    text.push_str("\n")
}

/// Adds the count of several boundaries, or the channel write of one, as a trace prints it.
fn push_count_or_write(
    text: &mut String,
    count: u64,
    write: Option<ChannelWrite>,
) -> Result<(), AllocError> {
    if count > 1 {
        return write!(text, " x {count}");
    }
    match write {
        Some(write) => {
            let (channel, value) = (write.channel, write.value);
            write!(text, " > {channel:03o} {value}")
        }
        None => Ok(()),
    }
}
