//! Formats the lines of an answer.
ghost use Rattle.std.specs.Prelude.{◌≡◌, ◌+◌, ◌++◌, ◌<◌, ◌≤◌, IfSome, OnOk, flat_map, string_bytes};
ghost use Rattle.std.specs.List.{range_with_len};
ghost use Rattle.agc_repl.specs.Answer.{
  hit_line,
  cell_line,
  channel_line,
  end_line,
  error_line,
  write_line,
  writes_line,
};
ghost use Rattle.agc_word.specs.Channels.{last_io_channel};
ghost use Rattle.agc_word.specs.Octal.{octal_digits};
ghost use Rattle.agc_command.specs.Command.{IsBreakpointInRange};
ghost use Rattle.agc_command.specs.Fault.{fault_text, fault_text_with};
ghost use Rattle.agc_repl.specs.Settings.{
  AreInRange,
  breakpoint_line,
  numbered_text,
};
ghost use Rattle.agc_repl.specs.Run.{run_line, stop_line};
ghost use Rattle.agc_trace.specs.OperandLine.{signed_text};
ghost use Rattle.agc_session.specs.Comparison.{word_at};
ghost use Rattle.agc_store.specs.Places.{erasable_cells};

use crate::settings::Numbered;
use agc_command::{CommandFault, push_breakpoint, push_fault_with};
use agc_listing::{Cell, push_place};
use agc_machine::Stop;
use agc_session::Armed;
use agc_store::Store;
use agc_store::place::ERASABLE_BANK_SIZE;
use agc_symbols::SymbolTable;
use agc_word::{ChannelWrite, Narrow};
use std::alloc::AllocError;

/// How the line of a cell shows its word.
#[derive(Clone, Copy, Debug, PartialEq, Eq)]
pub enum CellStyle {
    /// In octal: `cell PLACE VVVVV`.
    Octal,
    /// In octal and as a signed decimal number: `print PLACE VVVVV D`.
    Decimal,
}

/// Adds the line of a channel write: `write C CCC VVVVV`. Fails, like every function here, if memory runs out.
pub fn push_write_line(text: &mut String, write: &ChannelWrite) -> Result<(), AllocError>
    requires { write.now.channel ≤ last_io_channel }
    ensures { OnOk result (string_bytes text.new ≡ string_bytes text.old ++ write_line write.now) }
{
    let cycle = write.cycle;
    let channel = write.channel;
    let value = write.value;
    writeln!(text, "write {cycle} {channel:03o} {value}")
}

/// Adds the line of a channel write, if runs are not quiet.
pub(crate) fn push_run_line(
    text: &mut String,
    quiet: bool,
    write: &ChannelWrite,
) -> Result<(), AllocError>
    requires { write.now.channel ≤ last_io_channel }
    ensures { OnOk result (string_bytes text.new ≡ string_bytes text.old ++ run_line quiet write.now) }
{
    if quiet {
        return Ok(());
    }
    push_write_line(text, write)
}

/// Adds the last line of an answer: `at C`, or `stop REASON at C` if the machine has stopped.
pub fn push_end_line(text: &mut String, stopped: Option<Stop>, cycle: u64) -> Result<(), AllocError>
    ensures { OnOk result
        (string_bytes text.new ≡ string_bytes text.old ++ end_line stopped cycle) }
{
    match stopped {
        Some(why) => {
            let reason = why.name();
            writeln!(text, "stop {reason} at {cycle}")
        }
        None => writeln!(text, "at {cycle}"),
    }
}

/// Adds the last line of an answer to a command that did nothing: `error: REASON`.
pub fn push_error_line(text: &mut String, reason: &str) -> Result<(), AllocError>
    ensures { OnOk result (string_bytes text.new ≡ string_bytes text.old ++ error_line reason.now) }
{
    writeln!(text, "error: {reason}")
}

/// Adds the last line of the answer to an invalid command line.
pub fn push_fault_line(text: &mut String, fault: CommandFault) -> Result<(), AllocError>
    ensures { OnOk result
        (string_bytes text.new ≡ string_bytes text.old ++ error_line (fault_text fault)) }
{
    writeln!(text, "error: {fault}")
}

/// Adds that line with the name that was probably meant, if the fault is an unknown name.
pub(crate) fn push_refusal_line(
    text: &mut String,
    names: &Option<SymbolTable>,
    fault: CommandFault,
) -> Result<(), AllocError>
    ensures { OnOk result
        (string_bytes text.new ≡ string_bytes text.old ++ error_line (fault_text_with names.now fault)) }
{
    text.push_str("error: ")?;
    push_fault_with(text, names, fault)?;
    text.push_str("\n")
}

/// Adds a line for each of `count` cells of erasable memory, from `first` on.
pub fn push_cell_lines(
    text: &mut String,
    store: &Store,
    style: CellStyle,
    first: u16,
    count: u16,
) -> Result<(), AllocError>
    requires { first + count ≤ erasable_cells }
    ensures { OnOk result (string_bytes text.new
        ≡ string_bytes text.old ++ flat_map (cell_line style store.now) (range_with_len first count)) }
{
    for cell in first..first + count {
        push_cell_line(text, store, style, cell)?;
    }
    Ok(())
}

/// Returns the word of a cell, overflow corrected.
pub(crate) fn word_of(store: &Store, cell: u16) -> Narrow
    requires { cell < erasable_cells }
    ensures { result ≡ word_at cell store.now }
{
    store.cell((cell / ERASABLE_BANK_SIZE) as u8, cell % ERASABLE_BANK_SIZE)
}

/// Adds the line of a cell.
#[tactic(auto, unfolding(crate::specs::Answer::cell_line))]
pub(crate) fn push_cell_line(
    text: &mut String,
    store: &Store,
    style: CellStyle,
    cell: u16,
) -> Result<(), AllocError>
    requires { cell < erasable_cells }
    ensures { OnOk result
        (string_bytes text.new ≡ string_bytes text.old ++ cell_line style store.now cell) }
{
    let word = word_of(store, cell);
    let place = Cell::new(cell).place();
    match style {
        CellStyle::Octal => {
            text.push_str("cell ")?;
            push_place(text, place)?;
            writeln!(text, " {word}")
        }
        CellStyle::Decimal => {
            text.push_str("print ")?;
            push_place(text, place)?;
            write!(text, " {word} ")?;
            push_signed(text, word)?;
            text.push_str("\n")
        }
    }
}

/// Adds a word as a signed decimal number; the minus of -0 is printed.
#[tactic(auto, unfolding(agc_trace::specs::OperandLine::signed_text))]
fn push_signed(text: &mut String, word: Narrow) -> Result<(), AllocError>
    ensures { OnOk result (string_bytes text.new ≡ string_bytes text.old ++ signed_text word) }
{
    let magnitude = word.magnitude();
    if word.is_minus() {
        write!(text, "-{magnitude}")
    } else {
        write!(text, "{magnitude}")
    }
}

/// Adds the line of a numbered breakpoint: `break N` and what it is at.
pub(crate) fn push_breakpoint_line(
    text: &mut String,
    breakpoint: Numbered,
) -> Result<(), AllocError>
    requires { IsBreakpointInRange breakpoint.what }
    ensures { OnOk result
        (string_bytes text.new ≡ string_bytes text.old ++ breakpoint_line breakpoint) }
{
    text.push_str("break ")?;
    push_numbered(text, breakpoint)
}

/// Adds a line for each of some breakpoints.
pub(crate) fn push_breakpoint_lines(
    text: &mut String,
    breakpoints: &[Numbered],
) -> Result<(), AllocError>
    requires { AreInRange breakpoints.now }
    ensures { OnOk result (string_bytes text.new
        ≡ string_bytes text.old ++ flat_map breakpoint_line breakpoints.now) }
{
    for breakpoint in breakpoints {
        push_breakpoint_line(text, *breakpoint)?;
    }
    Ok(())
}

/// Adds the line that reports which breakpoint was hit, or that none was.
pub(crate) fn push_stop_line(text: &mut String, hit: Option<Armed>) -> Result<(), AllocError>
    requires { IfSome hit (λ a. IsBreakpointInRange a.condition) }
    ensures { OnOk result (string_bytes text.new ≡ string_bytes text.old ++ stop_line hit) }
{
    match hit {
        Some(armed) => {
            text.push_str("hit ")?;
            push_numbered(
                text,
                Numbered {
                    number: armed.number,
                    what: armed.condition,
                },
            )
        }
        None => text.push_str("hit none\n"),
    }
}

/// Adds a breakpoint's number and what it is at.
#[tactic(auto, unfolding(crate::specs::Settings::numbered_text))]
fn push_numbered(text: &mut String, breakpoint: Numbered) -> Result<(), AllocError>
    requires { IsBreakpointInRange breakpoint.what }
    ensures { OnOk result
        (string_bytes text.new ≡ string_bytes text.old ++ numbered_text breakpoint) }
{
    let number = breakpoint.number;
    write!(text, "{number} ")?;
    push_breakpoint(text, breakpoint.what)?;
    text.push_str("\n")
}

/// Adds the line of a channel's word: `channel CCC VVVVV`.
pub fn push_channel_line(text: &mut String, channel: u16, value: Narrow) -> Result<(), AllocError>
    requires { channel ≤ last_io_channel }
    ensures { OnOk result
        (string_bytes text.new ≡ string_bytes text.old ++ channel_line channel value) }
{
    writeln!(text, "channel {channel:03o} {value}")
}

/// Adds the line with the number of channel writes: `writes N`.
pub fn push_writes_line(text: &mut String, writes: usize) -> Result<(), AllocError>
    ensures { OnOk result (string_bytes text.new ≡ string_bytes text.old ++ writes_line writes) }
{
    writeln!(text, "writes {writes}")
}

/// Adds the line that reports whether the breakpoint was hit: `came yes` or `came no`.
pub fn push_hit_line(text: &mut String, hit: bool) -> Result<(), AllocError>
    ensures { OnOk result (string_bytes text.new ≡ string_bytes text.old ++ hit_line hit) }
{
    text.push_str(if hit { "came yes\n" } else { "came no\n" })
}
