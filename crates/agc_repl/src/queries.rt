//! Executes the commands that only show something.
ghost use Rattle.std.specs.Prelude.{◌≡◌, ◌++◌, OnOk, string_bytes};
ghost use Rattle.agc_panel.specs.Text.{panel_text};
ghost use Rattle.agc_panel.specs.Watcher.{watch_text};
ghost use Rattle.agc_script.specs.Written.{script_text};
ghost use Rattle.agc_session.specs.Session.{script_of};
ghost use Rattle.agc_command.specs.Command.{IsCommandInRange};
ghost use Rattle.agc_repl.specs.Queries.{shown_text};

use crate::answer::{
    CellStyle, push_breakpoint_lines, push_cell_lines, push_channel_line, push_writes_line,
};
use crate::help::push_help;
use crate::repl::Repl;
use crate::whereabouts::push_where;
use agc_command::Command;
use agc_panel::{WatchSpec, watch};
use agc_symbols::SymbolTable;
use agc_trace::{push_next_line_with, push_registers_line};
use std::alloc::{AllocError, Global};

/// Adds what a command shows, without the last line of the answer. Adds nothing for a command that does something.
#[tactic(auto, unfolding(agc_command::specs::Command::IsCommandInRange, crate::specs::Queries::shown_text))]
pub(crate) fn push_shown(
    alloc: Global,
    names: &Option<SymbolTable>,
    repl: &Repl,
    command: Command,
    text: &mut String,
) -> Result<(), AllocError>
    requires { IsCommandInRange command }
    ensures { OnOk result (string_bytes text.new
        ≡ string_bytes text.old ++ shown_text names.now command repl.now) }
{
    let machine = repl.machine();
    match command {
        Command::Breaks => push_breakpoint_lines(text, repl.settings.breakpoints()),
        Command::Panel => push_panel(alloc, repl, text),
        Command::Watch(spec) => push_watch(alloc, repl, spec, text),
        Command::Registers => push_registers_line(text, machine.store()),
        Command::Next => push_next_line_with(text, names, machine.upcoming()),
        Command::Where => push_where(text, names, machine),
        Command::Cells { first, count } => {
            push_cell_lines(text, machine.store(), CellStyle::Octal, first, count)
        }
        Command::Print { first, count } => {
            push_cell_lines(text, machine.store(), CellStyle::Decimal, first, count)
        }
        Command::Channel(channel) => push_channel_line(text, channel, machine.channel(channel)),
        Command::Writes => push_writes_line(text, repl.writes),
        Command::Script => push_script(alloc, repl, text),
        Command::Help => push_help(text),
        _ => Ok(()),
    }
}

/// Adds the eight lines of the panel.
fn push_panel(alloc: Global, repl: &Repl, text: &mut String) -> Result<(), AllocError>
    ensures { OnOk result
        (string_bytes text.new ≡ string_bytes text.old ++ panel_text repl.now.session.panel) }
{
    let panel = repl.session.panel().text(alloc)?;
    text.push_str(&panel)
}

/// Adds the Executive's tables.
fn push_watch(
    alloc: Global,
    repl: &Repl,
    spec: WatchSpec,
    text: &mut String,
) -> Result<(), AllocError>
    ensures { OnOk result (string_bytes text.new
        ≡ string_bytes text.old ++ watch_text repl.now.session.now.processor.store spec) }
{
    match watch(alloc, repl.machine().store(), &spec) {
        Ok(tables) => text.push_str(&tables),
        Err(_) => Err(AllocError),
    }
}

/// Adds the script that replays the session.
fn push_script(alloc: Global, repl: &Repl, text: &mut String) -> Result<(), AllocError>
    ensures { OnOk result
        (string_bytes text.new ≡ string_bytes text.old ++ script_text (script_of repl.now.session)) }
{
    match repl.session.script(alloc) {
        Some(script) => script.push_text(text),
        None => Err(AllocError),
    }
}
