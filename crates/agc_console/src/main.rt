//! `agc-console`: runs a computer under commands. It answers each line of standard input as it comes.
#![tactic(auto)]

mod error;
mod saving;
mod sentences;
mod words;

use agc_cli::{exit_usage, parse_env};
use agc_io::{OK, REFUSED, WRITE_FAILED, hold_closed_streams, status_of};
use agc_load::LoadFault;
use agc_notes::{CommandReader, NoteWriter, Notes, QuantityCommands, RopeFile, read_notes};
use agc_operands::split_names;
use agc_repl::{ReplFault, run_repl};
use agc_session::{Session, open_session};
use agc_symbols::{SymbolTable, names_at};
use error::Error;
use saving::FileSaver;
use sentences::Sentences;
use std::io::{IsTerminal, Read, Write};
use std::process::ExitCode;
use std::rt::Files;
use words::Console;

fn main(rt: HostRuntime) -> ExitCode {
    let _stand_ins = hold_closed_streams(&rt);
    let mut err = rt.stderr();
    let status = match parse_env::<Console, _>(&rt) {
        Ok(requested) => run(&rt, &requested, rt.stdin(), rt.stdout(), &mut err),
        Err(fault) => exit_usage("agc-console", fault, REFUSED, &mut rt.stdout(), &mut err),
    };
    ExitCode::from(status)
}

/// Runs a session over the two files of the command line, with the commands of `commands`. Answers go to `out`. An error
/// goes to `err` in one line, with status 1. A failed write gives status 3.
fn run<R, C: Read + IsTerminal + Drop, W: Write + IsTerminal + Drop, E: Write>(
    rt: &R,
    requested: &Console,
    commands: C,
    out: W,
    err: &mut E,
) -> u8
where
    R: Files + AllocGlobal,
{
    let Opened {
        session,
        names,
        notes,
    } = match open_all(rt, requested, err) {
        Ok(opened) => opened,
        Err(status) => return status,
    };
    let is_plain = !requested.terminal && !out.is_terminal() && requested.notes.is_empty();
    let ended = if is_plain {
        answer_plainly(rt, session, &names, commands, out)
    } else {
        answer_with_notes(
            rt,
            Opened {
                session,
                names,
                notes,
            },
            commands,
            out,
            requested.terminal,
        )
    };
    status_after(ended, err)
}

/// Answers the commands as they are proved.
fn answer_plainly<R, C: Read + Drop, W: Write + Drop>(
    rt: &R,
    session: Session,
    names: &Option<SymbolTable>,
    commands: C,
    out: W,
) -> Result<(), ReplFault>
where
    R: Files + AllocGlobal,
{
    let (mut commands, mut out) = (commands, out);
    let mut saver = FileSaver { rt };
    run_repl(
        rt.alloc(),
        session,
        names,
        &mut commands,
        &mut out,
        &mut saver,
    )
}

/// Answers the commands with notes; on a terminal, or as on one, errors are sentences without names.
fn answer_with_notes<R, C: Read + IsTerminal + Drop, W: Write + IsTerminal + Drop>(
    rt: &R,
    opened: Opened,
    commands: C,
    out: W,
    as_on_terminal: bool,
) -> Result<(), ReplFault>
where
    R: Files + AllocGlobal,
{
    let Opened {
        session,
        names,
        notes,
    } = opened;
    let Ok(quantities) = QuantityCommands::new(rt.alloc(), &notes) else {
        return Err(ReplFault::Memory);
    };
    let shows_sentences = as_on_terminal || out.is_terminal();
    let is_terminal = as_on_terminal || (shows_sentences && commands.is_terminal());
    let Ok(mut reader) = CommandReader::new(rt.alloc(), commands, quantities, is_terminal) else {
        return Err(ReplFault::Memory);
    };
    let sentences = Sentences::new(out, shows_sentences);
    let mut writer = NoteWriter::new(rt.alloc(), sentences, notes, &names, is_terminal);
    let mut saver = FileSaver { rt };
    run_repl(
        rt.alloc(),
        session,
        &names,
        &mut reader,
        &mut writer,
        &mut saver,
    )
}

/// A session at the start of time, with what is known of its program.
#[derive(Drop)]
struct Opened {
    session: Session,
    names: Option<SymbolTable>,
    notes: Notes,
}

/// Opens the session at the start of time, the symbols and the files of notes. The symbols are checked first, then the rope,
/// the script and the limit, then the listing, the nouns and the quantities. A fault goes to `err`; `Err` has the status.
fn open_all<R: Files + AllocGlobal, E: Write>(
    rt: &R,
    requested: &Console,
    err: &mut E,
) -> Result<Opened, u8> {
    let (names, channels) = match names_at(rt, &requested.names) {
        Ok(names) => split_names(rt.alloc(), names),
        Err(refusal) => return Err(status_of(REFUSED, Error::Unnamed(refusal).write_to(err))),
    };
    let session = match open_session(rt, &requested.start) {
        Ok(session) => session,
        Err(refusal) => return Err(status_of(REFUSED, Error::Refused(refusal).write_to(err))),
    };
    let rope = RopeFile {
        path: requested.start.rope.as_str(),
        form: requested.start.form,
    };
    match read_notes(rt, &requested.notes, rope, &names, channels, err) {
        Ok(notes) => Ok(Opened {
            session,
            names,
            notes,
        }),
        Err(()) => Err(REFUSED),
    }
}

/// Returns the status after a session, and writes a line to `err` if it broke off.
fn status_after<E: Write>(ended: Result<(), ReplFault>, err: &mut E) -> u8 {
    match ended {
        Ok(()) => OK,
        Err(ReplFault::Write) => WRITE_FAILED,
        Err(ReplFault::Read) => status_of(REFUSED, Error::CannotReadCommands.write_to(err)),
        Err(ReplFault::Memory) => {
            status_of(REFUSED, Error::Refused(LoadFault::Memory).write_to(err))
        }
    }
}
