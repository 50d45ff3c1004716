//! Helpers for tests of the console: how a line is parsed, and what a text is answered with.
use super::{equal, equal_at};
use agc_repl::{Command, CommandFault, SaveFault, Saver, parse_command, run_repl};
use agc_session::Session;
use agc_symbols::SymbolTable;
use std::process::Abort;
use std::str;

/// Saves no script.
#[derive(Drop)]
struct NoFiles;

impl Saver for NoFiles {
    fn save(&mut self, _name: &str, _session: &Session) -> Result<(), SaveFault> {
        Err(SaveFault::CannotWrite)
    }
}

/// Checks that a line parses as this, or has this fault, with these symbols.
pub(super) fn reads(
    rt: &impl Abort,
    names: &Option<SymbolTable>,
    line: &[u8],
    wanted: Result<Option<Command>, CommandFault>,
) {
    equal_at(
        rt,
        str::from_utf8(line).ok(),
        parse_command(names, line),
        wanted,
    );
}

/// Checks that a line without symbols is this command.
pub(super) fn asks(rt: &impl Abort, line: &[u8], command: Command) {
    reads(rt, &None, line, Ok(Some(command)));
}

/// Checks that a line without symbols has this fault.
pub(super) fn refuses(rt: &impl Abort, line: &[u8], fault: CommandFault) {
    reads(rt, &None, line, Err(fault));
}

/// Checks the answers of a session to a text.
pub(super) fn answers(
    rt: &(impl AllocGlobal + Abort),
    session: Session,
    parsed: &[u8],
    wanted: &str,
) {
    answers_with(rt, session, &None, &mut NoFiles, parsed, wanted);
}

/// Checks the answers of a session to a text, with symbols and a place for scripts.
pub(super) fn answers_with<S: Saver>(
    rt: &(impl AllocGlobal + Abort),
    session: Session,
    names: &Option<SymbolTable>,
    saver: &mut S,
    parsed: &[u8],
    wanted: &str,
) {
    let mut input = parsed;
    let mut output = Vec::new(rt.alloc());
    let ended = run_repl(rt.alloc(), session, names, &mut input, &mut output, saver);
    equal(rt, ended, Ok(()));
    let text = String::from_utf8(output).ok().expect(rt, "ASCII");
    equal(rt, text.as_str(), wanted);
}
