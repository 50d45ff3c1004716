//! The end of a session: its script is saved or printed, with the commands that repeat it.
use crate::error::Error;
use crate::event_loop::Ended;
use crate::quoting::{write_path, write_word};
use crate::saving::SaveFile;
use crate::words::Dsky;
use agc_io::{OK, REFUSED, WRITE_FAILED, status_of};
use agc_load::LoadFault;
use agc_session::LINE_ROOM;
use agc_store::RopeForm;
use agc_tui::Operator;
use std::alloc::{AllocError, Global};
use std::io::{self, Write};
use std::rt::Files;

/// What the end of a session needs, reserved before it starts, so that a script is never lost because memory ran out.
#[derive(Drop)]
pub struct Ending {
    /// Has room for a line of a script.
    line: String,
    /// The paths of `agc` and `agc-study`, beside the path that this program was started by.
    agc: String,
    study: String,
    /// The file that the script is saved to, if there is one.
    pub file: Option<SaveFile>,
}

impl Ending {
    /// Reserves memory for the end of a session of a program that was started by this path.
    pub fn new(alloc: Global, program: &str) -> Result<Ending, AllocError> {
        let folder = match program.rfind('/') {
            Some(slash) => program.get(..=slash).unwrap_or(""),
            None => "",
        };
        Ok(Ending {
            line: String::with_capacity(alloc, LINE_ROOM)?,
            agc: format!(in alloc; "{folder}agc")?,
            study: format!(in alloc; "{folder}agc-study")?,
            file: None,
        })
    }

    /// Saves the script, if a file is named for it; returns whether one is.
    pub fn save<R: Files>(&mut self, rt: &R, operator: &Operator) -> Result<bool, Error> {
        match &mut self.file {
            Some(file) => {
                file.save(rt, operator, &mut self.line)?;
                Ok(true)
            }
            None => Ok(false),
        }
    }

    /// Saves the script, and prints how to repeat the session. A script that is not saved is printed, so that nothing
    /// is lost. Returns the exit status.
    pub fn finish<R: Files, W: Write, E: Write>(
        &mut self,
        rt: &R,
        operator: &Operator,
        requested: &Dsky,
        ended: Ended,
        out: &mut W,
        err: &mut E,
    ) -> u8 {
        let saved = self.save(rt, operator);
        let status = match self.tell(operator, requested, saved == Ok(true), out) {
            Ok(()) => status_at_end(requested, ended, err),
            Err(_) => WRITE_FAILED,
        };
        match saved {
            Ok(_) => status,
            Err(error) => status_of(WRITE_FAILED, error.write_to(requested, err)),
        }
    }

    /// Prints how to repeat the session: with the saved script file, or else with the script, which it prints first.
    fn tell<W: Write>(
        &mut self,
        operator: &Operator,
        requested: &Dsky,
        is_saved: bool,
        out: &mut W,
    ) -> io::Result<()> {
        let script = match &requested.save {
            Some(path) if is_saved => path.as_str(),
            _ => self.print_script(operator, out)?,
        };
        let limit = operator.limit_to_repeat();
        out.write_all(b"again: ")?;
        write_word(out, self.agc.as_str())?;
        write_run(out, requested, script, limit)?;
        out.write_all(b"\nas a film: ")?;
        write_word(out, self.study.as_str())?;
        out.write_all(b" film")?;
        write_run(out, requested, script, limit)?;
        out.write_all(b" > film.html\n")
    }

    /// Prints the script, unless it has no events, and returns the name of a file with it.
    fn print_script<W: Write>(
        &mut self,
        operator: &Operator,
        out: &mut W,
    ) -> io::Result<&'static str> {
        if operator.session().events() == 0 {
            return Ok("/dev/null");
        }
        operator.write_script(&mut self.line, out)?;
        out.write_all(b"agc-dsky: with the lines above in a file SCRIPT,\n")?;
        Ok("SCRIPT")
    }
}

/// Returns the status at the end of a session.
fn status_at_end<E: Write>(requested: &Dsky, ended: Ended, err: &mut E) -> u8 {
    match ended {
        Ended::Quit => OK,
        Ended::Gone => WRITE_FAILED,
        Ended::Memory => {
            status_of(
                REFUSED,
                Error::Refused(LoadFault::Memory).write_to(requested, err),
            )
        }
    }
}

/// Writes the arguments of a run: its files, its limit and its form.
fn write_run<W: Write>(out: &mut W, requested: &Dsky, script: &str, limit: u64) -> io::Result<()> {
    out.write_all(b" ")?;
    write_path(out, requested.start.rope.as_str())?;
    out.write_all(b" ")?;
    write_path(out, script)?;
    write!(out, " --limit {limit}")?;
    match requested.start.form {
        RopeForm::Classic => Ok(()),
        RopeForm::Parity => out.write_all(b" --form parity"),
    }
}
