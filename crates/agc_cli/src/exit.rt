//! Ends a program whose command line asks for help or cannot be used.
ghost use Rattle.std.specs.Prelude.{◌<◌};
ghost use Rattle.agc_cli.specs.Exit.{ExitsWithUsage};

use crate::fault::ArgsFault;
use agc_io::{OK, USAGE, status_of};
use std::io::Write;

/// Ends the named program without a run: help text goes to `out` with status 0, a mistake to `err` with status 2, and
/// out of memory to `err`, as one line, with the status `without_memory`, which is below 3. Returns 3 if the write
/// fails.
pub fn exit_usage<W: Write, E: Write>(
    program: &str,
    fault: ArgsFault,
    without_memory: u8,
    out: &mut W,
    err: &mut E,
) -> u8
    requires { without_memory < 3 }
    ensures { ExitsWithUsage program.now without_memory fault result (W.contents out.old) (W.contents out.new)
        (E.contents err.old) (E.contents err.new) }
{
    match fault {
        ArgsFault::Help(text) => status_of(OK, out.write_all(text.as_bytes())),
        ArgsFault::Command(text) => status_of(USAGE, err.write_all(text.as_bytes())),
        ArgsFault::Memory => status_of(without_memory, writeln!(err, "{program}: memory")),
    }
}
