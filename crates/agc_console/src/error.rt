//! The errors of the program, each printed as one line.
use agc_load::LoadFault;
use agc_symbols::SymbolFileFault;
use std::fmt;
use std::io::{self, Write};

/// Why a session could not start, or broke off.
#[derive(Clone, Copy, Debug, PartialEq, Eq)]
pub enum Error {
    /// An error that `agc` reports too: in the rope, the script or the limit, or out of memory.
    Refused(LoadFault),
    /// An error in the symbol file.
    Unnamed(SymbolFileFault),
    /// The commands could not be read.
    CannotReadCommands,
}

impl Error {
    /// Writes this error as one line.
    pub fn write_to<W: Write>(self, err: &mut W) -> io::Result<()> {
        writeln!(err, "agc-console: {self}")
    }
}

impl fmt::Display for Error {
    fn fmt<W: fmt::Write>(&self, f: &mut fmt::Formatter<W>) -> fmt::Result {
        match *self {
            Error::Refused(refusal) => write!(f, "{refusal}"),
            Error::Unnamed(refusal) => write!(f, "{refusal}"),
            Error::CannotReadCommands => f.write_str("cannot read commands"),
        }
    }
}
