//! The errors of the program, each printed as one line: the file, if there is one, what is wrong with it, and what to do.
use crate::quoting::write_word;
use crate::words::Dsky;
use agc_load::LoadFault;
use agc_script::FaultKind;
use agc_sources::SourceLinesFault;
use agc_store::RopeFault;
use agc_symbols::{SymbolFileFault, SymbolTableFault};
use std::alloc::AllocError;
use std::fmt;
use std::io::{self, Write};

/// Why a session could not start, or what went wrong at its end.
#[derive(Clone, Copy, Debug, PartialEq, Eq)]
pub enum Error {
    /// An error that `agc` reports too: in the rope, the script or the limit, or out of memory.
    Refused(LoadFault),
    /// An error in the symbol file.
    Unnamed(SymbolFileFault),
    /// An error in the listing.
    Listing(SourceLinesFault),
    /// The rope, the script, the symbol file or the listing is a pipe.
    RopeIsPipe,
    ScriptIsPipe,
    NamesIsPipe,
    ListingIsPipe,
    /// Standard input is not a terminal, so keys cannot be read one by one.
    InputIsNoTerminal,
    /// Standard output is not a terminal, so nothing can be drawn.
    OutputIsNoTerminal,
    /// The terminal knows no control sequences.
    DumbTerminal,
    /// The file after `--save` already exists and is not empty.
    SaveTaken,
    /// The file after `--save` cannot be created.
    SaveNotMade,
    /// The path after `--save` is a folder, a pipe or a device, or a link to nothing.
    SaveIsFolder,
    SaveIsNoFile,
    SaveIsDangling,
    /// The script could not be written.
    SaveFailed,
    /// The file after `--save` is no longer what this session found or wrote last.
    SaveChanged,
}

impl Error {
    /// Writes this error of a session with these arguments as one line.
    pub fn write_to<W: Write>(self, requested: &Dsky, err: &mut W) -> io::Result<()> {
        err.write_all(b"agc-dsky: ")?;
        if let Some(path) = self.path(requested) {
            write_word(err, path)?;
            err.write_all(b": ")?;
        }
        writeln!(err, "{self}{}", self.remedy())
    }

    /// Returns whether the error is in the command line or in the environment of the program.
    pub fn is_misuse(self) -> bool {
        match self {
            Error::InputIsNoTerminal | Error::OutputIsNoTerminal | Error::DumbTerminal => { true }
            _ => false,
        }
    }

    /// Returns the path of the file that the error is about.
    fn path(self, requested: &Dsky) -> Option<&str> {
        match self {
            Error::Refused(LoadFault::CannotReadRope(_) | LoadFault::Rope(_)) | Error::RopeIsPipe =>
                Some(requested.start.rope.as_str()),
            Error::Refused(LoadFault::CannotReadScript(_) | LoadFault::Script(_))
            | Error::ScriptIsPipe => path_in(&requested.start.script),
            Error::Unnamed(SymbolFileFault::Names(SymbolTableFault::Memory)) => None,
            Error::Unnamed(_) | Error::NamesIsPipe => path_in(&requested.names),
            Error::Listing(SourceLinesFault::Memory) => None,
            Error::Listing(_) | Error::ListingIsPipe => path_in(&requested.listing),
            Error::SaveTaken
            | Error::SaveNotMade
            | Error::SaveIsFolder
            | Error::SaveIsNoFile
            | Error::SaveIsDangling
            | Error::SaveFailed
            | Error::SaveChanged => path_in(&requested.save),
            _ => None,
        }
    }

    /// Returns what to do about an error that `agc` reports too.
    fn remedy(self) -> &'static str {
        match self {
            Error::Refused(LoadFault::Rope(RopeFault::Memory)) => "",
            Error::Refused(LoadFault::Rope(_)) => "; agc-study check explains it",
            Error::Refused(LoadFault::Script(fault)) if fault.kind == FaultKind::Memory => "",
            Error::Refused(LoadFault::Script(_)) => "; agc-study check explains it",
            Error::Refused(LoadFault::Limit(_)) => "; --limit takes 1 to 1000000000000",
            Error::Refused(LoadFault::BadWatchSpec | LoadFault::Watch(_)) => {
                "; --watch takes BANK,OFFSET,SETS,BANK,OFFSET,BANK,OFFSET in octal"
            }
            _ => "",
        }
    }
}

fn path_in(path: &Option<String>) -> Option<&str> {
    match path {
        Some(path) => Some(path.as_str()),
        None => None,
    }
}

impl From<LoadFault> for Error {
    fn from(refusal: LoadFault) -> Error {
        Error::Refused(refusal)
    }
}

impl From<AllocError> for Error {
    fn from(_error: AllocError) -> Error {
        Error::Refused(LoadFault::Memory)
    }
}

impl fmt::Display for Error {
    fn fmt<W: fmt::Write>(&self, f: &mut fmt::Formatter<W>) -> fmt::Result {
        match *self {
            Error::Refused(refusal) => write!(f, "{refusal}"),
            Error::Unnamed(refusal) => write!(f, "{refusal}"),
            Error::Listing(fault) => write!(f, "{fault}"),
            _ => f.write_str(self.text()),
        }
    }
}

impl Error {
    /// Returns the text of an error that only this program reports.
    fn text(self) -> &'static str {
        match self {
            Error::Refused(_) | Error::Unnamed(_) | Error::Listing(_) => "",
            Error::RopeIsPipe | Error::ScriptIsPipe | Error::NamesIsPipe | Error::ListingIsPipe => {
                "a pipe, and no key is heard while it is read; write it to a file first"
            }
            Error::InputIsNoTerminal => {
                "standard input is not a terminal; start it in one, without < or |"
            }
            Error::OutputIsNoTerminal => {
                "standard output is not a terminal; start it in one, without > or |"
            }
            Error::DumbTerminal => {
                "TERM=dumb says that the terminal cannot draw; set TERM to its kind, as xterm"
            }
            Error::SaveTaken => "not empty; name another file, or overwrite it with --force",
            Error::SaveNotMade => "cannot be created; its folder must exist and be writable",
            Error::SaveIsFolder => "a folder; name a file in it",
            Error::SaveIsNoFile => "a pipe or a device; name a file",
            Error::SaveIsDangling => "a link to a file that is not there; create that file first",
            Error::SaveFailed => "the script could not be saved; it is printed above",
            Error::SaveChanged => {
                "changed by another program, and left so; the script is printed above"
            }
        }
    }
}
