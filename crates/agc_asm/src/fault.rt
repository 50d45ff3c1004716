//! Why a source cannot be assembled.
use agc_vocabulary::SourceFault;
use std::alloc::AllocError;
use std::error::Error;
use std::fmt;

/// Why a source cannot be assembled.
#[derive(Clone, Copy, Debug, PartialEq, Eq)]
pub enum AssemblyFault {
    /// The line with this number, counted from 1, has this fault.
    Line(usize, SourceFault),
    /// The first of these lines has a word for a place for which the second, an earlier one, has a word too.
    Overlap(usize, usize),
    /// Out of memory for the rope.
    Memory,
}

/// Says that an earlier line has a word for the place of a line.
#[derive(Clone, Copy, Debug, PartialEq, Eq)]
pub struct EarlierLine {
    pub line: usize,
}

impl fmt::Display for EarlierLine {
    ghost use Rattle.std.specs.Prelude.{Some};
    ghost use Rattle.agc_asm.specs.FaultText.{overlap_text};

    ghost output = { λ earlier. Some (overlap_text earlier.line) };

    fn fmt<W: fmt::Write>(&self, f: &mut fmt::Formatter<W>) -> fmt::Result {
        write!(
            f,
            "line {} has a word for this place: write each place once",
            self.line
        )
    }
}

impl From<AllocError> for AssemblyFault {
    ghost use Rattle.std.specs.Prelude.{◌≡◌};
    ghost use Rattle.agc_asm.specs.declared.fault.AssemblyFault.TheVariants.{Memory};

    ghost from_gives = { λ _ trouble. trouble ≡ Memory };

    fn from(_error: AllocError) -> AssemblyFault {
        AssemblyFault::Memory
    }
}

impl fmt::Display for AssemblyFault {
    ghost use Rattle.std.specs.Prelude.{Some};
    ghost use Rattle.agc_asm.specs.FaultText.{trouble_text};

    ghost output = { λ trouble. Some (trouble_text trouble) };

    fn fmt<W: fmt::Write>(&self, f: &mut fmt::Formatter<W>) -> fmt::Result {
        match *self {
            AssemblyFault::Line(line, fault) => write!(f, "line {line}: {fault}"),
            AssemblyFault::Overlap(line, earlier) => {
                write!(f, "line {line}: {}", EarlierLine { line: earlier })
            }
            AssemblyFault::Memory => f.write_str("memory"),
        }
    }
}

impl Error for AssemblyFault {}
