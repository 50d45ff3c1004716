//! Writes the lines that report a call. They are written as they are, because reporting must not allocate.
use crate::call::Call;
use std::io::{self, Write};

/// The outcome of a call.
#[derive(Clone, Copy, Debug, PartialEq, Eq)]
pub enum Attempt {
    /// The call returned the known result.
    Answered,
    /// The call returned something else.
    Mistaken,
    /// The call or its input ran out of memory, or no thread could be started.
    Refused,
}

/// Writes a line.
pub fn tell<W: Write>(out: &mut W, line: &str) -> io::Result<()> {
    out.write_all(line.as_bytes())?;
    out.write_all(b"\n")
}

/// Reports that there was no memory for a call's input.
pub fn no_input<W: Write>(out: &mut W) -> io::Result<Attempt> {
    tell(out, "no input")?;
    Ok(Attempt::Refused)
}

/// Reports that a call begins.
pub fn begin<W: Write>(out: &mut W, call: Call) -> io::Result<()> {
    out.write_all(b"call ")?;
    tell(out, call.name())
}

/// Reports whether a call returned the known result.
pub fn answered<W: Write>(out: &mut W, known: bool) -> io::Result<Attempt> {
    tell(out, if known { "answer" } else { "another answer" })?;
    Ok(if known {
        Attempt::Answered
    } else {
        Attempt::Mistaken
    })
}

/// Reports the fault of a failed call, and whether everything lent to the call is unchanged.
pub fn refused<W: Write>(out: &mut W, fault: &str, kept: bool) -> io::Result<Attempt> {
    tell(out, fault)?;
    keeps(out, kept)
}

/// Reports whether everything lent to a failed call is unchanged.
pub fn keeps<W: Write>(out: &mut W, kept: bool) -> io::Result<Attempt> {
    tell(out, if kept { "kept" } else { "changed" })?;
    Ok(if kept {
        Attempt::Refused
    } else {
        Attempt::Mistaken
    })
}

/// Reports a fault that must not occur.
pub fn wrong<W: Write>(out: &mut W) -> io::Result<Attempt> {
    tell(out, "another fault")?;
    Ok(Attempt::Mistaken)
}
