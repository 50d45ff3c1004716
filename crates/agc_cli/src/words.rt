//! The words of a command line as the system passes them; they need not be text.
use std::alloc::{AllocError, Global};
use std::env::{self, FillError};
use std::io;
use std::rt::Env;

/// The longest word that is checked, in bytes: the longest that Linux passes.
const LONGEST: usize = 0x20000;

/// Why the words cannot be read.
#[derive(Clone, Copy, Debug, PartialEq, Eq)]
pub enum WordsFault {
    /// The number of the first word that is not text, counted from 1 after the program's own name; 0 if there is no
    /// word but that name.
    NotText(usize),
    Memory,
}

impl From<AllocError> for WordsFault {
    fn from(_error: AllocError) -> WordsFault {
        WordsFault::Memory
    }
}

/// Returns the words of the command line; the first is the program's own name.
pub fn words_of<R: Env + AllocGlobal>(rt: &R) -> Result<Vec<String>, WordsFault> {
    let alloc = rt.alloc();
    match env::args(rt) {
        Ok(words) => Ok(words.collect(alloc)?),
        Err(error) if error.kind() == io::ErrorKind::OutOfMemory => Err(WordsFault::Memory),
        Err(_) => Err(WordsFault::NotText(first_not_text(rt, alloc)?)),
    }
}

/// Returns the number of the first word that is not text; 0 if there is no word but the program's own name.
fn first_not_text<R: Env>(rt: &R, alloc: Global) -> Result<usize, AllocError> {
    let mut buffer = vec![in alloc; 0u8; LONGEST]?;
    for number in 0..usize::MAX {
        match rt.arg(number, buffer.as_mut_slice()) {
            Ok(len) if str::from_utf8(&buffer.as_slice()[..len]).is_ok() => {}
            Ok(_) | Err(FillError::TooLong) => return Ok(number),
            Err(FillError::NotPresent) => break,
        }
    }
    Ok(0)
}
