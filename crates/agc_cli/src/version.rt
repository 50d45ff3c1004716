//! The version of the programs, and the answer to `--version`.
use crate::fault::ArgsFault;
use std::alloc::Global;

/// The version of all four programs.
pub const VERSION: &str = "1.0.0";

/// Answers `--version` if it is the only word after the program's own name: the error is then the text to print,
/// `NAME VERSION` and a line feed, as for help.
pub fn answer_version(alloc: Global, name: &str, words: &[String]) -> Result<(), ArgsFault> {
    match words {
        [_program, word] if word.as_str() == "--version" => {
            let text = format!(in alloc; "{name} {VERSION}\n")?;
            Err(ArgsFault::Help(text))
        }
        _ => Ok(()),
    }
}
