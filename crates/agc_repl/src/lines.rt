//! Reads an input line by line and parses each line as a request.
ghost use Rattle.std.specs.Prelude.{◌≡◌, List, Option, ℕ, [], ◌∷◌, option_map, ◌++◌, take, IfOk, IfSome, OnErr, OnOk};
ghost use Rattle.std.specs.Io.KnownBytes.{Keeps};
ghost use Rattle.std.specs.Str.Lines.{strip_carriage_return};
ghost use Rattle.agc_symbols.specs.Symbols.{Symbol};
ghost use Rattle.agc_command.specs.Command.{IsCommandInRange};
ghost use Rattle.agc_repl.specs.Input.{ReadsByte, ReadsLine, ReadsRequest};
ghost use Rattle.agc_repl.specs.Transcript.{is_quit};

use crate::conversation::ReplFault;
use agc_command::{Command, CommandFault, parse_command};
use agc_script::LONGEST_LINE;
use agc_symbols::SymbolTable;
use std::alloc::{AllocError, Global};
use std::io::{self, ErrorKind, Read};

/// A parsed line: a command, `None` for a line without one, or its fault.
pub(crate) type Request = Result<Option<Command>, CommandFault>;

/// The number of bytes kept of a line: just enough to detect that it is too long.
const KEPT: usize = LONGEST_LINE + 2;

/// Parses the next line, with these symbols. Returns `None` at the end of the input and at `quit`.
pub(crate) fn next_request<R: Read>(
    alloc: Global,
    names: &Option<SymbolTable>,
    reader: &mut R,
) -> Result<Option<Request>, ReplFault>
    ensures reads { IfOk result (λ request. ReadsRequest names.now (R.remaining reader.old) (R.remaining reader.new) request) }
    ensures range { IfOk result (λ next. IfSome next (λ request. IfOk request (λ parsed. IfSome parsed IsCommandInRange))) }
{
    let Some(line) = next_line(alloc, reader)? else {
        return Ok(None);
    };
    let request = parse_command(names, &line);
    if is_quit(&request) {
        return Ok(None);
    }
    Ok(Some(request))
}

/// Returns whether the request is `quit`.
fn is_quit(request: &Request) -> bool
    ensures { result ≡ is_quit request.now }
{
    matches!(request, Ok(Some(Command::Quit)))
}

/// Returns the next line without its end, or `None` at the end of the input. Keeps only enough bytes of a line that
/// is too long to show that it is.
fn next_line<R: Read>(alloc: Global, reader: &mut R) -> Result<Option<Vec<u8>>, ReplFault>
    ensures { IfOk result (λ line. (names : Option (List Symbol))
        → ReadsLine names (R.remaining reader.old) (R.remaining reader.new) (option_map (λ bytes. bytes.items) line)) }
{
    let mut line = Vec::with_capacity(alloc, KEPT)?;
    for _byte in 0..u64::MAX {
        match next_byte(reader)? {
            Some(b'\n') => return Ok(Some(without_return(line))),
            Some(byte) => keep(&mut line, byte)?,
            None if line.is_empty() => return Ok(None),
            None => return Ok(Some(without_return(line))),
        }
    }
    Err(ReplFault::Read)
}

/// Appends a byte to a line, unless enough bytes are kept.
fn keep(line: &mut Vec<u8>, byte: u8) -> Result<(), AllocError>
    ensures { OnOk result ((part : List ℕ) → line.old.items ≡ take 122 part → line.new.items ≡ take 122 (part ++ byte ∷ [])) }
{
    if line.len() < KEPT {
        line.push(byte)?;
    }
    Ok(())
}

/// Removes one carriage return at the end of the line.
fn without_return(mut line: Vec<u8>) -> Vec<u8>
    ensures { result.items ≡ strip_carriage_return line.items }
{
    if let Some(b'\r') = line.last() {
        line.pop();
    }
    line
}

/// Returns the next byte, or `None` at the end of the input. Retries an interrupted read.
fn next_byte<R: Read>(reader: &mut R) -> Result<Option<u8>, ReplFault>
    ensures { IfOk result (λ byte. ReadsByte (R.remaining reader.old) (R.remaining reader.new) byte) }
{
    let mut one = [0u8; 1];
    for _try in 0..u64::MAX {
        match reader.read(&mut one) {
            Ok(0) => return Ok(None),
            Ok(_) => return Ok(Some(one[0])),
            Err(error) => pardon(&error)?,
        }
    }
    Err(ReplFault::Read)
}

/// Ignores the error of an interrupted read, and returns any other as a fault.
fn pardon(error: &io::Error) -> Result<(), ReplFault> {
    match error.kind() {
        ErrorKind::Interrupted => Ok(()),
        ErrorKind::OutOfMemory => Err(ReplFault::Memory),
        _ => Err(ReplFault::Read),
    }
}
