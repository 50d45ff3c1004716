//! Reads a file to its end, up to a limit of bytes.
ghost use Rattle.std.specs.Prelude.{◌≡◌, ◌≤◌, ◌<◌, IfOk, IfErr, MatchResult, vec_len};
ghost use Rattle.std.specs.Io.KnownBytes.{Consumes, IsAtEnd};
ghost use Rattle.agc_io.specs.Input.{ExplainsUnread};

use std::alloc::Global;
use std::io::{self, ErrorKind, Read};

/// The most bytes that a rope file may have.
pub const ROPE_BYTES: usize = 1_048_576;

/// The most bytes that a script, an assembler source or a symbol file may have.
pub const TEXT_BYTES: usize = 16_777_216;

/// The most bytes that a text of live keys may have.
pub const KEY_BYTES: usize = 65_536;

/// After this many reads a reader is treated as endless.
const TURNS: usize = 33_554_432;

/// The most bytes that one read takes.
const BLOCK: usize = 4096;

/// Why a file cannot be read.
#[derive(Clone, Copy, Debug, PartialEq, Eq)]
pub enum ReadFault {
    /// It could not be opened, or a read failed.
    Failed,
    /// It has more bytes than the limit.
    TooMany,
}

/// Why no bytes were read.
#[derive(Clone, Copy, Debug, PartialEq, Eq)]
pub enum ReadError {
    CannotRead(ReadFault),
    /// Memory ran out.
    Memory,
}

/// An opened file, or a file that could not be opened: every read of the latter fails.
#[derive(Drop)]
pub enum InputFile<F> {
    Open(F),
    Refused,
}

impl<F> InputFile<F> {
    /// Keeps the opened file, or the fact that it could not be opened.
    pub fn new(opened: io::Result<F>) -> InputFile<F>
        ensures { MatchResult opened (λ file. result ≡ InputFile.Open file)
            (λ _. result ≡ InputFile.Refused) }
    {
        match opened {
            Ok(file) => InputFile::Open(file),
            Err(_) => InputFile::Refused,
        }
    }
}

impl<F: Read> Read for InputFile<F> {
    ghost use Rattle.std.specs.Prelude.{◌≡◌, IsErr};
    ghost use Rattle.std.specs.Io.{ReadsAtMost};
    ghost use Rattle.std.specs.Io.KnownBytes.{ReadConsumes};
    ghost use Rattle.agc_io.specs.Input.{left_of};
    ghost use Rattle.agc_io.specs.declared.input.InputFile.TheVariants.{Refused};

    ghost remaining = { λ file. left_of F.remaining file };

    fn read(&mut self, buf: &mut [u8]) -> io::Result<usize>
        ensures bound { ReadsAtMost result buf.new }
        ensures bytes { ReadConsumes (left_of F.remaining self.old)
            (left_of F.remaining self.new) result buf.new }
        ensures refused { self.old ≡ Refused → IsErr result }
    {
        match self {
            InputFile::Open(file) => file.read(buf),
            InputFile::Refused => Err(io::Error::from(ErrorKind::NotFound)),
        }
    }
}

/// Reads all bytes that the reader has left, at most `limit`.
pub fn read_limited<R: Read>(
    alloc: Global,
    reader: &mut R,
    limit: usize,
) -> Result<Vec<u8>, ReadError>
    requires { limit < 33554432 }
    ensures bytes { IfOk result
        (λ all. Consumes (R.remaining reader.old) (R.remaining reader.new) all.items) }
    ensures end { IfOk result (λ all. IsAtEnd (R.remaining reader.new)) }
    ensures bound { IfOk result (λ all. vec_len all ≤ limit) }
    ensures unread { IfErr result (ExplainsUnread limit (R.remaining reader.old)) }
{
    let mut all = Vec::new(alloc);
    let mut block = [0; BLOCK];
    for _turn in 0..TURNS {
        let Ok(count) = reader.read(&mut block) else {
            return Err(ReadError::CannotRead(ReadFault::Failed));
        };
        if count == 0 {
            return Ok(all);
        }
        if limit - all.len() < count {
            return Err(ReadError::CannotRead(ReadFault::TooMany));
        }
        let Ok(()) = all.extend_from_slice(&block[..count]) else {
            return Err(ReadError::Memory);
        };
    }
    Err(ReadError::CannotRead(ReadFault::TooMany))
}
