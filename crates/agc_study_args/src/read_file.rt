//! A file to read, which keeps the reason if it cannot be read.
ghost use Rattle.std.specs.Prelude.{◌≡◌, IsErr, None};
ghost use Rattle.std.specs.Io.{ReadsAtMost};
ghost use Rattle.std.specs.Io.KnownBytes.{ReadConsumes};
ghost use Rattle.agc_study_args.specs.ReadFile.{first_fault, opened_left};

use std::alloc::{AllocError, Global};
use std::fs;
use std::io::{self, ErrorKind, Read, Write};
use std::rt::Files;

/// A file to read. It keeps why its first failed read failed, and whether it has too many bytes.
#[derive(Drop)]
pub struct ReadFile<'a, F> {
    path: &'a str,
    /// The most bytes that it may have.
    limit: usize,
    /// The opened file, or why it cannot be opened.
    opened: io::Result<F>,
    /// The number of bytes read.
    count: usize,
    /// Why it cannot be read, if a read has failed or the file is too long.
    fault: Option<io::Error>,
}

impl<'a, F> ReadFile<'a, F> {
    /// Keeps an opened file, or why it cannot be opened, for reading at most this many bytes.
    pub fn new(path: &'a str, limit: usize, opened: io::Result<F>) -> ReadFile<'a, F>
        ensures opened { result.opened ≡ opened }
        ensures fault { result.fault ≡ None }
    {
        ReadFile {
            path,
            limit,
            opened,
            count: 0,
            fault: None,
        }
    }

    /// Writes a line with the path and the reason if the file could not be read.
    pub fn remark_fault<N: Write>(&self, alloc: Global, remarks: &mut N) {
        if let Some(fault) = &self.fault {
            remark_on_file(alloc, self.path, fault, remarks);
        }
    }

    /// Writes a line with the path and the number of words with wrong parity that were read, if there are any.
    pub fn remark_wrong<N: Write>(&self, alloc: Global, wrong: usize, remarks: &mut N) {
        if wrong > 0 {
            if let Ok(line) = wrong_line(alloc, self.path, wrong) {
                let _written = remarks.write_all(line.as_bytes());
            }
        }
    }

    /// Keeps a reason, unless there is one already.
    fn keep_fault(&mut self, fault: io::Error)
        ensures { self.new ≡ record self.old { fault = first_fault self.old.fault fault } }
    {
        if self.fault.is_none() {
            self.fault = Some(fault);
        }
    }
}

impl<F: Read> Read for ReadFile<'_, F> {
    ghost use Rattle.std.specs.Prelude.{◌≡◌, IfErr, IsErr};
    ghost use Rattle.std.specs.Io.{ReadsAtMost};
    ghost use Rattle.std.specs.Io.KnownBytes.{ReadConsumes};
    ghost use Rattle.agc_study_args.specs.ReadFile.{first_fault, left_of};

    ghost remaining = { λ file. left_of F.remaining file };

    fn read(&mut self, buf: &mut [u8]) -> io::Result<usize>
        ensures bound { ReadsAtMost result buf.new }
        ensures bytes { ReadConsumes (left_of F.remaining self.old)
            (left_of F.remaining self.new) result buf.new }
        ensures refused { IsErr self.old.opened → IsErr result }
        ensures fault { IfErr result (λ e. self.new.fault ≡ first_fault self.old.fault e) }
    {
        match read_opened(&mut self.opened, buf) {
            Ok(count) => {
                self.count = self.count.saturating_add(count);
                if self.count > self.limit {
                    self.keep_fault(io::Error::from(ErrorKind::FileTooLarge));
                }
                Ok(count)
            }
            Err(error) => {
                self.keep_fault(error);
                Err(error)
            }
        }
    }
}

/// Reads from an opened file, or fails with the reason for which it could not be opened.
fn read_opened<F: Read>(opened: &mut io::Result<F>, buf: &mut [u8]) -> io::Result<usize>
    ensures bound { ReadsAtMost result buf.new }
    ensures bytes { ReadConsumes (opened_left F.remaining opened.old)
        (opened_left F.remaining opened.new) result buf.new }
    ensures refused { IsErr opened.old → IsErr result }
{
    match opened {
        Ok(file) => file.read(buf),
        Err(error) => Err(*error),
    }
}

/// Opens a file with at most this many bytes.
pub fn open_file<'a, R: Files>(rt: &R, path: &'a String, limit: usize) -> ReadFile<'a, R::File> {
    let path = path.as_str();
    ReadFile::new(path, limit, fs::open(rt, path))
}

/// Reports why a file cannot be read or written. A control character of its path is printed as `\\ooo` for each byte, so
/// that it cannot command the terminal.
pub fn remark_on_file<N: Write>(alloc: Global, path: &str, reason: &io::Error, remarks: &mut N) {
    if let Ok(line) = file_line(alloc, path, reason) {
        let _written = remarks.write_all(line.as_bytes());
    }
}

fn file_line(alloc: Global, path: &str, reason: &io::Error) -> Result<String, AllocError> {
    let mut line = line_about(alloc, path)?;
    writeln!(line, "{reason}")?;
    Ok(line)
}

fn wrong_line(alloc: Global, path: &str, wrong: usize) -> Result<String, AllocError> {
    let mut line = line_about(alloc, path)?;
    writeln!(line, "words with wrong parity: {wrong}, ignored")?;
    Ok(line)
}

/// Returns the beginning of a line about a file.
fn line_about(alloc: Global, path: &str) -> Result<String, AllocError> {
    let mut line = String::new(alloc);
    line.push_str("agc-study: ")?;
    for c in path.chars() {
        push_printable(&mut line, c)?;
    }
    line.push_str(": ")?;
    Ok(line)
}

/// Appends a character of a path.
fn push_printable(text: &mut String, c: char) -> Result<(), AllocError> {
    let code = u32::from(c);
    if code < 0x20 || code == 0x7F {
        write!(text, "\\{code:03o}")
    } else if 0x80 <= code && code < 0xA0 {
        // It has two bytes, of which the second is the code.
        write!(text, "\\302\\{code:03o}")
    } else {
        text.push(c)
    }
}
