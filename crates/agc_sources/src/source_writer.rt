//! A writer that puts the source line behind each line with a place.
use crate::printed_place::PrintedLine;
use crate::source_lines::SourceLines;
use std::alloc::Global;
use std::io::{self, ErrorKind, Write};

/// Passes lines on. Behind each one with a place of the listing it writes ` # ` and file, number and text of the source
/// line.
#[derive(Drop)]
pub struct SourceWriter<W> {
    out: W,
    form: PrintedLine,
    first: SourceLines,
    second: Option<SourceLines>,
    /// The line so far.
    line: Vec<u8>,
}

impl<W: Write> SourceWriter<W> {
    /// Creates a writer before `out` for lines of this form, with the source lines of a run and of a second one. Lines of a
    /// second run get none if it has none.
    pub fn new(
        alloc: Global,
        out: W,
        form: PrintedLine,
        first: SourceLines,
        second: Option<SourceLines>,
    ) -> SourceWriter<W> {
        SourceWriter {
            out,
            form,
            first,
            second,
            line: Vec::new(alloc),
        }
    }

    /// Returns what it writes to.
    pub fn into_inner(self) -> W {
        self.out
    }

    /// Writes the line that is complete, with its source line.
    fn write_line(&mut self) -> io::Result<()> {
        self.out.write_all(self.line.as_slice())?;
        if let Some(place) = self.form.place_in(self.line.as_slice()) {
            if !self.form.is_of_second(self.line.as_slice()) {
                write_source(&mut self.out, &self.first, place)?;
            } else if let Some(second) = &self.second {
                write_source(&mut self.out, second, place)?;
            }
        }
        self.line.clear();
        self.out.write_all(b"\n")
    }

    fn keep(&mut self, part: &[u8]) -> io::Result<()> {
        match self.line.extend_from_slice(part) {
            Ok(()) => Ok(()),
            Err(_) => Err(io::Error::from(ErrorKind::OutOfMemory)),
        }
    }
}

/// Writes the source line of a place, if the listing has one.
fn write_source<W: Write>(out: &mut W, lines: &SourceLines, place: u32) -> io::Result<()> {
    match lines.line_at(place) {
        Some(source) => {
            out.write_all(b" # ")?;
            out.write_all(source)
        }
        None => Ok(()),
    }
}

impl<W: Write> Write for SourceWriter<W> {
    fn write(&mut self, buf: &[u8]) -> io::Result<usize> {
        match buf.iter().position(|byte| *byte == b'\n') {
            Some(end) => {
                self.keep(&buf[..end])?;
                self.write_line()?;
                Ok(end + 1)
            }
            None => {
                self.keep(buf)?;
                Ok(buf.len())
            }
        }
    }

    fn flush(&mut self) -> io::Result<()> {
        self.out.write_all(self.line.as_slice())?;
        self.line.clear();
        self.out.flush()
    }
}
