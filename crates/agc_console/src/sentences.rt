//! Answers as a terminal shows them: each error is a sentence, without the name by which programs tell errors apart.
ghost use Rattle.std.specs.Io.{WritesAtMost};

use std::io::{self, Write};

/// How the answer to a command that did nothing begins.
const ERROR: &str = "error: ";

/// The bytes that are held back of a name; all names are shorter.
const LONGEST_NAME: usize = 32;

/// Where in a line the next byte stands.
#[derive(Clone, Copy, Debug, PartialEq, Eq)]
enum Place {
    /// After this many bytes of the beginning of an error.
    Start(usize),
    /// In the name of an error.
    Name,
    /// After the colon that follows a name.
    Colon,
    /// In the rest of the line.
    Rest,
}

/// The bytes of a line that may be a name, and are held back.
#[derive(Clone, Copy, Debug)]
struct Name {
    bytes: [u8; LONGEST_NAME],
    len: usize,
}

impl Name {
    fn empty() -> Name {
        Name {
            bytes: [0; LONGEST_NAME],
            len: 0,
        }
    }

    /// Adds a byte if it is a letter and there is room. Returns whether it is added.
    fn push(&mut self, byte: u8) -> bool {
        match self.bytes.get_mut(self.len) {
            Some(next) if byte.is_ascii_alphabetic() => {
                *next = byte;
                self.len = self.len.saturating_add(1);
                true
            }
            _ => false,
        }
    }

    fn text(&self) -> &[u8] {
        self.bytes.get(..self.len).unwrap_or(&[])
    }

    fn is(&self, name: &str) -> bool {
        self.text() == name.as_bytes()
    }
}

/// A writer that leaves the name out of each line `error: NAME: SENTENCE`, and passes on everything else.
#[derive(Drop)]
pub struct Sentences<W> {
    out: W,
    /// Whether names are left out; else everything is passed on.
    drops_names: bool,
    place: Place,
    name: Name,
}

impl<W: Write> Sentences<W> {
    pub fn new(out: W, drops_names: bool) -> Sentences<W> {
        Sentences {
            out,
            drops_names,
            place: Place::Start(0),
            name: Name::empty(),
        }
    }

    /// Writes the first byte if the line still begins as an error does, else the rest of the line.
    fn write_start(&mut self, matched: usize, buf: &[u8]) -> io::Result<usize>
        ensures { WritesAtMost result buf.now }
    {
        let Some(byte) = buf.first() else {
            return Ok(0);
        };
        if ERROR.as_bytes().get(matched) != Some(byte) {
            return self.write_rest(buf);
        }
        self.out.write_all(&buf[..1])?;
        let matched = matched.saturating_add(1);
        if matched < ERROR.len() {
            self.place = Place::Start(matched);
        } else {
            self.place = Place::Name;
            self.name = Name::empty();
        }
        Ok(1)
    }

    /// Holds back the first byte if it may be one of a name, and drops a name at its colon.
    fn take_name(&mut self, buf: &[u8]) -> io::Result<usize>
        ensures { WritesAtMost result buf.now }
    {
        let Some(byte) = buf.first() else {
            return Ok(0);
        };
        let byte = *byte;
        if byte == b':' {
            self.end_name()?;
            return Ok(1);
        }
        if self.name.push(byte) {
            return Ok(1);
        }
        self.write_word()?;
        self.write_rest(buf)
    }

    /// Drops the name. The form of a command keeps it in words.
    fn end_name(&mut self) -> io::Result<()> {
        self.place = Place::Colon;
        if self.name.is("Usage") {
            self.out.write_all(b"usage: ")?;
        }
        Ok(())
    }

    /// Writes the bytes held back, which were no name.
    fn write_word(&mut self) -> io::Result<()> {
        if self.name.is("memory") {
            self.out.write_all(b"out of ")?;
        }
        self.out.write_all(self.name.text())
    }

    /// Writes up to the end of the line.
    fn write_rest(&mut self, buf: &[u8]) -> io::Result<usize>
        ensures { WritesAtMost result buf.now }
    {
        let (end, place) = match buf.iter().position(|byte| *byte == b'\n') {
            Some(place) => (place + 1, Place::Start(0)),
            None => (buf.len(), Place::Rest),
        };
        self.place = place;
        self.out.write_all(&buf[..end])?;
        Ok(end)
    }
}

impl<W: Write> Write for Sentences<W> {
    fn write(&mut self, buf: &[u8]) -> io::Result<usize> {
        if !self.drops_names {
            return self.out.write(buf);
        }
        match self.place {
            Place::Start(matched) => self.write_start(matched, buf),
            Place::Name => self.take_name(buf),
            Place::Colon if buf.first() == Some(&b' ') => {
                self.place = Place::Rest;
                Ok(1)
            }
            Place::Colon | Place::Rest => self.write_rest(buf),
        }
    }

    fn flush(&mut self) -> io::Result<()> {
        self.out.flush()
    }
}
