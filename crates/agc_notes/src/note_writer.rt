//! A writer that adds notes to the lines of a console's answers.
use crate::cell_notes::{push_name_note, push_worth_line};
use crate::display::Display;
use crate::notes::Notes;
use crate::operand_notes::push_operand_note;
use crate::values::cell_word_in;
use agc_operands::OperandNames;
use agc_quantities::CellWord;
use agc_sources::PrintedLine;
use agc_symbols::SymbolTable;
use std::alloc::{AllocError, Global};
use std::io::{self, ErrorKind, Write};

/// Passes lines on, with notes: ` # ` and the source line behind each line with a place of the listing, or the name behind a
/// cell or a breakpoint; without a source line, the order with its operand by its name; after one or two printed cells `# ` and what they are worth; after cells `# NAME VALUE UNIT` for each
/// quantity whose words are there; after the panel `# ` and the display in words.
#[derive(Drop)]
pub struct NoteWriter<'a, W> {
    alloc: Global,
    out: W,
    notes: Notes,
    names: &'a Option<SymbolTable>,
    /// The line so far.
    line: Vec<u8>,
    /// The cells of the present answer.
    cells: Vec<CellWord>,
    /// Whether they were printed by `print`.
    is_print: bool,
    display: Display,
    /// Whether the next line is kept back.
    hides_line: bool,
}

impl<'a, W: Write> NoteWriter<'a, W> {
    /// Creates a writer before `out`. It keeps back the first line if `hides_first`.
    pub fn new(
        alloc: Global,
        out: W,
        notes: Notes,
        names: &'a Option<SymbolTable>,
        hides_first: bool,
    ) -> NoteWriter<'a, W> {
        NoteWriter {
            alloc,
            out,
            notes,
            names,
            line: Vec::new(alloc),
            cells: Vec::new(alloc),
            is_print: false,
            display: Display::new(alloc),
            hides_line: hides_first,
        }
    }

    /// Writes the line that is complete, with its notes.
    fn write_line(&mut self) -> io::Result<()> {
        if self.hides_line {
            self.hides_line = false;
            self.line.clear();
            return Ok(());
        }
        match cell_word_in(self.line.as_slice()) {
            Some(word) => {
                self.is_print = self.line.starts_with(b"print ");
                or_memory(keep(&mut self.cells, word))?;
            }
            None => self.write_values()?,
        }
        self.out.write_all(self.line.as_slice())?;
        self.write_name()?;
        if !self.write_source()? {
            self.write_operand()?;
        }
        self.out.write_all(b"\n")?;
        if self.notes.nouns.is_some() {
            or_memory(self.display.see(self.line.as_slice()))?;
            if self.line.starts_with(b"LAMPS ") {
                self.write_display()?;
            }
        }
        self.line.clear();
        Ok(())
    }

    /// Writes the name of a cell or of the place of a breakpoint, if it has one.
    fn write_name(&mut self) -> io::Result<()> {
        let mut text = String::new(self.alloc);
        or_memory(push_name_note(&mut text, self.names, self.line.as_slice()))?;
        self.out.write_all(text.as_bytes())
    }

    /// Writes the source line of a place, if the listing has one. Returns whether it has.
    fn write_source(&mut self) -> io::Result<bool> {
        let Some(sources) = &self.notes.sources else {
            return Ok(false);
        };
        let Some(place) = PrintedLine::Console.place_in(self.line.as_slice()) else {
            return Ok(false);
        };
        match sources.line_at(place) {
            Some(source) => {
                self.out.write_all(b" # ")?;
                self.out.write_all(source)?;
                Ok(true)
            }
            None => Ok(false),
        }
    }

    /// Writes the order of a line with its operand by its name, if that is sure.
    fn write_operand(&mut self) -> io::Result<()> {
        let Some(places) = self.names else {
            return Ok(());
        };
        let names = OperandNames {
            places,
            channels: &self.notes.channels,
        };
        let mut text = String::new(self.alloc);
        or_memory(push_operand_note(&mut text, names, self.line.as_slice()))?;
        self.out.write_all(text.as_bytes())
    }

    /// Writes what the printed cells are worth, and the values of the quantities whose words are among them.
    fn write_values(&mut self) -> io::Result<()> {
        if self.cells.is_empty() {
            return Ok(());
        }
        let mut text = String::new(self.alloc);
        if self.is_print {
            or_memory(push_worth_line(self.alloc, &mut text, self.cells.as_slice()))?;
        }
        if let Some(values) = &self.notes.values {
            or_memory(values.push_lines(self.alloc, &mut text, self.cells.as_slice()))?;
        }
        self.cells.clear();
        self.out.write_all(text.as_bytes())
    }

    /// Writes the display in words.
    fn write_display(&mut self) -> io::Result<()> {
        let Some(nouns) = &self.notes.nouns else {
            return Ok(());
        };
        let text = or_memory(self.display.in_words(self.alloc, nouns))?;
        if text.is_empty() {
            return Ok(());
        }
        self.out.write_all(b"# ")?;
        self.out.write_all(text.as_bytes())?;
        self.out.write_all(b"\n")
    }
}

fn keep(cells: &mut Vec<CellWord>, word: CellWord) -> Result<(), AllocError> {
    cells.push(word)?;
    Ok(())
}

/// Returns an error of a stream if memory has run out.
fn or_memory<T>(done: Result<T, AllocError>) -> io::Result<T> {
    match done {
        Ok(value) => Ok(value),
        Err(_) => Err(io::Error::from(ErrorKind::OutOfMemory)),
    }
}

impl<'a, W: Write> Write for NoteWriter<'a, W> {
    fn write(&mut self, buf: &[u8]) -> io::Result<usize> {
        match buf.iter().position(|byte| *byte == b'\n') {
            Some(end) => {
                or_memory(self.line.extend_from_slice(&buf[..end]))?;
                self.write_line()?;
                Ok(end + 1)
            }
            None => {
                or_memory(self.line.extend_from_slice(buf))?;
                Ok(buf.len())
            }
        }
    }

    fn flush(&mut self) -> io::Result<()> {
        if !self.hides_line {
            self.out.write_all(self.line.as_slice())?;
            self.line.clear();
        }
        self.out.flush()
    }
}
