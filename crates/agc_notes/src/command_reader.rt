//! A reader that turns short forms of commands into the commands of the console.
use crate::notes::Notes;
use agc_listing::{Cell, push_place};
use agc_word::{next_word, without_return};
use std::alloc::{AllocError, Global};
use std::io::{self, ErrorKind, Read};

/// The most bytes that one read takes.
const BLOCK: usize = 512;

/// A line with more bytes is passed on as it is.
const LONGEST_LINE: usize = 4096;

/// What `print NAME` of a quantity prints: some cells.
#[derive(Drop)]
struct NamedCells {
    name: String,
    first: Cell,
    count: u16,
}

/// The commands that print quantities.
#[derive(Drop)]
pub struct QuantityCommands {
    named: Vec<NamedCells>,
}

impl QuantityCommands {
    /// Returns the commands that print the quantities of these notes.
    pub fn new(alloc: Global, notes: &Notes) -> Result<QuantityCommands, AllocError> {
        let mut named = Vec::new(alloc);
        if let Some(values) = &notes.values {
            for quantity in values.quantities() {
                let name = String::from_str(alloc, quantity.name.as_str())?;
                named.push(NamedCells {
                    name,
                    first: Cell::new(quantity.cell),
                    count: quantity.kind.size(),
                })?;
            }
        }
        Ok(QuantityCommands { named })
    }

    /// Returns the cells of a quantity.
    fn cells_of(&self, name: &[u8]) -> Option<&NamedCells> {
        self.named
            .iter()
            .find(|cells| cells.name.as_bytes() == name)
    }
}

/// Passes commands on. `print NAME` of a quantity prints its words. At a terminal the first command is `quiet`, the words
/// s, b, c, o, f and p stand for step, break, continue, over, finish and print, and an empty line repeats the last command.
#[derive(Drop)]
pub struct CommandReader<R> {
    alloc: Global,
    input: R,
    quantities: QuantityCommands,
    is_terminal: bool,
    /// The line so far.
    line: Vec<u8>,
    /// The last command.
    last: Vec<u8>,
    /// What is read next, from `at` on.
    ready: Vec<u8>,
    at: usize,
    has_ended: bool,
}

impl<R: Read + Drop> CommandReader<R> {
    /// Creates a reader behind `input`.
    pub fn new(
        alloc: Global,
        input: R,
        quantities: QuantityCommands,
        is_terminal: bool,
    ) -> Result<CommandReader<R>, AllocError> {
        let mut ready = Vec::new(alloc);
        if is_terminal {
            ready.extend_from_slice(b"quiet\n")?;
        }
        Ok(CommandReader {
            alloc,
            input,
            quantities,
            is_terminal,
            line: Vec::new(alloc),
            last: Vec::new(alloc),
            ready,
            at: 0,
            has_ended: false,
        })
    }

    /// Reads until at least one line can be passed on, or the input has ended.
    fn fill(&mut self) -> io::Result<()> {
        self.ready.clear();
        self.at = 0;
        for _read in 0..u64::MAX {
            if self.has_ended || !self.ready.is_empty() {
                return Ok(());
            }
            self.read_block()?;
        }
        Ok(())
    }

    fn read_block(&mut self) -> io::Result<()> {
        let mut block = [0u8; BLOCK];
        let count = self.input.read(&mut block)?;
        if count == 0 {
            self.has_ended = true;
            return or_memory(self.take_line());
        }
        for byte in block.iter().take(count) {
            or_memory(self.take_byte(*byte))?;
        }
        Ok(())
    }

    fn take_byte(&mut self, byte: u8) -> Result<(), AllocError> {
        self.line.push(byte)?;
        if byte == b'\n' {
            return self.take_line();
        }
        if self.line.len() >= LONGEST_LINE {
            self.ready.extend_from_slice(self.line.as_slice())?;
            self.line.clear();
        }
        Ok(())
    }

    /// Makes the line ready that was read: the command that it stands for.
    fn take_line(&mut self) -> Result<(), AllocError> {
        if self.line.is_empty() {
            return Ok(());
        }
        if self.is_terminal {
            self.repeat_or_keep()?;
        }
        push_command(
            self.alloc,
            &mut self.ready,
            &self.quantities,
            self.is_terminal,
            without_end(self.line.as_slice()),
        )?;
        self.ready.push(b'\n')?;
        self.line.clear();
        Ok(())
    }

    /// Puts the last command in the place of an empty line, or keeps the line as the last command.
    fn repeat_or_keep(&mut self) -> Result<(), AllocError> {
        if next_word(without_end(self.line.as_slice())).is_none() {
            self.line.clear();
            self.line.extend_from_slice(self.last.as_slice())
        } else {
            self.last.clear();
            self.last.extend_from_slice(self.line.as_slice())
        }
    }
}

/// Returns a line without its end.
fn without_end(line: &[u8]) -> &[u8] {
    without_return(line.strip_suffix(b"\n").unwrap_or(line))
}

/// Appends the command that a line stands for.
fn push_command(
    alloc: Global,
    ready: &mut Vec<u8>,
    quantities: &QuantityCommands,
    is_terminal: bool,
    line: &[u8],
) -> Result<(), AllocError> {
    let Some((first, rest)) = next_word(line) else {
        return ready.extend_from_slice(line);
    };
    let command = if is_terminal { long_form(first) } else { first };
    ready.extend_from_slice(command)?;
    match only_word(rest) {
        Some(name) if is_print(command) => match quantities.cells_of(name) {
            Some(cells) => push_cells(alloc, ready, cells),
            None => ready.extend_from_slice(rest),
        },
        _ => ready.extend_from_slice(rest),
    }
}

fn is_print(command: &[u8]) -> bool {
    matches!(command, b"print")
}

/// Returns the word of a text with one word.
fn only_word(text: &[u8]) -> Option<&[u8]> {
    let (word, rest) = next_word(text)?;
    match next_word(rest) {
        Some(_) => None,
        None => Some(word),
    }
}

/// Appends the first cell of a quantity, and their number.
fn push_cells(alloc: Global, ready: &mut Vec<u8>, cells: &NamedCells) -> Result<(), AllocError> {
    let mut text = String::new(alloc);
    text.push_str(" ")?;
    push_place(&mut text, cells.first.place())?;
    let count = cells.count;
    write!(text, " {count}")?;
    ready.extend_from_slice(text.as_bytes())
}

/// Returns the command that a letter stands for, or the word itself.
fn long_form(word: &[u8]) -> &[u8] {
    match word {
        b"s" => b"step",
        b"b" => b"break",
        b"c" => b"continue",
        b"o" => b"over",
        b"f" => b"finish",
        b"p" => b"print",
        _ => word,
    }
}

/// Returns an error of a stream if memory has run out.
fn or_memory(done: Result<(), AllocError>) -> io::Result<()> {
    match done {
        Ok(()) => Ok(()),
        Err(_) => Err(io::Error::from(ErrorKind::OutOfMemory)),
    }
}

impl<R: Read + Drop> Read for CommandReader<R> {
    fn read(&mut self, buf: &mut [u8]) -> io::Result<usize> {
        if self.at >= self.ready.len() {
            self.fill()?;
        }
        let count = buf.len().min(self.ready.len().saturating_sub(self.at));
        for (byte, next) in buf.iter_mut().zip(self.ready.iter().skip(self.at)) {
            *byte = *next;
        }
        self.at = self.at.saturating_add(count);
        Ok(count)
    }
}
