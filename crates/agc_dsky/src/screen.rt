//! The terminal's screen: what is drawn on it, and its size.
use agc_operands::{OperandNames, split_names};
use agc_panel::WatchSpec;
use agc_sources::{SourceLines, push_with_sources};
use agc_symbols::{ChannelTable, SymbolTable};
use agc_tui::{
    Button, ColorMode, Operator, Pacer, Size, View, push_inspector, push_tables, render,
};
use std::alloc::{AllocError, Global};
use std::io::Write;

/// The sequence that begins a session: a separate screen without a cursor, on which a long line is cut at the edge.
const BEGIN: &str = "\x1b[?1049h\x1b[?25l\x1b[?7l\x1b[2J";

/// The sequence that ends it: long lines wrap again, the cursor is back, and so is the screen that was there before.
const END: &str = "\x1b[?7h\x1b[?25h\x1b[?1049l";

/// The request for the terminal's size: the terminal reports the position of a cursor moved as far down and right as
/// possible.
const ASK_SIZE: &str = "\x1b[999;999H\x1b[6n";

/// The end of a line, which erases what was there after it.
const LINE_END: &str = "\x1b[K\r\n";

/// The lines of a picture with digits three lines high, with the two lines below it.
const LARGE_LINES: u16 = 24;

/// The lines of the small picture, with the two lines below it.
const SMALL_LINES: u16 = 14;

/// The least number of columns for the long hint on what can be typed.
const LONG_HINT_COLUMNS: u16 = 80;

/// The lines below a picture: the time and speed, and what can be typed.
const BELOW: u16 = 2;

/// The lines of the small picture with the registers and what comes next, with the two lines below it.
const INSIDE_LINES: u16 = 16;

/// The number of columns needed.
const COLUMNS: u16 = 58;

/// The microseconds of half a flash.
const FLASH_HALF: u64 = 320_000;

/// What is drawn besides the session.
#[derive(Clone, Copy, Debug, PartialEq, Eq)]
pub struct Content<'a> {
    /// The time of the clock in microseconds.
    pub micros: u64,
    pub pacer: Pacer,
    /// The key that is lit.
    pub pressed: Option<Button>,
    /// How many times as fast as the hardware the machine ran recently, if it cannot keep its pace.
    pub runs_at: Option<u64>,
    /// Whether the inspector is shown, with the last boundaries if the session is paused.
    pub is_inside: bool,
    /// The Executive's tables that are shown.
    pub tables: Option<WatchSpec>,
    /// A remark on the last action, or nothing.
    pub remark: &'a str,
}

/// A terminal of a known size, with what was last drawn on it.
#[derive(Drop)]
pub struct Screen {
    color: ColorMode,
    /// The names of places, if there are any, and of channels.
    names: Option<SymbolTable>,
    channels: ChannelTable,
    /// The source lines that stand behind lines of the inspector, if there is a listing.
    sources: Option<SourceLines>,
    lines: u16,
    columns: u16,
    drawn: String,
}

impl Screen {
    /// Creates a screen with nothing drawn, of the smallest size until the terminal reports its own.
    pub fn new(
        alloc: Global,
        color: ColorMode,
        names: Option<SymbolTable>,
        sources: Option<SourceLines>,
    ) -> Screen {
        let (names, channels) = split_names(alloc, names);
        Screen {
            color,
            names,
            channels,
            sources,
            lines: SMALL_LINES,
            columns: COLUMNS,
            drawn: String::new(alloc),
        }
    }

    /// Returns the names of places, if there are any.
    pub fn names(&self) -> &Option<SymbolTable> {
        &self.names
    }

    /// Takes the size that the terminal reported. If it is new, everything is drawn again.
    pub fn resize(&mut self, lines: u16, columns: u16) {
        if self.lines == lines && self.columns == columns {
            return;
        }
        self.lines = lines;
        self.columns = columns;
        self.drawn.clear();
    }

    /// Draws what has changed.
    pub fn draw<W: Write>(
        &mut self,
        alloc: Global,
        operator: &Operator,
        shown: Content<'_>,
        out: &mut W,
    ) -> Result<(), DrawFault> {
        let frame = self.frame(alloc, operator, shown)?;
        if frame.as_str() == self.drawn.as_str() {
            return Ok(());
        }
        send(out, &frame)?;
        self.drawn = frame;
        Ok(())
    }

    /// Returns the whole content of the terminal, from its first place on.
    fn frame(
        &self,
        alloc: Global,
        operator: &Operator,
        shown: Content<'_>,
    ) -> Result<String, AllocError> {
        let mut frame = String::new(alloc);
        if self.columns < COLUMNS || self.lines < SMALL_LINES {
            self.push_too_small(&mut frame)?;
        } else {
            let picture = self.picture(alloc, operator, shown)?;
            self.push_frame(&mut frame, &picture, operator, shown)?;
        }
        Ok(frame)
    }

    /// Adds the size of a terminal that is too small, and the one that is needed, in columns and lines.
    fn push_too_small(&self, frame: &mut String) -> Result<(), AllocError> {
        let (columns, lines) = (self.columns, self.lines);
        write!(
            frame,
            "\x1b[Hterminal too small:{LINE_END}{columns} x {lines}, need {COLUMNS} x {SMALL_LINES}\x1b[K\x1b[J"
        )
    }

    /// Adds as much of a picture as there is room for, and the two lines below it.
    fn push_frame(
        &self,
        frame: &mut String,
        picture: &str,
        operator: &Operator,
        shown: Content<'_>,
    ) -> Result<(), AllocError> {
        frame.push_str("\x1b[H")?;
        let room = self.lines.saturating_sub(BELOW) as usize;
        let left = push_lines(frame, picture, room)?;
        push_time(frame, operator, shown)?;
        frame.push_str(LINE_END)?;
        match operator.rerun_end() {
            Some(end) => push_rerun(frame, operator.cycle(), end)?,
            None => self.push_last_line(frame, shown.remark, left)?,
        }
        frame.push_str("\x1b[K\x1b[J")
    }

    /// Returns the lines of the picture, then those of the inspector and of the tables if they are shown.
    fn picture(
        &self,
        alloc: Global,
        operator: &Operator,
        shown: Content<'_>,
    ) -> Result<String, AllocError> {
        let mut picture = String::new(alloc);
        render(&mut picture, self.view(shown), operator.session())?;
        let tables = tables_of(alloc, operator, shown)?;
        let most = self.boundaries(operator, shown, tables.lines().count());
        let inspector = self.insides_of(alloc, operator, shown, most)?;
        self.push_cut(&mut picture, &inspector)?;
        self.push_cut(&mut picture, &tables)?;
        Ok(picture)
    }

    /// Returns the lines of the inspector with at most `most` lines of the last boundaries, or no lines if it is not shown.
    fn insides_of(
        &self,
        alloc: Global,
        operator: &Operator,
        shown: Content<'_>,
        most: usize,
    ) -> Result<String, AllocError> {
        let mut inspector = String::new(alloc);
        if shown.is_inside {
            let (history, session) = (operator.history(), operator.session());
            push_inspector(
                alloc,
                &mut inspector,
                self.operand_names(),
                history,
                most,
                session,
            )?;
        }
        match &self.sources {
            Some(sources) => with_sources(alloc, inspector.as_str(), sources),
            None => Ok(inspector),
        }
    }

    /// Returns the names of operands, if there are any.
    fn operand_names(&self) -> Option<OperandNames<'_>> {
        match &self.names {
            Some(places) => Some(OperandNames {
                places,
                channels: &self.channels,
            }),
            None => None,
        }
    }

    /// Returns how the picture is drawn.
    fn view(&self, shown: Content<'_>) -> View {
        View {
            size: self.size(shown.is_inside || shown.tables.is_some()),
            color: self.color,
            blink_off: (shown.micros / FLASH_HALF) % 2 == 1,
            pressed: shown.pressed,
        }
    }

    /// Adds lines, each cut off before the last column, because the end of the line would erase what is there.
    fn push_cut(&self, picture: &mut String, text: &str) -> Result<(), AllocError> {
        for line in text.lines() {
            for letter in line.chars().take(self.columns.saturating_sub(1) as usize) {
                picture.push(letter)?;
            }
            picture.push_str("\n")?;
        }
        Ok(())
    }

    /// Returns how many lines of the last boundaries fit beside this many lines of tables, during a pause or after the
    /// stop.
    fn boundaries(&self, operator: &Operator, shown: Content<'_>, tables: usize) -> usize {
        if shown.pacer.is_paused() || operator.has_stopped() {
            (self.lines.saturating_sub(INSIDE_LINES) as usize).saturating_sub(tables)
        } else {
            0
        }
    }

    /// Adds the last line: the remark on the last action, the number of lines without room, or what can be typed.
    fn push_last_line(
        &self,
        frame: &mut String,
        remark: &str,
        left: usize,
    ) -> Result<(), AllocError> {
        if !remark.is_empty() {
            return write!(frame, " {remark}");
        }
        if 0 < left {
            return write!(frame, " {left} more lines: enlarge the terminal");
        }
        frame.push_str(if self.columns < LONG_HINT_COLUMNS {
            " v n c k r p Enter 0-9+- space . < > u w d b i t s q quit"
        } else {
            " v n c k r p Enter 0-9+-  space . Backspace < >  u w d b U W D B  i t s  q quit"
        })
    }

    /// Returns the size of the digits: three lines high if there is room and nothing else is shown.
    fn size(&self, is_more: bool) -> Size {
        if is_more || self.lines < LARGE_LINES {
            Size::Small
        } else {
            Size::Large
        }
    }
}

/// Why nothing was drawn.
#[derive(Clone, Copy, Debug, PartialEq, Eq)]
pub enum DrawFault {
    Memory,
    /// The terminal accepts no more output: it may be gone.
    Write,
}

impl From<AllocError> for DrawFault {
    fn from(_error: AllocError) -> DrawFault {
        DrawFault::Memory
    }
}

/// Begins a session on a terminal, and requests its size.
pub fn begin<W: Write>(out: &mut W) -> Result<(), DrawFault> {
    send(out, BEGIN)?;
    send(out, ASK_SIZE)
}

/// Restores the terminal's screen and cursor.
pub fn end<W: Write>(out: &mut W) -> Result<(), DrawFault> {
    send(out, END)
}

/// Requests the terminal's size.
pub fn ask_size<W: Write>(out: &mut W) -> Result<(), DrawFault> {
    send(out, ASK_SIZE)
}

fn send<W: Write>(out: &mut W, text: &str) -> Result<(), DrawFault> {
    if out.write_all(text.as_bytes()).is_err() || out.flush().is_err() {
        return Err(DrawFault::Write);
    }
    Ok(())
}

/// Returns the lines of the tables, or no lines if they are not shown.
fn tables_of(alloc: Global, operator: &Operator, shown: Content<'_>) -> Result<String, AllocError> {
    let mut tables = String::new(alloc);
    if let Some(spec) = shown.tables {
        push_tables(alloc, &mut tables, operator.session(), spec)?;
    }
    Ok(tables)
}

/// Adds as many lines of a picture as there is room for, and returns how many are left over.
fn push_lines(frame: &mut String, picture: &str, room: usize) -> Result<usize, AllocError> {
    for line in picture.lines().take(room) {
        frame.push_str(line)?;
        frame.push_str(LINE_END)?;
    }
    Ok(picture.lines().count().saturating_sub(room))
}

/// Adds the last line during a rerun: how far it is.
fn push_rerun(frame: &mut String, cycle: u64, end: u64) -> Result<(), AllocError> {
    let percent = cycle.saturating_mul(100) / end.max(1);
    write!(frame, " rerunning to cycle {end}: {percent} %; q quits")
}

/// Adds the line with the machine's time and speed.
fn push_time(
    frame: &mut String,
    operator: &Operator,
    shown: Content<'_>,
) -> Result<(), AllocError> {
    let tenths = operator.cycle().saturating_mul(12) / 102_400;
    let (seconds, tenth) = (tenths / 10, tenths % 10);
    let speed = shown.pacer.speed().name();
    write!(frame, " TIME {seconds}.{tenth} s  SPEED {speed}")?;
    if shown.pacer.is_paused() {
        frame.push_str("  PAUSED")?;
    } else if let Some(times) = shown.runs_at {
        write!(frame, "  RUNS AT {times}")?;
    }
    let waiting = operator.waiting();
    if 0 < waiting {
        write!(frame, "  KEYS WAITING {waiting}")?;
    }
    Ok(())
}

/// Returns the inspector's lines with the source lines of their places.
fn with_sources(
    alloc: Global,
    inspector: &str,
    sources: &SourceLines,
) -> Result<String, AllocError> {
    let mut text = String::new(alloc);
    push_with_sources(&mut text, inspector, sources)?;
    Ok(text)
}
