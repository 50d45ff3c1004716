//! Progress on a terminal: one line on standard error, overwritten and wiped at the end.
use crate::progress::{NoProgress, Progress};
use std::io::{IsTerminal, Write};
use std::time::{Clock, Duration, Instant};

/// Milliseconds before the first progress line.
const PATIENCE: u64 = 2000;

/// Milliseconds between two progress lines.
const PERIOD: u64 = 500;

/// Progress that may be shown on a line, and wiped.
pub trait ProgressLine: Progress {
    /// Wipes the line, if one is shown.
    fn wipe(&mut self);
}

impl ProgressLine for NoProgress {
    fn wipe(&mut self) {}
}

/// Shows how far a run has come, apart from what the program prints: only on a terminal, after two seconds, and at most
/// every half second. It writes through its own handle. If the clock or the terminal fails, it shows nothing more.
#[derive(Drop)]
pub struct Ticker<'a, C, E> {
    pub(crate) clock: &'a C,
    pub(crate) err: E,
    /// The program's name, at the start of each line.
    pub(crate) name: &'a str,
    /// The limit of the run, in cycles.
    pub(crate) last: u64,
    /// When the next line is due; `None` means never.
    pub(crate) due: Option<Instant>,
    /// A line was shown and not wiped yet.
    pub(crate) is_shown: bool,
}

impl<'a, C: Clock, E: Write + IsTerminal> Ticker<'a, C, E> {
    /// Makes a ticker that has shown nothing yet, and never will if `err` is no terminal.
    pub fn new(clock: &'a C, err: E, name: &'a str, last: u64) -> Ticker<'a, C, E> {
        let due = if err.is_terminal() {
            time_from_now(clock, PATIENCE)
        } else {
            None
        };
        Ticker {
            clock,
            err,
            name,
            last,
            due,
            is_shown: false,
        }
    }
}

impl<'a, C: Clock, E: Write> Progress for Ticker<'a, C, E> {
    fn come_to(&mut self, cycle: u64) {
        if !is_past(self.clock, self.due) {
            return;
        }
        let (name, last) = (self.name, self.last);
        // The line ends with a return to its start, so that the next output overwrites it.
        self.due = match write!(self.err, "\r{name}: cycle {cycle} of {last}\r") {
            Ok(()) => time_from_now(self.clock, PERIOD),
            Err(_) => None,
        };
        self.is_shown = true;
    }
}

impl<'a, C: Clock, E: Write> ProgressLine for Ticker<'a, C, E> {
    fn wipe(&mut self) {
        if self.is_shown {
            // A line that cannot be wiped stays.
            let _wiped = self.err.write_all(b"\x1b[K");
            self.is_shown = false;
        }
    }
}

/// Returns the time this many milliseconds from now, or `None` if the clock fails.
fn time_from_now<C: Clock>(clock: &C, millis: u64) -> Option<Instant> {
    match Instant::now(clock) {
        Ok(now) => now.checked_add(Duration::from_millis(millis)),
        Err(_) => None,
    }
}

/// Returns whether a time has come. `None` never comes, and nothing comes if the clock fails.
fn is_past<C: Clock>(clock: &C, time: Option<Instant>) -> bool {
    match (time, Instant::now(clock)) {
        (Some(time), Ok(now)) => time <= now,
        (None, _) | (_, Err(_)) => false,
    }
}
