//! Tests of when progress is shown, and of what a failed write leaves.
use crate::output::write_in_full;
use crate::progress::Progress;
use crate::ticker::{ProgressLine, Ticker};
use std::io::{self, ErrorKind, IsTerminal, Write};
use std::test::Fail;
use std::time::{Clock, Duration, Instant};

/// A clock stopped at this many milliseconds.
#[derive(Drop)]
struct Stopped(u64);

impl Clock for Stopped {
    fn monotonic(&self) -> io::Result<Duration> {
        Ok(Duration::from_millis(self.0))
    }

    fn since_1970(&self) -> io::Result<Duration> {
        Ok(Duration::from_millis(self.0))
    }
}

/// A stream in memory that may be a terminal and whose first write may fail.
#[derive(Drop)]
struct Screen {
    bytes: Vec<u8>,
    is_terminal: bool,
    fails: bool,
}

impl Write for Screen {
    fn write(&mut self, buf: &[u8]) -> io::Result<usize> {
        if self.fails {
            self.fails = false;
            return Err(io::Error::from(ErrorKind::Other));
        }
        self.bytes.extend_from_slice(buf)?;
        Ok(buf.len())
    }

    fn flush(&mut self) -> io::Result<()> {
        Ok(())
    }
}

impl IsTerminal for Screen {
    fn is_terminal(&self) -> bool {
        self.is_terminal
    }
}

/// Returns what a ticker shows for six reports, each one cycle further. The first is at ten seconds; the others come a
/// millisecond before two seconds later, exactly two seconds later, just under and exactly half a second after that,
/// and a minute after that.
fn shown(rt: &impl AllocGlobal, is_terminal: bool, fails: bool) -> Vec<u8> {
    let start = Stopped(10_000);
    let screen = Screen {
        bytes: Vec::new(rt.alloc()),
        is_terminal,
        fails,
    };
    let times = [11_999, 12_000, 12_499, 12_500, 72_500].map(|millis| Stopped(millis));
    let mut ticker = Ticker::new(&start, screen, "agc-study", 9);
    ticker.come_to(0);
    let mut cycle = 0u64;
    for time in &times {
        cycle = cycle.saturating_add(1);
        ticker.clock = time;
        ticker.come_to(cycle);
    }
    ticker.wipe();
    ticker.err.bytes
}

/// On a terminal the first line comes after two seconds, and later lines at least half a second apart; the last line is
/// wiped. After a failed write nothing more is shown, and without a terminal nothing at all.
#[test]
fn lines_come_in_their_time(rt: HostRuntime) {
    let lines =
        b"\ragc-study: cycle 2 of 9\r\ragc-study: cycle 4 of 9\r\ragc-study: cycle 5 of 9\r\x1b[K";
    assert!(rt; shown(&rt, true, false).as_slice() == lines.as_slice());
    assert!(rt; shown(&rt, true, true).as_slice() == b"\x1b[K".as_slice());
    assert!(rt; shown(&rt, false, false).is_empty());
}

/// A due line is shown; the next report is not due yet, and the line is wiped once.
#[test]
fn progress_is_shown_and_wiped(rt: HostRuntime) -> Result<(), Fail> {
    let clock = Stopped(10_000);
    let mut ticker = Ticker {
        clock: &clock,
        err: Vec::new(rt.alloc()),
        name: "agc",
        last: 100,
        due: Instant::now(&clock).ok(),
        is_shown: false,
    };
    ticker.come_to(7);
    ticker.come_to(8);
    ticker.wipe();
    ticker.wipe();
    assert!(rt; ticker.err.as_slice() == b"\ragc: cycle 7 of 100\r\x1b[K".as_slice());
    Ok(())
}

/// A stream that is interrupted at first, and then takes two bytes at a time as long as it has room.
#[derive(Drop)]
struct Pipe {
    bytes: Vec<u8>,
    room: usize,
    is_interrupted: bool,
}

impl Write for Pipe {
    fn write(&mut self, buf: &[u8]) -> io::Result<usize> {
        if self.is_interrupted {
            self.is_interrupted = false;
            return Err(io::Error::from(ErrorKind::Interrupted));
        }
        if self.room < 2 || buf.len() < 2 {
            return Err(io::Error::from(ErrorKind::Other));
        }
        self.room -= 2;
        self.bytes.extend_from_slice(&buf[..2])?;
        Ok(2)
    }

    fn flush(&mut self) -> io::Result<()> {
        Ok(())
    }
}

/// Returns whether six bytes were written to a stream with this room, and what it then holds.
fn written(rt: &impl AllocGlobal, room: usize) -> (bool, Vec<u8>) {
    let mut out = Pipe {
        bytes: Vec::new(rt.alloc()),
        room,
        is_interrupted: true,
    };
    let is_written = write_in_full(&mut out, b"abcdef").is_ok();
    (is_written, out.bytes)
}

/// An interrupted write is repeated, short writes are continued, and after a failed one a beginning was written.
#[test]
fn a_failed_write_leaves_a_beginning(rt: HostRuntime) {
    let (whole, bytes) = written(&rt, 6);
    assert!(rt; whole && bytes.as_slice() == b"abcdef".as_slice());
    let (cut, bytes) = written(&rt, 5);
    assert!(rt; !cut && bytes.as_slice() == b"abcd".as_slice());
    let (none, bytes) = written(&rt, 1);
    assert!(rt; !none && bytes.is_empty());
}
