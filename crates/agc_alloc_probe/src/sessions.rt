//! Probes the calls that parse a command line and run a session.
use crate::call::Call;
use crate::report::{Attempt, answered, begin, keeps, no_input, refused, wrong};
use agc_cli::{ArgsFault, Options, parse_args};
use agc_io::{OK, REFUSED};
use agc_ring::Open;
use agc_run::session;
use agc_store::RopeForm;
use agc_test_support::{DIVISION, rope_file};
use std::alloc::Global;
use std::io::{self, ErrorKind, Write};
use std::sync::Wait;
use std::thread::Threads;

/// The command line of a short run.
const SHORT: [&str; 5] = ["agc", "rope", "script", "--limit", "10"];

/// The command line of the division, with `--watch` and `--log`.
const WATCHED: [&str; 10] = [
    "agc",
    "rope",
    "script",
    "--limit",
    "100",
    "--log",
    "--slots",
    "1",
    "--watch",
    "0,0,1,1,0,1,100",
];

/// The script of the division: it sets the divisor's cell to 1.
const POKE: &[u8] = b"0 poke 0 100 1";

const TEXT: &str = "PROG __
VERB __
NOUN __
R1 ______
R2 ______
R3 ______
FLASH off
LAMPS none
STOP DivisionUndefined CYCLE 6 WRITES 1
3 010 00002
SET 0 READY 00 LOC 00000 BANKSET 00000
LST1 00000 00000 00000 00000 00000 00000 00000 00000
LST2 0 00000 00000
LST2 1 00000 00000
LST2 2 00000 00000
LST2 3 00000 00000
LST2 4 00000 00000
LST2 5 00000 00000
LST2 6 00000 00000
LST2 7 00000 00000
LST2 8 00000 00000
";

/// Probes `parse_args` on a short command line.
pub fn parse_words<W: Write>(alloc: Global, out: &mut W) -> io::Result<Attempt> {
    let words = SHORT;
    begin(out, Call::ParseArgs)?;
    match parse_args(alloc, &words) {
        Ok(options) => answered(out, is_short(&options)),
        Err(ArgsFault::Memory) => refused(out, "Memory", words == SHORT),
        Err(_) => wrong(out),
    }
}

/// Returns whether these are the options of the short command line.
fn is_short(options: &Options) -> bool {
    (options.rope.as_str(), options.script.as_str()) == ("rope", "script")
        && (options.limit, options.slots, options.log) == (10, 256, false)
        && options.watch.is_none()
        && options.until.is_none()
        && options.form == RopeForm::Classic
        && (options.live, options.spacing) == (false, 8533)
}

/// Returns whether these are the options of the division.
fn is_watched(options: &Options) -> bool {
    (options.rope.as_str(), options.script.as_str()) == ("rope", "script")
        && (options.limit, options.slots, options.log) == (100, 1, true)
        && options
            .watch
            .as_ref()
            .is_some_and(|spec| spec.as_str() == "0,0,1,1,0,1,100")
        && options.until.is_none()
        && options.form == RopeForm::Classic
}

/// A stream that stores what is written in a page of its own.
#[derive(Drop)]
struct Page {
    bytes: [u8; 1024],
    len: usize,
}

impl Page {
    fn new() -> Page {
        Page {
            bytes: [0; 1024],
            len: 0,
        }
    }

    fn written(&self) -> &[u8] {
        self.bytes.get(..self.len).unwrap_or(&[])
    }
}

impl Write for Page {
    fn write(&mut self, buf: &[u8]) -> io::Result<usize> {
        for byte in buf {
            let Some(place) = self.bytes.get_mut(self.len) else {
                return Err(io::Error::from(ErrorKind::WriteZero));
            };
            *place = *byte;
            self.len = self.len.saturating_add(1);
        }
        Ok(buf.len())
    }

    fn flush(&mut self) -> io::Result<()> {
        Ok(())
    }
}

/// Probes `session` on the division. If it fails, it reports its line, and nothing else was written.
pub fn run_session<R, W: Write>(rt: &R, out: &mut W) -> io::Result<Attempt>
where
    R: AllocGlobal + Threads + Wait + Sync,
{
    let Ok(options) = parse_args(rt.alloc(), &WATCHED) else {
        return no_input(out);
    };
    let Ok(file) = rope_file(rt.alloc(), DIVISION) else {
        return no_input(out);
    };
    let (mut printed, mut reported) = (Page::new(), Page::new());
    let (mut rope, mut script, mut keys): (&[u8], &[u8], &[u8]) = (file.as_slice(), POKE, b"");
    begin(out, Call::Session)?;
    let status = session(
        rt,
        rt.alloc(),
        &options,
        &mut rope,
        &mut script,
        &mut keys,
        &Open,
        &mut printed,
        &mut reported,
    );
    let as_before = is_watched(&options);
    if status == REFUSED {
        out.write_all(reported.written())?;
        return keeps(out, as_before && printed.written().is_empty());
    }
    answered(
        out,
        status == OK
            && as_before
            && printed.written() == TEXT.as_bytes()
            && reported.written().is_empty(),
    )
}
