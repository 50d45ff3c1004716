//! `agc-study`: inspects ropes and runs. `list` disassembles a rope, `weave` assembles a text into a rope, `check`
//! reports what is wrong with a rope and a script, `trace` prints what a run does, boundary by boundary, `profile`
//! how often and how long each word runs, `jobs` how the Executive's tables change, `sample` what quantities of the
//! program are worth over time, `downlink` what it sends, `uplink` prints keys as a script, `compare` shows where two runs
//! diverge, and `film` renders the display over time.
#![tactic(auto)]

mod source_lines;

use agc_analysis::{FAULTY, Streams, answer, last_cycle};
use agc_cli::ArgsFault;
use agc_io::{ProgressLine, Ticker, hold_closed_streams};
use agc_sources::SourceWriter;
use agc_study_args::{Args, NAME};
use agc_study_cli::parse_env;
use source_lines::{Sources, sources_of};
use std::io::Write;
use std::process::ExitCode;
use std::rt::Files;

fn main(rt: HostRuntime) -> ExitCode {
    let _stand_ins = hold_closed_streams(&rt);
    let args = parse_env(&rt);
    let sources = match sources_of(&rt, &args, &mut rt.stderr()) {
        Ok(sources) => sources,
        Err(()) => return ExitCode::from(FAULTY),
    };
    let mut io = Streams {
        out: rt.stdout(),
        err: rt.stderr(),
        remarks: rt.stderr(),
        progress: Ticker::new(&rt, rt.stderr(), NAME, last_cycle(&args)),
    };
    let status = match sources {
        None => answer(&rt, args, &mut io),
        Some(sources) => answer_with_sources(&rt, args, sources, io),
    };
    ExitCode::from(status)
}

/// Runs the command, and puts source lines behind the lines of its result.
fn answer_with_sources<
    R,
    W: Write + Drop,
    E: Write + Drop,
    N: Write + Drop,
    P: ProgressLine + Drop,
>(rt: &R, args: Result<Args, ArgsFault>, sources: Sources, io: Streams<W, E, N, P>) -> u8
where
    R: Files + AllocGlobal,
{
    let Sources {
        form,
        first,
        second,
    } = sources;
    let Streams {
        out,
        err,
        remarks,
        progress,
    } = io;
    let mut listed = Streams {
        out: SourceWriter::new(rt.alloc(), out, form, first, second),
        err,
        remarks,
        progress,
    };
    answer(rt, args, &mut listed)
}
