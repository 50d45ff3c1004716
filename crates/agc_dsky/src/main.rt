//! `agc-dsky`: an operator's DSKY on a terminal, for a computer that runs a rope.
#![tactic(auto)]

mod ending;
mod error;
mod event_loop;
mod prompt;
mod quoting;
mod saving;
mod screen;
mod seeking;
mod typed;
mod words;

use agc_cli::{ArgsFault, exit_usage, parse_env};
use agc_io::{InputFile, REFUSED, USAGE, hold_closed_streams, status_of};
use agc_load::LoadFault;
use agc_panel::WatchSpec;
use agc_session::open_session;
use agc_sources::{SourceLines, read_source_lines};
use agc_symbols::{SymbolTable, names_at};
use agc_tui::{ColorMode, Operator};
use ending::Ending;
use error::Error;
use event_loop::{Action, Ended, EventLoop, rest};
use saving::SaveFile;
use screen::{DrawFault, Screen};
use seeking::Sought;
use std::io::{IsTerminal, Read, Write};
use std::os::unix::fs::FileTypeExt;
use std::process::ExitCode;
use std::rt::{Env, Files};
use std::time::Clock;
use std::{env, fs, process};
use typed::{Listener, Typed};
use words::Dsky;

/// Where the program runs.
#[derive(Drop)]
struct Place {
    /// How the terminal is drawn on, if it can be.
    color: Result<ColorMode, Error>,
    /// The path that the program was started by; empty if it is not known.
    program: String,
    /// The number of the process.
    number: u32,
}

fn main(rt: HostRuntime) -> ExitCode {
    let _stand_ins = hold_closed_streams(&rt);
    let (mut keys, mut out, mut err) = (rt.stdin(), rt.stdout(), rt.stderr());
    let requested = parse_env(&rt);
    let place = Place {
        color: color_of(&rt, keys.is_terminal(), out.is_terminal()),
        program: program_of(&rt),
        number: process::id(rt.process()),
    };
    ExitCode::from(run(&rt, requested, &place, &mut keys, &mut out, &mut err))
}

/// Checks that this is a terminal that can be drawn on, and returns its colour mode. `NO_COLOR`, unless empty, turns
/// colour off.
fn color_of<R: Env + AllocGlobal>(
    rt: &R,
    is_input: bool,
    is_output: bool,
) -> Result<ColorMode, Error> {
    if !is_input {
        return Err(Error::InputIsNoTerminal);
    }
    if !is_output {
        return Err(Error::OutputIsNoTerminal);
    }
    match env::var(rt, "TERM") {
        Ok(name) if name.as_str() == "dumb" => return Err(Error::DumbTerminal),
        _ => {}
    }
    match env::var(rt, "NO_COLOR") {
        Ok(value) if !value.is_empty() => Ok(ColorMode::Plain),
        _ => Ok(ColorMode::Colour),
    }
}

/// Returns the path that the program was started by, or nothing if it is not known.
fn program_of<R: Env + AllocGlobal>(rt: &R) -> String {
    let nothing = String::new(rt.alloc());
    match env::args(rt) {
        Ok(mut words) => words.next().unwrap_or(nothing),
        Err(_) => nothing,
    }
}

/// Runs a session over the rope and script of the command line. The text of help goes to `out`, with status 0. An
/// error goes to `err` in one line, with status 1, and a usage error with status 2. A failed write gives status 3.
fn run<R, K: Read, W: Write, E: Write>(
    rt: &R,
    requested: Result<Dsky, ArgsFault>,
    place: &Place,
    keys: &mut K,
    out: &mut W,
    err: &mut E,
) -> u8
where
    R: Files + Clock + AllocGlobal,
{
    match requested {
        Ok(requested) => run_requested(rt, &requested, place, keys, out, err),
        Err(fault) => exit_usage("agc-dsky", fault, REFUSED, out, err),
    }
}

/// Runs a session over rope and script, if it can start.
fn run_requested<R, K: Read, W: Write, E: Write>(
    rt: &R,
    requested: &Dsky,
    place: &Place,
    keys: &mut K,
    out: &mut W,
    err: &mut E,
) -> u8
where
    R: Files + Clock + AllocGlobal,
{
    let (event_loop, mut ending) = match begin(rt, requested, place) {
        Ok(begun) => begun,
        Err(error) => return status_of(status_for(error), error.write_to(requested, err)),
    };
    // If the terminal accepts no output, the first drawing reports it.
    let _begun = screen::begin(out);
    let (event_loop, ended) = sit(rt, event_loop, &mut ending, keys, out);
    // A terminal that is gone cannot be restored.
    let _put_back = screen::end(out);
    ending.finish(rt, &event_loop.operator, requested, ended, out, err)
}

/// Returns the status if no session could start.
fn status_for(error: Error) -> u8 {
    if error.is_misuse() { USAGE } else { REFUSED }
}

/// Opens the session. Checks the terminal first, then the symbols, the rope, the script, the limit, the tables, the listing,
/// and last the file to save to, so that no file is created without a session.
fn begin<R>(rt: &R, requested: &Dsky, place: &Place) -> Result<(EventLoop, Ending), Error>
where
    R: Files + Clock + AllocGlobal,
{
    let color = place.color?;
    let names = names_for(rt, requested)?;
    let operator = operator_for(rt, requested)?;
    let watch = watch_for(requested)?;
    let sources = sources_for(rt, requested)?;
    let ending = ending_for(rt, requested, place)?;
    let screen = Screen::new(rt.alloc(), color, names, sources);
    let event_loop = EventLoop::new(rt.alloc(), rt, operator, screen, requested.speed, watch);
    Ok((event_loop, ending))
}

/// Reserves what the end of the session needs, with the file to save to.
fn ending_for<R: Files + AllocGlobal>(
    rt: &R,
    requested: &Dsky,
    place: &Place,
) -> Result<Ending, Error> {
    let mut ending = Ending::new(rt.alloc(), place.program.as_str())?;
    if let Some(path) = &requested.save {
        let file = SaveFile::reserve(rt, path.as_str(), requested.force, place.number)?;
        ending.file = Some(file);
    }
    Ok(ending)
}

/// Reads the symbols, if a file is named for them.
fn names_for<R: Files + AllocGlobal>(
    rt: &R,
    requested: &Dsky,
) -> Result<Option<SymbolTable>, Error> {
    if is_named_pipe(rt, &requested.names) {
        return Err(Error::NamesIsPipe);
    }
    match names_at(rt, &requested.names) {
        Ok(names) => Ok(names),
        Err(refusal) => Err(Error::Unnamed(refusal)),
    }
}

/// Reads the listing, if there is one, and refuses one of another rope.
fn sources_for<R: Files + AllocGlobal>(
    rt: &R,
    requested: &Dsky,
) -> Result<Option<SourceLines>, Error> {
    let Some(path) = &requested.listing else {
        return Ok(None);
    };
    if is_pipe(rt, path.as_str()) {
        return Err(Error::ListingIsPipe);
    }
    let mut listing = InputFile::new(fs::open(rt, path.as_str()));
    let mut rope = InputFile::new(fs::open(rt, requested.start.rope.as_str()));
    match read_source_lines(rt.alloc(), &mut listing, requested.start.form, &mut rope) {
        Ok(lines) => Ok(Some(lines)),
        Err(fault) => Err(Error::Listing(fault)),
    }
}

/// Creates the operator of a machine at its start.
fn operator_for<R: Files + AllocGlobal>(rt: &R, requested: &Dsky) -> Result<Operator, Error> {
    if is_pipe(rt, requested.start.rope.as_str()) {
        return Err(Error::RopeIsPipe);
    }
    if is_named_pipe(rt, &requested.start.script) {
        return Err(Error::ScriptIsPipe);
    }
    let session = open_session(rt, &requested.start)?;
    Ok(Operator::new(rt.alloc(), session)?)
}

/// Returns whether there is a pipe at a path. No key is heard while it is read, and no one may ever write to it.
fn is_pipe<R: Files>(rt: &R, path: &str) -> bool {
    match fs::metadata(rt, path) {
        Ok(about) => about.file_type().is_fifo(),
        Err(_) => false,
    }
}

/// Returns whether there is a path, and a pipe at it.
fn is_named_pipe<R: Files>(rt: &R, path: &Option<String>) -> bool {
    match path {
        Some(path) => is_pipe(rt, path.as_str()),
        None => false,
    }
}

/// Returns the tables that can be shown.
fn watch_for(requested: &Dsky) -> Result<Option<WatchSpec>, LoadFault> {
    let Some(text) = &requested.watch else {
        return Ok(None);
    };
    let Some(spec) = WatchSpec::read(text.as_str()) else {
        return Err(LoadFault::BadWatchSpec);
    };
    match spec.fault() {
        Some(fault) => Err(LoadFault::Watch(fault)),
        None => Ok(Some(spec)),
    }
}

/// Runs the session to its end.
fn sit<R, K: Read, W: Write>(
    rt: &R,
    mut event_loop: EventLoop,
    ending: &mut Ending,
    keys: &mut K,
    out: &mut W,
) -> (EventLoop, Ended)
where
    R: Files + Clock + AllocGlobal,
{
    let mut typed = Typed::new();
    for _turn in 0..u64::MAX {
        if !typed.read(keys) {
            return (event_loop, Ended::Gone);
        }
        let (handled, ended) = handle_typed(rt, event_loop, ending, keys, &mut typed, out);
        event_loop = handled;
        if let Some(ended) = ended {
            return (event_loop, ended);
        }
        event_loop.go_on(rt);
        event_loop = event_loop.look_inside(rt.alloc());
        if let Err(fault) = event_loop.draw(rt.alloc(), rt, out) {
            return (event_loop, ended_by(fault));
        }
        rest(rt);
    }
    (event_loop, Ended::Quit)
}

/// Handles the bytes that were typed. Returns how the session ends, if one ends it.
fn handle_typed<R, K: Read, W: Write>(
    rt: &R,
    mut event_loop: EventLoop,
    ending: &mut Ending,
    keys: &mut K,
    typed: &mut Typed,
    out: &mut W,
) -> (EventLoop, Option<Ended>)
where
    R: Files + Clock + AllocGlobal,
{
    for _byte in 0..u64::MAX {
        let Some(byte) = typed.take() else {
            return (event_loop, None);
        };
        match event_loop.take(rt.alloc(), rt, byte) {
            Action::None => {}
            Action::Back => event_loop = event_loop.back(rt.alloc(), rt),
            Action::BackToLast(sought) => {
                if event_loop.begin_search_back(rt) {
                    if let Err(fault) = event_loop.draw(rt.alloc(), rt, out) {
                        return (event_loop, Some(ended_by(fault)));
                    }
                    event_loop = search_back(rt, event_loop, sought, keys, typed);
                }
            }
            Action::Save => {
                let remark = save_now(rt, &event_loop.operator, ending);
                event_loop.say(remark);
            }
            Action::Quit => return (event_loop, Some(Ended::Quit)),
        }
    }
    (event_loop, None)
}

/// Searches back, and listens to the keys meanwhile.
fn search_back<R, K: Read>(
    rt: &R,
    event_loop: EventLoop,
    sought: Sought,
    keys: &mut K,
    typed: &mut Typed,
) -> EventLoop
where
    R: Clock + AllocGlobal,
{
    let mut listener = Listener::new(keys, typed, event_loop.decoder());
    event_loop.back_to_last(rt.alloc(), rt, sought, &mut listener)
}

/// Returns how a session ends that cannot be drawn.
fn ended_by(fault: DrawFault) -> Ended {
    match fault {
        DrawFault::Write => Ended::Gone,
        DrawFault::Memory => Ended::Memory,
    }
}

/// Saves the script during the session, and returns the remark to show.
fn save_now<R: Files>(rt: &R, operator: &Operator, ending: &mut Ending) -> &'static str {
    match ending.save(rt, operator) {
        Ok(true) => "saved",
        Ok(false) => "no file is named: start with --save FILE",
        Err(Error::SaveChanged) => "not saved: another program changed the file",
        Err(_) => "not saved: the file cannot be written; it is as it was",
    }
}
