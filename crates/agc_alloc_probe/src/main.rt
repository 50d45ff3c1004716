//! `agc_alloc_probe`: makes each call that allocates, or only the named one, with an input whose result is known, and
//! prints the outcome. After out of memory it repeats the call. A test runs it with each allocation failing in turn.
#![tactic(auto)]

mod call;
mod files;
mod report;
mod runs;
mod sessions;
mod texts;

use call::{CALLS, Call};
use report::{Attempt, tell};
use std::env;
use std::io::{self, Write};
use std::process::ExitCode;
use std::rt::Env;
use std::sync::Wait;
use std::thread::Threads;

/// The maximum number of attempts at a call.
const TRIES: u32 = 3;

fn main(rt: HostRuntime) -> ExitCode {
    match run(&rt, &mut rt.stdout()) {
        Ok(true) => ExitCode::SUCCESS,
        _ => ExitCode::FAILURE,
    }
}

/// Makes the calls and returns whether each reached its result.
fn run<R, W: Write>(rt: &R, out: &mut W) -> io::Result<bool>
where
    R: Env + AllocGlobal + Threads + Wait + Sync,
{
    let mut words = match env::args(rt) {
        Ok(words) => words,
        Err(_) => {
            tell(out, "no words")?;
            return Ok(false);
        }
    };
    let _program = words.next();
    match words.next() {
        None => make_all(rt, out),
        Some(name) => match Call::named(name.as_str()) {
            Some(call) => make(rt, out, call),
            None => {
                tell(out, "no such call")?;
                Ok(false)
            }
        },
    }
}

fn make_all<R, W: Write>(rt: &R, out: &mut W) -> io::Result<bool>
where
    R: AllocGlobal + Threads + Wait + Sync,
{
    let mut all = true;
    for call in CALLS {
        all = make(rt, out, call)? && all;
    }
    Ok(all)
}

/// Makes one call until it reaches its result.
fn make<R, W: Write>(rt: &R, out: &mut W, call: Call) -> io::Result<bool>
where
    R: AllocGlobal + Threads + Wait + Sync,
{
    for _ in 0..TRIES {
        match attempt(rt, out, call)? {
            Attempt::Answered => return Ok(true),
            Attempt::Mistaken => return Ok(false),
            Attempt::Refused => {}
        }
    }
    Ok(false)
}

fn attempt<R, W: Write>(rt: &R, out: &mut W, call: Call) -> io::Result<Attempt>
where
    R: AllocGlobal + Threads + Wait + Sync,
{
    let alloc = rt.alloc();
    match call {
        Call::RopeRead => files::read_rope(alloc, out),
        Call::RopeReadAs => files::read_rope_as(alloc, out),
        Call::ScriptParse => files::parse_keys(alloc, out),
        Call::ScriptParseEvery => files::parse_every(alloc, out),
        Call::ScriptMerge => files::merge_tape(alloc, out),
        Call::TapePush => files::push_key(alloc, out),
        Call::PanelText => texts::panel_text(alloc, out),
        Call::Watch => texts::watch_tables(alloc, out),
        Call::Link => runs::link_ends(alloc, out),
        Call::RunShown => runs::show_writes(rt, out),
        Call::RunLive => runs::run_with_keys(rt, out),
        Call::ParseArgs => sessions::parse_words(alloc, out),
        Call::Session => sessions::run_session(rt, out),
    }
}
