//! Runs `uplink`: writes the script that sends keys from the ground.
ghost use Rattle.std.specs.Prelude.{◌≡◌, ◌≢◌, ◌≤◌, ◌+◌, ◌*◌, length, true, IfOk};
ghost use Rattle.agc_script.specs.Event.{last_cycle};
ghost use Rattle.agc_run_commands.specs.Ended.{EndsWith};

use crate::fault::FAULTY;
use crate::streams::Streams;
use agc_cli::{ArgsFault, exit_usage};
use agc_io::{OK, status_of, write_in_full};
use agc_quantities::{UplinkTimes, key_sent, uplink_text};
use agc_script::{Key, LAST_CYCLE};
use agc_study_args::{NAME, UplinkArgs};
use std::alloc::Global;
use std::io::Write;

/// The most keys of a script, which has at most 65,536 events, sixteen a key.
const MOST_KEYS: usize = 4096;

/// Writes the script that sends keys. Keys and times that cannot be sent are reported as a command-line error.
pub fn run_uplink<W: Write, E: Write, N: Write, P>(
    alloc: Global,
    args: &UplinkArgs,
    io: &mut Streams<W, E, N, P>,
) -> u8
    ensures ended { EndsWith W.contents E.contents result io.old io.new }
    ensures faulty { result ≢ 1 }
{
    match script_of(alloc, args) {
        Ok(text) => status_of(OK, write_in_full(&mut io.out, text.as_bytes())),
        Err(fault) => exit_usage(NAME, fault, FAULTY, &mut io.out, &mut io.err),
    }
}

/// Returns the script that sends keys, after a comment that names them.
fn script_of(alloc: Global, args: &UplinkArgs) -> Result<String, ArgsFault> {
    let sent = args.keys.as_str();
    let keys = keys_of(alloc, sent)?;
    let times = UplinkTimes {
        from: args.from,
        every: args.every,
        bits: args.bits,
    };
    check_times(alloc, keys.as_slice(), times)?;
    let mut text = format!(in alloc; "# uplink of {sent}\n")?;
    uplink_text(&mut text, keys.as_slice(), times)?;
    Ok(text)
}

/// Parses the keys.
fn keys_of(alloc: Global, text: &str) -> Result<Vec<Key>, ArgsFault> {
    let mut keys = Vec::new(alloc);
    for character in text.as_bytes() {
        let Some(key) = key_sent(*character) else {
            return Err(no_key(alloc, text, keys.len()));
        };
        if keys.push(key).is_err() {
            return Err(ArgsFault::Memory);
        }
    }
    if keys.is_empty() || MOST_KEYS < keys.len() {
        return Err(mistake(
            alloc,
            "error: uplink takes 1 to 4096 keys: a script has at most 65536 events, 16 for each\n",
        ));
    }
    Ok(keys)
}

/// Returns the error for a character that is no key, after this many keys.
fn no_key(alloc: Global, text: &str, before: usize) -> ArgsFault {
    let number = before.saturating_add(1);
    let line = format!(in alloc;
        "error: invalid value '{text}' for '<KEYS>': character {number} is no key: 0 to 9, +, -, V (VERB), N (NOUN), E (ENTR), C (CLR), K (KEY REL) or R (RSET); PRO cannot be sent\n"
    );
    match line {
        Ok(line) => ArgsFault::Command(line),
        Err(_) => ArgsFault::Memory,
    }
}

/// Refuses times at which keys cannot be sent.
fn check_times(alloc: Global, keys: &[Key], times: UplinkTimes) -> Result<(), ArgsFault>
    ensures bits { IfOk result (λ _. 16 * times.bits ≤ times.every) }
    ensures last { IfOk result (λ _. times.from + times.every * length keys.now ≤ last_cycle) }
{
    if times.bits == 0 || times.every / 16 < times.bits {
        return Err(mistake(
            alloc,
            "error: a key has 16 bits: --every is at least 16 times --bits, and --bits at least 1\n",
        ));
    }
    if !ends_in_time(keys.len() as u64, times) {
        return Err(mistake(
            alloc,
            "error: the last key ends after cycle 1000000000000\n",
        ));
    }
    Ok(())
}

/// Returns whether so many keys are sent up to the last cycle of a script.
fn ends_in_time(keys: u64, times: UplinkTimes) -> bool
    ensures { result ≡ true → times.from + times.every * keys ≤ last_cycle }
{
    let Some(spent) = times.every.checked_mul(keys) else {
        return false;
    };
    let Some(end) = times.from.checked_add(spent) else {
        return false;
    };
    end <= LAST_CYCLE
}

/// Returns a command-line error with this text.
fn mistake(alloc: Global, text: &str) -> ArgsFault {
    match String::from_str(alloc, text) {
        Ok(text) => ArgsFault::Command(text),
        Err(_) => ArgsFault::Memory,
    }
}
