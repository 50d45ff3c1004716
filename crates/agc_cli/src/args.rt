//! Parses the command line of `agc` into its options.
ghost use Rattle.std.specs.Prelude.{◌≡◌, IfOk, IfErr, map, codes};
ghost use Rattle.std.specs.Prelude.{option_and_then, unwrap_or};
ghost use Rattle.clap.specs.Words.{found_of, one_of, rows_of};
ghost use Rattle.agc_cli.specs.Values.{number_written};
ghost use Rattle.agc_cli.specs.ParseArgs.{AreRequiredBy, AsksFor, IsFaultOf};
ghost use Rattle.agc_cli.specs.declared.fault.ArgsFault.TheVariants as fault;

use crate::command::command;
use crate::fault::ArgsFault;
use crate::mistakes::fault_of;
use crate::program_args::Args;
use crate::session_options::Options;
use crate::values::{form_of, number_of, path_of, text_of};
use clap::{ArgMatches, Command};
use std::alloc::{AllocError, Global};

/// Default number of slots of the ring between machine and display.
const DEFAULT_SLOTS: usize = 256;

/// Default number of machine cycles between two live keys: a tenth of a second.
const DEFAULT_SPACING: u64 = 8533;

impl Args for Options {
    const NAME: &'static str = "agc";

    fn command<'a>(alloc: Global) -> Result<Command<'a>, AllocError> {
        command(alloc)
    }

    fn from_matches(alloc: Global, matches: &ArgMatches<'_>) -> Result<Options, ArgsFault> {
        options_of(alloc, matches)
    }

    fn parse<'a>(alloc: Global, words: &'a [&'a str]) -> Result<Options, ArgsFault> {
        parse_args(alloc, words)
    }
}

/// Parses the words of the command line of `agc`; the first is the program's own name.
pub fn parse_args<'a>(alloc: Global, words: &'a [&'a str]) -> Result<Options, ArgsFault>
    ensures options { IfOk result (AreRequiredBy (map (λ word. word.now) words.now)) }
    ensures fault { IfErr result (IsFaultOf (map (λ word. word.now) words.now)) }
{
    let command = command(alloc)?;
    match command.try_get_matches_from(words) {
        Ok(matches) => options_of(alloc, &matches),
        Err(error) => Err(fault_of(alloc, &error)),
    }
}

fn options_of(alloc: Global, matches: &ArgMatches<'_>) -> Result<Options, ArgsFault>
    ensures options { IfOk result (AsksFor (rows_of (found_of matches.now))) }
    ensures memory { IfErr result (λ f. f ≡ fault.Memory) }
{
    Ok(Options {
        rope: path_of(alloc, matches, "rope")?,
        script: path_of(alloc, matches, "script")?,
        limit: number_of(matches, "limit", 0),
        slots: slots_of(matches),
        watch: text_of(alloc, matches, "watch")?,
        log: matches.get_flag("log"),
        form: form_of(matches),
        until: text_of(alloc, matches, "until")?,
        live: matches.get_flag("live"),
        spacing: number_of(matches, "spacing", DEFAULT_SPACING),
    })
}

fn slots_of(matches: &ArgMatches<'_>) -> usize
    ensures { result ≡ unwrap_or
        (option_and_then number_written
        (one_of (codes "slots") (rows_of (found_of matches.now)))) 256 }
{
    matches.get_one::<usize>("slots").unwrap_or(DEFAULT_SLOTS)
}
