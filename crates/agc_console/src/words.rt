//! The command-line arguments of the console.
use agc_cli::{Args, ArgsFault, names_option, script_file, text_of, with_parameter};
use agc_notes::NoteFiles;
use agc_session::{SessionArgs, session_args, with_session_args};
use clap::{Arg, ArgAction, ArgMatches, Command};
use std::alloc::{AllocError, Global};

/// The arguments of the console.
#[derive(Debug, Drop)]
pub struct Console {
    pub start: SessionArgs,
    /// The path of the symbol file, if there is one.
    pub names: Option<String>,
    /// The paths of the files that notes come from.
    pub notes: NoteFiles,
    /// Whether answers are those of a terminal, whatever the streams are.
    pub terminal: bool,
}

impl Args for Console {
    const NAME: &'static str = "agc-console";

    /// Returns the program's command: the files and the options of `agc` that a console has. The default of its limit
    /// is the last possible cycle.
    fn command<'a>(alloc: Global) -> Result<Command<'a>, AllocError> {
        let command = Command::new(alloc, Console::NAME).about(
            "Runs a rope by commands: a line each on standard input, answered before the next is read. The command help lists them. Example: printf 'key VERB\\ngo 85333\\npanel\\n' | agc-console ROPE /dev/null",
        );
        let command = with_session_args(alloc, command, script_file(alloc))?;
        let command = with_parameter(command, names_option(alloc))?;
        let command = with_parameter(command, listing_option(alloc))?;
        let command = with_parameter(command, quantities_option(alloc))?;
        let command = with_parameter(command, nouns_option(alloc))?;
        with_parameter(command, terminal_option(alloc))
    }

    fn from_matches(alloc: Global, matches: &ArgMatches<'_>) -> Result<Console, ArgsFault> {
        let start = session_args(alloc, matches)?;
        let names = text_of(alloc, matches, "names")?;
        let notes = NoteFiles {
            listing: text_of(alloc, matches, "listing")?,
            quantities: text_of(alloc, matches, "quantities")?,
            nouns: text_of(alloc, matches, "nouns")?,
        };
        Ok(Console {
            start,
            names,
            notes,
            terminal: matches.get_flag("terminal"),
        })
    }
}

/// Returns the `--listing` option.
fn listing_option<'a>(alloc: Global) -> Arg<'a> {
    Arg::new(alloc, "listing")
        .long("listing")
        .value_name("FILE")
        .help("Show source lines, behind #, from this listing: that of weave --write-listing")
}

/// Returns the `--quantities` option.
fn quantities_option<'a>(alloc: Global) -> Arg<'a> {
    Arg::new(alloc, "quantities")
        .long("quantities")
        .value_name("FILE")
        .help(
            "Show what printed cells are worth, by this file of quantities, and print them by name",
        )
}

/// Returns the `--nouns` option.
fn nouns_option<'a>(alloc: Global) -> Arg<'a> {
    Arg::new(alloc, "nouns")
        .long("nouns")
        .value_name("FILE")
        .help("Say behind the panel what it shows, by this file of verbs and nouns")
}

/// Returns the `--terminal` option.
fn terminal_option<'a>(alloc: Global) -> Arg<'a> {
    Arg::new(alloc, "terminal")
        .long("terminal")
        .action(ArgAction::SetTrue)
        .help("Answer as at a terminal, even in a pipe")
}
