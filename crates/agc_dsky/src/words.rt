//! The command-line arguments of `agc-dsky`.
use agc_cli::{Args, ArgsFault, names_option, script_file, text_of, watch_option, with_parameter};
use agc_session::{SessionArgs, session_args, with_session_args};
use agc_tui::Speed;
use clap::{Arg, ArgAction, ArgMatches, Command};
use std::alloc::{AllocError, Global};

/// The arguments of the program.
#[derive(Debug, Drop)]
pub struct Dsky {
    pub start: SessionArgs,
    pub speed: Speed,
    /// The path of the file that the script is saved to, if there is one.
    pub save: Option<String>,
    /// Whether an existing file is overwritten.
    pub force: bool,
    /// The places of the Executive's tables, which `t` shows.
    pub watch: Option<String>,
    /// The path of the symbol file, if there is one.
    pub names: Option<String>,
    /// The path of the listing whose lines the inspector shows, if there is one.
    pub listing: Option<String>,
}

/// The names of the speeds.
const SPEEDS: [&str; 7] = ["1/100", "1/10", "1", "10", "100", "1000", "max"];

impl Args for Dsky {
    const NAME: &'static str = "agc-dsky";

    fn command<'a>(alloc: Global) -> Result<Command<'a>, AllocError> {
        let command = Command::new(alloc, Dsky::NAME)
            .about(
                "Shows the DSKY of an emulated Block II computer in this terminal, with keys to type.",
            )
            .after_help("Example: agc-dsky examples/verbs/rope --save my.script");
        let command = with_session_args(alloc, command, script_file(alloc).required(false))?;
        let command = with_parameter(command, speed_option(alloc))?;
        let command = with_parameter(command, save_option(alloc))?;
        let command = with_parameter(command, watch_option(alloc))?;
        let names = names_option(alloc).help(
            "Show names of places for i from this file: a line for each, PLACE NAME",
        );
        let command = with_parameter(command, names)?;
        let command = with_parameter(command, listing_option(alloc))?;
        with_parameter(command, force_option(alloc))
    }

    fn from_matches(alloc: Global, matches: &ArgMatches<'_>) -> Result<Dsky, ArgsFault> {
        Ok(Dsky {
            start: session_args(alloc, matches)?,
            speed: speed_of(matches),
            save: text_of(alloc, matches, "save")?,
            force: matches.get_flag("force"),
            watch: text_of(alloc, matches, "watch")?,
            names: text_of(alloc, matches, "names")?,
            listing: text_of(alloc, matches, "listing")?,
        })
    }
}

fn speed_of(matches: &ArgMatches<'_>) -> Speed {
    match matches.get_str("speed") {
        Some(name) => Speed::from_name(name).unwrap_or(Speed::Real),
        None => Speed::Real,
    }
}

fn speed_option<'a>(alloc: Global) -> Arg<'a> {
    Arg::new(alloc, "speed")
        .long("speed")
        .value_name("SPEED")
        .default_value("1")
        .value_parser(SPEEDS.as_slice())
        .help("Speed at the start: a multiple of the hardware's, or max")
}

fn save_option<'a>(alloc: Global) -> Arg<'a> {
    Arg::new(alloc, "save").long("save").value_name("FILE").help(
        "Save the script of the session to this new file, at the end and when you type s",
    )
}

fn listing_option<'a>(alloc: Global) -> Arg<'a> {
    Arg::new(alloc, "listing")
        .long("listing")
        .value_name("FILE")
        .help("Show source lines for i, behind #, from this listing: that of weave --write-listing")
}

fn force_option<'a>(alloc: Global) -> Arg<'a> {
    Arg::new(alloc, "force")
        .long("force")
        .action(ArgAction::SetTrue)
        .help("Overwrite the file after --save, whatever is in it")
}
