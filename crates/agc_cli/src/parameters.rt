//! The files and the options that the programs' command lines share.
ghost use Rattle.std.specs.Prelude.{◌≡◌, true, false, IfOk, codes};
ghost use Rattle.clap.specs.Words.{app_of, rule_of, with_rule};
ghost use Rattle.agc_cli.specs.Parameters.{IsFormOption, file_parameter, number_option, value_option};

use clap::{Arg, Command, value_parser};
use std::alloc::{AllocError, Global};

/// The names of the two forms of a rope file.
pub static FORMS: [&str; 2] = ["classic", "parity"];

/// Adds a parameter to a command. Deliberately weak contract: clap's full one would be carried through every later
/// call.
pub fn with_parameter<'a>(
    command: Command<'a>,
    parameter: Arg<'a>,
) -> Result<Command<'a>, AllocError>
    ensures { IfOk result (λ new. parameter.entry.global ≡ false
        → app_of new ≡ with_rule (app_of command.entry) (rule_of parameter.entry)) }
{
    command.arg(parameter)
}

/// Returns the argument for the rope file.
pub fn rope_file<'a>(alloc: Global) -> Arg<'a>
    ensures rule { rule_of result ≡ file_parameter (codes "rope") }
    ensures local { result.global ≡ false }
{
    Arg::new(alloc, "rope")
        .value_name("ROPE")
        .required(true)
        .help("Rope file: 16-bit words, the high byte first; - names a file, not standard input")
}

/// Returns the argument for the script file.
pub fn script_file<'a>(alloc: Global) -> Arg<'a>
    ensures rule { rule_of result ≡ file_parameter (codes "script") }
    ensures local { result.global ≡ false }
{
    Arg::new(alloc, "script")
        .value_name("SCRIPT")
        .required(true)
        .help("Script file: a line for each event, in order of their machine cycles")
}

/// Returns the option for the cycle at which a run ends at the latest.
pub fn limit_option<'a>(alloc: Global) -> Arg<'a>
    ensures rule { rule_of result ≡ record (number_option (codes "limit")) { required = true } }
    ensures local { result.global ≡ false }
{
    Arg::new(alloc, "limit")
        .long("limit")
        .value_name("N")
        .required(true)
        .value_parser(value_parser!(u64))
        .help("Stop at this machine cycle (85,333 a second): decimal, 1 to 1000000000000")
}

/// Returns the option for the form of the rope file.
pub fn form_option<'a>(alloc: Global) -> Arg<'a>
    ensures rule { IsFormOption (rule_of result) }
    ensures local { result.global ≡ false }
{
    Arg::new(alloc, "form")
        .long("form")
        .value_name("FORM")
        .default_value("classic")
        .value_parser(FORMS.as_slice())
        .help(
            "Layout of the rope file: octal banks 2, 3, 0, 1, 4 to 43, or 0 to 43 with odd parity",
        )
}

/// Returns the option for the Executive's tables.
pub fn watch_option<'a>(alloc: Global) -> Arg<'a>
    ensures rule { rule_of result ≡ value_option (codes "watch") }
    ensures local { result.global ≡ false }
{
    Arg::new(alloc, "watch")
        .long("watch")
        .value_name("SPEC")
        .help(
            "Tables, octal: CORE_BANK,OFFSET,SETS,LST1_BANK,OFFSET,LST2_BANK,OFFSET (0-7,0-377,0-20)",
        )
}

/// Returns the option for the order before which a run stops.
pub fn until_option<'a>(alloc: Global) -> Arg<'a>
    ensures rule { rule_of result ≡ value_option (codes "until") }
    ensures local { result.global ≡ false }
{
    Arg::new(alloc, "until")
        .long("until")
        .value_name("BANK,ADDR")
        .help("Stop before the order at this address runs: octal, BANK 0 to 47, ADDR 0 to 7777")
}

/// Returns the option for a symbol file.
pub fn names_option<'a>(alloc: Global) -> Arg<'a> {
    Arg::new(alloc, "names")
        .long("names")
        .value_name("FILE")
        .help("Show names from this file (a line for each, PLACE NAME), and accept them as places")
}
