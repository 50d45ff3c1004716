//! Builds the `clap` command: the files and the options of `agc`.
ghost use Rattle.std.specs.Prelude.{◌≡◌, ◌∷◌, [], false, IfOk, codes, fold};
ghost use Rattle.clap.specs.Words.{Rule, app_of, rule_of, with_rule};
ghost use Rattle.agc_cli.specs.Parameters.{IsFormOption, flag_option, number_option};
ghost use Rattle.agc_cli.specs.ParseArgs.{IsCommandLine, display_parameters, live_parameters};
ghost use Rattle.agc_cli.specs.ParseArgs.{layout_parameters, run_parameters};

use crate::parameters::{
    form_option, limit_option, rope_file, script_file, until_option, watch_option, with_parameter,
};
use clap::{Arg, ArgAction, Command, value_parser};
use std::alloc::{AllocError, Global};

/// Builds the command. Its parameters are added a few at a time, because a long chain takes the prover minutes.
pub(crate) fn command<'a>(alloc: Global) -> Result<Command<'a>, AllocError>
    ensures { IfOk result (λ command. IsCommandLine (app_of command)) }
{
    let command = Command::new(alloc, "agc").about(
        "Runs a rope on an emulated Block II computer and prints its display. If a rope or a script is refused, agc-study check explains why.",
    );
    let command = with_run(alloc, command)?;
    let command = with_display(alloc, command)?;
    let command = with_layout(alloc, command)?;
    with_live(alloc, command)
}

/// Adds the files of a run and its limit.
fn with_run<'a>(alloc: Global, command: Command<'a>) -> Result<Command<'a>, AllocError>
    ensures { IfOk result (λ new. app_of new ≡ fold with_rule (app_of command.entry) run_parameters) }
{
    let command = with_parameter(command, rope_file(alloc))?;
    let command = with_parameter(command, script_file(alloc))?;
    with_parameter(command, limit_option(alloc))
}

/// Adds what is printed of a run, and the slots of the ring.
fn with_display<'a>(alloc: Global, command: Command<'a>) -> Result<Command<'a>, AllocError>
    ensures { IfOk result (λ new. app_of new ≡ fold with_rule (app_of command.entry) display_parameters) }
{
    let command = with_parameter(command, slots_option(alloc))?;
    let command = with_parameter(command, watch_option(alloc))?;
    with_parameter(command, log_option(alloc))
}

/// Adds the layout of the rope, and the order before which a run stops.
fn with_layout<'a>(alloc: Global, command: Command<'a>) -> Result<Command<'a>, AllocError>
    ensures { IfOk result (λ new. (form : Rule) × IsFormOption form
        × (app_of new ≡ fold with_rule (app_of command.entry) (layout_parameters form))) }
{
    let command = with_parameter(command, form_option(alloc))?;
    with_parameter(command, until_option(alloc))
}

/// Adds the options of live keys.
fn with_live<'a>(alloc: Global, command: Command<'a>) -> Result<Command<'a>, AllocError>
    ensures { IfOk result (λ new. app_of new ≡ fold with_rule (app_of command.entry) live_parameters) }
{
    let command = with_parameter(command, live_option(alloc))?;
    with_parameter(command, spacing_option(alloc))
}

fn slots_option<'a>(alloc: Global) -> Arg<'a>
    ensures rule { rule_of result
        ≡ record (number_option (codes "slots")) { defaults = codes "256" ∷ [] } }
    ensures local { result.global ≡ false }
{
    Arg::new(alloc, "slots")
        .long("slots")
        .value_name("N")
        .default_value("256")
        .value_parser(value_parser!(usize))
        .help("The most channel writes that wait for the display: decimal, 1 to 65536")
}

fn log_option<'a>(alloc: Global) -> Arg<'a>
    ensures rule { rule_of result ≡ flag_option (codes "log") }
    ensures local { result.global ≡ false }
{
    Arg::new(alloc, "log")
        .long("log")
        .action(ArgAction::SetTrue)
        .help("Print each channel write: cycle (decimal), channel and value (octal)")
}

fn live_option<'a>(alloc: Global) -> Arg<'a>
    ensures rule { rule_of result ≡ flag_option (codes "live") }
    ensures local { result.global ≡ false }
{
    Arg::new(alloc, "live")
        .long("live")
        .action(ArgAction::SetTrue)
        .help(
            "Press the keys named on standard input while it runs; print which were taken, and when",
        )
}

fn spacing_option<'a>(alloc: Global) -> Arg<'a>
    ensures rule { rule_of result
        ≡ record (number_option (codes "spacing")) { defaults = codes "8533" ∷ [] } }
    ensures local { result.global ≡ false }
{
    Arg::new(alloc, "spacing")
        .long("spacing")
        .value_name("N")
        .default_value("8533")
        .value_parser(value_parser!(u64))
        .help("The fewest machine cycles between two live keys: decimal, from 1")
}
