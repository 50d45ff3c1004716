//! Parses the words of a command line into the arguments of a subcommand.
use crate::command_line::command;
use crate::jobs::jobs_args;
use crate::merge::merge_args;
use crate::profile::profile_args;
use crate::restore::{convert_args, first_bank_of, patch_args, repair_args, sums_args, words_args};
use crate::runs::{files_of, options_of, other_files_of, other_form_of};
use crate::sample::sample_args;
use crate::shown::{shown_of, with_right_form};
use crate::telemetry::{downlink_args, uplink_args};
use crate::values::{channel_names_of, channels_of, mistake, orders_of, span_of, texts_of};
use agc_cli::{ArgsFault, form_of, mistake_of, path_of, text_of};
use agc_load::RunFiles;
use agc_study_args::{
    Args, CheckArgs, CompareArgs, FilmArgs, ListArgs, ListStyle, NAME, OperationsArgs, ReportArgs,
    TraceArgs, WeaveArgs,
};
use agc_trace::{Notation, Only, Selection, Span};
use clap::{ArgMatches, Command};
use std::alloc::{AllocError, Global};
use std::rt::Env;

/// The command line of the program, with the arguments of a subcommand.
#[derive(Drop)]
struct CommandLine {
    args: Args,
}

impl agc_cli::Args for CommandLine {
    const NAME: &'static str = NAME;

    fn command<'a>(alloc: Global) -> Result<Command<'a>, AllocError> {
        command(alloc)
    }

    fn from_matches(alloc: Global, matches: &ArgMatches<'_>) -> Result<CommandLine, ArgsFault> {
        let args = args_in(alloc, matches)?;
        Ok(CommandLine { args })
    }

    fn parse<'a>(alloc: Global, words: &'a [&'a str]) -> Result<CommandLine, ArgsFault> {
        match command(alloc)?.try_get_matches_from(words) {
            Ok(matches) => agc_cli::Args::from_matches(alloc, &matches),
            Err(error) => Err(with_right_form(alloc, words, mistake_of(alloc, &error))),
        }
    }
}

/// Parses the command line of the process.
pub fn parse_env<R: Env + AllocGlobal>(rt: &R) -> Result<Args, ArgsFault> {
    args_of_line(agc_cli::parse_env(rt))
}

/// Parses the words of a command line; the first word is the program name.
pub fn parse<'a>(alloc: Global, words: &'a [&'a str]) -> Result<Args, ArgsFault> {
    args_of_line(<CommandLine as agc_cli::Args>::parse(alloc, words))
}

fn args_of_line(line: Result<CommandLine, ArgsFault>) -> Result<Args, ArgsFault> {
    Ok(line?.args)
}

fn args_in(alloc: Global, matches: &ArgMatches<'_>) -> Result<Args, ArgsFault> {
    match matches.subcommand() {
        Some((name, given)) => args_of(alloc, name, given),
        None => Err(mistake(alloc, "error: a subcommand is required: see --help\n")),
    }
}

/// Parses the arguments of the subcommand with this name.
fn args_of(alloc: Global, name: &str, given: &ArgMatches<'_>) -> Result<Args, ArgsFault> {
    match name {
        "list" => list_args(alloc, given),
        "weave" => weave_args(alloc, given),
        "check" => check_args(alloc, given),
        "trace" => trace_args(alloc, given),
        "profile" => profile_args(alloc, given),
        "jobs" => jobs_args(alloc, given),
        "sample" => sample_args(alloc, given),
        "downlink" => downlink_args(alloc, given),
        "uplink" => uplink_args(alloc, given),
        "compare" => compare_args(alloc, given),
        "film" => film_args(alloc, given),
        "convert" => convert_args(alloc, given),
        "repair" => repair_args(alloc, given),
        "patch" => patch_args(alloc, given),
        "sums" => sums_args(alloc, given),
        "merge" => merge_args(alloc, given),
        _ => Err(mistake(alloc, "error: no such subcommand: see --help\n")),
    }
}

fn list_args(alloc: Global, given: &ArgMatches<'_>) -> Result<Args, ArgsFault> {
    let interpretive = texts_of(alloc, given, "interpretive")?;
    let follow = text_of(alloc, given, "follow")?;
    check_words_alone(alloc, given, !interpretive.is_empty(), follow.is_some())?;
    Ok(Args::List(ListArgs {
        rope: path_of(alloc, given, "rope")?,
        form: form_of(given),
        bank: text_of(alloc, given, "bank")?,
        names: text_of(alloc, given, "names")?,
        style: style_of(given),
        ignores_parity: given.get_flag("ignore-parity"),
        shows_zeros: given.get_flag("all"),
        first_bank: first_bank_of(alloc, given)?,
        interpretive,
        follow,
    }))
}

/// Refuses an option that prints its words alone beside one that prints other words or another style.
fn check_words_alone(
    alloc: Global,
    given: &ArgMatches<'_>,
    is_interpretive: bool,
    is_followed: bool,
) -> Result<(), ArgsFault> {
    if is_followed && (is_interpretive || has_other_style(given)) {
        return Err(mistake(
            alloc,
            "error: --follow prints its words alone, without --interpretive, --bank, --all, --source and --style\n",
        ));
    }
    if is_interpretive && has_other_style(given) {
        return Err(mistake(
            alloc,
            "error: --interpretive prints its words alone, without --bank, --all, --source and --style\n",
        ));
    }
    Ok(())
}

/// Returns whether other words, or another style, are asked for.
fn has_other_style(given: &ArgMatches<'_>) -> bool {
    given.get_str("bank").is_some()
        || given.get_str("style").is_some()
        || given.get_flag("source")
        || given.get_flag("all")
}

fn style_of(given: &ArgMatches<'_>) -> ListStyle {
    if given.get_str("style").is_some() {
        ListStyle::Yul
    } else if given.get_flag("source") {
        ListStyle::Source
    } else {
        ListStyle::Lines
    }
}

fn weave_args(alloc: Global, given: &ArgMatches<'_>) -> Result<Args, ArgsFault> {
    let write_names = text_of(alloc, given, "write-names")?;
    let write_listing = text_of(alloc, given, "write-listing")?;
    let force = given.get_flag("force");
    if force && write_names.is_none() && write_listing.is_none() {
        return Err(mistake(
            alloc,
            "error: --force needs --write-names or --write-listing\n\nFor more information, try '--help'.\n",
        ));
    }
    Ok(Args::Weave(WeaveArgs {
        text: path_of(alloc, given, "text")?,
        form: form_of(given),
        write_names,
        write_listing,
        force,
        adds_sums: given.get_flag("sums"),
    }))
}

fn check_args(alloc: Global, given: &ArgMatches<'_>) -> Result<Args, ArgsFault> {
    let keys = text_of(alloc, given, "keys")?;
    let listing = text_of(alloc, given, "listing")?;
    let (mut run, mut rope) = (None, None);
    if given.get_str("script").is_some() {
        run = Some(files_of(alloc, given)?);
    } else {
        rope = text_of(alloc, given, "rope")?;
    }
    if run.is_none() && rope.is_none() && keys.is_none() && listing.is_none() {
        return Err(mistake(
            alloc,
            "error: nothing to check: give ROPE, ROPE SCRIPT, --keys FILE or --listing FILE\n",
        ));
    }
    Ok(Args::Check(CheckArgs {
        run,
        rope,
        keys,
        listing,
        form: form_of(given),
        first_bank: first_bank_of(alloc, given)?,
        report: report_of(alloc, given)?,
    }))
}

/// Parses `--report` and what belongs to it.
fn report_of(alloc: Global, given: &ArgMatches<'_>) -> Result<Option<ReportArgs>, ArgsFault> {
    let Some(page) = text_of(alloc, given, "report")? else {
        return Ok(None);
    };
    Ok(Some(ReportArgs {
        page,
        beside: text_of(alloc, given, "beside")?,
        other_form: other_form_of(given),
    }))
}

fn trace_args(alloc: Global, given: &ArgMatches<'_>) -> Result<Args, ArgsFault> {
    if let Some(interpreter) = text_of(alloc, given, "interpretive")? {
        return Ok(Args::Operations(OperationsArgs {
            files: files_of(alloc, given)?,
            options: options_of(alloc, given)?,
            interpreter,
            span: span_of(alloc, given)?,
            names: text_of(alloc, given, "names")?,
        }));
    }
    Ok(Args::Trace(TraceArgs {
        files: files_of(alloc, given)?,
        options: options_of(alloc, given)?,
        selection: selection_of(alloc, given)?,
        at: texts_of(alloc, given, "at")?,
        cell: texts_of(alloc, given, "cell")?,
        channel: channel_names_of(alloc, given)?,
        names: text_of(alloc, given, "names")?,
        operands: operands_of(given),
    }))
}

/// Parses how what operands held is printed.
fn operands_of(given: &ArgMatches<'_>) -> Option<Notation> {
    if !given.get_flag("operands") {
        return None;
    }
    if given.get_flag("decimal") {
        Some(Notation::Decimal)
    } else {
        Some(Notation::Octal)
    }
}

/// Parses which lines of a trace are printed; `--at` and `--cell` are parsed later, with the symbol file.
fn selection_of(alloc: Global, given: &ArgMatches<'_>) -> Result<Selection, ArgsFault> {
    let Span { from, to } = span_of(alloc, given)?;
    Ok(Selection {
        from,
        to,
        only: only_of(given),
        places: Vec::new(alloc),
        orders: orders_of(alloc, given)?,
        channels: channels_of(alloc, given)?,
        cells: Vec::new(alloc),
        last: given.get_one::<u64>("last"),
    })
}

fn compare_args(alloc: Global, given: &ArgMatches<'_>) -> Result<Args, ArgsFault> {
    if let Some(words) = words_args(alloc, given)? {
        return Ok(words);
    }
    let other_names = other_names_of(alloc, given)?;
    Ok(Args::Compare(CompareArgs {
        files: files_of(alloc, given)?,
        other: other_files_of(alloc, given)?,
        options: options_of(alloc, given)?,
        other_form: other_form_of(given),
        shown: shown_of(alloc, given)?,
        names: text_of(alloc, given, "names")?,
        other_names,
    }))
}

/// Parses the symbol file of the right run, if it has its own.
fn other_names_of(alloc: Global, given: &ArgMatches<'_>) -> Result<Option<String>, ArgsFault> {
    match given.get_strs("names") {
        None | Some([_]) => Ok(None),
        Some([_, right]) => Ok(Some(String::from_str(alloc, right)?)),
        Some(_) => Err(mistake(
            alloc,
            "error: too many --names: compare takes one for both runs, or one for each\n",
        )),
    }
}

fn film_args(alloc: Global, given: &ArgMatches<'_>) -> Result<Args, ArgsFault> {
    Ok(Args::Film(FilmArgs {
        files: files_of(alloc, given)?,
        other: other_run_of(alloc, given)?,
        options: options_of(alloc, given)?,
        part: span_of(alloc, given)?,
        watch: text_of(alloc, given, "watch")?,
        names: text_of(alloc, given, "names")?,
        nouns: text_of(alloc, given, "nouns")?,
        samples: text_of(alloc, given, "samples")?,
    }))
}

/// Parses the files of the other run; both are present or neither is.
fn other_run_of(alloc: Global, given: &ArgMatches<'_>) -> Result<Option<RunFiles>, ArgsFault> {
    match (given.get_str("other-rope"), given.get_str("other-script")) {
        (Some(_), Some(_)) => Ok(Some(other_files_of(alloc, given)?)),
        (None, None) => Ok(None),
        (Some(_), None) | (None, Some(_)) => Err(mistake(
            alloc,
            "error: the second ROPE needs a SCRIPT after it\n",
        )),
    }
}

fn only_of(given: &ArgMatches<'_>) -> Option<Only> {
    match given.get_str("only")? {
        "writes" => Some(Only::Writes),
        "interrupts" => Some(Only::Interrupts),
        _ => Some(Only::Jumps),
    }
}
