//! The parameters of a subcommand as a table, and the `clap` command that it makes.
use agc_cli::{
    form_option, limit_option, names_option, rope_file, script_file, until_option, watch_option,
};
use clap::{Arg, ArgAction, Command, value_parser};
use std::alloc::{AllocError, Global};

/// A subcommand: its name, what it does, an example for its help, and its parameters in the order of the help.
pub(crate) struct Subcommand {
    pub name: &'static str,
    pub about: &'static str,
    pub example: &'static str,
    pub parameters: &'static [Parameter],
}

/// What kind of parameter it is. The first seven are those of `agc`, whose help stays if a table has none.
pub(crate) enum Kind {
    Rope,
    Script,
    Limit,
    Form,
    Watch,
    Until,
    Names,
    /// A word without an option's name.
    File,
    /// An option with a value.
    Value,
    /// An option with a decimal number.
    Number,
    /// An option without a value.
    Flag,
}

/// How many words a parameter takes each time.
pub(crate) enum Count {
    One,
    Two,
    /// One or more.
    Many,
}

/// A parameter. What is empty is left as `clap` has it.
pub(crate) struct Parameter {
    pub kind: Kind,
    pub id: &'static str,
    /// The option's name, if it is another than `id`.
    pub long: &'static str,
    /// How help shows the value.
    pub shown: &'static str,
    pub help: &'static str,
    /// The values that it accepts; empty: any.
    pub values: &'static [&'static str],
    pub default: &'static str,
    pub count: Count,
    pub is_repeated: bool,
    pub is_required: bool,
    /// It is required unless this one is there.
    pub unless: &'static str,
    /// It wants this one, too.
    pub needs: &'static str,
    pub excludes: &'static [&'static str],
}

/// An option with a value of any kind.
pub(crate) const VALUE: Parameter = Parameter {
    kind: Kind::Value,
    id: "",
    long: "",
    shown: "",
    help: "",
    values: &[],
    default: "",
    count: Count::One,
    is_repeated: false,
    is_required: false,
    unless: "",
    needs: "",
    excludes: &[],
};

pub(crate) const NUMBER: Parameter = Parameter {
    kind: Kind::Number,
    ..VALUE
};

pub(crate) const FLAG: Parameter = Parameter {
    kind: Kind::Flag,
    ..VALUE
};

pub(crate) const FILE: Parameter = Parameter {
    kind: Kind::File,
    ..VALUE
};

/// Adds the `clap` command of a subcommand.
pub(crate) fn add<'a>(
    alloc: Global,
    commands: &mut Vec<Command<'a>>,
    subcommand: &Subcommand,
) -> Result<(), AllocError> {
    commands.push(command_of(alloc, subcommand)?)?;
    Ok(())
}

/// Returns the `clap` command of a subcommand.
fn command_of<'a>(alloc: Global, subcommand: &Subcommand) -> Result<Command<'a>, AllocError> {
    let mut args = Vec::new(alloc);
    for parameter in subcommand.parameters {
        args.push(arg_of(alloc, parameter)?)?;
    }
    Command::new(alloc, subcommand.name)
        .about(subcommand.about)
        .after_help(subcommand.example)
        .args(args)
}

/// Returns the `clap` argument of a parameter.
fn arg_of<'a>(alloc: Global, of: &Parameter) -> Result<Arg<'a>, AllocError> {
    let arg = named(alloc, of).required(of.is_required);
    tied(with_values(with_help(arg, of), of), of)
}

/// Returns an argument of this kind and name.
fn named<'a>(alloc: Global, of: &Parameter) -> Arg<'a> {
    match of.kind {
        Kind::Rope => rope_file(alloc),
        Kind::Script => script_file(alloc),
        Kind::Limit => limit_option(alloc),
        Kind::Form => form_option(alloc),
        Kind::Watch => watch_option(alloc),
        Kind::Until => until_option(alloc),
        Kind::Names => names_option(alloc),
        Kind::File => Arg::new(alloc, of.id).value_name(of.shown),
        Kind::Value => option(alloc, of).value_name(of.shown),
        Kind::Number => option(alloc, of)
            .value_name(of.shown)
            .value_parser(value_parser!(u64)),
        Kind::Flag => option(alloc, of).action(ArgAction::SetTrue),
    }
}

fn option<'a>(alloc: Global, of: &Parameter) -> Arg<'a> {
    let long = if of.long.is_empty() { of.id } else { of.long };
    Arg::new(alloc, of.id).long(long)
}

fn with_help<'a>(arg: Arg<'a>, of: &Parameter) -> Arg<'a> {
    if of.help.is_empty() {
        return arg;
    }
    arg.help(of.help)
}

/// Adds which values it accepts, how many, and the one that it has if it is left out.
fn with_values<'a>(arg: Arg<'a>, of: &Parameter) -> Arg<'a> {
    let arg = match of.count {
        Count::One => arg,
        Count::Two => arg.num_args(2),
        Count::Many => arg.num_args(1..),
    };
    let arg = if of.is_repeated {
        arg.action(ArgAction::Append)
    } else {
        arg
    };
    let arg = if of.values.is_empty() {
        arg
    } else {
        arg.value_parser(of.values)
    };
    if of.default.is_empty() {
        return arg;
    }
    arg.default_value(of.default)
}

/// Ties an argument to others.
fn tied<'a>(arg: Arg<'a>, of: &Parameter) -> Result<Arg<'a>, AllocError> {
    let mut arg = arg;
    for other in of.excludes {
        arg = arg.conflicts_with(*other)?;
    }
    if !of.needs.is_empty() {
        arg = arg.requires_arg(of.needs)?;
    }
    if !of.unless.is_empty() {
        arg = arg.required_unless_present(of.unless)?;
    }
    Ok(arg)
}
