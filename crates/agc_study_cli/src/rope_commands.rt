//! The command lines of `list`, `weave` and `check`.
use crate::parameter::{FILE, FLAG, Parameter, Subcommand, VALUE, add};
use crate::shared::{FIRST_BANK, FORM, IGNORE_PARITY, NAMES, OTHER_FORM, ROPE, SCRIPT};
use clap::Command;
use std::alloc::{AllocError, Global};

static LIST: Subcommand = Subcommand {
    name: "list",
    about: "Disassembles a rope: prints each word that is not +0 as an order.",
    example: "Example:\n  agc-study list examples/prog12/rope --bank 02",
    parameters: &[
        ROPE,
        FORM,
        Parameter {
            id: "bank",
            shown: "BB",
            help: "List only this bank: octal, 00 to 43",
            ..VALUE
        },
        Parameter {
            help: "Show names of places from this file: a line for each, PLACE NAME, or a source NAME.agc",
            ..NAMES
        },
        Parameter {
            id: "source",
            help: "Print a source, without places and words, that weave turns back into the rope",
            excludes: &["names"],
            ..FLAG
        },
        Parameter {
            id: "style",
            shown: "STYLE",
            help: "Print a page in the language of the flight listings, with names in the first column",
            values: &["yul"],
            excludes: &["source"],
            ..VALUE
        },
        Parameter {
            id: "all",
            help: "Print words that hold +0 too: in the form with parity those that have a parity bit",
            excludes: &["names", "source", "style"],
            ..FLAG
        },
        Parameter {
            id: "interpretive",
            shown: "PLACES",
            help: "Print only these words, as interpretive code: 05,2071-05,2107, names, or @FILE with one a line; repeatable",
            is_repeated: true,
            ..VALUE
        },
        Parameter {
            id: "follow",
            shown: "PLACE",
            help: "Print only the interpretive code behind each TC to this place, 4000 to 7777, or to a name",
            ..VALUE
        },
        FIRST_BANK,
        IGNORE_PARITY,
    ],
};

static WEAVE: Subcommand = Subcommand {
    name: "weave",
    about: "Assembles a source, or a text as list prints it, into a rope file on standard output.",
    example: "Example:\n  agc-study weave program.agc --write-names names > rope",
    parameters: &[
        Parameter {
            id: "text",
            shown: "FILE",
            help: "Source, or text as list prints it; # starts a comment",
            is_required: true,
            ..FILE
        },
        FORM,
        Parameter {
            id: "write-names",
            shown: "FILE",
            help: "Write the names of the source to this new file, for --names of other subcommands",
            ..VALUE
        },
        Parameter {
            id: "write-listing",
            shown: "FILE",
            help: "Write the source's lines with their places and words to this new file, which weave reads",
            ..VALUE
        },
        Parameter {
            id: "force",
            help: "Let --write-names and --write-listing replace existing files, except the source itself",
            ..FLAG
        },
        Parameter {
            id: "sums",
            help: "End each bank with TC SELF twice and the word that makes its sum right",
            ..FLAG
        },
    ],
};

static CHECK: Subcommand = Subcommand {
    name: "check",
    about: "Reports what is wrong with a rope and a script, with live keys, or with the text of a rope.",
    example: "Example:\n  agc-study check examples/keys/rope examples/keys/script",
    parameters: &[
        Parameter {
            is_required: false,
            ..ROPE
        },
        Parameter {
            is_required: false,
            ..SCRIPT
        },
        Parameter {
            id: "keys",
            shown: "FILE",
            help: "Check this file of live keys, as agc --live reads it: at most 65536 bytes",
            ..VALUE
        },
        Parameter {
            id: "listing",
            shown: "FILE",
            help: "Check this text of a rope, as weave reads it: at most 16777216 bytes",
            ..VALUE
        },
        FORM,
        Parameter {
            needs: "rope",
            excludes: &["script"],
            ..FIRST_BANK
        },
        Parameter {
            id: "report",
            shown: "NEW",
            help: "Write a web page to this new file too: the rope as a map, bad words, sums, patterns of damage",
            needs: "rope",
            excludes: &["script"],
            ..VALUE
        },
        Parameter {
            id: "beside",
            shown: "ROPE",
            help: "With --report, show this rope on the page too, and the words that differ",
            needs: "report",
            ..VALUE
        },
        Parameter {
            help: "Layout of the rope of --beside, if it is another",
            needs: "beside",
            ..OTHER_FORM
        },
    ],
};

/// Adds these subcommands in the order of the help.
pub(crate) fn add_rope_commands<'a>(
    alloc: Global,
    commands: &mut Vec<Command<'a>>,
) -> Result<(), AllocError> {
    add(alloc, commands, &LIST)?;
    add(alloc, commands, &WEAVE)?;
    add(alloc, commands, &CHECK)
}
