//! The command lines of the subcommands that restore ropes.
use crate::parameter::{Count, FILE, FLAG, NUMBER, Parameter, Subcommand, VALUE, add};
use crate::shared::{FIRST_BANK, FORM, IGNORE_PARITY, OTHER_FORM, ROPE};
use clap::Command;
use std::alloc::{AllocError, Global};

/// A layout of a rope file.
const READING: Parameter = Parameter {
    id: "form",
    shown: "FORM",
    help: "Layout of the rope file: classic and plain have no parity bit, first is before the word",
    default: "classic",
    values: &[
        "classic",
        "parity",
        "plain",
        "classic-parity",
        "parity-first",
        "classic-parity-first",
    ],
    ..VALUE
};

/// A text of numbers in the place of a rope file.
const RADIX: Parameter = Parameter {
    shown: "RADIX",
    values: &["octal", "hex"],
    ..VALUE
};

const BANKS: Parameter = Parameter {
    id: "banks",
    shown: "LIST",
    ..VALUE
};

const MODULE: Parameter = Parameter {
    id: "module",
    shown: "N",
    help: "As --banks with the six banks of a module, 1 to 6: module 1 has 00-05, module 6 36-43",
    ..VALUE
};

static CONVERT: Subcommand = Subcommand {
    name: "convert",
    about: "Converts a rope file to another layout, on standard output.",
    example: "Example:\n  agc-study convert examples/verbs/rope --to parity > rope",
    parameters: &[
        ROPE,
        READING,
        Parameter {
            id: "to",
            help: "Layout of the result",
            ..READING
        },
        Parameter {
            id: "from-text",
            help: "ROPE is a text of numbers, one for each word; lines may begin with addresses, and # or ; begins a comment",
            ..RADIX
        },
        Parameter {
            id: "to-text",
            help: "Write a text of numbers, a line for eight words",
            ..RADIX
        },
        Parameter {
            id: "swap",
            help: "Exchange the two bytes of each word first",
            ..FLAG
        },
        Parameter {
            id: "bits",
            shown: "CHANGE",
            help: "Undo this change of the bits of each word first: word-inverted leaves the parity bit",
            values: &["inverted", "word-inverted", "reversed"],
            ..VALUE
        },
        Parameter {
            id: "moved",
            shown: "WHERE",
            help: "All words of the file are one place on, or back: put them into their places first",
            values: &["on", "back"],
            ..VALUE
        },
        FIRST_BANK,
        Parameter {
            help: "Write only these banks, in this order: octal, as 06-13,15; xx is a bank without words",
            ..BANKS
        },
        MODULE,
        IGNORE_PARITY,
        Parameter {
            id: "all",
            help: "Print all words whose parity bits were made right, not only twenty",
            ..FLAG
        },
    ],
};

static REPAIR: Subcommand = Subcommand {
    name: "repair",
    about: "Prints the repairs by one bit of each word with wrong parity, in a rope file with parity, as a patch.",
    example: "Example:\n  agc-study repair image --most 1 > repairs",
    parameters: &[
        ROPE,
        Parameter {
            id: "most",
            shown: "N",
            help: "Print at most N repairs of each word: decimal, from 0; 16 if left out",
            ..NUMBER
        },
        Parameter {
            id: "stuck",
            help: "Print only the repairs of words where a bit is stuck, by that bit, as check finds them",
            excludes: &["most"],
            ..FLAG
        },
        Parameter {
            id: "form",
            help: "Layout of the rope file: only parity, also if no parity bit is 1",
            ..OTHER_FORM
        },
        FIRST_BANK,
    ],
};

static PATCH: Subcommand = Subcommand {
    name: "patch",
    about: "Puts words into a rope file, and writes it to standard output.",
    example: "Example:\n  agc-study patch image repairs --form parity > rope",
    parameters: &[
        ROPE,
        Parameter {
            id: "patch",
            shown: "PATCH",
            help: "Text file of words: a line for each, PLACE WORD; # starts a comment. With --banks a rope file",
            unless: "sum",
            ..FILE
        },
        Parameter {
            id: "sum",
            shown: "BB",
            help: "Make the sum of this bank its number, by its last word: octal, 00 to 43; repeatable",
            is_repeated: true,
            ..VALUE
        },
        Parameter {
            help: "PATCH is a rope file of these banks, in this order, and their words replace those of ROPE",
            ..BANKS
        },
        MODULE,
        FORM,
    ],
};

static SUMS: Subcommand = Subcommand {
    name: "sums",
    about: "Prints the sum of each bank of a rope and, if it is wrong, the word that makes it right.",
    example: "Example:\n  agc-study sums image --form parity",
    parameters: &[ROPE, FORM, FIRST_BANK],
};

static MERGE: Subcommand = Subcommand {
    name: "merge",
    about: "Merges two to sixteen dumps of a rope into one file in the form parity, word by word.",
    example: "Example:\n  agc-study merge --form parity one.bin two.bin > rope",
    parameters: &[
        Parameter {
            id: "dump",
            shown: "DUMP",
            help: "Two to sixteen dumps; --form, --bits and --first-bank apply to the dumps after them",
            count: Count::Many,
            is_repeated: true,
            is_required: true,
            ..FILE
        },
        Parameter {
            id: "form",
            shown: "FORM",
            help: "Layout of the next dumps; classic if left out; swapped: the two bytes of each word",
            values: &[
                "classic",
                "parity",
                "plain",
                "classic-parity",
                "parity-first",
                "classic-parity-first",
                "classic-swapped",
                "parity-swapped",
                "plain-swapped",
                "classic-parity-swapped",
                "parity-first-swapped",
                "classic-parity-first-swapped",
            ],
            is_repeated: true,
            ..VALUE
        },
        Parameter {
            id: "bits",
            shown: "CHANGE",
            help: "Undo this change of the bits of each word of the next dumps; none if left out",
            values: &["none", "inverted", "word-inverted", "reversed"],
            is_repeated: true,
            ..VALUE
        },
        Parameter {
            id: "first-bank",
            shown: "BB",
            help: "Bank of the first word of the next dumps, if they are some modules: octal, 00 to 43",
            is_repeated: true,
            ..VALUE
        },
        Parameter {
            id: "accept",
            help: "Write the rope although words are undecided: each is the first one that may be right",
            ..FLAG
        },
    ],
};

/// Adds these subcommands in the order of the help.
pub(crate) fn add_restore_commands<'a>(
    alloc: Global,
    commands: &mut Vec<Command<'a>>,
) -> Result<(), AllocError> {
    add(alloc, commands, &CONVERT)?;
    add(alloc, commands, &REPAIR)?;
    add(alloc, commands, &PATCH)?;
    add(alloc, commands, &SUMS)?;
    add(alloc, commands, &MERGE)
}
