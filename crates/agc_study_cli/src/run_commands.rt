//! The command lines of the subcommands that run a rope, and of `downlink` and `uplink`.
use crate::parameter::{Count, FILE, FLAG, Kind, NUMBER, Parameter, Subcommand, VALUE, add};
use crate::shared::{
    FORM, FROM, FROM_PRINTED, LIMIT, NAMES, OTHER_FORM, ROPE, SCRIPT, SOURCE_LINES, TO, TO_PRINTED,
    UNTIL, WRONG_PARITY,
};
use clap::Command;
use std::alloc::{AllocError, Global};

static TRACE: Subcommand = Subcommand {
    name: "trace",
    about: "Runs a rope and a script, and prints a line for each order, event, timer step and interrupt.",
    example: "Example:\n  agc-study trace examples/keys/rope examples/keys/script --limit 300 --channel 10",
    parameters: &[
        ROPE,
        SCRIPT,
        LIMIT,
        FORM,
        WRONG_PARITY,
        UNTIL,
        FROM_PRINTED,
        TO_PRINTED,
        Parameter {
            id: "only",
            shown: "KIND",
            help: "Print only orders that write to channels, only interrupts and RESUMEs, or only jumps",
            values: &["writes", "interrupts", "jumps"],
            ..VALUE
        },
        Parameter {
            id: "at",
            shown: "PLACES",
            help: "Print only orders here: octal 4100, 05,2071, E3,1400 or 4100-4177, or names; repeatable",
            is_repeated: true,
            ..VALUE
        },
        Parameter {
            id: "order",
            shown: "NAME",
            help: "Print only orders of this mnemonic, in capitals; repeatable",
            is_repeated: true,
            ..VALUE
        },
        Parameter {
            id: "channel",
            shown: "CCC",
            help: "Print only orders that read or write this channel: octal, 0 to 777, or a name; repeatable",
            is_repeated: true,
            ..VALUE
        },
        Parameter {
            id: "cell",
            shown: "PLACES",
            help: "Print only changes of these cells: octal 0100, E3,1400 or 0100-0107, or names; repeatable",
            is_repeated: true,
            ..VALUE
        },
        Parameter {
            id: "last",
            shown: "N",
            help: "Print only the last N of these lines, at the end of the run: decimal, from 0",
            ..NUMBER
        },
        Parameter {
            help: "Show names from this file (a line for each, PLACE NAME, or a source NAME.agc), and accept them as places",
            ..NAMES
        },
        SOURCE_LINES,
        Parameter {
            id: "operands",
            help: "Print what the operand of an order held before it and, if that changed, after it",
            ..FLAG
        },
        Parameter {
            id: "decimal",
            help: "With --operands, print these words as signed decimal numbers; -0 is minus zero",
            needs: "operands",
            ..FLAG
        },
        Parameter {
            id: "interpretive",
            shown: "SPEC",
            help: "Print operations of the interpretive language. SPEC has the interpreter's places and cells, octal or names: NEXTOP,FETCH,OPJUMP,LOC,MODE,MPAC,PUSHLOC",
            excludes: &[
                "only", "at", "order", "channel", "cell", "last", "operands", "decimal",
            ],
            ..VALUE
        },
    ],
};

static PROFILE: Subcommand = Subcommand {
    name: "profile",
    about: "Runs a rope and a script, and prints how often each word ran and where the cycles went.",
    example: "Example:\n  agc-study profile examples/timers/rope examples/timers/script --limit 700",
    parameters: &[
        ROPE,
        SCRIPT,
        LIMIT,
        WRONG_PARITY,
        FORM,
        UNTIL,
        Parameter {
            help: "First machine cycle to count: decimal, from 0; 0 if left out",
            ..FROM
        },
        Parameter {
            help: "Last machine cycle to count: decimal, from 0; the stop if left out",
            ..TO
        },
        Parameter {
            id: "whole",
            long: "rope",
            help: "Print every word of the rope that is not +0, also those that never ran",
            ..FLAG
        },
        Parameter {
            id: "csv",
            help: "Print comma-separated values instead of columns",
            ..FLAG
        },
        Parameter {
            help: "Show names from this file (a line each, PLACE NAME, or a source NAME.agc), and sum by routine",
            ..NAMES
        },
        Parameter {
            excludes: &["csv"],
            ..SOURCE_LINES
        },
    ],
};

static JOBS: Subcommand = Subcommand {
    name: "jobs",
    about: "Runs a rope and a script, and prints each change of the Executive's tables.",
    example: "Example:\n  agc-study jobs examples/study/jobs-sets/rope examples/study/jobs-sets/script --limit 40 --watch 0,100,2,0,130,0,140",
    parameters: &[
        ROPE,
        SCRIPT,
        LIMIT,
        Parameter {
            kind: Kind::Watch,
            is_required: true,
            ..VALUE
        },
        WRONG_PARITY,
        FORM,
        UNTIL,
        FROM_PRINTED,
        TO_PRINTED,
        Parameter {
            help: "Show names of jobs and tasks from this file: a line for each, PLACE NAME, or a source NAME.agc",
            ..NAMES
        },
        Parameter {
            excludes: &["timeline"],
            ..SOURCE_LINES
        },
        Parameter {
            id: "timeline",
            shown: "NEW",
            help: "Write a web page to this new file that shows who had the processor, and print nothing",
            ..VALUE
        },
        Parameter {
            id: "mark",
            shown: "PLACES",
            help: "With --timeline, mark orders here: octal 4100, 05,2071, E3,1400 or 4100-4177, or names; repeatable",
            is_repeated: true,
            needs: "timeline",
            ..VALUE
        },
    ],
};

static SAMPLE: Subcommand = Subcommand {
    name: "sample",
    about: "Runs a rope and a script, and prints quantities of the program as a table of values over time.",
    example: "Example:\n  agc-study sample examples/study/sample-every/rope examples/study/sample-every/script --limit 30 --quantities examples/study/sample-every/quantities --every 10",
    parameters: &[
        ROPE,
        SCRIPT,
        LIMIT,
        Parameter {
            id: "quantities",
            shown: "FILE",
            help: "Quantities: a line for each, NAME PLACE KIND SCALE, and a unit; # starts a comment",
            is_required: true,
            ..VALUE
        },
        Parameter {
            id: "every",
            shown: "CYCLES",
            help: "Print a row each time that the cycle reaches a multiple of this number: decimal, from 1",
            ..NUMBER
        },
        Parameter {
            id: "at",
            shown: "PLACES",
            help: "Print a row before each order here: octal 4100, 05,2071, E3,1400 or 4100-4177, or names",
            ..VALUE
        },
        Parameter {
            id: "changes",
            help: "Print a row each time that a word of a quantity changes",
            ..FLAG
        },
        WRONG_PARITY,
        FORM,
        UNTIL,
        FROM_PRINTED,
        TO_PRINTED,
        Parameter {
            help: "Accept names from this file (a line for each, PLACE NAME, or a source NAME.agc) as places",
            ..NAMES
        },
        Parameter {
            id: "zeros",
            help: "Print zero as -0 if its first word is -0",
            ..FLAG
        },
    ],
};

static DOWNLINK: Subcommand = Subcommand {
    name: "downlink",
    about: "Prints the lists that a program sends by channels 34 and 35 as a table, from a log.",
    example: "Example:\n  agc-study downlink examples/study/downlink/lists examples/study/downlink/log",
    parameters: &[
        Parameter {
            id: "lists",
            shown: "LISTS",
            help: "Lists: a line list NAME WORD WORD, then a line for each quantity, NAME PLACE KIND SCALE, and a unit",
            is_required: true,
            ..FILE
        },
        Parameter {
            id: "log",
            shown: "LOG",
            help: "What agc --log prints; standard input if left out",
            ..FILE
        },
    ],
};

static UPLINK: Subcommand = Subcommand {
    name: "uplink",
    about: "Prints the script that sends keys from the ground, by pulses of INLINK.",
    example: "Example:\n  agc-study uplink V37E64E --from 100000",
    parameters: &[
        Parameter {
            id: "keys",
            shown: "KEYS",
            help: "Keys as V37E64E: digits, +, -, V (VERB), N (NOUN), E (ENTR), C (CLR), K (KEY REL) and R (RSET)",
            is_required: true,
            ..FILE
        },
        Parameter {
            help: "Machine cycle of the first bit: decimal; 0 if left out",
            ..FROM
        },
        Parameter {
            id: "every",
            shown: "CYCLES",
            help: "Cycles from key to key: decimal; 8533, a tenth of a second, if left out",
            ..NUMBER
        },
        Parameter {
            id: "bits",
            shown: "CYCLES",
            help: "Cycles from bit to bit: decimal, from 1; 427, for 200 bits a second, if left out",
            ..NUMBER
        },
    ],
};

/// A file of two runs, which `--words` does without.
const RUN_FILE: Parameter = Parameter {
    unless: "words",
    ..FILE
};

static COMPARE: Subcommand = Subcommand {
    name: "compare",
    about: "Runs two ropes with two scripts, and prints where the runs differ first.",
    example: "Example:\n  agc-study compare examples/prog12/rope examples/prog12/script examples/study/compare-apart/rope examples/prog12/script --limit 10",
    parameters: &[
        Parameter {
            id: "rope",
            shown: "ROPE",
            help: "Rope file of the first run",
            ..RUN_FILE
        },
        Parameter {
            id: "script",
            shown: "SCRIPT",
            help: "Script file of the first run",
            ..RUN_FILE
        },
        Parameter {
            id: "other-rope",
            shown: "ROPE",
            help: "Rope file of the second run",
            ..RUN_FILE
        },
        Parameter {
            id: "other-script",
            shown: "SCRIPT",
            help: "Script file of the second run",
            ..RUN_FILE
        },
        Parameter {
            is_required: false,
            unless: "words",
            ..LIMIT
        },
        Parameter {
            id: "words",
            shown: "ROPE",
            help: "Compare only the words of these two rope files, without a run",
            count: Count::Two,
            excludes: &["rope", "limit", "until", "by", "brief", "names"],
            ..VALUE
        },
        Parameter {
            id: "source",
            help: "With --words, compare two sources: print the number of each word's line too, decimal",
            needs: "words",
            excludes: &["rope", "form", "form-b", "ignore-parity"],
            ..FLAG
        },
        FORM,
        Parameter {
            help: "Layout of the second rope file, if it is another",
            ..OTHER_FORM
        },
        WRONG_PARITY,
        UNTIL,
        Parameter {
            id: "by",
            shown: "WHAT",
            help: "Compare what shows, without cycles: writes, channel=CCC (octal, 0 to 777), or panels",
            ..VALUE
        },
        Parameter {
            id: "brief",
            help: "With --by, print one line: same, or the cycle and the number of the first difference",
            needs: "by",
            ..FLAG
        },
        Parameter {
            help: "Show names from this file (a line for each, PLACE NAME, or a source NAME.agc); repeat it for the second run",
            is_repeated: true,
            excludes: &["by"],
            ..NAMES
        },
        Parameter {
            help: "Show the source line of each place, from the listing that weave --write-listing writes; repeat it for the second rope",
            is_repeated: true,
            excludes: &["words", "by"],
            ..SOURCE_LINES
        },
    ],
};

static FILM: Subcommand = Subcommand {
    name: "film",
    about: "Prints a web page that shows the DSKY over the time of a run, or of two runs side by side.",
    example: "Example:\n  agc-study film examples/keys/rope examples/keys/script --limit 300 > film.html",
    parameters: &[
        ROPE,
        SCRIPT,
        Parameter {
            id: "other-rope",
            shown: "ROPE",
            help: "Rope file of the second run",
            ..FILE
        },
        Parameter {
            id: "other-script",
            shown: "SCRIPT",
            help: "Script file of the second run",
            ..FILE
        },
        LIMIT,
        FORM,
        WRONG_PARITY,
        UNTIL,
        Parameter {
            help: "First machine cycle of the film: decimal, from 0; 0 if left out",
            ..FROM
        },
        Parameter {
            help: "Last machine cycle of the film: decimal, from 0; the stop if left out",
            ..TO
        },
        Parameter {
            kind: Kind::Watch,
            ..VALUE
        },
        Parameter {
            help: "Accept names from this file in --until: a line for each, PLACE NAME, or a source NAME.agc",
            ..NAMES
        },
        Parameter {
            id: "nouns",
            shown: "FILE",
            help: "Show the display in words, by this file of verbs and nouns: verb 16 monitor, noun 36 R1 hours = 1",
            ..VALUE
        },
        Parameter {
            id: "samples",
            shown: "FILE",
            help: "Plot the table in this file, as sample prints it for the run (of two, the first), over time",
            ..VALUE
        },
    ],
};

/// Adds these subcommands in the order of the help.
pub(crate) fn add_run_commands<'a>(
    alloc: Global,
    commands: &mut Vec<Command<'a>>,
) -> Result<(), AllocError> {
    add(alloc, commands, &TRACE)?;
    add(alloc, commands, &PROFILE)?;
    add(alloc, commands, &JOBS)?;
    add(alloc, commands, &SAMPLE)?;
    add(alloc, commands, &DOWNLINK)?;
    add(alloc, commands, &UPLINK)?;
    add(alloc, commands, &COMPARE)?;
    add(alloc, commands, &FILM)
}
