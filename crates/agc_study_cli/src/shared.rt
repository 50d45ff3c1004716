//! Parameters that several subcommands have.
use crate::parameter::{FLAG, Kind, NUMBER, Parameter, VALUE};

pub(crate) const ROPE: Parameter = Parameter {
    kind: Kind::Rope,
    is_required: true,
    ..VALUE
};

pub(crate) const SCRIPT: Parameter = Parameter {
    kind: Kind::Script,
    is_required: true,
    ..VALUE
};

pub(crate) const LIMIT: Parameter = Parameter {
    kind: Kind::Limit,
    is_required: true,
    ..VALUE
};

pub(crate) const FORM: Parameter = Parameter {
    kind: Kind::Form,
    ..VALUE
};

/// The form of another rope, without a default.
pub(crate) const OTHER_FORM: Parameter = Parameter {
    id: "form-b",
    shown: "FORM",
    values: &["classic", "parity"],
    ..VALUE
};

pub(crate) const UNTIL: Parameter = Parameter {
    kind: Kind::Until,
    help: "Stop before the order here runs: octal, BANK 0 to 47, ADDR 0 to 7777, or a name",
    ..VALUE
};

/// A symbol file; each subcommand says what it shows.
pub(crate) const NAMES: Parameter = Parameter {
    kind: Kind::Names,
    ..VALUE
};

/// First machine cycle; each subcommand says of what.
pub(crate) const FROM: Parameter = Parameter {
    id: "from",
    shown: "CYCLE",
    ..NUMBER
};

/// Last machine cycle.
pub(crate) const TO: Parameter = Parameter { id: "to", ..FROM };

pub(crate) const FROM_PRINTED: Parameter = Parameter {
    help: "First machine cycle to print: decimal, from 0; 0 if left out",
    ..FROM
};

pub(crate) const TO_PRINTED: Parameter = Parameter {
    help: "Last machine cycle to print: decimal, from 0; the stop if left out",
    ..TO
};

/// The listing that gives places their lines.
pub(crate) const SOURCE_LINES: Parameter = Parameter {
    id: "listing",
    shown: "FILE",
    help: "Show the source line of each place, from the listing that weave --write-listing writes",
    ..VALUE
};

pub(crate) const FIRST_BANK: Parameter = Parameter {
    id: "first-bank",
    shown: "BB",
    help: "Bank of the file's first word, if it is some modules of a rope: octal, 00 to 43",
    ..VALUE
};

/// For a subcommand that writes a rope, or its words.
pub(crate) const IGNORE_PARITY: Parameter = Parameter {
    id: "ignore-parity",
    help: "Accept words with wrong parity, and make their parity bits right",
    ..FLAG
};

/// For a subcommand that writes no rope.
pub(crate) const WRONG_PARITY: Parameter = Parameter {
    help: "Read a rope in the form with parity whatever its parity bits",
    ..IGNORE_PARITY
};
