//! Explains what is wrong in a line of a script, and what would be right. `agc_script` has the
//! grammar; this file only has the sentences.
ghost use Rattle.std.specs.Prelude.{◌≤◌};

use crate::lines::last_start;
use agc_listing::{push_quoted, push_quoted_then, push_subject, words_of};
use agc_script::{
    Base, Command, DIRECTIONS, EVERY, FaultKind, Key, LAST_CYCLE, LONGEST_LINE, MOST_CYCLE_DIGITS,
    MOST_DIGITS, MOST_EVENTS, NumberRange, PULSES, ScriptFault, direction_name, read_cycle,
};
use agc_symbols::push_unknown_name;
use std::alloc::{AllocError, Global};

/// Returns the line that explains a fault of a script by the words of its line.
pub(crate) fn remark(
    alloc: Global,
    file: &[u8],
    fault: ScriptFault,
    line: &[u8],
) -> Result<String, AllocError>
    requires { 1 ≤ fault.line }
{
    let words = words_at_fault(alloc, fault.kind, line)?;
    let mut text = String::new(alloc);
    text.push_str("    ")?;
    push_why(alloc, &mut text, file, fault, line, words.as_slice())?;
    Ok(text)
}

/// Returns the words of a faulty line. A line that is too long may have any length: it is not split into words.
fn words_at_fault<'a>(
    alloc: Global,
    kind: FaultKind,
    line: &'a [u8],
) -> Result<Vec<&'a [u8]>, AllocError> {
    match kind {
        FaultKind::LineTooLong => Ok(Vec::new(alloc)),
        _ => words_of(alloc, line),
    }
}

/// Appends what is wrong with a line, or with one of its words.
fn push_why(
    alloc: Global,
    text: &mut String,
    file: &[u8],
    fault: ScriptFault,
    line: &[u8],
    words: &[&[u8]],
) -> Result<(), AllocError>
    requires { 1 ≤ fault.line }
{
    match fault.kind {
        FaultKind::LineTooLong => push_too_long(text, line.len()),
        FaultKind::NotAscii => push_not_ascii(text, line, words),
        FaultKind::BadCycle => push_bad_cycle(text, words),
        FaultKind::OutOfOrder => push_out_of_order(text, words, last_start(file, fault.line - 1)),
        FaultKind::UnknownWord => push_unknown(alloc, text, words),
        FaultKind::BadNumber => push_bad_number(text, words),
        FaultKind::OutOfRange => push_out_of_range(text, words),
        FaultKind::TooMany => push_too_many(text),
        FaultKind::Memory => text.push_str("memory ran out at this line\n"),
    }
}

fn is_every(words: &[&[u8]]) -> bool {
    match words.first() {
        Some(first) => *first == EVERY.as_bytes(),
        None => false,
    }
}

/// Returns the index of the command among the words of a line: after `every N FROM TO`, or after a cycle.
fn command_place(words: &[&[u8]]) -> usize
    ensures { result ≤ 4 }
{
    if is_every(words) { 4 } else { 1 }
}

fn push_too_long(text: &mut String, bytes: usize) -> Result<(), AllocError> {
    writeln!(
        text,
        "the line has {bytes} bytes; at most {LONGEST_LINE} are allowed, comments included"
    )
}

fn push_too_many(text: &mut String) -> Result<(), AllocError> {
    writeln!(
        text,
        "a script has at most {MOST_EVENTS} events; this line makes it more"
    )
}

fn push_not_ascii(text: &mut String, line: &[u8], words: &[&[u8]]) -> Result<(), AllocError> {
    push_subject(text, word_beyond_ascii(words), "a word of the line")?;
    let before = line.iter().take_while(|b| **b < 0o200).count();
    let number = before.saturating_add(1);
    writeln!(
        text,
        " is not ASCII, from byte {number} of the line on: scripts are ASCII, comments too"
    )
}

/// Returns the first word with a byte that is not ASCII.
fn word_beyond_ascii<'a>(words: &[&'a [u8]]) -> Option<&'a [u8]> {
    for word in words {
        if word.iter().any(|b| *b >= 0o200) {
            return Some(*word);
        }
    }
    None
}

fn push_bad_cycle(text: &mut String, words: &[&[u8]]) -> Result<(), AllocError> {
    push_subject(text, word_of_no_cycle(words), "a word of the line")?;
    writeln!(
        text,
        " is not a cycle: 1 to {MOST_CYCLE_DIGITS} decimal digits, at most {LAST_CYCLE}"
    )
}

/// Returns the first word that should be a cycle and is not.
fn word_of_no_cycle<'a>(words: &[&'a [u8]]) -> Option<&'a [u8]> {
    let first = if is_every(words) { 1 } else { 0 };
    for place in first..command_place(words).min(words.len()) {
        if read_cycle(words[place]).is_none() {
            return Some(words[place]);
        }
    }
    None
}

fn push_out_of_order(text: &mut String, words: &[&[u8]], last: u64) -> Result<(), AllocError> {
    let place = if is_every(words) { 2 } else { 0 };
    if place < words.len() {
        push_quoted(text, words[place])?;
    } else {
        text.push_str("the line")?;
    }
    writeln!(
        text,
        " is too early: the event line before starts at {last}, and cycles must rise"
    )
}

fn push_unknown(alloc: Global, text: &mut String, words: &[&[u8]]) -> Result<(), AllocError> {
    let place = command_place(words);
    if place >= words.len() {
        return push_missing(text, words);
    }
    let given = words.len() - place - 1;
    match Command::from_name(words[place]) {
        None => push_no_command(alloc, text, words[place]),
        Some(command) if given == command.argument_count() => {
            push_unknown_argument(alloc, text, command, words[words.len() - 1])
        }
        Some(_) if has_comment(&words[place..]) => text.push_str(
            "a comment needs a line of its own\n",
        ),
        Some(command) => push_wrong_count(text, command, given),
    }
}

/// Returns whether a word begins like a comment.
fn has_comment(words: &[&[u8]]) -> bool {
    words.iter().any(|word| word.first() == Some(&b'#'))
}

/// Appends that a word is not a command, and the nearest one.
fn push_no_command(alloc: Global, text: &mut String, word: &[u8]) -> Result<(), AllocError> {
    if word == EVERY.as_bytes() {
        text.push_str("`every` replaces the cycle: write `every N FROM TO`, then the command\n")
    } else {
        let names = Command::ALL.map(|command| command.name().as_bytes());
        push_unknown_name(alloc, text, word, "command", &names)
    }
}

/// Appends how a command is written, if it has too many or too few words after it.
fn push_wrong_count(text: &mut String, command: Command, given: usize) -> Result<(), AllocError> {
    text.push_str("write ")?;
    push_quoted_then(text, command.usage().as_bytes(), ": here ")?;
    match given {
        1 => text.push_str("is 1 word after the command\n"),
        _ => writeln!(text, "are {given} words after the command"),
    }
}

/// Appends that the command is missing, and with `every` perhaps some of its cycles.
fn push_missing(text: &mut String, words: &[&[u8]]) -> Result<(), AllocError> {
    if is_every(words) {
        text.push_str("`every N FROM TO` needs these three cycles and a command after them\n")
    } else {
        text.push_str("the command is missing: ")?;
        for (place, command) in Command::ALL.iter().enumerate() {
            let name = command.name();
            if place > 0 {
                text.push_str(if place + 1 < Command::ALL.len() {
                    ", "
                } else {
                    " or "
                })?;
            }
            text.push_str(name)?;
        }
        text.push_str("\n")
    }
}

/// Appends that the name of a key, a direction or a kind of pulse is unknown.
fn push_unknown_argument(
    alloc: Global,
    text: &mut String,
    command: Command,
    word: &[u8],
) -> Result<(), AllocError> {
    match command {
        Command::Key => push_no_key(
            alloc,
            text,
            word,
            " has no key code: use `pro down` and `pro up`\n",
        ),
        Command::Pro => push_unknown_name(
            alloc,
            text,
            word,
            "direction of PRO",
            &DIRECTIONS.map(|down| direction_name(down).as_bytes()),
        ),
        Command::Pulse => push_unknown_name(
            alloc,
            text,
            word,
            "kind of pulse",
            &PULSES.map(|kind| kind.name().as_bytes()),
        ),
        Command::Input | Command::Raise | Command::Poke => {
            text.push_str("write ")?;
            push_quoted_then(text, command.usage().as_bytes(), "\n")
        }
    }
}

/// Appends that a word is not a key name, and the nearest one; for the PRO key, which is separate from those with a
/// code, `pro_is`.
pub(crate) fn push_no_key(
    alloc: Global,
    text: &mut String,
    word: &[u8],
    pro_is: &str,
) -> Result<(), AllocError> {
    if is_pro(word) {
        push_quoted_then(text, word, pro_is)
    } else {
        push_unknown_name(
            alloc,
            text,
            word,
            "key",
            &Key::ALL.map(|key| key.name().as_bytes()),
        )
    }
}

/// Returns whether a word means the PRO key.
fn is_pro(word: &[u8]) -> bool {
    word.eq_ignore_ascii_case(b"pro") || word.eq_ignore_ascii_case(b"proceed")
}

fn push_bad_number(text: &mut String, words: &[&[u8]]) -> Result<(), AllocError> {
    match word_that_misfits(words, false) {
        Some((word, range)) => {
            push_quoted(text, word)?;
            write!(text, " is not a number: 1 to {MOST_DIGITS} digits, ")?;
            push_range(text, range)
        }
        None => writeln!(
            text,
            "a word of the line is not a number: 1 to {MOST_DIGITS} digits of its base"
        ),
    }
}

/// Returns the first argument of the command that is not a number or, if `in_range`, not a number in its range, with
/// the range.
fn word_that_misfits<'a>(words: &[&'a [u8]], in_range: bool) -> Option<(&'a [u8], NumberRange)> {
    for place in command_place(words) + 1..words.len() {
        let Some(range) = range_at(words, place) else {
            continue;
        };
        let fits = match range.read(words[place]) {
            Some(number) => !in_range || range.has(number),
            None => false,
        };
        if !fits {
            return Some((words[place], range));
        }
    }
    None
}

/// Returns the range of the word at an index of a line, if the command takes a number there.
fn range_at(words: &[&[u8]], place: usize) -> Option<NumberRange> {
    let command_place = command_place(words);
    if place <= command_place || place >= words.len() {
        return None;
    }
    let command = Command::from_name(words[command_place])?;
    let first = agc_word::read_octal(MOST_DIGITS, words[command_place + 1]);
    let ranges = command.ranges(first);
    let argument = place - command_place - 1;
    if argument < ranges.len() {
        ranges[argument]
    } else {
        None
    }
}

fn push_out_of_range(text: &mut String, words: &[&[u8]]) -> Result<(), AllocError> {
    if is_every(words) && words.len() > 3 {
        if read_cycle(words[1]) == Some(0) {
            return push_quoted_then(text, words[1], " is not a distance of cycles: at least 1\n");
        }
        if read_cycle(words[3]) < read_cycle(words[2]) {
            push_quoted_then(text, words[3], " is too early: ")?;
            return push_quoted_then(text, words[2], " or later\n");
        }
    }
    match word_that_misfits(words, true) {
        Some((word, range)) => {
            push_quoted_then(text, word, " is out of range: ")?;
            push_range(text, range)
        }
        None => text.push_str("a number of the line is out of range\n"),
    }
}

/// Appends a range: both ends, and the base.
fn push_range(text: &mut String, range: NumberRange) -> Result<(), AllocError> {
    let (low, high) = (range.low, range.high);
    match range.base {
        Base::Octal => writeln!(text, "{low:o} to {high:o} octal"),
        Base::Decimal => writeln!(text, "{low} to {high} decimal"),
    }
}
