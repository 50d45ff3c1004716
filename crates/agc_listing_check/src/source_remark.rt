//! Explains which word of a source line is at fault: the name in its first column, its order, or its operand.
use agc_asm::{has_letter, note_channels, word_at_fault};
use agc_encode::parse_lines;
use agc_interpretive::Operation;
use agc_listing::{
    cut_label, is_listed, is_name, next_parsed, offset_parsed, push_file_bytes, push_quoted,
    push_quoted_then, push_subject,
};
use agc_order::{Basic, Extracode};
use agc_symbols::{Register, most_similar_name, push_unknown_name};
use agc_vocabulary::{Alias, Directive, Names, SourceFault, code_of, is_operation};
use agc_word::without_return;
use std::alloc::{AllocError, Global};

/// Appends which word of a source line is at fault, and what it is next to or close to.
pub(crate) fn push_source_why(
    alloc: Global,
    text: &mut String,
    file: &[u8],
    line: &[u8],
    fault: SourceFault,
) -> Result<(), AllocError> {
    let word = word_at_fault(line, fault).word;
    if fault == SourceFault::Include {
        return push_order(text, word, "the name of another file");
    }
    let (label, body) = cut_label(code_of(line));
    let Some((order, operand)) = operation_in(label, body) else {
        return push_missing(text, label);
    };
    match fault {
        SourceFault::NameTwice => push_taken(text, file, word),
        SourceFault::BadName | SourceFault::MisplacedName | SourceFault::CheckFailed => {
            push_label(text, label, order)
        }
        SourceFault::UnknownOrder => push_no_order(alloc, text, label, order),
        SourceFault::Interpretive(_) => push_interpretive(text, order, word),
        SourceFault::NotSupported => push_order(text, word, "a directive of the flight listings"),
        SourceFault::Include | SourceFault::UnknownName => push_no_name(alloc, text, file, word),
        SourceFault::ExtracodeAlone => push_order(text, order, "an extracode"),
        SourceFault::BasicAfterExtend => push_order(text, order, "a basic order"),
        SourceFault::Full => push_order(text, order, "past the last place"),
        SourceFault::ChannelName => push_channel_line(alloc, text, file, word),
        SourceFault::WrongMemory => push_order(text, order, "in the other memory"),
        SourceFault::FixedWanted => match built_in(alloc, file, word)? {
            Some(register) => push_built_in(text, register),
            None => push_operand(text, order, operand, word),
        },
        SourceFault::Listed(_)
        | SourceFault::BadOperand
        | SourceFault::NoSuchPlace
        | SourceFault::ErasableWanted
        | SourceFault::ChannelWanted
        | SourceFault::AnotherBank
        | SourceFault::OtherOrder
        | SourceFault::BadPlace
        | SourceFault::BadNumber
        | SourceFault::OutOfRange => push_operand(text, order, operand, word),
    }
}

/// Appends what the word at fault of an interpretive line is: an operation, an operand, or what stands behind `first`.
fn push_interpretive(text: &mut String, first: &[u8], word: &[u8]) -> Result<(), AllocError> {
    if word != first {
        push_quoted(text, word)?;
        text.push_str(" is behind ")?;
        return push_quoted_then(text, first, "\n");
    }
    if is_operation(word) {
        return push_order(text, word, "a line of the basic language");
    }
    let name = word.strip_suffix(b"*").unwrap_or(word);
    match Operation::from_name(name) {
        Some(_) => push_order(text, word, "an operation of the interpreter"),
        None => push_order(text, word, "an operand on a line of its own"),
    }
}

/// Returns the order or directive of a line, and what follows it.
fn operation_in<'a>(label: Option<&[u8]>, body: &'a [u8]) -> Option<(&'a [u8], &'a [u8])> {
    let (first, rest) = next_parsed(body)?;
    if label.is_none() && offset_parsed(first).is_some() {
        next_parsed(rest)
    } else {
        Some((first, rest))
    }
}

/// Appends the word in the first column, before the order or directive.
fn push_label(text: &mut String, label: Option<&[u8]>, order: &[u8]) -> Result<(), AllocError> {
    push_subject(text, label, "no name")?;
    text.push_str(" is in the first column before ")?;
    push_quoted_then(text, order, "\n")
}

/// Appends which earlier line has a name.
fn push_taken(text: &mut String, file: &[u8], name: &[u8]) -> Result<(), AllocError> {
    push_quoted(text, name)?;
    let lines = file.split(|b| *b == b'\n');
    let number = lines.take_while(|line| name_of(line) != Some(name)).count() + 1;
    writeln!(text, " is the name of line {number}")
}

/// Appends that a line has no order, or has it in the first column.
fn push_missing(text: &mut String, label: Option<&[u8]>) -> Result<(), AllocError> {
    match label {
        Some(label) if is_operation(label) => push_first_column(text, label),
        Some(label) if has_letter(label) => push_letter(text, label),
        _ => text.push_str("the order is missing: write it after the name\n"),
    }
}

/// Appends that an order or directive is in the first column.
fn push_first_column(text: &mut String, label: &[u8]) -> Result<(), AllocError> {
    push_quoted(text, label)?;
    text.push_str(" is in the first column, where names are: begin the line with a blank\n")
}

/// Appends that the order of a line is unknown, and the nearest order or directive, or that it is in the first column.
fn push_no_order(
    alloc: Global,
    text: &mut String,
    label: Option<&[u8]>,
    order: &[u8],
) -> Result<(), AllocError> {
    if let Some(label) = label {
        if is_operation(label) {
            return push_first_column(text, label);
        }
        if has_letter(label) {
            return push_letter(text, label);
        }
    }
    let mut names = orders(alloc)?;
    for directive in Directive::ALL {
        names.push(directive.name().as_bytes())?;
    }
    push_unknown_name(alloc, text, order, "order or directive", names.as_slice())
}

/// Returns the mnemonics of all orders.
fn orders(alloc: Global) -> Result<Vec<&'static [u8]>, AllocError> {
    let mut names = Vec::new(alloc);
    for order in Basic::ALL {
        names.push(order.row().mnemonic.as_bytes())?;
    }
    for order in Extracode::ALL {
        names.push(order.row().mnemonic.as_bytes())?;
    }
    for alias in Alias::ALL {
        names.push(alias.name().as_bytes())?;
    }
    Ok(names)
}

/// Returns the question whether the mnemonic most similar to a word was meant: `; did you mean CA?`. If another name of
/// an order is the most similar one, as CAF, the order's own mnemonic is in the question. Fails if out of memory.
pub fn nearest_order(alloc: Global, word: &[u8]) -> Result<String, AllocError> {
    let mut text = String::new(alloc);
    let names = orders(alloc)?;
    if !names.is_empty() {
        text.push_str("; did you mean ")?;
        let near = most_similar_name(alloc, word, names.as_slice())?;
        push_file_bytes(&mut text, own_mnemonic(near))?;
        text.push_str("?")?;
    }
    Ok(text)
}

/// Returns the own mnemonic of the order that a name stands for, or the name itself.
fn own_mnemonic(name: &[u8]) -> &[u8] {
    match Alias::from_name(name) {
        Some(alias) => alias.order().as_bytes(),
        None => name,
    }
}

/// Appends that no line has a name, and the nearest name; or that the line of that name gives it no place, because it is
/// faulty or EQUALS leads back to it.
fn push_no_name(
    alloc: Global,
    text: &mut String,
    file: &[u8],
    name: &[u8],
) -> Result<(), AllocError> {
    let names = names_of(alloc, file)?;
    if names.as_slice().iter().any(|known| *known == name) {
        text.push_str("the line of ")?;
        return push_quoted_then(text, name, " gives it no place\n");
    }
    push_unknown_name(alloc, text, name, "name", names.as_slice())?;
    push_letter_below(text, name)
}

/// Appends a line that a word has a letter O in place of a zero, if it has.
pub(crate) fn push_letter_below(text: &mut String, word: &[u8]) -> Result<(), AllocError> {
    if !has_letter(word) {
        return Ok(());
    }
    text.push_str("    ")?;
    push_letter(text, word)
}

/// Appends that a word has a letter O in place of a zero.
fn push_letter(text: &mut String, word: &[u8]) -> Result<(), AllocError> {
    push_quoted_then(text, word, " has a letter O, which looks like a zero\n")
}

/// Appends which line takes a name as a channel.
fn push_channel_line(
    alloc: Global,
    text: &mut String,
    file: &[u8],
    name: &[u8],
) -> Result<(), AllocError> {
    let lines = parse_lines(alloc, file)?;
    let names = note_channels(Names::new(alloc), &lines)?;
    push_quoted(text, name)?;
    let number = names.channel_line(name).unwrap_or(0);
    writeln!(text, " is a channel in line {number}")
}

/// Returns the cell of the computer's own that a word names, if no line has this name.
fn built_in(alloc: Global, file: &[u8], word: &[u8]) -> Result<Option<Register>, AllocError> {
    let names = names_of(alloc, file)?;
    if names.as_slice().iter().any(|known| *known == word) {
        return Ok(None);
    }
    Ok(Register::from_name(word).filter(|register| !register.is_short()))
}

/// Appends that a name is built in, and its cell.
fn push_built_in(text: &mut String, register: Register) -> Result<(), AllocError> {
    push_quoted(text, register.name().as_bytes())?;
    let cell = register.cell();
    writeln!(
        text,
        " is built in, as cell {cell:04o}: CA takes it; or give a line of your own this name"
    )
}

/// Returns the names of a source's lines, in their order.
fn names_of(alloc: Global, file: &[u8]) -> Result<Vec<&[u8]>, AllocError> {
    file.split(|b| *b == b'\n')
        .filter_map(|line| name_of(line))
        .collect(alloc)
}

/// Returns the name in the first column of a source line.
fn name_of(line: &[u8]) -> Option<&[u8]> {
    let line = code_of(without_return(line));
    if is_listed(line) {
        return None;
    }
    let (label, _) = cut_label(line);
    label.filter(|label| is_name(label) && offset_parsed(label).is_none())
}

/// Appends what an order or directive is.
fn push_order(text: &mut String, order: &[u8], what: &str) -> Result<(), AllocError> {
    push_quoted(text, order)?;
    writeln!(text, " is {what}")
}

/// Appends that a word is in the operand of an order or directive, or that the operand is missing.
fn push_operand(
    text: &mut String,
    order: &[u8],
    operand: &[u8],
    word: &[u8],
) -> Result<(), AllocError> {
    if next_parsed(operand).is_none() {
        return push_quoted_then(text, order, " has no operand\n");
    }
    push_quoted(text, word)?;
    text.push_str(" is in the operand of ")?;
    push_quoted_then(text, order, "\n")
}
