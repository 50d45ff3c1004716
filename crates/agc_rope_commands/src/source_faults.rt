//! Prints the faults of a source, up to a hundred, each with its column and word, and their number.
use agc_asm::{AssemblyFault, CountedFault, FaultyLine, SourceFault, assemble, counted_faults};
use agc_include::Expanded;
use agc_listing::{LineFault, push_file_bytes};
use agc_listing_check::is_same_fault;
use agc_store::RopeForm;
use agc_word::without_return;
use std::alloc::{AllocError, Global};
use std::io::{self, Write};

/// The most faults that are printed.
const MOST: usize = 100;

/// How lines of a source are named.
#[derive(Clone, Copy)]
enum LineNames<'a> {
    /// All are from the file with this name.
    OneFile(&'a str),
    /// Each is from a file of this source.
    Files(&'a Expanded),
}

impl LineNames<'_> {
    /// Appends the file and the number of a line.
    fn push(self, text: &mut String, number: usize) -> Result<(), AllocError> {
        match self {
            LineNames::OneFile(name) => write!(text, "{name} line {number}"),
            LineNames::Files(source) => push_line(text, source, number),
        }
    }
}

/// Writes the faults of a source whose first one is already written with its line alone: the column and word of that one, and
/// then the others. `name` is the name of the source's file.
pub fn write_other_faults<E: Write>(
    alloc: Global,
    name: &str,
    source: &[u8],
    err: &mut E,
) -> io::Result<()> {
    let Err(fault) = assemble(alloc, RopeForm::Classic, source) else {
        return Ok(());
    };
    match other_faults(alloc, name, source, fault) {
        Ok(text) => err.write_all(text.as_bytes()),
        Err(AllocError) => Ok(()),
    }
}

/// Returns the column and word of the first fault of a source, and the lines of the others.
fn other_faults(
    alloc: Global,
    name: &str,
    source: &[u8],
    fault: AssemblyFault,
) -> Result<String, AllocError> {
    let names = LineNames::OneFile(name);
    let found = counted_faults(alloc, source)?;
    let first = first_fault(found.as_slice(), source, fault)?;
    let mut text = String::new(alloc);
    if !is_overlap(fault) {
        text.push_str("    ")?;
        push_place(&mut text, names, first.first)?;
        text.push_str(": ")?;
        push_word(&mut text, first)?;
    }
    push_others(&mut text, names, found.as_slice(), first)?;
    Ok(text)
}

/// Writes the faults of a source with includes, of which this is the first.
pub fn write_expanded_faults<E: Write>(
    alloc: Global,
    source: &Expanded,
    fault: AssemblyFault,
    err: &mut E,
) -> io::Result<()> {
    match expanded_faults(alloc, source, fault) {
        Ok(text) => err.write_all(text.as_bytes()),
        Err(AllocError) => err.write_all(b"agc-study: memory\n"),
    }
}

fn expanded_faults(
    alloc: Global,
    source: &Expanded,
    fault: AssemblyFault,
) -> Result<String, AllocError> {
    let names = LineNames::Files(source);
    let found = counted_faults(alloc, source.text())?;
    let first = first_fault(found.as_slice(), source.text(), fault)?;
    let mut text = String::new(alloc);
    match fault {
        AssemblyFault::Overlap(line, earlier) => push_overlap(&mut text, source, line, earlier)?,
        _ => push_fault(&mut text, names, first)?,
    }
    push_others(&mut text, names, found.as_slice(), first)?;
    Ok(text)
}

/// Returns whether a line has a word for a place of an earlier line. If memory runs out, that line is not known.
fn is_overlap(fault: AssemblyFault) -> bool {
    match fault {
        AssemblyFault::Overlap(_, _) => true,
        AssemblyFault::Line(_, why) => why == SourceFault::Listed(LineFault::NamedTwice),
        AssemblyFault::Memory => false,
    }
}

/// Returns the first fault of a source with its column and word, and the number of lines that have it.
fn first_fault<'a>(
    found: &[CountedFault<'a>],
    source: &'a [u8],
    fault: AssemblyFault,
) -> Result<CountedFault<'a>, AllocError> {
    let (number, fault) = match fault {
        AssemblyFault::Line(number, fault) => (number, fault),
        AssemblyFault::Overlap(number, _) => {
            (number, SourceFault::Listed(LineFault::NamedTwice))
        }
        AssemblyFault::Memory => return Err(AllocError),
    };
    let mut first = CountedFault {
        first: FaultyLine::new(number, line_at(source, number), fault),
        lines: 1,
    };
    for counted in found.iter() {
        if is_same_fault(counted.first, first.first) {
            first.lines = counted.lines;
        }
    }
    Ok(first)
}

/// Returns the line with a number, counted from 1, without its end.
fn line_at(source: &[u8], number: usize) -> &[u8] {
    match source.split(|b| *b == b'\n').nth(number.saturating_sub(1)) {
        Some(line) => without_return(line),
        None => source,
    }
}

/// Appends the fault of a line that has a word for a place of an earlier line.
fn push_overlap(
    text: &mut String,
    source: &Expanded,
    line: usize,
    earlier: usize,
) -> Result<(), AllocError> {
    text.push_str("agc-study: ")?;
    push_line(text, source, line)?;
    text.push_str(": ")?;
    push_line(text, source, earlier)?;
    text.push_str(" has a word for this place: write each place once\n")
}

/// Appends a line for each fault but the first one, and the number of faults if several lines are faulty. An unknown name is one
/// fault.
fn push_others(
    text: &mut String,
    names: LineNames<'_>,
    found: &[CountedFault<'_>],
    first: CountedFault<'_>,
) -> Result<(), AllocError> {
    let mut count: usize = 1;
    let mut lines = first.lines;
    for fault in found.iter() {
        if is_same_fault(fault.first, first.first) {
            continue;
        }
        count = count.saturating_add(1);
        lines = lines.saturating_add(fault.lines);
        if count <= MOST {
            push_fault(text, names, *fault)?;
        }
    }
    if lines > 1 {
        writeln!(text, "agc-study: faults: {count}, in {lines} lines")?;
    }
    Ok(())
}

/// Appends the line of a fault.
fn push_fault(
    text: &mut String,
    names: LineNames<'_>,
    fault: CountedFault<'_>,
) -> Result<(), AllocError> {
    text.push_str("agc-study: ")?;
    push_place(text, names, fault.first)?;
    write!(text, ": {}: ", fault.first.fault)?;
    push_word(text, fault)
}

/// Appends the file, line and column of a fault.
fn push_place(
    text: &mut String,
    names: LineNames<'_>,
    faulty: FaultyLine<'_>,
) -> Result<(), AllocError> {
    names.push(text, faulty.line)?;
    write!(text, ", column {}", faulty.column)
}

/// Appends the word of a fault, the number of lines that have it if there are several, and the end of the line.
fn push_word(text: &mut String, fault: CountedFault<'_>) -> Result<(), AllocError> {
    text.push_str("`")?;
    push_file_bytes(text, fault.first.word)?;
    text.push_str("`")?;
    if fault.lines > 1 {
        write!(text, ", in {} lines", fault.lines)?;
    }
    text.push_str("\n")
}

/// Appends the number of a line, and the name of its file if it is known.
pub fn push_line(text: &mut String, source: &Expanded, number: usize) -> Result<(), AllocError> {
    match source.origin(number) {
        Some((file, line)) => write!(text, "{file} line {line}"),
        None => write!(text, "text line {number}"),
    }
}
