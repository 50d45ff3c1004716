//! Names file and line in what is printed about a source with includes.
use crate::source_faults::push_line;
use agc_include::Expanded;
use std::alloc::{AllocError, Global};

/// The ends of sentences that name another line.
const ENDS: [&str; 3] = [
    " has its word from line ",
    " is a channel in line ",
    " is the name of line ",
];

/// Returns a text about an expanded source with the file and its line for each line that the text numbers: `text line
/// 12: ..` becomes `PAGE.agc line 3: ..`.
pub fn in_files(alloc: Global, source: &Expanded, report: &str) -> Result<String, AllocError> {
    let mut text = String::new(alloc);
    for line in report.lines() {
        push_located(&mut text, source, line)?;
        text.push_str("\n")?;
    }
    Ok(text)
}

/// Appends a line of a text about an expanded source.
fn push_located(text: &mut String, source: &Expanded, line: &str) -> Result<(), AllocError> {
    for begin in ["agc-study: text line ", "text line ", "line "] {
        if let Some((number, rest)) = line
            .strip_prefix(begin)
            .and_then(|rest| rest.split_once(':'))
        {
            if begin.starts_with("agc-study") {
                text.push_str("agc-study: ")?;
            }
            push_line(text, source, number.parse().unwrap_or(0))?;
            text.push_str(":")?;
            return text.push_str(rest);
        }
    }
    for end in ENDS {
        if let Some((rest, number)) = line.split_once(end) {
            text.push_str(rest)?;
            text.push_str(end.strip_suffix("line ").unwrap_or(end))?;
            return push_line(text, source, number.parse().unwrap_or(0));
        }
    }
    text.push_str(line)
}
