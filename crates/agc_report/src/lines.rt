//! Shows lines that `check` prints: how the file reads, and the patterns of damage with the commands that mend them.
use crate::escaped::push_escaped;
use std::alloc::AllocError;

/// What stands before each line that belongs to the line above it.
const INDENT: &str = "    ";

/// What stands before the command that mends a pattern.
const MENDED: &str = "    mended by: ";

/// Appends the lines of findings that say how the file reads, from `read as` on, but for the number of words that are not
/// reached.
pub(crate) fn push_readings(text: &mut String, findings: &str) -> Result<(), AllocError> {
    let mut is_reading = false;
    for line in findings.lines() {
        is_reading = line.starts_with("read as ") || is_reading && line.starts_with(INDENT);
        if is_reading && !line.contains(" are not reached ") {
            text.push_str("<p class='reading'>")?;
            push_escaped(text, line)?;
            text.push_str("</p>\n")?;
        }
    }
    Ok(())
}

/// Returns whether the findings name a reading that fits better.
pub(crate) fn has_better_reading(findings: &str) -> bool {
    findings
        .lines()
        .any(|line| line.starts_with("    it reads better "))
}

/// Returns whether a line of findings begins a pattern of damage.
fn begins_pattern(line: &str) -> bool {
    !line.starts_with(INDENT)
        && !line.starts_with("words with wrong parity: ")
        && !line.starts_with("read as ")
        && !line.starts_with("bank ")
}

/// Returns the number of patterns of damage in the findings.
pub(crate) fn count_patterns(findings: &str) -> usize {
    findings.lines().filter(|line| begins_pattern(line)).count()
}

/// Appends the patterns in the findings, each with the command that mends it.
pub(crate) fn push_patterns(text: &mut String, findings: &str) -> Result<(), AllocError> {
    if count_patterns(findings) == 0 {
        return Ok(());
    }
    text.push_str("<h3>Patterns of damage</h3>\n<ul class='patterns'>\n")?;
    let mut is_pattern = false;
    for line in findings.lines() {
        is_pattern = begins_pattern(line) || is_pattern && line.starts_with(INDENT);
        if is_pattern {
            push_line(text, line)?;
        }
    }
    text.push_str("</ul>\n")
}

fn push_line(text: &mut String, line: &str) -> Result<(), AllocError> {
    if let Some(command) = line.strip_prefix(MENDED) {
        text.push_str("<br>mended by: <code>")?;
        push_escaped(text, command)?;
        return text.push_str("</code>\n");
    }
    text.push_str(if line.starts_with(INDENT) {
        "<br>"
    } else {
        "<li>"
    })?;
    push_escaped(text, line)?;
    text.push_str("\n")
}
