//! Puts source lines behind the lines of a text that is drawn.
use crate::printed_place::PrintedLine;
use crate::source_lines::SourceLines;
use std::alloc::AllocError;

/// Appends the lines of an answer, each after a blank, with ` # ` and the source line behind each one with a place of the
/// listing. Characters that would move a terminal's cursor become `?`.
pub fn push_with_sources(
    text: &mut String,
    lines: &str,
    sources: &SourceLines,
) -> Result<(), AllocError> {
    for line in lines.lines() {
        text.push_str(line)?;
        let answer = line.strip_prefix(" ").unwrap_or(line);
        if let Some(place) = PrintedLine::Console.place_in(answer.as_bytes()) {
            if let Some(source) = sources.line_at(place) {
                text.push_str(" # ")?;
                push_shown(text, source)?;
            }
        }
        text.push_str("\n")?;
    }
    Ok(())
}

/// Appends a source line as a terminal can show it.
fn push_shown(text: &mut String, source: &[u8]) -> Result<(), AllocError> {
    let Ok(source) = str::from_utf8(source) else {
        return text.push_str("?");
    };
    for letter in source.chars() {
        let shown = match letter {
            '\t' => ' ',
            '\0'..='\x1f' | '\x7f'..='\u{9f}' => '?',
            other => other,
        };
        text.push(shown)?;
    }
    Ok(())
}
