//! Remarks on lines of a source that skip an order.
use agc_listing::{is_listed, push_file_bytes};
use agc_vocabulary::{Alias, Directive, code_of, cut_line, is_order, next_token};
use agc_word::without_return;
use std::alloc::{AllocError, Global};

/// The most remarks on a source.
const MOST: usize = 20;

/// Returns a line for each directive of a source that is skipped with an order behind it, up to twenty. This is allowed,
/// and rarely meant. Fails if out of memory.
pub fn line_remarks(alloc: Global, file: &[u8]) -> Result<String, AllocError> {
    let mut text = String::new(alloc);
    let mut room = MOST;
    for (number, line) in (1..usize::MAX).zip(file.split(|b| *b == b'\n')) {
        let line = code_of(without_return(line));
        if is_listed(line) {
            continue;
        }
        let (_, body) = cut_line(line);
        let Some((word, operand)) = next_token(body) else {
            continue;
        };
        let Some((first, _)) = next_token(operand) else {
            continue;
        };
        if is_skipped(word) && push_swallowed(&mut text, number, word, first)? {
            room = room.saturating_sub(1);
        }
        if room == 0 {
            break;
        }
    }
    Ok(text)
}

/// Returns whether a word is a directive that means nothing.
fn is_skipped(word: &[u8]) -> bool {
    matches!(
        Directive::from_name(word),
        Some(
            Directive::Count
                | Directive::CountStarred
                | Directive::Memory
                | Directive::BankSum
                | Directive::Subro
        )
    )
}

/// Appends that a directive skips an order, if an order follows it, and returns whether it does.
fn push_swallowed(
    text: &mut String,
    number: usize,
    directive: &[u8],
    word: &[u8],
) -> Result<bool, AllocError> {
    if !is_order(word) && Alias::from_name(word).is_none() {
        return Ok(false);
    }
    write!(text, "agc-study: text line {number}: ")?;
    push_file_bytes(text, directive)?;
    text.push_str(" is a directive and skips ")?;
    push_file_bytes(text, word)?;
    text.push_str(" behind it: a name begins in the first column\n")?;
    Ok(true)
}
