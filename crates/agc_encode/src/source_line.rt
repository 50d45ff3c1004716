//! The lines of a source, parsed once for all passes.
ghost use Rattle.std.specs.Prelude.{◌≡◌, [], map, option_map, unwrap_or, IfOk};
ghost use Rattle.agc_word.specs.Text.{lines_of};
ghost use Rattle.agc_listing.specs.Text.{are_listed, parsed_by};
ghost use Rattle.agc_vocabulary.specs.Body.{line_label, body_in, plain_line, tokens};
ghost use Rattle.agc_encode.specs.Interpretive.{column_of, spoken_words};

use crate::role::{column_of, spoken_words};
use agc_listing::is_listed;
use agc_vocabulary::{Operation, cut_line, operation_in, plain_line};
use agc_word::next_line;
use std::alloc::{AllocError, Global};

/// A line of a source.
#[derive(Clone, Copy)]
pub struct SourceLine<'a> {
    /// The whole line.
    pub text: &'a [u8],
    /// The line as it is read: without a comment that has bytes that are not text.
    pub plain: &'a [u8],
    /// Whether it is a line of an octal listing.
    pub is_listed: bool,
    /// The name in its first column.
    pub label: Option<&'a [u8]>,
    /// Its order or directive; `None` if it has no word there.
    pub operation: Option<Operation<'a>>,
    /// The words by which the interpretive language reads it.
    pub words: &'a [u8],
    /// The column at which they begin, up to that of operands.
    pub column: usize,
    ghost plain_read: { plain.now ≡ plain_line text.now },
    ghost listed_read: { is_listed ≡ are_listed (parsed_by (plain_line text.now)) },
    ghost label_read: { option_map (λ label. label.now) label ≡ line_label (plain_line text.now) },
    ghost words_read: { tokens words.now ≡ spoken_words (plain_line text.now) },
    ghost column_read: { column ≡ column_of (plain_line text.now) },
    ghost operation_read: { body_in (plain_line text.now) ≡ unwrap_or (option_map (λ op. tokens op.body.now) operation) [] },
}

/// Parses the lines of a source.
pub fn parse_lines(alloc: Global, text: &[u8]) -> Result<Vec<SourceLine<'_>>, AllocError>
    ensures { IfOk result (λ lines. map (λ line. line.text.now) lines.items ≡ lines_of text.now) }
{
    let mut lines = Vec::new(alloc);
    let mut rest = text;
    while let Some((line, after)) = next_line(rest) {
        lines.push(parse_line(line))?;
        rest = after;
    }
    Ok(lines)
}

fn parse_line(text: &[u8]) -> SourceLine<'_>
    ensures { result.text.now ≡ text.now }
{
    let plain = plain_line(text);
    let (label, body) = cut_line(plain);
    SourceLine {
        text,
        plain,
        is_listed: is_listed(plain),
        label,
        operation: operation_in(body),
        words: spoken_words(plain),
        column: column_of(plain),
    }
}
