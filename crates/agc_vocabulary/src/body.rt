//! Splits a line of a source: its name, its operation, and the words of its operand.
ghost use Rattle.std.specs.Prelude.{◌≡◌, ◌<◌, ◌∷◌, [], length, position, option_map, MatchOption, IfSome, Some, codes, true, false};
ghost use Rattle.agc_listing.specs.Text.{body_of, label_of, only_of, parsed_by};
ghost use Rattle.agc_vocabulary.specs.Body.{
  alias_named,
  alias_operand,
  body_by,
  body_in,
  code_of,
  has_non_ascii_comment,
  is_include,
  is_operation,
  is_hash_byte,
  line_label,
  operand_spelled,
  plain_line,
  tokens,
  uncommented,
  without_adornment,
  without_minus,
  writes_nothing,
};
ghost use Rattle.agc_vocabulary.specs.Mnemonic.{directive_named};
ghost use Rattle.agc_listing.specs.Line.{is_no_text};

use crate::alias::Alias;
use crate::mnemonic::{Directive, is_order};
use agc_listing::{cut_label, has_other_byte, next_parsed, offset_parsed};

/// Returns whether a line names another file to read.
pub fn is_include(line: &[u8]) -> bool
    ensures { result ≡ is_include line.now }
{
    matches!(line, [b'$', ..])
}

/// Returns the first word of a text before its comment, and what follows it; `None` if there is no word.
#[tactic(auto, unfolding(crate::specs::Body::tokens, crate::specs::Body::uncommented))]
pub fn next_token(text: &[u8]) -> Option<(&[u8], &[u8])>
    ensures { MatchOption result (tokens text.now ≡ [])
        (λ cut. tokens text.now ≡ cut.0.now ∷ tokens cut.1.now) }
{
    let (word, rest) = next_parsed(text)?;
    match first_hash(word) {
        None => Some((word, rest)),
        Some(0) => None,
        Some(at) => Some((&word[..at], &[])),
    }
}

/// Returns a line as it is read: without its comment, if only the comment has bytes that are not text.
#[tactic(auto, unfolding(crate::specs::Body::plain_line))]
pub fn plain_line(line: &[u8]) -> &[u8]
    ensures { result.now ≡ plain_line line.now }
{
    if has_non_ascii_comment(line) {
        code_of(line)
    } else {
        line
    }
}

/// Returns whether a line has bytes that are not text, all of them in its comment.
#[tactic(auto, unfolding(crate::specs::Body::has_non_ascii_comment))]
pub fn has_non_ascii_comment(line: &[u8]) -> bool
    ensures { result ≡ has_non_ascii_comment line.now }
{
    has_other_byte(line) && !has_other_byte(code_of(line))
}

/// Returns a line without its comment.
#[tactic(auto, unfolding(crate::specs::Body::code_of))]
pub fn code_of(line: &[u8]) -> &[u8]
    ensures { result.now ≡ code_of line.now }
{
    match first_hash(line) {
        Some(at) => &line[..at],
        None => line,
    }
}

fn first_hash(word: &[u8]) -> Option<usize>
    ensures hash { result ≡ position is_hash_byte word.now }
    ensures bound { IfSome result (λ at. at < length word.now) }
{
    word.iter().position(|b| *b == b'#')
}

/// Returns the only word of a text before its comment.
pub fn only_token(text: &[u8]) -> Option<&[u8]>
    ensures { option_map (λ word. word.now) result ≡ only_of (tokens text.now) }
{
    let (word, rest) = next_token(text)?;
    match next_token(rest) {
        Some(_) => None,
        None => Some(word),
    }
}

/// Returns the name of a line, if it has one, and its operation with the operand. A sign and digits before the operation
/// are no name. A name alone is read as before `=`, unless it is an order's or a directive's.
#[tactic(auto, unfolding(crate::specs::Body::body_in, crate::specs::Body::line_label, crate::specs::Body::tokens))]
pub fn cut_line(line: &[u8]) -> (Option<&[u8]>, &[u8])
    ensures label { option_map (λ label. label.now) result.0 ≡ line_label line.now }
    ensures body { tokens result.1.now ≡ body_in line.now }
{
    let (label, body) = cut_label(line);
    match label {
        Some(first) if offset_parsed(first).is_some() => (None, named_body(first, body)),
        Some(first) => (label, named_body(first, body)),
        None => (None, without_adornment(body)),
    }
}

/// Returns the operation of a line with a word in its first column: `=` if that is a name alone.
#[tactic(auto, using(crate::proofs::Tokens::equals_token))]
fn named_body<'a>(label: &[u8], body: &'a [u8]) -> &'a [u8]
    ensures { tokens result.now ≡ body_by (Some label.now) (tokens body.now) }
{
    match next_token(body) {
        Some(_) => body,
        None if offset_parsed(label).is_some() || is_operation(label) => body,
        None => b"=",
    }
}

/// Returns whether a word is an order or a directive.
pub fn is_operation(word: &[u8]) -> bool
    ensures { result ≡ is_operation word.now }
{
    is_order(word) || Alias::from_name(word).is_some() || Directive::from_name(word).is_some()
}

/// Returns the operation of a line without a name: what follows a sign and digits.
fn without_adornment(body: &[u8]) -> &[u8]
    ensures { tokens result.now ≡ without_adornment (tokens body.now) }
{
    match next_token(body) {
        Some((word, rest)) if offset_parsed(word).is_some() => rest,
        _ => body,
    }
}

/// Returns a word without the minus before it, unless the rest names a directive that writes no word.
pub fn without_minus(word: &[u8]) -> &[u8]
    ensures { result.now ≡ without_minus word.now }
{
    match word {
        [b'-', name @ ..] if !writes_nothing(Directive::from_name(name)) => name,
        _ => word,
    }
}

/// Returns whether a directive writes no word, so that a minus before it means nothing.
fn writes_nothing(directive: Option<Directive>) -> bool
    ensures { result ≡ writes_nothing directive }
{
    matches!(
        directive,
        Some(
            Directive::SetLoc
                | Directive::Bank
                | Directive::Block
                | Directive::Is
                | Directive::Equals
                | Directive::Erase
                | Directive::Ebank
                | Directive::Sbank
                | Directive::Count
                | Directive::CountStarred
                | Directive::Memory
                | Directive::BankSum
                | Directive::IsMinus
                | Directive::IsEcadr
                | Directive::Subro
                | Directive::Check
        )
    )
}

/// Returns the operand of an alias.
pub(crate) fn operand_spelled(alias: Alias, rest: &[u8]) -> &[u8]
    ensures { tokens result.now ≡ operand_spelled (alias_operand alias) (tokens rest.now) }
{
    let Some(operand) = alias.operand() else {
        return rest;
    };
    match next_token(rest) {
        Some(_) => b"0 0 0",
        None => operand.as_bytes(),
    }
}
