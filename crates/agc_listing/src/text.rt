//! Splits a line of a source: its words before the comment, and the name in its first column.
ghost use Rattle.std.specs.Prelude.{◌≡◌, [], ◌∷◌, MatchOption, option_map};
ghost use Rattle.std.specs.List.{list_any};
ghost use Rattle.agc_word.specs.Numeral.{is_digit};
ghost use Rattle.agc_listing.specs.Line.{is_comma};
ghost use Rattle.agc_listing.specs.Text.{
  are_listed,
  body_of,
  first_of,
  is_indented,
  is_name,
  is_no_number,
  is_place_text,
  label_of,
  only_of,
  parsed_by,
};

use agc_word::next_word;
use std::alloc::{AllocError, Global};

/// Returns the first word of a text before its comment, and what follows it; `None` if there is no word.
#[tactic(auto, unfolding(crate::specs::Text::parsed_by))]
pub fn next_parsed(text: &[u8]) -> Option<(&[u8], &[u8])>
    ensures { MatchOption result (parsed_by text.now ≡ [])
        (λ cut. parsed_by text.now ≡ cut.0.now ∷ parsed_by cut.1.now) }
{
    let (word, rest) = next_word(text)?;
    if matches!(word, [b'#', ..]) {
        return None;
    }
    Some((word, rest))
}

/// Returns whether a line is a listing line: it has no words, or begins with a place.
pub fn is_listed(line: &[u8]) -> bool
    ensures { result ≡ are_listed (parsed_by line.now) }
{
    match next_parsed(line) {
        Some((first, _)) => is_place_text(first),
        None => true,
    }
}

#[tactic(auto, unfolding(crate::specs::Text::is_place_text))]
fn is_place_text(word: &[u8]) -> bool
    ensures { result ≡ is_place_text word.now }
{
    word.iter().all(|b| is_decimal(*b) || *b == b',')
}

fn is_decimal(b: u8) -> bool
    ensures { result ≡ is_digit 10 b }
{
    b'0' <= b && b <= b'9'
}

/// Returns whether a line begins with a space or a tab, so that it has no name.
fn is_indented(line: &[u8]) -> bool
    ensures { result ≡ is_indented line.now }
{
    matches!(line, [b' ' | b'\t', ..])
}

/// Returns the name of a line, if it has one, and the rest, which begins with its order or directive.
#[tactic(auto, unfolding(crate::specs::Text::label_of, crate::specs::Text::body_of))]
pub fn cut_label(line: &[u8]) -> (Option<&[u8]>, &[u8])
    ensures label { option_map (λ label. label.now) result.0 ≡ label_of line.now }
    ensures body { parsed_by result.1.now ≡ body_of line.now }
{
    if is_indented(line) {
        return (None, line);
    }
    match next_parsed(line) {
        Some((label, body)) => (Some(label), body),
        None => (None, line),
    }
}

/// Returns the only word of a text.
pub fn only_word(text: &[u8]) -> Option<&[u8]>
    ensures { option_map (λ word. word.now) result ≡ only_of (parsed_by text.now) }
{
    let (word, rest) = next_parsed(text)?;
    match next_parsed(rest) {
        Some(_) => None,
        None => Some(word),
    }
}

/// Returns whether a word is a name: at most 8 characters, without a comma and not only digits and signs.
#[tactic(auto, unfolding(crate::specs::Text::is_name))]
pub fn is_name(word: &[u8]) -> bool
    ensures { result ≡ is_name word.now }
{
    word.len() <= 8 && has_other_than_numbers(word) && !has_comma(word)
}

fn has_comma(word: &[u8]) -> bool
    ensures { result ≡ list_any is_comma word.now }
{
    word.iter().any(|b| *b == b',')
}

/// Returns whether a word contains a byte that is not a digit or a sign.
fn has_other_than_numbers(word: &[u8]) -> bool
    ensures { result ≡ list_any is_no_number word.now }
{
    word.iter()
        .any(|b| !(is_decimal(*b) || (*b == b'+' || *b == b'-')))
}

/// Returns the words of a line: the parts between spaces and tabs. Fails if out of memory.
pub fn words_of(alloc: Global, line: &[u8]) -> Result<Vec<&[u8]>, AllocError> {
    line.split(|b| *b == b' ' || *b == b'\t')
        .filter(|word| !word.is_empty())
        .collect(alloc)
}
