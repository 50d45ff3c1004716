//! Splits text for the parsers: the next line of a file, the next word of a line.
ghost use Rattle.std.specs.Prelude.{◌≡◌, ◌≤◌, ◌<◌, [], ◌∷◌, length, not, position, MatchOption};
ghost use Rattle.std.specs.Prelude.{IfSome};
ghost use Rattle.std.specs.Str.Lines.{strip_carriage_return};
ghost use Rattle.agc_word.specs.Text.{lines_of, words_of, is_blank, is_line_feed};

/// Returns the first line of a file, without its line end, and the rest of the file; `None` at the end of the file.
pub fn next_line(file: &[u8]) -> Option<(&[u8], &[u8])>
    ensures lines { MatchOption result (lines_of file.now ≡ [])
        (λ cut. lines_of file.now ≡ cut.0.now ∷ lines_of cut.1.now) }
    ensures shorter { IfSome result (λ cut. length cut.1.now < length file.now) }
{
    if file.is_empty() {
        return None;
    }
    let end = first_line_feed(file).unwrap_or(file.len());
    let rest = file.len().min(end + 1);
    Some((without_return(&file[..end]), &file[rest..]))
}

/// Returns the first word of a text and the rest of the text; `None` if there is no word.
pub fn next_word(text: &[u8]) -> Option<(&[u8], &[u8])>
    ensures { MatchOption result (words_of text.now ≡ [])
        (λ cut. words_of text.now ≡ cut.0.now ∷ words_of cut.1.now) }
{
    let start = first_other(text)?;
    let text = &text[start..];
    let end = first_blank(text).unwrap_or(text.len());
    Some((&text[..end], &text[end..]))
}

/// Removes one carriage return from the end of a line.
pub fn without_return(line: &[u8]) -> &[u8]
    ensures { result.now ≡ strip_carriage_return line.now }
{
    match line {
        [start @ .., b'\r'] => start,
        _ => line,
    }
}

/// Returns the position of the first line feed.
fn first_line_feed(file: &[u8]) -> Option<usize>
    ensures place { result ≡ position is_line_feed file.now }
    ensures bound { IfSome result (λ place. place < length file.now) }
{
    file.iter().position(|b| *b == b'\n')
}

/// Returns the position of the first space or tab.
fn first_blank(text: &[u8]) -> Option<usize>
    ensures place { result ≡ position is_blank text.now }
    ensures bound { IfSome result (λ place. place < length text.now) }
{
    text.iter().position(|b| is_space_or_tab(*b))
}

/// Returns the position of the first byte that is neither space nor tab.
fn first_other(text: &[u8]) -> Option<usize>
    ensures place { result ≡ position (λ b. not (is_blank b)) text.now }
    ensures bound { IfSome result (λ place. place < length text.now) }
{
    text.iter().position(|b| !is_space_or_tab(*b))
}

fn is_space_or_tab(b: u8) -> bool
    ensures { result ≡ is_blank b }
{
    b == b' ' || b == b'\t'
}
