//! Takes the lines of a listing apart.

/// The columns before the comment of a line without a word.
const INDENT: &[u8] = b"              ";

/// What a line of a listing has.
#[derive(Clone, Copy, Debug, PartialEq, Eq)]
pub(crate) struct ListingLine<'a> {
    /// The place and the word, both octal, if the line has them.
    pub(crate) word: Option<(&'a [u8], &'a [u8])>,
    /// File, number and text of the line of the source, if it begins here.
    pub(crate) source: Option<&'a [u8]>,
}

/// Takes a line apart: `PLACE WORD`, `PLACE WORD # SOURCE`, or fourteen blanks and `# SOURCE`. Returns `None` for any
/// other line.
pub(crate) fn listing_line(line: &[u8]) -> Option<ListingLine<'_>> {
    if let Some(rest) = line.strip_prefix(INDENT) {
        let source = Some(source_in(rest)?);
        return Some(ListingLine { word: None, source });
    }
    let (place, rest) = split_at_blank(line)?;
    let Some((word, rest)) = split_at_blank(rest) else {
        let word = Some((place, rest));
        return Some(ListingLine { word, source: None });
    };
    let source = if rest.is_empty() {
        None
    } else {
        Some(source_in(rest)?)
    };
    Some(ListingLine {
        word: Some((place, word)),
        source,
    })
}

/// Returns what stands behind `# `.
fn source_in(text: &[u8]) -> Option<&[u8]> {
    text.strip_prefix(b"# ")
}

/// Returns what stands before and behind the first blank.
pub(crate) fn split_at_blank(text: &[u8]) -> Option<(&[u8], &[u8])> {
    let at = text.iter().position(|byte| *byte == b' ')?;
    Some((text.get(..at)?, text.get(at.checked_add(1)?..)?))
}
