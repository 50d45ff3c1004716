//! Finds the lines of a script file by number.
ghost use Rattle.std.specs.Prelude.{◌≡◌, ◌-◌, ◌≤◌, length, slice_get, option_map, Some};
ghost use Rattle.std.specs.List.{slice_split};
ghost use Rattle.agc_word.specs.Text.{is_line_feed, lines_of};

use agc_script::{EVERY, read_cycle};
use agc_word::{next_word, without_return};

/// Returns the line with a number, counted from 1, without its end.
pub(crate) fn line_at(file: &[u8], number: usize) -> &[u8]
    requires first { 1 ≤ number }
    requires last { number ≤ length (lines_of file.now) }
    ensures { slice_get (lines_of file.now) (number - 1) ≡ Some result.now }
{
    match part_at(file, number - 1) {
        Some(line) => without_return(line),
        None => file,
    }
}

/// Returns the part at an index among those separated by line feeds.
fn part_at(file: &[u8], place: usize) -> Option<&[u8]>
    ensures { option_map (λ part. part.now) result ≡ slice_get (slice_split is_line_feed file.now) place }
{
    file.split(|b| *b == b'\n').nth(place)
}

/// Returns the start of the last event line among the first `lines` lines, none of which is faulty;
/// 0 if no line is an event line.
pub(crate) fn last_start(file: &[u8], lines: usize) -> u64 {
    let mut last = 0;
    for line in file.split(|b| *b == b'\n').take(lines) {
        if let Some(start) = start_of(without_return(line)) {
            last = start;
        }
    }
    last
}

/// Returns the cycle at which an event line starts.
fn start_of(line: &[u8]) -> Option<u64> {
    let (first, rest) = next_word(line)?;
    if first == EVERY.as_bytes() {
        let (_, rest) = next_word(rest)?;
        let (from, _) = next_word(rest)?;
        read_cycle(from)
    } else {
        read_cycle(first)
    }
}
