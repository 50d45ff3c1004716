//! Draws a rope as a map: a tile for each bank, in a row those of a module, with a cell for each word.
use crate::rope_words::{BANKS, Held, RopeWords, SIZE, place_in};
use agc_mend::{SumFit, sum_in_bank};
use std::alloc::AllocError;

/// The words in a row of a tile: 100 octal.
const COLUMNS: usize = 64;

/// The rows of a tile.
const ROWS: usize = SIZE / COLUMNS;

/// The banks of a module.
const MODULE: usize = 6;

/// Where the tiles begin, and how far they are from each other.
const LEFT: usize = 62;

const TOP: usize = 14;

const ACROSS: usize = 140;

const DOWN: usize = 80;

/// Appends the map of a rope, with a mark at each of the places of another rope whose words differ.
pub(crate) fn push_map(
    text: &mut String,
    rope: &RopeWords,
    apart: &[usize],
) -> Result<(), AllocError> {
    let (width, height) = (LEFT + MODULE * ACROSS, TOP + MODULE * DOWN);
    writeln!(
        text,
        "<svg class='map' viewBox='0 0 {width} {height}' role='img' aria-label='The banks of the rope'>"
    )?;
    for bank in 0..BANKS {
        if bank % MODULE == 0 {
            push_module(text, bank / MODULE)?;
        }
        push_tile(text, rope, apart, bank)?;
    }
    text.push_str("</svg>\n")
}

fn push_module(text: &mut String, row: usize) -> Result<(), AllocError> {
    let y = row.saturating_mul(DOWN).saturating_add(TOP + 28);
    let module = row.saturating_add(1);
    writeln!(
        text,
        "<text class='module' x='0' y='{y}'>module {module}</text>"
    )
}

/// Appends the tile of a bank. Inside, a word is two units wide and two high, from 1 on, so that marks may begin before it.
fn push_tile(
    text: &mut String,
    rope: &RopeWords,
    apart: &[usize],
    bank: usize,
) -> Result<(), AllocError> {
    let x = (bank % MODULE).saturating_mul(ACROSS).saturating_add(LEFT);
    let y = (bank / MODULE).saturating_mul(DOWN).saturating_add(TOP);
    writeln!(text, "<g transform='translate({x} {y})'>")?;
    push_captions(text, rope, apart, bank)?;
    let class = match fit_in(rope, bank) {
        Some(SumFit::Neither) => "bank odd",
        _ => "bank",
    };
    writeln!(
        text,
        "<g transform='scale(1 1.5) translate(-1 -1)'><rect class='{class}' x='1' y='1' width='128' height='32'/>"
    )?;
    push_runs(text, rope, bank, Held::Reached, "code")?;
    push_runs(text, rope, bank, Held::NotReached, "data")?;
    push_wrong(text, rope, bank)?;
    push_apart(text, apart, bank)?;
    text.push_str("</g></g>\n")
}

/// Returns how the sum of a bank fits it; `None` if the bank has no words.
pub(crate) fn fit_in(rope: &RopeWords, bank: usize) -> Option<SumFit> {
    if bank >= BANKS {
        return None;
    }
    match sum_in_bank(&rope.store, bank as u8) {
        Some(sum) => Some(sum.fit),
        None => None,
    }
}

/// Appends the number of a bank, and what is odd in it.
fn push_captions(
    text: &mut String,
    rope: &RopeWords,
    apart: &[usize],
    bank: usize,
) -> Result<(), AllocError> {
    let used = rope.used_in(bank);
    write!(
        text,
        "<title>bank {bank:02o}: {used} words</title><text class='number' y='-3'>{bank:02o}</text>"
    )?;
    let sum = match fit_in(rope, bank) {
        None => "no words",
        Some(SumFit::Neither) => "sum wrong",
        Some(_) => "sum right",
    };
    write!(text, "<text class='sum' x='128' y='-3'>{sum}</text>")?;
    let (wrong, differ) = (rope.wrong_in(bank), count_in(apart, bank));
    if wrong > 0 || differ > 0 {
        text.push_str("<text class='odd' y='58'>")?;
        if wrong > 0 {
            write!(text, "{wrong} bad parity")?;
        }
        if wrong > 0 && differ > 0 {
            text.push_str(", ")?;
        }
        if differ > 0 {
            write!(text, "{differ} differ")?;
        }
        text.push_str("</text>")?;
    }
    text.push_str("\n")
}

/// Returns how many of these places are in a bank.
pub(crate) fn count_in(places: &[usize], bank: usize) -> usize {
    places.iter().filter(|place| **place / SIZE == bank).count()
}

/// Appends the cells of a bank that have this.
fn push_runs(
    text: &mut String,
    rope: &RopeWords,
    bank: usize,
    what: Held,
    class: &str,
) -> Result<(), AllocError> {
    if rope.count_in_bank(bank, what) == 0 {
        return Ok(());
    }
    write!(text, "<path class='{class}' d='")?;
    for row in 0..ROWS {
        push_row(text, rope, bank, row, what)?;
    }
    text.push_str("'/>\n")
}

/// Appends the runs of cells in a row.
fn push_row(
    text: &mut String,
    rope: &RopeWords,
    bank: usize,
    row: usize,
    what: Held,
) -> Result<(), AllocError> {
    let mut first = None;
    for column in 0..COLUMNS + 1 {
        let place = place_in(bank, row.saturating_mul(COLUMNS).saturating_add(column));
        let has = column < COLUMNS && rope.held_at(place) == what;
        match first {
            None if has => first = Some(column),
            Some(start) if !has => {
                push_run(text, row, start, column)?;
                first = None;
            }
            _ => {}
        }
    }
    Ok(())
}

/// Appends a line over the cells of a row from one column to another.
fn push_run(text: &mut String, row: usize, start: usize, end: usize) -> Result<(), AllocError> {
    let (x, y) = (twice(start).saturating_add(1), twice(row).saturating_add(2));
    let width = twice(end.saturating_sub(start));
    write!(text, "M{x} {y}h{width}")
}

fn twice(count: usize) -> usize {
    count.saturating_mul(2)
}

/// Appends a mark at each word of a bank with wrong parity.
fn push_wrong(text: &mut String, rope: &RopeWords, bank: usize) -> Result<(), AllocError> {
    if rope.wrong_in(bank) == 0 {
        return Ok(());
    }
    text.push_str("<path class='bad' d='")?;
    for bad in rope.wrong.as_slice() {
        if bad.place / SIZE == bank {
            push_mark(text, bad.place % SIZE)?;
        }
    }
    text.push_str("'/>\n")
}

/// Appends a mark at each word of a bank that differs.
fn push_apart(text: &mut String, apart: &[usize], bank: usize) -> Result<(), AllocError> {
    if count_in(apart, bank) == 0 {
        return Ok(());
    }
    text.push_str("<path class='apart' d='")?;
    for place in apart {
        if *place / SIZE == bank {
            push_mark(text, *place % SIZE)?;
        }
    }
    text.push_str("'/>\n")
}

/// Appends a box around the cell of an offset.
fn push_mark(text: &mut String, offset: usize) -> Result<(), AllocError> {
    let (x, y) = (twice(offset % COLUMNS), twice(offset / COLUMNS));
    write!(text, "M{x} {y}h4v4h-4z")
}
