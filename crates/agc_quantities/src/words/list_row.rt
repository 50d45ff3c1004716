//! Prints lists that have come as a table: a heading, and a row of values for each.
use crate::sent::Pair;
use crate::sent_list::{SentList, SentQuantity};
use crate::words::row::{Words, push_columns, push_time, push_values};
use agc_word::Narrow;
use std::alloc::AllocError;

/// Appends the heading of a table: a column for each quantity of all lists.
pub fn push_list_heading(text: &mut String, lists: &[SentList]) -> Result<(), AllocError> {
    text.push_str("cycle,seconds,list")?;
    for list in lists {
        for quantity in &list.quantities {
            push_columns(text, quantity.name.as_str(), quantity.kind)?;
        }
    }
    text.push_str("\n")
}

/// Appends the row of a list that has come with these pairs. The columns of other lists are empty.
pub fn push_list_row(
    text: &mut String,
    lists: &[SentList],
    list: &SentList,
    pairs: &[Pair],
) -> Result<(), AllocError> {
    let [pair, ..] = pairs else {
        return Ok(());
    };
    push_time(text, pair.cycle)?;
    text.push_str(",")?;
    text.push_str(list.name.as_str())?;
    for other in lists {
        let has_come = other.first == list.first && other.second == list.second;
        for quantity in &other.quantities {
            push_cell(text, quantity, has_come, pairs)?;
        }
    }
    text.push_str("\n")
}

/// Appends the values of a quantity, or, if its list has not come, as many empty columns.
fn push_cell(
    text: &mut String,
    quantity: &SentQuantity,
    has_come: bool,
    pairs: &[Pair],
) -> Result<(), AllocError> {
    if has_come {
        return push_values(
            text,
            quantity.kind,
            words_from(pairs, quantity.place),
            false,
        );
    }
    for _column in 0..quantity.kind.columns() {
        text.push_str(",")?;
    }
    Ok(())
}

/// Returns the words from a place on.
fn words_from(pairs: &[Pair], place: usize) -> Words {
    let mut words = [Narrow::PLUS_ZERO; 6];
    let mut at = place;
    for word in words.iter_mut() {
        *word = word_at(pairs, at);
        at = at.saturating_add(1);
    }
    words
}

/// Returns the word at a place; +0 after the last one.
fn word_at(pairs: &[Pair], place: usize) -> Narrow {
    let bits = match pairs.get(place / 2) {
        Some(pair) if place % 2 == 0 => pair.first,
        Some(pair) => pair.second,
        None => 0,
    };
    Narrow::from_bits(bits).unwrap_or(Narrow::PLUS_ZERO)
}
