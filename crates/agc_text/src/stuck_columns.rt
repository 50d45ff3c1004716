//! Reports bits that are stuck in part of a rope.
use agc_listing::push_rope_place;
use agc_mend::{
    HALF_BANK, HALF_BANKS, MODULE, column_of, columns_of, explain_most, used_in, wrong_in,
};
use agc_store::place::FIXED_WORDS;
use std::alloc::{AllocError, Global};

/// Part of a rope: some half banks.
#[derive(Clone, Copy)]
struct Part {
    half: usize,
    halves: usize,
    bit: u32,
}

/// Appends the bits that are stuck, each with its part of the rope, if they explain most words with wrong parity. `bits` has
/// sixteen bits for each place.
pub(crate) fn push_stuck_columns(
    alloc: Global,
    text: &mut String,
    bits: &[u16],
) -> Result<(), AllocError> {
    let columns = columns_of(alloc, bits)?;
    let wrong = wrong_in(bits, 0, FIXED_WORDS as usize);
    if !explain_most(wrong_in_columns(bits, columns.as_slice()), wrong) {
        return Ok(());
    }
    let mut half = 0usize;
    for _ in 0..HALF_BANKS {
        if half >= HALF_BANKS {
            break;
        }
        half = match column_of(columns.as_slice(), half.saturating_mul(HALF_BANK)) {
            Some(bit) => {
                let halves = halves_from(columns.as_slice(), half, bit);
                push_stuck_part(text, bits, Part { half, halves, bit })?;
                half.saturating_add(halves)
            }
            None => half.saturating_add(1),
        };
    }
    Ok(())
}

/// Returns how many words with wrong parity are in half banks with a stuck bit.
fn wrong_in_columns(bits: &[u16], columns: &[Option<u32>]) -> usize {
    let mut count = 0usize;
    for half in 0..HALF_BANKS {
        let first = half.saturating_mul(HALF_BANK);
        if column_of(columns, first).is_some() {
            count = count.saturating_add(wrong_in(bits, first, HALF_BANK));
        }
    }
    count
}

/// Returns how many half banks from one on have the same bit stuck.
fn halves_from(columns: &[Option<u32>], half: usize, bit: u32) -> usize {
    let mut count = 0usize;
    for at in half..HALF_BANKS {
        if column_of(columns, at.saturating_mul(HALF_BANK)) != Some(bit) {
            break;
        }
        count = count.saturating_add(1);
    }
    count
}

/// Appends a bit that is stuck, the part of the rope, and how many words it has there.
fn push_stuck_part(text: &mut String, bits: &[u16], part: Part) -> Result<(), AllocError> {
    let first = part.half.saturating_mul(HALF_BANK);
    let count = part.halves.saturating_mul(HALF_BANK);
    let last = first.saturating_add(count).saturating_sub(1);
    if last >= FIXED_WORDS as usize || first > last {
        return Ok(());
    }
    let (used, wrong) = (used_in(bits, first, count), wrong_in(bits, first, count));
    text.push_str("stuck: ")?;
    push_bit(text, part.bit)?;
    let value = if has_ones(bits, first, count, part.bit) {
        1
    } else {
        0
    };
    write!(text, " is {value} in all {used} words of ")?;
    push_part(text, part)?;
    text.push_str(", ")?;
    push_rope_place(text, first)?;
    text.push_str(" to ")?;
    push_rope_place(text, last)?;
    writeln!(text, "; {wrong} have wrong parity (likely)")?;
    text.push_str(
        "    mended by: repair ROPE --stuck > repairs, and patch ROPE repairs --form parity\n",
    )
}

fn push_bit(text: &mut String, bit: u32) -> Result<(), AllocError> {
    if bit == 0 {
        text.push_str("the parity bit")
    } else {
        write!(text, "bit {bit}")
    }
}

/// Returns whether a bit is 1 in the first word of some places.
fn has_ones(bits: &[u16], first: usize, count: usize, bit: u32) -> bool {
    let word = bits
        .iter()
        .skip(first)
        .take(count)
        .copied()
        .find(|word| *word != 0);
    match word {
        Some(word) if bit < 16 => word >> bit & 1 == 1,
        _ => false,
    }
}

/// Appends what some half banks are.
fn push_part(text: &mut String, part: Part) -> Result<(), AllocError> {
    let halves_of_module = MODULE / HALF_BANK;
    if part.halves >= HALF_BANKS {
        text.push_str("the rope")
    } else if part.halves == halves_of_module && part.half % halves_of_module == 0 {
        let module = (part.half / halves_of_module).saturating_add(1);
        write!(text, "module {module}")
    } else if part.halves == 2 && part.half % 2 == 0 {
        text.push_str("a bank")
    } else if part.halves == 1 {
        text.push_str("a half bank")
    } else {
        text.push_str("some half banks")
    }
}
