//! Scores the readings of an unknown rope file: which order of banks, place of the parity bit and order of bytes fits it
//! best.
ghost use Rattle.std.specs.Prelude.{◌≤◌, length};
ghost use Rattle.agc_store.specs.Places.{fixed_words};

use crate::walk::{Reach, follow_orders};
use agc_mend::{
    BitChange, ParityBit, Reading, SumFit, convert, damaged_store, file_of_words, is_bad_parity,
    sum_in_bank, undo_bit_change, word_at,
};
use agc_store::RopeForm;
use agc_store::place::{FIXED_BANKS, FIXED_WORDS};
use std::alloc::{AllocError, Global};

/// The changes of bits that are tried.
const CHANGES: [BitChange; 4] = [
    BitChange::Nothing,
    BitChange::Inverted,
    BitChange::WordInverted,
    BitChange::Reversed,
];

/// How many banks have a sum that fits, as the flight programs check it. Bank 00 is left out: its sum also fits if all its
/// words are inverted.
#[derive(Clone, Copy, Debug, PartialEq, Eq)]
pub struct Sums {
    /// The banks whose sum is their number.
    pub numbers: usize,
    /// The banks whose sum is the complement of their number.
    pub complements: usize,
}

/// How well a reading fits the words of a file.
#[derive(Clone, Copy, Debug, PartialEq, Eq)]
pub struct Score {
    pub reading: Reading,
    /// The change of bits that is undone first.
    pub change: BitChange,
    /// Per cent of the words that are not 0 whose parity is right, or whose unused bit is 0.
    pub bits: usize,
    /// The sums of the banks of the rope that the file holds in this reading.
    pub sums: Sums,
    /// What is reached in this rope.
    pub reach: Reach,
    /// The legal orders that are reached less four for each other place that is reached, weighed by how far `bits` is
    /// above one half.
    pub points: usize,
}

/// Returns the score of each of the 48 readings of a file's words. The words past the last of a rope are left out.
/// Fails if out of memory.
pub fn score_readings(alloc: Global, words: &[u16]) -> Result<Vec<Score>, AllocError> {
    let words = if words.len() > FIXED_WORDS as usize {
        let (rope, _) = words.split_at(FIXED_WORDS as usize);
        rope
    } else {
        words
    };
    let mut scores = Vec::new(alloc);
    for change in CHANGES {
        for is_swapped in [false, true] {
            for parity in [ParityBit::Unused, ParityBit::Last, ParityBit::First] {
                for order in [RopeForm::Classic, RopeForm::Parity] {
                    let reading = Reading {
                        order,
                        parity,
                        is_swapped,
                    };
                    scores.push(score_of(alloc, reading, change, words)?)?;
                }
            }
        }
    }
    Ok(scores)
}

/// Returns the score of a reading.
fn score_of(
    alloc: Global,
    reading: Reading,
    change: BitChange,
    words: &[u16],
) -> Result<Score, AllocError>
    requires { length words.now ≤ fixed_words }
{
    let last = match reading.parity {
        ParityBit::Unused => ParityBit::Unused,
        ParityBit::Last | ParityBit::First => ParityBit::Last,
    };
    let plain = Reading {
        order: RopeForm::Parity,
        parity: last,
        is_swapped: false,
    };
    let words = undo_bit_change(alloc, reading, change, words)?;
    let meant = convert(alloc, reading, plain, words.as_slice())?;
    let sums = sums_of(alloc, meant.as_slice())?;
    let meant = without_filler(alloc, meant.as_slice())?;
    let bits = bits_right(meant.as_slice(), last);
    let reach = reach_of(alloc, meant.as_slice())?;
    Ok(Score {
        reading,
        change,
        bits,
        sums,
        reach,
        points: points_of(bits, reach),
    })
}

/// Returns how many sums fit in the rope of these words, each with its parity bit last.
fn sums_of(alloc: Global, words: &[u16]) -> Result<Sums, AllocError> {
    let file = file_of_words(alloc, words)?;
    let store = damaged_store(alloc, RopeForm::Parity, file.as_slice())?;
    let (mut numbers, mut complements) = (0usize, 0usize);
    for bank in 1..FIXED_BANKS {
        match sum_in_bank(&store, bank) {
            Some(sum) if sum.fit == SumFit::Number => numbers = numbers.saturating_add(1),
            Some(sum) if sum.fit == SumFit::Complement => {
                complements = complements.saturating_add(1);
            }
            _ => {}
        }
    }
    Ok(Sums {
        numbers,
        complements,
    })
}

/// Returns the words with 0 for each that equals its two neighbours: it fills unused places, and is no order.
fn without_filler(alloc: Global, words: &[u16]) -> Result<Vec<u16>, AllocError> {
    (0..words.len())
        .map(|index| {
            let word = word_at(words, index);
            let is_filler = index > 0
                && word == word_at(words, index - 1)
                && word == word_at(words, index + 1);
            if is_filler { 0 } else { word }
        })
        .collect(alloc)
}

/// Returns per cent of the words that are not 0 whose last bit is as it should be.
fn bits_right(words: &[u16], parity: ParityBit) -> usize {
    let count = words.iter().filter(|word| **word != 0).count();
    let right = words
        .iter()
        .filter(|word| **word != 0 && is_bit_right(**word, parity))
        .count();
    if count == 0 {
        0
    } else {
        right.saturating_mul(100) / count
    }
}

fn is_bit_right(word: u16, parity: ParityBit) -> bool {
    match parity {
        ParityBit::Unused => word % 2 == 0,
        ParityBit::Last | ParityBit::First => !is_bad_parity(word),
    }
}

/// Returns what is reached in the rope of these words, each with its parity bit last.
fn reach_of(alloc: Global, words: &[u16]) -> Result<Reach, AllocError> {
    let file = file_of_words(alloc, words)?;
    let store = damaged_store(alloc, RopeForm::Parity, file.as_slice())?;
    follow_orders(alloc, &store)
}

fn points_of(bits: usize, reach: Reach) -> usize {
    let illegal = reach.reached.saturating_sub(reach.legal);
    let orders = reach.legal.saturating_sub(illegal.saturating_mul(4));
    orders.saturating_mul(bits.saturating_sub(50)) / 50
}
