//! Converts a rope file to another reading, or writes some of its banks.
ghost use Rattle.std.specs.Prelude.{◌<◌};
ghost use Rattle.agc_store.specs.Places.{fixed_words};

use crate::args::{ConvertArgs, DumpArgs, Moved};
use agc_dump::{DumpLayout, Radix, push_dump};
use agc_mend::{
    BadWord, BitChange, Dump, NO_BANK, ParityBit, Reading, bad_words, convert, file_of_words,
    file_words, right_words, undo_bit_change, words_in_banks, words_of_banks,
};
use agc_store::place::{FIXED_BANK_SIZE, FIXED_BANKS, FIXED_WORDS, bank_of, offset_of};
use agc_store::{RopeFault, RopeForm, index_in_file};
use std::alloc::{AllocError, Global};

/// A rope file that was converted.
#[derive(Drop)]
pub struct ConvertedRope {
    pub file: Vec<u8>,
    /// The number of its words.
    pub words: usize,
    /// The words whose parity bits were wrong and are right now, with their places in the rope.
    pub mended: Vec<BadWord>,
    /// The number of words whose parity is wrong still.
    pub wrong: usize,
    /// The word that `--moved` left out, if it is not 0: the first one of the file, or the last one of a whole rope.
    pub dropped: Option<u16>,
}

/// Converts a rope file to another reading. A word with wrong parity is a fault, unless parity is ignored, or some banks are
/// copied with their parity bits.
pub fn convert_rope(
    alloc: Global,
    args: &ConvertArgs,
    file: &[u8],
) -> Result<ConvertedRope, RopeFault> {
    let words = words_of_file(alloc, args.before, args.change, args.first_bank, file)?;
    let dropped = dropped_word(args, words.as_slice());
    let words = moved_words(alloc, args.moved, words).map_err(no_memory)?;
    let words = picked_words(alloc, args, words)?;
    let (before, after) = readings_of(args);
    let plain = plain_reading(before, before.order);
    let words = convert_words(alloc, before, plain, words.as_slice())?;
    let bad = wrong_words(alloc, args, words.as_slice())?;
    let (words, mended, wrong) = if copies_parity(args) {
        (words, Vec::new(alloc), bad.len())
    } else if bad.is_empty() {
        (words, bad, 0)
    } else {
        let right = right_words(alloc, words.as_slice()).map_err(no_memory)?;
        (right, bad, 0)
    };
    let words = convert_words(alloc, plain, after, words.as_slice())?;
    Ok(ConvertedRope {
        file: file_of_words(alloc, words.as_slice()).map_err(no_memory)?,
        words: words.len(),
        mended,
        wrong,
        dropped,
    })
}

/// Returns a rope file that was converted as a text of numbers.
pub fn dump_text(
    alloc: Global,
    args: &ConvertArgs,
    radix: Radix,
    file: &[u8],
) -> Result<String, AllocError> {
    let words = file_words(alloc, file)?;
    let words = printed_words(alloc, args, radix, words)?;
    let (_before, after) = readings_of(args);
    let mut banks: &[u8] = &[];
    if args.banks.len() < usize::from(FIXED_BANKS) {
        banks = args.banks.as_slice();
    }
    let layout = DumpLayout {
        order: after.order,
        banks,
        has_parity: after.parity != ParityBit::Unused,
    };
    let mut text = String::new(alloc);
    push_dump(&mut text, radix, layout, words.as_slice())?;
    Ok(text)
}

/// Returns the words of a file for a text. Behind an octal word stands its parity bit, so that bit is the last one here.
fn printed_words(
    alloc: Global,
    args: &ConvertArgs,
    radix: Radix,
    words: Vec<u16>,
) -> Result<Vec<u16>, AllocError> {
    if radix == Radix::Hex || args.after.parity != ParityBit::First {
        return Ok(words);
    }
    words
        .as_slice()
        .iter()
        .map(|word| *word << 1 | *word >> 15)
        .collect(alloc)
}

/// Returns the word that `--moved` leaves out, if it is not 0.
fn dropped_word(args: &ConvertArgs, words: &[u16]) -> Option<u16> {
    let left_out = match args.moved {
        Moved::Nowhere => None,
        Moved::On => words.first(),
        Moved::Back => words.get(FIXED_WORDS as usize - 1),
    };
    left_out.copied().filter(|word| *word != 0)
}

/// Returns the words of a file with their move by one place undone.
fn moved_words(alloc: Global, moved: Moved, words: Vec<u16>) -> Result<Vec<u16>, AllocError> {
    match moved {
        Moved::Nowhere => Ok(words),
        Moved::On => {
            let mut new: Vec<u16> = words.as_slice().iter().skip(1).copied().collect(alloc)?;
            new.push(0)?;
            Ok(new)
        }
        Moved::Back => {
            let mut new = Vec::new(alloc);
            new.push(0)?;
            for word in words.as_slice().iter().take(FIXED_WORDS as usize - 1) {
                new.push(*word)?;
            }
            Ok(new)
        }
    }
}

/// Returns the words of the banks of `--banks`, if there are any, else all words.
fn picked_words(alloc: Global, args: &ConvertArgs, words: Vec<u16>) -> Result<Vec<u16>, RopeFault> {
    let banks = args.banks.as_slice();
    if banks.is_empty() || banks.len() > usize::from(FIXED_BANKS) {
        return Ok(words);
    }
    words_of_banks(alloc, args.before.order, banks, words.as_slice()).map_err(no_memory)
}

/// Returns the readings before and after. Banks that `--banks` names are one after the other, and so are those of the result,
/// unless they are all 36.
fn readings_of(args: &ConvertArgs) -> (Reading, Reading) {
    let count = args.banks.len();
    let by_bank = RopeForm::Parity;
    let mut readings = (args.before, args.after);
    if count > 0 {
        readings.0.order = by_bank;
    }
    if count > 0 && count < usize::from(FIXED_BANKS) {
        readings.1.order = by_bank;
    }
    readings
}

/// Returns whether parity bits are copied, right or wrong.
fn copies_parity(args: &ConvertArgs) -> bool {
    !args.banks.is_empty()
        && args.after.parity != ParityBit::Unused
        && args.before.parity != ParityBit::Unused
        && !args.ignores_parity
}

/// Returns a reading whose words have their bytes in order and their parity bit, if they use one, at the end.
fn plain_reading(before: Reading, order: RopeForm) -> Reading {
    Reading {
        order,
        parity: match before.parity {
            ParityBit::Unused => ParityBit::Unused,
            ParityBit::Last | ParityBit::First => ParityBit::Last,
        },
        is_swapped: false,
    }
}

/// Reads a dump of a rope: its words by place, whatever their parity.
pub fn read_dump(alloc: Global, args: &DumpArgs, file: &[u8]) -> Result<Dump, RopeFault> {
    let words = words_of_file(alloc, args.before, args.change, args.first_bank, file)?;
    let by_place = plain_reading(args.before, RopeForm::Parity);
    Ok(Dump {
        words: convert_words(alloc, args.before, by_place, words.as_slice())?,
        has_parity: by_place.parity != ParityBit::Unused,
    })
}

/// Returns the words of a file with the change of their bits undone, in their banks.
fn words_of_file(
    alloc: Global,
    before: Reading,
    change: BitChange,
    first_bank: Option<u8>,
    file: &[u8],
) -> Result<Vec<u16>, RopeFault> {
    let words = file_words(alloc, file).map_err(no_memory)?;
    let words = undo_bit_change(alloc, before, change, words.as_slice()).map_err(no_memory)?;
    let Some(first) = first_bank else {
        return Ok(words);
    };
    match words_in_banks(alloc, before.order, first, words.as_slice()) {
        Ok(Some(placed)) => Ok(placed),
        Ok(None) => Err(RopeFault::TooLong),
        Err(_) => Err(RopeFault::Memory),
    }
}

fn no_memory(_error: AllocError) -> RopeFault {
    RopeFault::Memory
}

/// Converts words, if they are not more than those of a rope.
fn convert_words(
    alloc: Global,
    before: Reading,
    after: Reading,
    words: &[u16],
) -> Result<Vec<u16>, RopeFault> {
    if words.len() > FIXED_WORDS as usize {
        return Err(RopeFault::TooLong);
    }
    convert(alloc, before, after, words).map_err(no_memory)
}

/// Returns the words with wrong parity, with their places in the rope. The first one is a fault, unless parity is ignored or
/// its bits are copied.
fn wrong_words(
    alloc: Global,
    args: &ConvertArgs,
    words: &[u16],
) -> Result<Vec<BadWord>, RopeFault> {
    let mut wrong = Vec::new(alloc);
    if args.before.parity == ParityBit::Unused {
        return Ok(wrong);
    }
    let bad = bad_words(alloc, words).map_err(no_memory)?;
    for each in bad.as_slice() {
        if each.place < FIXED_WORDS as usize {
            let place = place_in_rope(args, each.place);
            if !args.ignores_parity && !copies_parity(args) {
                return Err(RopeFault::Parity {
                    bank: bank_of(place as u32),
                    offset: offset_of(place as u32),
                });
            }
            let word = each.word;
            if wrong.push(BadWord { place, word }).is_err() {
                return Err(RopeFault::Memory);
            }
        }
    }
    Ok(wrong)
}

/// Returns the place in the rope of a word of the file, or of the banks that `--banks` names.
fn place_in_rope(args: &ConvertArgs, index: usize) -> usize
    requires { index < fixed_words }
    ensures { result < fixed_words }
{
    if args.banks.is_empty() {
        return index_in_file(args.before.order, index);
    }
    let size = FIXED_BANK_SIZE as usize;
    match args.banks.get(index / size).copied() {
        Some(bank) if bank < NO_BANK => size * usize::from(bank) + index % size,
        _ => index,
    }
}
