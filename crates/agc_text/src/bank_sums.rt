//! Adds the words of a bank as they are, and as they would be without damage of one kind.
use agc_mend::{is_bad_parity, word_sum};
use agc_store::place::{FIXED_BANK_SIZE, FIXED_BANKS, FIXED_WORDS};
use agc_store::{RopeForm, index_in_file};
use agc_word::Narrow;
use std::alloc::{AllocError, Global};

/// The banks of a rope.
pub(crate) const BANKS: usize = FIXED_BANKS as usize;

/// The words of a bank.
pub(crate) const SIZE: usize = FIXED_BANK_SIZE as usize;

/// The fewest words that are all ones in an inverted bank, and the fewest different words of banks that are compared.
const LEAST: usize = 8;

/// How the words of a bank are read.
#[derive(Clone, Copy, Debug, PartialEq, Eq)]
pub(crate) enum WordsRead {
    Plain,
    /// The sixteen bits in reverse order.
    Reversed,
    /// The two bytes exchanged.
    Exchanged,
    /// Each word one place later, since all were moved one place on.
    Later,
    /// Each word one place earlier, since all were moved one place back.
    Earlier,
    /// All sixteen bits inverted.
    Inverted,
    /// The fifteen bits inverted, but not the parity bit.
    WordInverted,
}

/// The sixteen bits of each place of a rope: as its file has them, and with its words one place earlier or later.
#[derive(Drop)]
pub(crate) struct RopeBits {
    pub plain: Vec<u16>,
    later: Vec<u16>,
    earlier: Vec<u16>,
}

/// Returns the bits of the words of a file.
pub(crate) fn rope_bits(
    alloc: Global,
    form: RopeForm,
    words: &[u16],
) -> Result<RopeBits, AllocError> {
    Ok(RopeBits {
        plain: bits_by_place(alloc, form, words, 1)?,
        later: bits_by_place(alloc, form, words, 2)?,
        earlier: bits_by_place(alloc, form, words, 0)?,
    })
}

/// Returns the bits of each place of a file that begins with its second word, for `from` 2, with its first one, for 1, or with
/// a 0 before it, for 0.
fn bits_by_place(
    alloc: Global,
    form: RopeForm,
    words: &[u16],
    from: usize,
) -> Result<Vec<u16>, AllocError> {
    (0..FIXED_WORDS as usize)
        .map(|place| {
            let index = index_in_file(form, place).saturating_add(from);
            match index.checked_sub(1) {
                Some(index) => bits_at(words, index),
                None => 0,
            }
        })
        .collect(alloc)
}

/// Returns the sixteen bits at an index.
pub(crate) fn bits_at(bits: &[u16], place: usize) -> u16 {
    bits.get(place).copied().unwrap_or(0)
}

/// Returns the first place of a bank.
fn start_of(bank: usize) -> usize {
    bank.saturating_mul(SIZE)
}

/// Returns whether a bank has two different words. A bank that is filled with one word has no program.
pub(crate) fn is_used(bits: &[u16], bank: usize) -> bool {
    let first = bits_at(bits, start_of(bank)) / 2;
    (0..SIZE).any(|offset| bits_at(bits, start_of(bank).saturating_add(offset)) / 2 != first)
}

/// Returns the bits of each place, with words that were moved put back.
fn bits_read(rope: &RopeBits, read: WordsRead) -> &[u16] {
    match read {
        WordsRead::Later => rope.later.as_slice(),
        WordsRead::Earlier => rope.earlier.as_slice(),
        _ => rope.plain.as_slice(),
    }
}

/// Returns whether a bank has two different words, read in one way.
pub(crate) fn is_used_read(rope: &RopeBits, bank: usize, read: WordsRead) -> bool {
    is_used(bits_read(rope, read), bank)
}

/// Returns the sum of the words of a bank, read in one way.
pub(crate) fn sum_read(rope: &RopeBits, bank: usize, read: WordsRead) -> Narrow {
    let bits = bits_read(rope, read);
    let mut sum = Narrow::PLUS_ZERO;
    for offset in 0..SIZE {
        let word = bits_at(bits, start_of(bank).saturating_add(offset));
        sum = word_sum(sum, Narrow::with_bits(word_read(word, read) / 2));
    }
    sum
}

/// Returns a word with a change of its bits undone.
fn word_read(word: u16, read: WordsRead) -> u16 {
    match read {
        WordsRead::Plain | WordsRead::Later | WordsRead::Earlier => word,
        WordsRead::Reversed => word.reverse_bits(),
        WordsRead::Exchanged => word % 256 * 256 + word / 256,
        WordsRead::Inverted => !word,
        WordsRead::WordInverted => word ^ 0xFFFE,
    }
}

/// Returns the bank whose number, or the complement of it, a sum is.
pub(crate) fn number_of(sum: Narrow) -> Option<usize> {
    let bank = usize::from(sum.magnitude());
    if bank < BANKS { Some(bank) } else { None }
}

/// Returns whether two banks have the same words, and more than a few different ones.
pub(crate) fn has_same_words(bits: &[u16], first: usize, second: usize) -> bool {
    let mut different = 0usize;
    let mut last = 0;
    for offset in 0..SIZE {
        let word = bits_at(bits, start_of(first).saturating_add(offset));
        if word != bits_at(bits, start_of(second).saturating_add(offset)) {
            return false;
        }
        if word != last {
            different = different.saturating_add(1);
        }
        last = word;
    }
    different >= LEAST
}

/// How many words of a bank are filled with ones, are 0, and among the others have right and wrong parity.
#[derive(Clone, Copy, Debug, PartialEq, Eq)]
struct Fill {
    full: usize,
    empty: usize,
    right: usize,
    wrong: usize,
}

/// Counts the words of a bank. In the form with parity the last bit of a word that is filled with ones does not count: an
/// unused place has a parity bit or none.
fn fill_of(form: RopeForm, bits: &[u16], bank: usize, ones: u16) -> Fill {
    let (mut full, mut empty, mut right, mut wrong) = (0usize, 0usize, 0usize, 0usize);
    for offset in 0..SIZE {
        let word = bits_at(bits, start_of(bank).saturating_add(offset));
        if word == ones || form == RopeForm::Parity && word >= 0xFFFE {
            full = full.saturating_add(1);
        } else if word == 0 {
            empty = empty.saturating_add(1);
        } else if is_bad_parity(word) {
            wrong = wrong.saturating_add(1);
        } else {
            right = right.saturating_add(1);
        }
    }
    Fill {
        full,
        empty,
        right,
        wrong,
    }
}

/// Returns whether a bank looks inverted in one way: more words than are empty are filled with ones, and in the form with
/// parity most other words have the parity that they have then; or there all of them have wrong parity.
pub(crate) fn looks_inverted(form: RopeForm, bits: &[u16], bank: usize, read: WordsRead) -> bool {
    let fill = fill_of(form, bits, bank, ones_of(read));
    let is_filled = fill.full >= LEAST && fill.full > fill.empty;
    match (form, read) {
        (RopeForm::Parity, WordsRead::WordInverted) => {
            fill.wrong > fill.right && (is_filled || fill.right == 0 && fill.wrong >= LEAST)
        }
        (RopeForm::Parity, _) => is_filled && fill.right >= fill.wrong,
        (RopeForm::Classic, _) => is_filled,
    }
}

/// Returns whether nothing in a bank speaks against inverted words but that few are filled with ones: few are empty, and in the
/// form with parity most words have the parity that they have then.
pub(crate) fn may_be_inverted(form: RopeForm, bits: &[u16], bank: usize, read: WordsRead) -> bool {
    let fill = fill_of(form, bits, bank, ones_of(read));
    let is_empty = fill.empty >= LEAST && fill.empty > fill.full;
    let has_parity = match (form, read) {
        (RopeForm::Parity, WordsRead::WordInverted) => fill.wrong > fill.right,
        (RopeForm::Parity, _) => fill.right >= fill.wrong,
        (RopeForm::Classic, _) => true,
    };
    has_parity && !is_empty
}

/// Returns a word that is 0 with its bits inverted in one way.
fn ones_of(read: WordsRead) -> u16 {
    if read == WordsRead::WordInverted {
        0xFFFE
    } else {
        0xFFFF
    }
}

/// Returns whether a word of a bank has wrong parity.
pub(crate) fn has_wrong_parity(bits: &[u16], bank: usize) -> bool {
    (0..SIZE).any(|offset| is_bad_parity(bits_at(bits, start_of(bank).saturating_add(offset))))
}

/// Returns whether the last of the sixteen bits is 1 in a word of a bank: in the classic form it is unused.
pub(crate) fn has_last_bit(bits: &[u16], bank: usize) -> bool {
    (0..SIZE).any(|offset| bits_at(bits, start_of(bank).saturating_add(offset)) % 2 == 1)
}

/// Returns whether the first place of a bank has no word: in the form with parity a word +0 has a parity bit.
pub(crate) fn is_first_empty(bits: &[u16], bank: usize) -> bool {
    bits_at(bits, start_of(bank)) == 0
}

/// Returns whether the first place of a bank is empty, and at least two words of the bank name it as orders; in the classic
/// form, in which +0 may be a word of the program, as TC or TCF.
pub(crate) fn is_first_named(form: RopeForm, bits: &[u16], bank: usize) -> bool {
    let first = match bank {
        2 => 0o4000,
        3 => 0o6000,
        _ => 0o2000,
    };
    let last_code = match form {
        RopeForm::Classic => 1,
        RopeForm::Parity => 7,
    };
    let named = (0..SIZE)
        .filter(|offset| {
            let word = bits_at(bits, start_of(bank).saturating_add(*offset)) / 2;
            word % 0o10000 == first && word / 0o10000 <= last_code
        })
        .count();
    is_first_empty(bits, bank) && named >= 2
}
