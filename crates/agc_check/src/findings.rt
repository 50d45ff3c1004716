//! Reports what a restorer wants to know of a rope file: words with wrong parity and their repairs, how well each reading
//! fits, the sums of the banks, and words that nothing reaches. Every remark says how sure it is.
use crate::damage::{Damage, MOST_REPAIRED, damage_of};
use crate::scores::{Score, score_readings};
use agc_listing::{push_rope_place, read_line};
use agc_mend::{
    BadWord, BankSum, BitChange, ParityBit, Reading, Repair, SumFit, bad_words, damaged_store,
    file_words, push_repair, repairs, sum_in_bank,
};
use agc_store::place::{FIXED_BANKS, FIXED_WORDS, place_of};
use agc_store::{RopeForm, Store};
use agc_word::{Narrow, next_line};
use std::alloc::{AllocError, Global};

/// The most repairs of a word that a report prints, apart from those with which the sum of the bank fits.
const MOST_REPAIRS: usize = 4;

/// The fewest banks whose sums show a reading: a single sum fits by chance in one bank of 16,000.
const FEWEST_SUMS: usize = 2;

/// The fewest banks whose sums make a reading sure.
const SURE_SUMS: usize = 4;

/// How much more per cent of the bits have to be right for that to show a reading: in bits that are neither parity bits nor
/// unused ones about half are right.
const SURE_BITS: usize = 25;

/// Appends the findings on a rope file, if it has whole words and not more than a rope.
pub fn push_findings(
    alloc: Global,
    text: &mut String,
    form: RopeForm,
    is_placed: bool,
    file: &[u8],
) -> Result<(), AllocError> {
    if file.is_empty() || file.len() % 2 == 1 || file.len() > 2 * FIXED_WORDS as usize {
        return Ok(());
    }
    let words = file_words(alloc, file)?;
    let store = damaged_store(alloc, form, file)?;
    let wrong = match form {
        RopeForm::Classic => Vec::new(alloc),
        RopeForm::Parity => bad_words(alloc, words.as_slice())?,
    };
    let damage = damage_of(words.as_slice(), wrong.as_slice());
    let is_settled = damage == Damage::Words && are_sums_right(&store);
    let scores = score_readings(alloc, words.as_slice())?;
    let readings = readings_of(form, is_settled, scores.as_slice());
    if damage == Damage::Words && readings.are_surely_others(is_placed) {
        push_count_alone(text, wrong.len())?;
    } else {
        push_bad_words(alloc, text, &store, is_placed, wrong.as_slice(), damage)?;
    }
    push_readings(text, is_placed, readings)?;
    for bank in 0..FIXED_BANKS {
        if let Some(sum) = sum_in_bank(&store, bank) {
            push_sum(text, sum)?;
        }
    }
    Ok(())
}

/// Returns whether the sums of all used banks are right, and one of them is its bank's number: in an inverted file all may
/// be complements.
fn are_sums_right(store: &Store) -> bool {
    let mut has_number = false;
    for bank in 0..FIXED_BANKS {
        if let Some(sum) = sum_in_bank(store, bank) {
            if sum.fit == SumFit::Neither {
                return false;
            }
            has_number = has_number || sum.fit == SumFit::Number && bank != 0;
        }
    }
    has_number
}

/// Appends the number of words with wrong parity of a file that has another reading: one bit of a word read wrongly repairs
/// nothing.
fn push_count_alone(text: &mut String, count: usize) -> Result<(), AllocError> {
    if count == 0 {
        return Ok(());
    }
    writeln!(text, "words with wrong parity: {count} (certain)")?;
    text.push_str("    check prints repairs once the file is converted to the reading below\n")
}

/// Appends the words with wrong parity, each with its most plausible repairs.
fn push_bad_words(
    alloc: Global,
    text: &mut String,
    store: &Store,
    is_placed: bool,
    wrong: &[BadWord],
    damage: Damage,
) -> Result<(), AllocError> {
    let count = wrong.len();
    if count == 0 {
        return Ok(());
    }
    writeln!(text, "words with wrong parity: {count} (certain)")?;
    match damage {
        Damage::Words => {
            for bad in wrong.iter().take(MOST_REPAIRED) {
                if bad.place < FIXED_WORDS as usize {
                    let found = repairs(alloc, store, is_placed, wrong, *bad)?;
                    push_bad_word(text, store, *bad, found.as_slice())?;
                }
            }
            if count > MOST_REPAIRED {
                writeln!(text, "    .. the first {MOST_REPAIRED} are shown")?;
            }
            Ok(())
        }
        Damage::Stuck(bit) => {
            text.push_str("    ")?;
            push_stuck(text, bit)?;
            text.push_str(" (likely); repair prints the words\n")
        }
        Damage::Layout => text.push_str(
            "    more than one word in ten: the file has another layout, or is not a rope (likely)\n",
        ),
    }
}

/// Appends that a bit is stuck. Bit 0 of sixteen is the parity bit, and the others have the numbers of a word's bits.
pub fn push_stuck(text: &mut String, bit: u32) -> Result<(), AllocError> {
    if bit == 0 {
        text.push_str("the parity bit is the same in all of them: it is stuck")
    } else {
        write!(text, "bit {bit} is the same in all of them: it is stuck")
    }
}

/// Appends a word with wrong parity, and its repairs with which the sum of its bank fits, or up to four that are legal
/// orders.
fn push_bad_word(
    text: &mut String,
    store: &Store,
    bad: BadWord,
    found: &[Repair],
) -> Result<(), AllocError> {
    let (word, parity) = (Narrow::with_bits(bad.word / 2), bad.word % 2);
    text.push_str("    ")?;
    push_rope_place(text, bad.place)?;
    write!(text, " {word} parity bit {parity}; with one bit changed")?;
    let mut shown = 0usize;
    for repair in found {
        let fits = repair.plausibility >= 8;
        if fits || repair.is_legal && shown < MOST_REPAIRS {
            shown = shown.saturating_add(1);
            text.push_str(", ")?;
            if repair.place < FIXED_WORDS as usize {
                push_repair(text, store, *repair)?;
            }
        }
    }
    text.push_str("\n")
}

/// How well the given form fits a file, and the reading that fits best.
#[derive(Clone, Copy)]
struct Readings {
    given: Option<Score>,
    best: Option<Score>,
    /// Whether the best reading fits far better than every other one.
    is_sure: bool,
    /// Whether the sums of the banks settle that the given form is right.
    is_settled: bool,
}

impl Readings {
    /// Returns the reading that fits better than the given form, if there is one.
    fn better(self) -> Option<Score> {
        let best = self.best?;
        if !self.is_settled && fits_better(best, self.given?) {
            Some(best)
        } else {
            None
        }
    }

    /// Returns whether the file surely has another reading than the given form.
    fn are_surely_others(self, is_placed: bool) -> bool {
        is_placed && self.is_sure && self.better().is_some()
    }
}

/// Returns how well the given form and the best reading fit.
fn readings_of(form: RopeForm, is_settled: bool, scores: &[Score]) -> Readings {
    let (mut given, mut best) = (None, None);
    for score in scores {
        if is_of_form(*score, form) {
            given = Some(*score);
        }
        best = better_of(best, *score);
    }
    let is_sure = match best {
        Some(best) => scores
            .iter()
            .all(|other| *other == best || is_far_better(best, *other)),
        None => false,
    };
    Readings {
        given,
        best,
        is_sure,
        is_settled,
    }
}

/// Returns the one of two readings that fits better. A reading with neither sums nor points is left out.
fn better_of(best: Option<Score>, other: Score) -> Option<Score> {
    match best {
        Some(best) if !fits_better(other, best) => Some(best),
        None if other.points == 0 && sums_for(other) == 0 => None,
        _ => Some(other),
    }
}

/// Returns the number of banks whose sums speak for a reading.
fn sums_for(score: Score) -> usize {
    let fitting = score.sums.numbers.saturating_add(score.sums.complements);
    if fitting < FEWEST_SUMS { 0 } else { fitting }
}

/// Returns whether sums speak for a reading, and all of them are the banks' numbers: in inverted words the same are complements.
fn are_numbers(score: Score) -> bool {
    sums_for(score) > 0 && score.sums.complements == 0
}

/// Returns whether a reading fits better than another one: by more sums of banks, else by those that are numbers, else by its
/// points, else by its right bits.
fn fits_better(one: Score, other: Score) -> bool {
    let (sums, others) = (sums_for(one), sums_for(other));
    if sums != others {
        return sums > others;
    }
    match (are_numbers(one), are_numbers(other)) {
        (true, false) => true,
        (false, true) => false,
        _ if one.points != other.points => one.points > other.points,
        _ => one.bits > other.bits,
    }
}

/// Returns whether a reading fits so much better than another one that this is sure: by the sums of enough banks, among these
/// by its right bits, else by its points.
fn is_far_better(best: Score, other: Score) -> bool {
    let (sums, others) = (sums_for(best), sums_for(other));
    let by_sums = sums > others || are_numbers(best) && other.sums.numbers == 0;
    let by_bits = best.bits > other.bits.saturating_add(SURE_BITS);
    let by_points = best.points > other.points.saturating_mul(2).saturating_add(8);
    sums >= others && (by_points || (by_sums || by_bits) && sums >= SURE_SUMS)
}

/// Appends how well the given form fits, and another reading if it fits better, unless the given one is settled by the
/// sums of the banks.
fn push_readings(text: &mut String, is_placed: bool, readings: Readings) -> Result<(), AllocError> {
    let Some(given) = readings.given else {
        return Ok(());
    };
    push_score(text, given)?;
    match (readings.better(), readings.best) {
        (Some(better), _) => push_better(text, is_placed && readings.is_sure, better),
        (None, Some(_)) => Ok(()),
        (None, None) => text.push_str("    no reading looks like a program (likely)\n"),
    }
}

/// Returns whether a score is that of a form.
fn is_of_form(score: Score, form: RopeForm) -> bool {
    let parity = match form {
        RopeForm::Classic => ParityBit::Unused,
        RopeForm::Parity => ParityBit::Last,
    };
    let reading = score.reading;
    score.change == BitChange::Nothing
        && !reading.is_swapped
        && reading.order == form
        && reading.parity == parity
}

/// Appends how well a reading fits.
fn push_score(text: &mut String, score: Score) -> Result<(), AllocError> {
    let (bits, legal, reached) = (score.bits, score.reach.legal, score.reach.reached);
    text.push_str("read as ")?;
    push_reading(text, score.reading, score.change)?;
    let what = match score.reading.parity {
        ParityBit::Unused => "unused bits are 0",
        ParityBit::Last | ParityBit::First => "parity bits are right",
    };
    writeln!(
        text,
        ": {bits}% of the {what}; {legal} of {reached} places reached from 4000 and the vectors have legal orders"
    )?;
    let unreached = score.reach.unreached;
    if unreached > 0 {
        let are = if unreached == 1 {
            "word is"
        } else {
            "words are"
        };
        writeln!(
            text,
            "    {unreached} {are} not reached without a change of bank: data, or code of other banks (possible)"
        )?;
    }
    Ok(())
}

/// Appends a reading that fits better than the given one, and how sure that is.
fn push_better(text: &mut String, is_sure: bool, best: Score) -> Result<(), AllocError> {
    let sure = if is_sure { "sure" } else { "likely" };
    write!(text, "    it reads better in another form ({sure}), ")?;
    push_score(text, best)
}

/// Appends the name of a reading, as `convert` takes it.
pub fn push_reading(
    text: &mut String,
    reading: Reading,
    change: BitChange,
) -> Result<(), AllocError> {
    text.push_str(match (reading.order, reading.parity) {
        (RopeForm::Classic, ParityBit::Unused) => "classic",
        (RopeForm::Classic, ParityBit::Last) => "classic-parity",
        (RopeForm::Classic, ParityBit::First) => "classic-parity-first",
        (RopeForm::Parity, ParityBit::Unused) => "plain",
        (RopeForm::Parity, ParityBit::Last) => "parity",
        (RopeForm::Parity, ParityBit::First) => "parity-first",
    })?;
    if reading.is_swapped {
        text.push_str(" --swap")?;
    }
    text.push_str(match change {
        BitChange::Nothing => "",
        BitChange::Inverted => " --bits inverted",
        BitChange::WordInverted => " --bits word-inverted",
        BitChange::Reversed => " --bits reversed",
    })
}

/// Appends the sum of a bank, and the last words that would make it fit.
fn push_sum(text: &mut String, sum: BankSum) -> Result<(), AllocError> {
    let (bank, total) = (sum.bank, sum.sum);
    write!(text, "bank {bank:02o}: sum {total}, ")?;
    match sum.fit {
        SumFit::Number => text.push_str("the bank's number (certain)\n"),
        SumFit::Complement => text.push_str("the complement of the bank's number (certain)\n"),
        SumFit::Neither => push_bugger_words(text, sum),
    }
}

/// Appends the words in the last place of a bank that would make its sum fit.
fn push_bugger_words(text: &mut String, sum: BankSum) -> Result<(), AllocError> {
    let place = place_of(sum.bank, sum.last) as usize;
    let (number, complement) = (sum.for_number, sum.for_complement);
    text.push_str("neither the bank's number nor its complement (certain)")?;
    if place < FIXED_WORDS as usize {
        text.push_str("; ")?;
        push_rope_place(text, place)?;
        write!(text, " {number}")?;
        if number.bits() != complement.bits() {
            write!(text, " or {complement}")?;
        }
        text.push_str(" would make it so")?;
    }
    text.push_str("\n")
}

/// Returns the listing of a rope, with ` wrong parity` behind each of these words. Fails if out of memory.
pub fn mark_bad_words(
    alloc: Global,
    text: &[u8],
    wrong: &[BadWord],
) -> Result<Vec<u8>, AllocError> {
    let marks = marks_of(alloc, wrong)?;
    let mut marked = Vec::new(alloc);
    let mut rest = text;
    while let Some((line, after)) = next_line(rest) {
        marked.extend_from_slice(line)?;
        if is_marked(line, marks.as_slice()) {
            marked.extend_from_slice(b" wrong parity")?;
        }
        marked.push(b'\n')?;
        rest = after;
    }
    Ok(marked)
}

/// Returns for each place whether its word is one of these.
fn marks_of(alloc: Global, wrong: &[BadWord]) -> Result<Vec<bool>, AllocError> {
    let mut marks = vec![in alloc; false; FIXED_WORDS as usize]?;
    for bad in wrong {
        if let Some(mark) = marks.get_mut(bad.place) {
            *mark = true;
        }
    }
    Ok(marks)
}

/// Returns whether a line of a listing names a marked place.
fn is_marked(line: &[u8], marks: &[bool]) -> bool {
    match read_line(line) {
        Ok(Some(named)) => marks.get(named.place).copied().unwrap_or(false),
        _ => false,
    }
}
