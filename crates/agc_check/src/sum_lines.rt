//! Prints the sum of a bank, what it should be, and the word that would make it right.
use agc_listing::push_rope_place;
use agc_mend::{BankSum, SumFit};
use agc_store::place::{FIXED_WORDS, place_of};
use agc_word::Narrow;
use std::alloc::AllocError;

/// Appends a line with the sum of a bank. If it is wrong, the line has the bank's number and its complement, and the words
/// in place of the bank's last word that make it so.
pub fn push_sum_line(text: &mut String, sum: BankSum) -> Result<(), AllocError> {
    let (bank, total) = (sum.bank, sum.sum);
    write!(text, "bank {bank:02o}: sum {total}, ")?;
    match sum.fit {
        SumFit::Number => text.push_str("the bank's number\n"),
        SumFit::Complement => text.push_str("the complement of the bank's number\n"),
        SumFit::Neither => push_wanted(text, sum),
    }
}

/// Appends what the sum of a bank should be, and the words that make it so.
fn push_wanted(text: &mut String, sum: BankSum) -> Result<(), AllocError> {
    let bank = u16::from(sum.bank);
    let (number, complement) = (Narrow::with_bits(bank), Narrow::with_bits(0o77777 - bank));
    write!(text, "should be {number} or {complement}")?;
    let place = place_of(sum.bank, sum.last) as usize;
    if place < FIXED_WORDS as usize {
        text.push_str(": ")?;
        push_rope_place(text, place)?;
        let (number, complement) = (sum.for_number, sum.for_complement);
        write!(text, " {number}")?;
        if number.bits() != complement.bits() {
            write!(text, " or {complement}")?;
        }
    }
    text.push_str("\n")
}
