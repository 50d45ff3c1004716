//! The table of the sums of banks.
use crate::map::fit_in;
use crate::rope_words::{BANKS, RopeWords};
use agc_listing::push_rope_place;
use agc_mend::{BankSum, SumFit, sum_in_bank};
use agc_store::place::place_of;
use std::alloc::AllocError;

/// How many banks have words, and how many of their sums are right.
#[derive(Clone, Copy, Debug, PartialEq, Eq)]
pub(crate) struct SumCounts {
    pub used: usize,
    pub right: usize,
}

/// Counts the banks that have words, and the right sums.
pub(crate) fn count_sums(rope: &RopeWords) -> SumCounts {
    let mut counts = SumCounts { used: 0, right: 0 };
    for bank in 0..BANKS {
        if let Some(fit) = fit_in(rope, bank) {
            counts.used = counts.used.saturating_add(1);
            if fit != SumFit::Neither {
                counts.right = counts.right.saturating_add(1);
            }
        }
    }
    counts
}

/// Appends the table: each bank with words, its sum, what it should be, and the word that makes it so.
pub(crate) fn push_sums(text: &mut String, rope: &RopeWords) -> Result<(), AllocError> {
    text.push_str(
        "<h3>Sums of banks</h3>\n<table class='sums'>\n<thead><tr><th>Bank<th>Words<th>Sum<th>It is<th>Should be<th>Last word that makes it so</thead>\n<tbody>\n",
    )?;
    for bank in 0..BANKS {
        if let Some(sum) = sum_in_bank(&rope.store, bank as u8) {
            push_sum(text, rope.used_in(bank), sum)?;
        }
    }
    text.push_str("</tbody></table>\n")
}

fn push_sum(text: &mut String, words: usize, sum: BankSum) -> Result<(), AllocError> {
    let (bank, total) = (sum.bank, sum.sum);
    write!(text, "<tr><td>{bank:02o}<td>{words}<td>{total}<td>")?;
    match sum.fit {
        SumFit::Number => text.push_str("the bank's number<td><td>\n"),
        SumFit::Complement => text.push_str("its complement<td><td>\n"),
        SumFit::Neither => push_right_sums(text, sum),
    }
}

/// Appends what a wrong sum should be, and the last words that make it so.
fn push_right_sums(text: &mut String, sum: BankSum) -> Result<(), AllocError> {
    let (bank, last) = (sum.bank, sum.last);
    let (number, complement) = (sum.for_number, sum.for_complement);
    let place = place_at(bank, last);
    let wanted = u16::from(bank);
    let other = 0o77777u16.saturating_sub(wanted);
    write!(
        text,
        "<b>wrong</b><td>{wanted:05o} or {other:05o}<td><code>"
    )?;
    push_rope_place(text, place)?;
    write!(text, " {number}</code>")?;
    if number.bits() != complement.bits() {
        write!(text, " or <code>{complement}</code>")?;
    }
    text.push_str("\n")
}

/// Returns the place of an offset in a bank.
fn place_at(bank: u8, offset: u16) -> usize {
    if usize::from(bank) < BANKS && offset < 0o2000 {
        place_of(bank, offset) as usize
    } else {
        0
    }
}
