//! Reports on a rope file.
ghost use Rattle.std.specs.Prelude.{◌≡◌, ◌<◌, ◌*◌, ◌+◌, ◌++◌, get_or, is_none, IfOk, OnOk, string_bytes};
ghost use Rattle.agc_store.specs.RopeFile.{file_word, rope_fault_of};
ghost use Rattle.agc_listing.specs.List.{listed_address};
ghost use Rattle.agc_store.specs.Places.{fixed_bank_size, fixed_banks, fixed_words};
ghost use Rattle.agc_check.specs.RopeReport.{IsPlaced, bad_word_text, parity_why, rope_fault_text};
ghost use Rattle.agc_check.specs.RopeReport.{rope_holdings_text, rope_report, rope_why, sound_rope_text, word_with_parity};

use crate::holdings::{RopeHoldings, holdings_in};
use crate::vectors::push_vectors;
use agc_listing::{Place, listed_address, push_place};
use agc_load::LoadFault;
use agc_mend::word_in_file;
use agc_store::place::place_of;
use agc_store::{Rope, RopeFault, RopeForm, Store};
use agc_word::Narrow;
use std::alloc::{AllocError, Global};

/// Appends the report on a rope file, and returns whether nothing is wrong with it.
#[tactic(auto, unfolding(crate::specs::RopeReport::rope_report))]
pub(crate) fn push_rope(
    alloc: Global,
    text: &mut String,
    form: RopeForm,
    file: &[u8],
) -> Result<bool, AllocError>
    ensures sound { IfOk result (λ sound. sound ≡ is_none (rope_fault_of form file.now)) }
    ensures text { OnOk result
        (string_bytes text.new ≡ string_bytes text.old ++ rope_report form file.now) }
{
    match Rope::read_as(alloc, form, file) {
        Ok(rope) => {
            push_sound(text, rope)?;
            Ok(true)
        }
        Err(RopeFault::Memory) => Err(AllocError),
        Err(fault) => {
            push_fault(text, file, fault)?;
            Ok(false)
        }
    }
}

/// Appends what a rope holds, and a remark on the interrupt vectors that hold +0.
#[tactic(auto, unfolding(crate::specs::RopeReport::sound_rope_text, agc_store::specs::Cells::start_memory))]
fn push_sound(text: &mut String, rope: Rope) -> Result<(), AllocError>
    ensures { OnOk result (string_bytes text.new ≡ string_bytes text.old ++ sound_rope_text rope) }
{
    let store = Store::new(rope);
    push_holdings(text, holdings_in(&store))?;
    push_vectors(text, &store)
}

/// Appends the line about what a rope holds.
#[tactic(auto, unfolding(crate::specs::RopeReport::rope_holdings_text))]
fn push_holdings(text: &mut String, holdings: RopeHoldings) -> Result<(), AllocError>
    ensures { OnOk result
        (string_bytes text.new ≡ string_bytes text.old ++ rope_holdings_text holdings) }
{
    let (words, banks) = (holdings.words, holdings.banks);
    writeln!(text, "rope: words {words}, banks {banks}")
}

/// Appends the fault of a rope file, worded as in `agc`, and what would be right.
#[tactic(auto, unfolding(crate::specs::RopeReport::rope_fault_text))]
fn push_fault(text: &mut String, file: &[u8], fault: RopeFault) -> Result<(), AllocError>
    requires { IsPlaced fault }
    ensures { OnOk result
        (string_bytes text.new ≡ string_bytes text.old ++ rope_fault_text file.now fault) }
{
    let refusal = LoadFault::Rope(fault);
    writeln!(text, "{refusal}")?;
    push_why(text, file, fault)
}

#[tactic(auto, unfolding(crate::specs::RopeReport::rope_why))]
fn push_why(text: &mut String, file: &[u8], fault: RopeFault) -> Result<(), AllocError>
    requires { IsPlaced fault }
    ensures { OnOk result (string_bytes text.new ≡ string_bytes text.old ++ rope_why file.now fault) }
{
    let bytes = file.len();
    match fault {
        RopeFault::Empty => {
            text.push_str("    the file is empty; a rope has at least one word, of two bytes\n")
        }
        RopeFault::OddLength => {
            writeln!(
                text,
                "    the file has {bytes} bytes; the count must be even, two bytes a word"
            )
        }
        RopeFault::TooLong => writeln!(
            text,
            "    the file has {bytes} bytes; at most 73728 are allowed: 36 banks of 1024 words"
        ),
        RopeFault::Parity { bank, offset } => push_parity_why(text, file, bank, offset),
        RopeFault::Memory => Ok(()),
    }
}

/// Appends which word has wrong parity: its place, its digits, its parity bit, and its number of one bits.
#[tactic(auto, unfolding(crate::specs::RopeReport::parity_why))]
fn push_parity_why(text: &mut String, file: &[u8], bank: u8, offset: u16) -> Result<(), AllocError>
    requires bank { bank < fixed_banks }
    requires offset { offset < fixed_bank_size }
    ensures { OnOk result
        (string_bytes text.new ≡ string_bytes text.old ++ parity_why file.now bank offset) }
{
    let place = place_of(bank, offset) as usize;
    push_bad_word(text, bank, listed_address(place), word_in_file(file, place))
}

/// Appends a place of a fixed bank and its word in the file.
#[tactic(auto, unfolding(crate::specs::RopeReport::bad_word_text))]
fn push_bad_word(text: &mut String, bank: u8, address: u16, word: u16) -> Result<(), AllocError>
    requires bank { bank < fixed_banks }
    requires address { address < 0o10000 }
    ensures { OnOk result
        (string_bytes text.new ≡ string_bytes text.old ++ bad_word_text bank address word) }
{
    text.push_str("    the word at ")?;
    push_place(text, Place::Fixed { bank, address })?;
    push_word(text, word)
}

/// Appends the digits of a word in the file, its parity bit and its number of one bits.
#[tactic(auto, unfolding(crate::specs::RopeReport::word_with_parity))]
fn push_word(text: &mut String, word: u16) -> Result<(), AllocError>
    ensures { OnOk result (string_bytes text.new ≡ string_bytes text.old ++ word_with_parity word) }
{
    let digits = Narrow::with_bits(word / 2);
    let (parity, ones) = (word % 2, word.count_ones());
    writeln!(
        text,
        " is {digits} with parity bit {parity}: {ones} one bits; the count must be odd"
    )
}
