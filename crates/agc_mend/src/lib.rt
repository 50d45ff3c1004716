//! Restores a damaged rope: its parity, the readings of its file, patches, the sums of its banks, repairs, several dumps
//! merged into one rope, stuck columns, modules and banks that are taken out of a rope file or put into one, and two ropes
//! side by side.
#![tactic(auto)]

mod bank_sum;
mod banks;
mod bit_change;
mod check_words;
mod columns;
mod legal;
mod merging;
mod modules;
mod parity;
mod patch;
mod reached;
mod reading;
mod repair;
mod repair_lines;
mod rope_bytes;
mod word_diff;
mod woven;

pub use bank_sum::{
    BankSum, SumFit, fit_of, sum_in_bank, the_missing_word_makes_the_sum, word_sum,
};
pub use banks::{NO_BANK, with_banks, words_of_banks};
pub use bit_change::{BitChange, undo_bit_change};
pub use check_words::{check_word, check_words_make_sums_right};
pub use columns::{
    HALF_BANK, HALF_BANKS, MODULE, column_of, column_repairs, columns_of, explain_most, used_in,
    wrong_in,
};
pub use legal::{is_extracode_at, is_legal};
pub use merging::{Choice, Decision, Dump, DumpWord, merge, words_at, words_of_choices};
pub use modules::{may_be_modules, words_in_banks};
pub use parity::{
    BadWord, bad_words, damaged_store, is_bad_parity, right_parity, right_words, word_at,
};
pub use patch::{apply_patch, put_word};
pub use reading::{ParityBit, Reading, convert, converting_there_and_back};
pub use repair::{Repair, Sureness, repairs, word_repaired};
pub use repair_lines::{push_repair, push_repair_line};
pub use rope_bytes::{
    file_of_words, file_words, files_hold_their_words, word_in_file, words_make_their_file,
};
pub use word_diff::{MovedBlock, moved_blocks, places_apart};
pub use woven::{has_words, is_woven_at};
