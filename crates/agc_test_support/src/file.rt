//! Makes the classic rope file of a listing.
ghost use Rattle.std.specs.Prelude.{◌≡◌, ◌*◌, ◌+◌, ◌%◌, ◌<◌, ◌≤◌, ◌^◌, length, max, IfOk, OnOk};
ghost use Rattle.agc_test_support.specs.File.{index_in_file, with_word};

use crate::fault::ListingFault;
use crate::line::{is_comment, read_line};
use std::alloc::{AllocError, Global};

/// Returns the classic rope file of a listing, as long as its last word needs. The banks come in the order 02, 03,
/// 00, 01, 04 to 43 octal. If two lines name the same place, the later one wins.
pub fn rope_file(alloc: Global, listing: &str) -> Result<Vec<u8>, ListingFault>
    ensures nonempty { IfOk result (λ bytes. 0 < length bytes.items) }
    ensures even { IfOk result (λ bytes. length bytes.items % 2 ≡ 0) }
    ensures banks { IfOk result (λ bytes. length bytes.items ≤ 73728) }
{
    let mut bytes = Vec::new(alloc);
    for (number, line) in (1..usize::MAX).zip(listing.lines()) {
        if is_comment(line) {
            continue;
        }
        let entry = read_line(line).ok_or(ListingFault::Line { line: number })?;
        put_word(&mut bytes, file_index(entry.place), entry.word).map_err(
            |_| ListingFault::Memory,
        )?;
    }
    if bytes.is_empty() {
        return Err(ListingFault::Empty);
    }
    Ok(bytes)
}

/// Returns the index of a place's word in the file.
#[tactic(auto, unfolding(crate::specs::File::index_in_file))]
fn file_index(place: usize) -> usize
    requires { place < 36864 }
    ensures index { result ≡ index_in_file place }
    ensures range { result < 36864 }
{
    match place / 0o2000 {
        0 | 1 => place + 0o4000,
        2 | 3 => place - 0o4000,
        _ => place,
    }
}

/// Writes a word into a file and extends the file with zeros as far as the word needs.
#[tactic(auto, unfolding(crate::specs::File::with_word, crate::specs::File::lengthened))]
fn put_word(bytes: &mut Vec<u8>, index: usize, word: u16) -> Result<(), AllocError>
    requires index { index < 36864 }
    requires word { word < 2 ^ 15 }
    ensures word { OnOk result (bytes.new.items ≡ with_word index word bytes.old.items) }
    ensures len { OnOk result (length bytes.new.items ≡ max (length bytes.old.items) (2 * index + 2)) }
{
    if bytes.len() < 2 * index + 2 {
        bytes.resize(2 * index + 2, 0)?;
    }
    let bits = 2 * word;
    bytes[2 * index] = (bits / 256) as u8;
    bytes[2 * index + 1] = (bits % 256) as u8;
    Ok(())
}
