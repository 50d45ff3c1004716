//! The words of a rope file as sixteen bits each, whatever their parity, and the file of such words.
ghost use Rattle.std.specs.Prelude.{◌≡◌, ℕ, ◌<◌, ◌%◌, ◌^◌, ◌*◌, List, All, IfOk, length, get_or};
ghost use Rattle.agc_store.specs.RopeFile.{file_word};
ghost use Rattle.agc_mend.specs.FileWords.{file_of_words, file_words};

use std::alloc::{AllocError, Global};

/// Returns the words of a file in their order, the higher byte first. A single byte at the end is left out. Fails if
/// out of memory.
#[tactic(auto, unfolding(crate::specs::FileWords::file_words))]
pub fn file_words(alloc: Global, file: &[u8]) -> Result<Vec<u16>, AllocError>
    ensures { IfOk result (λ words. words.items ≡ file_words file.now) }
{
    (0..file.len() / 2)
        .map(|index| word_in_file(file, index))
        .collect(alloc)
}

/// Returns the sixteen bits of a word in the file, the higher byte first; 0 past its end.
#[tactic(auto, unfolding(agc_store::specs::RopeFile::file_word))]
pub fn word_in_file(file: &[u8], index: usize) -> u16
    requires { index < 2 ^ 63 }
    ensures { result ≡ file_word file.now index }
{
    256 * u16::from(byte_at(file, 2 * index)) + u16::from(byte_at(file, 2 * index + 1))
}

/// Returns a byte of the file; 0 past its end.
fn byte_at(file: &[u8], place: usize) -> u8
    ensures { result ≡ get_or file.now place 0 }
{
    file.get(place).copied().unwrap_or(0)
}

/// Returns the file of these words. Fails if out of memory.
pub fn file_of_words(alloc: Global, words: &[u16]) -> Result<Vec<u8>, AllocError>
    ensures file { IfOk result (λ file. file.items ≡ file_of_words words.now) }
    ensures long { IfOk result (λ file. length file.items ≡ 2 * length words.now) }
{
    let file = bytes_of_words(alloc, words)?;
    Ok(file)
}

#[tactic(auto, unfolding(crate::specs::FileWords::file_of_words))]
fn bytes_of_words(alloc: Global, words: &[u16]) -> Result<Vec<u8>, AllocError>
    ensures { IfOk result (λ file. file.items ≡ file_of_words words.now) }
{
    let mut file = Vec::new(alloc);
    for word in words {
        file.push((*word / 256) as u8)?;
        file.push((*word % 256) as u8)?;
    }
    Ok(file)
}

/// The words of a file of whole words make that file again.
pub fn words_make_their_file()
    ensures { (file : List ℕ) → length file % 2 ≡ 0 → All (λ byte. byte < 256) file
        → file_of_words (file_words file) ≡ file }
{}

/// The file of some words holds these words.
pub fn files_hold_their_words()
    ensures { (words : List ℕ) → file_words (file_of_words words) ≡ words }
{}
