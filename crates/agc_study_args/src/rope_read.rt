//! Reads the rope file of every subcommand: as `agc` reads it, or whatever its parity.
ghost use Rattle.std.specs.Prelude.{◌≡◌, IfErr, IfOk, IfSome, None, OnOk, Some, false, true, unwrap_or};
ghost use Rattle.agc_store.specs.RopeFile.{rope_words};
ghost use Rattle.agc_mend.specs.FileWords.{file_words};
ghost use Rattle.agc_mend.specs.Parity.{bad_words};
ghost use Rattle.agc_load.specs.Steps.{IsOutcome, refusal_in};
ghost use Rattle.agc_study_args.specs.RopeRead.{has_faulty_length, reading_steps, rope_refusal, wrong_words};

use agc_io::{ROPE_BYTES, ReadError, read_limited};
use agc_load::LoadFault;
use agc_mend::{BadWord, bad_words, file_words, right_parity};
use agc_store::place::FIXED_WORDS;
use agc_store::{Rope, RopeFault, RopeForm};
use std::alloc::{AllocError, Global};
use std::io::Read;

/// A rope as it was read.
#[derive(Drop)]
pub struct RopeRead {
    pub rope: Rope,
    /// The words with wrong parity, in their order, if parity is ignored.
    pub wrong: Vec<BadWord>,
}

/// Reads a rope file of the given form. With `ignores_parity`, words with wrong parity are read too, and listed. Fails
/// if the file cannot be read, has more than `ROPE_BYTES` bytes or is not a rope, or if memory runs out.
pub fn read_any_rope<R: Read>(
    alloc: Global,
    form: RopeForm,
    ignores_parity: bool,
    reader: &mut R,
) -> Result<RopeRead, LoadFault>
    ensures words { IfOk result (λ read. IfSome (R.remaining reader.old)
        (λ file. read.rope ≡ rope_words form file)) }
    ensures wrong { IfOk result (λ read. IfSome (R.remaining reader.old)
        (λ file. read.wrong.items ≡ wrong_words ignores_parity form file)) }
    ensures sound { OnOk result (IfSome (R.remaining reader.old)
        (λ file. rope_refusal ignores_parity form file ≡ None)) }
    ensures accepted { OnOk result (IfSome (R.remaining reader.old)
        (λ file. refusal_in (reading_steps ignores_parity form file) ≡ None)) }
    ensures refused { IfErr result (λ r. IfSome (R.remaining reader.old)
        (λ file. IsOutcome (reading_steps ignores_parity form file) r)) }
{
    let file = match read_limited(alloc, reader, ROPE_BYTES) {
        Ok(file) => file,
        Err(ReadError::CannotRead(fault)) => return Err(LoadFault::CannotReadRope(fault)),
        Err(ReadError::Memory) => return Err(LoadFault::Memory),
    };
    rope_of_file(alloc, form, ignores_parity, file.as_slice())
}

fn rope_of_file(
    alloc: Global,
    form: RopeForm,
    ignores_parity: bool,
    file: &[u8],
) -> Result<RopeRead, LoadFault>
    ensures words { IfOk result (λ read. read.rope ≡ rope_words form file.now) }
    ensures wrong { IfOk result
        (λ read. read.wrong.items ≡ wrong_words ignores_parity form file.now) }
    ensures sound { OnOk result (rope_refusal ignores_parity form file.now ≡ None) }
    ensures refused { IfErr result (λ r. r
        ≡ LoadFault.Rope (unwrap_or (rope_refusal ignores_parity form file.now) RopeFault.Memory)) }
{
    let read = if ignores_parity {
        damaged_rope(alloc, form, file)
    } else {
        sound_rope(alloc, form, file)
    };
    match read {
        Ok(read) => Ok(read),
        Err(fault) => Err(LoadFault::Rope(fault)),
    }
}

/// Reads a rope file as `agc` does.
#[tactic(auto, unfolding(crate::specs::RopeRead::rope_refusal))]
fn sound_rope(alloc: Global, form: RopeForm, file: &[u8]) -> Result<RopeRead, RopeFault>
    ensures words { IfOk result (λ read. read.rope ≡ rope_words form file.now) }
    ensures wrong { IfOk result (λ read. read.wrong.items ≡ wrong_words false form file.now) }
    ensures sound { OnOk result (rope_refusal false form file.now ≡ None) }
    ensures refused { IfErr result
        (λ why. why ≡ unwrap_or (rope_refusal false form file.now) RopeFault.Memory) }
{
    match Rope::read_as(alloc, form, file) {
        Ok(rope) => Ok(RopeRead {
            rope,
            wrong: Vec::new(alloc),
        }),
        Err(fault) => Err(fault),
    }
}

/// Reads a rope file whatever its parity.
#[tactic(auto, using(crate::proofs::RopeReads::no_parity, crate::proofs::RopeReads::sound_length))]
fn damaged_rope(alloc: Global, form: RopeForm, file: &[u8]) -> Result<RopeRead, RopeFault>
    ensures words { IfOk result (λ read. read.rope ≡ rope_words form file.now) }
    ensures wrong { IfOk result (λ read. read.wrong.items ≡ wrong_words true form file.now) }
    ensures sound { OnOk result (rope_refusal true form file.now ≡ None) }
    ensures refused { IfErr result
        (λ why. why ≡ unwrap_or (rope_refusal true form file.now) RopeFault.Memory) }
{
    match form {
        RopeForm::Classic => sound_rope(alloc, form, file),
        RopeForm::Parity => {
            if has_faulty_length(file) {
                return Err(fault_of_length(file));
            }
            match mended_rope(alloc, file) {
                Ok(read) => Ok(read),
                Err(_) => Err(RopeFault::Memory),
            }
        }
    }
}

/// Returns whether a file is empty, has half a word, or has more words than a rope.
fn has_faulty_length(file: &[u8]) -> bool
    ensures { result ≡ has_faulty_length file.now }
{
    file.is_empty() || file.len() % 2 == 1 || file.len() > 2 * FIXED_WORDS as usize
}

/// Returns the fault of a file's length.
#[tactic(auto, unfolding(crate::specs::RopeRead::rope_refusal, agc_store::specs::RopeFile::rope_fault_of))]
fn fault_of_length(file: &[u8]) -> RopeFault
    requires { has_faulty_length file.now ≡ true }
    ensures { rope_refusal true RopeForm.Parity file.now ≡ Some result }
{
    if file.is_empty() {
        RopeFault::Empty
    } else if file.len() % 2 == 1 {
        RopeFault::OddLength
    } else {
        RopeFault::TooLong
    }
}

/// Reads a file in the form with parity by its words with their parity bits made right. Fails if out of memory.
#[tactic(auto, using(crate::proofs::RopeReads::is_even, crate::proofs::RopeReads::same_words))]
fn mended_rope(alloc: Global, file: &[u8]) -> Result<RopeRead, AllocError>
    requires { has_faulty_length file.now ≡ false }
    ensures words { IfOk result (λ read. read.rope ≡ rope_words RopeForm.Parity file.now) }
    ensures wrong { IfOk result (λ read. read.wrong.items ≡ bad_words (file_words file.now)) }
{
    let words = file_words(alloc, file)?;
    let wrong = bad_words(alloc, words.as_slice())?;
    let right = right_parity(alloc, file)?;
    match Rope::read_as(alloc, RopeForm::Parity, right.as_slice()) {
        Ok(rope) => Ok(RopeRead { rope, wrong }),
        Err(_) => Err(AllocError),
    }
}
