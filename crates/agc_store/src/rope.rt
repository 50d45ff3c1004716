//! The rope: the fixed words.
ghost use Rattle.std.specs.Prelude.{◌≡◌, ℕ, ◌<◌, ◌≤◌, ◌-◌, ◌%◌, ◌++◌, length, unwrap_or, IfOk, IfErr, IsNone};
ghost use Rattle.agc_word.specs.Arithmetic.{narrow_of};
ghost use Rattle.agc_store.specs.Places.{fixed_places, fixed_words};
ghost use Rattle.agc_store.specs.Memory.{fixed_at};
ghost use Rattle.agc_store.specs.Cells.{cleared_cells};
ghost use Rattle.agc_store.specs.RopeFile.{FollowsBanks, first_words, rope_words, rope_fault_of};
ghost use Rattle.agc_store.specs.declared.rope_file.RopeForm.TheVariants as form;

use crate::place::{FIXED_PLACES, FIXED_WORDS};
use crate::rope_file::{RopeFault, RopeForm, fault, woven_word};
use agc_word::Narrow;
use std::alloc::{AllocError, Global};
use std::marker::Model;

/// The 36,864 fixed words, in 36 banks of 1024. In the spacecraft they were woven: a wire ran
/// through a core or past it.
#[derive(Debug, Drop)]
pub struct Rope {
    /// The words bank by bank, followed by four banks of +0, which the superbank can select too.
    words: Vec<Narrow>,
}

impl Model for Rope {
    ghost use Rattle.std.specs.Prelude.{List, take};
    ghost use Rattle.agc_word.specs.Number.{Number};
    ghost use Rattle.agc_store.specs.Places.{fixed_words};
    ghost use Rattle.agc_store.specs.Rope.{IsWoven};

    ghost Value = { List Number };

    ghost view = { λ r. take fixed_words r.words.items };

    ghost invariant = { λ r. IsWoven r.words.items };
}

impl Rope {
    /// Reads a rope file in the classic form: at most 73,728 bytes. Each word has 16 bits, the
    /// higher byte first, and its left fifteen bits count. The words past the file's end are +0.
    pub fn read(alloc: Global, bytes: &[u8]) -> Result<Rope, RopeFault>
        ensures words { IfOk result (λ rope. rope ≡ rope_words RopeForm.Classic bytes.now) }
        ensures order { IfOk result (λ rope. FollowsBanks RopeForm.Classic bytes.now rope) }
        ensures accepted { IfOk result (λ _. rope_fault_of RopeForm.Classic bytes.now ≡ None) }
        ensures fault { IfErr result (λ fault. fault ≡ unwrap_or (rope_fault_of RopeForm.Classic bytes.now) RopeFault.Memory) }
    {
        Rope::read_as(alloc, RopeForm::Classic, bytes)
    }

    /// Reads a rope file of the given form. The words past its end are +0. Returns the first fault
    /// that applies, in the order of `RopeFault`.
    pub fn read_as(alloc: Global, form: RopeForm, bytes: &[u8]) -> Result<Rope, RopeFault>
        ensures words { IfOk result (λ rope. rope ≡ rope_words form bytes.now) }
        ensures order { IfOk result (λ rope. FollowsBanks form bytes.now rope) }
        ensures accepted { IfOk result (λ _. rope_fault_of form bytes.now ≡ None) }

        // `Memory` is returned only when memory runs out.
        ensures fault { IfErr result (λ fault. fault ≡ unwrap_or (rope_fault_of form bytes.now) RopeFault.Memory) }
    {
        if let Some(fault) = fault(form, bytes) {
            return Err(fault);
        }
        match weave(
            alloc,
            form,
            bytes,
            FIXED_WORDS as usize,
            FIXED_PLACES as usize,
        ) {
            Ok(words) => Ok(Rope { words }),
            Err(_) => Err(RopeFault::Memory),
        }
    }

    /// Returns a copy of the rope. Fails when memory runs out.
    pub fn copy(&self, alloc: Global) -> Result<Rope, AllocError>
        ensures { IfOk result (λ copy. copy ≡ self.now) }
    {
        let mut words = Vec::with_capacity(alloc, self.words.len())?;
        words.extend_from_slice(&self.words)?;
        Ok(Rope { words })
    }

    /// Returns the word at a place, 1024 times its bank plus its offset; +0 in the banks 44 to 47
    /// octal. A fixed word has no overflow, so a fetch has nothing to correct.
    #[inline]
    #[tactic(auto, using(crate::proofs::Woven::fixed_at_read), unfolding(agc_word::specs::Arithmetic::narrow_of))]
    pub(crate) fn word(&self, place: usize) -> Narrow
        requires { place < fixed_places }
        ensures word { result ≡ fixed_at place self.now }
        ensures narrow { narrow_of result ≡ result }
    {
        let word = self.words[place];
        let _fifteen_bits = word.bits();
        word
    }
}

/// Returns the first `words` words of a file's rope, followed by +0 up to `places` words in all.
#[tactic(auto, using(crate::proofs::RopeWords::first_words_none, crate::proofs::RopeWords::first_words_more), unfolding(crate::specs::Cells::cleared_cells))]
fn weave(
    alloc: Global,
    form: RopeForm,
    bytes: &[u8],
    words: usize,
    places: usize,
) -> Result<Vec<Narrow>, AllocError>
    requires even { length bytes.now % 2 ≡ 0 }
    requires words { words ≤ fixed_words }
    requires places { words ≤ places }
    ensures { IfOk result (λ woven. woven.items ≡ first_words words form bytes.now ++ cleared_cells (places - words)) }
{
    let mut woven = Vec::with_capacity(alloc, places)?;
    for place in 0..words {
        woven.push(woven_word(form, bytes, place))?;
    }
    woven.resize(places, Narrow::PLUS_ZERO)?;
    Ok(woven)
}
