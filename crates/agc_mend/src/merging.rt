//! Merges dumps of one rope: each place gets the word of a dump, chosen by parity, by the sum of its bank, or because most
//! dumps have it.
ghost use Rattle.std.specs.Prelude.{◌≡◌, ℕ, ◌<◌, ◌≤◌, ◌/◌, ◌∷◌, Bool, List, All, IfOk, filter, map, not, true};
ghost use Rattle.std.specs.List.{list_any};
ghost use Rattle.agc_word.specs.Number.{Number};
ghost use Rattle.agc_store.specs.Cells.{narrow_number};
ghost use Rattle.agc_store.specs.Places.{fixed_words};
ghost use Rattle.agc_mend.specs.Parity.{with_right_parity};
ghost use Rattle.agc_mend.specs.Repair.{makes_sum_fit};
ghost use Rattle.agc_mend.specs.Merge.{
  are_same,
  candidates,
  choice_among,
  choice_by_words,
  choice_of,
  choices_by_words,
  count_of,
  decision_among,
  file_of_choices,
  fitting,
  has_other,
  has_other_undecided,
  in_most,
  is_only_undecided,
  is_other_undecided,
  is_sound,
  is_undecided_at,
  is_undecided_by,
  is_wrong,
  merged,
  rope_of_choices,
  settled,
  settled_at,
  settled_choices,
  shown_by_sum,
  word_of_dump,
  words_at,
};

use crate::parity::{is_bad_parity, with_right_parity, word_at};
use crate::repair::makes_sum_fit;
use crate::rope_bytes::file_of_words;
use agc_store::place::FIXED_BANK_SIZE;
use agc_store::{Rope, RopeForm, Store};
use agc_word::Narrow;
use std::alloc::{AllocError, Global};

/// A dump of a rope: sixteen bits for each place, from the first word of bank 00 on. The last of them is the parity bit.
/// Sixteen bits 0 are no word.
#[derive(Debug, Drop)]
pub struct Dump {
    pub words: Vec<u16>,
    /// Whether the words have a parity bit. If not, the last bit is unused.
    pub has_parity: bool,
}

/// What a dump has at a place.
#[derive(Clone, Copy, Debug, PartialEq, Eq)]
pub struct DumpWord {
    /// The index of the dump among the dumps, from 0.
    pub dump: usize,
    pub bits: u16,
    pub has_parity: bool,
}

/// Why a place of the merged rope has its word.
#[derive(Clone, Copy, Debug, PartialEq, Eq)]
pub enum Decision {
    /// No dump has a word there.
    Nothing,
    /// All dumps with a word there have this one, and none with wrong parity.
    Agreed,
    /// The words with right parity are this one or, if there is none, those without a parity bit.
    Parity,
    /// It alone makes the sum of its bank right, and no other place of the bank was undecided.
    Sum,
    /// More than half of the dumps with a word there have it.
    Majority,
    /// Nothing decides. The word is that of the first dump that may be right.
    Undecided,
}

/// The word at a place of the merged rope.
#[derive(Clone, Copy, Debug, PartialEq, Eq)]
pub struct Choice {
    /// The sixteen bits of a dump; 0 for no word. The parity bit may be wrong or unused.
    pub bits: u16,
    pub decision: Decision,
}

/// Merges dumps of a rope into one of `count` places. Fails if out of memory.
pub fn merge(alloc: Global, dumps: &[Dump], count: usize) -> Result<Vec<Choice>, AllocError>
    requires { count ≤ fixed_words }
    ensures { IfOk result (λ choices. choices.items ≡ merged dumps.now count) }
{
    let choices = choices_by_words(alloc, dumps, count)?;
    let rope = rope_of_choices(alloc, choices.as_slice())?;
    settled_choices(alloc, dumps, choices.as_slice(), &rope, count)
}

/// Returns the words that dumps have at a place, in the order of the dumps.
#[tactic(auto, unfolding(crate::specs::Merge::words_at))]
pub fn words_at(alloc: Global, dumps: &[Dump], place: usize) -> Result<Vec<DumpWord>, AllocError>
    ensures { IfOk result (λ words. words.items ≡ words_at dumps.now place) }
{
    (0..dumps.len())
        .filter(|index| word_of_dump(dumps, place, *index).bits != 0)
        .map(|index| word_of_dump(dumps, place, index))
        .collect(alloc)
}

/// Returns what the dump at an index has at a place.
#[tactic(auto, unfolding(crate::specs::Merge::word_of_dump))]
fn word_of_dump(dumps: &[Dump], place: usize, index: usize) -> DumpWord
    ensures { result ≡ word_of_dump dumps.now place index }
{
    match dumps.get(index) {
        Some(dump) => DumpWord {
            dump: index,
            bits: word_at(dump.words.as_slice(), place),
            has_parity: dump.has_parity,
        },
        None => DumpWord {
            dump: index,
            bits: 0,
            has_parity: false,
        },
    }
}

/// Returns whether words have the same fifteen bits.
fn are_same(words: &[DumpWord]) -> bool
    ensures { result ≡ are_same words.now }
{
    match words.split_first() {
        None => true,
        Some((first, rest)) => !has_other(rest, first.bits / 2),
    }
}

/// Returns whether one of these words has other fifteen bits than these.
#[tactic(auto, unfolding(crate::specs::Merge::has_other))]
fn has_other(words: &[DumpWord], bits: u16) -> bool
    ensures { result ≡ has_other words.now bits }
{
    words.iter().any(|word| word.bits / 2 != bits)
}

/// Returns whether the parity bit of one of these words says that it is wrong.
fn has_wrong(words: &[DumpWord]) -> bool
    ensures { result ≡ list_any (λ word. is_wrong word) words.now }
{
    words
        .iter()
        .any(|word| word.has_parity && is_bad_parity(word.bits))
}

/// Returns whether the parity bit of one of these words says that it is right.
fn has_sound(words: &[DumpWord]) -> bool
    ensures { result ≡ list_any (λ word. is_sound word) words.now }
{
    words
        .iter()
        .any(|word| word.has_parity && !is_bad_parity(word.bits))
}

/// Returns the words between which is chosen: those with right parity or, if there is none, those without a parity bit.
#[tactic(auto, unfolding(crate::specs::Merge::candidates))]
fn candidates(alloc: Global, words: &[DumpWord]) -> Result<Vec<DumpWord>, AllocError>
    ensures { IfOk result (λ chosen. chosen.items ≡ candidates words.now) }
{
    if has_sound(words) {
        sound_words(alloc, words)
    } else {
        words_not_wrong(alloc, words)
    }
}

fn sound_words(alloc: Global, words: &[DumpWord]) -> Result<Vec<DumpWord>, AllocError>
    ensures { IfOk result (λ chosen. chosen.items ≡ filter (λ word. is_sound word) words.now) }
{
    words
        .iter()
        .filter(|word| word.has_parity && !is_bad_parity(word.bits))
        .copied()
        .collect(alloc)
}

fn words_not_wrong(alloc: Global, words: &[DumpWord]) -> Result<Vec<DumpWord>, AllocError>
    ensures { IfOk result (λ chosen. chosen.items ≡ filter (λ word. not (is_wrong word)) words.now) }
{
    words
        .iter()
        .filter(|word| !(word.has_parity && is_bad_parity(word.bits)))
        .copied()
        .collect(alloc)
}

/// Returns the choices that the words of each place make alone.
#[tactic(auto, using(crate::proofs::Merged::choices_none, crate::proofs::Merged::choices_more))]
fn choices_by_words(alloc: Global, dumps: &[Dump], count: usize) -> Result<Vec<Choice>, AllocError>
    ensures { IfOk result (λ choices. choices.items ≡ choices_by_words dumps.now count) }
{
    let mut choices = Vec::new(alloc);
    for place in 0..count {
        let words = words_at(alloc, dumps, place)?;
        choices.push(choice_by_words(alloc, words.as_slice())?)?;
    }
    Ok(choices)
}

#[tactic(auto, unfolding(crate::specs::Merge::choice_by_words))]
fn choice_by_words(alloc: Global, words: &[DumpWord]) -> Result<Choice, AllocError>
    ensures { IfOk result (λ choice. choice ≡ choice_by_words words.now) }
{
    let chosen = candidates(alloc, words)?;
    Ok(choice_among(words, chosen.as_slice()))
}

/// Returns the choice between words, of which some are the candidates.
fn choice_among(words: &[DumpWord], chosen: &[DumpWord]) -> Choice
    ensures { result ≡ choice_among words.now chosen.now }
{
    match (words.first(), chosen.first()) {
        (None, _) => Choice {
            bits: 0,
            decision: Decision::Nothing,
        },
        (Some(word), None) => Choice {
            bits: word.bits,
            decision: Decision::Undecided,
        },
        (Some(_), Some(first)) => Choice {
            bits: first.bits,
            decision: decision_among(words, chosen),
        },
    }
}

/// Returns why the first candidate is chosen.
fn decision_among(words: &[DumpWord], chosen: &[DumpWord]) -> Decision
    ensures { result ≡ decision_among words.now chosen.now }
{
    if has_wrong(words) || !are_same(words) {
        if are_same(chosen) {
            Decision::Parity
        } else {
            Decision::Undecided
        }
    } else {
        Decision::Agreed
    }
}

/// Returns the rope of these choices.
#[tactic(auto, unfolding(agc_store::specs::Cells::start_memory))]
fn rope_of_choices(alloc: Global, choices: &[Choice]) -> Result<Store, AllocError>
    ensures { IfOk result (λ store. store.fixed ≡ rope_of_choices choices.now) }
{
    let file = file_of_choices(alloc, choices)?;
    match Rope::read_as(alloc, RopeForm::Parity, file.as_slice()) {
        Ok(rope) => Ok(Store::new(rope)),
        Err(_) => Err(AllocError),
    }
}

/// Returns the file of these choices in the form with parity.
#[tactic(auto, unfolding(crate::specs::Merge::file_of_choices))]
fn file_of_choices(alloc: Global, choices: &[Choice]) -> Result<Vec<u8>, AllocError>
    ensures { IfOk result (λ file. file.items ≡ file_of_choices choices.now) }
{
    let words = words_of_choices(alloc, choices)?;
    file_of_words(alloc, words.as_slice())
}

/// Returns the words of these choices, with the right parity. Fails if out of memory.
pub fn words_of_choices(alloc: Global, choices: &[Choice]) -> Result<Vec<u16>, AllocError>
    ensures { IfOk result (λ words. words.items
        ≡ map (λ choice. with_right_parity choice.bits) choices.now) }
{
    choices
        .iter()
        .map(|choice| with_right_parity(choice.bits))
        .collect(alloc)
}

/// Returns the choices of all places, after the words alone have decided what they can.
#[tactic(auto, using(crate::proofs::Merged::settled_none, crate::proofs::Merged::settled_more))]
fn settled_choices(
    alloc: Global,
    dumps: &[Dump],
    choices: &[Choice],
    rope: &Store,
    count: usize,
) -> Result<Vec<Choice>, AllocError>
    requires { count ≤ fixed_words }
    ensures { IfOk result (λ new. new.items ≡ settled_choices dumps.now choices.now rope.now.fixed count) }
{
    let mut new = Vec::new(alloc);
    for place in 0..count {
        new.push(settled_at(alloc, dumps, choices, rope, place)?)?;
    }
    Ok(new)
}

#[tactic(auto, unfolding(crate::specs::Merge::settled_at))]
fn settled_at(
    alloc: Global,
    dumps: &[Dump],
    choices: &[Choice],
    rope: &Store,
    place: usize,
) -> Result<Choice, AllocError>
    requires { place < fixed_words }
    ensures { IfOk result (λ choice. choice ≡ settled_at dumps.now choices.now rope.now.fixed place) }
{
    let words = words_at(alloc, dumps, place)?;
    let choice = choice_by_words(alloc, words.as_slice())?;
    settled(alloc, choices, rope, place, words.as_slice(), choice)
}

/// Returns the choice at a place after the words alone have made this one.
#[tactic(auto, unfolding(crate::specs::Merge::settled))]
fn settled(
    alloc: Global,
    choices: &[Choice],
    rope: &Store,
    place: usize,
    words: &[DumpWord],
    choice: Choice,
) -> Result<Choice, AllocError>
    requires { place < fixed_words }
    ensures { IfOk result (λ new. new ≡ settled choices.now rope.now.fixed place words.now choice) }
{
    if !is_undecided(choice) {
        return Ok(choice);
    }
    let shown = shown_by_sum(alloc, choices, rope, place, words)?;
    let most = in_most(alloc, words)?;
    Ok(choice_of(shown.as_slice(), most.as_slice(), choice))
}

fn choice_of(shown: &[DumpWord], most: &[DumpWord], choice: Choice) -> Choice
    ensures { result ≡ choice_of shown.now most.now choice }
{
    match (shown.first(), most.first()) {
        (Some(word), _) => Choice {
            bits: word.bits,
            decision: Decision::Sum,
        },
        (None, Some(word)) => Choice {
            bits: word.bits,
            decision: Decision::Majority,
        },
        (None, None) => choice,
    }
}

/// Returns the candidates with one word, if it alone makes the sum of its bank right.
#[tactic(auto, unfolding(crate::specs::Merge::shown_by_sum))]
fn shown_by_sum(
    alloc: Global,
    choices: &[Choice],
    rope: &Store,
    place: usize,
    words: &[DumpWord],
) -> Result<Vec<DumpWord>, AllocError>
    requires { place < fixed_words }
    ensures { IfOk result (λ shown. shown.items ≡ shown_by_sum choices.now rope.now.fixed place words.now) }
{
    let found = fitting(alloc, rope, place, words)?;
    if is_only_undecided(choices, place) && are_same(found.as_slice()) {
        Ok(found)
    } else {
        Ok(Vec::new(alloc))
    }
}

/// Returns the candidates with which the sum of the bank is right.
#[tactic(auto, unfolding(crate::specs::Merge::fitting))]
fn fitting(
    alloc: Global,
    rope: &Store,
    place: usize,
    words: &[DumpWord],
) -> Result<Vec<DumpWord>, AllocError>
    requires { place < fixed_words }
    ensures { IfOk result (λ found. found.items ≡ fitting rope.now.fixed place words.now) }
{
    let chosen = candidates(alloc, words)?;
    chosen
        .as_slice()
        .iter()
        .filter(|word| makes_sum_fit(rope, place, Narrow::with_bits(word.bits / 2)))
        .copied()
        .collect(alloc)
}

/// Returns the candidates that more than half of the dumps with a word at the place have.
#[tactic(auto, unfolding(crate::specs::Merge::in_most))]
fn in_most(alloc: Global, words: &[DumpWord]) -> Result<Vec<DumpWord>, AllocError>
    ensures { IfOk result (λ found. found.items ≡ in_most words.now) }
{
    let half = words.len() / 2;
    let chosen = candidates(alloc, words)?;
    chosen
        .as_slice()
        .iter()
        .filter(|word| half < count_of(words, word.bits / 2))
        .copied()
        .collect(alloc)
}

/// Returns how many of these words have these fifteen bits.
#[tactic(auto, unfolding(crate::specs::Merge::count_of))]
fn count_of(words: &[DumpWord], bits: u16) -> usize
    ensures { result ≡ count_of words.now bits }
{
    words.iter().filter(|word| word.bits / 2 == bits).count()
}

/// Returns whether no other place of the bank is undecided.
#[tactic(auto, unfolding(crate::specs::Merge::is_only_undecided))]
fn is_only_undecided(choices: &[Choice], place: usize) -> bool
    requires { place < fixed_words }
    ensures { result ≡ is_only_undecided choices.now place }
{
    let size = FIXED_BANK_SIZE as usize;
    let first = size * (place / size);
    !has_other_undecided(choices, place, first)
}

/// Returns whether another place of the bank that begins at a place is undecided.
#[tactic(auto, unfolding(crate::specs::Merge::has_other_undecided))]
fn has_other_undecided(choices: &[Choice], place: usize, first: usize) -> bool
    requires { first < fixed_words }
    ensures { result ≡ has_other_undecided choices.now place first }
{
    (0..FIXED_BANK_SIZE as usize).any(|offset| is_other_undecided(choices, place, first + offset))
}

/// Returns whether this is another place than one, and undecided.
#[tactic(auto, unfolding(crate::specs::Merge::is_other_undecided))]
fn is_other_undecided(choices: &[Choice], place: usize, other: usize) -> bool
    ensures { result ≡ is_other_undecided choices.now place other }
{
    other != place && is_undecided_at(choices, other)
}

#[tactic(auto, unfolding(crate::specs::Merge::is_undecided_at))]
fn is_undecided_at(choices: &[Choice], place: usize) -> bool
    ensures { result ≡ is_undecided_at choices.now place }
{
    match choices.get(place) {
        Some(choice) => is_undecided(*choice),
        None => false,
    }
}

fn is_undecided(choice: Choice) -> bool
    ensures { result ≡ is_undecided_by choice.decision }
{
    matches!(choice.decision, Decision::Undecided)
}

/// The chosen word is that of a dump: what holds for the words of all dumps with a word at a place holds for the chosen
/// one. So if they have the same fifteen bits, the merged rope has these too.
pub fn a_choice_is_a_dumps_word()
    ensures { (holds : ℕ → Bool) (choices : List Choice) (rope : List Number) (place : ℕ)
        (word : DumpWord) (words : List DumpWord)
        → All (λ each. holds each.bits ≡ true) (word ∷ words)
        → holds (settled choices rope place (word ∷ words) (choice_by_words (word ∷ words))).bits ≡ true }
{}

/// A word that is chosen by the sum of its bank makes that sum right.
pub fn words_chosen_by_sum_make_it_right()
    ensures { (choices : List Choice) (rope : List Number) (place : ℕ) (words : List DumpWord)
        → All (λ word. makes_sum_fit rope place (narrow_number (word.bits / 2)) ≡ true)
        (shown_by_sum choices rope place words) }
{}
