//! Compares the words of two ropes: the places that differ, and blocks of words that moved.
ghost use Rattle.std.specs.Prelude.{◌≡◌, ℕ, ◌+◌, ◌≤◌, ◌<◌, All, IfOk, IfSome};
ghost use Rattle.agc_store.specs.Places.{fixed_words};
ghost use Rattle.agc_mend.specs.WordDiff.{IsMoved, IsSameRun, differs_at, moved_words, places_apart};

use agc_store::Store;
use agc_store::place::FIXED_WORDS;
use std::alloc::{AllocError, Global};

/// The number of fifteen-bit words.
const PATTERNS: usize = 0o100000;

/// The most places that are tried as the new place of a word.
const MOST_TRIED: usize = 1000;

/// A block of words of one rope that is at another place in the other.
#[derive(Clone, Copy, Debug, PartialEq, Eq)]
pub struct MovedBlock {
    /// Its first place in the first rope.
    pub source: usize,
    /// Its first place in the second rope.
    pub target: usize,
    /// The number of its words.
    pub count: usize,
}

/// For each word, its places in a rope: the last one, and for each place the one before it with the same word. They are
/// counted from 1; 0 is no place.
#[derive(Drop)]
struct Index {
    last: Vec<usize>,
    before: Vec<usize>,
}

/// Returns the places at which two ropes differ, in their order. Fails if out of memory.
pub fn places_apart(alloc: Global, first: &Store, second: &Store) -> Result<Vec<usize>, AllocError>
    ensures { IfOk result (λ places. places.items
        ≡ places_apart fixed_words first.now.fixed second.now.fixed) }
{
    first_apart(alloc, first, second, FIXED_WORDS as usize)
}

#[tactic(auto, unfolding(crate::specs::WordDiff::places_apart))]
fn first_apart(
    alloc: Global,
    first: &Store,
    second: &Store,
    count: usize,
) -> Result<Vec<usize>, AllocError>
    requires { count ≤ fixed_words }
    ensures { IfOk result (λ places. places.items
        ≡ places_apart count first.now.fixed second.now.fixed) }
{
    (0..count)
        .filter(|place| differs_at(first, second, *place))
        .collect(alloc)
}

/// Returns whether two ropes differ at a place.
pub(crate) fn differs_at(first: &Store, second: &Store, place: usize) -> bool
    requires { place < fixed_words }
    ensures { result ≡ differs_at first.now.fixed second.now.fixed place }
{
    first.fixed_at(place).bits() != second.fixed_at(place).bits()
}

/// Returns blocks of at least `least` words of the first rope that moved to another place in the second, in the order of
/// the first rope. A block begins at a place that differs. What is at its own place in both ropes did not move. Fails if
/// out of memory.
pub fn moved_blocks(
    alloc: Global,
    first: &Store,
    second: &Store,
    least: usize,
) -> Result<Vec<MovedBlock>, AllocError>
    ensures { IfOk result (λ blocks.
        All (IsMoved first.now.fixed second.now.fixed least) blocks.items) }
{
    let index = index_of(alloc, second)?;
    let mut blocks = Vec::new(alloc);
    let mut next = 0;
    for source in 0..FIXED_WORDS as usize {
        if source < next || !differs_at(first, second, source) {
            continue;
        }
        if let Some(block) = moved_from(first, second, &index, source, least) {
            next = source.saturating_add(block.count);
            blocks.push(block)?;
        }
    }
    Ok(blocks)
}

/// Returns the longest block from a place on that is elsewhere in the other rope, if it is long enough.
fn moved_from(
    first: &Store,
    second: &Store,
    index: &Index,
    source: usize,
    least: usize,
) -> Option<MovedBlock>
    requires { source < fixed_words }
    ensures { IfSome result (IsMoved first.now.fixed second.now.fixed least) }
{
    let word = usize::from(first.fixed_at(source).bits());
    if word == 0 {
        return None;
    }
    let mut longest = None;
    let mut most = least;
    let mut at = place_in(&index.last, word);
    for _ in 0..MOST_TRIED {
        if at == 0 || at > FIXED_WORDS as usize {
            break;
        }
        let target = at - 1;
        let count = same_run(first, second, source, target);
        let block = MovedBlock {
            source,
            target,
            count,
        };
        if count >= most && target != source && moved_words(first, second, block) >= least {
            most = count.saturating_add(1);
            longest = Some(block);
        }
        at = place_in(&index.before, target);
    }
    longest
}

/// Returns how many words of a block are not at their own place in both ropes, neither before the move nor after it.
#[tactic(auto, unfolding(crate::specs::WordDiff::moved_words))]
fn moved_words(first: &Store, second: &Store, block: MovedBlock) -> usize
    requires source { block.source + block.count ≤ fixed_words }
    requires target { block.target + block.count ≤ fixed_words }
    ensures { result ≡ moved_words first.now.fixed second.now.fixed block }
{
    (0..block.count)
        .filter(|k| {
            differs_at(first, second, block.source + *k)
                && differs_at(first, second, block.target + *k)
        })
        .count()
}

/// Returns an entry of an index; 0 past its end.
fn place_in(places: &Vec<usize>, at: usize) -> usize {
    places.as_slice().get(at).copied().unwrap_or(0)
}

/// Returns how many words of one rope from a place on are those of the other from a place on, up to the last one that
/// is not +0.
fn same_run(first: &Store, second: &Store, source: usize, target: usize) -> usize
    requires source { source < fixed_words }
    requires target { target < fixed_words }
    ensures { IsSameRun first.now.fixed second.now.fixed source target result }
{
    let most = (FIXED_WORDS as usize - source).min(FIXED_WORDS as usize - target);
    let mut count = 0;
    for at in 0..most {
        let word = first.fixed_at(source + at).bits();
        if word != second.fixed_at(target + at).bits() {
            return count;
        }
        if word != 0 {
            count = at + 1;
        }
    }
    count
}

/// Returns the places of each word of a rope. Fails if out of memory.
fn index_of(alloc: Global, store: &Store) -> Result<Index, AllocError> {
    let mut last = vec![in alloc; 0usize; PATTERNS]?;
    let mut before = vec![in alloc; 0usize; FIXED_WORDS as usize]?;
    for place in 0..FIXED_WORDS as usize {
        let word = usize::from(store.fixed_at(place).bits());
        if let Some(entry) = last.get_mut(word) {
            if let Some(earlier) = before.get_mut(place) {
                *earlier = *entry;
            }
            *entry = place + 1;
        }
    }
    Ok(Index { last, before })
}
