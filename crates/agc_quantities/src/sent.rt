//! Reads what a program sends by the downlink from a log.
ghost use Rattle.std.specs.Prelude.{◌≡◌, ◌++◌, IfOk, OnOk};
ghost use Rattle.agc_word.specs.Text.{words_of};
ghost use Rattle.agc_quantities.specs.Sent.{pairs_of, pairs_in, sent_in, sent_of, sent_on, pair_of, pair_with};

use agc_word::{next_line, next_word, read_decimal, read_octal};
use std::alloc::{AllocError, Global};

/// The channel of the first word of a pair.
const FIRST: u64 = 0o34;

/// The channel of the second word of a pair.
const SECOND: u64 = 0o35;

/// The most digits of a cycle.
const CYCLE_DIGITS: usize = 13;

/// A word that the program has written to a channel of the downlink.
#[derive(Clone, Copy, Debug, PartialEq, Eq)]
pub struct SentWord {
    pub cycle: u64,
    /// Whether the channel is 35, not 34.
    pub is_second: bool,
    /// The word's pattern, at most 77777 octal.
    pub bits: u16,
}

/// Two words that go down together: that of channel 34, and that of channel 35.
#[derive(Clone, Copy, Debug, PartialEq, Eq)]
pub struct Pair {
    /// The cycle of the first word.
    pub cycle: u64,
    pub first: u16,
    pub second: u16,
}

/// Returns the pairs that a log has: each word of channel 34 with a word of channel 35, if that is the next one of both.
pub fn pairs_in(alloc: Global, log: &[u8]) -> Result<Vec<Pair>, AllocError>
    ensures { IfOk result (λ pairs. pairs.items ≡ pairs_in log.now) }
{
    let words = sent_in(alloc, log)?;
    pairs_of(alloc, words.as_slice())
}

/// Returns the words of both channels that a log has.
fn sent_in(alloc: Global, log: &[u8]) -> Result<Vec<SentWord>, AllocError>
    ensures { IfOk result (λ words. words.items ≡ sent_in log.now) }
{
    let mut words = Vec::new(alloc);
    let mut rest = log;
    while let Some((line, after)) = next_line(rest) {
        add_sent(&mut words, line)?;
        rest = after;
    }
    Ok(words)
}

/// Adds the word of a line, if it has one.
fn add_sent(words: &mut Vec<SentWord>, line: &[u8]) -> Result<(), AllocError>
    ensures { OnOk result (words.new.items ≡ words.old.items ++ sent_on line.now) }
{
    if let Some(word) = read_sent(line) {
        words.push(word)?;
    }
    Ok(())
}

/// Reads a line of a log: a word of one of both channels; any other line has none.
fn read_sent(line: &[u8]) -> Option<SentWord>
    ensures { result ≡ sent_of (words_of line.now) }
{
    let (cycle, rest) = next_word(line)?;
    let (channel, rest) = next_word(rest)?;
    let (word, rest) = next_word(rest)?;
    if next_word(rest).is_some() {
        return None;
    }
    let cycle = read_decimal(CYCLE_DIGITS, cycle)?;
    let channel = read_octal(3, channel)?;
    let bits = read_octal(5, word)?;
    if channel != FIRST && channel != SECOND {
        return None;
    }
    Some(SentWord {
        cycle,
        is_second: channel == SECOND,
        bits: bits as u16,
    })
}

/// Joins words to pairs.
#[tactic(auto, unfolding(crate::specs::Sent::pairs_of))]
fn pairs_of(alloc: Global, words: &[SentWord]) -> Result<Vec<Pair>, AllocError>
    ensures { IfOk result (λ pairs. pairs.items ≡ pairs_of words.now) }
{
    let mut pairs = Vec::new(alloc);
    let mut rest = words;
    while let Some((first, after)) = rest.split_first() {
        add_pair(&mut pairs, *first, after)?;
        rest = after;
    }
    Ok(pairs)
}

/// Adds the pair that a word makes with the next of these, if they are one.
fn add_pair(pairs: &mut Vec<Pair>, first: SentWord, after: &[SentWord]) -> Result<(), AllocError>
    ensures { OnOk result (pairs.new.items ≡ pairs.old.items ++ pair_with first after.now) }
{
    if let Some((second, _)) = after.split_first() {
        push_pair(pairs, first, *second)?;
    }
    Ok(())
}

/// Adds a pair, if two words that follow each other are one.
fn push_pair(pairs: &mut Vec<Pair>, first: SentWord, second: SentWord) -> Result<(), AllocError>
    ensures { OnOk result (pairs.new.items ≡ pairs.old.items ++ pair_of first second) }
{
    if !first.is_second && second.is_second {
        pairs.push(Pair {
            cycle: first.cycle,
            first: first.bits,
            second: second.bits,
        })?;
    }
    Ok(())
}
