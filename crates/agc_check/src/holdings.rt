//! Counts what a rope and a script hold.
ghost use Rattle.std.specs.Prelude.{◌≡◌};
ghost use Rattle.agc_check.specs.Holdings.{
  bank_count,
  rope_holdings,
  script_holdings,
  span_of,
  word_count,
};

use agc_mend::{has_words, is_woven_at};
use agc_script::Script;
use agc_store::place::{FIXED_BANKS, FIXED_WORDS};
use agc_store::{Rope, Store};

/// How much of a rope is used.
#[derive(Clone, Copy, Debug, PartialEq, Eq)]
pub struct RopeHoldings {
    /// The words that are not +0, at most 36,864.
    pub words: usize,
    /// The banks that have such a word, at most 36.
    pub banks: usize,
}

/// How many events a script has, and when.
#[derive(Clone, Copy, Debug, PartialEq, Eq)]
pub struct ScriptHoldings {
    /// The number of events, at most 65,536.
    pub events: usize,
    /// `None` if there are no events.
    pub span: Option<Span>,
}

/// The machine cycles of the first and of the last event.
#[derive(Clone, Copy, Debug, PartialEq, Eq)]
pub struct Span {
    pub first: u64,
    pub last: u64,
}

/// Counts the words of a rope.
#[tactic(auto, unfolding(agc_store::specs::Cells::start_memory))]
pub fn holdings_of_rope(rope: Rope) -> RopeHoldings
    ensures { result ≡ rope_holdings rope }
{
    holdings_in(&Store::new(rope))
}

/// Counts the words of the rope in a store.
#[tactic(auto, unfolding(crate::specs::Holdings::rope_holdings))]
pub(crate) fn holdings_in(store: &Store) -> RopeHoldings
    ensures { result ≡ rope_holdings store.now.fixed }
{
    RopeHoldings {
        words: word_count(store),
        banks: bank_count(store),
    }
}

#[tactic(auto, unfolding(crate::specs::Holdings::word_count))]
fn word_count(store: &Store) -> usize
    ensures { result ≡ word_count store.now.fixed }
{
    (0..FIXED_WORDS as usize)
        .filter(|place| is_woven_at(store, *place))
        .count()
}

#[tactic(auto, unfolding(crate::specs::Holdings::bank_count))]
fn bank_count(store: &Store) -> usize
    ensures { result ≡ bank_count store.now.fixed }
{
    (0..usize::from(FIXED_BANKS))
        .filter(|bank| has_words(store, *bank))
        .count()
}

/// Counts the events of a script.
#[tactic(auto, unfolding(crate::specs::Holdings::script_holdings))]
pub fn holdings_of_script(script: &Script) -> ScriptHoldings
    ensures { result ≡ script_holdings script.now }
{
    ScriptHoldings {
        events: script.len(),
        span: span_of(script),
    }
}

#[tactic(auto, unfolding(crate::specs::Holdings::span_of))]
fn span_of(script: &Script) -> Option<Span>
    ensures { result ≡ span_of script.now }
{
    if script.is_empty() {
        return None;
    }
    Some(Span {
        first: script.at(0).cycle,
        last: script.at(script.len() - 1).cycle,
    })
}
