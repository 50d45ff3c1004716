//! A search forward that goes on from turn to turn, and the remarks on searches.
use agc_tui::Target;
use std::alloc::AllocError;

/// The most cycles that a search forward runs: 20 minutes of the machine's time.
const FARTHEST: u64 = 100_000_000;

/// The remark while a search back goes on.
pub const SEARCHING_BACK: &str = "searching back; space ends the search";

/// What a search looks for.
#[derive(Clone, Copy, Debug, PartialEq, Eq)]
pub enum Sought {
    /// What a key looks for.
    ByKey(Target),
    /// The condition that was typed last.
    Typed,
}

/// A search forward.
#[derive(Clone, Copy, Debug, PartialEq, Eq)]
pub struct Seeking {
    pub sought: Sought,
    /// The hits until it ends.
    pub left: u64,
    /// The cycle at which it ends without them.
    pub end: u64,
}

impl Seeking {
    /// Begins a search at a cycle for a hit: 1 for the first one, 2 for the second, and so on.
    pub fn new(sought: Sought, count: u64, cycle: u64) -> Seeking {
        Seeking {
            sought,
            left: count,
            end: cycle.saturating_add(FARTHEST),
        }
    }
}

/// How a search ended.
#[derive(Clone, Copy, Debug, PartialEq, Eq)]
pub enum Outcome {
    FoundAhead,
    /// It has not hit within its cycles.
    NoneAhead,
    /// It came to the stop of the machine.
    NoneBeforeStop,
    FoundBehind,
    NoneBehind,
}

/// Appends how a search by a key ended.
pub fn push_outcome(text: &mut String, outcome: Outcome, target: Target) -> Result<(), AllocError> {
    let (article, name) = match target {
        Target::Interrupt => ("an", "interrupt"),
        Target::Write => ("a", "channel write"),
        Target::Panel => ("a", "change of the panel"),
    };
    match outcome {
        Outcome::FoundAhead => write!(text, "found: just after {article} {name}"),
        Outcome::FoundBehind => write!(text, "found: just before {article} {name}"),
        Outcome::NoneAhead => write!(text, "no {name} in {FARTHEST} cycles"),
        Outcome::NoneBeforeStop => write!(text, "no {name} before the stop"),
        Outcome::NoneBehind => write!(text, "no {name} before now"),
    }
}

/// Appends how a search for a condition ended.
pub fn push_outcome_of(
    text: &mut String,
    outcome: Outcome,
    condition: &str,
) -> Result<(), AllocError> {
    match outcome {
        Outcome::FoundAhead | Outcome::FoundBehind => write!(text, "found: {condition}"),
        Outcome::NoneAhead => write!(text, "none in {FARTHEST} cycles: {condition}"),
        Outcome::NoneBeforeStop => write!(text, "none before the stop: {condition}"),
        Outcome::NoneBehind => write!(text, "none before now: {condition}"),
    }
}

/// Returns the remark while a search forward goes on.
pub fn searching(sought: Sought) -> &'static str {
    match sought {
        Sought::ByKey(Target::Interrupt) => "searching for an interrupt; space ends the search",
        Sought::ByKey(Target::Write) => "searching for a channel write; space ends the search",
        Sought::ByKey(Target::Panel) =>
            "searching for a change of the panel; space ends the search",
        Sought::Typed => "searching; space ends the search",
    }
}
