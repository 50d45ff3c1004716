//! Prints a comparison of two runs by what they show.
ghost use Rattle.std.specs.Prelude.{IfSome};
ghost use Rattle.agc_diff.specs.ObservedCompared.{FitsLines};
ghost use Rattle.agc_diff.specs.ObservedPrefix.{FitsPair};
ghost use Rattle.agc_diff.specs.Observation.{FitsShown, FitsSight};

use crate::count::push_count;
use agc_diff::{Observation, Observed, ObservedComparison, Pair};
use agc_panel::Panel;
use agc_trace::DiffBy;
use std::alloc::AllocError;

/// Appends the report of a comparison: one line if the runs show the same. Otherwise it has the place where they diverge,
/// with up to five pairs before it, each after its two cycles; what each run shows there, with its cycle, or `-` for
/// nothing more; and how far apart the clocks were before. `<` marks the run on the left, `>` the one on the right.
/// Fails if memory runs out.
pub fn push_shown(text: &mut String, comparison: &ObservedComparison) -> Result<(), AllocError>
    requires { FitsLines comparison.now }
{
    let Some(divergence) = comparison.divergence else {
        return push_same(text, comparison);
    };
    let (item, number) = (item_name(comparison.what), divergence.number);
    writeln!(text, "The runs part at {item} {number}:")?;
    for pair in &comparison.before {
        push_pair(text, pair)?;
    }
    text.push_str("< ")?;
    push_observation(text, divergence.left)?;
    text.push_str("> ")?;
    push_observation(text, divergence.right)?;
    text.push_str("Before that their clocks are never more than ")?;
    push_count(text, comparison.skew, "cycle", "cycles")?;
    text.push_str(" apart\n")
}

/// Appends one line: that the runs show the same, or the cycle and the number of the first observation that differs. The
/// cycle is that of the run on the left, or of the one on the right if the left one shows nothing more. Fails if memory
/// runs out.
pub fn push_brief(text: &mut String, comparison: &ObservedComparison) -> Result<(), AllocError> {
    match comparison.divergence {
        Some(divergence) => {
            let cycle = first_cycle(divergence.left, divergence.right);
            let (item, number) = (item_name(comparison.what), divergence.number);
            writeln!(text, "parts at cycle {cycle}, {item} {number}")
        }
        None => text.push_str("same\n"),
    }
}

fn push_same(text: &mut String, comparison: &ObservedComparison) -> Result<(), AllocError> {
    text.push_str("The runs show the same: ")?;
    let item = item_name(comparison.what);
    push_count(text, comparison.count, item, items_name(comparison.what))?;
    text.push_str(", and their clocks are never more than ")?;
    push_count(text, comparison.skew, "cycle", "cycles")?;
    text.push_str(" apart\n")
}

/// Returns the name of one observation.
fn item_name(what: DiffBy) -> &'static str {
    match what {
        DiffBy::Writes => "write",
        DiffBy::Channel(_) => "word",
        DiffBy::Panels => "panel",
    }
}

/// Returns the name of several observations.
fn items_name(what: DiffBy) -> &'static str {
    match what {
        DiffBy::Writes => "writes",
        DiffBy::Channel(_) => "words",
        DiffBy::Panels => "panels",
    }
}

/// Returns the cycle of the observation on the left; without one, of that on the right.
fn first_cycle(left: Option<Observation>, right: Option<Observation>) -> u64 {
    match (left, right) {
        (Some(shown), _) => shown.cycle,
        (None, Some(shown)) => shown.cycle,
        (None, None) => 0,
    }
}

/// Appends what both runs show, indented by two spaces, after the cycle of each.
fn push_pair(text: &mut String, pair: &Pair) -> Result<(), AllocError>
    requires { FitsPair pair.now }
{
    let (left, right) = (pair.left.cycle, pair.right.cycle);
    write!(text, "  {left} {right}")?;
    push_sight(text, &pair.left.sight)?;
    text.push_str("\n")
}

/// Appends what a run shows, after its cycle, or a mark for nothing more.
fn push_observation(text: &mut String, shown: Option<Observation>) -> Result<(), AllocError>
    requires { IfSome shown FitsShown }
{
    match shown {
        Some(shown) => {
            let cycle = shown.cycle;
            write!(text, "{cycle}")?;
            push_sight(text, &shown.sight)?;
            text.push_str("\n")
        }
        None => text.push_str("-\n"),
    }
}

/// Appends what is seen, after a space: a word after its channel, or the lines of a panel.
fn push_sight(text: &mut String, sight: &Observed) -> Result<(), AllocError>
    requires { FitsSight sight.now }
{
    match sight {
        Observed::Word { channel, word } => write!(text, " {channel:03o} {word}"),
        Observed::Panel(panel) => push_panel(text, panel),
    }
}

/// Appends the lines of a panel, each after a space.
fn push_panel(text: &mut String, panel: &Panel) -> Result<(), AllocError> {
    let shown = panel.text(*text.allocator())?;
    for line in shown.lines() {
        write!(text, " {line}")?;
    }
    Ok(())
}
