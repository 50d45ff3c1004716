//! Finds the lines of the tables that changed.
ghost use Rattle.std.specs.Prelude.{◌≡◌, ◌∷◌, ◌++◌, ◌<◌, [], IfOk, MatchOption, OnOk, length, string_bytes, if◌then◌else◌};
ghost use Rattle.std.specs.Str.{bytes_eq};
ghost use Rattle.agc_timeline.specs.Lines.{line_at, lines_at, lines_in};

use crate::job_place::push_name_after;
use agc_symbols::SymbolTable;
use std::alloc::{AllocError, Global};

/// Returns the lines of `after` that differ from those in the same places of `before`, each with the cycle before it,
/// and the name of its place, if there are names, and a line feed after it. Fails if memory runs out.
pub(crate) fn changed_lines(
    alloc: Global,
    names: &Option<SymbolTable>,
    cycle: u64,
    before: &str,
    after: &str,
) -> Result<String, AllocError>
    ensures { IfOk result (λ reported. string_bytes reported
        ≡ lines_at names.now cycle (lines_in before.now) (lines_in after.now)) }
{
    let mut reported = String::new(alloc);
    push_changed(&mut reported, names, cycle, before, after)?;
    Ok(reported)
}

/// Adds the lines of `after` that differ from those in the same places of `before`.
fn push_changed(
    reported: &mut String,
    names: &Option<SymbolTable>,
    cycle: u64,
    before: &str,
    after: &str,
) -> Result<(), AllocError>
    ensures { OnOk result (string_bytes reported.new ≡ string_bytes reported.old
        ++ lines_at names.now cycle (lines_in before.now) (lines_in after.now)) }
{
    let mut before = before;
    let mut after = after;
    loop {
        match (first_line(before), first_line(after)) {
            (Some((old, olds)), Some((line, lines))) => {
                push_where_other(reported, names, cycle, old, line)?;
                before = olds;
                after = lines;
            }
            (None, Some((line, lines))) => {
                push_line(reported, names, cycle, line)?;
                after = lines;
            }
            (Some(_), None) => return Ok(()),
            (None, None) => return Ok(()),
        }
    }
}

/// Adds a line if it changed.
fn push_where_other(
    reported: &mut String,
    names: &Option<SymbolTable>,
    cycle: u64,
    old: &str,
    line: &str,
) -> Result<(), AllocError>
    ensures { OnOk result (string_bytes reported.new ≡ string_bytes reported.old
        ++ (if bytes_eq old.now line.now then [] else line_at names.now cycle line.now)) }
{
    if old != line {
        push_line(reported, names, cycle, line)?;
    }
    Ok(())
}

/// Adds a line with the cycle before it and, if there are names, the name of its place after it.
#[tactic(auto, unfolding(crate::specs::Lines::line_at))]
fn push_line(
    reported: &mut String,
    names: &Option<SymbolTable>,
    cycle: u64,
    line: &str,
) -> Result<(), AllocError>
    ensures { OnOk result (string_bytes reported.new
        ≡ string_bytes reported.old ++ line_at names.now cycle line.now) }
{
    write!(reported, "{cycle} {line}")?;
    push_name_after(reported, names, line)?;
    reported.push_str("\n")
}

/// Returns the first line of a text without its line feed, and the text after it, or `None` for a text without a
/// line.
fn first_line(text: &str) -> Option<(&str, &str)>
    ensures line { MatchOption result (lines_in text.now ≡ [])
        (λ r. lines_in text.now ≡ r.0.now ∷ lines_in r.1.now) }
    ensures shorter { MatchOption result (text.now ≡ []) (λ r. length r.1.now < length text.now) }
{
    match text.split_once('\n') {
        Some(parts) => Some(parts),
        None => whole_line(text),
    }
}

/// Returns a text without a line feed as its only line, unless it is empty.
fn whole_line(text: &str) -> Option<(&str, &str)>
    ensures { MatchOption result (text.now ≡ [])
        (λ r. (r.0.now ≡ text.now) × (r.1.now ≡ []) × (0 < length text.now)) }
{
    if text.is_empty() {
        None
    } else {
        Some((text, ""))
    }
}
