//! Resolves a text to a range of locations, by symbols too.
ghost use Rattle.std.specs.Prelude.{◌≡◌, ◌<◌, IfSome, length};
ghost use Rattle.agc_symbols.specs.Resolve.{resolve_cells, dash_between, is_between, range_by_names, resolve_range};

use crate::lookup::resolve;
use crate::symbol_table::SymbolTable;
use agc_listing::{LocationRange, RangeFault, one_place, only_cells, two_places};

/// Resolves a text to a range: as `LocationRange::named` reads it or, if it does not, as one location that `resolve`
/// reads, or as two of one bank separated by a dash, at the first dash with a location on either side. If it is neither,
/// the fault is that of `LocationRange::named`.
#[tactic(auto, unfolding(crate::specs::Resolve::resolve_range))]
pub fn resolve_range(names: &Option<SymbolTable>, text: &[u8]) -> Result<LocationRange, RangeFault>
    ensures { result ≡ resolve_range names.now text.now }
{
    match LocationRange::named(text) {
        Ok(places) => Ok(places),
        Err(why) => range_by_names(names, why, text),
    }
}

/// Resolves a text to a range of cells of erasable memory.
#[tactic(auto, unfolding(crate::specs::Resolve::resolve_cells))]
pub fn resolve_cells(names: &Option<SymbolTable>, text: &[u8]) -> Result<LocationRange, RangeFault>
    ensures { result ≡ resolve_cells names.now text.now }
{
    only_cells(resolve_range(names, text)?)
}

/// Resolves a text to a range by names.
#[tactic(auto, unfolding(crate::specs::Resolve::range_by_names))]
fn range_by_names(
    names: &Option<SymbolTable>,
    why: RangeFault,
    text: &[u8],
) -> Result<LocationRange, RangeFault>
    ensures { result ≡ range_by_names names.now why text.now }
{
    match (resolve(names, text), dash_between(names, text)) {
        (Some(place), _) => one_place(Some(place)),
        (None, Some(at)) => two_places(
            resolve(names, &text[..at]),
            resolve(names, &text[at + 1..]),
        ),
        (None, None) => Err(why),
    }
}

/// Returns the position of the first dash between two locations.
#[tactic(auto, unfolding(crate::specs::Resolve::dash_between))]
fn dash_between(names: &Option<SymbolTable>, text: &[u8]) -> Option<usize>
    ensures place { result ≡ dash_between names.now text.now }
    ensures bound { IfSome result (λ at. at < length text.now) }
{
    (0..text.len()).find(|at| is_between(names, text, *at))
}

/// Returns whether there is a dash at a position, with a location on either side.
fn is_between(names: &Option<SymbolTable>, text: &[u8], at: usize) -> bool
    ensures { result ≡ is_between names.now text.now at }
{
    at < text.len()
        && text[at] == b'-'
        && resolve(names, &text[..at]).is_some()
        && resolve(names, &text[at + 1..]).is_some()
}
