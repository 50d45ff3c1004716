//! Rows of the tables, as the definitions see them.
ghost use Rattle.std.specs.Prelude.{◌≡◌, ◌<◌, [], length, map, get_or};
ghost use Rattle.agc_interpretive.specs.Operation.{no_pair, no_row, seen_pair, seen_row, seen_text};

use crate::form::Form;

/// Returns a row of the table of operations.
pub(crate) fn row_in(table: &[(&'static str, u8, Form)], place: usize) -> (&'static str, u8, Form)
    requires { place < length table.now }
    ensures name { result.0.now ≡ (get_or (map seen_row table.now) place no_row).name }
    ensures code { result.1 ≡ (get_or (map seen_row table.now) place no_row).code }
    ensures form { result.2 ≡ (get_or (map seen_row table.now) place no_row).form }
{
    table[place]
}

/// Returns a row of a table of names.
pub(crate) fn pair_in(
    table: &[(&'static str, &'static str)],
    place: usize,
) -> (&'static str, &'static str)
    requires { place < length table.now }
    ensures first { result.0.now ≡ (get_or (map seen_pair table.now) place no_pair).0 }
    ensures second { result.1.now ≡ (get_or (map seen_pair table.now) place no_pair).1 }
{
    table[place]
}

/// Returns an entry of a jump table.
pub(crate) fn text_in(table: &[&'static str], place: usize) -> &'static str
    requires { place < length table.now }
    ensures { result.now ≡ get_or (map seen_text table.now) place [] }
{
    table[place]
}
