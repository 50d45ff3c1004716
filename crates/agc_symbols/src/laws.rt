//! Laws of symbols, each the contract of a function with an empty body: what the nearest name of a place is, and that a
//! written symbol file reads back.
ghost use Rattle.std.specs.Prelude.{◌≡◌, List, MatchOption, Ok};
ghost use Rattle.agc_symbols.specs.Symbols.{Symbol, names_in};
ghost use Rattle.agc_symbols.specs.Nearest.{IsNearest, NoneReaches, nearest};
ghost use Rattle.agc_symbols.specs.Writing.{AreSayable, names_text};
ghost use Rattle.agc_listing.specs.declared.location.Location.{Location};

/// The name printed for a place is one of the names, at the place or below it in the same bank, at most 100 octal away.
/// No such name is nearer, and none that comes earlier is at the same place. If a place has no name printed, no name is
/// that near.
pub fn the_nearest_name_is_reported()
    ensures { (names : List Symbol) (at : Location)
        → MatchOption (nearest names at) (NoneReaches names at) (IsNearest names at) }
{}

/// `SymbolTable::read` reads the lines that `push_name_line` writes as the same names at the same places, in the same
/// order, if each place is in memory and each name is a valid name of one word that begins no comment.
pub fn written_names_are_read()
    ensures { (names : List Symbol) → AreSayable names → names_in (names_text names) ≡ Ok names }
{}
