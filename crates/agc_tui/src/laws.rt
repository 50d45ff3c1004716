//! Laws of the history's lines, each the contract of a function with an empty body.
ghost use Rattle.std.specs.Prelude.{◌≡◌, List, [], ◌∷◌, ◌++◌};
ghost use Rattle.agc_trace.specs.declared.entry.Entry.{Entry};
ghost use Rattle.agc_tui.specs.Fold.{added, boundaries_of, folded};
ghost use Rattle.agc_tui.specs.declared.fold.Line.{Line};

/// No boundary is lost in the lines: unfolding the lines of some boundaries gives these boundaries back, in order, each
/// with its cycle. With one more boundary, the lines have just that one more.
pub fn unfolding_gives_the_boundaries()
    ensures folded { (entries : List Entry) → boundaries_of (folded entries) ≡ entries }
    ensures added { (entry : Entry) (lines : List Line)
        → boundaries_of (added entry lines) ≡ boundaries_of lines ++ entry ∷ [] }
{}
