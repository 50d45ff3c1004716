//! Laws of films, each the contract of a function that does nothing. The code is proved equal to the definitions that
//! these laws are about.
ghost use Rattle.std.specs.Prelude.{◌≡◌, ◌≤◌, ℕ, []};
ghost use Rattle.agc_machine.specs.State.{State};
ghost use Rattle.agc_timeline.specs.Frames.{shown_after, shown_at};
ghost use Rattle.agc_timeline.specs.Laws.{AreCuts, frames_of_run, writes_up_to};
ghost use Rattle.agc_timeline.specs.Divergence.{PartAt, first_difference};
ghost use Rattle.agc_trace.specs.declared.span.Span.{Span};

/// At each cycle of a part, its film shows what the panel shows after the writes of the whole run up to that cycle.
#[tactic(auto, using(crate::proofs::ShownPanel::film_is_the_panel))]
pub fn a_film_shows_the_panel()
    ensures { (s : State) (part : Span) (cycle : ℕ) → part.from ≤ cycle → cycle ≤ part.to
        → shown_at (frames_of_run part s) cycle ≡ shown_after (writes_up_to cycle s) }
{}

/// No frame is redundant: each is later than the one before it and shows something else; the first shows something
/// else than the blank panel.
#[tactic(auto, using(crate::proofs::Cuts::film_is_cut))]
pub fn each_frame_is_a_change()
    ensures { (s : State) (part : Span)
        → AreCuts part.from (shown_after []) (frames_of_run part s) }
{}

/// The first difference of two films is the least cycle at which they show different panels.
#[tactic(auto, using(crate::proofs::Apart::films_part))]
pub fn films_part_at_the_first_difference()
    ensures { (s t : State) (part : Span) → PartAt (frames_of_run part s) (frames_of_run part t)
        (first_difference (frames_of_run part s) (frames_of_run part t)) }
{}
