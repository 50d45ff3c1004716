//! Laws of the changes of a run, each the contract of a function that does nothing. The code is proved equal to the
//! definitions that these laws are about.
ghost use Rattle.std.specs.Prelude.{◌≡◌, ◌≤◌, ◌<◌, ◌^◌, ◌++◌, ℕ, [], List, None, Option, codes, flat_map, map};
ghost use Rattle.std.specs.Fmt.{decimal};
ghost use Rattle.agc_word.specs.Number.{Number, pattern_of};
ghost use Rattle.agc_word.specs.Octal.{word_digits};
ghost use Rattle.agc_panel.specs.TablesText.{job_text, time_text};
ghost use Rattle.agc_panel.specs.declared.core_set.Job.{Job};
ghost use Rattle.agc_panel.specs.declared.tables.Task.{Task};
ghost use Rattle.agc_panel.specs.declared.watch_spec.WatchSpec.{WatchSpec};
ghost use Rattle.agc_machine.specs.Laws.{after};
ghost use Rattle.agc_machine.specs.State.{State};
ghost use Rattle.agc_symbols.specs.Symbols.{Symbol};
ghost use Rattle.agc_timeline.specs.ChangeLaws.{AreChanges, shown_at, tables_at};
ghost use Rattle.agc_timeline.specs.Changes.{Sight, changes_in};
ghost use Rattle.agc_timeline.specs.Film.{film_of};
ghost use Rattle.agc_timeline.specs.LinePlace.{line_place, place_in};
ghost use Rattle.agc_timeline.specs.Lines.{jobs_text, lines_in};
ghost use Rattle.agc_timeline.specs.Printed.{applied, jobs_printed, lines_up_to, printed_text};
ghost use Rattle.agc_trace.specs.declared.span.Span.{Span};

/// At each cycle of a span, from the first state in it on, the changes show the tables of the run's last state up to
/// that cycle.
#[tactic(auto, using(crate::proofs::AtCycle::changes_are_the_tables))]
pub fn what_is_shown_is_the_tables()
    ensures { (span : Span) (spec : WatchSpec) (s : State) (n cycle : ℕ) → span.from ≤ (after n s).cycle
        → (after n s).cycle ≤ cycle → cycle ≤ span.to
        → shown_at (changes_in span spec s) cycle ≡ tables_at spec s cycle }
{}

/// No change is redundant: each shows something else than the one before it (the first shows something at all), and
/// none comes before its predecessor.
#[tactic(auto, using(crate::proofs::AtCycle::each_is_a_change))]
pub fn each_entry_is_a_change()
    ensures { (span : Span) (spec : WatchSpec) (s : State)
        → AreChanges span.from span.to [] (changes_in span spec s) }
{}

/// The printed lines are those of the changes, with names each before the name of its place. Without these, and applied one after another, each in place of the line of the same entry,
/// they give the lines of the tables after each change, and at each cycle those of the run's last state up to it.
pub fn the_printed_lines_give_the_tables()
    ensures text { (names : Option (List Symbol)) (span : Span) (spec : WatchSpec) (s : State)
        → jobs_text names span spec s ≡ flat_map (printed_text names) (jobs_printed span spec s) }
    ensures changes { (span : Span) (spec : WatchSpec) (s : State) → spec.sets < 2 ^ 32
        → applied (jobs_printed span spec s)
        ≡ map (λ (sight : Sight). (sight.cycle, lines_in sight.text)) (changes_in span spec s) }
    ensures tables { (span : Span) (spec : WatchSpec) (s : State) (n cycle : ℕ) → spec.sets < 2 ^ 32
        → span.from ≤ (after n s).cycle → (after n s).cycle ≤ cycle → cycle ≤ span.to
        → lines_up_to (applied (jobs_printed span spec s)) cycle ≡ lines_in (tables_at spec s cycle) }
{}

/// The place in a line is that of the job or the task that the line is of: LOC with the banks in BANKSET, or the address
/// with its banks. Other lines have no place.
pub fn a_line_has_the_place_of_its_words()
    ensures job { (k : ℕ) (state : List ℕ) (job : Job) → pattern_of 15 job.bankset < 0o100000
        → pattern_of 15 job.loc < 0o100000
        → line_place (codes "SET " ++ decimal k ++ job_text state job)
        ≡ place_in (pattern_of 15 job.bankset) (pattern_of 15 job.loc) }
    ensures task { (k : ℕ) (task : Task) → pattern_of 15 task.bbcon < 0o100000
        → pattern_of 15 task.address < 0o100000
        → line_place (codes "LST2 " ++ decimal k ++ codes " " ++ word_digits task.address
        ++ codes " " ++ word_digits task.bbcon)
        ≡ place_in (pattern_of 15 task.bbcon) (pattern_of 15 task.address) }
    ensures free { (k : ℕ) → line_place (codes "SET " ++ decimal k ++ codes " FREE") ≡ None }
    ensures times { (words : List Number)
        → line_place (codes "LST1" ++ flat_map time_text words) ≡ None }
{}

/// At each cycle of a part, its film shows the tables of the run's last state up to that cycle.
#[tactic(auto, using(crate::proofs::PartAtCycle::film_is_the_tables))]
pub fn a_film_shows_the_tables()
    ensures { (span : Span) (spec : WatchSpec) (s : State) (cycle : ℕ)
        → span.from ≤ cycle → cycle ≤ span.to
        → shown_at (film_of span spec s) cycle ≡ tables_at spec s cycle }
{}

/// No change of a film is redundant: each shows something else than the one before it, and none comes before its
/// predecessor.
#[tactic(auto, using(crate::proofs::PartAtCycle::film_is_cut))]
pub fn each_tables_frame_is_a_change()
    ensures { (span : Span) (spec : WatchSpec) (s : State) → span.from ≤ span.to
        → AreChanges span.from span.to [] (film_of span spec s) }
{}
