//! Laws of every trace, each the contract of a function with an empty body.
ghost use Rattle.std.specs.Prelude.{◌≡◌, ℕ, ◌<◌, List, ◌++◌, codes, length, map, slice_get, Some};
ghost use Rattle.agc_machine.specs.Laws.{after};
ghost use Rattle.agc_machine.specs.Run.{run_of};
ghost use Rattle.agc_machine.specs.State.{State};
ghost use Rattle.agc_store.specs.Memory.{Memory, read_of};
ghost use Rattle.agc_trace.specs.Change.{changes_text};
ghost use Rattle.agc_trace.specs.Entry.{entry_of};
ghost use Rattle.agc_trace.specs.Line.{entry_text};
ghost use Rattle.agc_listing.specs.Location.{location_in};
ghost use Rattle.agc_trace.specs.Operand.{word_at};
ghost use Rattle.agc_trace.specs.OperandLaws.{IsBare, IsInRope};
ghost use Rattle.agc_trace.specs.OperandLine.{watched_line};
ghost use Rattle.agc_trace.specs.Trace.{trace_of};
ghost use Rattle.agc_trace.specs.TraceLaws.{EndsWithStop, NeverGoBack};
ghost use Rattle.agc_trace.specs.Watch.{Watched, watch_of};
ghost use Rattle.agc_trace.specs.declared.line_form.LineForm.{LineForm};

/// Entry n of a trace, counted from 0, is the boundary that comes after n others.
pub fn an_entry_reports_its_boundary()
    ensures { (n : ℕ) (s : State) → n < length (trace_of s)
        → slice_get (trace_of s) n ≡ Some (entry_of (after n s)) }
{}

/// A trace ends with the stop of the run: its last entry has the reason, the cycle, and the
/// registers that the run leaves. No entry before it is a stop.
pub fn a_trace_ends_with_the_stop()
    ensures { (s : State) → EndsWithStop (run_of s).last (trace_of s) }
{}

/// No entry of a trace is earlier than the one before it, nor than the state's own cycle.
pub fn a_trace_never_goes_back()
    ensures { (s : State) → NeverGoBack s.cycle (trace_of s) }
{}

/// The entries of a watch are those of the trace, each once and in order, whatever cells are watched.
pub fn a_watch_reports_the_trace()
    ensures { (cells : List ℕ) (s : State) → map (λ watched. watched.entry) (watch_of cells s) ≡ trace_of s }
{}

/// Without names, and if a form does not print what operands held, the line of a boundary is that of `push_line` with
/// the changed cells at its end.
pub fn a_form_without_names_changes_no_line()
    ensures { (form : LineForm) (watched : Watched) → IsBare form
        → watched_line form watched ≡ entry_text watched.entry ++ changes_text watched.changes ++ codes "\n" }
{}

/// The place of an operand is the one that its address reads: what the operand held is the word that the order finds at
/// its address. Banks above 43 octal are left out.
pub fn an_address_reads_its_place()
    ensures { (m : Memory) (address : ℕ) → IsInRope (location_in m address)
        → word_at m (location_in m address) ≡ read_of m address }
{}
