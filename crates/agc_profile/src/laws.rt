//! Laws of every profile, each the contract of a function that does nothing.
ghost use Rattle.std.specs.Prelude.{◌≡◌, ◌+◌, ◌-◌, ◌<◌, ℕ, List, filter, length, map};
ghost use Rattle.agc_store.specs.Places.{erasable_cells, fixed_places};
ghost use Rattle.agc_processor.specs.Interrupt.{rupt_number};
ghost use Rattle.agc_processor.specs.declared.interrupt.Rupt.{Rupt};
ghost use Rattle.agc_machine.specs.Run.{run_of};
ghost use Rattle.agc_machine.specs.State.{IsAtStart, State};
ghost use Rattle.agc_listing.specs.declared.location.Location.TheVariants as location;
ghost use Rattle.agc_profile.specs.Profile.{count_of};
ghost use Rattle.agc_profile.specs.Laws.{
  OrdersAddUp,
  TellFlags,
  counted_cycles,
  ran_at,
  read_at,
  read_before,
  serves,
  takes,
  tally_of,
  tally_of_both,
};
ghost use Rattle.agc_profile.specs.Context.{at_start};
ghost use Rattle.agc_profile.specs.Step.{passages};
ghost use Rattle.agc_profile.specs.Tally.{tally_at};
ghost use Rattle.agc_profile.specs.Readers.{Reported, all_reported};
ghost use Rattle.agc_profile.specs.Routine.{IsRoutineOf, RoutinesAddUp, routine_of};
ghost use Rattle.agc_symbols.specs.Symbols.{Symbol};
ghost use Rattle.agc_trace.specs.Trace.{trace_of};
ghost use Rattle.agc_profile.specs.declared.routine.MemoryKind.{MemoryKind};
ghost use Rattle.agc_profile.specs.declared.step.Step.{Step};

use agc_processor::laws::orders::three_orders_change_the_flags;

/// The tally of a place is the number and the cycles of the boundaries that ran the order at this place.
pub fn a_place_has_its_boundaries()
    ensures fixed { (place : ℕ) (ps : List Step) → place < fixed_places
        → tally_at place (count_of ps).fixed ≡ tally_of (filter (ran_at (location.Fixed place)) ps) }
    ensures erasable { (cell : ℕ) (ps : List Step) → cell < erasable_cells
        → tally_at cell (count_of ps).erasable ≡ tally_of (filter (ran_at (location.Erasable cell)) ps) }
{}

/// The data tally of a place covers the boundaries whose order reads it by its address, plus those whose double-word
/// order reads it as the word before its address.
pub fn a_place_has_its_readers()
    ensures fixed { (place : ℕ) (ps : List Step) → place < fixed_places
        → tally_at place (count_of ps).fixed_data
        ≡ tally_of_both (read_at (location.Fixed place)) (read_before (location.Fixed place)) ps }
    ensures erasable { (cell : ℕ) (ps : List Step) → cell < erasable_cells
        → tally_at cell (count_of ps).erasable_data
        ≡ tally_of_both (read_at (location.Erasable cell)) (read_before (location.Erasable cell)) ps }
{}

/// Each interrupt's tally has the number of boundaries that took it, and the cycles of all boundaries of its services,
/// including the entries.
pub fn an_interrupt_has_its_services()
    ensures taken { (r : Rupt) (ps : List Step)
        → (tally_at (rupt_number r - 1) (count_of ps).interrupts).times ≡ length (filter (takes r) ps) }
    ensures cycles { (r : Rupt) (ps : List Step)
        → (tally_at (rupt_number r - 1) (count_of ps).interrupts).cycles
        ≡ (tally_of (filter (serves r) ps)).cycles }
{}

/// The boundaries that are counted are those of the trace, entry by entry.
pub fn the_boundaries_are_the_trace()
    ensures { (s : State) → map (λ (reported : Reported). reported.entry) (all_reported s) ≡ trace_of s }
{}

/// Each boundary of a run begins in a context that says what the flags of the processor do: whether INHINT is in force,
/// and whether an interrupt is being served.
pub fn a_context_reports_the_flags()
    ensures { (s : State) → IsAtStart s → TellFlags s (passages at_start (all_reported s)) }
{
    three_orders_change_the_flags();
}

/// The cycles of a whole run, by kinds, add up to its length.
pub fn the_cycles_add_up()
    ensures { (s : State) → counted_cycles (count_of (passages at_start (all_reported s))) + s.cycle
        ≡ (run_of s).last.cycle }
{}

/// A routine is from one name to the next in the same bank: that of a place begins at or below it in its bank, at a name
/// or with the bank, and no place from there up to it has a name.
pub fn a_routine_is_from_name_to_name()
    ensures { (names : List Symbol) (memory : MemoryKind) (place : ℕ)
        → IsRoutineOf names memory place (routine_of names memory place) }
{}

/// If the orders of a profile add up, as those of each run do, so do its routines: to all orders and, with timers, events
/// and interrupts, to the cycles that `the_cycles_add_up` is about.
pub fn the_routines_add_up()
    ensures { (names : List Symbol) (ps : List Step) → OrdersAddUp (count_of ps)
        → RoutinesAddUp names (count_of ps) }
{}
