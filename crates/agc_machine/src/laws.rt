//! Laws of every run, each the contract of a function that does nothing. The machine's own calls
//! are proved equal to the definitions that these laws are about.
ghost use Rattle.std.specs.Prelude.{◌≡◌, ℕ, ◌+◌, ◌*◌, ◌<◌, ◌≤◌, ◌^◌, ◌++◌, List, length, replicate, Option, Some, None, IsSome};
ghost use Rattle.agc_script.specs.declared.event.Event.{Event};
ghost use Rattle.agc_script.specs.declared.event.What.{What};
ghost use Rattle.agc_store.specs.Registers.{HoldsRegisters};
ghost use Rattle.agc_processor.specs.Basic.{resume_of};
ghost use Rattle.agc_processor.specs.Interrupt.{interrupted};
ghost use Rattle.agc_processor.specs.Processor.{◌▷◌};
ghost use Rattle.agc_processor.specs.declared.interrupt.Rupt.{Rupt};
ghost use Rattle.agc_processor.specs.declared.processor.Processor.{Processor};
ghost use Rattle.agc_machine.specs.State.{IsAtStart, State, fed};
ghost use Rattle.agc_machine.specs.Boundary.{boundary};
ghost use Rattle.agc_machine.specs.Idle.{IsTurn, later};
ghost use Rattle.agc_machine.specs.Run.{boundaries_left, next_before, next_of, run_of, while_writing};
ghost use Rattle.agc_machine.specs.Laws.{Falls, Comes, AreRising, ComesBack, IsSameRun, LeavesEvents, after};
ghost use Rattle.agc_machine.specs.Replay.{chain, tape_of, AreWanted, with_tape, run_in};
ghost use Rattle.agc_machine.specs.Taken.{TakesLive, met_between};
ghost use Rattle.agc_machine.specs.declared.answer.Stop.{Stop};
ghost use Rattle.agc_machine.specs.declared.answer.Next.TheVariants as next;
ghost use Rattle.agc_machine.specs.declared.answer.Stepped.TheVariants as stepped;

/// A boundary never goes back in time. Unless it stops, fewer boundaries are left after it; a write
/// shows its cycle and a channel from 5 to 777 octal.
pub fn boundaries_fall()
    ensures { (s : State) → Falls s (boundary None s) }
{}

/// A rerun is exact: two machines at their starts, with the same fixed words, events, limit and
/// stop address, make the same run.
pub fn reruns_are_exact()
    ensures { (s t : State) → IsAtStart s → IsAtStart t → IsSameRun s t → s.events ≡ t.events → run_of s ≡ run_of t }
{}

/// No boundary, with or without a live event, changes the fixed words, the limit or the stop
/// address.
pub fn the_rope_stays()
    ensures { (live : Option What) (s : State) → IsSameRun s (boundary live s).0 }
{}

/// An interrupt that ends with RESUME comes back to the same Z and the same order in hand, with no
/// interrupt being served. Every store holds its registers, and the order in hand is narrow.
pub fn interrupts_come_back()
    ensures { (r : Rupt) (p : Processor) → HoldsRegisters p.store.erasable → p.hand.magnitude < 2 ^ 14
        → ComesBack p (p ▷ interrupted r ▷ resume_of) }
{}

/// A stopped machine does not change and returns the same stop, from boundaries and from `next_write`.
pub fn a_stop_is_final()
    ensures boundary { (s : State) (why : Stop) → s.stopped ≡ Some why → boundary None s ≡ (s, stepped.Stopped why) }
    ensures next { (s : State) (why : Stop) → s.stopped ≡ Some why → next_of s ≡ (s, next.Stopped why) }
{}

/// A live event, such as a key, is an event of the present cycle put before the events left: the
/// boundary that takes it is the plain one from there.
#[tactic(auto, unfolding(crate::specs::Boundary::boundary))]
pub fn live_keys_are_events()
    ensures { (what : What) (s : State) → boundary (Some what) s ≡ boundary None (fed (Some what) s) }
{}

/// A run takes its events in order from the first, and leaves the rest.
#[tactic(auto, using(crate::proofs::Taken::run_meets))]
pub fn runs_meet_the_first_events()
    ensures { (s : State) → s.events ≡ met_between s (run_of s).last ++ (run_of s).last.events }
{}

/// A run stops after at most as many boundaries as there were cycles and events left, plus one.
pub fn runs_stop()
    ensures { (n : ℕ) (s : State) → boundaries_left s ≤ n → IsSome (after n s).stopped }
{}

/// The next write is not before the present cycle, time has passed after it, its channel is 5 to
/// 777 octal, and fewer boundaries are left; a stop is kept in the state.
pub fn the_next_comes()
    ensures { (s : State) → Comes s (next_of s) }
{}

/// A run is its next write and the run from there, or its stop.
pub fn runs_go_by_writes()
    ensures { (s : State) → run_of s ≡ while_writing run_of (next_of s) }
{}

/// The cycles of a run's writes strictly increase, and its channels are 5 to 777 octal.
pub fn writes_rise()
    ensures { (s : State) → AreRising s.cycle (run_of s).writes }
{}

/// Live keys, and all live events, can be replayed: a chain of boundaries with live events that the machine wanted,
/// however far apart, is the plain chain from the state whose events are joined with the tape of those events.
pub fn live_keys_replay()
    ensures { (lives : List (Option What)) (s : State) → AreWanted lives s
        → chain (replicate (length lives) None) (with_tape (tape_of lives s) s) ≡ chain lives s }
{}

/// A plain chain that has come to a stop is the run: its writes and its last state are the run's.
pub fn chains_are_runs()
    ensures { (n : ℕ) (s : State) → IsSome (chain (replicate n None) s).last.stopped → run_of s ≡ run_in (chain (replicate n None) s) }
{}

/// A live run that has come to a stop is the run of the state whose events are joined with its tape.
pub fn live_runs_replay()
    ensures { (lives : List (Option What)) (s : State) → AreWanted lives s → IsSome (chain lives s).last.stopped
        → run_of (with_tape (tape_of lives s) s) ≡ run_in (chain lives s) }
{}

/// A run is its chain of boundaries: after as many as are left the chain has stopped, and the run's
/// writes and last state are the chain's.
pub fn a_run_is_its_chain()
    ensures chain { (s : State) → run_of s ≡ run_in (chain (replicate (boundaries_left s) None) s) }
    ensures stopped { (s : State) → IsSome (chain (replicate (boundaries_left s) None) s).last.stopped }
{}

/// The run on the events joined with the tape of a stopped live run takes each event of the tape,
/// in order, at a boundary that begins at the event's own cycle.
pub fn tapes_are_taken()
    ensures { (lives : List (Option What)) (s : State) → AreWanted lives s → IsSome (chain lives s).last.stopped
        → TakesLive s (tape_of lives s) (with_tape (tape_of lives s) s) }
{}

/// Idle loops can be skipped: if a turn of still orders comes back to the same context, any number of turns that begin and
/// end before `end` lead to the same state, as many periods later, and the run from there is the same up to `end`.
pub fn idle_turns_repeat()
    ensures turns { (orders period end n : ℕ) (s : State) → IsTurn orders period end s → s.cycle + n * period < end
        → after (n * orders) s ≡ later (n * period) s }
    ensures next { (orders period end n : ℕ) (s : State) → IsTurn orders period end s → s.cycle + n * period < end
        → next_before end s ≡ next_before end (later (n * period) s) }
{}

/// Only the events that a chain takes count: from a state with other events in place of those left, all of which come
/// after the chain's last cycle, it is the same chain.
pub fn only_taken_events_count()
    ensures { (n : ℕ) (s : State) (taken rest other : List Event) → s.events ≡ taken ++ rest → LeavesEvents n rest other s
        → chain (replicate n None) (record s { events = taken ++ other })
        ≡ record { answers = (chain (replicate n None) s).answers; last = record (chain (replicate n None) s).last { events = other } } }
{}
