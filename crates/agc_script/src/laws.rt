//! Laws of scripts, each the contract of a function that does nothing. The calls are proved equal
//! to the definitions that these laws are about.
ghost use Rattle.std.specs.Prelude.{◌≡◌, ℕ, ◌+◌, ◌*◌, ◌≤◌, ◌<◌, nat_le, List, [], ◌∷◌, Some, None, Ok};
ghost use Rattle.std.specs.Prelude.{IfOk, IfSome, length, slice_get, if◌then◌else◌};
ghost use Rattle.agc_script.specs.declared.event.Event.{Event};
ghost use Rattle.agc_script.specs.declared.event.What.{What};
ghost use Rattle.agc_script.specs.declared.grammar.Command.{Command};
ghost use Rattle.agc_script.specs.Fault.{numbers_after};
ghost use Rattle.agc_script.specs.Grammar.{argument_count, ranges_of};
ghost use Rattle.agc_script.specs.Laws.{first_number, with_ranges};
ghost use Rattle.agc_script.specs.Line.{repeat_of};
ghost use Rattle.agc_script.specs.Parse.{events_of};
ghost use Rattle.agc_script.specs.Injection.{parsed_at};
ghost use Rattle.agc_script.specs.Merge.{joined, IsMerge};
ghost use Rattle.agc_script.specs.Command.{command_of};
ghost use Rattle.agc_script.specs.Event.{IsWhatInRange};
ghost use Rattle.agc_script.specs.Parse.{script_of};
ghost use Rattle.agc_script.specs.Script.{IsScript};
ghost use Rattle.agc_word.specs.Text.{words_of};
ghost use Rattle.agc_script.specs.Written.{script_text, what_text};

/// A line `every N FROM TO` issues its command at FROM, FROM + N, FROM + 2N and so on, each time in
/// its place, up to TO and no further.
pub fn every_goes_as_far_as_to()
    ensures { (n from to i : ℕ) (what : What) → IfOk (repeat_of n from to what)
        (λ repeat. slice_get (events_of repeat) i
        ≡ (if nat_le (from + i * n) to then Some (parsed_at what (from + i * n)) else None)) }
{}

/// A merge compares a script's first event with the first injected one (an event of another script, or a live key). It
/// begins with the script's event if that is due at the cycle of the injected one, otherwise with the injected one, and
/// continues with what is left. When one list is at its end, the merge continues with the other.
pub fn merges_begin_with_what_is_due()
    ensures event { (event : Event) (events : List Event) (one : Event) (given : List Event)
        → event.cycle ≤ one.cycle
        → joined (event ∷ events) (one ∷ given) ≡ event ∷ joined events (one ∷ given) }
    ensures given { (event : Event) (events : List Event) (one : Event) (given : List Event)
        → one.cycle < event.cycle
        → joined (event ∷ events) (one ∷ given) ≡ one ∷ joined (event ∷ events) given }
    ensures given_left { (one : Event) (given : List Event)
        → joined [] (one ∷ given) ≡ one ∷ joined [] given }
    ensures events_left { (events : List Event) → joined events [] ≡ events }
{}

/// There is only one merge: any list that has both lists in it, each in its order, and nothing else, with each injected
/// event in its place, is the merge that [`Script::join`](crate::Script::join) returns, and for a tape's keys
/// [`Script::merge`](crate::Script::merge).
pub fn there_is_one_merge()
    ensures { (events given all : List Event)
        → IsMerge events given all → all ≡ joined events given }
{}

/// A command that is written as text reads back as the same event.
pub fn commands_read_back()
    ensures { (what : What) → IsWhatInRange what → command_of (words_of (what_text what)) ≡ Ok what }
{}

/// Every list of events that can be a script reads back from its text.
pub fn scripts_read_back()
    ensures { (events : List Event) → IsScript events → script_of (script_text events) ≡ Ok events }
{}

/// The numbers that the parser reads and checks are exactly those words of a command that have a range, each by its
/// range, and an accepted command has as many words as its table entry. So an explanation of a fault from
/// [`Command::ranges`](crate::Command::ranges) uses the parser's own ranges.
#[tactic(auto, using(crate::proofs::Ranges::as_many, crate::proofs::Ranges::in_ranges))]
pub fn numbers_have_these_ranges()
    ensures count { (command : Command) (words : List (List ℕ))
        → IfSome (numbers_after words command) (λ _. length words ≡ argument_count command) }
    ensures ranges { (command : Command) (words : List (List ℕ))
        → IfSome (numbers_after words command)
        (λ numbers. numbers ≡ with_ranges words (ranges_of command (first_number words))) }
{}
