//! Laws of sessions, each the contract of a function that does nothing. `Session::script` is proved to return a
//! script that these laws are about.
ghost use Rattle.std.specs.Prelude.{◌≡◌, ◌⊎◌, ◌↔◌, ℕ, IsTrue, List, None, false, true};
ghost use Rattle.agc_machine.specs.Boundary.{boundary};
ghost use Rattle.agc_machine.specs.Laws.{IsSameRun};
ghost use Rattle.agc_machine.specs.State.{State};
ghost use Rattle.agc_machine.specs.declared.answer.Stepped.{Stepped};
ghost use Rattle.agc_panel.specs.declared.face.Face.{Face};
ghost use Rattle.agc_script.specs.declared.event.Event.{Event};
ghost use Rattle.agc_session.specs.Condition.{Meets, armed_in, is_hit, is_on_next};
ghost use Rattle.agc_session.specs.declared.condition.Condition.{Condition};
ghost use Rattle.agc_session.specs.Session.{ComesTo, IsInjectedAgain, IsReplay, SessionState, script_of};

/// Two sessions with the same rope, limit and script are on one run: one reaches the exact state of the other by
/// running with nothing injected, and after the same number of boundaries both have the same state and show the same
/// panel. So a session that rewinds and injects the discarded events again gets back to where it was.
pub fn one_script_is_one_run()
    ensures run { (script : List Event) (s t : SessionState) → IsReplay script s → IsReplay script t
        → IsSameRun s.now t.now → ComesTo s.now t.now ⊎ ComesTo t.now s.now }
    ensures state { (script : List Event) (s t : SessionState) (h : IsReplay script s)
        (k : IsReplay script t) → IsSameRun s.now t.now → h.boundaries ≡ k.boundaries → s.now ≡ t.now }
    ensures panel { (script : List Event) (s t : SessionState) (h : IsReplay script s)
        (k : IsReplay script t) → IsSameRun s.now t.now → h.boundaries ≡ k.boundaries → s.panel ≡ t.panel }
{}

/// Rewinding is exact: a session that rewinds to before a cycle and injects the discarded events again, each at its
/// cycle, has the same script as one that never rewound. After the same number of boundaries it also has the same
/// state and shows the same panel.
pub fn going_back_is_exact()
    ensures script { (cycle : ℕ) (s t : SessionState) → IsInjectedAgain cycle s t → script_of t ≡ script_of s }
    ensures state { (cycle : ℕ) (s t : SessionState) → IsInjectedAgain cycle s t → (h : IsReplay (script_of s) s)
        (k : IsReplay (script_of t) t) → h.boundaries ≡ k.boundaries → t.now ≡ s.now }
    ensures panel { (cycle : ℕ) (s t : SessionState) → IsInjectedAgain cycle s t → (h : IsReplay (script_of s) s)
        (k : IsReplay (script_of t) t) → h.boundaries ≡ k.boundaries → t.panel ≡ s.panel }
{}

/// A run forward and a search back hit at the same boundary, so one goes to the cycle to which the other goes back. A run
/// ends just before an order or the service of an interrupt, and the boundary that begins then is the hit of a search. For
/// every other condition it is the boundary that ended the run.
pub fn forward_and_back_hit_alike()
    ensures next { (number : ℕ) (what : Condition) (r s : State) (panel shown : Face) (answer : Stepped) → is_on_next what ≡ true
        → IsTrue (is_hit (armed_in r number what) panel s answer) ↔ Meets what shown s }
    ensures last { (number : ℕ) (what : Condition) (s : State) (panel : Face) → is_on_next what ≡ false
        → IsTrue (is_hit (armed_in s number what) panel (boundary None s).0 (boundary None s).1) ↔ Meets what panel s }
{}
