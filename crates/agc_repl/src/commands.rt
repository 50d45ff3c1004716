//! Executes the commands that move the machine.
ghost use Rattle.std.specs.Prelude.{◌≡◌, ◌≢◌, ◌⊎◌, ◌++◌, true, false, ◌+◌, ◌-◌, ◌^◌, [], ◌∷◌, ◌<◌, min, IsErrOf, IfErr, IfOk, IfSome, OnOk, OnErr, is_some, length, map, string_bytes};
ghost use Rattle.std.specs.Io.KnownBytes.{Appends, Keeps, append_known};
ghost use Rattle.agc_machine.specs.Boundary.{boundary, upcoming_of};
ghost use Rattle.agc_machine.specs.Laws.{HasChannel};
ghost use Rattle.agc_machine.specs.Replay.{writes_in};
ghost use Rattle.agc_session.specs.Session.{injected_now};
ghost use Rattle.agc_trace.specs.Entry.{FitsLine, entry_of};
ghost use Rattle.agc_session.specs.Condition.{armed_in};
ghost use Rattle.agc_repl.specs.Changes.{boundary_text, change_text, step_text};
ghost use Rattle.agc_command.specs.Command.{IsBreakpointInRange, IsJobCell};
ghost use Rattle.agc_repl.specs.Answered.{Begins, Grows, Outputs, limited_run, refusal_text, shown_continue, shown_run, shown_until};
ghost use Rattle.agc_repl.specs.Settings.{AreInRange};
ghost use Rattle.agc_repl.specs.Repl.{GoesOn, RunsOn, after_boundaries, after_due, after_run, all_armed, armed_anew, gone_on, run_of, takes_event};
ghost use Rattle.agc_repl.specs.Run.{AreSound, armed_by, is_short_of, writes_text};
ghost use Rattle.agc_script.specs.Event.{IsWhatInRange, most_events};
ghost use Rattle.agc_store.specs.Places.{erasable_cells};

use crate::answer::{
    CellStyle, push_cell_line, push_hit_line, push_run_line, push_stop_line, word_of,
};
use crate::conversation::ReplFault;
use crate::output::write_part;
use crate::repl::Repl;
use crate::settings::Numbered;
use agc_command::{Limits, Steps};
use agc_machine::{Machine, Stepped, Upcoming};
use agc_script::{MOST_EVENTS, What};
use agc_session::{Advanced, Armed, Condition, InjectFault};
use agc_symbols::SymbolTable;
use agc_trace::{Entry, push_line_with, registers_in};
use std::alloc::{AllocError, Global};
use std::io::Write;

/// Runs for `cycles` cycles or to the stop, and prints each channel write.
pub(crate) fn go<W: Write>(
    repl: &mut Repl,
    cycles: u64,
    text: &mut String,
    output: &mut W,
) -> Result<(), ReplFault>
    ensures reported { OnOk result (Outputs (shown_run (run_of []
        (min (repl.old.session.now.cycle + cycles) (2 ^ 64 - 1)) repl.old) repl.old) repl.new
        (append_known (W.contents output.old) (string_bytes text.old))
        (append_known (W.contents output.new) (string_bytes text.new))) }
    ensures on { RunsOn repl.old repl.new }
    ensures begins { IsErrOf result ReplFault.Memory → Begins (string_bytes text.old
        ++ (shown_run (run_of [] (min (repl.old.session.now.cycle + cycles) (2 ^ 64 - 1)) repl.old) repl.old).1)
        (W.contents output.old) (W.contents output.new) }
    ensures grows { (IsErrOf result ReplFault.Write → ⊥) → Grows (W.contents output.old) (W.contents output.new) }
{
    let cycle = repl.cycle().saturating_add(cycles);
    go_on_to(repl, cycle, text, output)
}

/// Runs to `cycle` or to the stop, and prints each channel write.
pub(crate) fn go_on_to<W: Write>(
    repl: &mut Repl,
    cycle: u64,
    text: &mut String,
    output: &mut W,
) -> Result<(), ReplFault>
    ensures reported { OnOk result (Outputs (shown_run (run_of [] cycle repl.old) repl.old) repl.new
        (append_known (W.contents output.old) (string_bytes text.old))
        (append_known (W.contents output.new) (string_bytes text.new))) }
    ensures on { RunsOn repl.old repl.new }
    ensures begins { IsErrOf result ReplFault.Memory → Begins (string_bytes text.old
        ++ (shown_run (run_of [] cycle repl.old) repl.old).1)
        (W.contents output.old) (W.contents output.new) }
    ensures grows { (IsErrOf result ReplFault.Write → ⊥) → Grows (W.contents output.old) (W.contents output.new) }
{
    let quiet = repl.settings.quiet();
    run_to(repl, &[], cycle, quiet, text, output)?;
    Ok(())
}

/// Runs to `cycle`, to the stop or until one of `armed` is hit, and prints each channel write. Returns the one that was
/// hit.
fn run_to<W: Write>(
    repl: &mut Repl,
    armed: &[Armed],
    cycle: u64,
    quiet: bool,
    text: &mut String,
    output: &mut W,
) -> Result<Option<Armed>, ReplFault>
    requires { AreSound armed.now }
    ensures gone { OnOk result (repl.new ≡ after_run (run_of armed.now cycle repl.old) repl.old) }
    ensures hit { IfOk result (λ hit. hit ≡ (run_of armed.now cycle repl.old).hit) }
    ensures over { IfOk result (λ hit. is_some hit ≡ false → is_short_of cycle repl.new.session.now ≡ false) }
    ensures range { IfOk result (λ hit. IfSome hit (λ a. IsBreakpointInRange a.condition)) }
    ensures reported { OnOk result (Appends (append_known (W.contents output.old) (string_bytes text.old))
        (append_known (W.contents output.new) (string_bytes text.new))
        (writes_text quiet (run_of armed.now cycle repl.old).writes)) }
    ensures on { RunsOn repl.old repl.new }
    ensures begins { IsErrOf result ReplFault.Memory → Begins (string_bytes text.old
        ++ writes_text quiet (run_of armed.now cycle repl.old).writes) (W.contents output.old) (W.contents output.new) }
    ensures grows { (IsErrOf result ReplFault.Write → ⊥) → Grows (W.contents output.old) (W.contents output.new) }
{
    while repl.is_before(cycle) {
        let next = repl.advance(armed, cycle);
        print_write(&next.stepped, quiet, text, output)?;
        if has_hit(&next) {
            return Ok(next.hit);
        }
    }
    Ok(None)
}

/// Returns whether a run has hit a condition.
fn has_hit(next: &Advanced) -> bool
    ensures { result ≡ is_some next.now.hit }
{
    next.hit.is_some()
}

/// Prints the line of a channel write, if there was one and runs are not quiet.
fn print_write<W: Write>(
    stepped: &Stepped,
    quiet: bool,
    text: &mut String,
    output: &mut W,
) -> Result<(), ReplFault>
    requires { HasChannel stepped.now }
    ensures reported { OnOk result (Appends (append_known (W.contents output.old) (string_bytes text.old))
        (append_known (W.contents output.new) (string_bytes text.new)) (writes_text quiet (writes_in (stepped.now ∷ [])))) }
    ensures kept { IsErrOf result ReplFault.Memory → Keeps (W.contents output.old) (W.contents output.new) }
    ensures grows { (IsErrOf result ReplFault.Write → ⊥) → Grows (W.contents output.old) (W.contents output.new) }
{
    let Stepped::Wrote(write) = stepped else {
        return Ok(());
    };
    push_run_line(text, quiet, write)?;
    write_part(text, output)
}

/// Takes some boundaries, but none after the stop, and prints each one's trace line, with the symbols in `names`. With a
/// cell, prints only those of boundaries that change it, and the cell after each.
pub(crate) fn step<W: Write>(
    repl: &mut Repl,
    names: &Option<SymbolTable>,
    steps: Steps,
    text: &mut String,
    output: &mut W,
) -> Result<(), ReplFault>
    requires { IsJobCell steps.cell }
    ensures gone { OnOk result (repl.new ≡ after_boundaries steps.boundaries repl.old) }
    ensures lines { OnOk result (Appends (append_known (W.contents output.old) (string_bytes text.old))
        (append_known (W.contents output.new) (string_bytes text.new))
        (step_text names.now steps.cell steps.boundaries repl.old.session.now)) }
    ensures on { RunsOn repl.old repl.new }
    ensures begins { IsErrOf result ReplFault.Memory → Begins (string_bytes text.old
        ++ step_text names.now steps.cell steps.boundaries repl.old.session.now) (W.contents output.old) (W.contents output.new) }
    ensures grows { (IsErrOf result ReplFault.Write → ⊥) → Grows (W.contents output.old) (W.contents output.new) }
{
    for _boundary in 0..steps.boundaries {
        let entry = push_step(repl, names, steps.cell, text)?;
        write_part(text, output)?;
        if entry.is_stop() {
            return Ok(());
        }
    }
    Ok(())
}

/// Takes one boundary and adds its trace line; with a cell, only if it changes the cell, and then the cell. Returns its
/// trace entry.
fn push_step(
    repl: &mut Repl,
    names: &Option<SymbolTable>,
    cell: Option<u16>,
    text: &mut String,
) -> Result<Entry, AllocError>
    requires { IsJobCell cell }
    ensures entry { IfOk result (λ entry. entry ≡ entry_of repl.old.session.now) }
    ensures lines { OnOk result (string_bytes text.new
        ≡ string_bytes text.old ++ boundary_text names.now cell repl.old.session.now) }
    ensures now { repl.new.session.now ≡ (boundary None repl.old.session.now).0 }
    ensures shown { repl.new ≡ gone_on repl.new.session.now
        (writes_in ((boundary None repl.old.session.now).1 ∷ [])) repl.old }
    ensures on { RunsOn repl.old repl.new }
{
    match cell {
        None => {
            let entry = next_entry(repl);
            push_line_with(text, names, &entry)?;
            Ok(entry)
        }
        Some(cell) => push_change(repl, names, cell, text),
    }
}

/// Takes one boundary and, if it changes a cell, adds its trace line and the cell. Returns its trace entry.
fn push_change(
    repl: &mut Repl,
    names: &Option<SymbolTable>,
    cell: u16,
    text: &mut String,
) -> Result<Entry, AllocError>
    requires { cell < erasable_cells }
    ensures entry { IfOk result (λ entry. entry ≡ entry_of repl.old.session.now) }
    ensures lines { OnOk result (string_bytes text.new
        ≡ string_bytes text.old ++ change_text names.now cell repl.old.session.now) }
    ensures now { repl.new.session.now ≡ (boundary None repl.old.session.now).0 }
    ensures shown { repl.new ≡ gone_on repl.new.session.now
        (writes_in ((boundary None repl.old.session.now).1 ∷ [])) repl.old }
    ensures on { RunsOn repl.old repl.new }
{
    let before = word_of(repl.machine().store(), cell);
    let entry = next_entry(repl);
    let store = repl.machine().store();
    if word_of(store, cell) != before {
        push_line_with(text, names, &entry)?;
        push_cell_line(text, store, CellStyle::Octal, cell)?;
    }
    Ok(entry)
}

/// Takes one boundary and returns its trace entry.
#[tactic(auto, unfolding(agc_trace::specs::Entry::entry_of))]
fn next_entry(repl: &mut Repl) -> Entry
    ensures entry { result ≡ entry_of repl.old.session.now }
    ensures now { repl.new.session.now ≡ (boundary None repl.old.session.now).0 }
    ensures shown { repl.new ≡ gone_on repl.new.session.now
        (writes_in ((boundary None repl.old.session.now).1 ∷ [])) repl.old }
    ensures on { RunsOn repl.old repl.new }
    ensures fits { FitsLine result }
{
    let cycle = repl.cycle();
    let happening = repl.machine().upcoming();
    let write = match repl.step() {
        Stepped::Wrote(write) => Some(write),
        Stepped::Quiet | Stepped::Stopped(_) => None,
    };
    Entry {
        cycle,
        happening,
        write,
        registers: registers_in(repl.machine().store()),
    }
}

/// Runs until a condition is hit, to the limits or to the stop. Prints each channel write, and whether it was hit.
pub(crate) fn until<W: Write>(
    alloc: Global,
    repl: &mut Repl,
    what: Condition,
    limits: Limits,
    text: &mut String,
    output: &mut W,
) -> Result<(), ReplFault>
    requires { IsBreakpointInRange what }
    ensures reported { OnOk result (Outputs (shown_until (limited_run limits (armed_in repl.old.session.now 0 what ∷ []) repl.old)
        repl.old) repl.new
        (append_known (W.contents output.old) (string_bytes text.old))
        (append_known (W.contents output.new) (string_bytes text.new))) }
    ensures on { RunsOn repl.old repl.new }
    ensures begins { IsErrOf result ReplFault.Memory → Begins (string_bytes text.old
        ++ (shown_until (limited_run limits (armed_in repl.old.session.now 0 what ∷ []) repl.old) repl.old).1)
        (W.contents output.old) (W.contents output.new) }
    ensures grows { (IsErrOf result ReplFault.Write → ⊥) → Grows (W.contents output.old) (W.contents output.new) }
{
    let armed = arm_each(alloc, repl.machine(), &[Numbered { number: 0, what }])?;
    let hit = run_limited(alloc, repl, armed, limits, text, output)?;
    push_hit_line(text, hit.is_some())?;
    Ok(())
}

/// Runs to the first numbered breakpoint that is hit, to the limits or to the stop. Prints each channel write, and which
/// breakpoint was hit.
pub(crate) fn go_on_until<W: Write>(
    alloc: Global,
    repl: &mut Repl,
    limits: Limits,
    text: &mut String,
    output: &mut W,
) -> Result<(), ReplFault>
    ensures reported { OnOk result (Outputs (shown_continue (limited_run limits (all_armed repl.old) repl.old) repl.old) repl.new
        (append_known (W.contents output.old) (string_bytes text.old))
        (append_known (W.contents output.new) (string_bytes text.new))) }
    ensures on { RunsOn repl.old repl.new }
    ensures begins { IsErrOf result ReplFault.Memory → Begins (string_bytes text.old
        ++ (shown_continue (limited_run limits (all_armed repl.old) repl.old) repl.old).1)
        (W.contents output.old) (W.contents output.new) }
    ensures grows { (IsErrOf result ReplFault.Write → ⊥) → Grows (W.contents output.old) (W.contents output.new) }
{
    let armed = arm_each(alloc, repl.machine(), repl.settings.breakpoints())?;
    let hit = run_limited(alloc, repl, armed, limits, text, output)?;
    push_stop_line(text, hit)?;
    Ok(())
}

/// Runs until one of `armed` is hit, to the limits or to the stop, and prints each channel write. Returns the one that
/// was hit.
fn run_limited<W: Write>(
    alloc: Global,
    repl: &mut Repl,
    armed: Vec<Armed>,
    limits: Limits,
    text: &mut String,
    output: &mut W,
) -> Result<Option<Armed>, ReplFault>
    requires { AreSound armed.items }
    ensures gone { OnOk result (repl.new ≡ after_run (limited_run limits armed.items repl.old) repl.old) }
    ensures hit { IfOk result (λ hit. hit ≡ (limited_run limits armed.items repl.old).hit) }
    ensures range { IfOk result (λ hit. IfSome hit (λ a. IsBreakpointInRange a.condition)) }
    ensures reported { OnOk result (Appends (append_known (W.contents output.old) (string_bytes text.old))
        (append_known (W.contents output.new) (string_bytes text.new))
        (writes_text repl.old.settings.quiet (limited_run limits armed.items repl.old).writes)) }
    ensures on { RunsOn repl.old repl.new }
    ensures begins { IsErrOf result ReplFault.Memory → Begins (string_bytes text.old
        ++ writes_text repl.old.settings.quiet (limited_run limits armed.items repl.old).writes)
        (W.contents output.old) (W.contents output.new) }
    ensures grows { (IsErrOf result ReplFault.Write → ⊥) → Grows (W.contents output.old) (W.contents output.new) }
{
    let cycle = repl.cycle().saturating_add(limits.within);
    let quiet = repl.settings.quiet();
    let mut armed = armed;
    for _passed in 0..limits.ignore {
        let hit = run_to(repl, armed.as_slice(), cycle, quiet, text, output)?;
        if hit.is_none() {
            return Ok(None);
        }
        armed = arm_anew(alloc, repl.machine(), armed.as_slice())?;
    }
    run_to(repl, armed.as_slice(), cycle, quiet, text, output)
}

/// Returns conditions armed anew.
fn arm_anew(alloc: Global, machine: &Machine, armed: &[Armed]) -> Result<Vec<Armed>, AllocError>
    requires { AreSound armed.now }
    ensures anew { IfOk result (λ anew. anew.items ≡ armed_anew machine.now armed.now) }
    ensures range { IfOk result (λ anew. AreSound anew.items) }
{
    let mut anew = Vec::new(alloc);
    for one in armed {
        let condition = Numbered {
            number: one.number,
            what: one.condition,
        };
        let again: Armed = arm(machine, &condition);
        anew.push(again)?;
    }
    Ok(anew)
}

/// Returns breakpoints, armed now.
fn arm_each(
    alloc: Global,
    machine: &Machine,
    breakpoints: &[Numbered],
) -> Result<Vec<Armed>, AllocError>
    requires { AreInRange breakpoints.now }
    ensures armed { IfOk result (λ armed. armed.items ≡ map (armed_by machine.now) breakpoints.now) }
    ensures range { IfOk result (λ armed. AreSound armed.items) }
{
    let mut armed = Vec::new(alloc);
    for breakpoint in breakpoints {
        let one: Armed = arm(machine, breakpoint);
        armed.push(one)?;
    }
    Ok(armed)
}

/// Returns a breakpoint, armed now.
fn arm(machine: &Machine, breakpoint: &Numbered) -> Armed
    requires { IsBreakpointInRange breakpoint.now.what }
    ensures { result ≡ armed_by machine.now breakpoint.now }
{
    Armed::new(machine, breakpoint.number, breakpoint.what)
}

/// Injects an event, after the script's events that are due. If memory runs out, it is not injected.
pub(crate) fn inject(repl: &mut Repl, what: What) -> Result<(), InjectFault>
    requires { IsWhatInRange what }
    ensures injected { OnOk result (repl.new ≡ record repl.old { session = injected_now what (after_due repl.old.session) }) }
    ensures taken { OnOk result (takes_event (after_due repl.old.session).now ≡ true) }
    ensures room { OnOk result (length repl.old.session.script + length repl.old.session.injected ≢ most_events) }
    ensures unwanted { IsErrOf result InjectFault.Unwanted
        → (repl.new ≡ record repl.old { session = after_due repl.old.session })
        × (takes_event (after_due repl.old.session).now ≡ false)
        × (length repl.old.session.script + length repl.old.session.injected ≢ most_events) }
    ensures many { IsErrOf result InjectFault.TooMany → (repl.new ≡ repl.old)
        × (length repl.old.session.script + length repl.old.session.injected ≡ most_events) }
    ensures memory { IsErrOf result InjectFault.Memory
        → (repl.new ≡ repl.old) ⊎ (repl.new ≡ record repl.old { session = after_due repl.old.session }) }
{
    repl.session.make_room()?;
    take_due_events(repl);
    repl.session.inject(what)
}

/// Lets the script's events that are due happen.
fn take_due_events(repl: &mut Repl)
    ensures taken { repl.new ≡ record repl.old { session = after_due repl.old.session } }
    ensures on { GoesOn repl.old.session repl.new.session }
{
    for _event in 0..MOST_EVENTS + 1 {
        match repl.machine().upcoming() {
            Upcoming::Event(_) => {
                repl.step();
            }
            _ => return,
        }
    }
}

/// Returns why an event was not injected, in the words of the answer.
#[tactic(auto, unfolding(crate::specs::Answered::refusal_text))]
pub(crate) fn refusal(fault: InjectFault) -> &'static str
    ensures { result.now ≡ refusal_text fault }
{
    match fault {
        InjectFault::Unwanted => "Stopped: the machine takes no event any more",
        InjectFault::TooMany => "TooMany: a script has at most 65536 events",
        InjectFault::Memory => "memory",
    }
}
