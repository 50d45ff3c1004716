//! Shows the coming boundaries by a copy of the machine, so that nothing changes in the session.
ghost use Rattle.std.specs.Prelude.{◌≡◌, ◌++◌, IsErrOf, IfSome, OnOk, flat_map, string_bytes};
ghost use Rattle.std.specs.Io.KnownBytes.{Appends, append_known};
ghost use Rattle.agc_trace.specs.NamedLine.{line_with};
ghost use Rattle.agc_trace.specs.Trace.{trace_within};
ghost use Rattle.agc_repl.specs.Answered.{Begins, Grows};

use crate::conversation::ReplFault;
use crate::output::write_part;
use crate::repl::Repl;
use agc_machine::Machine;
use agc_script::Script;
use agc_session::Session;
use agc_symbols::SymbolTable;
use agc_trace::{next_entry, push_line_with};
use std::alloc::Global;
use std::io::Write;

/// Prints the trace lines of the next `boundaries` boundaries, but none after the stop, with the symbols in `names`.
pub(crate) fn ahead<W: Write>(
    alloc: Global,
    repl: &Repl,
    names: &Option<SymbolTable>,
    boundaries: u64,
    text: &mut String,
    output: &mut W,
) -> Result<(), ReplFault>
    ensures lines { OnOk result (Appends (append_known (W.contents output.old) (string_bytes text.old))
        (append_known (W.contents output.new) (string_bytes text.new))
        (flat_map (line_with names.now) (trace_within boundaries repl.now.session.now))) }
    ensures begins { IsErrOf result ReplFault.Memory → Begins (string_bytes text.old
        ++ flat_map (line_with names.now) (trace_within boundaries repl.now.session.now)) (W.contents output.old) (W.contents output.new) }
    ensures grows { (IsErrOf result ReplFault.Write → ⊥) → Grows (W.contents output.old) (W.contents output.new) }
{
    match copy_machine(alloc, &repl.session) {
        Some(mut machine) => print_boundaries(&mut machine, names, boundaries, text, output),
        None => Err(ReplFault::Memory),
    }
}

/// Returns a copy of a session's machine, or `None` if memory runs out.
fn copy_machine(alloc: Global, session: &Session) -> Option<Machine>
    ensures { IfSome result (λ machine. machine ≡ session.now.now) }
{
    let script = session.script(alloc)?;
    let machine = session.machine();
    let taken = script.len() - machine.events_left().len();
    let copy = machine.copy_with(alloc, Script::empty(alloc))?;
    Some(copy.resume_with(script, taken))
}

/// Takes `boundaries` boundaries, but none after the stop, and prints each one's trace line, with the symbols in
/// `names`.
fn print_boundaries<W: Write>(
    machine: &mut Machine,
    names: &Option<SymbolTable>,
    boundaries: u64,
    text: &mut String,
    output: &mut W,
) -> Result<(), ReplFault>
    ensures lines { OnOk result (Appends (append_known (W.contents output.old) (string_bytes text.old))
        (append_known (W.contents output.new) (string_bytes text.new))
        (flat_map (line_with names.now) (trace_within boundaries machine.old))) }
    ensures begins { IsErrOf result ReplFault.Memory → Begins (string_bytes text.old
        ++ flat_map (line_with names.now) (trace_within boundaries machine.old)) (W.contents output.old) (W.contents output.new) }
    ensures grows { (IsErrOf result ReplFault.Write → ⊥) → Grows (W.contents output.old) (W.contents output.new) }
{
    for _boundary in 0..boundaries {
        let entry = next_entry(machine);
        push_line_with(text, names, &entry)?;
        write_part(text, output)?;
        if entry.is_stop() {
            return Ok(());
        }
    }
    Ok(())
}
