//! Reads commands line by line, and answers each one before it reads the next.
//!
//! Unless memory runs out, the output is the session's text: this is the contract of [`run_repl`]. The first part of a
//! long answer is written before the rest is known; if memory runs out then, the machine has already moved. An event
//! and `back` reserve what they need first, and their answers need no memory; a search back finds its cycle first. If
//! an event is rejected because the machine takes no more events, the script's events that were due have happened. No
//! clause states that an answer is written before the next line is read; only tests show it.
ghost use Rattle.std.specs.Prelude.{◌≡◌, ◌<◌, ◌≤◌, ◌⊎◌, ◌++◌, Some, Ok, Err, codes, IfErr, IfOk, IfSome, IsErrOf, MatchResult, OnErr, OnOk, string_bytes};
ghost use Rattle.std.specs.Io.KnownBytes.{Appends, Keeps, append_known};
ghost use Rattle.agc_repl.specs.Answer.{end_line, error_line};
ghost use Rattle.agc_repl.specs.Answered.{
  Begins,
  GoesBack,
  Sets,
  Grows,
  IsAnswered,
  IsHandled,
  IsInPlace,
  IsItself,
  IsLeft,
  IsPartOf,
  IsPlain,
  IsPlainRequest,
  Outputs,
  answer_to,
  answered,
  cycle_after,
  done,
  dropped_text,
  last_line,
  missed,
  refusal_text,
};
ghost use Rattle.agc_repl.specs.Transcript.{AreAnswered, IsSessionOf, RanOut, requests_in};
ghost use Rattle.agc_session.specs.Condition.{IsConditionInRange};
ghost use Rattle.agc_repl.specs.Queries.{shown_text};
ghost use Rattle.agc_repl.specs.Repl.{at_start};
ghost use Rattle.agc_script.specs.Event.{IsWhatInRange, last_cycle};
ghost use Rattle.agc_command.specs.Fault.{fault_text_with};
ghost use Rattle.agc_command.specs.Command.{IsBreakpointInRange, IsCommandInRange, IsJobCell};
ghost use Rattle.agc_repl.specs.Settings.{at_first, breakpoint_line, next_numbered, with_breakpoint};
ghost use Rattle.agc_repl.specs.declared.conversation.ReplFault.TheVariants.{Memory};

use crate::ahead::ahead;
use crate::answer::{push_breakpoint_line, push_end_line, push_refusal_line};
use crate::commands::{go, go_on_to, go_on_until, inject, refusal, step, until};
use crate::lines::{Request, next_request};
use crate::output::{write_bytes, write_end_line, write_error_line, write_text};
use crate::queries::push_shown;
use crate::repl::Repl;
use crate::saver::{Saver, request_saved};
use crate::settings::Numbered;
use agc_command::{BackCall, Command, CommandFault, FileName, Limits, Rewind, Search, StepCall};
use agc_script::What;
use agc_session::{Condition, InjectFault, LINE_ROOM, Session};
use agc_symbols::SymbolTable;
use std::alloc::{AllocError, Global};
use std::io::{self, BufReader, Read, Write};
use thiserror::Error;

/// Why a session ended before its input did.
#[derive(Clone, Copy, Debug, PartialEq, Eq, Error)]
pub enum ReplFault {
    #[error("the input could not be read")]
    Read,
    #[error("an answer could not be written")]
    Write,
    #[error("out of memory")]
    Memory,
}

impl From<AllocError> for ReplFault {
    ghost from_gives = { λ _ fault. fault ≡ Memory };

    fn from(_error: AllocError) -> ReplFault {
        ReplFault::Memory
    }
}

/// The answer if memory runs out.
const OUT_OF_MEMORY: &str = "error: memory\n";

/// The number of bytes reserved before a command is executed: enough for the longest last line of an answer.
const LONGEST_END: usize = 64;

/// Answers each line of the input, up to `quit` or the end of the input. With `names`, a symbol can be written for
/// its place, and lines that show an order get a column with the symbol of its place. `save` writes by `saver`; no
/// clause states what it writes.
pub fn run_repl<R: Read, W: Write, S: Saver>(
    alloc: Global,
    session: Session,
    names: &Option<SymbolTable>,
    input: &mut R,
    output: &mut W,
    saver: &mut S,
) -> Result<(), ReplFault>
    ensures session { OnOk result (IfSome (R.remaining input.old) (λ bytes. AreAnswered names.now (requests_in names.now bytes)
        (at_start at_first session) (W.contents output.old) (W.contents output.new))) }
    ensures text { OnOk result (IfSome (R.remaining input.old) (λ bytes.
        IsSessionOf names.now (requests_in names.now bytes) (at_start at_first session) (W.contents output.old) (W.contents output.new)
        ⊎ RanOut names.now (requests_in names.now bytes) (at_start at_first session) (W.contents output.old) (W.contents output.new))) }
{
    let Ok(mut reader) = BufReader::new(alloc, input) else {
        // An explicit drop of a session or a REPL is one step of the proof. Dropping the parts is expensive to prove.
        drop(session);
        return Err(ReplFault::Memory);
    };
    let repl = Repl::new(alloc, session);
    answer_each(alloc, names, repl, &mut reader, output, saver)
}

/// Answers the remaining requests, each before the next is read.
fn answer_each<R: Read, W: Write, S: Saver>(
    alloc: Global,
    names: &Option<SymbolTable>,
    mut repl: Repl,
    reader: &mut R,
    output: &mut W,
    saver: &mut S,
) -> Result<(), ReplFault>
    ensures { OnOk result (IfSome (R.remaining reader.old) (λ bytes. AreAnswered names.now (requests_in names.now bytes)
        repl (W.contents output.old) (W.contents output.new))) }
{
    for _line in 0..u64::MAX {
        match next_request(alloc, names, reader) {
            Ok(Some(request)) => {
                repl = reply(alloc, names, repl, request, output, saver)?;
            }
            Ok(None) => {
                drop(repl);
                return Ok(());
            }
            Err(fault) => {
                drop(repl);
                return Err(fault);
            }
        }
    }
    drop(repl);
    Err(ReplFault::Read)
}

/// Answers a request and flushes the output.
fn reply<W: Write, S: Saver>(
    alloc: Global,
    names: &Option<SymbolTable>,
    repl: Repl,
    request: Request,
    output: &mut W,
    saver: &mut S,
) -> Result<Repl, ReplFault>
    requires { IfOk request (λ parsed. IfSome parsed IsCommandInRange) }
    ensures { IfOk result (λ left. IsHandled names.now request repl left (W.contents output.old) (W.contents output.new)) }
{
    let left = answer(alloc, names, repl, request, output, saver)?;
    keep_if(flush(output), left)
}

/// Flushes the output.
fn flush<W: Write>(output: &mut W) -> Result<(), ReplFault>
    ensures { OnOk result (Keeps (W.contents output.old) (W.contents output.new)) }
{
    match output.flush() {
        Ok(()) => Ok(()),
        Err(_) => Err(ReplFault::Write),
    }
}

/// Answers a request: a search back by what it finds, a step by calls as a run or a search, `save` by whether it
/// succeeds. If memory runs out, the answer ends by reporting it.
#[tactic(auto, unfolding(agc_command::specs::Command::IsCommandInRange))]
fn answer<W: Write, S: Saver>(
    alloc: Global,
    names: &Option<SymbolTable>,
    repl: Repl,
    request: Request,
    output: &mut W,
    saver: &mut S,
) -> Result<Repl, ReplFault>
    requires { IfOk request (λ parsed. IfSome parsed IsCommandInRange) }
    ensures { IfOk result (λ left. IsHandled names.now request repl left (W.contents output.old) (W.contents output.new)) }
{
    match request {
        Ok(Some(Command::StepCall(step))) => answer_call(alloc, names, repl, step, output),
        Ok(Some(Command::BackCall(step))) => answer_back_call(alloc, names, repl, step, output),
        Ok(Some(Command::BackTo(search))) => answer_search(alloc, names, repl, search, output),
        Ok(Some(Command::Save(name))) => answer_save(alloc, names, repl, name, output, saver),
        itself => answer_without_search(alloc, names, repl, itself, output),
    }
}

/// Steps by calls: runs to the order at which the step ends.
fn answer_call<W: Write>(
    alloc: Global,
    names: &Option<SymbolTable>,
    repl: Repl,
    step: StepCall,
    output: &mut W,
) -> Result<Repl, ReplFault>
    requires job { IsJobCell step.job }
    requires within { step.within ≤ last_cycle }
    ensures { IfOk result (λ left. IsHandled names.now (Ok (Some (Command.StepCall step))) repl left
        (W.contents output.old) (W.contents output.new)) }
{
    let what = step.step.ahead(repl.machine(), step.job);
    let limits = Limits {
        ignore: 0,
        within: step.within,
    };
    let until = Command::Until { what, limits };
    answer_without_search(alloc, names, repl, Ok(Some(until)), output)
}

/// Steps back by calls: searches for the order to which the step goes back.
fn answer_back_call<W: Write>(
    alloc: Global,
    names: &Option<SymbolTable>,
    repl: Repl,
    step: BackCall,
    output: &mut W,
) -> Result<Repl, ReplFault>
    requires { IsJobCell step.job }
    ensures { IfOk result (λ left. IsHandled names.now (Ok (Some (Command.BackCall step))) repl left
        (W.contents output.old) (W.contents output.new)) }
{
    let what = step.step.back(repl.machine(), step.job);
    let search = Search {
        what,
        count: 1,
        lists: step.lists,
    };
    answer_search(alloc, names, repl, search, output)
}

/// Saves the script, and answers. Nothing changes in the session.
fn answer_save<W: Write, S: Saver>(
    alloc: Global,
    names: &Option<SymbolTable>,
    repl: Repl,
    name: FileName,
    output: &mut W,
    saver: &mut S,
) -> Result<Repl, ReplFault>
    ensures { IfOk result (λ left. IsHandled names.now (Ok (Some (Command.Save name))) repl left
        (W.contents output.old) (W.contents output.new)) }
{
    let saved = saver.save(name.text(), &repl.session);
    answer_without_search(alloc, names, repl, request_saved(name, saved), output)
}

/// Searches back, rewinds to the start of the boundary that is found, and answers. The events injected at its cycle will
/// happen again. If nothing is found, or memory runs out, nothing changes.
fn answer_search<W: Write>(
    alloc: Global,
    names: &Option<SymbolTable>,
    repl: Repl,
    search: Search,
    output: &mut W,
) -> Result<Repl, ReplFault>
    requires some { 0 < search.count }
    requires range { IsConditionInRange search.what }
    ensures { IfOk result (λ left. IsHandled names.now (Ok (Some (Command.BackTo search))) repl left
        (W.contents output.old) (W.contents output.new)) }
{
    let Ok(found) = repl.session.last_hit(alloc, search.what, search.count) else {
        return refuse(repl, "memory", output);
    };
    match found {
        Some(cycle) => {
            let way = Rewind {
                cut: cycle_after(cycle),
                cycle,
                lists: search.lists,
            };
            rewind_to(alloc, names, repl, way, output)
        }
        None => answer_not_found(alloc, names, repl, &search, output),
    }
}

/// Returns the cycle after this one; for the last number of 64 bits, that one.
#[tactic(auto, unfolding(crate::specs::Answered::cycle_after))]
fn cycle_after(cycle: u64) -> u64
    ensures { result ≡ cycle_after cycle }
{
    cycle.saturating_add(1)
}

/// Answers that a search back finds nothing, and changes nothing.
fn answer_not_found<W: Write>(
    alloc: Global,
    names: &Option<SymbolTable>,
    mut repl: Repl,
    search: &Search,
    output: &mut W,
) -> Result<Repl, ReplFault>
    ensures { IfOk result (λ left. IsAnswered names.now (Err (missed search.now)) repl left
        (W.contents output.old) (W.contents output.new)) }
{
    let reported = answer_now(alloc, names, &mut repl, Err(missed(search)), output);
    keep_if(reported, repl)
}

/// Returns the fault of a search back that finds nothing.
#[tactic(auto, unfolding(crate::specs::Answered::missed))]
fn missed(search: &Search) -> CommandFault
    ensures { result ≡ missed search.now }
{
    match search.what {
        Condition::Boundary => CommandFault::TooFarBack,
        _ if search.count == 1 => CommandFault::NotHit,
        _ => CommandFault::TooFewHits,
    }
}

/// Answers a request that is no search back. If memory runs out, the answer ends by reporting it.
fn answer_without_search<W: Write>(
    alloc: Global,
    names: &Option<SymbolTable>,
    mut repl: Repl,
    request: Request,
    output: &mut W,
) -> Result<Repl, ReplFault>
    requires range { IfOk request (λ parsed. IfSome parsed IsCommandInRange) }
    requires itself { IsItself request }
    ensures { IfOk result (λ left. IsAnswered names.now request repl left (W.contents output.old) (W.contents output.new)) }
{
    match request {
        Ok(Some(Command::Back(way))) => rewind_to(alloc, names, repl, way, output),
        in_place => {
            let reported = answer_in_place(alloc, names, &mut repl, in_place, output);
            keep_if(reported, repl)
        }
    }
}

/// Answers a request that does not go back. If memory runs out, the answer ends by reporting it.
fn answer_in_place<W: Write>(
    alloc: Global,
    names: &Option<SymbolTable>,
    repl: &mut Repl,
    request: Request,
    output: &mut W,
) -> Result<(), ReplFault>
    requires range { IfOk request (λ parsed. IfSome parsed IsCommandInRange) }
    requires place { IsInPlace request }
    ensures { OnOk result (IsAnswered names.now request repl.old repl.new (W.contents output.old) (W.contents output.new)) }
{
    match request {
        Ok(Some(Command::Inject(what))) => answer_event(alloc, names, repl, what, output),
        Ok(Some(Command::Break(what))) => answer_break(alloc, names, repl, what, output),
        Ok(Some(Command::Delete(number))) => answer_delete(alloc, names, repl, number, output),
        Ok(Some(Command::Quiet(quiet))) => answer_quiet(alloc, names, repl, quiet, output),
        plain => answer_now(alloc, names, repl, plain, output),
    }
}

/// Answers a request that neither rewinds, injects nor changes the settings.
fn answer_now<W: Write>(
    alloc: Global,
    names: &Option<SymbolTable>,
    repl: &mut Repl,
    request: Request,
    output: &mut W,
) -> Result<(), ReplFault>
    requires range { IfOk request (λ parsed. IfSome parsed IsCommandInRange) }
    requires plain { IsPlainRequest request }
    ensures { OnOk result (IsAnswered names.now request repl.old repl.new (W.contents output.old) (W.contents output.new)) }
{
    let Ok(mut text) = String::with_capacity(alloc, LONGEST_END) else {
        return write_text(output, OUT_OF_MEMORY);
    };
    match execute(alloc, names, repl, request, &mut text, output) {
        Ok(()) => write_text(output, &text),
        Err(fault) => end_short(fault, output),
    }
}

/// Ends an answer in which something failed. If memory ran out, reports that; else returns the fault.
fn end_short<W: Write>(fault: ReplFault, output: &mut W) -> Result<(), ReplFault>
    ensures { OnOk result ((fault ≡ ReplFault.Memory)
        × Appends (W.contents output.old) (W.contents output.new) (codes "error: memory\n")) }
{
    match fault {
        ReplFault::Memory => write_text(output, OUT_OF_MEMORY),
        other => Err(other),
    }
}

/// Executes a request, and adds the unwritten rest of its answer.
#[tactic(auto, unfolding(crate::specs::Answered::answer_to))]
fn execute<W: Write>(
    alloc: Global,
    names: &Option<SymbolTable>,
    repl: &mut Repl,
    request: Request,
    text: &mut String,
    output: &mut W,
) -> Result<(), ReplFault>
    requires range { IfOk request (λ parsed. IfSome parsed IsCommandInRange) }
    requires plain { IsPlainRequest request }
    ensures parsed { OnOk result (Outputs (answer_to names.now request repl.old) repl.new
        (append_known (W.contents output.old) (string_bytes text.old))
        (append_known (W.contents output.new) (string_bytes text.new))) }
    ensures left { IsLeft request repl.old repl.new }
    ensures begins { IsErrOf result ReplFault.Memory
        → Begins (string_bytes text.old ++ (answer_to names.now request repl.old).1) (W.contents output.old) (W.contents output.new) }
{
    match request {
        Ok(Some(command)) => {
            carry_out(alloc, names, repl, command, text, output)?;
            push_end(repl, text)
        }
        Ok(None) => push_end(repl, text),
        Err(fault) => push_refusal(names, fault, text),
    }
}

/// Adds the answer to an invalid command line.
fn push_refusal(
    names: &Option<SymbolTable>,
    fault: CommandFault,
    text: &mut String,
) -> Result<(), ReplFault>
    ensures { OnOk result
        (string_bytes text.new ≡ string_bytes text.old ++ error_line (fault_text_with names.now fault)) }
{
    push_refusal_line(text, names, fault)?;
    Ok(())
}

/// Executes a command that neither injects, rewinds nor changes the settings, and adds its answer without the last line.
#[tactic(auto, unfolding(agc_command::specs::Command::IsCommandInRange, crate::specs::Answered::done))]
fn carry_out<W: Write>(
    alloc: Global,
    names: &Option<SymbolTable>,
    repl: &mut Repl,
    command: Command,
    text: &mut String,
    output: &mut W,
) -> Result<(), ReplFault>
    requires range { IsCommandInRange command }
    requires plain { IsPlain command }
    ensures reported { OnOk result (Outputs (done names.now command repl.old) repl.new
        (append_known (W.contents output.old) (string_bytes text.old))
        (append_known (W.contents output.new) (string_bytes text.new))) }
    ensures left { IsPartOf command repl.old repl.new }
    ensures begins { IsErrOf result ReplFault.Memory
        → Begins (string_bytes text.old ++ (done names.now command repl.old).1) (W.contents output.old) (W.contents output.new) }
    ensures grows { (IsErrOf result ReplFault.Write → ⊥) → Grows (W.contents output.old) (W.contents output.new) }
{
    match command {
        Command::Go(cycles) => go(repl, cycles, text, output),
        Command::GoTo(cycle) => go_on_to(repl, cycle, text, output),
        Command::Step(steps) => step(repl, names, steps, text, output),
        Command::Ahead(boundaries) => ahead(alloc, repl, names, boundaries, text, output),
        Command::Until { what, limits } => until(alloc, repl, what, limits, text, output),
        Command::Continue(limits) => go_on_until(alloc, repl, limits, text, output),
        shown => show(alloc, names, repl, shown, text),
    }
}

/// Adds the lines that a command shows.
fn show(
    alloc: Global,
    names: &Option<SymbolTable>,
    repl: &Repl,
    command: Command,
    text: &mut String,
) -> Result<(), ReplFault>
    requires { IsCommandInRange command }
    ensures { OnOk result (string_bytes text.new
        ≡ string_bytes text.old ++ shown_text names.now command repl.now) }
{
    push_shown(alloc, names, repl, command, text)?;
    Ok(())
}

/// Adds the last line of an answer.
fn push_end(repl: &Repl, text: &mut String) -> Result<(), ReplFault>
    ensures { OnOk result (string_bytes text.new
        ≡ string_bytes text.old ++ end_line repl.now.session.now.stopped repl.now.session.now.cycle) }
{
    push_end_line(text, repl.stopped(), repl.cycle())?;
    Ok(())
}

/// Injects an event, and answers. If memory runs out, the event is not injected.
fn answer_event<W: Write>(
    alloc: Global,
    names: &Option<SymbolTable>,
    repl: &mut Repl,
    what: What,
    output: &mut W,
) -> Result<(), ReplFault>
    requires { IsWhatInRange what }
    ensures { OnOk result (IsAnswered names.now (Ok (Some (Command.Inject what))) repl.old repl.new
        (W.contents output.old) (W.contents output.new)) }
{
    match inject(repl, what) {
        Ok(()) => write_end(alloc, repl, output),
        Err(fault) => write_refusal(fault, output),
    }
}

/// Writes why an event was not injected.
fn write_refusal<W: Write>(fault: InjectFault, output: &mut W) -> Result<(), ReplFault>
    ensures refused { OnOk result ((fault ≡ InjectFault.Memory → ⊥)
        → Appends (W.contents output.old) (W.contents output.new) (error_line (refusal_text fault))) }
    ensures memory { OnOk result (fault ≡ InjectFault.Memory
        → Appends (W.contents output.old) (W.contents output.new) (codes "error: memory\n")) }
{
    match fault {
        InjectFault::Memory => write_text(output, OUT_OF_MEMORY),
        refused => write_error_line(output, refusal(refused)),
    }
}

/// Sets a breakpoint, and answers. If there are too many or memory runs out, nothing changes.
fn answer_break<W: Write>(
    alloc: Global,
    names: &Option<SymbolTable>,
    repl: &mut Repl,
    what: Condition,
    output: &mut W,
) -> Result<(), ReplFault>
    requires { IsBreakpointInRange what }
    ensures { OnOk result (IsAnswered names.now (Ok (Some (Command.Break what))) repl.old repl.new
        (W.contents output.old) (W.contents output.new)) }
{
    if repl.settings.is_full() {
        write_error_line(
            output,
            "TooManyBreakpoints: there are at most 64; delete N makes room",
        )
    } else {
        set_breakpoint(alloc, repl, what, output)
    }
}

/// Sets a breakpoint, and answers. If memory runs out, nothing changes.
fn set_breakpoint<W: Write>(
    alloc: Global,
    repl: &mut Repl,
    what: Condition,
    output: &mut W,
) -> Result<(), ReplFault>
    requires { IsBreakpointInRange what }
    ensures { OnOk result (Sets what repl.old repl.new (W.contents output.old) (W.contents output.new)) }
{
    match add_breakpoint(alloc, repl, &what) {
        Ok(text) => write_text(output, &text),
        Err(_) => write_text(output, OUT_OF_MEMORY),
    }
}

/// Sets a breakpoint, and returns the answer. If memory runs out, it is not set.
fn add_breakpoint(alloc: Global, repl: &mut Repl, what: &Condition) -> Result<String, AllocError>
    requires { IsBreakpointInRange what.now }
    ensures set { OnOk result
        (repl.new ≡ record repl.old { settings = with_breakpoint what.now repl.old.settings }) }
    ensures parsed { IfOk result (λ text. string_bytes text
        ≡ breakpoint_line (next_numbered what.now repl.old.settings) ++ last_line repl.old) }
    ensures err { OnErr result (repl.new ≡ repl.old) }
{
    let number = repl.settings.next_number();
    let mut text = String::new(alloc);
    push_breakpoint_line(
        &mut text,
        Numbered {
            number,
            what: *what,
        },
    )?;
    push_end_line(&mut text, repl.stopped(), repl.cycle())?;
    repl.settings.add(what)?;
    Ok(text)
}

/// Deletes a breakpoint if there is one with this number, and answers.
fn answer_delete<W: Write>(
    alloc: Global,
    names: &Option<SymbolTable>,
    repl: &mut Repl,
    number: u64,
    output: &mut W,
) -> Result<(), ReplFault>
    ensures { OnOk result (IsAnswered names.now (Ok (Some (Command.Delete number))) repl.old repl.new
        (W.contents output.old) (W.contents output.new)) }
{
    if repl.settings.has_number(number) {
        repl.settings.delete(number);
        write_end(alloc, repl, output)
    } else {
        write_error_line(
            output,
            "NoBreakpoint: no breakpoint has this number; breaks lists them",
        )
    }
}

/// Lets runs print no channel writes, or print them again, and answers.
fn answer_quiet<W: Write>(
    alloc: Global,
    names: &Option<SymbolTable>,
    repl: &mut Repl,
    quiet: bool,
    output: &mut W,
) -> Result<(), ReplFault>
    ensures { OnOk result (IsAnswered names.now (Ok (Some (Command.Quiet quiet))) repl.old repl.new
        (W.contents output.old) (W.contents output.new)) }
{
    repl.settings.set_quiet(quiet);
    write_end(alloc, repl, output)
}

/// Rewinds to a cycle, if the machine has reached it, and answers.
fn rewind_to<W: Write>(
    alloc: Global,
    names: &Option<SymbolTable>,
    repl: Repl,
    way: Rewind,
    output: &mut W,
) -> Result<Repl, ReplFault>
    ensures { IfOk result (λ left. IsAnswered names.now (Ok (Some (Command.Back way))) repl left
        (W.contents output.old) (W.contents output.new)) }
{
    if repl.has_reached(way.cycle) {
        rewind_reached(alloc, repl, way, output)
    } else {
        refuse(
            repl,
            "Ahead: the machine has not reached this cycle; go to C runs on to it",
            output,
        )
    }
}

/// Rewinds to a cycle, and answers. If memory runs out, nothing changes.
fn rewind_reached<W: Write>(
    alloc: Global,
    repl: Repl,
    way: Rewind,
    output: &mut W,
) -> Result<Repl, ReplFault>
    ensures { IfOk result (λ left. GoesBack way repl left (W.contents output.old) (W.contents output.new)) }
{
    let Ok(dropped) = dropped_lines(alloc, &repl.session, &way) else {
        return refuse(repl, "memory", output);
    };
    match repl.back(alloc, way.cut, way.cycle) {
        Ok(earlier) => {
            let reported = write_back(alloc, &earlier, dropped.as_slice(), output);
            keep_if(reported, earlier)
        }
        Err(same) => refuse(same, "memory", output),
    }
}

/// Returns the lines of the events that a rewind drops, if they are to be listed. Fails if memory runs out.
#[tactic(auto, unfolding(crate::specs::Answered::dropped_text))]
fn dropped_lines(alloc: Global, session: &Session, way: &Rewind) -> io::Result<Vec<u8>>
    ensures { IfOk result (λ lines. lines.items ≡ dropped_text way.now session.now) }
{
    let mut lines = Vec::new(alloc);
    if way.lists {
        let mut line = String::with_capacity(alloc, LINE_ROOM)?;
        session.write_discarded(way.cut, &mut line, &mut lines)?;
    }
    Ok(lines)
}

/// Writes the answer to a command that has gone back: the lines of the dropped events, and the last line.
fn write_back<W: Write>(
    alloc: Global,
    repl: &Repl,
    dropped: &[u8],
    output: &mut W,
) -> Result<(), ReplFault>
    ensures { OnOk result (Appends (W.contents output.old) (W.contents output.new)
        (dropped.now ++ end_line repl.now.session.now.stopped repl.now.session.now.cycle)) }
{
    write_bytes(output, dropped)?;
    write_end(alloc, repl, output)
}

/// Answers why nothing was done, and changes nothing.
fn refuse<W: Write>(repl: Repl, why: &str, output: &mut W) -> Result<Repl, ReplFault>
    ensures { IfOk result (λ left. (left ≡ repl)
        × Appends (W.contents output.old) (W.contents output.new) (error_line why.now)) }
{
    let reported = write_error_line(output, why);
    keep_if(reported, repl)
}

/// Writes the last line of an answer, also if memory has run out.
fn write_end<W: Write>(alloc: Global, repl: &Repl, output: &mut W) -> Result<(), ReplFault>
    ensures { OnOk result (Appends (W.contents output.old) (W.contents output.new)
        (end_line repl.now.session.now.stopped repl.now.session.now.cycle)) }
{
    let mut text = String::new(alloc);
    match push_end_line(&mut text, repl.stopped(), repl.cycle()) {
        Ok(()) => write_text(output, &text),
        Err(_) => write_end_line(output, repl.stopped(), repl.cycle()),
    }
}

/// Returns the REPL if its answer could be written, else the fault.
fn keep_if(reported: Result<(), ReplFault>, repl: Repl) -> Result<Repl, ReplFault>
    ensures { MatchResult reported (λ _. result ≡ Ok repl) (λ fault. result ≡ Err fault) }
{
    reported.map(|()| repl)
}
