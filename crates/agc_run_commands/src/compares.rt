//! Reads two ropes and two scripts, and compares their runs.
ghost use Rattle.std.specs.Prelude.{◌≡◌, ◌⊎◌, IfErr, IfOk, None};
ghost use Rattle.agc_machine.specs.State.{State};
ghost use Rattle.agc_diff.specs.ObservedCompared.{FitsLines};
ghost use Rattle.agc_run_commands.specs.Compared.{IsCompared, IsShownOutcomeOf, IsOutcomeAs, IsOutcomeOf, other_options};
ghost use Rattle.agc_run_commands.specs.Pairs.{IsPairRefused};
ghost use Rattle.agc_study_args.specs.Started.{IsRefused, IsStarted};
ghost use Rattle.agc_run_commands.specs.Fault.{other_error};
ghost use Rattle.agc_run_commands.specs.declared.fault.AnalysisFault.TheVariants as analysis;
ghost use Rattle.agc_load.specs.declared.fault.LoadFault.{LoadFault};
ghost use Rattle.agc_load.specs.declared.fault.LoadFault.TheVariants as refusal;

use crate::fault::AnalysisFault;
use agc_diff::{ObservedComparison, compare, compare_shown};
use agc_io::Progress;
use agc_load::LoadFault;
use agc_machine::Machine;
use agc_study_args::{CompareArgs, ObservedArgs, RunInputs, read_machine, read_machine_as};
use agc_text::{SideNames, push_brief, push_comparison, push_shown};
use std::alloc::{AllocError, Global};
use std::io::Read;

/// The result of comparing two runs, as text.
#[derive(Debug, Drop)]
pub struct DiffOutcome {
    pub text: String,
    /// Whether the runs are the same.
    pub is_same: bool,
}

/// Reads two ropes and two scripts, and compares their runs; boundaries are printed with the symbols of each run.
/// Fails with the first fault of the left run, or, if it has none, with that of the right run, reported as the other
/// run's. Faults are checked in this order: rope, script, limit, `--until`. Out of memory may come at any point.
pub fn compare_files<R: Read, P: Progress>(
    alloc: Global,
    args: &CompareArgs,
    names: SideNames<'_>,
    left: &mut RunInputs<R>,
    right: &mut RunInputs<R>,
    progress: &mut P,
) -> Result<DiffOutcome, AnalysisFault>
    ensures compared { IfOk result (IsCompared args.now
        (R.remaining left.old.rope) (R.remaining left.old.script)
        (R.remaining right.old.rope) (R.remaining right.old.script)) }
    ensures refused { IfErr result (IsPairRefused args.now.options (other_options args.now) None
        (R.remaining left.old.rope) (R.remaining left.old.script)
        (R.remaining right.old.rope) (R.remaining right.old.script)) }
{
    let mut machine = read_machine(alloc, &args.options, left)?;
    compare_with(alloc, args, names, &mut machine, right, progress)
}

/// Reads the rope and the script of the right run, and compares it with a machine on the left.
fn compare_with<R: Read, P: Progress>(
    alloc: Global,
    args: &CompareArgs,
    names: SideNames<'_>,
    left: &mut Machine,
    inputs: &mut RunInputs<R>,
    progress: &mut P,
) -> Result<DiffOutcome, AnalysisFault>
    ensures compared { IfOk result (λ outcome. (right : State) × IsStarted (other_options args.now) None
        (R.remaining inputs.old.rope) (R.remaining inputs.old.script) right
        × IsOutcomeAs args.now.shown left.old right outcome) }
    ensures refused { IfErr result (λ t. (t ≡ analysis.Refused refusal.Memory)
        ⊎ ((r : LoadFault) × (t ≡ other_error r) × IsRefused (other_options args.now) None
        (R.remaining inputs.old.rope) (R.remaining inputs.old.script) r)) }
{
    match read_machine_as(alloc, &args.options, args.other_form, inputs) {
        Ok(mut right) => compare_as(alloc, args.shown, names, left, &mut right, progress),
        Err(refusal) => Err(AnalysisFault::of_other_run(refusal)),
    }
}

/// Runs two machines and compares them in the requested way.
fn compare_as<P: Progress>(
    alloc: Global,
    shown: Option<ObservedArgs>,
    names: SideNames<'_>,
    left: &mut Machine,
    right: &mut Machine,
    progress: &mut P,
) -> Result<DiffOutcome, AnalysisFault>
    ensures reports { IfOk result (IsOutcomeAs shown left.old right.old) }
    ensures refused { IfErr result (λ t. t ≡ analysis.Refused refusal.Memory) }
{
    let outcome = match shown {
        Some(args) => compare_what_shows(alloc, args, left, right, progress),
        None => compare_runs(alloc, names, left, right, progress),
    };
    match outcome {
        Ok(outcome) => Ok(outcome),
        Err(_) => Err(AnalysisFault::Refused(LoadFault::Memory)),
    }
}

/// Runs two machines while they show the same, and reports whether they do up to their stops or where they diverge.
fn compare_what_shows<P: Progress>(
    alloc: Global,
    args: ObservedArgs,
    left: &mut Machine,
    right: &mut Machine,
    progress: &mut P,
) -> Result<DiffOutcome, AllocError>
    ensures { IfOk result (IsShownOutcomeOf args left.old right.old) }
{
    let comparison = compare_shown(alloc, args.what, left, right, progress)?;
    Ok(DiffOutcome {
        text: text_of_shown(alloc, args, &comparison)?,
        is_same: comparison.is_same(),
    })
}

/// Returns the text about what two runs show: the report, or one line.
fn text_of_shown(
    alloc: Global,
    args: ObservedArgs,
    comparison: &ObservedComparison,
) -> Result<String, AllocError>
    requires { FitsLines comparison.now }
{
    let mut text = String::new(alloc);
    if args.is_brief {
        push_brief(&mut text, comparison)?;
    } else {
        push_shown(&mut text, comparison)?;
    }
    Ok(text)
}

/// Runs two machines to their stops, and reports whether the runs are the same, or where they diverge.
fn compare_runs<P: Progress>(
    alloc: Global,
    names: SideNames<'_>,
    left: &mut Machine,
    right: &mut Machine,
    progress: &mut P,
) -> Result<DiffOutcome, AllocError>
    ensures { IfOk result (IsOutcomeOf left.old right.old) }
{
    let comparison = compare(alloc, left, right, progress)?;
    let mut text = String::new(alloc);
    push_comparison(&mut text, names, &comparison)?;
    Ok(DiffOutcome {
        text,
        is_same: comparison.is_same(),
    })
}
