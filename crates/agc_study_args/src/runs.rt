//! Opens and reads a rope and a script, and makes the machine to run and the tables to watch in its run.
ghost use Rattle.std.specs.Prelude.{◌≡◌, IfErr, IfOk, MatchResult, None, OnOk, Some, false, option_copied};
ghost use Rattle.agc_machine.specs.State.{start_state};
ghost use Rattle.agc_machine.specs.StopAddress.{stop_address_of};
ghost use Rattle.agc_study_args.specs.Started.{AreWatched, AreWrong, IsRefused, IsStarted, in_form, watched_steps};
ghost use Rattle.agc_load.specs.Options.{parsed_by};
ghost use Rattle.agc_load.specs.Prepare.{tables_refusal};
ghost use Rattle.agc_load.specs.Steps.{ComesOf};

use crate::args::RunOptions;
use crate::read_file::{ReadFile, open_file};
use crate::rope_read::{RopeRead, read_any_rope};
use agc_io::{ROPE_BYTES, TEXT_BYTES};
use agc_load::{LoadFault, Loaded, RunFiles, load, read_script};
use agc_machine::Machine;
use agc_panel::{CheckedSpec, WatchSpec};
use agc_script::Script;
use agc_store::{Rope, RopeForm};
use std::alloc::Global;
use std::io::{Read, Write};
use std::rt::Files;

/// Readers of a run's rope and script.
#[derive(Drop)]
pub struct RunInputs<R> {
    pub rope: R,
    pub script: R,
    /// The number of words with wrong parity that were read.
    pub wrong: usize,
}

impl<F> RunInputs<ReadFile<'_, F>> {
    /// Writes a line for each of the files that could not be read, and one for a rope with words of wrong parity that
    /// were read.
    pub fn remark_fault<N: Write>(&self, alloc: Global, remarks: &mut N) {
        self.rope.remark_fault(alloc, remarks);
        self.rope.remark_wrong(alloc, self.wrong, remarks);
        self.script.remark_fault(alloc, remarks);
    }
}

/// Opens the rope and the script of a run.
pub fn open_run<'a, R: Files>(rt: &R, files: &'a RunFiles) -> RunInputs<ReadFile<'a, R::File>> {
    RunInputs {
        rope: open_file(rt, &files.rope, ROPE_BYTES),
        script: open_file(rt, &files.script, TEXT_BYTES),
        wrong: 0,
    }
}

/// A machine at the start of its run.
#[derive(Drop)]
pub struct Start {
    pub machine: Machine,
    /// The watched tables.
    pub tables: Option<CheckedSpec>,
}

/// Makes the machine of a rope and a script, or fails with the first fault of: rope, script, limit, `--until`.
pub fn read_machine<R: Read>(
    alloc: Global,
    options: &RunOptions,
    inputs: &mut RunInputs<R>,
) -> Result<Machine, LoadFault>
    ensures started { IfOk result (IsStarted options.now None
        (R.remaining inputs.old.rope) (R.remaining inputs.old.script)) }
    ensures fresh { IfOk result (λ machine. machine.begun ≡ false) }
    ensures wrong { OnOk result (AreWrong options.now (R.remaining inputs.old.rope) inputs.new.wrong) }
    ensures refused { IfErr result (IsRefused options.now None
        (R.remaining inputs.old.rope) (R.remaining inputs.old.script)) }
{
    read_machine_as(alloc, options, options.form, inputs)
}

/// Does the same for a rope in another form.
pub fn read_machine_as<R: Read>(
    alloc: Global,
    options: &RunOptions,
    form: RopeForm,
    inputs: &mut RunInputs<R>,
) -> Result<Machine, LoadFault>
    ensures started { IfOk result (IsStarted (in_form form options.now) None
        (R.remaining inputs.old.rope) (R.remaining inputs.old.script)) }
    ensures fresh { IfOk result (λ machine. machine.begun ≡ false) }
    ensures wrong { OnOk result (AreWrong (in_form form options.now)
        (R.remaining inputs.old.rope) inputs.new.wrong) }
    ensures refused { IfErr result (IsRefused (in_form form options.now) None
        (R.remaining inputs.old.rope) (R.remaining inputs.old.script)) }
{
    let start = read_start_as(alloc, options, form, None, inputs)?;
    Ok(start.machine)
}

/// Does the same, with the tables of `--watch` if there is one. Fails with the first fault, checked in this order:
/// rope, script, limit, `--watch`, `--until`, addresses of the tables.
pub fn read_start<R: Read>(
    alloc: Global,
    options: &RunOptions,
    watch: Option<&String>,
    inputs: &mut RunInputs<R>,
) -> Result<Start, LoadFault>
    ensures started { IfOk result (λ start. IsStarted options.now (option_copied watch.entry)
        (R.remaining inputs.old.rope) (R.remaining inputs.old.script) start.machine) }
    ensures fresh { IfOk result (λ start. start.machine.begun ≡ false) }
    ensures tables { IfOk result (λ start. AreWatched (option_copied watch.entry) start.tables) }
    ensures wrong { OnOk result (AreWrong options.now (R.remaining inputs.old.rope) inputs.new.wrong) }
    ensures refused { IfErr result (IsRefused options.now (option_copied watch.entry)
        (R.remaining inputs.old.rope) (R.remaining inputs.old.script)) }
{
    read_start_as(alloc, options, options.form, watch, inputs)
}

/// Does the same for a rope in another form.
fn read_start_as<R: Read>(
    alloc: Global,
    options: &RunOptions,
    form: RopeForm,
    watch: Option<&String>,
    inputs: &mut RunInputs<R>,
) -> Result<Start, LoadFault>
    ensures started { IfOk result (λ start. IsStarted (in_form form options.now)
        (option_copied watch.entry) (R.remaining inputs.old.rope) (R.remaining inputs.old.script)
        start.machine) }
    ensures fresh { IfOk result (λ start. start.machine.begun ≡ false) }
    ensures tables { IfOk result (λ start. AreWatched (option_copied watch.entry) start.tables) }
    ensures wrong { OnOk result (AreWrong (in_form form options.now)
        (R.remaining inputs.old.rope) inputs.new.wrong) }
    ensures refused { IfErr result (IsRefused (in_form form options.now) (option_copied watch.entry)
        (R.remaining inputs.old.rope) (R.remaining inputs.old.script)) }
{
    let read = read_any_rope(alloc, form, options.ignores_parity, &mut inputs.rope)?;
    let RopeRead { rope, wrong } = read;
    inputs.wrong = wrong.len();
    let script = read_script(alloc, &mut inputs.script)?;
    start_watched(rope, script, options, watch)
}

/// Makes a machine at the start of its run, and checks the tables to watch in it.
fn start_watched(
    rope: Rope,
    script: Script,
    options: &RunOptions,
    watch: Option<&String>,
) -> Result<Start, LoadFault>
    ensures started { ComesOf (watched_steps options.now (option_copied watch.entry))
        (λ start. start.machine
        ≡ start_state rope script options.now.limit (parsed_by stop_address_of options.now.until)) result }
    ensures fresh { IfOk result (λ start. start.machine.begun ≡ false) }
    ensures tables { IfOk result (λ start. AreWatched (option_copied watch.entry) start.tables) }
{
    let Loaded { machine, watch } = load(rope, script, options.limit, &options.until, watch)?;
    let tables = checked_tables(watch)?;
    Ok(Start { machine, tables })
}

/// Returns the tables to watch, if they can be watched.
#[tactic(auto, unfolding(agc_load::specs::Prepare::tables_refusal))]
fn checked_tables(watch: Option<WatchSpec>) -> Result<Option<CheckedSpec>, LoadFault>
    ensures checked { MatchResult result (λ _. tables_refusal watch ≡ None)
        (λ refusal. tables_refusal watch ≡ Some refusal) }
    ensures tables { IfOk result (λ tables. tables ≡ watch) }
{
    let Some(spec) = watch else {
        return Ok(None);
    };
    match spec.checked() {
        Ok(checked) => Ok(Some(checked)),
        Err(fault) => Err(LoadFault::Watch(fault)),
    }
}
