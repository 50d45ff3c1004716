//! Checks the options of the ring, of live keys and of the watcher before a run.
ghost use Rattle.std.specs.Prelude.{◌≡◌, ◌⊎◌, false, true, IfOk, OnOk, MatchResult, None, Some};
ghost use Rattle.agc_panel.specs.WatchSpec.{spec_of};
ghost use Rattle.agc_load.specs.Options.{parsed_by};
ghost use Rattle.agc_load.specs.Prepare.{run_steps, slots_refusal, spacing_refusal, tables_refusal};
ghost use Rattle.agc_load.specs.Steps.{IsOutcome, refusal_in};
ghost use Rattle.agc_load.specs.declared.fault.LoadFault.TheVariants as refusal;

use crate::run::show_refusal;
use agc_cli::Options;
use agc_load::LoadFault;
use agc_panel::{CheckedSpec, WatchSpec};
use agc_pipe::{Spacing, try_thread};
use agc_ring::Slots;
use std::thread::Threads;

/// The checked options of a run.
#[derive(Drop)]
pub struct RunOptions {
    pub slots: Slots,
    /// The tables that the watcher prints.
    pub watch: Option<CheckedSpec>,
}

/// Checks the options of a run without live keys. The watched tables are checked before the run, so that no long run is
/// wasted; a thread that cannot be started is reported before their fault, as it is when a run is made.
#[tactic(auto, unfolding(agc_load::specs::Prepare::run_steps, agc_load::specs::Prepare::spacing_refusal))]
pub fn check_run<H: Threads>(
    rt: &H,
    options: &Options,
    watch: &Option<WatchSpec>,
) -> Result<RunOptions, LoadFault>
    requires live { options.now.live ≡ false }
    requires watch { watch.now ≡ parsed_by spec_of options.now.watch }
    ensures checked { MatchResult result (λ _. refusal_in (run_steps options.now) ≡ None)
        (IsOutcome (run_steps options.now)) }
    ensures slots { OnOk result (slots_refusal options.now.slots ≡ None) }
    ensures spacing { OnOk result (spacing_refusal options.now.live options.now.spacing ≡ None) }
    ensures tables { OnOk result (tables_refusal watch.now ≡ None) }
    ensures ring { IfOk result (λ run. run.slots ≡ options.now.slots) }
    ensures watch { IfOk result (λ run. run.watch ≡ watch.now) }
{
    let slots = checked_slots(options.slots)?;
    let watch = checked_tables(rt, watch)?;
    Ok(RunOptions { slots, watch })
}

/// Checks the options of a run with live keys.
#[tactic(auto, unfolding(agc_load::specs::Prepare::run_steps))]
pub fn check_live_run<H: Threads>(
    rt: &H,
    options: &Options,
    watch: &Option<WatchSpec>,
) -> Result<(RunOptions, Spacing), LoadFault>
    requires live { options.now.live ≡ true }
    requires watch { watch.now ≡ parsed_by spec_of options.now.watch }
    ensures checked { MatchResult result (λ _. refusal_in (run_steps options.now) ≡ None)
        (IsOutcome (run_steps options.now)) }
    ensures slots { OnOk result (slots_refusal options.now.slots ≡ None) }
    ensures spacing { OnOk result (spacing_refusal options.now.live options.now.spacing ≡ None) }
    ensures tables { OnOk result (tables_refusal watch.now ≡ None) }
    ensures apart { IfOk result (λ checked. checked.1 ≡ options.now.spacing) }
    ensures ring { IfOk result (λ checked. checked.0.slots ≡ options.now.slots) }
    ensures watch { IfOk result (λ checked. checked.0.watch ≡ watch.now) }
{
    let slots = checked_slots(options.slots)?;
    let spacing = checked_spacing(options.spacing)?;
    let watch = checked_tables(rt, watch)?;
    Ok((RunOptions { slots, watch }, spacing))
}

#[tactic(auto, unfolding(agc_load::specs::Prepare::slots_refusal))]
fn checked_slots(slots: usize) -> Result<Slots, LoadFault>
    ensures checked { MatchResult result (λ _. slots_refusal slots ≡ None)
        (λ refusal. slots_refusal slots ≡ Some refusal) }
    ensures slots { IfOk result (λ checked. checked ≡ slots) }
{
    match Slots::new(slots) {
        Ok(slots) => Ok(slots),
        Err(_) => Err(LoadFault::Slots),
    }
}

#[tactic(auto, unfolding(agc_load::specs::Prepare::spacing_refusal))]
fn checked_spacing(spacing: u64) -> Result<Spacing, LoadFault>
    ensures checked { MatchResult result (λ _. spacing_refusal true spacing ≡ None)
        (λ refusal. spacing_refusal true spacing ≡ Some refusal) }
    ensures spacing { IfOk result (λ checked. checked ≡ spacing) }
{
    match Spacing::new(spacing) {
        Some(spacing) => Ok(spacing),
        None => Err(LoadFault::Spacing),
    }
}

#[tactic(auto, unfolding(agc_load::specs::Prepare::tables_refusal))]
fn checked_tables<H: Threads>(
    rt: &H,
    watch: &Option<WatchSpec>,
) -> Result<Option<CheckedSpec>, LoadFault>
    ensures checked { MatchResult result (λ _. tables_refusal watch.now ≡ None)
        (λ r. (r ≡ refusal.Thread) ⊎ (tables_refusal watch.now ≡ Some r)) }
    ensures watch { IfOk result (λ checked. checked ≡ watch.now) }
{
    let Some(spec) = watch else {
        return Ok(None);
    };
    match spec.checked() {
        Ok(checked) => Ok(Some(checked)),
        Err(fault) => {
            if let Err(fault) = try_thread(rt) {
                return Err(show_refusal(fault));
            }
            Err(LoadFault::Watch(fault))
        }
    }
}
