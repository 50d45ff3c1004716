//! Checks the options before a run, in order, and makes the machine.
ghost use Rattle.std.specs.Prelude.{◌≡◌, false, IfOk, MatchResult, None, Some, option_copied};
ghost use Rattle.agc_machine.specs.State.{start_state};
ghost use Rattle.agc_panel.specs.WatchSpec.{spec_of};
ghost use Rattle.agc_load.specs.Options.{parsed_by};
ghost use Rattle.agc_load.specs.Prepare.{limit_refusal, start_steps, until_refusal};
ghost use Rattle.agc_load.specs.Prepare.{watch_spec_refusal};
ghost use Rattle.agc_load.specs.Steps.{refusal_in};
ghost use Rattle.agc_machine.specs.StopAddress.{stop_address_of};

use crate::fault::LoadFault;
use agc_machine::{Machine, StopAddress};
use agc_panel::WatchSpec;
use agc_script::Script;
use agc_store::Rope;

/// A machine at its start, and the tables that the watcher prints at the end.
#[derive(Drop)]
pub struct Loaded {
    pub machine: Machine,
    /// The tables that the watcher prints.
    pub watch: Option<WatchSpec>,
}

/// Makes the machine of a run, and parses the watched tables. Fails with the first fault of the limit, the text of
/// `--watch` and the text of `--until`.
#[tactic(auto, unfolding(crate::specs::Prepare::start_steps, agc_machine::specs::State::start_state))]
pub fn load(
    rope: Rope,
    script: Script,
    limit: u64,
    until: &Option<String>,
    watch: Option<&String>,
) -> Result<Loaded, LoadFault>
    ensures checked { MatchResult result
        (λ _. refusal_in (start_steps until.now (option_copied watch.entry) limit) ≡ None)
        (λ refusal. refusal_in (start_steps until.now (option_copied watch.entry) limit) ≡ Some refusal) }
    ensures machine { IfOk result (λ prepared. prepared.machine
        ≡ start_state rope script limit (parsed_by stop_address_of until.now)) }
    ensures watch { IfOk result
        (λ prepared. prepared.watch ≡ parsed_by spec_of (option_copied watch.entry)) }
    ensures fresh { IfOk result (λ prepared. prepared.machine.begun ≡ false) }
{
    let machine = limited_machine(rope, script, limit)?;
    let watch = watch_spec(watch)?;
    let until = stop_address(until)?;
    Ok(Loaded {
        machine: with_until(machine, until),
        watch,
    })
}

#[tactic(auto, unfolding(crate::specs::Prepare::limit_refusal))]
fn limited_machine(rope: Rope, script: Script, limit: u64) -> Result<Machine, LoadFault>
    ensures checked { MatchResult result (λ _. limit_refusal limit ≡ None)
        (λ refusal. limit_refusal limit ≡ Some refusal) }
    ensures machine { IfOk result (λ machine. machine ≡ start_state rope script limit None) }
{
    match Machine::new(rope, script, limit) {
        Ok(machine) => Ok(machine),
        Err(refused) => Err(LoadFault::Limit(refused.fault)),
    }
}

#[tactic(auto, unfolding(crate::specs::Prepare::watch_spec_refusal))]
fn watch_spec(watch: Option<&String>) -> Result<Option<WatchSpec>, LoadFault>
    ensures checked { MatchResult result (λ _. watch_spec_refusal (option_copied watch.entry) ≡ None)
        (λ refusal. watch_spec_refusal (option_copied watch.entry) ≡ Some refusal) }
    ensures parsed { IfOk result (λ spec. spec ≡ parsed_by spec_of (option_copied watch.entry)) }
{
    let Some(text) = watch else {
        return Ok(None);
    };
    match WatchSpec::read(text.as_str()) {
        Some(spec) => Ok(Some(spec)),
        None => Err(LoadFault::BadWatchSpec),
    }
}

#[tactic(auto, unfolding(crate::specs::Prepare::until_refusal))]
fn stop_address(until: &Option<String>) -> Result<Option<StopAddress>, LoadFault>
    ensures checked { MatchResult result (λ _. until_refusal until.now ≡ None)
        (λ refusal. until_refusal until.now ≡ Some refusal) }
    ensures parsed { IfOk result (λ at. at ≡ parsed_by stop_address_of until.now) }
{
    let Some(text) = until else {
        return Ok(None);
    };
    match StopAddress::read(text.as_str()) {
        Some(at) => Ok(Some(at)),
        None => Err(LoadFault::BadUntilSpec),
    }
}

#[tactic(auto, unfolding(agc_machine::specs::State::start_state))]
fn with_until(machine: Machine, until: Option<StopAddress>) -> Machine
    requires fresh { machine.begun ≡ false }
    requires endless { machine.until ≡ None }
    ensures { result ≡ record machine { until = until } }
{
    match until {
        Some(StopAddress { bank, address }) => machine.until(bank, address),
        None => machine,
    }
}
