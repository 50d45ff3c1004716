//! Reads a rope and a script, and makes the profile of their run.
ghost use Rattle.std.specs.Prelude.{IfErr, IfOk, None};
ghost use Rattle.agc_run_commands.specs.Counted.{IsCounted};
ghost use Rattle.agc_study_args.specs.Started.{IsRefused};

use agc_io::Progress;
use agc_load::LoadFault;
use agc_machine::Machine;
use agc_profile::{Profile, count};
use agc_study_args::{ProfileArgs, RunInputs, read_machine};
use std::alloc::Global;
use std::io::Read;

/// The profile of a run, and the machine at the end of the run.
#[derive(Drop)]
pub struct Profiled {
    pub profile: Profile,
    pub machine: Machine,
}

/// Reads a rope and a script, and makes the profile of their run. Fails with the first fault, checked in this order: rope,
/// script, limit, `--until`; or if memory runs out.
pub fn profile_files<R: Read, P: Progress>(
    alloc: Global,
    args: &ProfileArgs,
    inputs: &mut RunInputs<R>,
    progress: &mut P,
) -> Result<Profiled, LoadFault>
    ensures counted { IfOk result (λ profiled. IsCounted args.now
        (R.remaining inputs.old.rope) (R.remaining inputs.old.script) profiled) }
    ensures refused { IfErr result (IsRefused args.now.options None
        (R.remaining inputs.old.rope) (R.remaining inputs.old.script)) }
{
    let mut machine = read_machine(alloc, &args.options, inputs)?;
    match count(alloc, &mut machine, args.span, progress) {
        Ok(profile) => Ok(Profiled { profile, machine }),
        Err(_) => Err(LoadFault::Memory),
    }
}
