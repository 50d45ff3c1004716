//! Runs `profile`: writes the profile of a run.
ghost use Rattle.std.specs.Prelude.{◌≡◌, ◌≢◌, IfErr, None};
ghost use Rattle.std.specs.Io.KnownBytes.{Appends, Keeps};
ghost use Rattle.agc_load.specs.declared.fault.LoadFault.{LoadFault};
ghost use Rattle.agc_run_commands.specs.Ended.{EndsWith};
ghost use Rattle.agc_study_args.specs.Started.{IsRefused};
ghost use Rattle.agc_run_commands.specs.Fault.{error_line};
ghost use Rattle.agc_run_commands.specs.declared.fault.AnalysisFault.TheVariants as analysis;

use crate::counts::{Profiled, profile_files};
use crate::fault::AnalysisFault;
use crate::inputs::read_symbols;
use crate::remarks::{RunStop, remark_on_start, stop_of};
use crate::streams::Streams;
use agc_io::{OK, ProgressLine, status_of, write_in_full};
use agc_load::LoadFault;
use agc_study_args::{ProfileArgs, RunInputs, open_run, resolve_until};
use agc_symbols::SymbolTable;
use agc_text::{ProfileForm, push_profile};
use std::alloc::{AllocError, Global};
use std::io::{Read, Write};
use std::rt::Files;

/// Profiles the run of a rope file and a script file. A remark warns if the run stops before the requested cycles. The
/// stop address may be a symbol.
pub fn run_profile<R, W: Write, E: Write, N: Write, P: ProgressLine>(
    rt: &R,
    args: &mut ProfileArgs,
    io: &mut Streams<W, E, N, P>,
) -> u8
where
    R: Files + AllocGlobal,
    ensures ended { EndsWith W.contents E.contents result io.old io.new }
    ensures faulty { result ≢ 1 }
{
    let names = match read_symbols(rt, &args.names, io) {
        Ok(names) => names,
        Err(status) => return status,
    };
    if resolve_until(rt.alloc(), &names, &mut args.options.until).is_err() {
        return AnalysisFault::Refused(LoadFault::Memory).report_to(&mut io.err);
    }
    let mut inputs = open_run(rt, &args.files);
    let form = form_of(args, names);
    let status = write_profile(rt.alloc(), args, &form, &mut inputs, io);
    inputs.remark_fault(rt.alloc(), &mut io.remarks);
    status
}

/// Returns how the profile is printed with these names.
fn form_of(args: &ProfileArgs, names: Option<SymbolTable>) -> ProfileForm {
    ProfileForm {
        layout: args.layout,
        is_whole: args.is_whole,
        names,
    }
}

/// Profiles the run of a rope and a script, and writes the result.
fn write_profile<R: Read, W: Write, E: Write, N: Write, P: ProgressLine>(
    alloc: Global,
    args: &ProfileArgs,
    form: &ProfileForm,
    inputs: &mut RunInputs<R>,
    io: &mut Streams<W, E, N, P>,
) -> u8
    ensures ended { EndsWith W.contents E.contents result io.old io.new }
    ensures no_note { result ≡ 2 → Keeps (N.contents io.old.remarks) (N.contents io.new.remarks) }
    ensures faulty { result ≢ 1 }
    ensures refused { result ≡ 2 → (r : LoadFault) × IsRefused args.now.options None
        (R.remaining inputs.old.rope) (R.remaining inputs.old.script) r
        × Appends (E.contents io.old.err) (E.contents io.new.err) (error_line (analysis.Refused r)) }
{
    let profiled = text_of_files(alloc, args, form, inputs, &mut io.progress);
    io.progress.wipe();
    match profiled {
        Ok(profiled) => {
            remark_on_start(profiled.stop, args.span.from, &mut io.remarks);
            status_of(OK, write_in_full(&mut io.out, profiled.text.as_bytes()))
        }
        Err(refusal) => AnalysisFault::Refused(refusal).report_to(&mut io.err),
    }
}

/// A profile as text.
#[derive(Drop)]
struct ProfileText {
    text: String,
    /// The stop of the run, if it came to one.
    stop: Option<RunStop>,
}

/// Returns the profile of two files as text. Fails with the first fault of the files, or if memory runs out.
#[tactic(auto, using(agc_study_args::proofs::Starts::memory_refused))]
fn text_of_files<R: Read, P: ProgressLine>(
    alloc: Global,
    args: &ProfileArgs,
    form: &ProfileForm,
    inputs: &mut RunInputs<R>,
    progress: &mut P,
) -> Result<ProfileText, LoadFault>
    ensures refused { IfErr result (IsRefused args.now.options None
        (R.remaining inputs.old.rope) (R.remaining inputs.old.script)) }
{
    match profile_files(alloc, args, inputs, progress) {
        Ok(profiled) => match text_of(alloc, form, &profiled) {
            Ok(text) => Ok(ProfileText {
                text,
                stop: stop_of(&profiled.machine),
            }),
            Err(_) => Err(LoadFault::Memory),
        },
        Err(fault) => Err(fault),
    }
}

/// Returns a profile as text. Fails if memory runs out.
fn text_of(alloc: Global, form: &ProfileForm, profiled: &Profiled) -> Result<String, AllocError> {
    let mut text = String::new(alloc);
    push_profile(&mut text, form, &profiled.profile, profiled.machine.store())?;
    Ok(text)
}
