//! Reads ropes and scripts, and makes the page that shows their runs.
ghost use Rattle.std.specs.Prelude.{◌≡◌, IfErr, IfOk, Option};
ghost use Rattle.std.specs.declared.alloc.Global.{Global};
ghost use Rattle.std.specs.declared.string.String.{String};
ghost use Rattle.agc_timeline.specs.Recording.{IsRecordingOf};
ghost use Rattle.agc_run_commands.specs.Filmed.{IsFilmPairRefused, IsFilmRefused, IsFilmed, ShowsTables};
ghost use Rattle.agc_study_args.specs.Started.{AreWatched};
ghost use Rattle.agc_load.specs.declared.fault.LoadFault.TheVariants as refusal;

use crate::fault::AnalysisFault;
use agc_io::Progress;
use agc_load::{LoadFault, RunFiles};
use agc_page::{push_film, push_film_pair};
use agc_study_args::{FilmArgs, RunInputs, Start, read_start};
use agc_timeline::{Recording, film, film_watched};
use agc_trace::Span;
use std::alloc::Global;
use std::io::Read;

/// A page for a browser.
#[derive(Debug, Drop)]
pub struct FilmPage {
    pub text: String,
    /// The number of frames.
    pub frames: usize,
}

/// Reads a rope and a script, and makes the page that shows their run. Fails with the first fault, checked in this
/// order: rope, script, limit, `--watch`, `--until`, addresses of the tables; or if memory runs out.
pub fn film_files<R: Read, P: Progress>(
    alloc: Global,
    args: &FilmArgs,
    inputs: &mut RunInputs<R>,
    progress: &mut P,
) -> Result<FilmPage, LoadFault>
    ensures { IfErr result (IsFilmRefused args.now
        (R.remaining inputs.old.rope) (R.remaining inputs.old.script)) }
{
    let recording = record_run(alloc, args, inputs, progress)?;
    let frames = recording.frames.len();
    let mut text = String::new(alloc);
    push_film(&mut text, args.options.limit, &args.files, &recording)?;
    Ok(FilmPage { text, frames })
}

/// Reads two ropes and two scripts, and makes the page that shows their runs side by side, the right one under the
/// names of other files. Fails with the fault of the left run, or, if it has none, with that of the right run,
/// reported as the other run's.
pub fn film_file_pairs<R: Read, P: Progress>(
    alloc: Global,
    args: &FilmArgs,
    other: &RunFiles,
    left: &mut RunInputs<R>,
    right: &mut RunInputs<R>,
    progress: &mut P,
) -> Result<FilmPage, AnalysisFault>
    ensures { IfErr result (IsFilmPairRefused args.now
        (R.remaining left.old.rope) (R.remaining left.old.script)
        (R.remaining right.old.rope) (R.remaining right.old.script)) }
{
    let left = record_run(alloc, args, left, progress)?;
    let right = match record_run(alloc, args, right, progress) {
        Ok(recording) => recording,
        Err(refusal) => return Err(AnalysisFault::of_other_run(refusal)),
    };
    let frames = left.frames.len().saturating_add(right.frames.len());
    let (mut text, limit) = (String::new(alloc), args.options.limit);
    match push_film_pair(&mut text, limit, &args.files, &left, other, &right) {
        Ok(()) => Ok(FilmPage { text, frames }),
        Err(_) => Err(AnalysisFault::Refused(LoadFault::Memory)),
    }
}

/// Reads a rope and a script, and records their run, with the tables if they are watched. Fails with the first fault, in
/// the order of `film_files`; or if memory runs out.
pub fn record_run<R: Read, P: Progress>(
    alloc: Global,
    args: &FilmArgs,
    inputs: &mut RunInputs<R>,
    progress: &mut P,
) -> Result<Recording, LoadFault>
    ensures filmed { IfOk result (IsFilmed args.now
        (R.remaining inputs.old.rope) (R.remaining inputs.old.script)) }
    ensures refused { IfErr result (IsFilmRefused args.now
        (R.remaining inputs.old.rope) (R.remaining inputs.old.script)) }
{
    let watch = args.watch.as_ref();
    let mut start = read_start(alloc, &args.options, watch, inputs)?;
    film_start(alloc, args.part, &mut start, progress)
}

/// Records a part of a machine's run, with the tables if they are watched.
fn film_start<P: Progress>(
    alloc: Global,
    part: Span,
    start: &mut Start,
    progress: &mut P,
) -> Result<Recording, LoadFault>
    ensures recording { IfOk result (IsRecordingOf part start.old.machine) }
    ensures tables { IfOk result (λ recording. (watch : Option (String Global)) → AreWatched watch start.old.tables
        → ShowsTables watch part start.old.machine recording.tables) }
    ensures refused { IfErr result (λ r. r ≡ refusal.Memory) }
{
    let Start { machine, tables } = start;
    let recording = match tables {
        Some(spec) => film_watched(alloc, machine, part, spec, progress),
        None => film(alloc, machine, part, progress),
    };
    Ok(recording?)
}
