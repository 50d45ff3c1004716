//! Parses the arguments of `sample`.
use crate::runs::{files_of, options_of};
use crate::values::{mistake, span_of};
use agc_cli::{ArgsFault, path_of, text_of};
use agc_study_args::{Args, SampleArgs, SampleTimes};
use clap::ArgMatches;
use std::alloc::Global;

/// Parses the arguments of `sample`.
pub(crate) fn sample_args(alloc: Global, given: &ArgMatches<'_>) -> Result<Args, ArgsFault> {
    Ok(Args::Sample(SampleArgs {
        files: files_of(alloc, given)?,
        options: options_of(alloc, given)?,
        quantities: path_of(alloc, given, "quantities")?,
        times: times_of(alloc, given)?,
        span: span_of(alloc, given)?,
        names: text_of(alloc, given, "names")?,
        shows_minus_zero: given.get_flag("zeros"),
    }))
}

/// Parses which states are printed.
fn times_of(alloc: Global, given: &ArgMatches<'_>) -> Result<SampleTimes, ArgsFault> {
    let at = text_of(alloc, given, "at")?;
    match (given.get_one::<u64>("every"), at, given.get_flag("changes")) {
        (Some(0), None, false) => Err(mistake(alloc, "error: --every is 1 cycle or more\n")),
        (Some(period), None, false) => Ok(SampleTimes::Every(period)),
        (None, Some(places), false) => Ok(SampleTimes::At(places)),
        (None, None, true) => Ok(SampleTimes::Changes),
        _ => Err(mistake(
            alloc,
            "error: sample takes one of --every CYCLES, --at PLACES and --changes\n",
        )),
    }
}
