//! Parses the arguments of `jobs`.
use crate::runs::{files_of, options_of};
use crate::values::{mistake, span_of, texts_of};
use agc_cli::{ArgsFault, path_of, text_of};
use agc_study_args::{Args, JobsArgs, MOST_MARKS};
use clap::ArgMatches;
use std::alloc::Global;

/// Parses the arguments of `jobs`.
pub(crate) fn jobs_args(alloc: Global, given: &ArgMatches<'_>) -> Result<Args, ArgsFault> {
    Ok(Args::Jobs(JobsArgs {
        files: files_of(alloc, given)?,
        options: options_of(alloc, given)?,
        watch: path_of(alloc, given, "watch")?,
        span: span_of(alloc, given)?,
        names: text_of(alloc, given, "names")?,
        timeline: text_of(alloc, given, "timeline")?,
        marks: marks_of(alloc, given)?,
    }))
}

/// Returns the values of `--mark`, which are resolved later, with the symbol file.
fn marks_of(alloc: Global, given: &ArgMatches<'_>) -> Result<Vec<String>, ArgsFault> {
    let marks = texts_of(alloc, given, "mark")?;
    if MOST_MARKS < marks.len() {
        return Err(mistake(alloc, "error: --mark may stand 8 times at most\n"));
    }
    Ok(marks)
}
