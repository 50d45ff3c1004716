//! Parses the arguments of `profile`.
use crate::runs::{files_of, options_of};
use crate::values::span_of;
use agc_cli::{ArgsFault, text_of};
use agc_study_args::{Args, ProfileArgs};
use agc_trace::Layout;
use clap::ArgMatches;
use std::alloc::Global;

/// Parses the arguments of `profile`.
pub(crate) fn profile_args(alloc: Global, given: &ArgMatches<'_>) -> Result<Args, ArgsFault> {
    Ok(Args::Profile(ProfileArgs {
        files: files_of(alloc, given)?,
        options: options_of(alloc, given)?,
        span: span_of(alloc, given)?,
        layout: if given.get_flag("csv") {
            Layout::Csv
        } else {
            Layout::Columns
        },
        is_whole: given.get_flag("whole"),
        names: text_of(alloc, given, "names")?,
    }))
}
