//! Parses the arguments that the subcommands share: the files of a run, and where it ends.
use crate::values::texts_of;
use agc_cli::{form_of, number_of, path_of, text_of};
use agc_load::RunFiles;
use agc_store::RopeForm;
use agc_study_args::RunOptions;
use clap::ArgMatches;
use std::alloc::{AllocError, Global};

/// Parses how a run begins and where it stops.
pub(crate) fn options_of(alloc: Global, given: &ArgMatches<'_>) -> Result<RunOptions, AllocError> {
    Ok(RunOptions {
        form: form_of(given),
        ignores_parity: given.get_flag("ignore-parity"),
        limit: number_of(given, "limit", 0),
        until: text_of(alloc, given, "until")?,
        listings: texts_of(alloc, given, "listing")?,
    })
}

/// Parses the form of the right rope: that of the left one if it has none of its own.
pub(crate) fn other_form_of(given: &ArgMatches<'_>) -> RopeForm {
    match given.get_str("form-b") {
        Some("parity") => RopeForm::Parity,
        Some(_) => RopeForm::Classic,
        None => form_of(given),
    }
}

/// Parses the files of a run; if there are two, of the left one.
pub(crate) fn files_of(alloc: Global, given: &ArgMatches<'_>) -> Result<RunFiles, AllocError> {
    Ok(RunFiles {
        rope: path_of(alloc, given, "rope")?,
        script: path_of(alloc, given, "script")?,
    })
}

/// Parses the files of the right run.
pub(crate) fn other_files_of(
    alloc: Global,
    given: &ArgMatches<'_>,
) -> Result<RunFiles, AllocError> {
    Ok(RunFiles {
        rope: path_of(alloc, given, "other-rope")?,
        script: path_of(alloc, given, "other-script")?,
    })
}
