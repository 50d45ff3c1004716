//! Reads the values of parameters from clap's matches.
ghost use Rattle.std.specs.Prelude.{◌≡◌, [], IfOk, option_and_then, option_map, string_bytes};
ghost use Rattle.std.specs.Prelude.{codes, unwrap_or};
ghost use Rattle.clap.specs.Words.{first_of, found_of, one_of, rows_of};
ghost use Rattle.agc_cli.specs.Values.{form_named, number_written, text_given};
ghost use Rattle.agc_store.specs.declared.rope_file.RopeForm.TheVariants as form;

use agc_store::RopeForm;
use clap::ArgMatches;
use std::alloc::{AllocError, Global};

/// Returns the path of a file argument, empty if it is missing.
pub fn path_of(alloc: Global, matches: &ArgMatches<'_>, id: &str) -> Result<String, AllocError>
    ensures { IfOk result
        (λ path. string_bytes path
        ≡ unwrap_or (first_of id.now (rows_of (found_of matches.now))) []) }
{
    match matches.get_str(id) {
        Some(path) => String::from_str(alloc, path),
        None => Ok(String::new(alloc)),
    }
}

/// Returns the text of an argument or option, if it is present.
pub fn text_of(
    alloc: Global,
    matches: &ArgMatches<'_>,
    id: &str,
) -> Result<Option<String>, AllocError>
    ensures { IfOk result
        (λ text. text_given text ≡ first_of id.now (rows_of (found_of matches.now))) }
{
    match matches.get_str(id) {
        Some(text) => Ok(Some(String::from_str(alloc, text)?)),
        None => Ok(None),
    }
}

/// Returns the number of an option, or `otherwise` if it is missing.
pub fn number_of(matches: &ArgMatches<'_>, id: &str, otherwise: u64) -> u64
    ensures { result ≡ unwrap_or
        (option_and_then number_written (one_of id.now (rows_of (found_of matches.now)))) otherwise }
{
    matches.get_one::<u64>(id).unwrap_or(otherwise)
}

/// Returns the rope form of the option `form`; the default is classic.
pub fn form_of(matches: &ArgMatches<'_>) -> RopeForm
    ensures { result ≡ unwrap_or
        (option_map form_named
        (first_of (codes "form") (rows_of (found_of matches.now)))) form.Classic }
{
    match matches.get_str("form") {
        Some(name) => form_named(name),
        None => RopeForm::Classic,
    }
}

fn form_named(name: &str) -> RopeForm
    ensures { result ≡ form_named name.now }
{
    if name == "parity" {
        RopeForm::Parity
    } else {
        RopeForm::Classic
    }
}
