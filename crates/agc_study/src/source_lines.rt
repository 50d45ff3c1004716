//! Reads the listings of `--listing`, and compares them with the ropes that run.
use agc_cli::ArgsFault;
use agc_io::{ROPE_BYTES, TEXT_BYTES};
use agc_load::RunFiles;
use agc_sources::{PrintedLine, SourceLines, read_source_lines};
use agc_store::RopeForm;
use agc_study_args::{Args, RunOptions, open_file};
use std::io::Write;
use std::rt::Files;

/// The source lines to print, and the form of the lines beside them.
#[derive(Drop)]
pub(crate) struct Sources {
    pub(crate) form: PrintedLine,
    pub(crate) first: SourceLines,
    /// Those of the second run, if it has its own.
    pub(crate) second: Option<SourceLines>,
}

/// A run whose lines are printed: its rope, its form and its listing.
#[derive(Clone, Copy)]
struct Listed<'a> {
    rope: &'a String,
    form: RopeForm,
    listing: &'a String,
}

/// Reads the listings of a command, if it has any. If one is at fault, writes why to `err` and returns `Err`.
pub(crate) fn sources_of<R, E: Write>(
    rt: &R,
    args: &Result<Args, ArgsFault>,
    err: &mut E,
) -> Result<Option<Sources>, ()>
where
    R: Files + AllocGlobal,
{
    match args {
        Ok(Args::Trace(args)) => {
            sources_of_run(rt, PrintedLine::Trace, &args.files, &args.options, err)
        }
        Ok(Args::Operations(args)) => {
            sources_of_run(rt, PrintedLine::Trace, &args.files, &args.options, err)
        }
        Ok(Args::Profile(args)) => {
            sources_of_run(rt, PrintedLine::Profile, &args.files, &args.options, err)
        }
        Ok(Args::Jobs(args)) => {
            sources_of_run(rt, PrintedLine::Jobs, &args.files, &args.options, err)
        }
        Ok(Args::Compare(args)) => {
            let found = sources_of_run(rt, PrintedLine::Compare, &args.files, &args.options, err)?;
            let Some(found) = found else {
                return Ok(None);
            };
            let second = match args.options.listings.get(1) {
                Some(listing) => Some(lines_of(
                    rt,
                    Listed {
                        rope: &args.other.rope,
                        form: args.other_form,
                        listing,
                    },
                    err,
                )?),
                None => None,
            };
            Ok(Some(Sources { second, ..found }))
        }
        _ => Ok(None),
    }
}

/// Reads the first listing of a run, if it has one.
fn sources_of_run<R, E: Write>(
    rt: &R,
    form: PrintedLine,
    files: &RunFiles,
    options: &RunOptions,
    err: &mut E,
) -> Result<Option<Sources>, ()>
where
    R: Files + AllocGlobal,
{
    let Some(listing) = options.listings.first() else {
        return Ok(None);
    };
    let listed = Listed {
        rope: &files.rope,
        form: options.form,
        listing,
    };
    Ok(Some(Sources {
        form,
        first: lines_of(rt, listed, err)?,
        second: None,
    }))
}

/// Reads a listing, and refuses one that is not of the rope.
fn lines_of<R, E: Write>(rt: &R, listed: Listed<'_>, err: &mut E) -> Result<SourceLines, ()>
where
    R: Files + AllocGlobal,
{
    let mut listing = open_file(rt, listed.listing, TEXT_BYTES);
    let mut rope = open_file(rt, listed.rope, ROPE_BYTES);
    match read_source_lines(rt.alloc(), &mut listing, listed.form, &mut rope) {
        Ok(lines) => Ok(lines),
        Err(fault) => {
            let _written = writeln!(err, "agc-study: {fault}");
            listing.remark_fault(rt.alloc(), err);
            Err(())
        }
    }
}
