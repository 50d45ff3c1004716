//! Runs the parsed command: writes the result to standard output, or one line to standard error.
ghost use Rattle.std.specs.Prelude.{◌≡◌, ◌<◌, IfErr, Ok, codes};
ghost use Rattle.std.specs.Io.KnownBytes.{Keeps};
ghost use Rattle.agc_cli.specs.Exit.{ExitsWithUsage};
ghost use Rattle.agc_run_commands.specs.Ended.{EndsWith, LooksForFaults};

use crate::cmd_list::run_list;
use crate::cmd_operations::run_operations;
use crate::cmd_sample::run_sample;
use crate::cmd_weave::run_weave;
use crate::cmd_words::run_words;
use agc_cli::{ArgsFault, exit_usage};
use agc_io::ProgressLine;
use agc_rope_commands::{run_check, run_convert, run_merge, run_patch, run_repair, run_sums};
use agc_run_commands::{
    FAULTY, Streams, run_compare, run_downlink, run_film, run_jobs, run_profile, run_trace,
    run_uplink,
};
use agc_study_args::{Args, NAME};
use std::io::Write;
use std::rt::Files;

/// Returns the last cycle that the command can reach; 0 if it runs no machine.
pub fn last_cycle(args: &Result<Args, ArgsFault>) -> u64 {
    match args {
        Ok(Args::Trace(args)) => args.options.limit.min(args.selection.to),
        Ok(Args::Operations(args)) => args.options.limit.min(args.span.to),
        Ok(Args::Profile(args)) => args.options.limit.min(args.span.to),
        Ok(Args::Jobs(args)) => args.options.limit.min(args.span.to),
        Ok(Args::Sample(args)) => args.options.limit.min(args.span.to),
        Ok(Args::Compare(args)) => args.options.limit,
        Ok(Args::Film(args)) => args.options.limit.min(args.part.to),
        Ok(
            Args::List(_)
            | Args::Downlink(_)
            | Args::Uplink(_)
            | Args::Weave(_)
            | Args::Check(_)
            | Args::Convert(_)
            | Args::Repair(_)
            | Args::Patch(_)
            | Args::Sums(_)
            | Args::Merge(_)
            | Args::Words(_),
        )
        | Err(_) => 0,
    }
}

/// Runs the command and returns the exit status. Status 0: the result, or the help text, is on `io.out`, and nothing is
/// on `io.err`. Status 1: the same, with the report of `check` on a faulty file, or of `compare` on runs that differ.
/// Status 2: one line, or clap's error text, is on `io.err`, and nothing is on `io.out`. Status 3: a write failed, or a
/// trace, the tables or the rows of `sample` or `downlink` were cut off. `io.progress` is wiped before the end of the run is reported. `io.remarks` gets a
/// line beside the result: why a file cannot be read, that a mnemonic of a listing does not match its word, that a
/// source puts cells over others or over registers, that the run stopped before the range, or that a film is long.
/// Nothing is opened or remarked if the command line has a mistake.
pub fn answer<R, W: Write, E: Write, N: Write, P: ProgressLine>(
    rt: &R,
    args: Result<Args, ArgsFault>,
    io: &mut Streams<W, E, N, P>,
) -> u8
where
    R: Files + AllocGlobal,
    ensures status { result < 4 }
    ensures faulty { result ≡ 1 → LooksForFaults args }
    ensures stderr_unchanged { result < 2 → Keeps (E.contents io.old.err) (E.contents io.new.err) }
    ensures stdout_unchanged { result ≡ 2 → Keeps (W.contents io.old.out) (W.contents io.new.out) }
    ensures usage { IfErr args
        (λ fault. ExitsWithUsage (codes "agc-study") 2 fault result
        (W.contents io.old.out) (W.contents io.new.out)
        (E.contents io.old.err) (E.contents io.new.err)) }
    ensures no_note { IfErr args
        (λ _. Keeps (N.contents io.old.remarks) (N.contents io.new.remarks)) }
{
    match args {
        Ok(mut args) => {
            let status = run(rt, &mut args, io);
            drop(args);
            status
        }
        Err(fault) => exit_usage(NAME, fault, FAULTY, &mut io.out, &mut io.err),
    }
}

/// Runs a subcommand. `trace`, `compare` and `film` resolve symbols to locations.
fn run<R, W: Write, E: Write, N: Write, P: ProgressLine>(
    rt: &R,
    args: &mut Args,
    io: &mut Streams<W, E, N, P>,
) -> u8
where
    R: Files + AllocGlobal,
    ensures ended { EndsWith W.contents E.contents result io.old io.new }
    ensures faulty { result ≡ 1 → LooksForFaults (Ok args.old) }
{
    match args {
        Args::List(args) => run_list(rt, args, io),
        Args::Weave(args) => run_weave(rt, args, io),
        Args::Check(args) => run_check(rt, args, io),
        Args::Trace(args) => run_trace(rt, args, io),
        Args::Operations(args) => run_operations(rt, args, io),
        Args::Profile(args) => run_profile(rt, args, io),
        Args::Jobs(args) => run_jobs(rt, args, io),
        Args::Sample(args) => run_sample(rt, args, io),
        Args::Downlink(args) => run_downlink(rt, args, io),
        Args::Uplink(args) => run_uplink(rt.alloc(), args, io),
        Args::Compare(args) => run_compare(rt, args, io),
        Args::Film(args) => run_film(rt, args, io),
        Args::Convert(args) => run_convert(rt, args, io),
        Args::Repair(args) => run_repair(rt, args, io),
        Args::Patch(args) => run_patch(rt, args, io),
        Args::Sums(args) => run_sums(rt, args, io),
        Args::Merge(args) => run_merge(rt, args, io),
        Args::Words(args) => run_words(rt, args, io),
    }
}
