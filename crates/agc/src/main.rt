//! `agc`: runs a rope and a script on an emulated Block II computer, and prints what its display
//! shows at the end.
#![tactic(auto)]

ghost use Rattle.std.specs.Prelude.{◌≡◌, ◌⊎◌, IfOk, IfErr, codes};
ghost use Rattle.std.specs.Io.KnownBytes.{Appends, Keeps};
ghost use Rattle.agc_load.specs.Fault.{refusal_line};
ghost use Rattle.agc_load.specs.declared.fault.LoadFault.{LoadFault};
ghost use Rattle.agc_cli.specs.Exit.{ExitsWithUsage};

use agc_cli::{ArgsFault, Options, exit_usage, parse_env};
use agc_io::{InputFile, REFUSED, Ticker, hold_closed_streams};
use agc_ring::Gate;
use agc_run::{ProgressGate, session};
use std::fs;
use std::io::{IsTerminal, Read, Write};
use std::process::ExitCode;
use std::rt::Files;
use std::sync::Wait;
use std::thread::Threads;

fn main(rt: HostRuntime) -> ExitCode {
    let _stand_ins = hold_closed_streams(&rt);
    let (mut keys, mut out, mut err) = (rt.stdin(), rt.stdout(), rt.stderr());
    let requested = parse_env(&rt);
    let ticker = Ticker::new(&rt, rt.stderr(), "agc", limit_of(&requested));
    let gate = ProgressGate::new(ticker, rt.stderr().is_terminal());
    ExitCode::from(run(&rt, requested, &mut keys, &mut out, &mut err, &gate))
}

/// Returns the cycle at which the run ends at the latest; 0 if there is no run.
fn limit_of(requested: &Result<Options, ArgsFault>) -> u64 {
    match requested {
        Ok(options) => options.limit,
        Err(_) => 0,
    }
}

/// Runs what the command line requests: a run over the two files, with the keys of `keys` if it is
/// live. Without a run, help text goes to `out` with status 0, a mistake to `err` with status 2,
/// and out of memory to `err` with status 1. Returns 3 if a write fails. Both threads of the run
/// call the gate.
fn run<R, K: Read, W: Write, E: Write, G: Gate + Sync>(
    rt: &R,
    requested: Result<Options, ArgsFault>,
    keys: &mut K,
    out: &mut W,
    err: &mut E,
    gate: &G,
) -> u8
where
    R: Files + AllocGlobal + Threads + Wait + Sync,
    ensures session { IfOk requested (λ _. (result ≡ 0) ⊎ ((result ≡ 1) ⊎ (result ≡ 3))) }
    ensures stderr_unchanged { IfOk requested
        (λ _. result ≡ 0 → Keeps (E.contents err.old) (E.contents err.new)) }
    ensures refused { IfOk requested
        (λ _. result ≡ 1 → (r : LoadFault)
        × Appends (E.contents err.old) (E.contents err.new) (refusal_line r)) }
    ensures stdout_unchanged { IfOk requested
        (λ _. result ≡ 1 → Keeps (W.contents out.old) (W.contents out.new)) }
    ensures reported { IfErr requested
        (λ fault. ExitsWithUsage (codes "agc") 1 fault result (W.contents out.old) (W.contents out.new)
        (E.contents err.old) (E.contents err.new)) }
{
    match requested {
        Ok(options) => {
            let mut rope = InputFile::new(fs::open(rt, options.rope.as_str()));
            let mut script = InputFile::new(fs::open(rt, options.script.as_str()));
            session(
                rt,
                rt.alloc(),
                &options,
                &mut rope,
                &mut script,
                keys,
                gate,
                out,
                err,
            )
        }
        Err(fault) => exit_usage("agc", fault, REFUSED, out, err),
    }
}
