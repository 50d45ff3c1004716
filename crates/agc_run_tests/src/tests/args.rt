//! Tests command lines: the worked ones, defaults, and the two forms of an option.
use agc_cli::{ArgsFault, Options, fault_of, parse_args};
use agc_store::RopeForm;
use clap::Command;
use std::process::Abort;

fn parsed(rt: &(impl AllocGlobal + Abort), words: &[&str]) -> Options {
    parse_args(rt.alloc(), words)
        .ok()
        .expect(rt, "a good command line")
}

/// Returns the fault of another program's command line.
fn other_fault(rt: &impl AllocGlobal, word: &str) -> Option<ArgsFault> {
    let command = Command::new(rt.alloc(), "other").about("Does nothing.");
    let error = command.try_get_matches_from(&["other", word]).err()?;
    Some(fault_of(rt.alloc(), &error))
}

/// A request for help and an error, on another program's command line.
#[test]
fn errors_of_clap(rt: HostRuntime) {
    assert!(rt; matches!(other_fault(&rt, "--help"), Some(ArgsFault::Help(_))));
    assert!(rt; matches!(other_fault(&rt, "word"), Some(ArgsFault::Command(_))));
}

#[test]
fn command_line(rt: HostRuntime) {
    let plain = parsed(&rt, &["agc", "r", "s", "--limit", "10"]);
    assert!(rt; has_defaults(&plain), "{plain:?}");

    let full = parsed(
        &rt,
        &[
            "agc",
            "--log",
            "--limit=+5",
            "--slots",
            "1",
            "r",
            "--watch=",
            "s",
            "--form",
            "parity",
            "--until",
            "0,1",
            "--live",
            "--spacing=0",
        ],
    );
    assert!(rt; has_all(&full), "{full:?}");
}

/// Returns whether the line without options has the defaults.
fn has_defaults(plain: &Options) -> bool {
    (plain.limit, plain.slots, plain.log) == (10, 256, false)
        && plain.rope.as_str() == "r"
        && plain.script.as_str() == "s"
        && plain.watch.is_none()
        && plain.until.is_none()
        && plain.form == RopeForm::Classic
        && (plain.live, plain.spacing) == (false, 8533)
}

/// Returns whether the line with all options has their values.
fn has_all(full: &Options) -> bool {
    (full.limit, full.slots, full.log) == (5, 1, true)
        && full.watch.as_ref().is_some_and(|spec| spec.as_str() == "")
        && full
            .until
            .as_ref()
            .is_some_and(|spec| spec.as_str() == "0,1")
        && full.form == RopeForm::Parity
        && (full.live, full.spacing) == (true, 0)
}
