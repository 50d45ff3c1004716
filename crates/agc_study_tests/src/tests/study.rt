//! Tests the faults of files and of traces that no run shows, and the last cycle of a command line. `tests/study` compares
//! what the program prints.
use super::{between, machine_of, parsed, same};
use agc_analysis::{TraceError, last_cycle, status_of_trace_error};
use agc_io::NoProgress;
use agc_load::LoadFault;
use agc_study_args::ReadFile;
use agc_test_support::IDLE;
use agc_trace::{LineForm, TraceFault, trace};
use std::io::{self, ErrorKind, Read, Write};
use std::process::Abort;

/// Returns the remark on a file of six bytes that may have this many, after it was read in part and then to its end.
fn remark_on(rt: &(impl AllocGlobal + Abort), limit: usize, opened: io::Result<&[u8]>) -> String {
    let mut file = ReadFile::new("the file", limit, opened);
    let mut bytes = [0; 4];
    for _ in 0..3 {
        let _count = file.read(&mut bytes);
    }
    let mut remarks = Vec::new(rt.alloc());
    file.remark_fault(rt.alloc(), &mut remarks);
    String::from_utf8(remarks).ok().expect(rt, "text")
}

/// A file that has as many bytes as it may have, one that is too long, and one that could not be opened.
#[test]
fn a_file_keeps_its_fault(rt: HostRuntime) {
    let bytes: &[u8] = b"012345";
    let denied = io::Error::from(ErrorKind::PermissionDenied);
    for (limit, opened, remark) in [
        (6, Ok(bytes), ""),
        (5, Ok(bytes), "agc-study: the file: file too large\n"),
        (6, Err(denied), "agc-study: the file: permission denied\n"),
    ] {
        let reported = remark_on(&rt, limit, opened);
        same(&rt, reported.as_str(), remark, remark);
    }
}

/// Returns the last cycle that a command line needs.
fn last_of(rt: &(impl AllocGlobal + Abort), line: &str) -> u64 {
    let args = parsed(rt, line);
    last_cycle(&args)
}

/// Progress is relative to the cycle after which nothing is printed.
#[test]
fn last_cycles(rt: HostRuntime) {
    for (line, last) in [
        ("agc-study trace rope script --limit 10", 10),
        ("agc-study trace rope script --limit 10 --from 3 --to 7", 7),
        (
            "agc-study trace rope script --limit 10 --from 3 --to 70",
            10,
        ),
        ("agc-study compare rope script rope script --limit 10", 10),
        (
            "agc-study jobs rope script --limit 10 --watch 0,0,0,0,0,0,0 --to 7",
            7,
        ),
        ("agc-study film rope script --limit 10", 10),
        ("agc-study film rope script --limit 10 --to 7", 7),
        ("agc-study list rope", 0),
        ("agc-study", 0),
    ] {
        same(&rt, last_of(&rt, line), last, line);
    }
}

/// A stream that accepts nothing.
#[derive(Drop)]
struct Full;

impl Write for Full {
    fn write(&mut self, _buf: &[u8]) -> io::Result<usize> {
        Err(io::Error::from(ErrorKind::StorageFull))
    }

    fn flush(&mut self) -> io::Result<()> {
        Ok(())
    }
}

/// Checks the error line and the status of an incomplete trace.
fn is_reported(rt: &(impl AllocGlobal + Abort), error: TraceError, status: u8, reported: &str) {
    let mut err = Vec::new(rt.alloc());
    same(rt, status_of_trace_error(error, &mut err), status, reported);
    same(rt, err.as_slice(), reported.as_bytes(), reported);
}

/// The error line and the status of an incomplete trace.
#[test]
fn traces_end(rt: HostRuntime) {
    for (error, status, reported) in [
        (
            TraceError::Refused(LoadFault::BadUntilSpec),
            2,
            "agc-study: until: BadSpec; --until is BANK,ADDR in octal, or a name of --names\n",
        ),
        (
            TraceError::Refused(LoadFault::Memory),
            2,
            "agc-study: memory\n",
        ),
        (TraceError::Cut(TraceFault::Write), 3, ""),
        (
            TraceError::Cut(TraceFault::Memory),
            3,
            "agc-study: memory\n",
        ),
    ] {
        is_reported(&rt, error, status, reported);
        same(&rt, status_of_trace_error(error, &mut Full), 3, reported);
    }
}

/// A trace that cannot be written.
#[test]
fn a_trace_fails(rt: HostRuntime) {
    let mut machine = machine_of(&rt, IDLE, "", 6);
    let form = LineForm::new(rt.alloc(), None, None);
    let traced = trace(
        rt.alloc(),
        &mut machine,
        &between(&rt, 0, 6, None),
        &form,
        &mut Full,
        &mut NoProgress,
    );
    same(&rt, traced.err(), Some(TraceFault::Write), "fault");
}
