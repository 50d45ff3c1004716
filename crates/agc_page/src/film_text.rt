//! Prints the page of a film: a constant text with the runs in it as blocks of plain lines.
use crate::frame_lines::push_frames;
use crate::page::{HEAD, TABLES, TAIL};
use crate::title::push_title;
use agc_load::RunFiles;
use agc_machine::Stop;
use agc_script::{Event, What};
use agc_timeline::{Recording, first_difference};
use std::alloc::AllocError;

/// Adds the page of one run, with the names of its files, its limit, and, if they are watched, its tables beside the
/// DSKY. Fails if memory runs out.
pub fn push_film(
    text: &mut String,
    limit: u64,
    files: &RunFiles,
    recording: &Recording,
) -> Result<(), AllocError> {
    text.push_str(HEAD)?;
    push_run(text, "left", limit, files, recording)?;
    push_tail(text, &recording.tables, &None)
}

/// Adds the page of two runs side by side, with the names of their files, their limit, the cycle at which their
/// panels first differ, and, if they are watched, the tables of each beside its DSKY. Fails if memory runs out.
pub fn push_film_pair(
    text: &mut String,
    limit: u64,
    left_files: &RunFiles,
    left: &Recording,
    right_files: &RunFiles,
    right: &Recording,
) -> Result<(), AllocError> {
    text.push_str(HEAD)?;
    push_run(text, "left", limit, left_files, left)?;
    push_run(text, "right", limit, right_files, right)?;
    push_parting(
        text,
        first_difference(left.frames.as_slice(), right.frames.as_slice()),
    )?;
    push_tail(text, &left.tables, &right.tables)
}

/// Adds a run as blocks under a name.
fn push_run(
    text: &mut String,
    name: &str,
    limit: u64,
    files: &RunFiles,
    recording: &Recording,
) -> Result<(), AllocError> {
    writeln!(text, "<script type=\"text/plain\" id=\"{name}\">")?;
    push_title(text, files, limit)?;
    let from = recording.from;
    writeln!(text, "from {from}")?;
    push_frames(text, name, recording.frames.as_slice())?;
    for press in recording.presses.as_slice() {
        push_press(text, *press)?;
    }
    push_end(text, recording.cycle, recording.stop)?;
    text.push_str("</script>\n")
}

/// Adds a key: its name as scripts write it, `PRO` or `PRO up`.
fn push_press(text: &mut String, press: Event) -> Result<(), AllocError> {
    let name = match press.what {
        What::Key(key) => key.name(),
        What::Pro(true) => "PRO",
        What::Pro(false) => "PRO up",
        What::Input { .. } | What::Pulse { .. } | What::Raise(_) | What::Poke { .. } => "",
    };
    let cycle = press.cycle;
    writeln!(text, "key {cycle} {name}")
}

/// Adds an end: the stop, or that the run continues.
pub(crate) fn push_end(
    text: &mut String,
    cycle: u64,
    stop: Option<Stop>,
) -> Result<(), AllocError> {
    match stop {
        Some(why) => {
            let reason = why.name();
            writeln!(text, "stop {cycle} {reason}")
        }
        None => writeln!(text, "to {cycle}"),
    }
}

/// Adds the cycle at which two films diverge, or `never`, as a block.
fn push_parting(text: &mut String, divergence: Option<u64>) -> Result<(), AllocError> {
    text.push_str("<script type=\"text/plain\" id=\"parting\">")?;
    match divergence {
        Some(cycle) => write!(text, "{cycle}")?,
        None => text.push_str("never")?,
    }
    text.push_str("</script>\n")
}

/// Adds what follows the runs: the lines of the tables of each run that has some, the script that shows them if any
/// run has, and the end of the page.
fn push_tail(
    text: &mut String,
    left: &Option<String>,
    right: &Option<String>,
) -> Result<(), AllocError> {
    push_tables(text, "left", left)?;
    push_tables(text, "right", right)?;
    if left.is_some() || right.is_some() {
        text.push_str(TABLES)?;
    }
    text.push_str(TAIL)
}

/// Adds the lines of a run's tables as a block, if it has some.
fn push_tables(text: &mut String, name: &str, tables: &Option<String>) -> Result<(), AllocError> {
    let Some(lines) = tables else {
        return Ok(());
    };
    writeln!(text, "<script type=\"text/plain\" id=\"{name}-tables\">")?;
    text.push_str(lines.as_str())?;
    text.push_str("</script>\n")
}
