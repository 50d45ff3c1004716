//! Formats the page that shows who had the processor: a constant text with the lines of a part of a run in it.
use crate::film_text::push_end;
use crate::jobs_record::{JobsRecord, Mark, SLICE};
use crate::page::{JOBS_HEAD, JOBS_TAIL};
use crate::title::{push_lines_of_names, push_title};
use agc_io::{Progress, report_at};
use agc_load::RunFiles;
use agc_machine::{Machine, Stepped};
use agc_panel::{CheckedSpec, Panel};
use agc_symbols::SymbolTable;
use agc_trace::{Span, next_entry};
use std::alloc::{AllocError, Global};

/// What the page shows of a run.
#[derive(Clone, Copy)]
pub struct JobsPlan<'a> {
    pub files: &'a RunFiles,
    pub limit: u64,
    pub span: Span,
    pub marks: &'a [Mark],
}

/// Runs a machine past a part of its run, or to its stop before that, and returns the page with the tables at the
/// places in `spec`, the interrupts, the marked orders, the alarms, and the cycles that counters took. Fails if memory
/// runs out.
pub fn jobs_page<P: Progress>(
    alloc: Global,
    plan: JobsPlan<'_>,
    names: &Option<SymbolTable>,
    machine: &mut Machine,
    spec: &CheckedSpec,
    progress: &mut P,
) -> Result<String, AllocError> {
    let text = begin_page(alloc, plan)?;
    let panel = go_to_span(machine, plan.span, progress);
    let mut record = JobsRecord::begin(alloc, text, machine, panel)?;
    let mut mark = 0;
    for _boundary in 0..u64::MAX {
        if plan.span.to < machine.cycle() {
            break;
        }
        record.look(alloc, names, machine, spec)?;
        if machine.stopped().is_some() {
            break;
        }
        let entry = next_entry(machine);
        record.take(&entry, machine, plan.marks)?;
        mark = report_at(mark, machine.cycle(), progress);
    }
    end_page(record, plan.span, machine)
}

/// Runs a machine to the first cycle of a span, or to its stop if that comes first, and returns the panel there.
fn go_to_span<P: Progress>(machine: &mut Machine, span: Span, progress: &mut P) -> Panel {
    let mut panel = Panel::new();
    let mut mark = 0;
    for _stage in 0..u64::MAX {
        if span.from <= machine.cycle() {
            break;
        }
        mark = report_at(mark, machine.cycle(), progress);
        match machine.next_write_before(span.from.min(mark)) {
            Stepped::Quiet => {}
            Stepped::Wrote(write) => panel.take(&write),
            Stepped::Stopped(_) => break,
        }
    }
    panel
}

/// Returns the page up to the lines of the run.
fn begin_page(alloc: Global, plan: JobsPlan<'_>) -> Result<String, AllocError> {
    let mut text = String::from_str(alloc, JOBS_HEAD)?;
    text.push_str("<script type=\"text/plain\" id=\"jobs\">\n")?;
    push_title(&mut text, plan.files, plan.limit)?;
    let from = plan.span.from;
    writeln!(text, "from {from}\nslice {SLICE}")?;
    push_names(&mut text, plan.marks)?;
    Ok(text)
}

/// Adds the names of the marks, a line for each.
fn push_names(text: &mut String, marks: &[Mark]) -> Result<(), AllocError> {
    for mark in marks {
        text.push_str("mark ")?;
        push_lines_of_names(text, mark.name.as_bytes())?;
        text.push_str("\n")?;
    }
    Ok(())
}

/// Returns the page, with the end of the run or of the part.
fn end_page(record: JobsRecord, span: Span, machine: &Machine) -> Result<String, AllocError> {
    let mut record = record;
    record.end_slice()?;
    let JobsRecord { mut text, .. } = record;
    let cycle = machine.cycle();
    if cycle <= span.to {
        push_end(&mut text, cycle, machine.stopped())?;
    } else {
        push_end(&mut text, span.to, None)?;
    }
    text.push_str("</script>\n")?;
    text.push_str(JOBS_TAIL)?;
    Ok(text)
}
