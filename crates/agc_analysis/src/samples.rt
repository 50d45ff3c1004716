//! Writes quantities of a run as a table.
use agc_io::Progress;
use agc_machine::Machine;
use agc_quantities::{Plan, Quantity, Sampler, push_heading, push_row};
use agc_run_commands::write_text;
use agc_trace::TraceFault;
use std::alloc::Global;
use std::io::Write;

/// The table to write: its columns, and which states have a row.
#[derive(Drop)]
pub(crate) struct SampleTable {
    pub quantities: Vec<Quantity>,
    pub plan: Plan,
    /// Whether a zero whose first word is -0 is printed as `-0`.
    pub shows_minus_zero: bool,
}

/// Writes the heading, and a row for each sample as it comes, so that memory does not grow with the run.
pub(crate) fn write_rows<W: Write, P: Progress>(
    alloc: Global,
    table: &SampleTable,
    machine: &mut Machine,
    out: &mut W,
    progress: &mut P,
) -> Result<(), TraceFault> {
    let quantities = table.quantities.as_slice();
    let mut sampler = Sampler::new(alloc, table.plan, quantities)?;
    let mut text = String::new(alloc);
    push_heading(&mut text, quantities)?;
    write_text(&text, out)?;
    for _row in 0..u64::MAX {
        if !sampler.next(alloc, machine, progress)? {
            return Ok(());
        }
        if let Some(sample) = &sampler.last {
            text.clear();
            push_row(&mut text, quantities, sample, table.shows_minus_zero)?;
            write_text(&text, out)?;
        }
    }
    Ok(())
}
