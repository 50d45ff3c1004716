//! Expands the includes of sources, and reads the names of their places.
ghost use Rattle.std.specs.Prelude.{◌≡◌, ◌⊎◌, IfErr, OnOk};

use crate::fault::{AnalysisFault, FAULTY};
use agc_asm::{AssemblyFault, assemble, source_symbols};
use agc_include::{DiskFolder, ExpandError, Expanded, FaultyIncludes, expand, name_of_path};
use agc_io::status_of;
use agc_store::RopeForm;
use agc_symbols::{SymbolFileFault, SymbolTable, SymbolTableFault};
use std::alloc::Global;
use std::io::{self, Write};
use std::rt::Files;

/// Returns whether the name of a file is that of a source.
pub(crate) fn is_source(path: &str) -> bool {
    path.ends_with(".agc")
}

/// Returns the names of a source and of all files that it includes, as `weave --write-names` writes them. If the source is
/// faulty, reports the first fault and returns the exit status.
pub(crate) fn names_of_source<R, E: Write>(
    rt: &R,
    path: &str,
    source: Vec<u8>,
    err: &mut E,
) -> Result<SymbolTable, u8>
where
    R: Files + AllocGlobal,
    ensures status { IfErr result (λ status. (status ≡ 2) ⊎ (status ≡ 3)) }
    ensures quiet { OnOk result (err.new ≡ err.old) }
{
    let expanded = match expanded_source(rt, path, source) {
        Ok(expanded) => expanded,
        Err(fault) => return Err(report_include(fault, err)),
    };
    match assemble(rt.alloc(), RopeForm::Classic, expanded.text()) {
        Ok(_rope) => {}
        Err(fault) => return Err(report_source(&expanded, fault, err)),
    }
    match symbols_in(rt.alloc(), expanded.text()) {
        Ok(names) => Ok(names),
        Err(fault) => {
            let fault = AnalysisFault::Unnamed(SymbolFileFault::Names(fault));
            Err(fault.report_to(err))
        }
    }
}

fn symbols_in(alloc: Global, source: &[u8]) -> Result<SymbolTable, SymbolTableFault> {
    match source_symbols(alloc, source) {
        Ok(names) => SymbolTable::read(alloc, names.as_slice()),
        Err(_) => Err(SymbolTableFault::Memory),
    }
}

/// Reports the first fault of a source with its file and line, and returns the exit status.
fn report_source<E: Write>(source: &Expanded, fault: AssemblyFault, err: &mut E) -> u8
    ensures { (result ≡ 2) ⊎ (result ≡ 3) }
{
    let (number, why) = match fault {
        AssemblyFault::Line(number, fault) => (number, fault.text()),
        AssemblyFault::Overlap(number, _) => (number, "an earlier line has a word for this place"),
        AssemblyFault::Memory => {
            return AnalysisFault::Text(AssemblyFault::Memory).report_to(err);
        }
    };
    let (file, line) = source.origin(number).unwrap_or(("text", number));
    let written = writeln!(
        err,
        "agc-study: names: {file} line {line}: {why}; agc-study weave prints all faults"
    );
    status_of(FAULTY, written)
}

/// Expands the includes of the source at a path.
pub fn expanded_source<R>(rt: &R, path: &str, source: Vec<u8>) -> Result<Expanded, ExpandError>
where
    R: Files + AllocGlobal,
{
    let mut folder = DiskFolder::of_file(rt, path)?;
    expand(rt.alloc(), &mut folder, name_of_path(path), source)
}

/// Reports why a source is not expanded, and returns the exit status.
pub fn report_include<E: Write>(fault: ExpandError, err: &mut E) -> u8
    ensures { (result ≡ 2) ⊎ (result ≡ 3) }
{
    match fault {
        ExpandError::Includes(faults) => status_of(FAULTY, write_includes(&faults, err)),
        ExpandError::Memory => AnalysisFault::Text(AssemblyFault::Memory).report_to(err),
    }
}

/// Writes a line for each of the first faulty includes, and the number of all if there are several.
fn write_includes<E: Write>(faults: &FaultyIncludes, err: &mut E) -> io::Result<()> {
    for faulty in faults.first.iter() {
        let line = faulty.line;
        writeln!(
            err,
            "agc-study: {} line {line}: {}",
            faulty.file, faulty.fault
        )?;
    }
    if faults.count > 1 {
        let count = faults.count;
        writeln!(err, "agc-study: faults: {count}, in {count} lines")?;
    }
    Ok(())
}
