//! Reads names, and reports files that cannot be read.
ghost use Rattle.std.specs.Prelude.{◌≡◌, ◌≢◌, ◌⊎◌, IfErr, OnOk};
ghost use Rattle.agc_run_commands.specs.Ended.{EndsWith};

use crate::fault::AnalysisFault;
use crate::sources::{is_source, names_of_source};
use crate::streams::Streams;
use agc_io::{ReadError, TEXT_BYTES, read_limited};
use agc_study_args::{ReadFile, open_file};
use agc_symbols::{SymbolFileFault, SymbolTable, SymbolTableFault};
use std::alloc::Global;
use std::io::Write;
use std::rt::Files;

/// Reads the names in the file at a path, if there is one: a symbol file, or a source `NAME.agc`, which counts with all files
/// that it includes. If it is at fault, reports that and returns the exit status.
pub fn read_symbols<R, W: Write, E: Write, N: Write, P>(
    rt: &R,
    path: &Option<String>,
    io: &mut Streams<W, E, N, P>,
) -> Result<Option<SymbolTable>, u8>
where
    R: Files + AllocGlobal,
    ensures unchanged { OnOk result (io.new ≡ io.old) }
    ensures ended { IfErr result (λ status. EndsWith W.contents E.contents status io.old io.new) }
    ensures faulty { IfErr result (λ status. status ≢ 1) }
{
    let Some(path) = path else {
        return Ok(None);
    };
    let alloc = rt.alloc();
    let mut file = open_file(rt, path, TEXT_BYTES);
    let text = match read_limited(alloc, &mut file, TEXT_BYTES) {
        Ok(text) => text,
        Err(error) => return Err(report_fault(alloc, unread(error), &file, io)),
    };
    match SymbolTable::read(alloc, text.as_slice()) {
        Ok(names) => Ok(Some(names)),
        Err(SymbolTableFault::Line(_, _)) if is_source(path.as_str()) => {
            match names_of_source(rt, path.as_str(), text, &mut io.err) {
                Ok(names) => Ok(Some(names)),
                Err(status) => Err(status),
            }
        }
        Err(fault) => Err(report_fault(alloc, unnamed(fault), &file, io)),
    }
}

/// Returns the error for a symbol file that cannot be read.
fn unread(error: ReadError) -> AnalysisFault {
    match error {
        ReadError::CannotRead(_) => AnalysisFault::Unnamed(SymbolFileFault::CannotRead),
        ReadError::Memory => unnamed(SymbolTableFault::Memory),
    }
}

fn unnamed(fault: SymbolTableFault) -> AnalysisFault {
    AnalysisFault::Unnamed(SymbolFileFault::Names(fault))
}

/// Reports an error, and the reason if it is that the file could not be read. Returns the exit status.
pub fn report_fault<F, W: Write, E: Write, N: Write, P>(
    alloc: Global,
    fault: AnalysisFault,
    file: &ReadFile<'_, F>,
    io: &mut Streams<W, E, N, P>,
) -> u8
    ensures ended { EndsWith W.contents E.contents result io.old io.new }
    ensures status { (result ≡ 2) ⊎ (result ≡ 3) }
{
    let status = fault.report_to(&mut io.err);
    file.remark_fault(alloc, &mut io.remarks);
    status
}
