//! The error that ends `convert` with one line.
ghost use Rattle.std.specs.Prelude.{◌≡◌, ◌⊎◌};

use agc_dump::DumpFault;
use agc_io::status_of;
use agc_load::LoadFault;
use agc_run_commands::{AnalysisFault, FAULTY};
use agc_store::RopeFault;
use std::io::Write;

/// Why `convert` writes nothing.
#[derive(Clone, Copy, Debug, PartialEq, Eq)]
pub(crate) enum ConvertFault {
    /// A fault that other subcommands report too.
    Refused(AnalysisFault),
    /// A fault of a text of numbers.
    Text(DumpFault),
    /// A fault of the rope that a text of numbers has.
    OfText(RopeFault),
}

impl ConvertFault {
    /// Reports this error and returns the exit status: `FAULTY`, or 3 if the line cannot be written.
    pub(crate) fn report_to<W: Write>(self, err: &mut W) -> u8
        ensures { (result ≡ 2) ⊎ (result ≡ 3) }
    {
        match self {
            ConvertFault::Refused(fault) => fault.report_to(err),
            ConvertFault::Text(fault) => status_of(FAULTY, writeln!(err, "agc-study: {fault}")),
            ConvertFault::OfText(RopeFault::Memory) => {
                AnalysisFault::Refused(LoadFault::Memory).report_to(err)
            }
            ConvertFault::OfText(fault) => {
                let fault = LoadFault::Rope(fault);
                let line = writeln!(
                    err,
                    "agc-study: {fault}; --ignore-parity writes a rope file, which agc-study check explains"
                );
                status_of(FAULTY, line)
            }
        }
    }
}
