//! The line that a program prints when it refuses to run; it names the fault.
ghost use Rattle.std.specs.Prelude.{◌≡◌, ◌++◌, codes, OnOk};
ghost use Rattle.std.specs.Io.KnownBytes.{Appends};
ghost use Rattle.agc_load.specs.declared.fault.LoadFault.TheVariants.{Memory};
ghost use Rattle.agc_load.specs.Fault.{rope_fault_name, script_fault_name, limit_fault_name};
ghost use Rattle.agc_load.specs.Fault.{watch_fault_name, refusal_line};

use agc_io::ReadFault;
use agc_machine::LimitFault;
use agc_panel::WatchFault;
use agc_script::{FaultKind, ScriptFault};
use agc_store::RopeFault;
use std::alloc::AllocError;
use std::fmt;
use std::io::{self, Write};

/// Why there is no run. The program reports the first fault in this order; `Thread` is probed
/// before `Watch` is reported. `Memory` is reported whenever something else runs out of memory.
#[derive(Clone, Copy, Debug, PartialEq, Eq)]
pub enum LoadFault {
    /// The rope file cannot be opened or read, or has more than 1,048,576 bytes.
    CannotReadRope(ReadFault),
    Rope(RopeFault),
    /// The script file cannot be opened or read, or has more than 16,777,216 bytes.
    CannotReadScript(ReadFault),
    Script(ScriptFault),
    Limit(LimitFault),
    /// The text of `--watch` is not a list of places.
    BadWatchSpec,
    /// The text of `--until` is not a bank and an address.
    BadUntilSpec,
    /// The text of live keys cannot be read, or has more than 65,536 bytes.
    CannotReadKeys(ReadFault),
    /// A name in the text of live keys is not a key.
    BadKey,
    /// `--slots` is 0 or above 65,536.
    Slots,
    /// `--spacing` is 0, and there are live keys.
    Spacing,
    /// The machine's thread could not be started.
    Thread,
    /// The watched tables do not fit into erasable memory, or are too many.
    Watch(WatchFault),
    /// Memory ran out.
    Memory,
}

impl LoadFault {
    /// Writes the line of this fault.
    pub fn write_to<W: Write>(self, err: &mut W) -> io::Result<()>
        ensures { OnOk result
            (Appends (W.contents err.old) (W.contents err.new) (refusal_line self)) }
    {
        writeln!(err, "agc: {self}")
    }
}

impl From<AllocError> for LoadFault {
    ghost from_gives = { λ _ r. r ≡ Memory };

    fn from(_error: AllocError) -> LoadFault {
        LoadFault::Memory
    }
}

impl fmt::Display for LoadFault {
    ghost use Rattle.std.specs.Prelude.{Some};
    ghost use Rattle.agc_load.specs.Fault.{refusal_text};

    ghost output = { λ r. Some (refusal_text r) };

    fn fmt<W: fmt::Write>(&self, f: &mut fmt::Formatter<W>) -> fmt::Result {
        match *self {
            LoadFault::CannotReadRope(_) => f.write_str("cannot read rope"),
            LoadFault::Rope(fault) => write!(f, "rope: {}", rope_fault_name(fault)),
            LoadFault::CannotReadScript(_) => f.write_str("cannot read script"),
            LoadFault::Script(fault) => {
                let line = fault.line;
                write!(f, "script line {line}: {}", script_fault_name(fault.kind))
            }
            LoadFault::Limit(fault) => write!(f, "limit: {}", limit_fault_name(fault)),
            LoadFault::BadWatchSpec => f.write_str("watch: BadSpec"),
            LoadFault::BadUntilSpec => f.write_str("until: BadSpec"),
            LoadFault::CannotReadKeys(_) => f.write_str("cannot read keys"),
            LoadFault::BadKey => f.write_str("keys: BadKey"),
            LoadFault::Slots => f.write_str("slots"),
            LoadFault::Spacing => f.write_str("spacing"),
            LoadFault::Thread => f.write_str("thread"),
            LoadFault::Watch(fault) => write!(f, "watch: {}", watch_fault_name(fault)),
            LoadFault::Memory => f.write_str("memory"),
        }
    }
}

fn rope_fault_name(fault: RopeFault) -> &'static str
    ensures { result.now ≡ rope_fault_name fault }
{
    match fault {
        RopeFault::Empty => "Empty",
        RopeFault::OddLength => "OddLength",
        RopeFault::TooLong => "TooLong",
        RopeFault::Parity { .. } => "Parity",
        RopeFault::Memory => "Memory",
    }
}

fn script_fault_name(kind: FaultKind) -> &'static str
    ensures { result.now ≡ script_fault_name kind }
{
    match kind {
        FaultKind::LineTooLong => "LineTooLong",
        FaultKind::NotAscii => "NotAscii",
        FaultKind::BadCycle => "BadCycle",
        FaultKind::OutOfOrder => "OutOfOrder",
        FaultKind::UnknownWord => "UnknownWord",
        FaultKind::BadNumber => "BadNumber",
        FaultKind::OutOfRange => "OutOfRange",
        FaultKind::TooMany => "TooMany",
        FaultKind::Memory => "Memory",
    }
}

fn limit_fault_name(fault: LimitFault) -> &'static str
    ensures { result.now ≡ limit_fault_name fault }
{
    match fault {
        LimitFault::Zero => "Zero",
        LimitFault::TooLarge => "TooLarge",
    }
}

fn watch_fault_name(fault: WatchFault) -> &'static str
    ensures { result.now ≡ watch_fault_name fault }
{
    match fault {
        WatchFault::OutOfErasable { .. } => "OutOfErasable",
        WatchFault::TooManySets => "TooManySets",
        WatchFault::Memory => "Memory",
    }
}
