//! The error that ends `agc-study` with one line.
ghost use Rattle.std.specs.Prelude.{◌≡◌, ◌⊎◌, OnOk};
ghost use Rattle.std.specs.Io.KnownBytes.{Appends};
ghost use Rattle.agc_run_commands.specs.Fault.{other_error, remedy_text, rope_remedy, script_remedy};
ghost use Rattle.agc_run_commands.specs.Fault.{error_line, second_error, watch_remedy};
ghost use Rattle.agc_run_commands.specs.declared.fault.AnalysisFault.TheVariants as analysis;

use agc_asm::{AssemblyFault, EarlierLine};
use agc_io::status_of;
use agc_load::LoadFault;
use agc_panel::WatchFault;
use agc_script::FaultKind;
use agc_store::RopeFault;
use agc_symbols::SymbolFileFault;
use std::fmt;
use std::io::{self, Write};

/// The exit status if nothing is printed: a command-line error, or a file at fault.
pub const FAULTY: u8 = 2;

/// Why nothing is printed.
#[derive(Clone, Copy, Debug, PartialEq, Eq)]
pub enum AnalysisFault {
    /// A fault that `agc` reports too: a faulty rope or script, or out of memory.
    Refused(LoadFault),
    /// The rope or the script of the right run of two is rejected.
    OtherRefused(LoadFault),
    /// The text file cannot be opened or read, or has more than 16,777,216 bytes.
    CannotReadText,
    /// The second text of two, by the same rule.
    CannotReadOtherText,
    /// The text does not assemble.
    Text(AssemblyFault),
    /// The second text of two does not assemble.
    OtherText(AssemblyFault),
    /// The value of `--bank` is not a bank.
    BadBankSpec,
    /// The symbol file is at fault.
    Unnamed(SymbolFileFault),
    /// `repair` needs parity bits, and none of the rope's is 1.
    NoParity,
    /// `repair` repairs single words, and more than one word in ten has wrong parity.
    OtherLayout,
    /// The file has words past bank 43 if its first bank is that of `--first-bank`.
    PastLastBank,
    /// `merge` cannot decide this many words.
    Undecided(usize),
    /// A bank of `--sum` has no words.
    EmptyBank,
    /// The second file of `patch --banks` has not as many banks as are named.
    OtherBanks,
}

impl AnalysisFault {
    /// Returns the error for a fault of the right run: the other run's, if it concerns a rope or a script.
    pub fn of_other_run(refusal: LoadFault) -> AnalysisFault
        ensures { result ≡ other_error refusal }
    {
        match refusal {
            LoadFault::CannotReadRope(_)
            | LoadFault::Rope(_)
            | LoadFault::CannotReadScript(_)
            | LoadFault::Script(_) => AnalysisFault::OtherRefused(refusal),
            _ => AnalysisFault::Refused(refusal),
        }
    }

    /// Returns this error as that of the second of two files.
    pub fn of_second(self) -> AnalysisFault
        ensures { result ≡ second_error self }
    {
        match self {
            AnalysisFault::Refused(refusal) => AnalysisFault::of_other_run(refusal),
            AnalysisFault::CannotReadText => AnalysisFault::CannotReadOtherText,
            AnalysisFault::Text(fault) => AnalysisFault::OtherText(fault),
            fault => fault,
        }
    }

    /// Writes the line of this error.
    pub fn write_to<W: Write>(self, err: &mut W) -> io::Result<()>
        ensures { OnOk result
            (Appends (W.contents err.old) (W.contents err.new) (error_line self)) }
    {
        writeln!(err, "agc-study: {self}")
    }

    /// Reports this error and returns the exit status: `FAULTY`, or 3 if the line cannot be written.
    pub fn report_to<W: Write>(self, err: &mut W) -> u8
        ensures status { (result ≡ 2) ⊎ (result ≡ 3) }
        ensures line { result ≡ 2
            → Appends (W.contents err.old) (W.contents err.new) (error_line self) }
    {
        status_of(FAULTY, self.write_to(err))
    }
}

impl From<LoadFault> for AnalysisFault {
    ghost from_gives = { λ refusal t. t ≡ analysis.Refused refusal };

    fn from(refusal: LoadFault) -> AnalysisFault {
        AnalysisFault::Refused(refusal)
    }
}

impl fmt::Display for AnalysisFault {
    ghost use Rattle.std.specs.Prelude.{Some};
    ghost use Rattle.agc_run_commands.specs.Fault.{error_text};

    ghost output = { λ t. Some (error_text t) };

    fn fmt<W: fmt::Write>(&self, f: &mut fmt::Formatter<W>) -> fmt::Result {
        match *self {
            AnalysisFault::Refused(refusal) => write!(f, "{refusal}{}", remedy(refusal)),
            AnalysisFault::OtherRefused(refusal) => {
                write!(f, "other run: {refusal}{}", remedy(refusal))
            }
            AnalysisFault::CannotReadText => f.write_str("cannot read text"),
            AnalysisFault::CannotReadOtherText => f.write_str("cannot read other text"),
            AnalysisFault::Text(AssemblyFault::Line(line, fault)) => {
                write!(f, "text line {line}: {fault}")
            }
            AnalysisFault::OtherText(AssemblyFault::Line(line, fault)) => {
                write!(f, "other text line {line}: {fault}")
            }
            AnalysisFault::Text(AssemblyFault::Overlap(line, earlier)) => {
                write!(f, "text line {line}: {}", EarlierLine { line: earlier })
            }
            AnalysisFault::OtherText(AssemblyFault::Overlap(line, earlier)) => {
                write!(
                    f,
                    "other text line {line}: {}",
                    EarlierLine { line: earlier }
                )
            }
            AnalysisFault::Text(AssemblyFault::Memory)
            | AnalysisFault::OtherText(AssemblyFault::Memory) => f.write_str("memory"),
            AnalysisFault::BadBankSpec => f.write_str(
                "no such bank: --bank is one or two octal digits, 00 to 43",
            ),
            AnalysisFault::Unnamed(refusal) => write!(f, "{refusal}"),
            AnalysisFault::NoParity => f.write_str(
                "no parity bit is 1, as in the classic form; --form parity repairs it nevertheless",
            ),
            AnalysisFault::OtherLayout => f.write_str(
                "more than one word in ten has wrong parity: the file has another layout, or is no rope; agc-study check names the layout",
            ),
            AnalysisFault::PastLastBank => f.write_str(
                "the file is too long for --first-bank: its last word is past bank 43",
            ),
            AnalysisFault::Undecided(count) => write!(
                f,
                "words that nothing decides: {count}; --accept writes the rope all the same"
            ),
            AnalysisFault::EmptyBank => f.write_str(
                "a bank of --sum has only words +0, and no last word; agc-study sums prints the others",
            ),
            AnalysisFault::OtherBanks => f.write_str(
                "the file of --banks has not exactly their words: 2048 bytes a bank",
            ),
        }
    }
}

/// Returns the end of the line: what to do about a fault that `agc` reports by its name alone.
fn remedy(refusal: LoadFault) -> &'static str
    ensures { result.now ≡ remedy_text refusal }
{
    match refusal {
        LoadFault::Rope(fault) => rope_remedy(fault),
        LoadFault::Script(fault) => script_remedy(fault.kind),
        LoadFault::Limit(_) => "; --limit is 1 to 1000000000000 cycles",
        LoadFault::BadWatchSpec => "; --watch is seven octal numbers with commas between them",
        LoadFault::Watch(fault) => watch_remedy(fault),
        LoadFault::BadUntilSpec => "; --until is BANK,ADDR in octal, or a name of --names",
        _ => "",
    }
}

fn rope_remedy(fault: RopeFault) -> &'static str
    ensures { result.now ≡ rope_remedy fault }
{
    match fault {
        RopeFault::Memory => "",
        _ => "; agc-study check explains it",
    }
}

fn script_remedy(kind: FaultKind) -> &'static str
    ensures { result.now ≡ script_remedy kind }
{
    match kind {
        FaultKind::Memory => "",
        _ => "; agc-study check explains it",
    }
}

fn watch_remedy(fault: WatchFault) -> &'static str
    ensures { result.now ≡ watch_remedy fault }
{
    match fault {
        WatchFault::Memory => "",
        _ => "; --watch needs tables in erasable memory, and at most 20 sets (octal)",
    }
}
