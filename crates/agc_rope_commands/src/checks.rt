//! Checks files and returns reports: a rope and a script, a text of live keys, the text of a rope.
ghost use Rattle.std.specs.Prelude.{◌≡◌, IfOk, IfErr, IfSome};
ghost use Rattle.agc_load.specs.declared.fault.LoadFault.TheVariants as refusal;
ghost use Rattle.agc_rope_commands.specs.Checked.{AreKeysChecked, AreKeysUnchecked, IsChecked, IsCheckedWith};
ghost use Rattle.agc_rope_commands.specs.Checked.{IsJoined, IsListingChecked, IsListingUnchecked, IsUnchecked};
ghost use Rattle.agc_rope_commands.specs.Checked.{IsWithMore};
ghost use Rattle.agc_run_commands.specs.declared.fault.AnalysisFault.TheVariants as analysis;

use crate::rope_bytes::read_banks;
use agc_check::{check, check_keys, check_rope};
use agc_dump::looks_like_numbers;
use agc_io::{KEY_BYTES, ROPE_BYTES, ReadError, TEXT_BYTES, read_limited};
use agc_listing::Report;
use agc_listing_check::{check_listing, erase_remarks, line_remarks};
use agc_load::LoadFault;
use agc_mend::may_be_modules;
use agc_run_commands::AnalysisFault;
use agc_store::RopeForm;
use agc_study_args::RunInputs;
use agc_text::push_damage;
use std::alloc::{AllocError, Global};
use std::io::Read;

/// What `check` says of a rope file that is plainly a text.
const TEXT_OF_NUMBERS: &str =
    "    this looks like a text of numbers: convert --from-text makes a rope file from it (likely)\n";

/// Checks a rope file and a script file and returns the report.
pub fn check_files<R: Read>(
    alloc: Global,
    form: RopeForm,
    inputs: &mut RunInputs<R>,
) -> Result<Report, AnalysisFault>
    ensures checked { IfOk result (λ report. IsChecked form
        (R.remaining inputs.old.rope) (R.remaining inputs.old.script) report) }
    ensures refused { IfErr result
        (IsUnchecked (R.remaining inputs.old.rope) (R.remaining inputs.old.script)) }
{
    let rope = match read_limited(alloc, &mut inputs.rope, ROPE_BYTES) {
        Ok(bytes) => bytes,
        Err(ReadError::CannotRead(fault)) => {
            return Err(AnalysisFault::Refused(LoadFault::CannotReadRope(fault)));
        }
        Err(ReadError::Memory) => return Err(AnalysisFault::Refused(LoadFault::Memory)),
    };
    let script = match read_limited(alloc, &mut inputs.script, TEXT_BYTES) {
        Ok(bytes) => bytes,
        Err(ReadError::CannotRead(fault)) => {
            return Err(AnalysisFault::Refused(LoadFault::CannotReadScript(fault)));
        }
        Err(ReadError::Memory) => return Err(AnalysisFault::Refused(LoadFault::Memory)),
    };
    match check(alloc, form, rope.as_slice(), script.as_slice()) {
        Ok(report) => Ok(report),
        Err(_) => Err(AnalysisFault::Refused(LoadFault::Memory)),
    }
}

/// A rope file, and what `check` prints of it alone.
#[derive(Drop)]
pub(crate) struct CheckedRope {
    pub file: Vec<u8>,
    /// Whether the places of its words are known.
    pub is_placed: bool,
    pub holdings: Report,
    /// What a restorer wants to know: bad words, readings, sums and patterns of damage.
    pub findings: String,
}

/// Checks a rope file alone.
pub(crate) fn check_rope_file<R: Read>(
    alloc: Global,
    form: RopeForm,
    first_bank: Option<u8>,
    rope: &mut R,
) -> Result<CheckedRope, AnalysisFault> {
    if first_bank.is_some() {
        let file = read_banks(alloc, form, first_bank, rope)?;
        return checked_rope(alloc, form, true, file);
    }
    let file = match read_limited(alloc, rope, ROPE_BYTES) {
        Ok(file) => file,
        Err(ReadError::CannotRead(fault)) => {
            return Err(AnalysisFault::Refused(LoadFault::CannotReadRope(fault)));
        }
        Err(ReadError::Memory) => return Err(AnalysisFault::Refused(LoadFault::Memory)),
    };
    let is_placed = !may_be_modules(file.len());
    checked_rope(alloc, form, is_placed, file)
}

fn checked_rope(
    alloc: Global,
    form: RopeForm,
    is_placed: bool,
    file: Vec<u8>,
) -> Result<CheckedRope, AnalysisFault> {
    match texts_on_rope(alloc, form, is_placed, file) {
        Ok(checked) => Ok(checked),
        Err(_) => Err(AnalysisFault::Refused(LoadFault::Memory)),
    }
}

fn texts_on_rope(
    alloc: Global,
    form: RopeForm,
    is_placed: bool,
    file: Vec<u8>,
) -> Result<CheckedRope, AllocError> {
    let mut holdings = check_rope(alloc, form, file.as_slice())?;
    if looks_like_numbers(file.as_slice()) {
        holdings.text.push_str(TEXT_OF_NUMBERS)?;
    }
    let mut findings = String::new(alloc);
    push_damage(alloc, &mut findings, form, is_placed, file.as_slice())?;
    Ok(CheckedRope {
        file,
        is_placed,
        holdings,
        findings,
    })
}

/// Returns the report on a rope file alone: what it has, and what a restorer wants to know.
pub(crate) fn report_on_rope(rope: CheckedRope) -> Result<Report, AnalysisFault> {
    match whole_report(rope) {
        Ok(report) => Ok(report),
        Err(_) => Err(AnalysisFault::Refused(LoadFault::Memory)),
    }
}

fn whole_report(rope: CheckedRope) -> Result<Report, AllocError> {
    let CheckedRope {
        holdings,
        findings,
        ..
    } = rope;
    let Report { mut text, is_sound } = holdings;
    text.push_str(findings.as_str())?;
    Ok(Report { text, is_sound })
}

/// Checks a rope file and a script file and appends the report on other files.
pub fn check_with<R: Read>(
    alloc: Global,
    form: RopeForm,
    inputs: &mut RunInputs<R>,
    more: &Option<Report>,
) -> Result<Report, AnalysisFault>
    ensures checked { IfOk result (λ report. IsCheckedWith form
        (R.remaining inputs.old.rope) (R.remaining inputs.old.script) more.now report) }
    ensures refused { IfErr result
        (IsUnchecked (R.remaining inputs.old.rope) (R.remaining inputs.old.script)) }
{
    let first = check_files(alloc, form, inputs)?;
    with_more(first, more)
}

/// Appends a second report, if there is one.
fn with_more(first: Report, more: &Option<Report>) -> Result<Report, AnalysisFault>
    ensures whole { IfOk result (IsWithMore first more.now) }
    ensures refused { IfErr result (λ t. t ≡ analysis.Refused refusal.Memory) }
{
    match more {
        Some(more) => joined(first, more),
        None => Ok(first),
    }
}

/// Joins two reports; the result is sound if both are.
pub fn joined(first: Report, second: &Report) -> Result<Report, AnalysisFault>
    ensures joined { IfOk result (IsJoined first second.now) }
    ensures refused { IfErr result (λ t. t ≡ analysis.Refused refusal.Memory) }
{
    let Report { mut text, is_sound } = first;
    match text.push_str(second.text.as_str()) {
        Ok(()) => Ok(Report {
            text,
            is_sound: is_sound && second.is_sound,
        }),
        Err(_) => Err(AnalysisFault::Refused(LoadFault::Memory)),
    }
}

/// Checks a text of live keys and returns the report.
pub fn check_key_file<K: Read>(alloc: Global, keys: &mut K) -> Result<Report, AnalysisFault>
    ensures checked { IfOk result (λ report. IfSome (K.remaining keys.old)
        (λ text. AreKeysChecked text report)) }
    ensures refused { IfErr result (AreKeysUnchecked (K.remaining keys.old)) }
{
    let bytes = match read_limited(alloc, keys, KEY_BYTES) {
        Ok(bytes) => bytes,
        Err(ReadError::CannotRead(fault)) => {
            return Err(AnalysisFault::Refused(LoadFault::CannotReadKeys(fault)));
        }
        Err(ReadError::Memory) => return Err(AnalysisFault::Refused(LoadFault::Memory)),
    };
    match check_keys(alloc, bytes.as_slice()) {
        Ok(report) => Ok(report),
        Err(_) => Err(AnalysisFault::Refused(LoadFault::Memory)),
    }
}

/// The report on the text of a rope.
#[derive(Debug, Drop)]
pub struct CheckedListing {
    pub report: Report,
    /// Lines about cells that lie over registers or over other cells, and skipped orders.
    pub remarks: String,
}

/// Checks the text of a rope and returns the report, and remarks on its lines.
pub fn check_listing_file<L: Read>(
    alloc: Global,
    listing: &mut L,
) -> Result<CheckedListing, AnalysisFault>
    ensures checked { IfOk result (λ checked. IfSome (L.remaining listing.old)
        (λ text. IsListingChecked text checked.report)) }
    ensures refused { IfErr result IsListingUnchecked }
{
    let bytes = match read_limited(alloc, listing, TEXT_BYTES) {
        Ok(bytes) => bytes,
        Err(ReadError::CannotRead(_)) => return Err(AnalysisFault::CannotReadText),
        Err(ReadError::Memory) => return Err(AnalysisFault::Refused(LoadFault::Memory)),
    };
    let report = match check_listing(alloc, bytes.as_slice()) {
        Ok(report) => report,
        Err(_) => return Err(AnalysisFault::Refused(LoadFault::Memory)),
    };
    match remarks_on(alloc, bytes.as_slice()) {
        Ok(remarks) => Ok(CheckedListing { report, remarks }),
        Err(_) => Err(AnalysisFault::Refused(LoadFault::Memory)),
    }
}

/// Checks a source, however long it is.
pub(crate) fn check_source(alloc: Global, source: &[u8]) -> Result<CheckedListing, AllocError> {
    Ok(CheckedListing {
        report: check_listing(alloc, source)?,
        remarks: remarks_on(alloc, source)?,
    })
}

/// Returns the remarks on the lines of a source.
fn remarks_on(alloc: Global, source: &[u8]) -> Result<String, AllocError> {
    let mut remarks = erase_remarks(alloc, source)?;
    let more = line_remarks(alloc, source)?;
    remarks.push_str(more.as_str())?;
    Ok(remarks)
}
