//! Reads the bytes of a rope file that may be damaged, and makes other rope files from them.
ghost use Rattle.std.specs.Prelude.{◌≡◌, ◌<◌, ◌≤◌, ◌*◌, ◌%◌, IfOk, length};
ghost use Rattle.agc_store.specs.Places.{fixed_words};

use crate::convert_fault::ConvertFault;
use crate::full_list::full_list;
use crate::ropes::{ListedRope, listed_rope};
use agc_asm::{AssemblyFault, SourceFault};
use agc_check::mark_bad_words;
use agc_dump::{Radix, words_of_text};
use agc_io::{ROPE_BYTES, ReadError, TEXT_BYTES, read_limited};
use agc_listing::WeaveFault;
use agc_load::LoadFault;
use agc_mend::{
    apply_patch, check_word, damaged_store, file_of_words, file_words, put_word, with_banks,
    words_in_banks,
};
use agc_run_commands::AnalysisFault;
use agc_store::place::{FIXED_BANK_SIZE, FIXED_BANKS, FIXED_WORDS};
use agc_store::{RopeFault, RopeForm, Store};
use agc_study_args::{ConvertArgs, ConvertedRope, ListArgs, PatchArgs, convert_rope, dump_text};
use agc_text::push_bank_changes;
use agc_trace::LineForm;
use std::alloc::{AllocError, Global};
use std::io::Read;

/// Reads a rope file of whole words, with at most 36 banks, whatever their parity.
pub(crate) fn read_rope_bytes<R: Read>(
    alloc: Global,
    reader: &mut R,
) -> Result<Vec<u8>, AnalysisFault>
    ensures even { IfOk result (λ file. length file.items % 2 ≡ 0) }
    ensures long { IfOk result (λ file. length file.items ≤ 2 * fixed_words) }
{
    let file = match read_limited(alloc, reader, ROPE_BYTES) {
        Ok(file) => file,
        Err(ReadError::CannotRead(fault)) => {
            return Err(AnalysisFault::Refused(LoadFault::CannotReadRope(fault)));
        }
        Err(ReadError::Memory) => return Err(AnalysisFault::Refused(LoadFault::Memory)),
    };
    if file.is_empty() {
        Err(refused(RopeFault::Empty))
    } else if file.len() % 2 == 1 {
        Err(refused(RopeFault::OddLength))
    } else if file.len() > 2 * FIXED_WORDS as usize {
        Err(refused(RopeFault::TooLong))
    } else {
        Ok(file)
    }
}

pub(crate) fn refused(fault: RopeFault) -> AnalysisFault {
    match fault {
        RopeFault::Memory => AnalysisFault::Refused(LoadFault::Memory),
        _ => AnalysisFault::Refused(LoadFault::Rope(fault)),
    }
}

fn no_memory(_error: AllocError) -> AnalysisFault {
    AnalysisFault::Refused(LoadFault::Memory)
}

/// Reads a rope file of whole words, and puts them into their banks if the file is some modules of a rope.
pub fn read_banks<R: Read>(
    alloc: Global,
    order: RopeForm,
    first_bank: Option<u8>,
    reader: &mut R,
) -> Result<Vec<u8>, AnalysisFault>
    ensures { IfOk result (λ file. length file.items % 2 ≡ 0) }
{
    let file = read_rope_bytes(alloc, reader)?;
    match first_bank {
        None => Ok(file),
        Some(first) => file_in_banks(alloc, order, first, file.as_slice()),
    }
}

/// Returns the rope file whose banks from one on are the words of a file.
fn file_in_banks(
    alloc: Global,
    order: RopeForm,
    first: u8,
    file: &[u8],
) -> Result<Vec<u8>, AnalysisFault>
    ensures { IfOk result (λ file. length file.items % 2 ≡ 0) }
{
    let words = file_words(alloc, file).map_err(no_memory)?;
    match words_in_banks(alloc, order, first, words.as_slice()) {
        Ok(Some(placed)) => file_of_words(alloc, placed.as_slice()).map_err(no_memory),
        Ok(None) => Err(AnalysisFault::PastLastBank),
        Err(_) => Err(AnalysisFault::Refused(LoadFault::Memory)),
    }
}

/// A rope file that was converted, and its text if one is wanted.
#[derive(Drop)]
pub(crate) struct WrittenRope {
    pub rope: ConvertedRope,
    pub text: Option<String>,
}

/// Converts a rope file, or a text of numbers, to another reading, and the result to a text if one is wanted.
pub(crate) fn written_rope<R: Read>(
    alloc: Global,
    args: &ConvertArgs,
    reader: &mut R,
) -> Result<WrittenRope, ConvertFault> {
    let file = file_to_convert(alloc, args, reader)?;
    let rope = match convert_rope(alloc, args, file.as_slice()) {
        Ok(rope) => rope,
        Err(fault) if args.from_text.is_some() => return Err(ConvertFault::OfText(fault)),
        Err(fault) => return Err(ConvertFault::Refused(refused(fault))),
    };
    let Some(radix) = args.to_text else {
        return Ok(WrittenRope { rope, text: None });
    };
    match dump_text(alloc, args, radix, rope.file.as_slice()) {
        Ok(text) => Ok(WrittenRope {
            rope,
            text: Some(text),
        }),
        Err(error) => Err(ConvertFault::Refused(no_memory(error))),
    }
}

/// Reads a rope file, or a text of numbers as a rope file.
fn file_to_convert<R: Read>(
    alloc: Global,
    args: &ConvertArgs,
    reader: &mut R,
) -> Result<Vec<u8>, ConvertFault> {
    match args.from_text {
        None => match read_rope_bytes(alloc, reader) {
            Ok(file) => Ok(file),
            Err(fault) => Err(ConvertFault::Refused(fault)),
        },
        Some(radix) => read_dump_file(alloc, radix, args.before.order, reader),
    }
}

/// Reads a text of numbers as a rope file.
fn read_dump_file<R: Read>(
    alloc: Global,
    radix: Radix,
    order: RopeForm,
    reader: &mut R,
) -> Result<Vec<u8>, ConvertFault> {
    let text = match read_limited(alloc, reader, TEXT_BYTES) {
        Ok(text) => text,
        Err(ReadError::CannotRead(_)) => {
            return Err(ConvertFault::Refused(AnalysisFault::CannotReadText));
        }
        Err(ReadError::Memory) => {
            return Err(ConvertFault::Refused(AnalysisFault::Refused(LoadFault::Memory)));
        }
    };
    let words = match words_of_text(alloc, radix, order, text.as_slice()) {
        Ok(words) => words,
        Err(fault) => return Err(ConvertFault::Text(fault)),
    };
    match file_of_words(alloc, words.as_slice()) {
        Ok(file) => Ok(file),
        Err(error) => Err(ConvertFault::Refused(no_memory(error))),
    }
}

/// A rope file that was patched.
#[derive(Drop)]
pub(crate) struct PatchedRope {
    pub file: Vec<u8>,
    /// Whether the file may have another form, and for `--banks` how many words changed in each bank.
    pub remarks: String,
}

/// Applies a patch to a rope file, or puts banks into it, and makes the sums of banks right. Returns the file, or the fault of
/// the rope, of the patch's first faulty line, or of a bank.
pub(crate) fn patched_rope<R: Read, T: Read>(
    alloc: Global,
    args: &PatchArgs,
    rope: &mut R,
    patch: &mut T,
) -> Result<PatchedRope, AnalysisFault> {
    let file = read_rope_bytes(alloc, rope)?;
    let bytes = match read_limited(alloc, patch, TEXT_BYTES) {
        Ok(bytes) => bytes,
        Err(ReadError::CannotRead(_)) => return Err(AnalysisFault::CannotReadText),
        Err(ReadError::Memory) => return Err(AnalysisFault::Refused(LoadFault::Memory)),
    };
    let words = file_words(alloc, file.as_slice()).map_err(no_memory)?;
    let mut remarks = form_remark(alloc, args.form, words.as_slice()).map_err(no_memory)?;
    if args.banks.is_empty() {
        let patched = patched_words(alloc, args.form, words.as_slice(), bytes.as_slice())?;
        return Ok(PatchedRope {
            file: summed_file(alloc, args, patched)?,
            remarks,
        });
    }
    let patched = words_with_banks(alloc, args, words.as_slice(), bytes.as_slice())?;
    push_bank_changes(
        &mut remarks,
        args.form,
        words.as_slice(),
        patched.as_slice(),
    )
    .map_err(no_memory)?;
    Ok(PatchedRope {
        file: summed_file(alloc, args, patched)?,
        remarks,
    })
}

/// Returns a remark if words of a file in the classic form have a parity bit: in the form with parity its banks are in another
/// order.
fn form_remark(alloc: Global, form: RopeForm, words: &[u16]) -> Result<String, AllocError> {
    let mut remark = String::new(alloc);
    let mut with_bit = 0usize;
    for word in words {
        with_bit = with_bit.saturating_add(usize::from(*word % 2));
    }
    if form == RopeForm::Classic && with_bit > 0 {
        let counted = if with_bit == 1 {
            "word of the rope has"
        } else {
            "words of the rope have"
        };
        writeln!(
            remark,
            "agc-study: {with_bit} {counted} a parity bit: if it has parity, give --form parity, whose banks are in another order"
        )?;
    }
    Ok(remark)
}

/// Returns the words of a rope file with those of a patch.
fn patched_words(
    alloc: Global,
    form: RopeForm,
    words: &[u16],
    text: &[u8],
) -> Result<Vec<u16>, AnalysisFault> {
    match apply_patch(alloc, form, words, text) {
        Ok(patched) => Ok(patched),
        Err(WeaveFault::Line(line, fault)) => Err(AnalysisFault::Text(AssemblyFault::Line(
            line,
            SourceFault::Listed(fault),
        ))),
        Err(WeaveFault::Memory) => Err(AnalysisFault::Refused(LoadFault::Memory)),
    }
}

/// Returns the words of a rope file with those of another file in the banks of `--banks`.
fn words_with_banks(
    alloc: Global,
    args: &PatchArgs,
    words: &[u16],
    file: &[u8],
) -> Result<Vec<u16>, AnalysisFault> {
    let banks = args.banks.as_slice();
    let bytes = banks.len().saturating_mul(2 * FIXED_BANK_SIZE as usize);
    if file.len() != bytes || banks.len() > usize::from(FIXED_BANKS) {
        return Err(AnalysisFault::OtherBanks);
    }
    if words.len() > FIXED_WORDS as usize {
        return Err(refused(RopeFault::TooLong));
    }
    let put = file_words(alloc, file).map_err(no_memory)?;
    with_banks(alloc, args.form, banks, put.as_slice(), words).map_err(no_memory)
}

/// Returns the file of these words, after the sums of the banks of `--sum` are made right.
fn summed_file(alloc: Global, args: &PatchArgs, words: Vec<u16>) -> Result<Vec<u8>, AnalysisFault> {
    let mut words = words;
    let file = file_of_words(alloc, words.as_slice()).map_err(no_memory)?;
    if args.sums.is_empty() {
        return Ok(file);
    }
    let store = damaged_store(alloc, args.form, file.as_slice()).map_err(no_memory)?;
    for bank in args.sums.as_slice() {
        put_check_word(&mut words, args.form, &store, *bank)?;
    }
    file_of_words(alloc, words.as_slice()).map_err(no_memory)
}

/// Writes the word that makes the sum of a bank right into the words of a file.
fn put_check_word(
    words: &mut Vec<u16>,
    form: RopeForm,
    store: &Store,
    bank: u8,
) -> Result<(), AnalysisFault> {
    if bank >= FIXED_BANKS {
        return Err(AnalysisFault::EmptyBank);
    }
    match check_word(store, bank) {
        Some(named) => put_word(words, form, &named).map_err(no_memory),
        None => Err(AnalysisFault::EmptyBank),
    }
}

/// Returns the listing of a rope, with a mark behind each word with wrong parity if parity is ignored, of some modules in
/// their banks, or with the words that hold +0.
pub fn special_list<R: Read>(
    alloc: Global,
    args: &ListArgs,
    form: &LineForm,
    reader: &mut R,
) -> Result<Vec<u8>, AnalysisFault> {
    let file = read_banks(alloc, args.form, args.first_bank, reader)?;
    let mut bytes = file.as_slice();
    let ListedRope { text, wrong } = if args.shows_zeros {
        full_list(alloc, args, bytes)?
    } else {
        listed_rope(alloc, args, form, &mut bytes)?
    };
    if wrong.is_empty() {
        return Ok(text);
    }
    mark_bad_words(alloc, text.as_slice(), wrong.as_slice()).map_err(no_memory)
}
