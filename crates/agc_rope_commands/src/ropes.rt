//! Disassembles ropes and assembles texts.
ghost use Rattle.std.specs.Prelude.{◌≡◌, ◌≢◌, Err, IfOk, IfErr, IfSome, OnOk, false, true};
ghost use Rattle.std.specs.Prelude.{string_bytes};
ghost use Rattle.agc_asm.specs.FaultText.{later_fault};
ghost use Rattle.agc_listing_check.specs.MnemonicCheck.{misnamed_in};
ghost use Rattle.agc_asm.specs.Source.{IsSourceWoven, source_in};
ghost use Rattle.agc_load.specs.Options.{parsed_by, says_nothing};
ghost use Rattle.agc_rope_commands.specs.Listed.{IsListRefused, IsListText, IsStyledText, IsWeaveRefused, IsWoven};
ghost use Rattle.agc_rope_commands.specs.Listed.{bank_named, lines_of_words, misnamed_line};
ghost use Rattle.agc_rope_commands.specs.Listed.{IsSource};
ghost use Rattle.agc_study_args.specs.RopeRead.{wrong_words};
ghost use Rattle.agc_asm.specs.declared.fault.AssemblyFault.{AssemblyFault};
ghost use Rattle.agc_asm.specs.declared.fault.AssemblyFault.TheVariants as source_trouble;
ghost use Rattle.agc_run_commands.specs.declared.fault.AnalysisFault.TheVariants as analysis;

use agc_asm::{AssemblyFault, assemble, rope_source, yul_source};
use agc_io::{ReadError, TEXT_BYTES, read_limited};
use agc_listing::{files_say_rope_words, list, push_order};
use agc_listing_check::{Misnamed, first_misnamed};
use agc_load::LoadFault;
use agc_mend::BadWord;
use agc_run_commands::AnalysisFault;
use agc_store::{RopeForm, Store};
use agc_study_args::{ListArgs, ListStyle, RopeRead, list_with_names, read_any_rope};
use agc_trace::LineForm;
use agc_word::read_octal;
use std::alloc::{AllocError, Global};
use std::io::Read;

/// The text of a rope, and the words with wrong parity in the rope, if parity is ignored.
#[derive(Drop)]
pub(crate) struct ListedRope {
    pub text: Vec<u8>,
    pub wrong: Vec<BadWord>,
}

/// Returns the text of a rope file, or of one of its banks, in a style and with these symbols. Rejects an invalid `--bank`
/// before it reads the file. The source of a whole rope assembles to a rope with the same words.
pub fn text_of_rope<R: Read>(
    alloc: Global,
    args: &ListArgs,
    form: &LineForm,
    reader: &mut R,
) -> Result<Vec<u8>, AnalysisFault>
    ensures text { IfOk result (λ text. IfSome (R.remaining reader.old)
        (λ file. IsListText args.now args.now.style form.now file text.items)) }
    ensures named { OnOk result (says_nothing bank_named args.now.bank ≡ false) }
    ensures refused { IfErr result (IsListRefused args.now (R.remaining reader.old)) }
{
    match listed_rope(alloc, args, form, reader) {
        Ok(listed) => Ok(listed.text),
        Err(fault) => Err(fault),
    }
}

/// Returns the same text, with the words of wrong parity.
pub(crate) fn listed_rope<R: Read>(
    alloc: Global,
    args: &ListArgs,
    form: &LineForm,
    reader: &mut R,
) -> Result<ListedRope, AnalysisFault>
    ensures text { IfOk result (λ listed. IfSome (R.remaining reader.old)
        (λ file. IsListText args.now args.now.style form.now file listed.text.items)) }
    ensures wrong { IfOk result (λ listed. IfSome (R.remaining reader.old)
        (λ file. listed.wrong.items ≡ wrong_words args.now.ignores_parity args.now.form file)) }
    ensures named { OnOk result (says_nothing bank_named args.now.bank ≡ false) }
    ensures refused { IfErr result (IsListRefused args.now (R.remaining reader.old)) }
{
    let bank = bank_of(&args.bank)?;
    let read = read_any_rope(alloc, args.form, args.ignores_parity, reader)?;
    let RopeRead { rope, wrong } = read;
    let store = Store::new(rope);
    files_say_rope_words();
    match styled_text(alloc, args.style, bank, form, &store) {
        Ok(text) => Ok(ListedRope { text, wrong }),
        Err(_) => Err(AnalysisFault::Refused(LoadFault::Memory)),
    }
}

/// Returns the text of the words in fixed memory, or of one bank, in a style.
fn styled_text(
    alloc: Global,
    style: ListStyle,
    bank: Option<u8>,
    form: &LineForm,
    store: &Store,
) -> Result<Vec<u8>, AllocError>
    ensures { IfOk result (λ text. IsStyledText style bank form.now store.now.fixed text.items) }
{
    match style {
        ListStyle::Lines => Ok(lines_of_words(alloc, form, bank, store)?.into_bytes()),
        ListStyle::Source => Ok(rope_source(alloc, store, bank)?.into_bytes()),
        ListStyle::Yul => Ok(yul_source(alloc, store, bank, &form.names)?.into_bytes()),
    }
}

/// Returns a line for each word, with symbols if there are any.
fn lines_of_words(
    alloc: Global,
    form: &LineForm,
    bank: Option<u8>,
    store: &Store,
) -> Result<String, AllocError>
    ensures { IfOk result (λ text. string_bytes text
        ≡ lines_of_words form.now.names form.now.channels bank store.now.fixed) }
{
    match &form.names {
        Some(names) => list_with_names(alloc, names, &form.channels, store, bank),
        None => list(alloc, store, bank),
    }
}

/// Returns the requested bank, if there is one.
pub(crate) fn bank_of(bank: &Option<String>) -> Result<Option<u8>, AnalysisFault>
    ensures ok { IfOk result (λ named. named ≡ parsed_by bank_named bank.now) }
    ensures named { OnOk result (says_nothing bank_named bank.now ≡ false) }
    ensures refused { IfErr result (λ t. t ≡ analysis.BadBankSpec) }
    ensures cause { IfErr result (λ _. says_nothing bank_named bank.now ≡ true) }
{
    match bank {
        Some(spec) => match bank_named(spec.as_bytes()) {
            Some(bank) => Ok(Some(bank)),
            None => Err(AnalysisFault::BadBankSpec),
        },
        None => Ok(None),
    }
}

/// Parses a bank in one or two octal digits, 00 to 43.
#[tactic(auto, unfolding(crate::specs::Listed::bank_named))]
fn bank_named(text: &[u8]) -> Option<u8>
    ensures { result ≡ bank_named text.now }
{
    let bank = read_octal(2, text)?;
    if bank <= 0o43 { Some(bank as u8) } else { None }
}

/// The result of assembling a text.
#[derive(Drop)]
pub struct Woven {
    pub text: Vec<u8>,
    /// The rope file.
    pub bytes: Vec<u8>,
    /// The first listing line whose mnemonic does not match its word.
    pub misnamed: Option<Misnamed>,
}

/// Assembles a text file into a rope file. Fails if the text cannot be read, has more than `TEXT_BYTES` bytes or a
/// faulty line, or if memory runs out.
pub fn weave_text<R: Read>(
    alloc: Global,
    form: RopeForm,
    reader: &mut R,
) -> Result<Woven, AnalysisFault>
    ensures woven { IfOk result (λ woven. IfSome (R.remaining reader.old)
        (λ text. IsWoven form text woven)) }
    ensures refused { IfErr result (IsWeaveRefused (R.remaining reader.old)) }
{
    let text = match read_limited(alloc, reader, TEXT_BYTES) {
        Ok(text) => text,
        Err(ReadError::CannotRead(_)) => return Err(AnalysisFault::CannotReadText),
        Err(ReadError::Memory) => return Err(AnalysisFault::Text(AssemblyFault::Memory)),
    };
    woven_of(alloc, form, text)
}

fn woven_of(alloc: Global, form: RopeForm, text: Vec<u8>) -> Result<Woven, AnalysisFault>
    ensures woven { IfOk result (λ woven. IsSourceWoven form text.items woven.bytes.items
        × (woven.misnamed ≡ misnamed_in text.items) × (woven.text.items ≡ text.items)) }
    ensures refused { IfErr result (λ t. (fault : AssemblyFault) × (t ≡ analysis.Text fault)
        × (fault ≢ source_trouble.Memory → source_in text.items ≡ Err (later_fault fault))) }
{
    let bytes = match assemble(alloc, form, text.as_slice()) {
        Ok(bytes) => bytes,
        Err(fault) => return Err(AnalysisFault::Text(fault)),
    };
    let misnamed = first_misnamed(text.as_slice());
    Ok(Woven {
        text,
        bytes,
        misnamed,
    })
}

/// Returns the remark on a mismatched line: its word's order, and its mnemonic. Fails if memory runs out.
pub fn misnamed_line(alloc: Global, misnamed: Misnamed) -> Result<String, AllocError>
    ensures { IfOk result (λ text. string_bytes text ≡ misnamed_line misnamed) }
{
    let Misnamed {
        line,
        word,
        written,
    } = misnamed;
    let mut text = String::new(alloc);
    write!(text, "agc-study: text line {line}: the word {word} is ")?;
    push_order(&mut text, written.is_extracode(), word)?;
    text.push_str(", not ")?;
    text.push_str(written.mnemonic())?;
    text.push_str("\n")?;
    Ok(text)
}
