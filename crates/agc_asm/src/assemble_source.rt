//! Assembles a source into a rope file.
ghost use Rattle.std.specs.Prelude.{◌≡◌, ◌≢◌, true, Ok, Err, IfOk, IfErr};
ghost use Rattle.agc_listing.specs.Weave.{IsWovenOf};
ghost use Rattle.agc_word.specs.Text.{lines_of};
ghost use Rattle.agc_asm.specs.Source.{IsSourceWoven, is_listing, names_in, source_in, words_after_names};
ghost use Rattle.agc_asm.specs.FaultText.{later_fault};
ghost use Rattle.agc_asm.specs.declared.fault.AssemblyFault.TheVariants.{Line, Memory};

use crate::fault::AssemblyFault;
use crate::pass1::read_names;
use crate::pass2::read_words;
use crate::source_lines::overlapped_line;
use agc_encode::parse_lines;
use agc_listing::{LineFault, RopeBuilder, WeaveFault, file_of, is_listed, weave};
use agc_store::RopeForm;
use agc_vocabulary::{SourceFault, has_non_ascii_comment};
use agc_word::next_line;
use std::alloc::Global;

/// Assembles a source into a rope file of the given form, as long as its words need, and at least one word long. A text
/// whose lines all begin with places, and whose comments are text, is built as `weave` of agc_listing does. Any other text is read in two passes,
/// first for its names and then for its words: the fault is that of the first faulty line in the first pass that has
/// one, or `Memory`. An overlap names the earlier line too, if memory suffices.
pub fn assemble(alloc: Global, form: RopeForm, text: &[u8]) -> Result<Vec<u8>, AssemblyFault>
    ensures file { IfOk result (λ bytes. IsSourceWoven form text.now bytes.items) }
    ensures fault { IfErr result (λ why. why ≢ Memory → source_in text.now ≡ Err (later_fault why)) }
    ensures listing { is_listing text.now ≡ true
        → IfOk result (λ bytes. IsWovenOf form text.now bytes.items) }
{
    match assemble_text(alloc, form, text) {
        Err(AssemblyFault::Line(line, fault)) => Err(with_earlier(alloc, text, line, fault)),
        result => result,
    }
}

/// Returns the fault of a line; that of an overlap with the earlier line.
fn with_earlier(alloc: Global, text: &[u8], line: usize, fault: SourceFault) -> AssemblyFault
    ensures { later_fault result ≡ Line line fault }
{
    if let SourceFault::Listed(LineFault::NamedTwice) = fault {
        if let Ok(Some(earlier)) = overlapped_line(alloc, text, line) {
            return AssemblyFault::Overlap(line, earlier);
        }
    }
    AssemblyFault::Line(line, fault)
}

#[tactic(auto, unfolding(crate::specs::Source::source_in))]
fn assemble_text(alloc: Global, form: RopeForm, text: &[u8]) -> Result<Vec<u8>, AssemblyFault>
    ensures file { IfOk result (λ bytes. IsSourceWoven form text.now bytes.items) }
    ensures fault { IfErr result (λ why. why ≢ Memory → source_in text.now ≡ Err (later_fault why)) }
    ensures listing { is_listing text.now ≡ true
        → IfOk result (λ bytes. IsWovenOf form text.now bytes.items) }
{
    if is_listing(text) {
        return match weave(alloc, form, text) {
            Ok(bytes) => Ok(bytes),
            Err(WeaveFault::Line(line, fault)) => {
                Err(AssemblyFault::Line(line, SourceFault::Listed(fault)))
            }
            Err(WeaveFault::Memory) => Err(AssemblyFault::Memory),
        };
    }
    let builder = source_words(alloc, text)?;
    Ok(file_of(alloc, form, builder.words())?)
}

/// Reads a source in two passes: first its names, then its words.
pub(crate) fn source_words(alloc: Global, text: &[u8]) -> Result<RopeBuilder, AssemblyFault>
    ensures words { IfOk result (λ builder. words_after_names (lines_of text.now) (names_in (lines_of text.now)) ≡ Ok builder) }
    ensures fault { IfErr result (λ why. why ≢ Memory
        → words_after_names (lines_of text.now) (names_in (lines_of text.now)) ≡ Err (later_fault why)) }
{
    let lines = parse_lines(alloc, text)?;
    let names = read_names(alloc, &lines)?;
    read_words(alloc, &names, &lines)
}

/// Returns whether a text has only places and words, and only comments that are text.
#[tactic(auto, unfolding(crate::specs::Source::is_listing))]
pub(crate) fn is_listing(text: &[u8]) -> bool
    ensures { result ≡ is_listing text.now }
{
    let mut rest = text;
    while let Some((line, after)) = next_line(rest) {
        if !is_listed(line) || has_non_ascii_comment(line) {
            return false;
        }
        rest = after;
    }
    true
}
