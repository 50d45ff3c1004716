//! The kind of a line: what it occupies, and where the next one goes.
ghost use Rattle.std.specs.Prelude.{◌≡◌, ◌<◌, ◌≤◌, length, position, Ok, IfOk, IfSome};
ghost use Rattle.agc_vocabulary.specs.Body.{spelled, tokens};
ghost use Rattle.agc_encode.specs.LocationCounter.{IsAt};
ghost use Rattle.agc_encode.specs.LineKind.{
  IsKind,
  bank_in,
  bank_within,
  block_in,
  cells_by,
  cells_in,
  counter_after,
  cut_range,
  directive_kind,
  is_dash,
  is_minus,
  range_of,
  kind_of,
  stands_for,
  stands_for_cell,
};
ghost use Rattle.agc_vocabulary.specs.Name.{naming_of};
ghost use Rattle.agc_listing.specs.Location.{IsWithin};
ghost use Rattle.agc_listing.specs.Number.{offset_parsed};
ghost use Rattle.agc_listing.specs.Text.{only_of};
ghost use Rattle.agc_word.specs.Numeral.{octal_number};

use crate::location_counter::LocationCounter;
use crate::operand::location_in;
use crate::unknown_operation::unknown_operation;
use agc_listing::{Location, Signed, offset_parsed};
use agc_store::place::ERASABLE_CELLS;
use agc_vocabulary::{Directive, Names, Operation, SourceFault, is_order, next_token, only_token};
use agc_word::read_octal;

/// What a line occupies.
#[derive(Clone, Copy)]
pub enum LineKind {
    /// One word.
    Word,
    /// Two words.
    Pair,
    /// This many cells of erasable memory.
    Cells(u32),
    /// The cells from the first number up to the second, without it.
    Range(u32, u32),
    /// Nothing: the next line goes to this location.
    Moves(Location),
    /// Nothing: the next line goes behind the highest word of this bank.
    Bank(u8),
    /// Nothing: the next line goes behind the highest word of the current bank.
    Resumes,
    /// Nothing: the line's name is a name for this location.
    StandsFor(Location),
    /// Nothing: the line's name is a name for the location of the next line.
    StandsHere,
    /// Nothing: the line's name is a name for the location at this offset from the next line's.
    StandsBeside(Signed),
    /// Nothing: the line's name is a name for the number by which the next line is behind this location.
    StandsApart(Location),
    /// Nothing: another line's name is checked to be one for this location.
    Checks(Location),
    /// Nothing: names the erasable bank of words for BB.
    Ebank,
    /// Nothing: names the superbank of words for BB.
    Sbank,
    /// Nothing at all.
    Nothing,
}

/// Parses the kind of a line from its operation.
pub fn kind_of(names: &Names, operation: &Operation) -> Result<LineKind, SourceFault>
    ensures kind { result ≡ kind_of (naming_of names.now) (spelled (tokens operation.now.body.now)) }
    ensures range { IfOk result IsKind }
{
    match operation.directive {
        Some(directive) => directive_kind(names, directive, operation.rest),
        None if is_order(operation.word) => Ok(LineKind::Word),
        None => Err(unknown_operation(operation.word)),
    }
}

fn directive_kind(names: &Names, directive: Directive, rest: &[u8]) -> Result<LineKind, SourceFault>
    ensures kind { result ≡ directive_kind (naming_of names.now) directive (tokens rest.now) }
    ensures range { IfOk result IsKind }
{
    match directive {
        Directive::SetLoc => Ok(LineKind::Moves(location_in(names, rest)?)),
        Directive::Is | Directive::Equals => stands_for(names, rest),
        Directive::Bank => bank_in(rest),
        Directive::Block => block_in(rest),
        Directive::Erase => cells_in(rest),
        Directive::IsMinus => Ok(LineKind::StandsApart(location_in(names, rest)?)),
        Directive::Check => Ok(LineKind::Checks(location_in(names, rest)?)),
        Directive::IsEcadr => stands_for_cell(location_in(names, rest)?),
        Directive::PairOct
        | Directive::PairDec
        | Directive::PairDecStarred
        | Directive::PairCadr
        | Directive::PairFcadr => Ok(LineKind::Pair),
        Directive::Ebank => Ok(LineKind::Ebank),
        Directive::Sbank => Ok(LineKind::Sbank),
        Directive::Count
        | Directive::CountStarred
        | Directive::Memory
        | Directive::BankSum
        | Directive::Subro => Ok(LineKind::Nothing),
        _ => Ok(LineKind::Word),
    }
}

/// Parses the operand of `=` and EQUALS: a location, an offset from the current one, or nothing for that itself.
fn stands_for(names: &Names, rest: &[u8]) -> Result<LineKind, SourceFault>
    ensures kind { result ≡ stands_for (naming_of names.now) (tokens rest.now) }
    ensures range { IfOk result IsKind }
{
    let Some((word, more)) = next_token(rest) else {
        return Ok(LineKind::StandsHere);
    };
    match offset_parsed(word) {
        Some(by) if next_token(more).is_none() => Ok(LineKind::StandsBeside(by)),
        _ => Ok(LineKind::StandsFor(location_in(names, rest)?)),
    }
}

/// Checks that the location of =ECADR is a cell.
fn stands_for_cell(location: Location) -> Result<LineKind, SourceFault>
    requires { IsWithin location }
    ensures kind { result ≡ stands_for_cell (Ok location) }
    ensures range { IfOk result IsKind }
{
    match location {
        Location::Erasable(_) => Ok(LineKind::StandsFor(location)),
        Location::Fixed(_) => Err(SourceFault::ErasableWanted),
    }
}

/// Parses the operand of BANK: a bank, or nothing for the current one.
fn bank_in(rest: &[u8]) -> Result<LineKind, SourceFault>
    ensures bank { result ≡ bank_in (tokens rest.now) }
    ensures range { IfOk result IsKind }
{
    let Some((word, more)) = next_token(rest) else {
        return Ok(LineKind::Resumes);
    };
    if next_token(more).is_some() {
        return Err(SourceFault::BadPlace);
    }
    match read_octal(2, word) {
        Some(bank) if bank <= 0o43 => Ok(LineKind::Bank(bank as u8)),
        _ => Err(SourceFault::BadPlace),
    }
}

/// Parses the operand of BLOCK: bank 02 or 03.
fn block_in(rest: &[u8]) -> Result<LineKind, SourceFault>
    ensures bank { result ≡ block_in (only_of (tokens rest.now)) }
    ensures range { IfOk result IsKind }
{
    let Some(word) = only_token(rest) else {
        return Err(SourceFault::BadPlace);
    };
    match read_octal(2, word) {
        Some(bank) if bank == 2 || bank == 3 => Ok(LineKind::Bank(bank as u8)),
        _ => Err(SourceFault::BadPlace),
    }
}

/// Parses which cells ERASE reserves from its operand.
fn cells_in(rest: &[u8]) -> Result<LineKind, SourceFault>
    ensures cells { result ≡ cells_in (tokens rest.now) }
    ensures range { IfOk result IsKind }
{
    let Some((word, more)) = next_token(rest) else {
        return Ok(LineKind::Cells(1));
    };
    let Some((dash, more)) = next_token(more) else {
        return cells_by(word);
    };
    match (is_dash(dash), only_token(more)) {
        (true, Some(last)) => range_of(read_octal(6, word), read_octal(6, last)),
        _ => Err(SourceFault::BadNumber),
    }
}

fn is_dash(word: &[u8]) -> bool
    ensures { result ≡ is_dash word.now }
{
    matches!(word, [b'-'])
}

/// Parses how many more cells there are, or a range without blanks.
fn cells_by(word: &[u8]) -> Result<LineKind, SourceFault>
    ensures cells { result ≡ cells_by (offset_parsed word.now) word.now }
    ensures range { IfOk result IsKind }
{
    match offset_parsed(word) {
        Some(by) if !by.minus => Ok(LineKind::Cells(by.magnitude as u32 + 1)),
        Some(_) => Err(SourceFault::BadNumber),
        None => cut_range(word),
    }
}

fn cut_range(word: &[u8]) -> Result<LineKind, SourceFault>
    ensures cells { result ≡ cut_range (position is_minus word.now) word.now }
    ensures range { IfOk result IsKind }
{
    match first_minus(word) {
        Some(at) => range_of(read_octal(6, &word[..at]), read_octal(6, &word[at + 1..])),
        None => Err(SourceFault::BadNumber),
    }
}

fn first_minus(word: &[u8]) -> Option<usize>
    ensures minus { result ≡ position is_minus word.now }
    ensures bound { IfSome result (λ at. at < length word.now) }
{
    word.iter().position(|b| *b == b'-')
}

fn range_of(first: Option<u64>, last: Option<u64>) -> Result<LineKind, SourceFault>
    ensures cells { result ≡ range_of first last }
    ensures range { IfOk result IsKind }
{
    match (first, last) {
        (Some(first), Some(last)) if first <= last && last < u64::from(ERASABLE_CELLS) => {
            Ok(LineKind::Range(first as u32, last as u32 + 1))
        }
        _ => Err(SourceFault::BadNumber),
    }
}

/// Returns the location counter after a line of a kind.
pub fn counter_after(
    counter: LocationCounter,
    kind: LineKind,
) -> Result<LocationCounter, SourceFault>
    requires at { IsAt counter.at }
    requires kind { IsKind kind }
    ensures after { result ≡ counter_after counter kind }
    ensures range { IfOk result (λ next. IsAt next.at) }
{
    match kind {
        LineKind::Word => counter.after_line_words(1),
        LineKind::Pair => counter.after_line_words(2),
        LineKind::Cells(count) => counter.after_cells(count),
        LineKind::Range(_, end) => counter.after_range(end),
        LineKind::Moves(place) => Ok(counter.moved_to(place)),
        LineKind::Bank(bank) => Ok(counter.in_bank(bank)),
        LineKind::Resumes => counter.resumed(),
        _ => Ok(counter),
    }
}
