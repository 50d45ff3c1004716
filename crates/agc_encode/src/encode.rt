//! Encodes a line into its words.
ghost use Rattle.std.specs.Prelude.{◌≡◌, ◌∷◌, [], codes, ◌+◌, ◌-◌, ◌<◌, ◌≤◌, ◌%◌, ◌^◌, ◌&&◌, IfOk, IfSome};
ghost use Rattle.agc_word.specs.Number.{number_from_pattern, pattern_of};
ghost use Rattle.agc_store.specs.Places.{erasable_cells, fixed_words};
ghost use Rattle.agc_vocabulary.specs.Body.{tokens};
ghost use Rattle.agc_vocabulary.specs.Numeral.{number_in};
ghost use Rattle.agc_encode.specs.Encode.{
  any_address,
  bank_word,
  banks_after,
  basic_meaning,
  cell_in,
  complemented,
  directive_meaning,
  downlink_word,
  extracode_meaning,
  is_banked,
  offset_below_zero,
  operand_fault,
  octal_in,
  octal_pair_in,
  order_by_offset,
  encode_order,
  number_word,
  pair_by_word,
  encode_pair,
  pair_of_number,
  place_in,
  starred_bank_word,
  superbank,
  verb_noun_in,
  major_mode_in,
  word_by,
  encode_word,
  writes_order,
};
ghost use Rattle.agc_vocabulary.specs.Name.{naming_of};
ghost use Rattle.agc_encode.specs.Operand.{location_for, location_in, value_of};
ghost use Rattle.agc_listing.specs.Location.{IsWithin};
ghost use Rattle.agc_listing.specs.Number.{without_sign};
ghost use Rattle.agc_listing.specs.Order.{next_is_extracode};
ghost use Rattle.agc_listing.specs.Text.{only_of};

use crate::operand::{Value, channel_at, location_for, operand_for, value_of};
use crate::row::{basic_word, extracode_word, meant, meant_operand};
use agc_listing::{
    Location, cell_address, complete_address, listed_address, next_is_extracode, octal_word,
    offset_parsed,
};
use agc_order::{Basic, Extracode};
use agc_store::place::bank_of;
use agc_vocabulary::{
    Alias, Directive, Names, Operation, SourceFault, basic_named, extracode_named, next_token,
    number_in, only_token, without_sign,
};
use agc_word::{Narrow, read_decimal, read_octal};

/// Two words, the upper one first.
#[derive(Clone, Copy)]
pub struct Pair {
    pub upper: Narrow,
    pub lower: Narrow,
}

/// The banks that EBANK= and SBANK= name for words for BB.
#[derive(Clone, Copy)]
pub struct Banks {
    pub erasable: u8,
    /// The bank before the last EBANK=, if no word has come since.
    pub before: Option<u8>,
    pub superbank: u8,
}

/// Where a line is: its place, whether an extracode is expected there, and the banks for words for BB.
#[derive(Clone, Copy)]
pub struct Site {
    pub here: u32,
    pub leads: bool,
    pub banks: Banks,
}

/// Encodes a one-word line.
#[tactic(auto, unfolding(crate::specs::Encode::encode_word))]
pub fn encode_word(names: &Names, site: Site, operation: &Operation) -> Result<Narrow, SourceFault>
    requires erasable { site.banks.erasable < 8 }
    requires superbank { site.banks.superbank < 8 }
    ensures { result ≡ encode_word (naming_of names.now) site.here site.leads site.banks (tokens operation.now.body.now) }
{
    if let Some(fault) = operand_fault(operation.alias, names, site.here, operation.rest) {
        return Err(fault);
    }
    let word = word_by(names, site, operation)?;
    Ok(complemented(operation.minus, word))
}

/// Returns why CAF or CAE does not take an operand.
fn operand_fault(alias: Option<Alias>, names: &Names, here: u32, rest: &[u8]) -> Option<SourceFault>
    ensures { result ≡ operand_fault alias (value_of (naming_of names.now) here (tokens rest.now)) }
{
    match alias {
        Some(Alias::Caf) => match value_of(names, here, rest) {
            Ok(Value::At(Location::Erasable(_))) => Some(SourceFault::FixedWanted),
            _ => None,
        },
        Some(Alias::Cae) => match value_of(names, here, rest) {
            Ok(Value::At(Location::Fixed(_))) => Some(SourceFault::ErasableWanted),
            _ => None,
        },
        _ => None,
    }
}

/// Returns a word, or its complement.
fn complemented(minus: bool, word: Narrow) -> Narrow
    ensures { result ≡ complemented minus word }
{
    if minus {
        Narrow::signed(!word.is_minus(), word.magnitude())
    } else {
        word
    }
}

fn word_by(names: &Names, site: Site, operation: &Operation) -> Result<Narrow, SourceFault>
    requires erasable { site.banks.erasable < 8 }
    requires superbank { site.banks.superbank < 8 }
    ensures { result ≡ word_by (naming_of names.now) site.here site.leads site.banks
        operation.now.directive operation.now.word.now (tokens operation.now.rest.now) }
{
    match operation.directive {
        Some(directive) => directive_meaning(names, site, directive, operation.rest),
        None => order_by_offset(names, site, operation.word, operation.rest),
    }
}

/// Encodes an order; an offset that takes a number below zero is added to the order's word.
fn order_by_offset(
    names: &Names,
    site: Site,
    word: &[u8],
    rest: &[u8],
) -> Result<Narrow, SourceFault>
    ensures { result ≡ order_by_offset (naming_of names.now) site.here site.leads
        (offset_below_zero (tokens rest.now)) word.now (tokens rest.now) }
{
    match offset_below_zero(rest) {
        None => encode_order(names, site, word, rest),
        Some(less) => {
            let order = order_of_zero(names, site, word)?;
            Ok(lowered(less, order))
        }
    }
}

/// Encodes an order with the operand 0.
fn order_of_zero(names: &Names, site: Site, word: &[u8]) -> Result<Narrow, SourceFault>
    ensures { result ≡ encode_order (naming_of names.now) site.here site.leads word.now (codes "0" ∷ []) }
{
    encode_order(names, site, word, b"0")
}

/// Returns how far below zero an offset takes a number.
fn offset_below_zero(rest: &[u8]) -> Option<u64>
    ensures less { result ≡ offset_below_zero (tokens rest.now) }
    ensures range { IfSome result (λ less. less < 100000) }
{
    let (word, more) = next_token(rest)?;
    let (by, more) = next_token(more)?;
    if next_token(more).is_some() {
        return None;
    }
    let number = read_octal(6, word)?;
    let by = offset_parsed(by)?;
    if by.minus && number < by.magnitude {
        Some(by.magnitude - number)
    } else {
        None
    }
}

fn lowered(less: u64, word: Narrow) -> Narrow
    requires { less < 100000 }
    ensures { result ≡ number_from_pattern 15 ((pattern_of 15 word + (2 ^ 17 - less)) % 2 ^ 15) }
{
    let sum = u64::from(word.bits()) + (0o400000 - less);
    Narrow::with_bits((sum % 0o100000) as u16)
}

fn encode_order(names: &Names, site: Site, word: &[u8], rest: &[u8]) -> Result<Narrow, SourceFault>
    ensures { result ≡ encode_order (naming_of names.now) site.here site.leads word.now (tokens rest.now) }
{
    if site.leads {
        match extracode_named(word) {
            Some(order) => extracode_meaning(names, site.here, order, rest),
            None if basic_named(word).is_some() => Err(SourceFault::BasicAfterExtend),
            None => Err(SourceFault::UnknownOrder),
        }
    } else {
        match basic_named(word) {
            Some(order) => basic_meaning(names, site.here, order, rest),
            None if extracode_named(word).is_some() => Err(SourceFault::ExtracodeAlone),
            None => Err(SourceFault::UnknownOrder),
        }
    }
}

fn basic_meaning(names: &Names, here: u32, order: Basic, rest: &[u8]) -> Result<Narrow, SourceFault>
    ensures { result ≡ basic_meaning (naming_of names.now) here order (tokens rest.now) }
{
    let given = operand_for(order.row().takes, names, here, rest)?;
    basic_word(meant(order, given), meant_operand(order, given))
}

fn extracode_meaning(
    names: &Names,
    here: u32,
    order: Extracode,
    rest: &[u8],
) -> Result<Narrow, SourceFault>
    ensures { result ≡ extracode_meaning (naming_of names.now) here order (tokens rest.now) }
{
    let given = operand_for(order.row().takes, names, here, rest)?;
    extracode_word(order, given)
}

fn directive_meaning(
    names: &Names,
    site: Site,
    directive: Directive,
    rest: &[u8],
) -> Result<Narrow, SourceFault>
    requires erasable { site.banks.erasable < 8 }
    requires superbank { site.banks.superbank < 8 }
    ensures { result ≡ directive_meaning (naming_of names.now) site.here site.banks directive (tokens rest.now) }
{
    match directive {
        Directive::Oct | Directive::Octal => octal_in(rest).ok_or(SourceFault::BadNumber),
        Directive::Dec => number_word(false, rest),
        Directive::DecStarred => number_word(true, rest),
        Directive::Adres | Directive::Remadr | Directive::Genadr => {
            let place = location_for(names, site.here, rest)?;
            Ok(Narrow::with_bits(any_address(place)))
        }
        Directive::Cadr | Directive::Fcadr => {
            let place = place_in(location_for(names, site.here, rest))?;
            Ok(Narrow::with_bits(complete_address(place)))
        }
        Directive::Ecadr => {
            let cell = cell_in(location_for(names, site.here, rest))?;
            Ok(Narrow::with_bits(cell as u16))
        }
        Directive::Bbcon => {
            let place = place_in(location_for(names, site.here, rest))?;
            Ok(Narrow::with_bits(bank_word(site.banks, place)))
        }
        Directive::VerbNoun | Directive::NounVerb => verb_noun_in(rest),
        Directive::MajorMode => major_mode_in(rest),
        Directive::BbconStarred => starred_bank_word(rest),
        Directive::Dnadr1 => downlink_cell(names, site, 0, rest),
        Directive::Dnadr2 => downlink_cell(names, site, 0o4000, rest),
        Directive::Dnadr3 => downlink_cell(names, site, 0o10000, rest),
        Directive::Dnadr4 => downlink_cell(names, site, 0o14000, rest),
        Directive::Dnadr5 => downlink_cell(names, site, 0o20000, rest),
        Directive::Dnadr6 => downlink_cell(names, site, 0o24000, rest),
        Directive::Dnptr => {
            let address = any_address(location_for(names, site.here, rest)?);
            if address < 0o4000 {
                Ok(Narrow::with_bits(0o30000 + address))
            } else {
                Err(SourceFault::AnotherBank)
            }
        }
        Directive::Dnchan => {
            let channel = channel_at(value_of(names, site.here, rest)?)?;
            Ok(Narrow::with_bits(0o34000 + channel))
        }
        _ => Err(SourceFault::UnknownOrder),
    }
}

/// Encodes a downlink word for a cell.
fn downlink_cell(names: &Names, site: Site, code: u16, rest: &[u8]) -> Result<Narrow, SourceFault>
    requires { code ≤ 0o24000 }
    ensures { result ≡ downlink_word code (cell_in (location_for (naming_of names.now) site.here (tokens rest.now))) }
{
    let cell = cell_in(location_for(names, site.here, rest))?;
    Ok(Narrow::with_bits(code + cell as u16))
}

/// Encodes BBCON*, which has no operand.
fn starred_bank_word(rest: &[u8]) -> Result<Narrow, SourceFault>
    ensures { result ≡ starred_bank_word (tokens rest.now) }
{
    match next_token(rest) {
        Some(_) => Err(SourceFault::BadOperand),
        None => Ok(Narrow::with_bits(0o66100)),
    }
}

/// Parses up to five octal digits, with or without a sign; a minus complements the word.
fn octal_in(rest: &[u8]) -> Option<Narrow>
    ensures { result ≡ octal_in (only_of (tokens rest.now)) }
{
    let word = only_token(rest)?;
    let minus = matches!(word, [b'-', ..]);
    Some(complemented(minus, octal_word(without_sign(word))?))
}

/// Parses a decimal number of one word.
fn number_word(starred: bool, rest: &[u8]) -> Result<Narrow, SourceFault>
    ensures { result ≡ number_word (number_in 14 starred (tokens rest.now)) }
{
    let number = number_in(14, starred, rest)?;
    Ok(Narrow::signed(number.minus, number.magnitude as u16))
}

/// Returns the address of a location, whatever its bank.
fn any_address(location: Location) -> u16
    requires { IsWithin location }
    ensures address { result ≡ any_address location }
    ensures range { result < 0o10000 }
{
    match location {
        Location::Erasable(cell) => cell_address(cell),
        Location::Fixed(place) => listed_address(place as usize),
    }
}

/// Returns the place of a location that must be in fixed memory.
pub fn place_in(location: Result<Location, SourceFault>) -> Result<u32, SourceFault>
    requires { IfOk location IsWithin }
    ensures place { result ≡ place_in location }
    ensures range { IfOk result (λ place. place < fixed_words) }
{
    match location? {
        Location::Fixed(place) => Ok(place),
        Location::Erasable(_) => Err(SourceFault::FixedWanted),
    }
}

/// Returns the cell of a location that must be in erasable memory.
pub fn cell_in(location: Result<Location, SourceFault>) -> Result<u32, SourceFault>
    requires { IfOk location IsWithin }
    ensures cell { result ≡ cell_in location }
    ensures range { IfOk result (λ cell. cell < erasable_cells) }
{
    match location? {
        Location::Erasable(cell) => Ok(cell),
        Location::Fixed(_) => Err(SourceFault::ErasableWanted),
    }
}

/// Returns the superbank that channel 7 holds for a place, or the one that SBANK= said.
pub fn superbank(parsed: u8, place: u32) -> u8
    requires parsed { parsed < 8 }
    requires place { place < fixed_words }
    ensures superbank { result ≡ superbank parsed place }
    ensures range { result < 8 }
{
    let bank = bank_of(place);
    if bank < 0o30 {
        parsed
    } else if bank < 0o40 {
        3
    } else {
        4
    }
}

/// Returns the word for BB that reaches a place.
fn bank_word(banks: Banks, place: u32) -> u16
    requires erasable { banks.erasable < 8 }
    requires superbank { banks.superbank < 8 }
    requires place { place < fixed_words }
    ensures word { result ≡ bank_word banks place }
    ensures range { result < 0o100000 }
{
    let superbank = u16::from(superbank(banks.superbank, place));
    agc_listing::bank_word(place) + 0o20 * superbank + u16::from(banks.erasable)
}

/// Parses a verb and a noun, two digits each.
fn verb_noun_in(rest: &[u8]) -> Result<Narrow, SourceFault>
    ensures { result ≡ verb_noun_in (only_of (tokens rest.now)) }
{
    let Some(word) = only_token(rest) else {
        return Err(SourceFault::BadNumber);
    };
    match read_decimal(4, word) {
        Some(n) => Ok(Narrow::signed(false, (0o200 * (n / 100) + n % 100) as u16)),
        None => Err(SourceFault::BadNumber),
    }
}

/// Parses a major mode of two digits.
fn major_mode_in(rest: &[u8]) -> Result<Narrow, SourceFault>
    ensures { result ≡ major_mode_in (only_of (tokens rest.now)) }
{
    let Some(word) = only_token(rest) else {
        return Err(SourceFault::BadNumber);
    };
    match read_decimal(2, word) {
        Some(n) => Ok(Narrow::signed(false, n as u16)),
        None => Err(SourceFault::BadNumber),
    }
}

/// Returns whether the line behind the word of a line is read as an extracode, as it is behind EXTEND.
pub fn leads_after(operation: &Operation, leads: bool, word: Narrow) -> bool
    ensures { result ≡ (writes_order (tokens operation.now.body.now) && next_is_extracode leads word) }
{
    writes_order(operation) && next_is_extracode(leads, word)
}

/// Returns whether a line writes an order, and not data.
#[tactic(auto, unfolding(crate::specs::Encode::writes_order))]
fn writes_order(operation: &Operation) -> bool
    ensures { result ≡ writes_order (tokens operation.now.body.now) }
{
    match operation.directive {
        Some(_) => false,
        None => offset_below_zero(operation.rest).is_none() && !operation.minus,
    }
}

/// Returns whether a line's words hold the banks that EBANK= and SBANK= name.
#[tactic(auto, unfolding(crate::specs::Encode::is_banked))]
pub fn is_banked(operation: &Operation) -> bool
    ensures { result ≡ is_banked (tokens operation.now.body.now) }
{
    matches!(
        operation.directive,
        Some(Directive::Bbcon | Directive::PairCadr)
    )
}

/// Returns the banks after a word: an EBANK= right before a word for BB holds for this word alone.
pub fn banks_after(banked: bool, banks: Banks) -> Banks
    requires { IfSome banks.before (λ bank. bank < 8) }
    ensures banks { result ≡ banks_after banked banks }
    ensures erasable { banks.erasable < 8 → result.erasable < 8 }
{
    let erasable = match (banked, banks.before) {
        (true, Some(before)) => before,
        _ => banks.erasable,
    };
    Banks {
        erasable,
        before: None,
        superbank: banks.superbank,
    }
}

/// Encodes a two-word line.
#[tactic(auto, unfolding(crate::specs::Encode::encode_pair))]
pub fn encode_pair(names: &Names, site: Site, operation: &Operation) -> Result<Pair, SourceFault>
    requires erasable { site.banks.erasable < 8 }
    requires superbank { site.banks.superbank < 8 }
    ensures { result ≡ encode_pair (naming_of names.now) site.here site.banks (tokens operation.now.body.now) }
{
    let Some(directive) = operation.directive else {
        return Err(SourceFault::BadNumber);
    };
    let pair = pair_by_word(names, site, directive, operation.rest)?;
    Ok(Pair {
        upper: complemented(operation.minus, pair.upper),
        lower: complemented(operation.minus, pair.lower),
    })
}

fn pair_by_word(
    names: &Names,
    site: Site,
    directive: Directive,
    rest: &[u8],
) -> Result<Pair, SourceFault>
    requires erasable { site.banks.erasable < 8 }
    requires superbank { site.banks.superbank < 8 }
    ensures { result ≡ pair_by_word (naming_of names.now) site.here site.banks directive (tokens rest.now) }
{
    match directive {
        Directive::PairDec => pair_of_number(false, rest),
        Directive::PairDecStarred => pair_of_number(true, rest),
        Directive::PairOct => octal_pair_in(rest),
        Directive::PairCadr => {
            let place = place_in(location_for(names, site.here, rest))?;
            Ok(Pair {
                upper: Narrow::with_bits(listed_address(place as usize)),
                lower: Narrow::with_bits(bank_word(site.banks, place)),
            })
        }
        Directive::PairFcadr => {
            let place = place_in(location_for(names, site.here, rest))?;
            Ok(Pair {
                upper: Narrow::with_bits(agc_listing::bank_word(place)),
                lower: Narrow::with_bits(listed_address(place as usize)),
            })
        }
        _ => Err(SourceFault::BadNumber),
    }
}

/// Encodes a decimal number as two words.
fn pair_of_number(starred: bool, rest: &[u8]) -> Result<Pair, SourceFault>
    ensures { result ≡ pair_of_number (number_in 28 starred (tokens rest.now)) }
{
    let number = number_in(28, starred, rest)?;
    Ok(Pair {
        upper: Narrow::signed(number.minus, (number.magnitude / 0o40000) as u16),
        lower: Narrow::signed(number.minus, (number.magnitude % 0o40000) as u16),
    })
}

/// Encodes ten octal digits as two words.
fn octal_pair_in(rest: &[u8]) -> Result<Pair, SourceFault>
    ensures { result ≡ octal_pair_in (only_of (tokens rest.now)) }
{
    let Some(word) = only_token(rest) else {
        return Err(SourceFault::BadNumber);
    };
    match read_octal(10, word) {
        Some(bits) => Ok(Pair {
            upper: Narrow::with_bits((bits / 0o100000) as u16),
            lower: Narrow::with_bits((bits % 0o100000) as u16),
        }),
        None => Err(SourceFault::BadNumber),
    }
}
