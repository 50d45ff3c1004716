//! Prints the text of a rope with names, beside places and as operands.
ghost use Rattle.std.specs.Prelude.{◌≡◌, ◌≤◌, ◌<◌, ◌++◌, IfOk, OnOk, codes, option_map, string_bytes};
ghost use Rattle.agc_word.specs.Number.{pattern_of};
ghost use Rattle.agc_store.specs.Places.{fixed_words};
ghost use Rattle.agc_listing.specs.List.{listed_place};
ghost use Rattle.agc_listing.specs.Order.{FitsPrint, operand_text};
ghost use Rattle.agc_listing.specs.Place.{place_text};
ghost use Rattle.agc_symbols.specs.Channels.{name_of_channel};
ghost use Rattle.agc_symbols.specs.Column.{name_column};
ghost use Rattle.agc_study_args.specs.NamedList.{
  called_or,
  has_name,
  named_alone,
  named_if_listed,
  named_line,
  named_lines,
  named_rope_text,
  name_of,
  operand_called,
  row_of,
};
ghost use Rattle.agc_symbols.specs.Nearest.{as_nearby};

use agc_listing::{
    Location, Operand, is_in_selected_bank, leads_on, next_is_extracode, operand_in, push_operand,
    push_place, rope_place, sure_location,
};
use agc_order::{Basic, Extracode, Row};
use agc_store::Store;
use agc_store::place::FIXED_WORDS;
use agc_symbols::{ChannelTable, Nearest, SymbolTable, push_column, push_nearby};
use agc_word::Narrow;
use std::alloc::{AllocError, Global};

/// A word of a rope, with its place and whether it is an extracode.
#[derive(Clone, Copy)]
struct ListedWord {
    place: usize,
    extracode: bool,
    word: Narrow,
}

/// Prints the rope in a store as `list` of agc_listing does, with the name column of each place, and with the name of an
/// operand in place of its digits if it has one and no unknown bank decides which place it is. Fails if out of memory.
#[tactic(auto, unfolding(crate::specs::NamedList::named_rope_text))]
pub fn list_with_names(
    alloc: Global,
    names: &SymbolTable,
    channels: &ChannelTable,
    store: &Store,
    bank: Option<u8>,
) -> Result<String, AllocError>
    ensures { IfOk result (λ text. string_bytes text
        ≡ named_rope_text names.now channels.now bank store.now.fixed) }
{
    let mut text = String::new(alloc);
    push_words(
        &mut text,
        names,
        channels,
        store,
        bank,
        FIXED_WORDS as usize,
    )?;
    Ok(text)
}

/// Appends the lines of the words at the first `count` places.
fn push_words(
    text: &mut String,
    names: &SymbolTable,
    channels: &ChannelTable,
    store: &Store,
    bank: Option<u8>,
    count: usize,
) -> Result<(), AllocError>
    requires { count ≤ fixed_words }
    ensures { OnOk result (string_bytes text.new ≡ string_bytes text.old
        ++ named_lines count names.now channels.now bank store.now.fixed) }
{
    let mut leads = false;
    for place in 0..count {
        let word = store.fixed_at(place);
        let extracode = leads_on(leads, place);
        let listed = ListedWord {
            place,
            extracode,
            word,
        };
        push_listed(text, names, channels, bank, listed)?;
        leads = next_is_extracode(extracode, word);
    }
    Ok(())
}

/// Appends the line of a word, if it has one.
fn push_listed(
    text: &mut String,
    names: &SymbolTable,
    channels: &ChannelTable,
    bank: Option<u8>,
    listed: ListedWord,
) -> Result<(), AllocError>
    requires { listed.place < fixed_words }
    ensures { OnOk result (string_bytes text.new
        ≡ string_bytes text.old ++ named_if_listed names.now channels.now bank listed) }
{
    if listed.word.bits() != 0 && is_in_selected_bank(bank, listed.place) {
        push_word(text, names, channels, listed)
    } else {
        Ok(())
    }
}

/// Appends the line of a word.
#[tactic(auto, unfolding(crate::specs::NamedList::named_line))]
fn push_word(
    text: &mut String,
    names: &SymbolTable,
    channels: &ChannelTable,
    listed: ListedWord,
) -> Result<(), AllocError>
    requires { listed.place < fixed_words }
    ensures { OnOk result (string_bytes text.new
        ≡ string_bytes text.old ++ named_line names.now channels.now listed) }
{
    let ListedWord {
        place,
        extracode,
        word,
    } = listed;
    let row = row_of(extracode, word);
    push_placed(text, names, place)?;
    write!(text, "{word} ")?;
    text.push_str(row.mnemonic)?;
    let called = name_of(names, channels, listed);
    push_called_operand(text, called, operand_in(row.takes, word))?;
    text.push_str("\n")
}

/// Appends a place and the column of its name.
fn push_placed(text: &mut String, names: &SymbolTable, place: usize) -> Result<(), AllocError>
    requires { place < fixed_words }
    ensures { OnOk result (string_bytes text.new ≡ string_bytes text.old
        ++ (place_text (listed_place place) ++ codes " " ++ name_column names.now (Location.Fixed place))) }
{
    push_place(text, rope_place(place))?;
    text.push_str(" ")?;
    push_column(text, names, Location::Fixed(place as u32))
}

fn row_of(extracode: bool, word: Narrow) -> Row
    ensures mnemonic { result.mnemonic.now ≡ (row_of extracode (pattern_of 15 word)).mnemonic }
    ensures takes { result.takes ≡ (row_of extracode (pattern_of 15 word)).takes }
{
    if extracode {
        Extracode::named_by(word).row()
    } else {
        Basic::named_by(word).row()
    }
}

/// Appends an operand: its name or, if it has none, its address or channel.
fn push_called_operand(
    text: &mut String,
    called: Option<Nearest<'_>>,
    operand: Operand,
) -> Result<(), AllocError>
    requires { FitsPrint operand }
    ensures { OnOk result (string_bytes text.new ≡ string_bytes text.old
        ++ called_or (option_map as_nearby called.entry) (operand_text operand)) }
{
    match called {
        Some(near) => {
            text.push_str(" ")?;
            push_nearby(text, near)
        }
        None => push_operand(text, operand),
    }
}

/// Returns the name of a word's operand.
fn name_of<'a>(
    names: &'a SymbolTable,
    channels: &'a ChannelTable,
    listed: ListedWord,
) -> Option<Nearest<'a>>
    requires { listed.place < fixed_words }
    ensures { option_map as_nearby result
        ≡ name_of names.now channels.now listed.place listed.extracode (pattern_of 15 listed.word) }
{
    let ListedWord {
        place,
        extracode,
        word,
    } = listed;
    if !has_name(extracode, word) {
        return None;
    }
    let row = row_of(extracode, word);
    operand_called(names, channels, place, operand_in(row.takes, word))
}

/// Returns whether the operand of an order may have a name: EDRUPT has no channel.
fn has_name(extracode: bool, word: Narrow) -> bool
    ensures { result ≡ has_name extracode (pattern_of 15 word) }
{
    !(extracode && matches!(Extracode::named_by(word), Extracode::Edrupt))
}

/// Returns the name of an operand of the order at a place.
fn operand_called<'a>(
    names: &'a SymbolTable,
    channels: &'a ChannelTable,
    place: usize,
    operand: Operand,
) -> Option<Nearest<'a>>
    requires place { place < fixed_words }
    requires fits { FitsPrint operand }
    ensures { option_map as_nearby result ≡ operand_called names.now channels.now place operand }
{
    match operand {
        Operand::Nothing => None,
        Operand::Address(address) => match sure_location(place, address) {
            Some(at) => names.operand_at(at),
            None => None,
        },
        Operand::Channel(channel) => channel_called(channels, channel),
    }
}

fn channel_called(channels: &ChannelTable, channel: u16) -> Option<Nearest<'_>>
    ensures { option_map as_nearby result ≡ named_alone (name_of_channel channels.now channel) }
{
    match channels.name(channel) {
        Some(name) => Some(Nearest { name, offset: 0 }),
        None => None,
    }
}
