//! Formats what a breakpoint is at.
ghost use Rattle.std.specs.Prelude.{◌≡◌, ◌≤◌, ◌++◌, OnOk, string_bytes};
ghost use Rattle.agc_word.specs.Channels.{last_io_channel};
ghost use Rattle.agc_word.specs.Octal.{octal_digits};
ghost use Rattle.agc_listing.specs.Location.{IsWithin};
ghost use Rattle.agc_listing.specs.Place.{IsInPrint, place_text};
ghost use Rattle.agc_command.specs.Command.{IsBreakpointInRange, IsChannelInRange};
ghost use Rattle.agc_command.specs.ConditionText.{
  breakpoint_text,
  channel_text,
  interrupt_text,
  location_text,
  word_text,
};

use crate::comparison::push_comparison;
use agc_listing::{Cell, Location, Place, listed_address, push_place};
use agc_processor::Rupt;
use agc_session::Condition;
use agc_store::place::bank_of;
use agc_word::Narrow;
use std::alloc::AllocError;

/// Adds what a breakpoint is at.
#[tactic(auto, unfolding(crate::specs::ConditionText::breakpoint_text, crate::specs::Command::IsBreakpointInRange))]
pub fn push_breakpoint(text: &mut String, what: Condition) -> Result<(), AllocError>
    requires { IsBreakpointInRange what }
    ensures { OnOk result (string_bytes text.new ≡ string_bytes text.old ++ breakpoint_text what) }
{
    match what {
        Condition::Order(place) => {
            text.push_str("order ")?;
            push_location(text, place)
        }
        Condition::OrderIf { place, comparison } => {
            text.push_str("order ")?;
            push_location(text, place)?;
            push_comparison(text, comparison)
        }
        Condition::Write { channel, word } => {
            text.push_str("write")?;
            push_channel_of(text, channel)?;
            push_word_of(text, word)
        }
        Condition::Cell(cell) => {
            text.push_str("cell ")?;
            push_place(text, Cell::new(cell).place())
        }
        Condition::Interrupt(which) => {
            text.push_str("interrupt")?;
            push_interrupt_of(text, which)
        }
        Condition::Caller(_) => text.push_str("caller"),
        Condition::Panel => text.push_str("panel"),
        Condition::Shows(line) => {
            text.push_str("panel ")?;
            line.push_to(text)
        }
        Condition::Boundary => text.push_str("boundary"),
    }
}

/// Adds the channel of a write, if there is one.
fn push_channel_of(text: &mut String, channel: Option<u16>) -> Result<(), AllocError>
    requires { IsChannelInRange channel }
    ensures { OnOk result (string_bytes text.new ≡ string_bytes text.old ++ channel_text channel) }
{
    match channel {
        Some(channel) => {
            text.push_str(" ")?;
            push_channel(text, channel)
        }
        None => Ok(()),
    }
}

/// Adds the word of a write, if there is one.
fn push_word_of(text: &mut String, word: Option<Narrow>) -> Result<(), AllocError>
    ensures { OnOk result (string_bytes text.new ≡ string_bytes text.old ++ word_text word) }
{
    match word {
        Some(word) => write!(text, " {word}"),
        None => Ok(()),
    }
}

/// Adds the name of an interrupt, if there is one.
fn push_interrupt_of(text: &mut String, which: Option<Rupt>) -> Result<(), AllocError>
    ensures { OnOk result (string_bytes text.new ≡ string_bytes text.old ++ interrupt_text which) }
{
    match which {
        Some(rupt) => {
            let name = rupt.name();
            write!(text, " {name}")
        }
        None => Ok(()),
    }
}

/// Adds a channel in three octal digits.
fn push_channel(text: &mut String, channel: u16) -> Result<(), AllocError>
    requires { channel ≤ last_io_channel }
    ensures { OnOk result
        (string_bytes text.new ≡ string_bytes text.old ++ octal_digits 3 channel) }
{
    write!(text, "{channel:03o}")
}

/// Adds a place as traces print it.
fn push_location(text: &mut String, place: Location) -> Result<(), AllocError>
    requires { IsWithin place }
    ensures { OnOk result (string_bytes text.new ≡ string_bytes text.old ++ location_text place) }
{
    push_place(text, place_at(place))
}

/// Returns the printed form of a place.
fn place_at(place: Location) -> Place
    requires { IsWithin place }
    ensures place { place_text result ≡ location_text place }
    ensures range { IsInPrint result }
{
    match place {
        Location::Fixed(place) => Place::Fixed {
            bank: bank_of(place),
            address: listed_address(place as usize),
        },
        Location::Erasable(cell) => Cell::new(cell as u16).place(),
    }
}
