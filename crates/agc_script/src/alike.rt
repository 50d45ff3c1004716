//! Whether two scripts begin with the same events.
ghost use Rattle.std.specs.Prelude.{◌≡◌, ◌≤◌, IsTrue, length, take};

use crate::event::{Event, What};
use crate::key::Key;
use crate::script::Script;
use agc_word::{Narrow, Pulse};

/// Returns whether two scripts both have `count` events or more, and the same first ones.
pub fn begin_alike(one: &Script, other: &Script, count: usize) -> bool
    ensures some { IsTrue result → count ≤ length one.now }
    ensures same { IsTrue result → take count one.now ≡ take count other.now }
{
    if one.len() < count || other.len() < count {
        return false;
    }
    for i in 0..count {
        if !is_same(one.at(i), other.at(i)) {
            return false;
        }
    }
    true
}

/// Returns whether two events are the same.
fn is_same(one: Event, other: Event) -> bool
    ensures { IsTrue result → one ≡ other }
{
    one.cycle == other.cycle && is_same_input(one.what, other.what)
}

/// Returns whether the same happens in two events.
fn is_same_input(one: What, other: What) -> bool
    ensures { IsTrue result → one ≡ other }
{
    match one {
        What::Key(key) => match other {
            What::Key(pressed) => is_same_key(key, pressed),
            _ => false,
        },
        What::Pro(down) => match other {
            What::Pro(pressed) => down == pressed,
            _ => false,
        },
        What::Input { channel, value } => match other {
            What::Input {
                channel: to,
                value: word,
            } => channel == to && is_same_word(value, word),
            _ => false,
        },
        What::Pulse { counter, kind } => match other {
            What::Pulse {
                counter: at,
                kind: pulse,
            } => counter == at && is_same_pulse(kind, pulse),
            _ => false,
        },
        What::Raise(number) => match other {
            What::Raise(requested) => number == requested,
            _ => false,
        },
        What::Poke {
            bank,
            offset,
            value,
        } => match other {
            What::Poke {
                bank: in_bank,
                offset: at,
                value: word,
            } => { bank == in_bank && offset == at && is_same_word(value, word) }
            _ => false,
        },
    }
}

/// Returns whether two keys are the same.
fn is_same_key(one: Key, other: Key) -> bool
    ensures { IsTrue result → one ≡ other }
{
    one == other
}

/// Returns whether two kinds of pulse are the same.
fn is_same_pulse(one: Pulse, other: Pulse) -> bool
    ensures { IsTrue result → one ≡ other }
{
    one == other
}

/// Returns whether two words are the same.
fn is_same_word(one: Narrow, other: Narrow) -> bool
    ensures { IsTrue result → one ≡ other }
{
    one == other
}
