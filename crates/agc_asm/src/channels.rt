//! Collects the names that the orders of a source take as channels.
ghost use Rattle.std.specs.Prelude.{◌≡◌, IfOk, map, option_map};
ghost use Rattle.agc_vocabulary.specs.Body.{plain_line};
ghost use Rattle.agc_asm.specs.Channels.{channels_from, is_both, line_channel, takes_channel_by};
ghost use Rattle.agc_vocabulary.specs.Mnemonic.{extracode_named};
ghost use Rattle.agc_vocabulary.specs.Name.{naming_of};

use agc_encode::SourceLine;
use agc_listing::is_name;
use agc_order::Takes;
use agc_vocabulary::{Names, extracode_named, next_token};
use std::alloc::AllocError;

/// Adds to these names those that the orders of a source take as channels.
#[tactic(auto, unfolding(crate::specs::Channels::channels_from))]
pub fn note_channels<'a>(
    known: Names<'a>,
    lines: &[SourceLine<'a>],
) -> Result<Names<'a>, AllocError>
    ensures { IfOk result (λ names. naming_of names
        ≡ channels_from 1 (naming_of known.entry) (map (λ line. line.text.now) lines.now)) }
{
    let mut names = known;
    let mut number = 0;
    let mut rest = lines;
    while let [line, after @ ..] = rest {
        number += 1;
        if let Some(name) = line_channel(line) {
            names.add_channel(name, number)?;
        }
        rest = after;
    }
    Ok(names)
}

/// Returns the name that a line's order takes as a channel's.
#[tactic(auto, unfolding(crate::specs::Channels::line_channel, agc_vocabulary::specs::Body::spelled))]
fn line_channel<'a>(line: &SourceLine<'a>) -> Option<&'a [u8]>
    ensures { option_map (λ name. name.now) result ≡ line_channel (plain_line line.now.text.now) }
{
    if line.is_listed {
        return None;
    }
    let Some(operation) = &line.operation else {
        return None;
    };
    if !takes_channel(operation.word) {
        return None;
    }
    let (name, _) = next_token(operation.rest)?;
    if is_name(name) && !is_both(name) {
        Some(name)
    } else {
        None
    }
}

/// Returns whether an order reads or writes a channel.
pub(crate) fn takes_channel(order: &[u8]) -> bool
    ensures { result ≡ takes_channel_by (extracode_named order.now) }
{
    match extracode_named(order) {
        Some(order) => matches!(order.row().takes, Takes::Channel),
        None => false,
    }
}

/// Returns whether a name is that of L or Q, which are channels too.
fn is_both(name: &[u8]) -> bool
    ensures { result ≡ is_both name.now }
{
    matches!(name, b"L" | b"Q")
}
