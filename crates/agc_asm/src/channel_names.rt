//! Writes the symbol file of a source, in which the names of channels are marked.
use crate::channels::takes_channel;
use crate::symbol_file::name_lines;
use agc_listing::{Location, cut_label, is_listed, location_named, next_parsed};
use agc_symbols::push_channel_line;
use agc_word::without_return;
use std::alloc::{AllocError, Global};
use std::collections::BTreeMap;

/// What a source uses a name for.
#[derive(Clone, Copy)]
struct Uses {
    as_channel: bool,
    as_place: bool,
}

/// Returns the symbol file of a source: the lines of `name_lines`, but a name that the source uses as a channel gets the
/// line of a channel, `C015 KEYS`. It keeps its line with a cell only if another order uses it too. Fails if out of
/// memory.
pub fn source_symbols(alloc: Global, source: &[u8]) -> Result<Vec<u8>, AllocError> {
    let lines = name_lines(alloc, source)?;
    let uses = uses_in(alloc, source)?;
    let mut written = Vec::new(alloc);
    for line in lines.split(|b| *b == b'\n') {
        if !line.is_empty() {
            push_line(alloc, &mut written, line, &uses)?;
        }
    }
    Ok(written)
}

/// Appends the line of a name, or the line of a channel, or both.
fn push_line(
    alloc: Global,
    written: &mut Vec<u8>,
    line: &[u8],
    uses: &BTreeMap<&[u8], Uses>,
) -> Result<(), AllocError> {
    let mut is_place = true;
    if let Some((channel, name)) = channel_of(line) {
        if let Some(used) = uses.get(name).copied() {
            if used.as_channel && channel < 0o1000 {
                push_channel_line(alloc, written, channel, name)?;
                is_place = used.as_place;
            }
        }
    }
    if is_place {
        written.extend_from_slice(line)?;
        written.push(b'\n')?;
    }
    Ok(())
}

/// Returns the channel that the cell of a line would be, 0 to 777 octal, and the name.
fn channel_of(line: &[u8]) -> Option<(u16, &[u8])> {
    let (place, rest) = next_parsed(line)?;
    let (name, _) = next_parsed(rest)?;
    match location_named(place)? {
        Location::Erasable(cell) if cell < 0o1000 => Some((cell as u16, name)),
        _ => None,
    }
}

/// Returns the operands of a source's orders and directives, and what they are used for.
fn uses_in(alloc: Global, source: &[u8]) -> Result<BTreeMap<&[u8], Uses>, AllocError> {
    let mut uses = BTreeMap::new(alloc);
    for line in source.split(|b| *b == b'\n') {
        let line = without_return(line);
        if is_listed(line) {
            continue;
        }
        let (_, body) = cut_label(line);
        let Some((order, operand)) = next_parsed(body) else {
            continue;
        };
        if let Some((name, _)) = next_parsed(operand) {
            let is_channel = takes_channel(order);
            let mut used = uses.get(name).copied().unwrap_or(Uses {
                as_channel: false,
                as_place: false,
            });
            used.as_channel = used.as_channel || is_channel;
            used.as_place = used.as_place || !is_channel;
            uses.insert(name, used)?;
        }
    }
    Ok(uses)
}
