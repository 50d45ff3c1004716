//! Writes a name with its place, or its channel, as a line of a symbol file.
ghost use Rattle.std.specs.Prelude.{◌≡◌, ◌<◌, ◌++◌, IfSome, OnOk, string_bytes};
ghost use Rattle.agc_listing.specs.Place.{IsInPrint};
ghost use Rattle.agc_symbols.specs.Writing.{channel_line, channel_text, name_line, place_of};

use agc_listing::{Location, Place, cell_address, listed_address, push_place};
use agc_store::place::{ERASABLE_BANK_SIZE, ERASABLE_CELLS, FIXED_WORDS, bank_of};
use std::alloc::{AllocError, Global};

/// Appends the line of a name: its place, a space and the name. A place outside memory has no line. Fails if out of
/// memory.
#[tactic(auto, unfolding(crate::specs::Writing::name_line))]
pub fn push_name_line(
    alloc: Global,
    lines: &mut Vec<u8>,
    at: Location,
    name: &[u8],
) -> Result<(), AllocError>
    ensures { OnOk result (lines.new.items ≡ lines.old.items ++ name_line at name.now) }
{
    let Some(place) = place_of(at) else {
        return Ok(());
    };
    let mut text = String::new(alloc);
    push_place(&mut text, place)?;
    lines.extend_from_slice(text.as_bytes())?;
    lines.push(b' ')?;
    lines.extend_from_slice(name)?;
    lines.push(b'\n')?;
    Ok(())
}

/// Appends the line of a channel's name. Fails if out of memory.
#[tactic(auto, unfolding(crate::specs::Writing::channel_line))]
pub fn push_channel_line(
    alloc: Global,
    lines: &mut Vec<u8>,
    channel: u16,
    name: &[u8],
) -> Result<(), AllocError>
    requires { channel < 512 }
    ensures { OnOk result (lines.new.items ≡ lines.old.items ++ channel_line channel name.now) }
{
    let mut text = String::new(alloc);
    push_channel(&mut text, channel)?;
    lines.extend_from_slice(text.as_bytes())?;
    lines.push(b' ')?;
    lines.extend_from_slice(name)?;
    lines.push(b'\n')?;
    Ok(())
}

fn push_channel(text: &mut String, channel: u16) -> Result<(), AllocError>
    requires { channel < 512 }
    ensures { OnOk result
        (string_bytes text.new ≡ string_bytes text.old ++ channel_text channel) }
{
    write!(text, "C{channel:03o}")
}

/// Returns the printed form of a place, or `None` outside memory.
fn place_of(at: Location) -> Option<Place>
    ensures place { result ≡ place_of at }
    ensures range { IfSome result IsInPrint }
{
    match at {
        Location::Fixed(place) if place < FIXED_WORDS => Some(Place::Fixed {
            bank: bank_of(place),
            address: listed_address(place as usize),
        }),
        Location::Erasable(cell) if cell < u32::from(ERASABLE_CELLS) => Some(Place::Erasable {
            bank: (cell / u32::from(ERASABLE_BANK_SIZE)) as u8,
            address: cell_address(cell),
        }),
        _ => None,
    }
}
