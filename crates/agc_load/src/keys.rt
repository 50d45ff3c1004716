//! Parses the text of live keys.
ghost use Rattle.std.specs.Prelude.{◌≡◌, IfOk, map, option_map};
ghost use Rattle.agc_script.specs.Key.{key_named};
ghost use Rattle.agc_load.specs.Keys.{all_there, is_white, keys_of, names_in};

use agc_script::Key;
use std::alloc::{AllocError, Global};

/// Returns the keys that a text names, in order: names as scripts write them, separated by spaces,
/// tabs, carriage returns and line feeds. Returns `None` if one of the names is not a key.
pub fn keys_of(alloc: Global, text: &[u8]) -> Result<Option<Vec<Key>>, AllocError>
    ensures { IfOk result (λ keys. option_map (λ all. all.items) keys ≡ keys_of text.now) }
{
    let found = named_keys(alloc, text)?;
    all_there(alloc, found.as_slice())
}

/// Returns for each name of a text its key, or `None` if it is not a key.
#[tactic(auto, unfolding(crate::specs::Keys::names_in))]
pub fn named_keys(alloc: Global, text: &[u8]) -> Result<Vec<Option<Key>>, AllocError>
    ensures { IfOk result (λ found. found.items ≡ map key_named (names_in text.now)) }
{
    text.split(|b| is_white(*b))
        .filter(|name| !name.is_empty())
        .map(|name| Key::from_name(name))
        .collect(alloc)
}

/// Returns the keys if all are present.
fn all_there(alloc: Global, found: &[Option<Key>]) -> Result<Option<Vec<Key>>, AllocError>
    ensures { IfOk result (λ keys. option_map (λ all. all.items) keys ≡ all_there found.now) }
{
    let mut keys = Vec::new(alloc);
    for key in found {
        match key {
            Some(key) => keys.push(*key)?,
            None => return Ok(None),
        }
    }
    Ok(Some(keys))
}

/// Returns whether a byte separates the names of keys: a space, a tab, a carriage return or a line feed.
pub fn is_white(b: u8) -> bool
    ensures { result ≡ is_white b }
{
    b == b' ' || b == b'\t' || b == b'\r' || b == b'\n'
}
