//! Resolves a symbolic `--until`.
ghost use Rattle.std.specs.Prelude.{◌≡◌, IfErr, IfOk, IfSome, string_bytes};
ghost use Rattle.agc_listing.specs.Place.{IsInPrint, place_text};
ghost use Rattle.agc_listing.specs.Location.{IsWithin};
ghost use Rattle.agc_study_args.specs.Until.{IsUntilWith, stop_place, stop_with, until_with};

use crate::joined::joined;
use agc_listing::{Location, Place, cell_address, push_place, rope_place};
use agc_machine::StopAddress;
use agc_store::place::ERASABLE_BANK_SIZE;
use agc_symbols::{SymbolTable, resolve};
use std::alloc::{AllocError, Global};

/// Replaces a symbolic `--until` by `BANK,ADDR`. Leaves anything else unchanged, also if memory runs out.
pub fn resolve_until(
    alloc: Global,
    names: &Option<SymbolTable>,
    until: &mut Option<String>,
) -> Result<(), AllocError>
    ensures resolved { IfOk result (λ _. IsUntilWith names.now until.old until.new) }
    ensures unchanged { IfErr result (λ _. until.new ≡ until.old) }
{
    *until = resolved_until(alloc, names, until)?;
    Ok(())
}

/// Returns the text of `--until`, if any, with a symbol replaced.
fn resolved_until(
    alloc: Global,
    names: &Option<SymbolTable>,
    until: &Option<String>,
) -> Result<Option<String>, AllocError>
    ensures { IfOk result (IsUntilWith names.now until.now) }
{
    match until {
        Some(text) => Ok(Some(resolved_text(alloc, names, text.as_str())?)),
        None => Ok(None),
    }
}

#[tactic(auto, unfolding(crate::specs::Until::until_with))]
fn resolved_text(
    alloc: Global,
    names: &Option<SymbolTable>,
    text: &str,
) -> Result<String, AllocError>
    ensures { IfOk result (λ resolved. string_bytes resolved ≡ until_with names.now text.now) }
{
    match place_of_stop(alloc, names, text)? {
        Some(at) => stop_text(alloc, at),
        None => String::from_str(alloc, text),
    }
}

/// Returns the location that a text names by a symbol, unless it reads as a stop address.
fn place_of_stop(
    alloc: Global,
    names: &Option<SymbolTable>,
    text: &str,
) -> Result<Option<Location>, AllocError>
    ensures place { IfOk result (λ at. at ≡ stop_with names.now text.now) }
    ensures range { IfOk result (λ at. IfSome at IsWithin) }
{
    if names.is_none() || StopAddress::read(text).is_some() {
        return Ok(None);
    }
    let whole = joined(alloc, text.as_bytes())?;
    Ok(resolve(names, whole.as_slice()))
}

/// Returns a location in the form that `--until` takes.
fn stop_text(alloc: Global, at: Location) -> Result<String, AllocError>
    requires { IsWithin at }
    ensures { IfOk result (λ text. string_bytes text ≡ place_text (stop_place at)) }
{
    let mut text = String::new(alloc);
    push_place(&mut text, stop_place(at))?;
    Ok(text)
}

/// Returns the bank and the address by which an order at a location runs.
fn stop_place(at: Location) -> Place
    requires { IsWithin at }
    ensures place { result ≡ stop_place at }
    ensures range { IsInPrint result }
{
    match at {
        Location::Fixed(place) => rope_place(place as usize),
        Location::Erasable(cell) => Place::Fixed {
            bank: (cell / u32::from(ERASABLE_BANK_SIZE)) as u8,
            address: cell_address(cell),
        },
    }
}
