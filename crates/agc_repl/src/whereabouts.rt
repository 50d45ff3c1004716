//! Prints where the machine is.
ghost use Rattle.std.specs.Prelude.{◌≡◌, ◌++◌, ◌<◌, ◌%◌, ◌+◌, OnOk, codes, string_bytes};
ghost use Rattle.agc_machine.specs.Boundary.{bank_of_address, in_hand};
ghost use Rattle.agc_store.specs.Places.{fixed_window};
ghost use Rattle.agc_symbols.specs.Nearest.{nearest};
ghost use Rattle.agc_repl.specs.Whereabouts.{
  address_line,
  after_blank,
  interrupted_address,
  interrupted_line,
  is_in_window,
  name_beside,
  place_line,
  service_text,
  where_text,
};

use agc_listing::{Location, Place, location_at, push_place};
use agc_machine::Machine;
use agc_store::place::{ERASABLE_WINDOW, FIXED_FIXED, FIXED_WINDOW, ZRUPT};
use agc_store::{Addr, Store};
use agc_symbols::{SymbolTable, push_nearby};
use agc_trace::order_place;
use std::alloc::AllocError;

/// Adds the line of the order in hand, and while the service of an interrupt runs, that of the order interrupted.
#[tactic(auto, unfolding(crate::specs::Whereabouts::where_text))]
pub(crate) fn push_where(
    text: &mut String,
    names: &Option<SymbolTable>,
    machine: &Machine,
) -> Result<(), AllocError>
    ensures { OnOk result
        (string_bytes text.new ≡ string_bytes text.old ++ where_text names.now machine.now) }
{
    text.push_str("where ")?;
    push_place_line(text, names, machine, address_in_hand(machine))?;
    push_service(text, names, machine)
}

/// Returns the address of the order in hand: one before Z.
#[tactic(auto, unfolding(agc_machine::specs::Boundary::in_hand))]
fn address_in_hand(machine: &Machine) -> Addr
    ensures { result ≡ (in_hand machine.now.processor).address }
{
    machine.store().z().previous()
}

/// Adds the line of the order interrupted, while a service runs.
fn push_service(
    text: &mut String,
    names: &Option<SymbolTable>,
    machine: &Machine,
) -> Result<(), AllocError>
    ensures { OnOk result (string_bytes text.new
        ≡ string_bytes text.old ++ service_text names.now machine.now.processor) }
{
    if machine.serving() {
        push_interrupted(text, names, machine)
    } else {
        Ok(())
    }
}

/// Adds the line of the order interrupted.
fn push_interrupted(
    text: &mut String,
    names: &Option<SymbolTable>,
    machine: &Machine,
) -> Result<(), AllocError>
    ensures { OnOk result (string_bytes text.new ≡ string_bytes text.old ++ codes "service interrupted "
        ++ interrupted_line names.now machine.now.processor (interrupted_address machine.now.processor.store)) }
{
    text.push_str("service interrupted ")?;
    push_interrupted_line(text, names, machine, interrupted_address(machine.store()))
}

/// Adds the rest of the line of an order interrupted: its place, or in a window only its address, because the service
/// may have selected another bank.
#[tactic(auto, unfolding(crate::specs::Whereabouts::interrupted_line))]
fn push_interrupted_line(
    text: &mut String,
    names: &Option<SymbolTable>,
    machine: &Machine,
    address: Addr,
) -> Result<(), AllocError>
    ensures { OnOk result (string_bytes text.new
        ≡ string_bytes text.old ++ interrupted_line names.now machine.now.processor address) }
{
    if is_in_window(address) {
        push_address_line(text, address)
    } else {
        push_place_line(text, names, machine, address)
    }
}

/// Returns whether an address is in a window, so that the selected banks decide which place it names.
fn is_in_window(address: Addr) -> bool
    ensures { result ≡ is_in_window address }
{
    ERASABLE_WINDOW <= address.bits() && address.bits() < FIXED_FIXED
}

/// Adds an address whose bank is not known.
fn push_address_line(text: &mut String, address: Addr) -> Result<(), AllocError>
    ensures { OnOk result (string_bytes text.new ≡ string_bytes text.old ++ address_line address) }
{
    push_place(text, Place::Plain(address.bits()))?;
    text.push_str(" (its bank is not known)\n")
}

/// Returns the address of the order that an interrupt came before: one before that in ZRUPT.
#[tactic(auto, unfolding(crate::specs::Whereabouts::interrupted_address))]
fn interrupted_address(store: &Store) -> Addr
    ensures { result ≡ interrupted_address store.now }
{
    Addr::wrapped(store.cell(0, ZRUPT).bits()).previous()
}

/// Adds the place that an address names with the present banks, with its nearest name if there is one.
#[tactic(auto, unfolding(crate::specs::Whereabouts::place_line))]
fn push_place_line(
    text: &mut String,
    names: &Option<SymbolTable>,
    machine: &Machine,
    address: Addr,
) -> Result<(), AllocError>
    ensures { OnOk result (string_bytes text.new
        ≡ string_bytes text.old ++ place_line names.now machine.now.processor address) }
{
    let bank = bank_of_address(machine, address);
    push_place(text, order_place(bank, address))?;
    push_name_beside(text, names, location_at(bank, address))?;
    text.push_str("\n")
}

/// Returns the bank that an address is in, in the two windows; elsewhere 0.
fn bank_of_address(machine: &Machine, address: Addr) -> u8
    ensures bank { result ≡ bank_of_address address machine.now.processor }
    ensures range { result < 0o50 }
    ensures erasable { address < fixed_window → result < 0o10 }
{
    match address.bits() {
        0..ERASABLE_WINDOW => 0,
        ERASABLE_WINDOW..FIXED_WINDOW => machine.store().erasable_bank(),
        FIXED_WINDOW..FIXED_FIXED => machine.store().selected_bank(),
        _ => 0,
    }
}

/// Adds a space and the nearest name of a place, if there are symbols and it has one.
fn push_name_beside(
    text: &mut String,
    names: &Option<SymbolTable>,
    at: Location,
) -> Result<(), AllocError>
    ensures { OnOk result
        (string_bytes text.new ≡ string_bytes text.old ++ name_beside names.now at) }
{
    match names {
        Some(names) => push_nearest(text, names, at),
        None => Ok(()),
    }
}

/// Adds a space and the nearest name of a place, if it has one.
fn push_nearest(text: &mut String, names: &SymbolTable, at: Location) -> Result<(), AllocError>
    ensures { OnOk result
        (string_bytes text.new ≡ string_bytes text.old ++ after_blank (nearest names.now at)) }
{
    match names.named_at(at) {
        Some(near) => {
            text.push_str(" ")?;
            push_nearby(text, near)
        }
        None => Ok(()),
    }
}
