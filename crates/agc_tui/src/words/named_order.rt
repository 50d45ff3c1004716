//! Prints what happened, or will happen, with the operand of an order by its name.
ghost use Rattle.agc_machine.specs.Boundary.{HasPlace};
ghost use Rattle.agc_machine.specs.declared.upcoming.Upcoming.TheVariants as upcoming;
ghost use Rattle.agc_trace.specs.Entry.{FitsLine};
ghost use Rattle.agc_listing.specs.Order.{FitsPrint};

use agc_listing::{Operand, location_at, operand_in, push_operand, push_place};
use agc_machine::{InHand, Machine, Upcoming};
use agc_operands::{KnownBanks, OperandNames, operand_name};
use agc_order::{Basic, Extracode};
use agc_symbols::{Nearest, push_column, push_nearby};
use agc_trace::{Entry, Registers, order_place, push_happening, push_named_happening};
use std::alloc::AllocError;

/// Adds what happened in a boundary. With names, an order has the name of its place, and its operand by its name if place and
/// registers tell which it is.
pub(crate) fn push_happened(
    text: &mut String,
    names: Option<OperandNames<'_>>,
    entry: &Entry,
) -> Result<(), AllocError>
    requires { FitsLine entry.now }
{
    let happening = entry.happening;
    match names {
        Some(names) => push_called(text, names, happening, banks_before(entry)),
        None => push_happening(text, happening),
    }
}

/// Adds what comes next, an order with the names of its place and its operand if there are names.
pub(crate) fn push_coming(
    text: &mut String,
    names: Option<OperandNames<'_>>,
    machine: &Machine,
) -> Result<(), AllocError> {
    let next = machine.upcoming();
    match names {
        Some(names) => push_called(text, names, next, banks_of(machine)),
        None => push_happening(text, next),
    }
}

/// Returns the banks that the windows show now.
fn banks_of(machine: &Machine) -> KnownBanks {
    KnownBanks {
        erasable: Some(machine.store().erasable_bank()),
        fixed: Some(machine.store().selected_bank()),
    }
}

/// Returns the banks that the windows showed before a boundary, as far as its order and the registers after it tell.
fn banks_before(entry: &Entry) -> KnownBanks {
    match entry.happening {
        Upcoming::Order(order) => banks_before_order(&order, entry.registers),
        Upcoming::Stop(_) | Upcoming::Event(_) | Upcoming::Timer(_) | Upcoming::Interrupt(_) => {
            KnownBanks::NONE
        }
    }
}

fn banks_before_order(order: &InHand, after: Registers) -> KnownBanks {
    let known = KnownBanks::of_place(order.bank, order.address.bits());
    known.or_after(
        mnemonic_of(*order),
        operand_of(*order),
        after.erasable_bank,
        after.fixed_bank,
    )
}

fn push_called(
    text: &mut String,
    names: OperandNames<'_>,
    happening: Upcoming,
    banks: KnownBanks,
) -> Result<(), AllocError>
    requires { HasPlace happening }
{
    match happening {
        Upcoming::Order(order) => push_order_called(text, names, &order, banks),
        Upcoming::Stop(_) | Upcoming::Event(_) | Upcoming::Timer(_) | Upcoming::Interrupt(_) => {
            push_named_happening(text, names.places, happening)
        }
    }
}

/// Adds an order with its place, its name column and its word, and its operand by its name, if it has one.
fn push_order_called(
    text: &mut String,
    names: OperandNames<'_>,
    order: &InHand,
    banks: KnownBanks,
) -> Result<(), AllocError>
    requires { HasPlace (upcoming.Order order.now) }
{
    let (bank, address, word) = (order.bank, order.address, order.word);
    push_place(text, order_place(bank, address))?;
    text.push_str(" ")?;
    push_column(text, names.places, location_at(bank, address))?;
    write!(text, "{word} ")?;
    text.push_str(mnemonic_of(*order))?;
    match name_of_operand(names, order, banks) {
        Some(near) => {
            text.push_str(" ")?;
            push_nearby(text, near)
        }
        None => push_operand(text, operand_of(*order)),
    }
}

/// Returns the name of the operand of an order, if it has one. EDRUPT has no operand.
fn name_of_operand<'a>(
    names: OperandNames<'a>,
    order: &InHand,
    banks: KnownBanks,
) -> Option<Nearest<'a>> {
    if mnemonic_of(*order).as_bytes() == b"EDRUPT".as_slice() {
        return None;
    }
    operand_name(names, operand_of(*order), banks)
}

fn mnemonic_of(order: InHand) -> &'static str {
    if order.extracode {
        Extracode::named_by(order.word).row().mnemonic
    } else {
        Basic::named_by(order.word).row().mnemonic
    }
}

fn operand_of(order: InHand) -> Operand
    ensures { FitsPrint result }
{
    let word = order.word;
    let takes = if order.extracode {
        Extracode::named_by(word).row().takes
    } else {
        Basic::named_by(word).row().takes
    };
    operand_in(takes, word)
}
