//! Tests the names of operands.
use super::{equal, equal_at};
use agc_listing::Operand;
use agc_operands::{KnownBanks, OperandNames, operand_name, split_names};
use agc_symbols::SymbolTable;
use std::process::Abort;

/// Checks the name of an operand, and how many words it is beyond it.
fn is_named(
    rt: &impl Abort,
    names: OperandNames<'_>,
    operand: Operand,
    banks: KnownBanks,
    wanted: Option<(&str, usize)>,
) {
    let found = match operand_name(names, operand, banks) {
        Some(near) => Some((near.name, near.offset)),
        None => None,
    };
    equal_at(rt, operand, found, wanted);
}

/// The banks decide which place an address in a window is, and without them it has no name. A channel has its own.
#[test]
fn operands_have_the_names_of_their_places(rt: HostRuntime) {
    let file = b"0100 LEFT\nE3,1410 FLAGS\n05,2100 FAR\nC010 OUT0\n";
    let read = SymbolTable::read(rt.alloc(), file).ok();
    let (places, channels) = split_names(rt.alloc(), read);
    let places = places.expect(&rt, "names");
    let names = OperandNames {
        places: &places,
        channels: &channels,
    };
    let banks = KnownBanks {
        erasable: Some(3),
        fixed: Some(5),
    };
    let unknown = KnownBanks::NONE;
    is_named(
        &rt,
        names,
        Operand::Address(0o100),
        unknown,
        Some(("LEFT", 0)),
    );
    is_named(
        &rt,
        names,
        Operand::Address(0o1411),
        banks,
        Some(("FLAGS", 1)),
    );
    is_named(&rt, names, Operand::Address(0o1411), unknown, None);
    is_named(
        &rt,
        names,
        Operand::Address(0o2102),
        banks,
        Some(("FAR", 2)),
    );
    is_named(
        &rt,
        names,
        Operand::Channel(0o10),
        unknown,
        Some(("OUT0", 0)),
    );
    is_named(&rt, names, Operand::Channel(0o11), unknown, None);
    is_named(&rt, names, Operand::Nothing, banks, None);
}

/// An order in a window says its bank. EB and FB after an order say the others, unless it may have written EB, or the superbank
/// counts.
#[test]
fn banks_are_known_by_place_and_registers(rt: HostRuntime) {
    let here = KnownBanks::of_place(5, 0o2100);
    equal(&rt, here.fixed, Some(5));
    equal(&rt, here.erasable, None);
    equal(&rt, KnownBanks::of_place(3, 0o1400).erasable, Some(3));
    equal(&rt, KnownBanks::of_place(0, 0o4000), KnownBanks::NONE);
    let after = here.or_after("CA", Operand::Address(0o1406), 3, 6);
    equal(&rt, after.fixed, Some(5));
    equal(&rt, after.erasable, Some(3));
    let written = here.or_after("TS", Operand::Address(0o1406), 3, 6);
    equal(&rt, written.erasable, None);
    let high = KnownBanks::NONE.or_after("TCF", Operand::Address(0o2100), 3, 0o30);
    equal(&rt, high.fixed, None);
}
