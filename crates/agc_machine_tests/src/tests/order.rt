//! Tests words of the instruction memos, each with the order that it encodes.
use super::equal;
use agc_order::{Basic, Extracode};
use agc_word::Narrow;

#[test]
fn basic_orders_by_their_words(rt: HostRuntime) {
    for (word, order) in [
        (0o00003, Basic::Relint),
        (0o00004, Basic::Inhint),
        (0o00005, Basic::Tc),
        (0o00006, Basic::Extend),
        (0o10000, Basic::Ccs),
        (0o12000, Basic::Tcf),
        (0o27777, Basic::Ads),
        (0o34004, Basic::Ca),
        (0o50016, Basic::Index),
        (0o50017, Basic::Resume),
        (0o54100, Basic::Ts),
        (0o77777, Basic::Mask),
    ] {
        equal(
            &rt,
            Basic::named_by(Narrow::with_bits(word % 0o100000)),
            order,
        );
    }
}

#[test]
fn extracodes_by_their_words(rt: HostRuntime) {
    for (word, order) in [
        (0o00015, Extracode::Read),
        (0o01010, Extracode::Write),
        (0o06777, Extracode::Rxor),
        (0o07000, Extracode::Edrupt),
        (0o11777, Extracode::Dv),
        (0o12000, Extracode::Bzf),
        (0o50017, Extracode::Index),
        (0o61777, Extracode::Su),
        (0o62000, Extracode::Bzmf),
        (0o70000, Extracode::Mp),
    ] {
        equal(
            &rt,
            Extracode::named_by(Narrow::with_bits(word % 0o100000)),
            order,
        );
    }
}

/// The cycles that the instruction memos give: TC and TCF one, most orders two, double words and products three, DV
/// six.
#[test]
fn orders_have_their_cycles(rt: HostRuntime) {
    for (order, cycles) in [
        (Basic::Tc, 1),
        (Basic::Extend, 1),
        (Basic::Tcf, 1),
        (Basic::Ccs, 2),
        (Basic::Index, 2),
        (Basic::Resume, 2),
        (Basic::Das, 3),
        (Basic::Dxch, 3),
    ] {
        equal(&rt, order.row().cycles, cycles);
    }
    for (order, cycles) in [
        (Extracode::Read, 2),
        (Extracode::Wand, 2),
        (Extracode::Bzf, 2),
        (Extracode::Dca, 3),
        (Extracode::Mp, 3),
        (Extracode::Dv, 6),
    ] {
        equal(&rt, order.row().cycles, cycles);
    }
}
