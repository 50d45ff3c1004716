//! Tests worked values, in octal, that show what the definitions mean.
use super::{equal, equal_at};
use agc_word::{
    Carry, Edit, Narrow, Over, Pulse, Wide, and, complement, dabs, modular_difference, or, product,
    quotient, read_decimal, read_octal, sum, widen, xor,
};
use std::process::Abort;

fn narrow(rt: &impl Abort, bits: u16) -> Narrow {
    Narrow::from_bits(bits).expect(rt, "at most 77777")
}

fn wide(bits: u16) -> Wide {
    Wide::from_bits(bits)
}

#[test]
fn patterns(rt: HostRuntime) {
    assert!(rt; Narrow::from_bits(0o100000).is_none());
    for (bits, widened) in [
        (0, 0),
        (0o37777, 0o37777),
        (0o40000, 0o140000),
        (0o77777, 0o177777),
    ] {
        let word = narrow(&rt, bits);
        equal(&rt, word.bits(), bits);
        equal_at(&rt, bits, widen(word).bits(), widened);
    }
}

#[test]
fn zero_sums(rt: HostRuntime) {
    for (x, y, total) in [
        (0o000001, 0o177776, 0o177777),
        (0o000000, 0o177777, 0o177777),
        (0o177777, 0o177777, 0o177777),
        (0o000000, 0o000000, 0o000000),
    ] {
        equal_at(&rt, (x, y), sum(wide(x), wide(y)).bits(), total);
    }
}

#[test]
fn overflow_correction(rt: HostRuntime) {
    equal(&rt, sum(wide(0o077777), wide(0o000001)).bits(), 0o100000);
    equal(&rt, sum(wide(0o100000), wide(0o177776)).bits(), 0o077777);
    for (bits, stored, over) in [
        (0o100000, 0o40000, Over::Minus),
        (0o040000, 0o00000, Over::Plus),
        (0o137777, 0o77777, Over::Minus),
        (0o037777, 0o37777, Over::None),
        (0o140000, 0o40000, Over::None),
    ] {
        let word = wide(bits);
        equal_at(&rt, bits, word.narrow().bits(), stored);
        equal_at(&rt, bits, word.over(), over);
    }
}

#[test]
fn complements_and_diminished_values(rt: HostRuntime) {
    for (bits, other, less) in [
        (0o000000, 0o177777, 0o000000),
        (0o177777, 0o000000, 0o000000),
        (0o000001, 0o177776, 0o000000),
        (0o177776, 0o000001, 0o000000),
        (0o000005, 0o177772, 0o000004),
        (0o177772, 0o000005, 0o000004),
        (0o100000, 0o077777, 0o077776),
    ] {
        let word = wide(bits);
        equal_at(&rt, bits, complement(word).bits(), other);
        equal_at(&rt, bits, dabs(word).bits(), less);
    }
}

#[test]
fn products(rt: HostRuntime) {
    for (a, k, upper, lower) in [
        (0o37777, 0o37777, 0o37776, 0o00001),
        (0o00000, 0o77776, 0o77777, 0o77777),
        (0o77777, 0o00000, 0o00000, 0o00000),
        (0o77777, 0o77777, 0o00000, 0o00000),
        (0o77775, 0o00003, 0o77777, 0o77771),
    ] {
        let (high, low) = product(narrow(&rt, a), narrow(&rt, k));
        equal_at(&rt, (a, k), (high.bits(), low.bits()), (upper, lower));
    }
}

#[test]
fn quotients(rt: HostRuntime) {
    for (a, l, k, pair) in [
        (0o00005, 0o00000, 0o00005, Some((0o37777, 0o00005))),
        (0o00001, 0o77776, 0o00001, Some((0o37777, 0o00000))),
        (0o77776, 0o00001, 0o00001, Some((0o40000, 0o77777))),
        (0o00000, 0o77777, 0o00002, Some((0o77777, 0o77777))),
        (0o00002, 0o00000, 0o00001, None),
        (0o00000, 0o00000, 0o00000, None),
        (0o00000, 0o00001, 0o77777, None),
        (0o77777, 0o77777, 0o00000, None),
    ] {
        let got = match quotient(narrow(&rt, a), narrow(&rt, l), narrow(&rt, k)) {
            Some((whole, rest)) => Some((whole.bits(), rest.bits())),
            None => None,
        };
        equal_at(&rt, (a, l, k), got, pair);
    }
}

#[test]
fn modular_differences(rt: HostRuntime) {
    for (a, k, way) in [
        (0o00000, 0o00001, 0o177776),
        (0o40000, 0o00000, 0o137777),
        (0o00000, 0o40000, 0o137777),
        (0o77777, 0o77777, 0o000000),
        (0o00000, 0o77777, 0o000001),
        (0o37777, 0o00000, 0o037777),
    ] {
        let word = modular_difference(narrow(&rt, a), narrow(&rt, k));
        equal_at(&rt, (a, k), word.bits(), way);
    }
}

#[test]
fn editing_registers(rt: HostRuntime) {
    for (how, bits, edited) in [
        (Edit::Cyr, 0o00001, 0o40000),
        (Edit::Cyr, 0o40000, 0o20000),
        (Edit::Sr, 0o00001, 0o00000),
        (Edit::Sr, 0o40000, 0o60000),
        (Edit::Sr, 0o77777, 0o77777),
        (Edit::Cyl, 0o00001, 0o00002),
        (Edit::Cyl, 0o40000, 0o00001),
        (Edit::Edop, 0o00001, 0o00000),
        (Edit::Edop, 0o77777, 0o00177),
        (Edit::Edop, 0o40177, 0o00000),
    ] {
        equal_at(&rt, (how, bits), narrow(&rt, bits).edit(how).bits(), edited);
    }
}

/// Checks what a pulse makes of a word, and whether it carries.
fn pulses(rt: &impl Abort, kind: Pulse, bits: u16, stepped: u16, carry: Carry) {
    let (word, out) = narrow(rt, bits).pulse(kind);
    equal_at(rt, (kind, bits), (word.bits(), out), (stepped, carry));
}

#[test]
fn counting_pulses(rt: HostRuntime) {
    for (kind, bits, stepped, carry) in [
        (Pulse::Pinc, 0o00000, 0o00001, Carry::None),
        (Pulse::Pinc, 0o77777, 0o00001, Carry::None),
        (Pulse::Pinc, 0o37777, 0o00000, Carry::Out),
        (Pulse::Minc, 0o00001, 0o77777, Carry::None),
        (Pulse::Minc, 0o40000, 0o77777, Carry::Out),
        (Pulse::Dinc, 0o00000, 0o00000, Carry::Out),
        (Pulse::Dinc, 0o77777, 0o77777, Carry::Out),
        (Pulse::Dinc, 0o00001, 0o77777, Carry::None),
        (Pulse::Dinc, 0o77776, 0o77777, Carry::None),
        (Pulse::Dinc, 0o00005, 0o00004, Carry::None),
        (Pulse::Dinc, 0o77772, 0o77773, Carry::None),
    ] {
        pulses(&rt, kind, bits, stepped, carry);
    }
}

#[test]
fn angle_and_shift_pulses(rt: HostRuntime) {
    for (kind, bits, stepped, carry) in [
        (Pulse::Pcdu, 0o77777, 0o00000, Carry::None),
        (Pulse::Pcdu, 0o37777, 0o40000, Carry::None),
        (Pulse::Mcdu, 0o00000, 0o77777, Carry::None),
        (Pulse::Mcdu, 0o40000, 0o37777, Carry::None),
        (Pulse::Shinc, 0o40001, 0o00002, Carry::Out),
        (Pulse::Shinc, 0o20001, 0o40002, Carry::None),
        (Pulse::Shanc, 0o40000, 0o00001, Carry::Out),
        (Pulse::Shanc, 0o20000, 0o40001, Carry::None),
    ] {
        pulses(&rt, kind, bits, stepped, carry);
    }
}

#[test]
fn logical_operations(rt: HostRuntime) {
    let x = wide(0o177700);
    let y = wide(0o000770);
    equal(&rt, and(x, y).bits(), 0o000700);
    equal(&rt, or(x, y).bits(), 0o177770);
    equal(&rt, xor(x, y).bits(), 0o177070);
}

#[test]
fn signs_bits_and_text(rt: HostRuntime) {
    let minus_five = narrow(&rt, 0o77772);
    assert!(rt; minus_five.is_minus());
    equal(&rt, minus_five.magnitude(), 5);
    assert!(rt; minus_five == Narrow::signed(true, 5));
    assert!(rt; minus_five == Narrow::with_bits(0o77772));
    assert!(rt; narrow(&rt, 0o20000).bit(14));
    assert!(rt; !narrow(&rt, 0o20000).bit(15));
    assert!(rt; narrow(&rt, 0) == Narrow::default());
    assert!(rt; narrow(&rt, 0o77777) == Narrow::MINUS_ZERO);
    assert!(rt; wide(0) == Wide::default());
    assert!(rt; wide(0o177777) == Wide::MINUS_ZERO);
    let text = text_of(&rt, narrow(&rt, 5), wide(0o177776));
    equal(&rt, text.as_str(), "00005 177776");
}

fn text_of(rt: &(impl AllocGlobal + Abort), narrow: Narrow, wide: Wide) -> String {
    format!(in rt.alloc(); "{narrow} {wide}")
        .ok()
        .expect(rt, "memory")
}

#[test]
fn numerals(rt: HostRuntime) {
    for (text, octal, decimal) in [
        ("7", Some(7), Some(7)),
        ("007", Some(7), Some(7)),
        ("777", Some(511), Some(777)),
        ("789", None, Some(789)),
        ("0777", None, None),
        ("", None, None),
        ("+7", None, None),
        ("7 ", None, None),
    ] {
        equal_at(&rt, text, read_octal(3, text.as_bytes()), octal);
        equal_at(&rt, text, read_decimal(3, text.as_bytes()), decimal);
    }
    let last = b"7777777777777777777";
    equal(&rt, read_octal(19, last), Some((1 << 57) - 1));
    equal(&rt, read_octal(18, last), None);
}
