//! Tests how dumps are merged, worked out by hand.
use super::same;
use agc_mend::{Choice, Decision, Dump, DumpWord, merge, words_at, words_of_choices};
use std::process::Abort;

/// Returns a dump with these words.
fn dump_of(rt: &(impl AllocGlobal + Abort), words: &[u16], has_parity: bool) -> Dump {
    Dump {
        words: Vec::from_slice(rt.alloc(), words).ok().expect(rt, "memory"),
        has_parity,
    }
}

/// Checks the choice at place 3, after three places with the word 34004.
fn is_chosen(
    rt: &(impl AllocGlobal + Abort),
    dumps: &[Dump],
    bits: u16,
    decision: Decision,
    what: &str,
) {
    let choices = merge(rt.alloc(), dumps, 4).ok().expect(rt, "memory");
    let wanted = Choice { bits, decision };
    same(rt, choices.as_slice().get(3).copied(), Some(wanted), what);
}

/// 7009 hex is 34004 octal with its parity bit 1, and has five one bits; 7008 has four. 0 is no word.
#[test]
fn words_decide(rt: HostRuntime) {
    let left = dump_of(
        &rt,
        [0x7009, 0x7008, 0x0000, 0x0000, 0x7008].as_slice(),
        true,
    );
    let right = dump_of(
        &rt,
        [0x7009, 0x7009, 0x7009, 0x0000, 0x7008].as_slice(),
        true,
    );
    let dumps = [left, right];
    let choices = merge(rt.alloc(), dumps.as_slice(), 5)
        .ok()
        .expect(&rt, "memory");
    let wanted = [
        Choice {
            bits: 0x7009,
            decision: Decision::Agreed,
        },
        Choice {
            bits: 0x7009,
            decision: Decision::Parity,
        },
        Choice {
            bits: 0x7009,
            decision: Decision::Agreed,
        },
        Choice {
            bits: 0x0000,
            decision: Decision::Nothing,
        },
        Choice {
            bits: 0x7008,
            decision: Decision::Undecided,
        },
    ];
    same(&rt, choices.as_slice(), wanted.as_slice(), "choices");
    let words = words_of_choices(rt.alloc(), choices.as_slice())
        .ok()
        .expect(&rt, "memory");
    let wanted = [0x7009, 0x7009, 0x7009, 0x0000, 0x7009];
    same(&rt, words.as_slice(), wanted.as_slice(), "words");
    let found = words_at(rt.alloc(), dumps.as_slice(), 2)
        .ok()
        .expect(&rt, "memory");
    let wanted = [DumpWord {
        dump: 1,
        bits: 0x7009,
        has_parity: true,
    }];
    same(&rt, found.as_slice(), wanted.as_slice(), "found");
}

/// Three words 34004 have the ones' complement sum 24015. With 53762 (AFE5 hex with its parity bit) it is 77777, which is
/// right for bank 00; with 34004 or 20000 (4000 hex) it is neither zero.
#[test]
fn sums_and_majorities_decide(rt: HostRuntime) {
    let one = dump_of(&rt, [0x7009, 0x7009, 0x7009, 0x7009].as_slice(), true);
    let sum = dump_of(&rt, [0x7009, 0x7009, 0x7009, 0xAFE5].as_slice(), true);
    let dumps = [one, sum];
    is_chosen(&rt, dumps.as_slice(), 0xAFE5, Decision::Sum, "sum");
    let one = dump_of(&rt, [0x7009, 0x7009, 0x7009, 0x7009].as_slice(), true);
    let two = dump_of(&rt, [0x7009, 0x7009, 0x7009, 0x4000].as_slice(), true);
    let dumps = [one, two];
    is_chosen(
        &rt,
        dumps.as_slice(),
        0x7009,
        Decision::Undecided,
        "neither",
    );
    let one = dump_of(&rt, [0x7009, 0x7009, 0x7009, 0x7009].as_slice(), true);
    let two = dump_of(&rt, [0x7009, 0x7009, 0x7009, 0x4000].as_slice(), true);
    let three = dump_of(&rt, [0x7009, 0x7009, 0x7009, 0x4000].as_slice(), true);
    let dumps = [one, two, three];
    is_chosen(
        &rt,
        dumps.as_slice(),
        0x4000,
        Decision::Majority,
        "majority",
    );
}
