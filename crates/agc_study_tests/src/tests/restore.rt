//! Tests what restores a damaged rope, worked out by hand.
use super::{repeated, rope_of, same};
use agc_check::{Damage, Reach, damage_of, follow_orders, reached_places, score_readings};
use agc_listing::PlacedWord;
use agc_load::LoadFault;
use agc_mend::{
    BadWord, BankSum, BitChange, MovedBlock, ParityBit, Reading, Repair, SumFit, Sureness,
    apply_patch, bad_words, check_word, check_words_make_sums_right, convert,
    converting_there_and_back, file_of_words, file_words, files_hold_their_words, fit_of,
    is_bad_parity, is_legal, may_be_modules, moved_blocks, places_apart, push_repair_line, repairs,
    right_parity, sum_in_bank, the_missing_word_makes_the_sum, undo_bit_change, word_sum,
    words_in_banks, words_make_their_file,
};
use agc_store::{RopeFault, RopeForm, Store};
use agc_study_args::{RopeRead, read_any_rope};
use agc_word::Narrow;
use std::process::Abort;

const CLASSIC: Reading = Reading {
    order: RopeForm::Classic,
    parity: ParityBit::Unused,
    is_swapped: false,
};

const PARITY: Reading = Reading {
    order: RopeForm::Parity,
    parity: ParityBit::Last,
    is_swapped: false,
};

/// Bank 00 with parity first and the bytes exchanged.
const ODD: Reading = Reading {
    order: RopeForm::Parity,
    parity: ParityBit::First,
    is_swapped: true,
};

fn store_of(rt: &(impl AllocGlobal + Abort), listing: &str) -> Store {
    Store::new(rope_of(rt, listing))
}

fn narrow(word: u16) -> Narrow {
    Narrow::with_bits(word % 0o100000)
}

#[test]
fn words_with_wrong_parity(rt: HostRuntime) {
    // 7008 hex has four one bits, 7009 five; 0 is a place without a word.
    same(&rt, is_bad_parity(0x7008), true, "four");
    same(&rt, is_bad_parity(0x7009), false, "five");
    let words = [0x0000, 0x0001, 0x7008, 0x7009, 0x0003];
    let bad = bad_words(rt.alloc(), words.as_slice())
        .ok()
        .expect(&rt, "memory");
    let wanted = [
        BadWord {
            place: 2,
            word: 0x7008,
        },
        BadWord {
            place: 4,
            word: 0x0003,
        },
    ];
    same(&rt, bad.as_slice(), wanted.as_slice(), "bad");
    let file = [0x70, 0x08, 0x00, 0x00, 0x00, 0x03];
    let right = right_parity(rt.alloc(), file.as_slice())
        .ok()
        .expect(&rt, "memory");
    let wanted = [0x70, 0x09, 0x00, 0x00, 0x00, 0x02];
    same(&rt, right.as_slice(), wanted.as_slice(), "right");
}

/// Checks how a file in the form with parity is refused.
fn is_refused(
    rt: &(impl AllocGlobal + Abort),
    file: &[u8],
    ignores_parity: bool,
    fault: RopeFault,
) {
    let mut reader = file;
    let read = read_any_rope(rt.alloc(), RopeForm::Parity, ignores_parity, &mut reader);
    same(rt, read.err(), Some(LoadFault::Rope(fault)), "refused");
}

/// 7008 hex is 34004 octal with parity bit 0, and has four one bits.
#[test]
fn damaged_ropes_are_read(rt: HostRuntime) {
    let mut file = [0x70, 0x08, 0x00, 0x0D].as_slice();
    let read = read_any_rope(rt.alloc(), RopeForm::Parity, true, &mut file)
        .ok()
        .expect(&rt, "a rope");
    let RopeRead { rope, wrong } = read;
    let wanted = [BadWord {
        place: 0,
        word: 0x7008,
    }];
    same(&rt, wrong.as_slice(), wanted.as_slice(), "wrong");
    let store = Store::new(rope);
    same(&rt, store.fixed_at(0), narrow(0o34004), "its bits");
    same(&rt, store.fixed_at(1), narrow(0o00006), "the next word");
    let parity = RopeFault::Parity { bank: 0, offset: 0 };
    is_refused(&rt, [0x70, 0x08].as_slice(), false, parity);
    is_refused(&rt, [0x70].as_slice(), true, RopeFault::OddLength);
    is_refused(&rt, [].as_slice(), true, RopeFault::Empty);
    let mut file = [0x70, 0x08].as_slice();
    let read = read_any_rope(rt.alloc(), RopeForm::Classic, true, &mut file)
        .ok()
        .expect(&rt, "a rope");
    same(&rt, read.wrong.len(), 0, "no parity");
}

#[test]
fn words_and_their_bytes(rt: HostRuntime) {
    let words = file_words(rt.alloc(), [0x70, 0x08, 0x01, 0xFF, 0x12].as_slice())
        .ok()
        .expect(&rt, "memory");
    same(&rt, words.as_slice(), [0x7008, 0x01FF].as_slice(), "words");
    let file = file_of_words(rt.alloc(), words.as_slice())
        .ok()
        .expect(&rt, "memory");
    let wanted = [0x70, 0x08, 0x01, 0xFF];
    same(&rt, file.as_slice(), wanted.as_slice(), "file");
    words_make_their_file();
    files_hold_their_words();
}

fn converted(
    rt: &(impl AllocGlobal + Abort),
    before: Reading,
    after: Reading,
    words: &[u16],
) -> Vec<u16> {
    let some = if words.len() > 36864 { &[] } else { words };
    convert(rt.alloc(), before, after, some)
        .ok()
        .expect(rt, "memory")
}

fn at(words: &[u16], index: usize) -> u16 {
    words.get(index).copied().unwrap_or(0)
}

#[test]
fn files_in_other_readings(rt: HostRuntime) {
    // The first word of a classic file is at 02,4000, the 2049th in the plain order of banks.
    let plain = converted(&rt, CLASSIC, PARITY, [0x7008].as_slice());
    same(&rt, plain.len(), 4096, "four banks");
    same(&rt, at(plain.as_slice(), 2048), 0x7009, "02,4000");
    let back = converted(&rt, PARITY, CLASSIC, plain.as_slice());
    same(&rt, back.len(), 4096, "four banks");
    same(&rt, at(back.as_slice(), 0), 0x7008, "classic");
    // 7009 hex with its last bit first is B804, and with its bytes exchanged 04B8.
    let odd = converted(&rt, PARITY, ODD, [0x7009, 0x0001].as_slice());
    same(&rt, odd.as_slice(), [0x04B8, 0x0080].as_slice(), "odd");
    let back = converted(&rt, ODD, PARITY, odd.as_slice());
    same(&rt, back.as_slice(), [0x7009, 0x0001].as_slice(), "back");
    converting_there_and_back();
}

/// In the form with parity a patched word gets its parity bit, and another one keeps its own, right or wrong.
#[test]
fn a_patch_keeps_other_words(rt: HostRuntime) {
    let patched = apply_patch(
        rt.alloc(),
        RopeForm::Parity,
        [0x7008, 0x1111].as_slice(),
        b"00,2000 00006".as_slice(),
    )
    .ok()
    .expect(&rt, "memory");
    let wanted = [0x000D, 0x1111];
    same(&rt, patched.as_slice(), wanted.as_slice(), "words");
}

#[test]
fn sums_of_banks(rt: HostRuntime) {
    // 16,383 and 16,383 are 32,766, one less than the modulus: the sum is -1.
    same(
        &rt,
        word_sum(narrow(0o37777), narrow(0o37777)),
        narrow(0o77776),
        "around",
    );
    same(
        &rt,
        word_sum(narrow(0o00001), narrow(0o77776)),
        narrow(0o77777),
        "zero",
    );
    same(&rt, fit_of(0, narrow(0o77777)), SumFit::Number, "bank 00");
    let store = store_of(&rt, "4000 00001\n4001 77776\n");
    let wanted = BankSum {
        bank: 2,
        sum: narrow(0o77777),
        fit: SumFit::Neither,
        last: 1,
        for_number: narrow(0o00001),
        for_complement: narrow(0o77774),
    };
    same(&rt, sum_in_bank(&store, 2), Some(wanted), "bank 02");
    same(&rt, sum_in_bank(&store, 3), None, "bank 03");
    let named = PlacedWord {
        place: 0o4001,
        word: narrow(0o00001),
    };
    same(&rt, check_word(&store, 2), Some(named), "check word");
    let store = store_of(&rt, "4000 00001\n4001 77774\n");
    let fit = match sum_in_bank(&store, 2) {
        Some(sum) => sum.fit,
        None => SumFit::Neither,
    };
    same(&rt, fit, SumFit::Complement, "complement");
    the_missing_word_makes_the_sum();
    check_words_make_sums_right();
}

#[test]
fn legal_orders(rt: HostRuntime) {
    let store = store_of(&rt, "4000 14000\n05,2000 00001\n");
    for (here, extracode, word, legal) in [
        (0o4000, false, 0o14000, true),
        (0o4000, false, 0o14001, false),
        (0o4000, false, 0o32000, true),
        (0o12000, false, 0o32000, true),
        (0o12000, false, 0o32001, false),
        (0o12000, false, 0o30100, true),
        (0o4000, true, 0o00010, true),
        (0o4000, true, 0o00000, false),
        (0o4000, true, 0o00036, false),
        (0o4000, true, 0o07000, false),
    ] {
        same(
            &rt,
            is_legal(&store, here % 0o110000, extracode, narrow(word)),
            legal,
            "legal",
        );
    }
}

/// Returns the repairs of one of these words.
fn repairs_found(
    rt: &(impl AllocGlobal + Abort),
    store: &Store,
    is_placed: bool,
    wrong: &[BadWord],
    bad: BadWord,
) -> Vec<Repair> {
    if bad.place < 36864 {
        repairs(rt.alloc(), store, is_placed, wrong, bad)
            .ok()
            .expect(rt, "memory")
    } else {
        Vec::new(rt.alloc())
    }
}

#[test]
fn repairs_of_a_word(rt: HostRuntime) {
    // TCF 4000 is 3001 hex with its parity bit; with bit 2 flipped it is 3003 hex, TCF 4001.
    let store = store_of(&rt, "4000 14001\n");
    let bad = BadWord {
        place: 0o4000,
        word: 0x3003,
    };
    let found = repairs_found(&rt, &store, true, [bad].as_slice(), bad);
    same(&rt, found.len(), 16, "sixteen");
    let first = found
        .as_slice()
        .iter()
        .position(|repair| repair.word == narrow(0o14000));
    let illegal = found
        .as_slice()
        .iter()
        .position(|repair| repair.word == narrow(0o14001));
    same(&rt, first < illegal, true, "the legal one first");
}

/// A bad word at 4000: 00006 whose bit of value 2 was read as 0, and 00006 whose parity bit was.
const ONE_FITS: BadWord = BadWord {
    place: 0o4000,
    word: 0x0009,
};

const TWO_FIT: BadWord = BadWord {
    place: 0o4000,
    word: 0x000C,
};

/// Another bad word of bank 02, and one of bank 04.
const BESIDE: BadWord = BadWord {
    place: 0o4001,
    word: 0x0003,
};

const ELSEWHERE: BadWord = BadWord {
    place: 0o10001,
    word: 0x0003,
};

/// Checks how sure the first repair of a bad word in bank 02 is, beside another bad word.
fn is_repaired(
    rt: &(impl AllocGlobal + Abort),
    listing: &str,
    is_placed: bool,
    words: [BadWord; 2],
    wanted: Sureness,
) {
    let store = store_of(rt, listing);
    let found = repairs_found(rt, &store, is_placed, words.as_slice(), words[0]);
    let first = found.as_slice().first().map(|repair| repair.sureness);
    same(rt, first, Some(wanted), listing);
}

/// In bank 02 are 00006 and 77773, which is -4: the sum is 2. In bank 04 are 00006 and 77775, which is -2: the sum is 4. With
/// another word in place of 00006 the sum of bank 02 is right if the word is 6, or 2 for the complement.
#[test]
fn sure_repairs(rt: HostRuntime) {
    let read = "4000 00004\n4001 77773\n04,2000 00006\n04,2001 77775\n";
    is_repaired(&rt, read, true, [ONE_FITS, ELSEWHERE], Sureness::Sure);
    is_repaired(&rt, read, false, [ONE_FITS, ELSEWHERE], Sureness::Fits);
    is_repaired(&rt, read, true, [ONE_FITS, BESIDE], Sureness::Fits);
    is_repaired(&rt, read, true, [TWO_FIT, ELSEWHERE], Sureness::Fits);
    let alone = "4000 00004\n4001 77773\n";
    is_repaired(&rt, alone, true, [ONE_FITS, ELSEWHERE], Sureness::Fits);
    let others_wrong = "4000 00004\n4001 77773\n04,2000 00006\n05,2000 00006\n06,2000 00006\n";
    is_repaired(
        &rt,
        others_wrong,
        true,
        [ONE_FITS, ELSEWHERE],
        Sureness::Fits,
    );
}

#[test]
fn lines_of_repairs(rt: HostRuntime) {
    let store = store_of(&rt, "4000 00004\n");
    let repair = Repair {
        place: 0o4000,
        word: narrow(0o00006),
        is_legal: true,
        plausibility: 12,
        sureness: Sureness::Sure,
    };
    let mut text = String::new(rt.alloc());
    push_repair_line(&mut text, &store, repair).expect(&rt, "memory");
    let wanted = "02,4000 00006 EXTEND (sure if no other word of this bank is wrong)\n";
    same(&rt, text.as_str(), wanted, "line");
}

/// Checks what the words with wrong parity come from.
fn is_damaged(rt: &(impl AllocGlobal + Abort), words: &[u16], wanted: Damage, row: &str) {
    let wrong = bad_words(rt.alloc(), words).ok().expect(rt, "memory");
    same(rt, damage_of(words, wrong.as_slice()), wanted, row);
}

#[test]
fn kinds_of_damage(rt: HostRuntime) {
    // Three bad words of four. The last bit and the first twelve are the same in all three.
    let words = [0x0003, 0x0005, 0x0009, 0x0007];
    is_damaged(&rt, words.as_slice(), Damage::Layout, "several bits");
    // Three bad words of four: only the bit of value 2 is the same in all three.
    let words = [0x0003, 0x5556, 0xAAAA, 0x0007];
    is_damaged(&rt, words.as_slice(), Damage::Stuck(1), "one bit");
    let words = [0x0003, 0x0001, 0x0002];
    is_damaged(&rt, words.as_slice(), Damage::Words, "one word");
    // Two bad words before 22 equal ones, which count once.
    let words = [
        3, 5, 7, 7, 7, 7, 7, 7, 7, 7, 7, 7, 7, 7, 7, 7, 7, 7, 7, 7, 7, 7, 7, 7,
    ];
    is_damaged(&rt, words.as_slice(), Damage::Layout, "equal neighbours");
}

#[test]
fn bits_that_changed(rt: HostRuntime) {
    for (change, reading, word) in [
        (BitChange::Nothing, PARITY, 0x7009),
        (BitChange::Inverted, PARITY, 0x8FF6),
        (BitChange::WordInverted, PARITY, 0x8FF7),
        (BitChange::WordInverted, ODD, 0x8F76),
        (BitChange::Reversed, PARITY, 0x900E),
    ] {
        let new = undo_bit_change(rt.alloc(), reading, change, [0x7009].as_slice())
            .ok()
            .expect(&rt, "memory");
        same(&rt, new.as_slice(), [word].as_slice(), "bits");
    }
}

#[test]
fn modules_in_their_banks(rt: HostRuntime) {
    same(&rt, may_be_modules(12288), true, "six banks");
    same(&rt, may_be_modules(12290), false, "a word more");
    same(&rt, may_be_modules(73728), false, "a rope");
    let placed = words_in_banks(rt.alloc(), RopeForm::Parity, 1, [7, 8].as_slice())
        .ok()
        .expect(&rt, "memory")
        .expect(&rt, "room");
    same(&rt, placed.len(), 1026, "a bank before");
    same(&rt, at(placed.as_slice(), 1025), 8, "the last word");
    // In the classic form bank 00 is the third of the file.
    let placed = words_in_banks(rt.alloc(), RopeForm::Classic, 0, [7].as_slice())
        .ok()
        .expect(&rt, "memory")
        .expect(&rt, "room");
    same(&rt, placed.len(), 4096, "four banks");
    same(&rt, at(placed.as_slice(), 2048), 7, "bank 00");
    let bytes = repeated(&rt, 0, 2050);
    let long = file_words(rt.alloc(), bytes.as_slice())
        .ok()
        .expect(&rt, "memory");
    let placed = words_in_banks(rt.alloc(), RopeForm::Parity, 0o43, long.as_slice())
        .ok()
        .expect(&rt, "memory");
    same(&rt, placed.is_none(), true, "past bank 43");
}

#[test]
fn orders_that_are_reached(rt: HostRuntime) {
    // INHINT, TCF 4003, a word that nothing reaches, TCF 4003.
    let store = store_of(&rt, "4000 00004\n4001 14003\n4002 00001\n4003 14003\n");
    let wanted = Reach {
        words: 4,
        reached: 3,
        legal: 3,
        starts: 1,
        unreached: 1,
    };
    let reported = follow_orders(rt.alloc(), &store).ok().expect(&rt, "memory");
    same(&rt, reported, wanted, "reach");
    let places = reached_places(rt.alloc(), &store)
        .ok()
        .expect(&rt, "memory");
    let wanted = [true, true, false, true, false];
    let reported = places.as_slice().get(0o4000..0o4005);
    same(&rt, reported, Some(wanted.as_slice()), "places");
    let scores = score_readings(rt.alloc(), [0x0008, 0x3006, 0x0002, 0x3006].as_slice())
        .ok()
        .expect(&rt, "memory");
    same(&rt, scores.len(), 48, "four times twelve");
    let first = scores.as_slice().iter().next().copied();
    let points = match first {
        Some(score) => score.points,
        None => 0,
    };
    same(&rt, points, 3, "classic");
}

#[test]
fn words_of_two_ropes(rt: HostRuntime) {
    let first = store_of(&rt, "4000 00004\n4001 14003\n4002 00001\n4003 14003\n");
    let second = store_of(&rt, "4000 00004\n4002 14003\n4003 00001\n4004 14003\n");
    let apart = places_apart(rt.alloc(), &first, &second)
        .ok()
        .expect(&rt, "memory");
    let wanted = [0o4001, 0o4002, 0o4003, 0o4004];
    same(&rt, apart.as_slice(), wanted.as_slice(), "places");
    let blocks = moved_blocks(rt.alloc(), &first, &second, 3)
        .ok()
        .expect(&rt, "memory");
    // The words behind the third one are +0 in both ropes.
    let wanted = [MovedBlock {
        source: 0o4001,
        target: 0o4002,
        count: 3,
    }];
    same(&rt, blocks.as_slice(), wanted.as_slice(), "blocks");

    // Four words are in the first rope at 4000 and at 4020. One of them changed, so nothing moved.
    let repeated =
        "4000 00001\n4001 00002\n4002 00003\n4003 00004\n4020 00001\n4021 00002\n4022 00003\n4023 00004\n";
    let changed =
        "4000 00007\n4001 00002\n4002 00003\n4003 00004\n4020 00001\n4021 00002\n4022 00003\n4023 00004\n";
    let first = store_of(&rt, repeated);
    let second = store_of(&rt, changed);
    let blocks = moved_blocks(rt.alloc(), &first, &second, 3)
        .ok()
        .expect(&rt, "memory");
    same(&rt, blocks.is_empty(), true, "nothing moved");
}
