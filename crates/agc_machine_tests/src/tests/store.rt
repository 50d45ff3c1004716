//! Tests ropes, banks and registers on worked examples, with the values that the machine's rules give.
ghost use Rattle.std.specs.Prelude.{◌≡◌, ◌<◌};

use super::{equal, equal_at};
use agc_store::place::{A, BB, CYL, CYR, EB, EDOP, FB, L, Q, SR, Z, ZERO};
use agc_store::{Addr, Rope, RopeFault, RopeForm, Store};
use agc_word::{Narrow, Wide};
use std::process::Abort;

/// The banks in the order of a classic file.
const FIRST_BANKS: [usize; 4] = [2, 3, 0, 1];

/// Returns a file of `len` bytes in which each word differs from the next: word j is j plus 1, in the left fifteen
/// bits.
fn counting_file(rt: &(impl AllocGlobal + Abort), len: usize) -> Vec<u8> {
    let mut bytes = Vec::new(rt.alloc());
    for place in 0..len {
        let word = (place / 2 % 32767 + 1) * 2;
        let byte = if place % 2 == 0 {
            word / 256
        } else {
            word % 256
        };
        assert!(rt; bytes.push((byte % 256) as u8).is_ok());
    }
    bytes
}

/// Returns a memory with all 36 banks, in which the first word of each bank is the bank's number.
fn store_of_banks(rt: &(impl AllocGlobal + Abort)) -> Store {
    let mut bytes = Vec::new(rt.alloc());
    for index in 0..36 {
        let bank = if index < 4 { FIRST_BANKS[index] } else { index };
        assert!(rt; bytes.extend_from_slice(&[0, (2 * bank) as u8]).is_ok());
        assert!(rt; bytes.resize(2048 * (index + 1), 0).is_ok());
    }
    store_of(rt, &bytes)
}

/// Returns a file of `words` equal words.
fn repeated(rt: &(impl AllocGlobal + Abort), word: [u8; 2], words: usize) -> Vec<u8> {
    let mut bytes = Vec::new(rt.alloc());
    for _ in 0..words {
        append(rt, &mut bytes, &word);
    }
    bytes
}

fn append(rt: &impl Abort, file: &mut Vec<u8>, bytes: &[u8]) {
    assert!(rt; file.extend_from_slice(bytes).is_ok());
}

/// Returns the memory with the rope of a classic file.
fn store_of(rt: &(impl AllocGlobal + Abort), bytes: &[u8]) -> Store {
    Store::new(Rope::read(rt.alloc(), bytes).ok().expect(rt, "a rope"))
}

fn empty_store(rt: &(impl AllocGlobal + Abort)) -> Store {
    store_of(rt, &[0, 0])
}

/// Returns the fault of a classic file.
fn fault(rt: &impl AllocGlobal, bytes: &[u8]) -> Option<RopeFault> {
    Rope::read(rt.alloc(), bytes).err()
}

/// Returns the fault of a file in the parity form.
fn parity_fault(rt: &impl AllocGlobal, bytes: &[u8]) -> Option<RopeFault> {
    Rope::read_as(rt.alloc(), RopeForm::Parity, bytes).err()
}

/// Checks that the one-word file in the parity form has this word.
fn reads_with_parity(rt: &(impl AllocGlobal + Abort), bytes: [u8; 2], word: u16) {
    let rope = Rope::read_as(rt.alloc(), RopeForm::Parity, &bytes)
        .ok()
        .expect(rt, "a rope");
    equal(rt, Store::new(rope).fixed(0, 0).bits(), word);
}

fn at(number: u16) -> Addr
    requires { number < 4096 }
    ensures { result ≡ number }
{
    Addr::new(number).unwrap()
}

fn word(bits: u16) -> Narrow
    requires { bits < 32768 }
{
    Narrow::with_bits(bits)
}

#[test]
fn rope_sizes(rt: HostRuntime) {
    let long = counting_file(&rt, 73730);
    for (len, wanted) in [
        (0, Some(RopeFault::Empty)),
        (2, None),
        (3, Some(RopeFault::OddLength)),
        (73728, None),
        (73729, Some(RopeFault::OddLength)),
        (73730, Some(RopeFault::TooLong)),
    ] {
        assert!(rt; len <= long.len());
        equal_at(&rt, len, fault(&rt, &long[..len]), wanted);
    }
    check_banks(&rt, &store_of(&rt, &counting_file(&rt, 73728)));
}

/// Checks the first words of banks 02, 00 and 04.
fn check_banks(rt: &impl Abort, store: &Store) {
    equal(rt, store.fixed(0o02, 0), word(1));
    equal(rt, store.fixed(0o00, 0), word(4096 / 2 + 1));
    equal(rt, store.fixed(0o04, 0), word(8192 / 2 + 1));
}

#[test]
fn rope_prefixes(rt: HostRuntime) {
    let full = counting_file(&rt, 73728);
    for len in 0..4101 {
        check_prefix(&rt, &full, len);
    }
    for bank in 1..37 {
        for len in 2048 * bank - 1..2048 * bank + 2 {
            if len <= full.len() {
                check_prefix(&rt, &full, len);
            }
        }
    }
}

/// Checks the prefix of `len` bytes: it is rejected if it is empty or odd; otherwise its words come in the classic
/// order, with +0 past its end.
fn check_prefix(rt: &(impl AllocGlobal + Abort), file: &[u8], len: usize) {
    assert!(rt; len <= file.len());
    match Rope::read(rt.alloc(), &file[..len]) {
        Ok(rope) => {
            equal_at(rt, len, None, fault_of_length(len));
            check_last_word(rt, &Store::new(rope), len / 2);
        }
        Err(fault) => equal_at(rt, len, Some(fault), fault_of_length(len)),
    }
}

fn fault_of_length(len: usize) -> Option<RopeFault> {
    if len == 0 {
        return Some(RopeFault::Empty);
    }
    if len % 2 == 1 {
        return Some(RopeFault::OddLength);
    }
    None
}

/// Checks that the last of `words` words has its number, and that +0 follows.
fn check_last_word(rt: &impl Abort, store: &Store, words: usize) {
    assert!(rt; words > 0);
    let last = words - 1;
    equal_at(
        rt,
        words,
        file_word(rt, store, last),
        (last % 32767 + 1) as u16,
    );
    if words < 36864 {
        equal_at(rt, words, file_word(rt, store, words), 0);
    }
}

/// Returns the pattern of the fixed word at a word index of a classic file.
fn file_word(rt: &impl Abort, store: &Store, index: usize) -> u16 {
    assert!(rt; index < 36864);
    let bank = index / 1024;
    let bank = if bank < 4 { FIRST_BANKS[bank] } else { bank };
    store.fixed(bank as u8, (index % 1024) as u16).bits()
}

#[test]
fn parity_words(rt: HostRuntime) {
    reads_with_parity(&rt, [0x00, 0x01], 0);
    reads_with_parity(&rt, [0x30, 0x01], 0o14000);
    reads_with_parity(&rt, [0x00, 0x00], 0);
    let wrong = RopeFault::Parity { bank: 0, offset: 0 };
    equal(&rt, parity_fault(&rt, &[0x30, 0x00]), Some(wrong));
    equal(
        &rt,
        parity_fault(&rt, &[0, 0, 1]),
        Some(RopeFault::OddLength),
    );
    let zeros = repeated(&rt, [0, 0], 36865);
    equal(&rt, parity_fault(&rt, &zeros), Some(RopeFault::TooLong));
    let ones = repeated(&rt, [0, 1], 36864);
    equal(&rt, parity_fault(&rt, &ones), None);
}

#[test]
fn parity_fault_place(rt: HostRuntime) {
    let mut bytes = repeated(&rt, [0, 1], 1024);
    append(&rt, &mut bytes, &[0x00, 0x00, 0x30, 0x00]);
    let wrong = Some(RopeFault::Parity { bank: 1, offset: 1 });
    equal(&rt, parity_fault(&rt, &bytes), wrong);

    // A second bad word does not change the place, and the classic form has no parity.
    append(&rt, &mut bytes, &[0x30, 0x00]);
    equal(&rt, parity_fault(&rt, &bytes), wrong);
    equal(&rt, fault(&rt, &bytes), None);
}

#[test]
fn editing_registers(rt: HostRuntime) {
    let mut store = empty_store(&rt);
    store.write(at(CYR), Wide::from_bits(1));
    store.write(at(SR), Wide::from_bits(1));
    store.write(at(CYL), Wide::from_bits(1));
    store.write(at(EDOP), Wide::from_bits(1));
    equal(&rt, store.read(at(CYR)).bits(), 0o140000);
    equal(&rt, store.read(at(SR)).bits(), 0o000000);
    equal(&rt, store.read(at(CYL)).bits(), 0o000002);
    equal(&rt, store.read(at(EDOP)).bits(), 0o000000);
    store.reedit(at(CYR));
    equal(&rt, store.read(at(CYR)).bits(), 0o020000);
    equal(&rt, store.read(at(CYL)).bits(), 0o000002);

    // A read that edits again, through the window at 1400 octal with EB 0; and a poke, which does not edit.
    equal(&rt, store.read_and_edit(at(0o1422)).bits(), 0o000002);
    equal(&rt, store.read(at(CYL)).bits(), 0o000004);
    store.poke(0, EDOP, word(0o77777));
    equal(&rt, store.cell(0, EDOP).bits(), 0o77777);
}

#[test]
fn fixed_banks_and_superbank(rt: HostRuntime) {
    let mut store = store_of_banks(&rt);
    selects(&rt, &mut store, 0o160000, 0o30, 0o40);
    selects(&rt, &mut store, 0o156000, 0o27, 0o27);
    selects(&rt, &mut store, 0o170000, 0o34, 0);
    equal(&rt, store.selected_bank(), 0o44);
    store.write(at(BB), Wide::from_bits(0o160005));
    equal(&rt, store.read(at(FB)).bits(), 0o160000);
    equal(&rt, store.read(at(EB)).bits(), 0o002400);
    equal(&rt, store.read(at(BB)).bits(), 0o160005);
    equal(&rt, store.fetch(at(0o4000)).bits(), 0o02);
    equal(&rt, store.fetch(at(0o6000)).bits(), 0o03);
}

/// Checks that FB selects one bank while the superbank is off, and another while it is on.
fn selects(rt: &impl Abort, store: &mut Store, fb: u16, off: u16, on: u16) {
    store.write(at(FB), Wide::from_bits(fb));
    store.set_superbank(false);
    equal_at(rt, (fb, "off"), store.fetch(at(0o2000)).bits(), off);
    store.set_superbank(true);
    assert!(rt; store.superbank());
    equal_at(rt, (fb, "on"), store.fetch(at(0o2000)).bits(), on);
}

#[test]
fn a_jump_fetches_and_counts_on(rt: HostRuntime) {
    let mut store = store_of_banks(&rt);
    jumps(&rt, &mut store, 0o6000, 0o03);
    jumps(&rt, &mut store, 0o2000, 0o00);

    // Z shows where the jump went.
    jumps(&rt, &mut store, 5, 0o00005);
}

/// Checks that a jump to an address fetches this word, and that Z is one past it.
fn jumps(rt: &impl Abort, store: &mut Store, address: u16, fetched: u16)
    requires { address < 4095 }
{
    equal_at(rt, address, store.fetch_at(at(address)).bits(), fetched);
    equal_at(rt, address, store.z(), at(address + 1));
}

#[test]
fn kept_erasable_bank(rt: HostRuntime) {
    let mut store = empty_store(&rt);
    equal(&rt, store.named_cell(at(0o1403)), Some(3));
    store.write(at(0o1403), Wide::from_bits(0o002400));
    store.write(at(0o1400), Wide::from_bits(0o000007));
    equal(&rt, store.cell(5, 0), word(0o00007));
    store.write_in_range(at(0o1401), Wide::from_bits(0o000011));
    equal(&rt, store.cell(5, 1), word(0o00011));
    store.write_in_range(at(0o100), Wide::from_bits(0o000012));
    equal(&rt, store.cell(0, 0o100), word(0o00012));
    equal(&rt, store.read(at(EB)).bits(), 0o002400);
    equal(&rt, store.erasable_bank(), 5);
    equal(&rt, store.named_cell(at(0o1400)), Some(5 * 0o400));
    equal(&rt, store.named_cell(at(0o2000)), None);
}

#[test]
fn registers_keep_their_bits(rt: HostRuntime) {
    let mut store = empty_store(&rt);
    store.set_a(Wide::from_bits(0o040001));
    store.set_q(Wide::from_bits(0o137776));
    store.set_l(word(0o12345));
    store.set_z(at(0o7777));
    equal(&rt, store.a().bits(), 0o040001);
    equal(&rt, store.q().bits(), 0o137776);
    equal(&rt, store.l().bits(), 0o12345);
    equal(&rt, store.z().bits(), 0o7777);
    // The overflow is corrected.
    equal(&rt, store.fetch(at(A)).bits(), 0o00001);
    equal(&rt, store.cell(0, Q).bits(), 0o77776);
    keeps(&rt, &mut store, L, 0o177777);
    keeps(&rt, &mut store, EB, 0o003400);
    keeps(&rt, &mut store, FB, 0o176000);
    keeps(&rt, &mut store, Z, 0o007777);
    keeps(&rt, &mut store, ZERO, 0);
    equal(&rt, store.read(at(BB)).bits(), 0o176007);
}

/// Checks which bits a register keeps of a word with every bit set.
fn keeps(rt: &impl Abort, store: &mut Store, register: u16, kept: u16)
    requires { register < 8 }
{
    store.write(at(register), Wide::from_bits(0o177777));
    equal_at(rt, register, store.read(at(register)).bits(), kept);
}

#[test]
fn addresses_wrap(rt: HostRuntime) {
    assert!(rt; Addr::new(0o7777).is_some());
    assert!(rt; Addr::new(0o10000).is_none());
    equal(&rt, at(0o7777).next(), at(0));
    equal(&rt, at(0o7776).skip(3), at(1));
    equal(&rt, at(0).previous(), at(0o7777));
    equal(&rt, at(0o2000).low_ten(), at(0));
    equal(&rt, at(0o2000).previous_low_ten(), at(0o1777));
    equal(&rt, Addr::wrapped(0o34006), at(0o4006));
    equal(&rt, Addr::of_word(word(0o50017)), at(0o0017));
    equal(&rt, at(0o4001).word(), word(0o04001));
}
