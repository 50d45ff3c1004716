//! Tests the rope files that listings make.
use super::{equal, equal_at};
use agc_test_support::{
    DIVISION, EDRUPT, IDLE, KEYED_WRITES, ListingFault, RELAY_WORD, WRITES, rope_file,
};
use std::process::Abort;

/// Returns the file of a listing.
fn file(rt: &(impl AllocGlobal + Abort), listing: &str) -> Vec<u8> {
    rope_file(rt.alloc(), listing)
        .ok()
        .expect(rt, "a rope file")
}

/// Checks that these are the bytes of a listing's file.
fn makes(rt: &(impl AllocGlobal + Abort), listing: &str, bytes: &[u8]) {
    equal_at(rt, listing, file(rt, listing).as_slice(), bytes);
}

/// Checks that the file of a listing has `len` bytes and that the last is 2.
fn makes_as_many(rt: &(impl AllocGlobal + Abort), listing: &str, len: usize) {
    let bytes = file(rt, listing);
    equal_at(rt, listing, bytes.len(), len);
    equal_at(rt, listing, bytes.as_slice().last(), Some(&2));
}

fn refuses(rt: &(impl AllocGlobal + Abort), listing: &str, fault: ListingFault) {
    let made = rope_file(rt.alloc(), listing);
    equal_at(rt, listing, made.err(), Some(fault));
}

#[test]
fn programs(rt: HostRuntime) {
    makes(&rt, IDLE, &[0x30, 0x00]);
    makes(&rt, WRITES, &[0x00, 0x0C, 0x04, 0x10, 0x30, 0x00]);
    makes(
        &rt,
        DIVISION,
        &[
            0x70, 0x0E, 0x00, 0x0C, 0x04, 0x10, 0x00, 0x0C, 0x20, 0x80, 0, 0, 0, 0, 0, 4,
        ],
    );
    makes(
        &rt,
        RELAY_WORD,
        &[0x70, 0x08, 0x00, 0x0C, 0x04, 0x10, 0x30, 0x06, 0xB0, 0xF2],
    );
    makes(
        &rt,
        EDRUPT,
        &[0x00, 0x0C, 0x04, 0x10, 0x00, 0x0C, 0x1C, 0x00],
    );
}

/// The writes, with RESUME as word 21.
#[test]
fn keyed_writes(rt: HostRuntime) {
    let mut bytes = file(&rt, WRITES);
    equal(&rt, bytes.len(), 6);
    assert!(rt; bytes.resize(40, 0).is_ok());
    assert!(rt; bytes.extend_from_slice(&[0xA0, 0x1E]).is_ok());
    makes(&rt, KEYED_WRITES, &bytes);
}

/// The banks come in the classic order, and an address of banks 02 and 03 needs no bank.
#[test]
fn banks(rt: HostRuntime) {
    makes_as_many(&rt, "4000 00001", 2);
    makes_as_many(&rt, "02,2000 00001", 2);
    makes_as_many(&rt, "7777 00001", 4096);
    makes_as_many(&rt, "03,3777 00001", 4096);
    makes_as_many(&rt, "00,2000 00001", 4098);
    makes_as_many(&rt, "01,3777 00001", 8192);
    makes_as_many(&rt, "04,2000 00001", 8194);
    makes_as_many(&rt, "43,3777 00001", 73728);
}

#[test]
fn lines_for_readers(rt: HostRuntime) {
    let listing =
        "; two words, of which the later line holds\n\n4001 00002 after\n4000 77777\n4001 00003";
    makes(&rt, listing, &[0xFF, 0xFE, 0x00, 0x06]);
}

#[test]
fn faults(rt: HostRuntime) {
    refuses(&rt, "", ListingFault::Empty);
    refuses(&rt, "; nothing\n\n", ListingFault::Empty);
    for line in [
        "4000",
        "4000 ",
        "4000 1234",
        "4000 123456",
        "4000 12348",
        "3777 00000",
        "2000 00000",
        "10000 00000",
        "02,1777 00000",
        "02,4000 00000",
        "44,2000 00000",
        "002,2000 00000",
        " 4000 00000",
        "CA 4000",
    ] {
        refuses(&rt, line, ListingFault::Line { line: 1 });
    }
    refuses(
        &rt,
        "4000 00000\n\n4001 0000",
        ListingFault::Line { line: 3 },
    );
}
