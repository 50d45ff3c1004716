//! Tests texts of numbers, worked out by hand.
use super::same;
use agc_dump::{
    DumpFault, DumpLayout, DumpLineFault, Radix, looks_like_numbers, push_dump, words_of_text,
};
use agc_store::RopeForm;
use std::process::Abort;

/// Checks the words that a text has, in the classic order of banks.
fn reads(rt: &(impl AllocGlobal + Abort), radix: Radix, text: &str, wanted: &[u16]) {
    let words = words_of_text(rt.alloc(), radix, RopeForm::Classic, text.as_bytes())
        .ok()
        .expect(rt, "words");
    same(rt, words.as_slice(), wanted, text);
}

/// Checks the fault of a text.
fn refuses(rt: &(impl AllocGlobal + Abort), radix: Radix, text: &str, wanted: DumpFault) {
    let found = words_of_text(rt.alloc(), radix, RopeForm::Classic, text.as_bytes())
        .err()
        .expect(rt, "a fault");
    same(rt, found, wanted, text);
}

fn at(line: usize, column: usize, fault: DumpLineFault) -> DumpFault {
    DumpFault::Line {
        line,
        column,
        fault,
    }
}

#[test]
fn shapes_of_words(rt: HostRuntime) {
    // 12345 octal is 14E5 hex, and with a bit behind it 29CA or 29CB.
    reads(&rt, Radix::Octal, "12345 00001", &[0x29CA, 2]);
    reads(&rt, Radix::Octal, "12345 1 00001 0", &[0x29CB, 2]);
    reads(&rt, Radix::Octal, "024713 177777", &[0x29CB, 0xFFFF]);
    reads(&rt, Radix::Hex, "29cb FFFF", &[0x29CB, 0xFFFF]);
    reads(&rt, Radix::Hex, "14e5 1 7fff 0", &[0x29CB, 0xFFFE]);
    reads(&rt, Radix::Hex, "29cb0001ffff", &[0x29CB, 1, 0xFFFF]);
}

#[test]
fn addresses_of_lines(rt: HostRuntime) {
    reads(
        &rt,
        Radix::Octal,
        "# a dump\r\n02,4000: 00001 ; first\r\n\r\n02,4003 00002",
        &[2, 0, 0, 4],
    );
    reads(
        &rt,
        Radix::Octal,
        "0: 00001 00002\n2: 00003\n4:00004",
        &[2, 4, 6, 0, 8],
    );
    reads(
        &rt,
        Radix::Octal,
        "0: 00001 00002\n4: 00003\n10: 00004",
        &[2, 4, 6, 0, 8],
    );
    reads(
        &rt,
        Radix::Octal,
        "0000000 000001\n0000002 000002\n0000004",
        &[1, 2],
    );
    reads(
        &rt,
        Radix::Hex,
        "000000 0001 0002\n000004 0003\n",
        &[1, 2, 3],
    );
}

#[test]
fn faults_of_texts(rt: HostRuntime) {
    let (octal, hex) = (Radix::Octal, Radix::Hex);
    refuses(&rt, octal, "# 12345\n", DumpFault::Empty);
    refuses(
        &rt,
        octal,
        "12345\n 12385",
        at(2, 5, DumpLineFault::Character(octal)),
    );
    refuses(&rt, hex, "123", at(1, 1, DumpLineFault::NoWord(hex)));
    refuses(
        &rt,
        octal,
        "12345\n123456",
        at(2, 1, DumpLineFault::OtherShape),
    );
    refuses(&rt, octal, "12345 1:", at(1, 7, DumpLineFault::Mark));
    refuses(&rt, octal, "0: 1:2345", at(1, 4, DumpLineFault::Mark));
    refuses(
        &rt,
        octal,
        "02,2000: 12345",
        at(1, 1, DumpLineFault::NoAddress),
    );
    refuses(
        &rt,
        octal,
        "02,4001 12345\n02,4001 12345",
        at(2, 1, DumpLineFault::GoesBack),
    );
    refuses(
        &rt,
        octal,
        "43,3777 12345 12345",
        at(1, 15, DumpLineFault::PastEnd),
    );
    refuses(
        &rt,
        octal,
        "100: 12345",
        at(1, 1, DumpLineFault::UnknownUnit),
    );
    refuses(
        &rt,
        hex,
        "0: 1234\n2: 1234\n5: 1234",
        at(3, 1, DumpLineFault::OddAddress),
    );
}

/// Checks the text of words.
fn writes(
    rt: &(impl AllocGlobal + Abort),
    radix: Radix,
    layout: DumpLayout<'_>,
    words: &[u16],
    wanted: &str,
) {
    let mut text = String::new(rt.alloc());
    push_dump(&mut text, radix, layout, words)
        .ok()
        .expect(rt, "memory");
    same(rt, text.as_str(), wanted, "a text");
}

#[test]
fn texts_of_words(rt: HostRuntime) {
    let layout = DumpLayout {
        order: RopeForm::Classic,
        banks: &[],
        has_parity: false,
    };
    let words = [2, 4, 0, 0, 0, 0, 0, 0, 0, 0, 0, 0, 0, 0, 0, 0, 0xFFFE];
    writes(
        &rt,
        Radix::Octal,
        layout,
        words.as_slice(),
        "02,4000: 00001 00002 00000 00000 00000 00000 00000 00000\n02,4020: 77777\n",
    );
    writes(&rt, Radix::Hex, layout, &[0x29CB], "02,4000: 29cb\n");
    // A last bit that is 1 is shown: the place has a word +0.
    writes(
        &rt,
        Radix::Octal,
        layout,
        &[2, 1],
        "02,4000: 00001 0 00000 1\n",
    );
    let banks = DumpLayout {
        order: RopeForm::Parity,
        banks: &[0o15],
        has_parity: true,
    };
    writes(
        &rt,
        Radix::Octal,
        banks,
        &[2, 4],
        "15,2000: 00001 0 00002 0\n",
    );
}

#[test]
fn files_that_look_like_texts(rt: HostRuntime) {
    let texts: [&[u8]; 3] = [b"02,4000: 12345\r\n", b"7058 000c", b"1\t2"];
    for text in texts {
        same(&rt, looks_like_numbers(text), true, "a text");
    }
    let others: [&[u8]; 4] = [b"", b" \n", b"12345 # a comment", b"\x70\x58"];
    for other in others {
        same(&rt, looks_like_numbers(other), false, "no text");
    }
}
