//! Tests symbols of locations, worked out by hand. `tests/study` compares what the program prints with names.
use super::{owned, same, symbols};
use agc_listing::{Location, LocationRange, RangeFault};
use agc_study_args::{a_listed_operand_is_addressed, resolve_until};
use agc_symbols::{
    ChannelTable, SymbolTable, push_channel_line, push_name_line, resolve, resolve_cells,
    resolve_range, text_with_names,
};
use std::process::Abort;
use std::test::Fail;

static NAMES: &str = "4060 KEYIN # the first\n02,4060 SERVICE\n\nE0,0100\tBEFORE\n5777 LAST\n";

fn names(rt: &(impl AllocGlobal + Abort)) -> SymbolTable {
    symbols(rt, NAMES)
}

/// A channel is no place, and a place is no channel. The first of two channels with one name counts.
#[test]
fn channels_have_names(rt: HostRuntime) {
    let text = b"C015 KEYS # from the DSKY\nE0,0100 COUNT\nC7 SUPER\nC777 KEYS\n";
    let names = SymbolTable::read(rt.alloc(), text).ok();
    let table = names.as_ref().expect(&rt, "names");
    for (name, channel) in [
        ("KEYS", Some(0o15)),
        ("SUPER", Some(7)),
        ("COUNT", None),
        ("KEY", None),
    ] {
        same(&rt, table.channel(name.as_bytes()), channel, name);
    }
    same(&rt, resolve(&names, b"KEYS"), None, "a channel");
    let mut line = Vec::new(rt.alloc());
    push_channel_line(rt.alloc(), &mut line, 7, b"SUPER")
        .ok()
        .expect(&rt, "memory");
    assert!(rt; line.as_slice() == b"C007 SUPER\n".as_slice());
}

/// Returns the lines of a symbol file with these locations and names.
fn name_lines(rt: &(impl AllocGlobal + Abort), names: &[(Location, &str)]) -> Vec<u8> {
    let mut lines = Vec::new(rt.alloc());
    for (at, name) in names {
        push_name_line(rt.alloc(), &mut lines, *at, name.as_bytes())
            .ok()
            .expect(rt, "memory");
    }
    lines
}

#[test]
fn names_stand_beside_places(rt: HostRuntime) {
    let named = text_with_names(rt.alloc(), &names(&rt), b"02,4061 34054 CA 4054\n");
    let named = named.ok().expect(&rt, "memory");
    assert!(rt; named.as_slice() == b"02,4061 KEYIN +1     34054 CA 4054\n".as_slice());
    let lines = name_lines(
        &rt,
        &[
            (Location::Erasable(0o1407), "COUNT"),
            (Location::Fixed(0o4071), "LOOP"),
        ],
    );
    assert!(rt; lines.as_slice() == b"E3,1407 COUNT\n02,4071 LOOP\n".as_slice());
}

static OPERANDS: &str =
    "4060 KEYIN\n0100 RUN\nC010 OUT0\n05,2000 HERE\nE0,1400 FAR\n02,4000 START\n";

/// 10 words are 12 octal. A word that is written as a location is that location, and cells end at 3777.
#[test]
fn a_word_stands_for_a_place(rt: HostRuntime) {
    let names = Some(names(&rt));
    for (word, place, alone) in [
        ("KEYIN", Some(Location::Fixed(0o4060)), None),
        ("KEYIN+10", Some(Location::Fixed(0o4072)), None),
        ("BEFORE-1", Some(Location::Erasable(0o77)), None),
        ("BEFORE-65", None, None),
        (
            "5777",
            Some(Location::Fixed(0o5777)),
            Some(Location::Fixed(0o5777)),
        ),
        ("NOWHERE", None, None),
        ("KEYIN+", None, None),
    ] {
        same(&rt, resolve(&names, word.as_bytes()), place, word);
        same(&rt, resolve(&None, word.as_bytes()), alone, word);
    }
}

/// The offset of `--until` may stand apart; KEYIN is 4060, and 10 words are 12 octal.
#[test]
fn a_stop_has_an_offset(rt: HostRuntime) {
    let names = SymbolTable::read(rt.alloc(), OPERANDS.as_bytes()).ok();
    for (text, place) in [
        ("KEYIN +10", "02,4072"),
        ("KEYIN+10", "02,4072"),
        ("KEYIN 10", "KEYIN 10"),
    ] {
        let mut until = Some(owned(&rt, text));
        resolve_until(rt.alloc(), &names, &mut until)
            .ok()
            .expect(&rt, "memory");
        let until = until.expect(&rt, "a text");
        same(&rt, until.as_str(), place, text);
    }
}

static DASHES: &str = "4060 KEYIN\n4070 OUT-IN\n5777 LAST\n0100 BEFORE\n6000 NEXT\n";

fn dashes(rt: &impl AllocGlobal) -> Option<SymbolTable> {
    SymbolTable::read(rt.alloc(), DASHES.as_bytes()).ok()
}

/// Values of `--at`: symbols may contain dashes, an offset is decimal, and a text that names locations without
/// symbols names the same ones with symbols.
#[test]
fn a_question_says_places(rt: HostRuntime) {
    let names = dashes(&rt);
    for (text, first, last) in [
        ("KEYIN", 0o4060, 0o4060),
        ("KEYIN+10", 0o4072, 0o4072),
        ("KEYIN-1", 0o4057, 0o4057),
        ("KEYIN-LAST", 0o4060, 0o5777),
        ("KEYIN-4077", 0o4060, 0o4077),
        ("02,4057-KEYIN", 0o4057, 0o4060),
        ("OUT-IN", 0o4070, 0o4070),
        ("OUT-IN-LAST", 0o4070, 0o5777),
        ("KEYIN-1-OUT-IN", 0o4057, 0o4070),
        ("4100-4177", 0o4100, 0o4177),
    ] {
        let (first, last) = (Location::Fixed(first), Location::Fixed(last));
        let parsed = resolve_range(&names, text.as_bytes());
        same(&rt, parsed, Ok(LocationRange { first, last }), text);
    }
    for (text, fault) in [
        ("NOWHERE", RangeFault::BadPlace),
        ("KEYIN-", RangeFault::BadPlace),
        ("KEYIN-NOWHERE", RangeFault::BadPlace),
        ("", RangeFault::BadPlace),
        ("LAST-KEYIN", RangeFault::BadRange),
        ("LAST-NEXT", RangeFault::BadRange),
        ("BEFORE-KEYIN", RangeFault::BadRange),
        ("4101-4100", RangeFault::BadRange),
    ] {
        same(
            &rt,
            resolve_range(&names, text.as_bytes()),
            Err(fault),
            text,
        );
    }
}

/// Values of `--cell`; without symbols a name is not a location.
#[test]
fn a_question_says_cells(rt: HostRuntime) {
    let names = dashes(&rt);
    for (text, first, last) in [
        ("BEFORE", 0o100, 0o100),
        ("BEFORE-0107", 0o100, 0o107),
        ("BEFORE-BEFORE+1", 0o100, 0o101),
    ] {
        let (first, last) = (Location::Erasable(first), Location::Erasable(last));
        let parsed = resolve_cells(&names, text.as_bytes());
        same(&rt, parsed, Ok(LocationRange { first, last }), text);
        let alone = resolve_cells(&None, text.as_bytes());
        same(&rt, alone, Err(RangeFault::BadPlace), text);
    }
    let fixed = resolve_cells(&names, b"KEYIN-LAST");
    assert_eq!(rt; fixed, Err(RangeFault::NotErasable));
}

/// The computer's own names are cells with a symbol file and without; a name of the file counts first. TIME7 is none of
/// them.
#[test]
fn own_names_are_cells(rt: HostRuntime) {
    let file = SymbolTable::read(rt.alloc(), b"0100 Q\n").ok();
    for (name, cell) in [
        ("A", 0o0),
        ("EB", 0o3),
        ("FBANK", 0o4),
        ("BB", 0o6),
        ("ARUPT", 0o10),
        ("ZRUPT", 0o15),
        ("CYR", 0o20),
        ("EDOP", 0o23),
        ("TIME1", 0o25),
        ("TIME4", 0o27),
    ] {
        let cell = Some(Location::Erasable(cell));
        same(&rt, resolve(&None, name.as_bytes()), cell, name);
        same(&rt, resolve(&file, name.as_bytes()), cell, name);
    }
    let (own, other) = (Location::Erasable(0o2), Location::Erasable(0o100));
    same(&rt, resolve(&None, b"Q"), Some(own), "the register");
    same(&rt, resolve(&file, b"Q"), Some(other), "a name of the file");
    same(&rt, resolve(&None, b"TIME7"), None, "no such timer");
    let (first, last) = (Location::Erasable(0o26), Location::Erasable(0o30));
    let timers = Ok(LocationRange { first, last });
    same(&rt, resolve_cells(&None, b"TIME3-TIME5"), timers, "timers");
}

/// Channels of a file by their numbers; the first name counts, and places are passed over.
#[test]
fn channels_go_by_name(rt: HostRuntime) -> Result<(), Fail> {
    let text = b"0010 CELL\nC010 OUT0\nC10 RELAYS # the second name\nC777 LAST\n";
    let channels = ChannelTable::read(rt.alloc(), text)?;
    same(&rt, channels.name(0o10), Some("OUT0"), "10");
    same(&rt, channels.name(0o777), Some("LAST"), "777");
    same(&rt, channels.name(0o11), None, "11");
    same(&rt, channels.channel(b"RELAYS"), Some(0o10), "RELAYS");
    same(&rt, channels.channel(b"CELL"), None, "a cell");
    Ok(())
}

/// The operand of an order goes by the nearest name, but a register or a counter only by its own.
#[test]
fn operands_go_by_name(rt: HostRuntime) {
    let names = symbols(&rt, "0020 SPIN\n0060 END\n0061 FREE\n4000 HERE\n");
    for (at, offset) in [
        (Location::Erasable(0o20), Some(0)),
        (Location::Erasable(0o21), None),
        (Location::Erasable(0o60), Some(0)),
        (Location::Erasable(0o62), Some(1)),
        (Location::Fixed(0o4002), Some(2)),
    ] {
        let found = names.operand_at(at).map(|near| near.offset);
        same(&rt, found, offset, "operand");
    }
}

/// The law is a call that does nothing.
#[test]
fn laws() {
    a_listed_operand_is_addressed();
}
