//! Tests the places that lines of the tables name, worked out by hand. `tests/study` compares such lines.
use super::same;
use agc_listing::Location;
use agc_timeline::line_place;

/// Banks in the form of BB: FB in bits 15 to 11, the superbank in bit 7, EB in bits 3 to 1.
#[test]
fn lines_have_places(rt: HostRuntime) {
    for (line, at) in [
        (
            "SET 0 READY 20 LOC 02100 BANKSET 00000",
            Some(Location::Fixed(0o100)),
        ),
        (
            "SET 12 ASLEEP 20 LOC 02100 BANKSET 20000",
            Some(Location::Fixed(0o20100)),
        ),
        (
            "SET 1 READY 03 LOC 03777 BANKSET 60067",
            Some(Location::Fixed(0o61777)),
        ),
        (
            "SET 1 READY 03 LOC 03777 BANKSET 60107",
            Some(Location::Fixed(0o101777)),
        ),
        (
            "SET 1 READY 03 LOC 01402 BANKSET 60107",
            Some(Location::Erasable(0o3402)),
        ),
        (
            "SET 1 READY 03 LOC 01377 BANKSET 60107",
            Some(Location::Erasable(0o1377)),
        ),
        ("LST2 3 04100 04002", Some(Location::Fixed(0o4100))),
        ("LST2 8 02000 04002", Some(Location::Fixed(0o4000))),
        ("SET 0 READY 20 LOC 10000 BANKSET 00000", None),
        ("SET 0 FREE", None),
        ("LST1 00144 00000 00000 00000 00000 00000 00000 00000", None),
    ] {
        same(&rt, line_place(line.as_bytes()), at, line);
    }
}
