//! Tests the places that questions name, and a trace of an empty range. `tests/study` compares traces.
use super::{between, machine_of, same};
use agc_io::NoProgress;
use agc_listing::{Location, LocationRange, RangeFault, location_at};
use agc_store::Addr;
use agc_trace::{LineForm, trace};

/// The locations that texts name: 2000 octal times the bank, plus the offset; for a cell 400 times.
#[test]
fn places_by_name(rt: HostRuntime) {
    for (text, first, last) in [
        ("4100", Location::Fixed(0o4100), Location::Fixed(0o4100)),
        ("02,4100", Location::Fixed(0o4100), Location::Fixed(0o4100)),
        (
            "02,4000-5777",
            Location::Fixed(0o4000),
            Location::Fixed(0o5777),
        ),
        (
            "43,2000-43,3777",
            Location::Fixed(0o106000),
            Location::Fixed(0o107777),
        ),
        (
            "E3,1400",
            Location::Erasable(0o1400),
            Location::Erasable(0o1400),
        ),
        (
            "E1,1400-0777",
            Location::Erasable(0o400),
            Location::Erasable(0o777),
        ),
    ] {
        let named = LocationRange::named(text.as_bytes());
        same(&rt, named, Ok(LocationRange { first, last }), text);
    }
    for (text, fault) in [
        ("", RangeFault::BadPlace),
        ("410x", RangeFault::BadPlace),
        ("44,2000", RangeFault::BadPlace),
        ("02,2100", RangeFault::BadPlace),
        ("4100-", RangeFault::BadPlace),
        ("-4100", RangeFault::BadPlace),
        ("4100-4101-4102", RangeFault::BadPlace),
        ("5777-6000", RangeFault::BadRange),
        ("4101-4100", RangeFault::BadRange),
        ("0377-0400", RangeFault::BadRange),
        ("0400-4000", RangeFault::BadRange),
    ] {
        same(&rt, LocationRange::named(text.as_bytes()), Err(fault), text);
    }
}

/// The cells that texts name, and why other texts name none.
#[test]
fn cells_by_name(rt: HostRuntime) {
    for (text, first, last) in [
        ("0100-0107", 0o100, 0o107),
        ("E3,1400", 0o1400, 0o1400),
        ("E2,1777", 0o1377, 0o1377),
    ] {
        let (first, last) = (Location::Erasable(first), Location::Erasable(last));
        let named = LocationRange::of_cells(text.as_bytes());
        same(&rt, named, Ok(LocationRange { first, last }), text);
    }
    for (text, fault) in [
        ("4100", RangeFault::NotErasable),
        ("02,2100-02,2101", RangeFault::BadPlace),
        ("05,2071-2100", RangeFault::BadPlace),
        ("1400", RangeFault::BadPlace),
        ("0377-0400", RangeFault::BadRange),
        ("0100-4000", RangeFault::BadRange),
        ("4000-4001", RangeFault::NotErasable),
    ] {
        same(
            &rt,
            LocationRange::of_cells(text.as_bytes()),
            Err(fault),
            text,
        );
    }
}

#[test]
fn an_order_in_the_window_stands_in_its_bank(rt: HostRuntime) {
    for (bank, bits, place) in [
        (0, 0o1377, Location::Erasable(0o1377)),
        (0, 0o1500, Location::Erasable(0o100)),
        (7, 0o1777, Location::Erasable(0o3777)),
        (0o43, 0o3777, Location::Fixed(0o107777)),
        (0, 0o7777, Location::Fixed(0o7777)),
    ] {
        assert_eq!(rt; location_at(bank, Addr::wrapped(bits)), place);
    }
}

/// Waits, returns from a key at once, and never from a key of the second keyboard.
static TWO_KEYS: &str = "
4000 14000 TCF 4000
4024 50017 RESUME
4030 14030 TCF 4030
";

/// KEYRUPT2 is taken at 7 and not ended; a range that ends before it begins reports no service.
#[test]
fn an_empty_range_has_no_service(rt: HostRuntime) {
    let mut machine = machine_of(&rt, TWO_KEYS, "2 key VERB\n3 raise 6\n", 20);
    let mut out = Vec::new(rt.alloc());
    let form = LineForm::new(rt.alloc(), None, None);
    let service = trace(
        rt.alloc(),
        &mut machine,
        &between(&rt, 5, 3, None),
        &form,
        &mut out,
        &mut NoProgress,
    );
    same(&rt, service.ok(), Some(None), "service");
    same(&rt, out.len(), 0, "lines");
}
