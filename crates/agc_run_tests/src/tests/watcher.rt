//! Tests the watcher on known cells: the worked tables, the registers, the edges of erasable memory.
use super::rope_of;
use agc_panel::{CoreSet, Job, JobPriority, Table, Tables, WatchFault, WatchSpec, watch};
use agc_store::{Addr, Store};
use agc_test_support::IDLE;
use agc_word::{Narrow, Wide};
use std::process::Abort;

/// LST1 and LST2 if every cell is +0.
const NO_TIMES: &str = "LST1 00000 00000 00000 00000 00000 00000 00000 00000
LST2 0 00000 00000
LST2 1 00000 00000
LST2 2 00000 00000
LST2 3 00000 00000
LST2 4 00000 00000
LST2 5 00000 00000
LST2 6 00000 00000
LST2 7 00000 00000
LST2 8 00000 00000
";

/// Returns a memory in which every cell is +0.
fn cleared(rt: &(impl AllocGlobal + Abort)) -> Store {
    Store::new(rope_of(rt, IDLE))
}

fn word(rt: &impl Abort, bits: u16) -> Narrow {
    Narrow::from_bits(bits).expect(rt, "a word of fifteen bits")
}

fn spec(rt: &impl Abort, text: &str) -> WatchSpec {
    WatchSpec::read(text).expect(rt, "seven octal numbers")
}

/// Returns the fault of watching a cleared memory, if there is one.
fn fault_where(rt: &(impl AllocGlobal + Abort), text: &str) -> Option<WatchFault> {
    watch(rt.alloc(), &cleared(rt), &spec(rt, text)).err()
}

/// Checks that the watcher's text of a memory is these lines of sets, with all times +0.
fn has_sets(rt: &(impl AllocGlobal + Abort), store: &Store, places: &str, sets: &str) {
    let text = watch(rt.alloc(), store, &spec(rt, places)).expect(rt, "a text");
    assert_eq!(rt; text.as_str().strip_prefix(sets), Some(NO_TIMES));
}

/// Checks that this is the fault of watching a cleared memory, or that there is no fault.
fn has_fault(rt: &(impl AllocGlobal + Abort), places: &str, fault: Option<WatchFault>) {
    assert_eq!(rt; fault_where(rt, places), fault, "{places}");
}

#[test]
fn watcher_tables(rt: HostRuntime) {
    let mut store = cleared(&rt);
    store.poke(1, 0o13, word(&rt, 0o77777));
    store.poke(1, 0o24, word(&rt, 0o02345));
    store.poke(1, 0o25, word(&rt, 0o60102));
    store.poke(1, 0o27, word(&rt, 0o20000));
    let ready = "SET 0 FREE\nSET 1 READY 20 LOC 02345 BANKSET 60102\n";
    has_sets(&rt, &store, "1,0,2,1,100,1,200", ready);

    store.poke(1, 0o27, word(&rt, 0o57777));
    let asleep = "SET 0 FREE\nSET 1 ASLEEP 20 LOC 02345 BANKSET 60102\n";
    has_sets(&rt, &store, "1,0,2,1,100,1,200", asleep);

    let lst2 = Some(WatchFault::OutOfErasable { table: Table::Lst2 });
    has_fault(&rt, "1,0,21,1,100,1,200", Some(WatchFault::TooManySets));
    has_fault(&rt, "1,0,2,1,100,7,357", lst2);
    has_fault(&rt, "1,0,2,1,100,7,356", None);
}

#[test]
fn tables_are_values(rt: HostRuntime) {
    let mut store = cleared(&rt);
    store.poke(1, 0o13, word(&rt, 0o77777));
    store.poke(1, 0o24, word(&rt, 0o02345));
    store.poke(1, 0o25, word(&rt, 0o60102));
    store.poke(1, 0o27, word(&rt, 0o57777));
    store.poke(1, 0o101, word(&rt, 0o77770));
    store.poke(1, 0o221, word(&rt, 0o00067));
    let places = spec(&rt, "1,0,2,1,100,1,200");
    let tables = Tables::read(&store, &places.checked().expect(&rt, "places in range"));

    let sleeping = Job {
        priority: JobPriority(word(&rt, 0o57777)),
        loc: word(&rt, 0o02345),
        bankset: word(&rt, 0o60102),
    };
    let sets = [CoreSet::Free, CoreSet::Asleep(sleeping)];
    assert!(rt; tables.core_sets() == sets.as_slice());
    assert!(rt;
        tables
            .lst1()
            .get(1)
            .is_some_and(|time| time.bits() == 0o77770)
    );
    assert!(rt;
        tables
            .lst2()
            .last()
            .is_some_and(|task| task.bbcon.bits() == 0o00067)
    );
}

#[test]
fn priority_of_a_word(rt: HostRuntime) {
    assert!(rt; JobPriority(word(&rt, 0o20000)).number() == 0o20);
    assert!(rt; JobPriority(word(&rt, 0o57777)).number() == 0o20);
}

#[test]
fn watch_out_of_erasable(rt: HostRuntime) {
    let core = Some(WatchFault::OutOfErasable { table: Table::Core });
    has_fault(&rt, "7,377,1,1,0,1,0", core);
    has_fault(&rt, "7,377,21,1,0,1,0", core);
    let lst1 = Some(WatchFault::OutOfErasable { table: Table::Lst1 });
    has_fault(&rt, "0,0,21,7,377,10,0", lst1);
}

/// Checks that this fault comes first at each of these places, or that there is no fault.
fn each_has(rt: &(impl AllocGlobal + Abort), places: &[&str], fault: Option<WatchFault>) {
    for place in places {
        has_fault(rt, place, fault);
    }
}

#[test]
fn tables_reach_the_last_cell(rt: HostRuntime) {
    let sound = [
        "7,364,1,1,0,1,0",
        "7,377,0,1,0,1,0",
        "0,0,20,1,0,1,0",
        "0,0,0,7,370,1,0",
        "0,0,0,1,0,7,356",
    ];
    each_has(&rt, &sound, None);
    let core = Some(WatchFault::OutOfErasable { table: Table::Core });
    let past = [
        "7,365,1,1,0,1,0",
        "10,0,0,1,0,1,0",
        "0,400,0,1,0,1,0",
        "0,0,777777,1,0,1,0",
    ];
    each_has(&rt, &past, core);
    let lst1 = Some(WatchFault::OutOfErasable { table: Table::Lst1 });
    each_has(&rt, &["0,0,0,7,371,1,0", "0,0,0,10,0,1,0"], lst1);
    let lst2 = Some(WatchFault::OutOfErasable { table: Table::Lst2 });
    each_has(&rt, &["0,0,0,1,0,7,357", "0,0,0,1,0,1,400"], lst2);
}

#[test]
fn counts_no_sets_beyond_a_number(rt: HostRuntime) {
    let mut places = spec(&rt, "0,0,0,1,0,1,0");
    places.sets = u32::MAX;
    assert_eq!(rt;
        places.fault(),
        Some(WatchFault::OutOfErasable { table: Table::Core })
    );
}

#[test]
fn registers_show_as_narrow_words(rt: HostRuntime) {
    let mut store = cleared(&rt);
    write(&rt, &mut store, 0, 0o100000);
    write(&rt, &mut store, 2, 0o137777);
    write(&rt, &mut store, 6, 0o160005);
    let text = watch(rt.alloc(), &store, &spec(&rt, "0,0,0,0,0,1,0")).expect(&rt, "a text");
    let line = text.as_str().lines().next();
    assert!(rt; line == Some("LST1 40000 00000 77777 02400 60000 00000 60005 00000"));
}

/// Writes to a register.
fn write(rt: &impl Abort, store: &mut Store, register: u16, bits: u16) {
    let address = Addr::new(register).expect(rt, "a register");
    assert!(rt; register < 1024);
    store.write(address, Wide::from_bits(bits));
}
