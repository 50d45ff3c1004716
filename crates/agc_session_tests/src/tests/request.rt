//! Tests how lines are parsed. The commands were worked out by hand from the tables of commands and places. Most faults
//! are in `tests/agc.d`.
use super::console::{asks, reads, refuses};
use agc_listing::Location;
use agc_panel::{Table, WatchFault, WatchSpec};
use agc_repl::{Command, CommandFault, CommandName, Limits, Rewind, Steps};
use agc_script::{FaultKind, Key, What};
use agc_session::Condition;
use agc_symbols::SymbolTable;
use agc_word::Narrow;
use std::process::Abort;

/// Checks that a line runs until a breakpoint, for at most this many cycles.
fn asks_until(rt: &impl Abort, line: &[u8], what: Condition, within: u64) {
    let limits = Limits { ignore: 0, within };
    asks(rt, line, Command::Until { what, limits });
}

/// Checks that a line takes boundaries.
fn asks_step(rt: &impl Abort, line: &[u8], boundaries: u64, cell: Option<u16>) {
    asks(rt, line, Command::Step(Steps { boundaries, cell }));
}

/// Checks that a line goes back to a cycle, and drops what was injected from it on.
fn asks_back(rt: &impl Abort, line: &[u8], cycle: u64, lists: bool) {
    let way = Rewind {
        cut: cycle,
        cycle,
        lists,
    };
    asks(rt, line, Command::Back(way));
}

/// Any write to a channel.
fn write_to(channel: u16) -> Condition {
    Condition::Write {
        channel: Some(channel),
        word: None,
    }
}

#[test]
fn cycles_are_decimal(rt: HostRuntime) {
    asks(&rt, b"go 8533", Command::Go(8533));
    asks(&rt, b"\tgo  to 0010 ", Command::GoTo(10));
    asks_step(&rt, b"step", 1, None);
    asks_step(&rt, b"step 1000000000000", 1_000_000_000_000, None);
    asks_step(&rt, b"step 12 cell E0,1500", 12, Some(0o100));
    let usage = CommandFault::Usage(CommandName::Step);
    refuses(&rt, b"step 12 cell", usage);
    refuses(&rt, b"step 12 0100", usage);
    asks_back(&rt, b"back 0", 0, false);
    asks_back(&rt, b"back list 12", 12, true);
}

#[test]
fn a_run_goes_until_a_place_a_write_or_a_cell(rt: HostRuntime) {
    asks_until(
        &rt,
        b"until 4071",
        Condition::Order(Location::Fixed(0o4071)),
        1_000_000,
    );
    asks_until(
        &rt,
        b"until 02,4071 within 9",
        Condition::Order(Location::Fixed(0o4071)),
        9,
    );
    asks_until(
        &rt,
        b"until E3,1400",
        Condition::Order(Location::Erasable(0o1400)),
        1_000_000,
    );
    asks_until(&rt, b"until write 10 within 0", write_to(0o10), 0);
    asks_until(
        &rt,
        b"until cell E0,0100",
        Condition::Cell(0o100),
        1_000_000,
    );
    asks_until(
        &rt,
        b"until cell E0,1500",
        Condition::Cell(0o100),
        1_000_000,
    );
    asks_until(&rt, b"until write 5", write_to(5), 1_000_000);
}

#[test]
fn hits_are_ignored_before_the_most_cycles(rt: HostRuntime) {
    let limits = Limits {
        ignore: 3,
        within: 1_000_000,
    };
    asks(&rt, b"continue ignore 3", Command::Continue(limits));
    let what = Condition::Cell(0o100);
    let limits = Limits {
        ignore: 12,
        within: 9,
    };
    asks(
        &rt,
        b"until cell 0100 ignore 12 within 9",
        Command::Until { what, limits },
    );
    let usage = CommandFault::Usage(CommandName::Continue);
    refuses(&rt, b"continue ignore", usage);
    refuses(&rt, b"continue within 9 ignore 3", usage);
}

#[test]
fn events_are_those_of_a_script(rt: HostRuntime) {
    asks(&rt, b"key VERB", Command::Inject(What::Key(Key::Verb)));
    asks(&rt, b"pro down", Command::Inject(What::Pro(true)));
    asks(&rt, b"raise 10", Command::Inject(What::Raise(10)));
    let value = Narrow::with_bits(0o77777);
    asks(
        &rt,
        b"input 32 77777",
        Command::Inject(What::Input {
            channel: 0o32,
            value,
        }),
    );
    refuses(
        &rt,
        b"key 1 2",
        CommandFault::BadEvent(FaultKind::UnknownWord),
    );
}

#[test]
fn cells_end_with_the_memory(rt: HostRuntime) {
    asks(&rt, b"cell 5", Command::Cells { first: 5, count: 1 });
    asks(
        &rt,
        b"cell E7,1777 1",
        Command::Cells {
            first: 0o3777,
            count: 1,
        },
    );
    asks(
        &rt,
        b"cell 0 2048",
        Command::Cells {
            first: 0,
            count: 2048,
        },
    );
    asks(&rt, b"channel 777", Command::Channel(0o777));
}

#[test]
fn tables_are_watched_where_they_can_stand(rt: HostRuntime) {
    let spec = WatchSpec {
        core_bank: 0,
        core_offset: 0o154,
        sets: 7,
        lst1_bank: 3,
        lst1_offset: 0,
        lst2_bank: 3,
        lst2_offset: 0o10,
    };
    asks(&rt, b"watch 0,154,7,3,0,3,10", Command::Watch(spec));
    let out = WatchFault::OutOfErasable { table: Table::Core };
    refuses(&rt, b"watch 7,377,7,3,0,3,10", CommandFault::Watch(out));
}

/// COUNT is cell 1500 of bank 3, and 02,4071 is 56 words before 02,4161. The word `A+1` is a name.
#[test]
fn a_name_stands_for_its_place(rt: HostRuntime) {
    let text = b"4071 LOOP\nE3,1500 COUNT\nE7,1777 END\n4100 A\n4200 A+1\n";
    let names = SymbolTable::read(rt.alloc(), text).ok();
    goes_until(&rt, &names, b"until LOOP", 0o4071);
    goes_until(&rt, &names, b"until LOOP+56", 0o4161);
    goes_until(&rt, &names, b"until LOOP-1", 0o4070);
    goes_until(&rt, &names, b"until A+1", 0o4200);
    goes_until(&rt, &names, b"until 4071", 0o4071);
    shows_cells(&rt, &names, b"cell COUNT 2", 0o1500, 2);
    shows_cells(&rt, &names, b"cell END-1", 0o3776, 1);
}

/// Checks that a line with symbols runs until the order at a location.
fn goes_until(rt: &impl Abort, names: &Option<SymbolTable>, line: &[u8], place: u32) {
    let command = Command::Until {
        what: Condition::Order(Location::Fixed(place)),
        limits: Limits {
            ignore: 0,
            within: 1_000_000,
        },
    };
    reads(rt, names, line, Ok(Some(command)));
}

/// Checks that a line with symbols prints this many cells.
fn shows_cells(rt: &impl Abort, names: &Option<SymbolTable>, line: &[u8], first: u16, count: u16) {
    reads(rt, names, line, Ok(Some(Command::Cells { first, count })));
}
