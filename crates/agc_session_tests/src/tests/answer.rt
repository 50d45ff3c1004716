//! Tests the lines that the console answers with, as a person or a program reads them.
use super::equal;
use agc_machine::{Stop, Upcoming};
use agc_repl::{
    CellStyle, CommandFault, CommandName, push_cell_lines, push_channel_line, push_end_line,
    push_error_line, push_fault_line, push_help, push_hit_line, push_write_line, push_writes_line,
};
use agc_store::{Addr, Rope, Store};
use agc_trace::{push_next_line, push_registers_line};
use agc_word::{ChannelWrite, Narrow, widen};
use std::alloc::AllocError;
use std::process::Abort;

/// Returns a memory with A -1, a first word of bank 3 and a last cell.
fn some_memory(rt: &(impl AllocGlobal + Abort)) -> Store {
    let rope = Rope::read(rt.alloc(), &[0, 0]).ok().expect(rt, "a rope");
    let mut store = Store::new(rope);
    store.write(Addr::wrapped(0), widen(Narrow::with_bits(0o77776)));
    store.write(Addr::wrapped(6), widen(Narrow::with_bits(0o14003)));
    store.poke(3, 0, Narrow::with_bits(0o12345));
    store.poke(7, 0o377, Narrow::with_bits(0o54321));
    store
}

/// Checks that there was memory for a line.
fn has_room(rt: &impl Abort, pushed: Result<(), AllocError>) {
    assert!(rt; pushed.is_ok());
}

#[test]
fn an_answer_ends_with_the_cycle(rt: HostRuntime) {
    let mut text = String::new(rt.alloc());
    has_room(&rt, push_end_line(&mut text, None, 8533));
    has_room(
        &rt,
        push_end_line(&mut text, Some(Stop::DivisionUndefined), 0),
    );
    has_room(
        &rt,
        push_fault_line(&mut text, CommandFault::Usage(CommandName::Back)),
    );
    has_room(&rt, push_fault_line(&mut text, CommandFault::BadChannel));
    has_room(&rt, push_error_line(&mut text, "memory"));
    let wanted = "at 8533
stop DivisionUndefined at 0
error: Usage: back [list] C, step [N], over or finish [job CELL], or until PLACE [if CELL < WORD], write CCC [WORD], cell PLACE, interrupt [NAME] or panel; after until [ignore N]
error: BadChannel: a channel is octal, 0 to 777
error: memory
";
    equal(&rt, text.as_str(), wanted);
}

#[test]
fn writes_and_words_have_their_digits(rt: HostRuntime) {
    let mut text = String::new(rt.alloc());
    let write = ChannelWrite {
        cycle: 12,
        channel: 0o11,
        value: Narrow::with_bits(0o4000),
    };
    has_room(&rt, push_write_line(&mut text, &write));
    has_room(
        &rt,
        push_channel_line(&mut text, 0o777, Narrow::with_bits(0)),
    );
    has_room(&rt, push_writes_line(&mut text, 1));
    has_room(&rt, push_hit_line(&mut text, true));
    has_room(&rt, push_hit_line(&mut text, false));
    has_room(&rt, push_next_line(&mut text, Upcoming::Stop(Stop::Limit)));
    let wanted = "write 12 011 04000
channel 777 00000
writes 1
came yes
came no
next - stop Limit
";
    equal(&rt, text.as_str(), wanted);
}

#[test]
fn registers_and_cells_are_those_of_the_memory(rt: HostRuntime) {
    let store = some_memory(&rt);
    let mut text = String::new(rt.alloc());
    has_room(&rt, push_registers_line(&mut text, &store));
    has_room(
        &rt,
        push_cell_lines(&mut text, &store, CellStyle::Octal, 0o1377, 2),
    );
    has_room(
        &rt,
        push_cell_lines(&mut text, &store, CellStyle::Decimal, 0o3777, 1),
    );
    has_room(
        &rt,
        push_cell_lines(&mut text, &store, CellStyle::Octal, 5, 0),
    );
    let wanted = "A 177776 L 00000 Q 000000 Z 0000 EB 3 FB 06 BB 14003
cell 1377 00000
cell E3,1400 12345
print E7,1777 54321 -10030
";
    equal(&rt, text.as_str(), wanted);
}

#[test]
fn help_reports_each_command_once(rt: HostRuntime) {
    let mut text = String::new(rt.alloc());
    has_room(&rt, push_help(&mut text));
    equal(&rt, text.as_str().lines().count(), 31);
    assert!(rt;
        text.as_str().contains(
            "\nback [list] C, step [N], over or finish [job CELL], or until PLACE [if CELL < WORD], write CCC [WORD], cell PLACE, interrupt [NAME] or panel; after until [ignore N]: returns to"
        )
    );
    assert!(rt;
        text.as_str().contains(
            "\nraise N: requests an interrupt, 1 to 10, decimal. Example: raise 5\n"
        )
    );
}
