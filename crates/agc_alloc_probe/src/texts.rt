//! Probes the calls that make a text: the panel's and the watcher's.
use crate::call::Call;
use crate::report::{Attempt, answered, begin, no_input, refused, wrong};
use agc_panel::{Panel, WatchFault, WatchSpec, watch};
use agc_store::{Rope, Store};
use agc_test_support::{IDLE, rope_file};
use agc_word::{ChannelWrite, Narrow};
use std::alloc::Global;
use std::io::{self, Write};

/// PROG 12, VERB 37, a wrong digit in NOUN and some of the registers.
const RELAY_WORDS: [u16; 6] = [0o54171, 0o51563, 0o14777, 0o44040, 0o37265, 0o33265];

const PANEL: &str = "PROG 12
VERB 37
NOUN ?_
R1 +_0000
R2 _____4
R3 _9____
FLASH off
LAMPS none
";

/// The cells that are not +0: bank, offset and word.
const CELLS: [(u8, u16, u16); 4] = [
    (1, 0o13, 0o77777),
    (1, 0o24, 0o02345),
    (1, 0o25, 0o60102),
    (1, 0o27, 0o20000),
];

const TABLES: &str = "SET 0 FREE
SET 1 READY 20 LOC 02345 BANKSET 60102
LST1 00000 00000 00000 00000 00000 00000 00000 00000
LST2 0 00000 00000
LST2 1 00000 00000
LST2 2 00000 00000
LST2 3 00000 00000
LST2 4 00000 00000
LST2 5 00000 00000
LST2 6 00000 00000
LST2 7 00000 00000
LST2 8 00000 00000
";

/// Probes `Panel::text` on a panel that shows some digits.
pub fn panel_text<W: Write>(alloc: Global, out: &mut W) -> io::Result<Attempt> {
    let panel = written_panel();
    begin(out, Call::PanelText)?;
    match panel.text(alloc) {
        Ok(text) => answered(out, text.as_str() == PANEL),
        Err(_) => refused(out, "AllocError", panel == written_panel()),
    }
}

fn written_panel() -> Panel {
    let mut panel = Panel::new();
    for word in RELAY_WORDS {
        panel.take(&ChannelWrite {
            cycle: 0,
            channel: 0o10,
            value: narrow(word),
        });
    }
    panel
}

/// Probes `watch` on two core sets.
pub fn watch_tables<W: Write>(alloc: Global, out: &mut W) -> io::Result<Attempt> {
    let Ok(file) = rope_file(alloc, IDLE) else {
        return no_input(out);
    };
    let Ok(rope) = Rope::read(alloc, file.as_slice()) else {
        return no_input(out);
    };
    let mut store = Store::new(rope);
    for (bank, offset, word) in CELLS {
        store.poke(bank, offset, narrow(word));
    }
    let Some(places) = WatchSpec::read("1,0,2,1,100,1,200") else {
        return no_input(out);
    };
    begin(out, Call::Watch)?;
    match watch(alloc, &store, &places) {
        Ok(text) => answered(out, text.as_str() == TABLES),
        Err(WatchFault::Memory) => refused(out, "Memory", holds_cells(&store)),
        Err(_) => wrong(out),
    }
}

/// Returns the word with these bits, or +0 for more than fifteen bits.
fn narrow(bits: u16) -> Narrow {
    Narrow::from_bits(bits).unwrap_or(Narrow::PLUS_ZERO)
}

/// Returns whether the erasable memory has the words of `CELLS` and +0 elsewhere.
fn holds_cells(store: &Store) -> bool {
    (0..8).all(|bank| (0..256).all(|offset| store.cell(bank, offset).bits() == cell(bank, offset)))
}

/// Returns the word of a cell according to `CELLS`.
fn cell(bank: u8, offset: u16) -> u16 {
    CELLS
        .iter()
        .find(|cell| (cell.0, cell.1) == (bank, offset))
        .map_or(0, |cell| cell.2)
}
