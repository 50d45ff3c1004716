//! Probes the calls that make a ring, and that run a machine beside its display.
ghost use Rattle.std.specs.Prelude.{◌≡◌, false, IfSome};

use crate::call::Call;
use crate::report::{Attempt, answered, begin, no_input, refused, tell, wrong};
use agc_machine::{Machine, Stop};
use agc_panel::Panel;
use agc_pipe::{Live, ShowFault, Shown, run_live, run_shown};
use agc_ring::{LinkFault, link};
use agc_script::{Key, Script};
use agc_store::Rope;
use agc_test_support::{Counting, KEYED_WRITES, WRITES, rope_file};
use std::alloc::Global;
use std::io::{self, Write};
use std::sync::Wait;
use std::thread::Threads;

/// The number of writes of the short run.
const SHORT_WRITES: u64 = 1000;

/// The thousandth write begins at cycle 4014, and the run ends at 4018.
const LIMIT: u64 = 4018;

/// The limit of a run that is long enough for its keys, and the fewest writes that it may have.
const LIVE_LIMIT: u64 = 100_000;

const LIVE_WRITES: u64 = 24_000;

/// The keys that are pressed live, and the cycles between two of them.
const KEYS: [Key; 3] = [Key::Verb, Key::Three, Key::Five];

const SPACING: u64 = 8533;

/// Probes `link` for a ring with one slot.
pub fn link_ends<W: Write>(alloc: Global, out: &mut W) -> io::Result<Attempt> {
    begin(out, Call::Link)?;
    match link(alloc, 1) {
        Ok((sender, _receiver)) => answered(out, sender.capacity() == 1),
        Err(LinkFault::Memory) => refused(out, "Memory", true),
        Err(_) => wrong(out),
    }
}

/// Probes `run_shown` with a thousand writes through one slot.
pub fn show_writes<R, W: Write>(rt: &R, out: &mut W) -> io::Result<Attempt>
where
    R: AllocGlobal + Threads + Wait + Sync,
{
    let Some(machine) = machine_of(rt.alloc(), WRITES, LIMIT) else {
        return no_input(out);
    };
    let gate = Counting::new();
    begin(out, Call::RunShown)?;
    match run_shown(rt, rt.alloc(), machine, 1, &gate) {
        Ok(shown) => answered(out, is_thousand(&shown) && came_whole(&gate, SHORT_WRITES)),
        Err(fault) => tell_fault(out, fault, &gate, SHORT_WRITES),
    }
}

/// Probes `run_live` with many writes that keys interrupt.
pub fn run_with_keys<R, W: Write>(rt: &R, out: &mut W) -> io::Result<Attempt>
where
    R: AllocGlobal + Threads + Wait + Sync,
{
    let alloc = rt.alloc();
    let Some(machine) = machine_of(alloc, KEYED_WRITES, LIVE_LIMIT) else {
        return no_input(out);
    };
    let Some(keys) = pressed_keys(alloc) else {
        return no_input(out);
    };
    let gate = Counting::new();
    begin(out, Call::RunLive)?;
    match run_live(rt, alloc, machine, keys, SPACING, 256, &gate) {
        Ok(live) => answered(out, has_keys(&live) && came_whole(&gate, LIVE_WRITES)),
        Err(fault) => tell_fault(out, fault, &gate, LIVE_WRITES),
    }
}

/// Reports the fault of a run of at least `least` writes, and how many writes were received.
fn tell_fault<W: Write>(
    out: &mut W,
    fault: ShowFault,
    gate: &Counting,
    least: u64,
) -> io::Result<Attempt> {
    let received = if gate.received() == 0 {
        "received none"
    } else if came_whole(gate, least) {
        "received all"
    } else {
        "received some"
    };
    tell(out, received)?;
    match fault {
        ShowFault::Memory => refused(out, "Memory", true),
        ShowFault::Thread => refused(out, "Thread", true),
        ShowFault::Slots | ShowFault::Spacing => wrong(out),
    }
}

/// Returns whether all writes of a run, at least `least`, were received.
fn came_whole(gate: &Counting, least: u64) -> bool {
    gate.is_whole() && gate.received() >= least
}

/// Returns the machine of a listing without a script.
#[tactic(auto, unfolding(agc_machine::specs::State::start_state))]
fn machine_of(alloc: Global, listing: &str, limit: u64) -> Option<Machine>
    ensures { IfSome result (λ machine. machine.begun ≡ false) }
{
    let file = rope_file(alloc, listing).ok()?;
    let rope = Rope::read(alloc, file.as_slice()).ok()?;
    Machine::new(rope, Script::empty(alloc), limit).ok()
}

fn pressed_keys(alloc: Global) -> Option<Vec<Key>> {
    let mut keys = Vec::new(alloc);
    for key in KEYS {
        keys.push(key).ok()?;
    }
    Some(keys)
}

/// Returns whether the keys of the tape followed by the rest are the keys that were pressed.
fn has_keys(live: &Live) -> bool {
    let (tape, rest) = (&live.tape, live.rest.as_slice());
    let taken = tape.len();
    taken <= KEYS.len()
        && (0..taken).all(|i| KEYS.get(i) == Some(&tape.at(i).1))
        && KEYS.get(taken..) == Some(rest)
}

/// Returns whether these are the thousand writes, on a panel that stays blank.
fn is_thousand(shown: &Shown) -> bool {
    let log = shown.log.as_slice();
    let cycle = |place: usize| log.get(place).map_or(0, |write| write.cycle);
    log.len() == 1000
        && (cycle(0), cycle(1), cycle(999)) == (1, 5, 4014)
        && log
            .iter()
            .all(|write| write.channel == 0o10 && write.value.bits() == 0)
        && (shown.stop, shown.cycle) == (Stop::Limit, LIMIT)
        && shown.panel == Panel::new()
}
