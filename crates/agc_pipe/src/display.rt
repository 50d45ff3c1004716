//! The display's thread: takes items until the end, and keeps the log and the panel.
ghost use Rattle.std.specs.Prelude.{◌≡◌, [], true, false};
ghost use Rattle.agc_pipe.specs.Display.{IsShowing, is_end};
ghost use Rattle.agc_ring.specs.Items.{has_end, shown_in};

use crate::feed::Feed;
use agc_panel::Panel;
use agc_ring::{BLOCK, Gate, Item, Receiver};
use agc_word::ChannelWrite;
use std::alloc::Global;
use std::sync::Wait;
use std::sync::atomic::AtomicU64;
use std::thread;
use std::time::Duration;

/// The number of empty polls before the first sleep.
const PATIENCE: u32 = 64;

/// Microseconds that the display then sleeps between two polls.
const SLEEP: u64 = 50;

/// What the display shows and has logged.
#[derive(Drop)]
pub struct Display {
    /// The writes taken, in order: all of them, unless `refused`.
    pub log: Vec<ChannelWrite>,
    /// The panel after these writes.
    pub panel: Panel,
    /// The log ran out of memory; nothing was kept since.
    pub refused: bool,
    /// The number of writes taken, kept or not.
    taken: u64,
}

impl Display {
    ghost use Rattle.std.specs.Prelude.{◌≡◌, List, [], ◌∷◌, ◌++◌};
    ghost use Rattle.agc_word.specs.declared.channel_write.ChannelWrite.{ChannelWrite};
    ghost use Rattle.agc_pipe.specs.Display.{IsShowing};
    ghost use Rattle.agc_ring.specs.Items.{has_end, shown_in};

    fn new(alloc: Global) -> Display
        ensures { IsShowing result [] }
    {
        Display {
            log: Vec::new(alloc),
            panel: Panel::new(),
            refused: false,
            taken: 0,
        }
    }

    /// Takes a write into the log and the panel.
    fn show<G: Gate>(&mut self, gate: &G, write: ChannelWrite)
        ensures { (writes : List ChannelWrite) → IsShowing self.old writes
            → IsShowing self.new (writes ++ write ∷ []) }
    {
        if !self.refused {
            match self.log.push(write) {
                Ok(()) => self.panel.take(&write),
                Err(_) => self.refused = true,
            }
        }
        self.taken = self.taken.saturating_add(1);
        gate.after_receive(self.taken);
    }

    /// Takes the writes before the first end, and returns whether there is an end.
    #[tactic(auto, unfolding(agc_ring::specs::Items::has_end, agc_ring::specs::Items::shown_in))]
    fn show_all<G: Gate>(&mut self, gate: &G, items: &[Item]) -> bool
        ensures end { result ≡ has_end items.now }
        ensures shown { (writes : List ChannelWrite) → IsShowing self.old writes
            → IsShowing self.new (writes ++ shown_in items.now) }
    {
        for item in items {
            match *item {
                Item::Write(write) => self.show(gate, write),
                Item::End => return true,
            }
        }
        false
    }
}

/// What the display's thread returns.
#[derive(Drop)]
pub struct Drained {
    /// The end of the ring, which has received the end of the run.
    pub receiver: Receiver,
    /// What was shown and logged until then.
    pub display: Display,
}

/// Takes items until the end, and waits for it. Before each poll it offers what is to be fed. If the log runs out of
/// memory, the display records that; later items are taken and not kept.
#[tactic(auto, unfolding(agc_ring::specs::Items::has_end, agc_ring::specs::Items::shown_in))]
pub fn drain<R: Wait, G: Gate, F: Feed>(
    rt: &R,
    alloc: Global,
    gate: &G,
    mut receiver: Receiver,
    feed: &mut F,
) -> Drained
    requires { receiver.received ≡ [] }
    ensures feed { feed.new ≡ feed.old }
    ensures ring { result.receiver.ring ≡ receiver.ring }
    ensures end { has_end result.receiver.received ≡ true }
    ensures shown { IsShowing result.display (shown_in result.receiver.received) }
{
    let mut display = Display::new(alloc);
    let mut block = [Item::End; BLOCK];
    let mut idle = 0u32;
    for _ in rt.forever() {
        feed.offer(gate);
        match take_block(gate, &mut receiver, &mut block, &mut display) {
            Poll::End => return Drained { receiver, display },
            Poll::Items => idle = 0,
            Poll::Nothing => {
                idle = idle.saturating_add(1);
                pause(rt, idle);
            }
        }
    }
    unreachable!()
}

/// The result of a poll of the ring.
enum Poll {
    Nothing,
    /// Items, and the end is not among them.
    Items,
    End,
}

/// Polls the ring: takes the items that have arrived, through a block of places. An empty ring costs only the poll;
/// while the machine makes no writes, the display does nothing else.
fn take_block<G: Gate>(
    gate: &G,
    receiver: &mut Receiver,
    block: &mut [Item; BLOCK],
    display: &mut Display,
) -> Poll
    requires open { has_end receiver.old.received ≡ false }
    requires shown { IsShowing display.old (shown_in receiver.old.received) }
    ensures ring { receiver.new.ring ≡ receiver.old.ring }
    ensures end { is_end result ≡ has_end receiver.new.received }
    ensures shown { IsShowing display.new (shown_in receiver.new.received) }
{
    if receiver.is_empty() {
        return Poll::Nothing;
    }
    let count = receiver.next_items(block);
    let is_over = display.show_all(gate, &block[..count]);
    poll_of(count, is_over)
}

/// Returns the result of a poll that found `count` items, with or without the end.
fn poll_of(count: usize, is_over: bool) -> Poll
    ensures { is_end result ≡ is_over }
{
    if is_over {
        Poll::End
    } else if count == 0 {
        Poll::Nothing
    } else {
        Poll::Items
    }
}

/// Waits before the next poll of an empty ring. First it lets other threads run; after some polls
/// the thread sleeps, because constant polling would slow the machine's thread. It sleeps by
/// waiting for an atomic that nobody else has: `thread::sleep` takes a clock, which the caller of a
/// run need not have, and this wait needs only the right to wait.
fn pause<R: Wait>(rt: &R, idle: u32) {
    if idle < PATIENCE {
        thread::yield_now();
    } else {
        AtomicU64::new(0).park_timeout(rt, 0, Duration::from_micros(SLEEP));
    }
}
