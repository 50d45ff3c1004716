//! The processor at the start of a run.
ghost use Rattle.std.specs.Prelude.{◌≡◌, ◌<◌};
ghost use Rattle.agc_processor.specs.Start.{channels_at_start};

use crate::processor::{Processor, Timers};
use agc_store::{Addr, Rope, Store};
use agc_word::Narrow;
use agc_word::channels::{CHAN30, CHAN31, CHAN32, CHAN33};

/// The address where a run begins.
const START: u16 = 0o4000;

impl Processor {
    ghost use Rattle.agc_processor.specs.Start.{start_processor};

    /// Returns the processor at the start of a run: the order at 4000 octal is in hand.
    #[tactic(auto, unfolding(crate::specs::Start::start_processor, agc_store::specs::Cells::start_memory, agc_store::specs::Cells::put_of))]
    pub fn new(rope: Rope) -> Processor
        ensures start { result ≡ start_processor rope }
        ensures fixed { result.store.fixed ≡ rope }
    {
        let start = Addr::new(START).unwrap();
        let mut store = Store::new(rope);
        let hand = store.fetch(start);
        store.set_z(start.next());
        Processor {
            store,
            channels: start_channels(),
            hand,
            extracode: false,
            uninterruptible: false,
            inhibited: false,
            serving: false,
            requests: [false; 10],
            timers: Timers {
                time1: 0,
                time3: 0,
                time4: 0,
                time5: 0,
                mark: 0,
            },
        }
    }
}

/// Returns the channels at the start: the inputs from the spacecraft in 30 to 33 octal are not asserted.
#[tactic(auto, unfolding(crate::specs::Start::channels_at_start))]
fn start_channels<const N: usize>() -> [Narrow; N]
    requires { 0o33 < N }
    ensures { result ≡ channels_at_start N }
{
    let mut channels = [Narrow::PLUS_ZERO; N];
    channels[usize::from(CHAN30)] = Narrow::with_bits(0o37777);
    channels[usize::from(CHAN31)] = Narrow::with_bits(0o77777);
    channels[usize::from(CHAN32)] = Narrow::with_bits(0o77777);
    channels[usize::from(CHAN33)] = Narrow::with_bits(0o77777);
    channels
}
