//! What events, scripted or live, do to the processor.
ghost use Rattle.std.specs.Prelude.{◌≡◌, ◌<◌, ◌≤◌, ◌^◌};
ghost use Rattle.agc_store.specs.Places.{erasable_bank_size};
ghost use Rattle.agc_script.specs.Event.{IsWhatInRange};
ghost use Rattle.agc_machine.specs.EventEffect.{pressed, proceeded, pulsed_counter, happened, cycles_of};

use agc_processor::{Processor, Rupt};
use agc_script::{Key, What};
use agc_store::place::INLINK;
use agc_word::channels::{CHAN32, MNKEYIN};
use agc_word::{Carry, Narrow, Pulse};

/// Presses a key: puts its code into its channel, and requests KEYRUPT1.
#[tactic(auto, unfolding(crate::specs::EventEffect::pressed))]
fn press(processor: &mut Processor, key: Key)
    ensures { processor.new ≡ pressed key processor.old }
{
    processor.set_channel_cell(MNKEYIN, key.code());
    processor.request(Rupt::Keyrupt1);
}

/// Moves the PRO key down or up: bit 14 of its channel, which is 0 while the key is down.
#[tactic(auto, unfolding(crate::specs::EventEffect::proceeded))]
fn proceed(processor: &mut Processor, down: bool)
    ensures { processor.new ≡ proceeded down processor.old }
{
    let word = processor.channel_cell(CHAN32).bits();
    let bit = if down { 0 } else { 0o20000 };
    let changed = Narrow::with_bits(word / 0o40000 * 0o40000 + bit + word % 0o20000);
    processor.set_channel_cell(CHAN32, changed);
}

/// Applies a pulse from outside; the shift that fills INLINK requests UPRUPT.
#[tactic(auto, unfolding(crate::specs::EventEffect::pulsed_counter))]
fn pulse_counter(processor: &mut Processor, place: u16, kind: Pulse)
    requires low { 0o10 ≤ place }
    requires high { place < erasable_bank_size }
    ensures { processor.new ≡ pulsed_counter place kind processor.old }
{
    let carry = processor.pulse(place, kind);
    let shifted = matches!(kind, Pulse::Shinc | Pulse::Shanc);
    if place == INLINK && shifted && carry == Carry::Out {
        processor.request(Rupt::Uprupt);
    }
}

/// Applies an event at a boundary that begins at this cycle; returns the cycles that it takes.
#[tactic(auto, unfolding(crate::specs::EventEffect::happened, crate::specs::EventEffect::cycles_of, agc_script::specs::Event::IsWhatInRange))]
pub(crate) fn apply_event(processor: &mut Processor, cycle: u64, what: What) -> u64
    requires cycle { cycle < 2 ^ 41 }
    requires range { IsWhatInRange what }
    ensures state { processor.new ≡ happened cycle what processor.old }
    ensures cycles { result ≡ cycles_of what }
    ensures bound { result ≤ 1 }
{
    match what {
        What::Key(key) => press(processor, key),
        What::Pro(down) => proceed(processor, down),
        What::Input { channel, value } => processor.set_channel(cycle, channel, value),
        What::Pulse { counter, kind } => {
            pulse_counter(processor, counter, kind);
            return 1;
        }
        What::Raise(number) => processor.request(Rupt::numbered(number)),
        What::Poke {
            bank,
            offset,
            value,
        } => processor.store.poke(bank, offset, value),
    }
    0
}
