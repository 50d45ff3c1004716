//! Keys that are sent from the ground: pulses of INLINK, as the lines of a script.
ghost use Rattle.std.specs.Prelude.{◌≡◌, ◌≤◌, ◌+◌, ◌*◌, ◌++◌, OnOk, length, string_bytes};
ghost use Rattle.agc_word.specs.Number.{bit_of, number_from_pattern};
ghost use Rattle.agc_script.specs.Event.{last_cycle};
ghost use Rattle.agc_script.specs.Key.{code_of};
ghost use Rattle.agc_script.specs.Written.{event_text};
ghost use Rattle.agc_quantities.specs.Uplink.{bits_text, key_sent, key_text, keys_text, named_alone, pulse_of, pulses_of};

use agc_script::{Key, What, push_what};
use agc_word::{Narrow, Pulse};
use std::alloc::AllocError;

/// The cell of INLINK.
const INLINK: u16 = 0o45;

/// When keys are sent.
#[derive(Clone, Copy, Debug, PartialEq, Eq)]
pub struct UplinkTimes {
    /// The cycle of the first bit.
    pub from: u64,
    /// The cycles from key to key.
    pub every: u64,
    /// The cycles from bit to bit.
    pub bits: u64,
}

/// Returns the key that a character of an uplink stands for: a digit, + or -, V (VERB), N (NOUN), E (ENTR), C (CLR), K
/// (KEY REL) or R (RSET).
pub fn key_sent(character: u8) -> Option<Key>
    ensures { result ≡ key_sent character }
{
    match character {
        b'V' => Some(Key::Verb),
        b'N' => Some(Key::Noun),
        b'E' => Some(Key::Enter),
        b'C' => Some(Key::Clear),
        b'K' => Some(Key::KeyRelease),
        b'R' => Some(Key::Reset),
        _ => key_named(character),
    }
}

/// Returns the key whose name in scripts is this character.
fn key_named(character: u8) -> Option<Key>
    ensures { result ≡ named_alone character }
{
    Key::from_name(&[character])
}

/// Returns the pulses of a key, in their order: a one, the key's code, its complement and its code again, five bits each.
fn pulses(code: Narrow) -> [Pulse; 16]
    ensures { result ≡ pulses_of code }
{
    let bits = [
        code.bit(5),
        code.bit(4),
        code.bit(3),
        code.bit(2),
        code.bit(1),
    ];
    let [first, second, third, fourth, fifth] = bits;
    [
        Pulse::Shanc,
        pulse_of(first),
        pulse_of(second),
        pulse_of(third),
        pulse_of(fourth),
        pulse_of(fifth),
        pulse_of(!first),
        pulse_of(!second),
        pulse_of(!third),
        pulse_of(!fourth),
        pulse_of(!fifth),
        pulse_of(first),
        pulse_of(second),
        pulse_of(third),
        pulse_of(fourth),
        pulse_of(fifth),
    ]
}

/// Returns the pulse that shifts a bit in.
fn pulse_of(is_one: bool) -> Pulse
    ensures { result ≡ pulse_of is_one }
{
    if is_one { Pulse::Shanc } else { Pulse::Shinc }
}

/// Appends the lines of a script that sends keys.
#[tactic(auto, unfolding(crate::specs::Uplink::keys_text))]
pub fn uplink_text(text: &mut String, keys: &[Key], times: UplinkTimes) -> Result<(), AllocError>
    requires bits { 16 * times.bits ≤ times.every }
    requires last { times.from + times.every * length keys.now ≤ last_cycle }
    ensures { OnOk result (string_bytes text.new
        ≡ string_bytes text.old ++ keys_text times.from times.every times.bits keys.now) }
{
    let mut cycle = times.from;
    let mut rest = keys;
    while let Some((key, after)) = rest.split_first() {
        push_key(text, *key, cycle, times.bits)?;
        cycle += times.every;
        rest = after;
    }
    Ok(())
}

/// Appends the lines of a key.
#[tactic(auto, unfolding(crate::specs::Uplink::key_text))]
fn push_key(text: &mut String, key: Key, from: u64, bits: u64) -> Result<(), AllocError>
    requires last { from + 16 * bits ≤ last_cycle }
    ensures { OnOk result (string_bytes text.new ≡ string_bytes text.old ++ key_text from bits key) }
{
    push_bits(text, &pulses(key.code()), from, bits)
}

/// Appends a line for each pulse.
#[tactic(auto, unfolding(crate::specs::Uplink::bits_text))]
fn push_bits(text: &mut String, pulses: &[Pulse], from: u64, bits: u64) -> Result<(), AllocError>
    requires last { from + bits * length pulses.now ≤ last_cycle }
    ensures { OnOk result (string_bytes text.new
        ≡ string_bytes text.old ++ bits_text from bits pulses.now) }
{
    let mut cycle = from;
    let mut rest = pulses;
    while let Some((pulse, after)) = rest.split_first() {
        push_bit(text, cycle, *pulse)?;
        cycle += bits;
        rest = after;
    }
    Ok(())
}

/// Appends the line of a pulse of INLINK.
fn push_bit(text: &mut String, cycle: u64, kind: Pulse) -> Result<(), AllocError>
    ensures { OnOk result (string_bytes text.new
        ≡ string_bytes text.old
        ++ event_text (record { cycle = cycle; what = What.Pulse 0o45 kind })) }
{
    write!(text, "{cycle} ")?;
    push_what(
        text,
        What::Pulse {
            counter: INLINK,
            kind,
        },
    )?;
    text.push_str("\n")
}
