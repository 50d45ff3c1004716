//! The pulses that step a counter cell: involuntary counting, without any order of the program.
ghost use Rattle.std.specs.Prelude.{◌≡◌, ◌==◌, if◌then◌else◌};
ghost use Rattle.agc_word.specs.Pulses.{pulse_name, pulsed, counted, diminished};

use crate::arithmetic::sum;
use crate::narrow::Narrow;
use crate::wide::{Over, Wide, widen};

/// How a pulse changes a counter: PINC adds 1 and MINC subtracts 1, DINC steps towards zero, PCDU and MCDU add and
/// subtract 1 in two's complement, as a shaft angle counts, SHINC and SHANC shift in a 0 or 1.
#[derive(Clone, Copy, Debug, PartialEq, Eq)]
pub enum Pulse {
    Pinc,
    Minc,
    Dinc,
    Pcdu,
    Mcdu,
    Shinc,
    Shanc,
}

impl Pulse {
    /// Returns the name that scripts use.
    #[tactic(auto, unfolding(crate::specs::Pulses::pulse_name))]
    pub fn name(self) -> &'static str
        ensures { result.now ≡ pulse_name self }
    {
        match self {
            Pulse::Pinc => "pinc",
            Pulse::Minc => "minc",
            Pulse::Dinc => "dinc",
            Pulse::Pcdu => "pcdu",
            Pulse::Mcdu => "mcdu",
            Pulse::Shinc => "shinc",
            Pulse::Shanc => "shanc",
        }
    }
}

/// Whether a carry came out of a counter.
#[derive(Clone, Copy, Debug, PartialEq, Eq)]
pub enum Carry {
    None,
    Out,
}

impl Narrow {
    /// Returns the counter after a pulse, and the carry out of it.
    #[tactic(auto, unfolding(crate::specs::Pulses::pulsed))]
    pub fn pulse(self, kind: Pulse) -> (Narrow, Carry)
        ensures { result ≡ pulsed kind self }
    {
        let bits = self.bits();
        match kind {
            Pulse::Pinc => counted(sum(widen(self), Wide::PLUS_ONE)),
            Pulse::Minc => counted(sum(widen(self), Wide::MINUS_ONE)),
            Pulse::Dinc => diminished(self),
            Pulse::Pcdu => (Narrow::with_bits((bits + 1) % 0o100000), Carry::None),
            Pulse::Mcdu => (Narrow::with_bits((bits + 0o77777) % 0o100000), Carry::None),
            Pulse::Shinc => (
                Narrow::with_bits(bits % 0o40000 * 2),
                carry_from(bits / 0o40000),
            ),
            Pulse::Shanc => (
                Narrow::with_bits(bits % 0o40000 * 2 + 1),
                carry_from(bits / 0o40000),
            ),
        }
    }
}

fn counted(total: Wide) -> (Narrow, Carry)
    ensures { result ≡ counted total }
{
    let carry = match total.over() {
        Over::None => Carry::None,
        Over::Plus | Over::Minus => Carry::Out,
    };
    (total.narrow(), carry)
}

fn diminished(x: Narrow) -> (Narrow, Carry)
    ensures { result ≡ diminished x }
{
    match x.bits() {
        0 | 0o77777 => (x, Carry::Out),
        1 | 0o77776 => (Narrow::MINUS_ZERO, Carry::None),
        bits => {
            if bits < 0o40000 {
                (Narrow::with_bits(bits - 1), Carry::None)
            } else {
                (Narrow::with_bits(bits + 1), Carry::None)
            }
        }
    }
}

fn carry_from(digit: u16) -> Carry
    ensures { result ≡ (if digit == 1 then Carry.Out else Carry.None) }
{
    if digit == 1 { Carry::Out } else { Carry::None }
}
