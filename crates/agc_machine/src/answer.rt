//! What a boundary of the machine returns.
ghost use Rattle.std.specs.Prelude.{◌≡◌};
ghost use Rattle.agc_machine.specs.Answer.{stop_name};
ghost use Rattle.agc_machine.specs.Boundary.{stop_of};

use agc_processor::Halt;
use agc_word::ChannelWrite;

/// Why the machine has stopped. A stopped machine does not change.
#[derive(Clone, Copy, Debug, PartialEq, Eq)]
pub enum Stop {
    /// The limit of cycles is reached.
    Limit,
    /// DV had a divisor of zero magnitude, or a dividend too large for it.
    DivisionUndefined,
    /// EDRUPT, whose effect this emulator leaves out.
    Edrupt,
    /// The order at the stop address was in hand.
    Reached,
}

impl Stop {
    /// Returns the stop's name as all texts print it: `Limit`, `DivisionUndefined`, `Edrupt` or `Reached`.
    #[tactic(auto, unfolding(crate::specs::Answer::stop_name))]
    pub fn name(self) -> &'static str
        ensures { result.now ≡ stop_name self }
    {
        match self {
            Stop::Limit => "Limit",
            Stop::DivisionUndefined => "DivisionUndefined",
            Stop::Edrupt => "Edrupt",
            Stop::Reached => "Reached",
        }
    }

    /// Returns the stop for an order that does not run.
    pub(crate) fn at_halt(halt: Halt) -> Stop
        ensures { result ≡ stop_of halt }
    {
        match halt {
            Halt::DivisionUndefined => Stop::DivisionUndefined,
            Halt::Edrupt => Stop::Edrupt,
        }
    }
}

/// What one boundary did.
#[derive(Clone, Copy, Debug, PartialEq, Eq)]
pub enum Stepped {
    /// Nothing visible outside: an event, a timer's step, an interrupt or an order.
    Quiet,
    /// The order in hand wrote to a channel.
    Wrote(ChannelWrite),
    /// The machine has stopped, now or at an earlier boundary.
    Stopped(Stop),
}

/// The next thing of a run that is visible outside: a channel write, or the stop.
#[derive(Clone, Copy, Debug, PartialEq, Eq)]
pub enum Next {
    /// The next channel write; the run may go on.
    Wrote(ChannelWrite),
    /// There are no more writes: the machine has stopped.
    Stopped(Stop),
}
