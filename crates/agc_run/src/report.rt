//! The report of a run, as one value; a printer turns it into text.
use agc_machine::Stop;
use agc_panel::{Panel, Tables};
use agc_script::Tape;
use agc_word::ChannelWrite;
use std::marker::Model;

/// The report of a run, as far as the options request it.
#[derive(Drop)]
pub struct Report {
    /// The panel at the end.
    pub panel: Panel,
    /// Why the run ended.
    pub stop: Stop,
    /// The machine cycle of the stop.
    pub cycle: u64,
    /// The number of channel writes of the run.
    pub writes: usize,
    /// The channel writes, in order, if the log was requested.
    pub log: Option<Log>,
    /// The outcome of the live keys, if the run had any.
    pub keys: Option<LiveKeys>,
    /// The watched tables at the stop, if any.
    pub tables: Option<Tables>,
}

/// The outcome of live keys.
#[derive(Drop)]
pub struct LiveKeys {
    /// The keys that the machine took, each with its machine cycle.
    pub tape: Tape,
    /// The number of keys that it did not take.
    pub left: usize,
}

/// Channel writes whose channels have at most three octal digits.
#[derive(Drop)]
pub struct Log {
    writes: Vec<ChannelWrite>,
}

impl Model for Log {
    ghost use Rattle.std.specs.Prelude.{List};
    ghost use Rattle.agc_word.specs.declared.channel_write.ChannelWrite.{ChannelWrite};

    ghost Value = { List ChannelWrite };

    ghost use Rattle.std.specs.Prelude.{◌<◌, ◌^◌, All};

    ghost view = { λ log. log.writes.items };

    ghost invariant = { λ log. All (λ write. write.channel < 2 ^ 9) log.writes.items };
}

impl Log {
    ghost use Rattle.std.specs.Prelude.{◌≡◌, ◌<◌, ◌^◌, All};

    pub fn new(writes: Vec<ChannelWrite>) -> Log
        requires { All (λ write. write.channel < 2 ^ 9) writes.items }
        ensures { result ≡ writes.items }
    {
        Log { writes }
    }

    /// Returns the writes, in order.
    pub fn writes(&self) -> &[ChannelWrite]
        ensures writes { result.now ≡ self.now }
        ensures channels { All (λ write. write.channel < 2 ^ 9) result.now }
    {
        self.writes.as_slice()
    }
}
