//! The lines that `agc` prints itself: the stop, the log and the live keys.
ghost use Rattle.std.specs.Prelude.{◌≡◌, ◌++◌, ◌<◌, ◌^◌, All, OnOk, string_bytes};
ghost use Rattle.agc_run.specs.Text.{stop_line, log_line, log_text, tape_line};
ghost use Rattle.agc_run.specs.Text.{tape_text, live_text};

use crate::report::LiveKeys;
use agc_machine::Stop;
use agc_script::{Key, Tape};
use agc_word::ChannelWrite;
use std::alloc::AllocError;

/// Appends the line with the reason of the stop, its machine cycle, and the number of channel
/// writes.
pub fn push_stop_line(
    text: &mut String,
    stop: Stop,
    cycle: u64,
    writes: usize,
) -> Result<(), AllocError>
    ensures { OnOk result
        (string_bytes text.new ≡ string_bytes text.old ++ stop_line stop cycle writes) }
{
    let name = stop.name();
    writeln!(text, "STOP {name} CYCLE {cycle} WRITES {writes}")
}

/// Appends the line of one channel write.
pub fn push_log_line(text: &mut String, write: &ChannelWrite) -> Result<(), AllocError>
    requires { write.now.channel < 2 ^ 9 }
    ensures { OnOk result (string_bytes text.new ≡ string_bytes text.old ++ log_line write.now) }
{
    let cycle = write.cycle;
    let channel = write.channel;
    let value = write.value;
    writeln!(text, "{cycle} {channel:03o} {value}")
}

/// Appends the lines of channel writes, in order.
#[tactic(auto, unfolding(crate::specs::Text::log_text))]
pub fn push_log(text: &mut String, log: &[ChannelWrite]) -> Result<(), AllocError>
    requires { All (λ write. write.channel < 2 ^ 9) log.now }
    ensures { OnOk result (string_bytes text.new ≡ string_bytes text.old ++ log_text log.now) }
{
    for write in log {
        push_log_line(text, write)?;
    }
    Ok(())
}

/// Appends the line of a key of the tape, with the machine cycle at which it was taken.
pub fn push_tape_line(text: &mut String, cycle: u64, key: Key) -> Result<(), AllocError>
    ensures { OnOk result
        (string_bytes text.new ≡ string_bytes text.old ++ tape_line (cycle, key)) }
{
    let name = key.name();
    writeln!(text, "{cycle} key {name}")
}

/// Appends the lines of a tape, and the number of keys left.
pub fn push_live(text: &mut String, keys: &LiveKeys) -> Result<(), AllocError>
    ensures { OnOk result (string_bytes text.new ≡ string_bytes text.old ++ live_text keys.now) }
{
    push_tape(text, &keys.tape)?;
    let left = keys.left;
    writeln!(text, "REST {left}")
}

/// Appends the lines of a tape.
#[tactic(auto, unfolding(crate::specs::Text::tape_text))]
fn push_tape(text: &mut String, tape: &Tape) -> Result<(), AllocError>
    ensures { OnOk result (string_bytes text.new ≡ string_bytes text.old ++ tape_text tape.now) }
{
    for place in 0..tape.len() {
        let (cycle, key) = tape.at(place);
        push_tape_line(text, cycle, key)?;
    }
    Ok(())
}
