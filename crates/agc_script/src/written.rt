//! Writes scripts as text: each event as a line that reads back as that event.
ghost use Rattle.std.specs.Prelude.{◌≡◌, ◌++◌, OnOk, string_bytes};
ghost use Rattle.agc_script.specs.Written.{event_text, what_text};

use crate::event::{Event, What};
use crate::grammar::direction_name;
use std::alloc::AllocError;

/// Appends the line of an event: its machine cycle, its command, and a line feed.
pub(crate) fn push_event(text: &mut String, event: &Event) -> Result<(), AllocError>
    ensures { OnOk result (string_bytes text.new ≡ string_bytes text.old ++ event_text event.now) }
{
    let cycle = event.cycle;
    write!(text, "{cycle} ")?;
    push_what(text, event.what)?;
    text.push_str("\n")
}

/// Appends an event as a command of a script: `key VERB`, `pro down`, `input 32 20000`, `pulse 37
/// pinc`, `raise 5`, `poke 3 100 00005`. Fails when memory runs out.
#[tactic(auto, unfolding(crate::specs::Written::what_text))]
pub fn push_what(text: &mut String, what: What) -> Result<(), AllocError>
    ensures { OnOk result (string_bytes text.new ≡ string_bytes text.old ++ what_text what) }
{
    match what {
        What::Key(key) => {
            let name = key.name();
            write!(text, "key {name}")
        }
        What::Pro(down) => {
            let direction = direction_name(down);
            write!(text, "pro {direction}")
        }
        What::Input { channel, value } => write!(text, "input {channel:o} {value}"),
        What::Pulse { counter, kind } => {
            let kind = kind.name();
            write!(text, "pulse {counter:o} {kind}")
        }
        What::Raise(number) => write!(text, "raise {number}"),
        What::Poke {
            bank,
            offset,
            value,
        } => write!(text, "poke {bank:o} {offset:o} {value}"),
    }
}
