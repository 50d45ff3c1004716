//! The display: the panel that channel writes leave, and the Executive's tables in memory.
#![tactic(auto)]

mod alike;
mod core_set;
mod digit;
mod face;
mod lamp;
pub mod laws;
mod panel;
mod panel_line;
mod relay_word;
mod tables;
mod tables_text;
mod text;
mod watch_spec;
mod watcher;

pub use core_set::{CoreSet, Job, JobPriority};
pub use digit::Digit;
pub use face::{Face, Pair, Register};
pub use lamp::{Lamp, Lamps};
pub use panel::Panel;
pub use panel_line::{PanelLine, SignedDigits};
pub use tables::{Tables, Task};
pub use text::Sign;
pub use watch_spec::{CheckedSpec, Table, WatchFault, WatchSpec};
pub use watcher::watch;
