//! The parsed commands of the console.
use crate::file_name::FileName;
use agc_panel::WatchSpec;
use agc_script::What;
use agc_session::{CallStep, Condition};

/// A way back to a cycle.
#[derive(Clone, Copy, Debug, PartialEq, Eq)]
pub struct Rewind {
    /// The events injected at this cycle or later are dropped.
    pub cut: u64,
    /// The session goes back to the state before this cycle.
    pub cycle: u64,
    /// Whether the answer lists the dropped events.
    pub lists: bool,
}

/// A search back.
#[derive(Clone, Copy, Debug, PartialEq, Eq)]
pub struct Search {
    /// What the boundary hits.
    pub what: Condition,
    /// 1 for the last boundary that hits it, 2 for the last but one, and so on.
    pub count: u64,
    /// Whether the answer lists the dropped events.
    pub lists: bool,
}

/// A step by calls.
#[derive(Clone, Copy, Debug, PartialEq, Eq)]
pub struct StepCall {
    pub step: CallStep,
    /// The cell whose word tells the present job from others.
    pub job: Option<u16>,
    /// The most cycles.
    pub within: u64,
}

/// A step back by calls.
#[derive(Clone, Copy, Debug, PartialEq, Eq)]
pub struct BackCall {
    pub step: CallStep,
    /// The cell whose word tells the present job from others.
    pub job: Option<u16>,
    /// Whether the answer lists the dropped events.
    pub lists: bool,
}

/// Boundaries to take.
#[derive(Clone, Copy, Debug, PartialEq, Eq)]
pub struct Steps {
    pub boundaries: u64,
    /// The cell whose changes are shown, or `None` if each boundary is.
    pub cell: Option<u16>,
}

/// How far a run to a hit goes.
#[derive(Clone, Copy, Debug, PartialEq, Eq)]
pub struct Limits {
    /// The hits to pass over.
    pub ignore: u64,
    /// The most cycles.
    pub within: u64,
}

/// A command of the console.
#[derive(Clone, Copy, Debug, PartialEq, Eq)]
pub enum Command {
    /// Run for this many cycles.
    Go(u64),
    /// Run until this cycle is reached or passed.
    GoTo(u64),
    /// Take some boundaries.
    Step(Steps),
    /// Step over a call, or finish one.
    StepCall(StepCall),
    /// Run until a condition is hit.
    Until { what: Condition, limits: Limits },
    /// Set a numbered breakpoint.
    Break(Condition),
    /// List the numbered breakpoints.
    Breaks,
    /// Delete the breakpoint with this number.
    Delete(u64),
    /// Run to the first numbered breakpoint that is hit.
    Continue(Limits),
    /// Print no channel writes while the machine runs, or print them again.
    Quiet(bool),
    /// Inject an event now.
    Inject(What),
    /// Show the lines of the panel.
    Panel,
    /// Show the Executive's tables at these places.
    Watch(WatchSpec),
    /// Show the registers.
    Registers,
    /// Show what comes next.
    Next,
    /// Show this many coming boundaries, and take none.
    Ahead(u64),
    /// Show where the machine is.
    Where,
    /// Show this many cells of erasable memory, from this one on: 400 octal times its bank, plus its offset.
    Cells { first: u16, count: u16 },
    /// Show the same cells in octal and as signed decimal numbers.
    Print { first: u16, count: u16 },
    /// Show the word of this channel, 0 to 777 octal.
    Channel(u16),
    /// Show the number of channel writes.
    Writes,
    /// Rewind to a cycle.
    Back(Rewind),
    /// Rewind to the start of a boundary that a search finds.
    BackTo(Search),
    /// Rewind over a call, or to the call of the routine that runs.
    BackCall(BackCall),
    /// Export the script that replays the session.
    Script,
    /// Save that script to a new file.
    Save(FileName),
    /// List the commands.
    Help,
    /// End the session.
    Quit,
}
