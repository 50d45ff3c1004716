//! The calls that allocate memory.

/// A library call.
#[derive(Clone, Copy, Debug, PartialEq, Eq)]
pub enum Call {
    RopeRead,
    RopeReadAs,
    ScriptParse,
    /// The same with lines that stand for several events, which have to be sorted.
    ScriptParseEvery,
    ScriptMerge,
    TapePush,
    PanelText,
    Watch,
    Link,
    RunShown,
    RunLive,
    ParseArgs,
    Session,
}

/// All calls, in the order in which they are made.
pub const CALLS: [Call; 13] = [
    Call::RopeRead,
    Call::RopeReadAs,
    Call::ScriptParse,
    Call::ScriptParseEvery,
    Call::ScriptMerge,
    Call::TapePush,
    Call::PanelText,
    Call::Watch,
    Call::Link,
    Call::RunShown,
    Call::RunLive,
    Call::ParseArgs,
    Call::Session,
];

impl Call {
    /// Returns the name by which a test selects the call and the report shows it.
    pub fn name(self) -> &'static str {
        match self {
            Call::RopeRead => "Rope::read",
            Call::RopeReadAs => "Rope::read_as",
            Call::ScriptParse => "Script::parse",
            Call::ScriptParseEvery => "Script::parse every",
            Call::ScriptMerge => "Script::merge",
            Call::TapePush => "Tape::push",
            Call::PanelText => "Panel::text",
            Call::Watch => "watch",
            Call::Link => "link",
            Call::RunShown => "run_shown",
            Call::RunLive => "run_live",
            Call::ParseArgs => "parse_args",
            Call::Session => "session",
        }
    }

    /// Returns the call with this name.
    pub fn named(name: &str) -> Option<Call> {
        CALLS.into_iter().find(|call| call.name() == name)
    }
}
