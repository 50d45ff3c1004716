//! An interactive session: run, inject events in response to the display, rewind, export a script that replays it.
#![tactic(auto)]

mod arguments;
mod by_orders;
mod calls;
mod cancellation;
mod checkpoint;
mod comparison;
mod condition;
mod fault;
pub mod laws;
mod search;
mod session;
mod writing;

pub use arguments::{SessionArgs, open_session, session_args, session_from, with_session_args};
pub use calls::CallStep;
pub use cancellation::{Cancellation, NoCancellation};
pub use comparison::{Comparison, Relation};
pub use condition::{Armed, Caller, Condition};
pub use fault::{BeginFault, InjectFault, RewindFailed, SearchFault};
pub use session::{Advanced, Rewound, Session};
pub use writing::LINE_ROOM;
