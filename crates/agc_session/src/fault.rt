//! Why a session cannot start, cannot take an event, cannot rewind, or cannot search.
use crate::session::Session;
use agc_machine::LimitFault;
use thiserror::Error;

/// Why no session could be started.
#[derive(Clone, Copy, Debug, PartialEq, Eq, Error)]
pub enum BeginFault {
    #[error("{0}")]
    Limit(LimitFault),
    #[error("memory")]
    Memory,
}

/// Why an event was not injected. The session is unchanged.
#[derive(Clone, Copy, Debug, PartialEq, Eq, Error)]
pub enum InjectFault {
    /// The machine has stopped or reached its limit, or an event of the script is due first.
    #[error("the machine takes no event now")]
    Unwanted,
    /// The script of the session would have more than 65,536 events.
    #[error("more than 65536 events")]
    TooMany,
    #[error("memory")]
    Memory,
}

/// Why a search has no answer. The session is unchanged.
#[derive(Clone, Copy, Debug, PartialEq, Eq, Error)]
pub enum SearchFault {
    #[error("memory")]
    Memory,
    /// The caller cancelled it.
    #[error("cancelled")]
    Cancelled,
}

/// A rewind that ran out of memory, with the unchanged session.
#[derive(Drop)]
pub struct RewindFailed {
    pub session: Session,
}
