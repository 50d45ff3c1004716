//! Why a command line yields no options.
ghost use Rattle.std.specs.Prelude.{◌≡◌};
ghost use Rattle.agc_cli.specs.declared.fault.ArgsFault.TheVariants as fault;

use std::alloc::AllocError;

/// Why the words of a command line yield no options.
#[derive(Debug, Drop)]
pub enum ArgsFault {
    /// A mistake in the words: the message for the user.
    Command(String),
    /// The text of help or of the version, which was requested.
    Help(String),
    /// Memory ran out.
    Memory,
}

impl From<AllocError> for ArgsFault {
    ghost from_gives = { λ _ r. r ≡ fault.Memory };

    fn from(_error: AllocError) -> ArgsFault {
        ArgsFault::Memory
    }
}
