//! The faults of a rope's text.
use std::alloc::AllocError;
use thiserror::Error;

/// The fault of a line. The faults are checked in this order.
#[derive(Clone, Copy, Debug, PartialEq, Eq, Error)]
pub enum LineFault {
    /// A byte that is neither a tab nor printable ASCII.
    #[error("not text")]
    NotText,
    /// The first word is not the address of a word in the rope: `bb,oooo` with a bank from 00 to 43
    /// and the address under which its word is listed, or `oooo` from 4000 to 7777.
    #[error("bad address")]
    BadAddress,
    /// The second word is missing, or is not five octal digits.
    #[error("bad word")]
    BadWord,
    /// An earlier line names this place.
    #[error("place named twice")]
    NamedTwice,
}

/// Why no rope can be built from a text: the fault of its first faulty line, or out of memory.
#[derive(Clone, Copy, Debug, PartialEq, Eq, Error)]
pub enum WeaveFault {
    /// The line with this number, counted from 1, has this fault.
    #[error("line {0}: {1}")]
    Line(usize, LineFault),
    /// Out of memory for the rope.
    #[error("memory")]
    Memory,
}

impl From<AllocError> for WeaveFault {
    ghost use Rattle.std.specs.Prelude.{◌≡◌};
    ghost use Rattle.agc_listing.specs.declared.fault.WeaveFault.TheVariants.{Memory};

    ghost from_gives = { λ _ fault. fault ≡ Memory };

    fn from(_error: AllocError) -> WeaveFault {
        WeaveFault::Memory
    }
}
