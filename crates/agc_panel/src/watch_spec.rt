//! The places of the Executive's tables in erasable memory, as the caller gives them.
ghost use Rattle.std.specs.Prelude.{◌≡◌, ◌<◌, ◌^◌, [], ◌∷◌, Some, MatchOption, MatchResult};
ghost use Rattle.agc_panel.specs.declared.watch_spec.WatchFault.TheVariants.{Memory};
ghost use Rattle.agc_panel.specs.WatchSpec.{numbers_in, with_number, HasFewer, HasMore, spec_of};
ghost use Rattle.agc_panel.specs.WatchSpec.{watch_fault_of, is_out};

use agc_store::place::{self, ERASABLE_BANK_SIZE};
use agc_word::read_octal;
use std::alloc::AllocError;
use std::marker::Model;
use thiserror::Error;

/// Cells in an erasable bank.
pub(crate) const BANK_CELLS: u32 = ERASABLE_BANK_SIZE as u32;

/// Cells in all eight erasable banks.
pub(crate) const ERASABLE_CELLS: u32 = place::ERASABLE_CELLS as u32;

/// Cells in a core set.
pub(crate) const CORE_SET_CELLS: u32 = 0o14;

/// The most core sets that can be watched.
pub(crate) const MOST_SETS: usize = 0o20;

/// Cells in LST1.
pub(crate) const LST1_CELLS: usize = 0o10;

/// Tasks in LST2, of two cells each.
pub(crate) const LST2_TASKS: usize = 0o11;

/// A watched table.
#[derive(Clone, Copy, Debug, PartialEq, Eq)]
pub enum Table {
    /// The core sets, of 14 octal cells each.
    Core,
    /// The waiting times of the Waitlist: 10 octal cells.
    Lst1,
    /// The tasks of the Waitlist: nine pairs of cells.
    Lst2,
}

/// Why tables cannot be watched.
#[derive(Clone, Copy, Debug, PartialEq, Eq, Error)]
pub enum WatchFault {
    /// The table does not begin at a cell of the eight banks of 400 octal, or ends past the last cell.
    #[error("a table is out of erasable memory")]
    OutOfErasable { table: Table },
    /// More than 20 octal core sets.
    #[error("too many core sets")]
    TooManySets,
    /// Memory ran out for the text.
    #[error("out of memory")]
    Memory,
}

impl From<AllocError> for WatchFault {
    ghost from_gives = { λ _ fault. fault ≡ Memory };

    fn from(_: AllocError) -> WatchFault {
        WatchFault::Memory
    }
}

/// The places where the watched tables begin. They are fixed by the flight program.
#[derive(Clone, Copy, Debug, PartialEq, Eq)]
pub struct WatchSpec {
    /// Erasable bank, 0 to 7; so are the other two banks.
    pub core_bank: u32,
    /// Offset in the bank, 0 to 377 octal; so are the other two offsets.
    pub core_offset: u32,
    /// The number of core sets, 0 to 20 octal.
    pub sets: u32,
    pub lst1_bank: u32,
    pub lst1_offset: u32,
    pub lst2_bank: u32,
    pub lst2_offset: u32,
}

impl WatchSpec {
    /// Parses seven octal numbers of one to six digits, separated by commas, in the order of the
    /// fields. Returns `None` for any other text.
    #[tactic(auto, using(crate::proofs::Numbers::numbers))]
    pub fn read(text: &str) -> Option<WatchSpec>
        ensures { result ≡ spec_of text.now }
    {
        let (core_bank, text) = first_number(text)?;
        let (core_offset, text) = first_number(text)?;
        let (sets, text) = first_number(text)?;
        let (lst1_bank, text) = first_number(text)?;
        let (lst1_offset, text) = first_number(text)?;
        let (lst2_bank, text) = first_number(text)?;
        let lst2_offset = last_number(text)?;
        Some(WatchSpec {
            core_bank,
            core_offset,
            sets,
            lst1_bank,
            lst1_offset,
            lst2_bank,
            lst2_offset,
        })
    }

    /// Returns the first fault of the places, if any: a table outside erasable memory, checked in
    /// the order of `Table`, and then too many core sets. Never `Memory`.
    #[tactic(auto, unfolding(crate::specs::WatchSpec::watch_fault_of))]
    pub fn fault(&self) -> Option<WatchFault>
        ensures { result ≡ watch_fault_of self.now }
    {
        let core_cells = u64::from(CORE_SET_CELLS) * u64::from(self.sets);
        if is_out(self.core_bank, self.core_offset, core_cells) {
            return Some(WatchFault::OutOfErasable { table: Table::Core });
        }
        if is_out(self.lst1_bank, self.lst1_offset, LST1_CELLS as u64) {
            return Some(WatchFault::OutOfErasable { table: Table::Lst1 });
        }
        if is_out(self.lst2_bank, self.lst2_offset, 2 * LST2_TASKS as u64) {
            return Some(WatchFault::OutOfErasable { table: Table::Lst2 });
        }
        if self.sets > MOST_SETS as u32 {
            return Some(WatchFault::TooManySets);
        }
        None
    }

    /// Returns the spec as one whose tables can be watched, or its first fault.
    pub fn checked(&self) -> Result<CheckedSpec, WatchFault>
        ensures { MatchResult result (λ checked. checked ≡ self.now)
            (λ fault. watch_fault_of self.now ≡ Some fault) }
    {
        match self.fault() {
            Some(fault) => Err(fault),
            None => Ok(CheckedSpec { spec: *self }),
        }
    }
}

/// A spec without a fault: all its tables can be watched. Contracts see the spec.
#[derive(Clone, Copy, Debug, PartialEq, Eq)]
pub struct CheckedSpec {
    spec: WatchSpec,
}

impl Model for CheckedSpec {
    ghost use Rattle.std.specs.Prelude.{◌≡◌, None};
    ghost use Rattle.agc_panel.specs.WatchSpec.{watch_fault_of};
    ghost use Rattle.agc_panel.specs.declared.watch_spec.WatchSpec.{WatchSpec};

    ghost Value = { WatchSpec };

    ghost view = { λ checked. checked.spec };

    ghost invariant = { λ checked. watch_fault_of checked.spec ≡ None };

    ghost inverse = { λ spec. record { spec = spec } };
}

impl CheckedSpec {
    /// Returns the spec.
    pub fn spec(&self) -> WatchSpec
        ensures spec { result ≡ self.now }
        ensures sound { watch_fault_of result ≡ None }
    {
        self.spec
    }
}

/// Returns whether a table of this many cells does not fit there.
#[tactic(auto, unfolding(crate::specs::WatchSpec::is_out))]
fn is_out(bank: u32, offset: u32, cells: u64) -> bool
    requires { cells < 2 ^ 40 }
    ensures { result ≡ is_out bank offset cells }
{
    bank > 7
        || offset > 0o377
        || u64::from(BANK_CELLS * bank + offset) + cells > u64::from(ERASABLE_CELLS)
}

/// Reads the number before the first comma of a text, and returns it with the text after the comma.
/// Returns `None` if there is no comma, or no number before it.
fn first_number(text: &str) -> Option<(u32, &str)>
    ensures { MatchOption result (HasFewer 2 text.now)
        (λ r. numbers_in text.now ≡ with_number r.0 (numbers_in r.1.now)) }
{
    let (number, rest) = text.split_once(',')?;
    let number = read_octal(6, number.as_bytes())?;
    Some((number as u32, rest))
}

/// Reads a whole text as a number. Returns `None` if it is not one, or has a comma.
fn last_number(text: &str) -> Option<u32>
    ensures { MatchOption result (HasMore 1 text.now)
        (λ number. numbers_in text.now ≡ Some (number ∷ [])) }
{
    let number = read_octal(6, text.as_bytes())?;
    Some(number as u32)
}
