//! Sums the orders that ran by routine: from one name to the next in the same bank.
ghost use Rattle.std.specs.Prelude.{◌≡◌, ◌<◌, IfOk};
ghost use Rattle.agc_profile.specs.Routine.{AreSums, begins, is_named, last_below, routine_of, size_of};

use crate::profile::Profile;
use crate::table::Table;
use agc_listing::Location;
use agc_store::place::{ERASABLE_BANK_SIZE, ERASABLE_CELLS, FIXED_BANK_SIZE, FIXED_PLACES};
use agc_symbols::SymbolTable;
use std::alloc::{AllocError, Global};

/// One of the two memories, whose places are counted in tables of their own.
#[derive(Clone, Copy, Debug, PartialEq, Eq)]
pub enum MemoryKind {
    Fixed,
    Erasable,
}

impl MemoryKind {
    ghost use Rattle.std.specs.Prelude.{◌≡◌, ◌<◌};
    ghost use Rattle.agc_profile.specs.Routine.{bank_size, location_of, size_of, table_of};

    /// Returns the number of its places.
    pub fn size(self) -> usize
        ensures { result ≡ size_of self }
    {
        match self {
            MemoryKind::Fixed => FIXED_PLACES as usize,
            MemoryKind::Erasable => usize::from(ERASABLE_CELLS),
        }
    }

    /// Returns the number of places of a bank.
    fn bank_size(self) -> usize
        ensures { result ≡ bank_size self }
    {
        match self {
            MemoryKind::Fixed => usize::from(FIXED_BANK_SIZE),
            MemoryKind::Erasable => usize::from(ERASABLE_BANK_SIZE),
        }
    }

    /// Returns the location of a place.
    pub fn location(self, place: usize) -> Location
        requires { place < size_of self }
        ensures { result ≡ location_of self place }
    {
        match self {
            MemoryKind::Fixed => Location::Fixed(place as u32),
            MemoryKind::Erasable => Location::Erasable(place as u32),
        }
    }

    /// Returns the orders that ran in it, by their places.
    pub fn table(self, counts: &Profile) -> &Table
        ensures { result.now ≡ table_of self counts.now }
    {
        match self {
            MemoryKind::Fixed => &counts.fixed,
            MemoryKind::Erasable => &counts.erasable,
        }
    }
}

/// Returns the sum of each routine at the place where it begins: the orders of all places that belong to it. Fails if a
/// number overflows, or out of memory.
pub fn sum_routines(
    alloc: Global,
    names: &SymbolTable,
    memory: MemoryKind,
    table: &Table,
) -> Result<Table, AllocError>
    ensures { IfOk result (λ sums. AreSums names.now memory table.now sums) }
{
    let mut sums = Table::new(alloc, memory.size())?;
    let mut first = 0;
    for place in 0..memory.size() {
        first = start_of(names, memory, place, first);
        sums.add(first, table.at(place))?;
    }
    Ok(sums)
}

/// Returns where the routine of a place begins, from where that of the place before it does.
#[tactic(auto, using(crate::proofs::Routines::start_is))]
fn start_of(names: &SymbolTable, memory: MemoryKind, place: usize, before: usize) -> usize
    requires place { place < size_of memory }
    requires before { before ≡ last_below (begins names.now memory) place }
    ensures { result ≡ routine_of names.now memory place }
{
    if begins(names, memory, place) {
        place
    } else {
        before
    }
}

/// Returns whether a routine begins at a place: it has a name, or its bank begins there.
#[tactic(auto, unfolding(crate::specs::Routine::begins))]
fn begins(names: &SymbolTable, memory: MemoryKind, place: usize) -> bool
    requires { place < size_of memory }
    ensures { result ≡ begins names.now memory place }
{
    place % memory.bank_size() == 0 || is_named(names, memory.location(place))
}

/// Returns whether a place has a name of its own.
#[tactic(auto, unfolding(crate::specs::Routine::is_named))]
pub fn is_named(names: &SymbolTable, at: Location) -> bool
    ensures { result ≡ is_named names.now at }
{
    match names.named_at(at) {
        Some(near) => near.offset == 0,
        None => false,
    }
}
