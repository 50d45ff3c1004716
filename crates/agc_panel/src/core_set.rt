//! One core set of the Executive, read from erasable memory.
ghost use Rattle.std.specs.Prelude.{◌≡◌, ◌+◌, ◌<◌, ◌≤◌};
ghost use Rattle.agc_panel.specs.CoreSet.{erasable_word, priority_number, job_at, set_with};
ghost use Rattle.agc_panel.specs.CoreSet.{core_set_at};

use crate::watch_spec::{BANK_CELLS, CORE_SET_CELLS, ERASABLE_CELLS};
use agc_store::Store;
use agc_word::Narrow;

/// The offset of the word LOC in a core set.
const LOC: u32 = 0o10;

/// The offset of the word BANKSET in a core set.
const BANKSET: u32 = 0o11;

/// The offset of the word PRIORITY in a core set.
const PRIORITY: u32 = 0o13;

/// The contents of a core set: nothing, a job that waits to be woken, or a job that may run.
#[derive(Clone, Copy, Debug, PartialEq, Eq)]
pub enum CoreSet {
    Free,
    Asleep(Job),
    Ready(Job),
}

/// A job of the Executive.
#[derive(Clone, Copy, Debug, PartialEq, Eq)]
pub struct Job {
    pub priority: JobPriority,
    /// Where the job continues.
    pub loc: Narrow,
    /// The banks in which it continues.
    pub bankset: Narrow,
}

/// The word PRIORITY of a job.
#[derive(Clone, Copy, Debug, PartialEq, Eq)]
pub struct JobPriority(pub Narrow);

impl JobPriority {
    /// Returns the priority, 0 to 37 octal: bits 14 to 10 of the word's magnitude.
    pub fn number(self) -> u16
        ensures number { result ≡ priority_number self }
        ensures range { result < 0o40 }
    {
        self.0.magnitude() / 0o1000 % 0o40
    }
}

/// Returns a word of erasable memory, as one flat list.
#[tactic(auto, unfolding(crate::specs::CoreSet::erasable_word, agc_store::specs::Cells::cell_of))]
pub(crate) fn erasable_word(store: &Store, place: u32) -> Narrow
    requires { place < ERASABLE_CELLS }
    ensures { result ≡ erasable_word store.now place }
{
    store.cell((place / BANK_CELLS) as u8, (place % BANK_CELLS) as u16)
}

/// Returns the job in the core set that begins at a cell.
#[tactic(auto, unfolding(crate::specs::CoreSet::job_at))]
fn job_at(store: &Store, first: u32) -> Job
    requires { first + CORE_SET_CELLS ≤ ERASABLE_CELLS }
    ensures { result ≡ job_at store.now first }
{
    Job {
        priority: JobPriority(erasable_word(store, first + PRIORITY)),
        loc: erasable_word(store, first + LOC),
        bankset: erasable_word(store, first + BANKSET),
    }
}

/// Returns the core set that begins at a cell. -0 in PRIORITY marks a free set, and any other
/// negative word a sleeping job.
#[tactic(auto, unfolding(crate::specs::CoreSet::set_with))]
pub(crate) fn core_set_at(store: &Store, first: u32) -> CoreSet
    requires { first + CORE_SET_CELLS ≤ ERASABLE_CELLS }
    ensures { result ≡ core_set_at store.now first }
{
    let priority = erasable_word(store, first + PRIORITY);
    if !priority.is_minus() {
        CoreSet::Ready(job_at(store, first))
    } else if priority.magnitude() == 0 {
        CoreSet::Free
    } else {
        CoreSet::Asleep(job_at(store, first))
    }
}
