//! The watched tables as values, read from erasable memory.
ghost use Rattle.std.specs.Prelude.{◌≡◌, ◌+◌, ◌*◌, ◌≤◌, take};
ghost use Rattle.agc_panel.specs.Tables.{entries, nth_core_set, nth_time, nth_task, tables_of};
ghost use Rattle.agc_panel.specs.WatchSpec.{lst1_cells, lst2_tasks, most_sets};

use crate::core_set::{CoreSet, core_set_at, erasable_word};
use crate::watch_spec::{
    BANK_CELLS, CORE_SET_CELLS, CheckedSpec, ERASABLE_CELLS, LST1_CELLS, LST2_TASKS, MOST_SETS,
};
use agc_store::Store;
use agc_word::Narrow;
use std::marker::Model;

/// A task of the Waitlist.
#[derive(Clone, Copy, Debug, PartialEq, Eq)]
pub struct Task {
    /// Where the task begins.
    pub address: Narrow,
    /// The banks in which it begins.
    pub bbcon: Narrow,
}

impl Task {
    const NONE: Task = Task {
        address: Narrow::PLUS_ZERO,
        bbcon: Narrow::PLUS_ZERO,
    };
}

/// The tables of the Executive in a memory. Contracts see three lists.
#[derive(Debug, Drop)]
pub struct Tables {
    core_sets: [CoreSet; MOST_SETS],
    /// How many entries of `core_sets` are watched.
    sets: usize,
    lst1: [Narrow; LST1_CELLS],
    lst2: [Task; LST2_TASKS],
}

impl Model for Tables {
    ghost use Rattle.std.specs.Prelude.{◌≤◌, take};
    ghost use Rattle.agc_panel.specs.Tables.{WatchedTables};
    ghost use Rattle.agc_panel.specs.WatchSpec.{most_sets};

    ghost Value = { WatchedTables };

    ghost view = { λ tables. record {
      core_sets = take tables.sets tables.core_sets;
      lst1 = tables.lst1;
      lst2 = tables.lst2;
    } };

    ghost invariant = { λ tables. tables.sets ≤ most_sets };
}

impl Tables {
    /// Reads the tables at the places of a spec.
    #[tactic(auto, unfolding(crate::specs::Tables::tables_of, crate::specs::WatchSpec::watch_fault_of, crate::specs::WatchSpec::is_out))]
    pub fn read(store: &Store, spec: &CheckedSpec) -> Tables
        ensures { result ≡ tables_of store.now spec.now }
    {
        let spec = spec.spec();
        let core = BANK_CELLS * spec.core_bank + spec.core_offset;
        let lst1 = BANK_CELLS * spec.lst1_bank + spec.lst1_offset;
        let lst2 = BANK_CELLS * spec.lst2_bank + spec.lst2_offset;
        Tables {
            core_sets: read_core_sets(store, core, spec.sets),
            sets: spec.sets as usize,
            lst1: read_lst1(store, lst1),
            lst2: read_lst2(store, lst2),
        }
    }

    /// Returns the core sets in order, at most 20 octal.
    pub fn core_sets(&self) -> &[CoreSet]
        ensures { result.now ≡ self.now.core_sets }
    {
        &self.core_sets[..self.sets]
    }

    /// Returns the words of LST1, the times of the Waitlist.
    pub fn lst1(&self) -> &[Narrow]
        ensures { result.now ≡ self.now.lst1 }
    {
        &self.lst1
    }

    /// Returns the pairs of LST2, the tasks of the Waitlist.
    pub fn lst2(&self) -> &[Task]
        ensures { result.now ≡ self.now.lst2 }
    {
        &self.lst2
    }
}

/// Reads `sets` core sets from a cell on; the rest of the array is free sets.
fn read_core_sets(store: &Store, start: u32, sets: u32) -> [CoreSet; MOST_SETS]
    requires cells { start + CORE_SET_CELLS * sets ≤ ERASABLE_CELLS }
    requires bound { sets ≤ most_sets }
    ensures { take sets result ≡ entries sets (nth_core_set store.now start) }
{
    let mut core_sets = [CoreSet::Free; MOST_SETS];
    for k in 0..sets {
        core_sets[k as usize] = core_set_at(store, start + CORE_SET_CELLS * k);
    }
    core_sets
}

/// Reads the words of LST1, which begins at a cell.
fn read_lst1(store: &Store, start: u32) -> [Narrow; LST1_CELLS]
    requires { start + lst1_cells ≤ ERASABLE_CELLS }
    ensures { result ≡ entries lst1_cells (nth_time store.now start) }
{
    let mut times = [Narrow::PLUS_ZERO; LST1_CELLS];
    for k in 0..LST1_CELLS as u32 {
        times[k as usize] = erasable_word(store, start + k);
    }
    times
}

/// Reads the pairs of LST2, which begins at a cell.
fn read_lst2(store: &Store, start: u32) -> [Task; LST2_TASKS]
    requires { start + 2 * lst2_tasks ≤ ERASABLE_CELLS }
    ensures { result ≡ entries lst2_tasks (nth_task store.now start) }
{
    let mut tasks = [Task::NONE; LST2_TASKS];
    for k in 0..LST2_TASKS as u32 {
        tasks[k as usize] = Task {
            address: erasable_word(store, start + 2 * k),
            bbcon: erasable_word(store, start + 2 * k + 1),
        };
    }
    tasks
}
