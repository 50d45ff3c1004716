//! The copies of a session's machine: which are kept, and which one a script can go on from.
ghost use Rattle.std.specs.Prelude.{◌≡◌, ◌⊎◌, ◌++◌, ◌∷◌, ℕ, ◌<◌, ◌≤◌, [], List, All, IsTrue, IfSome, length, take, drop};
ghost use Rattle.agc_word.specs.Number.{Number};
ghost use Rattle.agc_machine.specs.Boundary.{IsBefore};
ghost use Rattle.agc_session.specs.Checkpoints.{Fits, IsCheckpoint};

use agc_machine::Machine;
use agc_panel::Panel;
use agc_script::{Script, begin_alike};
use std::alloc::Global;

/// The cycles between two copies: about three seconds of machine time.
const SPACING: u64 = 262_144;

/// The most copies kept: enough for the largest limit of a machine.
const MOST_COPIES: u32 = 22;

/// A copy of the machine and the panel at one point of a run.
#[derive(Drop)]
pub(crate) struct Checkpoint {
    /// The machine, without its events.
    pub(crate) machine: Machine,
    pub(crate) panel: Panel,
    /// The number of channel writes from the start to here.
    pub(crate) writes: usize,
    /// The events that the run has taken. The plain run of these alone leads here.
    pub(crate) taken: Script,
}

/// The copies of a run, older ones first.
#[derive(Drop)]
pub(crate) struct Checkpoints {
    pub(crate) copies: Vec<Checkpoint>,
    /// The cycle from which the next copy is due.
    pub(crate) due: u64,
}

impl Checkpoints {
    /// Returns no copies.
    pub(crate) fn new(alloc: Global) -> Checkpoints
        ensures { result.copies.items ≡ [] }
    {
        Checkpoints {
            copies: Vec::new(alloc),
            due: SPACING,
        }
    }

    /// Sets when the next copy is due for a machine that is at this cycle.
    pub(crate) fn wait(&mut self, cycle: u64)
        ensures { self.new.copies.items ≡ self.old.copies.items }
    {
        self.due = (cycle / SPACING).saturating_add(1).saturating_mul(SPACING);
    }

    /// Keeps a copy in place of the last one of its rank, so that copies get rarer with their age. If memory runs out,
    /// the copy is dropped.
    pub(crate) fn keep(&mut self, copy: Checkpoint)
        ensures { (words : List Number) (limit : ℕ) → All (IsCheckpoint words limit) self.old.copies.items
            → IsCheckpoint words limit copy → All (IsCheckpoint words limit) self.new.copies.items }
    {
        let rank = rank_at(copy.machine.cycle());
        if let Some(place) = self.place_of(rank) {
            self.copies.remove(place);
        }
        push(&mut self.copies, copy);
    }

    /// Returns the position of the copy with a rank.
    fn place_of(&self, rank: u32) -> Option<usize>
        ensures { IfSome result (λ place. place < length self.now.copies.items) }
    {
        for place in 0..self.copies.len() {
            if rank_at(self.copies[place].machine.cycle()) == rank {
                return Some(place);
            }
        }
        None
    }

    /// Takes out the newest copy at a cycle below `before` that the run of a script leads to. Drops all later ones.
    pub(crate) fn take_newest(&mut self, script: &Script, before: u64) -> Option<Checkpoint>
        ensures right { (words : List Number) (limit : ℕ) → All (IsCheckpoint words limit) self.old.copies.items
            → All (IsCheckpoint words limit) self.new.copies.items }
        ensures copy { (words : List Number) (limit : ℕ) → All (IsCheckpoint words limit) self.old.copies.items
            → IfSome result (IsCheckpoint words limit) }
        ensures fits { IfSome result (Fits script.now) }
        ensures before { IfSome result (λ copy. copy.machine.cycle < before) }
    {
        for _copy in 0..self.copies.len() {
            let copy = self.copies.pop()?;
            if copy.is_on_run_before(script, before) {
                return Some(copy);
            }
        }
        None
    }
}

impl Checkpoint {
    /// Returns whether the run of a script leads to this copy, and before a cycle.
    pub(crate) fn is_on_run_before(&self, script: &Script, cycle: u64) -> bool
        ensures fits { IsTrue result → Fits script.now self.now }
        ensures before { IsTrue result → self.now.machine.cycle < cycle }
    {
        self.machine.cycle() < cycle && self.is_on_run_of(script)
    }

    /// Returns whether the run of a script leads to this copy.
    fn is_on_run_of(&self, script: &Script) -> bool
        ensures { IsTrue result → Fits script.now self.now }
    {
        let taken = self.taken.len();
        begin_alike(script, &self.taken, taken) && is_after(script, taken, self.machine.cycle())
    }
}

/// Returns how often 2 divides the number of a copy's interval, at most 21.
fn rank_at(cycle: u64) -> u32 {
    (cycle / SPACING).trailing_zeros().min(MOST_COPIES - 1)
}

/// Appends an item, or drops it if memory runs out.
fn push<T: Drop>(items: &mut Vec<T>, item: T)
    ensures { (items.new.items ≡ items.old.items) ⊎ (items.new.items ≡ items.old.items ++ item ∷ []) }
{
    let _kept = items.push(item);
}

/// Returns whether the events of a script from a position on come after a cycle.
fn is_after(script: &Script, from: usize, cycle: u64) -> bool
    ensures { IsTrue result → IsBefore cycle (drop from script.now) }
{
    match script.rest(from).first() {
        Some(event) => cycle < event.cycle,
        None => true,
    }
}
