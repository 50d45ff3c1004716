//! The tape: the keys that were pressed live, so that a run can be replayed.
ghost use Rattle.std.specs.Prelude.{◌≡◌, ◌==◌, ◌≤◌, ◌<◌, [], ◌∷◌, ◌++◌, length, slice_get, Some};
ghost use Rattle.std.specs.Prelude.{map, OnOk, OnErr, IfOk};
ghost use Rattle.agc_script.specs.Event.{last_cycle};
ghost use Rattle.agc_script.specs.Merge.{key_event};
ghost use Rattle.agc_script.specs.Tape.{IsTape, IsAfter};

use crate::event::{Event, What};
use crate::key::Key;
use std::alloc::{AllocError, Global};
use std::marker::Model;

/// Keys in the order in which the machine took them, each with its machine cycle.
#[derive(Debug, Drop)]
pub struct Tape {
    entries: Vec<(u64, Key)>,
}

impl Model for Tape {
    ghost use Rattle.std.specs.Prelude.{ℕ, List};
    ghost use Rattle.agc_script.specs.declared.key.Key.{Key};
    ghost use Rattle.agc_script.specs.Tape.{IsTape};

    ghost Value = { List (ℕ × Key) };

    ghost view = { λ t. t.entries.items };

    ghost invariant = { λ t. IsTape t.entries.items };
}

impl Tape {
    /// Returns an empty tape. Later pushes use this allocator.
    #[tactic(auto, unfolding(crate::specs::Tape::IsRising))]
    pub fn new(alloc: Global) -> Tape
        ensures { result ≡ [] }
    {
        Tape {
            entries: Vec::new(alloc),
        }
    }

    /// Returns the number of keys.
    pub fn len(&self) -> usize
        ensures count { result ≡ length self.now }
        ensures tape { IsTape self.now }
    {
        self.entries.len()
    }

    /// Returns whether there are no keys.
    pub fn is_empty(&self) -> bool
        ensures { result ≡ (length self.now == 0) }
    {
        self.entries.is_empty()
    }

    /// Returns the entry at a position, counted from 0: the cycle at which the machine took the
    /// key, and the key.
    pub fn at(&self, i: usize) -> (u64, Key)
        requires { i < length self.now }
        ensures entry { slice_get self.now i ≡ Some result }
        ensures range { result.0 ≤ last_cycle }
    {
        self.entries[i]
    }

    /// Appends an entry. Its cycle is above the last one's and at most 1,000,000,000,000. When
    /// memory runs out, the tape stays unchanged.
    pub fn push(&mut self, cycle: u64, key: Key) -> Result<(), AllocError>
        requires later { IsAfter self.old cycle }
        requires range { cycle ≤ last_cycle }
        ensures ok { OnOk result (self.new ≡ self.old ++ (cycle, key) ∷ []) }
        ensures err { OnErr result (self.new ≡ self.old) }
    {
        self.entries.push((cycle, key))?;
        Ok(())
    }

    /// Returns the keys as events, for the merge.
    pub(crate) fn events(&self, alloc: Global) -> Result<Vec<Event>, AllocError>
        ensures events { IfOk result (λ events. events.items ≡ map key_event self.now) }
        ensures tape { IfOk result (λ _. IsTape self.now) }
    {
        let entries = self.entries.as_slice();
        let mut events = Vec::with_capacity(alloc, entries.len())?;
        for (cycle, key) in entries {
            events.push(Event {
                cycle: *cycle,
                what: What::Key(*key),
            })?;
        }
        Ok(events)
    }
}
