//! A table of tallies, one for each thing of a kind.
use crate::tally::{Tally, total_of};
use std::alloc::{AllocError, Global};
use std::marker::Model;

/// A tally for each of a number of things.
#[derive(Debug, Drop)]
pub struct Table {
    tallies: Vec<Tally>,
}

impl Model for Table {
    ghost use Rattle.std.specs.Prelude.{List};
    ghost use Rattle.agc_profile.specs.declared.tally.Tally.{Tally};

    ghost Value = { List Tally };

    ghost view = { λ t. t.tallies.items };
}

impl Table {
    ghost use Rattle.std.specs.Prelude.{◌≡◌, ◌+◌, ◌*◌, ◌<◌, ◌^◌, length, IfOk, OnOk};
    ghost use Rattle.agc_profile.specs.Tally.{added, bank_tally, empty_table, tally_at};

    /// Creates a table for `size` things in which nothing is counted yet. Fails if out of memory.
    #[tactic(auto, unfolding(crate::specs::Tally::empty_table))]
    pub(crate) fn new(alloc: Global, size: usize) -> Result<Table, AllocError>
        ensures { IfOk result (λ table. table ≡ empty_table size) }
    {
        let tallies = vec![in alloc; Tally::NOTHING; size]?;
        Ok(Table { tallies })
    }

    /// Returns the number of tallies.
    pub fn len(&self) -> usize
        ensures { result ≡ length self.now }
    {
        self.tallies.len()
    }

    /// Returns the tally at a place; past the last one, zero.
    #[tactic(auto, unfolding(crate::specs::Tally::tally_at))]
    pub fn at(&self, place: usize) -> Tally
        ensures { result ≡ tally_at place self.now }
    {
        match self.tallies.get(place) {
            Some(tally) => *tally,
            None => Tally::NOTHING,
        }
    }

    /// Returns the total of a bank of `size` places; past the last place, zero. Fails if a number overflows.
    #[tactic(auto, unfolding(crate::specs::Tally::bank_tally))]
    pub fn of_bank(&self, size: usize, bank: usize) -> Result<Tally, AllocError>
        requires { size * bank < 2 ^ 64 }
        ensures { IfOk result (λ all. all ≡ bank_tally size bank self.now) }
    {
        let first = (size * bank).min(self.tallies.len());
        let last = first.saturating_add(size).min(self.tallies.len());
        total_of(&self.tallies.as_slice()[first..last])
    }

    /// Adds to the tally at a place that the table has, if both numbers have room.
    #[inline]
    #[tactic(auto, unfolding(crate::specs::Tally::added, crate::specs::Tally::tally_at))]
    pub(crate) fn gain(&mut self, place: usize, more: Tally)
        requires place { place < length self.old }
        requires times { (tally_at place self.old).times + more.times < 2 ^ 64 }
        requires cycles { (tally_at place self.old).cycles + more.cycles < 2 ^ 64 }
        ensures { self.new ≡ added place more self.old }
    {
        let tally = self.tallies[place];
        self.tallies[place] = Tally {
            times: tally.times + more.times,
            cycles: tally.cycles + more.cycles,
        };
    }

    /// Adds to the tally at a place; past the last one, nothing is counted. Fails if a number overflows.
    #[inline]
    #[tactic(auto, unfolding(crate::specs::Tally::added))]
    pub(crate) fn add(&mut self, place: usize, more: Tally) -> Result<(), AllocError>
        ensures { OnOk result (self.new ≡ added place more self.old) }
    {
        if place < self.tallies.len() {
            self.tallies[place] = self.tallies[place].plus(more)?;
        }
        Ok(())
    }
}
