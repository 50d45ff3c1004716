//! Keeps the tables shown last, and finds what has changed since.
ghost use Rattle.std.specs.Prelude.{◌≡◌, IsTrue};

use crate::changed_lines::changed_lines;
use agc_panel::{CoreSet, Job, Tables, Task};
use agc_symbols::SymbolTable;
use agc_word::Narrow;
use std::alloc::{AllocError, Global};
use std::marker::Model;

/// The tables read last, if any, and their text. Contracts see the text, which is empty before the first tables.
#[derive(Debug, Drop)]
pub struct LastTables {
    tables: Option<Tables>,
    text: String,
}

impl Model for LastTables {
    ghost use Rattle.std.specs.Prelude.{◌≡◌, ℕ, List, IfSome, string_bytes};
    ghost use Rattle.agc_panel.specs.TablesText.{tables_text};

    ghost Value = { List ℕ };

    ghost view = { λ shown. string_bytes shown.text };

    ghost invariant = { λ shown. IfSome shown.tables (λ tables. string_bytes shown.text ≡ tables_text tables) };
}

impl LastTables {
    ghost use Rattle.std.specs.Prelude.{◌≡◌, [], IfOk, IsTrue, OnOk, string_bytes};
    ghost use Rattle.agc_panel.specs.TablesText.{tables_text};
    ghost use Rattle.agc_timeline.specs.Lines.{lines_at, lines_in};

    /// Creates the state before any tables were read.
    pub fn nothing(alloc: Global) -> LastTables
        ensures { result ≡ [] }
    {
        LastTables {
            tables: None,
            text: String::new(alloc),
        }
    }

    /// Returns whether the tables are those read last.
    pub fn is_of(&self, tables: &Tables) -> bool
        ensures { IsTrue result → self.now ≡ tables_text tables.now }
    {
        match &self.tables {
            Some(last) => are_same(last, tables),
            None => false,
        }
    }

    /// Takes the tables at a cycle, and returns their changed lines, with these names. Fails if memory runs out.
    pub fn take(
        &mut self,
        alloc: Global,
        names: &Option<SymbolTable>,
        cycle: u64,
        tables: Tables,
    ) -> Result<String, AllocError>
        ensures reported { IfOk result (λ reported. string_bytes reported
            ≡ lines_at names.now cycle (lines_in self.old) (lines_in (tables_text tables))) }
        ensures shown { OnOk result (self.new ≡ tables_text tables) }
    {
        let text = tables.text(alloc)?;
        let reported = changed_lines(alloc, names, cycle, self.text.as_str(), text.as_str())?;
        *self = LastTables {
            tables: Some(tables),
            text,
        };
        Ok(reported)
    }
}

/// Returns whether all words of the tables are the same.
fn are_same(left: &Tables, right: &Tables) -> bool
    ensures { IsTrue result → left.now ≡ right.now }
{
    are_same_sets(left.core_sets(), right.core_sets())
        && are_same_times(left.lst1(), right.lst1())
        && are_same_tasks(left.lst2(), right.lst2())
}

fn are_same_sets(left: &[CoreSet], right: &[CoreSet]) -> bool
    ensures { IsTrue result → left.now ≡ right.now }
{
    if left.len() != right.len() {
        return false;
    }
    for k in 0..left.len() {
        if !is_same_set(left[k], right[k]) {
            return false;
        }
    }
    true
}

fn is_same_set(left: CoreSet, right: CoreSet) -> bool
    ensures { IsTrue result → left ≡ right }
{
    match (left, right) {
        (CoreSet::Free, CoreSet::Free) => true,
        (CoreSet::Asleep(job), CoreSet::Asleep(other)) => is_same_job(job, other),
        (CoreSet::Ready(job), CoreSet::Ready(other)) => is_same_job(job, other),
        _ => false,
    }
}

fn is_same_job(left: Job, right: Job) -> bool
    ensures { IsTrue result → left ≡ right }
{
    left == right
}

fn are_same_times(left: &[Narrow], right: &[Narrow]) -> bool
    ensures { IsTrue result → left.now ≡ right.now }
{
    if left.len() != right.len() {
        return false;
    }
    for k in 0..left.len() {
        if !is_same_time(left[k], right[k]) {
            return false;
        }
    }
    true
}

fn is_same_time(left: Narrow, right: Narrow) -> bool
    ensures { IsTrue result → left ≡ right }
{
    left == right
}

fn are_same_tasks(left: &[Task], right: &[Task]) -> bool
    ensures { IsTrue result → left.now ≡ right.now }
{
    if left.len() != right.len() {
        return false;
    }
    for k in 0..left.len() {
        if !is_same_task(left[k], right[k]) {
            return false;
        }
    }
    true
}

fn is_same_task(left: Task, right: Task) -> bool
    ensures { IsTrue result → left ≡ right }
{
    left == right
}
