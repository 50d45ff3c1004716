//! The watched tables in print.
ghost use Rattle.std.specs.Prelude.{◌≡◌, ◌++◌, IfOk, OnOk, Some, string_bytes};
ghost use Rattle.std.specs.List.{flat_map};
ghost use Rattle.agc_panel.specs.TablesText.{priority_text, job_text, held_text, core_set_line};
ghost use Rattle.agc_panel.specs.TablesText.{time_text, lst1_line, task_line, numbered};
ghost use Rattle.agc_panel.specs.TablesText.{tables_text};

use crate::core_set::{CoreSet, Job, JobPriority};
use crate::tables::{Tables, Task};
use agc_word::Narrow;
use std::alloc::{AllocError, Global};
use std::fmt;

impl fmt::Display for JobPriority {
    ghost output = { λ priority. Some (priority_text priority) };

    fn fmt<W: fmt::Write>(&self, f: &mut fmt::Formatter<W>) -> fmt::Result {
        let priority = self.number();
        write!(f, "{priority:02o}")
    }
}

impl Tables {
    /// Prints the tables: a line for each core set, one for LST1 and one for each pair of LST2,
    /// each ended by a line feed. Fails when memory runs out.
    #[tactic(auto, unfolding(crate::specs::TablesText::tables_text))]
    pub fn text(&self, alloc: Global) -> Result<String, AllocError>
        ensures { IfOk result (λ text. string_bytes text ≡ tables_text self.now) }
    {
        let mut text = String::new(alloc);
        push_core_sets(&mut text, self.core_sets())?;
        push_lst1(&mut text, self.lst1())?;
        push_tasks(&mut text, self.lst2())?;
        Ok(text)
    }
}

/// Appends a line for each core set.
#[tactic(auto, using(crate::proofs::Lines::numbered_lines))]
fn push_core_sets(text: &mut String, sets: &[CoreSet]) -> Result<(), AllocError>
    ensures { OnOk result (string_bytes text.new
        ≡ string_bytes text.old ++ numbered core_set_line sets.now) }
{
    for (k, set) in sets.iter().enumerate() {
        push_core_set(text, k, set)?;
    }
    Ok(())
}

/// Appends the line of a core set with its number.
#[tactic(auto, unfolding(crate::specs::TablesText::core_set_line))]
fn push_core_set(text: &mut String, number: usize, set: &CoreSet) -> Result<(), AllocError>
    ensures { OnOk result (string_bytes text.new
        ≡ string_bytes text.old ++ core_set_line number set.now) }
{
    write!(text, "SET {number}")?;
    push_held(text, set)?;
    text.push_str("\n")
}

/// Appends the contents of a core set.
fn push_held(text: &mut String, set: &CoreSet) -> Result<(), AllocError>
    ensures { OnOk result (string_bytes text.new ≡ string_bytes text.old ++ held_text set.now) }
{
    match set {
        CoreSet::Free => text.push_str(" FREE"),
        CoreSet::Asleep(job) => push_job(text, "ASLEEP", job),
        CoreSet::Ready(job) => push_job(text, "READY", job),
    }
}

/// Appends a job: its state, its priority and where it continues.
#[tactic(auto, unfolding(crate::specs::TablesText::job_text))]
fn push_job(text: &mut String, state: &str, job: &Job) -> Result<(), AllocError>
    ensures { OnOk result (string_bytes text.new
        ≡ string_bytes text.old ++ job_text state.now job.now) }
{
    let Job {
        priority,
        loc,
        bankset,
    } = *job;
    write!(text, " {state} {priority} LOC {loc} BANKSET {bankset}")
}

/// Appends the line of LST1.
#[tactic(auto, unfolding(crate::specs::TablesText::lst1_line))]
fn push_lst1(text: &mut String, times: &[Narrow]) -> Result<(), AllocError>
    ensures { OnOk result (string_bytes text.new ≡ string_bytes text.old ++ lst1_line times.now) }
{
    text.push_str("LST1")?;
    push_times(text, times)?;
    text.push_str("\n")
}

/// Appends the words of LST1, each after a space.
#[tactic(auto, using(crate::proofs::Lines::pieces), unfolding(crate::specs::TablesText::time_text))]
fn push_times(text: &mut String, times: &[Narrow]) -> Result<(), AllocError>
    ensures { OnOk result (string_bytes text.new
        ≡ string_bytes text.old ++ flat_map time_text times.now) }
{
    for word in times {
        write!(text, " {word}")?;
    }
    Ok(())
}

/// Appends a line for each pair of LST2.
#[tactic(auto, using(crate::proofs::Lines::numbered_lines))]
fn push_tasks(text: &mut String, tasks: &[Task]) -> Result<(), AllocError>
    ensures { OnOk result (string_bytes text.new
        ≡ string_bytes text.old ++ numbered task_line tasks.now) }
{
    for (k, task) in tasks.iter().enumerate() {
        push_task(text, k, task)?;
    }
    Ok(())
}

/// Appends the line of a pair of LST2.
#[tactic(auto, unfolding(crate::specs::TablesText::task_line))]
fn push_task(text: &mut String, number: usize, task: &Task) -> Result<(), AllocError>
    ensures { OnOk result (string_bytes text.new
        ≡ string_bytes text.old ++ task_line number task.now) }
{
    let Task { address, bbcon } = *task;
    writeln!(text, "LST2 {number} {address} {bbcon}")
}
