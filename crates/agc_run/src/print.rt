//! Prints a report: the panel, the stop, the log, the live keys and the watched tables.
ghost use Rattle.std.specs.Prelude.{◌≡◌, ◌⊎◌, ◌++◌, IfOk, IfErr, OnOk, string_bytes};
ghost use Rattle.agc_panel.specs.TablesText.{tables_text};
ghost use Rattle.agc_panel.specs.declared.watch_spec.WatchFault.TheVariants as fault;
ghost use Rattle.agc_run.specs.Print.{part_text, report_text};
ghost use Rattle.agc_run.specs.Text.{live_text, log_text};
ghost use Rattle.agc_load.specs.declared.fault.LoadFault.TheVariants as refusal;

use crate::report::{LiveKeys, Log, Report};
use crate::text::{push_live, push_log, push_stop_line};
use agc_load::LoadFault;
use agc_panel::{Tables, WatchFault};
use std::alloc::{AllocError, Global};

/// Returns the text of a report. If memory runs out for the tables' text, the fault is the watcher's.
#[tactic(auto, unfolding(crate::specs::Print::report_text))]
pub fn print(alloc: Global, report: &Report) -> Result<String, LoadFault>
    ensures text { IfOk result (λ text. string_bytes text ≡ report_text report.now) }
    ensures memory { IfErr result (λ r. (r ≡ LoadFault.Memory) ⊎ (r ≡ LoadFault.Watch fault.Memory)) }
{
    let mut text = report.panel.text(alloc)?;
    push_stop_line(&mut text, report.stop, report.cycle, report.writes)?;
    push_log_part(&mut text, &report.log)?;
    push_keys_part(&mut text, &report.keys)?;
    push_tables_part(alloc, &mut text, &report.tables)?;
    Ok(text)
}

fn push_log_part(text: &mut String, log: &Option<Log>) -> Result<(), AllocError>
    ensures { OnOk result
        (string_bytes text.new ≡ string_bytes text.old ++ part_text log_text log.now) }
{
    match log {
        Some(log) => push_log(text, log.writes()),
        None => Ok(()),
    }
}

fn push_keys_part(text: &mut String, keys: &Option<LiveKeys>) -> Result<(), AllocError>
    ensures { OnOk result
        (string_bytes text.new ≡ string_bytes text.old ++ part_text live_text keys.now) }
{
    match keys {
        Some(keys) => push_live(text, keys),
        None => Ok(()),
    }
}

fn push_tables_part(
    alloc: Global,
    text: &mut String,
    tables: &Option<Tables>,
) -> Result<(), LoadFault>
    ensures text { OnOk result (string_bytes text.new
        ≡ string_bytes text.old ++ part_text tables_text tables.now) }
    ensures memory { IfErr result (λ r. (r ≡ LoadFault.Memory) ⊎ (r ≡ LoadFault.Watch fault.Memory)) }
{
    let Some(tables) = tables else {
        return Ok(());
    };
    let Ok(lines) = tables.text(alloc) else {
        return Err(LoadFault::Watch(WatchFault::Memory));
    };
    text.push_str(lines.as_str())?;
    Ok(())
}
