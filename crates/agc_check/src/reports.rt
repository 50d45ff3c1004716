//! Reports on a rope file and a script file.
ghost use Rattle.std.specs.Prelude.{◌≡◌, ◌++◌, ◌&&◌, ◌≤◌, length, is_none, is_ok, IfOk, OnOk, string_bytes};
ghost use Rattle.agc_word.specs.Text.{lines_of};
ghost use Rattle.agc_store.specs.RopeFile.{rope_fault_of};
ghost use Rattle.agc_script.specs.Parse.{script_of};
ghost use Rattle.agc_check.specs.Report.{IsFileReport, IsScriptReport, span_text};
ghost use Rattle.agc_check.specs.Report.{script_fault_text, script_holdings_text};
ghost use Rattle.agc_check.specs.RopeReport.{rope_report};

use crate::holdings::{ScriptHoldings, Span, holdings_of_script};
use crate::lines::line_at;
use crate::remarks::remark;
use crate::rope_report::push_rope;
use agc_listing::{Report, push_file_line};
use agc_load::LoadFault;
use agc_script::{FaultKind, Script, ScriptFault};
use agc_store::RopeForm;
use std::alloc::{AllocError, Global};

/// Checks a rope file of the given form and a script file. For each file the report gives either
/// what it holds, or its fault (of `Rope::read_as` or `Script::parse`) and what is wrong there.
/// Fails if out of memory.
pub fn check(
    alloc: Global,
    form: RopeForm,
    rope: &[u8],
    script: &[u8],
) -> Result<Report, AllocError>
    ensures sound { IfOk result (λ report. report.is_sound
        ≡ (is_none (rope_fault_of form rope.now) && is_ok (script_of script.now))) }
    ensures text { IfOk result (λ report. IsFileReport form rope.now script.now (string_bytes report.text)) }
{
    let mut text = String::new(alloc);
    let rope_is_sound = push_rope(alloc, &mut text, form, rope)?;
    let script_is_sound = push_script(alloc, &mut text, script)?;
    Ok(Report {
        text,
        is_sound: rope_is_sound && script_is_sound,
    })
}

/// Checks a rope file of the given form alone. The report gives what it holds, or its fault and what is wrong there.
/// Fails if out of memory.
pub fn check_rope(alloc: Global, form: RopeForm, rope: &[u8]) -> Result<Report, AllocError>
    ensures sound { IfOk result (λ report. report.is_sound ≡ is_none (rope_fault_of form rope.now)) }
    ensures text { IfOk result (λ report. string_bytes report.text ≡ rope_report form rope.now) }
{
    let mut text = String::new(alloc);
    let is_sound = push_rope(alloc, &mut text, form, rope)?;
    Ok(Report { text, is_sound })
}

/// Appends the report on a script file, and returns whether nothing is wrong with it.
fn push_script(alloc: Global, text: &mut String, file: &[u8]) -> Result<bool, AllocError>
    ensures sound { IfOk result (λ sound. sound ≡ is_ok (script_of file.now)) }
    ensures text { OnOk result
        (IsScriptReport file.now (string_bytes text.old) (string_bytes text.new)) }
{
    match Script::parse(alloc, file) {
        Ok(script) => {
            push_script_holdings(text, holdings_of_script(&script))?;
            Ok(true)
        }
        Err(
            ScriptFault {
                kind: FaultKind::Memory,
                ..
            },
        ) => Err(AllocError),
        Err(fault) => {
            push_script_fault(text, file, fault)?;
            let remark = remark(alloc, file, fault, line_at(file, fault.line))?;
            text.push_str(remark.as_str())?;
            Ok(false)
        }
    }
}

/// Appends the line about what a script holds.
#[tactic(auto, unfolding(crate::specs::Report::script_holdings_text))]
fn push_script_holdings(text: &mut String, holdings: ScriptHoldings) -> Result<(), AllocError>
    ensures { OnOk result
        (string_bytes text.new ≡ string_bytes text.old ++ script_holdings_text holdings) }
{
    let events = holdings.events;
    write!(text, "script: events {events}")?;
    push_span(text, holdings.span)?;
    text.push_str("\n")
}

fn push_span(text: &mut String, span: Option<Span>) -> Result<(), AllocError>
    ensures { OnOk result (string_bytes text.new ≡ string_bytes text.old ++ span_text span) }
{
    match span {
        Some(Span { first, last }) => write!(text, ", first cycle {first}, last cycle {last}"),
        None => Ok(()),
    }
}

/// Appends the fault of a script, worded as in `agc`, and the line with the fault.
#[tactic(auto, unfolding(crate::specs::Report::script_fault_text))]
fn push_script_fault(text: &mut String, file: &[u8], fault: ScriptFault) -> Result<(), AllocError>
    requires first { 1 ≤ fault.line }
    requires last { fault.line ≤ length (lines_of file.now) }
    ensures { OnOk result
        (string_bytes text.new ≡ string_bytes text.old ++ script_fault_text file.now fault) }
{
    let refusal = LoadFault::Script(fault);
    writeln!(text, "{refusal}")?;
    text.push_str("    ")?;
    push_file_line(text, line_at(file, fault.line))?;
    text.push_str("\n")
}
