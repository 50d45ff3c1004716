//! Writes answers to the output.
ghost use Rattle.std.specs.Prelude.{◌≡◌, IsErrOf, IfErr, OnOk, string_bytes};
ghost use Rattle.std.specs.Io.KnownBytes.{Appends, Keeps, append_known};
ghost use Rattle.agc_repl.specs.Answer.{end_line, error_line};
ghost use Rattle.agc_repl.specs.Answered.{Grows};

use crate::conversation::ReplFault;
use agc_machine::Stop;
use std::io::Write;

/// The size in bytes from which on a part of an answer is written before the answer is complete.
const PART: usize = 4096;

/// Writes a text.
pub(crate) fn write_text<W: Write>(output: &mut W, text: &str) -> Result<(), ReplFault>
    ensures ok { OnOk result (Appends (W.contents output.old) (W.contents output.new) text.now) }
    ensures fault { IfErr result (λ fault. fault ≡ ReplFault.Write) }
{
    write_bytes(output, text.as_bytes())
}

/// Writes bytes.
pub(crate) fn write_bytes<W: Write>(output: &mut W, bytes: &[u8]) -> Result<(), ReplFault>
    ensures ok { OnOk result (Appends (W.contents output.old) (W.contents output.new) bytes.now) }
    ensures fault { IfErr result (λ fault. fault ≡ ReplFault.Write) }
{
    match output.write_all(bytes) {
        Ok(()) => Ok(()),
        Err(_) => Err(ReplFault::Write),
    }
}

/// Writes the last line of an answer, without memory.
pub(crate) fn write_end_line<W: Write>(
    output: &mut W,
    stopped: Option<Stop>,
    cycle: u64,
) -> Result<(), ReplFault>
    ensures { OnOk result (Appends (W.contents output.old) (W.contents output.new) (end_line stopped cycle)) }
{
    let written = match stopped {
        Some(why) => {
            let reason = why.name();
            writeln!(output, "stop {reason} at {cycle}")
        }
        None => writeln!(output, "at {cycle}"),
    };
    match written {
        Ok(()) => Ok(()),
        Err(_) => Err(ReplFault::Write),
    }
}

/// Writes the answer to a command that did nothing, without memory.
pub(crate) fn write_error_line<W: Write>(output: &mut W, reason: &str) -> Result<(), ReplFault>
    ensures { OnOk result (Appends (W.contents output.old) (W.contents output.new) (error_line reason.now)) }
{
    match writeln!(output, "error: {reason}") {
        Ok(()) => Ok(()),
        Err(_) => Err(ReplFault::Write),
    }
}

/// Writes the part of a long answer that is ready, so that memory does not grow with it. The bytes written plus those
/// still in `text` stay the same.
pub(crate) fn write_part<W: Write>(text: &mut String, output: &mut W) -> Result<(), ReplFault>
    ensures same { OnOk result (Keeps (append_known (W.contents output.old) (string_bytes text.old))
        (append_known (W.contents output.new) (string_bytes text.new))) }
    ensures grows { (IsErrOf result ReplFault.Write → ⊥) → Grows (W.contents output.old) (W.contents output.new) }
    ensures fault { IfErr result (λ fault. fault ≡ ReplFault.Write) }
{
    if text.len() < PART {
        return Ok(());
    }
    write_text(output, text)?;
    text.clear();
    Ok(())
}
