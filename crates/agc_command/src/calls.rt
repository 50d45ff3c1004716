//! Parses the steps by calls.
ghost use Rattle.std.specs.Prelude.{◌≡◌, IfOk};
ghost use Rattle.agc_word.specs.Text.{words_of};
ghost use Rattle.agc_command.specs.Command.{IsCommandInRange, IsJobCell, back_call_of, call_of, job_in};

use crate::command::{BackCall, Command, StepCall};
use crate::fault::CommandFault;
use crate::limits::{after_option, read_within};
use crate::name::CommandName;
use crate::place::read_cell;
use crate::words::{alone, is_word};
use agc_session::CallStep;
use agc_symbols::SymbolTable;
use agc_word::next_word;

/// Parses the words after `over` or `finish`.
#[tactic(auto, unfolding(crate::specs::Command::call_of, crate::specs::Command::IsCommandInRange))]
pub(crate) fn read_call(
    names: &Option<SymbolTable>,
    name: CommandName,
    step: CallStep,
    words: &[u8],
) -> Result<Command, CommandFault>
    ensures call { result ≡ call_of names.now name step (words_of words.now) }
    ensures range { IfOk result IsCommandInRange }
{
    let job = read_job(names, name, words)?;
    let within = read_within(name, after_option(words, "job"))?;
    Ok(Command::StepCall(StepCall { step, job, within }))
}

/// Parses the words after `back over` or `back finish`.
#[tactic(auto, unfolding(crate::specs::Command::back_call_of, crate::specs::Command::IsCommandInRange))]
pub(crate) fn read_back_call(
    names: &Option<SymbolTable>,
    step: CallStep,
    words: &[u8],
) -> Result<Command, CommandFault>
    ensures back { result ≡ back_call_of names.now step (words_of words.now) }
    ensures range { IfOk result IsCommandInRange }
{
    let job = read_job(names, CommandName::Back, words)?;
    let back = Command::BackCall(BackCall {
        step,
        job,
        lists: false,
    });
    alone(back, CommandName::Back, after_option(words, "job"))
}

/// Parses `job CELL` at the beginning of some words.
#[tactic(auto, unfolding(crate::specs::Command::job_in))]
fn read_job(
    names: &Option<SymbolTable>,
    name: CommandName,
    words: &[u8],
) -> Result<Option<u16>, CommandFault>
    ensures job { result ≡ job_in names.now name (words_of words.now) }
    ensures range { IfOk result IsJobCell }
{
    let Some((first, rest)) = next_word(words) else {
        return Ok(None);
    };
    if !is_word(first, "job") {
        return Ok(None);
    }
    let (place, _) = next_word(rest).ok_or(CommandFault::Usage(name))?;
    let cell = read_cell(names, place)?;
    Ok(Some(cell))
}
