//! Parses how far a run to a hit goes: `ignore N`, then `within N`.
ghost use Rattle.std.specs.Prelude.{◌≡◌, ◌≤◌, IfOk};
ghost use Rattle.agc_script.specs.Event.{last_cycle};
ghost use Rattle.agc_word.specs.Text.{words_of};
ghost use Rattle.agc_command.specs.Command.{after_option, ignored_in, limits_of, within_of};

use crate::command::Limits;
use crate::comparison::without_first;
use crate::fault::CommandFault;
use crate::name::CommandName;
use crate::number::read_cycles;
use crate::words::{is_word, only_word};
use agc_word::next_word;

/// The number of cycles that a run to a hit takes at most if no `within N` is written.
const WITHIN: u64 = 1_000_000;

/// Parses `ignore N` and `within N`, each of which may be missing.
#[tactic(auto, unfolding(crate::specs::Command::limits_of))]
pub(crate) fn read_limits(name: CommandName, words: &[u8]) -> Result<Limits, CommandFault>
    ensures limits { result ≡ limits_of name (words_of words.now) }
    ensures range { IfOk result (λ limits. limits.within ≤ last_cycle) }
{
    let ignore = read_ignored(name, words)?;
    let within = read_within(name, after_option(words, "ignore"))?;
    Ok(Limits { ignore, within })
}

/// Parses `ignore N` at the beginning of some words. Without it, returns 0.
#[tactic(auto, unfolding(crate::specs::Command::ignored_in))]
pub(crate) fn read_ignored(name: CommandName, words: &[u8]) -> Result<u64, CommandFault>
    ensures ignored { result ≡ ignored_in name (words_of words.now) }
    ensures range { IfOk result (λ hits. hits ≤ last_cycle) }
{
    let Some((first, rest)) = next_word(words) else {
        return Ok(0);
    };
    if !is_word(first, "ignore") {
        return Ok(0);
    }
    let (hits, _) = next_word(rest).ok_or(CommandFault::Usage(name))?;
    read_cycles(hits)
}

/// Returns the words after an option and its value, if they begin with it; else all.
#[tactic(auto, unfolding(crate::specs::Command::after_option))]
pub(crate) fn after_option<'a>(words: &'a [u8], option: &str) -> &'a [u8]
    ensures { words_of result.now ≡ after_option option.now (words_of words.now) }
{
    let Some((first, rest)) = next_word(words) else {
        return words;
    };
    if !is_word(first, option) {
        return words;
    }
    without_first(rest)
}

/// Parses `within N`. Without words, returns the default.
#[tactic(auto, unfolding(crate::specs::Command::within_of))]
pub(crate) fn read_within(name: CommandName, words: &[u8]) -> Result<u64, CommandFault>
    ensures within { result ≡ within_of name (words_of words.now) }
    ensures range { IfOk result (λ cycles. cycles ≤ last_cycle) }
{
    let Some((first, rest)) = next_word(words) else {
        return Ok(WITHIN);
    };
    if !is_word(first, "within") {
        return Err(CommandFault::Usage(name));
    }
    let cycles = only_word(name, rest)?;
    read_cycles(cycles)
}
