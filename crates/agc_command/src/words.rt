//! Checks how many words a command has.
ghost use Rattle.std.specs.Prelude.{◌≡◌, Ok, Err, IfOk, MatchResult};
ghost use Rattle.std.specs.Str.{bytes_eq};
ghost use Rattle.agc_word.specs.Text.{words_of};
ghost use Rattle.agc_command.specs.Words.{alone, only_word};

use crate::command::Command;
use crate::fault::CommandFault;
use crate::name::CommandName;
use agc_word::next_word;

/// Returns whether a word is this one.
pub(crate) fn is_word(word: &[u8], name: &str) -> bool
    ensures { result ≡ bytes_eq word.now name.now }
{
    word == name.as_bytes()
}

/// Returns the only word of a text, or the usage fault of this command if there is not exactly one.
#[tactic(auto, unfolding(crate::specs::Words::only_word))]
pub(crate) fn only_word(name: CommandName, text: &[u8]) -> Result<&[u8], CommandFault>
    ensures { MatchResult result (λ word. only_word name (words_of text.now) ≡ Ok word.now)
        (λ fault. only_word name (words_of text.now) ≡ Err fault) }
{
    let (word, rest) = next_word(text).ok_or(CommandFault::Usage(name))?;
    match next_word(rest) {
        None => Ok(word),
        Some(_) => Err(CommandFault::Usage(name)),
    }
}

/// Returns the command if no words follow its name, else its usage fault.
#[tactic(auto, unfolding(crate::specs::Words::alone))]
pub(crate) fn alone(
    command: Command,
    name: CommandName,
    text: &[u8],
) -> Result<Command, CommandFault>
    ensures alone { result ≡ alone command name (words_of text.now) }
    ensures same { IfOk result (λ same. same ≡ command) }
{
    match next_word(text) {
        None => Ok(command),
        Some(_) => Err(CommandFault::Usage(name)),
    }
}
