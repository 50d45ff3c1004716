//! Where `save` writes the script of a session.
ghost use Rattle.std.specs.Prelude.{◌≡◌};
ghost use Rattle.agc_repl.specs.Answered.{request_saved};

use crate::lines::Request;
use agc_command::{Command, CommandFault, FileName, SaveFault};
use agc_session::Session;

/// Saves the script of a session to a new file.
pub trait Saver {
    /// Saves the script to a file with this name, and never overwrites one.
    fn save(&mut self, name: &str, session: &Session) -> Result<(), SaveFault>;
}

/// Returns what `save` means after a try: itself if the script was saved, else a line at fault.
#[tactic(auto, unfolding(crate::specs::Answered::request_saved))]
pub(crate) fn request_saved(name: FileName, saved: Result<(), SaveFault>) -> Request
    ensures { result ≡ request_saved name saved }
{
    match saved {
        Ok(()) => Ok(Some(Command::Save(name))),
        Err(why) => Err(CommandFault::NotSaved(why)),
    }
}
