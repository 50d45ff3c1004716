//! Tests `save`. The answers were worked out by hand from the programs and the cycles of their orders.
use super::console::{answers, answers_with, asks, refuses};
use super::{equal, session_of};
use agc_repl::{Command, CommandFault, CommandName, FileName, SaveFault, Saver};
use agc_session::Session;
use agc_test_support::{EDRUPT, RELAY_WORD};
use std::process::Abort;

/// Keeps the first script that is saved, with its name, and refuses any other.
#[derive(Drop)]
struct Kept {
    name: String,
    text: Vec<u8>,
    line: String,
}

impl Saver for Kept {
    fn save(&mut self, name: &str, session: &Session) -> Result<(), SaveFault> {
        if !self.name.is_empty() {
            return Err(SaveFault::Exists);
        }
        if self.name.push_str(name).is_err() {
            return Err(SaveFault::CannotWrite);
        }
        match session.write_script(&mut self.line, &mut self.text) {
            Ok(()) => Ok(()),
            Err(_) => Err(SaveFault::CannotWrite),
        }
    }
}

#[test]
fn the_script_so_far_is_saved_once(rt: HostRuntime) {
    let parsed = b"go to 3\nkey VERB\nsave my.script\nback 0\nsave other\nscript\n";
    let wanted = "at 3
at 3
at 3
at 0
error: NotSaved: there is a file with this name; save writes only new ones
at 0
";
    let mut kept = Kept {
        name: String::new(rt.alloc()),
        text: Vec::new(rt.alloc()),
        line: String::new(rt.alloc()),
    };
    let session = session_of(&rt, RELAY_WORD, "", 1000);
    answers_with(&rt, session, &None, &mut kept, parsed, wanted);
    equal(&rt, kept.name.as_str(), "my.script");
    equal(&rt, kept.text.as_slice(), b"3 key VERB\n".as_slice());
}

#[test]
fn a_stopped_session_is_saved_too(rt: HostRuntime) {
    let parsed = b"quiet\ngo 9\nsave it\n";
    let wanted = "at 0
stop Edrupt at 4
stop Edrupt at 4
";
    let mut kept = Kept {
        name: String::new(rt.alloc()),
        text: Vec::new(rt.alloc()),
        line: String::new(rt.alloc()),
    };
    let session = session_of(&rt, EDRUPT, "", 1000);
    answers_with(&rt, session, &None, &mut kept, parsed, wanted);
    equal(&rt, kept.text.as_slice(), b"".as_slice());
}

#[test]
fn a_script_that_is_not_saved_changes_nothing(rt: HostRuntime) {
    let parsed = b"go to 3\nkey VERB\nsave my.script\nsave\nsave my script\nscript\n";
    let wanted = "at 3
at 3
error: NotSaved: the file could not be written
error: Usage: save FILE
error: Usage: save FILE
3 key VERB
at 3
";
    answers(&rt, session_of(&rt, RELAY_WORD, "", 1000), parsed, wanted);
}

/// Checks that a line saves to the file with this name.
fn saves_to(rt: &impl Abort, line: &[u8], name: &str) {
    asks(rt, line, Command::Save(FileName::new(name.as_bytes())));
    equal(rt, FileName::new(name.as_bytes()).text(), name);
}

#[test]
fn a_name_is_one_word(rt: HostRuntime) {
    saves_to(&rt, b"save my.script", "my.script");
    saves_to(&rt, b" save\t../a/b=c ", "../a/b=c");
    saves_to(&rt, b"save #", "#");
    refuses(&rt, b"save a b", CommandFault::Usage(CommandName::Save));
}
