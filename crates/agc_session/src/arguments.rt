//! The command-line arguments of a session: its files, its limit and the rope's form.
ghost use Rattle.std.specs.Prelude.{◌≡◌, IfOk, IfSome, None};
ghost use Rattle.clap.specs.Words.{found_of, rows_of};
ghost use Rattle.agc_store.specs.RopeFile.{rope_words};
ghost use Rattle.agc_script.specs.Parse.{script_of};
ghost use Rattle.agc_load.specs.Files.{events_in};
ghost use Rattle.agc_machine.specs.State.{start_state};
ghost use Rattle.agc_session.specs.Arguments.{AreArguments};

use crate::fault::BeginFault;
use crate::session::Session;
use agc_cli::{form_of, form_option, number_of, path_of, rope_file, text_of, with_parameter};
use agc_io::InputFile;
use agc_load::{LoadFault, read_rope, read_script};
use agc_store::RopeForm;
use clap::{Arg, ArgMatches, Command};
use std::alloc::{AllocError, Global};
use std::fs;
use std::io::{self, Read};
use std::rt::Files;

/// The arguments that start a session.
#[derive(Debug, Drop)]
pub struct SessionArgs {
    /// The path of the rope file.
    pub rope: String,
    /// The path of the script file, if there is one.
    pub script: Option<String>,
    /// The cycle at which the machine stops.
    pub limit: u64,
    /// How the rope file is laid out.
    pub form: RopeForm,
}

/// Adds a session's arguments to a command: the rope, `script` for the script, the limit and the rope's form.
pub fn with_session_args<'a>(
    alloc: Global,
    command: Command<'a>,
    script: Arg<'a>,
) -> Result<Command<'a>, AllocError> {
    let command = with_parameter(command, rope_file(alloc))?;
    let command = with_parameter(command, script)?;
    let command = with_parameter(command, limit_option(alloc))?;
    with_parameter(command, form_option(alloc))
}

/// Returns the `--limit` option of a session. Its default is the last possible cycle.
fn limit_option<'a>(alloc: Global) -> Arg<'a> {
    agc_cli::limit_option(alloc)
        .required(false)
        .default_value("1000000000000")
}

/// Returns the session's arguments among the parsed ones.
pub fn session_args(alloc: Global, matches: &ArgMatches<'_>) -> Result<SessionArgs, AllocError>
    ensures { IfOk result (AreArguments (rows_of (found_of matches.now))) }
{
    Ok(SessionArgs {
        rope: path_of(alloc, matches, "rope")?,
        script: text_of(alloc, matches, "script")?,
        limit: number_of(matches, "limit", 0),
        form: form_of(matches),
    })
}

/// Opens a session at the start of time. Checks the rope first, then the script, then the limit.
pub fn open_session<R: Files + AllocGlobal>(
    rt: &R,
    start: &SessionArgs,
) -> Result<Session, LoadFault>
    ensures limit { IfOk result (λ session. session.now.limit ≡ start.now.limit) }
{
    let mut rope = InputFile::new(fs::open(rt, start.rope.as_str()));
    match &start.script {
        Some(path) => {
            let mut script = InputFile::new(fs::open(rt, path.as_str()));
            session_from(rt.alloc(), start, &mut rope, &mut script)
        }
        None => session_from(rt.alloc(), start, &mut rope, &mut io::empty()),
    }
}

/// Reads a rope and a script, and makes the session that [`open_session`] opens: its machine stops at the limit of the
/// arguments, and has the words that their form finds in the rope file.
#[tactic(auto, unfolding(agc_machine::specs::State::start_state))]
pub fn session_from<F: Read, S: Read>(
    alloc: Global,
    start: &SessionArgs,
    rope: &mut F,
    script: &mut S,
) -> Result<Session, LoadFault>
    ensures limit { IfOk result (λ session. session.now.limit ≡ start.now.limit) }
    ensures now { IfOk result (λ session. IfSome (F.remaining rope.old) (λ rope_file.
        IfSome (S.remaining script.old) (λ script_file. session.now
        ≡ start_state (rope_words start.now.form rope_file) (events_in (script_of script_file)) start.now.limit None))) }
    ensures base { IfOk result (λ session.
        IfSome (S.remaining script.old) (λ script_file. session.base ≡ events_in (script_of script_file))) }
{
    let rope = read_rope(alloc, start.form, rope)?;
    let script = read_script(alloc, script)?;
    match Session::new(alloc, rope, script, start.limit) {
        Ok(session) => Ok(session),
        Err(BeginFault::Limit(limit)) => Err(LoadFault::Limit(limit)),
        Err(BeginFault::Memory) => Err(LoadFault::Memory),
    }
}
