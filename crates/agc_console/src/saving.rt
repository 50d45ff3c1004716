//! The files that `save` writes.
use agc_repl::{SaveFault, Saver};
use agc_session::Session;
use std::fs::{self, OpenFile, OpenOptions};
use std::io::{self, ErrorKind, Write};
use std::rt::Files;

/// Saves scripts to files.
#[derive(Drop)]
pub struct FileSaver<'a, R> {
    pub rt: &'a R,
}

impl<'a, R: Files + AllocGlobal> Saver for FileSaver<'a, R> {
    fn save(&mut self, name: &str, session: &Session) -> Result<(), SaveFault> {
        let file = match open_new(self.rt, name) {
            Ok(file) => file,
            Err(error) => return Err(fault_of(&error)),
        };
        if write(self.rt, file, session).is_err() {
            // A file that cannot be removed stays.
            let _removed = fs::remove_file(self.rt, name);
            return Err(SaveFault::CannotWrite);
        }
        Ok(())
    }
}

/// Creates a file that does not exist yet.
fn open_new<R: Files>(rt: &R, path: &str) -> io::Result<R::File> {
    let mut how = OpenOptions::new();
    how.write(true).create_new(true);
    how.open(rt, path)
}

/// Returns why a file was not created.
fn fault_of(error: &io::Error) -> SaveFault {
    match error.kind() {
        ErrorKind::AlreadyExists => SaveFault::Exists,
        _ => SaveFault::CannotWrite,
    }
}

/// Writes the script of a session to a file.
fn write<R: Files + AllocGlobal>(rt: &R, mut file: R::File, session: &Session) -> io::Result<()> {
    let mut line = String::new(rt.alloc());
    session.write_script(&mut line, &mut file)?;
    file.flush()
}
