//! The file that the script of a session is saved to.
use crate::error::Error;
use agc_tui::Operator;
use std::alloc::Global;
use std::fs::{self, Metadata, OpenFile, OpenOptions};
use std::io::{self, ErrorKind, Write};
use std::os::unix::fs::MetadataExt;
use std::rt::Files;

/// Which content a file has: its place on the disk, its length, and when it was last written.
#[derive(Clone, Copy, Debug, PartialEq, Eq)]
struct Stamp {
    device: u64,
    inode: u64,
    len: u64,
    seconds: i64,
    nanoseconds: i64,
}

impl Stamp {
    fn of(about: &Metadata) -> Stamp {
        Stamp {
            device: about.dev(),
            inode: about.ino(),
            len: about.len(),
            seconds: about.mtime(),
            nanoseconds: about.mtime_nsec(),
        }
    }
}

/// The file that the script is saved to. A save writes a temporary file beside it and renames it, so a save that fails
/// leaves the last one as it was.
#[derive(Drop)]
pub struct SaveFile {
    /// The path, with links resolved.
    path: String,
    /// The path of the temporary file.
    temporary: String,
    /// The content that this session found or wrote last.
    known: Stamp,
    /// Whether any other content is overwritten.
    force: bool,
}

impl SaveFile {
    /// Reserves the file before the session starts: creates it, or checks that it is an empty file, or any file with
    /// `force`. The temporary file has `number` in its name, which differs between sessions.
    pub fn reserve<R: Files + AllocGlobal>(
        rt: &R,
        path: &str,
        force: bool,
        number: u32,
    ) -> Result<SaveFile, Error> {
        let known = match create(rt, path) {
            Ok(known) => known,
            Err(error) => match error.kind() {
                ErrorKind::AlreadyExists => existing(rt, path, force)?,
                ErrorKind::IsADirectory => return Err(Error::SaveIsFolder),
                _ => return Err(Error::SaveNotMade),
            },
        };
        let file = SaveFile {
            path: resolved(rt, path)?,
            temporary: beside(rt, path, number)?,
            known,
            force,
        };
        match file.try_temporary(rt) {
            Ok(()) => Ok(file),
            Err(_) => Err(Error::SaveNotMade),
        }
    }

    /// Checks that a temporary file can be created, and removes it.
    fn try_temporary<R: Files>(&self, rt: &R) -> io::Result<()> {
        create(rt, self.temporary.as_str())?;
        fs::remove_file(rt, self.temporary.as_str())
    }

    /// Saves the script of the operator's session. Uses `line` for one line at a time. Unless forced, fails if the file
    /// has another content than this session found or wrote last. After a failure the file is as it was.
    pub fn save<R: Files>(
        &mut self,
        rt: &R,
        operator: &Operator,
        line: &mut String,
    ) -> Result<(), Error> {
        let Ok(file) = open_new(rt, self.temporary.as_str()) else {
            return Err(Error::SaveFailed);
        };
        let replaced = match self.write(rt, file, operator, line) {
            Ok(known) => self.rename(rt, known),
            Err(_) => Err(Error::SaveFailed),
        };
        if replaced.is_err() {
            // A temporary file that cannot be removed stays.
            let _removed = fs::remove_file(rt, self.temporary.as_str());
        }
        replaced
    }

    /// Renames the temporary file, which has this stamp, to the file. The file's content is checked just before that, so
    /// that another session has almost no time to save in between.
    fn rename<R: Files>(&mut self, rt: &R, known: Stamp) -> Result<(), Error> {
        if !self.force && self.has_changed(rt) {
            return Err(Error::SaveChanged);
        }
        match fs::rename(rt, self.temporary.as_str(), self.path.as_str()) {
            Ok(()) => {
                self.known = known;
                Ok(())
            }
            Err(_) => Err(Error::SaveFailed),
        }
    }

    /// Returns whether there is a file with another content than this session found or wrote last.
    fn has_changed<R: Files>(&self, rt: &R) -> bool {
        match fs::metadata(rt, self.path.as_str()) {
            Ok(about) => Stamp::of(&about) != self.known,
            Err(error) => error.kind() != ErrorKind::NotFound,
        }
    }

    /// Writes the script to the temporary file, with the permissions of the file, and returns its stamp.
    fn write<R: Files>(
        &self,
        rt: &R,
        mut file: R::File,
        operator: &Operator,
        line: &mut String,
    ) -> io::Result<Stamp> {
        if let Ok(about) = fs::metadata(rt, self.path.as_str()) {
            // If the system does not allow that, the new file has others.
            let _kept = file.set_permissions(about.permissions());
        }
        operator.write_script(line, &mut file)?;
        file.flush()?;
        file.sync_all()?;
        Ok(Stamp::of(&file.metadata()?))
    }
}

/// Creates a file that does not exist yet, and returns its stamp.
fn create<R: Files>(rt: &R, path: &str) -> io::Result<Stamp> {
    let file = open_new(rt, path)?;
    Ok(Stamp::of(&file.metadata()?))
}

fn open_new<R: Files>(rt: &R, path: &str) -> io::Result<R::File> {
    let mut how = OpenOptions::new();
    how.write(true).create_new(true);
    how.open(rt, path)
}

/// Returns the stamp of an existing file that may be overwritten: an empty one, for example because a program was
/// killed after it reserved the file, or any with `force`.
fn existing<R: Files>(rt: &R, path: &str, force: bool) -> Result<Stamp, Error> {
    let Ok(about) = fs::metadata(rt, path) else {
        return Err(Error::SaveIsDangling);
    };
    if about.is_dir() {
        return Err(Error::SaveIsFolder);
    }
    if !about.is_file() {
        return Err(Error::SaveIsNoFile);
    }
    if 0 < about.len() && !force {
        return Err(Error::SaveTaken);
    }
    Ok(Stamp::of(&about))
}

/// Returns a path with its links resolved, so that a rename replaces the file and not a link to it.
fn resolved<R: Files + AllocGlobal>(rt: &R, path: &str) -> Result<String, Error> {
    match fs::canonicalize(rt, path) {
        Ok(whole) => Ok(String::from_str(rt.alloc(), whole.as_path().to_string_lossy())?),
        Err(_) => Err(Error::SaveNotMade),
    }
}

/// Returns the path of the temporary file of a session beside this file.
fn beside<R: Files + AllocGlobal>(rt: &R, path: &str, number: u32) -> Result<String, Error> {
    let whole = resolved(rt, path)?;
    Ok(format!(in rt.alloc(); "{whole}.{number}.tmp")?)
}
