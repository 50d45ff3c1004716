//! The folder of a main file, from which files are included.
use crate::expansion::Folder;
use crate::fault::{IncludeFault, ReadFault};
use agc_io::{ReadError, ReadFault as InputFault, TEXT_BYTES, read_limited};
use std::alloc::{AllocError, Global};
use std::fs;
use std::path::Path;
use std::rt::Files;

/// The folder of a main file on the disk.
#[derive(Drop)]
pub struct DiskFolder<'a, R> {
    rt: &'a R,
    path: String,
}

impl<'a, R: Files + AllocGlobal> DiskFolder<'a, R> {
    /// Returns the folder of the file at a path.
    pub fn of_file(rt: &'a R, path: &str) -> Result<DiskFolder<'a, R>, AllocError> {
        Ok(DiskFolder {
            rt,
            path: String::from_str(rt.alloc(), folder_of_path(path))?,
        })
    }
}

/// Returns the folder of the file at a path.
fn folder_of_path(path: &str) -> &str {
    let folder = match Path::new(path).parent() {
        Some(folder) => folder.to_string_lossy(),
        None => "",
    };
    if folder.is_empty() { "." } else { folder }
}

/// Returns the path of a file in the folder of the file at a path.
pub fn path_beside(alloc: Global, path: &str, name: &str) -> Result<String, AllocError> {
    let folder = folder_of_path(path);
    format!(in alloc; "{folder}/{name}")
}

/// Returns the name of the file at a path, without its folder.
pub fn name_of_path(path: &str) -> &str {
    Path::new(path).file_name().unwrap_or(path)
}

impl<R: Files + AllocGlobal> Folder for DiskFolder<'_, R> {
    fn read(&mut self, alloc: Global, name: &str) -> Result<Vec<u8>, ReadFault> {
        let path = format!(in alloc; "{}/{name}", self.path)?;
        let (Ok(file), Ok(folder)) = (
            self.rt.canonicalize(alloc, path.as_str()),
            self.rt.canonicalize(alloc, self.path.as_str()),
        ) else {
            return Err(ReadFault::Include(IncludeFault::Missing));
        };
        let target = file.as_path();
        match target.parent() {
            Some(parent) if parent == folder.as_path() => {}
            _ => return Err(ReadFault::Include(IncludeFault::Outside)),
        }
        read_file(self.rt, alloc, target.to_string_lossy())
    }
}

/// Reads a regular file.
fn read_file<R: Files>(rt: &R, alloc: Global, path: &str) -> Result<Vec<u8>, ReadFault> {
    match rt.symlink_metadata(path) {
        Ok(found) if found.is_file() => {}
        _ => return Err(ReadFault::Include(IncludeFault::Unreadable)),
    }
    let Ok(mut file) = fs::open(rt, path) else {
        return Err(ReadFault::Include(IncludeFault::Unreadable));
    };
    match read_limited(alloc, &mut file, TEXT_BYTES) {
        Ok(text) => Ok(text),
        Err(ReadError::Memory) => Err(ReadFault::Memory),
        Err(ReadError::CannotRead(InputFault::TooMany)) => {
            Err(ReadFault::Include(IncludeFault::TooLong))
        }
        Err(ReadError::CannotRead(InputFault::Failed)) => {
            Err(ReadFault::Include(IncludeFault::Unreadable))
        }
    }
}
