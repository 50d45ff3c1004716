//! Writes the files that options name: a rope's symbols and its listing, and a timeline. Each is first written to a new
//! file beside it, which then takes its name.
use agc_cli::ArgsFault;
use agc_include::{Expanded, name_of_path, path_beside};
use agc_study_args::{WeaveArgs, remark_on_file};
use std::alloc::{AllocError, Global};
use std::fs::{self, File, OpenFile};
use std::io::{self, ErrorKind, Write};
use std::rt::Files;

/// How many names a new file tries.
const TRIES: u32 = 100;

/// A file that `weave` writes beside the rope.
#[derive(Clone, Copy)]
enum NewFile {
    /// `--write-names`.
    Names,
    /// `--write-listing`.
    Listing,
}

impl NewFile {
    /// Returns the option as command-line errors name it.
    fn option(self) -> &'static str {
        match self {
            NewFile::Names => "--write-names <FILE>",
            NewFile::Listing => "--write-listing <FILE>",
        }
    }

    /// Returns the path of the file, if it is wanted.
    fn path(self, args: &WeaveArgs) -> Option<&str> {
        let path = match self {
            NewFile::Names => &args.write_names,
            NewFile::Listing => &args.write_listing,
        };
        match path {
            Some(path) => Some(path.as_str()),
            None => None,
        }
    }
}

/// Checks the paths of `--write-names` and `--write-listing`, before anything is read or written. An existing file is a
/// command-line error unless `--force` is passed; the source itself, and a path that is not a regular file, always are.
pub fn check_new_paths<R>(rt: &R, args: &WeaveArgs) -> Result<(), ArgsFault>
where
    R: Files + AllocGlobal,
{
    check_new_path(rt, args, NewFile::Names)?;
    check_new_path(rt, args, NewFile::Listing)?;
    match (NewFile::Names.path(args), NewFile::Listing.path(args)) {
        (Some(names), Some(listing)) if is_same_path(rt, names, listing) => Err(refused(
            rt.alloc(),
            NewFile::Listing.option(),
            listing,
            "this is the file of --write-names",
        )),
        _ => Ok(()),
    }
}

/// Returns whether two paths lead to one file, which may be there or not.
fn is_same_path<R>(rt: &R, one: &str, other: &str) -> bool
where
    R: Files + AllocGlobal,
{
    if name_of_path(one) != name_of_path(other) {
        return false;
    }
    let alloc = rt.alloc();
    let (Ok(one), Ok(other)) = (path_beside(alloc, one, "."), path_beside(alloc, other, ".")) else {
        return true;
    };
    is_same_file(rt, one.as_str(), other.as_str())
}

/// Checks that there is nothing at a path that an option names.
pub fn check_new_file<R>(rt: &R, option: &str, path: &str) -> Result<(), ArgsFault>
where
    R: Files + AllocGlobal,
{
    match rt.symlink_metadata(path) {
        Ok(_found) => Err(refused(rt.alloc(), option, path, "the file exists")),
        Err(_) => Ok(()),
    }
}

fn check_new_path<R>(rt: &R, args: &WeaveArgs, file: NewFile) -> Result<(), ArgsFault>
where
    R: Files + AllocGlobal,
{
    let Some(path) = file.path(args) else {
        return Ok(());
    };
    let Ok(found) = rt.symlink_metadata(path) else {
        return Ok(());
    };
    let why = if !found.is_file() {
        "it is there, and not a regular file"
    } else if is_same_file(rt, path, args.text.as_str()) {
        "this is the source"
    } else if !args.force {
        "the file exists; --force replaces it"
    } else {
        return Ok(());
    };
    Err(refused(rt.alloc(), file.option(), path, why))
}

/// Checks that the paths of `--write-names` and `--write-listing` lead to none of the files of a source with includes.
pub fn check_paths_beside<R>(rt: &R, args: &WeaveArgs, source: &Expanded) -> Result<(), ArgsFault>
where
    R: Files + AllocGlobal,
{
    check_path_beside(rt, args, source, NewFile::Names)?;
    check_path_beside(rt, args, source, NewFile::Listing)
}

fn check_path_beside<R>(
    rt: &R,
    args: &WeaveArgs,
    source: &Expanded,
    file: NewFile,
) -> Result<(), ArgsFault>
where
    R: Files + AllocGlobal,
{
    let Some(path) = file.path(args) else {
        return Ok(());
    };
    if rt.symlink_metadata(path).is_err() {
        return Ok(());
    }
    for name in source.files() {
        let Ok(other) = path_beside(rt.alloc(), args.text.as_str(), name.as_str()) else {
            return Err(ArgsFault::Memory);
        };
        if is_same_file(rt, path, other.as_str()) {
            return Err(refused(
                rt.alloc(),
                file.option(),
                path,
                "this is a file of the source",
            ));
        }
    }
    Ok(())
}

/// Returns whether two paths lead to one file. If that cannot be found out, they may.
fn is_same_file<R>(rt: &R, path: &str, source: &str) -> bool
where
    R: Files + AllocGlobal,
{
    let Ok(path) = rt.canonicalize(rt.alloc(), path) else {
        return true;
    };
    match rt.canonicalize(rt.alloc(), source) {
        Ok(source) => path == source,
        Err(error) => error.kind() != ErrorKind::NotFound,
    }
}

/// Returns the error for a rejected value of an option.
pub(crate) fn refused(alloc: Global, option: &str, value: &str, why: &str) -> ArgsFault {
    match refused_text(alloc, option, value, why) {
        Ok(text) => ArgsFault::Command(text),
        Err(AllocError) => ArgsFault::Memory,
    }
}

fn refused_text(alloc: Global, option: &str, value: &str, why: &str) -> Result<String, AllocError> {
    format!(in alloc;
        "error: invalid value '{value}' for '{option}': {why}\n\nFor more information, try '--help'.\n"
    )
}

/// Writes a file. If that fails, a remark reports why.
pub fn is_written<R, N: Write>(rt: &R, path: &str, bytes: &[u8], remarks: &mut N) -> bool
where
    R: Files + AllocGlobal,
{
    match write_new_file(rt, path, bytes) {
        Ok(()) => true,
        Err(reason) => {
            remark_on_file(rt.alloc(), path, &reason, remarks);
            false
        }
    }
}

/// Writes bytes to the file at a path. If that fails, the file is as it was.
fn write_new_file<R>(rt: &R, path: &str, bytes: &[u8]) -> io::Result<()>
where
    R: Files + AllocGlobal,
{
    let beside = write_beside(rt, path, bytes)?;
    let renamed = fs::rename(rt, beside.as_str(), path);
    if renamed.is_err() {
        let _removed = fs::remove_file(rt, beside.as_str());
    }
    renamed
}

/// Writes bytes to a new file beside a path, and returns its path. If that fails, the new file is removed.
fn write_beside<R>(rt: &R, path: &str, bytes: &[u8]) -> io::Result<String>
where
    R: Files + AllocGlobal,
{
    for number in 0..TRIES {
        let beside = format!(in rt.alloc(); "{path}.{number}.new")?;
        match File::create_new(rt, beside.as_str()) {
            Ok(mut file) => {
                let written = write_whole(&mut file, bytes);
                drop(file);
                if written.is_err() {
                    let _removed = fs::remove_file(rt, beside.as_str());
                }
                written?;
                return Ok(beside);
            }
            Err(error) if error.kind() == ErrorKind::AlreadyExists => {}
            Err(error) => return Err(error),
        }
    }
    Err(io::Error::from(ErrorKind::AlreadyExists))
}

fn write_whole<F: Write + OpenFile>(file: &mut F, bytes: &[u8]) -> io::Result<()> {
    file.write_all(bytes)?;
    file.sync_all()
}
