//! Reads the files that notes come from.
use crate::fault::NotesFault;
use crate::nouns::{Nouns, read_nouns};
use crate::values::Values;
use agc_io::{InputFile, ReadError, read_limited};
use agc_quantities::{FILE_BYTES, push_fault, read_quantities};
use agc_sources::{SourceLines, read_source_lines};
use agc_store::RopeForm;
use agc_symbols::{ChannelTable, SymbolTable};
use std::alloc::{AllocError, Global};
use std::fs;
use std::io::Write;
use std::rt::Files;

/// The most bytes of a file of verbs and nouns.
const NOUN_BYTES: usize = 65_536;

/// The paths of the files that notes come from, each if it is given.
#[derive(Debug, Drop)]
pub struct NoteFiles {
    /// The listing of the rope, as `weave --write-listing` writes it.
    pub listing: Option<String>,
    /// The file of quantities.
    pub quantities: Option<String>,
    /// The file of verbs and nouns.
    pub nouns: Option<String>,
}

impl NoteFiles {
    /// Returns whether there are none.
    pub fn is_empty(&self) -> bool {
        self.listing.is_none() && self.quantities.is_none() && self.nouns.is_none()
    }
}

/// What is known of a program: the names of its channels, the lines of its source, its quantities, its verbs and nouns.
#[derive(Drop)]
pub struct Notes {
    pub(crate) channels: ChannelTable,
    pub(crate) sources: Option<SourceLines>,
    pub(crate) values: Option<Values>,
    pub(crate) nouns: Option<Nouns>,
}

/// The rope that runs.
#[derive(Clone, Copy)]
pub struct RopeFile<'a> {
    pub path: &'a str,
    pub form: RopeForm,
}

/// Reads the files of notes, and refuses a listing of another rope. If one is at fault, writes why to `err`, behind the
/// name of the program, and returns `Err`.
pub fn read_notes<R, E: Write>(
    rt: &R,
    files: &NoteFiles,
    rope: RopeFile<'_>,
    names: &Option<SymbolTable>,
    channels: ChannelTable,
    err: &mut E,
) -> Result<Notes, ()>
where
    R: Files + AllocGlobal,
{
    let sources = match sources_of(rt, &files.listing, rope) {
        Ok(sources) => sources,
        Err(fault) => return Err(report(fault, err)),
    };
    let nouns = match nouns_of(rt, &files.nouns) {
        Ok(nouns) => nouns,
        Err(fault) => return Err(report(fault, err)),
    };
    let values = values_of(rt, &files.quantities, names, err)?;
    Ok(Notes {
        channels,
        sources,
        values,
        nouns,
    })
}

fn report<E: Write>(fault: NotesFault, err: &mut E) {
    let _written = writeln!(err, "agc-console: {fault}");
}

/// Reads the listing, if there is one.
fn sources_of<R>(
    rt: &R,
    path: &Option<String>,
    rope: RopeFile<'_>,
) -> Result<Option<SourceLines>, NotesFault>
where
    R: Files + AllocGlobal,
{
    let Some(path) = path else {
        return Ok(None);
    };
    let mut listing = InputFile::new(fs::open(rt, path.as_str()));
    let mut file = InputFile::new(fs::open(rt, rope.path));
    match read_source_lines(rt.alloc(), &mut listing, rope.form, &mut file) {
        Ok(lines) => Ok(Some(lines)),
        Err(fault) => Err(NotesFault::Listing(fault)),
    }
}

/// Reads the file of verbs and nouns, if there is one.
fn nouns_of<R>(rt: &R, path: &Option<String>) -> Result<Option<Nouns>, NotesFault>
where
    R: Files + AllocGlobal,
{
    let Some(path) = path else {
        return Ok(None);
    };
    let mut file = InputFile::new(fs::open(rt, path.as_str()));
    match read_limited(rt.alloc(), &mut file, NOUN_BYTES) {
        Ok(text) => Ok(Some(read_nouns(rt.alloc(), text.as_slice())?)),
        Err(ReadError::CannotRead(_)) => Err(NotesFault::CannotReadNouns),
        Err(ReadError::Memory) => Err(NotesFault::Memory),
    }
}

/// Reads the file of quantities, if there is one. If it is at fault, writes why to `err`.
fn values_of<R, E: Write>(
    rt: &R,
    path: &Option<String>,
    names: &Option<SymbolTable>,
    err: &mut E,
) -> Result<Option<Values>, ()>
where
    R: Files + AllocGlobal,
{
    let Some(path) = path else {
        return Ok(None);
    };
    let mut file = InputFile::new(fs::open(rt, path.as_str()));
    match read_limited(rt.alloc(), &mut file, FILE_BYTES) {
        Ok(text) => values_in(rt.alloc(), text.as_slice(), names, err),
        Err(ReadError::CannotRead(_)) => Err(report(NotesFault::CannotReadQuantities, err)),
        Err(ReadError::Memory) => Err(report(NotesFault::Memory, err)),
    }
}

/// Reads the quantities of a file.
fn values_in<E: Write>(
    alloc: Global,
    file: &[u8],
    names: &Option<SymbolTable>,
    err: &mut E,
) -> Result<Option<Values>, ()> {
    match read_quantities(alloc, file, names) {
        Ok(quantities) => match Values::new(alloc, quantities, file) {
            Ok(values) => Ok(Some(values)),
            Err(AllocError) => Err(report(NotesFault::Memory, err)),
        },
        Err(fault) => {
            let mut text = String::new(alloc);
            match push_fault(alloc, &mut text, file, names, fault) {
                Ok(()) => {
                    let _written = writeln!(err, "agc-console: {text}");
                }
                Err(_) => report(NotesFault::Memory, err),
            }
            Err(())
        }
    }
}
