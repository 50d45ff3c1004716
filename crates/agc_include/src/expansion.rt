//! Expands the includes of a source to one text, and keeps the file and line of each of its lines.
use crate::fault::{
    ExpandError, FaultyInclude, FaultyIncludes, IncludeFault, MOST_FAULTS, ReadFault,
};
use agc_io::TEXT_BYTES;
use agc_word::next_line;
use std::alloc::{AllocError, Global};

/// The most files that a source includes, and that are looked for.
const MOST_FILES: usize = 1000;

/// The most bytes of a source with the files that it includes.
const MOST_BYTES: usize = 67_108_864;

/// The files that a source can include.
pub trait Folder {
    /// Reads the file with a name.
    fn read(&mut self, alloc: Global, name: &str) -> Result<Vec<u8>, ReadFault>;
}

/// A line of a file.
#[derive(Clone, Copy)]
struct Origin {
    /// The index of the file.
    file: usize,
    /// The number of the line, counted from 1.
    line: usize,
}

/// A source whose includes are expanded.
#[derive(Drop)]
pub struct Expanded {
    /// All lines but those of includes, each with a line feed.
    text: Vec<u8>,
    /// The names of the files; the main file is the first.
    files: Vec<String>,
    /// For each line of the text, where it is from.
    origins: Vec<Origin>,
}

impl Expanded {
    /// Returns the text: all lines but those of includes.
    pub fn text(&self) -> &[u8] {
        self.text.as_slice()
    }

    /// Returns the names of the files; the main file is the first.
    pub fn files(&self) -> &[String] {
        self.files.as_slice()
    }

    /// Returns the file and the number of the line from which a line of the text is, both counted from 1.
    pub fn origin(&self, number: usize) -> Option<(&str, usize)> {
        let origin = self.origins.get(number.checked_sub(1)?).copied()?;
        Some((self.files.get(origin.file)?.as_str(), origin.line))
    }

    fn push_line(&mut self, origin: Origin, line: &[u8]) -> Result<(), AllocError> {
        self.text.extend_from_slice(line)?;
        self.text.push(b'\n')?;
        self.origins.push(origin)?;
        Ok(())
    }
}

/// A file that is being read.
#[derive(Drop)]
struct OpenFile {
    /// The index of its name.
    file: usize,
    text: Vec<u8>,
    /// The number of bytes of the lines so far.
    read: usize,
    /// The number of lines so far.
    line: usize,
}

/// What the next line of a source is.
#[derive(Drop)]
enum Step {
    /// A line of the text, or the end of an included file.
    Taken,
    /// An include: the name, and where it is.
    Include(String, Origin),
    /// An include without a good name.
    BadName(Origin),
    /// The end of the main file.
    End,
}

/// Returns whether a source has a line that includes a file.
pub fn has_include(text: &[u8]) -> bool {
    for line in text.split(|b| *b == b'\n') {
        if is_include(line) {
            return true;
        }
    }
    false
}

fn is_include(line: &[u8]) -> bool {
    matches!(line, [b'$', ..])
}

/// A source that is being expanded.
#[derive(Drop)]
struct Expansion {
    expanded: Expanded,
    /// The files that are being read; each includes the next one.
    open: Vec<OpenFile>,
    /// The number of files that were looked for.
    sought: usize,
    /// The number of bytes of all files so far.
    bytes: usize,
    faults: FaultyIncludes,
}

impl Expansion {
    /// Begins with the main file.
    fn new(alloc: Global, main: &str, text: Vec<u8>) -> Result<Expansion, AllocError> {
        let mut expansion = Expansion {
            expanded: Expanded {
                text: Vec::new(alloc),
                files: Vec::new(alloc),
                origins: Vec::new(alloc),
            },
            open: Vec::new(alloc),
            sought: 0,
            bytes: text.len(),
            faults: FaultyIncludes {
                first: Vec::new(alloc),
                count: 0,
            },
        };
        expansion.push_file(alloc, main, text)?;
        Ok(expansion)
    }

    /// Begins to read a file.
    fn push_file(&mut self, alloc: Global, name: &str, text: Vec<u8>) -> Result<(), AllocError> {
        let file = self.expanded.files.len();
        self.expanded.files.push(String::from_str(alloc, name)?)?;
        self.open.push(OpenFile {
            file,
            text,
            read: 0,
            line: 0,
        })?;
        Ok(())
    }

    /// Looks for the file that an include names, and begins to read it.
    fn include<F: Folder>(
        &mut self,
        alloc: Global,
        folder: &mut F,
        name: &str,
    ) -> Result<(), ReadFault> {
        if self.sought >= MOST_FILES {
            return Err(ReadFault::Include(IncludeFault::TooManyFiles));
        }
        if self.is_open(name) {
            return Err(ReadFault::Include(IncludeFault::Circle));
        }
        self.sought = self.sought.saturating_add(1);
        match folder.read(alloc, name) {
            Ok(text) => {
                self.count_bytes(text.len())?;
                self.push_file(alloc, name, text)?;
                Ok(())
            }
            Err(ReadFault::Include(IncludeFault::TooLong)) => {
                self.count_bytes(TEXT_BYTES)?;
                Err(ReadFault::Include(IncludeFault::TooLong))
            }
            Err(fault) => Err(fault),
        }
    }

    /// Returns whether a file with this name is being read.
    fn is_open(&self, name: &str) -> bool {
        for file in self.open.iter() {
            match self.expanded.files.get(file.file) {
                Some(known) if known.as_str() == name => return true,
                _ => {}
            }
        }
        false
    }

    /// Counts bytes of a file. Fails if there are too many in all.
    fn count_bytes(&mut self, count: usize) -> Result<(), ReadFault> {
        self.bytes = self.bytes.saturating_add(count);
        if self.bytes > MOST_BYTES {
            Err(ReadFault::Include(IncludeFault::TooManyBytes))
        } else {
            Ok(())
        }
    }

    /// Notes the fault of a line. Keeps the first hundred, and counts the others.
    fn note(
        &mut self,
        alloc: Global,
        origin: Origin,
        fault: IncludeFault,
    ) -> Result<(), AllocError> {
        self.faults.count = self.faults.count.saturating_add(1);
        if self.faults.count > MOST_FAULTS {
            return Ok(());
        }
        let faulty = FaultyInclude {
            file: self.name_of(alloc, origin)?,
            line: origin.line,
            fault,
        };
        self.faults.first.push(faulty)?;
        Ok(())
    }

    /// Returns the name of the file of a line.
    fn name_of(&self, alloc: Global, origin: Origin) -> Result<String, AllocError> {
        match self.expanded.files.get(origin.file) {
            Some(name) => String::from_str(alloc, name.as_str()),
            None => Ok(String::new(alloc)),
        }
    }

    /// Returns the expanded source, or its faults.
    fn finish(self) -> Result<Expanded, ExpandError> {
        let Expansion {
            expanded,
            faults,
            ..
        } = self;
        if faults.count == 0 {
            Ok(expanded)
        } else {
            Err(ExpandError::Includes(faults))
        }
    }
}

/// Expands the includes of a source. A faulty include is left out, so that those behind it are found too. Too many files or
/// bytes end the search.
pub fn expand<F: Folder>(
    alloc: Global,
    folder: &mut F,
    main: &str,
    text: Vec<u8>,
) -> Result<Expanded, ExpandError> {
    let mut expansion = Expansion::new(alloc, main, text)?;
    for _turn in 0..u64::MAX {
        match next_step(alloc, &mut expansion.expanded, &mut expansion.open)? {
            Step::Taken => {}
            Step::End => return expansion.finish(),
            Step::BadName(origin) => expansion.note(alloc, origin, IncludeFault::BadName)?,
            Step::Include(name, origin) => {
                match expansion.include(alloc, folder, name.as_str()) {
                    Ok(()) => {}
                    Err(ReadFault::Memory) => return Err(ExpandError::Memory),
                    Err(ReadFault::Include(fault)) => {
                        expansion.note(alloc, origin, fault)?;
                        if ends_search(fault) {
                            return expansion.finish();
                        }
                    }
                }
            }
        }
    }
    expansion.finish()
}

/// Returns whether no other include is looked for after one with this fault.
fn ends_search(fault: IncludeFault) -> bool {
    matches!(
        fault,
        IncludeFault::TooManyFiles | IncludeFault::TooManyBytes
    )
}

/// Takes the next line of the file that is being read.
fn next_step(
    alloc: Global,
    expanded: &mut Expanded,
    open: &mut Vec<OpenFile>,
) -> Result<Step, AllocError> {
    let is_read = match open.last() {
        Some(top) => top.read >= top.text.len(),
        None => return Ok(Step::End),
    };
    if is_read {
        let _file = open.pop();
        return Ok(Step::Taken);
    }
    match open.last_mut() {
        Some(top) => take_line(alloc, expanded, top),
        None => Ok(Step::End),
    }
}

/// Takes the next line of a file.
fn take_line(
    alloc: Global,
    expanded: &mut Expanded,
    top: &mut OpenFile,
) -> Result<Step, AllocError> {
    let rest = match top.text.as_slice().get(top.read..) {
        Some(rest) => rest,
        None => return Ok(Step::Taken),
    };
    let Some((line, after)) = next_line(rest) else {
        return Ok(Step::Taken);
    };
    let origin = Origin {
        file: top.file,
        line: top.line.saturating_add(1),
    };
    let left = after.len();
    let step = if is_include(line) {
        match include_name(alloc, line)? {
            Some(name) => Step::Include(name, origin),
            None => Step::BadName(origin),
        }
    } else {
        expanded.push_line(origin, line)?;
        Step::Taken
    };
    top.read = top.text.len().saturating_sub(left);
    top.line = origin.line;
    Ok(step)
}

/// Returns the name of the file that a line includes: what follows `$`, up to a blank or a comment.
fn include_name(alloc: Global, line: &[u8]) -> Result<Option<String>, AllocError> {
    let mut name = String::new(alloc);
    for byte in line.iter().skip(1) {
        match *byte {
            b' ' | b'\t' | b'#' => break,
            b'/' => return Ok(None),
            b'!'..=b'~' => name.push(char::from(*byte))?,
            _ => return Ok(None),
        }
    }
    match name.as_str() {
        "" | "." | ".." => Ok(None),
        _ => Ok(Some(name)),
    }
}
