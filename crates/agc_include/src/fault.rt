//! The faults of includes.
use std::alloc::AllocError;
use std::fmt;

/// Why a file is not included.
#[derive(Clone, Copy, Debug, PartialEq, Eq)]
pub enum IncludeFault {
    /// The name is missing, or is not that of a file in the same folder.
    BadName,
    /// The file includes itself, directly or by another file.
    Circle,
    /// More than 1,000 files.
    TooManyFiles,
    /// More than 64 MiB in all.
    TooManyBytes,
    /// There is no such file.
    Missing,
    /// It is a link out of the folder.
    Outside,
    /// It is no regular file, or cannot be read.
    Unreadable,
    /// It has more than 16,777,216 bytes.
    TooLong,
}

impl fmt::Display for IncludeFault {
    fn fmt<W: fmt::Write>(&self, f: &mut fmt::Formatter<W>) -> fmt::Result {
        f.write_str(match *self {
            IncludeFault::BadName => {
                "after $ comes the name of a file in the folder of the main file, without a path"
            }
            IncludeFault::Circle => "this file includes itself",
            IncludeFault::TooManyFiles => "more than 1000 files are included",
            IncludeFault::TooManyBytes => "the included files have more than 67108864 bytes",
            IncludeFault::Missing => "there is no such file in the folder of the main file",
            IncludeFault::Outside => "this is a link out of the folder of the main file",
            IncludeFault::Unreadable => "this file cannot be read",
            IncludeFault::TooLong => "this file has more than 16777216 bytes",
        })
    }
}

/// The most faulty includes that are kept.
pub(crate) const MOST_FAULTS: usize = 100;

/// A line whose include is faulty.
#[derive(Drop)]
pub struct FaultyInclude {
    /// The name of the file that has the line.
    pub file: String,
    /// The number of the line, counted from 1.
    pub line: usize,
    pub fault: IncludeFault,
}

/// The faulty includes of a source.
#[derive(Drop)]
pub struct FaultyIncludes {
    /// The first hundred, in the order in which they are read.
    pub first: Vec<FaultyInclude>,
    /// The number of all that were found.
    pub count: usize,
}

/// Why a source is not expanded.
#[derive(Drop)]
pub enum ExpandError {
    /// These includes are faulty, at least one.
    Includes(FaultyIncludes),
    /// Out of memory.
    Memory,
}

impl From<AllocError> for ExpandError {
    fn from(_error: AllocError) -> ExpandError {
        ExpandError::Memory
    }
}

/// Why a file of the folder is not read.
#[derive(Clone, Copy, Debug, PartialEq, Eq)]
pub enum ReadFault {
    Include(IncludeFault),
    /// Out of memory.
    Memory,
}

impl From<AllocError> for ReadFault {
    fn from(_error: AllocError) -> ReadFault {
        ReadFault::Memory
    }
}
