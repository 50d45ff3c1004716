//! Files and standard streams for tests: in memory, with few bytes a call, or failing.
use std::alloc::Global;
use std::io::{self, ErrorKind, Read, Write};

/// A file in memory that returns a limited number of bytes a read, and may fail at one read.
#[derive(Drop)]
pub struct Source<'a> {
    left: &'a [u8],
    most: usize,
    reads: u32,
    fails_at: u32,
}

impl<'a> Source<'a> {
    /// Creates a file that returns at most `most` bytes a read, and whose read number `fails_at`, counted from 1,
    /// fails; none fails for 0.
    pub fn new(bytes: &'a [u8], most: usize, fails_at: u32) -> Source<'a> {
        Source {
            left: bytes,
            most,
            reads: 0,
            fails_at,
        }
    }

    /// Returns whether nothing is left.
    pub fn is_at_end(&self) -> bool {
        self.left.is_empty()
    }
}

impl Read for Source<'_> {
    fn read(&mut self, buf: &mut [u8]) -> io::Result<usize> {
        self.reads = self.reads.saturating_add(1);
        if self.reads == self.fails_at {
            return Err(io::Error::from(ErrorKind::Other));
        }
        let room = buf.len().min(self.most);
        self.left.read(&mut buf[..room])
    }
}

/// A stream in memory that takes a limited number of bytes a write, and may fail at one write.
#[derive(Drop)]
pub struct Sink {
    pub bytes: Vec<u8>,
    most: usize,
    writes: u32,
    fails_at: u32,
}

impl Sink {
    /// Creates a stream that takes at most `most` bytes a write, and whose write number `fails_at`, counted from 1,
    /// fails; none fails for 0.
    pub fn new(alloc: Global, most: usize, fails_at: u32) -> Sink {
        Sink {
            bytes: Vec::new(alloc),
            most,
            writes: 0,
            fails_at,
        }
    }
}

impl Write for Sink {
    fn write(&mut self, buf: &[u8]) -> io::Result<usize> {
        self.writes = self.writes.saturating_add(1);
        if self.writes == self.fails_at {
            return Err(io::Error::from(ErrorKind::Other));
        }
        let taken = buf.len().min(self.most);
        self.bytes.extend_from_slice(&buf[..taken])?;
        Ok(taken)
    }

    fn flush(&mut self) -> io::Result<()> {
        Ok(())
    }
}
