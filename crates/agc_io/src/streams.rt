//! Keeps closed standard streams from being reused for files.
use std::rt::Files;
use std::{fs, io};

/// Opens three files that can be neither read nor written. A newly opened file takes the number of a closed standard
/// stream; without these, a rope could be read in place of the keys.
pub fn hold_closed_streams<R: Files>(rt: &R) -> [io::Result<R::File>; 3] {
    [fs::open(rt, "/"), fs::open(rt, "/"), fs::open(rt, "/")]
}
