//! Tests the words of a command line, from a list that replaces the system's.
use agc_cli::{Options, parse_env};
use std::env::FillError;
use std::rt::Env;

/// The words of a command line.
#[derive(Drop)]
struct Words<'a> {
    words: &'a [&'a [u8]],
}

impl Env for Words<'_> {
    fn arg(&self, i: usize, buf: &mut [u8]) -> Result<usize, FillError> {
        let Some(word) = self.words.get(i) else {
            return Err(FillError::NotPresent);
        };
        if buf.len() < word.len() {
            return Err(FillError::TooLong);
        }
        buf[..word.len()].copy_from_slice(word);
        Ok(word.len())
    }

    fn var(&self, _name: &str, _buf: &mut [u8]) -> Result<usize, FillError> {
        Err(FillError::NotPresent)
    }

    fn var_at(&self, _i: usize, _buf: &mut [u8]) -> Result<usize, FillError> {
        Err(FillError::NotPresent)
    }
}

#[test]
fn words_that_are_text(rt: HostRuntime) {
    let words = [b"agc".as_slice(), b"r", b"s", b"--limit", b"10"];
    let options = parse_env::<Options, _>(&(Words { words: &words }, rt.alloc())).ok();
    let options = options.expect(&rt, "a good command line");
    assert!(rt; options.rope.as_str() == "r" && options.script.as_str() == "s");
    assert_eq!(rt; options.limit, 10);
}
