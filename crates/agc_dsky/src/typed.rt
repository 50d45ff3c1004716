//! The bytes typed and not yet handled, and the listener who ends a search back.
use agc_session::Cancellation;
use agc_tui::{Decoder, InputEvent};
use std::io::Read;

/// The most bytes that wait: as many as a terminal holds.
const MOST: usize = 4096;

/// The bytes that were typed and not yet handled.
#[derive(Drop)]
pub struct Typed {
    bytes: [u8; MOST],
    /// The number of bytes that were read, and of those that were handled.
    read: usize,
    handled: usize,
}

/// Listens while a search back goes on, and cancels it if a byte ends it. Handles no byte.
#[derive(Drop)]
pub struct Listener<'a, K> {
    keys: &'a mut K,
    typed: &'a mut Typed,
    decoder: Decoder,
    /// The number of bytes heard.
    heard: usize,
}

impl Typed {
    /// Returns no bytes.
    pub fn new() -> Typed {
        Typed {
            bytes: [0; MOST],
            read: 0,
            handled: 0,
        }
    }

    /// Reads what was typed after all bytes were handled, without waiting. Returns false if the terminal is gone.
    pub fn read<K: Read>(&mut self, keys: &mut K) -> bool {
        self.read = 0;
        self.handled = 0;
        self.read_more(keys)
    }

    /// Reads what was typed since, without waiting, as far as there is room. Returns false if the terminal is gone.
    fn read_more<K: Read>(&mut self, keys: &mut K) -> bool {
        let from = self.read.min(MOST);
        match keys.read(&mut self.bytes[from..]) {
            Ok(count) => {
                self.read = from.saturating_add(count);
                true
            }
            Err(_) => false,
        }
    }

    /// Returns the next byte, which counts as handled.
    pub fn take(&mut self) -> Option<u8> {
        let byte = self.at(self.handled)?;
        self.handled = self.handled.saturating_add(1);
        Some(byte)
    }

    /// Returns the byte at a place, if that many were read.
    fn at(&self, place: usize) -> Option<u8> {
        if place < self.read {
            self.bytes.get(place).copied()
        } else {
            None
        }
    }
}

impl<'a, K: Read> Listener<'a, K> {
    /// Creates a listener with the decoder of the bytes that were handled.
    pub fn new(keys: &'a mut K, typed: &'a mut Typed, decoder: Decoder) -> Listener<'a, K> {
        let heard = typed.handled;
        Listener {
            keys,
            typed,
            decoder,
            heard,
        }
    }
}

impl<'a, K: Read> Cancellation for Listener<'a, K> {
    /// Returns whether a byte ends the search, or the terminal is gone.
    fn is_cancelled(&mut self) -> bool {
        if !self.typed.read_more(self.keys) {
            return true;
        }
        for _byte in 0..MOST {
            let Some(byte) = self.typed.at(self.heard) else {
                return false;
            };
            self.heard = self.heard.saturating_add(1);
            match self.decoder.take(byte) {
                Some(InputEvent::Quit | InputEvent::Pause | InputEvent::Step) => return true,
                _ => {}
            }
        }
        false
    }
}
