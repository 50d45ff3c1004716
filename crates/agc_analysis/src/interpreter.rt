//! Where the interpreter of the interpretive language is in a rope, and where it keeps its state.
use crate::interpretive_list::mistaken;
use agc_cli::ArgsFault;
use agc_listing::{Location, location_at};
use agc_machine::Upcoming;
use agc_store::place::ERASABLE_CELLS;
use agc_symbols::{SymbolTable, resolve};
use std::alloc::{AllocError, Global};

/// The option, as messages name it.
const OPTION: &str = "--interpretive <SPEC>";

const SEVEN: &str =
    "seven places or names, with commas between them: NEXTOP,FETCH,OPJUMP,LOC,MODE,MPAC,PUSHLOC";

/// The place of the accumulator's last cell, counted from its first.
const LAST_OF_MPAC: u16 = 6;

/// The interpreter of a rope. A cell is its number, 0 to 3777 octal.
#[derive(Clone, Copy)]
pub(crate) struct Interpreter {
    /// Where an operation has ended: NEXTOP, in flight software DANZIG.
    end: Location,
    /// Where a pair of operations, or a store, is fetched: FETCH, in flight software NEWOPS.
    fetch: Location,
    /// Where an operation of a pair begins, the left one after it was fetched: OPJUMP.
    begin: Location,
    /// The cell that has the address of the word in hand: LOC.
    pub word: u16,
    /// The cell that says what the accumulator holds: +0 a scalar of two words, +1 one of three, -1 a vector.
    pub mode: u16,
    /// The first cell of the accumulator: MPAC.
    pub mpac: u16,
    /// The cell that says where the push-down list goes on: PUSHLOC.
    pub push_down: u16,
}

/// Which of its places the interpreter is at.
#[derive(Clone, Copy)]
pub(crate) enum Passing {
    End,
    Fetch,
    Begin,
}

/// What is wrong with a part of the option's value, and which part it is; with all of it if the part has no name.
#[derive(Clone, Copy)]
struct Misnamed {
    part: &'static str,
    why: &'static str,
}

impl Interpreter {
    /// Returns which of the interpreter's places the order that comes next is at.
    pub(crate) fn passing(&self, upcoming: Upcoming) -> Option<Passing> {
        let Upcoming::Order(order) = upcoming else {
            return None;
        };
        let place = location_at(order.bank, order.address);
        if place == self.end {
            Some(Passing::End)
        } else if place == self.fetch {
            Some(Passing::Fetch)
        } else if place == self.begin {
            Some(Passing::Begin)
        } else {
            None
        }
    }

    /// Returns the part of the option's value that names what another part names, if there is one.
    fn repeated(&self) -> Option<&'static str> {
        if self.fetch == self.end {
            Some("FETCH")
        } else if self.begin == self.end || self.begin == self.fetch {
            Some("OPJUMP")
        } else if self.mode == self.word {
            Some("MODE")
        } else if self.has_in_mpac(self.word) || self.has_in_mpac(self.mode) {
            Some("MPAC")
        } else if self.has_in_mpac(self.push_down)
            || self.push_down == self.word
            || self.push_down == self.mode
        {
            Some("PUSHLOC")
        } else {
            None
        }
    }

    fn has_in_mpac(&self, cell: u16) -> bool {
        self.mpac <= cell && cell <= self.mpac.saturating_add(LAST_OF_MPAC)
    }
}

/// Resolves the value of `--interpretive`. One that does not name what it should is a command-line error.
pub(crate) fn interpreter_named(
    alloc: Global,
    names: &Option<SymbolTable>,
    text: &str,
) -> Result<Interpreter, ArgsFault> {
    let mut parts = Vec::new(alloc);
    for part in text.split(',') {
        push_part(&mut parts, part)?;
    }
    match interpreter_in(names, parts.as_slice()) {
        Ok(interpreter) => Ok(interpreter),
        Err(fault) => Err(refused(alloc, text, fault)),
    }
}

/// Resolves the parts of the option's value.
fn interpreter_in(names: &Option<SymbolTable>, parts: &[&str]) -> Result<Interpreter, Misnamed> {
    let [end, fetch, begin, word, mode, mpac, push_down] = parts else {
        return Err(Misnamed {
            part: "",
            why: SEVEN,
        });
    };
    let end = place_named(names, "NEXTOP", *end)?;
    let fetch = place_named(names, "FETCH", *fetch)?;
    let begin = place_named(names, "OPJUMP", *begin)?;
    let word = cell_named(names, "LOC", *word)?;
    let mode = cell_named(names, "MODE", *mode)?;
    let accumulator = cell_named(names, "MPAC", *mpac)?;
    let push_down = cell_named(names, "PUSHLOC", *push_down)?;
    if accumulator.saturating_add(LAST_OF_MPAC) >= ERASABLE_CELLS {
        return Err(Misnamed {
            part: "MPAC",
            why: "it has seven cells",
        });
    }
    let interpreter = Interpreter {
        end,
        fetch,
        begin,
        word,
        mode,
        mpac: accumulator,
        push_down,
    };
    match interpreter.repeated() {
        Some(part) => Err(Misnamed {
            part,
            why: "another part names this place; MPAC has seven cells",
        }),
        None => Ok(interpreter),
    }
}

fn push_part<'a>(parts: &mut Vec<&'a str>, part: &'a str) -> Result<(), AllocError> {
    parts.push(part)?;
    Ok(())
}

/// Resolves the place of an order.
fn place_named(
    names: &Option<SymbolTable>,
    part: &'static str,
    text: &str,
) -> Result<Location, Misnamed> {
    match resolve(names, text.as_bytes()) {
        Some(Location::Fixed(place)) => Ok(Location::Fixed(place)),
        Some(Location::Erasable(_)) => Err(Misnamed {
            part,
            why: "this is in erasable memory; the interpreter's orders are in fixed memory",
        }),
        None => Err(unknown(part)),
    }
}

fn cell_named(
    names: &Option<SymbolTable>,
    part: &'static str,
    text: &str,
) -> Result<u16, Misnamed> {
    match resolve(names, text.as_bytes()) {
        Some(Location::Erasable(cell)) => Ok(cell as u16),
        Some(Location::Fixed(_)) => Err(Misnamed {
            part,
            why: "this is in fixed memory; the interpreter's state is in cells",
        }),
        None => Err(unknown(part)),
    }
}

fn unknown(part: &'static str) -> Misnamed {
    Misnamed {
        part,
        why: "no such place: octal, 4110 or 0164; a name needs --names FILE",
    }
}

/// Returns the error for a value that does not name what it should.
fn refused(alloc: Global, text: &str, fault: Misnamed) -> ArgsFault {
    let Misnamed { part, why } = fault;
    if part.is_empty() {
        return mistaken(alloc, OPTION, text, why);
    }
    match format!(in alloc; "{part}: {why}") {
        Ok(why) => mistaken(alloc, OPTION, text, why.as_str()),
        Err(AllocError) => ArgsFault::Memory,
    }
}
