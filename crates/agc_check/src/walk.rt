//! Follows the orders of a rope from 4000 and the interrupt vectors, and counts those that look right.
ghost use Rattle.std.specs.Prelude.{◌<◌};
ghost use Rattle.agc_store.specs.Places.{fixed_words};

use agc_listing::{Location, sure_location};
use agc_mend::is_legal;
use agc_order::{Basic, Extracode};
use agc_store::Store;
use agc_store::place::{FIXED_BANK_SIZE, FIXED_FIXED, FIXED_WINDOW, FIXED_WORDS};
use agc_word::Narrow;
use std::alloc::{AllocError, Global};

/// The starts of a program: 4000, where it begins, and ten interrupt vectors, four words apart.
const STARTS: usize = 11;

/// DXCH FB and DXCH Z, and TS Z: jumps to a place that only the run knows.
const FAR_JUMPS: [u16; 3] = [0o52005, 0o52006, 0o54005];

/// How a rope reads if its orders are followed. A jump to another bank is not followed.
#[derive(Clone, Copy, Debug, PartialEq, Eq)]
pub struct Reach {
    /// The words that are not +0.
    pub words: usize,
    /// The places that are reached. A place counts twice if it is reached as a basic order and as an extracode.
    pub reached: usize,
    /// Those with a legal order.
    pub legal: usize,
    /// The starts, 4000 and the vectors, that have a legal order; at most eleven.
    pub starts: usize,
    /// The words that are not +0 and not reached.
    pub unreached: usize,
}

/// A place to be followed, as a basic order or as an extracode.
#[derive(Clone, Copy, Debug, PartialEq, Eq)]
struct Step {
    place: usize,
    extracode: bool,
}

/// The places that are reached so far, and the counts of `Reach`.
#[derive(Drop)]
struct Walk {
    /// For each place, whether it is reached as a basic order, and then for each place as an extracode.
    seen: Vec<bool>,
    /// Places that are reached and not followed yet.
    open: Vec<Step>,
    reached: usize,
    legal: usize,
    starts: usize,
}

/// Follows the orders of the rope in a store. Fails if out of memory.
pub fn follow_orders(alloc: Global, store: &Store) -> Result<Reach, AllocError> {
    let mut walk = new_walk(alloc)?;
    follow_all(&mut walk, store)?;
    Ok(counted(&walk, store))
}

/// Returns for each place of the rope in a store whether `follow_orders` reaches it. Fails if out of memory.
pub fn reached_places(alloc: Global, store: &Store) -> Result<Vec<bool>, AllocError> {
    let mut walk = new_walk(alloc)?;
    follow_all(&mut walk, store)?;
    let mut reached = Vec::new(alloc);
    for place in 0..FIXED_WORDS as usize {
        reached.push(is_reached(&walk, place))?;
    }
    Ok(reached)
}

fn new_walk(alloc: Global) -> Result<Walk, AllocError> {
    Ok(Walk {
        seen: vec![in alloc; false; 2 * FIXED_WORDS as usize]?,
        open: Vec::new(alloc),
        reached: 0,
        legal: 0,
        starts: 0,
    })
}

/// Follows orders from each start, until no reached place is left.
fn follow_all(walk: &mut Walk, store: &Store) -> Result<(), AllocError> {
    for start in 0..STARTS {
        let place = FIXED_FIXED as usize + 4 * start;
        if is_order(store, place, false) {
            walk.starts = walk.starts.saturating_add(1);
            visit(walk, place, false)?;
        }
    }
    for _ in 0..2 * FIXED_WORDS {
        let Some(step) = walk.open.pop() else {
            break;
        };
        walk.reached = walk.reached.saturating_add(1);
        if is_order(store, step.place, step.extracode) {
            walk.legal = walk.legal.saturating_add(1);
            follow(walk, store, step)?;
        }
    }
    Ok(())
}

/// Returns whether a place has a word that is not +0, and it is legal there.
fn is_order(store: &Store, place: usize, extracode: bool) -> bool {
    if place >= FIXED_WORDS as usize {
        return false;
    }
    let word = store.fixed_at(place);
    word.bits() != 0 && is_legal(store, place, extracode, word)
}

/// Notes a place that is reached, unless it was reached before.
fn visit(walk: &mut Walk, place: usize, extracode: bool) -> Result<(), AllocError> {
    if place >= FIXED_WORDS as usize {
        return Ok(());
    }
    let index = if extracode {
        place + FIXED_WORDS as usize
    } else {
        place
    };
    if let Some(seen) = walk.seen.get_mut(index) {
        if !*seen {
            *seen = true;
            walk.open.push(Step { place, extracode })?;
        }
    }
    Ok(())
}

/// Notes the places to which an order leads.
fn follow(walk: &mut Walk, store: &Store, step: Step) -> Result<(), AllocError> {
    if step.place >= FIXED_WORDS as usize {
        return Ok(());
    }
    let word = store.fixed_at(step.place);
    if step.extracode {
        follow_extracode(walk, step.place, word)
    } else {
        follow_basic(walk, step.place, word)
    }
}

/// Notes the places to which a basic order leads.
fn follow_basic(walk: &mut Walk, place: usize, word: Narrow) -> Result<(), AllocError>
    requires { place < fixed_words }
{
    let bits = word.bits();
    match Basic::named_by(word) {
        Basic::Tc if bits < FIXED_WINDOW => Ok(()),
        Basic::Tc => {
            visit_target(walk, place, word)?;
            visit_next(walk, place, 1, false)
        }
        Basic::Tcf => visit_target(walk, place, word),
        Basic::Resume => Ok(()),
        Basic::Extend => visit_next(walk, place, 1, true),
        Basic::Ccs => {
            for skip in 1..5 {
                visit_next(walk, place, skip, false)?;
            }
            Ok(())
        }
        Basic::Dxch | Basic::Ts if FAR_JUMPS.contains(&bits) => Ok(()),
        Basic::Ts => {
            visit_next(walk, place, 1, false)?;
            visit_next(walk, place, 2, false)
        }
        _ => visit_next(walk, place, 1, false),
    }
}

/// Notes the places to which an extracode leads.
fn follow_extracode(walk: &mut Walk, place: usize, word: Narrow) -> Result<(), AllocError>
    requires { place < fixed_words }
{
    match Extracode::named_by(word) {
        Extracode::Edrupt => Ok(()),
        Extracode::Index => visit_next(walk, place, 1, true),
        Extracode::Bzf | Extracode::Bzmf => {
            visit_target(walk, place, word)?;
            visit_next(walk, place, 1, false)
        }
        _ => visit_next(walk, place, 1, false),
    }
}

/// Notes a place of the same bank that comes some words later. Bank 03 follows bank 02.
fn visit_next(
    walk: &mut Walk,
    place: usize,
    skip: usize,
    extracode: bool,
) -> Result<(), AllocError> {
    let next = place.saturating_add(skip);
    if run_of(next) == run_of(place) {
        visit(walk, next, extracode)
    } else {
        Ok(())
    }
}

/// Returns the bank of a place. Bank 03 counts as bank 02, which it follows.
fn run_of(place: usize) -> usize {
    match place / FIXED_BANK_SIZE as usize {
        3 => 2,
        bank => bank,
    }
}

/// Notes the place that a jump names, if it is in the same bank or in banks 02 and 03.
fn visit_target(walk: &mut Walk, place: usize, word: Narrow) -> Result<(), AllocError>
    requires { place < fixed_words }
{
    match sure_location(place, word.bits() % 0o10000) {
        Some(Location::Fixed(target)) => visit(walk, target as usize, false),
        _ => Ok(()),
    }
}

/// Returns the counts of a walk, with the words that are not +0, and those that are not reached.
fn counted(walk: &Walk, store: &Store) -> Reach {
    let (mut words, mut unreached) = (0usize, 0usize);
    for place in 0..FIXED_WORDS as usize {
        if store.fixed_at(place).bits() != 0 {
            words = words.saturating_add(1);
            if !is_reached(walk, place) {
                unreached = unreached.saturating_add(1);
            }
        }
    }
    Reach {
        words,
        reached: walk.reached,
        legal: walk.legal,
        starts: walk.starts,
        unreached,
    }
}

/// Returns whether a place is reached, as a basic order or as an extracode.
fn is_reached(walk: &Walk, place: usize) -> bool {
    is_seen(walk, place) || is_seen(walk, place.saturating_add(FIXED_WORDS as usize))
}

fn is_seen(walk: &Walk, index: usize) -> bool {
    walk.seen.get(index).copied().unwrap_or(false)
}
