//! Store words: the store's code, and the address of a cell.
ghost use Rattle.std.specs.Prelude.{◌≡◌, ◌<◌, ◌≤◌, Some, IfOk};
ghost use Rattle.agc_interpretive.specs.Words.{seen_store, store_at, store_in, store_word};

use crate::fault::Fault;
use crate::operand::{OperandKind, Place};
use crate::words::cell_of;

/// A store. `*` of STODL and STOVL indexes the operand that they load.
#[derive(Clone, Copy, Debug, PartialEq, Eq)]
pub enum Store {
    /// STORE.
    Store,
    /// STORE with its address indexed by X1.
    StoreX1,
    /// STORE with its address indexed by X2.
    StoreX2,
    Stodl,
    /// STODL*.
    StodlIndexed,
    Stovl,
    /// STOVL*.
    StovlIndexed,
    Stcall,
}

impl Store {
    ghost use Rattle.std.specs.Prelude.{◌≡◌, ◌≤◌};
    ghost use Rattle.agc_interpretive.specs.Words.{store_code};

    /// Returns its code, bits 14 to 12 of the word. From memory, not checked.
    pub fn code(self) -> u16
        ensures code { result ≡ store_code self }
        ensures range { result ≤ 7 }
    {
        match self {
            Store::Store => 0,
            Store::StoreX1 => 1,
            Store::StoreX2 => 2,
            Store::Stodl => 3,
            Store::StodlIndexed => 4,
            Store::Stovl => 5,
            Store::StovlIndexed => 6,
            Store::Stcall => 7,
        }
    }
}

/// Encodes a store: 4000 octal times its code, plus the cell, plus 1. Decoding gives store and cell back.
#[tactic(auto, unfolding(crate::specs::Words::store_word, crate::specs::Words::store_in))]
pub fn store_word(store: Store, place: Place) -> Result<u16, Fault>
    ensures word { result ≡ store_word store place }
    ensures back { IfOk result (λ word. seen_store (store_in word) ≡ Some (store, place)) }
    ensures range { IfOk result (λ word. word < 0o40000) }
{
    let cell = cell_of(place)?;
    let word = 0o4000 * store.code() + cell + OperandKind::Store.plus_one();
    if word < 0o40000 {
        Ok(word)
    } else {
        Err(Fault::OutOfReach)
    }
}

/// Decodes a store into itself and its cell; `None` for +0 and for a negative word.
#[tactic(auto, unfolding(crate::specs::Words::store_in))]
pub fn store_in(word: u16) -> Option<(Store, u16)>
    ensures { result ≡ store_in word }
{
    if word == 0 || word >= 0o40000 {
        return None;
    }
    let bits = word - OperandKind::Store.plus_one();
    Some((store_at(bits / 0o4000), bits % 0o4000))
}

fn store_at(code: u16) -> Store
    ensures { result ≡ store_at code }
{
    match code {
        0 => Store::Store,
        1 => Store::StoreX1,
        2 => Store::StoreX2,
        3 => Store::Stodl,
        4 => Store::StodlIndexed,
        5 => Store::Stovl,
        6 => Store::StovlIndexed,
        _ => Store::Stcall,
    }
}
