//! Prints the source of a rope.
ghost use Rattle.std.specs.Prelude.{◌≡◌, None, IfOk, string_bytes};
ghost use Rattle.agc_listing.specs.Laws.{AreRopeWords};
ghost use Rattle.agc_encode.specs.Disassemble.{rope_source};
ghost use Rattle.agc_asm.specs.Laws.{WeavesTo};

use agc_encode::push_source_lines;
use agc_store::Store;
use std::alloc::{AllocError, Global};

/// Prints the source of the rope in a store: for each word that is not +0, in the order of the banks, a line with the
/// order that `list` shows, and a SETLOC line before each word that does not follow another. If the assembler would
/// read the order as another one, the line has the word's digits instead; that happens when bank 02 ends in EXTEND.
/// With a bank, 00 to 43 octal, only its words. Fails if out of memory.
pub fn rope_source(alloc: Global, store: &Store, bank: Option<u8>) -> Result<String, AllocError>
    ensures source { IfOk result (λ text. string_bytes text ≡ rope_source bank store.now.fixed) }

    // In both forms the source of a whole rope assembles to a rope with the same words.
    ensures weaves { bank ≡ None → AreRopeWords store.now.fixed
        → IfOk result (λ text. WeavesTo store.now.fixed (string_bytes text)) }
{
    let mut text = String::new(alloc);
    push_source_lines(&mut text, store, bank)?;
    Ok(text)
}
