//! Prints repairs as lines of a patch: place, word, and for the reader the order and how sure it is.
ghost use Rattle.std.specs.Prelude.{◌≡◌, ◌<◌, ◌++◌, OnOk, codes, string_bytes};
ghost use Rattle.agc_store.specs.Places.{fixed_words};
ghost use Rattle.agc_mend.specs.Repair.{repair_line, repair_text, sureness_text};

use crate::legal::is_extracode_at;
use crate::repair::{Repair, Sureness};
use agc_listing::{push_order, push_rope_place};
use agc_store::Store;
use std::alloc::AllocError;

/// Appends a repair as a line of a patch.
#[tactic(auto, unfolding(crate::specs::Repair::repair_line))]
pub fn push_repair_line(text: &mut String, store: &Store, repair: Repair) -> Result<(), AllocError>
    requires { repair.place < fixed_words }
    ensures { OnOk result
        (string_bytes text.new ≡ string_bytes text.old ++ repair_line store.now.fixed repair) }
{
    push_rope_place(text, repair.place)?;
    text.push_str(" ")?;
    push_repair(text, store, repair)?;
    text.push_str("\n")
}

/// Appends the word and the order of a repair, and how sure it is.
#[tactic(auto, unfolding(crate::specs::Repair::repair_text))]
pub fn push_repair(text: &mut String, store: &Store, repair: Repair) -> Result<(), AllocError>
    requires { repair.place < fixed_words }
    ensures { OnOk result
        (string_bytes text.new ≡ string_bytes text.old ++ repair_text store.now.fixed repair) }
{
    let (word, extracode) = (repair.word, is_extracode_at(store, repair.place));
    write!(text, "{word} ")?;
    push_order(text, extracode, word)?;
    push_sureness(text, repair.sureness)
}

fn push_sureness(text: &mut String, sureness: Sureness) -> Result<(), AllocError>
    ensures { OnOk result (string_bytes text.new ≡ string_bytes text.old ++ codes " (" ++ sureness_text sureness ++ codes ")") }
{
    let sureness = sureness_text(sureness);
    write!(text, " ({sureness})")
}

fn sureness_text(sureness: Sureness) -> &'static str
    ensures { result.now ≡ sureness_text sureness }
{
    match sureness {
        Sureness::Sure => "sure if no other word of this bank is wrong",
        Sureness::Fits => "likely: the bank's sum fits",
        Sureness::Stuck => "likely: its bit is the same in all wrong words",
        Sureness::Likely => "likely",
        Sureness::Possible => "possible",
        Sureness::Unlikely => "unlikely",
    }
}
