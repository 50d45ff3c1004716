//! Why the operation of a line is unknown: some directives are known, but not supported.
ghost use Rattle.agc_encode.specs.UnknownOperation.{is_among, is_badly_starred, unknown_operation};
ghost use Rattle.std.specs.Prelude.{◌≡◌};

use agc_interpretive::{Fault, Operation};
use agc_vocabulary::SourceFault;
use agc_word::next_word;

/// Directives that this assembler does not support.
const UNSUPPORTED: &str = "2BCADR 2CADR* =PLUS BANK= DNADR HEAD LOC TAIL";

/// Returns the fault of a word that is neither an order nor a directive.
#[tactic(auto, unfolding(crate::specs::UnknownOperation::unknown_operation, crate::specs::UnknownOperation::unsupported_names))]
pub(crate) fn unknown_operation(word: &[u8]) -> SourceFault
    ensures { result ≡ unknown_operation word.now }
{
    if is_badly_starred(word) {
        SourceFault::Interpretive(Fault::BadIndex)
    } else if is_among(UNSUPPORTED, word) {
        SourceFault::NotSupported
    } else {
        SourceFault::UnknownOrder
    }
}

/// Returns whether a text of words has a word.
fn is_among(names: &str, word: &[u8]) -> bool
    ensures { result ≡ is_among names.now word.now }
{
    let mut rest = names.as_bytes();
    while let Some((name, after)) = next_word(rest) {
        if name == word {
            return true;
        }
        rest = after;
    }
    false
}

/// Returns whether a word is an operation of the interpretive language that is never indexed, with `*` behind it.
fn is_badly_starred(word: &[u8]) -> bool
    ensures { result ≡ is_badly_starred word.now }
{
    match word {
        [name @ .., b'*'] => Operation::from_name(name).is_some(),
        _ => false,
    }
}
