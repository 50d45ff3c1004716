//! The operation of a line: its order or directive, and the operand.
ghost use Rattle.std.specs.Prelude.{◌≡◌, ◌∷◌, [], option_map, unwrap_or};
ghost use Rattle.agc_vocabulary.specs.Body.{alias_in, has_minus, spelled, tokens};
ghost use Rattle.agc_vocabulary.specs.Mnemonic.{directive_named};

use crate::alias::Alias;
use crate::body::{next_token, operand_spelled, without_minus};
use crate::mnemonic::Directive;

/// The operation of a line and its operand.
#[derive(Clone, Copy)]
pub struct Operation<'a> {
    /// The words of the line from here on, in the source's own form.
    pub body: &'a [u8],
    /// Whether a minus is before it, which complements its words.
    pub minus: bool,
    /// The name in the source, if it is another name of an order.
    pub alias: Option<Alias>,
    /// The directive; `None` if it is an order.
    pub directive: Option<Directive>,
    /// The order's own name, or the directive's.
    pub word: &'a [u8],
    /// The operand.
    pub rest: &'a [u8],
    ghost minus_read: { minus ≡ has_minus (tokens body.now) },
    ghost alias_read: { alias ≡ alias_in (tokens body.now) },
    ghost directive_read: { directive ≡ directive_named word.now },
    ghost spelled_so: { spelled (tokens body.now) ≡ word.now ∷ tokens rest.now },
}

/// Returns the operation of a line, spelled with the order's own name and operand; `None` if there is no word.
#[tactic(auto, unfolding(crate::specs::Body::spelled))]
pub fn operation_in(body: &[u8]) -> Option<Operation<'_>>
    ensures { tokens body.now ≡ unwrap_or (option_map (λ op. tokens op.body.now) result) [] }
{
    let (first, operand) = next_token(body)?;
    let name = without_minus(first);
    let alias = Alias::from_name(name);
    let (word, rest) = match alias {
        Some(alias) => (alias.order().as_bytes(), operand_spelled(alias, operand)),
        None => (name, operand),
    };
    Some(Operation {
        body,
        minus: matches!(first, [b'-', ..]),
        alias,
        directive: Directive::from_name(word),
        word,
        rest,
    })
}
