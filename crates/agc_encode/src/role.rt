//! What a line is in the interpretive language, and what is due behind it.
ghost use Rattle.std.specs.Prelude.{◌≡◌, ◌≤◌, ◌<◌, ◌+◌, ◌∷◌, [], length, option_map, unwrap_or, true};
ghost use Rattle.agc_interpretive.specs.Operation.{operation_named};
ghost use Rattle.agc_interpretive.specs.Jump.{is_store};
ghost use Rattle.agc_listing.specs.Number.{offset_parsed};
ghost use Rattle.agc_listing.specs.Text.{after_first, body_of, label_of, parsed_by};
ghost use Rattle.agc_vocabulary.specs.Body.{plain_line, spelled, tokens, uncommented};
ghost use Rattle.agc_encode.specs.Interpretive.{
  column_from,
  column_of,
  due_behind,
  is_basic,
  right_named,
  role_by,
  role_named,
  role_of,
  spoken_words,
  unadorned,
};

use crate::source_line::SourceLine;
use agc_interpretive::{Form, Operation, Pending};
use agc_listing::{cut_label, offset_parsed};
use agc_vocabulary::{Operation as BasicOperation, is_include, is_order, next_token};

/// The column, counted from 0 with tabs of eight, from which on a word is an operand.
const OPERAND_COLUMN: usize = 24;

/// What a line is in the interpretive language.
#[derive(Clone, Copy)]
pub enum Role {
    /// A line of the basic language or of a listing, or one without words.
    Basic,
    /// An operand, or a word at the operand's column where none is due.
    Operand,
    /// An operation, alone or with another one, or a store.
    Operation(Operation),
}

/// Returns what a line is behind lines of which these operands are due.
#[tactic(auto, unfolding(crate::specs::Interpretive::role_of, agc_interpretive::specs::Pending::takes_line))]
pub fn role_of(due: &Pending, line: &SourceLine) -> Role
    ensures { result ≡ role_of due.now (plain_line line.now.text.now) }
{
    if is_include(line.plain) {
        return Role::Basic;
    }
    let Some((word, _)) = next_token(line.words) else {
        return Role::Basic;
    };
    let is_basic = is_basic(&line.operation);
    if due.takes_line(line.column, word, is_basic) {
        return Role::Operand;
    }
    if is_basic || line.is_listed {
        return Role::Basic;
    }
    match Operation::from_name(word) {
        Some(operation) => Role::Operation(operation),
        None if line.column >= OPERAND_COLUMN => Role::Operand,
        None => Role::Basic,
    }
}

/// Returns whether a line's operation is an order or a directive.
#[tactic(auto, unfolding(agc_vocabulary::specs::Body::spelled))]
fn is_basic(operation: &Option<BasicOperation>) -> bool
    ensures { result ≡ is_basic (spelled (unwrap_or (option_map (λ op. tokens op.body.now) operation.now) [])) }
{
    match operation {
        Some(operation) => operation.directive.is_some() || is_order(operation.word),
        None => false,
    }
}

/// Returns what is due behind an interpretive line with these words.
pub fn due_behind(due: &Pending, role: Role, words: &[u8]) -> Pending
    ensures { result ≡ due_behind due.now role (tokens words.now) }
{
    match role {
        Role::Basic => *due,
        Role::Operand => due.rest(),
        Role::Operation(operation) if is_store(operation) => Pending::behind(operation, None),
        Role::Operation(operation) => Pending::behind(operation, right_named(words)),
    }
}

/// Returns whether an operation is a store.
pub(crate) fn is_store(operation: Operation) -> bool
    ensures { result ≡ is_store operation.form }
{
    matches!(operation.form, Form::Store(_))
}

/// Returns the operation behind the first word, if it is one.
fn right_named(words: &[u8]) -> Option<Operation>
    ensures { result ≡ right_named (after_first (tokens words.now)) }
{
    let (_, rest) = next_token(words)?;
    let (right, _) = next_token(rest)?;
    Operation::from_name(right)
}

/// Returns the words of a line behind its name. A sign and digits mean nothing before other words.
#[tactic(auto, unfolding(crate::specs::Interpretive::spoken_words, agc_vocabulary::specs::Body::tokens))]
pub(crate) fn spoken_words(line: &[u8]) -> &[u8]
    ensures { tokens result.now ≡ spoken_words line.now }
{
    let (label, body) = cut_label(line);
    match label {
        Some(_) => body,
        None => unadorned(body),
    }
}

fn unadorned(body: &[u8]) -> &[u8]
    ensures { tokens result.now ≡ unadorned (tokens body.now) }
{
    match next_token(body) {
        Some((word, rest)) if offset_parsed(word).is_some() && next_token(rest).is_some() => rest,
        _ => body,
    }
}

/// Returns the column at which the words of a line begin behind its name, up to that of operands.
#[tactic(auto, unfolding(crate::specs::Interpretive::column_of, crate::specs::Interpretive::column_from))]
pub(crate) fn column_of(line: &[u8]) -> usize
    ensures { result ≡ column_of line.now }
{
    let mut is_named = true;
    let mut column = 0;
    let mut rest = line;
    while let [byte, after @ ..] = rest {
        if column >= OPERAND_COLUMN {
            return column;
        }
        match *byte {
            b'\t' => {
                is_named = false;
                column = (column / 8 + 1) * 8;
            }
            b' ' => {
                is_named = false;
                column += 1;
            }
            _ if is_named => column += 1,
            _ => return column,
        }
        rest = after;
    }
    column
}
