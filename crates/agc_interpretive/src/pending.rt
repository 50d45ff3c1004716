//! Lines of the interpretive language: the word of each, and the operands that are due behind it.
ghost use Rattle.std.specs.Prelude.{◌≡◌, ◌<◌, IfOk};
ghost use Rattle.agc_interpretive.specs.Jump.{is_store};
ghost use Rattle.agc_interpretive.specs.Pending.{
  code_of,
  dues_of,
  has_stadr_first,
  has_store,
  in_order,
  load_due,
  may_miss,
  missing,
  place_of,
  right_code,
  store_of,
  stored_by,
};

use crate::due::{Due, Value, operand_word, place_of};
use crate::fault::Fault;
use crate::form::{Form, Pops, StoreKind, When};
use crate::operand::Index;
use crate::operation::Operation;
use crate::pair::pair_word;
use crate::store::{Store, store_word};

/// The code of STADR: the store behind it is complemented.
const STADR: u8 = 0o150;

/// The column, counted from 0 with tabs of eight, from which on a word is an operand.
const OPERAND_COLUMN: usize = 24;

/// The operands that are due, in order, and whether STADR was the last operation.
///
/// A reader of lines begins with `NOTHING`. A line that `takes_line` is an operand: `operand_line` is its word, `rest` what
/// is due behind it. Before any other line `fault_at_end` says whether what is due may be left out, before a word of the
/// basic language `fault_before_basic`. Then a store has the word `store_line`, another operation `pair_line`; `behind`
/// either is what is due. Behind any other line `NOTHING` is.
#[derive(Clone, Copy, Debug, PartialEq, Eq)]
pub struct Pending {
    pub first: Option<Due>,
    pub second: Option<Due>,
    pub third: Option<Due>,
    pub fourth: Option<Due>,
    pub is_behind_stadr: bool,
}

impl Pending {
    ghost use Rattle.std.specs.Prelude.{◌≡◌, ◌<◌, IfOk};
    ghost use Rattle.agc_interpretive.specs.Pending.{
      behind,
      fault_at_end,
      fault_before_basic,
      operand_line,
      pair_line,
      rest_of,
      store_line,
      takes_line,
    };

    /// Nothing is due: before the first line, and behind a line of the basic language.
    pub const NOTHING: Pending = Pending {
        first: None,
        second: None,
        third: None,
        fourth: None,
        is_behind_stadr: false,
    };

    /// Returns whether a line is an operand: one is due, and the line's first word stands at the operand's column or is
    /// no operation. The caller says whether it is a basic order or a directive.
    #[tactic(auto, unfolding(crate::specs::Pending::takes_line))]
    pub fn takes_line(&self, column: usize, word: &[u8], is_basic: bool) -> bool
        ensures { result ≡ takes_line self.now column word.now is_basic }
    {
        self.first.is_some()
            && (column >= OPERAND_COLUMN || !(is_basic || Operation::from_name(word).is_some()))
    }

    /// Returns the fault of a line that is no operand, if what is due may not be left out before it.
    #[tactic(auto, unfolding(crate::specs::Pending::fault_at_end))]
    pub fn fault_at_end(&self, is_store_next: bool) -> Option<Fault>
        ensures { result ≡ fault_at_end self.now is_store_next }
    {
        let may_end = may_miss(self.first)
            && may_miss(self.second)
            && may_miss(self.third)
            && may_miss(self.fourth);
        if !may_end {
            Some(missing(self.first))
        } else if self.first.is_some() && is_store_next && !self.is_behind_stadr {
            Some(Fault::NoStadr)
        } else if self.is_behind_stadr && !is_store_next {
            Some(Fault::StoreWanted)
        } else {
            None
        }
    }

    /// Returns the fault of a word of the basic language, if an operand or a store is due before it. Nothing is popped there:
    /// the interpreter pops if the next word is negative, a pair.
    pub fn fault_before_basic(&self) -> Option<Fault>
        ensures { result ≡ fault_before_basic self.now }
    {
        if self.first.is_some() {
            Some(missing(self.first))
        } else if self.is_behind_stadr {
            Some(Fault::StoreWanted)
        } else {
            None
        }
    }

    /// Encodes an operand for code at a place of fixed memory.
    pub fn operand_line(&self, here: u16, value: Value, index: Index) -> Result<u16, Fault>
        ensures word { result ≡ operand_line self.now here value index }
        ensures range { IfOk result (λ word. word < 0o100000) }
    {
        match self.first {
            Some(due) => operand_word(due, here, value, index),
            None => Err(Fault::TooMany),
        }
    }

    /// Returns what is due behind an operand.
    pub fn rest(&self) -> Pending
        ensures { result ≡ rest_of self.now }
    {
        Pending {
            first: self.second,
            second: self.third,
            third: self.fourth,
            fourth: None,
            is_behind_stadr: self.is_behind_stadr,
        }
    }

    /// Encodes a store with the cell on its line, complemented behind STADR.
    #[tactic(auto, unfolding(crate::specs::Pending::store_line))]
    pub fn store_line(&self, store: Operation, value: Value, index: Index) -> Result<u16, Fault>
        ensures word { result ≡ store_line self.now store value index }
        ensures range { IfOk result (λ word. word < 0o100000) }
    {
        let word = stored_by(store_of(store, index), value)?;
        if self.is_behind_stadr {
            Ok(0o77777 - word)
        } else {
            Ok(word)
        }
    }

    /// Encodes a line of one or two operations.
    #[tactic(auto, unfolding(crate::specs::Pending::pair_line))]
    pub fn pair_line(left: Operation, right: Option<Operation>) -> Result<u16, Fault>
        ensures word { result ≡ pair_line left right }
        ensures range { IfOk result (λ word. word < 0o100000) }
    {
        if has_store(left, right) {
            return Err(Fault::BadPair);
        }
        if has_stadr_first(left, right) {
            return Err(Fault::StoreWanted);
        }
        match pair_word(code_of(left), right_code(right)) {
            Some(word) => Ok(word),
            None => Err(Fault::BadPair),
        }
    }

    /// Returns what is due behind a line of operations, or behind a store.
    pub fn behind(left: Operation, right: Option<Operation>) -> Pending
        ensures { result ≡ behind left right }
    {
        match right {
            None => in_order(dues_of(left), (None, None), left.code == STADR),
            Some(right) => in_order(dues_of(left), dues_of(right), right.code == STADR),
        }
    }
}

fn has_store(left: Operation, right: Option<Operation>) -> bool
    ensures { result ≡ has_store left right }
{
    match right {
        None => is_store(left),
        Some(right) => is_store(left) || is_store(right),
    }
}

/// Returns whether STADR has an operation at its right, which would never be done.
fn has_stadr_first(left: Operation, right: Option<Operation>) -> bool
    ensures { result ≡ has_stadr_first left right }
{
    left.code == STADR && right.is_some()
}

fn right_code(right: Option<Operation>) -> Option<u16>
    ensures { result ≡ right_code right }
{
    match right {
        None => None,
        Some(right) => Some(code_of(right)),
    }
}

fn is_store(operation: Operation) -> bool
    ensures { result ≡ is_store operation.form }
{
    matches!(operation.form, Form::Store(_))
}

/// Returns the code of an operation; `*` adds 2.
fn code_of(operation: Operation) -> u16
    ensures { result ≡ code_of operation }
{
    let code = u16::from(operation.code);
    if operation.is_indexed { code + 2 } else { code }
}

/// Returns the store of a name, its `*` and the index of its cell.
fn store_of(operation: Operation, index: Index) -> Result<Store, Fault>
    ensures { result ≡ store_of operation.form operation.is_indexed index }
{
    match (operation.form, operation.is_indexed, index) {
        (Form::Store(StoreKind::Store), false, Index::Direct) => Ok(Store::Store),
        (Form::Store(StoreKind::Store), false, Index::X1) => Ok(Store::StoreX1),
        (Form::Store(StoreKind::Store), false, Index::X2) => Ok(Store::StoreX2),
        (Form::Store(StoreKind::Stodl), false, Index::Direct) => Ok(Store::Stodl),
        (Form::Store(StoreKind::Stodl), true, Index::Direct) => Ok(Store::StodlIndexed),
        (Form::Store(StoreKind::Stovl), false, Index::Direct) => Ok(Store::Stovl),
        (Form::Store(StoreKind::Stovl), true, Index::Direct) => Ok(Store::StovlIndexed),
        (Form::Store(StoreKind::Stcall), false, Index::Direct) => Ok(Store::Stcall),
        _ => Err(Fault::BadIndex),
    }
}

fn stored_by(store: Result<Store, Fault>, value: Value) -> Result<u16, Fault>
    ensures word { result ≡ stored_by store (place_of value) }
    ensures range { IfOk result (λ word. word < 0o40000) }
{
    let store = store?;
    store_word(store, place_of(value)?)
}

/// Returns the operands of an operation, in order.
fn dues_of(operation: Operation) -> (Option<Due>, Option<Due>)
    ensures { result ≡ dues_of operation operation.form }
{
    let is_indexed = operation.is_indexed;
    match operation.form {
        Form::Bare | Form::Store(StoreKind::Store) => (None, None),
        Form::Address(Pops::Never) => (Some(Due::Address(is_indexed)), None),
        Form::Address(_) | Form::Store(StoreKind::Stodl | StoreKind::Stovl) => (
            Some(load_due(is_indexed)),
            None,
        ),
        Form::AddressConstant => (Some(Due::Address(is_indexed)), Some(Due::Constant)),
        Form::AddressCadr => (Some(Due::Address(is_indexed)), Some(Due::Cadr)),
        Form::DirectAddress => (Some(Due::Address(false)), None),
        Form::Shift(kind) => (Some(Due::Shift(kind, is_indexed)), None),
        Form::Constant => (Some(Due::Constant), None),
        Form::Erasable => (Some(Due::Cell), None),
        Form::Branch | Form::Store(StoreKind::Stcall) => (Some(Due::Branch), None),
        Form::Cadr => (Some(Due::Cadr), None),
        Form::Switch(action, When::Never) => (Some(Due::Switch(action, When::Never)), None),
        Form::Switch(action, condition) => (
            Some(Due::Switch(action, condition)),
            Some(Due::Branch),
        ),
    }
}

fn load_due(is_indexed: bool) -> Due
    ensures { result ≡ load_due is_indexed }
{
    if is_indexed {
        Due::Address(true)
    } else {
        Due::Popped
    }
}

/// Puts the operands of the left operation before those of the right one.
fn in_order(
    left: (Option<Due>, Option<Due>),
    right: (Option<Due>, Option<Due>),
    is_behind_stadr: bool,
) -> Pending
    ensures { result ≡ in_order left right is_behind_stadr }
{
    let (first, second, third, fourth) = if left.0.is_none() {
        (right.0, right.1, None, None)
    } else if left.1.is_none() {
        (left.0, right.0, right.1, None)
    } else {
        (left.0, left.1, right.0, right.1)
    };
    Pending {
        first,
        second,
        third,
        fourth,
        is_behind_stadr,
    }
}

fn may_miss(due: Option<Due>) -> bool
    ensures { result ≡ may_miss due }
{
    matches!(due, None | Some(Due::Popped))
}

fn missing(due: Option<Due>) -> Fault
    ensures { result ≡ missing due }
{
    match due {
        Some(Due::Address(_)) => Fault::NoPushUp,
        _ => Fault::TooFew,
    }
}
