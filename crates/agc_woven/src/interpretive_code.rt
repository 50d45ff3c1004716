//! Prints words as code of the interpretive language: pairs of operations, their operands, and stores.
ghost use Rattle.std.specs.Prelude.{◌<◌};

use agc_interpretive::{
    Action, Count, Due, Form, Index, Operation, Pending, Place, ShiftKind, Store as StoreOrder,
    StoreKind, When, address_in, branch_in, cadr_in, cell_in, indexes, name_in, pair_in, shift_in,
    store_in, switch_in,
};
use agc_listing::{Location, push_rope_place};
use agc_store::Store;
use agc_store::place::FIXED_WORDS;
use agc_symbols::{SymbolTable, push_nearby};
use std::alloc::{AllocError, Global};

/// What a word is that no rule of the language reads.
const UNREAD: &str = "no interpretive word";

/// A reader of consecutive words.
#[derive(Drop)]
pub(crate) struct Reader<'a> {
    store: &'a Store,
    names: &'a Option<SymbolTable>,
    /// The operands that are due.
    due: Pending,
    /// Whether EXIT was among the last operations.
    has_exit: bool,
    /// Whether no rule of the language reads the last word.
    is_unread: bool,
}

/// An operation with its name: of a general shift or a switch its operand decides it.
#[derive(Clone, Copy)]
struct Named {
    name: &'static str,
    is_indexed: bool,
    operation: Operation,
}

/// The operations of a word.
#[derive(Clone, Copy)]
struct Pair {
    left: Named,
    right: Option<Named>,
}

/// An operation as a text.
#[derive(Drop)]
pub struct OperationText {
    /// The operation, such as `DLOAD*`; a store with its cell, such as `STODL RATE`.
    pub name: String,
    /// The operands that have words behind it, each behind a blank; nothing without names of places.
    pub operands: String,
}

/// The operations of a word; a store is one.
#[derive(Drop)]
pub struct Operations {
    pub left: OperationText,
    pub right: Option<OperationText>,
}

/// Returns the operations of the word at a place, which is no operand. That of a word that no rule of the language reads says so.
pub fn operations_at(
    alloc: Global,
    store: &Store,
    names: &Option<SymbolTable>,
    place: usize,
) -> Result<Operations, AllocError> {
    let mut reader = Reader::new(store, names);
    let bits = reader.bits_at(place);
    if bits < 0o40000 {
        return reader.store_at(alloc, place, bits);
    }
    let behind = place.saturating_add(1);
    match reader.pair_at(place, bits) {
        Some(pair) => reader.texts_of(alloc, pair, behind),
        None => unread(alloc),
    }
}

/// Returns the text of a word that no rule of the language reads.
fn unread(alloc: Global) -> Result<Operations, AllocError> {
    let left = OperationText {
        name: String::from_str(alloc, UNREAD)?,
        operands: String::new(alloc),
    };
    Ok(Operations { left, right: None })
}

/// Returns a line for each word from the first place to the last: place, word, and what it is in the interpretive
/// language. The first word is a pair of operations or a store.
pub fn interpretive_lines(
    alloc: Global,
    store: &Store,
    names: &Option<SymbolTable>,
    first: usize,
    last: usize,
) -> Result<String, AllocError> {
    let mut text = String::new(alloc);
    let mut reader = Reader::new(store, names);
    for place in first..FIXED_WORDS as usize {
        if place > last {
            break;
        }
        reader.push_word(&mut text, place)?;
        text.push_str("\n")?;
    }
    Ok(text)
}

impl<'a> Reader<'a> {
    ghost use Rattle.std.specs.Prelude.{◌<◌};

    /// Returns a reader before a pair of operations or a store.
    pub(crate) fn new(store: &'a Store, names: &'a Option<SymbolTable>) -> Reader<'a> {
        Reader {
            store,
            names,
            due: Pending::NOTHING,
            has_exit: false,
            is_unread: false,
        }
    }

    /// Returns whether no rule of the language reads the last word.
    pub(crate) fn is_unread(&self) -> bool {
        self.is_unread
    }

    /// Returns whether EXIT was among the last operations.
    pub(crate) fn has_exit(&self) -> bool {
        self.has_exit
    }

    /// Returns whether the code ends before the word at a place: EXIT was among the last operations, and the word is none of
    /// their operands.
    pub(crate) fn has_ended(&self, place: usize) -> bool {
        self.has_exit
            && match self.due.first {
                None => true,
                Some(Due::Popped) => self.bits_at(place) >= 0o40000,
                Some(_) => false,
            }
    }

    /// Appends the place of a word, the word, and what it is.
    pub(crate) fn push_word(&mut self, text: &mut String, place: usize) -> Result<(), AllocError> {
        let bits = self.bits_at(place);
        push_rope_place(text, place)?;
        write!(text, " {bits:05o} ")?;
        self.is_unread = false;
        self.push_line(text, place, bits)
    }

    /// Returns the bits of the word at a place; 0 past fixed memory.
    fn bits_at(&self, place: usize) -> u16
        ensures { result < 0o100000 }
    {
        if place < FIXED_WORDS as usize {
            self.store.fixed_at(place).bits()
        } else {
            0
        }
    }

    /// Appends what the word at a place is.
    fn push_line(&mut self, text: &mut String, place: usize, bits: u16) -> Result<(), AllocError>
        requires { bits < 0o100000 }
    {
        match self.due.first {
            Some(Due::Popped) if bits >= 0o40000 => self.push_code(text, place, bits),
            Some(due) => {
                self.due = self.due.rest();
                self.push_operand(text, due, place, bits)
            }
            None if self.due.is_behind_stadr => self.push_store(text, 0o77777 - bits),
            None if bits < 0o40000 => self.push_store(text, bits),
            None => self.push_code(text, place, bits),
        }
    }

    /// Appends a pair of operations; behind STADR a word is a store all the same.
    fn push_code(&mut self, text: &mut String, place: usize, bits: u16) -> Result<(), AllocError>
        requires { bits < 0o100000 }
    {
        if self.due.is_behind_stadr {
            return self.push_store(text, 0o77777 - bits);
        }
        let Some(Pair { left, right }) = self.pair_at(place, bits) else {
            return self.push_unread(text);
        };
        self.has_exit = is_exit(left) || right.is_some_and(is_exit);
        push_name(text, left)?;
        match right {
            Some(right) => {
                self.due = Pending::behind(left.operation, Some(right.operation));
                text.push_str(" ")?;
                push_name(text, right)
            }
            None => {
                self.due = Pending::behind(left.operation, None);
                Ok(())
            }
        }
    }

    /// Returns the operations of a word at a place, or `None` if no rule of the language reads it.
    fn pair_at(&self, place: usize, bits: u16) -> Option<Pair>
        requires { bits < 0o100000 }
    {
        let (left, right) = pair_in(bits)?;
        let operand = place.saturating_add(1);
        let left = self.named(left, operand)?;
        let Some(code) = right else {
            return Some(Pair { left, right: None });
        };
        let behind = Pending::behind(left.operation, None);
        let right = self.named(code, operand.saturating_add(count_of(&behind)))?;
        let right = Some(right);
        Some(Pair { left, right })
    }

    /// Returns the text of a store at a place, with what it loads or calls.
    fn store_at(
        &mut self,
        alloc: Global,
        place: usize,
        bits: u16,
    ) -> Result<Operations, AllocError> {
        let mut name = String::new(alloc);
        self.push_store(&mut name, bits)?;
        let mut operands = String::new(alloc);
        let due = self.due.first;
        self.push_due(&mut operands, due, place.saturating_add(1))?;
        let left = OperationText { name, operands };
        Ok(Operations { left, right: None })
    }

    /// Returns the texts of a pair, whose operands begin at a place.
    fn texts_of(
        &mut self,
        alloc: Global,
        pair: Pair,
        first: usize,
    ) -> Result<Operations, AllocError> {
        let (left, behind) = self.text_of(alloc, pair.left, first)?;
        let Some(right) = pair.right else {
            return Ok(Operations { left, right: None });
        };
        let (right, _) = self.text_of(alloc, right, behind)?;
        let right = Some(right);
        Ok(Operations { left, right })
    }

    /// Returns the text of an operation whose operands begin at a place, and the place behind them.
    fn text_of(
        &mut self,
        alloc: Global,
        named: Named,
        first: usize,
    ) -> Result<(OperationText, usize), AllocError> {
        let mut name = String::new(alloc);
        push_name(&mut name, named)?;
        let mut operands = String::new(alloc);
        let due = Pending::behind(named.operation, None);
        let second = self.push_due(&mut operands, due.first, first)?;
        let behind = self.push_due(&mut operands, due.second, second)?;
        Ok((OperationText { name, operands }, behind))
    }

    /// Appends an operand, if there are names, whose word is at a place. Returns the place behind it: the same if none is due,
    /// or if it is popped.
    fn push_due(
        &mut self,
        text: &mut String,
        due: Option<Due>,
        place: usize,
    ) -> Result<usize, AllocError> {
        let Some(due) = due else {
            return Ok(place);
        };
        let bits = self.bits_at(place);
        if matches!(due, Due::Popped) && bits >= 0o40000 {
            return Ok(place);
        }
        if self.names.is_some() {
            text.push_str(" ")?;
            self.push_operand(text, due, place, bits)?;
        }
        Ok(place.saturating_add(1))
    }

    fn push_unread(&mut self, text: &mut String) -> Result<(), AllocError> {
        self.due = Pending::NOTHING;
        self.push_unread_operand(text)
    }

    fn push_unread_operand(&mut self, text: &mut String) -> Result<(), AllocError> {
        self.is_unread = true;
        text.push_str(UNREAD)
    }

    /// Returns the operation with a code, whose first operand is at a place.
    fn named(&self, code: u16, operand: usize) -> Option<Named> {
        let code = code % 0o200;
        let is_indexed = indexes(code);
        let bits = self.bits_at(operand);
        let name = match name_in(code) {
            "GSHIFT" => shift_name(shift_in(is_indexed, bits)?.0),
            "SW/" => switch_name(bits)?,
            name => name,
        };
        let operation = Operation::from_name(name.as_bytes())?;
        Some(Named {
            name,
            is_indexed,
            operation: Operation {
                code: operation.code,
                form: operation.form,
                is_indexed,
            },
        })
    }

    /// Appends a store with its cell.
    fn push_store(&mut self, text: &mut String, bits: u16) -> Result<(), AllocError> {
        let Some((store, cell)) = store_in(bits) else {
            return self.push_unread(text);
        };
        let (name, kind, is_indexed, index) = store_parts(store);
        self.due = Pending::behind(
            Operation {
                code: 0,
                form: Form::Store(kind),
                is_indexed,
            },
            None,
        );
        text.push_str(name)?;
        text.push_str(if is_indexed { "* " } else { " " })?;
        self.push_place(text, Place::Erasable(cell))?;
        push_index(text, index)
    }

    /// Appends an operand.
    fn push_operand(
        &mut self,
        text: &mut String,
        due: Due,
        place: usize,
        bits: u16,
    ) -> Result<(), AllocError>
        requires { bits < 0o100000 }
    {
        match due {
            Due::Popped => self.push_address(text, false, place, bits),
            Due::Address(is_indexed) => self.push_address(text, is_indexed, place, bits),
            Due::Shift(_, is_indexed) => match shift_in(is_indexed, bits) {
                Some((_, count, index)) => {
                    push_count(text, count)?;
                    push_index(text, index)
                }
                None => self.push_unread_operand(text),
            },
            Due::Constant if bits >= 0o40000 => write!(text, "-{:o}", 0o77777 - bits),
            Due::Constant => write!(text, "{bits:o}"),
            Due::Cell => self.push_place(text, cell_in(bits)),
            Due::Branch => self.push_place(text, branch_in(bits)),
            Due::Cadr => self.push_place(text, cadr_in(bits)),
            Due::Switch(_, _) => write!(text, "{:o}", switch_in(bits).2),
        }
    }

    fn push_address(
        &mut self,
        text: &mut String,
        is_indexed: bool,
        place: usize,
        bits: u16,
    ) -> Result<(), AllocError>
        requires { bits < 0o100000 }
    {
        let half = if place < 0o40000 { 0 } else { 0o40000 };
        match address_in(half, is_indexed, bits) {
            Some((place, index)) => {
                self.push_place(text, place)?;
                push_index(text, index)
            }
            None => self.push_unread_operand(text),
        }
    }

    /// Appends a place by its name, or as sources write it: a decimal offset that would be another octal one ends in D.
    fn push_place(&self, text: &mut String, place: Place) -> Result<(), AllocError> {
        let location = match place {
            Place::Erasable(cell) => Location::Erasable(u32::from(cell)),
            Place::Fixed(fixed) => Location::Fixed(u32::from(fixed)),
        };
        if let Some(names) = self.names {
            if let Some(near) = names.operand_at(location) {
                push_nearby(text, near)?;
                return text.push_str(if near.offset > 7 { "D" } else { "" });
            }
        }
        match place {
            Place::Erasable(cell) => write!(text, "{cell:o}"),
            Place::Fixed(fixed) => push_rope_place(text, usize::from(fixed)),
        }
    }
}

fn is_exit(named: Named) -> bool {
    named.name == "EXIT"
}

/// Returns how many operands are due.
fn count_of(due: &Pending) -> usize {
    usize::from(due.first.is_some())
        .saturating_add(usize::from(due.second.is_some()))
        .saturating_add(usize::from(due.third.is_some()))
        .saturating_add(usize::from(due.fourth.is_some()))
}

fn push_name(text: &mut String, named: Named) -> Result<(), AllocError> {
    text.push_str(named.name)?;
    if named.is_indexed {
        text.push_str("*")?;
    }
    Ok(())
}

fn push_index(text: &mut String, index: Index) -> Result<(), AllocError> {
    match index {
        Index::Direct => Ok(()),
        Index::X1 => text.push_str(",1"),
        Index::X2 => text.push_str(",2"),
    }
}

/// Appends the places of a shift; less than none as `0 -7`.
fn push_count(text: &mut String, count: Count) -> Result<(), AllocError> {
    let places = count.places;
    if count.minus {
        write!(text, "0 -{places:o}")
    } else {
        write!(text, "{places:o}")
    }
}

fn shift_name(kind: ShiftKind) -> &'static str {
    match kind {
        ShiftKind::Left => "SL",
        ShiftKind::Right => "SR",
        ShiftKind::LeftRounded => "SLR",
        ShiftKind::RightRounded => "SRR",
    }
}

/// Returns the name of an operation on a switch; nothing is kept and no branch taken by none.
fn switch_name(bits: u16) -> Option<&'static str> {
    if bits >= 0o100000 {
        return None;
    }
    let (action, when, _) = switch_in(bits);
    match (action, when) {
        (Action::Set, When::IfOn) => Some("BONSET"),
        (Action::Set, When::Always) => Some("SETGO"),
        (Action::Set, When::IfOff) => Some("BOFSET"),
        (Action::Set, When::Never) => Some("SET"),
        (Action::Invert, When::IfOn) => Some("BONINV"),
        (Action::Invert, When::Always) => Some("INVGO"),
        (Action::Invert, When::IfOff) => Some("BOFINV"),
        (Action::Invert, When::Never) => Some("INVERT"),
        (Action::Clear, When::IfOn) => Some("BONCLR"),
        (Action::Clear, When::Always) => Some("CLRGO"),
        (Action::Clear, When::IfOff) => Some("BOFCLR"),
        (Action::Clear, When::Never) => Some("CLEAR"),
        (Action::Keep, When::IfOn) => Some("BON"),
        (Action::Keep, When::IfOff) => Some("BOFF"),
        (Action::Keep, When::Always | When::Never) => None,
    }
}

/// Returns the name of a store, its kind, whether it indexes what it loads, and the index of its cell.
fn store_parts(store: StoreOrder) -> (&'static str, StoreKind, bool, Index) {
    match store {
        StoreOrder::Store => ("STORE", StoreKind::Store, false, Index::Direct),
        StoreOrder::StoreX1 => ("STORE", StoreKind::Store, false, Index::X1),
        StoreOrder::StoreX2 => ("STORE", StoreKind::Store, false, Index::X2),
        StoreOrder::Stodl => ("STODL", StoreKind::Stodl, false, Index::Direct),
        StoreOrder::StodlIndexed => ("STODL", StoreKind::Stodl, true, Index::Direct),
        StoreOrder::Stovl => ("STOVL", StoreKind::Stovl, false, Index::Direct),
        StoreOrder::StovlIndexed => ("STOVL", StoreKind::Stovl, true, Index::Direct),
        StoreOrder::Stcall => ("STCALL", StoreKind::Stcall, false, Index::Direct),
    }
}
