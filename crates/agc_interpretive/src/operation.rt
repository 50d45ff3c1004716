//! The table of operations by their names in a source.
ghost use Rattle.std.specs.Prelude.{◌≡◌, ◌<◌, IfSome};
ghost use Rattle.agc_interpretive.specs.Operation.{
  coded,
  operation_count,
  operation_of,
  own_name,
  row_at,
  row_has_name,
  row_place,
  synonym_at,
  synonym_count,
  synonym_has_name,
  synonym_place,
};

use crate::form::{Action, Form, Pops, ShiftKind, StoreKind, When};
use crate::table::{pair_in, row_in};

/// The number of operations.
const OPERATION_COUNT: usize = 114;

/// The number of other names.
const SYNONYM_COUNT: usize = 27;

/// Each operation: its name, its code, and its operands. The codes are from memory of the interpreter's jump tables, not
/// checked against a listing.
const OPERATIONS: [(&str, u8, Form); OPERATION_COUNT] = [
    ("VLOAD", 0o001, Form::Address(Pops::Vector)),
    ("TAD", 0o005, Form::Address(Pops::Triple)),
    ("SIGN", 0o011, Form::Address(Pops::Double)),
    ("VXSC", 0o015, Form::Address(Pops::OtherMode)),
    ("CGOTO", 0o021, Form::AddressCadr),
    ("TLOAD", 0o025, Form::Address(Pops::Triple)),
    ("DLOAD", 0o031, Form::Address(Pops::Double)),
    ("V/SC", 0o035, Form::Address(Pops::OtherMode)),
    ("SLOAD", 0o041, Form::Address(Pops::Mode)),
    ("SSP", 0o045, Form::AddressConstant),
    ("PDDL", 0o051, Form::Address(Pops::Mode)),
    ("MXV", 0o055, Form::Address(Pops::Mode)),
    ("PDVL", 0o061, Form::Address(Pops::Mode)),
    ("CCALL", 0o065, Form::AddressCadr),
    ("VXM", 0o071, Form::Address(Pops::Mode)),
    ("NORM", 0o075, Form::Address(Pops::Never)),
    ("DMPR", 0o101, Form::Address(Pops::Mode)),
    ("DDV", 0o105, Form::Address(Pops::Mode)),
    ("BDDV", 0o111, Form::Address(Pops::Mode)),
    ("SL", 0o115, Form::Shift(ShiftKind::Left)),
    ("SR", 0o115, Form::Shift(ShiftKind::Right)),
    ("SLR", 0o115, Form::Shift(ShiftKind::LeftRounded)),
    ("SRR", 0o115, Form::Shift(ShiftKind::RightRounded)),
    ("VAD", 0o121, Form::Address(Pops::Mode)),
    ("VSU", 0o125, Form::Address(Pops::Mode)),
    ("BVSU", 0o131, Form::Address(Pops::Mode)),
    ("DOT", 0o135, Form::Address(Pops::Mode)),
    ("VXV", 0o141, Form::Address(Pops::Mode)),
    ("VPROJ", 0o145, Form::Address(Pops::Mode)),
    ("DSU", 0o151, Form::Address(Pops::Mode)),
    ("BDSU", 0o155, Form::Address(Pops::Mode)),
    ("DAD", 0o161, Form::Address(Pops::Mode)),
    ("DMP", 0o171, Form::Address(Pops::Mode)),
    ("SETPD", 0o175, Form::DirectAddress),
    ("EXIT", 0o000, Form::Bare),
    ("SQRT", 0o010, Form::Bare),
    ("SINE", 0o020, Form::Bare),
    ("COSINE", 0o030, Form::Bare),
    ("ARCSIN", 0o040, Form::Bare),
    ("ARCCOS", 0o050, Form::Bare),
    ("DSQ", 0o060, Form::Bare),
    ("ROUND", 0o070, Form::Bare),
    ("DCOMP", 0o100, Form::Bare),
    ("VDEF", 0o110, Form::Bare),
    ("UNIT", 0o120, Form::Bare),
    ("ABVAL", 0o130, Form::Bare),
    ("VSQ", 0o140, Form::Bare),
    ("STADR", 0o150, Form::Bare),
    ("RVQ", 0o160, Form::Bare),
    ("PUSH", 0o170, Form::Bare),
    ("SL1R", 0o004, Form::Bare),
    ("SR1R", 0o014, Form::Bare),
    ("SL1", 0o024, Form::Bare),
    ("SR1", 0o034, Form::Bare),
    ("SL2R", 0o044, Form::Bare),
    ("SR2R", 0o054, Form::Bare),
    ("SL2", 0o064, Form::Bare),
    ("SR2", 0o074, Form::Bare),
    ("SL3R", 0o104, Form::Bare),
    ("SR3R", 0o114, Form::Bare),
    ("SL3", 0o124, Form::Bare),
    ("SR3", 0o134, Form::Bare),
    ("SL4R", 0o144, Form::Bare),
    ("SR4R", 0o154, Form::Bare),
    ("SL4", 0o164, Form::Bare),
    ("SR4", 0o174, Form::Bare),
    ("AXT,2", 0o002, Form::Constant),
    ("AXT,1", 0o006, Form::Constant),
    ("AXC,2", 0o012, Form::Constant),
    ("AXC,1", 0o016, Form::Constant),
    ("LXA,2", 0o022, Form::Erasable),
    ("LXA,1", 0o026, Form::Erasable),
    ("LXC,2", 0o032, Form::Erasable),
    ("LXC,1", 0o036, Form::Erasable),
    ("SXA,2", 0o042, Form::Erasable),
    ("SXA,1", 0o046, Form::Erasable),
    ("XCHX,2", 0o052, Form::Erasable),
    ("XCHX,1", 0o056, Form::Erasable),
    ("INCR,2", 0o062, Form::Constant),
    ("INCR,1", 0o066, Form::Constant),
    ("TIX,2", 0o072, Form::Branch),
    ("TIX,1", 0o076, Form::Branch),
    ("XAD,2", 0o102, Form::Erasable),
    ("XAD,1", 0o106, Form::Erasable),
    ("XSU,2", 0o112, Form::Erasable),
    ("XSU,1", 0o116, Form::Erasable),
    ("BZE", 0o122, Form::Branch),
    ("GOTO", 0o126, Form::Branch),
    ("BPL", 0o132, Form::Branch),
    ("BMN", 0o136, Form::Branch),
    ("RTB", 0o142, Form::Cadr),
    ("BHIZ", 0o146, Form::Branch),
    ("CALL", 0o152, Form::Branch),
    ("STQ", 0o156, Form::Erasable),
    ("BONSET", 0o162, Form::Switch(Action::Set, When::IfOn)),
    ("SETGO", 0o162, Form::Switch(Action::Set, When::Always)),
    ("BOFSET", 0o162, Form::Switch(Action::Set, When::IfOff)),
    ("SET", 0o162, Form::Switch(Action::Set, When::Never)),
    ("BONINV", 0o162, Form::Switch(Action::Invert, When::IfOn)),
    ("INVGO", 0o162, Form::Switch(Action::Invert, When::Always)),
    ("BOFINV", 0o162, Form::Switch(Action::Invert, When::IfOff)),
    ("INVERT", 0o162, Form::Switch(Action::Invert, When::Never)),
    ("BONCLR", 0o162, Form::Switch(Action::Clear, When::IfOn)),
    ("CLRGO", 0o162, Form::Switch(Action::Clear, When::Always)),
    ("BOFCLR", 0o162, Form::Switch(Action::Clear, When::IfOff)),
    ("CLEAR", 0o162, Form::Switch(Action::Clear, When::Never)),
    ("BON", 0o162, Form::Switch(Action::Keep, When::IfOn)),
    ("BOFF", 0o162, Form::Switch(Action::Keep, When::IfOff)),
    ("BOVB", 0o172, Form::Cadr),
    ("BOV", 0o176, Form::Branch),
    ("STORE", 0o000, Form::Store(StoreKind::Store)),
    ("STODL", 0o000, Form::Store(StoreKind::Stodl)),
    ("STOVL", 0o000, Form::Store(StoreKind::Stovl)),
    ("STCALL", 0o000, Form::Store(StoreKind::Stcall)),
];

/// Other names of operations, each with the name in the table: a short shift of a vector has the code of a scalar's.
const SYNONYMS: [(&str, &str); SYNONYM_COUNT] = [
    ("SIN", "SINE"),
    ("COS", "COSINE"),
    ("ASIN", "ARCSIN"),
    ("ACOS", "ARCCOS"),
    ("VCOMP", "DCOMP"),
    ("ABS", "ABVAL"),
    ("ITCQ", "RVQ"),
    ("CALRB", "CALL"),
    ("ITA", "STQ"),
    ("VSL", "SL"),
    ("VSR", "SR"),
    ("VSL1", "SL1R"),
    ("VSR1", "SR1R"),
    ("VSL2", "SL1"),
    ("VSR2", "SR1"),
    ("VSL3", "SL2R"),
    ("VSR3", "SR2R"),
    ("VSL4", "SL2"),
    ("VSR4", "SR2"),
    ("VSL5", "SL3R"),
    ("VSR5", "SR3R"),
    ("VSL6", "SL3"),
    ("VSR6", "SR3"),
    ("VSL7", "SL4R"),
    ("VSR7", "SR4R"),
    ("VSL8", "SL4"),
    ("VSR8", "SR4"),
];

/// An operation as a source names it.
#[derive(Clone, Copy)]
pub struct Operation {
    /// Its seven-bit code without `*`, which adds 2.
    pub code: u8,
    /// Its operands.
    pub form: Form,
    /// Whether its name ends in `*`: its first operand is indexed.
    pub is_indexed: bool,
}

impl Operation {
    ghost use Rattle.std.specs.Prelude.{◌≡◌};
    ghost use Rattle.agc_interpretive.specs.Operation.{operation_named};

    /// Returns the operation with this name; `None` also for `*` behind one that is never indexed.
    #[tactic(auto, unfolding(crate::specs::Operation::operation_named))]
    pub fn from_name(name: &[u8]) -> Option<Operation>
        ensures { result ≡ operation_named name.now }
    {
        match name {
            [stem @ .., b'*'] => operation_of(own_name(stem), true),
            _ => operation_of(own_name(name), false),
        }
    }
}

/// Returns the operation of the row with this name, if it may be written so.
fn operation_of(name: &[u8], is_indexed: bool) -> Option<Operation>
    ensures { result ≡ operation_of name.now is_indexed }
{
    let (_, code, form) = row_at(row_place(name)?);
    coded(code, form, is_indexed)
}

fn coded(code: u8, form: Form, is_indexed: bool) -> Option<Operation>
    ensures { result ≡ coded code form is_indexed }
{
    if is_indexed && !form.can_be_indexed() {
        return None;
    }
    Some(Operation {
        code,
        form,
        is_indexed,
    })
}

/// Returns the place of the row with this name.
#[tactic(auto, unfolding(crate::specs::Operation::row_place))]
fn row_place(name: &[u8]) -> Option<usize>
    ensures place { result ≡ row_place name.now }
    ensures range { IfSome result (λ place. place < operation_count) }
{
    (0..OPERATION_COUNT).find(|place| row_has_name(name, *place))
}

fn row_has_name(name: &[u8], place: usize) -> bool
    ensures { result ≡ row_has_name name.now place }
{
    place < OPERATION_COUNT && row_at(place).0.as_bytes() == name
}

/// Returns a row of the table.
fn row_at(place: usize) -> (&'static str, u8, Form)
    requires { place < operation_count }
    ensures name { result.0.now ≡ (row_at place).name }
    ensures code { result.1 ≡ (row_at place).code }
    ensures form { result.2 ≡ (row_at place).form }
{
    row_in(&OPERATIONS, place)
}

/// Returns the name in the table for a name in a source.
fn own_name(name: &[u8]) -> &[u8]
    ensures { result.now ≡ own_name name.now }
{
    match synonym_place(name) {
        Some(place) => synonym_at(place).1.as_bytes(),
        None => name,
    }
}

/// Returns the place of this other name.
#[tactic(auto, unfolding(crate::specs::Operation::synonym_place))]
fn synonym_place(name: &[u8]) -> Option<usize>
    ensures place { result ≡ synonym_place name.now }
    ensures range { IfSome result (λ place. place < synonym_count) }
{
    (0..SYNONYM_COUNT).find(|place| synonym_has_name(name, *place))
}

fn synonym_has_name(name: &[u8], place: usize) -> bool
    ensures { result ≡ synonym_has_name name.now place }
{
    place < SYNONYM_COUNT && synonym_at(place).0.as_bytes() == name
}

fn synonym_at(place: usize) -> (&'static str, &'static str)
    requires { place < synonym_count }
    ensures name { result.0.now ≡ (synonym_at place).0 }
    ensures own { result.1.now ≡ (synonym_at place).1 }
{
    pair_in(&SYNONYMS, place)
}
