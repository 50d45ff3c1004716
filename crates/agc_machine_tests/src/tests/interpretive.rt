//! Tests of interpretive words that were worked out by hand, from remembered listings and from the interpreter's steps.
use super::equal_at;
use agc_interpretive::{
    Action, Count, Due, Fault, Index, Operation, Pending, Place, Value, When, indexes, name_in,
    operand_word, pair_in,
};

fn number(places: u16) -> Value {
    Value::Number(Count {
        minus: false,
        places,
    })
}

fn minus(places: u16) -> Value {
    Value::Number(Count {
        minus: true,
        places,
    })
}

fn cell(cell: u16) -> Value {
    Value::At(Place::Erasable(cell))
}

fn fixed(fixed: u16) -> Value {
    Value::At(Place::Fixed(fixed))
}

/// The operations of a line; `""` for no right one.
fn operations(left: &str, right: &str) -> Result<(Operation, Option<Operation>), Fault> {
    let Some(left) = Operation::from_name(left.as_bytes()) else {
        return Err(Fault::BadPair);
    };
    if right.is_empty() {
        return Ok((left, None));
    }
    match Operation::from_name(right.as_bytes()) {
        Some(right) => Ok((left, Some(right))),
        None => Err(Fault::BadPair),
    }
}

/// Returns what is due behind a line of operations.
fn behind(left: &str, right: &str) -> Result<Pending, Fault> {
    let (left, right) = operations(left, right)?;
    Ok(Pending::behind(left, right))
}

fn pair(left: &str, right: &str) -> Result<u16, Fault> {
    let (left, right) = operations(left, right)?;
    Pending::pair_line(left, right)
}

/// Returns the word of an operand behind an operation, in bank 04.
fn operand(name: &str, value: Value, index: Index) -> Result<u16, Fault> {
    behind(name, "")?.operand_line(0o10000, value, index)
}

/// Remembered words of listings.
static PAIRS: [(&str, &str, u16); 22] = [
    ("EXIT", "", 0o77776),
    ("VLOAD", "", 0o77775),
    ("DLOAD", "", 0o77745),
    ("CALL", "", 0o77624),
    ("GOTO", "", 0o77650),
    ("RVQ", "", 0o77616),
    ("RTB", "", 0o77634),
    ("UNIT", "", 0o77656),
    ("STQ", "", 0o77620),
    ("SET", "", 0o77614),
    ("DLOAD", "DSU", 0o45345),
    ("DLOAD", "DMP", 0o41345),
    ("DLOAD", "DAD", 0o43345),
    ("VLOAD", "VXV", 0o47375),
    ("SR1", "PDDL", 0o65342),
    ("CLEAR", "CLEAR", 0o43014),
    ("VSR8", "", 0o77602),
    ("VSL2", "", 0o77752),
    ("DLOAD*", "", 0o77743),
    ("SETPD", "", 0o77601),
    ("BOV", "BOV", 0o40000),
    ("SL*", "ABS", 0o51457),
];

#[test]
fn pairs_have_the_remembered_words(rt: HostRuntime) {
    for (left, right, word) in &PAIRS {
        equal_at(&rt, left, pair(left, right), Ok(*word));
    }
}

/// Operands in bank 04: of an address, a shift, a switch, a branch, an index register and a constant.
#[test]
fn operands_have_their_words(rt: HostRuntime) {
    for (name, value, index, word) in [
        ("DLOAD", number(0), Index::Direct, Ok(0o00001)),
        ("DLOAD", number(38), Index::Direct, Ok(0o00047)),
        ("DLOAD*", cell(0o3774), Index::X1, Ok(0o03775)),
        ("DLOAD*", cell(0o3774), Index::X2, Ok(0o74002)),
        ("VLOAD", fixed(0o24100), Index::Direct, Ok(0o24101)),
        ("VLOAD", fixed(0o37777), Index::Direct, Err(Fault::LastWord)),
        (
            "DLOAD",
            fixed(0o44000),
            Index::Direct,
            Err(Fault::OtherHalf),
        ),
        (
            "DLOAD",
            fixed(0o03000),
            Index::Direct,
            Err(Fault::UnreachedBank),
        ),
        (
            "DLOAD",
            fixed(0o110000),
            Index::Direct,
            Err(Fault::OutOfReach),
        ),
        ("DLOAD", minus(1), Index::Direct, Err(Fault::OutOfReach)),
        ("DLOAD", number(1), Index::X1, Err(Fault::BadIndex)),
        ("DLOAD*", number(1), Index::Direct, Err(Fault::BadIndex)),
        ("SL", number(5), Index::Direct, Ok(0o20206)),
        ("SR", number(14), Index::Direct, Ok(0o20617)),
        ("SLR", number(9), Index::Direct, Ok(0o21212)),
        ("SRR", number(0), Index::Direct, Ok(0o21601)),
        ("VSL*", minus(7), Index::X2, Ok(0o57605)),
        ("SR", minus(1), Index::Direct, Err(Fault::BadNumber)),
        ("SL", number(128), Index::Direct, Err(Fault::BadNumber)),
        ("BON", number(20), Index::Direct, Ok(0o00705)),
        ("SET", number(0), Index::Direct, Ok(0o00060)),
        ("CLEAR", cell(15), Index::Direct, Ok(0o00660)),
        ("BOFF", number(14), Index::Direct, Ok(0o00356)),
        ("BON", number(960), Index::Direct, Err(Fault::BadNumber)),
        ("GOTO", fixed(0o104000), Index::Direct, Ok(0o64000)),
        (
            "GOTO",
            fixed(0o02000),
            Index::Direct,
            Err(Fault::UnreachedBank),
        ),
        ("GOTO", number(0o100), Index::Direct, Ok(0o00100)),
        ("RTB", fixed(0o02000), Index::Direct, Ok(0o02000)),
        ("RTB", number(5), Index::Direct, Err(Fault::FixedWanted)),
        ("LXA,1", cell(0o1400), Index::Direct, Ok(0o01400)),
        (
            "STQ",
            fixed(0o10000),
            Index::Direct,
            Err(Fault::ErasableWanted),
        ),
        ("AXT,2", minus(5), Index::Direct, Ok(0o77772)),
        (
            "INCR,1",
            number(0o100000),
            Index::Direct,
            Err(Fault::BadNumber),
        ),
    ] {
        equal_at(&rt, name, operand(name, value, index), word);
    }
}

#[test]
fn codes_are_decoded(rt: HostRuntime) {
    equal_at(
        &rt,
        "DLOAD DSU",
        pair_in(0o45345),
        Some((0o031, Some(0o151))),
    );
    equal_at(&rt, "EXIT", pair_in(0o77776), Some((0, None)));
    equal_at(&rt, "-0", pair_in(0o77777), None);
    equal_at(&rt, "a store", pair_in(0o37777), None);
    equal_at(
        &rt,
        "DLOAD*",
        (name_in(0o033), indexes(0o033)),
        ("DLOAD", true),
    );
    equal_at(
        &rt,
        "BOVB",
        (name_in(0o172), indexes(0o172)),
        ("BOVB", false),
    );
    equal_at(&rt, "a free code", name_in(0o166), "");
}

/// Code in bank 20 reaches banks 22 to 37, and the superbank's 42 as 32.
#[test]
fn high_code_reaches_the_high_half(rt: HostRuntime) {
    for (place, word) in [
        (0o44000, Ok(0o04001)),
        (0o104000, Ok(0o24001)),
        (0o24000, Err(Fault::OtherHalf)),
        (0o42000, Err(Fault::UnreachedBank)),
    ] {
        let found = operand_word(Due::Popped, 0o40000, fixed(place), Index::Direct);
        equal_at(&rt, "bank 20", found, word);
    }
}

/// Returns the word of a store in cell 100.
fn store(pending: &Pending, name: &str, index: Index) -> Result<u16, Fault> {
    let Some(store) = Operation::from_name(name.as_bytes()) else {
        return Err(Fault::BadPair);
    };
    pending.store_line(store, number(0o100), index)
}

#[test]
fn stores_have_their_words(rt: HostRuntime) {
    for (name, index, word) in [
        ("STORE", Index::Direct, Ok(0o00101)),
        ("STORE", Index::X1, Ok(0o04101)),
        ("STORE", Index::X2, Ok(0o10101)),
        ("STODL", Index::Direct, Ok(0o14101)),
        ("STODL*", Index::Direct, Ok(0o20101)),
        ("STOVL", Index::Direct, Ok(0o24101)),
        ("STOVL*", Index::Direct, Ok(0o30101)),
        ("STCALL", Index::Direct, Ok(0o34101)),
        ("STCALL", Index::X1, Err(Fault::BadIndex)),
    ] {
        equal_at(&rt, name, store(&Pending::NOTHING, name, index), word);
    }
    let found = behind("DAD", "STADR").map(|pending| store(&pending, "STODL", Index::Direct));
    equal_at(&rt, "behind STADR", found, Ok(Ok(0o63676)));
}

/// What is left out behind a line: before a line of operations, and before a store.
#[test]
fn operands_are_left_out_where_nothing_follows(rt: HostRuntime) {
    for (left, right, before_pair, before_store) in [
        ("DAD", "DMP", None, Some(Fault::NoStadr)),
        ("DAD", "STADR", Some(Fault::StoreWanted), None),
        ("UNIT", "", None, None),
        ("DMP", "SL", Some(Fault::TooFew), Some(Fault::TooFew)),
        ("NORM", "", Some(Fault::NoPushUp), Some(Fault::NoPushUp)),
        ("DLOAD*", "", Some(Fault::NoPushUp), Some(Fault::NoPushUp)),
        ("DLOAD", "CALL", Some(Fault::TooFew), Some(Fault::TooFew)),
    ] {
        let found = behind(left, right).map(|due| (
            due.fault_at_end(false),
            due.fault_at_end(true),
        ));
        equal_at(&rt, left, found, Ok((before_pair, before_store)));
    }
}

/// The operands of the left operation come first, and a store is no right operation.
#[test]
fn operands_are_due_in_order(rt: HostRuntime) {
    let found = behind("BON", "SSP").map(|due| (due.first, due.rest().first, due.rest().rest()));
    let last = Pending {
        first: Some(Due::Address(false)),
        second: Some(Due::Constant),
        third: None,
        fourth: None,
        is_behind_stadr: false,
    };
    let wanted = (
        Some(Due::Switch(Action::Keep, When::IfOn)),
        Some(Due::Branch),
        last,
    );
    equal_at(&rt, "BON SSP", found, Ok(wanted));
    equal_at(&rt, "a store", pair("DLOAD", "STORE"), Err(Fault::BadPair));
    equal_at(
        &rt,
        "nothing due",
        Pending::NOTHING.operand_line(0, number(1), Index::Direct),
        Err(Fault::TooMany),
    );
}

/// A line is an operand behind DLOAD if its first word is at column 24 or no operation.
#[test]
fn operand_lines_are_recognised(rt: HostRuntime) {
    for (left, column, word, is_basic, takes) in [
        ("DLOAD", 24, "DLOAD", false, true),
        ("DLOAD", 23, "DLOAD", false, false),
        ("DLOAD", 16, "X", false, true),
        ("DLOAD", 16, "CA", true, false),
        ("DLOAD", 16, "STORE", false, false),
        ("UNIT", 24, "X", false, false),
    ] {
        let found = behind(left, "").map(|due| due.takes_line(column, word.as_bytes(), is_basic));
        equal_at(&rt, word, found, Ok(takes));
    }
}
