//! The forms of operations: which operands follow, and what an operation pops without one.

/// What a missing operand pops from the push-down list. From memory, not checked.
#[derive(Clone, Copy)]
pub enum Pops {
    /// The operand is never left out.
    Never,
    /// Two words.
    Double,
    /// Three words.
    Triple,
    /// Six words.
    Vector,
    /// Two words in vector mode, else six.
    OtherMode,
    /// As MODE says: two, three or six words.
    Mode,
}

/// The kinds of general shifts: bits 10 and 9 of their operand word.
#[derive(Clone, Copy, Debug, PartialEq, Eq)]
pub enum ShiftKind {
    /// SL, VSL.
    Left,
    /// SR, VSR.
    Right,
    /// SLR.
    LeftRounded,
    /// SRR.
    RightRounded,
}

/// What an operation does with its switch: bits 8 and 7 of its operand word.
#[derive(Clone, Copy, Debug, PartialEq, Eq)]
pub enum Action {
    Set,
    Invert,
    Clear,
    Keep,
}

/// When an operation on a switch branches, by the switch as it was: bits 6 and 5 of its operand word.
#[derive(Clone, Copy, Debug, PartialEq, Eq)]
pub enum When {
    IfOn,
    Always,
    IfOff,
    Never,
}

/// The stores by name, and what follows their cell.
#[derive(Clone, Copy)]
pub enum StoreKind {
    /// Nothing.
    Store,
    /// An address, which is loaded; left out, it pops two words.
    Stodl,
    /// An address, which is loaded; left out, it pops six words.
    Stovl,
    /// The place of a call.
    Stcall,
}

/// The operands of an operation.
#[derive(Clone, Copy)]
pub enum Form {
    /// No operand.
    Bare,
    /// An address, with `*` indexed. Left out, it pops from the push-down list.
    Address(Pops),
    /// An address, with `*` indexed, and a constant: SSP.
    AddressConstant,
    /// An address, with `*` indexed, and the place of a list of CADRs: CGOTO, CCALL.
    AddressCadr,
    /// An address that is never indexed: SETPD.
    DirectAddress,
    /// The places of a general shift, with `*` indexed.
    Shift(ShiftKind),
    /// A constant: AXT, AXC, INCR.
    Constant,
    /// An address in erasable memory.
    Erasable,
    /// The place of a branch, or a cell that has it.
    Branch,
    /// A place in fixed memory.
    Cadr,
    /// A switch, and the place of the branch unless it never branches.
    Switch(Action, When),
    /// A store, with a cell on its own line.
    Store(StoreKind),
}

impl Form {
    ghost use Rattle.std.specs.Prelude.{◌≡◌};
    ghost use Rattle.agc_interpretive.specs.Operation.{can_be_indexed};

    /// Returns whether `*` may follow the name.
    pub fn can_be_indexed(self) -> bool
        ensures { result ≡ can_be_indexed self }
    {
        matches!(
            self,
            Form::Address(_)
                | Form::AddressConstant
                | Form::AddressCadr
                | Form::Shift(_)
                | Form::Store(StoreKind::Stodl | StoreKind::Stovl)
        )
    }
}
