//! The computer's own names for cells: registers, editing registers and counters.
ghost use Rattle.std.specs.Prelude.{◌≡◌, ◌<◌};
ghost use Rattle.agc_store.specs.Places.{erasable_cells};
ghost use Rattle.agc_symbols.specs.Register.{is_short, register_cell, register_name, register_named};

use agc_store::place;

/// A name of the computer's own for a cell. The registers of the banks have two, such as EBANK and EB.
#[derive(Clone, Copy, Debug, PartialEq, Eq)]
pub enum Register {
    A,
    L,
    Q,
    Eb,
    Ebank,
    Fb,
    Fbank,
    Z,
    Bb,
    Bbank,
    Zero,
    Arupt,
    Lrupt,
    Qrupt,
    Zrupt,
    Bbrupt,
    Brupt,
    Cyr,
    Sr,
    Cyl,
    Edop,
    Time2,
    Time1,
    Time3,
    Time4,
    Time5,
    Time6,
    Cdux,
    Cduy,
    Cduz,
    Pipax,
    Pipay,
    Pipaz,
    Inlink,
    Rnrad,
}

impl Register {
    /// Every name, once.
    pub const ALL: [Register; 35] = [
        Register::A,
        Register::L,
        Register::Q,
        Register::Eb,
        Register::Ebank,
        Register::Fb,
        Register::Fbank,
        Register::Z,
        Register::Bb,
        Register::Bbank,
        Register::Zero,
        Register::Arupt,
        Register::Lrupt,
        Register::Qrupt,
        Register::Zrupt,
        Register::Bbrupt,
        Register::Brupt,
        Register::Cyr,
        Register::Sr,
        Register::Cyl,
        Register::Edop,
        Register::Time2,
        Register::Time1,
        Register::Time3,
        Register::Time4,
        Register::Time5,
        Register::Time6,
        Register::Cdux,
        Register::Cduy,
        Register::Cduz,
        Register::Pipax,
        Register::Pipay,
        Register::Pipaz,
        Register::Inlink,
        Register::Rnrad,
    ];

    /// Returns the register, editing register or counter with this name.
    #[tactic(auto, unfolding(crate::specs::Register::register_named, crate::specs::Register::all_registers))]
    pub fn from_name(name: &[u8]) -> Option<Register>
        ensures { result ≡ register_named name.now }
    {
        Register::ALL
            .iter()
            .copied()
            .find(|register| register.name().as_bytes() == name)
    }

    /// Returns the name, in capitals.
    #[tactic(auto, unfolding(crate::specs::Register::register_name))]
    pub fn name(self) -> &'static str
        ensures { result.now ≡ register_name self }
    {
        match self {
            Register::A => "A",
            Register::L => "L",
            Register::Q => "Q",
            Register::Eb => "EB",
            Register::Ebank => "EBANK",
            Register::Fb => "FB",
            Register::Fbank => "FBANK",
            Register::Z => "Z",
            Register::Bb => "BB",
            Register::Bbank => "BBANK",
            Register::Zero => "ZERO",
            Register::Arupt => "ARUPT",
            Register::Lrupt => "LRUPT",
            Register::Qrupt => "QRUPT",
            Register::Zrupt => "ZRUPT",
            Register::Bbrupt => "BBRUPT",
            Register::Brupt => "BRUPT",
            Register::Cyr => "CYR",
            Register::Sr => "SR",
            Register::Cyl => "CYL",
            Register::Edop => "EDOP",
            Register::Time2 => "TIME2",
            Register::Time1 => "TIME1",
            Register::Time3 => "TIME3",
            Register::Time4 => "TIME4",
            Register::Time5 => "TIME5",
            Register::Time6 => "TIME6",
            Register::Cdux => "CDUX",
            Register::Cduy => "CDUY",
            Register::Cduz => "CDUZ",
            Register::Pipax => "PIPAX",
            Register::Pipay => "PIPAY",
            Register::Pipaz => "PIPAZ",
            Register::Inlink => "INLINK",
            Register::Rnrad => "RNRAD",
        }
    }

    /// Returns whether the name is a short one, EB, FB or BB: sources have only the long ones.
    pub fn is_short(self) -> bool
        ensures { result ≡ is_short self }
    {
        matches!(self, Register::Eb | Register::Fb | Register::Bb)
    }

    /// Returns the address of the cell in erasable memory.
    #[tactic(auto, unfolding(crate::specs::Register::register_cell))]
    pub fn cell(self) -> u32
        ensures cell { result ≡ register_cell self }
        ensures range { result < erasable_cells }
    {
        u32::from(match self {
            Register::A => place::A,
            Register::L => place::L,
            Register::Q => place::Q,
            Register::Eb => place::EB,
            Register::Ebank => place::EB,
            Register::Fb => place::FB,
            Register::Fbank => place::FB,
            Register::Z => place::Z,
            Register::Bb => place::BB,
            Register::Bbank => place::BB,
            Register::Zero => place::ZERO,
            Register::Arupt => 0o10,
            Register::Lrupt => 0o11,
            Register::Qrupt => 0o12,
            Register::Zrupt => place::ZRUPT,
            Register::Bbrupt => 0o16,
            Register::Brupt => place::BRUPT,
            Register::Cyr => place::CYR,
            Register::Sr => place::SR,
            Register::Cyl => place::CYL,
            Register::Edop => place::EDOP,
            Register::Time2 => place::TIME2,
            Register::Time1 => place::TIME1,
            Register::Time3 => place::TIME3,
            Register::Time4 => place::TIME4,
            Register::Time5 => place::TIME5,
            Register::Time6 => place::TIME6,
            Register::Cdux => 0o32,
            Register::Cduy => 0o33,
            Register::Cduz => 0o34,
            Register::Pipax => 0o37,
            Register::Pipay => 0o40,
            Register::Pipaz => 0o41,
            Register::Inlink => place::INLINK,
            Register::Rnrad => 0o46,
        })
    }
}
