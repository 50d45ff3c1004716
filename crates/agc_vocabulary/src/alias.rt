//! Other names of orders, as listings use them: some stand for an order with an operand.
ghost use Rattle.std.specs.Prelude.{◌≡◌, option_map};
ghost use Rattle.agc_vocabulary.specs.Body.{alias_name, alias_named, alias_operand, alias_order};

/// Another name of an order.
#[derive(Clone, Copy, PartialEq, Eq)]
pub enum Alias {
    /// CA of a name in fixed memory, or of a number.
    Caf,
    /// CA of a name in erasable memory, or of a number.
    Cae,
    /// TC.
    Tcr,
    /// INDEX.
    Ndx,
    /// MASK.
    Msk,
    /// TCF to the next place.
    Noop,
    /// TS A.
    Ovsk,
    /// TC Q.
    Return,
    /// TC A.
    Xxalq,
    /// TC L.
    Xlq,
    /// TS Z.
    Tcaa,
    /// DXCH Z.
    Dtcb,
    /// DXCH FB.
    Dtcf,
    /// LXCH ZERO.
    Zl,
    /// QXCH ZERO.
    Zq,
    /// CS A.
    Com,
    /// DCS A.
    Dcom,
    /// AD A.
    Double,
    /// DAS A.
    Ddoubl,
    /// MP A.
    Square,
}

impl Alias {
    /// Every alias, once.
    pub const ALL: [Alias; 20] = [
        Alias::Caf,
        Alias::Cae,
        Alias::Tcr,
        Alias::Ndx,
        Alias::Msk,
        Alias::Noop,
        Alias::Ovsk,
        Alias::Return,
        Alias::Xxalq,
        Alias::Xlq,
        Alias::Tcaa,
        Alias::Dtcb,
        Alias::Dtcf,
        Alias::Zl,
        Alias::Zq,
        Alias::Com,
        Alias::Dcom,
        Alias::Double,
        Alias::Ddoubl,
        Alias::Square,
    ];

    /// Returns the alias with this name.
    #[tactic(auto, unfolding(crate::specs::Body::alias_named, crate::specs::Body::all_aliases))]
    pub fn from_name(name: &[u8]) -> Option<Alias>
        ensures { result ≡ alias_named name.now }
    {
        Alias::ALL
            .iter()
            .copied()
            .find(|alias| alias.name().as_bytes() == name)
    }

    #[tactic(auto, unfolding(crate::specs::Body::alias_name))]
    pub fn name(self) -> &'static str
        ensures { result.now ≡ alias_name self }
    {
        match self {
            Alias::Caf => "CAF",
            Alias::Cae => "CAE",
            Alias::Tcr => "TCR",
            Alias::Ndx => "NDX",
            Alias::Msk => "MSK",
            Alias::Noop => "NOOP",
            Alias::Ovsk => "OVSK",
            Alias::Return => "RETURN",
            Alias::Xxalq => "XXALQ",
            Alias::Xlq => "XLQ",
            Alias::Tcaa => "TCAA",
            Alias::Dtcb => "DTCB",
            Alias::Dtcf => "DTCF",
            Alias::Zl => "ZL",
            Alias::Zq => "ZQ",
            Alias::Com => "COM",
            Alias::Dcom => "DCOM",
            Alias::Double => "DOUBLE",
            Alias::Ddoubl => "DDOUBL",
            Alias::Square => "SQUARE",
        }
    }

    /// Returns the order's own mnemonic.
    #[tactic(auto, unfolding(crate::specs::Body::alias_order))]
    pub fn order(self) -> &'static str
        ensures { result.now ≡ alias_order self }
    {
        match self {
            Alias::Caf | Alias::Cae => "CA",
            Alias::Tcr | Alias::Return | Alias::Xxalq | Alias::Xlq => "TC",
            Alias::Ndx => "INDEX",
            Alias::Msk => "MASK",
            Alias::Noop => "TCF",
            Alias::Ovsk | Alias::Tcaa => "TS",
            Alias::Dtcb | Alias::Dtcf => "DXCH",
            Alias::Zl => "LXCH",
            Alias::Zq => "QXCH",
            Alias::Com => "CS",
            Alias::Dcom => "DCS",
            Alias::Double => "AD",
            Alias::Ddoubl => "DAS",
            Alias::Square => "MP",
        }
    }

    /// Returns the operand that it has without one in the source.
    #[tactic(auto, unfolding(crate::specs::Body::alias_operand))]
    pub fn operand(self) -> Option<&'static str>
        ensures { option_map (λ text. text.now) result ≡ alias_operand self }
    {
        match self {
            Alias::Caf | Alias::Cae | Alias::Tcr | Alias::Ndx | Alias::Msk => None,
            Alias::Noop => Some("+1"),
            Alias::Ovsk
            | Alias::Xxalq
            | Alias::Com
            | Alias::Dcom
            | Alias::Double
            | Alias::Ddoubl
            | Alias::Square => Some("0"),
            Alias::Xlq => Some("1"),
            Alias::Return => Some("2"),
            Alias::Dtcf => Some("4"),
            Alias::Tcaa | Alias::Dtcb => Some("5"),
            Alias::Zl | Alias::Zq => Some("7"),
        }
    }
}
