//! The mnemonics of orders and directives.
ghost use Rattle.std.specs.Prelude.{◌≡◌};
ghost use Rattle.agc_vocabulary.specs.Mnemonic.{
  basic_named,
  directive_name,
  directive_named,
  extracode_named,
  is_order,
};

use agc_order::{Basic, Extracode};

/// A directive: a line that is not an order.
#[derive(Clone, Copy, Debug, PartialEq, Eq)]
pub enum Directive {
    /// Moves the lines that follow to a location.
    SetLoc,
    /// Continues where a bank was left: the one of its operand, or the current one.
    Bank,
    /// Continues where bank 02 or 03 was left.
    Block,
    /// A word in octal.
    Oct,
    /// The same.
    Octal,
    /// A decimal number.
    Dec,
    /// The same; its scales may end in `*`.
    DecStarred,
    /// Two words in octal.
    PairOct,
    /// A decimal number of two words.
    PairDec,
    /// The same; its scales may end in `*`.
    PairDecStarred,
    /// An address.
    Adres,
    /// The same, of another bank.
    Remadr,
    /// The same, of any bank.
    Genadr,
    /// A complete address: bank and offset.
    Cadr,
    /// The same.
    Fcadr,
    /// A complete address in erasable memory.
    Ecadr,
    /// A word for BB.
    Bbcon,
    /// An address and the word for BB to reach it.
    PairCadr,
    /// A verb and a noun.
    VerbNoun,
    /// A major mode.
    MajorMode,
    /// A name for a location.
    Is,
    /// The same.
    Equals,
    /// Reserves consecutive cells.
    Erase,
    /// Names the erasable bank of later words for BB.
    Ebank,
    /// Names the superbank of later words for BB.
    Sbank,
    /// Means nothing here.
    Count,
    /// Means nothing here.
    CountStarred,
    /// Means nothing here.
    Memory,
    /// Means nothing here.
    BankSum,
    /// An address for FB and Z, as two words.
    PairFcadr,
    /// A verb and a noun.
    NounVerb,
    /// The word for BB that Luminary and Colossus compute with.
    BbconStarred,
    /// A downlink word: a pair of words at a cell.
    Dnadr1,
    /// A downlink word: two pairs.
    Dnadr2,
    /// A downlink word: three pairs.
    Dnadr3,
    /// A downlink word: four pairs.
    Dnadr4,
    /// A downlink word: five pairs.
    Dnadr5,
    /// A downlink word: six pairs.
    Dnadr6,
    /// A downlink word: a list.
    Dnptr,
    /// A downlink word: a channel and the next one.
    Dnchan,
    /// The name stands for the distance of this line from the operand.
    IsMinus,
    /// The name stands for the cell.
    IsEcadr,
    /// Means nothing here.
    Subro,
    /// Checks that the name is one for a location.
    Check,
}

impl Directive {
    /// Every directive, once.
    pub const ALL: [Directive; 44] = [
        Directive::SetLoc,
        Directive::Bank,
        Directive::Block,
        Directive::Oct,
        Directive::Octal,
        Directive::Dec,
        Directive::DecStarred,
        Directive::PairOct,
        Directive::PairDec,
        Directive::PairDecStarred,
        Directive::Adres,
        Directive::Remadr,
        Directive::Genadr,
        Directive::Cadr,
        Directive::Fcadr,
        Directive::Ecadr,
        Directive::Bbcon,
        Directive::PairCadr,
        Directive::VerbNoun,
        Directive::MajorMode,
        Directive::Is,
        Directive::Equals,
        Directive::Erase,
        Directive::Ebank,
        Directive::Sbank,
        Directive::Count,
        Directive::CountStarred,
        Directive::Memory,
        Directive::BankSum,
        Directive::PairFcadr,
        Directive::NounVerb,
        Directive::BbconStarred,
        Directive::Dnadr1,
        Directive::Dnadr2,
        Directive::Dnadr3,
        Directive::Dnadr4,
        Directive::Dnadr5,
        Directive::Dnadr6,
        Directive::Dnptr,
        Directive::Dnchan,
        Directive::IsMinus,
        Directive::IsEcadr,
        Directive::Subro,
        Directive::Check,
    ];

    /// Returns the directive with this name.
    #[tactic(auto, unfolding(crate::specs::Mnemonic::directive_named, crate::specs::Mnemonic::all_directives))]
    pub fn from_name(name: &[u8]) -> Option<Directive>
        ensures { result ≡ directive_named name.now }
    {
        Directive::ALL
            .iter()
            .copied()
            .find(|directive| directive.name().as_bytes() == name)
    }

    #[tactic(auto, unfolding(crate::specs::Mnemonic::directive_name))]
    pub fn name(self) -> &'static str
        ensures { result.now ≡ directive_name self }
    {
        match self {
            Directive::SetLoc => "SETLOC",
            Directive::Bank => "BANK",
            Directive::Block => "BLOCK",
            Directive::Oct => "OCT",
            Directive::Octal => "OCTAL",
            Directive::Dec => "DEC",
            Directive::DecStarred => "DEC*",
            Directive::PairOct => "2OCT",
            Directive::PairDec => "2DEC",
            Directive::PairDecStarred => "2DEC*",
            Directive::Adres => "ADRES",
            Directive::Remadr => "REMADR",
            Directive::Genadr => "GENADR",
            Directive::Cadr => "CADR",
            Directive::Fcadr => "FCADR",
            Directive::Ecadr => "ECADR",
            Directive::Bbcon => "BBCON",
            Directive::PairCadr => "2CADR",
            Directive::VerbNoun => "VN",
            Directive::MajorMode => "MM",
            Directive::Is => "=",
            Directive::Equals => "EQUALS",
            Directive::Erase => "ERASE",
            Directive::Ebank => "EBANK=",
            Directive::Sbank => "SBANK=",
            Directive::Count => "COUNT",
            Directive::CountStarred => "COUNT*",
            Directive::Memory => "MEMORY",
            Directive::BankSum => "BNKSUM",
            Directive::PairFcadr => "2FCADR",
            Directive::NounVerb => "NV",
            Directive::BbconStarred => "BBCON*",
            Directive::Dnadr1 => "1DNADR",
            Directive::Dnadr2 => "2DNADR",
            Directive::Dnadr3 => "3DNADR",
            Directive::Dnadr4 => "4DNADR",
            Directive::Dnadr5 => "5DNADR",
            Directive::Dnadr6 => "6DNADR",
            Directive::Dnptr => "DNPTR",
            Directive::Dnchan => "DNCHAN",
            Directive::IsMinus => "=MINUS",
            Directive::IsEcadr => "=ECADR",
            Directive::Subro => "SUBRO",
            Directive::Check => "CHECK=",
        }
    }
}

/// Returns the basic order with this mnemonic.
#[tactic(auto, unfolding(crate::specs::Mnemonic::basic_named, agc_order::specs::Row::all_basics))]
pub fn basic_named(name: &[u8]) -> Option<Basic>
    ensures { result ≡ basic_named name.now }
{
    Basic::ALL
        .iter()
        .copied()
        .find(|order| order.row().mnemonic.as_bytes() == name)
}

/// Returns the extracode with this mnemonic.
#[tactic(auto, unfolding(crate::specs::Mnemonic::extracode_named, agc_order::specs::Row::all_extracodes))]
pub fn extracode_named(name: &[u8]) -> Option<Extracode>
    ensures { result ≡ extracode_named name.now }
{
    Extracode::ALL
        .iter()
        .copied()
        .find(|order| order.row().mnemonic.as_bytes() == name)
}

/// Returns whether a word is the mnemonic of an order, basic or extracode.
pub fn is_order(name: &[u8]) -> bool
    ensures { result ≡ is_order name.now }
{
    basic_named(name).is_some() || extracode_named(name).is_some()
}
